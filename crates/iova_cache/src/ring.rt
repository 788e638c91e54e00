//! The ranges of a cache that wait for a flush.
ghost use Rattle.std.specs.Prelude.{◌≡◌, ◌≤◌, ◌<◌, ◌↔◌, [], ◌∷◌, ◌++◌, length, drop, replicate, IsTrue, IfOk, IsOkUnless};
ghost use Rattle.std.specs.List.{AllByRecursion};
ghost use Rattle.iova_cache.specs.Waiting.{IsCachedEntry, IsRing, no_entry, window};
ghost use Rattle.iova_cache.specs.Caches.{IsSettling};

use crate::cache::put_entry;
use crate::magazine::Magazines;
use iova_model::entry::Entry;
use iova_range::limits::MAX_ENTRIES;
use iova_range::refusal::Refusal;
use std::alloc::Global;
use std::marker::Model;

/// The slots of a ring, one more than it has entries at most: a power of two, so that a place needs
/// no division.
const SLOTS: usize = 256;

/// At most 255 ranges that have an order, the oldest first, each with the number of the last flush
/// that had begun when it was given up. Contracts see it as the list of its entries.
pub(crate) struct Ring {
    slots: Vec<Entry>,
    head: usize,
    count: usize,
}

/// Drops its parts. The proof stands here, once for all crates above.
impl Drop for Ring {
    fn drop(self) {
        let Ring {
            slots: _,
            head: _,
            count: _,
        } = self;
    }
}

impl Model for Ring {
    ghost use Rattle.std.specs.Prelude.{List};
    ghost use Rattle.iova_model.specs.declared.entry.Entry.{Entry as E};
    ghost use Rattle.iova_cache.specs.Waiting.{IsRing, window};

    ghost Value = { List E };

    ghost view = { λ r. window r.slots.items r.head r.count };

    ghost invariant = { λ r. IsRing r.slots.items r.head r.count };
}

/// So many slots with nothing in them.
fn new_slots(alloc: Global) -> Result<Vec<Entry>, Refusal>
    ensures value { IfOk result (λ v. v.items ≡ replicate SLOTS no_entry) }
    ensures refused { IsOkUnless result Refusal.NoMemory }
{
    let Ok(mut slots) = Vec::with_capacity(alloc, SLOTS) else {
        return Err(Refusal::NoMemory);
    };
    for _ in 0..SLOTS {
        let empty = Entry {
            lo: 0,
            len: 0,
            count: 0,
        };
        slots.push(empty).unwrap();
    }
    Ok(slots)
}

impl Ring {
    /// A ring with no entry, and with the room for all that it will ever have. `NoMemory` where
    /// there is no such room.
    pub(crate) fn new(alloc: Global) -> Result<Ring, Refusal>
        ensures empty { IfOk result (λ ring. ring ≡ []) }
        ensures refused { IsOkUnless result Refusal.NoMemory }
    {
        let slots = new_slots(alloc)?;
        Ok(Ring {
            slots,
            head: 0,
            count: 0,
        })
    }

    /// How many entries there are, at most 255.
    #[inline(always)]
    pub(crate) fn len(&self) -> usize
        ensures is { result ≡ length self.now }
        ensures bounded { result ≤ MAX_ENTRIES }
        ensures cached { AllByRecursion IsCachedEntry self.now }
    {
        self.count
    }

    /// Whether there are 255.
    #[inline(always)]
    pub(crate) fn is_full(&self) -> bool
        ensures full { IsTrue result ↔ (length self.now ≡ MAX_ENTRIES) }
        ensures bounded { length self.now ≤ MAX_ENTRIES }
    {
        self.count == MAX_ENTRIES
    }

    /// Puts the entry last, where there is room.
    #[inline(always)]
    pub(crate) fn add(&mut self, entry: Entry)
        requires room { length self.old < MAX_ENTRIES }
        requires cached { IsCachedEntry entry }
        ensures { self.new ≡ self.old ++ entry ∷ [] }
    {
        let place = (self.head + self.count) % SLOTS;
        self.slots[place] = entry;
        self.count += 1;
    }

    /// Takes so many of the oldest entries out.
    #[inline(always)]
    pub(crate) fn drop_oldest(&mut self, count: usize)
        requires { count ≤ length self.old }
        ensures { self.new ≡ drop count self.old }
    {
        self.head = (self.head + count) % SLOTS;
        self.count -= count;
    }

    /// The oldest entries go into the magazines, as long as they are clean and find room. Answers
    /// how many there were; they are still in the ring.
    #[inline(always)]
    pub(crate) fn put_flushed(&self, magazines: &mut Magazines, newest: u64) -> usize
        ensures { IsSettling magazines.old magazines.new self.now newest result }
    {
        put_window(
            magazines,
            self.slots.as_slice(),
            self.head,
            self.count,
            newest,
        )
    }
}

/// What `put_flushed` does, over so many slots from the head on.
#[inline(always)]
fn put_window(
    magazines: &mut Magazines,
    slots: &[Entry],
    head: usize,
    waiting: usize,
    newest: u64,
) -> usize
    requires { IsRing slots.now head waiting }
    ensures { IsSettling magazines.old magazines.new (window slots.now head waiting) newest result }
{
    for count in 0..waiting {
        let entry = slots[(head + count) % SLOTS];
        if newest <= entry.count {
            return count;
        }
        if !put_entry(magazines, entry) {
            return count;
        }
    }
    waiting
}
