//! The flush ring of one worker.
ghost use Rattle.std.specs.Prelude.{◌≡◌, ◌≤◌, ◌<◌, ◌*◌, ◌↔◌, [], ◌∷◌, ◌++◌, take, drop, length, IsTrue, IsErr, IsOkUnless, IfOk, IfErr, OnOk, OnErr, IfSome, IfNone, MatchOption};
ghost use Rattle.std.specs.List.{list_any, AllByRecursion};
ghost use Rattle.iova_range.specs.Frames.{covers};
ghost use Rattle.iova_model.specs.Flushes.{entry_range, flushed_front, unflushed_rest};
ghost use Rattle.iova_model.specs.Valid.{IsRequestSizedEntry};
ghost use Rattle.iova_flush.specs.Rings.{frame_count, oldest_count, OldestWaits};

use circular_buffer::HeapCircularBuffer;
use iova_model::entry::Entry;
use iova_range::limits::{MAX_ENTRIES, MAX_FRAMES};
use iova_range::refusal::Refusal;
use std::alloc::Global;
use std::marker::Model;

/// The ranges of one worker that wait for a flush, oldest first: at most 255 entries of 1 to
/// 1,048,576 frames each (Linux 5.15 `include/linux/iova.h`: `iova_fq`). Contracts see it as the
/// list of its entries.
pub struct Ring {
    entries: HeapCircularBuffer<Entry>,
    frames: u64,
    /// The count of the oldest entry: most calls look at nothing else. `NO_ENTRY` where there is
    /// no entry.
    oldest: u64,
}

/// A count that is above the number of every flush.
const NO_ENTRY: u64 = u64::MAX;

/// Drops its parts. The proof stands here, once for all crates above.
impl Drop for Ring {
    fn drop(self) {
        let Ring {
            entries: _,
            frames: _,
            oldest: _,
        } = self;
    }
}

impl Model for Ring {
    ghost use Rattle.std.specs.Prelude.{List};
    ghost use Rattle.iova_model.specs.declared.entry.Entry.{Entry as E};
    ghost use Rattle.iova_flush.specs.Rings.{IsRingKept};

    ghost Value = { List E };

    ghost view = { λ r. r.entries.items };

    ghost invariant = { λ r. IsRingKept r.entries.capacity r.frames r.oldest r.entries.items };
}

impl Ring {
    /// A ring with no entry, and with the room for all that it will ever have: no other call of it
    /// takes memory. Refused by `NoMemory` where there is no such room.
    pub fn new(alloc: Global) -> Result<Self, Refusal>
        ensures empty { IfOk result (λ ring. ring ≡ []) }
        ensures refused { IsOkUnless result Refusal.NoMemory }
    {
        let Ok(entries) = HeapCircularBuffer::with_capacity(alloc, MAX_ENTRIES) else {
            return Err(Refusal::NoMemory);
        };
        Ok(Ring {
            entries,
            frames: 0,
            oldest: NO_ENTRY,
        })
    }

    /// Puts the entry last; its length is 1 to 1,048,576 frames. Exactly where there are 255
    /// entries, the ring stays as it is and the entry comes back (Linux 5.15
    /// `drivers/iommu/iova.c`: `queue_iova`, which flushes and drains a full ring itself; that the
    /// entry comes back is our own).
    #[inline(always)]
    pub fn add(&mut self, entry: Entry) -> Result<(), Entry>
        requires some { 1 ≤ entry.len }
        requires bounded { entry.len ≤ MAX_FRAMES }
        ensures full { IsErr result ↔ (length self.old ≡ MAX_ENTRIES) }
        ensures room { OnOk result (length self.old < MAX_ENTRIES) }
        ensures added { OnOk result (self.new ≡ self.old ++ entry ∷ []) }
        ensures returned { IfErr result (λ back. back ≡ entry) }
        ensures unchanged { OnErr result (self.new ≡ self.old) }
    {
        let is_first = self.entries.is_empty();
        self.entries.try_push_back(entry)?;
        self.frames += entry.len;
        if is_first {
            self.oldest = entry.count;
        }
        Ok(())
    }

    /// Takes the oldest entry, exactly where its count is below `finish`, the finish count of the
    /// flushes; else the ring stays as it is. A caller drains a ring by calling this until it
    /// answers `None` (Linux 5.15 `drivers/iommu/iova.c`: `fq_ring_free`).
    #[inline]
    pub fn take_flushed(&mut self, finish: u64) -> Option<Entry>
        ensures oldest { IfSome result (λ entry. self.old ≡ entry ∷ self.new) }
        ensures below { IfSome result (λ entry. entry.count < finish) }
        ensures sized { IfSome result IsRequestSizedEntry }
        ensures waits { IfNone result (OldestWaits finish self.old) }
        ensures unchanged { IfNone result (self.new ≡ self.old) }

        // What calls until `None` take out, and what they leave.
        ensures next { MatchOption result (flushed_front finish self.old ≡ [])
            (λ entry. flushed_front finish self.old ≡ entry ∷ flushed_front finish self.new) }
        ensures rest { unflushed_rest finish self.new ≡ unflushed_rest finish self.old }
        ensures left { IfNone result (unflushed_rest finish self.new ≡ self.new) }
    {
        if self.waits(finish) {
            return None;
        }
        let entry = self.entries.pop_front()?;
        self.frames -= entry.len;
        self.oldest = oldest_of(&self.entries);
        Some(entry)
    }

    /// The entries, oldest first, in two slices.
    #[inline]
    pub fn as_slices(&self) -> (&[Entry], &[Entry])
        ensures is { result.0.now ++ result.1.now ≡ self.now }
        ensures sized { AllByRecursion IsRequestSizedEntry self.now }
        ensures bounded { length self.now ≤ MAX_ENTRIES }
    {
        self.entries.as_slices()
    }

    /// Takes the `count` oldest entries out, which have so many frames together.
    #[inline]
    pub fn drop_oldest(&mut self, count: usize, frames: u64)
        requires there { count ≤ length self.old }
        requires frames { frames ≡ frame_count (take count self.old) }
        ensures { self.new ≡ drop count self.old }
    {
        self.entries.truncate_front(self.entries.len() - count);
        self.frames -= frames;
        self.oldest = oldest_of(&self.entries);
    }

    /// Whether the oldest entry waits, or there is none: then `take_flushed` takes nothing.
    #[inline]
    pub fn waits(&self, finish: u64) -> bool
        ensures is { IsTrue result ↔ OldestWaits finish self.now }
        ensures none { IsTrue result → flushed_front finish self.now ≡ [] }
        ensures all { IsTrue result → unflushed_rest finish self.now ≡ self.now }
    {
        finish <= self.oldest
    }

    /// How many entries there are, at most 255.
    #[inline]
    pub fn len(&self) -> usize
        ensures is { result ≡ length self.now }
        ensures bounded { result ≤ MAX_ENTRIES }
    {
        self.entries.len()
    }

    /// Whether there is no entry.
    #[inline]
    pub fn is_empty(&self) -> bool
        ensures empty { IsTrue result ↔ (self.now ≡ []) }
    {
        self.entries.is_empty()
    }

    /// Whether there are 255 entries, so that one more is refused.
    #[inline]
    pub fn is_full(&self) -> bool
        ensures full { IsTrue result ↔ (length self.now ≡ MAX_ENTRIES) }
        ensures bounded { length self.now ≤ MAX_ENTRIES }
    {
        self.len() == MAX_ENTRIES
    }

    /// How many frames the entries have together. The number is kept, so that this walks over
    /// nothing.
    #[inline]
    pub fn frames(&self) -> u64
        ensures is { result ≡ frame_count self.now }
        ensures bounded { result ≤ MAX_ENTRIES * MAX_FRAMES }
        ensures sized { AllByRecursion IsRequestSizedEntry self.now }
    {
        self.frames
    }

    /// Whether an entry has the frame. It walks over the entries.
    pub fn holds(&self, frame: u64) -> bool
        ensures { result ≡ list_any (λ e. covers frame (entry_range e)) self.now }
    {
        self.entries.iter().any(|entry| has(entry, frame))
    }
}

// The count of the oldest entry, or `NO_ENTRY`.
#[inline]
fn oldest_of(entries: &HeapCircularBuffer<Entry>) -> u64
    ensures { result ≡ oldest_count entries.now.items }
{
    match entries.front() {
        Some(entry) => entry.count,
        None => NO_ENTRY,
    }
}

// Whether the frame is one of the entry's.
fn has(entry: &Entry, frame: u64) -> bool
    ensures { result ≡ covers frame (entry_range entry.now) }
{
    entry.lo <= frame && frame - entry.lo < entry.len
}
