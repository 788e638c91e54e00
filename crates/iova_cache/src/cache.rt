//! A cache: what one thread takes and gives up without the domain.
ghost use Rattle.std.specs.Prelude.{◌≡◌, ◌≢◌, ◌≤◌, ◌<◌, ◌^◌, ℕ, [], true, false, find, length, Some, None, Err, IfOk, OnOk, OnErr, IfSome, IfNone, IsOkUnless};
ghost use Rattle.iova_range.specs.Frames.{Frames};
ghost use Rattle.iova_model.specs.Clients.{begins_at};
ghost use Rattle.std.specs.Bool.{OnTrue, OnFalse};
ghost use Rattle.iova_cache.specs.declared.magazine.TheConstants.{MAGAZINE};
ghost use Rattle.iova_cache.specs.Magazines.{magazine_of, Misses};
ghost use Rattle.iova_cache.specs.Waiting.{IsCachedEntry};
ghost use Rattle.iova_cache.specs.Caches.{reach, HasOrder, HasMoreRoom, IsMet, IsGivenUp, IsSettled, entry_at, order_in, with_entry, new_cache};

use crate::magazine::Magazines;
use crate::ring::Ring;
use crate::table::Table;
use iova_model::entry::Entry;
use iova_model::step::ClientId;
use iova_range::limits::{MOST_CACHED, ORDERS, SAC_LIMIT};
use iova_range::range::Range;
use iova_range::refusal::Refusal;
use iova_range::sizes::{is_cached, order_of_need};
use std::alloc::Global;
use std::marker::Model;

/// Why a cache gives no range.
#[derive(Clone, Copy, Debug, PartialEq, Eq)]
pub enum Unmet {
    /// No magazine has the order of the request: it asks for no frame, or for more than 32.
    NoOrder,

    /// The newest range of the order has a frame above the limit.
    Miss,

    /// The magazine of the order is empty.
    Empty,

    /// What the user holds has no room for one range more, and memory is refused.
    NoMemory,
}

/// Why a cache keeps what the user would give up.
#[derive(Clone, Copy, Debug, PartialEq, Eq)]
pub enum Kept {
    /// The user holds no range that begins there.
    NotHeld,

    /// The range has more than 32 frames: it goes back by `unmap_by`, to the domain.
    NoOrder,

    /// 255 ranges wait.
    RingFull,
}

/// The ranges of one client of a domain, for a user that is one thread at a time. It takes no lock.
///
/// Contracts see it as a `CacheState`. A range is at one of three places: in a magazine, where
/// nobody has it; the user's; or in the ring, where it waits for a flush that begins later.
pub struct Cache {
    pub(crate) worker: u64,
    pub(crate) client: ClientId,
    pub(crate) most: u64,
    pub(crate) magazines: Magazines,
    pub(crate) held: Table,
    pub(crate) ring: Ring,
}

/// Drops its parts. The proof stands here, once for all crates above.
impl Drop for Cache {
    fn drop(self) {
        let Cache {
            worker: _,
            client: _,
            most: _,
            magazines: _,
            held: _,
            ring: _,
        } = self;
    }
}

impl Model for Cache {
    ghost use Rattle.std.specs.Prelude.{nat_lt, length};
    ghost use Rattle.iova_cache.specs.Caches.{CacheState, AreGivenSizes};

    ghost Value = { CacheState };

    ghost view = { λ c. record {
      worker = c.worker;
      client = c.client;
      most = c.most;
      magazines = c.magazines;
      held = c.held.ranges;
      room = nat_lt (length c.held.ranges) c.held.capacity;
      ring = c.ring;
    } };

    ghost invariant = { λ c. AreGivenSizes c.held.ranges };
}

impl Cache {
    /// A cache with no range, of a client that has none. `NoMemory` where a growth is refused.
    pub(crate) fn new(
        alloc: Global,
        worker: u64,
        client: ClientId,
        sac: bool,
    ) -> Result<Cache, Refusal>
        ensures value { IfOk result (λ c. c ≡ new_cache worker client sac) }
        ensures refused { IsOkUnless result Refusal.NoMemory }
    {
        let most = if sac { SAC_LIMIT } else { u64::MAX };
        let magazines = Magazines::new(alloc)?;
        let held = Table::new(alloc)?;
        let ring = Ring::new(alloc)?;
        Ok(Cache {
            worker,
            client,
            most,
            magazines,
            held,
            ring,
        })
    }

    /// Gives the user a range of the magazines: for 1 to 32 frames the newest of its order, where
    /// that has no frame above `limit`, nor above 4 GiB for a client that is `sac`. It asks no
    /// domain, and takes memory only where what the user holds has to grow, which is tried last.
    pub fn alloc(&mut self, frames: u64, limit: u64) -> Result<Range, Unmet>
        ensures met { IfOk result (λ r. (order : ℕ) × HasOrder frames order
            × IsMet self.old self.new order limit r) }
        ensures no_order { result ≡ Err Unmet.NoOrder
            → (order : ℕ) → HasOrder frames order → ⊥ }
        ensures miss { result ≡ Err Unmet.Miss → (order : ℕ) × HasOrder frames order
            × Misses self.old.magazines order (reach self.old limit) }
        ensures empty { result ≡ Err Unmet.Empty → (order : ℕ) × HasOrder frames order
            × (magazine_of self.old.magazines order ≡ []) }
        ensures no_memory { result ≡ Err Unmet.NoMemory → self.old.room ≡ false }
        ensures unchanged { OnErr result (self.new ≡ self.old) }
    {
        if !is_cached(frames) {
            return Err(Unmet::NoOrder);
        }
        let order = order_of_need(frames);
        self.magazines.look(order, limit.min(self.most))?;
        let Ok(()) = self.make_room() else {
            return Err(Unmet::NoMemory);
        };
        self.get(order, limit)
    }

    /// What `alloc` does in the fewest instructions, where it needs no memory and the range can be
    /// found at one look later on. None in any other case, and where `alloc` refuses; then nothing
    /// has changed.
    #[inline(always)]
    pub fn alloc_fast(&mut self, frames: u64, limit: u64) -> Option<Range>
        ensures met { IfSome result (λ r. (order : ℕ) × HasOrder frames order
            × IsMet self.old self.new order limit r) }
        ensures unchanged { IfNone result (self.new ≡ self.old) }
    {
        if !is_cached(frames) {
            return None;
        }
        self.get_fast(order_of_need(frames), limit)
    }

    /// Gives the user the newest range of an order, 0 to 5, where it fits and needs no memory.
    #[inline(always)]
    fn get_fast(&mut self, order: u8, limit: u64) -> Option<Range>
        requires { order < ORDERS }
        ensures met { IfSome result (IsMet self.old self.new order limit) }
        ensures unchanged { IfNone result (self.new ≡ self.old) }
    {
        let range = self.magazines.newest_up_to(order, limit)?;
        if range.hi() > self.most {
            return None;
        }
        if !self.held.insert_at_home(range) {
            return None;
        }
        self.magazines.drop_newest(order);
        Some(range)
    }

    /// Makes room for one range more of the user's, so that the next one comes in without memory.
    /// `NoMemory` where there is no room and memory is refused, and nothing has changed.
    pub fn make_room(&mut self) -> Result<(), Refusal>
        ensures room { OnOk result (HasMoreRoom self.old self.new) }
        ensures full { OnErr result (self.old.room ≡ false) }
        ensures refused { IsOkUnless result Refusal.NoMemory }
        ensures unchanged { OnErr result (self.new ≡ self.old) }
    {
        if self.held.has_room() {
            return Ok(());
        }
        self.held.grow()
    }

    /// The newest range of an order, 0 to 5, goes to the user.
    fn get(&mut self, order: u8, limit: u64) -> Result<Range, Unmet>
        requires order { order < ORDERS }
        requires room { self.old.room ≡ true }
        ensures met { IfOk result (IsMet self.old self.new order limit) }
        ensures kind { (result ≢ Err Unmet.NoOrder) × (result ≢ Err Unmet.NoMemory) }
        ensures miss { result ≡ Err Unmet.Miss
            → Misses self.old.magazines order (reach self.old limit) }
        ensures empty { result ≡ Err Unmet.Empty → magazine_of self.old.magazines order ≡ [] }
        ensures unchanged { OnErr result (self.new ≡ self.old) }
    {
        let range = self.magazines.take_up_to(order, limit.min(self.most))?;
        self.held.insert(range);
        Ok(range)
    }

    /// The user gives up the range that begins there: the device has stopped using it, and its
    /// mapping is gone. It waits in the ring with the count `start`, the number of the last flush
    /// that has begun since: a count that is read late is only higher, one that was read before
    /// isn't sound. Refused, with no change, by `NotHeld` exactly where the user holds no range
    /// that begins there, else by `NoOrder` exactly where that range has more than 32 frames, else
    /// by `RingFull` exactly where 255 wait.
    pub fn unmap(&mut self, lo: u64, start: u64) -> Result<Range, Kept>
        ensures given_up { IfOk result (λ r. (find (begins_at lo) self.old.held ≡ Some r)
            × (r.len ≤ MOST_CACHED) × IsGivenUp self.old self.new r start) }
        ensures room { OnOk result (length self.old.ring < 255) }
        ensures not_held { result ≡ Err Kept.NotHeld → find (begins_at lo) self.old.held ≡ None }
        ensures no_order { result ≡ Err Kept.NoOrder → (r : Frames)
            × (find (begins_at lo) self.old.held ≡ Some r) × (MOST_CACHED < r.len) }
        ensures full { result ≡ Err Kept.RingFull → (length self.old.ring ≡ 255) × ((r : Frames)
            × (find (begins_at lo) self.old.held ≡ Some r) × (r.len ≤ MOST_CACHED)) }
        ensures unchanged { OnErr result (self.new ≡ self.old) }
    {
        if self.ring.is_full() {
            return Err(self.kept(lo));
        }
        let range = self.held.take_cached(lo)?;
        self.ring.add(entry_of(range, start));
        Ok(range)
    }

    /// What `unmap` does in the fewest instructions, where one look finds the range. None in any
    /// other case, and where `unmap` refuses; then nothing has changed.
    #[inline(always)]
    pub fn unmap_fast(&mut self, lo: u64, start: u64) -> Option<Range>
        ensures given_up { IfSome result (λ r. (find (begins_at lo) self.old.held ≡ Some r)
            × (r.len ≤ MOST_CACHED) × IsGivenUp self.old self.new r start) }
        ensures room { IfSome result (λ r. length self.old.ring < 255) }
        ensures unchanged { IfNone result (self.new ≡ self.old) }
    {
        if self.ring.is_full() {
            return None;
        }
        let range = self.held.take_at_home(lo)?;
        self.ring.add(entry_of(range, start));
        Some(range)
    }

    /// Why what begins there is kept, where 255 wait.
    #[cold]
    #[inline(never)]
    fn kept(&self, lo: u64) -> Kept
        ensures not_held { result ≡ Kept.NotHeld → find (begins_at lo) self.now.held ≡ None }
        ensures no_order { result ≡ Kept.NoOrder → (r : Frames)
            × (find (begins_at lo) self.now.held ≡ Some r) × (MOST_CACHED < r.len) }
        ensures full { result ≡ Kept.RingFull → (r : Frames)
            × (find (begins_at lo) self.now.held ≡ Some r) × (r.len ≤ MOST_CACHED) }
    {
        let Some(range) = self.held.find(lo) else {
            return Kept::NotHeld;
        };
        if range.len() > MOST_CACHED {
            return Kept::NoOrder;
        }
        Kept::RingFull
    }

    /// Takes out of the ring what a flush has covered that began later, oldest first: each range
    /// whose count is below `newest`, the greatest number of a flush that has ended well, goes to
    /// the magazine of its order, until one is full. It answers how many there were. What is clean
    /// and finds its magazine full stays, as do those behind it.
    pub fn settle(&mut self, newest: u64) -> u64
        ensures { IsSettled self.old self.new newest result }
    {
        let count = self.ring.put_flushed(&mut self.magazines, newest);
        self.ring.drop_oldest(count);
        count as u64
    }

    /// The client whose ranges it has.
    pub fn client(&self) -> ClientId
        ensures { result ≡ self.now.client }
    {
        self.client
    }

    /// How many ranges wait in the ring, at most 255.
    #[inline]
    pub fn waiting(&self) -> usize
        ensures is { result ≡ length self.now.ring }
        ensures bounded { result ≤ 255 }
    {
        self.ring.len()
    }
}

/// A range that was given up when that many flushes had begun.
#[inline(always)]
fn entry_of(range: Range, start: u64) -> Entry
    ensures { result ≡ entry_at range start }
{
    Entry {
        lo: range.lo(),
        len: range.len(),
        count: start,
    }
}

/// The range of an entry goes into the magazine of its order, where there aren't 256.
#[inline(always)]
pub(crate) fn put_entry(magazines: &mut Magazines, entry: Entry) -> bool
    requires { IsCachedEntry entry }
    ensures put { OnTrue result (magazines.new ≡ with_entry magazines.old entry) }
    ensures full { OnFalse result
        (length (magazine_of magazines.old (order_in entry.len)) ≡ MAGAZINE) }
    ensures unchanged { OnFalse result (magazines.new ≡ magazines.old) }
{
    let range = Range::new(entry.lo, entry.len);
    magazines.put(order_of_need(entry.len), range)
}
