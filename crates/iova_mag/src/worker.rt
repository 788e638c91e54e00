//! The magazines of one worker: a loaded and a previous one for each order.
ghost use Rattle.std.specs.Prelude.{◌≡◌, ◌-◌, ◌≤◌, ◌<◌, ◌^◌, ◌↔◌, ◌||◌, ℕ, [], length, replicate, IsTrue, IfOk, IsErr};
ghost use Rattle.std.specs.Bool.{OnTrue, OnFalse};
ghost use Rattle.std.specs.List.{list_any};
ghost use Rattle.iova_range.specs.Bounds.{first_profile};
ghost use Rattle.iova_range.specs.Frames.{covers};
ghost use Rattle.iova_model.specs.State.{cache_holders};
ghost use Rattle.iova_model.specs.Valid.{IsCache};
ghost use Rattle.iova_model.specs.Effects.{frames_of};
ghost use Rattle.iova_mag.specs.Magazines.{magazine_of};
ghost use Rattle.iova_mag.specs.Workers.{IsWorkerCache, new_pair, new_worker, cache_of, with_cache, cache_after_get, cache_after_put, renewed_cache, has_frame, frames_in, AreEmpty, AreFull, HasRoom, GivesNewest, got_from, newest, without_newest};

use crate::magazine::Magazine;
use iova_range::limits::ORDERS;
use iova_range::profile::Profile;
use iova_range::refusal::Refusal;
use std::alloc::{AllocError, Global};
use std::marker::Model;
use std::mem;

/// What a worker's magazines of one order give.
#[derive(Clone, Copy, Debug, PartialEq, Eq)]
pub enum Got {
    /// The first frame of a range, which has left them.
    Hit(u64),

    /// They have entries, and none of those in loaded fits below the limit.
    Miss,

    /// Both are empty.
    Empty,
}

/// The two magazines of one order. Each has a place of its own on the heap, so that they change
/// places by two pointers.
#[derive(Drop)]
struct Pair {
    loaded: Box<Magazine>,
    previous: Box<Magazine>,
}

impl Model for Pair {
    ghost use Rattle.std.specs.Prelude.{◌≡◌};
    ghost use Rattle.iova_model.specs.Valid.{IsCache};
    ghost use Rattle.iova_mag.specs.Workers.{Pair as Seen};

    ghost Value = { Seen };

    ghost view = { λ p. record {
      profile = p.loaded.value.profile;
      cache = record { loaded = p.loaded.value.entries; previous = p.previous.value.entries };
    } };

    ghost invariant = { λ p. (p.previous.value.profile ≡ p.loaded.value.profile)
        × IsCache p.loaded.value.profile
        (record { loaded = p.loaded.value.entries; previous = p.previous.value.entries }) };
}

impl Pair {
    fn new(alloc: Global, profile: Profile) -> Result<Self, AllocError>
        ensures { IfOk result (λ p. p ≡ new_pair profile) }
    {
        let loaded = Box::new(alloc, Magazine::new_for(profile))?;
        let previous = Box::new(alloc, Magazine::new_for(profile))?;
        Ok(Pair { loaded, previous })
    }

    #[inline(always)]
    fn try_get(&mut self, order: u8, limit: u64) -> Got
        requires { order < ORDERS }
        ensures value { result ≡ got_from self.old.cache limit (2 ^ order) }
        ensures left { self.new ≡ record self.old
            { cache = cache_after_get self.old.cache limit (2 ^ order) } }
        ensures empty { result ≡ Got.Empty → AreEmpty self.old.cache }
        ensures sound { IsCache self.new.profile self.new.cache }
    {
        if self.loaded.is_empty() {
            if self.previous.is_empty() {
                return Got::Empty;
            }
            mem::swap(&mut self.loaded, &mut self.previous);
        }
        match self.loaded.pop(limit, 1 << order) {
            Some(lo) => Got::Hit(lo),
            None => Got::Miss,
        }
    }

    #[inline(always)]
    fn gives_newest(&self, order: u8, size: u64, limit: u64) -> bool
        requires order { order < ORDERS }
        requires size { size ≡ 2 ^ order }
        ensures { IsTrue result → GivesNewest self.now.cache limit (2 ^ order) }
    {
        self.loaded.gives_newest(limit, size)
    }

    fn load(&mut self, magazine: Magazine)
        requires empty { AreEmpty self.old.cache }
        requires profile { magazine.profile ≡ self.old.profile }
        ensures loaded { self.new ≡ record self.old
            { cache = record { loaded = magazine.entries; previous = [] } } }
        ensures sound { IsCache self.new.profile self.new.cache }
    {
        // for the proof: the magazine has no more entries than it is full at
        let _len = magazine.len();
        *self.loaded = magazine;
    }

    #[inline]
    fn try_put(&mut self, lo: u64) -> bool
        requires { lo < 2 ^ 40 }
        ensures room { IsTrue result ↔ HasRoom self.old.profile self.old.cache }
        ensures done { OnTrue result
            (self.new ≡ record self.old {
              cache = cache_after_put self.old.profile self.old.cache
                  lo;
            }) }
        ensures refused { OnFalse result ((self.new ≡ self.old)
            × AreFull self.old.profile self.old.cache) }
        ensures same { self.new.profile ≡ self.old.profile }
        ensures sound { IsCache self.new.profile self.new.cache }
    {
        if self.loaded.is_full() {
            if self.previous.is_full() {
                return false;
            }
            mem::swap(&mut self.loaded, &mut self.previous);
        }
        self.loaded.push(lo);
        true
    }

    fn renew(&mut self) -> Magazine
        ensures value { result ≡ magazine_of self.old.profile self.old.cache.loaded }
        ensures left { self.new ≡ record self.old { cache = renewed_cache self.old.cache } }
        ensures sound { IsCache self.new.profile self.new.cache }
    {
        let empty = Magazine::new_for(self.loaded.profile());
        mem::replace(&mut *self.loaded, empty)
    }

    #[inline]
    fn take_newest(&mut self) -> Option<u64>
        ensures value { result ≡ newest self.old.cache }
        ensures left { self.new ≡ record self.old { cache = without_newest self.old.cache } }
        ensures sound { IsCache self.new.profile self.new.cache }
    {
        if self.loaded.is_empty() {
            self.previous.take_newest()
        } else {
            self.loaded.take_newest()
        }
    }

    fn has_frame(&self, frame: u64, order: u8) -> bool
        requires { order < ORDERS }
        ensures { result ≡ has_frame frame order self.now.cache }
    {
        self.loaded.has_frame(frame, order) || self.previous.has_frame(frame, order)
    }

    fn frames(&self, order: u8) -> u64
        requires { order < ORDERS }
        ensures is { result ≡ frames_in order self.now.cache }
        ensures few { result ≤ 2 ^ 13 }
    {
        ((self.loaded.len() + self.previous.len()) as u64) << order
    }
}

/// One worker's magazines of the six orders, two of each: gets and puts go to loaded, and previous
/// stands after it. All memory is taken by `new` (Linux 5.15 `drivers/iommu/iova.c`: `struct
/// iova_cpu_rcache`).
pub struct WorkerCache {
    profile: Profile,
    pairs: Vec<Pair>,
}

/// Drops its parts. The proof stands here, once for all crates above.
impl Drop for WorkerCache {
    fn drop(self) {
        let WorkerCache {
            profile: _,
            pairs: _,
        } = self;
    }
}

impl Model for WorkerCache {
    ghost use Rattle.std.specs.Prelude.{◌≡◌, map, All};
    ghost use Rattle.iova_mag.specs.Workers.{WorkerCache as Seen, Pair as SeenPair, IsWorkerCache};

    ghost Value = { Seen };

    ghost view = { λ w. record {
      profile = w.profile;
      caches = map (λ (p : SeenPair). p.cache) w.pairs.items;
    } };

    ghost use Rattle.iova_mag.specs.Inside.{ArePairsSound};

    ghost invariant = { λ w. ArePairsSound w.profile w.pairs.items };
}

impl WorkerCache {
    /// Empty magazines of the first profile. `NoMemory` where a growth is refused.
    pub fn new(alloc: Global) -> Result<Self, Refusal>
        ensures value { IfOk result (λ w. w ≡ new_worker first_profile) }
        ensures refused { IsErr result → result ≡ Err Refusal.NoMemory }
    {
        WorkerCache::new_for(alloc, Profile::one())
    }

    /// Empty magazines of this profile. `NoMemory` where a growth is refused.
    pub fn new_for(alloc: Global, profile: Profile) -> Result<Self, Refusal>
        ensures value { IfOk result (λ w. w ≡ new_worker profile) }
        ensures refused { IsErr result → result ≡ Err Refusal.NoMemory }
    {
        // for the proof: the profile is one of the two
        let _mag = profile.mag();
        let Ok(pairs) = new_pairs(alloc, profile) else {
            return Err(Refusal::NoMemory);
        };
        Ok(WorkerCache { profile, pairs })
    }

    /// The profile.
    #[inline]
    pub fn profile(&self) -> Profile
        ensures is { result ≡ self.now.profile }
        ensures sound { IsWorkerCache self.now }
    {
        self.profile
    }

    /// Gets an entry of this order, 0 to 5, whose range has no frame above `limit`: where loaded is
    /// empty and previous isn't, they change places; then the last entry of loaded that fits is
    /// `Hit`. `Miss` where none fits, and a change of places stands. `Empty` exactly where both are
    /// empty (Linux 5.15 `drivers/iommu/iova.c`: `__iova_rcache_get`).
    #[inline(always)]
    pub fn try_get(&mut self, order: u8, limit: u64) -> Got
        requires { order < ORDERS }
        ensures value { result ≡ got_from (cache_of self.old order) limit (2 ^ order) }
        ensures left { self.new
            ≡ with_cache self.old order (cache_after_get (cache_of self.old order) limit
            (2 ^ order)) }
        ensures empty { result ≡ Got.Empty → AreEmpty (cache_of self.old order) }
        ensures sound { IsWorkerCache self.new }
    {
        let pair = &mut self.pairs[order as usize];
        pair.try_get(order, limit)
    }

    /// Whether loaded of this order, 0 to 5, has a newest entry, whose range has no frame above
    /// `limit`: `try_get` then gives it. A range of the order has `size` frames.
    #[inline(always)]
    pub fn gives_newest(&self, order: u8, size: u64, limit: u64) -> bool
        requires order { order < ORDERS }
        requires size { size ≡ 2 ^ order }
        ensures { IsTrue result → GivesNewest (cache_of self.now order) limit (2 ^ order) }
    {
        self.pairs[order as usize].gives_newest(order, size, limit)
    }

    /// Makes a magazine of the same profile loaded, where both of this order, 0 to 5, are empty
    /// (Linux 5.15 `drivers/iommu/iova.c`: `__iova_rcache_get`).
    pub fn load(&mut self, order: u8, magazine: Magazine)
        requires order { order < ORDERS }
        requires empty { AreEmpty (cache_of self.old order) }
        requires profile { magazine.profile ≡ self.old.profile }
        ensures loaded { self.new ≡ with_cache self.old order
            (record { loaded = magazine.entries; previous = [] }) }
        ensures sound { IsWorkerCache self.new }
    {
        let pair = &mut self.pairs[order as usize];
        pair.load(magazine);
    }

    /// Puts a first frame below 2^40 into this order's magazines, order 0 to 5: where loaded is
    /// full and previous isn't, they change places; then it goes last into loaded. False exactly
    /// where both are full, and nothing changes (Linux 5.15 `drivers/iommu/iova.c`:
    /// `__iova_rcache_insert`).
    #[inline]
    pub fn try_put(&mut self, order: u8, lo: u64) -> bool
        requires order { order < ORDERS }
        requires small { lo < 2 ^ 40 }
        ensures room { IsTrue result ↔ HasRoom self.old.profile (cache_of self.old order) }
        ensures done { OnTrue result
            (self.new ≡ with_cache self.old order
            (cache_after_put self.old.profile (cache_of self.old order) lo)) }
        ensures refused { OnFalse result ((self.new ≡ self.old)
            × AreFull self.old.profile (cache_of self.old order)) }
        ensures sound { IsWorkerCache self.new }
    {
        let pair = &mut self.pairs[order as usize];
        pair.try_put(lo)
    }

    /// Takes this order's loaded magazine, order 0 to 5, which is full, and leaves an empty one in
    /// its place (Linux 5.15 `drivers/iommu/iova.c`: `__iova_rcache_insert`).
    pub fn renew(&mut self, order: u8) -> Magazine
        requires order { order < ORDERS }
        requires full { length (cache_of self.old order).loaded ≡ self.old.profile.mag }
        ensures value { result ≡ magazine_of self.old.profile (cache_of self.old order).loaded }
        ensures left { self.new ≡ with_cache self.old order
            (renewed_cache (cache_of self.old order)) }
        ensures sound { IsWorkerCache self.new }
    {
        let pair = &mut self.pairs[order as usize];
        pair.renew()
    }

    /// Takes the newest entry of this order, 0 to 5, out of loaded, or out of previous where loaded
    /// is empty; they don't change places. None where both are empty.
    #[inline]
    pub fn take_newest(&mut self, order: u8) -> Option<u64>
        requires { order < ORDERS }
        ensures value { result ≡ newest (cache_of self.old order) }
        ensures left { self.new ≡ with_cache self.old order
            (without_newest (cache_of self.old order)) }
        ensures sound { IsWorkerCache self.new }
    {
        let pair = &mut self.pairs[order as usize];
        pair.take_newest()
    }

    /// Whether a range that an entry begins has the frame.
    pub fn has_frame(&self, frame: u64) -> bool
        ensures { (worker : ℕ) → result
            ≡ list_any (λ h. covers frame h.range) (cache_holders worker 0 self.now.caches) }
    {
        for order in 0..ORDERS {
            if self.pairs[order].has_frame(frame, order as u8) {
                return true;
            }
        }
        false
    }

    /// How many frames the ranges have that their entries begin, fewer than 2^16. The lengths of
    /// the 12 magazines are looked at, and no entry is.
    pub fn frames(&self) -> u64
        ensures is { (worker : ℕ) → result
            ≡ frames_of (cache_holders worker 0 self.now.caches) }
        ensures few { result < 2 ^ 16 }
    {
        let mut frames = 0;
        for order in 0..ORDERS {
            frames += self.pairs[order].frames(order as u8);
        }
        frames
    }
}

fn new_pairs(alloc: Global, profile: Profile) -> Result<Vec<Pair>, AllocError>
    ensures { IfOk result (λ v. v.items ≡ replicate ORDERS (new_pair profile)) }
{
    let mut pairs = Vec::with_capacity(alloc, ORDERS)?;
    for _ in 0..ORDERS {
        pairs.push(Pair::new(alloc, profile)?)?;
    }
    Ok(pairs)
}
