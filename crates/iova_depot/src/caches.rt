//! All that is cached in a domain.
ghost use Rattle.std.specs.Prelude.{◌≡◌, ◌≢◌, ◌+◌, ◌*◌, ◌%◌, ◌-◌, ◌≤◌, ◌<◌, ◌^◌, ◌↔◌, ℕ, [], length, replicate, Some, find, option_map, IsTrue, IfOk, IsErr, IfNone, IfSome, OnSome};
ghost use Rattle.std.specs.Bool.{OnTrue, OnFalse};
ghost use Rattle.iova_range.specs.Bounds.{first_profile};
ghost use Rattle.iova_model.specs.Caches.{TakesAny, TakesEntry, without_entries, cache_at, shelf_at, get, put};
ghost use Rattle.iova_model.specs.State.{magazine_holders, depot_holders};
ghost use Rattle.iova_model.specs.Effects.{frames_of};
ghost use Rattle.iova_mag.specs.Magazines.{magazine_of};
ghost use Rattle.iova_mag.specs.Workers.{AreEmpty, HasRoom, GivesNewest, got_from, new_worker};
ghost use Rattle.iova_depot.specs.Cached.{Cached, IsCached, IsDepotFull, AreFullAt, LosesOnly, new_cached, place_at, cached_place, cached_frames, depot_at, range_of_entry, after_get, after_put, sent_by_put, after_own_get, after_own_put, after_reload, after_renewal, after_store};

use crate::depot::Depot;
use crate::spot::Spot;
use iova_mag::magazine::Magazine;
use iova_mag::worker::{Got, WorkerCache};
use iova_range::limits::{MAX_WORKERS, ORDERS};
use iova_range::profile::Profile;
use iova_range::refusal::Refusal;
use std::alloc::{AllocError, Global};
use std::marker::Model;

/// The cached ranges of a domain, by their first frames: each worker's two magazines of each of the
/// six orders, and for each order a depot of full magazines that all workers share. All memory is
/// taken by `new` (Linux 5.15 `drivers/iommu/iova.c`: `init_iova_rcaches`).
pub struct Caches {
    profile: Profile,
    workers: Vec<WorkerCache>,
    depots: Vec<Depot>,
    in_depot: u64,
    first_filled: usize,
}

/// Drops its parts. The proof stands here, once for all crates above.
impl Drop for Caches {
    fn drop(self) {
        let Caches {
            profile: _,
            workers: _,
            depots: _,
            in_depot: _,
            first_filled: _,
        } = self;
    }
}

impl Model for Caches {
    ghost use Rattle.std.specs.Prelude.{length};
    ghost use Rattle.iova_depot.specs.Cached.{Cached};

    ghost Value = { Cached };

    ghost use Rattle.iova_depot.specs.Inside.{caches_of, AreCachesKept};

    ghost view = { λ c. record {
      profile = c.profile;
      workers = length c.workers.items;
      caches = caches_of c.workers.items c.depots.items;
    } };

    ghost invariant = { λ c. AreCachesKept
        c.profile c.workers.items c.depots.items c.in_depot c.first_filled };
}

impl Caches {
    /// Empty caches of the first profile for 1 to 16 workers. `NoMemory` where a growth is refused.
    pub fn new(alloc: Global, workers: usize) -> Result<Self, Refusal>
        requires some { 1 ≤ workers }
        requires few { workers ≤ MAX_WORKERS }
        ensures value { IfOk result (λ c. c ≡ new_cached first_profile workers) }
        ensures refused { IsErr result → result ≡ Err Refusal.NoMemory }
    {
        Caches::new_for(alloc, Profile::one(), workers)
    }

    /// Empty caches of this profile for 1 to 16 workers. `NoMemory` where a growth is refused.
    pub fn new_for(alloc: Global, profile: Profile, workers: usize) -> Result<Self, Refusal>
        requires some { 1 ≤ workers }
        requires few { workers ≤ MAX_WORKERS }
        ensures value { IfOk result (λ c. c ≡ new_cached profile workers) }
        ensures refused { IsErr result → result ≡ Err Refusal.NoMemory }
    {
        // for the proof: the profile is one of the two
        let _mag = profile.mag();
        let workers = new_workers(alloc, profile, workers)?;
        let Ok(depots) = new_depots(alloc, profile) else {
            return Err(Refusal::NoMemory);
        };
        Ok(Caches {
            profile,
            workers,
            depots,
            in_depot: 0,
            first_filled: 0,
        })
    }

    /// The profile.
    #[inline]
    pub fn profile(&self) -> Profile
        ensures is { result ≡ self.now.profile }
        ensures sound { IsCached self.now }
    {
        self.profile
    }

    /// How many workers there are, 1 to 16.
    #[inline]
    pub fn workers(&self) -> usize
        ensures is { result ≡ self.now.workers }
        ensures sound { IsCached self.now }
    {
        self.workers.len()
    }

    /// Gets a cached range of this order, 0 to 5, for worker `w` with no frame above `limit`, and
    /// gives its first frame. Where the worker's loaded magazine is empty and previous isn't, they
    /// change places; where both are empty, the depot's last magazine becomes loaded. None where no
    /// entry of loaded fits then; the moves stand (Linux 5.15 `drivers/iommu/iova.c`:
    /// `__iova_rcache_get`).
    #[inline(always)]
    pub fn get(&mut self, w: usize, order: u8, limit: u64) -> Option<u64>
        requires worker { w < self.old.workers }
        requires order { order < ORDERS }
        ensures value { result ≡ (get (shelf_at self.old.caches w order) limit (2 ^ order)).0 }
        ensures left { self.new ≡ after_get self.old w order limit }
        ensures sound { IsCached self.new }
    {
        match self.try_get(w, order, limit) {
            Got::Hit(lo) => Some(lo),
            Got::Miss => None,
            Got::Empty => self.reload_and_get(w, order, limit),
        }
    }

    /// Whether worker `w`'s loaded magazine of this order, 0 to 5, has a newest entry, whose range
    /// has no frame above `limit`: `get` then gives it. A range of the order has `size` frames.
    #[inline(always)]
    pub fn gives_newest(&self, w: usize, order: u8, size: u64, limit: u64) -> bool
        requires worker { w < self.now.workers }
        requires order { order < ORDERS }
        requires size { size ≡ 2 ^ order }
        ensures { IsTrue result → GivesNewest (cache_at self.now.caches w order) limit (2 ^ order) }
    {
        self.workers[w].gives_newest(order, size, limit)
    }

    /// Gets as `get` does, where loaded's newest entry is given. Else None, and nothing changes.
    #[inline(always)]
    pub fn get_newest(&mut self, w: usize, order: u8, size: u64, limit: u64) -> Option<u64>
        requires worker { w < self.old.workers }
        requires order { order < ORDERS }
        requires size { size ≡ 2 ^ order }
        ensures value { IfSome result (λ lo.
            (get (shelf_at self.old.caches w order) limit (2 ^ order)).0 ≡ Some lo) }
        ensures left { OnSome result (self.new ≡ after_get self.old w order limit) }
        ensures none { IfNone result (self.new ≡ self.old) }
        ensures sound { IsCached self.old → IsCached self.new }
    {
        if !self.gives_newest(w, order, size, limit) {
            return None;
        }
        self.get(w, order, limit)
    }

    /// Puts the first frame of a range of this order, 0 to 5, into worker `w`'s loaded magazine; it
    /// is below 2^40. Where loaded is full and previous isn't, they change places first; where both
    /// are full, loaded goes last into the depot and an empty one stands in its place. Where the
    /// depot has as many as it takes, that magazine is given to the caller, who frees its ranges;
    /// else None (Linux 5.15 `drivers/iommu/iova.c`: `__iova_rcache_insert`).
    #[inline]
    pub fn put(&mut self, w: usize, order: u8, lo: u64) -> Option<Magazine>
        requires worker { w < self.old.workers }
        requires order { order < ORDERS }
        requires small { lo < 2 ^ 40 }
        ensures left { self.new ≡ after_put self.old w order lo }
        ensures none { IfNone result (sent_by_put self.old w order ≡ []) }
        ensures sent { IfSome result (λ m. m
            ≡ magazine_of self.old.profile (sent_by_put self.old w order)) }
        ensures some { IfSome result (λ m. 1 ≤ length m.entries) }
        ensures sound { IsCached self.new }
    {
        if self.try_put(w, order, lo) {
            return None;
        }
        self.put_full(w, order, lo)
    }

    /// Puts as `put` does, where one of worker `w`'s two magazines of this order has room. False
    /// exactly where both are full, and nothing changes: `put` then stores one of them. An answer
    /// of `put` is as large as a magazine, and a caller's place for it is cleared at each call,
    /// which costs more than all else that a put does.
    #[inline]
    pub fn try_put(&mut self, w: usize, order: u8, lo: u64) -> bool
        requires worker { w < self.old.workers }
        requires order { order < ORDERS }
        requires small { lo < 2 ^ 40 }
        ensures room { IsTrue result ↔ HasRoom self.old.profile (cache_at self.old.caches w order) }
        ensures done { OnTrue result (self.new ≡ after_put self.old w order lo) }
        ensures none { OnTrue result (sent_by_put self.old w order ≡ []) }
        ensures refused { OnFalse result ((self.new ≡ self.old) × AreFullAt self.old w order) }
        ensures sound { IsCached self.new }
    {
        self.put_in_worker(w, order, lo)
    }

    /// Takes some cached entry out, and gives its order and its first frame. None where nothing is
    /// cached. Taking all entries out one by one goes over each place that is empty once: where the
    /// last one was found is remembered. An own form of what Linux 5.15 `drivers/iommu/iova.c` does
    /// by magazines: `free_cpu_cached_iovas`, `free_global_cached_iovas`.
    pub fn take_any(&mut self) -> Option<(u8, u64)>
        ensures taken { TakesAny self.old.caches result self.new.caches }
        ensures loses { IfSome result (λ entry. LosesOnly (range_of_entry entry) self.old.caches
            self.new.caches) }
        ensures fewer { IfSome result
            (λ entry. cached_frames self.new.caches + 2 ^ entry.0 ≡ cached_frames self.old.caches) }
        ensures emptied { without_entries self.new.caches ≡ without_entries self.old.caches }
        ensures same { self.new ≡ record self.old { caches = self.new.caches } }
        ensures order { IfSome result (λ entry. entry.0 < ORDERS) }
        ensures sound { IsCached self.new }
    {
        let slots = (self.workers.len() + 1) * ORDERS;
        for slot in self.first_filled..slots {
            if let Some(lo) = self.take_from(slot) {
                self.first_filled = slot;
                return Some(((slot % ORDERS) as u8, lo));
            }
        }
        self.first_filled = slots;
        None
    }

    /// How many frames are in magazines of the workers, and how many in the depot, together fewer
    /// than 2^21. The lengths of all magazines of the workers are looked at, 12 of each worker, and
    /// no entry is; those in the depot are kept as a number.
    pub fn frames(&self) -> (u64, u64)
        ensures magazines { result.0 ≡ frames_of (magazine_holders 0 self.now.caches.workers) }
        ensures depot { result.1 ≡ frames_of (depot_holders 0 self.now.caches.depots) }
        ensures few { result.0 + result.1 < 2 ^ 21 }
    {
        let mut in_magazines = 0;
        for w in 0..self.workers.len() {
            in_magazines += self.workers[w].frames();
        }
        (in_magazines, self.in_depot)
    }

    /// Where a cached range has the frame: the first such place, the magazines by worker and then
    /// the depot. None exactly where no cached range has it. All entries may be looked at.
    pub fn find(&self, frame: u64) -> Option<Spot>
        ensures { option_map place_at result ≡ cached_place frame self.now.caches }
    {
        for w in 0..self.workers.len() {
            if self.workers[w].has_frame(frame) {
                return Some(Spot::Magazine(w as u64));
            }
        }
        for order in 0..ORDERS {
            if self.depots[order].has_frame(frame, order as u8) {
                return Some(Spot::Depot);
            }
        }
        None
    }

    /// What worker `w`'s own magazines give.
    #[inline(always)]
    fn try_get(&mut self, w: usize, order: u8, limit: u64) -> Got
        requires worker { w < self.old.workers }
        requires order { order < ORDERS }
        ensures value { result ≡ got_from (cache_at self.old.caches w order) limit (2 ^ order) }
        ensures left { self.new ≡ after_own_get self.old w order limit }
        ensures empty { result ≡ Got.Empty → AreEmpty (cache_at self.old.caches w order) }
        ensures sound { IsCached self.new }
    {
        let worker = &mut self.workers[w];
        worker.try_get(order, limit)
    }

    /// Where both of worker `w`'s magazines are empty: loads the depot's last one, and gets from
    /// that.
    #[cold]
    fn reload_and_get(&mut self, w: usize, order: u8, limit: u64) -> Option<u64>
        requires worker { w < self.old.workers }
        requires order { order < ORDERS }
        requires empty { AreEmpty (cache_at self.old.caches w order) }
        ensures value { result ≡ (get (shelf_at self.old.caches w order) limit (2 ^ order)).0 }
        ensures left { self.new ≡ after_get self.old w order limit }
        ensures sound { IsCached self.new }
    {
        if !self.reload(w, order) {
            return None;
        }
        match self.try_get(w, order, limit) {
            Got::Hit(lo) => Some(lo),
            Got::Miss | Got::Empty => None,
        }
    }

    /// Moves the depot's last magazine to worker `w`, whose magazines are both empty. False where
    /// there is none.
    fn reload(&mut self, w: usize, order: u8) -> bool
        requires worker { w < self.old.workers }
        requires order { order < ORDERS }
        requires empty { AreEmpty (cache_at self.old.caches w order) }
        ensures none { OnFalse result ((depot_at self.old.caches order ≡ [])
            × (self.new ≡ self.old)) }
        ensures some { OnTrue result (depot_at self.old.caches order ≢ []) }
        ensures moved { OnTrue result (self.new ≡ after_reload self.old w order) }
        ensures sound { IsCached self.new }
    {
        let depot = &mut self.depots[order as usize];
        let Some(magazine) = depot.pop() else {
            return false;
        };
        self.in_depot -= (magazine.len() as u64) << order;
        self.first_filled = self.first_filled.min(w * ORDERS + order as usize);
        let worker = &mut self.workers[w];
        worker.load(order, magazine);
        true
    }

    /// Puts into worker `w`'s own magazines. False where both are full.
    #[inline]
    fn put_in_worker(&mut self, w: usize, order: u8, lo: u64) -> bool
        requires worker { w < self.old.workers }
        requires order { order < ORDERS }
        requires small { lo < 2 ^ 40 }
        ensures room { IsTrue result ↔ HasRoom self.old.profile (cache_at self.old.caches w order) }
        ensures done { OnTrue result (self.new ≡ after_own_put self.old w order lo) }
        ensures refused { OnFalse result ((self.new ≡ self.old) × AreFullAt self.old w order) }
        ensures sound { IsCached self.new }
    {
        let worker = &mut self.workers[w];
        if !worker.try_put(order, lo) {
            return false;
        }
        // a put seeks no place: the next `take_any` begins at the first
        self.first_filled = 0;
        true
    }

    /// Where both of worker `w`'s magazines are full: stores loaded in the depot, or gives it to
    /// the caller, and puts into the empty one.
    #[cold]
    fn put_full(&mut self, w: usize, order: u8, lo: u64) -> Option<Magazine>
        requires worker { w < self.old.workers }
        requires order { order < ORDERS }
        requires small { lo < 2 ^ 40 }
        requires full { AreFullAt self.old w order }
        ensures left { self.new ≡ after_put self.old w order lo }
        ensures none { IfNone result (sent_by_put self.old w order ≡ []) }
        ensures sent { IfSome result (λ m. m
            ≡ magazine_of self.old.profile (sent_by_put self.old w order)) }
        ensures some { IfSome result (λ m. 1 ≤ length m.entries) }
        ensures sound { IsCached self.new }
    {
        let magazine = self.renew(w, order);
        let sent = self.store(order, magazine);
        self.put_in_worker(w, order, lo);
        sent
    }

    /// Takes worker `w`'s loaded magazine, which is full, and leaves an empty one in its place.
    fn renew(&mut self, w: usize, order: u8) -> Magazine
        requires worker { w < self.old.workers }
        requires order { order < ORDERS }
        requires full { length (cache_at self.old.caches w order).loaded ≡ self.old.profile.mag }
        ensures value { result ≡ magazine_of self.old.profile
            (cache_at self.old.caches w order).loaded }
        ensures left { self.new ≡ after_renewal self.old w order }
        ensures sound { IsCached self.new }
    {
        let worker = &mut self.workers[w];
        worker.renew(order)
    }

    /// Stores a magazine that isn't empty in this order's depot, or gives it back where that has as
    /// many as it takes.
    fn store(&mut self, order: u8, magazine: Magazine) -> Option<Magazine>
        requires order { order < ORDERS }
        requires profile { magazine.profile ≡ self.old.profile }
        requires some { 1 ≤ length magazine.entries }
        ensures full { IfSome result (λ m. (m ≡ magazine) × (self.new ≡ self.old)
            × IsDepotFull self.old order) }
        ensures room { IfNone result (length
            (depot_at self.old.caches order) < self.old.profile.depot) }
        ensures stored { IfNone result (self.new ≡ after_store self.old order magazine.entries) }
        ensures sound { IsCached self.new }
    {
        let depot = &mut self.depots[order as usize];
        if depot.is_full() {
            return Some(magazine);
        }
        self.in_depot += (magazine.len() as u64) << order;
        self.first_filled = self
            .first_filled
            .min(self.workers.len() * ORDERS + order as usize);
        depot.push(magazine);
        None
    }

    /// Takes the newest entry of a slot: six for each worker, one for each order, and then one for
    /// each depot.
    fn take_from(&mut self, slot: usize) -> Option<u64>
        requires { slot < (self.old.workers + 1) * ORDERS }
        ensures none { IfNone result (self.new ≡ self.old) }
        ensures magazines { (w o : ℕ) → w < self.old.workers → o < ORDERS → w * ORDERS + o ≡ slot
            → IfNone result (AreEmpty (cache_at self.old.caches w o)) }
        ensures depots { (o : ℕ) → o < ORDERS → self.old.workers * ORDERS + o ≡ slot
            → IfNone result (depot_at self.old.caches o ≡ []) }
        ensures taken { IfSome result (λ lo. TakesEntry (slot % ORDERS) lo self.old.caches
            self.new.caches) }
        ensures same { self.new ≡ record self.old { caches = self.new.caches } }
        ensures sound { IsCached self.new }
    {
        let (w, order) = (slot / ORDERS, (slot % ORDERS) as u8);
        if w < self.workers.len() {
            self.take_from_worker(w, order)
        } else {
            self.take_from_depot(order)
        }
    }

    fn take_from_worker(&mut self, w: usize, order: u8) -> Option<u64>
        requires worker { w < self.old.workers }
        requires order { order < ORDERS }
        ensures none { IfNone result ((self.new ≡ self.old)
            × AreEmpty (cache_at self.old.caches w order)) }
        ensures taken { IfSome result (λ lo. TakesEntry order lo self.old.caches self.new.caches) }
        ensures same { self.new ≡ record self.old { caches = self.new.caches } }
        ensures sound { IsCached self.new }
    {
        let worker = &mut self.workers[w];
        worker.take_newest(order)
    }

    fn take_from_depot(&mut self, order: u8) -> Option<u64>
        requires { order < ORDERS }
        ensures none { IfNone result ((self.new ≡ self.old)
            × (depot_at self.old.caches order ≡ [])) }
        ensures taken { IfSome result (λ lo. TakesEntry order lo self.old.caches self.new.caches) }
        ensures same { self.new ≡ record self.old { caches = self.new.caches } }
        ensures sound { IsCached self.new }
    {
        let depot = &mut self.depots[order as usize];
        let lo = depot.take_newest()?;
        self.in_depot -= 1 << order;
        Some(lo)
    }
}

fn new_workers(alloc: Global, profile: Profile, count: usize) -> Result<Vec<WorkerCache>, Refusal>
    requires { count ≤ MAX_WORKERS }
    ensures value { IfOk result (λ v. v.items ≡ replicate count (new_worker profile)) }
    ensures refused { IsErr result → result ≡ Err Refusal.NoMemory }
{
    let Ok(mut workers) = Vec::with_capacity(alloc, count) else {
        return Err(Refusal::NoMemory);
    };
    for _ in 0..count {
        let Ok(()) = workers.push(WorkerCache::new_for(alloc, profile)?) else {
            return Err(Refusal::NoMemory);
        };
    }
    Ok(workers)
}

fn new_depots(alloc: Global, profile: Profile) -> Result<Vec<Depot>, AllocError>
    ensures { IfOk result (λ v. v.items
        ≡ replicate ORDERS (record { profile = profile; lists = [] })) }
{
    let mut depots = Vec::with_capacity(alloc, ORDERS)?;
    for _ in 0..ORDERS {
        depots.push(Depot::new(alloc, profile)?)?;
    }
    Ok(depots)
}
