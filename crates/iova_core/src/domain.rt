//! A domain: its steps, one at a time and in runs, and its readers.
ghost use Rattle.std.specs.Prelude.{◌≡◌, ◌≢◌, ◌≤◌, ◌<◌, ◌⊎◌, ◌^◌, ℕ, [], ◌+◌, take, replicate, sum_by, find, length, vec_len, vec_capacity, Some, None, IfOk, IfSome, IfNone, IsTrue, OnOk, OnErr, IsErr, ◌↔◌, Err, option_map};
ghost use Rattle.iova_model.specs.Fit.{is_covered};
ghost use Rattle.iova_model.specs.Clients.{Client, client_with, begins_at, newer_client, share_of, totals};
ghost use Rattle.iova_range.specs.Frames.{covers};
ghost use Rattle.iova_range.specs.Sizes.{need, order_of};
ghost use Rattle.iova_model.specs.State.{new_domain, counts, ring_holders, place_in};
ghost use Rattle.iova_model.specs.Valid.{IsValid};
ghost use Rattle.iova_model.specs.Promises.{Runs};
ghost use Rattle.iova_model.specs.Effects.{to_queue};
ghost use Rattle.iova_model.specs.Next.{next, reserve, open_client, alloc, unmap, unmap_held, begin, end, drain, close, close_one};
ghost use Rattle.iova_clients.specs.Registry.{AppendsHoldings};
ghost use Rattle.iova_core.specs.Domain.{IsStepOf, place_inside, frames_in_rings};

use crate::reclaim::{drain, drain_unless};
use crate::walk::{Walked, is_at_hand, walk};
use iova_clients::Clients;
use iova_depot::caches::Caches;
use iova_depot::spot::Spot;
use iova_flush::flights::Flights;
use iova_flush::ring::Ring;
use iova_laws::places::places_add_up;
use iova_laws::promises::promises_are_kept;
use iova_laws::refusals::no_memory_is_refused;
use iova_laws::validity::{new_domains_are_valid, steps_keep_validity};
use iova_model::entry::Entry;
use iova_model::place::{Counts, Place};
use iova_model::step::{ClientId, Point, Reply, Step};
use iova_model::totals::Totals;
use iova_range::bounds::Bounds;
use iova_range::limits::{MAX_FRAMES, MAX_HOLDINGS, MAX_WORKERS, ORDERS};
use iova_range::range::Range;
use iova_range::refusal::Refusal;
use iova_range::sizes::{is_cached, order_for, order_of_need, size_for};
use iova_tree::tree::Tree;
use std::alloc::Global;
use std::marker::Model;

/// The address space of one device: what is handed out, to whom, and what waits for a flush.
///
/// Contracts see it as a `State`, which is always valid: each frame of the bounds is in exactly one
/// place, and no list is longer than its limit.
pub struct Domain {
    tree: Tree,
    clients: Clients,
    caches: Caches,
    rings: Vec<Ring>,
    flights: Flights,
    /// The frames of all windows.
    reserved: u64,
}

/// Drops its parts. The proof stands here, once for all crates above.
impl Drop for Domain {
    fn drop(self) {
        let Domain {
            tree: _,
            clients: _,
            caches: _,
            rings: _,
            flights: _,
            reserved: _,
        } = self;
    }
}

impl Model for Domain {
    ghost use Rattle.iova_model.specs.State.{State};
    ghost use Rattle.iova_core.specs.Domain.{state_of, IsDomain};

    ghost Value = { State };

    ghost view = { λ d. state_of (record {
      tree = d.tree;
      clients = d.clients;
      cached = d.caches;
      rings = d.rings.items;
      flushes = d.flights;
      reserved = d.reserved;
    }) };

    ghost invariant = { λ d. IsDomain (record {
      tree = d.tree;
      clients = d.clients;
      cached = d.caches;
      rings = d.rings.items;
      flushes = d.flights;
      reserved = d.reserved;
    }) };
}

fn refused(refusal: Refusal) -> (Reply, Point)
    ensures reply { result.0 ≡ Reply.Refused refusal }
    ensures point { result.1 ≡ Point.Never }
{
    (Reply::Refused(refusal), Point::Never)
}

/// Refused, for want of memory at the point `here`.
fn refused_at(refusal: Refusal, here: Point) -> (Reply, Point)
    ensures reply { result.0 ≡ Reply.Refused refusal }
    ensures memory { refusal ≡ Refusal.NoMemory → result.1 ≡ here }
    ensures other { refusal ≢ Refusal.NoMemory → result.1 ≡ Point.Never }
    ensures point { result.1 ≢ Point.Never → result.0 ≡ Reply.Refused Refusal.NoMemory }
{
    match refusal {
        Refusal::NoMemory => (Reply::Refused(refusal), here),
        _ => refused(refusal),
    }
}

impl Domain {
    /// A domain with nothing handed out, for 1 to 16 workers. Refused by `NoWorker` for another
    /// number of workers, and by `NoMemory`, in this order.
    pub fn new(alloc: Global, bounds: Bounds, workers: u64) -> Result<Self, Refusal>
        ensures value { IfOk result (λ d. d ≡ new_domain bounds workers) }
        ensures workers { (result ≡ Err Refusal.NoWorker)
            ↔ ((workers ≡ 0) ⊎ (MAX_WORKERS < workers)) }
        ensures memory { IsErr result → (result ≡ Err Refusal.NoWorker)
            ⊎ (result ≡ Err Refusal.NoMemory) }
    {
        if workers == 0 || workers > MAX_WORKERS {
            return Err(Refusal::NoWorker);
        }
        // for the proof: a new domain is valid
        new_domains_are_valid();
        let profile = bounds.profile();
        Ok(Domain {
            tree: Tree::new(alloc, bounds)?,
            clients: Clients::new(alloc),
            caches: Caches::new_for(alloc, profile, workers as usize)?,
            rings: new_rings(alloc, workers as usize)?,
            flights: Flights::new(),
            reserved: 0,
        })
    }

    /// Runs one step, and answers its reply and the growth in it that was refused memory, or
    /// `Never`.
    #[inline(always)]
    pub fn step_at(&mut self, step: Step) -> (Reply, Point)
        ensures reply { result.0 ≡ (next self.old step result.1).reply }
        ensures state { self.new ≡ (next self.old step result.1).state }
        ensures point { result.1 ≢ Point.Never → result.0 ≡ Reply.Refused Refusal.NoMemory }
        ensures memory { result.0 ≡ Reply.Refused Refusal.NoMemory → result.1 ≢ Point.Never }
    {
        // for the proof: a step is refused by `NoMemory` only where a growth was refused
        no_memory_is_refused();
        match step {
            Step::Reserve { lo, hi } => self.reserve(lo, hi),
            Step::Open { worker, sac } => self.open(worker, sac),
            Step::Alloc {
                worker,
                client,
                frames,
                limit,
            } => self.alloc(worker, client, frames, limit),
            Step::Unmap { worker, client, lo } => self.unmap(worker, client, lo),
            Step::Begin => self.begin(),
            Step::End { no, ok } => self.end(no, ok),
            Step::Drain { ring, by } => self.drain(ring, by),
            Step::Close { worker, client } => self.close(worker, client),
            Step::CloseOne { worker, client } => self.close_one(worker, client),
        }
    }

    /// Runs one step as `step` does. `Unmap` is out of line, for who asks `is_unmap_fast` before.
    #[inline(always)]
    pub fn step_cold(&mut self, step: Step) -> Reply
        ensures { IsStepOf self.old step result self.new }
    {
        // for the proof: a step is refused by `NoMemory` only where a growth was refused
        no_memory_is_refused();
        match step {
            Step::Unmap { worker, client, lo } => self.unmap_cold(worker, client, lo).0,
            _ => self.step(step),
        }
    }

    /// Runs one step, and answers its reply.
    #[inline(always)]
    pub fn step(&mut self, step: Step) -> Reply
        ensures { IsStepOf self.old step result self.new }
    {
        self.step_at(step).0
    }

    /// One window of the frames `lo` to `hi` and of the windows that overlap them. `BadWindow`,
    /// `Taken`, `WindowsFull`, `NoMemory`.
    fn reserve(&mut self, lo: u64, hi: u64) -> (Reply, Point)
        ensures reply { result.0 ≡ (reserve self.old lo hi result.1).reply }
        ensures state { self.new ≡ (reserve self.old lo hi result.1).state }
        ensures point { result.1 ≢ Point.Never → result.0 ≡ Reply.Refused Refusal.NoMemory }
    {
        // for the proof: the state that is left is valid
        steps_keep_validity();
        match self.tree.reserve(lo, hi) {
            Ok(window) => {
                self.reserved = window_frames(self.tree.windows());
                (Reply::Reserved(window), Point::Never)
            }
            Err(refusal) => refused_at(refusal, Point::Once),
        }
    }

    /// A new client of the worker. `NoWorker`, `Worn`, `ClientsFull`, `NoMemory`.
    fn open(&mut self, worker: u64, sac: bool) -> (Reply, Point)
        ensures reply { result.0 ≡ (open_client self.old worker sac result.1).reply }
        ensures state { self.new ≡ (open_client self.old worker sac result.1).state }
        ensures point { result.1 ≢ Point.Never → result.0 ≡ Reply.Refused Refusal.NoMemory }
    {
        if worker >= self.workers() {
            return refused(Refusal::NoWorker);
        }
        // for the proof: the state that is left is valid
        steps_keep_validity();
        match self.clients.open(worker, sac) {
            Ok(id) => (Reply::Opened(id), Point::Never),
            Err(refusal) => refused_at(refusal, Point::Once),
        }
    }

    /// A new holding of the client, of `need(frames)` frames, none above `limit`. `NoWorker`,
    /// `Zero`, `TooBig`, `NoClient`, `Closing`, `HoldingsFull`, `NoMemory` in the ledger; then
    /// `NoMemory` in the tree, or `NoSpace`.
    #[inline(always)]
    fn alloc(&mut self, worker: u64, client: ClientId, frames: u64, limit: u64) -> (Reply, Point)
        ensures reply { result.0 ≡ (alloc self.old worker client frames limit result.1).reply }
        ensures state { self.new ≡ (alloc self.old worker client frames limit result.1).state }
        ensures point { result.1 ≢ Point.Never → result.0 ≡ Reply.Refused Refusal.NoMemory }
    {
        if is_cached(frames) {
            let order = order_of_need(frames);
            let size = 1 << order;
            if self.is_alloc_fast(worker, client, order, size, limit) {
                return self.alloc_fast(worker, client, frames, size, Some(order), limit);
            }
        }
        self.alloc_slow(worker, client, frames, limit)
    }

    /// Calls `alloc_cold` from a function of its own. The compiler clears the room for that
    /// call's answer where the calling function begins: so `alloc` itself, which mostly needs no
    /// such call, clears nothing.
    #[inline(always)]
    fn alloc_slow(
        &mut self,
        worker: u64,
        client: ClientId,
        frames: u64,
        limit: u64,
    ) -> (Reply, Point)
        ensures reply { result.0 ≡ (alloc self.old worker client frames limit result.1).reply }
        ensures state { self.new ≡ (alloc self.old worker client frames limit result.1).state }
        ensures point { result.1 ≢ Point.Never → result.0 ≡ Reply.Refused Refusal.NoMemory }
    {
        self.alloc_cold(worker, client, frames, limit)
    }

    /// Whether the client is that of the step before, and a magazine of this order, 0 to 5, gives a
    /// range of `size` frames by one look. The compiler then leaves all other calls out of
    /// `alloc_fast`. The step's meaning doesn't depend on it.
    #[inline(always)]
    fn is_alloc_fast(&self, worker: u64, client: ClientId, order: u8, size: u64, limit: u64) -> bool
        requires order { order < ORDERS }
        requires size { size ≡ 2 ^ order }
        ensures worker { IsTrue result → worker < self.now.workers }
    {
        if worker >= self.workers() {
            return false;
        }
        match self.clients.sac_with_room(worker, client) {
            Some(sac) => is_at_hand(&self.caches, worker as usize, sac, order, size, limit),
            None => false,
        }
    }

    /// Out of line, so that the caller has nothing to keep meanwhile.
    #[inline(never)]
    fn alloc_cold(
        &mut self,
        worker: u64,
        client: ClientId,
        frames: u64,
        limit: u64,
    ) -> (Reply, Point)
        ensures reply { result.0 ≡ (alloc self.old worker client frames limit result.1).reply }
        ensures state { self.new ≡ (alloc self.old worker client frames limit result.1).state }
        ensures point { result.1 ≢ Point.Never → result.0 ≡ Reply.Refused Refusal.NoMemory }
    {
        if worker >= self.workers() {
            return refused(Refusal::NoWorker);
        }
        if frames == 0 {
            return refused(Refusal::Zero);
        }
        if frames > MAX_FRAMES {
            return refused(Refusal::TooBig);
        }
        let order = order_for(frames);
        let size = size_for(frames, order);
        self.alloc_fast(worker, client, frames, size, order, limit)
    }

    /// The step for `size` frames, which have this order or none, and for which the client asks by
    /// a number.
    #[inline(always)]
    fn alloc_fast(
        &mut self,
        worker: u64,
        client: ClientId,
        frames: u64,
        size: u64,
        order: Option<u8>,
        limit: u64,
    ) -> (Reply, Point)
        requires worker { worker < self.old.workers }
        requires some { 1 ≤ frames }
        requires bounded { frames ≤ MAX_FRAMES }
        requires size { size ≡ need frames }
        requires sized { 1 ≤ size }
        requires fits { size ≤ MAX_FRAMES }
        requires order { order ≡ order_of size }
        ensures reply { result.0 ≡ (alloc self.old worker client frames limit result.1).reply }
        ensures state { self.new ≡ (alloc self.old worker client frames limit result.1).state }
        ensures point { result.1 ≢ Point.Never → result.0 ≡ Reply.Refused Refusal.NoMemory }
    {
        let Some(flags) = self.clients.look_up(worker, client) else {
            return refused(Refusal::NoClient);
        };
        match self.clients.room(client) {
            Ok(()) => {}
            Err(refusal) => return refused_at(refusal, Point::Ledger),
        }
        // for the proof: the state that is left is valid
        steps_keep_validity();
        match walk(
            &mut self.tree,
            &mut self.caches,
            worker as usize,
            flags.sac,
            size,
            order,
            limit,
        ) {
            Walked::Placed(range) => (Reply::Given(self.clients.add(client, range)), Point::Never),
            Walked::Nowhere => refused(Refusal::NoSpace),
            Walked::OutOfMemory(point) => (Reply::Refused(Refusal::NoMemory), point),
        }
    }

    /// The client's holding that begins at `lo` goes into the worker's ring. `NoWorker`,
    /// `NoClient`, `Closing`, `NotHeld`, `RingFull`.
    #[inline(always)]
    fn unmap(&mut self, worker: u64, client: ClientId, lo: u64) -> (Reply, Point)
        ensures reply { result.0 ≡ (unmap self.old worker client lo).reply }
        ensures state { self.new ≡ (unmap self.old worker client lo).state }
        ensures point { result.1 ≡ Point.Never }
    {
        if self.is_unmap_fast(worker, client) {
            self.unmap_fast(worker, client, lo)
        } else {
            self.unmap_slow(worker, client, lo)
        }
    }

    /// Calls `unmap_cold` from a function of its own, for the reason that `alloc_slow`
    /// has.
    #[inline(always)]
    fn unmap_slow(&mut self, worker: u64, client: ClientId, lo: u64) -> (Reply, Point)
        ensures reply { result.0 ≡ (unmap self.old worker client lo).reply }
        ensures state { self.new ≡ (unmap self.old worker client lo).state }
        ensures point { result.1 ≡ Point.Never }
    {
        self.unmap_cold(worker, client, lo)
    }

    /// Whether the client is that of the step before, and nothing leaves the worker's ring. The
    /// step's meaning doesn't depend on it.
    #[inline(always)]
    pub fn is_unmap_fast(&self, worker: u64, client: ClientId) -> bool {
        worker < self.workers()
            && self.clients.is_at_hand(worker, client)
            && self.rings[worker as usize].waits(self.flights.finish())
    }

    /// Out of line, so that the caller has nothing to keep meanwhile.
    #[inline(never)]
    fn unmap_cold(&mut self, worker: u64, client: ClientId, lo: u64) -> (Reply, Point)
        ensures reply { result.0 ≡ (unmap self.old worker client lo).reply }
        ensures state { self.new ≡ (unmap self.old worker client lo).state }
        ensures point { result.1 ≡ Point.Never }
    {
        self.unmap_fast(worker, client, lo)
    }

    #[inline(always)]
    fn unmap_fast(&mut self, worker: u64, client: ClientId, lo: u64) -> (Reply, Point)
        ensures reply { result.0 ≡ (unmap self.old worker client lo).reply }
        ensures state { self.new ≡ (unmap self.old worker client lo).state }
        ensures point { result.1 ≡ Point.Never }
    {
        if worker >= self.workers() {
            return refused(Refusal::NoWorker);
        }
        let Some(flags) = self.clients.look_up(worker, client) else {
            return refused(Refusal::NoClient);
        };
        if flags.closing {
            return refused(Refusal::Closing);
        }
        self.queue(worker, client, lo)
    }

    /// Takes the client's holding that begins at `lo` and puts it into the worker's ring, which is
    /// drained first. Where the ring is full all the same, nothing has changed. `NotHeld`,
    /// `RingFull`.
    #[inline(always)]
    fn queue(&mut self, worker: u64, client: ClientId, lo: u64) -> (Reply, Point)
        requires { worker < self.old.workers }
        ensures reply { (c : Client) → client_with client self.old.clients ≡ Some c
            → result.0 ≡ (unmap_held (find (begins_at lo) c.holdings) self.old worker
            client).reply }
        ensures state { (c : Client) → client_with client self.old.clients ≡ Some c
            → self.new ≡ (unmap_held (find (begins_at lo) c.holdings) self.old worker
            client).state }
        ensures point { result.1 ≡ Point.Never }
    {
        let finish = self.flights.finish();
        let waits = self.rings[worker as usize].waits(finish);
        let Ok(range) = self.clients.take(client, lo) else {
            return refused(Refusal::NotHeld);
        };
        let ring = &mut self.rings[worker as usize];
        drain_unless(
            waits,
            &mut self.tree,
            &mut self.caches,
            ring,
            worker as usize,
            finish,
        );
        let entry = Entry {
            lo: range.lo(),
            len: range.len(),
            count: self.flights.start(),
        };
        match ring.add(entry) {
            Ok(()) => (Reply::Queued(range), Point::Never),
            Err(_) => {
                self.clients.add(client, range);
                refused(Refusal::RingFull)
            }
        }
    }

    /// Begins a flush. `FlightsFull`, `Worn`.
    fn begin(&mut self) -> (Reply, Point)
        ensures reply { result.0 ≡ (begin self.old).reply }
        ensures state { self.new ≡ (begin self.old).state }
        ensures point { result.1 ≡ Point.Never }
    {
        match self.flights.begin() {
            Ok(number) => (Reply::Begun(number), Point::Never),
            Err(refusal) => refused(refusal),
        }
    }

    /// Ends the flush of this number, well or not. `NoFlight`.
    fn end(&mut self, no: u64, ok: bool) -> (Reply, Point)
        ensures reply { result.0 ≡ (end self.old no ok).reply }
        ensures state { self.new ≡ (end self.old no ok).state }
        ensures point { result.1 ≡ Point.Never }
    {
        match self.flights.end(no, ok) {
            Ok(()) => (Reply::Ended, Point::Never),
            Err(refusal) => refused(refusal),
        }
    }

    /// Drains a ring into the magazines of the worker `by`. `NoWorker`.
    fn drain(&mut self, ring: u64, by: u64) -> (Reply, Point)
        ensures reply { result.0 ≡ (drain self.old ring by).reply }
        ensures state { self.new ≡ (drain self.old ring by).state }
        ensures point { result.1 ≡ Point.Never }
    {
        if ring >= self.workers() || by >= self.workers() {
            return refused(Refusal::NoWorker);
        }
        let finish = self.flights.finish();
        let ring = &mut self.rings[ring as usize];
        let count = drain(&mut self.tree, &mut self.caches, ring, by as usize, finish);
        (Reply::Drained(count), Point::Never)
    }

    /// Marks the client closing. `NoWorker`, `NoClient`.
    fn close(&mut self, worker: u64, client: ClientId) -> (Reply, Point)
        ensures reply { result.0 ≡ (close self.old worker client).reply }
        ensures state { self.new ≡ (close self.old worker client).state }
        ensures point { result.1 ≡ Point.Never }
    {
        if worker >= self.workers() {
            return refused(Refusal::NoWorker);
        }
        let Some(_) = self.clients.look_up(worker, client) else {
            return refused(Refusal::NoClient);
        };
        match self.clients.mark_closing(client) {
            Ok(left) => (Reply::Marked(left), Point::Never),
            Err(refusal) => refused(refusal),
        }
    }

    /// Marks the client closing, and puts its lowest holding into the worker's ring; without one
    /// the client is gone. `NoWorker`, `NoClient`; `RingFull`, where the mark stays.
    fn close_one(&mut self, worker: u64, client: ClientId) -> (Reply, Point)
        ensures reply { result.0 ≡ (close_one self.old worker client).reply }
        ensures state { self.new ≡ (close_one self.old worker client).state }
        ensures point { result.1 ≡ Point.Never }
    {
        match self.close(worker, client) {
            (Reply::Marked(_), _) => {}
            refused => return refused,
        }
        match self.clients.first(client) {
            Some(range) => self.queue(worker, client, range.lo()),
            None => {
                self.clients.forget(client);
                (Reply::Empty, Point::Never)
            }
        }
    }

    /// Where the frame is, or None where it isn't inside the bounds. The tree says whether it is
    /// free; only for a frame that somebody has are the holders looked through.
    pub fn place(&self, frame: u64) -> Option<Place>
        ensures { result ≡ place_inside self.now frame }
    {
        let bounds = self.tree.bounds();
        if frame < bounds.start() || frame > bounds.last() {
            return None;
        }
        if self.tree.is_free(frame) {
            return Some(Place::Free);
        }
        if has_frame(self.tree.windows(), frame) {
            return Some(Place::Reserved);
        }
        if let Some(id) = self.clients.holder(frame) {
            return Some(Place::Client(id));
        }
        match self.caches.find(frame) {
            Some(Spot::Magazine(w)) => Some(Place::Magazine(w)),
            Some(Spot::Depot) => Some(Place::Depot),
            None => Some(place_in_rings(&self.rings, frame)),
        }
    }

    /// How many frames of the bounds are at each kind of place. Of each worker a number of its ring
    /// and the lengths of its 12 magazines are added up, and all else is kept as numbers: no
    /// holding, entry or range is looked at.
    pub fn counts(&self) -> Counts
        ensures { result ≡ counts self.now }
    {
        // for the proof: the frames of all places are those of the bounds, so that no difference is
        // below 0
        places_add_up();
        let bounds = self.tree.bounds();
        let client = self.clients.totals().frames;
        let (magazine, depot) = self.caches.frames();
        let ring = queued_frames(&self.rings);
        Counts {
            free: bounds.last() - bounds.start() + 1
                - self.reserved
                - client
                - magazine
                - depot
                - ring,
            reserved: self.reserved,
            client,
            magazine,
            depot,
            ring,
        }
    }

    /// The totals over all holdings of all clients.
    #[inline]
    pub fn totals(&self) -> Totals
        ensures { result ≡ totals self.now.clients }
    {
        self.clients.totals()
    }

    /// The count, frames and sum of first frames of the holdings of the clients that this worker
    /// opened.
    #[inline]
    pub fn share_of(&self, worker: u64) -> Totals
        requires { worker < self.now.workers }
        ensures { result ≡ share_of worker self.now.clients }
    {
        // for the proof: there are at most 16 workers
        let _workers = self.workers();
        self.clients.totals_of(worker)
    }

    /// The windows, rising by first frame, at most 64.
    #[inline]
    pub fn windows(&self) -> &[Range]
        ensures { result.now ≡ self.now.windows }
    {
        self.tree.windows()
    }

    /// How many holdings the client has.
    #[inline]
    pub fn count_of(&self, client: ClientId) -> Option<u64>
        ensures { result ≡ option_map (λ c. length c.holdings)
            (client_with client self.now.clients) }
    {
        self.clients.count(client)
    }

    /// Copies the client's holdings, rising by first frame, to the front of the list, which has
    /// room for 4,096, and says how many they are.
    pub fn copy_holdings(&self, client: ClientId, list: &mut [Range]) -> Option<usize>
        requires { MAX_HOLDINGS ≤ length list.old }
        ensures some { IfSome (client_with client self.now.clients) (λ c.
            (result ≡ Some (length c.holdings))
            × (take (length c.holdings) list.new ≡ c.holdings)) }
        ensures none { IfNone (client_with client self.now.clients) (result ≡ None) }
        ensures few { IfSome result (λ n. n ≤ MAX_HOLDINGS) }
        ensures len { length list.new ≡ length list.old }
    {
        self.clients.copy_holdings(client, list)
    }

    /// Appends the client's holdings, in no order, at most 4,096: `put_in_order_from` of
    /// `iova_clients` puts them in order. Refused by `NoClient` where there is no such client, else
    /// by `NoMemory` where memory is refused; then nothing is appended. Where the list has room for
    /// 4,096 more it takes no memory.
    pub fn append_holdings(&self, client: ClientId, list: &mut Vec<Range>) -> Result<(), Refusal>
        ensures is { AppendsHoldings (client_with client self.now.clients) list.old.items
            list.new.items result }
        ensures unchanged { OnErr result (list.new.items ≡ list.old.items) }
        ensures room { vec_len list.old + MAX_HOLDINGS ≤ vec_capacity list.old
            → result ≢ Err Refusal.NoMemory }
        ensures capacity { vec_capacity list.old ≤ vec_capacity list.new }
    {
        self.clients.append_holdings(client, list)
    }

    /// The range that this step would put into its worker's ring if the ring had room: none where
    /// it is refused before the ring is asked, and none for a step that queues nothing. It takes
    /// two look-ups.
    pub fn to_queue(&self, step: Step) -> Option<Range>
        ensures { result ≡ to_queue self.now step }
    {
        match step {
            Step::Unmap { worker, client, lo } => self.to_unmap(worker, client, lo),
            Step::CloseOne { worker, client } => self.to_close(worker, client),
            Step::Reserve { .. }
            | Step::Open { .. }
            | Step::Alloc { .. }
            | Step::Begin
            | Step::End { .. }
            | Step::Drain { .. }
            | Step::Close { .. } => None,
        }
    }

    /// The holding that begins at `lo`, of a client of this worker that isn't closing.
    fn to_unmap(&self, worker: u64, client: ClientId, lo: u64) -> Option<Range>
        ensures { result ≡ to_queue self.now (Step.Unmap worker client lo) }
    {
        if worker >= self.workers() {
            return None;
        }
        self.clients.to_unmap(worker, client, lo)
    }

    /// The lowest holding of a client of this worker.
    fn to_close(&self, worker: u64, client: ClientId) -> Option<Range>
        ensures { result ≡ to_queue self.now (Step.CloseOne worker client) }
    {
        if worker >= self.workers() || self.clients.owner(client) != Some(worker) {
            return None;
        }
        self.clients.first(client)
    }

    /// How many clients there are, closing ones too, 0 to 1,024.
    #[inline]
    pub fn clients(&self) -> usize
        ensures { result ≡ length self.now.clients }
    {
        self.clients.len()
    }

    /// The worker that opened the client.
    #[inline]
    pub fn owner(&self, client: ClientId) -> Option<u64>
        ensures { result ≡ option_map (λ c. c.worker) (client_with client self.now.clients) }
    {
        self.clients.owner(client)
    }

    /// The first client, by serial, that this worker opened and whose serial is above this one.
    /// This looks through all clients.
    pub fn newer(&self, worker: u64, than: ClientId) -> Option<ClientId>
        ensures { result ≡ option_map (λ c. c.id) (newer_client worker than self.now.clients) }
    {
        self.clients.newer(worker, than)
    }

    /// Whether the client is closing.
    #[inline]
    pub fn is_closing(&self, client: ClientId) -> Option<bool>
        ensures { result ≡ option_map (λ c. c.closing) (client_with client self.now.clients) }
    {
        self.clients.is_closing(client)
    }

    /// The first and the last frame that it may hand out, and its profile.
    #[inline]
    pub fn bounds(&self) -> Bounds
        ensures is { result ≡ self.now.bounds }
        ensures valid { IsValid self.now }
    {
        self.tree.bounds()
    }

    /// How many workers it has, 1 to 16.
    #[inline]
    pub fn workers(&self) -> u64
        ensures is { result ≡ self.now.workers }
        ensures valid { IsValid self.now }
    {
        self.caches.workers() as u64
    }

    /// How many flushes have begun, which is the number of the last one.
    #[inline]
    pub fn start(&self) -> u64
        ensures { result ≡ self.now.flushes.start }
    {
        self.flights.start()
    }

    /// How many flushes are accounted for.
    #[inline]
    pub fn finish(&self) -> u64
        ensures { result ≡ self.now.flushes.finish }
    {
        self.flights.finish()
    }

    /// The credit of failed flushes that the next flush will take over.
    #[inline]
    pub fn owed(&self) -> u64
        ensures { result ≡ self.now.flushes.owed }
    {
        self.flights.owed()
    }

    /// How many flushes are in flight, 0 to 32.
    #[inline]
    pub fn in_flight(&self) -> usize
        ensures { result ≡ length self.now.flushes.in_flight }
    {
        self.flights.in_flight()
    }

    /// The greatest number of a flush that ended well, 0 at first.
    #[inline]
    pub fn newest_done(&self) -> u64
        ensures { result ≡ self.now.flushes.newest }
    {
        self.flights.newest_done()
    }

    /// How many flushes ended well.
    #[inline]
    pub fn good(&self) -> u64
        ensures { result ≡ self.now.flushes.good }
    {
        self.flights.good()
    }
}

/// Runs the steps in order and appends their replies. Room for each reply is taken before its step,
/// so that where that is refused, by `NoMemory`, the replies so far and the state that they leave
/// stand.
///
/// The contract is the headline of the product. After every list of steps, whatever they are and
/// wherever memory is refused: each frame is in exactly one place; the totals are the sums of all
/// workers' shares; no frame was lost or made; a frame that was unmapped has left the rings, and is
/// given again, only where a flush that began after its unmap has ended well; clients that close
/// give up their holdings lowest first; and a client that is gone stays gone.
pub fn run(domain: &mut Domain, steps: &[Step], replies: &mut Vec<Reply>) -> Result<(), Refusal>
    ensures ok { OnOk result (Runs domain.old domain.new steps.now replies.old.items
        replies.new.items) }
    ensures err { OnErr result ((result ≡ Err Refusal.NoMemory)
        × ((n : ℕ) × Runs domain.old domain.new (take n steps.now) replies.old.items
        replies.new.items)) }
{
    // for the proof: every run keeps the promises, and the state is valid
    promises_are_kept();
    let _workers = domain.workers();
    for step in steps {
        let Ok(()) = replies.reserve(1) else {
            return Err(Refusal::NoMemory);
        };
        let reply = domain.step(*step);
        replies.push(reply).unwrap();
    }
    Ok(())
}

/// A ring for each worker.
fn new_rings(alloc: Global, workers: usize) -> Result<Vec<Ring>, Refusal>
    requires { workers ≤ MAX_WORKERS }
    ensures value { IfOk result (λ rings. rings.items ≡ replicate workers []) }
    ensures refused { IsErr result → result ≡ Err Refusal.NoMemory }
{
    let Ok(mut rings) = Vec::with_capacity(alloc, workers) else {
        return Err(Refusal::NoMemory);
    };
    for _ in 0..workers {
        rings.push(Ring::new(alloc)?).unwrap();
    }
    Ok(rings)
}

/// How many frames windows have together.
fn window_frames(windows: &[Range]) -> u64
    requires { sum_by (λ r. r.len) windows.now ≤ 2 ^ 40 }
    ensures { result ≡ sum_by (λ r. r.len) windows.now }
{
    let mut frames = 0;
    for window in windows {
        frames += window.len();
    }
    frames
}

/// Whether one of the windows has the frame.
fn has_frame(windows: &[Range], frame: u64) -> bool
    ensures { result ≡ is_covered frame windows.now }
{
    windows.iter().any(|window| window.covers(frame))
}

/// How many frames wait in rings.
fn queued_frames(rings: &[Ring]) -> u64
    requires { length rings.now ≤ MAX_WORKERS }
    ensures { result ≡ frames_in_rings rings.now }
{
    let mut frames = 0;
    for ring in rings {
        frames += ring.frames();
    }
    frames
}

/// The first ring that has the frame, or that it is free.
fn place_in_rings(rings: &[Ring], frame: u64) -> Place
    ensures { result ≡ place_in (find (λ h. covers frame h.range) (ring_holders 0 rings.now)) }
{
    for w in 0..rings.len() {
        if rings[w].holds(frame) {
            return Place::Ring(w as u64);
        }
    }
    Place::Free
}
