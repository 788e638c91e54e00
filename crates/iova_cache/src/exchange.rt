//! What a cache and its domain exchange, each in one call that has both: when it returns no range
//! is on its way.
ghost use Rattle.std.specs.Prelude.{◌≡◌, ◌≤◌, ◌<◌, ◌⊎◌, find, Some, None, IfOk, IfErr};
ghost use Rattle.iova_range.specs.Sizes.{need};
ghost use Rattle.iova_model.specs.Clients.{begins_at};
ghost use Rattle.iova_core.specs.Domain.{IsStepOf};
ghost use Rattle.iova_cache.specs.Held.{CanBeHeld};
ghost use Rattle.iova_cache.specs.Caches.{new_cache, odd};
ghost use Rattle.iova_cache.specs.Exchanges.{request, giving_up, IsAsked, IsDenied, IsOwnRefusal, IsReturned, IsRefilled, IsRefillRefusal, IsSpilled, IsUnspilled};

use crate::cache::Cache;
use crate::magazine::MAGAZINE;
use iova_core::domain::Domain;
use iova_laws::replies::steps_are_answered_in_kind;
use iova_laws::requests::requests_are_answered;
use iova_model::step::{ClientId, Reply, Step};
use iova_range::limits::{MAX_FRAMES, MOST_CACHED, ORDERS};
use iova_range::range::Range;
use iova_range::refusal::Refusal;
use iova_range::sizes::{order_for, order_of_need, size_for};
use std::alloc::Global;

/// The most ranges of one refill or spill, in which a lock is held.
const AT_ONCE: u64 = 64;

/// Asks the domain for a range of the client, of 1 to 1,048,576 frames.
fn ask(
    domain: &mut Domain,
    worker: u64,
    client: ClientId,
    frames: u64,
    limit: u64,
) -> Result<Range, Refusal>
    requires some { 1 ≤ frames }
    requires bounded { frames ≤ MAX_FRAMES }
    ensures given { IfOk result (λ r. IsStepOf domain.old (Step.Alloc worker client frames limit)
        (Reply.Given r) domain.new) }
    ensures held { IfOk result CanBeHeld }
    ensures size { IfOk result (λ r. (odd r ≡ 0) × (r.len ≡ need frames)) }
    ensures refused { IfErr result (λ x. IsStepOf domain.old
        (Step.Alloc worker client frames limit) (Reply.Refused x) domain.new) }
{
    // for the proof: a request is given a range inside the bounds of as many frames as it needs
    requests_are_answered();
    steps_are_answered_in_kind();
    let _size = size_for(frames, order_for(frames));
    let _order = if frames <= MOST_CACHED {
        order_of_need(frames)
    } else {
        0
    };
    let _workers = domain.workers();
    let step = Step::Alloc {
        worker,
        client,
        frames,
        limit,
    };
    match domain.step(step) {
        Reply::Given(range) => Ok(range),
        Reply::Refused(refusal) => Err(refusal),
        Reply::Reserved(_)
        | Reply::Opened(_)
        | Reply::Queued(_)
        | Reply::Begun(_)
        | Reply::Ended
        | Reply::Drained(_)
        | Reply::Marked(_)
        | Reply::Empty => Err(Refusal::NoClient),
    }
}

/// Gives a range of the client back to the domain, in whose ring it waits.
fn give_back(domain: &mut Domain, worker: u64, client: ClientId, lo: u64) -> Result<Range, Refusal>
    ensures queued { IfOk result (λ r. IsStepOf domain.old (Step.Unmap worker client lo)
        (Reply.Queued r) domain.new) }
    ensures refused { IfErr result (λ x. IsStepOf domain.old (Step.Unmap worker client lo)
        (Reply.Refused x) domain.new) }
{
    // for the proof: an unmap is answered by the range, or refused
    steps_are_answered_in_kind();
    match domain.step(Step::Unmap { worker, client, lo }) {
        Reply::Queued(range) => Ok(range),
        Reply::Refused(refusal) => Err(refusal),
        Reply::Reserved(_)
        | Reply::Opened(_)
        | Reply::Given(_)
        | Reply::Begun(_)
        | Reply::Ended
        | Reply::Drained(_)
        | Reply::Marked(_)
        | Reply::Empty => Err(Refusal::NoClient),
    }
}

/// Opens a client of the worker.
fn open_client(domain: &mut Domain, worker: u64, sac: bool) -> Result<ClientId, Refusal>
    ensures opened { IfOk result (λ id. IsStepOf domain.old (Step.Open worker sac)
        (Reply.Opened id) domain.new) }
    ensures refused { IfErr result (λ x. IsStepOf domain.old (Step.Open worker sac)
        (Reply.Refused x) domain.new) }
{
    // for the proof: a client is opened, or refused
    steps_are_answered_in_kind();
    match domain.step(Step::Open { worker, sac }) {
        Reply::Opened(client) => Ok(client),
        Reply::Refused(refusal) => Err(refusal),
        Reply::Reserved(_)
        | Reply::Given(_)
        | Reply::Queued(_)
        | Reply::Begun(_)
        | Reply::Ended
        | Reply::Drained(_)
        | Reply::Marked(_)
        | Reply::Empty => Err(Refusal::NoClient),
    }
}

impl Cache {
    /// A cache with no range, of a new client of the worker. Refused as the step `Open` is, or by
    /// `NoMemory` where the cache has no memory, and no client is opened then.
    pub fn open(
        alloc: Global,
        domain: &mut Domain,
        worker: u64,
        sac: bool,
    ) -> Result<Cache, Refusal>
        ensures opened { IfOk result (λ c. (c ≡ new_cache worker c.client sac)
            × IsStepOf domain.old (Step.Open worker sac) (Reply.Opened c.client) domain.new) }
        ensures refused { IfErr result (λ x.
            ((x ≡ Refusal.NoMemory) × (domain.new ≡ domain.old))
            ⊎ IsStepOf domain.old (Step.Open worker sac) (Reply.Refused x) domain.new) }
    {
        let mut cache = Cache::new(alloc, worker, 0, sac)?;
        cache.client = open_client(domain, worker, sac)?;
        Ok(cache)
    }

    /// Gives the user a range of the domain: one of more than 32 frames, or one that no magazine
    /// has. Refused as the step `Alloc` is; before the domain is asked by `Zero` and `TooBig`, as
    /// it would refuse, and by `NoMemory` where what the user holds can't grow.
    pub fn alloc_by(
        &mut self,
        domain: &mut Domain,
        frames: u64,
        limit: u64,
    ) -> Result<Range, Refusal>
        ensures asked { IfOk result (IsAsked self.old self.new domain.old domain.new frames
            limit) }
        ensures refused { IfErr result (λ x.
            (IsOwnRefusal self.old frames x × (self.new ≡ self.old) × (domain.new ≡ domain.old))
            ⊎ IsDenied self.old self.new domain.old domain.new (request self.old frames limit)
            x) }
    {
        if frames == 0 {
            return Err(Refusal::Zero);
        }
        if frames > MAX_FRAMES {
            return Err(Refusal::TooBig);
        }
        let Ok(()) = self.make_room() else {
            return Err(Refusal::NoMemory);
        };
        match ask(domain, self.worker, self.client, frames, limit) {
            Ok(range) => {
                self.held.insert(range);
                Ok(range)
            }
            Err(refusal) => Err(refusal),
        }
    }

    /// The user gives up the range that begins there, whatever its length, and it waits in the
    /// domain's ring. Refused, with no change of the cache, by `NotHeld` exactly where the user
    /// holds no range that begins there, and the domain isn't asked then; else as the step `Unmap`
    /// is.
    pub fn unmap_by(&mut self, domain: &mut Domain, lo: u64) -> Result<Range, Refusal>
        ensures returned { IfOk result (λ r. (find (begins_at lo) self.old.held ≡ Some r)
            × IsReturned self.old self.new domain.old domain.new lo r) }
        ensures refused { IfErr result (λ x. (self.new ≡ self.old)
            × (((x ≡ Refusal.NotHeld) × (find (begins_at lo) self.old.held ≡ None)
            × (domain.new ≡ domain.old))
            ⊎ IsStepOf domain.old (giving_up self.old lo) (Reply.Refused x) domain.new)) }
    {
        let Some(range) = self.held.find(lo) else {
            return Err(Refusal::NotHeld);
        };
        match give_back(domain, self.worker, self.client, lo) {
            Ok(_) => {
                let _taken = self.held.take(lo);
                Ok(range)
            }
            Err(refusal) => Err(refusal),
        }
    }

    /// Gives the magazines ranges of the domain for `frames`, 1 to 32, none with a frame above
    /// `limit`: up to `most`, 64 and what there is room for, each by one step. Answers how many.
    /// A refusal ends it: of the first range it is the answer. Before the domain is asked `Zero`
    /// and `TooBig`, for more than 32 frames.
    pub fn refill(
        &mut self,
        domain: &mut Domain,
        frames: u64,
        limit: u64,
        most: u64,
    ) -> Result<u64, Refusal>
        ensures refilled { IfOk result (IsRefilled self.old self.new domain.old domain.new frames
            limit most) }
        ensures refused { IfErr result (λ x. (self.new ≡ self.old)
            × ((IsRefillRefusal frames x × (domain.new ≡ domain.old))
            ⊎ IsStepOf domain.old (request self.old frames limit) (Reply.Refused x) domain.new)) }
    {
        if frames == 0 {
            return Err(Refusal::Zero);
        }
        if frames > MOST_CACHED {
            return Err(Refusal::TooBig);
        }
        let order = order_of_need(frames);
        let room = (MAGAZINE - self.magazines.len(order)) as u64;
        let all = most.min(AT_ONCE).min(room);
        for count in 0..all {
            match ask(domain, self.worker, self.client, frames, limit) {
                Ok(range) => {
                    let _put = self.magazines.put(order, range);
                }
                Err(refusal) => {
                    if count == 0 {
                        return Err(refusal);
                    }
                    return Ok(count);
                }
            }
        }
        Ok(all)
    }

    /// Gives the newest ranges of an order, 0 to 5, back to the domain, in whose ring they wait: up
    /// to `most`, 64 and what there are, each by one step. Answers how many. One that the domain
    /// refuses stays in its magazine, and ends it: the first one's refusal is the answer.
    pub fn spill(&mut self, domain: &mut Domain, order: u8, most: u64) -> Result<u64, Refusal>
        requires { order < ORDERS }
        ensures spilled { IfOk result (IsSpilled self.old self.new domain.old domain.new order
            most) }
        ensures refused { IfErr result (λ x. (self.new ≡ self.old)
            × IsUnspilled self.old domain.old domain.new order x) }
    {
        let all = most.min(AT_ONCE).min(self.magazines.len(order) as u64);
        for count in 0..all {
            let Some(range) = self.magazines.newest(order) else {
                return Ok(count);
            };
            match give_back(domain, self.worker, self.client, range.lo()) {
                Ok(_) => {
                    let _taken = self.magazines.take(order);
                }
                Err(refusal) => {
                    if count == 0 {
                        return Err(refusal);
                    }
                    return Ok(count);
                }
            }
        }
        Ok(all)
    }

    /// Ends the cache: it is gone, and its client is marked closing, so that nothing more is given
    /// to it. All that the cache had and all that its user held is the client's, which `CloseOne`
    /// puts into the domain's ring, one after another. The reply is that of the step `Close`.
    pub fn end(self, domain: &mut Domain) -> Reply
        ensures { IsStepOf domain.old (Step.Close self.worker self.client) result domain.new }
    {
        domain.step(Step::Close {
            worker: self.worker,
            client: self.client,
        })
    }
}
