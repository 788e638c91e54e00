//! The one door to a domain that a keeper has: every step goes through `RecordedDomain::step`,
//! which records it.
ghost use Rattle.std.specs.Prelude.{ℕ, ◌≡◌, ◌≢◌, ◌+◌, ◌<◌, ◌⊎◌, ◌++◌, ◌∷◌, IfOk, IfErr, IsErr, Err, ◌≤◌, ◌↔◌, Some, None, [], true, false, option_copied, option_map, OnErr, vec_len, vec_capacity};
ghost use Rattle.iova_range.specs.declared.limits.TheConstants.{MAX_HOLDINGS};
ghost use Rattle.iova_range.specs.Frames.{Frames};
ghost use Rattle.iova_clients.specs.Registry.{AppendsHoldings};
ghost use Rattle.iova_model.specs.Clients.{totals, client_of};
ghost use Rattle.iova_model.specs.State.{State, new_domain};
ghost use Rattle.iova_model.specs.Effects.{MovesTotals, IsReplyTo, ended_well, to_queue, worker_of};
ghost use Rattle.iova_model.specs.Transcript.{Pair};
ghost use Rattle.iova_keep.specs.Steps.{Takes, IsGivenWithin, IsDrainReply};
ghost use Rattle.iova_record.specs.Records.{RecordedState};
ghost use Rattle.iova_keep.specs.StepLogs.{StepLog, IsRecorded, is_recording, new_log, StoresPair, StoresStep};
ghost use Rattle.iova_model.specs.declared.step.Step.{Step};
ghost use Rattle.iova_keep.specs.Views.{Covers, left_of, stat_of, IsKept};

use iova_core::domain::Domain;
use iova_laws::ledgers::steps_move_ledgers;
use iova_laws::promises::promises_are_kept;
use iova_laws::refusals::steps_keep_the_domain;
use iova_laws::replies::{queued_were_held, steps_are_answered_in_kind, steps_move_good};
use iova_laws::requests::requests_are_answered;
use iova_model::step::{Point, Reply, Step};
use iova_model::totals::Totals;
use iova_range::bounds::Bounds;
use iova_range::limits::MAX_WORKERS;
use iova_range::range::Range;
use iova_range::refusal::Refusal;
use iova_range::stat::Stat;
use std::alloc::Global;
use std::marker::Model;

/// A step, the growth in it that was refused, and its reply.
#[derive(Clone, Copy, Debug)]
pub struct StoredStep {
    pub step: Step,
    pub point: Point,
    pub reply: Reply,
}

impl Model for StoredStep {
    ghost use Rattle.iova_model.specs.Transcript.{Pair};

    ghost Value = { Pair };

    ghost view = { λ p. record { step = p.step; point = p.point; reply = p.reply } };

    ghost invariant = { λ p. Unit };

    ghost inverse = { λ v. record { step = v.step; point = v.point; reply = v.reply } };
}

/// What is recorded. All its room is taken when it is made.
pub struct Recording {
    recording: bool,
    pairs: Vec<StoredStep>,
}

/// Drops its parts. The proof stands here, once for all crates above.
impl Drop for Recording {
    fn drop(self) {
        let Recording {
            recording: _,
            pairs: _,
        } = self;
    }
}

impl Model for Recording {
    ghost use Rattle.std.specs.Prelude.{vec_capacity};
    ghost use Rattle.iova_keep.specs.StepLogs.{StepLog};

    ghost Value = { StepLog };

    ghost view = { λ l. record {
      recording = l.recording;
      room = vec_capacity l.pairs;
      pairs = l.pairs.items;
    } };
}

impl Recording {
    /// A log with room for so many pairs. Refused by `NoMemory`.
    fn with_room(alloc: Global, pairs: usize) -> Result<Recording, Refusal>
        ensures ok { IfOk result (λ l. l ≡ new_log pairs) }
        ensures err { IfErr result (λ e. e ≡ Refusal.NoMemory) }
    {
        match Vec::with_capacity(alloc, pairs) {
            Ok(pairs) => Ok(Recording {
                recording: true,
                pairs,
            }),
            Err(_) => Err(Refusal::NoMemory),
        }
    }
}

/// A domain, and where it is recorded the steps that it ran.
pub struct RecordedDomain {
    domain: Domain,
    log: Option<Recording>,
}

/// Drops its parts. The proof stands here, once for all crates above.
impl Drop for RecordedDomain {
    fn drop(self) {
        let RecordedDomain { domain: _, log: _ } = self;
    }
}

impl Model for RecordedDomain {
    ghost use Rattle.iova_record.specs.Records.{RecordedState};
    ghost use Rattle.iova_keep.specs.StepLogs.{IsRecorded};

    ghost Value = { RecordedState };

    ghost view = { λ m. record { state = m.domain; log = m.log } };

    ghost invariant = { λ m. IsRecorded m.log m.domain };
}

impl RecordedDomain {
    /// A new domain, which is recorded where there is a log.
    pub fn new(alloc: Global, bounds: Bounds, workers: u64) -> Result<RecordedDomain, Refusal>
        ensures ok { IfOk result (λ m. m ≡ record {
          state = new_domain bounds workers;
          log = None;
        }) }
        ensures workers { (result ≡ Err Refusal.NoWorker)
            ↔ ((workers ≡ 0) ⊎ (MAX_WORKERS < workers)) }
        ensures memory { IsErr result → (result ≡ Err Refusal.NoWorker)
            ⊎ (result ≡ Err Refusal.NoMemory) }
    {
        Ok(RecordedDomain {
            domain: Domain::new(alloc, bounds, workers)?,
            log: None,
        })
    }

    /// A new domain whose first steps are recorded, `pairs` of them.
    pub fn recorded(
        alloc: Global,
        bounds: Bounds,
        workers: u64,
        pairs: usize,
    ) -> Result<RecordedDomain, Refusal>
        ensures ok { IfOk result (λ m. m ≡ record {
          state = new_domain bounds workers;
          log = Some (new_log pairs);
        }) }
        ensures workers { (result ≡ Err Refusal.NoWorker)
            ↔ ((workers ≡ 0) ⊎ (MAX_WORKERS < workers)) }
        ensures memory { IsErr result → (result ≡ Err Refusal.NoWorker)
            ⊎ (result ≡ Err Refusal.NoMemory) }
    {
        let domain = Domain::new(alloc, bounds, workers)?;
        let log = Recording::with_room(alloc, pairs)?;
        Ok(RecordedDomain {
            domain,
            log: Some(log),
        })
    }

    /// Runs one step, and records it where there is room. The first step that finds none ends the
    /// recording for good.
    #[inline(always)]
    pub fn step(&mut self, step: Step) -> Reply
        ensures takes { Takes self.old.state step result self.new.state }
        ensures stores { StoresStep self.old.log step result self.new.log }
        ensures moves { MovesTotals result (totals self.old.state.clients)
            (totals self.new.state.clients) }
        ensures good { self.new.state.flushes.good
            ≡ self.old.state.flushes.good + ended_well step result }
        ensures kind { IsReplyTo step result }
        ensures given { IsGivenWithin step result }
        ensures known { (w : ℕ) → worker_of step ≡ Some w → w < self.old.state.workers
            → result ≢ Reply.Refused Refusal.NoWorker }
        ensures drained { IsDrainReply self.old.state.workers step result }
        ensures workers { self.new.state.workers ≡ self.old.state.workers }
        ensures held { (r : Frames) → result ≡ Reply.Queued r
            → to_queue self.old.state step ≡ Some r }
    {
        // for the proof: how a step moves the ledgers and the good flushes, how it is answered,
        // what it queues, gives and keeps; and that the state is valid
        steps_move_ledgers();
        steps_move_good();
        steps_are_answered_in_kind();
        queued_were_held();
        requests_are_answered();
        steps_keep_the_domain();
        let _workers = self.domain.workers();
        let answer = self.domain.step_at(step);
        let Some(log) = &mut self.log else {
            return answer.0;
        };
        log.keep(step, answer.1, answer.0);
        answer.0
    }

    /// The domain, to be read.
    pub fn domain(&self) -> &Domain
        ensures { result.now ≡ self.now.state }
    {
        &self.domain
    }

    /// The totals over all holdings of all clients.
    pub fn totals(&self) -> Totals
        ensures { result ≡ totals self.now.state.clients }
    {
        self.domain.totals()
    }

    /// How the domain stands, in numbers.
    pub fn stat(&self) -> Stat
        ensures { result ≡ stat_of self.now.state }
    {
        let counts = self.domain.counts();
        Stat {
            free: counts.free,
            reserved: counts.reserved,
            client: counts.client,
            magazine: counts.magazine,
            depot: counts.depot,
            ring: counts.ring,
            start: self.domain.start(),
            finish: self.domain.finish(),
        }
    }

    /// Appends the holdings of the worker's client, at most 4,096, in no order. Refused by
    /// `NoClient` and `NoMemory`; then nothing is appended. Where the list has room for 4,096 more
    /// it takes no memory.
    pub fn append_holdings(
        &self,
        worker: u64,
        client: u64,
        list: &mut Vec<Range>,
    ) -> Result<(), Refusal>
        ensures is { AppendsHoldings (client_of worker client self.now.state.clients)
            list.old.items list.new.items result }
        ensures unchanged { OnErr result (list.new.items ≡ list.old.items) }
        ensures room { vec_len list.old + MAX_HOLDINGS ≤ vec_capacity list.old
            → result ≢ Err Refusal.NoMemory }
        ensures capacity { vec_capacity list.old ≤ vec_capacity list.new }
    {
        if self.domain.owner(client) != Some(worker) {
            return Err(Refusal::NoClient);
        }
        self.domain.append_holdings(client, list)
    }

    /// What the domain keeps.
    pub fn is_kept(&self)
        ensures { IsKept self.now.state }
    {
        // for the proof: a run from a new domain keeps the promises
        promises_are_kept();
        let _workers = self.domain.workers();
    }

    /// How many flushes ended well.
    pub fn good(&self) -> u64
        ensures { result ≡ self.now.state.flushes.good }
    {
        self.domain.good()
    }

    /// The finish count.
    pub fn finish(&self) -> u64
        ensures { result ≡ self.now.state.flushes.finish }
    {
        self.domain.finish()
    }

    /// How many workers there are.
    pub fn workers(&self) -> u64
        ensures { result ≡ self.now.state.workers }
    {
        self.domain.workers()
    }

    /// The bounds.
    pub fn bounds(&self) -> Bounds
        ensures { result ≡ self.now.state.bounds }
    {
        self.domain.bounds()
    }

    /// Whether these totals are at least the worker's share of the domain's totals: the sums over
    /// all holdings of its clients.
    #[inline]
    pub fn share_is_within(&self, worker: u64, held: Totals) -> bool
        ensures { result ≡ true → (st : Step) (r : Frames) → worker_of st ≡ Some worker
            → to_queue self.now.state st ≡ Some r → Covers held r }
    {
        if worker >= self.domain.workers() {
            return false;
        }
        let share = self.domain.share_of(worker);
        share.count <= held.count && share.frames <= held.frames && share.sum_lo <= held.sum_lo
    }

    /// The range that a step would queue if the ring had room.
    pub fn to_queue(&self, step: Step) -> Option<Range>
        ensures { result ≡ to_queue self.now.state step }
    {
        self.domain.to_queue(step)
    }

    /// How many holdings the client has left, 0 where there is no such client.
    pub fn left(&self, client: u64) -> u64
        ensures { result ≡ left_of client self.now.state }
    {
        self.domain.count_of(client).unwrap_or(0)
    }

    /// Whether steps are still recorded.
    pub fn recording(&self) -> bool
        ensures { result ≡ is_recording self.now.log }
    {
        match &self.log {
            Some(log) => log.recording,
            None => false,
        }
    }

    /// The pairs that were recorded.
    pub fn pairs(&self) -> Option<&[StoredStep]>
        ensures is { option_copied result ≡ option_map (λ t. t.pairs) self.now.log }
        ensures recorded { IsRecorded self.now.log self.now.state }
    {
        match &self.log {
            Some(log) => Some(log.pairs.as_slice()),
            None => None,
        }
    }

    /// The domain, without what was recorded.
    pub fn into_domain(self) -> Domain
        ensures { result ≡ self.state }
    {
        let RecordedDomain { domain, log: _ } = self;
        domain
    }
}

impl Recording {
    /// `store`, in a function of its own: the step is then copied for that call alone.
    #[inline(always)]
    fn keep(&mut self, step: Step, point: Point, reply: Reply)
        ensures { StoresPair self.old (record { step = step; point = point; reply = reply })
            self.new }
    {
        self.store(step, point, reply);
    }

    /// Stores a step, the growth in it that was refused, and its reply where there is room, and
    /// else records no more. Out of line, so that it costs a domain without a log nothing but the
    /// question.
    #[inline(never)]
    fn store(&mut self, step: Step, point: Point, reply: Reply)
        ensures { StoresPair self.old (record { step = step; point = point; reply = reply })
            self.new }
    {
        if self.recording && self.pairs.len() < self.pairs.capacity() {
            self.pairs.push_reserved(StoredStep { step, point, reply });
        } else {
            self.recording = false;
        }
    }
}
