//! The value under the lock.
ghost use Rattle.iova_record.specs.Records.{WritesLog};
ghost use Rattle.iova_report.specs.Report.{report_text};
ghost use Rattle.std.specs.Prelude.{OnErr, OnOk, ◌++◌, ◌≡◌, ◌≢◌, ◌+◌, ◌<◌, ◌≤◌, ◌*◌, ◌⊎◌, ◌↔◌, Err, IsErr, vec_len, vec_capacity, IfErr, option_copied, option_map, true, false, if◌then◌else◌, Some, None, [], ◌∷◌, IfOk, IfSome, MatchResult, MatchOption, List, length};
ghost use Rattle.iova_range.specs.declared.limits.TheConstants.{MAX_CLIENTS, MAX_HOLDINGS, MAX_PAIRS, SEAT_PARTS, TALLY_PARTS};
ghost use Rattle.iova_range.specs.Frames.{Frames};
ghost use Rattle.iova_model.specs.Clients.{totals, client_of, no_totals};
ghost use Rattle.iova_model.specs.State.{State, new_domain};
ghost use Rattle.iova_clients.specs.Registry.{AppendsHoldings};
ghost use Rattle.iova_model.specs.Effects.{MovesTotals, IsReplyTo, ended_well, to_queue, worker_of};
ghost use Rattle.iova_keep.specs.Steps.{Takes, IsGivenWithin, IsDrainReply};
ghost use Rattle.iova_keep.specs.StepLogs.{StepLog, StoresStep, IsRecorded, is_recording, new_log};
ghost use Rattle.iova_keep.specs.Events.{Does, Unmapping, IsShort, Closing, Draining, rings_from};
ghost use Rattle.iova_lock.specs.Books.{BookState, DoesInBook, IsSame, AppendsNewer, HoldsInOrder, by_seat, by_tally, new_book, steps_in, IsBook};
ghost use Rattle.iova_keep.specs.Views.{AreBlanksOf, TallyState, SeatState, Covers, IsWorker, new_seats, seats_in_turn, left_of, stat_of, IsLowered, IsCloseHeard, IsKept, MovesSharesAlone, tally_after};

use iova_core::domain::Domain;
use iova_keep::ledgers::{Blanks, Ledgers};
use iova_keep::names::Names;
use iova_keep::seat::{Seat, Shares, Tally};
use iova_model::step::{ClientId, Reply, Step};
use iova_model::totals::Totals;
use iova_range::bounds::Bounds;
use iova_range::limits::{MAX_ENTRIES, MAX_WORKERS, SEAT_PARTS, TALLY_PARTS};
use iova_range::range::Range;
use iova_range::refusal::Refusal;
use iova_range::stat::Stat;
use iova_record::recorded_domain::{RecordedDomain, StoredStep};
use iova_report::report;
use std::alloc::Global;
use std::marker::Model;

/// Words that nobody reads, as long as a line of the processor's cache. Under a lock they keep what
/// a hold reads and writes out of the line of the lock's word, which all that look for the lock
/// take from one another.
#[derive(Clone, Copy)]
struct Apart {
    _words: [u64; 8],
}

impl Apart {
    fn new() -> Apart {
        Apart { _words: [0; 8] }
    }
}

/// A domain, with the ledgers of its totals and of its flushes that ended well.
pub struct Book<B: Names> {
    _apart: Apart,
    number: u64,
    seats: u64,
    strict: bool,
    recorded: RecordedDomain,
    ledgers: Ledgers<B>,
}

/// Drops its parts. The proof stands here, once for all crates above.
impl<B: Names> Drop for Book<B> {
    fn drop(self) {
        let Book {
            _apart: _,
            number: _,
            seats: _,
            strict: _,
            recorded: _,
            ledgers: _,
        } = self;
    }
}

impl<B: Names> Model for Book<B> {
    ghost use Rattle.std.specs.Prelude.{◌≡◌};
    ghost use Rattle.iova_model.specs.Clients.{totals};
    ghost use Rattle.iova_lock.specs.Books.{BookState};

    ghost Value = { BookState };

    ghost view = { λ b. record {
      number = b.number;
      strict = b.strict;
      state = b.recorded.state;
      log = b.recorded.log;
      shares = b.ledgers.shares;
      ended = b.ledgers.ended;
    } };

    ghost invariant = { λ b. (b.ledgers.shares ≡ totals b.recorded.state.clients)
        × (b.ledgers.ended ≡ b.recorded.state.flushes.good)
        × (B.ledgers.workers ≡ b.recorded.state.workers)
        × (B.ledgers.count.parts ≡ b.seats) × (B.ledgers.frames.parts ≡ b.seats)
        × (B.ledgers.sum_lo.parts ≡ b.seats) };
}

impl<B: Names> Book<B> {
    /// A new domain, and a seat for each worker. Refused by `NoWorker` where the workers aren't 1
    /// to 16, and by `NoMemory`.
    pub fn new(
        alloc: Global,
        number: u64,
        bounds: Bounds,
        workers: u64,
        blanks: Blanks,
    ) -> Result<(Book<B>, Vec<Seat<B>>), Refusal>
        requires blanks { 1 ≤ workers → workers ≤ MAX_WORKERS
            → AreBlanksOf blanks B.ledgers workers TALLY_PARTS workers }
        ensures ok { IfOk result (λ r. (r.0 ≡ new_book number bounds workers None)
            × (r.1.items ≡ new_seats workers)) }
        ensures workers { (result ≡ Err Refusal.NoWorker)
            ↔ ((workers ≡ 0) ⊎ (MAX_WORKERS < workers)) }
        ensures memory { IsErr result → (result ≡ Err Refusal.NoWorker)
            ⊎ (result ≡ Err Refusal.NoMemory) }
    {
        match RecordedDomain::new(alloc, bounds, workers) {
            Ok(recorded) => Book::over(
                alloc,
                number,
                workers,
                workers,
                TALLY_PARTS,
                recorded,
                blanks,
            ),
            Err(refusal) => Err(refusal),
        }
    }

    /// A new domain whose first steps are recorded, `pairs` of them, and a seat for each worker.
    /// Refused by `NoWorker` where the workers aren't 1 to 16, and by `NoMemory`.
    pub fn recorded(
        alloc: Global,
        number: u64,
        bounds: Bounds,
        workers: u64,
        pairs: usize,
        blanks: Blanks,
    ) -> Result<(Book<B>, Vec<Seat<B>>), Refusal>
        requires blanks { 1 ≤ workers → workers ≤ MAX_WORKERS
            → AreBlanksOf blanks B.ledgers workers TALLY_PARTS workers }
        ensures ok { IfOk result (λ r. (r.0 ≡ new_book number bounds workers (Some (new_log pairs)))
            × (r.1.items ≡ new_seats workers)) }
        ensures workers { (result ≡ Err Refusal.NoWorker)
            ↔ ((workers ≡ 0) ⊎ (MAX_WORKERS < workers)) }
        ensures memory { IsErr result → (result ≡ Err Refusal.NoWorker)
            ⊎ (result ≡ Err Refusal.NoMemory) }
    {
        match RecordedDomain::recorded(alloc, bounds, workers, pairs) {
            Ok(recorded) => Book::over(
                alloc,
                number,
                workers,
                workers,
                TALLY_PARTS,
                recorded,
                blanks,
            ),
            Err(refusal) => Err(refusal),
        }
    }

    /// A new domain, whose first steps are recorded, so many of them, where a number is given, and
    /// so many seats, of its workers in turn: as many as workers or more, and at most 1,024. A
    /// worker that has several seats is that of several threads. Refused by `NoMemory`.
    pub fn seated(
        alloc: Global,
        number: u64,
        bounds: Bounds,
        workers: u64,
        seats: u64,
        pairs: Option<usize>,
        blanks: Blanks,
    ) -> Result<(Book<B>, Vec<Seat<B>>), Refusal>
        requires workers { (1 ≤ workers) × (workers ≤ MAX_WORKERS) }
        requires seats { (workers ≤ seats) × (seats ≤ MAX_CLIENTS) }
        requires blanks { AreBlanksOf blanks B.ledgers seats SEAT_PARTS workers }
        ensures ok { IfOk result (λ r. (r.0 ≡ new_book number bounds workers
            (option_map new_log pairs)) × (r.1.items ≡ seats_in_turn SEAT_PARTS workers seats)) }
        ensures err { IsErr result → result ≡ Err Refusal.NoMemory }
    {
        let made = match pairs {
            Some(pairs) => RecordedDomain::recorded(alloc, bounds, workers, pairs),
            None => RecordedDomain::new(alloc, bounds, workers),
        };
        match made {
            Ok(recorded) => Book::over(alloc, number, workers, seats, SEAT_PARTS, recorded, blanks),
            Err(_) => Err(Refusal::NoMemory),
        }
    }

    /// A book over this new recorded domain, and so many seats, of its workers in turn, each with
    /// so many parts for its tally. Refused by `NoMemory`.
    fn over(
        alloc: Global,
        number: u64,
        workers: u64,
        seats: u64,
        parts: u64,
        recorded: RecordedDomain,
        blanks: Blanks,
    ) -> Result<(Book<B>, Vec<Seat<B>>), Refusal>
        requires blanks { AreBlanksOf blanks B.ledgers seats parts workers }
        requires workers { (1 ≤ workers) × (recorded.state.workers ≡ workers) }
        requires parts { 1 ≤ parts }
        requires new { (totals recorded.state.clients ≡ no_totals)
            × (recorded.state.flushes.good ≡ 0) }
        ensures ok { IfOk result (λ r. (r.0 ≡ record {
          number = number;
          strict = false;
          state = recorded.state;
          log = recorded.log;
          shares = no_totals;
          ended = 0;
        }) × (r.1.items ≡ seats_in_turn parts workers seats)) }
        ensures err { IsErr result → result ≡ Err Refusal.NoMemory }
    {
        match Ledgers::open(alloc, workers, seats, parts, blanks) {
            Ok((ledgers, opened)) => Ok((
                Book {
                    _apart: Apart::new(),
                    number,
                    seats,
                    strict: false,
                    recorded,
                    ledgers,
                },
                opened,
            )),
            Err(refusal) => {
                drop(recorded);
                Err(refusal)
            }
        }
    }

    /// The domain becomes strict: a range that is released there waits for a flush of its own. It
    /// takes no memory.
    pub fn strict(self) -> Self
        ensures { result ≡ record self { strict = true } }
    {
        let mut book = self;
        book.strict = true;
        book
    }

    /// What every book keeps, whoever holds it: so whatever a thread finds under the lock, and
    /// whatever it leaves there.
    pub fn is_kept(&self)
        ensures is { IsBook self.now }
        ensures workers { B.ledgers.workers ≡ self.now.state.workers }
    {
        // for the proof: what the domain keeps, and that its log is a transcript
        self.recorded.is_kept();
        let _pairs = self.recorded.pairs();
    }

    /// Whether steps are still recorded. While they are, the recorded pairs are a transcript from
    /// the new domain that leaves this one.
    pub fn recording(&self) -> bool
        ensures { result ≡ is_recording self.now.log }
    {
        self.recorded.recording()
    }

    /// The pairs that were recorded.
    pub fn pairs(&self) -> Option<&[StoredStep]>
        ensures is { option_copied result ≡ option_map (λ t. t.pairs) self.now.log }
        ensures recorded { IsRecorded self.now.log self.now.state }
    {
        self.recorded.pairs()
    }

    /// Appends what was recorded, as a trace: the header's line and a line for each step; of a
    /// domain that isn't recorded the header alone. Gives the number of steps. What is recorded is
    /// a transcript from the new domain, so the promises hold of it; and of at most 1,000,000 steps
    /// it is a trace, whose replay prints those replies. Refused by `NoMemory`, which appends
    /// nothing.
    pub fn transcript(&self, out: &mut Vec<u8>) -> Result<u64, Refusal>
        ensures recorded { WritesLog self.now.state self.now.log out.old.items out.new.items
            result }
        ensures err { OnErr result ((result ≡ Err Refusal.NoMemory)
            × (out.new.items ≡ out.old.items)) }
    {
        self.recorded.transcript(out)
    }

    /// How many steps are recorded.
    pub fn steps(&self) -> u64
        ensures { result ≡ steps_in self.now.log }
    {
        match self.recorded.pairs() {
            Some(pairs) => pairs.len() as u64,
            None => 0,
        }
    }

    /// Appends the domain's report. Refused by `NoMemory`, which appends nothing.
    pub fn report(&self, out: &mut Vec<u8>) -> Result<(), Refusal>
        ensures ok { OnOk result (out.new.items ≡ out.old.items ++ report_text self.now.state) }
        ensures err { OnErr result ((result ≡ Err Refusal.NoMemory)
            × (out.new.items ≡ out.old.items)) }
    {
        report(self.recorded.domain(), out)
    }

    /// The first client that the worker opened behind this serial, and its ranges, at most 4,096,
    /// appended in no order. Refused by `NoMemory`, which appends nothing.
    pub(crate) fn append_newer(
        &self,
        worker: u64,
        than: ClientId,
        ranges: &mut Vec<Range>,
    ) -> Result<Option<ClientId>, Refusal>
        ensures ok { IfOk result (AppendsNewer worker than self.now.state ranges.old.items
            ranges.new.items) }
        ensures err { OnErr result ((result ≡ Err Refusal.NoMemory)
            × (ranges.new.items ≡ ranges.old.items)) }
    {
        let domain = self.recorded.domain();
        let Some(id) = domain.newer(worker, than) else {
            return Ok(None);
        };
        match domain.append_holdings(id, ranges) {
            Err(Refusal::NoMemory) => Err(Refusal::NoMemory),
            _ => Ok(Some(id)),
        }
    }

    pub(crate) fn number_of(&self) -> u64
        ensures { result ≡ self.now.number }
    {
        self.number
    }

    pub(crate) fn totals_of(&self) -> Totals
        ensures { result ≡ totals self.now.state.clients }
    {
        self.recorded.totals()
    }

    /// How many holdings the client has left, 0 where there is no such client.
    pub(crate) fn left(&self, id: u64) -> u64
        ensures { result ≡ left_of id self.now.state }
    {
        self.recorded.left(id)
    }

    /// How many seats there are at the domain.
    pub(crate) fn seats(&self) -> u64
        ensures { (B.ledgers.count.parts ≡ result) × (B.ledgers.frames.parts ≡ result)
            × (B.ledgers.sum_lo.parts ≡ result) }
    {
        self.seats
    }

    /// How many workers the domain has.
    pub(crate) fn workers(&self) -> u64
        ensures is { result ≡ self.now.state.workers }
        ensures known { B.ledgers.workers ≡ result }
        ensures some { 1 ≤ result }
        ensures few { result ≤ MAX_WORKERS }
    {
        // for the proof: what the domain keeps
        self.recorded.is_kept();
        self.recorded.workers()
    }

    /// Whether the domain is strict from now on, which whoever has it knows.
    #[inline(always)]
    pub(crate) fn strict_as(&mut self, strict: bool)
        ensures { self.new ≡ record self.old { strict = strict } }
    {
        self.strict = strict;
    }

    /// Whether the domain is strict.
    pub(crate) fn is_strict(&self) -> bool
        ensures { result ≡ self.now.strict }
    {
        self.strict
    }

    /// The finish count.
    pub(crate) fn finish(&self) -> u64
        ensures { result ≡ self.now.state.flushes.finish }
    {
        self.recorded.finish()
    }

    /// How the domain stands, in numbers.
    pub(crate) fn stat_of(&self) -> Stat
        ensures { result ≡ stat_of self.now.state }
    {
        self.recorded.stat()
    }

    /// Appends the holdings of the worker's client, in no order.
    pub(crate) fn append_holdings(
        &self,
        worker: u64,
        id: u64,
        ranges: &mut Vec<Range>,
    ) -> Result<(), Refusal>
        ensures is { AppendsHoldings (client_of worker id self.now.state.clients)
            ranges.old.items ranges.new.items result }
        ensures held { IfSome (client_of worker id self.now.state.clients) HoldsInOrder }
        ensures room { vec_len ranges.old + MAX_HOLDINGS ≤ vec_capacity ranges.old
            → result ≢ Err Refusal.NoMemory }
        ensures capacity { vec_capacity ranges.old ≤ vec_capacity ranges.new }
        ensures err { IfErr result (λ e. ((e ≡ Refusal.NoClient) ⊎ (e ≡ Refusal.NoMemory))
            × (ranges.new.items ≡ ranges.old.items)) }
    {
        // for the proof: what the domain keeps
        self.recorded.is_kept();
        self.recorded.append_holdings(worker, id, ranges)
    }

    pub(crate) fn into_domain(self) -> Domain
        ensures is { result ≡ self.state }
        ensures kept { IsKept result }
        ensures workers { B.ledgers.workers ≡ result.workers }
    {
        // for the proof: what the domain keeps
        self.recorded.is_kept();
        let Book {
            _apart: _,
            number: _,
            seats: _,
            strict: _,
            recorded,
            ledgers: _,
        } = self;
        recorded.into_domain()
    }

    /// The totals, which whole shares have for their amounts.
    pub(crate) fn audit(&mut self, whole: &mut Shares<B>) -> Totals
        requires counted { whole.old.counted.parts ≡ B.ledgers.count.parts }
        requires framed { whole.old.framed.parts ≡ B.ledgers.frames.parts }
        requires summed { whole.old.summed.parts ≡ B.ledgers.sum_lo.parts }
        ensures same { self.new ≡ self.old }
        ensures ended { (whole.new.ended.parts ≡ whole.old.ended.parts)
            × (whole.new.ended.amount ≡ whole.old.ended.amount) }
        ensures locked { result ≡ totals self.old.state.clients }
        ensures sums { (result.count ≡ whole.old.counted.amount)
            × (result.frames ≡ whole.old.framed.amount)
            × (result.sum_lo ≡ whole.old.summed.amount) }
    {
        self.ledgers.audit(whole);
        self.recorded.totals()
    }

    /// How many of its flushes ended well is the amount of a whole share.
    pub(crate) fn audit_ended(&mut self, whole: &mut Shares<B>)
        requires ended { whole.old.ended.parts ≡ B.ledgers.good.parts }
        ensures same { self.new ≡ self.old }
        ensures sum { self.old.state.flushes.good ≡ whole.old.ended.amount }
    {
        self.ledgers.audit_ended(&mut whole.ended);
    }

    /// Runs a seat's step that may queue a range, unless one of the seat's shares is less than the
    /// range.
    #[inline(always)]
    pub(crate) fn run_within(&mut self, seat: &mut Seat<B>, step: Step) -> Reply
        requires by_seat { by_seat step ≡ true }
        requires worker { worker_of step ≡ Some seat.old.worker }
        ensures does { Does (Unmapping step seat.old.held result) self.old.state self.new.state }
        ensures runs { DoesInBook (Unmapping step seat.old.held result) self.old self.new }
        ensures same { IsSame self.old self.new }
        ensures kind { (result ≡ Reply.Refused Refusal.NotHeld) ⊎ IsReplyTo step result }
        ensures known { result ≢ Reply.Refused Refusal.NoWorker }
        ensures seat { MovesTotals result seat.old.held seat.new.held }
        ensures rest { MovesSharesAlone seat.old seat.new }
    {
        if !self.covers_step(seat, step) {
            return Reply::Refused(Refusal::NotHeld);
        }
        self.run(seat, step)
    }

    /// Whether the seat's shares cover what a step of its worker would queue. They do where they
    /// are at least the worker's share of the domain's totals; only where they are less the range
    /// is sought.
    #[inline(always)]
    fn covers_step(&self, seat: &Seat<B>, step: Step) -> bool
        requires { worker_of step ≡ Some seat.now.worker }
        ensures yes { result ≡ true → (r : Frames) → to_queue self.now.state step ≡ Some r
            → Covers seat.now.held r }
        ensures none { result ≡ false → IsShort seat.now.held (to_queue self.now.state step) }
    {
        if self.recorded.share_is_within(seat.worker(), seat.held()) {
            return true;
        }
        self.covers_slow(seat, step)
    }

    /// `covers_range`, in a function of its own: the step is then copied for that call alone.
    #[inline(always)]
    fn covers_slow(&self, seat: &Seat<B>, step: Step) -> bool
        ensures yes { result ≡ true → (r : Frames) → to_queue self.now.state step ≡ Some r
            → Covers seat.now.held r }
        ensures none { result ≡ false → IsShort seat.now.held (to_queue self.now.state step) }
    {
        self.covers_range(seat, step)
    }

    /// Whether the seat covers the range that the step would queue, by looking the range up.
    #[inline(never)]
    fn covers_range(&self, seat: &Seat<B>, step: Step) -> bool
        ensures yes { result ≡ true → (r : Frames) → to_queue self.now.state step ≡ Some r
            → Covers seat.now.held r }
        ensures none { result ≡ false → IsShort seat.now.held (to_queue self.now.state step) }
    {
        covers(seat.held(), self.recorded.to_queue(step))
    }

    /// Closes the client, range by range, until a step queues none, and answers that step's reply.
    pub(crate) fn close_all(&mut self, seat: &mut Seat<B>, id: u64) -> Reply
        ensures closes { DoesInBook (Closing (Step.CloseOne seat.old.worker id) seat.old.held
            seat.new.held result) self.old self.new }
        ensures shares { (ranges : List Frames) × IsLowered ranges seat.old.held seat.new.held }
        ensures heard { IsCloseHeard (Some result) }
        ensures same { IsSame self.old self.new }
        ensures rest { MovesSharesAlone seat.old seat.new }
    {
        let worker = seat.worker();
        let last = 'queue: loop {
            let reply = self.run_within(seat, Step::CloseOne { worker, client: id });
            if !is_queued(&reply) {
                break reply;
            }
        };
        last
    }

    /// Drains `left` rings from `ring` on, and answers how many entries that frees.
    pub(crate) fn drain_rings(&mut self, ring: u64, left: u64, by: u64) -> u64
        requires few { ring + left ≤ MAX_WORKERS }
        requires rings { ring + left ≡ B.ledgers.workers }
        requires worker { IsWorker B.ledgers by }
        ensures drains { DoesInBook (Draining by (rings_from ring left) result) self.old self.new }
        ensures bound { result ≤ MAX_ENTRIES * left }
        ensures same { IsSame self.old self.new }
    {
        if left == 0 {
            return 0;
        }
        let n = self.drain_one(ring, by);
        n + self.drain_rings(ring + 1, left - 1, by)
    }

    /// Drains a ring, and answers how many entries that frees.
    pub(crate) fn drain_one(&mut self, ring: u64, by: u64) -> u64
        requires ring { IsWorker B.ledgers ring }
        requires worker { IsWorker B.ledgers by }
        ensures takes { Takes self.old.state (Step.Drain ring by) (Reply.Drained result)
            self.new.state }
        ensures stores { StoresStep self.old.log (Step.Drain ring by) (Reply.Drained result)
            self.new.log }
        ensures bound { result ≤ MAX_ENTRIES }
        ensures same { IsSame self.old self.new }
    {
        match self.recorded.step(Step::Drain { ring, by }) {
            Reply::Drained(n) => n,
            _ => unreachable!(),
        }
    }

    /// Drains a ring. No share and no tally moves.
    pub(crate) fn run_drain(&mut self, ring: u64, by: u64) -> Reply
        ensures takes { Takes self.old.state (Step.Drain ring by) result self.new.state }
        ensures stores { StoresStep self.old.log (Step.Drain ring by) result self.new.log }
        ensures drained { IsDrainReply self.old.state.workers (Step.Drain ring by) result }
        ensures same { IsSame self.old self.new }
    {
        self.recorded.step(Step::Drain { ring, by })
    }

    /// Makes a window. No share and no tally moves.
    pub(crate) fn run_reserve(&mut self, lo: u64, hi: u64) -> Reply
        ensures takes { Takes self.old.state (Step.Reserve lo hi) result self.new.state }
        ensures stores { StoresStep self.old.log (Step.Reserve lo hi) result self.new.log }
        ensures kind { IsReplyTo (Step.Reserve lo hi) result }
        ensures same { IsSame self.old self.new }
    {
        self.recorded.step(Step::Reserve { lo, hi })
    }

    /// Runs a seat's step, and moves the seat's shares by what was answered.
    #[inline(always)]
    pub(crate) fn run(&mut self, seat: &mut Seat<B>, step: Step) -> Reply
        requires by_seat { by_seat step ≡ true }
        requires worker { worker_of step ≡ Some seat.old.worker }
        requires enough { (r : Frames) → to_queue self.old.state step ≡ Some r
            → Covers seat.old.held r }
        ensures takes { Takes self.old.state step result self.new.state }
        ensures stores { StoresStep self.old.log step result self.new.log }
        ensures same { IsSame self.old self.new }
        ensures kind { IsReplyTo step result }
        ensures known { result ≢ Reply.Refused Refusal.NoWorker }
        ensures given { IsGivenWithin step result }
        ensures seat { MovesTotals result seat.old.held seat.new.held }
        ensures rest { MovesSharesAlone seat.old seat.new }
    {
        // for the proof: it is one of the domain's
        let _worker = seat.worker();
        let reply = self.recorded.step(step);
        match reply {
            Reply::Given(range) => self.ledgers.give(seat, range, self.recorded.totals()),
            Reply::Queued(range) => self.ledgers.take(seat, range),
            _ => {}
        }
        reply
    }

    /// Begins or ends a flush: the tally gets the event, and rises if the flush succeeded.
    pub(crate) fn run_flush(&mut self, tally: &mut Tally<B>, step: Step) -> Reply
        requires { by_tally step ≡ true }
        ensures takes { Takes self.old.state step result self.new.state }
        ensures stores { StoresStep self.old.log step result self.new.log }
        ensures same { IsSame self.old self.new }
        ensures kind { IsReplyTo step result }
        ensures tally { tally.new ≡ tally_after step result tally.old }
    {
        let reply = self.recorded.step(step);
        if ends_well(step, &reply) {
            self.ledgers.raise(tally, self.recorded.good());
        }
        tally.note(step, &reply);
        reply
    }

    /// Runs a step of a flush, which raises the seat's own tally where it ends one well.
    pub(crate) fn run_flush_at(&mut self, seat: &mut Seat<B>, step: Step) -> Reply
        requires { by_tally step ≡ true }
        ensures takes { Takes self.old.state step result self.new.state }
        ensures stores { StoresStep self.old.log step result self.new.log }
        ensures same { IsSame self.old self.new }
        ensures kind { IsReplyTo step result }
        ensures tally { seat.new.tally ≡ tally_after step result seat.old.tally }
        ensures rest { (seat.new.worker ≡ seat.old.worker) × (seat.new.held ≡ seat.old.held) }
    {
        self.run_flush(seat.tally(), step)
    }
}

/// Whether the totals cover the range, if there is one.
fn covers(held: Totals, range: Option<Range>) -> bool
    ensures yes { result ≡ true → (r : Frames) → range ≡ Some r → Covers held r }
    ensures none { result ≡ false → IsShort held range }
{
    match range {
        Some(range) => {
            held.count >= 1 && held.frames >= range.len() && held.sum_lo >= range.lo()
        }
        None => true,
    }
}

pub(crate) fn is_queued(reply: &Reply) -> bool
    ensures yes { result ≡ true → (r : Frames) × (reply.now ≡ Reply.Queued r) }
    ensures none { result ≡ false → (r : Frames) → reply.now ≢ Reply.Queued r }
{
    matches!(reply, Reply::Queued(_))
}

fn ends_well(step: Step, reply: &Reply) -> bool
    ensures { ended_well step reply.now ≡ (if result then 1 else 0) }
{
    match (step, reply) {
        (Step::End { no: _, ok }, Reply::Ended) => ok,
        _ => false,
    }
}
