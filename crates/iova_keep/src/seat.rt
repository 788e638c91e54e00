//! What a seat at a domain keeps of the domain's totals.
ghost use Rattle.std.specs.Prelude.{◌≡◌, ◌+◌, ◌≤◌, ◌++◌, []};
ghost use Rattle.iova_model.specs.Clients.{no_totals};
ghost use Rattle.iova_sink.specs.Calls.{with_call};
ghost use Rattle.iova_keep.specs.FlushEvents.{flush_events};
ghost use Rattle.iova_keep.specs.Views.{TallyState, SeatState, IsWorker, tally_asked};

use crate::flush_history::{FlushEvent, FlushHistory};
use crate::names::{CountOf, FramesOf, GoodOf, Names, SumLoOf};
use iova_model::step::{Reply, Step};
use iova_model::totals::Totals;
use iova_range::range::Range;
use iova_sink::sink::Sink;
use std::marker::Model;
use std::sync::ledger::Share;

/// How many flushes its holder ended well, a share of all that ended well in the domain. Its parts
/// can be split off, so that several threads of one worker end flushes.
pub struct Tally<B: Names> {
    pub(crate) good: u64,
    pub(crate) parts: u64,
    pub(crate) share: Share<GoodOf<B>>,
    pub(crate) past: FlushHistory,
}

/// Drops its parts. The proof stands here, once for all crates above.
impl<B: Names> Drop for Tally<B> {
    fn drop(self) {
        let Tally {
            good: _,
            parts: _,
            share: _,
            past: _,
        } = self;
    }
}

impl<B: Names> Model for Tally<B> {
    ghost use Rattle.std.specs.Prelude.{◌≡◌, ◌≤◌};
    ghost use Rattle.iova_keep.specs.Views.{TallyState};

    ghost Value = { TallyState };

    ghost view = { λ t. record { good = t.good; parts = t.parts; past = t.past } };

    ghost invariant = { λ t. (t.share.amount ≡ t.good) × (t.share.parts ≡ t.parts)
        × (1 ≤ t.parts) };
}

impl<B: Names> Tally<B> {
    /// A tally at 0, with so many parts of the ledger.
    pub(crate) fn new(parts: u64, share: Share<GoodOf<B>>) -> Tally<B>
        requires { (share.amount ≡ 0) × (share.parts ≡ parts) × (1 ≤ parts) }
        ensures { result ≡ record { good = 0; parts = parts; past = [] } }
    {
        Tally {
            good: 0,
            parts,
            share,
            past: FlushHistory::new(),
        }
    }

    /// How many flushes its holder ended well; 0 at first.
    pub fn good(&self) -> u64
        ensures { result ≡ self.now.good }
    {
        self.good
    }

    /// Its parts of the ledger: those that its seat was opened with, less those that were split
    /// off.
    pub fn parts(&self) -> u64
        ensures { result ≡ self.now.parts }
    {
        self.parts
    }

    /// A new tally at 0, with one part of this one.
    pub fn split(&mut self) -> Tally<B>
        requires { 2 ≤ self.old.parts }
        ensures new { result ≡ record { good = 0; parts = 1; past = [] } }
        ensures good { self.new.good ≡ self.old.good }
        ensures parts { self.new.parts + 1 ≡ self.old.parts }
        ensures past { self.new.past ≡ self.old.past }
    {
        self.parts -= 1;
        Tally {
            good: 0,
            parts: 1,
            share: self.share.split_off(1, 0),
            past: FlushHistory::new(),
        }
    }

    /// Appends the event of a step of a flush with this reply: that it began, or that it ended. A
    /// refused step is no event.
    pub fn note(&mut self, step: Step, reply: &Reply)
        ensures { self.new ≡ record self.old
            { past = self.old.past ++ flush_events step reply.now } }
    {
        match (step, reply) {
            (Step::Begin, Reply::Begun(no)) => self.past.add(FlushEvent::Began(*no)),
            (Step::End { no, ok }, Reply::Ended) => self.past.add(FlushEvent::Ended(no, ok)),
            _ => {}
        }
    }

    /// Asks the sink to invalidate what the domain of this number has unmapped, for the flush of
    /// the number `no`, and appends that event. Returns whether the flush succeeded. No other
    /// function appends an answer.
    pub(crate) fn ask<D: Sink>(&mut self, sink: &mut D, domain: u64, no: u64) -> bool
        ensures calls { D.calls sink.new ≡ with_call (D.calls sink.old) domain no result }
        ensures tally { self.new ≡ tally_asked no result self.old }
    {
        let ok = sink.invalidate(domain, no).is_ok();
        self.past.add(FlushEvent::Asked(no, ok));
        ok
    }

    /// Its share of the ledger: all its parts, and what it counted.
    pub fn into_share(self) -> Share<GoodOf<B>>
        ensures parts { result.parts ≡ self.parts }
        ensures amount { result.amount ≡ self.good }
    {
        let Tally {
            good: _,
            parts: _,
            share,
            past: _,
        } = self;
        share
    }
}

/// Shares of a domain's four ledgers, of one seat or of several.
#[derive(Drop)]
pub struct Shares<B: Names> {
    /// Of how many ranges are held.
    pub counted: Share<CountOf<B>>,
    /// Of their frames.
    pub framed: Share<FramesOf<B>>,
    /// Of the sum of their first frames.
    pub summed: Share<SumLoOf<B>>,
    /// Of the flushes that ended well.
    pub ended: Share<GoodOf<B>>,
}

/// A place at the domain, of one of its workers: its shares of the count, the frames and the sum of
/// first frames of all holdings, which each call moves by what it answers, and its tally. A worker
/// may have several seats, and each has the shares of what was given to it alone. A seat of another
/// domain has another type, and its worker is one of the domain's.
pub struct Seat<B: Names> {
    pub(crate) worker: u64,
    pub(crate) held: Totals,
    pub(crate) counted: Share<CountOf<B>>,
    pub(crate) framed: Share<FramesOf<B>>,
    pub(crate) summed: Share<SumLoOf<B>>,
    pub(crate) tally: Tally<B>,
}

/// Drops its parts. The proof stands here, once for all crates above.
impl<B: Names> Drop for Seat<B> {
    fn drop(self) {
        let Seat {
            worker: _,
            held: _,
            counted: _,
            framed: _,
            summed: _,
            tally: _,
        } = self;
    }
}

impl<B: Names> Model for Seat<B> {
    ghost use Rattle.std.specs.Prelude.{◌≡◌};
    ghost use Rattle.iova_keep.specs.Views.{SeatState, IsWorker};

    ghost Value = { SeatState };

    ghost view = { λ s. record { worker = s.worker; held = s.held; tally = s.tally } };

    ghost invariant = { λ s. (s.counted.amount ≡ s.held.count) × (s.counted.parts ≡ 1)
        × (s.framed.amount ≡ s.held.frames) × (s.framed.parts ≡ 1)
        × (s.summed.amount ≡ s.held.sum_lo) × (s.summed.parts ≡ 1)
        × IsWorker B.ledgers s.worker };
}

impl<B: Names> Seat<B> {
    ghost use Rattle.std.specs.Borrow.{Lends, sem};
    ghost use Rattle.iova_keep.specs.contracts.seat.Seat.{the_row};
    ghost use Rattle.iova_keep.specs.contracts.seat.Tally as tallies;

    /// A seat with a part of each ledger, and nothing on it.
    pub(crate) fn new(
        worker: u64,
        counted: Share<CountOf<B>>,
        framed: Share<FramesOf<B>>,
        summed: Share<SumLoOf<B>>,
        tally: Tally<B>,
    ) -> Seat<B>
        requires counted { (counted.amount ≡ 0) × (counted.parts ≡ 1) }
        requires framed { (framed.amount ≡ 0) × (framed.parts ≡ 1) }
        requires summed { (summed.amount ≡ 0) × (summed.parts ≡ 1) }
        requires worker { IsWorker B.ledgers worker }
        ensures { result ≡ record { worker = worker; held = no_totals; tally = tally } }
    {
        Seat {
            worker,
            held: Totals {
                count: 0,
                frames: 0,
                sum_lo: 0,
            },
            counted,
            framed,
            summed,
            tally,
        }
    }

    /// The seat's own tally.
    pub fn tally(&mut self) -> &mut Tally<B>
        ensures* writes_back { sem 𝓛 (Lends
            (the_row B.row B.Names)
            (tallies.the_row B.row B.Names) self.entry result
            (λ w. record self.old { tally = w })) }
        ensures value { result.now ≡ self.old.tally }
    {
        &mut self.tally
    }

    /// Asks the sink for a flush, and appends that to the seat's own tally: see `Tally::ask`.
    pub(crate) fn ask<D: Sink>(&mut self, sink: &mut D, domain: u64, no: u64) -> bool
        ensures calls { D.calls sink.new ≡ with_call (D.calls sink.old) domain no result }
        ensures seat { self.new ≡ record self.old { tally = tally_asked no result self.old.tally } }
    {
        self.tally.ask(sink, domain, no)
    }

    /// The worker, one of the domain's.
    pub fn worker(&self) -> u64
        ensures is { result ≡ self.now.worker }
        ensures known { IsWorker B.ledgers result }
    {
        self.worker
    }

    /// How many ranges were given to it, less those that it queued.
    pub fn count(&self) -> u64
        ensures { result ≡ self.now.held.count }
    {
        self.held.count
    }

    /// Their frames.
    pub fn frames(&self) -> u64
        ensures { result ≡ self.now.held.frames }
    {
        self.held.frames
    }

    /// The sum of their first frames.
    pub fn sum_lo(&self) -> u64
        ensures { result ≡ self.now.held.sum_lo }
    {
        self.held.sum_lo
    }

    /// The count, the frames and the sum together.
    pub fn held(&self) -> Totals
        ensures { result ≡ self.now.held }
    {
        self.held
    }

    /// Shares with no part and no amount.
    pub fn lend(&mut self) -> Shares<B>
        ensures same { self.new ≡ self.old }
        ensures none { (result.counted.parts ≡ 0) × (result.counted.amount ≡ 0)
            × (result.framed.parts ≡ 0) × (result.framed.amount ≡ 0)
            × (result.summed.parts ≡ 0) × (result.summed.amount ≡ 0)
            × (result.ended.parts ≡ 0) × (result.ended.amount ≡ 0) }
    {
        Shares {
            counted: self.counted.empty(),
            framed: self.framed.empty(),
            summed: self.summed.empty(),
            ended: self.tally.share.empty(),
        }
    }

    /// Its shares: one part of each of the three, and all parts of its tally.
    pub fn into_shares(self) -> Shares<B>
        ensures parts { (result.counted.parts ≡ 1) × (result.framed.parts ≡ 1)
            × (result.summed.parts ≡ 1) × (result.ended.parts ≡ self.tally.parts) }
        ensures amounts { (result.counted.amount ≡ self.held.count)
            × (result.framed.amount ≡ self.held.frames)
            × (result.summed.amount ≡ self.held.sum_lo)
            × (result.ended.amount ≡ self.tally.good) }
    {
        let Seat {
            worker: _,
            held: _,
            counted,
            framed,
            summed,
            tally,
        } = self;
        Shares {
            counted,
            framed,
            summed,
            ended: tally.into_share(),
        }
    }
}
