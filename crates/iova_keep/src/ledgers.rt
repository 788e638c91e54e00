//! The four ledgers of a domain, whose shares its seats and tallies hold.
ghost use Rattle.std.specs.Prelude.{◌≡◌, ◌+◌, ◌*◌, ◌≤◌, ◌∷◌, [], IfOk, IsErr, Err};
ghost use Rattle.iova_range.specs.declared.limits.TheConstants.{MAX_CLIENTS, TALLY_PARTS};
ghost use Rattle.iova_model.specs.Clients.{totals_of, no_totals};
ghost use Rattle.iova_model.specs.Effects.{add_totals};
ghost use Rattle.iova_keep.specs.Views.{AreBlanksOf, TallyState, SeatState, LedgersState, Covers, seats_in_turn, MovesSharesAlone};

use crate::names::{CountOf, FramesOf, GoodOf, Names, SumLoOf};
use crate::seat::{Seat, Shares, Tally};
use iova_model::totals::Totals;
use iova_range::limits::{MAX_CLIENTS, TALLY_PARTS};
use iova_range::range::Range;
use iova_range::refusal::Refusal;
use std::alloc::Global;
use std::marker::Model;
use std::sync::ledger;
use std::sync::ledger::{Blank, Share};

/// What a domain's four ledgers are opened with: of each a blank, which no type stands for yet. It
/// takes no memory.
#[derive(Drop)]
pub struct Blanks {
    /// Of how many ranges are held.
    pub count: Blank,
    /// Of their frames.
    pub frames: Blank,
    /// Of the sum of their first frames.
    pub sum_lo: Blank,
    /// Of the flushes that ended well.
    pub good: Blank,
}

impl Blanks {
    /// Those of a domain with so many seats, whose tallies have so many parts each.
    pub fn new(seats: u64, parts: u64) -> Blanks
        requires { (seats ≤ MAX_CLIENTS) × (parts ≤ TALLY_PARTS) }
        ensures seats { (result.count.parts ≡ seats) × (result.frames.parts ≡ seats)
            × (result.sum_lo.parts ≡ seats) }
        ensures tallies { result.good.parts ≡ parts * seats }
    {
        // for the proof: so many parts are a number
        let _most = TALLY_PARTS * MAX_CLIENTS as u64;
        Blanks {
            count: Blank::new(seats),
            frames: Blank::new(seats),
            sum_lo: Blank::new(seats),
            good: Blank::new(parts * seats),
        }
    }
}

/// The totals over all holdings of a domain, and how many of its flushes ended well. It takes no
/// memory: only proofs see it. Whoever keeps a domain has its ledgers beside it, and moves a seat's
/// shares with them.
pub struct Ledgers<B: Names> {
    count: ledger::Book<CountOf<B>>,
    frames: ledger::Book<FramesOf<B>>,
    sum_lo: ledger::Book<SumLoOf<B>>,
    good: ledger::Book<GoodOf<B>>,
}

/// Drops its parts. The proof stands here, once for all crates above.
impl<B: Names> Drop for Ledgers<B> {
    fn drop(self) {
        let Ledgers {
            count: _,
            frames: _,
            sum_lo: _,
            good: _,
        } = self;
    }
}

impl<B: Names> Model for Ledgers<B> {
    ghost use Rattle.iova_keep.specs.Views.{LedgersState};

    ghost Value = { LedgersState };

    ghost view = { λ l. record {
      shares = record { count = l.count.total; frames = l.frames.total; sum_lo = l.sum_lo.total };
      ended = l.good.total;
    } };
}

impl<B: Names> Ledgers<B> {
    /// The ledgers of a new domain, all at 0, and so many seats, of its workers in turn, each with
    /// so many parts for its tally. Refused by `NoMemory`.
    #[tactic(auto, using(crate::proofs::Seating::room, crate::proofs::Seating::one_more))]
    pub fn open(
        alloc: Global,
        workers: u64,
        seats: u64,
        parts: u64,
        blanks: Blanks,
    ) -> Result<(Ledgers<B>, Vec<Seat<B>>), Refusal>
        requires blanks { AreBlanksOf blanks B.ledgers seats parts workers }
        requires workers { 1 ≤ workers }
        requires parts { 1 ≤ parts }
        ensures ok { IfOk result (λ r. (r.0 ≡ record { shares = no_totals; ended = 0 })
            × (r.1.items ≡ seats_in_turn parts workers seats)) }
        ensures err { IsErr result → result ≡ Err Refusal.NoMemory }
    {
        let (count, mut counted) = blanks.count.open::<CountOf<B>>();
        let (frames, mut framed) = blanks.frames.open::<FramesOf<B>>();
        let (sum_lo, mut summed) = blanks.sum_lo.open::<SumLoOf<B>>();
        let (good, mut ended) = blanks.good.open::<GoodOf<B>>();
        let mut opened = Vec::new(alloc);
        for at in 0..seats {
            let seat = Seat::new(
                at % workers,
                counted.split_off(1, 0),
                framed.split_off(1, 0),
                summed.split_off(1, 0),
                Tally::new(parts, ended.split_off(parts, 0)),
            );
            if opened.push(seat).is_err() {
                return Err(Refusal::NoMemory);
            }
        }
        Ok((
            Ledgers {
                count,
                frames,
                sum_lo,
                good,
            },
            opened,
        ))
    }

    /// A range was given to the seat's worker, which makes these the totals.
    #[inline]
    pub fn give(&mut self, seat: &mut Seat<B>, range: Range, totals: Totals)
        requires { totals ≡ add_totals self.old.shares (totals_of (range ∷ [])) }
        ensures shares { self.new.shares ≡ totals }
        ensures ended { self.new.ended ≡ self.old.ended }
        ensures held { seat.new.held ≡ add_totals seat.old.held (totals_of (range ∷ [])) }
        ensures rest { MovesSharesAlone seat.old seat.new }
    {
        // for the proof: these are numbers, and no share is above its total
        let _totals = totals;
        self.count.add(&mut seat.counted, 1);
        self.frames.add(&mut seat.framed, range.len());
        self.sum_lo.add(&mut seat.summed, range.lo());
        self.count.audit(&mut seat.counted);
        self.frames.audit(&mut seat.framed);
        self.sum_lo.audit(&mut seat.summed);
        seat.held.count += 1;
        seat.held.frames += range.len();
        seat.held.sum_lo += range.lo();
    }

    /// A range of the seat's shares was queued.
    #[inline]
    pub fn take(&mut self, seat: &mut Seat<B>, range: Range)
        requires { Covers seat.old.held range }
        ensures shares { self.old.shares ≡ add_totals self.new.shares (totals_of (range ∷ [])) }
        ensures ended { self.new.ended ≡ self.old.ended }
        ensures held { seat.old.held ≡ add_totals seat.new.held (totals_of (range ∷ [])) }
        ensures rest { MovesSharesAlone seat.old seat.new }
    {
        self.count.sub(&mut seat.counted, 1);
        self.frames.sub(&mut seat.framed, range.len());
        self.sum_lo.sub(&mut seat.summed, range.lo());
        seat.held.count -= 1;
        seat.held.frames -= range.len();
        seat.held.sum_lo -= range.lo();
    }

    /// A flush ended well, which makes this their number.
    #[inline]
    pub fn raise(&mut self, tally: &mut Tally<B>, good: u64)
        requires { good ≡ self.old.ended + 1 }
        ensures shares { self.new.shares ≡ self.old.shares }
        ensures ended { self.new.ended ≡ good }
        ensures tally { tally.new ≡ record tally.old { good = tally.old.good + 1 } }
    {
        // for the proof: this is a number, and no share is above its total
        let _good = good;
        self.good.add(&mut tally.share, 1);
        self.good.audit(&mut tally.share);
        tally.good += 1;
    }

    /// Changes nothing: whole shares have the totals of the holdings for their amounts.
    pub fn audit(&mut self, whole: &mut Shares<B>)
        requires counted { whole.old.counted.parts ≡ B.ledgers.count.parts }
        requires framed { whole.old.framed.parts ≡ B.ledgers.frames.parts }
        requires summed { whole.old.summed.parts ≡ B.ledgers.sum_lo.parts }
        ensures same { self.new ≡ self.old }
        ensures ended { (whole.new.ended.parts ≡ whole.old.ended.parts)
            × (whole.new.ended.amount ≡ whole.old.ended.amount) }
        ensures sums { (self.old.shares.count ≡ whole.old.counted.amount)
            × (self.old.shares.frames ≡ whole.old.framed.amount)
            × (self.old.shares.sum_lo ≡ whole.old.summed.amount) }
    {
        self.count.audit(&mut whole.counted);
        self.frames.audit(&mut whole.framed);
        self.sum_lo.audit(&mut whole.summed);
    }

    /// Changes nothing: a whole share has the number of the flushes that ended well for its amount.
    pub fn audit_ended(&mut self, ended: &mut Share<GoodOf<B>>)
        requires whole { ended.old.parts ≡ B.ledgers.good.parts }
        ensures same { self.new ≡ self.old }
        ensures sum { self.old.ended ≡ ended.old.amount }
    {
        self.good.audit(ended);
    }
}
