//! The holds of a book.
ghost use Rattle.std.specs.Prelude.{◌≡◌, ◌≢◌, ℕ, Option, Some, None, MatchBool, List, true, false};
ghost use Rattle.iova_range.specs.Frames.{Frames};
ghost use Rattle.iova_model.specs.State.{State};
ghost use Rattle.iova_keep.specs.Releases.{QueuedStrictly, FlushFollows};
ghost use Rattle.iova_keep.specs.Views.{queued_by, Lowers, IsLowered};

use crate::batch;
use crate::book::{Book, is_queued};
use iova_clients::orders::put_in_order_from;
use iova_keep::ask::{Ask, Told};
use iova_keep::keep::{Heard, Keep};
use iova_keep::names::Names;
use iova_keep::seat::{Seat, Tally};
use iova_model::step::{ClientId, Reply, Step};
use iova_model::totals::Totals;
use iova_range::range::Range;
use iova_range::refusal::Refusal;
use iova_range::stat::Stat;

/// The totals of nothing.
const NOTHING: Totals = Totals {
    count: 0,
    frames: 0,
    sum_lo: 0,
};

/// What an unmap with this reply queued.
fn queued_by(reply: &Reply) -> Totals
    ensures { result ≡ queued_by reply.now }
{
    match reply {
        Reply::Queued(range) => Totals {
            count: 1,
            frames: range.len(),
            sum_lo: range.lo(),
        },
        _ => NOTHING,
    }
}

/// What lies between the totals before and after ranges were queued.
fn queued_between(before: Totals, after: Totals) -> Totals
    requires { (ranges : List Frames) × IsLowered ranges before after }
    ensures { Lowers result before after }
{
    Totals {
        count: before.count - after.count,
        frames: before.frames - after.frames,
        sum_lo: before.sum_lo - after.sum_lo,
    }
}

/// Whether the ring was full.
pub(crate) fn is_full(reply: &Reply) -> bool
    ensures { MatchBool result (reply.now ≡ Reply.Refused Refusal.RingFull)
        (reply.now ≢ Reply.Refused Refusal.RingFull) }
{
    matches!(reply, Reply::Refused(Refusal::RingFull))
}

/// Whether a range was queued in a strict domain.
fn queued_strictly(strict: bool, reply: &Reply) -> bool
    ensures { MatchBool result (QueuedStrictly strict reply.now)
        (QueuedStrictly strict reply.now → ⊥) }
{
    strict && is_queued(reply)
}

/// Whether a flush follows the first hold of a release.
fn flush_follows(strict: bool, reply: &Reply) -> bool
    ensures { MatchBool result (FlushFollows strict reply.now) (FlushFollows strict reply.now → ⊥) }
{
    is_full(reply) || queued_strictly(strict, reply)
}

impl<B: Names> Keep<B> for Book<B> {
    ghost domain = { λ b. Some b.state };

    ghost identity = { λ b. record { number = b.number; strict = b.strict } };

    ghost log = { λ b. b.log };

    fn number(&self) -> u64 {
        self.number_of()
    }

    fn domain_is_kept(&self) {
        // for the proof: what every book keeps
        self.is_kept();
    }

    fn reserve(&mut self, lo: u64, hi: u64) -> Result<Range, Refusal> {
        match self.run_reserve(lo, hi) {
            Reply::Reserved(window) => Ok(window),
            Reply::Refused(refusal) => Err(refusal),
            _ => unreachable!(),
        }
    }

    fn open(&mut self, seat: &mut Seat<B>, sac: bool) -> Result<ClientId, Refusal> {
        let worker = seat.worker();
        match self.run(seat, Step::Open { worker, sac }) {
            Reply::Opened(id) => Ok(id),
            Reply::Refused(refusal) => Err(refusal),
            _ => unreachable!(),
        }
    }

    fn alloc(
        &mut self,
        seat: &mut Seat<B>,
        id: ClientId,
        frames: u64,
        limit: u64,
    ) -> Result<Range, Refusal> {
        let worker = seat.worker();
        match self.run(
            seat,
            Step::Alloc {
                worker,
                client: id,
                frames,
                limit,
            },
        ) {
            Reply::Given(range) => Ok(range),
            Reply::Refused(refusal) => Err(refusal),
            _ => unreachable!(),
        }
    }

    fn unmap_first(&mut self, seat: &mut Seat<B>, id: ClientId, lo: u64) -> Heard {
        let worker = seat.worker();
        let reply = self.run_within(
            seat,
            Step::Unmap {
                worker,
                client: id,
                lo,
            },
        );
        let begun = if is_full(&reply) {
            Some(self.run_flush_at(seat, Step::Begin))
        } else {
            None
        };
        Heard {
            queued: queued_by(&reply),
            reply: Some(reply),
            begun,
            left: self.left(id),
        }
    }

    fn unmap_again(
        &mut self,
        seat: &mut Seat<B>,
        id: ClientId,
        lo: u64,
        no: u64,
        ok: bool,
    ) -> Heard {
        let worker = seat.worker();
        let _ended = self.run_flush_at(seat, Step::End { no, ok });
        let reply = self.run_within(
            seat,
            Step::Unmap {
                worker,
                client: id,
                lo,
            },
        );
        Heard {
            queued: queued_by(&reply),
            reply: Some(reply),
            begun: None,
            left: self.left(id),
        }
    }

    fn begin(&mut self, tally: &mut Tally<B>) -> Heard {
        let begun = self.run_flush(tally, Step::Begin);
        Heard {
            reply: None,
            begun: Some(begun),
            queued: NOTHING,
            left: 0,
        }
    }

    fn end(&mut self, tally: &mut Tally<B>, no: u64, ok: bool) -> Heard {
        let ended = self.run_flush(tally, Step::End { no, ok });
        Heard {
            reply: Some(ended),
            begun: None,
            queued: NOTHING,
            left: 0,
        }
    }

    fn close_first(&mut self, seat: &mut Seat<B>, id: ClientId) -> Heard {
        let before = seat.held();
        let reply = self.close_all(seat, id);
        let begun = if is_full(&reply) {
            Some(self.run_flush_at(seat, Step::Begin))
        } else {
            None
        };
        Heard {
            queued: queued_between(before, seat.held()),
            reply: Some(reply),
            begun,
            left: self.left(id),
        }
    }

    fn close_again(&mut self, seat: &mut Seat<B>, id: ClientId, no: u64, ok: bool) -> Heard {
        let before = seat.held();
        let _ended = self.run_flush_at(seat, Step::End { no, ok });
        let reply = self.close_all(seat, id);
        let begun = if is_full(&reply) && seat.count() < before.count {
            Some(self.run_flush_at(seat, Step::Begin))
        } else {
            None
        };
        Heard {
            queued: queued_between(before, seat.held()),
            reply: Some(reply),
            begun,
            left: self.left(id),
        }
    }

    fn release_first(&mut self, seat: &mut Seat<B>, id: ClientId, lo: u64) -> Heard {
        let worker = seat.worker();
        let reply = self.run_within(
            seat,
            Step::Unmap {
                worker,
                client: id,
                lo,
            },
        );
        let begun = if flush_follows(self.is_strict(), &reply) {
            Some(self.run_flush_at(seat, Step::Begin))
        } else {
            None
        };
        Heard {
            queued: queued_by(&reply),
            reply: Some(reply),
            begun,
            left: self.left(id),
        }
    }

    fn release_again(
        &mut self,
        seat: &mut Seat<B>,
        id: ClientId,
        lo: u64,
        no: u64,
        ok: bool,
    ) -> Heard {
        let worker = seat.worker();
        let _ended = self.run_flush_at(seat, Step::End { no, ok });
        let reply = self.run_within(
            seat,
            Step::Unmap {
                worker,
                client: id,
                lo,
            },
        );
        let begun = if queued_strictly(self.is_strict(), &reply) {
            Some(self.run_flush_at(seat, Step::Begin))
        } else {
            None
        };
        Heard {
            queued: queued_by(&reply),
            reply: Some(reply),
            begun,
            left: self.left(id),
        }
    }

    fn release_last(&mut self, seat: &mut Seat<B>, no: u64, ok: bool) -> bool {
        let worker = seat.worker();
        let _ended = self.run_flush_at(seat, Step::End { no, ok });
        let _freed = self.drain_one(worker, worker);
        self.finish() >= no
    }

    fn drain_all(&mut self, by: u64) -> Result<u64, Refusal> {
        let workers = self.workers();
        if by < workers {
            return Ok(self.drain_rings(0, workers, by));
        }
        let _refused = self.run_drain(0, by);
        Err(Refusal::NoWorker)
    }

    fn batch(
        &mut self,
        seat: &mut Seat<B>,
        id: ClientId,
        asks: &[Ask],
        told: &mut Vec<Told>,
    ) -> Result<usize, Refusal> {
        batch::batch(self, seat, id, asks, told)
    }

    fn holdings(
        &self,
        seat: &Seat<B>,
        id: ClientId,
        ranges: &mut Vec<Range>,
    ) -> Result<(), Refusal> {
        let from = ranges.len();
        self.append_holdings(seat.worker(), id, ranges)?;
        put_in_order_from(ranges, from);
        Ok(())
    }

    fn totals(&self) -> Totals {
        self.totals_of()
    }

    fn stat(&self) -> Stat {
        self.stat_of()
    }
}
