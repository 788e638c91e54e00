//! Calls of several holds, over any keeper. The sink runs between two holds, never in one.
ghost use Rattle.std.specs.Prelude.{◌≡◌, ℕ, ◌+◌, ◌<◌, ◌≤◌, ◌++◌, List, [], ◌∷◌, Some, Err, true, false, IfOk, IfErr, MatchResult};
ghost use Rattle.iova_model.specs.Effects.{MovesTotals, IsReplyTo};
ghost use Rattle.iova_sink.specs.Calls.{Invalidation, failed_calls};
ghost use Rattle.iova_keep.specs.Views.{TallyState, SeatState, WhereKnown, RisesWithin, queued_or, begun_or, IsUnmapRefusal, IsBeginRefusal, IsFlushRefusal, IsUnmapHeard, KeepsPlace};
ghost use Rattle.iova_keep.specs.Answers.{DoesUnmap, DoesFlush, DoesTimeout};
ghost use Rattle.iova_keep.specs.FlushEvents.{MakesRounds};

use crate::keep::{Heard, Keep};
use crate::names::Names;
use crate::seat::{Seat, Tally};
use iova_laws::refusals::steps_keep_the_domain;
use iova_model::step::{ClientId, Reply, Step};
use iova_range::range::Range;
use iova_range::refusal::Refusal;
use iova_sink::sink::Sink;

/// Begins a flush, calls the sink, and ends the flush as the sink answered. It gives the flush's
/// number, which the sink got with the domain's in its last call. Refused by `FlightsFull` and
/// `Worn` where none begins, and then the sink isn't called; by `SinkFault` where the sink failed.
/// Linux 5.15 drivers/iommu/iova.c: fq_flush_iotlb; failures are our own.
pub fn flush<B: Names, K: Keep<B>, D: Sink>(
    keeper: &mut K,
    tally: &mut Tally<B>,
    sink: &mut D,
) -> Result<u64, Refusal>
    ensures domain { WhereKnown (K.domain keeper.old) (K.domain keeper.new)
        (DoesFlush result (K.identity keeper.old).number (D.calls sink.old) (D.calls sink.new)) }
    ensures sunk { IfOk result (λ no. D.calls sink.new ≡ D.calls
        sink.old ++ Invalidation (K.identity keeper.old).number no true ∷ []) }
    ensures fault { result ≡ Err Refusal.SinkFault → (no : ℕ)
        × (D.calls sink.new ≡ D.calls
        sink.old ++ Invalidation (K.identity keeper.old).number no false ∷ []) }
    ensures refusal { IfErr result IsFlushRefusal }
    ensures tally { RisesWithin tally.old.good tally.new.good (D.calls sink.old)
        (D.calls sink.new) }
    ensures parts { tally.new.parts ≡ tally.old.parts }
    ensures rounds { MakesRounds (K.identity keeper.old).number tally.old.past tally.new.past
        (D.calls sink.old) (D.calls sink.new) }
    ensures same { K.identity keeper.new ≡ K.identity keeper.old }
{
    let heard = keeper.begin(tally);
    let Heard {
        reply: _,
        begun,
        queued: _,
        left: _,
    } = heard;
    let Some(begun) = begun else {
        unreachable!();
    };
    let no = match number(begun) {
        Ok(no) => no,
        Err(refusal) => return Err(refusal),
    };
    let ok = tally.ask(sink, keeper.number(), no);
    let _ended = keeper.end(tally, no, ok);
    if ok { Ok(no) } else { Err(Refusal::SinkFault) }
}

/// Unmaps the client's range that begins at `lo`: it leaves the client, and waits in the worker's
/// ring for a flush. Where the ring is full, it flushes and tries once more. Refused by `NoClient`,
/// `Closing` and `NotHeld`, and by `RingFull` where the ring stays full or no flush begins; then
/// the range is still the client's.
pub fn unmap<B: Names, K: Keep<B>, D: Sink>(
    keeper: &mut K,
    seat: &mut Seat<B>,
    sink: &mut D,
    id: ClientId,
    lo: u64,
) -> Result<Range, Refusal>
    ensures domain { WhereKnown (K.domain keeper.old) (K.domain keeper.new)
        (DoesUnmap seat.old id lo result (K.identity keeper.old).number (D.calls sink.old)
        (D.calls sink.new)) }
    ensures answer { MatchResult result (λ r. r.lo ≡ lo) IsUnmapRefusal }
    ensures seat { MovesTotals (queued_or result) seat.old.held seat.new.held }
    ensures place { KeepsPlace seat.old seat.new (D.calls sink.old) (D.calls sink.new) }
    ensures rounds { MakesRounds (K.identity keeper.old).number seat.old.tally.past
        seat.new.tally.past (D.calls sink.old) (D.calls sink.new) }
    ensures same { K.identity keeper.new ≡ K.identity keeper.old }
{
    let Heard {
        reply,
        begun,
        queued: _,
        left: _,
    } = keeper.unmap_first(seat, id, lo);
    let Some(begun) = begun else {
        return answer(lo, reply);
    };
    let Ok(no) = number(begun) else {
        return answer(lo, reply);
    };
    let ok = seat.ask(sink, keeper.number(), no);
    answer(lo, keeper.unmap_again(seat, id, lo, no, ok).reply)
}

/// A flusher's round: where any ring has an entry it flushes, and where the flush ended well it
/// drains all rings into the magazines of worker 0 and gives how many entries that freed. With all
/// rings empty it gives 0 and the sink isn't called. Refused by `FlightsFull`, `Worn` and
/// `SinkFault`; then nothing is drained. Linux 5.15 drivers/iommu/iova.c: fq_flush_timeout; the
/// test for entries is our own.
pub fn timeout<B: Names, K: Keep<B>, D: Sink>(
    keeper: &mut K,
    tally: &mut Tally<B>,
    sink: &mut D,
) -> Result<u64, Refusal>
    ensures domain { WhereKnown (K.domain keeper.old) (K.domain keeper.new)
        (DoesTimeout result (K.identity keeper.old).number (D.calls sink.old) (D.calls sink.new)) }
    ensures refusal { IfErr result IsFlushRefusal }
    ensures fault { result ≡ Err Refusal.SinkFault
        → failed_calls (D.calls sink.old) < failed_calls (D.calls sink.new) }
    ensures tally { RisesWithin tally.old.good tally.new.good (D.calls sink.old)
        (D.calls sink.new) }
    ensures parts { tally.new.parts ≡ tally.old.parts }
    ensures rounds { MakesRounds (K.identity keeper.old).number tally.old.past tally.new.past
        (D.calls sink.old) (D.calls sink.new) }
    ensures same { K.identity keeper.new ≡ K.identity keeper.old }
{
    // for the proof: that a flush leaves as many workers as there are
    steps_keep_the_domain();
    if keeper.stat().ring == 0 {
        return Ok(0);
    }
    match flush(keeper, tally, sink) {
        Ok(_no) => keeper.drain_all(0),
        Err(refusal) => Err(refusal),
    }
}

/// The number of the flush that began, or why none did.
pub(crate) fn number(begun: Reply) -> Result<u64, Refusal>
    requires { IsReplyTo Step.Begin begun }
    ensures is { begun ≡ begun_or result }
    ensures refusal { IfErr result IsBeginRefusal }
{
    match begun {
        Reply::Begun(no) => Ok(no),
        Reply::Refused(refusal) => Err(refusal),
        _ => unreachable!(),
    }
}

/// What an unmap is answered, by what its last hold heard.
pub(crate) fn answer(lo: u64, heard: Option<Reply>) -> Result<Range, Refusal>
    requires { IsUnmapHeard lo heard }
    ensures is { heard ≡ Some (queued_or result) }
    ensures answer { MatchResult result (λ r. r.lo ≡ lo) IsUnmapRefusal }
{
    let Some(reply) = heard else {
        unreachable!();
    };
    match reply {
        Reply::Queued(range) => Ok(range),
        Reply::Refused(refusal) => Err(refusal),
        _ => unreachable!(),
    }
}
