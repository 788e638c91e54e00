//! An unmap that in a strict domain waits for a flush of its own, over any keeper. The sink runs
//! between two holds, never in one.
ghost use Rattle.std.specs.Prelude.{◌≡◌, ◌+◌, ◌≤◌, ◌++◌, ◌∷◌, [], MatchResult};
ghost use Rattle.iova_model.specs.Effects.{MovesTotals};
ghost use Rattle.iova_keep.specs.Views.{TallyState, SeatState, WhereKnown, RisesWithin, IsUnmapRefusal, unmapped_or, range_of, KeepsPlace};
ghost use Rattle.iova_keep.specs.Releases.{DoesRelease, DoesReleaseRest, DoesFollow};
ghost use Rattle.iova_keep.specs.FlushEvents.{MakesRounds, EndsRounds, EndsAnyRounds};

use crate::calls::answer;
use crate::closing::flush_begun;
use crate::keep::Keep;
use crate::names::Names;
use crate::seat::Seat;
use crate::unmapped::Unmapped;
use iova_model::step::ClientId;
use iova_range::range::Range;
use iova_range::refusal::Refusal;
use iova_sink::sink::Sink;

/// Unmaps the client's range that begins at `lo`, as `unmap` does. In a strict domain it then
/// flushes and drains the worker's ring: `Freed` where the finish count, once that flush has ended,
/// is at least its number, so that it, or one that began later, has ended well; else `Queued`, and
/// the range waits for a later flush, as in every other domain. It is `Freed` where the flush ended
/// well and none is in flight that began before it; with an older one in flight, or where the flush
/// itself failed, only if enough later ones have ended well. Where the ring is full it flushes
/// first, and tries once more. Refused by `NoClient`, `Closing` and `NotHeld`, and by `RingFull`
/// where the ring stays full or no flush begins; then the range is still the client's.
pub fn release<B: Names, K: Keep<B>, D: Sink>(
    keeper: &mut K,
    seat: &mut Seat<B>,
    sink: &mut D,
    id: ClientId,
    lo: u64,
) -> Result<Unmapped, Refusal>
    ensures domain { WhereKnown (K.domain keeper.old) (K.domain keeper.new)
        (DoesRelease (K.identity keeper.old).strict seat.old id lo result
        (K.identity keeper.old).number
        (D.calls sink.old)
        (D.calls sink.new)) }
    ensures answer { MatchResult result (λ u. (range_of u).lo ≡ lo) IsUnmapRefusal }
    ensures seat { MovesTotals (unmapped_or result) seat.old.held seat.new.held }
    ensures place { KeepsPlace seat.old seat.new (D.calls sink.old) (D.calls sink.new) }
    ensures rounds { MakesRounds (K.identity keeper.old).number seat.old.tally.past
        seat.new.tally.past (D.calls sink.old) (D.calls sink.new) }
    ensures same { K.identity keeper.new ≡ K.identity keeper.old }
{
    let heard = keeper.release_first(seat, id, lo);
    let begun = flush_begun(&heard);
    match answer(lo, heard.reply) {
        Ok(range) => Ok(follow(keeper, seat, sink, range, begun)),
        Err(refusal) => match begun {
            None => Err(refusal),
            Some(no) => try_again(keeper, seat, sink, id, lo, no),
        },
    }
}

/// Calls the sink for the flush that began at a full ring, and tries again.
fn try_again<B: Names, K: Keep<B>, D: Sink>(
    keeper: &mut K,
    seat: &mut Seat<B>,
    sink: &mut D,
    id: ClientId,
    lo: u64,
    no: u64,
) -> Result<Unmapped, Refusal>
    ensures domain { WhereKnown (K.domain keeper.old) (K.domain keeper.new)
        (DoesReleaseRest (K.identity keeper.old).strict seat.old id lo no result
        (K.identity keeper.old).number
        (D.calls sink.old) (D.calls sink.new)) }
    ensures answer { MatchResult result (λ u. (range_of u).lo ≡ lo) IsUnmapRefusal }
    ensures seat { MovesTotals (unmapped_or result) seat.old.held seat.new.held }
    ensures place { KeepsPlace seat.old seat.new (D.calls sink.old) (D.calls sink.new) }
    ensures rounds { EndsRounds (K.identity keeper.old).number no seat.old.tally.past
        seat.new.tally.past (D.calls sink.old) (D.calls sink.new) }
    ensures same { K.identity keeper.new ≡ K.identity keeper.old }
{
    let ok = seat.ask(sink, keeper.number(), no);
    let heard = keeper.release_again(seat, id, lo, no, ok);
    let begun = flush_begun(&heard);
    match answer(lo, heard.reply) {
        Ok(range) => Ok(follow(keeper, seat, sink, range, begun)),
        Err(refusal) => Err(refusal),
    }
}

/// What becomes of a range that was queued: where a flush began after it, the sink is called, and
/// the last hold ends that flush and drains the ring.
fn follow<B: Names, K: Keep<B>, D: Sink>(
    keeper: &mut K,
    seat: &mut Seat<B>,
    sink: &mut D,
    range: Range,
    begun: Option<u64>,
) -> Unmapped
    ensures domain { WhereKnown (K.domain keeper.old) (K.domain keeper.new)
        (DoesFollow seat.old.worker range begun result (K.identity keeper.old).number
        (D.calls sink.old)
        (D.calls sink.new)) }
    ensures range { range_of result ≡ range }
    ensures held { seat.new.held ≡ seat.old.held }
    ensures place { KeepsPlace seat.old seat.new (D.calls sink.old) (D.calls sink.new) }
    ensures rounds { EndsAnyRounds (K.identity keeper.old).number begun seat.old.tally.past
        seat.new.tally.past (D.calls sink.old) (D.calls sink.new) }
    ensures same { K.identity keeper.new ≡ K.identity keeper.old }
{
    let Some(no) = begun else {
        return Unmapped::Queued(range);
    };
    let ok = seat.ask(sink, keeper.number(), no);
    if keeper.release_last(seat, no, ok) {
        Unmapped::Freed(range)
    } else {
        Unmapped::Queued(range)
    }
}
