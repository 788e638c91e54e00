//! The end of a client, over any keeper. The sink runs between two holds, never in one.
ghost use Rattle.std.specs.Prelude.{◌≡◌, ◌≢◌, ◌==◌, ℕ, ◌+◌, ◌<◌, ◌≤◌, ◌⊎◌, Some, None, Ok, Err, List, true, false, IfSome, IfNone, MatchBool};
ghost use Rattle.iova_range.specs.Frames.{Frames};
ghost use Rattle.iova_model.specs.Effects.{IsReplyTo};
ghost use Rattle.iova_sink.specs.Calls.{failed_calls};
ghost use Rattle.iova_keep.specs.Views.{TallyState, SeatState, WhereKnown, RisesWithin, IsCloseHeard, IsCloseRefusal, IsBeginHeard, LowersTold, IsLowered, begun_of, KeepsPlace};
ghost use Rattle.iova_keep.specs.Events.{Answered};
ghost use Rattle.iova_keep.specs.FlushEvents.{MakesRounds, EndsRounds};
ghost use Rattle.iova_keep.specs.Answers.{DoesEndClient, DoesRest, Leaves};

use crate::ending::{Ending, Why};
use crate::keep::{Heard, Keep};
use crate::names::Names;
use crate::seat::Seat;
use iova_model::step::{ClientId, Reply, Step};
use iova_range::refusal::Refusal;
use iova_sink::sink::Sink;

/// Ends a client: it is closing from now on, and its ranges are unmapped, lowest first, until it is
/// gone. Where the worker's ring is full it flushes and goes on. `Waiting` where the ring stays
/// full right after a flush, where none can begin, or where a share would fall below 0; the client
/// stays closing then, keeps what is left, and may be ended again. Refused by `NoClient`; then
/// nothing has changed.
pub fn end_client<B: Names, K: Keep<B>, D: Sink>(
    keeper: &mut K,
    seat: &mut Seat<B>,
    sink: &mut D,
    id: ClientId,
) -> Result<Ending, Refusal>
    ensures domain { WhereKnown (K.domain keeper.old) (K.domain keeper.new)
        (DoesEndClient seat.old seat.new.held id result (K.identity keeper.old).number
        (D.calls sink.old)
        (D.calls sink.new)) }
    ensures shares { LowersTold result seat.old.held seat.new.held }
    ensures fault { (left : ℕ) → result ≡ Ok (Ending.Waiting left Why.SinkFailed)
        → failed_calls (D.calls sink.old) < failed_calls (D.calls sink.new) }
    ensures place { KeepsPlace seat.old seat.new (D.calls sink.old) (D.calls sink.new) }
    ensures rounds { MakesRounds (K.identity keeper.old).number seat.old.tally.past
        seat.new.tally.past (D.calls sink.old) (D.calls sink.new) }
    ensures same { K.identity keeper.new ≡ K.identity keeper.old }
{
    let before = seat.count();
    let first = keeper.close_first(seat, id);
    match flush_begun(&first) {
        None => ending(before - seat.count(), None, first),
        Some(no) => {
            let last = close_rest(keeper, seat, sink, id, no);
            ending(before - seat.count(), Some(last.ok), last.heard)
        }
    }
}

/// What the last hold of a client's end heard, and how the sink had answered the flush before it.
#[derive(Drop)]
struct LastHold {
    ok: bool,
    heard: Heard,
}

/// Calls the sink for the flush, ends it and goes on closing, until a hold begins no other flush.
fn close_rest<B: Names, K: Keep<B>, D: Sink>(
    keeper: &mut K,
    seat: &mut Seat<B>,
    sink: &mut D,
    id: ClientId,
    no: u64,
) -> LastHold
    ensures domain { WhereKnown (K.domain keeper.old) (K.domain keeper.new)
        (DoesRest seat.old seat.new.held id no result.ok result.heard.reply result.heard.begun
        (K.identity keeper.old).number (D.calls sink.old) (D.calls sink.new)) }
    ensures left { WhereKnown (K.domain keeper.old) (K.domain keeper.new)
        (Leaves id result.heard.left) }
    ensures shares { (ranges : List Frames) × IsLowered ranges seat.old.held seat.new.held }
    ensures heard { IsCloseHeard result.heard.reply }
    ensures begun { IsBeginHeard result.heard.reply result.heard.begun }
    ensures none { (no : ℕ) → result.heard.begun ≢ Some (Reply.Begun no) }
    ensures failed { failed_calls (D.calls sink.old) ≤ failed_calls (D.calls sink.new) }
    ensures fault { result.ok ≡ false → failed_calls (D.calls sink.old) < failed_calls
        (D.calls sink.new) }
    ensures place { KeepsPlace seat.old seat.new (D.calls sink.old) (D.calls sink.new) }
    ensures rounds { EndsRounds (K.identity keeper.old).number no seat.old.tally.past
        seat.new.tally.past (D.calls sink.old) (D.calls sink.new) }
    ensures same { K.identity keeper.new ≡ K.identity keeper.old }
{
    let ok = seat.ask(sink, keeper.number(), no);
    let heard = keeper.close_again(seat, id, no, ok);
    match flush_begun(&heard) {
        None => LastHold { ok, heard },
        Some(next) => close_rest(keeper, seat, sink, id, next),
    }
}

/// The number of the flush that began in a hold, if one did.
pub(crate) fn flush_begun(heard: &Heard) -> Option<u64>
    ensures is { result ≡ begun_of heard.now.begun }
    ensures some { IfSome result (λ no. heard.now.begun ≡ Some (Reply.Begun no)) }
    ensures none { IfNone result ((no : ℕ) → heard.now.begun ≢ Some (Reply.Begun no)) }
{
    match &heard.begun {
        Some(Reply::Begun(no)) => Some(*no),
        _ => None,
    }
}

/// What ending a client is answered, by what its last hold heard: `queued` ranges were queued in
/// all, and `flushed` is how the sink answered the flush before that hold, if one was.
fn ending(queued: u64, flushed: Option<bool>, heard: Heard) -> Result<Ending, Refusal>
    requires heard { IsCloseHeard heard.reply }
    requires begun { IsBeginHeard heard.reply heard.begun }
    requires none { (no : ℕ) → heard.begun ≢ Some (Reply.Begun no) }
    requires first { flushed ≡ None → heard.begun ≡ None
        → heard.reply ≢ Some (Reply.Refused Refusal.RingFull) }
    ensures { Answered queued heard.left flushed heard.reply heard.begun result }
{
    let Heard {
        reply,
        begun,
        queued: _,
        left,
    } = heard;
    if let Some(begun) = begun {
        return Ok(Ending::Waiting(left, not_begun(begun)));
    }
    match reply {
        Some(reply) => closed(queued, left, flushed, reply),
        None => unreachable!(),
    }
}

/// What ending a client is answered where no flush was to begin, by the reply of its last closing.
fn closed(queued: u64, left: u64, flushed: Option<bool>, reply: Reply) -> Result<Ending, Refusal>
    requires heard { IsCloseHeard (Some reply) }
    requires first { flushed ≡ None → reply ≢ Reply.Refused Refusal.RingFull }
    ensures { Answered queued left flushed (Some reply) None result }
{
    match reply {
        Reply::Empty => Ok(Ending::Ended(queued)),
        Reply::Refused(refusal) => refused(queued, left, flushed, refusal),
        _ => unreachable!(),
    }
}

/// Why no flush began.
fn not_begun(begun: Reply) -> Why
    requires begin { IsReplyTo Step.Begin begun }
    requires none { (no : ℕ) → begun ≢ Reply.Begun no }
    ensures { ((begun ≡ Reply.Refused Refusal.FlightsFull) × (result ≡ Why.FlightsFull))
        ⊎ ((begun ≡ Reply.Refused Refusal.Worn) × (result ≡ Why.Worn)) }
{
    match begun {
        Reply::Refused(Refusal::FlightsFull) => Why::FlightsFull,
        Reply::Refused(Refusal::Worn) => Why::Worn,
        _ => unreachable!(),
    }
}

/// What ending a client is answered where its last closing was refused and no flush was to begin.
fn refused(
    queued: u64,
    left: u64,
    flushed: Option<bool>,
    refusal: Refusal,
) -> Result<Ending, Refusal>
    requires close { IsCloseRefusal refusal }
    requires first { flushed ≡ None → refusal ≢ Refusal.RingFull }
    ensures { Answered queued left flushed (Some (Reply.Refused refusal)) None result }
{
    match refusal {
        Refusal::NotHeld => Ok(Ending::Waiting(left, Why::Share)),
        Refusal::RingFull => Ok(Ending::Waiting(left, still_full(flushed))),
        _ => unknown(queued, refusal),
    }
}

/// Why the ring is full right after a flush.
fn still_full(flushed: Option<bool>) -> Why
    requires { flushed ≢ None }
    ensures { ((flushed ≡ Some true) × (result ≡ Why.Overlap))
        ⊎ ((flushed ≡ Some false) × (result ≡ Why.SinkFailed)) }
{
    match flushed {
        Some(true) => Why::Overlap,
        Some(false) => Why::SinkFailed,
        None => unreachable!(),
    }
}

/// What ending a client is answered where there is no such client. One whose ranges were queued
/// before was there, and is gone; this never happens.
fn unknown(queued: u64, refusal: Refusal) -> Result<Ending, Refusal>
    ensures { MatchBool (queued == 0) (result ≡ Err refusal) (result ≡ Ok (Ending.Ended queued)) }
{
    if queued == 0 {
        Err(refusal)
    } else {
        Ok(Ending::Ended(queued))
    }
}
