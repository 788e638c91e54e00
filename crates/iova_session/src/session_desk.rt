//! The session's own desk, over any keeper.
ghost use Rattle.std.specs.Prelude.{◌≡◌, ◌+◌, ◌≤◌, ℕ, false, IfOk, IfErr, List, [], Option, None, length};
ghost use Rattle.iova_sink.specs.Calls.{Call, good_calls};
ghost use Rattle.iova_model.specs.State.{State};
ghost use Rattle.iova_keep.specs.Views.{Identity, SeatState, WhereKnown, new_seat, KeepsPlace};
ghost use Rattle.iova_session.specs.Desks.{SessionState, AnswersRun, MovesBy, MovesBy-prop, given_in, taken_in, client_after, listed_after};
ghost use Rattle.iova_session.specs.Leading.{LeadsFrom, GoesOn};

use crate::asking::{ask_alone, ask_first};
use crate::desk::Desk;
use crate::session::Session;
use crate::together::{LastBatch, MOST_TURNS, ask_at_room, tell};
use iova_keep::keep::Keep;
use iova_keep::names::Names;
use iova_keep::seat::Seat;
use iova_proto::answer::Answer;
use iova_proto::request::Request;
use iova_range::limits::MAX_RUN;
use iova_range::refusal::Refusal;
use iova_sink::sink::Sink;
use std::marker::{Brand, PhantomData};

/// What a session begins with, as the type of its desk knows it.
pub(crate) trait SessionStart {
    /// The domain's number, and whether it is strict.
    ghost identity: { Identity };

    /// The domain, where it is known.
    ghost domain: { Option State };

    /// The session.
    ghost session: { SessionState };

    /// The seat.
    ghost seat: { SeatState };

    /// The calls of the sink.
    ghost calls: { List Call };

    /// Which references the desk has: to the keeper, to the seat and to the sink.
    ghost keeper_name: { ℕ };

    ghost seat_name: { ℕ };

    ghost sink_name: { ℕ };
}

impl SessionStart for Brand {
    ghost identity = { record { number = 0; strict = false } };

    ghost domain = { None };

    ghost session = { record { number = 0; client = None; listed = 0; pairs = [] } };

    ghost seat = { new_seat 0 };

    ghost calls = { [] };

    ghost keeper_name = { 0 };

    ghost seat_name = { 0 };

    ghost sink_name = { 0 };
}

/// What a session has access to while it is served.
#[derive(Drop)]
pub(crate) struct DomainAccess<'a, B: Names, K: Keep<B>, D: Sink> {
    pub(crate) keeper: &'a mut K,
    pub(crate) seat: &'a mut Seat<B>,
    pub(crate) sink: &'a mut D,
}

/// The desk of a session that began so. What it was asked has moved the seat's shares, and nothing
/// else of it but its tally, and has led the domain from where it was to where it is.
#[derive(Drop)]
pub(crate) struct SessionDesk<'a, B: Names, K: Keep<B>, D: Sink, O: SessionStart> {
    pub(crate) access: DomainAccess<'a, B, K, D>,
    pub(crate) session: Session,
    pub(crate) last: LastBatch,
    pub(crate) start: PhantomData<O>,
    ghost names: { (access.keeper.ghost_name ≡ O.keeper_name)
        × (access.seat.ghost_name ≡ O.seat_name) × (access.sink.ghost_name ≡ O.sink_name) },
    ghost number: { session.number ≡ O.identity.number },
    ghost same: { K.identity access.keeper.now ≡ O.identity },
    ghost leads: { ∥ WhereKnown O.domain (K.domain access.keeper.now)
        (LeadsFrom O.identity.strict O.identity.number session.pairs
        O.seat access.seat.now O.calls (D.calls access.sink.now)) ∥₁ },
    ghost shares: { MovesBy (given_in session.pairs) (taken_in session.pairs) O.seat.held
        access.seat.now.held } by { MovesBy-prop (given_in session.pairs) (taken_in session.pairs)
            O.seat.held access.seat.now.held },
    ghost worker: { access.seat.now.worker ≡ O.seat.worker },
    ghost parts: { access.seat.now.tally.parts ≡ O.seat.tally.parts },
    ghost tally: { access.seat.now.tally.good + good_calls O.calls ≤ O.seat.tally.good + good_calls
        (D.calls access.sink.now) },
}

impl<'a, B: Names, K: Keep<B>, D: Sink, O: SessionStart> Desk for SessionDesk<'a, B, K, D, O> {
    ghost pairs = { λ d. d.session.pairs };

    fn ask_run(
        &mut self,
        requests: &[Request],
        answers: &mut Vec<Answer>,
    ) -> Result<usize, Refusal> {
        let access = &mut self.access;
        ask_front(
            access.keeper,
            access.seat,
            access.sink,
            &mut self.session,
            &mut self.last,
            requests,
            answers,
        )
    }
}

/// Asks a front of the requests, at least one of them: with a client those that can be asked in one
/// hold, else the first alone, as a free that the last hold stopped at. Refused by `NoMemory` where
/// there is no room for the answers; then nothing was asked.
fn ask_front<B: Names, K: Keep<B>, D: Sink>(
    keeper: &mut K,
    seat: &mut Seat<B>,
    sink: &mut D,
    session: &mut Session,
    last: &mut LastBatch,
    requests: &[Request],
    answers: &mut Vec<Answer>,
) -> Result<usize, Refusal>
    requires some { 1 ≤ length requests.now }
    requires most { length requests.now ≤ MAX_RUN }
    requires number { session.old.number ≡ (K.identity keeper.old).number }
    ensures same { K.identity keeper.new ≡ K.identity keeper.old }
    ensures after { (session.old.client ≡ client_after None session.old.pairs)
        × (session.old.listed ≡ listed_after 0 session.old.pairs) }
    ensures leads { WhereKnown (K.domain keeper.old) (K.domain keeper.new)
        (GoesOn (K.identity keeper.old).strict session.old session.new seat.old seat.new
        (D.calls sink.old)
        (D.calls sink.new)) }
    ensures count { IfOk result (λ n. (1 ≤ n) × (n ≤ length requests.now)) }
    ensures ok { IfOk result
        (λ n. AnswersRun requests.now n session.old session.new answers.old.items answers.new.items
        seat.old.held
        seat.new.held) }
    ensures err { IfErr result (λ e. (e ≡ Refusal.NoMemory) × (session.new ≡ session.old)
        × (answers.new.items ≡ answers.old.items) × (seat.new ≡ seat.old)) }
    ensures place { KeepsPlace seat.old seat.new (D.calls sink.old) (D.calls sink.new) }
{
    let client = session.client();
    if answers.try_reserve(requests.len()).is_err() {
        return Err(Refusal::NoMemory);
    }
    let answer = match client {
        None => ask_first(keeper, seat, requests[0]),
        Some(id) => {
            let count = ask_at_room(
                keeper, seat, sink, session, id, requests, last, answers, MOST_TURNS,
            )?;
            if count > 0 {
                return Ok(count);
            }
            let alloc = *last.told.allocator();
            ask_alone(alloc, keeper, seat, sink, id, session.listed(), requests[0])
        }
    };
    // freed at once, as in a strict domain: then the next free is asked alone too, in no hold
    last.is_strict = last.is_strict || matches!(answer, Answer::Freed(_));
    last.stopped = last.is_strict;
    tell(session, requests[0], answer, answers);
    Ok(1)
}
