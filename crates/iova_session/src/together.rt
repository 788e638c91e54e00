//! Requests that are asked together, in one hold of the lock.
ghost use Rattle.std.specs.Prelude.{◌≡◌, ◌+◌, ◌≤◌, ◌++◌, ◌∷◌, [], List, Some, IsSome, IsTrue, IfOk, IfErr, length, map, take, vec_len, vec_capacity};
ghost use Rattle.iova_sink.specs.Calls.{Call};
ghost use Rattle.iova_keep.specs.Views.{WhereKnown, MovesSharesAlone};
ghost use Rattle.iova_session.specs.Leading.{GoesOn, IsSame};
ghost use Rattle.iova_session.specs.Desks.{ask_of as the_ask_of, asks_in, answer_of as the_answer_of, told_pairs, AreTold, IsAnswer, IsFirstAlone, AnswersRun, answered};

use crate::session::Session;
use iova_keep::ask::{Ask, Told};
use iova_keep::keep::Keep;
use iova_keep::names::Names;
use iova_keep::seat::Seat;
use iova_laws::refusals::refusals_keep_the_state;
use iova_model::step::ClientId;
use iova_proto::answer::Answer;
use iova_proto::request::Request;
use iova_range::limits::MAX_RUN;
use iova_range::refusal::Refusal;
use iova_sink::sink::Sink;
use std::alloc::Global;

/// How many turns of other threads a session waits for until it takes one of its own.
pub(crate) const MOST_TURNS: u64 = 8;

/// What a desk keeps of the last hold of a session.
#[derive(Drop)]
pub(crate) struct LastBatch {
    /// It stopped at a free, or the domain is strict: a free is to be asked alone.
    pub(crate) stopped: bool,
    /// A range was freed at once: each free has a flush of its own.
    pub(crate) is_strict: bool,
    /// Room for what is asked in a hold. It is made once, since making it fills it.
    pub(crate) asks: [Ask; MAX_RUN],
    /// The last hold's answers, and room for those of the next.
    pub(crate) told: Vec<Told>,
}

impl LastBatch {
    /// As before the first hold.
    pub(crate) fn new(alloc: Global) -> LastBatch {
        LastBatch {
            stopped: false,
            is_strict: false,
            asks: [Ask::Stat; MAX_RUN],
            told: Vec::new(alloc),
        }
    }
}

/// Asks the longest front of `alloc`, `free` and `stat` in one hold, up to the first free whose
/// ring is full, and gives how many were asked. A free that the last hold stopped at isn't tried in
/// a hold again, nor one behind a free in a strict domain: these are asked alone. Refused by
/// `NoMemory` where the room for its answers has to grow and can't; then nothing was asked.
pub(crate) fn ask_together<B: Names, K: Keep<B>>(
    keeper: &mut K,
    seat: &mut Seat<B>,
    session: &mut Session,
    id: ClientId,
    requests: &[Request],
    last: &mut LastBatch,
    answers: &mut Vec<Answer>,
) -> Result<usize, Refusal>
    requires client { session.old.client ≡ Some id }
    requires most { length requests.now ≤ MAX_RUN }
    requires room { vec_len answers.old + length requests.now ≤ vec_capacity answers.old }
    ensures same { K.identity keeper.new ≡ K.identity keeper.old }
    ensures leads { (calls : List Call)
        → IfOk result (λ n. WhereKnown (K.domain keeper.old) (K.domain keeper.new)
        (GoesOn (K.identity keeper.old).strict session.old session.new seat.old seat.new calls calls)) }
    ensures most { IfOk result (λ n. n ≤ length requests.now) }
    ensures ok { IfOk result
        (λ n. AnswersRun requests.now n session.old session.new answers.old.items answers.new.items
        seat.old.held
        seat.new.held) }
    ensures client { session.new.client ≡ session.old.client }
    ensures alone { IfOk result (λ n. n ≡ 0 → IsFirstAlone requests.now) }
    ensures err { IfErr result (λ e. (e ≡ Refusal.NoMemory) × (session.new ≡ session.old)
        × (answers.new.items ≡ answers.old.items) × (seat.new ≡ seat.old)
        × WhereKnown (K.domain keeper.old) (K.domain keeper.new) IsSame) }
    ensures none { IfOk result (λ n. n ≡ 0
        → (session.new ≡ session.old) × (answers.new.items ≡ answers.old.items)
        × (seat.new ≡ seat.old) × WhereKnown (K.domain keeper.old) (K.domain keeper.new) IsSame) }
    ensures rest { MovesSharesAlone seat.old seat.new }
    ensures kept { IfOk result (λ n. vec_capacity answers.old ≤ vec_capacity answers.new) }
{
    // for the proof: a free whose ring is full changes nothing
    refusals_keep_the_state();
    let most = asks_from(requests, last.stopped, &mut last.asks);
    last.stopped = false;
    if most == 0 {
        return Ok(0);
    }
    last.told.clear();
    let count = keeper.batch(seat, id, &last.asks[..most], &mut last.told)?;
    tell_all(session, requests, last.told.as_slice(), answers);
    // it stopped at the next one, which isn't asked yet
    last.stopped = count > 0 && count < requests.len();
    Ok(count)
}

/// Asks for the requests of a run together. Where the first request is a free whose ring is full
/// while another thread has the sink, it waits until that one's turn ends and asks again, so often
/// at most: the ring may have room then, and no flush of its own is needed.
pub(crate) fn ask_at_room<B: Names, K: Keep<B>, D: Sink>(
    keeper: &mut K,
    seat: &mut Seat<B>,
    sink: &mut D,
    session: &mut Session,
    id: ClientId,
    requests: &[Request],
    last: &mut LastBatch,
    answers: &mut Vec<Answer>,
    turns: u64,
) -> Result<usize, Refusal>
    requires client { session.old.client ≡ Some id }
    requires most { length requests.now ≤ MAX_RUN }
    requires room { vec_len answers.old + length requests.now ≤ vec_capacity answers.old }
    ensures same { K.identity keeper.new ≡ K.identity keeper.old }
    ensures calls { D.calls sink.new ≡ D.calls sink.old }
    ensures leads { (calls : List Call)
        → IfOk result (λ n. WhereKnown (K.domain keeper.old) (K.domain keeper.new)
        (GoesOn (K.identity keeper.old).strict session.old session.new seat.old seat.new calls calls)) }
    ensures most { IfOk result (λ n. n ≤ length requests.now) }
    ensures ok { IfOk result
        (λ n. AnswersRun requests.now n session.old session.new answers.old.items answers.new.items
        seat.old.held
        seat.new.held) }
    ensures client { session.new.client ≡ session.old.client }
    ensures alone { IfOk result (λ n. n ≡ 0 → IsFirstAlone requests.now) }
    ensures err { IfErr result (λ e. (e ≡ Refusal.NoMemory) × (session.new ≡ session.old)
        × (answers.new.items ≡ answers.old.items) × (seat.new ≡ seat.old)
        × WhereKnown (K.domain keeper.old) (K.domain keeper.new) IsSame) }
    ensures none { IfOk result (λ n. n ≡ 0
        → (session.new ≡ session.old) × (answers.new.items ≡ answers.old.items)
        × (seat.new ≡ seat.old) × WhereKnown (K.domain keeper.old) (K.domain keeper.new) IsSame) }
    ensures rest { MovesSharesAlone seat.old seat.new }
    ensures kept { IfOk result (λ n. vec_capacity answers.old ≤ vec_capacity answers.new) }
{
    let count = ask_together(keeper, seat, session, id, requests, last, answers)?;
    if count > 0 {
        if turns < MOST_TURNS {
            sink.pass_on();
        }
        return Ok(count);
    }
    // the ring may have room where another thread has flushed
    let waits = !last.is_strict && is_free_first(requests);
    if turns == 0 || !waits || !sink.wait_for_turn() {
        return Ok(0);
    }
    last.stopped = false;
    ask_at_room(
        keeper,
        seat,
        sink,
        session,
        id,
        requests,
        last,
        answers,
        turns - 1,
    )
}

/// Writes the asks at the front of the requests, and gives how many they are: none where the first
/// is a free that a hold would stop at.
fn asks_from(requests: &[Request], stopped: bool, asks: &mut [Ask]) -> usize
    requires { length requests.now ≤ length asks.old }
    ensures asks { 1 ≤ result → take result asks.new ≡ asks_in requests.now }
    ensures none { result ≡ 0 → IsFirstAlone requests.now }
    ensures most { result ≤ length requests.now }
{
    if stopped && is_free_first(requests) {
        return 0;
    }
    asks_of(requests, asks)
}

/// Whether the first request is a free.
fn is_free_first(requests: &[Request]) -> bool
    ensures { IsTrue result → IsFirstAlone requests.now }
{
    matches!(requests.first(), Some(Request::Free { lo: _ }))
}

/// Writes the asks at the front of the requests, and gives how many they are.
fn asks_of(requests: &[Request], asks: &mut [Ask]) -> usize
    requires { length requests.now ≤ length asks.old }
    ensures asks { take result asks.new ≡ asks_in requests.now }
    ensures most { result ≤ length requests.now }
{
    for (i, request) in requests.iter().enumerate() {
        let Some(ask) = ask_of(*request) else {
            return i;
        };
        asks[i] = ask;
    }
    requests.len()
}

/// The request as an ask of the lock, where it can be asked with others.
fn ask_of(request: Request) -> Option<Ask>
    ensures { result ≡ the_ask_of request }
{
    match request {
        Request::Alloc { frames, limit } => Some(Ask::Alloc { frames, limit }),
        Request::Free { lo } => Some(Ask::Free { lo }),
        Request::Stat => Some(Ask::Stat),
        _ => None,
    }
}

/// Notes and answers the requests at the front, as the hold answered them.
fn tell_all(session: &mut Session, requests: &[Request], told: &[Told], answers: &mut Vec<Answer>)
    requires client { IsSome session.old.client }
    requires told { AreTold requests.now told.now }
    requires room { vec_len answers.old + length told.now ≤ vec_capacity answers.old }
    ensures session { session.new ≡ record session.old {
      pairs = session.old.pairs ++ told_pairs requests.now told.now;
    } }
    ensures answers { answers.new.items ≡ answers.old.items ++ map the_answer_of told.now }
    ensures kept { vec_capacity answers.old ≤ vec_capacity answers.new }
{
    for (i, told) in told.iter().enumerate() {
        let request = requests[i];
        // an answer is put together where it is written, with no room of its own
        match told {
            Told::Given(range) => tell(session, request, Answer::Given(*range), answers),
            Told::Queued(range) => tell(session, request, Answer::Queued(*range), answers),
            _ => tell_any(session, request, told, answers),
        }
    }
}

/// Appends the answer to a request, whatever it is. Out of line: most answers are ranges.
#[inline(never)]
fn tell_any(session: &mut Session, request: Request, told: &Told, answers: &mut Vec<Answer>)
    requires is { IsAnswer session.old.number session.old.client session.old.listed request
        (the_answer_of told.now) }
    requires room { vec_len answers.old + 1 ≤ vec_capacity answers.old }
    ensures session { session.new ≡ answered session.old request (the_answer_of told.now) }
    ensures answers { answers.new.items ≡ answers.old.items ++ the_answer_of told.now ∷ [] }
    ensures kept { vec_capacity answers.old ≤ vec_capacity answers.new }
{
    match told {
        Told::Given(range) => tell(session, request, Answer::Given(*range), answers),
        Told::Queued(range) => tell(session, request, Answer::Queued(*range), answers),
        Told::Stat(stat) => tell(session, request, Answer::Stat(*stat), answers),
        Told::Refused(refusal) => tell(session, request, Answer::Refused(*refusal), answers),
    }
}

/// Notes and answers a request.
#[inline(always)]
pub(crate) fn tell(
    session: &mut Session,
    request: Request,
    answer: Answer,
    answers: &mut Vec<Answer>,
)
    requires is { IsAnswer session.old.number session.old.client session.old.listed request answer }
    requires room { vec_len answers.old + 1 ≤ vec_capacity answers.old }
    ensures session { session.new ≡ answered session.old request answer }
    ensures answers { answers.new.items ≡ answers.old.items ++ answer ∷ [] }
    ensures kept { vec_capacity answers.old ≤ vec_capacity answers.new }
{
    session.add(request, &answer);
    answers.push_reserved(answer);
}
