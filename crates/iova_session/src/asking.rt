//! What a session's requests are answered, over any keeper: the checks of the session's own, and
//! then the calls of the lock.
ghost use Rattle.std.specs.Prelude.{◌≡◌, ◌≢◌, ℕ, ◌≤◌, IfSome};
ghost use Rattle.iova_range.specs.declared.limits.TheConstants.{MAX_LISTED};
ghost use Rattle.iova_keep.specs.Views.{WhereKnown, KeepsPlace};
ghost use Rattle.iova_session.specs.Domains.{FlushesAndDrains, Lists};
ghost use Rattle.iova_session.specs.Leading.{ClientDoes, FirstDoes};
ghost use Rattle.iova_session.specs.Desks.{IsFirstAnswer, IsClientAnswer, MovesBy, given_by, answer_of_release, taken_by};

use iova_keep::calls::flush;
use iova_keep::keep::Keep;
use iova_keep::names::Names;
use iova_keep::release::release;
use iova_keep::seat::Seat;
use iova_keep::unmapped::Unmapped;
use iova_model::step::ClientId;
use iova_proto::answer::Answer;
use iova_proto::held::HeldRanges;
use iova_proto::request::Request;
use iova_range::limits::MAX_LISTED;
use iova_range::refusal::Refusal;
use iova_sink::sink::Sink;
use std::alloc::Global;

/// What a request is answered before there is a client: `hello` opens one, in the domain of the
/// keeper's number alone.
pub(crate) fn ask_first<B: Names, K: Keep<B>>(
    keeper: &mut K,
    seat: &mut Seat<B>,
    request: Request,
) -> Answer
    ensures same { K.identity keeper.new ≡ K.identity keeper.old }
    ensures does { WhereKnown (K.domain keeper.old) (K.domain keeper.new)
        (FirstDoes (K.identity keeper.old).number seat.old.worker request result) }
    ensures answer { IsFirstAnswer (K.identity keeper.old).number request result }
    ensures shares { MovesBy (given_by result) (taken_by result) seat.old.held seat.new.held }
    ensures seat { seat.new ≡ seat.old }
{
    match request {
        Request::Hello { domain, sac } => {
            if domain != keeper.number() {
                return Answer::Refused(Refusal::NoDomain);
            }
            match keeper.open(seat, sac) {
                Ok(id) => Answer::Opened(id),
                Err(refusal) => Answer::Refused(refusal),
            }
        }
        Request::Bye => Answer::Bye,
        _ => Answer::Refused(Refusal::NoClient),
    }
}

/// What a request is answered that isn't asked together with others, of a session with a client
/// to which `listed` ranges were listed. The sink is locked before a flush can begin: so there
/// are never more in flight than sinks.
pub(crate) fn ask_alone<B: Names, K: Keep<B>, D: Sink>(
    alloc: Global,
    keeper: &mut K,
    seat: &mut Seat<B>,
    sink: &mut D,
    id: ClientId,
    listed: u64,
    request: Request,
) -> Answer
    requires listed { listed ≤ MAX_LISTED }
    requires alloc { (frames : ℕ) → (limit : ℕ) → request ≢ Request.Alloc frames limit }
    requires stat { request ≢ Request.Stat }
    ensures same { K.identity keeper.new ≡ K.identity keeper.old }
    ensures answer { IsClientAnswer listed request result }
    ensures does { WhereKnown (K.domain keeper.old) (K.domain keeper.new)
        (ClientDoes (K.identity keeper.old).strict
        (K.identity keeper.old).number seat.old id listed request
        result
        (D.calls sink.old) (D.calls sink.new)) }
    ensures shares { MovesBy (given_by result) (taken_by result) seat.old.held seat.new.held }
    ensures place { KeepsPlace seat.old seat.new (D.calls sink.old) (D.calls sink.new) }
{
    match request {
        Request::Hello { domain: _, sac: _ } => Answer::Refused(Refusal::Twice),
        Request::Free { lo } => {
            sink.lock();
            let result = release(keeper, seat, sink, id, lo);
            sink.unlock();
            match result {
                Ok(unmapped) => released(unmapped),
                Err(refusal) => Answer::Refused(refusal),
            }
        }
        Request::List => list(alloc, keeper, seat, id, listed),
        Request::Flush => {
            sink.lock();
            let answer = flush_and_drain(keeper, seat, sink);
            sink.unlock();
            answer
        }
        Request::Bye => Answer::Bye,
        Request::Alloc {
            frames: _,
            limit: _,
        }
        | Request::Stat => unreachable!(),
    }
}

/// What a release is answered.
fn released(unmapped: Unmapped) -> Answer
    ensures { result ≡ answer_of_release unmapped }
{
    match unmapped {
        Unmapped::Queued(range) => Answer::Queued(range),
        Unmapped::Freed(range) => Answer::Freed(range),
    }
}

/// What the client holds. Refused by `NoClient`, `NoMemory`, and `TooMany` where the ranges listed
/// so far and these pass 1,048,576.
fn list<B: Names, K: Keep<B>>(
    alloc: Global,
    keeper: &K,
    seat: &Seat<B>,
    id: ClientId,
    listed: u64,
) -> Answer
    requires { listed ≤ MAX_LISTED }
    ensures answer { IsClientAnswer listed Request.List result }
    ensures domain { IfSome (K.domain keeper.now) (Lists seat.now.worker id listed result) }
    ensures shares { MovesBy (given_by result) (taken_by result) seat.now.held seat.now.held }
{
    let mut ranges = Vec::new(alloc);
    match keeper.holdings(seat, id, &mut ranges) {
        Err(refusal) => Answer::Refused(refusal),
        Ok(()) => {
            if ranges.len() as u64 > MAX_LISTED - listed {
                Answer::Refused(Refusal::TooMany)
            } else {
                Answer::Held(HeldRanges::new(ranges))
            }
        }
    }
}

/// Flushes, and where that ended well drains all rings into the magazines of the seat's worker.
/// Refused by `FlightsFull`, `Worn` and `SinkFault`; then nothing is drained.
fn flush_and_drain<B: Names, K: Keep<B>, D: Sink>(
    keeper: &mut K,
    seat: &mut Seat<B>,
    sink: &mut D,
) -> Answer
    ensures same { K.identity keeper.new ≡ K.identity keeper.old }
    ensures flushes { WhereKnown (K.domain keeper.old) (K.domain keeper.new)
        (FlushesAndDrains seat.old.worker result (K.identity keeper.old).number (D.calls sink.old)
        (D.calls sink.new)) }
    ensures answer { IsClientAnswer 0 Request.Flush result }
    ensures shares { MovesBy (given_by result) (taken_by result) seat.old.held seat.new.held }
    ensures place { KeepsPlace seat.old seat.new (D.calls sink.old) (D.calls sink.new) }
{
    match flush(keeper, seat.tally(), sink) {
        Err(refusal) => Answer::Refused(refusal),
        Ok(no) => match keeper.drain_all(seat.worker()) {
            Ok(freed) => Answer::Flushed { no, freed },
            Err(_) => unreachable!(),
        },
    }
}
