//! The end of a client whose session is over: its sink is notified of its ranges first.
ghost use Rattle.std.specs.Prelude.{◌≡◌, ◌≢◌, ◌≤◌, [], true, vec_capacity, IfSome};
ghost use Rattle.iova_range.specs.declared.limits.TheConstants.{MAX_HOLDINGS};
ghost use Rattle.iova_keep.specs.Views.{WhereKnown, LowersTold, KeepsPlace};
ghost use Rattle.iova_session.specs.Leaving.{Attempts, Departs, IsTold, still_waits};
ghost use Rattle.iova_model.specs.Clients.{client_of, holdings_in};

use iova_keep::closing::end_client;
use iova_keep::ending::{Ending, Why};
use iova_keep::keep::Keep;
use iova_keep::names::Names;
use iova_keep::seat::Seat;
use iova_model::step::ClientId;
use iova_range::range::Range;
use iova_range::refusal::Refusal;
use iova_sink::sink::{Sink, SinkFault};

/// The result of the end of a client that leaves.
#[derive(Clone, Copy)]
pub struct Leaving {
    /// How its end went; an error where the client isn't known.
    pub ended: Result<Ending, Refusal>,
    /// Whether the sink was notified that it is gone, and gave no answer.
    pub silent: bool,
}

/// What became of a client that waits, in a round of tries.
#[derive(Clone, Copy)]
pub struct Attempt {
    /// Whether it waits still.
    pub kept: bool,
    /// Whether the round is over: no other client is tried.
    pub over: bool,
}

/// Ends a client of the seat. Where it holds ranges, the sink is notified first that it is gone,
/// and of all of them; where the sink fails, none of them is queued, and the client waits with all
/// of them. The sink is locked all the while; the end of a client that holds none needs no sink,
/// and waits for none. It takes no memory.
pub(crate) fn leave<B: Names, K: Keep<B>, D: Sink>(
    keeper: &mut K,
    seat: &mut Seat<B>,
    sink: &mut D,
    ranges: &mut Vec<Range>,
    id: ClientId,
) -> Leaving
    requires { MAX_HOLDINGS ≤ vec_capacity ranges.old }
    ensures domain { WhereKnown (K.domain keeper.old) (K.domain keeper.new)
        (Departs seat.old seat.new.held id result
        (K.identity keeper.old).number (D.calls sink.old) (D.calls sink.new)) }
    ensures shares { LowersTold result.ended seat.old.held seat.new.held }
    ensures place { KeepsPlace seat.old seat.new (D.calls sink.old) (D.calls sink.new) }
    ensures same { K.identity keeper.new ≡ K.identity keeper.old }
    ensures room { MAX_HOLDINGS ≤ vec_capacity ranges.new }
{
    ranges.clear();
    read_held(keeper, seat, ranges, id);
    let holds = !ranges.is_empty();
    lock_where(sink, holds);
    let left = leave_with(keeper, seat, sink, ranges, id);
    unlock_where(sink, holds);
    left
}

/// Reads which ranges the client holds; none of one that isn't known.
fn read_held<B: Names, K: Keep<B>>(
    keeper: &K,
    seat: &Seat<B>,
    ranges: &mut Vec<Range>,
    id: ClientId,
)
    requires empty { ranges.old.items ≡ [] }
    requires room { MAX_HOLDINGS ≤ vec_capacity ranges.old }
    ensures held { IfSome (K.domain keeper.now)
        (λ s. ranges.new.items ≡ holdings_in (client_of seat.now.worker id s.clients)) }
    ensures room { MAX_HOLDINGS ≤ vec_capacity ranges.new }
{
    let _known = keeper.holdings(seat, id, ranges);
}

/// Ends a client that holds these ranges, with the sink locked where it holds any.
fn leave_with<B: Names, K: Keep<B>, D: Sink>(
    keeper: &mut K,
    seat: &mut Seat<B>,
    sink: &mut D,
    ranges: &Vec<Range>,
    id: ClientId,
) -> Leaving
    requires held { IfSome (K.domain keeper.old)
        (λ s. ranges.now.items ≡ holdings_in (client_of seat.old.worker id s.clients)) }
    ensures domain { WhereKnown (K.domain keeper.old) (K.domain keeper.new)
        (Departs seat.old seat.new.held id result
        (K.identity keeper.old).number (D.calls sink.old) (D.calls sink.new)) }
    ensures shares { LowersTold result.ended seat.old.held seat.new.held }
    ensures place { KeepsPlace seat.old seat.new (D.calls sink.old) (D.calls sink.new) }
    ensures same { K.identity keeper.new ≡ K.identity keeper.old }
{
    match tell(keeper.number(), sink, ranges, id) {
        Ok(()) => Leaving {
            ended: end_client(keeper, seat, sink, id),
            silent: false,
        },
        Err(fault) => Leaving {
            ended: Ok(Ending::Waiting(ranges.len() as u64, Why::SinkFailed)),
            silent: fault == SinkFault::Broken,
        },
    }
}

/// Notifies the sink that a client of the domain of this number is gone, and that it holds these
/// ranges, where there are any.
fn tell<D: Sink>(
    number: u64,
    sink: &mut D,
    ranges: &Vec<Range>,
    id: ClientId,
) -> Result<(), SinkFault>
    ensures { IsTold number id ranges.now.items result (D.calls sink.old) (D.calls sink.new) }
{
    if ranges.is_empty() {
        return Ok(());
    }
    sink.gone(number, id, ranges)
}

/// Tries to end a client that waits, where the round isn't over.
pub(crate) fn try_to_end<B: Names, K: Keep<B>, D: Sink>(
    over: bool,
    keeper: &mut K,
    seat: &mut Seat<B>,
    sink: &mut D,
    ranges: &mut Vec<Range>,
    id: ClientId,
) -> Attempt
    requires { over ≢ true → MAX_HOLDINGS ≤ vec_capacity ranges.old }
    ensures domain { WhereKnown (K.domain keeper.old) (K.domain keeper.new)
        (Attempts over seat.old seat.new id result
        (K.identity keeper.old).number (D.calls sink.old) (D.calls sink.new)) }
    ensures place { KeepsPlace seat.old seat.new (D.calls sink.old) (D.calls sink.new) }
    ensures same { K.identity keeper.new ≡ K.identity keeper.old }
    ensures room { result.over ≢ true → MAX_HOLDINGS ≤ vec_capacity ranges.new }
{
    if over {
        return Attempt {
            kept: true,
            over: true,
        };
    }
    let left = leave(keeper, seat, sink, ranges, id);
    Attempt {
        kept: waits(left.ended),
        over: left.silent,
    }
}

/// Whether a client is left after its end was tried.
pub(crate) fn waits(ended: Result<Ending, Refusal>) -> bool
    ensures { result ≡ still_waits ended }
{
    match ended {
        Ok(Ending::Waiting(_, _)) => true,
        Ok(Ending::Ended(_)) | Err(_) => false,
    }
}

/// Locks the sink where that is wanted.
fn lock_where<D: Sink>(sink: &mut D, wanted: bool)
    ensures { D.calls sink.new ≡ D.calls sink.old }
{
    if wanted {
        sink.lock();
    }
}

/// Unlocks the sink, where it was locked.
fn unlock_where<D: Sink>(sink: &mut D, wanted: bool)
    ensures { D.calls sink.new ≡ D.calls sink.old }
{
    if wanted {
        sink.unlock();
    }
}
