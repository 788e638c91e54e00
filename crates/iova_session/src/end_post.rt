//! The end of a post's service.
ghost use Rattle.std.specs.Prelude.{◌≡◌, length, vec_capacity};
ghost use Rattle.iova_keep.specs.Views.{RisesWithin, WhereKnown, KeepsPlace};
ghost use Rattle.iova_session.specs.Posts.{EndsPost, IsSublist, MakesRound};

use crate::post::Post;
use crate::retry::retry;
use iova_keep::calls::timeout;
use iova_keep::keep::Keep;
use iova_keep::names::Names;
use iova_keep::seat::Tally;
use iova_sink::sink::Sink;

/// Ends the service of a post: the clients that wait are tried once more (`retry`), and where a
/// flush is wanted, what is in a ring is flushed and drained (`timeout`). Gives how many clients
/// are left.
pub fn end_post<B: Names, K: Keep<B>, D: Sink>(
    keeper: &mut K,
    post: &mut Post<B>,
    sink: &mut D,
    flushes: bool,
) -> u64
    ensures same { K.identity keeper.new ≡ K.identity keeper.old }
    ensures left { result ≡ length post.new.waiting.items }
    ensures waiting { IsSublist post.new.waiting.items post.old.waiting.items }
    ensures domain { WhereKnown (K.domain keeper.old) (K.domain keeper.new) (EndsPost flushes
        (vec_capacity post.old.ranges) (K.identity keeper.old).number post.old.waiting.items
        post.new.waiting.items
        post.old.seat post.new.seat.held (D.calls sink.old) (D.calls sink.new)) }
    ensures place { KeepsPlace post.old.seat post.new.seat (D.calls sink.old) (D.calls sink.new) }
{
    let left = retry(keeper, post, sink);
    make_round(flushes, keeper, post.seat.tally(), sink);
    left
}

/// A flusher's round, where one is wanted. One that is refused leaves the rings as they are.
fn make_round<B: Names, K: Keep<B>, D: Sink>(
    wanted: bool,
    keeper: &mut K,
    tally: &mut Tally<B>,
    sink: &mut D,
)
    ensures same { K.identity keeper.new ≡ K.identity keeper.old }
    ensures domain { WhereKnown (K.domain keeper.old) (K.domain keeper.new) (MakesRound wanted
        (K.identity keeper.old).number (D.calls sink.old) (D.calls sink.new)) }
    ensures tally { RisesWithin tally.old.good tally.new.good (D.calls sink.old)
        (D.calls sink.new) }
    ensures parts { tally.new.parts ≡ tally.old.parts }
{
    // for the proof: a domain that is known is there
    keeper.domain_is_kept();
    if wanted {
        let _round = timeout(keeper, tally, sink);
    }
}
