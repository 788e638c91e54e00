//! The clients of a post whose end waits, tried again.
ghost use Rattle.std.specs.Prelude.{◌≡◌, ◌≢◌, ◌≤◌, true, length, vec_capacity};
ghost use Rattle.iova_range.specs.declared.limits.TheConstants.{MAX_HOLDINGS};
ghost use Rattle.iova_keep.specs.Views.{WhereKnown, KeepsPlace};
ghost use Rattle.iova_session.specs.Posts.{IsSublist, Retries, RetriesAll};
ghost use Rattle.iova_session.specs.Gone.{EndsWhereGood};

use crate::leaving::try_to_end;
use crate::post::{Post, has_ranges};
use iova_keep::keep::Keep;
use iova_keep::names::Names;
use iova_laws::validity::steps_keep_validity;
use iova_sink::sink::Sink;

/// Tries once to end each client that waits, in the order of the list, and gives how many are left:
/// the sink is notified again that it is gone, and which ranges it still holds, and then they are
/// queued. One that is gone leaves the list, and so does one that isn't known any more. A sink that
/// gives no answer to that ends the round: those behind the client wait on. Where nobody else holds
/// a range of the domain and no call of the sink fails, all of them end, and nobody holds anything.
/// Takes no memory where a session was served at the post.
pub fn retry<B: Names, K: Keep<B>, D: Sink>(keeper: &mut K, post: &mut Post<B>, sink: &mut D) -> u64
    ensures same { K.identity keeper.new ≡ K.identity keeper.old }
    ensures left { result ≡ length post.new.waiting.items }
    ensures waiting { IsSublist post.new.waiting.items post.old.waiting.items }
    ensures domain { WhereKnown (K.domain keeper.old) (K.domain keeper.new)
        (RetriesAll (vec_capacity post.old.ranges)
        (K.identity keeper.old).number post.old.waiting.items post.new.waiting.items post.old.seat
        post.new.seat
        (D.calls sink.old) (D.calls sink.new)) }
    ensures gone { WhereKnown (K.domain keeper.old) (K.domain keeper.new)
        (EndsWhereGood (vec_capacity post.old.ranges)
        post.old.waiting.items post.new.waiting.items post.old.seat (D.calls sink.old)
        (D.calls sink.new)) }
    ensures place { KeepsPlace post.old.seat post.new.seat (D.calls sink.old) (D.calls sink.new) }
{
    // for the proof: a domain that is known is valid, and so is what a step leaves
    keeper.domain_is_kept();
    steps_keep_validity();
    if post.waiting.is_empty() {
        return 0;
    }
    let over = !has_ranges(&mut post.ranges);
    retry_until(keeper, post, sink, over)
}

/// One round over the post's waiting clients, of which none is tried any more where the round is
/// over.
fn retry_until<B: Names, K: Keep<B>, D: Sink>(
    keeper: &mut K,
    post: &mut Post<B>,
    sink: &mut D,
    over: bool,
) -> u64
    requires { over ≢ true → MAX_HOLDINGS ≤ vec_capacity post.old.ranges }
    ensures same { K.identity keeper.new ≡ K.identity keeper.old }
    ensures left { result ≡ length post.new.waiting.items }
    ensures waiting { IsSublist post.new.waiting.items post.old.waiting.items }
    ensures domain { WhereKnown (K.domain keeper.old) (K.domain keeper.new)
        (Retries over (K.identity keeper.old).number
        post.old.waiting.items post.new.waiting.items post.old.seat post.new.seat (D.calls sink.old)
        (D.calls sink.new)) }
    ensures place { KeepsPlace post.old.seat post.new.seat (D.calls sink.old) (D.calls sink.new) }
{
    let mut over = over;
    let mut left = 0;
    'trying: for at in 0..post.waiting.len() {
        let id = post.waiting[at];
        let tried = try_to_end(over, keeper, &mut post.seat, sink, &mut post.ranges, id);
        over = tried.over;
        if tried.kept {
            post.waiting[left] = id;
            left += 1;
        }
    }
    post.waiting.truncate(left);
    left as u64
}
