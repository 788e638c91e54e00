//! A post: a seat of a worker, and the clients whose end waits.
ghost use Rattle.std.specs.Prelude.{◌≡◌, ◌≤◌, ◌+◌, true, [], map, vec_len, vec_capacity, IfSome};
ghost use Rattle.iova_range.specs.declared.limits.TheConstants.{MAX_HOLDINGS};

use iova_keep::names::Names;
use iova_keep::seat::Seat;
use iova_model::step::ClientId;
use iova_range::limits::MAX_HOLDINGS;
use iova_range::range::Range;
use std::alloc::Global;

/// Where sessions are served, one at a time; a worker has one or several.
pub struct Post<B: Names> {
    /// A seat of its worker, which nobody else has.
    pub seat: Seat<B>,
    /// The clients of ended sessions that are not gone yet, oldest first.
    pub waiting: Vec<ClientId>,
    /// Room for the ranges of a client that leaves: what is in it is what the sink got last.
    /// The first session at the post takes it.
    pub ranges: Vec<Range>,
}

/// Drops its parts. The proof stands here, once for all crates above.
impl<B: Names> Drop for Post<B> {
    fn drop(self) {
        let Post {
            seat: _,
            waiting: _,
            ranges: _,
        } = self;
    }
}

impl<B: Names> Post<B> {
    /// A post at this seat, where no client waits.
    pub fn new(alloc: Global, seat: Seat<B>) -> Post<B>
        ensures seat { result.seat ≡ seat }
        ensures waiting { result.waiting.items ≡ [] }
        ensures ranges { result.ranges.items ≡ [] }
    {
        Post {
            seat,
            waiting: Vec::new(alloc),
            ranges: Vec::new(alloc),
        }
    }

    /// Its seat. The list of clients that wait is dropped.
    pub fn into_seat(self) -> Seat<B>
        ensures { result ≡ self.seat }
    {
        let Post {
            seat,
            waiting: _,
            ranges: _,
        } = self;
        seat
    }
}

/// A post at each seat, in their order, where no client waits. None for want of memory.
pub fn posts_at<B: Names>(alloc: Global, seats: Vec<Seat<B>>) -> Option<Vec<Post<B>>>
    ensures seats { IfSome result (λ v. map (λ p. p.seat) v.items ≡ seats.items) }
    ensures waiting { IfSome result
        (λ v. map (λ p. p.waiting.items) v.items ≡ map (λ s. []) seats.items) }
{
    let mut posts = Vec::with_capacity(alloc, seats.len()).ok()?;
    for seat in seats {
        let Ok(()) = posts.push(Post::new(alloc, seat)) else {
            unreachable!();
        };
    }
    Some(posts)
}

/// The posts' seats, in their order, in this room for them: so it takes no memory.
pub fn seats_of<B: Names>(posts: Vec<Post<B>>, room: Vec<Seat<B>>) -> Vec<Seat<B>>
    requires empty { room.items ≡ [] }
    requires room { vec_len posts ≤ vec_capacity room }
    ensures { result.items ≡ map (λ p. p.seat) posts.items }
{
    let mut seats = room;
    for post in posts {
        let Ok(()) = seats.push(post.into_seat()) else {
            unreachable!();
        };
    }
    seats
}

/// Takes room for one client more that waits, and for the ranges of one that leaves. Whether it was
/// had.
pub(crate) fn take_room(waiting: &mut Vec<ClientId>, ranges: &mut Vec<Range>) -> bool
    ensures waiting { waiting.new.items ≡ waiting.old.items }
    ensures room { result ≡ true → vec_len waiting.new + 1 ≤ vec_capacity waiting.new }
    ensures ranges { result ≡ true → MAX_HOLDINGS ≤ vec_capacity ranges.new }
    ensures kept { MAX_HOLDINGS ≤ vec_capacity ranges.old → MAX_HOLDINGS ≤ vec_capacity ranges.new }
{
    waiting.try_reserve(1).is_ok() && has_ranges(ranges)
}

/// Takes room for the ranges of a client that leaves, where there is none. Whether it was had.
pub(crate) fn has_ranges(ranges: &mut Vec<Range>) -> bool
    ensures there { MAX_HOLDINGS ≤ vec_capacity ranges.old → result ≡ true }
    ensures ranges { result ≡ true → MAX_HOLDINGS ≤ vec_capacity ranges.new }
{
    ranges.clear();
    ranges.try_reserve(MAX_HOLDINGS).is_ok()
}
