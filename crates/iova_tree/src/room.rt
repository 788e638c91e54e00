//! The greatest size that fits aligned into a gap.
ghost use Rattle.std.specs.Prelude.{◌≡◌, ◌+◌, ◌^◌, ◌≤◌, ◌<◌, max, ℕ, IfSome, IfNone};
ghost use Rattle.iova_tree.specs.Room.{room, FitsBetween};

use iova_range::limits::MAX_FRAMES;

/// The most room that a gap may have.
pub const MOST_ROOM: u32 = MAX_FRAMES as u32;

/// A gap of so many frames is long: where a bound is wanted, its room is computed (own: measured).
const LONG_GAP: u64 = 64;

/// The greatest size of a request, 1 to 1,048,576, that fits aligned into the frames from `from` on
/// and below `until`; 0 where none does.
///
/// Of these frames one has the most factors of two. From it on every size fits that ends by
/// `until`, and below it powers of two alone.
#[inline]
pub fn room_of(from: u64, until: u64) -> u32
    requires { 1 ≤ from }
    ensures greatest { result ≡ room from until }
    ensures prunes_no_fit { (size : ℕ) → 1 ≤ size → size ≤ MAX_FRAMES → FitsBetween from until size
        → size ≤ result }
    ensures fits { 1 ≤ result → FitsBetween from until result }
{
    if from >= until {
        return 0;
    }
    let shift = last_place((from - 1) ^ (until - 1));
    let split = ((until - 1) >> shift) << shift;
    let above = until - split;
    let below = split - from;
    let best = if below == 0 {
        above
    } else {
        above.max(1 << last_place(below))
    };
    best.min(MAX_FRAMES) as u32
}

/// The room of the frames from `from` on and below `until`, where it is above `known`. Where these
/// frames are not more than `known`, it isn't computed.
#[inline]
pub fn room_above(known: u32, from: u64, until: u64) -> Option<u32>
    requires some { 1 ≤ from }
    requires apart { from ≤ until }
    ensures above { IfSome result (λ more. (more ≡ room from until) × (known < more)) }
    ensures most { IfNone result (room from until ≤ known) }
{
    if until - from <= known as u64 {
        return None;
    }
    let room = room_of(from, until);
    if room > known { Some(room) } else { None }
}

/// The greater of `known` and of the room of the frames from `from` on and below `until`, which is
/// computed only where `known` is less than the most.
#[inline]
pub fn room_with(known: u32, from: u64, until: u64) -> u32
    requires some { 1 ≤ from }
    requires apart { from ≤ until }
    ensures { result ≡ max known (room from until) }
{
    if known >= MOST_ROOM {
        return known;
    }
    match room_above(known, from, until) {
        Some(more) => more,
        None => known,
    }
}

/// No less than `known` and than the room of the frames from `from` on and below `until`. Of a
/// gap that isn't long it is the number of its frames.
#[inline]
pub fn bound_with(known: u32, from: u64, until: u64) -> u32
    requires some { 1 ≤ from }
    requires apart { from ≤ until }
    ensures { max known (room from until) ≤ result }
{
    let frames = until - from;
    if frames < LONG_GAP {
        return known.max(frames as u32);
    }
    room_with(known, from, until)
}

/// The place of the highest binary digit that is set.
#[inline]
fn last_place(n: u64) -> u32
    requires { 0 < n }
    ensures below { 2 ^ result ≤ n }
    ensures above { n < 2 ^ (result + 1) }
    ensures small { result < 64 }
{
    63 - n.leading_zeros()
}
