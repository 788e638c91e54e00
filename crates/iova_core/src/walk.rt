//! The walk of a request: the caches, the tree, and the tree again once the caches are emptied.

ghost use Rattle.std.specs.Prelude.{◌≡◌, ◌≢◌, ◌≤◌, ◌<◌, ◌^◌, [], Bool, Some, IsTrue, IsFalse, IfSome, IfNone, OnSome};
ghost use Rattle.iova_model.specs.Fit.{best};
ghost use Rattle.iova_model.specs.State.{State};
ghost use Rattle.iova_model.specs.Next as next;
ghost use Rattle.iova_model.specs.declared.step.Point.TheVariants.{First, Second};
ghost use Rattle.iova_range.specs.Sizes.{order_of};
ghost use Rattle.iova_tree.specs.Space.{IsSpace, ranges_of};
ghost use Rattle.iova_depot.specs.Cached.{IsCached, with_contents};
ghost use Rattle.iova_core.specs.Reclaim.{IsBacked, Exchanges};
ghost use Rattle.iova_core.specs.Walk.{get_cached, Places, ArePartsOf, Comes, point_of, placed_ranges, IsPlacedOf, IsTryPoint, IsPointFrom};

use crate::reclaim::empty;
use iova_depot::caches::Caches;
use iova_model::step::Point;
use iova_range::limits::{MAX_FRAMES, ORDERS, SAC_LIMIT};
use iova_range::range::Range;
use iova_range::sizes::order_of;
use iova_tree::tree::Tree;

/// The result of a walk of a request.
#[derive(Clone, Copy, Debug)]
pub enum Walked {
    /// The range, which the tree has and no cache.
    Placed(Range),
    /// Nothing fits.
    Nowhere,
    /// The growth at this point was refused.
    OutOfMemory(Point),
}

/// Asks the caches of worker `w`.
#[inline(always)]
fn from_caches(caches: &mut Caches, w: usize, size: u64, limit: u64) -> Option<u64>
    requires worker { w < caches.old.workers }
    requires some { 1 ≤ size }
    requires bounded { size ≤ MAX_FRAMES }
    ensures value { result ≡ (get_cached caches.old.caches w size limit (order_of size)).0 }
    ensures left { caches.new ≡ with_contents caches.old
        (get_cached caches.old.caches w size limit (order_of size)).1 }
    ensures cached { IsCached caches.old → IsCached caches.new }
{
    let order = order_of(size)?;
    caches.get(w, order, limit)
}

/// The limit of the first try.
#[inline(always)]
fn first_limit(sac: bool, limit: u64) -> u64
    ensures low { IsTrue sac → SAC_LIMIT < limit → result ≡ SAC_LIMIT }
    ensures high { IsTrue sac → limit ≤ SAC_LIMIT → result ≡ limit }
    ensures plain { IsFalse sac → result ≡ limit }
{
    if sac && SAC_LIMIT < limit {
        SAC_LIMIT
    } else {
        limit
    }
}

/// Whether the walk takes the newest entry of worker `w`'s loaded magazine, and looks no further.
#[inline(always)]
pub fn is_at_hand(caches: &Caches, w: usize, sac: bool, order: u8, size: u64, limit: u64) -> bool
    requires worker { w < caches.now.workers }
    requires order { order < ORDERS }
    requires size { size ≡ 2 ^ order }
{
    caches.gives_newest(w, order, size, first_limit(sac, limit))
}

/// Asks the caches of worker `w`, where the newest entry of its loaded magazine is given. Else
/// None, and nothing changes.
#[inline(always)]
fn from_loaded(
    caches: &mut Caches,
    w: usize,
    size: u64,
    order: Option<u8>,
    limit: u64,
) -> Option<u64>
    requires worker { w < caches.old.workers }
    requires order { order ≡ order_of size }
    ensures value { IfSome result (λ lo.
        (get_cached caches.old.caches w size limit (order_of size)).0 ≡ Some lo) }
    ensures left { OnSome result
        (caches.new ≡ with_contents caches.old
        (get_cached caches.old.caches w size limit (order_of size)).1) }
    ensures none { IfNone result (caches.new ≡ caches.old) }
    ensures cached { IsCached caches.old → IsCached caches.new }
{
    caches.get_newest(w, order?, size, limit)
}

/// One try as `try_once`, where the newest entry of worker `w`'s loaded magazine is given. Else
/// None, and nothing changes.
#[inline(always)]
fn try_loaded(
    tree: &Tree,
    caches: &mut Caches,
    w: usize,
    size: u64,
    order: Option<u8>,
    limit: u64,
) -> Option<Range>
    requires worker { w < caches.old.workers }
    requires some { 1 ≤ size }
    requires bounded { size ≤ MAX_FRAMES }
    requires order { order ≡ order_of size }
    requires backed { IsBacked tree.now caches.old [] }
    ensures comes { IfSome result (λ r. (s : State) (emptying : Bool) (here : Point)
        → ArePartsOf tree.now caches.old.caches s
        → Comes (next.try s w size limit emptying here Point.Never) (Walked.Placed r)
        caches.new.caches) }
    ensures size { IfSome result (λ r. IsPlacedOf size (Walked.Placed r)) }
    ensures backed { IfSome result (λ r. Exchanges tree.now tree.now caches.old caches.new
        (placed_ranges (Walked.Placed r)) []) }
    ensures none { IfNone result (caches.new ≡ caches.old) }
{
    match from_loaded(caches, w, size, order, limit) {
        Some(lo) => Some(Range::new(lo, size)),
        None => None,
    }
}

/// Takes the highest place for `size` frames in the tree, none above `limit`, by a growth that is
/// the point `here`.
#[inline(never)]
fn from_tree(tree: &mut Tree, size: u64, limit: u64, here: Point) -> Walked
    requires some { 1 ≤ size }
    requires bounded { size ≤ MAX_FRAMES }
    ensures places { Places (best tree.old.bounds (ranges_of tree.old) size limit) here size
        tree.old tree.new result }
    ensures space { IsSpace tree.old → IsSpace tree.new }
{
    match tree.take(size, limit) {
        Ok(Some(range)) => Walked::Placed(range),
        Ok(None) => Walked::Nowhere,
        Err(_) => Walked::OutOfMemory(here),
    }
}

/// One try for `size` frames, none above `limit`: the caches of worker `w`, then the tree, by a
/// growth that is the point `here`, and, where `emptying` is allowed, the tree again with all
/// caches emptied.
#[inline(always)]
fn try_once(
    tree: &mut Tree,
    caches: &mut Caches,
    w: usize,
    size: u64,
    limit: u64,
    emptying: bool,
    here: Point,
) -> Walked
    requires worker { w < caches.old.workers }
    requires some { 1 ≤ size }
    requires bounded { size ≤ MAX_FRAMES }
    requires here { IsTryPoint here }
    requires backed { IsBacked tree.old caches.old [] }
    ensures comes { (s : State) → ArePartsOf tree.old caches.old.caches s
        → Comes (next.try s w size limit emptying here (point_of result)) result caches.new.caches }
    ensures size { IsPlacedOf size result }
    ensures point { IsPointFrom here (point_of result) }
    ensures backed { Exchanges tree.old tree.new caches.old caches.new (placed_ranges result) [] }
{
    if let Some(lo) = from_caches(caches, w, size, limit) {
        return Walked::Placed(Range::new(lo, size));
    }
    match from_tree(tree, size, limit, here) {
        Walked::Nowhere => {}
        found => return found,
    }
    if !emptying {
        return Walked::Nowhere;
    }
    empty(tree, caches);
    from_tree(tree, size, limit, Point::Last)
}

/// The walk of a request: for a client that is `sac`, one try below 4 GiB that empties nothing,
/// where the limit is above that; then one with the limit that was asked for. What a loaded
/// magazine gives first is taken here, and all else is out of line. `order` is that of the size.
#[inline(always)]
pub fn walk(
    tree: &mut Tree,
    caches: &mut Caches,
    w: usize,
    sac: bool,
    size: u64,
    order: Option<u8>,
    limit: u64,
) -> Walked
    requires worker { w < caches.old.workers }
    requires some { 1 ≤ size }
    requires bounded { size ≤ MAX_FRAMES }
    requires order { order ≡ order_of size }
    requires backed { IsBacked tree.old caches.old [] }
    ensures comes { (s : State) → ArePartsOf tree.old caches.old.caches s
        → Comes (next.walk s w sac size limit (point_of result)) result caches.new.caches }
    ensures size { IsPlacedOf size result }
    ensures point { point_of result ≢ Point.Ledger }
    ensures backed { Exchanges tree.old tree.new caches.old caches.new (placed_ranges result) [] }
{
    match try_loaded(tree, caches, w, size, order, first_limit(sac, limit)) {
        Some(range) => Walked::Placed(range),
        None => walk_on(tree, caches, w, sac, size, limit),
    }
}

/// The walk, whatever gives the range.
#[inline(never)]
fn walk_on(
    tree: &mut Tree,
    caches: &mut Caches,
    w: usize,
    sac: bool,
    size: u64,
    limit: u64,
) -> Walked
    requires worker { w < caches.old.workers }
    requires some { 1 ≤ size }
    requires bounded { size ≤ MAX_FRAMES }
    requires backed { IsBacked tree.old caches.old [] }
    ensures comes { (s : State) → ArePartsOf tree.old caches.old.caches s
        → Comes (next.walk s w sac size limit (point_of result)) result caches.new.caches }
    ensures size { IsPlacedOf size result }
    ensures point { point_of result ≢ Point.Ledger }
    ensures backed { Exchanges tree.old tree.new caches.old caches.new (placed_ranges result) [] }
{
    if sac && limit > SAC_LIMIT {
        match try_once(tree, caches, w, size, SAC_LIMIT, false, Point::First) {
            Walked::Nowhere => {}
            found => return found,
        }
    }
    try_once(tree, caches, w, size, limit, true, Point::Second)
}
