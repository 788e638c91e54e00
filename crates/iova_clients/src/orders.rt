//! Ranges that come into order.
ghost use Rattle.std.specs.Prelude.{◌≡◌, ◌≤◌, ◌++◌, List, length, vec_len, vec_capacity};
ghost use Rattle.std.specs.List.Sorted.{IsPermutation};
ghost use Rattle.iova_range.specs.Frames.{Frames};
ghost use Rattle.iova_model.specs.Valid.{Rises};
ghost use Rattle.iova_clients.specs.Orders.{AppendsInAnyOrder};

use iova_range::range::Range;

/// Puts the ranges in order, lowest first frame first, in place.
pub(crate) fn put_in_order(ranges: &mut [Range])
    ensures rising { (rising : List Frames) → Rises 0 rising → IsPermutation rising ranges.old
        → ranges.new ≡ rising }
    ensures len { length ranges.new ≡ length ranges.old }
{
    ranges.sort_unstable_by_key(|range| range.lo());
}

/// Puts the ranges behind the first `from` in order, lowest first frame first, in place.
pub fn put_in_order_from(ranges: &mut Vec<Range>, from: usize)
    requires { from ≤ vec_len ranges.old }
    ensures rising { (before rising : List Frames) → length before ≡ from → Rises 0 rising
        → AppendsInAnyOrder rising before ranges.old.items
        → ranges.new.items ≡ before ++ rising }
    ensures capacity { vec_capacity ranges.new ≡ vec_capacity ranges.old }
{
    let len = ranges.len();
    put_in_order(ranges.slice_mut(from..len));
}
