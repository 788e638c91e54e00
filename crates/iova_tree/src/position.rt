//! Where a range goes in a rising list.
ghost use Rattle.std.specs.Prelude.{◌≤◌, ◌<◌, ℕ, length, slice_index_or};
ghost use Rattle.std.specs.List.Sorted.{IsNonDecreasingBy};
ghost use Rattle.iova_range.specs.Frames.{Frames};

use iova_range::range::Range;

/// How many of the ranges, which rise by first frame, begin below `lo`.
pub fn position_of(ranges: &[Range], lo: u64) -> usize
    requires { IsNonDecreasingBy (λ (r : Frames). r.lo) ranges.now }
    ensures within { result ≤ length ranges.now }
    ensures below { (k : ℕ) (d : Frames) → k < result → (slice_index_or ranges.now k d).lo < lo }
    ensures above { (k : ℕ) (d : Frames) → result ≤ k → k < length ranges.now
        → lo ≤ (slice_index_or ranges.now k d).lo }
{
    ranges.partition_point(|range| range.lo() < lo)
}
