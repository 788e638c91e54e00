//! What stands below a link of the tree.
ghost use Rattle.std.specs.Prelude.{◌≡◌, ◌-◌, ◌<◌, ◌≤◌, [], ◌∷◌, ◌++◌, length, false, true, OnOk, OnErr, IfOk, IfSome, IfNone, List};
ghost use Rattle.std.specs.List.{list_any};
ghost use Rattle.iova_range.specs.Frames.{meets};
ghost use Rattle.iova_model.specs.Fit.{is_covered};
ghost use Rattle.iova_tree.specs.Spans.{Span as Seen, first_lo, end_after, room_after, room_between, with_span, with_replaced, all_of, inserted_of, IsRisingFrom, Holds};
ghost use Rattle.iova_tree.specs.Fit.{IsWanted, IsFound, highest_after, taken};
ghost use Rattle.iova_tree.specs.Branches.{IsCutOff};

use crate::search::{FoundPlace, Wanted};
use crate::span::Span;
use std::alloc::{AllocError, Global};

/// Ranges that rise apart: a block of them, or a branch with links to others. Whoever has a link to
/// it keeps a bound for its room: no greater size fits aligned between two neighbours.
pub trait Node: Drop {
    /// The ranges, in their order.
    ghost spans: { Self → List Seen };

    /// A node of one range.
    fn single(alloc: Global, span: Span) -> Result<Self, AllocError>
        ensures { IfOk result (λ node. spans node ≡ span ∷ []) };

    /// Whether it is to be split before one more comes in. Nothing is promised of it: a wrong
    /// answer costs time or memory alone.
    fn is_full(&self) -> bool;

    /// Whether it has no range.
    fn is_empty(&self) -> bool
        ensures nothing { result ≡ true → spans self.now ≡ [] }
        ensures something { result ≡ false → 0 < length (spans self.now) };

    /// Where the lowest begins.
    fn first(&self) -> u64
        requires some { 0 < length (spans self.now) }
        ensures { result ≡ first_lo (spans self.now) };

    /// Where the highest ends.
    fn end(&self) -> u64
        requires some { 0 < length (spans self.now) }
        ensures { result ≡ end_after 0 (spans self.now) };

    /// A bound for the room between two neighbours, which `most` is too: the least that is known.
    fn room(&self, most: u32) -> u32
        requires rising { IsRisingFrom 0 (spans self.now) }
        requires most { room_between (spans self.now) ≤ most }
        ensures { room_between (spans self.now) ≤ result };

    /// The highest place in a gap below one of the ranges and above `from`.
    fn highest(&self, from: u64, wanted: &Wanted) -> Option<u64>
        requires wanted { IsWanted wanted.now }
        requires rising { IsRisingFrom from (spans self.now) }
        ensures { result ≡ highest_after wanted.now from (spans self.now) };

    /// Takes the highest place in a gap below one of the ranges and above `from`, where its block
    /// has room for a range. Where nothing fits, it makes the bound the least that is known.
    fn take(&mut self, from: u64, wanted: &Wanted, room: &mut u32) -> FoundPlace
        requires wanted { IsWanted wanted.now }
        requires some { 1 ≤ from }
        requires rising { IsRisingFrom from (spans self.old) }
        requires room { room_after from (spans self.old) ≤ room.old }
        ensures found { IsFound (highest_after wanted.now from (spans self.old))
            (spans self.new ≡ spans self.old)
            (λ lo. spans self.new ≡ with_span (taken wanted.now lo) (spans self.old)) result }
        ensures room { room_after from (spans self.new) ≤ room.new };

    /// Takes the upper part off, which is another node then: the upper half, or three quarters where
    /// `lo` is below these. So ranges that come each below all others leave nodes that are three
    /// quarters full. None where there is but one thing to part.
    fn split(&mut self, alloc: Global, lo: u64) -> Result<Option<Self>, AllocError>
        requires rising { IsRisingFrom 0 (spans self.old) }
        ensures cut { IfOk result (λ found. IfSome found (λ high.
            IsCutOff (spans self.old) (spans self.new) (spans high))) }
        ensures none { IfOk result (λ found. IfNone found (spans self.new ≡ spans self.old)) }
        ensures err { OnErr result (spans self.new ≡ spans self.old) };

    /// Lets a range in, whose frames are free. Where memory is refused, the ranges are as they were.
    fn insert(&mut self, alloc: Global, span: Span, room: &mut u32) -> Result<(), AllocError>
        requires free { IsRisingFrom 0 (with_span span (spans self.old)) }
        requires room { room_between (spans self.old) ≤ room.old }
        ensures ok { OnOk result (spans self.new ≡ with_span span (spans self.old)) }
        ensures err { OnErr result (spans self.new ≡ spans self.old) }
        ensures known { OnErr result (room.old ≤ room.new) }
        ensures room { room_between (spans self.new) ≤ room.new };

    /// Takes out the range that begins at `lo`.
    fn remove(&mut self, lo: u64, room: &mut u32) -> Span
        requires held { Holds lo (spans self.old) }
        requires rising { IsRisingFrom 0 (spans self.old) }
        requires room { room_between (spans self.old) ≤ room.old }
        ensures begins { result.lo ≡ lo }
        ensures taken { spans self.old ≡ with_span result (spans self.new) }
        ensures known { room.old ≤ room.new }
        ensures room { room_between (spans self.new) ≤ room.new };

    /// Puts a range in the place of the one that begins at `lo`.
    fn replace(&mut self, lo: u64, span: Span)
        requires held { Holds lo (spans self.old) }
        requires rising { IsRisingFrom 0 (spans self.old) }
        requires free { IsRisingFrom 0 (with_replaced lo span (spans self.old)) }
        ensures { spans self.new ≡ with_replaced lo span (spans self.old) };

    /// Whether one of the ranges has the frame.
    fn covers(&self, frame: u64) -> bool
        requires rising { IsRisingFrom 0 (spans self.now) }
        ensures { result ≡ is_covered frame (all_of (spans self.now)) };

    /// Whether one of the ranges that are no windows has a frame in common with those from `lo` on,
    /// below `end`.
    fn meets_inserted(&self, lo: u64, end: u64) -> bool
        requires some { lo < end }
        requires rising { IsRisingFrom 0 (spans self.now) }
        ensures { result ≡ list_any (meets (record { lo = lo; len = end - lo }))
            (inserted_of (spans self.now)) };
}
