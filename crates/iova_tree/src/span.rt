//! A range of the tree.
ghost use Rattle.std.specs.Prelude.{◌≡◌, ◌<◌, ◌^◌};
ghost use Rattle.iova_tree.specs.Spans.{range_of_span, has_frame, is_taken_between};

use iova_range::range::Range;
use std::marker::Model;

/// The frames from `lo` on, below `end`, which are a window or were inserted: 16 bytes.
#[derive(Clone, Copy)]
pub struct Span {
    lo: u64,
    // twice the end, and one more for a window
    tail: u64,
}

// What a range costs in a block.
const _: () = prove!(size_of::<Span>() == 16);

impl Model for Span {
    ghost use Rattle.std.specs.Prelude.{◌/◌, ◌%◌, ◌==◌, ◌+◌, ◌*◌};
    ghost use Rattle.iova_tree.specs.Spans.{mark_of};
    ghost use Rattle.iova_tree.specs.Spans.{Span as Seen};

    ghost Value = { Seen };

    ghost view = { λ s. record { lo = s.lo; end = s.tail / 2; window = s.tail % 2 == 1 } };

    ghost inverse = { λ v. record { lo = v.lo; tail = 2 * v.end + mark_of v.window } };
}

impl Default for Span {
    fn default() -> Self {
        Span { lo: 0, tail: 0 }
    }
}

impl Span {
    /// The frames from `lo` on and below `end`, which are a window or were inserted.
    #[inline]
    pub fn new(lo: u64, end: u64, window: bool) -> Self
        requires { end < 2 ^ 63 }
        ensures { result ≡ record { lo = lo; end = end; window = window } }
    {
        let kind = if window { 1 } else { 0 };
        Span {
            lo,
            tail: 2 * end + kind,
        }
    }

    /// Its first frame.
    #[inline]
    pub fn lo(self) -> u64
        ensures { result ≡ self.lo }
    {
        self.lo
    }

    /// The frame after its last.
    #[inline]
    pub fn end(self) -> u64
        ensures { result ≡ self.end }
    {
        self.tail / 2
    }

    /// Whether it is a window.
    #[inline]
    pub fn is_window(self) -> bool
        ensures { result ≡ self.window }
    {
        self.tail % 2 == 1
    }

    /// Whether it has the frame.
    #[inline]
    pub fn has(self, frame: u64) -> bool
        ensures { result ≡ has_frame frame self }
    {
        self.lo() <= frame && frame < self.end()
    }

    /// Whether it is no window, and has one of the frames from `lo` on, below `end`.
    #[inline]
    pub fn is_taken(self, lo: u64, end: u64) -> bool
        ensures { result ≡ is_taken_between lo end self }
    {
        !self.is_window() && self.lo() < end && lo < self.end()
    }

    /// Its frames.
    #[inline]
    pub fn range(self) -> Range
        requires { self.lo < self.end }
        ensures { result ≡ range_of_span self }
    {
        Range::new(self.lo(), self.end() - self.lo())
    }
}
