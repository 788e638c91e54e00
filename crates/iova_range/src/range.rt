//! Page frames in a row.
ghost use Rattle.std.specs.Prelude.{◌≡◌, ◌+◌, ◌≤◌, ◌^◌};
ghost use Rattle.iova_range.specs.Frames.{covers, meets, join};

use std::marker::Model;

/// Page frames in a row, at least one. The last one is below 2^64.
#[derive(Clone, Copy, Debug, PartialEq, Eq)]
pub struct Range {
    lo: u64,
    len: u64,
}

impl Model for Range {
    ghost use Rattle.std.specs.Prelude.{◌+◌, ◌≤◌, ◌^◌};
    ghost use Rattle.iova_range.specs.Frames.{Frames};

    ghost Value = { Frames };

    ghost view = { λ r. record { lo = r.lo; len = r.len } };

    ghost invariant = { λ r. (1 ≤ r.len) × (r.lo + r.len ≤ 2 ^ 64) };

    ghost inverse = { λ v. record { lo = v.lo; len = v.len } };
}

impl Range {
    /// The `len` frames from `lo` on.
    #[inline]
    pub fn new(lo: u64, len: u64) -> Self
        requires some { 1 ≤ len }
        requires fits { lo + len ≤ 2 ^ 64 }
        ensures { result ≡ record { lo = lo; len = len } }
    {
        Range { lo, len }
    }

    /// The first frame.
    #[inline]
    pub fn lo(self) -> u64
        ensures { result ≡ self.lo }
    {
        self.lo
    }

    /// How many frames, at least 1.
    #[inline]
    pub fn len(self) -> u64
        ensures is { result ≡ self.len }
        ensures some { 1 ≤ result }
        ensures fits { self.lo + result ≤ 2 ^ 64 }
    {
        self.len
    }

    /// The last frame.
    #[inline]
    pub fn hi(self) -> u64
        ensures { result + 1 ≡ self.lo + self.len }
    {
        self.lo + (self.len - 1)
    }

    /// Whether the frame is one of them.
    #[inline]
    pub fn covers(self, frame: u64) -> bool
        ensures { result ≡ covers frame self }
    {
        self.lo <= frame && frame - self.lo < self.len
    }

    /// Whether the two have a frame in common.
    #[inline]
    pub fn meets(self, other: Range) -> bool
        ensures { result ≡ meets self other }
    {
        self.lo <= other.hi() && other.lo <= self.hi()
    }

    /// The frames of both and what lies between them. Neither has frame 0.
    pub fn join(self, other: Range) -> Range
        requires first { 1 ≤ self.lo }
        requires second { 1 ≤ other.lo }
        ensures { result ≡ join self other }
    {
        let lo = self.lo.min(other.lo);
        let hi = self.hi().max(other.hi());
        Range::new(lo, hi - lo + 1)
    }
}
