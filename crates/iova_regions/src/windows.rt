//! Windows: frames that are kept back.
ghost use Rattle.std.specs.Prelude.{◌≡◌, ◌≤◌, ◌<◌, ℕ, ◌&&◌, ◌||◌, ◌^◌, [], OnOk, OnErr, MatchOption, length, filter, fold, false, nat_le};
ghost use Rattle.iova_range.specs.Frames.{Frames, covers, meets, join};
ghost use Rattle.iova_regions.specs.Windows.{AreWindows, RiseFrom, lies_below, union, windows_with, is_covered, is_between, part};

use crate::ranges::Ranges;
use iova_range::limits::MAX_WINDOWS;
use iova_range::range::Range;
use iova_range::refusal::Refusal;
use std::marker::Model;

/// Ranges of frames, at most 64, which rise and have no frame in common; none has frame 0.
pub struct Windows {
    ranges: Ranges,
}

/// Drops its parts. The proof stands here, once for all crates above.
impl Drop for Windows {
    fn drop(self) {
        let Windows { ranges: _ } = self;
    }
}

impl Model for Windows {
    ghost use Rattle.std.specs.Prelude.{List};
    ghost use Rattle.iova_range.specs.Frames.{Frames};
    ghost use Rattle.iova_regions.specs.Windows.{AreWindows};

    ghost Value = { List Frames };

    ghost view = { λ w. w.ranges };

    ghost invariant = { λ w. AreWindows w.ranges };
}

impl Windows {
    /// No window.
    pub fn new() -> Windows
        ensures { result ≡ [] }
    {
        Windows {
            ranges: Ranges::new(),
        }
    }

    /// A copy of the windows.
    pub fn copied(&self) -> Windows
        ensures { result ≡ self.now }
    {
        Windows {
            ranges: self.ranges.copied(),
        }
    }

    /// The windows, rising.
    pub fn ranges(&self) -> &[Range]
        ensures is { result.now ≡ self.now }
        ensures windows { AreWindows self.now }
    {
        self.ranges.as_slice()
    }

    /// Inserts the range, which doesn't have frame 0. The windows that have a frame in common with
    /// it are joined with it into one; those that only adjoin it stay. Refused by `WindowsFull`,
    /// with no change, exactly where that would make a 65th.
    pub fn insert(&mut self, range: Range) -> Result<(), Refusal>
        requires { 1 ≤ range.lo }
        ensures ok { OnOk result (self.new ≡ windows_with range self.old) }
        ensures windows { OnOk result (AreWindows self.new) }
        ensures covers { OnOk result ((frame : ℕ)
            → is_covered frame self.new ≡ (is_covered frame self.old || covers frame range)) }
        ensures same { OnErr result (self.new ≡ self.old) }
        ensures full { OnErr result ((result ≡ Err Refusal.WindowsFull)
            × (MAX_WINDOWS < length (windows_with range self.old))) }
    {
        let _some = range.len(); // for the proof: a range has a frame
        let mut ranges = below(self.ranges.as_slice(), range);
        let above = above(self.ranges.as_slice(), range);
        if ranges.len() + above.len() >= MAX_WINDOWS {
            return Err(Refusal::WindowsFull);
        }
        ranges.push(joined(self.ranges.as_slice(), range));
        ranges.append(above.as_slice());
        self.ranges = ranges;
        Ok(())
    }
}

/// The part of the range from frame `first` to frame `last`. None where it has no frame there.
pub fn cut(range: Range, first: u64, last: u64) -> Option<Range>
    ensures is { result ≡ part range first last }
    ensures covers { MatchOption result
        ((frame : ℕ) → (covers frame range && is_between first last frame) ≡ false)
        (λ p. (frame : ℕ) → covers frame p ≡ (covers frame range && is_between first last frame)) }
{
    let lo = range.lo().max(first);
    let hi = range.hi().min(last);
    if lo > hi {
        return None;
    }
    Some(Range::new(lo, hi - lo + 1))
}

/// Whether all frames of the one are below those of the other.
fn is_below(one: Range, other: Range) -> bool
    ensures { result ≡ lies_below one other }
{
    one.hi() < other.lo()
}

/// The windows below the range.
fn below(windows: &[Range], range: Range) -> Ranges
    requires { length windows.now ≤ MAX_WINDOWS }
    ensures { result ≡ filter (λ (w : Frames). lies_below w range) windows.now }
{
    let mut found = Ranges::new();
    for window in windows {
        if is_below(*window, range) {
            found.push(*window);
        }
    }
    found
}

/// The windows above the range.
fn above(windows: &[Range], range: Range) -> Ranges
    requires { length windows.now ≤ MAX_WINDOWS }
    ensures { result ≡ filter (λ (w : Frames). lies_below range w) windows.now }
{
    let mut found = Ranges::new();
    for window in windows {
        if is_below(range, *window) {
            found.push(*window);
        }
    }
    found
}

/// The range and the windows that have a frame in common with it, joined.
fn joined(windows: &[Range], range: Range) -> Range
    requires some { 1 ≤ range.lo }
    requires rising { RiseFrom 1 windows.now }
    ensures { result ≡ union range windows.now }
{
    let mut joined = range;
    for window in windows {
        if range.meets(*window) {
            joined = joined.join(*window);
        }
    }
    joined
}
