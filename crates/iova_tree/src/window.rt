//! Windows that join.
ghost use Rattle.std.specs.Prelude.{◌≡◌, ◌^◌, ◌≤◌, ◌<◌, ◌+◌, ℕ, true, length, vec_len, vec_capacity, IfSome, IfNone};
ghost use Rattle.iova_model.specs.Fit.{is_clear};
ghost use Rattle.iova_model.specs.Clients.{insert_rising};
ghost use Rattle.iova_model.specs.Next.{union};
ghost use Rattle.iova_tree.specs.Spans.{windows_of};
ghost use Rattle.iova_tree.specs.Space.{RiseApart, LieWithin, clear_of, IsPartOf, AreTakenBut};

use crate::position::position_of;
use crate::ranges::Ranges;
use iova_range::range::Range;
use std::mem;

/// How many of the ranges have no frame in common with `range`.
pub fn count_clear(ranges: &[Range], range: Range) -> usize
    ensures { result ≡ length (clear_of range ranges.now) }
{
    ranges.iter().filter(|other| !range.meets(**other)).count()
}

/// Puts a window that is clear of the others in its place. There is room for it.
pub fn insert_window(windows: &mut Vec<Range>, window: Range)
    requires some { 1 ≤ window.len }
    requires rise { (from : ℕ) × (until : ℕ) × RiseApart from windows.old.items until }
    requires clear { is_clear window windows.old.items ≡ true }
    requires room { vec_len windows.old < vec_capacity windows.old }
    ensures { windows.new.items ≡ insert_rising window windows.old.items }
{
    let at = position_of(windows, window.lo());
    windows.insert(at, window).unwrap();
}

/// Takes out the windows that have a frame in common with `window`, and gives one window of all
/// these and `window` itself. One of them stays in the tree, which the second result is: the window
/// of all takes its place. None has frame 0. It takes no memory.
pub fn absorb(
    ranges: &mut Ranges,
    windows: &mut Vec<Range>,
    window: Range,
) -> (Range, Option<Range>)
    requires own { 1 ≤ window.lo }
    requires within { (until : ℕ) × (until ≤ 2 ^ 40) × LieWithin 1 ranges.old until }
    requires same { windows.old.items ≡ windows_of ranges.old }
    ensures value { result.0 ≡ union window windows.old.items }
    ensures rest { windows.new.items ≡ clear_of window windows.old.items }
    ensures room { vec_capacity windows.new ≡ vec_capacity windows.old }
    ensures left { AreTakenBut result.1 ranges.old windows.new.items ranges.new }
    ensures part { IfSome result.1 (λ kept. IsPartOf kept result.0) }
    ensures none { IfNone result.1 (windows.new.items ≡ windows.old.items) }
{
    let mut all = window;
    let mut kept: Option<Range> = None;
    let mut i = windows.len();
    while i > 0 {
        i -= 1;
        if window.meets(windows[i]) {
            let other = windows.remove(i);
            all = all.join(other);
            if let Some(before) = mem::replace(&mut kept, Some(other)) {
                let _ = ranges.remove(before.lo());
            }
        }
    }
    (all, kept)
}
