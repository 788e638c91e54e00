//! The findings of a line: at most three.
ghost use Rattle.std.specs.Prelude.{◌≡◌, List};
ghost use Rattle.std.specs.Ordering.{nat_cmp};
ghost use Rattle.std.specs.BTreeMap.{get};
ghost use Rattle.iova_check.specs.declared.event.Event.{Event};
ghost use Rattle.iova_check.specs.History.{IsRange, IsInReach, flight_of, stage_of};
ghost use Rattle.iova_check.specs.Marks.{stage_at};
ghost use Rattle.iova_check.specs.AllowedBounds.{AllowedBounds};
ghost use Rattle.iova_check.specs.Allowing.{Allows};
ghost use Rattle.iova_check.specs.Following.{Follows};
ghost use Rattle.iova_check.specs.Findings.{of_run, flush_told, IsMapTold, IsUnmapTold, IsUseTold, AreFindings, TellsBreaks};

use crate::allowed::Allowed;
use crate::event::Event;
use crate::finding::{Finding, Kind, Run};
use crate::scan::{find, find_cut};
use crate::stages::Stages;
use crate::tracker::Tracker;
use iova_range::range::Range;

/// The findings of the next line, in order: at most three. None is of a frame that was
/// given out too early exactly where the promise is kept for each frame that the line maps.
pub fn findings(tracker: &Tracker, allowed: &Allowed, event: &Event) -> [Option<Finding>; 3]
    requires { IsInReach event.now }
    ensures told { (bounds : AllowedBounds) (past : List Event) → Allows allowed.now bounds
        → Follows past tracker.now
        → AreFindings bounds (stage_of past) (flight_of past) event.now result }
    ensures breaks { (bounds : AllowedBounds) (past : List Event) → Allows allowed.now bounds
        → Follows past tracker.now
        → TellsBreaks past event.now result }
{
    tell(tracker, allowed, event)
}

/// The findings of the next line, by what the tracker knows.
fn tell(tracker: &Tracker, allowed: &Allowed, event: &Event) -> [Option<Finding>; 3]
    requires { IsInReach event.now }
    ensures { (bounds : AllowedBounds) → Allows allowed.now bounds
        → AreFindings bounds (stage_at tracker.now.stages)
        (get nat_cmp tracker.now.flights) event.now
        result }
{
    match event {
        Event::Map(range) => of_map(&tracker.stages, allowed, *range),
        Event::Unmap(range) => of_unmap(&tracker.stages, allowed, *range),
        Event::Use(range) => of_use(&tracker.stages, allowed, *range),
        Event::Begin { no, range: _ } => of_flush(*no, tracker.flights.contains_key(no)),
        Event::End { no, ok: _ } => of_flush(*no, !tracker.flights.contains_key(no)),
        Event::Flush(_) | Event::Other(_) => [None, None, None],
    }
}

fn of_map(stages: &Stages, allowed: &Allowed, range: Range) -> [Option<Finding>; 3]
    requires { IsRange range }
    ensures { (bounds : AllowedBounds) → Allows allowed.now bounds
        → IsMapTold bounds (stage_at stages.now) range result }
{
    let (lo, to) = (range.lo(), range.lo() + range.len());
    let outside = allowed.find_outside(lo, to);
    let overlap = find(stages, Kind::Overlap, lo, to);
    let reused = find(stages, Kind::Reused, lo, to);
    [
        framed(Kind::Outside, outside),
        framed(Kind::Overlap, overlap),
        framed(Kind::Reused, reused),
    ]
}

fn of_unmap(stages: &Stages, allowed: &Allowed, range: Range) -> [Option<Finding>; 3]
    requires { IsRange range }
    ensures { (bounds : AllowedBounds) → Allows allowed.now bounds
        → IsUnmapTold bounds (stage_at stages.now) range result }
{
    let (lo, to) = (range.lo(), range.lo() + range.len());
    let outside = allowed.find_outside(lo, to);
    let cut = find_cut(stages, lo, to);
    let unmapped = find(stages, Kind::Unmapped, lo, to);
    [
        framed(Kind::Outside, outside),
        framed(Kind::Cut, cut),
        framed(Kind::Unmapped, unmapped),
    ]
}

fn of_use(stages: &Stages, allowed: &Allowed, range: Range) -> [Option<Finding>; 3]
    requires { IsRange range }
    ensures { (bounds : AllowedBounds) → Allows allowed.now bounds
        → IsUseTold bounds (stage_at stages.now) range result }
{
    let (lo, to) = (range.lo(), range.lo() + range.len());
    let outside = allowed.find_outside(lo, to);
    let stale = find(stages, Kind::Stale, lo, to);
    let wild = find(stages, Kind::Wild, lo, to);
    [
        framed(Kind::Outside, outside),
        framed(Kind::Stale, stale),
        framed(Kind::Wild, wild),
    ]
}

fn of_flush(no: u64, odd: bool) -> [Option<Finding>; 3]
    ensures { result ≡ flush_told no odd }
{
    let finding = if odd { Some(Finding::Flush(no)) } else { None };
    [finding, None, None]
}

fn framed(kind: Kind, found: Option<Run>) -> Option<Finding>
    ensures { result ≡ of_run kind found }
{
    match found {
        Some(run) => Some(Finding::Frames { kind, run }),
        None => None,
    }
}
