//! The lowest frames of a range of which there is a finding, and those after them of which the same
//! is.
ghost use Rattle.std.specs.Prelude.{◌≡◌, ◌≢◌, ℕ, ◌+◌, ◌-◌, ◌≤◌, ◌<◌, Some, None};
ghost use Rattle.iova_check.specs.Marks.{stage_at};
ghost use Rattle.iova_check.specs.declared.finding.Kind.TheVariants.{Overlap as Overlapping};
ghost use Rattle.iova_check.specs.Counting.{frames_told};
ghost use Rattle.iova_check.specs.Findings.{since_of, is_joined, IsFound, IsCut};

use crate::finding::{Kind, Run};
use crate::stage::Stage;
use crate::stages::Stages;

/// The lowest of the frames from `lo` on and below `to` of which the kind says something, and the
/// frames after it of which it says the same.
pub fn find(stages: &Stages, kind: Kind, lo: u64, to: u64) -> Option<Run>
    requires { lo ≤ to }
    ensures { IsFound (λ f. since_of kind (stage_at stages.now f)) lo to result }
{
    let mut at = lo;
    while at < to {
        if let Some(since) = kind.told(stages.stage(at)) {
            let end = stretch(stages, kind, since, at, to);
            let len = end - at;
            return Some(Run { lo: at, len, since });
        }
        at = skip(stages, kind, at, to);
    }
    None
}

/// A frame above `frame` and at most `to`, up to which the kind says nothing, as it says nothing
/// of `frame`. Where stale or free frames are looked for, it passes no others one by one.
fn skip(stages: &Stages, kind: Kind, frame: u64, to: u64) -> u64
    requires some { frame < to }
    requires first { since_of kind (stage_at stages.now frame) ≡ None }
    ensures after { frame < result }
    ensures within { result ≤ to }
    ensures none { (f : ℕ) → frame ≤ f → f < result → since_of kind (stage_at stages.now f) ≡ None }
{
    match kind {
        Kind::Stale => stages.next_stale(frame, to),
        Kind::Wild => stages.next_free(frame, to),
        _ => stages.end(frame, to),
    }
}

/// The end of the frames from `lo` on and below `to` of which the kind says this.
fn stretch(stages: &Stages, kind: Kind, since: Option<u64>, lo: u64, to: u64) -> u64
    requires some { lo < to }
    requires first { since_of kind (stage_at stages.now lo) ≡ Some since }
    ensures after { lo < result }
    ensures within { result ≤ to }
    ensures same { (f : ℕ) → lo ≤ f → f < result → since_of kind (stage_at stages.now f)
        ≡ Some since }
    ensures longest { result < to → since_of kind (stage_at stages.now result) ≢ Some since }
{
    let mut at = stages.end(lo, to);
    while at < to && kind.told(stages.stage(at)) == Some(since) {
        at = stages.end(at, to);
    }
    at
}

/// The frames from `lo` on and below `to` that are cut off from a frame beside them: those mapped
/// with the frame before `lo`, else those mapped with `to`.
pub fn find_cut(stages: &Stages, lo: u64, to: u64) -> Option<Run>
    requires { lo < to }
    ensures { IsCut (stage_at stages.now) lo to result }
{
    if joined(stages, lo) {
        return find(stages, Kind::Overlap, lo, to);
    }
    if !joined(stages, to) {
        return None;
    }
    let Some(since) = Kind::Overlap.told(stages.stage(to - 1)) else {
        return None;
    };
    let start = last_start(stages, since, lo, to);
    Some(Run {
        lo: start,
        len: to - start,
        since,
    })
}

/// Whether this frame and the one before it are mapped since one line.
fn joined(stages: &Stages, frame: u64) -> bool
    ensures { result ≡ is_joined (stage_at stages.now) frame }
{
    if frame == 0 {
        return false;
    }
    match (stages.stage(frame - 1), stages.stage(frame)) {
        (Stage::Mapped(one), Stage::Mapped(other)) => one == other,
        _ => false,
    }
}

/// The first of the frames from `lo` on that are all mapped since this line up to the one before
/// `to`.
fn last_start(stages: &Stages, since: Option<u64>, lo: u64, to: u64) -> u64
    requires some { lo < to }
    requires last { since_of Overlapping (stage_at stages.now (to - 1)) ≡ Some since }
    ensures from { lo ≤ result }
    ensures within { result < to }
    ensures same { (f : ℕ) → result ≤ f → f < to
        → since_of Overlapping (stage_at stages.now f) ≡ Some since }
    ensures longest { lo < result
        → since_of Overlapping (stage_at stages.now (result - 1)) ≢ Some since }
{
    let mut start = lo;
    let mut at = lo;
    while at < to {
        let end = stages.end(at, to);
        if Kind::Overlap.told(stages.stage(at)) != Some(since) {
            start = end;
        }
        at = end;
    }
    start
}

/// Of how many frames below frame 2^64 - 1 the kind says something.
pub fn count_frames(stages: &Stages, kind: Kind) -> u64
    ensures { result ≡ frames_told kind (stage_at stages.now) }
{
    let mut count = 0;
    let mut at = 0;
    while at < u64::MAX {
        let end = stages.end(at, u64::MAX);
        if kind.told(stages.stage(at)).is_some() {
            count += end - at;
        }
        at = end;
    }
    count
}
