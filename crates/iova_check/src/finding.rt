//! What may be wrong at a line.
ghost use Rattle.std.specs.Prelude.{◌≡◌, ◌≤◌, is_some, if◌then◌else◌};
ghost use Rattle.iova_check.specs.Counting.{how_many};
ghost use Rattle.iova_check.specs.Findings.{since_of};

use crate::stage::Stage;

/// What is wrong with frames of a line.
#[derive(Clone, Copy)]
pub enum Kind {
    /// They are out of the bounds.
    Outside,
    /// They are mapped, and the line maps them.
    Overlap,
    /// They are stale, and the line maps them: a device may still reach what was there before.
    Reused,
    /// The line unmaps them, and not what was mapped with them beside.
    Cut,
    /// The line unmaps them, and they are not mapped.
    Unmapped,
    /// A device reached them after they were unmapped.
    Stale,
    /// A device reached them, and they are free.
    Wild,
}

/// Frames in a row of which one thing is wrong.
#[derive(Clone, Copy)]
pub struct Run {
    /// The first frame.
    pub lo: u64,
    /// How many frames, at least 1.
    pub len: u64,
    /// The line since which they are mapped or stale, where the kind has one.
    pub since: Option<u64>,
}

/// What is wrong at a line.
#[derive(Clone, Copy)]
pub enum Finding {
    /// Something with its frames.
    Frames { kind: Kind, run: Run },
    /// It begins a flush of a number in flight, or ends one of a number that is not.
    Flush(u64),
}

/// How many of three findings there are.
pub fn how_many(findings: &[Option<Finding>; 3]) -> u64
    ensures { result ≡ how_many findings.now }
{
    let [first, second, third] = findings;
    one_if(first) + one_if(second) + one_if(third)
}

fn one_if(finding: &Option<Finding>) -> u64
    ensures is { result ≡ (if is_some finding.now then 1 else 0) }
    ensures small { result ≤ 1 }
{
    if finding.is_some() { 1 } else { 0 }
}

impl Kind {
    /// The line that a finding of this kind names for a frame at this stage, where it names one.
    /// None where the frame is no such finding.
    pub fn told(self, stage: Stage) -> Option<Option<u64>>
        ensures { result ≡ since_of self stage }
    {
        match (self, stage) {
            (Kind::Overlap, Stage::Mapped(since)) => Some(Some(since)),
            (Kind::Reused | Kind::Stale, Stage::Stale(since)) => Some(Some(since)),
            (Kind::Unmapped, Stage::Free | Stage::Stale(_)) => Some(None),
            (Kind::Wild, Stage::Free) => Some(None),
            _ => None,
        }
    }
}
