//! Where a frame stands, what changes it, and the flushes that are in flight.
ghost use Rattle.std.specs.Prelude.{◌≡◌};
ghost use Rattle.iova_check.specs.History.{with_change};

use iova_range::range::Range;

/// Where a frame stands after some lines of a log. Lines are named by their number, counted from 1.
#[derive(Clone, Copy, PartialEq, Eq)]
pub enum Stage {
    /// No device can reach it.
    Free,
    /// It has been mapped since this line.
    Mapped(u64),
    /// It was unmapped at this line, and a device may still reach it: no flush that has it began
    /// after that line and ended well.
    Stale(u64),
}

/// A flush that has begun and has not ended.
#[derive(Clone, Copy)]
pub struct OpenFlush {
    /// The line at which it began.
    pub line: u64,
    /// Its frames, every frame where there is no range.
    pub range: Option<Range>,
}

/// What a line does to its frames.
#[derive(Clone, Copy)]
pub enum Change {
    /// This line maps them.
    Mapped(u64),
    /// This line unmaps them.
    Unmapped(u64),
    /// A flush that began at this line ended well.
    Flushed(u64),
}

impl Stage {
    ghost use Rattle.iova_check.specs.StageIndex.{is_stale};

    /// Whether a device may still reach a frame that was unmapped.
    pub fn is_stale(self) -> bool
        ensures { result ≡ is_stale self }
    {
        matches!(self, Stage::Stale(_))
    }
}

impl Change {
    /// The stage of a frame after the change.
    pub fn of(self, stage: Stage) -> Stage
        ensures { result ≡ with_change self stage }
    {
        match (self, stage) {
            (Change::Mapped(line), _) => Stage::Mapped(line),
            (Change::Unmapped(line), Stage::Mapped(_)) => Stage::Stale(line),
            (Change::Flushed(begun), Stage::Stale(since)) if since < begun => Stage::Free,
            _ => stage,
        }
    }
}
