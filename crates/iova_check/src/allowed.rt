//! The frames that may be mapped.
ghost use Rattle.std.specs.Prelude.{◌≡◌, ℕ, [], ◌≤◌, IfOk, OnOk};
ghost use Rattle.iova_check.specs.AllowedBounds.{AllowedBounds};
ghost use Rattle.iova_check.specs.Findings.{told_outside, IsFound};
ghost use Rattle.iova_check.specs.Allowing.{Allows, with_window};

use crate::finding::{Kind, Run};
use crate::scan::find;
use crate::stage::Change;
use crate::stages::Stages;
use iova_range::range::Range;
use std::alloc::{AllocError, Global};

/// What is asked of the frames that may be mapped.
#[derive(Clone, Copy)]
pub struct LogBounds<'a> {
    /// The first frame that may be mapped. None: the one that the log says.
    pub first: Option<u64>,
    /// The last frame that may be mapped. None: the one that the log says. Where the first is above
    /// it no frame may be mapped.
    pub last: Option<u64>,
    /// Frames that may not be mapped, any number of ranges in any order.
    pub windows: &'a [Range],
}

/// The frames that may be mapped.
#[derive(Drop)]
pub struct Allowed {
    /// They are mapped here, and no others.
    pub stages: Stages,
}

impl Allowed {
    /// The frames from the first to the last one, without those of the windows. None where the
    /// first is above the last. Refused where memory is.
    pub fn new(
        alloc: Global,
        first: u64,
        last: u64,
        windows: &[Range],
    ) -> Result<Allowed, AllocError>
        ensures { IfOk result (λ a. Allows a
            (record { first = first; last = last; windows = windows.now })) }
    {
        let mut allowed = Allowed::within(alloc, first, last)?;
        for window in windows {
            allowed.without(*window)?;
        }
        Ok(allowed)
    }

    /// The frames from the first to the last one.
    fn within(alloc: Global, first: u64, last: u64) -> Result<Allowed, AllocError>
        ensures { IfOk result (λ a. Allows a
            (record { first = first; last = last; windows = [] })) }
    {
        let mut stages = Stages::new(alloc);
        if first > last {
            return Ok(Allowed { stages });
        }
        let to = last.saturating_add(1);
        stages.change(first, to, Change::Mapped(0))?;
        Ok(Allowed { stages })
    }

    /// Takes the frames of a window out.
    fn without(&mut self, window: Range) -> Result<(), AllocError>
        ensures { OnOk result ((bounds : AllowedBounds) → Allows self.old bounds
            → Allows self.new (with_window bounds window)) }
    {
        self.stages.change_range(window, Change::Unmapped(0))?;
        Ok(())
    }

    /// The lowest of the frames from `lo` on and below `to` that may not be mapped, and those after
    /// it.
    pub fn find_outside(&self, lo: u64, to: u64) -> Option<Run>
        requires { lo ≤ to }
        ensures { (bounds : AllowedBounds) → Allows self.now bounds
            → IsFound (told_outside bounds) lo to result }
    {
        find(&self.stages, Kind::Unmapped, lo, to)
    }
}
