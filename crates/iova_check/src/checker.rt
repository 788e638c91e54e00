//! A log checked line by line.
use crate::allowed::Allowed;
use crate::counts::LogCounts;
use crate::event::Event;
use crate::finding::how_many;
use crate::text::write_findings;
use crate::told::findings;
use crate::tracker::Tracker;
use iova_range::refusal::Refusal;
use std::alloc::Global;

/// What is known of a log after its lines so far, and the frames that may be mapped.
pub struct Checker {
    /// The frames that may be mapped.
    pub allowed: Allowed,
    /// What became of each frame.
    pub tracker: Tracker,
    /// What was counted.
    pub counts: LogCounts,
}

/// Drops its parts. The proof stands here, once for all crates above.
impl Drop for Checker {
    fn drop(self) {
        let Checker {
            allowed: _,
            tracker: _,
            counts: _,
        } = self;
    }
}

impl Checker {
    ghost use Rattle.std.specs.Prelude.{◌≡◌, [], OnOk, OnErr};
    ghost use Rattle.iova_check.specs.History.{IsInReach};
    ghost use Rattle.iova_check.specs.AllowedBounds.{AllowedBounds};
    ghost use Rattle.iova_check.specs.Allowing.{Allows};
    ghost use Rattle.iova_check.specs.Checking.{HasChecked, ChecksNext};

    /// No line was taken.
    pub fn new(alloc: Global, allowed: Allowed) -> Checker
        ensures { (bounds : AllowedBounds) → Allows allowed bounds → HasChecked bounds [] result [] }
    {
        Checker {
            allowed,
            tracker: Tracker::new(alloc),
            counts: LogCounts::new(),
        }
    }

    /// Takes the next line, and appends its findings. Refused by `NoMemory`, also where no
    /// further line has a number; nothing is appended then.
    pub fn check(&mut self, event: Event, out: &mut Vec<u8>) -> Result<(), Refusal>
        requires { IsInReach event }
        ensures ok { OnOk result (ChecksNext self.old event out.old.items self.new out.new.items) }
        ensures err { OnErr result ((result ≡ Err Refusal.NoMemory)
            × (out.new.items ≡ out.old.items)) }
    {
        if self.tracker.line == u64::MAX {
            return Err(Refusal::NoMemory);
        }
        let told = findings(&self.tracker, &self.allowed, &event);
        let line = self.tracker.line;
        self.counts = self.counts.with_line(&event, how_many(&told))?;
        if self.tracker.take(event).is_err() {
            return Err(Refusal::NoMemory);
        }
        match write_findings(line, &told, out) {
            Ok(()) => Ok(()),
            Err(_) => Err(Refusal::NoMemory),
        }
    }
}
