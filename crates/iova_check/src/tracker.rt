//! What is known of a log after its lines so far.
ghost use Rattle.std.specs.Prelude.{◌≡◌, ℕ, ◌+◌, ◌-◌, ◌≤◌, ◌<◌, ◌^◌, ◌==◌, Bool, List, [], ◌∷◌, Some, None, OnOk, if◌then◌else◌};
ghost use Rattle.std.specs.Ordering.{nat_cmp};
ghost use Rattle.std.specs.BTreeMap.{get};
ghost use Rattle.iova_check.specs.declared.event.Event.{Event};
ghost use Rattle.iova_check.specs.History.{IsInReach};
ghost use Rattle.iova_check.specs.History.{flight_after, stage_after, flushed_by};
ghost use Rattle.iova_check.specs.Marks.{stage_at};
ghost use Rattle.iova_check.specs.Following.{Follows};

use crate::event::Event;
use crate::stage::{Change, OpenFlush};
use crate::stages::Stages;
use iova_range::range::Range;
use std::alloc::{AllocError, Global};
use std::collections::BTreeMap;

/// The stage of each frame, and the flushes in flight by their numbers.
#[derive(Drop)]
pub struct Tracker {
    /// The stages.
    pub stages: Stages,
    /// The flushes in flight.
    pub flights: BTreeMap<u64, OpenFlush>,
    /// The number of the line that comes next, 1 at least.
    pub line: u64,
}

impl Tracker {
    /// No line was taken.
    pub fn new(alloc: Global) -> Tracker
        ensures { Follows [] result }
    {
        Tracker {
            stages: Stages::new(alloc),
            flights: BTreeMap::new(alloc),
            line: 1,
        }
    }

    /// Takes the next line. Refused where memory is: what is known then is no more than of some of
    /// it.
    pub fn take(&mut self, event: Event) -> Result<(), AllocError>
        requires event { IsInReach event }
        requires few { self.old.line < 2 ^ 64 - 1 }
        ensures { OnOk result ((past : List Event) → Follows past self.old
            → Follows (event ∷ past) self.new) }
    {
        match event {
            Event::Map(range) => self.stages.change_range(range, Change::Mapped(self.line))?,
            Event::Unmap(range) => self
                .stages
                .change_range(range, Change::Unmapped(self.line))?,
            Event::Use(_) => {}
            Event::Begin { no, range } => self.begin(no, range)?,
            Event::End { no, ok } => self.end(no, ok)?,
            Event::Flush(range) => self.flush_in_one_line(range)?,
            Event::Other(_) => {}
        }
        self.line += 1;
        Ok(())
    }

    /// A flush begins at the next line.
    fn begin(&mut self, no: u64, range: Option<Range>) -> Result<(), AllocError>
        ensures flights { OnOk result ((n : ℕ) → get nat_cmp self.new.flights n
            ≡ (if no == n then Some (record { line = self.old.line; range = range })
            else get nat_cmp self.old.flights n)) }
        ensures stages { self.new.stages ≡ self.old.stages }
        ensures line { self.new.line ≡ self.old.line }
    {
        let line = self.line;
        self.flights.insert(no, OpenFlush { line, range })?;
        Ok(())
    }

    /// A flush begins and ends at the next line.
    fn flush_in_one_line(&mut self, range: Option<Range>) -> Result<(), AllocError>
        ensures stages { OnOk result ((f : ℕ) → f < 2 ^ 64 - 1 → stage_at self.new.stages f
            ≡ flushed_by (Some (record { line = self.old.line; range = range })) f
            (stage_at self.old.stages f)) }
        ensures top { OnOk result ((f : ℕ) → 2 ^ 64 - 1 ≤ f
            → stage_at self.new.stages f ≡ stage_at self.old.stages f) }
        ensures flights { self.new.flights ≡ self.old.flights }
        ensures line { self.new.line ≡ self.old.line }
    {
        let line = self.line;
        flush(&mut self.stages, &OpenFlush { line, range })
    }

    /// A flush ends.
    fn end(&mut self, no: u64, ok: bool) -> Result<(), AllocError>
        ensures flights { OnOk result ((n : ℕ) → get nat_cmp self.new.flights n
            ≡ (if no == n then None else get nat_cmp self.old.flights n)) }
        ensures stages { OnOk result ((f : ℕ) → f < 2 ^ 64 - 1 → stage_at self.new.stages f
            ≡ (if ok then flushed_by (get nat_cmp self.old.flights no) f
            (stage_at self.old.stages f)
            else stage_at self.old.stages f)) }
        ensures top { OnOk result ((f : ℕ) → 2 ^ 64 - 1 ≤ f
            → stage_at self.new.stages f ≡ stage_at self.old.stages f) }
        ensures line { self.new.line ≡ self.old.line }
    {
        let flight = self.flights.remove(&no);
        match flight {
            Some(flight) if ok => flush(&mut self.stages, &flight),
            _ => Ok(()),
        }
    }
}

/// The flush ended well.
fn flush(stages: &mut Stages, flight: &OpenFlush) -> Result<(), AllocError>
    ensures below { OnOk result ((f : ℕ) → f < 2 ^ 64 - 1
        → stage_at stages.new f ≡ flushed_by (Some flight.now) f (stage_at stages.old f)) }
    ensures above { OnOk result ((f : ℕ) → 2 ^ 64 - 1 ≤ f
        → stage_at stages.new f ≡ stage_at stages.old f) }
{
    let change = Change::Flushed(flight.line);
    match flight.range {
        Some(range) => {
            stages.change_range(range, change)?;
            Ok(())
        }
        None => {
            stages.change(0, u64::MAX, change)?;
            Ok(())
        }
    }
}
