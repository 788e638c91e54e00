//! What is counted of a log.
ghost use Rattle.std.specs.Prelude.{◌≡◌, ◌+◌, ℕ, IfOk, IfSome, OnErr};
ghost use Rattle.iova_check.specs.Counting.{IsCounted, counts_after};

use crate::event::{Event, OtherLine};
use iova_range::refusal::Refusal;

/// How many lines of each kind there were, and how many findings.
#[derive(Clone, Copy)]
pub struct LogCounts {
    /// The lines `map`.
    pub maps: u64,
    /// The lines `unmap`.
    pub unmaps: u64,
    /// The lines `begin`, and those that are a whole flush.
    pub flushes: u64,
    /// The lines `use`.
    pub uses: u64,
    /// The lines that say nothing of frames or flushes, a log's header among them.
    pub others: u64,
    /// Of these the lines that say that events were lost.
    pub lost: u64,
    /// Of these the lines that were too long to be read.
    pub too_long: u64,
    /// The findings.
    pub findings: u64,
}

impl LogCounts {
    ghost use Rattle.std.specs.Prelude.{[]};
    ghost use Rattle.iova_check.specs.declared.event.Event.TheVariants.{Other as IsOther};

    /// Of no lines.
    pub fn new() -> LogCounts
        ensures { IsCounted [] 0 result }
    {
        LogCounts {
            maps: 0,
            unmaps: 0,
            flushes: 0,
            uses: 0,
            others: 0,
            lost: 0,
            too_long: 0,
            findings: 0,
        }
    }

    /// With a line more, with so many findings. Refused by `NoMemory` where a count
    /// has no number.
    pub fn with_line(self, event: &Event, findings: u64) -> Result<LogCounts, Refusal>
        ensures counted { IfOk result (λ counts. counts ≡ counts_after self event.now findings) }
        ensures refused { OnErr result (result ≡ Err Refusal.NoMemory) }
    {
        let Some(counts) = self.with_event(event) else {
            return Err(Refusal::NoMemory);
        };
        match counts.findings.checked_add(findings) {
            Some(findings) => Ok(LogCounts { findings, ..counts }),
            None => Err(Refusal::NoMemory),
        }
    }

    /// With a line more, whose findings are not counted. None where its count has no number.
    fn with_event(self, event: &Event) -> Option<LogCounts>
        ensures { IfSome result (λ counts. (found : ℕ)
            → record counts { findings = counts.findings + found }
            ≡ counts_after self event.now found) }
    {
        match event {
            Event::Map(_) => match self.maps.checked_add(1) {
                Some(maps) => Some(LogCounts { maps, ..self }),
                None => None,
            },
            Event::Unmap(_) => match self.unmaps.checked_add(1) {
                Some(unmaps) => Some(LogCounts { unmaps, ..self }),
                None => None,
            },
            Event::Use(_) => match self.uses.checked_add(1) {
                Some(uses) => Some(LogCounts { uses, ..self }),
                None => None,
            },
            Event::Begin { no: _, range: _ } | Event::Flush(_) => {
                match self.flushes.checked_add(1) {
                    Some(flushes) => Some(LogCounts { flushes, ..self }),
                    None => None,
                }
            }
            Event::End { no: _, ok: _ } => Some(self),
            Event::Other(what) => self.with_other(*what),
        }
    }

    /// With a line more that says nothing. None where its count has no number.
    fn with_other(self, what: OtherLine) -> Option<LogCounts>
        ensures { IfSome result (λ counts. (found : ℕ)
            → record counts { findings = counts.findings + found }
            ≡ counts_after self (IsOther what) found) }
    {
        let others = self.others.checked_add(1)?;
        match what {
            OtherLine::Plain => Some(LogCounts { others, ..self }),
            OtherLine::Lost => match self.lost.checked_add(1) {
                Some(lost) => Some(LogCounts {
                    others,
                    lost,
                    ..self
                }),
                None => None,
            },
            OtherLine::TooLong => match self.too_long.checked_add(1) {
                Some(too_long) => Some(LogCounts {
                    others,
                    too_long,
                    ..self
                }),
                None => None,
            },
        }
    }
}
