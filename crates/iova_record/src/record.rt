//! What a recorded domain has recorded, written as a trace.
ghost use Rattle.std.specs.Prelude.{◌≡◌, ℕ, List, ◌++◌, Err, IfOk, OnOk, OnErr};
ghost use Rattle.iova_line.specs.Recorded.{steps_text, AreSteps};
ghost use Rattle.iova_record.specs.Records.{WritesLog, WritesText};

use crate::recorded_domain::{RecordedDomain, StoredStep};
use iova_line::line::{write_header, write_step};
use iova_range::refusal::Refusal;

impl RecordedDomain {
    /// Appends what was recorded, as a trace: the header's line and a line for each step; of a
    /// domain that isn't recorded the header alone. Gives the number of steps. What is recorded is
    /// a transcript from the new domain, so the promises hold of it; and of at most 1,000,000 steps
    /// it is a trace, whose replay prints those replies. Refused by `NoMemory`, which appends
    /// nothing.
    pub fn transcript(&self, out: &mut Vec<u8>) -> Result<u64, Refusal>
        ensures recorded { WritesLog self.now.state self.now.log out.old.items out.new.items
            result }
        ensures err { OnErr result ((result ≡ Err Refusal.NoMemory)
            × (out.new.items ≡ out.old.items)) }
    {
        // for the proof: what every domain keeps, and that the log is a transcript
        self.is_kept();
        let _pairs = self.pairs();
        let before = out.len();
        match self.write_record(out) {
            Ok(steps) => Ok(steps),
            Err(refusal) => {
                out.truncate(before);
                Err(refusal)
            }
        }
    }

    /// Appends the whole record. Where memory is refused a part of it may stand in `out`.
    fn write_record(&self, out: &mut Vec<u8>) -> Result<u64, Refusal>
        ensures ok { WritesText self.now.state self.now.log out.old.items out.new.items result }
        ensures err { OnErr result ((result ≡ Err Refusal.NoMemory)
            × ((part : List ℕ) × (out.new.items ≡ out.old.items ++ part))) }
    {
        match write_header(&self.bounds(), self.workers(), out) {
            Ok(()) => {}
            Err(refusal) => return Err(refusal),
        }
        let Some(pairs) = self.pairs() else {
            return Ok(0);
        };
        match write_steps(pairs, out) {
            Ok(()) => Ok(pairs.len() as u64),
            Err(refusal) => Err(refusal),
        }
    }
}

/// Appends a line for each step.
fn write_steps(pairs: &[StoredStep], out: &mut Vec<u8>) -> Result<(), Refusal>
    ensures ok { OnOk result (out.new.items ≡ out.old.items ++ steps_text pairs.now) }
    ensures steps { OnOk result (AreSteps pairs.now) }
    ensures err { OnErr result ((result ≡ Err Refusal.NoMemory)
        × ((part : List ℕ) × (out.new.items ≡ out.old.items ++ part))) }
{
    for pair in pairs {
        match write_step(&pair.step, out) {
            Ok(()) => {}
            Err(refusal) => return Err(refusal),
        }
    }
    Ok(())
}
