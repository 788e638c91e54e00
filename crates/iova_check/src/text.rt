//! The line of a finding, written.
ghost use Rattle.std.specs.Prelude.{◌≡◌, ◌+◌, ◌≤◌, ◌++◌, length, OnOk, OnErr};
ghost use Rattle.iova_check.specs.Output.{kind_name, about, finding_text, findings_text, run_text};

use crate::finding::{Finding, Kind, Run};
use arrayvec::ArrayVec;
use iova_range::refusal::Refusal;
use iova_text::buffer::{append, put, put_number};

/// Room for the lines of three findings, in bytes.
const ROOM: usize = 315;

/// Appends the lines of the findings of line `line`. Refused by `NoMemory`, which appends nothing.
pub fn write_findings(
    line: u64,
    findings: &[Option<Finding>; 3],
    out: &mut Vec<u8>,
) -> Result<(), Refusal>
    ensures ok { OnOk result (out.new.items ≡ out.old.items ++ findings_text line findings.now) }
    ensures err { OnErr result ((result ≡ Err Refusal.NoMemory) × (out.new.items ≡ out.old.items)) }
{
    let mut text: ArrayVec<u8, ROOM> = ArrayVec::new();
    for finding in findings {
        if let Some(finding) = finding {
            put_finding(line, finding, &mut text);
        }
    }
    append(out, &text)
}

/// Appends the line of a finding, for which there is room.
fn put_finding(line: u64, finding: &Finding, out: &mut ArrayVec<u8, ROOM>)
    requires { length out.old.items + 105 ≤ ROOM }
    ensures items { out.new.items ≡ out.old.items ++ finding_text line finding.now }
    ensures longer { length out.new.items ≤ length out.old.items + 105 }
{
    put(out, b"line ");
    put_number(out, line);
    put(out, b": ");
    put_about(finding, out);
    put(out, b"\n");
}

/// Appends a finding, for which there is room.
fn put_about(finding: &Finding, out: &mut ArrayVec<u8, ROOM>)
    requires { length out.old.items + 77 ≤ ROOM }
    ensures items { out.new.items ≡ out.old.items ++ about finding.now }
    ensures longer { length out.new.items ≤ length out.old.items + 77 }
{
    match finding {
        Finding::Frames { kind, run } => {
            put(out, kind.name().as_bytes());
            put_run(run, out);
        }
        Finding::Flush(no) => {
            put(out, b"flush ");
            put_number(out, *no);
        }
    }
}

/// Appends a finding of frames, for which there is room.
fn put_run(run: &Run, out: &mut ArrayVec<u8, ROOM>)
    requires { length out.old.items + 69 ≤ ROOM }
    ensures items { out.new.items ≡ out.old.items ++ run_text run.now }
    ensures longer { length out.new.items ≤ length out.old.items + 69 }
{
    put(out, b" ");
    put_number(out, run.lo);
    put(out, b" ");
    put_number(out, run.len);
    if let Some(since) = run.since {
        put(out, b" since ");
        put_number(out, since);
    }
}

impl Kind {
    ghost use Rattle.std.specs.Prelude.{◌≤◌, length};

    /// Its name, one word of at most 8 bytes.
    pub fn name(self) -> &'static str
        ensures name { result.now ≡ kind_name self }
        ensures short { length result.now ≤ 8 }
    {
        match self {
            Kind::Outside => "outside",
            Kind::Overlap => "overlap",
            Kind::Reused => "reused",
            Kind::Cut => "cut",
            Kind::Unmapped => "unmapped",
            Kind::Stale => "stale",
            Kind::Wild => "wild",
        }
    }
}
