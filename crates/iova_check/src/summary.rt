//! The counts of a log, written.
ghost use Rattle.std.specs.Prelude.{◌≡◌, ◌+◌, ◌≤◌, ◌++◌, length};
ghost use Rattle.iova_check.specs.Summary.{name_text, number_text, field_text, summary_text};

use crate::checker::Checker;
use crate::finding::Kind;
use crate::scan::count_frames;
use arrayvec::ArrayVec;
use iova_text::buffer::put;
use itoa::Buffer;

/// How many places a name has.
const NAME: usize = 10;

/// How many places a number has, enough for each of 64 bits.
const NUMBER: usize = 20;

/// The bytes of the eight lines.
const ROOM: usize = 248;

const SPACES: [u8; NUMBER] = [b' '; NUMBER];

/// Eight lines of a name and a number: the lines of each kind, the frames that are mapped and stale
/// at the end, the findings, and the lines of the log, its header among them. Names are left in 10
/// places, numbers right in 20.
pub fn summary(checker: &Checker) -> ArrayVec<u8, ROOM>
    ensures { result.items ≡ summary_text checker.now }
{
    let counts = checker.counts;
    let stages = &checker.tracker.stages;
    let mut out = ArrayVec::new();
    put_field(&mut out, b"maps", counts.maps);
    put_field(&mut out, b"unmaps", counts.unmaps);
    put_field(&mut out, b"flushes", counts.flushes);
    put_field(&mut out, b"uses", counts.uses);
    put_field(&mut out, b"mapped", count_frames(stages, Kind::Overlap));
    put_field(&mut out, b"stale", count_frames(stages, Kind::Stale));
    put_field(&mut out, b"findings", counts.findings);
    put_field(&mut out, b"lines", checker.tracker.line.saturating_sub(1));
    out
}

fn put_field(out: &mut ArrayVec<u8, ROOM>, name: &[u8], number: u64)
    requires name { length name.now ≤ NAME }
    requires fits { length out.old.items + 31 ≤ ROOM }
    ensures items { out.new.items ≡ out.old.items ++ field_text name.now number }
    ensures len { length out.new.items ≡ length out.old.items + 31 }
{
    put_name(out, name);
    put_number(out, number);
    put(out, b"\n");
}

fn put_name(out: &mut ArrayVec<u8, ROOM>, name: &[u8])
    requires name { length name.now ≤ NAME }
    requires fits { length out.old.items + NAME ≤ ROOM }
    ensures items { out.new.items ≡ out.old.items ++ name_text name.now }
    ensures len { length out.new.items ≡ length out.old.items + NAME }
{
    put(out, name);
    put(out, &SPACES[..NAME - name.len()]);
}

fn put_number(out: &mut ArrayVec<u8, ROOM>, number: u64)
    requires { length out.old.items + NUMBER ≤ ROOM }
    ensures items { out.new.items ≡ out.old.items ++ number_text number }
    ensures len { length out.new.items ≡ length out.old.items + NUMBER }
{
    let mut buffer = Buffer::new();
    let digits = buffer.format(number).as_bytes();
    put(out, &SPACES[..NUMBER - digits.len()]);
    put(out, digits);
}
