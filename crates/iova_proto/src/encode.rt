//! Answers written as their text.
ghost use Rattle.std.specs.Prelude.{◌≡◌, ◌+◌, ◌<◌, ◌≤◌, List, ℕ, ◌++◌, [], OnOk, OnErr, length, vec_len, vec_capacity, flat_map};
ghost use Rattle.iova_proto.specs.Answers.{first_line, range_line, answer_text};

use crate::answer::Answer;
use arrayvec::ArrayVec;
use iova_range::range::Range;
use iova_range::refusal::Refusal;
use iova_text::buffer::{
    LineBuffer, append, put, put_number, put_numbers, put_refusal, put_two_numbers,
};

/// The most bytes of an answer's first line, with its LF: `stat` and eight numbers.
pub const MAX_FIRST_LINE: usize = 173;

/// Appends the answer's text. Refused by `NoMemory`, which appends nothing and comes only where
/// `out` has to grow.
pub fn encode(answer: &Answer, out: &mut Vec<u8>) -> Result<(), Refusal>
    ensures ok { OnOk result (out.new.items ≡ out.old.items ++ answer_text answer.now) }
    ensures err { OnErr result ((result ≡ Err Refusal.NoMemory) × (out.new.items ≡ out.old.items)) }
    ensures full { OnErr result (vec_capacity out.old < vec_len out.old + length
        (answer_text answer.now)) }
{
    let before = out.len();
    let mut line: ArrayVec<u8, MAX_FIRST_LINE> = ArrayVec::new();
    put_first_line(answer, &mut line);
    append(out, &line)?;
    let Answer::Held(ranges) = answer else {
        return Ok(());
    };
    let listed = append_ranges(ranges.as_slice(), out);
    if listed.is_err() {
        out.truncate(before);
    }
    listed
}

/// Appends the first line of the answer's text, with its LF, for which there is room: at most 173
/// bytes. It is all of the text, but for the ranges of `Held`. Takes no memory.
pub fn put_first_line<const CAP: usize>(answer: &Answer, out: &mut ArrayVec<u8, CAP>)
    requires { length out.old.items + MAX_FIRST_LINE ≤ CAP }
    ensures items { out.new.items ≡ out.old.items ++ first_line answer.now }
    ensures short { length out.new.items ≤ length out.old.items + MAX_FIRST_LINE }
{
    match answer {
        Answer::Given(range) => {
            put_two_numbers(out, b"given", range.lo(), range.len());
            out.push(b'\n');
        }
        Answer::Queued(range) => {
            put_two_numbers(out, b"queued", range.lo(), range.len());
            out.push(b'\n');
        }
        _ => put_any_line(answer, out),
    }
}

/// Appends the first line of any answer. Out of line: most answers are ranges.
#[inline(never)]
fn put_any_line<const CAP: usize>(answer: &Answer, out: &mut ArrayVec<u8, CAP>)
    requires { length out.old.items + MAX_FIRST_LINE ≤ CAP }
    ensures items { out.new.items ≡ out.old.items ++ first_line answer.now }
    ensures short { length out.new.items ≤ length out.old.items + MAX_FIRST_LINE }
{
    match answer {
        Answer::Opened(serial) => put_numbers(out, b"opened", &[*serial]),
        Answer::Given(range) => put_two_numbers(out, b"given", range.lo(), range.len()),
        Answer::Queued(range) => put_two_numbers(out, b"queued", range.lo(), range.len()),
        Answer::Freed(range) => put_two_numbers(out, b"freed", range.lo(), range.len()),
        Answer::Held(ranges) => put_numbers(out, b"held", &[ranges.as_slice().len() as u64]),
        Answer::Flushed { no, freed } => put_two_numbers(out, b"flushed", *no, *freed),
        Answer::Stat(stat) => put_numbers(
            out,
            b"stat",
            &[
                stat.free,
                stat.reserved,
                stat.client,
                stat.magazine,
                stat.depot,
                stat.ring,
                stat.start,
                stat.finish,
            ],
        ),
        Answer::Bye => put(out, b"bye"),
        Answer::Refused(refusal) => put_refusal(out, *refusal),
    }
    out.push(b'\n');
}

/// Appends a line for each range. Where memory is refused, those before it are appended.
#[inline(never)]
fn append_ranges(ranges: &[Range], out: &mut Vec<u8>) -> Result<(), Refusal>
    ensures ok { OnOk result (out.new.items ≡ out.old.items ++ flat_map range_line ranges.now) }
    ensures err { OnErr result ((result ≡ Err Refusal.NoMemory)
        × ((more : List ℕ) × (out.new.items ≡ out.old.items ++ more))) }
    ensures full { OnErr result (vec_capacity out.old < vec_len out.old + length
        (flat_map range_line ranges.now)) }
{
    for range in ranges {
        let mut line = LineBuffer::new();
        put_range(*range, &mut line);
        append(out, &line)?;
    }
    Ok(())
}

fn put_range(range: Range, out: &mut LineBuffer)
    requires { out.old.items ≡ [] }
    ensures { out.new.items ≡ range_line range }
{
    put_number(out, range.lo());
    put_numbers(out, b"", &[range.len()]);
    put(out, b"\n");
}
