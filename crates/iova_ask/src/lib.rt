//! A client of a daemon: lines sent over a link, and their answers copied.
#![tactic(auto)]

ghost use Rattle.std.specs.Prelude.{List, ◌≢◌, ◌+◌, ◌^◌, ◌<◌, ◌≤◌, ℕ, [], IfErr, MatchResult, OnOk, length};
ghost use Rattle.std.specs.Io.KnownBytes.{Appends, Consumes};
ghost use Rattle.iova_text.specs.Lines.{IsUnended};
ghost use Rattle.iova_text.specs.Writing.{AppendsFront};
ghost use Rattle.iova_ask.specs.Asking.{Breaks, Sends};
ghost use Rattle.iova_ask.specs.LineRuns.{SendsRun, Copies, CopiesMore, Rests};

mod answers;
mod buffer;
pub mod fault;
mod front;
mod meaning;
pub mod terminal;

use crate::answers::copy_answers;
use crate::buffer::{Buffer, PIECE};
use crate::fault::AskFault;
use crate::front::run_in_front;
use iova_range::limits::{MAX_LINE, MAX_READS};
use iova_session::link::{Link, LinkFault, put_all};
use iova_text::read::{ReadFault, read_some};
use std::alloc::Global;
use std::io::{Read, Write};

/// Sends each line of the input over the link, up to the first `bye`, writes the answers as they
/// come, and gives the number of lines sent; a last line without an LF gets one. Up to 16 whole
/// lines that are at hand go in one write, and no more are under way; each answer is out before the
/// next read of the input.
///
/// Refused by `Read` where a read of the input fails, an interruption too, after 134,217,728 reads,
/// and for a line of more than 128 bytes with its LF, which isn't sent; by `Write` where a write or
/// a flush of the answers fails; by `Link` where the link fails, has a line of an answer of more
/// than 128 bytes, or ends before an answer is whole; by `NoMemory`.
pub fn ask_lines<R: Read, W: Write, L: Link>(
    alloc: Global,
    reader: &mut R,
    writer: &mut W,
    link: &mut L,
) -> Result<u64, AskFault>
    ensures sent { (taken : List ℕ) × Consumes (R.remaining reader.old) (R.remaining reader.new)
        taken
        × Sends taken (R.remaining reader.new) (L.sent link.old) (L.sent link.new) result }
    ensures copied { MatchResult result
        (λ n. (rest : List ℕ) × Copies n (L.left link.old) (L.left link.new)
        (W.contents writer.old) (W.contents writer.new) [] rest)
        (λ _. Breaks (L.left link.old) (L.left link.new) (W.contents writer.old)
        (W.contents writer.new) []) }
{
    let (Ok(mut input), Ok(mut answers)) = (Buffer::new(alloc), Buffer::new(alloc)) else {
        return Err(AskFault::NoMemory);
    };
    let mut piece = [0; PIECE];
    let mut sent = 0;
    'reading: for _ in 0..MAX_READS {
        let len = match read_some(reader, &mut piece) {
            Ok(len) => len,
            Err(ReadFault) => return Err(AskFault::Read),
        };
        if len == 0 {
            return ask_rest(&mut input, writer, link, &mut answers, sent);
        }
        match input.add(&piece[..len]) {
            Ok(()) => {}
            Err(fault) => return Err(fault),
        }
        match ask_whole(&mut input, writer, link, &mut answers, &mut sent) {
            Ok(is_last) => {
                if is_last {
                    return Ok(sent);
                }
            }
            Err(fault) => return Err(fault),
        }
    }
    Err(AskFault::Read)
}

/// Sends the whole lines at hand, up to 16 at a time, and copies their answers. Whether the last
/// one was `bye`.
fn ask_whole<W: Write, L: Link>(
    input: &mut Buffer,
    writer: &mut W,
    link: &mut L,
    answers: &mut Buffer,
    sent: &mut u64,
) -> Result<bool, AskFault>
    requires { sent.old + length input.old < 2 ^ 63 }
    ensures asked { SendsRun input.old input.new sent.old sent.new (L.sent link.old)
        (L.sent link.new) result }
    ensures copied { MatchResult result
        (λ _. CopiesMore sent.old sent.new (L.left link.old) (L.left link.new)
        (W.contents writer.old) (W.contents writer.new) answers.old answers.new)
        (λ _. Breaks (L.left link.old) (L.left link.new) (W.contents writer.old)
        (W.contents writer.new) answers.old) }
    ensures bound { sent.new + length input.new ≤ sent.old + length input.old }
{
    'asking: loop {
        let run = run_in_front(input.as_slice());
        if run.lines == 0 {
            if input.as_slice().len() >= MAX_LINE {
                return Err(AskFault::Read);
            }
            return Ok(false);
        }
        match ask_some(
            &input.as_slice()[..run.len],
            run.lines,
            writer,
            link,
            answers,
        ) {
            Ok(()) => {}
            Err(fault) => return Err(fault),
        }
        input.pass(run.len);
        *sent += run.lines;
        if run.is_last {
            return Ok(true);
        }
    }
}

/// Sends these bytes, which are so many lines, and copies their answers.
fn ask_some<W: Write, L: Link>(
    bytes: &[u8],
    lines: u64,
    writer: &mut W,
    link: &mut L,
    answers: &mut Buffer,
) -> Result<(), AskFault>
    ensures ok { OnOk result (Appends (L.sent link.old) (L.sent link.new) bytes.now) }
    ensures err { IfErr result (λ e. (e ≢ AskFault.Read)
        × AppendsFront (L.sent link.old) (L.sent link.new) bytes.now) }
    ensures copied { MatchResult result
        (λ _. Copies lines (L.left link.old) (L.left link.new)
        (W.contents writer.old) (W.contents writer.new) answers.old answers.new)
        (λ _. Breaks (L.left link.old) (L.left link.new) (W.contents writer.old)
        (W.contents writer.new) answers.old) }
{
    match put_all(link, bytes) {
        Ok(()) => copy_answers(writer, link, answers, lines),
        Err(LinkFault) => Err(AskFault::Link),
    }
}

/// Sends what stands at the end of the input without an LF, which gets one.
fn ask_rest<W: Write, L: Link>(
    input: &mut Buffer,
    writer: &mut W,
    link: &mut L,
    answers: &mut Buffer,
    sent: u64,
) -> Result<u64, AskFault>
    requires unended { IsUnended input.old }
    requires few { sent < 2 ^ 63 }
    ensures asked { Rests input.old sent (L.sent link.old) (L.sent link.new) result }
    ensures copied { MatchResult result
        (λ n. CopiesMore sent n (L.left link.old) (L.left link.new)
        (W.contents writer.old) (W.contents writer.new) answers.old answers.new)
        (λ _. Breaks (L.left link.old) (L.left link.new) (W.contents writer.old)
        (W.contents writer.new) answers.old) }
{
    if input.as_slice().is_empty() {
        return Ok(sent);
    }
    match input.add(b"\n") {
        Ok(()) => {}
        Err(fault) => return Err(fault),
    }
    match ask_some(input.as_slice(), 1, writer, link, answers) {
        Ok(()) => Ok(sent + 1),
        Err(fault) => Err(fault),
    }
}
