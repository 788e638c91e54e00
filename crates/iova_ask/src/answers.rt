//! Answers copied from a link to a writer.
ghost use Rattle.std.specs.Prelude.{◌≡◌, ◌≢◌, ◌<◌, ◌≤◌, ◌+◌, [], ◌∷◌, ℕ, List, IfErr, IfOk, MatchResult, OnErr, OnOk, drop, length, take};
ghost use Rattle.std.specs.Io.KnownBytes.{Appends, Consumes};
ghost use Rattle.iova_ask.specs.Answers.{HasLinesAfter, IsAnswered, LeavesOwed};
ghost use Rattle.iova_ask.specs.Asking.{Breaks, IsLine};
ghost use Rattle.iova_ask.specs.LineRuns.{Copies};

use crate::buffer::{Buffer, PIECE};
use crate::fault::AskFault;
use iova_range::limits::MAX_LINE;
use iova_session::link::{Link, LinkFault};
use iova_text::line::cut_line;
use iova_text::number::number;
use iova_text::write::write_all;
use std::io::Write;

/// What is still to come of answers.
#[derive(Clone, Copy)]
pub(crate) struct Owed {
    /// Lines that go on an answer that has begun.
    pub ranges: u64,
    /// Answers that haven't begun.
    pub answers: u64,
}

/// Copies so many answers, as they come: what is at hand is written before each read.
pub(crate) fn copy_answers<W: Write, L: Link>(
    writer: &mut W,
    link: &mut L,
    held: &mut Buffer,
    answers: u64,
) -> Result<(), AskFault>
    ensures copied { MatchResult result
        (λ _. Copies answers (L.left link.old) (L.left link.new)
        (W.contents writer.old) (W.contents writer.new) held.old held.new)
        (λ _. Breaks (L.left link.old) (L.left link.new) (W.contents writer.old)
        (W.contents writer.new) held.old) }
    ensures sent { L.sent link.new ≡ L.sent link.old }
    ensures fault { IfErr result (λ e. e ≢ AskFault.Read) }
{
    let mut piece = [0; PIECE];
    let mut owed = Owed { ranges: 0, answers };
    'copying: for _ in 0..u64::MAX {
        let (len, next) = answered(held.as_slice(), owed);
        owed = next;
        match write_held(writer, held, len) {
            Ok(()) => {}
            Err(fault) => return Err(fault),
        }
        if owed.ranges == 0 && owed.answers == 0 {
            return Ok(());
        }
        if held.as_slice().len() >= MAX_LINE {
            return Err(AskFault::Link);
        }
        let len = match read_link(link, &mut piece) {
            Ok(len) => len,
            Err(fault) => return Err(fault),
        };
        match held.add(&piece[..len]) {
            Ok(()) => {}
            Err(fault) => return Err(fault),
        }
    }
    Err(AskFault::Link)
}

/// Writes the first `len` bytes that are held, and uses them up.
fn write_held<W: Write>(writer: &mut W, held: &mut Buffer, len: usize) -> Result<(), AskFault>
    requires { len ≤ length held.old }
    ensures ok { OnOk result (Appends (W.contents writer.old) (W.contents writer.new)
        (take len held.old)) }
    ensures held { OnOk result (held.new ≡ drop len held.old) }
    ensures err { OnErr result
        ((n : ℕ) × Appends (W.contents writer.old) (W.contents writer.new)
        (take n (take len held.old))) }
    ensures fault { IfErr result (λ e. e ≢ AskFault.Read) }
{
    if len == 0 {
        return Ok(());
    }
    match write_all(writer, &held.as_slice()[..len]) {
        Ok(()) => {
            held.pass(len);
            Ok(())
        }
        Err(_) => Err(AskFault::Write),
    }
}

/// Reads once, and gives how many bytes came, at least one. The end is a fault.
fn read_link<L: Link>(link: &mut L, piece: &mut [u8]) -> Result<usize, AskFault>
    ensures ok { IfOk result (λ len. Consumes (L.left link.old) (L.left link.new)
        (take len piece.new)) }
    ensures bound { IfOk result (λ len. len ≤ length piece.new) }
    ensures err { IfErr result (λ e. (e ≡ AskFault.Link)
        × ((got : List ℕ) × Consumes (L.left link.old) (L.left link.new) got)) }
    ensures sent { L.sent link.new ≡ L.sent link.old }
{
    match link.read(piece) {
        Ok(len) => if len == 0 {
            Err(AskFault::Link)
        } else {
            Ok(len)
        },
        Err(LinkFault) => Err(AskFault::Link),
    }
}

/// How many of the bytes are whole lines of what is owed, and what is owed after them. A line of
/// more than 128 bytes ends the count.
fn answered(bytes: &[u8], owed: Owed) -> (usize, Owed)
    ensures { IsAnswered bytes.now owed result.0 result.1 }
{
    let mut rest = bytes;
    let mut len = 0;
    let mut left = owed;
    while left.ranges > 0 || left.answers > 0 {
        let Some((line, after)) = cut_line(rest) else {
            return (len, left);
        };
        if line.len() >= MAX_LINE {
            return (len, left);
        }
        len += line.len() + 1;
        rest = after;
        left = after_line(left, line);
    }
    (len, left)
}

/// What is owed after this line.
fn after_line(owed: Owed, line: &[u8]) -> Owed
    requires some { 1 ≤ owed.ranges + owed.answers }
    requires line { IsLine line.now }
    ensures { LeavesOwed owed (line.now ∷ []) result }
{
    if owed.ranges > 0 {
        Owed {
            ranges: owed.ranges - 1,
            answers: owed.answers,
        }
    } else {
        Owed {
            ranges: ranges_of(line),
            answers: owed.answers - 1,
        }
    }
}

/// How many lines go on an answer that begins with this line: `n` after `held n`, and none after
/// any other.
fn ranges_of(line: &[u8]) -> u64
    ensures { HasLinesAfter line.now result }
{
    match line.strip_prefix(b"held ".as_slice()) {
        Some(digits) => number(digits).unwrap_or(0),
        None => 0,
    }
}
