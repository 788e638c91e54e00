//! Requests asked, and their answers written.
ghost use Rattle.std.specs.Prelude.{◌≡◌, ℕ, ◌+◌, ◌≤◌, ◌++◌, List, OnOk, IfErr, ◌⊎◌, [], IsTrue, length};
ghost use Rattle.std.specs.Io.KnownBytes.{Appends};
ghost use Rattle.iova_proto.specs.Answers.{answer_text, first_line};
ghost use Rattle.iova_text.specs.Writing.{AppendsFront};
ghost use Rattle.iova_session.specs.Pairs.{Pair, answers_text};
ghost use Rattle.iova_session.specs.Sessions.{failures_at, ends_at};
ghost use Rattle.iova_session.specs.Rounds.{AsksRun, IsCut, CountsFault};

use crate::desk::Desk;
use crate::end::End;
use crate::link::{Link, LinkFault, put_all};
use arrayvec::ArrayVec;
use iova_proto::answer::Answer;
use iova_proto::encode::{MAX_FIRST_LINE, encode, put_first_line};
use iova_proto::request::Request;
use iova_range::limits::MAX_RUN;
use std::alloc::Global;

/// Room for the text of the answers to a run, which has some 320 bytes; several `stat`s have more.
/// It lies on the thread's stack.
const RUN_TEXT: usize = 1024;

/// Room for the answers to a run, and for their text.
#[derive(Drop)]
pub(crate) struct AnswerRoom {
    pub(crate) answers: Vec<Answer>,
    /// The text of answers of which each is one line, where there is room.
    pub(crate) text: ArrayVec<u8, RUN_TEXT>,
    /// The text of any answers, which takes memory once there is a list among them, or no room.
    pub(crate) lists: Vec<u8>,
}

impl AnswerRoom {
    /// Room for the answers to one run, and for their text where each is one line. None for want of
    /// memory.
    pub(crate) fn new(alloc: Global) -> Option<AnswerRoom> {
        Some(AnswerRoom {
            answers: Vec::with_capacity(alloc, MAX_RUN).ok()?,
            text: ArrayVec::new(),
            lists: Vec::new(alloc),
        })
    }
}

/// Asks all of the requests, in runs as the desk takes them, and writes the answers to each run
/// before the next.
pub(crate) fn ask_all<L: Link, D: Desk>(
    link: &mut L,
    desk: &mut D,
    run: &[Request],
    room: &mut AnswerRoom,
) -> Result<(), End>
    requires { length run.now ≤ MAX_RUN }
    ensures left { L.left link.new ≡ L.left link.old }
    ensures reads { L.reads link.new ≡ L.reads link.old }
    ensures ends { L.ends link.new ≡ L.ends link.old }
    ensures failures { CountsFault result (L.failures link.old) (L.failures link.new) }
    ensures asked { (ps : List Pair) × (written : List ℕ)
        × (D.pairs desk.new ≡ D.pairs desk.old ++ ps)
        × Appends (L.sent link.old) (L.sent link.new) written × AsksRun run.now ps written result }
{
    let mut asked = 0;
    'asking: while asked < run.len() {
        // nothing, but where the last run's answers were not written
        room.answers.clear();
        match desk.ask_run(&run[asked..], &mut room.answers) {
            Ok(n) => asked += n,
            Err(_) => return Err(End::NoMemory),
        }
        tell(
            link,
            room.answers.as_slice(),
            &mut room.text,
            &mut room.lists,
        )?;
        // while they are in the processor's cache, which they leave before the next run
        room.answers.clear();
    }
    Ok(())
}

/// Writes the answers' texts, together.
fn tell<L: Link>(
    link: &mut L,
    answers: &[Answer],
    text: &mut ArrayVec<u8, RUN_TEXT>,
    lists: &mut Vec<u8>,
) -> Result<(), End>
    ensures left { L.left link.new ≡ L.left link.old }
    ensures reads { L.reads link.new ≡ L.reads link.old }
    ensures ends { L.ends link.new ≡ L.ends link.old }
    ensures failures { CountsFault result (L.failures link.old) (L.failures link.new) }
    ensures ok { OnOk result (Appends (L.sent link.old) (L.sent link.new)
        (answers_text answers.now)) }
    ensures err { IfErr result (λ e. IsCut e
        × AppendsFront (L.sent link.old) (L.sent link.new) (answers_text answers.now)) }
{
    text.clear();
    if !put_lines(answers, text) {
        return tell_any(link, answers, lists);
    }
    match put_all(link, text.as_slice()) {
        Ok(()) => Ok(()),
        Err(LinkFault) => Err(End::LinkFault),
    }
}

/// Writes any answers. Out of line.
#[inline(never)]
fn tell_any<L: Link>(link: &mut L, answers: &[Answer], out: &mut Vec<u8>) -> Result<(), End>
    ensures left { L.left link.new ≡ L.left link.old }
    ensures reads { L.reads link.new ≡ L.reads link.old }
    ensures ends { L.ends link.new ≡ L.ends link.old }
    ensures failures { CountsFault result (L.failures link.old) (L.failures link.new) }
    ensures ok { OnOk result (Appends (L.sent link.old) (L.sent link.new)
        (answers_text answers.now)) }
    ensures err { IfErr result (λ e. IsCut e
        × AppendsFront (L.sent link.old) (L.sent link.new) (answers_text answers.now)) }
{
    out.clear();
    for answer in answers {
        if encode(answer, out).is_err() {
            return Err(End::NoMemory);
        }
    }
    match put_all(link, out.as_slice()) {
        Ok(()) => Ok(()),
        Err(LinkFault) => Err(End::LinkFault),
    }
}

/// Puts the answers' texts together where each is one line and there is room for all: whether that
/// is so.
fn put_lines(answers: &[Answer], text: &mut ArrayVec<u8, RUN_TEXT>) -> bool
    requires { text.old.items ≡ [] }
    ensures { IsTrue result → text.new.items ≡ answers_text answers.now }
{
    for answer in answers {
        if text.len() > RUN_TEXT - MAX_FIRST_LINE {
            return false;
        }
        if !is_one_line(answer) {
            return false;
        }
        put_first_line(answer, text);
    }
    true
}

/// Whether the answer's text is one line.
fn is_one_line(answer: &Answer) -> bool
    ensures { IsTrue result → answer_text answer.now ≡ first_line answer.now }
{
    match answer {
        Answer::Held(_) => false,
        _ => true,
    }
}

/// Writes the line that a session ends by, and gives that end.
pub(crate) fn refuse<L: Link>(link: &mut L, line: &[u8], end: End) -> End
    requires whole { failures_at end ≡ 0 }
    requires open { ends_at end ≡ 0 }
    ensures left { L.left link.new ≡ L.left link.old }
    ensures reads { L.reads link.new ≡ L.reads link.old }
    ensures ends { L.ends link.new ≡ L.ends link.old }
    ensures failures { L.failures link.new ≡ L.failures link.old + failures_at result }
    ensures open { ends_at result ≡ 0 }
    ensures told { ((result ≡ end) × Appends (L.sent link.old) (L.sent link.new) line.now)
        ⊎ ((result ≡ End.LinkFault) × AppendsFront (L.sent link.old) (L.sent link.new) line.now) }
{
    match put_all(link, line) {
        Ok(()) => end,
        Err(LinkFault) => End::LinkFault,
    }
}
