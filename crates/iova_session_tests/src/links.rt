//! Sessions over a desk of their own, which takes runs of any length and refuses one, and a link
//! that gives many lines a read. Over links that are cut or fail, sockets and limits they are seen
//! on the program (tests/run_links).
ghost use Rattle.std.specs.Prelude.{◌≡◌, ◌≤◌, ◌+◌, ◌++◌, List, None, length, vec_len, vec_capacity};
ghost use Rattle.iova_session.specs.Pairs.{Pair, requests_of, answers_of};

use arrayvec::ArrayVec;
use iova_proto::answer::Answer;
use iova_proto::request::Request;
use iova_range::refusal::Refusal;
use iova_session::desk::Desk;
use iova_session::end::End;
use iova_session::link::{Link, LinkFault};
use iova_session::pairs::Pairs;
use iova_session::serve::serve;
use iova_sink::count::Count;
use std::alloc::Global;
use std::test::*;

// Answers `bye` by `Bye` and all else by `no 3 NoClient`. It takes at most `most` requests in a
// run, at least one, and refuses its `fail_at`-th run (0: none).
#[derive(Drop)]
struct PlainDesk {
    most: usize,
    fail_at: u64,
    runs: u64,
    pairs: Pairs,
}

impl PlainDesk {
    fn new(most: usize, fail_at: u64) -> PlainDesk {
        PlainDesk {
            most,
            fail_at,
            runs: 0,
            pairs: Pairs::new(),
        }
    }
}

fn answer_of(request: Request) -> Answer {
    match request {
        Request::Bye => Answer::Bye,
        _ => Answer::Refused(Refusal::NoClient),
    }
}

// Answers all of the requests, for whose answers there is room.
fn answer_all(pairs: &mut Pairs, requests: &[Request], answers: &mut Vec<Answer>)
    requires { vec_len answers.old + length requests.now ≤ vec_capacity answers.old }
    ensures { (ps : List Pair) × (pairs.new ≡ pairs.old ++ ps) × (requests_of ps ≡ requests.now)
        × (answers.new.items ≡ answers.old.items ++ answers_of ps) }
{
    for request in requests {
        let answer = answer_of(*request);
        pairs.add(*request, &answer);
        match answers.push(answer) {
            Ok(()) => {}
            Err(_) => unreachable!(),
        }
    }
}

impl Desk for PlainDesk {
    ghost pairs = { λ d. d.pairs };

    fn ask_run(
        &mut self,
        requests: &[Request],
        answers: &mut Vec<Answer>,
    ) -> Result<usize, Refusal> {
        self.runs = self.runs.saturating_add(1);
        let n = requests.len().min(self.most.max(1));
        if self.runs == self.fail_at || answers.reserve(n).is_err() {
            return Err(Refusal::NoMemory);
        }
        answer_all(&mut self.pairs, &requests[..n], answers);
        Ok(n)
    }
}

/// Gives so many lines in a read, or those that are left, and fails where one that it gave hasn't
/// been answered. It tells how many lines it gave, how many answers came, and what was written, of
/// which it keeps 8,192 bytes at most. It takes no memory.
#[derive(Drop)]
pub(crate) struct ByLines<'a> {
    input: &'a [u8],
    at_once: usize,
    pub(crate) lines: u64,
    pub(crate) answers: u64,
    pub(crate) sent: ArrayVec<u8, 8192>,
    calls: Count,
    reads: Count,
    failed: Count,
    ended: Count,
}

impl<'a> ByLines<'a> {
    pub(crate) fn new(input: &'a [u8], at_once: usize) -> ByLines<'a> {
        ByLines {
            input,
            at_once,
            lines: 0,
            answers: 0,
            sent: ArrayVec::new(),
            calls: Count::new(),
            reads: Count::new(),
            failed: Count::new(),
            ended: Count::new(),
        }
    }
}

// How many bytes the first lines take, at most so many, and how many there are.
fn whole_lines(input: &[u8], most: usize) -> (usize, u64) {
    let (mut end, mut lines) = (0, 0u64);
    for (i, byte) in input.iter().enumerate() {
        if *byte == b'\n' && lines < most as u64 {
            (end, lines) = (i + 1, lines.saturating_add(1));
        }
    }
    (end, lines)
}

// How many answers begin here: a line of a number is one of the ranges of `held`.
fn answers_in(bytes: &[u8]) -> u64 {
    let mut answers = 0u64;
    let mut is_first = true;
    for byte in bytes {
        if is_first && !byte.is_ascii_digit() {
            answers = answers.saturating_add(1);
        }
        is_first = *byte == b'\n';
    }
    answers
}

impl<'a> Link for ByLines<'a> {
    ghost left = { λ l. None };

    ghost sent = { λ l. None };

    ghost calls = { λ l. l.calls };

    ghost reads = { λ l. l.reads };

    ghost failures = { λ l. l.failed };

    ghost ends = { λ l. l.ended };

    fn read(&mut self, buf: &mut [u8]) -> Result<usize, LinkFault> {
        self.calls.up();
        self.reads.up();
        if self.answers != self.lines {
            self.failed.up();
            return Err(LinkFault);
        }
        let (whole, lines) = whole_lines(self.input, self.at_once);
        let n = whole.min(buf.len()).min(self.input.len());
        let (front, rest) = self.input.split_at(n);
        buf[..n].copy_from_slice(front);
        self.input = rest;
        self.lines = self.lines.saturating_add(lines);
        if n == 0 && !buf.is_empty() {
            self.ended.up();
        }
        Ok(n)
    }

    fn write(&mut self, bytes: &[u8]) -> Result<usize, LinkFault> {
        self.calls.up();
        if self.sent.try_extend_from_slice(bytes).is_err() {
            self.failed.up();
            return Err(LinkFault);
        }
        if bytes.ends_with(b"\n") {
            self.answers = self.answers.saturating_add(answers_in(bytes));
        }
        Ok(bytes.len())
    }
}

// 120 requests, and `bye`.
const LISTS: &[u8] = b"\
    list\nlist\nlist\nlist\nlist\nlist\nlist\nlist\nlist\nlist\nlist\nlist\n\
    list\nlist\nlist\nlist\nlist\nlist\nlist\nlist\nlist\nlist\nlist\nlist\n\
    list\nlist\nlist\nlist\nlist\nlist\nlist\nlist\nlist\nlist\nlist\nlist\n\
    list\nlist\nlist\nlist\nlist\nlist\nlist\nlist\nlist\nlist\nlist\nlist\n\
    list\nlist\nlist\nlist\nlist\nlist\nlist\nlist\nlist\nlist\nlist\nlist\n\
    list\nlist\nlist\nlist\nlist\nlist\nlist\nlist\nlist\nlist\nlist\nlist\n\
    list\nlist\nlist\nlist\nlist\nlist\nlist\nlist\nlist\nlist\nlist\nlist\n\
    list\nlist\nlist\nlist\nlist\nlist\nlist\nlist\nlist\nlist\nlist\nlist\n\
    list\nlist\nlist\nlist\nlist\nlist\nlist\nlist\nlist\nlist\nlist\nlist\n\
    list\nlist\nlist\nlist\nlist\nlist\nlist\nlist\nlist\nlist\nlist\nlist\n\
    bye\n";

// How a session ends in which so many lines come in a read, none of them before those that came are
// answered, at a desk that takes so many requests in a run, and refuses one; and how many answers
// there are.
fn served(alloc: Global, lines: usize, run: usize, fail_at: u64) -> (End, u64) {
    let mut link = ByLines::new(LISTS, lines);
    let mut desk = PlainDesk::new(run, fail_at);
    let end = serve(alloc, &mut link, &mut desk);
    (end, link.answers)
}

#[test]
fn sessions_over_a_desk(rt: HostRuntime) {
    for lines in [1usize, 16, 17, 40] {
        for run in [1usize, 3, 16] {
            let seen = served(rt.alloc(), lines, run, 0);
            assert_eq!(rt; seen, (End::Bye, 121), "{lines} lines a read, run {run}");
            for fail_at in 1..=8u64 {
                let (end, answers) = served(rt.alloc(), lines, run, fail_at);
                let most = (run as u64).saturating_mul(fail_at - 1);
                assert!(rt;
                    end == End::NoMemory && answers <= most,
                    "{lines} lines a read, run {run}, fail_at {fail_at}"
                );
            }
        }
    }
}
