//! The sessions of tests/sessions at one post, one after another, over a book: how each of them
//! ends, and that the client that waits meanwhile is ended by the round behind them.
ghost use Rattle.iova_range.specs.declared.limits.TheConstants.{TALLY_PARTS};
ghost use Rattle.iova_keep.specs.Views.{AreBlanksOf};

use crate::session_files::SESSIONS;
use iova_keep::ending::{Ending, Why};
use iova_keep::keep::Keep;
use iova_keep::ledgers::Blanks;
use iova_keep::names::Names;
use iova_keep::seat::Seat;
use iova_lock::book::Book;
use iova_model::totals::Totals;
use iova_range::bounds::Bounds;
use iova_range::limits::TALLY_PARTS;
use iova_range::profile::Profile;
use iova_range::refusal::Refusal;
use iova_session::memory_link::MemoryLink;
use iova_session::post::Post;
use iova_session::retry::retry;
use iova_session::run::run_session;
use iova_sink::memory::MemorySink;
use std::alloc::Global;
use std::marker::Brand;
use std::test::*;

const NONE_HELD: Option<Ending> = Some(Ending::Ended(0));

/// The result of the end of each session's client. The first client that holds a range is that of
/// `ends_without_newline`, with frame 9: the sink refuses that it is gone. So `in_one_hold`, which
/// asks for frames up to 9, is given 8 and 7.
const CLIENTS: [Option<Ending>; 12] = [
    NONE_HELD,
    NONE_HELD,
    None,
    None,
    Some(Ending::Waiting(1, Why::SinkFailed)),
    None,
    NONE_HELD,
    Some(Ending::Ended(2)),
    None,
    NONE_HELD,
    None,
    NONE_HELD,
];

const NOTHING: Totals = Totals {
    count: 0,
    frames: 0,
    sum_lo: 0,
};

/// The result of the sessions: how many of them ended as they should; and after the round of tries
/// behind them how many clients wait, and what the domain's clients hold.
#[derive(Clone, Copy)]
struct Outcome {
    as_expected: usize,
    left: u64,
    held: Totals,
}

/// All sessions at this post, and then a round of tries. The sink fails in its first call, which is
/// that of the first client that holds a range.
fn serve_all<B: Names, K: Keep<B>>(alloc: Global, keeper: &mut K, post: &mut Post<B>) -> Outcome {
    let mut sink = MemorySink::new(1);
    let mut as_expected = 0usize;
    for (at, session) in SESSIONS.iter().enumerate() {
        let mut link = MemoryLink::new(alloc, session.input, 7, 0);
        let ended = run_session(alloc, &mut link, keeper, post, &mut sink);
        if at < 12 && ended.end == session.end && ended.client == CLIENTS[at] {
            as_expected = as_expected.saturating_add(1);
        }
    }
    let left = retry(keeper, post, &mut sink);
    Outcome {
        as_expected,
        left,
        held: keeper.totals(),
    }
}

/// Serves all sessions at the post of this seat.
fn all_at<B: Names, K: Keep<B> + Drop>(alloc: Global, mut keeper: K, seat: Seat<B>) -> Outcome {
    let mut post = Post::new(alloc, seat);
    serve_all(alloc, &mut keeper, &mut post)
}

/// Serves all sessions over a book of a fresh domain 0 with frames 1 to 1023 and one worker.
fn in_book<B: Names>(alloc: Global, blanks: Blanks) -> Result<Outcome, Refusal>
    requires blanks { AreBlanksOf blanks B.ledgers 1 TALLY_PARTS 1 }
{
    let bounds = Bounds::new_in(Profile::one(), 1, 1023)?;
    let (book, mut seats) = Book::<B>::new(alloc, 0, bounds, 1, blanks)?;
    let Some(seat) = seats.pop() else {
        return Err(Refusal::NoWorker);
    };
    Ok(all_at(alloc, book, seat))
}

fn in_new_book(alloc: Global) -> Result<Outcome, Refusal> {
    in_book::<Brand>(alloc, Blanks::new(1, TALLY_PARTS))
}

#[test]
fn sessions_one_after_another(rt: HostRuntime) {
    let Ok(outcome) = in_new_book(rt.alloc()) else {
        panic!(rt; "no memory");
    };
    assert_eq!(rt; outcome.as_expected, 12);
    assert_eq!(rt; outcome.left, 0);
    assert!(rt; outcome.held == NOTHING);
}
