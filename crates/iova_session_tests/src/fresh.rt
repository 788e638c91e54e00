//! One session at a post of a fresh domain 0, for tests: over a book, and under a lock.
ghost use Rattle.iova_range.specs.declared.limits.TheConstants.{TALLY_PARTS};
ghost use Rattle.iova_keep.specs.Views.{AreBlanksOf};

use iova_keep::keep::Keep;
use iova_keep::ledgers::Blanks;
use iova_keep::names::Names;
use iova_keep::seat::Seat;
use iova_lock::book::Book;
use iova_lock::shared::Shared;
use iova_model::place::Place;
use iova_model::totals::Totals;
use iova_range::bounds::Bounds;
use iova_range::limits::{MAX_PAIRS, MAX_WORKERS, TALLY_PARTS};
use iova_range::profile::Profile;
use iova_range::refusal::Refusal;
use iova_range::stat::Stat;
use iova_session::link::Link;
use iova_session::post::Post;
use iova_session::retry::retry;
use iova_session::run::{SessionEnd, run_session};
use iova_sink::memory::MemorySink;
use iova_sink::sink::Sink;
use std::alloc::Global;
use std::marker::Brand;
use std::sync::Wait;

/// The domain that a session is served on, at the seat of its last worker.
#[derive(Clone, Copy)]
pub(crate) struct Setup {
    /// Whether it is under a lock.
    pub(crate) is_locked: bool,
    pub(crate) bounds: (u64, u64),
    /// The depot of the second profile; 0: it is of the first one.
    pub(crate) depot: u64,
    pub(crate) workers: u64,
    pub(crate) strict: bool,
    /// How many of its steps are recorded; 0: it isn't recorded.
    pub(crate) pairs: usize,
    /// Whether a flush of the first worker is in flight meanwhile.
    pub(crate) in_flight: bool,
    /// The frame whose place is looked up.
    pub(crate) frame: u64,
}

/// The result of a session: its end, the seat's shares and the domain's numbers then, how many
/// clients wait, and whether there was room on their list. How many wait still once they were tried
/// with a sink that fails, and how many once they were tried with the session's own, with the
/// shares and the numbers then.
///
/// Of a domain under a lock what is left of it: the gathered totals, the frame's place, its
/// clients, whether it is still recorded, and how many steps are.
#[derive(Clone, Copy)]
pub(crate) struct Seen {
    pub(crate) end: SessionEnd,
    pub(crate) shares: Totals,
    pub(crate) stat: Stat,
    pub(crate) waiting: u64,
    pub(crate) has_room: bool,
    pub(crate) kept: u64,
    pub(crate) left: u64,
    pub(crate) left_shares: Totals,
    pub(crate) left_stat: Stat,
    pub(crate) gathered: Totals,
    pub(crate) place: Option<Place>,
    pub(crate) clients: u64,
    pub(crate) recording: bool,
    pub(crate) steps: u64,
}

/// One session on a fresh domain. What is recorded of a domain under a lock is appended to `text`.
pub(crate) fn at_post<R: Wait, L: Link, D: Sink>(
    rt: &R,
    alloc: Global,
    setup: &Setup,
    link: &mut L,
    sink: &mut D,
    text: &mut Vec<u8>,
) -> Result<Seen, Refusal> {
    let workers = setup.workers;
    if workers == 0 || workers > MAX_WORKERS {
        return Err(Refusal::NoWorker);
    }
    let profile = if setup.depot == 0 {
        Profile::one()
    } else {
        Profile::two(setup.depot)?
    };
    let bounds = Bounds::new_in(profile, setup.bounds.0, setup.bounds.1)?;
    if setup.is_locked {
        in_shared::<R, Brand, L, D>(
            rt,
            alloc,
            setup,
            bounds,
            workers,
            Blanks::new(workers, TALLY_PARTS),
            link,
            sink,
            text,
        )
    } else {
        in_book::<Brand, L, D>(
            alloc,
            setup,
            bounds,
            workers,
            Blanks::new(workers, TALLY_PARTS),
            link,
            sink,
        )
    }
}

fn in_book<B: Names, L: Link, D: Sink>(
    alloc: Global,
    setup: &Setup,
    bounds: Bounds,
    workers: u64,
    blanks: Blanks,
    link: &mut L,
    sink: &mut D,
) -> Result<Seen, Refusal>
    requires blanks { AreBlanksOf blanks B.ledgers workers TALLY_PARTS workers }
{
    let (book, mut seats) = if setup.pairs > 0 {
        Book::<B>::recorded(
            alloc,
            0,
            bounds,
            workers,
            setup.pairs.min(MAX_PAIRS),
            blanks,
        )?
    } else {
        Book::<B>::new(alloc, 0, bounds, workers, blanks)?
    };
    let book = if setup.strict { book.strict() } else { book };
    let seen = session_at(alloc, book, &mut seats, setup.in_flight, link, sink);
    drop(seats);
    seen
}

/// A fresh domain 0 under a lock, and a seat for each worker.
pub(crate) fn new_shared<Q: Drop, B: Names>(
    rt: Q,
    alloc: Global,
    kind: (bool, usize),
    bounds: Bounds,
    workers: u64,
    blanks: Blanks,
) -> Result<(Shared<Q, B>, Vec<Seat<B>>), Refusal>
    requires blanks { AreBlanksOf blanks B.ledgers workers TALLY_PARTS workers }
{
    let (strict, pairs) = kind;
    let (shared, seats) = if pairs > 0 {
        Shared::<Q, B>::recorded(rt, alloc, 0, bounds, workers, pairs.min(MAX_PAIRS), blanks)?
    } else {
        Shared::<Q, B>::new(rt, alloc, 0, bounds, workers, blanks)?
    };
    let shared = if strict { shared.strict() } else { shared };
    Ok((shared, seats))
}

fn in_shared<R: Wait, B: Names, L: Link, D: Sink>(
    rt: &R,
    alloc: Global,
    setup: &Setup,
    bounds: Bounds,
    workers: u64,
    blanks: Blanks,
    link: &mut L,
    sink: &mut D,
    text: &mut Vec<u8>,
) -> Result<Seen, Refusal>
    requires blanks { AreBlanksOf blanks B.ledgers workers TALLY_PARTS workers }
{
    let (shared, mut seats) = new_shared::<&R, B>(
        rt,
        alloc,
        (setup.strict, setup.pairs),
        bounds,
        workers,
        blanks,
    )?;
    let seen = session_at(alloc, &shared, &mut seats, setup.in_flight, link, sink);
    let seen = after(&shared, seats, text, seen);
    let domain = shared.into_domain();
    let (place, clients) = (domain.place(setup.frame), domain.clients() as u64);
    drop(domain);
    match seen {
        Ok(seen) => Ok(Seen {
            place,
            clients,
            ..seen
        }),
        Err(refusal) => Err(refusal),
    }
}

/// What the seats are gathered to, and what was recorded. Refused by `NotHeld` where a seat is
/// missing.
fn after<Q: Wait, B: Names>(
    shared: &Shared<Q, B>,
    seats: Vec<Seat<B>>,
    text: &mut Vec<u8>,
    seen: Result<Seen, Refusal>,
) -> Result<Seen, Refusal> {
    let Ok(gathered) = shared.gather(seats) else {
        return Err(Refusal::NotHeld);
    };
    let recording = shared.recording();
    let steps = shared.transcript(text)?;
    Ok(Seen {
        gathered,
        recording,
        steps,
        ..seen?
    })
}

/// One session at the last of the seats. By value, so that the keeper is lent whatever it is.
fn session_at<B: Names, K: Keep<B> + Drop, L: Link, D: Sink>(
    alloc: Global,
    mut keeper: K,
    seats: &mut Vec<Seat<B>>,
    in_flight: bool,
    link: &mut L,
    sink: &mut D,
) -> Result<Seen, Refusal> {
    let Some(seat) = seats.pop() else {
        return Err(Refusal::NoWorker);
    };
    let mut post = Post::new(alloc, seat);
    let seen = one_session(alloc, &mut keeper, &mut post, seats, in_flight, link, sink);
    seats.push(post.into_seat()).or(Err(Refusal::NoMemory))?;
    Ok(seen)
}

/// Serves a session, beside a flush of the first seat where one is to be in flight, and then tries
/// the clients that wait: with a sink that fails, and, once that flush has ended well, with the
/// session's own.
fn one_session<B: Names, K: Keep<B>, L: Link, D: Sink>(
    alloc: Global,
    keeper: &mut K,
    post: &mut Post<B>,
    seats: &mut Vec<Seat<B>>,
    in_flight: bool,
    link: &mut L,
    sink: &mut D,
) -> Seen {
    if in_flight && let Some(first) = seats.first_mut() {
        let _heard = keeper.begin(first.tally());
    }
    let end = run_session(alloc, link, keeper, post, sink);
    let shares = post.seat.held();
    let stat = keeper.stat();
    let waiting = post.waiting.len() as u64;
    let has_room = post.waiting.capacity() > 0;
    let kept = retry(keeper, post, &mut MemorySink::new(1));
    if in_flight && let Some(first) = seats.first_mut() {
        let _heard = keeper.end(first.tally(), 1, true);
    }
    let left = retry(keeper, post, sink);
    Seen {
        end,
        shares,
        stat,
        waiting,
        has_room,
        kept,
        left,
        left_shares: post.seat.held(),
        left_stat: keeper.stat(),
        gathered: keeper.totals(),
        place: None,
        clients: 0,
        recording: false,
        steps: 0,
    }
}
