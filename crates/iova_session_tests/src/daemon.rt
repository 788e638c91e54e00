//! Serving: a flush with another worker beside it, accepts, sinks and links that fail, clients that
//! wait, the flusher's rounds, and growths that are refused. The built program is tried over
//! sockets by tests/run_service.
ghost use Rattle.std.specs.Prelude.{◌≤◌};
ghost use Rattle.iova_range.specs.declared.limits.TheConstants.{MAX_WORKERS, TALLY_PARTS};
ghost use Rattle.iova_keep.specs.Views.{AreBlanksOf};

mod doubles;

use crate::fresh::new_shared;
use crate::posts::{NOTHING, repeated};
use doubles::{CountedWarnings, GatedSink, Rounds, Row, Rows};
use iova_daemon::{Served, serve_on};
use iova_keep::keep::Keep;
use iova_keep::ledgers::Blanks;
use iova_keep::names::Names;
use iova_keep::seat::Seat;
use iova_links::accept::Accept;
use iova_links::pause::Pause;
use iova_links::signals::Signals;
use iova_lock::shared::Shared;
use iova_model::totals::Totals;
use iova_range::bounds::Bounds;
use iova_range::limits::{MAX_WORKERS, TALLY_PARTS};
use iova_range::refusal::Refusal;
use iova_range::stat::Stat;
use iova_session::link::Link;
use iova_session::post::{Post, posts_at};
use iova_sink::calls::Calls;
use iova_sink::gate::{Flag, GateSink};
use iova_sink::memory::MemorySink;
use iova_sink::sink::Sink;
use log::Log;
use std::alloc::Global;
use std::marker::Brand;
use std::process::Abort;
use std::rt::Clock;
use std::sync::Wait;
use std::sync::atomic::{AtomicU64, Ordering};
use std::test::*;
use std::thread::Threads;

/// What serving left: whether the posts came back in their order, whether the domain is still
/// recorded, what it holds, and the gathered totals.
#[derive(Clone, Copy)]
struct Seen {
    in_order: bool,
    recording: bool,
    stat: Stat,
    totals: Totals,
}

/// What is served on frames 1 to 4095, and its result. Flags are named by their place in a
/// list.
#[derive(Clone, Copy)]
struct Case {
    name: &'static str,
    /// Whether the domain is strict, and how many of its steps are recorded.
    kind: (bool, usize),
    workers: u64,
    sessions: u64,
    /// How many accepts fail first, and the sessions that come then.
    failing: u64,
    rows: &'static [Row<'static>],
    /// Whether the gate of the sinks is open from the beginning.
    is_open: bool,
    /// At which calls a worker's sink and the flusher's fail; 0: at none.
    fail_at: (u64, u64),
    /// How many rounds the flusher makes, none: as long as it may; and the flags that it waits for
    /// and raises.
    rounds: Option<u64>,
    between: Option<(usize, usize)>,
    /// The flags of a look that it takes between rounds, where it takes one: the look waits until
    /// the second one is raised.
    look: Option<(usize, usize)>,
    /// Which flags are raised at the end, and which are not.
    raised: &'static [usize],
    unraised: &'static [usize],
    /// How many accepts there are, notices, frames in magazines and in rings, and flushes begun and
    /// finished; and whether all holdings are gone. None: that isn't asked.
    accepts: Option<u64>,
    notices: Option<u64>,
    kept: Option<(u64, u64)>,
    flushes: Option<(u64, u64)>,
    is_empty: bool,
}

/// The places of the flags: a sink is called, its gate is open, and those of the sessions.
const INSIDE: usize = 0;

const OPEN: usize = 1;

const FIRST: usize = 2;

const SECOND: usize = 3;

const THIRD: usize = 4;

/// A peer that sends nothing at once, and is answered nothing.
const SILENT: Row<'static> = Row {
    input: b"",
    before: None,
    fail_at: 0,
    answers: b"",
    answered: FIRST,
};

/// No session, on a plain domain with good sinks, a worker and no round. Nothing is asked of it.
const SERVED: Case = Case {
    name: "",
    kind: (false, 0),
    workers: 1,
    sessions: 0,
    failing: 0,
    rows: &[],
    is_open: true,
    fail_at: (0, 0),
    rounds: Some(0),
    between: None,
    look: None,
    raised: &[],
    unraised: &[],
    accepts: None,
    notices: None,
    kept: None,
    flushes: None,
    is_empty: false,
};

/// Two sessions at once: the flush that the first one asks for waits in its sink until the second
/// one, which begins only then, has its answers.
const OVERLAP: Case = Case {
    name: "overlap",
    workers: 2,
    sessions: 2,
    rows: &[
        Row {
            input: b"hello iova1 0 dac\nflush\n",
            answers: b"opened 1\nflushed 1 0\n",
            ..SILENT
        },
        Row {
            input: b"hello iova1 0 dac\nalloc 1 9\n",
            before: Some(INSIDE),
            answers: b"opened 2\ngiven 9 1\n",
            answered: OPEN,
            ..SILENT
        },
    ],
    is_open: false,
    raised: &[FIRST, OPEN],
    notices: Some(0),
    flushes: Some((1, 1)),
    is_empty: true,
    ..SERVED
};

/// A session that leaves a frame in its worker's ring.
const LEAVES_A_FRAME: Row<'static> = Row {
    input: b"hello iova1 0 dac\nalloc 1 9\nfree 9\nbye\n",
    answers: b"opened 1\ngiven 9 1\nqueued 9 1\nbye\n",
    ..SILENT
};

/// Such a session, and one that waits for the flusher's flush.
const DRAINED: Case = Case {
    name: "the flusher drains",
    sessions: 2,
    rows: &[
        LEAVES_A_FRAME,
        Row {
            input: b"bye\n",
            before: Some(INSIDE),
            answers: b"bye\n",
            answered: SECOND,
            ..SILENT
        },
    ],
    rounds: None,
    raised: &[FIRST, SECOND, INSIDE],
    notices: Some(0),
    kept: Some((1, 0)),
    flushes: Some((1, 1)),
    ..SERVED
};

static CASES: [Case; 8] = [
    OVERLAP,
    Case {
        name: "overlap on a recorded domain",
        kind: (false, 1000),
        ..OVERLAP
    },
    // while the flush of a free waits in its sink, its frame is given to nobody
    Case {
        name: "overlap on a strict domain",
        kind: (true, 0),
        rows: &[
            Row {
                input: b"hello iova1 0 dac\nalloc 1 9\nfree 9\n",
                answers: b"opened 1\ngiven 9 1\nfreed 9 1\n",
                ..SILENT
            },
            Row {
                input: b"hello iova1 0 dac\nalloc 1 9\n",
                before: Some(INSIDE),
                answers: b"opened 2\ngiven 8 1\n",
                answered: OPEN,
                ..SILENT
            },
        ],
        ..OVERLAP
    },
    // each accept uses up a number, one that fails too, and no number is left out
    Case {
        name: "accepts that fail",
        workers: 3,
        sessions: 20,
        failing: 17,
        rows: &[
            Row {
                input: b"list\nbye\n",
                answers: b"no 3 NoClient\nbye\n",
                ..SILENT
            },
            Row {
                input: b"list\n",
                answers: b"no 3 NoClient\n",
                answered: SECOND,
                ..SILENT
            },
            Row {
                input: b"bye\n",
                answers: b"bye\n",
                answered: THIRD,
                ..SILENT
            },
        ],
        rounds: None,
        raised: &[FIRST, SECOND, THIRD],
        accepts: Some(20),
        ..SERVED
    },
    // the flusher frees what the first session has left in a ring, and the second one waits for it
    DRAINED,
    // the gate stays closed: the round is refused, which is a notice, and nothing is drained
    Case {
        name: "a round that is refused",
        is_open: false,
        notices: Some(1),
        kept: Some((0, 1)),
        flushes: Some((1, 0)),
        ..DRAINED
    },
    // a round that is refused isn't the last one: behind a pause more the next one drains the ring
    Case {
        name: "a round after one that is refused",
        rows: &[
            LEAVES_A_FRAME,
            Row {
                input: b"bye\n",
                before: Some(THIRD),
                answers: b"bye\n",
                answered: SECOND,
                ..SILENT
            },
        ],
        fail_at: (0, 1),
        rounds: Some(3),
        between: Some((FIRST, THIRD)),
        raised: &[FIRST, SECOND],
        notices: Some(1),
        flushes: Some((2, 2)),
        ..DRAINED
    },
    // a sink that fails in a session and a link that fails are a notice each, and the daemon goes
    // on
    Case {
        name: "sinks and links that fail",
        sessions: 3,
        rows: &[
            Row {
                input: b"hello iova1 0 dac\nflush\nbye\n",
                answers: b"opened 1\nno 18 SinkFault\nbye\n",
                ..SILENT
            },
            Row {
                input: b"hello iova1 0 dac\n",
                fail_at: 1,
                answers: b"opened 2\n",
                answered: SECOND,
                ..SILENT
            },
            Row {
                input: b"hello iova1 0 dac\nbye\n",
                answers: b"opened 2\nbye\n",
                answered: THIRD,
                ..SILENT
            },
        ],
        fail_at: (1, 0),
        raised: &[FIRST, THIRD],
        unraised: &[SECOND],
        notices: Some(2),
        is_empty: true,
        ..SERVED
    },
];

/// A client whose end waits, since its ring is full and the sink fails, is tried again once its
/// session has ended.
const TRIED_AGAIN: Case = Case {
    name: "a waiting client",
    sessions: 1,
    fail_at: (1, 0),
    notices: Some(1),
    flushes: Some((2, 2)),
    is_empty: true,
    ..SERVED
};

/// The flusher's round frees what the first session's client had, 200 ranges, so that it takes a
/// look before the next round. That one finds as many of the third session's client in the ring,
/// and flushes; it drains nothing. The sessions between these tell that they are over.
const AHEAD: Case = Case {
    name: "a flush ahead",
    sessions: 4,
    rounds: Some(1),
    between: Some((FIRST, OPEN)),
    look: Some((SECOND, THIRD)),
    raised: &[FIRST, SECOND, THIRD],
    accepts: Some(4),
    notices: Some(0),
    kept: Some((0, 200)),
    flushes: Some((2, 2)),
    is_empty: true,
    ..SERVED
};

/// A sink for each worker, and the flusher's. None for want of memory.
fn sinks_of<'a>(alloc: Global, case: &Case, flags: &'a [Flag; 5]) -> Option<Vec<GatedSink<'a>>> {
    let mut sinks = Vec::new(alloc);
    for worker in 0..=case.workers {
        let fail_at = if worker < case.workers {
            case.fail_at.0
        } else {
            case.fail_at.1
        };
        let sink = GatedSink {
            gate: GateSink::new(&flags[INSIDE], &flags[OPEN]),
            sink: MemorySink::new(fail_at),
            calls: Calls::new(),
        };
        let Ok(()) = sinks.push(sink) else {
            return None;
        };
    }
    Some(sinks)
}

/// Why nothing was served, and why it isn't seen what was.
const BEFORE: &str = "refused before it";

const AFTER: &str = "refused after it";

/// Serves the case.
fn serve_case<R: Threads + Wait + Clock + Sync>(
    rt: &R,
    alloc: Global,
    case: &Case,
    flags: &[Flag; 5],
    notices: &CountedWarnings,
    accept: &Rows<'_>,
) -> Result<Seen, &'static str> {
    if case.is_open {
        flags[OPEN].raise();
    }
    let (before, after) = match case.between {
        Some((before, after)) => (flags.get(before), flags.get(after)),
        None => (None, None),
    };
    let look = match case.look {
        Some((begun, before)) => pair_of(flags.get(begun), flags.get(before)),
        None => None,
    };
    let rounds = Rounds {
        before,
        left: case.rounds,
        after,
        look,
    };
    match sinks_of(alloc, case, flags) {
        Some(sinks) => serve_few(
            rt,
            alloc,
            notices,
            case.kind,
            sinks,
            accept,
            rounds,
            case.sessions,
        ),
        None => Err(BEFORE),
    }
}

/// Both flags, where both are there.
fn pair_of<'a>(one: Option<&'a Flag>, other: Option<&'a Flag>) -> Option<(&'a Flag, &'a Flag)> {
    match (one, other) {
        (Some(one), Some(other)) => Some((one, other)),
        _ => None,
    }
}

/// Serves with a worker for each sink but the last.
fn serve_few<R, N, L, A, D, P>(
    rt: &R,
    alloc: Global,
    notices: &N,
    kind: (bool, usize),
    sinks: Vec<D>,
    accept: &A,
    pause: P,
    sessions: u64,
) -> Result<Seen, &'static str>
where
    R: Threads + Wait + Clock + Sync,
    N: Log + Sync,
    L: Link + Send + Drop,
    A: Accept<L> + Sync,
    D: Sink + Send + Drop,
    P: Pause + Drop,
{
    let workers = sinks.len().saturating_sub(1) as u64;
    if workers == 0 || workers > MAX_WORKERS {
        return Err(BEFORE);
    }
    serve_new::<R, N, Brand, L, A, D, P>(
        rt,
        alloc,
        notices,
        kind,
        workers,
        Blanks::new(workers, TALLY_PARTS),
        sinks,
        accept,
        pause,
        sessions,
    )
}

/// Serves on a new domain 0 of this kind with so many workers.
fn serve_new<R, N, B, L, A, D, P>(
    rt: &R,
    alloc: Global,
    notices: &N,
    kind: (bool, usize),
    workers: u64,
    blanks: Blanks,
    sinks: Vec<D>,
    accept: &A,
    pause: P,
    sessions: u64,
) -> Result<Seen, &'static str>
where
    R: Threads + Wait + Clock + Sync,
    N: Log + Sync,
    B: Names + Send + Sync,
    L: Link + Send + Drop,
    A: Accept<L> + Sync,
    D: Sink + Send + Drop,
    P: Pause + Drop,
    requires workers { (1 ≤ workers) × (workers ≤ MAX_WORKERS) }
    requires blanks { AreBlanksOf blanks B.ledgers workers TALLY_PARTS workers }
{
    let Some((shared, mut posts)) = new_domain::<&R, B>(rt, alloc, kind, workers, blanks) else {
        return Err(BEFORE);
    };
    if posts.is_empty() || sinks.len() != posts.len() + 1 || posts[0].seat.tally().parts() < 2 {
        drop(posts);
        drop(shared);
        return Err(BEFORE);
    }
    let served = serve_on::<R, &R, N, B, L, A, D, P>(
        rt, alloc, notices, shared, posts, sinks, accept, pause, sessions,
    );
    match served {
        Ok(served) => seen_of(alloc, served),
        Err(Refusal::NoMemory) => Err("refused at serve_on"),
        Err(Refusal::LinkFault) => Err("refused at spawn"),
        Err(_) => Err("refused for another reason"),
    }
}

/// A new domain 0 of this kind on frames 1 to 4095, and a post at each seat. None for want of
/// memory.
fn new_domain<Q, B>(
    rt: Q,
    alloc: Global,
    kind: (bool, usize),
    workers: u64,
    blanks: Blanks,
) -> Option<(Shared<Q, B>, Vec<Post<B>>)>
where
    Q: Drop,
    B: Names,
    requires blanks { AreBlanksOf blanks B.ledgers workers TALLY_PARTS workers }
{
    let Ok(bounds) = Bounds::new(1, 4095) else {
        return None;
    };
    let Ok((shared, seats)) = new_shared::<Q, B>(rt, alloc, kind, bounds, workers, blanks) else {
        return None;
    };
    match posts_at(alloc, seats) {
        Some(posts) => Some((shared, posts)),
        None => {
            drop(shared);
            None
        }
    }
}

/// What serving left.
fn seen_of<Q: Wait + Drop, B: Names>(
    alloc: Global,
    served: Served<Q, B>,
) -> Result<Seen, &'static str> {
    let Served { shared, posts } = served;
    let recording = shared.recording();
    let stat = (&shared).stat();
    let gathered = gathered(alloc, &shared, posts);
    drop(shared);
    match gathered {
        Some((in_order, totals)) => Ok(Seen {
            in_order,
            recording,
            stat,
            totals,
        }),
        None => Err(AFTER),
    }
}

/// Whether the posts stand in the order of their workers, and the totals that their seats are
/// gathered to. None where a seat is missing, and for want of memory.
fn gathered<Q: Wait, B: Names>(
    alloc: Global,
    shared: &Shared<Q, B>,
    posts: Vec<Post<B>>,
) -> Option<(bool, Totals)> {
    let mut in_order = true;
    let mut seats = Vec::new(alloc);
    for post in posts {
        in_order = in_order && post.seat.worker() == seats.len() as u64;
        let Ok(()) = seats.push(post.into_seat()) else {
            return None;
        };
    }
    match shared.gather(seats) {
        Ok(totals) => Some((in_order, totals)),
        Err(_) => None,
    }
}

/// Serves the case with these sessions, and compares its result; gives in which call a growth
/// was refused, where one was. Where nothing is served nothing is accepted.
fn check<R: Abort + Threads + Wait + Clock + Sync>(
    rt: &R,
    alloc: Global,
    case: &Case,
    rows: &[Row<'_>],
) -> &'static str {
    let flags = [
        Flag::new(),
        Flag::new(),
        Flag::new(),
        Flag::new(),
        Flag::new(),
    ];
    let notices = CountedWarnings {
        records: AtomicU64::new(0),
    };
    let accept = Rows {
        alloc,
        failing: case.failing,
        rows,
        flags: &flags,
        calls: AtomicU64::new(0),
    };
    let served = serve_case(rt, alloc, case, &flags, &notices, &accept);
    let accepts = accept.calls.load(Ordering::SeqCst);
    let told = notices.records.load(Ordering::SeqCst);
    compare(rt, case, served, accepts, told, &flags)
}

/// Compares what serving left with how many accepts and notices there were, and which flags are
/// raised.
fn compare<R: Abort>(
    rt: &R,
    case: &Case,
    served: Result<Seen, &'static str>,
    accepts: u64,
    notices: u64,
    flags: &[Flag; 5],
) -> &'static str {
    let seen = match served {
        Ok(seen) => seen,
        Err(refused) => {
            let wanted = if refused == AFTER { case.sessions } else { 0 };
            assert!(rt;
                accepts == wanted,
                "{}: {refused}, {accepts} accepts",
                case.name
            );
            return refused;
        }
    };
    compare_left(rt, case, &seen);
    assert!(rt;
        case.accepts == None || case.accepts == Some(accepts),
        "{}: {accepts} accepts",
        case.name
    );
    assert!(rt;
        case.notices == None || case.notices == Some(notices),
        "{}: {notices} notices",
        case.name
    );
    for (place, flag) in flags.iter().enumerate() {
        let wrong = if flag.is_raised() {
            case.unraised
        } else {
            case.raised
        };
        assert!(rt; !wrong.contains(&place), "{}: flag {place}", case.name);
    }
    ""
}

/// Compares what the posts and the domain are left as.
fn compare_left<R: Abort>(rt: &R, case: &Case, seen: &Seen) {
    assert!(rt; seen.in_order, "{}: the order of the posts", case.name);
    assert!(rt;
        seen.recording == (case.kind.1 > 0),
        "{}: recorded otherwise",
        case.name
    );
    assert!(rt;
        !case.is_empty || seen.totals == NOTHING,
        "{}: holdings are left",
        case.name
    );
    let kept = (seen.stat.magazine, seen.stat.ring);
    assert!(rt;
        case.kept == None || case.kept == Some(kept),
        "{}: frames lie elsewhere",
        case.name
    );
    let flushes = (seen.stat.start, seen.stat.finish);
    assert!(rt;
        case.flushes == None || case.flushes == Some(flushes),
        "{}: other flushes",
        case.name
    );
}

#[test]
fn what_is_served(rt: HostRuntime) -> Result<(), Fail> {
    for case in &CASES {
        assert_eq!(rt;
            check(&rt, rt.alloc(), case, case.rows),
            "",
            "{}",
            case.name
        );
    }
    let input = repeated(
        rt.alloc(),
        &[(b"hello iova1 0 dac\n", 1), (b"alloc 1 4095\n", 256)],
    )?;
    let row = Row {
        input: input.as_slice(),
        ..SILENT
    };
    assert_eq!(rt; check(&rt, rt.alloc(), &TRIED_AGAIN, &[row]), "");
    let input = repeated(
        rt.alloc(),
        &[(b"hello iova1 0 dac\n", 1), (b"alloc 1 4095\n", 200)],
    )?;
    let row = Row {
        input: input.as_slice(),
        ..SILENT
    };
    let over = Row {
        input: b"bye\n",
        answers: b"bye\n",
        ..SILENT
    };
    let rows = [
        row,
        over,
        Row {
            before: Some(SECOND),
            ..row
        },
        Row {
            answered: THIRD,
            ..over
        },
    ];
    assert_eq!(rt; check(&rt, rt.alloc(), &AHEAD, &rows), "");
    Ok(())
}

/// Four sessions by two workers, and no link.
const NO_LINK: Case = Case {
    name: "no link",
    workers: 2,
    sessions: 4,
    accepts: Some(4),
    ..SERVED
};

// A thread that gets no memory can't be started, which is a fault of its own: those that were
// started accept nothing.
#[test]
fn a_refused_growth_of_serving(rt: HostRuntime) -> Result<(), Fail> {
    let call = check(&rt, rt.alloc(), &NO_LINK, &[]);
    assert!(rt; call != "refused for another reason");
    println!(rt; "{call}")?;
    Ok(())
}

// A daemon that has counted more than 32 bits hold counts on.
#[test]
fn counts_above_32_bits(rt: HostRuntime) {
    let signals = Signals::new(0, 0);
    signals.count_requests(1 << 32);
    signals.count_requests(7);
    assert_eq!(&rt; signals.requests(), 4_294_967_303);
}
