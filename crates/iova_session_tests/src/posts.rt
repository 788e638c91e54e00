//! Sessions at a post, over a book and under a lock: what they are answered, links, sinks and
//! growths that fail, and clients that wait. Cut anywhere, over links that fail at each call, and
//! at the limits they are seen on the program (tests/run_links).
use crate::fresh::{Seen, Setup, at_post};
use crate::links::ByLines;
use iova_keep::ending::{Ending, Why};
use iova_model::place::Place;
use iova_model::totals::Totals;
use iova_range::refusal::Refusal;
use iova_session::end::End;
use iova_session::memory_link::MemoryLink;
use iova_session::run::SessionEnd;
use iova_sink::memory::MemorySink;
use iova_sink::memory_device::MemoryDevice;
use iova_sink::record::RecordSink;
use std::alloc::{AllocError, Global};
use std::process::Abort;
use std::sync::Wait;
use std::test::*;

/// On which domains a session is served, and its result beside its answers. None: that isn't
/// asked.
#[derive(Clone, Copy)]
struct Row {
    name: &'static str,
    /// How many bytes it is answered, where those that are said are only the last ones; else 0.
    length: usize,
    on: Setup,
    /// The domains' depots, and whether they are strict and how many steps of them are recorded.
    depots: &'static [u64],
    kinds: &'static [(bool, usize)],
    /// How many bytes a call of the link moves at most, and which call of it and of the sink fails;
    /// 0: none.
    cuts: &'static [usize],
    fails_at: (u64, u64),
    end: End,
    /// The result of the client that was opened; not asked: it is gone where the answers tell of
    /// it, and else there was none.
    client: Option<Option<Ending>>,
    /// Where the frame is at last.
    place: Option<Place>,
    /// The frames in the ring at the session's end and at last, the flushes begun and finished at
    /// the session's end, and the free frames at last.
    rings: Option<(u64, u64)>,
    flushes: Option<(u64, u64)>,
    free: Option<u64>,
    /// What the sink wrote, and what was recorded of the domain.
    records: Option<&'static [u8]>,
    steps: Option<(u64, &'static [u8])>,
}

const PLAIN: &[(bool, usize)] = &[(false, 0)];

const STRICT: &[(bool, usize)] = &[(true, 0)];

const UNSTRICT: &[(bool, usize)] = &[(false, 0), (false, 100)];

const EACH_KIND: &[(bool, usize)] = &[(false, 0), (true, 0), (false, 100)];

const CUTS: &[usize] = &[1, 7, 128];

const FIRST: &[u64] = &[0];

const BOTH: &[u64] = &[0, 4];

const ON: Setup = Setup {
    is_locked: true,
    bounds: (1, 1023),
    depot: 0,
    workers: 1,
    strict: false,
    pairs: 0,
    in_flight: false,
    frame: 9,
};

/// A plain domain with frames 1 to 1023 and one worker, and a link and a sink that don't fail.
const SENT: Row = Row {
    name: "",
    length: 0,
    on: ON,
    depots: FIRST,
    kinds: PLAIN,
    cuts: CUTS,
    fails_at: (0, 0),
    end: End::Bye,
    client: None,
    place: None,
    rings: None,
    flushes: None,
    free: None,
    records: None,
    steps: None,
};

const CUT_OFF: &[u8] = b"hello iova1 0 dac\nalloc 1 9\nfr";

/// The link fails at a call, byte by byte.
const FAILED: Row = Row {
    name: "a link that fails",
    depots: BOTH,
    kinds: EACH_KIND,
    cuts: &[1],
    end: End::LinkFault,
    ..SENT
};

const FLUSHED_TWICE: &[u8] = b"hello iova1 0 dac\nalloc 1 9\nfree 9\nflush\nstat\nflush\nbye\n";

const FREED: &[u8] = b"hello iova1 0 dac\nalloc 1 9\nfree 9\nstat\nalloc 1 9\nbye\n";

const RECORDED: &[u8] = b"hello iova1 0 dac\nalloc 3 1023\nfree 1020\nfree 1020\nflush\nbye\n";

const RECORDED_ANSWERS: &[u8] =
    b"opened 1\ngiven 1020 4\nqueued 1020 4\nno 8 NotHeld\nflushed 1 1\nbye\n";

/// A session with requests of which some take no step.
const LISTED: &[u8] =
    b"hello iova1 0 dac\nalloc 3 1023\nlist\nfree 1020\nstat\nfree 1020\nflush\nlist\nstat\nbye\n";

const LISTED_ANSWERS: &[u8] =
    b"opened 1\ngiven 1020 4\nheld 1\n1020 4\nqueued 1020 4\nstat 1019 0 0 0 0 4 0 0\nno 8 NotHeld\nflushed 1 1\nheld 0\nstat 1019 0 0 4 0 0 1 1\nbye\n";

const STEPS: (u64, &[u8]) = (
    8,
    b"open 0 dac\nalloc 0 1 3 1023\nunmap 0 1 1020\nunmap 0 1 1020\nbegin\nend 1 ok\ndrain 0 0\ncloseone 0 1\n",
);

const TWO_STEPS: (u64, &[u8]) = (2, b"open 0 dac\nalloc 0 1 3 1023\n");

static ROWS: [(&[u8], &[u8], Row); 15] = [
    (
        CUT_OFF,
        b"opened 1\ngiven 9 1\n",
        Row {
            name: "input that ends in a line",
            depots: BOTH,
            kinds: EACH_KIND,
            end: End::Closed,
            client: Some(Some(Ending::Ended(1))),
            place: Some(Place::Ring(0)),
            rings: Some((1, 1)),
            records: Some(b""),
            ..SENT
        },
    ),
    (
        CUT_OFF,
        b"",
        Row {
            fails_at: (1, 0),
            client: Some(None),
            place: Some(Place::Free),
            rings: Some((0, 0)),
            ..FAILED
        },
    ),
    (
        CUT_OFF,
        b"",
        Row {
            fails_at: (19, 0),
            client: Some(Some(Ending::Ended(0))),
            place: Some(Place::Free),
            rings: Some((0, 0)),
            ..FAILED
        },
    ),
    (
        CUT_OFF,
        b"opened 1\n",
        Row {
            fails_at: (28, 0),
            client: Some(Some(Ending::Ended(0))),
            place: Some(Place::Free),
            rings: Some((0, 0)),
            ..FAILED
        },
    ),
    (
        CUT_OFF,
        b"opened 1\n",
        Row {
            fails_at: (38, 0),
            client: Some(Some(Ending::Ended(1))),
            place: Some(Place::Ring(0)),
            rings: Some((1, 1)),
            ..FAILED
        },
    ),
    (
        CUT_OFF,
        b"opened 1\ng",
        Row {
            fails_at: (39, 0),
            client: Some(Some(Ending::Ended(1))),
            place: Some(Place::Ring(0)),
            rings: Some((1, 1)),
            ..FAILED
        },
    ),
    (
        FLUSHED_TWICE,
        b"opened 1\ngiven 9 1\nqueued 9 1\nno 18 SinkFault\nstat 1022 0 0 0 0 1 1 0\nflushed 2 1\nbye\n",
        Row {
            name: "a flush that fails",
            depots: BOTH,
            kinds: UNSTRICT,
            fails_at: (0, 1),
            client: Some(Some(Ending::Ended(0))),
            place: Some(Place::Magazine(0)),
            records: Some(b"\ninval 0 2\n"),
            ..SENT
        },
    ),
    (
        FLUSHED_TWICE,
        b"opened 1\ngiven 9 1\nqueued 9 1\nflushed 2 1\nstat 1022 0 0 1 0 0 2 2\nflushed 3 0\nbye\n",
        Row {
            name: "the flush of a free that fails, and flushes after it",
            depots: BOTH,
            kinds: STRICT,
            fails_at: (0, 1),
            client: Some(Some(Ending::Ended(0))),
            place: Some(Place::Magazine(0)),
            records: Some(b"\ninval 0 2\ninval 0 3\n"),
            ..SENT
        },
    ),
    (
        FREED,
        b"opened 1\ngiven 9 1\nfreed 9 1\nstat 1022 0 0 1 0 0 1 1\ngiven 9 1\nbye\n",
        Row {
            name: "a free that is flushed",
            depots: BOTH,
            kinds: STRICT,
            records: Some(b"inval 0 1\n"),
            ..SENT
        },
    ),
    (
        FREED,
        b"opened 1\ngiven 9 1\nqueued 9 1\nstat 1022 0 0 0 0 1 1 0\ngiven 8 1\nbye\n",
        Row {
            name: "the flush of a free that fails",
            depots: BOTH,
            kinds: STRICT,
            fails_at: (0, 1),
            records: Some(b""),
            ..SENT
        },
    ),
    (
        RECORDED,
        RECORDED_ANSWERS,
        Row {
            name: "a flush on the record",
            depots: BOTH,
            kinds: &[(false, 100)],
            records: Some(b"inval 0 1\n"),
            steps: Some(STEPS),
            ..SENT
        },
    ),
    (
        RECORDED,
        RECORDED_ANSWERS,
        Row {
            name: "a record that is full",
            depots: BOTH,
            kinds: &[(false, 2)],
            steps: Some(TWO_STEPS),
            ..SENT
        },
    ),
    (
        LISTED,
        LISTED_ANSWERS,
        Row {
            name: "requests that take no step",
            depots: BOTH,
            kinds: &[(false, 100)],
            steps: Some(STEPS),
            ..SENT
        },
    ),
    (
        LISTED,
        LISTED_ANSWERS,
        Row {
            name: "requests that take no step, and a record that is full",
            depots: BOTH,
            kinds: &[(false, 2)],
            steps: Some(TWO_STEPS),
            ..SENT
        },
    ),
    // what its flush drains goes to the session's own worker, which is given the frame that it gave
    // back; and its client is sought a place below 4 GiB first, as its hello said
    (
        b"hello iova1 0 sac\nalloc 1 9\nfree 9\nflush\nalloc 1 9\nalloc 1 1048675\nbye\n",
        b"opened 1\ngiven 9 1\nqueued 9 1\nflushed 1 1\ngiven 9 1\ngiven 1048575 1\nbye\n",
        Row {
            name: "the second worker",
            on: Setup {
                bounds: (1, 1_048_675),
                workers: 2,
                ..ON
            },
            client: Some(Some(Ending::Ended(2))),
            records: Some(b"inval 0 1\n"),
            ..SENT
        },
    ),
];

const HELLO: &[u8] = b"hello iova1 0 dac\n";

/// A session that is given so many single frames and ends, the call of the sink that fails, what
/// the client comes to, and the ring at the session's end and at last: with 600 its end makes two
/// flushes.
static DYING: [(u32, u64, Ending, (u64, u64)); 6] = [
    (256, 1, Ending::Waiting(1, Why::SinkFailed), (255, 1)),
    (256, 2, Ending::Ended(256), (1, 1)),
    (600, 0, Ending::Ended(600), (90, 90)),
    (600, 1, Ending::Waiting(345, Why::SinkFailed), (255, 90)),
    (600, 2, Ending::Waiting(90, Why::SinkFailed), (255, 90)),
    (600, 3, Ending::Ended(600), (90, 90)),
];

pub(crate) fn repeated(alloc: Global, parts: &[(&[u8], u32)]) -> Result<Vec<u8>, AllocError> {
    let mut text = Vec::new(alloc);
    for (part, times) in parts {
        for _ in 0..*times {
            text.extend_from_slice(part)?;
        }
    }
    Ok(text)
}

/// A session that was looked at, how many bytes it was answered, and whether they end by the row's
/// answers; and whether the sink wrote the row's records, and the domain recorded its steps.
#[derive(Clone, Copy)]
struct Told {
    seen: Seen,
    length: usize,
    is_end: bool,
    is_sunk: bool,
    is_recorded: bool,
}

/// One session of the row, on this domain, with at most so many bytes a call. None where it was
/// refused.
fn look<R: Wait>(
    rt: &R,
    alloc: Global,
    row: &Row,
    sent: (&[u8], &[u8]),
    setup: &Setup,
    most: usize,
) -> Option<Told> {
    let (input, answers) = sent;
    let mut link = MemoryLink::new(alloc, input, most.max(1), row.fails_at.0);
    // a record is two calls of its device
    let call = row.fails_at.1.saturating_mul(2).saturating_sub(1);
    let mut sink = RecordSink::new(MemoryDevice::new(alloc, 128, call));
    let mut text = Vec::new(alloc);
    let seen = at_post(rt, alloc, setup, &mut link, &mut sink, &mut text);
    let recorded = (sink.device().bytes(), text.as_slice());
    told_of(row, setup, link.sent(), answers, recorded, seen)
}

fn told_of(
    row: &Row,
    setup: &Setup,
    sent: &[u8],
    answers: &[u8],
    recorded: (&[u8], &[u8]),
    seen: Result<Seen, Refusal>,
) -> Option<Told> {
    let Ok(seen) = seen else {
        return None;
    };
    Some(Told {
        seen,
        length: sent.len(),
        is_end: sent.ends_with(answers),
        is_sunk: row.records == None || row.records == Some(recorded.0),
        is_recorded: is_recorded(row, setup, &seen, recorded.1),
    })
}

/// Whether these are the row's steps, behind the header of the domain.
fn is_recorded(row: &Row, setup: &Setup, seen: &Seen, text: &[u8]) -> bool {
    let Some((steps, lines)) = row.steps else {
        return true;
    };
    let header = if setup.depot == 0 {
        b"iovatrace 1 1 1023 1\n".as_slice()
    } else {
        b"iovatrace 2 1 1023 1 4\n".as_slice()
    };
    !setup.is_locked
        || seen.steps == steps
            && seen.recording == (setup.pairs as u64 > steps)
            && text.strip_prefix(header) == Some(lines)
}

/// The sessions of a row, on each of its domains, whose input and answers are these parts, each so
/// many times.
fn check_parts<R: Abort + Wait>(
    rt: &R,
    alloc: Global,
    row: &Row,
    input: &[(&[u8], u32)],
    answers: &[(&[u8], u32)],
) {
    let (Ok(input), Ok(answers)) = (repeated(alloc, input), repeated(alloc, answers)) else {
        panic!(rt; "no memory");
    };
    check(rt, alloc, row, (input.as_slice(), answers.as_slice()));
}

/// The sessions of a row, on each of its domains, in a book and under a lock: they are alike.
fn check<R: Abort + Wait>(rt: &R, alloc: Global, row: &Row, sent: (&[u8], &[u8])) {
    for depot in row.depots {
        for (strict, pairs) in row.kinds {
            for most in row.cuts {
                let setup = Setup {
                    depot: *depot,
                    strict: *strict,
                    pairs: *pairs,
                    ..row.on
                };
                let book = Setup {
                    is_locked: false,
                    ..setup
                };
                let (Some(locked), Some(booked)) = (
                    look(rt, alloc, row, sent, &setup, *most),
                    look(rt, alloc, row, sent, &book, *most),
                ) else {
                    panic!(rt; "{}: not served", row.name);
                };
                compare(rt, row, sent.1, &locked);
                compare(rt, row, sent.1, &booked);
                compare_left(rt, row, &locked.seen);
                let (seen, other) = (locked.seen, booked.seen);
                assert!(rt;
                    seen.end == other.end && seen.stat == other.stat && seen.shares == other.shares,
                    "{}: otherwise in a book",
                    row.name
                );
            }
        }
    }
}

/// Compares what was answered, and how the session ended.
fn compare<R: Abort>(rt: &R, row: &Row, answers: &[u8], told: &Told) {
    let length = if row.length == 0 {
        answers.len()
    } else {
        row.length
    };
    assert!(rt;
        told.is_end && told.length == length,
        "{}: the answers",
        row.name
    );
    assert!(rt; told.is_sunk, "{}: the sink's records", row.name);
    assert!(rt; told.is_recorded, "{}: the steps", row.name);
    assert!(rt; told.seen.end.end == row.end, "{}: the end", row.name);
    let client = told.seen.end.client;
    let is_right = match row.client {
        Some(wanted) => client == wanted,
        None => queued(client).is_some() == has(answers, b"opened"),
    };
    assert!(rt; is_right, "{}: the client", row.name);
}

pub(crate) const NOTHING: Totals = Totals {
    count: 0,
    frames: 0,
    sum_lo: 0,
};

/// Compares what is left at the session's end, and once the clients that wait were tried: nothing
/// is lost, and the totals are the seat's shares.
fn compare_left<R: Abort>(rt: &R, row: &Row, seen: &Seen) {
    let left = match seen.end.client {
        Some(Ending::Waiting(left, _)) => left,
        _ => 0,
    };
    // each range that is left is a single frame
    let is_left = (seen.shares.count, seen.shares.frames) == (left, left)
        && (left > 0 || seen.shares.sum_lo == 0)
        && seen.stat.client == left;
    assert!(rt; is_left, "{}: the shares", row.name);
    let waits = left.min(1);
    assert!(rt;
        (seen.waiting, seen.kept, seen.left) == (waits, waits, 0),
        "{}: the clients that wait",
        row.name
    );
    assert!(rt;
        seen.left_shares == NOTHING && seen.gathered == NOTHING,
        "{}: the totals",
        row.name
    );
    assert!(rt;
        (seen.clients, seen.left_stat.client) == (0, 0),
        "{}: the clients",
        row.name
    );
    let rings = (seen.stat.ring, seen.left_stat.ring);
    let flushes = (seen.stat.start, seen.stat.finish);
    let is_right = (row.place == None || row.place == seen.place)
        && (row.rings == None || row.rings == Some(rings))
        && (row.flushes == None || row.flushes == Some(flushes))
        && (row.free == None || row.free == Some(seen.left_stat.free));
    assert!(rt;
        is_right,
        "{}: frames lie elsewhere, or other flushes",
        row.name
    );
}

/// Whether the text has this word.
fn has(text: &[u8], word: &[u8]) -> bool {
    for at in 0..text.len() {
        if text[at..].starts_with(word) {
            return true;
        }
    }
    false
}

/// How many ranges an end queued; none where there was no client to end, or it waits.
fn queued(client: Option<Ending>) -> Option<u64> {
    match client {
        Some(Ending::Ended(queued)) => Some(queued),
        _ => None,
    }
}

#[test]
fn sessions_are_answered(rt: HostRuntime) {
    for (input, answers, row) in &ROWS {
        check(&rt, rt.alloc(), row, (input, answers));
    }
}

const DIES_ON: Setup = Setup {
    bounds: (1, 4095),
    ..ON
};

/// A session that is given so many single frames, none above 4095, and ends.
const DIES: Row = Row {
    name: "a client that dies with its session",
    on: DIES_ON,
    cuts: &[4096],
    end: End::Closed,
    ..SENT
};

const ALLOC: &[u8] = b"alloc 1 4095\n";

/// Such a session, whose end makes a flush that ends well, beside an older one that is in flight.
const OVERLAP: Row = Row {
    name: "an end beside an older flush",
    length: 9 + 13 * 256,
    on: Setup {
        workers: 2,
        in_flight: true,
        ..DIES_ON
    },
    client: Some(Some(Ending::Waiting(1, Why::Overlap))),
    rings: Some((255, 1)),
    flushes: Some((2, 1)),
    ..DIES
};

// A client that waits is kept while the sink fails, and gone once it doesn't.
#[test]
fn clients_that_wait(rt: HostRuntime) {
    for (holdings, sink_fails_at, end, rings) in DYING {
        let row = Row {
            length: 9 + 13 * holdings as usize,
            fails_at: (0, sink_fails_at),
            client: Some(Some(end)),
            rings: Some(rings),
            // none of the ranges is lost
            free: Some(4095 - holdings as u64),
            ..DIES
        };
        let input = [(HELLO, 1), (ALLOC, holdings)];
        check_parts(&rt, rt.alloc(), &row, &input, &[]);
    }
    check_parts(&rt, rt.alloc(), &OVERLAP, &[(HELLO, 1), (ALLOC, 256)], &[]);
}

// Each of the requests that take memory comes twice.
const ALL: &[u8] =
    b"hello iova1 0 dac\nhello iova1 0 dac\nalloc 1 9\nalloc 1 9\nlist\nlist\nfree 9\nstat\nbye\n";

// Where a growth is refused, how many ranges the session's end queues then, and what it was
// answered.
static ANSWERS: [(&str, u64, &[u8]); 8] = [
    (
        "nothing",
        1,
        b"opened 1\nno 24 Twice\ngiven 9 1\ngiven 8 1\nheld 2\n8 1\n9 1\nheld 2\n8 1\n9 1\nqueued 9 1\nstat 1021 0 1 0 0 1 0 0\nbye\n",
    ),
    (
        "open",
        1,
        b"no 17 NoMemory\nopened 1\ngiven 9 1\ngiven 8 1\nheld 2\n8 1\n9 1\nheld 2\n8 1\n9 1\nqueued 9 1\nstat 1021 0 1 0 0 1 0 0\nbye\n",
    ),
    ("ask_run", 0, b"opened 1\nno 24 Twice\n"),
    (
        "encode",
        2,
        b"opened 1\nno 24 Twice\ngiven 9 1\ngiven 8 1\n",
    ),
    (
        "alloc",
        0,
        b"opened 1\nno 24 Twice\nno 17 NoMemory\ngiven 9 1\nheld 1\n9 1\nheld 1\n9 1\nqueued 9 1\nstat 1022 0 0 0 0 1 0 0\nbye\n",
    ),
    (
        "next_alloc",
        0,
        b"opened 1\nno 24 Twice\ngiven 9 1\nno 17 NoMemory\nheld 1\n9 1\nheld 1\n9 1\nqueued 9 1\nstat 1022 0 0 0 0 1 0 0\nbye\n",
    ),
    (
        "list",
        1,
        b"opened 1\nno 24 Twice\ngiven 9 1\ngiven 8 1\nno 17 NoMemory\nheld 2\n8 1\n9 1\nqueued 9 1\nstat 1021 0 1 0 0 1 0 0\nbye\n",
    ),
    (
        "next_list",
        1,
        b"opened 1\nno 24 Twice\ngiven 9 1\ngiven 8 1\nheld 2\n8 1\n9 1\nno 17 NoMemory\nqueued 9 1\nstat 1021 0 1 0 0 1 0 0\nbye\n",
    ),
];

// Where a growth was refused in a session of all these requests; none where it didn't end as it has
// to then.
fn refused_in(link: &ByLines<'_>, seen: Result<Seen, Refusal>) -> Option<&'static str> {
    let Ok(seen) = seen else {
        return Some("Book::new");
    };
    let SessionEnd { end, client } = seen.end;
    if seen.shares != NOTHING {
        return None;
    }
    if link.lines == 0 {
        let is_refused = end == End::NoMemory && client == None && link.answers == 0;
        let place = if seen.has_room {
            "serve"
        } else {
            "run_session"
        };
        return is_refused.then_some(place);
    }
    for (place, queued, answers) in ANSWERS {
        if link.sent.as_slice() == answers {
            let wanted = if place == "ask_run" || place == "encode" {
                End::NoMemory
            } else {
                End::Bye
            };
            let is_right = end == wanted && client == Some(Ending::Ended(queued));
            return is_right.then_some(place);
        }
    }
    None
}

// A session of all these requests, and where a growth was refused in it.
fn refused_at_post<R: Wait>(rt: &R, alloc: Global) -> Option<&'static str> {
    let on = Setup {
        is_locked: false,
        ..ON
    };
    let mut link = ByLines::new(ALL, 1);
    let mut text = Vec::new(alloc);
    let seen = at_post(
        rt,
        alloc,
        &on,
        &mut link,
        &mut MemorySink::new(0),
        &mut text,
    );
    refused_in(&link, seen)
}

// It passes whichever growth is refused, and prints where. The session is served twice, so once
// with memory.
#[test]
fn a_post_with_a_refused_growth(rt: HostRuntime) -> Result<(), Fail> {
    let mut refused = 0u64;
    for _ in 0..2 {
        let Some(place) = refused_at_post(&rt, rt.alloc()) else {
            panic!(rt; "it ended otherwise");
        };
        if place != "nothing" {
            println!(rt; "refused at {place}")?;
            refused = refused.saturating_add(1);
        }
    }
    assert!(rt; refused <= 1);
    Ok(())
}
