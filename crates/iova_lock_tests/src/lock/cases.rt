//! What is asked, and what is to be answered.

use crate::lock::action::Action::*;
use crate::lock::action::Row;
use crate::lock::action::Want::*;
use crate::lock::random::LAST;
use crate::lock::releases::{
    RELEASED, RELEASED_AT_A_FULL_RING, RELEASED_BESIDE_A_FLUSH, RELEASED_WITH_A_FAULT,
    RELEASED_WITH_A_SECOND_FAULT, RELEASED_WITHOUT_A_FLUSH,
};
use iova_keep::ask::Ask;

/// What a case asks.
#[derive(Drop)]
pub(crate) enum Task {
    /// Rows of the first seat.
    Rows(&'static [Row]),
    /// Calls of two seats in turn, by numbers from a fixed seed.
    Random,
    /// Calls of the first seat that pass whichever growth is refused.
    Growths,
    /// Each seat works in a thread of its own, beside a flusher.
    Workers,
    /// Rows of a seat beside flushes that wait in their sinks.
    BesideFlushes(&'static FlushesInFlight),
}

/// So many flushes, and rows before they begin, while all are in flight, and after them.
pub(crate) struct FlushesInFlight {
    pub(crate) flushes: u64,
    pub(crate) before: &'static [Row],
    pub(crate) beside: &'static [Row],
    pub(crate) after: &'static [Row],
}

/// A new domain of frames 1 to `last` with 16 workers, of which so many pairs are recorded, and
/// what is recorded at the end, in so many steps.
#[derive(Drop)]
pub(crate) struct Made {
    pub(crate) last: u64,
    pub(crate) pairs: usize,
    pub(crate) record: &'static str,
    pub(crate) steps: u64,
}

/// What is asked, of which domain.
pub(crate) type Case = (Task, Made);

/// The cases before this one are of a book and of the lock round one.
pub(crate) const THREADS: usize = 15;

/// Those from `THREADS` to this one are of the lock alone, and those behind it are run with each
/// growth refused in turn.
pub(crate) const GROWTHS: usize = 18;

/// How many cases there are.
pub(crate) const ALL: usize = 20;

const PLAIN: Made = Made {
    last: 4095,
    pairs: 0,
    record: "iovatrace 1 1 4095 16\n",
    steps: 0,
};

const WIDE: Made = Made {
    last: LAST,
    pairs: 0,
    record: "iovatrace 1 1 2097151 16\n",
    steps: 0,
};

const WITH_ROOM: Made = Made {
    last: 4095,
    pairs: 100,
    record: TRACE,
    steps: 23,
};

// The third step ends the recording, and the calls are answered as before.
const WITH_LITTLE_ROOM: Made = Made {
    last: 4095,
    pairs: 2,
    record: TWO_STEPS,
    steps: 2,
};

/// The case of this number. It is sought where it is run, since a signature that names `'static`
/// beside a lock gets no proof.
pub(crate) fn case(no: usize) -> Case {
    match no {
        0 => (Task::Rows(ONE_CLIENT), PLAIN),
        1 => (Task::Rows(FULL_RING), PLAIN),
        2 => (Task::Rows(WAITING), PLAIN),
        3 => (Task::Rows(FAILING), PLAIN),
        4 => (Task::Rows(RELEASED), PLAIN),
        5 => (Task::Rows(RELEASED_WITH_A_FAULT), PLAIN),
        6 => (Task::Rows(RELEASED_AT_A_FULL_RING), PLAIN),
        7 => (Task::Rows(RELEASED_WITH_A_SECOND_FAULT), PLAIN),
        8 => (Task::Rows(RELEASED_BESIDE_A_FLUSH), PLAIN),
        9 => (Task::Rows(RELEASED_WITHOUT_A_FLUSH), PLAIN),
        10 => (Task::Rows(FREED_IN_A_BATCH), PLAIN),
        11 => (Task::Rows(RECORDED), WITH_ROOM),
        12 => (Task::Rows(RECORDED), WITH_LITTLE_ROOM),
        13 => (Task::Rows(WAITING_BESIDE_A_FLUSH), PLAIN),
        14 => (Task::Random, WIDE),
        15 => (Task::Workers, WIDE),
        16 => (Task::BesideFlushes(ONE_FLUSH), PLAIN),
        17 => (Task::BesideFlushes(ALL_FLUSHES), PLAIN),
        18 => (Task::Growths, PLAIN),
        _ => (Task::Growths, WITH_ROOM),
    }
}

// A client's life. The last call of the sink doesn't come.
const ONE_CLIENT: &[Row] = &[
    (0, Number, Always("number 7")),
    (0, Open(false), Always("opened Ok(1)")),
    (
        0,
        Alloc(1, 3, 1023),
        Always("given Ok(Range { lo: 1020, len: 4 })"),
    ),
    (
        0,
        Seat,
        Always("seat (Totals { count: 1, frames: 4, sum_lo: 1020 }, 0)"),
    ),
    (
        0,
        Totals,
        Always("totals Totals { count: 1, frames: 4, sum_lo: 1020 }"),
    ),
    (
        0,
        Holdings(1),
        Always("listed (Ok(()), [Range { lo: 1020, len: 4 }])"),
    ),
    (0, Holdings(2), Always("listed (Err(NoClient), [])")),
    (
        1,
        Unmap(1, 1020),
        Always("unmapped Ok(Range { lo: 1020, len: 4 })"),
    ),
    (
        0,
        Seat,
        Always("seat (Totals { count: 0, frames: 0, sum_lo: 0 }, 0)"),
    ),
    (1, Unmap(1, 1020), Always("unmapped Err(NotHeld)")),
    (2, Flush, Always("flushed Ok(1)")),
    (
        0,
        Seat,
        Always("seat (Totals { count: 0, frames: 0, sum_lo: 0 }, 1)"),
    ),
    (0, DrainAll(0), Always("drained Ok(1)")),
    (0, DrainAll(16), Always("drained Err(NoWorker)")),
    (1, Timeout, Always("timed_out Ok(0)")),
    (0, Stat, Always("stat [4091, 0, 0, 4, 0, 0, 1, 1]")),
    (1, EndClient(1), Always("ended Ok(Ended(0))")),
    (1, EndClient(1), Always("ended Err(NoClient)")),
];

// A batch that a full ring stops, the unmap that flushes, and a batch of all kinds. In a strict
// domain no free is in a batch.
const FULL_RING: &[Row] = &[
    (0, Open(false), Always("opened Ok(1)")),
    (0, Fill(1, 256, 250), Always("filled Ok(())")),
    (
        0,
        Seat,
        Always("seat (Totals { count: 6, frames: 6, sum_lo: 23055 }, 0)"),
    ),
    (
        0,
        Batch(
            1,
            &[
                Ask::Free { lo: 3845 },
                Ask::Free { lo: 3844 },
                Ask::Free { lo: 3843 },
                Ask::Free { lo: 3842 },
                Ask::Free { lo: 3841 },
                Ask::Free { lo: 3840 },
            ],
        ),
        Either(
            "batched (Ok(5), [Queued(Range { lo: 3845, len: 1 }), Queued(Range { lo: 3844, len: 1 }), \
             Queued(Range { lo: 3843, len: 1 }), Queued(Range { lo: 3842, len: 1 }), \
             Queued(Range { lo: 3841, len: 1 })])",
            "batched (Ok(0), [])",
        ),
    ),
    (
        0,
        Counts,
        Either("counts (1, 255, 0, 0)", "counts (6, 250, 0, 0)"),
    ),
    (
        2,
        Unmap(1, 3840),
        Always("unmapped Ok(Range { lo: 3840, len: 1 })"),
    ),
    (
        0,
        Seat,
        Either(
            "seat (Totals { count: 0, frames: 0, sum_lo: 0 }, 1)",
            "seat (Totals { count: 5, frames: 5, sum_lo: 19215 }, 0)",
        ),
    ),
    (
        0,
        Batch(
            1,
            &[
                Ask::Stat,
                Ask::Alloc {
                    frames: 1,
                    limit: 9,
                },
                Ask::Alloc {
                    frames: 0,
                    limit: 9,
                },
                Ask::Free { lo: 9 },
            ],
        ),
        Either(
            "batched (Ok(4), [Stat(Stat { free: 3839, reserved: 0, client: 0, magazine: 255, depot: 0, ring: 1, \
             start: 1, finish: 1 }), Given(Range { lo: 9, len: 1 }), Refused(Zero), Queued(Range { lo: 9, len: 1 })])",
            "batched (Ok(3), [Stat(Stat { free: 3839, reserved: 0, client: 5, magazine: 0, depot: 0, ring: 251, \
             start: 0, finish: 0 }), Given(Range { lo: 9, len: 1 }), Refused(Zero)])",
        ),
    ),
];

// An end that waits, and the same again once the sink is good.
const WAITING: &[Row] = &[
    (0, Open(false), Always("opened Ok(1)")),
    (0, Fill(1, 256, 0), Always("filled Ok(())")),
    (
        0,
        Seat,
        Always("seat (Totals { count: 256, frames: 256, sum_lo: 1015680 }, 0)"),
    ),
    (1, EndClient(1), Always("ended Ok(Waiting(1, SinkFailed))")),
    (
        0,
        Seat,
        Always("seat (Totals { count: 1, frames: 1, sum_lo: 4095 }, 0)"),
    ),
    (0, Counts, Always("counts (1, 255, 1, 0)")),
    (0, Alloc(1, 1, 9), Always("given Err(Closing)")),
    (0, EndClient(1), Always("ended Ok(Ended(1))")),
    (
        0,
        Seat,
        Always("seat (Totals { count: 0, frames: 0, sum_lo: 0 }, 1)"),
    ),
    (0, Counts, Always("counts (0, 1, 2, 2)")),
];

// An end whose own flush ends well beside an older one that is in flight.
const WAITING_BESIDE_A_FLUSH: &[Row] = &[
    (0, Open(false), Always("opened Ok(1)")),
    (0, Fill(1, 256, 0), Always("filled Ok(())")),
    (0, Begin(1), Always("begun Some(Begun(1))")),
    (0, EndClient(1), Always("ended Ok(Waiting(1, Overlap))")),
    (0, Counts, Always("counts (1, 255, 2, 1)")),
    (0, End(1), Always("flush Some(Ended)")),
    (0, EndClient(1), Always("ended Ok(Ended(1))")),
    (0, Counts, Always("counts (0, 1, 2, 2)")),
];

// Each call that makes calls of a sink, over a sink that fails at each of them in turn, and then
// the call once more, which ends well. The ends are of clients with 900 holdings, beside three of
// another one.
const FAILING: &[Row] = &[
    (0, Open(false), Always("opened Ok(1)")),
    (0, Fill(1, 256, 255), Always("filled Ok(())")),
    (1, Unmap(1, 3840), Always("unmapped Err(RingFull)")),
    (
        0,
        Seat,
        Always("seat (Totals { count: 1, frames: 1, sum_lo: 3840 }, 0)"),
    ),
    (0, Counts, Always("counts (1, 255, 1, 0)")),
    (
        0,
        Unmap(1, 3840),
        Always("unmapped Ok(Range { lo: 3840, len: 1 })"),
    ),
    (
        0,
        Seat,
        Always("seat (Totals { count: 0, frames: 0, sum_lo: 0 }, 1)"),
    ),
    (0, Counts, Always("counts (0, 1, 2, 2)")),
    (1, Flush, Always("flushed Err(SinkFault)")),
    (0, Flush, Always("flushed Ok(4)")),
    (1, Timeout, Always("timed_out Err(SinkFault)")),
    (0, Counts, Always("counts (0, 1, 5, 4)")),
    (0, Timeout, Always("timed_out Ok(1)")),
    (0, Counts, Always("counts (0, 0, 6, 6)")),
    (0, Open(false), Always("opened Ok(2)")),
    (0, Fill(2, 3, 0), Always("filled Ok(())")),
    (
        0,
        Seat,
        Always("seat (Totals { count: 3, frames: 3, sum_lo: 11523 }, 3)"),
    ),
    (0, Open(false), Always("opened Ok(3)")),
    (0, Fill(3, 900, 0), Always("filled Ok(())")),
    (
        1,
        EndClient(3),
        Always("ended Ok(Waiting(645, SinkFailed))"),
    ),
    (0, Counts, Always("counts (648, 255, 7, 6)")),
    (0, EndClient(3), Always("ended Ok(Ended(645))")),
    (0, Counts, Always("counts (3, 135, 10, 10)")),
    (0, Timeout, Always("timed_out Ok(135)")),
    (0, Open(false), Always("opened Ok(4)")),
    (0, Fill(4, 900, 0), Always("filled Ok(())")),
    (
        2,
        EndClient(4),
        Always("ended Ok(Waiting(390, SinkFailed))"),
    ),
    (0, Counts, Always("counts (393, 255, 13, 12)")),
    (0, EndClient(4), Always("ended Ok(Ended(390))")),
    (0, Counts, Always("counts (3, 135, 15, 15)")),
    (0, Timeout, Always("timed_out Ok(135)")),
    (0, Open(false), Always("opened Ok(5)")),
    (0, Fill(5, 900, 0), Always("filled Ok(())")),
    (
        3,
        EndClient(5),
        Always("ended Ok(Waiting(135, SinkFailed))"),
    ),
    (0, Counts, Always("counts (138, 255, 19, 18)")),
    (0, EndClient(5), Always("ended Ok(Ended(135))")),
    (0, Counts, Always("counts (3, 135, 20, 20)")),
    (0, Timeout, Always("timed_out Ok(135)")),
    (0, Open(false), Always("opened Ok(6)")),
    (0, Fill(6, 900, 0), Always("filled Ok(())")),
    (4, EndClient(6), Always("ended Ok(Ended(900))")),
    (0, Counts, Always("counts (3, 135, 24, 24)")),
    (
        0,
        Seat,
        Always("seat (Totals { count: 3, frames: 3, sum_lo: 11523 }, 18)"),
    ),
    (1, EndClient(1), Always("ended Ok(Ended(0))")),
    (1, EndClient(7), Always("ended Err(NoClient)")),
];

// A batch stops before a free where the domain is strict.
const FREED_IN_A_BATCH: &[Row] = &[
    (0, Open(false), Always("opened Ok(1)")),
    (
        0,
        Batch(
            1,
            &[
                Ask::Alloc {
                    frames: 1,
                    limit: 9,
                },
                Ask::Free { lo: 9 },
                Ask::Stat,
            ],
        ),
        Either(
            "batched (Ok(3), [Given(Range { lo: 9, len: 1 }), Queued(Range { lo: 9, len: 1 }), Stat(Stat { \
             free: 4094, reserved: 0, client: 0, magazine: 0, depot: 0, ring: 1, start: 0, finish: 0 })])",
            "batched (Ok(1), [Given(Range { lo: 9, len: 1 })])",
        ),
    ),
    (
        0,
        Counts,
        Either("counts (0, 1, 0, 0)", "counts (1, 0, 0, 0)"),
    ),
    (
        0,
        Batch(1, &[Ask::Free { lo: 9 }]),
        Either("batched (Ok(1), [Refused(NotHeld)])", "batched (Ok(0), [])"),
    ),
    (
        0,
        Counts,
        Either("counts (0, 1, 0, 0)", "counts (1, 0, 0, 0)"),
    ),
];

const RECORDED: &[Row] = &[
    (0, Open(false), Always("opened Ok(1)")),
    (
        0,
        Alloc(1, 3, 1023),
        Always("given Ok(Range { lo: 1020, len: 4 })"),
    ),
    (
        0,
        Unmap(1, 1020),
        Always("unmapped Ok(Range { lo: 1020, len: 4 })"),
    ),
    (0, Unmap(1, 1020), Always("unmapped Err(NotHeld)")),
    (0, Flush, Always("flushed Ok(1)")),
    (0, DrainAll(0), Always("drained Ok(1)")),
    (0, EndClient(1), Always("ended Ok(Ended(0))")),
];

const TWO_STEPS: &str = "iovatrace 1 1 4095 16
open 0 dac
alloc 0 1 3 1023
";

const TRACE: &str = "iovatrace 1 1 4095 16
open 0 dac
alloc 0 1 3 1023
unmap 0 1 1020
unmap 0 1 1020
begin
end 1 ok
drain 0 0
drain 1 0
drain 2 0
drain 3 0
drain 4 0
drain 5 0
drain 6 0
drain 7 0
drain 8 0
drain 9 0
drain 10 0
drain 11 0
drain 12 0
drain 13 0
drain 14 0
drain 15 0
closeone 0 1
";

// A request is given beside a flush, and another flush fails beside it: its credit is owed.
const ONE_FLUSH: &FlushesInFlight = &FlushesInFlight {
    flushes: 1,
    before: &[(0, Open(false), Always("opened Ok(1)"))],
    beside: &[
        (
            0,
            Alloc(1, 1, 9),
            Always("given Ok(Range { lo: 9, len: 1 })"),
        ),
        (1, Flush, Always("flushed Err(SinkFault)")),
    ],
    after: &[(0, Counts, Always("counts (1, 0, 2, 1)"))],
};

// With a full ring and all flushes in flight no other one begins. Then the ring is emptied.
const ALL_FLUSHES: &FlushesInFlight = &FlushesInFlight {
    flushes: 32,
    before: &[
        (0, Open(false), Always("opened Ok(1)")),
        (0, Fill(1, 256, 255), Always("filled Ok(())")),
    ],
    beside: &[
        (1, Flush, Always("flushed Err(FlightsFull)")),
        (1, Unmap(1, 3840), Always("unmapped Err(RingFull)")),
        (1, EndClient(1), Always("ended Ok(Waiting(1, FlightsFull))")),
    ],
    after: &[
        (0, Counts, Always("counts (1, 255, 32, 32)")),
        (0, Timeout, Always("timed_out Ok(255)")),
        (0, Counts, Always("counts (1, 0, 33, 33)")),
        (0, EndClient(1), Always("ended Ok(Ended(1))")),
    ],
};
