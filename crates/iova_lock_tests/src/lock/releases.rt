//! What is released, which frees a range at once where the domain is strict, and what is to be
//! answered.

use crate::lock::action::Action::*;
use crate::lock::action::Row;
use crate::lock::action::Want::*;

// A range is freed at once where the domain is strict, and its frame is given again; else it waits.
pub(crate) const RELEASED: &[Row] = &[
    (0, Open(false), Always("opened Ok(1)")),
    (
        0,
        Alloc(1, 1, 9),
        Always("given Ok(Range { lo: 9, len: 1 })"),
    ),
    (1, Release(2, 9), Always("released Err(NoClient)")),
    (1, Release(1, 8), Always("released Err(NotHeld)")),
    (
        0,
        Release(1, 9),
        Either(
            "released Ok(Queued(Range { lo: 9, len: 1 }))",
            "released Ok(Freed(Range { lo: 9, len: 1 }))",
        ),
    ),
    (
        0,
        Seat,
        Either(
            "seat (Totals { count: 0, frames: 0, sum_lo: 0 }, 0)",
            "seat (Totals { count: 0, frames: 0, sum_lo: 0 }, 1)",
        ),
    ),
    (
        0,
        Counts,
        Either("counts (0, 1, 0, 0)", "counts (0, 0, 1, 1)"),
    ),
    (
        0,
        Alloc(1, 1, 9),
        Either(
            "given Ok(Range { lo: 8, len: 1 })",
            "given Ok(Range { lo: 9, len: 1 })",
        ),
    ),
];

// Where the sink fails the range waits, and the next flush frees it.
pub(crate) const RELEASED_WITH_A_FAULT: &[Row] = &[
    (0, Open(false), Always("opened Ok(1)")),
    (
        0,
        Alloc(1, 1, 9),
        Always("given Ok(Range { lo: 9, len: 1 })"),
    ),
    (
        1,
        Release(1, 9),
        Always("released Ok(Queued(Range { lo: 9, len: 1 }))"),
    ),
    (
        0,
        Seat,
        Always("seat (Totals { count: 0, frames: 0, sum_lo: 0 }, 0)"),
    ),
    (
        0,
        Counts,
        Either("counts (0, 1, 0, 0)", "counts (0, 1, 1, 0)"),
    ),
    (
        0,
        Alloc(1, 1, 9),
        Always("given Ok(Range { lo: 8, len: 1 })"),
    ),
    (
        0,
        Release(1, 8),
        Either(
            "released Ok(Queued(Range { lo: 8, len: 1 }))",
            "released Ok(Freed(Range { lo: 8, len: 1 }))",
        ),
    ),
    (
        0,
        Counts,
        Either("counts (0, 2, 0, 0)", "counts (0, 0, 2, 2)"),
    ),
];

// At a full ring the flush comes first, and in a strict domain a second one after the unmap.
pub(crate) const RELEASED_AT_A_FULL_RING: &[Row] = &[
    (0, Open(false), Always("opened Ok(1)")),
    (0, Fill(1, 256, 255), Always("filled Ok(())")),
    (1, Release(1, 3840), Always("released Err(RingFull)")),
    (0, Counts, Always("counts (1, 255, 1, 0)")),
    (
        0,
        Release(1, 3840),
        Either(
            "released Ok(Queued(Range { lo: 3840, len: 1 }))",
            "released Ok(Freed(Range { lo: 3840, len: 1 }))",
        ),
    ),
    (
        0,
        Counts,
        Either("counts (0, 1, 2, 2)", "counts (0, 0, 3, 3)"),
    ),
];

// The second flush after a full ring fails.
pub(crate) const RELEASED_WITH_A_SECOND_FAULT: &[Row] = &[
    (0, Open(false), Always("opened Ok(1)")),
    (0, Fill(1, 256, 255), Always("filled Ok(())")),
    (
        2,
        Release(1, 3840),
        Always("released Ok(Queued(Range { lo: 3840, len: 1 }))"),
    ),
    (
        0,
        Seat,
        Always("seat (Totals { count: 0, frames: 0, sum_lo: 0 }, 1)"),
    ),
    (
        0,
        Counts,
        Either("counts (0, 1, 1, 1)", "counts (0, 1, 2, 1)"),
    ),
];

// While an older flush is in flight a range waits, though its own flush ended well.
pub(crate) const RELEASED_BESIDE_A_FLUSH: &[Row] = &[
    (0, Open(false), Always("opened Ok(1)")),
    (
        0,
        Alloc(1, 1, 9),
        Always("given Ok(Range { lo: 9, len: 1 })"),
    ),
    (0, Begin(1), Always("begun Some(Begun(1))")),
    (
        0,
        Release(1, 9),
        Always("released Ok(Queued(Range { lo: 9, len: 1 }))"),
    ),
    (
        0,
        Counts,
        Either("counts (0, 1, 1, 0)", "counts (0, 1, 2, 1)"),
    ),
    (0, End(1), Always("flush Some(Ended)")),
    (
        0,
        Alloc(1, 1, 8),
        Always("given Ok(Range { lo: 8, len: 1 })"),
    ),
    (
        0,
        Release(1, 8),
        Either(
            "released Ok(Queued(Range { lo: 8, len: 1 }))",
            "released Ok(Freed(Range { lo: 8, len: 1 }))",
        ),
    ),
    (
        0,
        Counts,
        Either("counts (0, 2, 1, 1)", "counts (0, 0, 3, 3)"),
    ),
];

// No flush can begin: a range that was queued waits, at a full ring it stays, and the sink isn't
// called.
pub(crate) const RELEASED_WITHOUT_A_FLUSH: &[Row] = &[
    (0, Open(false), Always("opened Ok(1)")),
    (
        0,
        Alloc(1, 1, 9),
        Always("given Ok(Range { lo: 9, len: 1 })"),
    ),
    (0, Begin(32), Always("begun Some(Begun(32))")),
    (0, Begin(1), Always("begun Some(Refused(FlightsFull))")),
    (
        1,
        Release(1, 9),
        Always("released Ok(Queued(Range { lo: 9, len: 1 }))"),
    ),
    (0, Counts, Always("counts (0, 1, 32, 0)")),
    (0, Fill(1, 255, 254), Always("filled Ok(())")),
    (1, Release(1, 3841), Always("released Err(RingFull)")),
    (0, Counts, Always("counts (1, 255, 32, 0)")),
];
