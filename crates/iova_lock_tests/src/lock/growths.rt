//! Calls that pass whichever growth is refused: the call in which it was is printed, and the same
//! call again is good.

use iova_keep::ask::{Ask, Told};
use iova_keep::keep::Keep;
use iova_keep::names::Names;
use iova_keep::seat::Seat;
use iova_range::range::Range;
use iova_range::refusal::Refusal;
use std::alloc::Global;
use std::process::Abort;
use std::test::*;

// A growth was refused in the call.
pub(crate) fn refused<R: Abort + Print>(rt: &R, call: &str) {
    println!(rt; "refused at {call}").expect(rt, "a line");
}

// A client is opened, and given frames 9 and 8.
fn give<B: Names, K: Keep<B>, R: Abort + Print>(rt: &R, keeper: &mut K, seat: &mut Seat<B>) {
    let mut opened = keeper.open(seat, false);
    if opened == Err(Refusal::NoMemory) {
        refused(rt, "open");
        opened = keeper.open(seat, false);
    }
    assert_eq!(rt; opened, Ok(1));
    for frame in [9, 8] {
        let mut given = keeper.alloc(seat, 1, 1, 9);
        if given == Err(Refusal::NoMemory) {
            refused(rt, "alloc");
            given = keeper.alloc(seat, 1, 1, 9);
        }
        assert_eq!(rt; given, Ok(Range::new(frame, 1)));
    }
}

// Its holdings are listed.
fn list<B: Names, K: Keep<B>, R: Abort + Print>(rt: &R, alloc: Global, keeper: &K, seat: &Seat<B>) {
    let mut ranges = Vec::new(alloc);
    let mut listed = keeper.holdings(seat, 1, &mut ranges);
    if listed == Err(Refusal::NoMemory) {
        refused(rt, "holdings");
        listed = keeper.holdings(seat, 1, &mut ranges);
    }
    assert_eq!(rt; listed, Ok(()));
    assert_eq!(rt;
        ranges.as_slice(),
        [Range::new(8, 1), Range::new(9, 1)].as_slice()
    );
}

// Frame 9 is freed twice in a batch. Where that is refused, nothing was done.
fn free<B: Names, K: Keep<B>, R: Abort + Print>(
    rt: &R,
    alloc: Global,
    keeper: &mut K,
    seat: &mut Seat<B>,
) {
    let asks = [Ask::Free { lo: 9 }; 2];
    let before = keeper.stat();
    let mut told = Vec::new(alloc);
    let mut done = keeper.batch(seat, 1, &asks, &mut told);
    if done == Err(Refusal::NoMemory) {
        refused(rt, "batch");
        assert_eq!(rt; keeper.stat(), before);
        done = keeper.batch(seat, 1, &asks, &mut told);
    }
    assert_eq!(rt; done, Ok(2));
    let want = [
        Told::Queued(Range::new(9, 1)),
        Told::Refused(Refusal::NotHeld),
    ];
    assert_eq!(rt; told.as_slice(), want.as_slice());
    assert_eq!(rt;
        (seat.count(), seat.sum_lo(), keeper.stat().ring),
        (1, 8, 1)
    );
}

// Calls that grow.
pub(crate) fn ask<B: Names, K: Keep<B>, R: Abort + Print>(
    rt: &R,
    alloc: Global,
    keeper: &mut K,
    seat: &mut Seat<B>,
) {
    give(rt, keeper, seat);
    list(rt, alloc, keeper, seat);
    free(rt, alloc, keeper, seat);
}
