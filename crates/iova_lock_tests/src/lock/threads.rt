//! Seats in threads of their own: beside a flusher, and beside flushes that wait in their sinks.

use crate::lock::action;
use crate::lock::cases::FlushesInFlight;
use iova_keep::calls;
use iova_keep::keep::Keep;
use iova_keep::names::Names;
use iova_keep::seat::{Seat, Tally};
use iova_range::refusal::Refusal;
use iova_sink::gate::{Flag, GateSink, MAX_TURNS};
use iova_sink::memory::MemorySink;
use std::alloc::Global;
use std::process::Abort;
use std::sync::Wait;
use std::test::*;
use std::thread;
use std::thread::Threads;

// So many tallies with a part each of the seat's.
fn split_off<B: Names, R: Abort>(
    rt: &R,
    alloc: Global,
    seat: &mut Seat<B>,
    tallies: u64,
) -> Vec<Tally<B>> {
    let mut split = Vec::new(alloc);
    for _ in 0..tallies {
        assert!(rt; seat.tally().parts() >= 2);
        split.push(seat.tally().split()).expect(rt, "memory");
    }
    split
}

// Allocates with two clients in turn, and frees every second range.
fn work<B: Names, K: Keep<B> + Copy>(keeper: K, seat: Seat<B>) -> Seat<B> {
    let mut keeper = keeper;
    let mut seat = seat;
    let mut sink = MemorySink::new(0);
    let Ok(first) = keeper.open(&mut seat, false) else {
        return seat;
    };
    let Ok(second) = keeper.open(&mut seat, true) else {
        return seat;
    };
    for i in 0..1000u64 {
        let id = if i % 4 < 2 { first } else { second };
        if let Ok(range) = keeper.alloc(&mut seat, id, 1, 65535) {
            if i % 2 == 1 {
                free(&mut keeper, &mut seat, &mut sink, id, range.lo());
            }
        }
    }
    seat
}

// Frees a range, and tries again where the ring stays full.
fn free<B: Names, K: Keep<B>>(
    keeper: &mut K,
    seat: &mut Seat<B>,
    sink: &mut MemorySink,
    id: u64,
    lo: u64,
) {
    for _turn in 0..MAX_TURNS {
        if calls::unmap(keeper, seat, sink, id, lo) != Err(Refusal::RingFull) {
            return;
        }
        thread::yield_now();
    }
}

// Rounds of the flusher.
fn flush_rounds<B: Names, K: Keep<B> + Copy>(keeper: K, tallies: Vec<Tally<B>>) -> Vec<Tally<B>> {
    let mut keeper = keeper;
    let mut tallies = tallies;
    let mut sink = MemorySink::new(0);
    for _round in 0..200u64 {
        for tally in &mut tallies {
            let _freed = calls::timeout(&mut keeper, tally, &mut sink);
        }
        thread::yield_now();
    }
    tallies
}

// Each seat works in a thread of its own, beside a flusher. The seats, and how many flushes of the
// flusher ended well.
pub(crate) fn beside_flusher<
    B: Names + Send + Sync,
    K: Keep<B> + Copy + Send + Sync,
    R: Threads + Wait + Sync + Abort,
>(rt: &R, alloc: Global, keeper: K, seats: Vec<Seat<B>>) -> (Vec<Seat<B>>, u64) {
    let mut seats = seats;
    let spare = match seats.first_mut() {
        Some(seat) => split_off(rt, alloc, seat, 1),
        None => Vec::new(alloc),
    };
    let (tallies, seats) = thread::join(
        rt,
        move || flush_rounds(keeper, spare),
        move || thread::map_vec(rt, seats, &|seat| work(keeper, seat)),
    );
    let seats = seats.expect(rt, "memory");
    for seat in &seats {
        assert_eq!(rt; seat.count(), 500);
    }
    let mut ended = 0u64;
    for tally in &tallies {
        ended = ended.saturating_add(tally.good());
    }
    (seats, ended)
}

// Flushes, and waits in the sink.
fn flush_at_the_gate<B: Names, K: Keep<B> + Copy>(
    keeper: K,
    tally: Tally<B>,
    inside: &Flag,
    open: &Flag,
) -> Result<u64, Refusal> {
    let mut keeper = keeper;
    let mut tally = tally;
    let mut sink = GateSink::new(inside, open);
    calls::flush(&mut keeper, &mut tally, &mut sink)
}

// Waits until the flushes have begun, asks the rows, and opens the gate.
fn ask_beside<B: Names, K: Keep<B> + Copy, R: Abort>(
    rt: &R,
    alloc: Global,
    keeper: K,
    seat: Seat<B>,
    case: &FlushesInFlight,
    open: &Flag,
) -> Seat<B> {
    let mut keeper = keeper;
    let mut seat = seat;
    for _turn in 0..MAX_TURNS {
        if keeper.stat().start == case.flushes {
            break;
        }
        thread::yield_now();
    }
    assert_eq!(rt; keeper.stat().start, case.flushes);
    action::run(rt, alloc, &mut keeper, &mut seat, false, case.beside);
    open.raise();
    seat
}

// Rows of a seat before flushes, beside them while they wait in their sinks, and after them. The
// seat.
pub(crate) fn beside_flushes<
    B: Names + Send + Sync,
    K: Keep<B> + Copy + Send + Sync,
    R: Threads + Wait + Sync + Abort,
>(rt: &R, alloc: Global, keeper: K, seat: Seat<B>, case: &FlushesInFlight) -> Seat<B> {
    let mut keeper = keeper;
    let mut seat = seat;
    action::run(rt, alloc, &mut keeper, &mut seat, false, case.before);
    let tallies = split_off(rt, alloc, &mut seat, case.flushes);
    let inside = Flag::new();
    let open = Flag::new();
    let waits = &inside;
    let opens = &open;
    let (flushed, mut seat) = thread::join(
        rt,
        move || thread::map_vec(
            rt,
            tallies,
            &|tally| flush_at_the_gate(keeper, tally, waits, opens),
        ),
        move || ask_beside(rt, alloc, keeper, seat, case, opens),
    );
    for flush in &flushed.expect(rt, "memory") {
        assert!(rt; flush.is_ok());
    }
    action::run(rt, alloc, &mut keeper, &mut seat, false, case.after);
    seat
}
