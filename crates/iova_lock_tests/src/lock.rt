//! A book and the lock round one: what each call answers, what it records, what takes threads, and
//! refused growths.
ghost use Rattle.iova_keep.specs.Views.{AreBlanksOf};

use crate::lock::cases::{ALL, GROWTHS, THREADS, Task, case};
use iova_keep::keep::Keep;
use iova_keep::ledgers::Blanks;
use iova_keep::names::Names;
use iova_keep::seat::Seat;
use iova_lock::book::Book;
use iova_lock::crossing::books_are_send;
use iova_lock::shared::Shared;
use iova_range::bounds::Bounds;
use iova_range::refusal::Refusal;
use std::alloc::Global;
use std::marker::Brand;
use std::process::Abort;
use std::sync::Wait;
use std::test::*;
use std::thread::Threads;

mod action;
mod cases;
mod growths;
mod random;
mod releases;
mod several;
mod threads;

// What a case asks of one seat, or of two in turn. What was answered, where the case doesn't say
// what is to be.
fn run<B: Names, K: Keep<B>, R: Abort + Print>(
    rt: &R,
    alloc: Global,
    keeper: &mut K,
    seats: &mut Vec<Seat<B>>,
    strict: bool,
    no: usize,
) -> Vec<String> {
    let case = case(no);
    if let Task::Random = case.0 {
        return random::said_by(rt, alloc, keeper, seats);
    }
    if let Some(seat) = seats.first_mut() {
        match case.0 {
            Task::Rows(rows) => action::run(rt, alloc, keeper, seat, strict, rows),
            _ => growths::ask(rt, alloc, keeper, seat),
        }
    }
    Vec::new(alloc)
}

// Runs the cases over a keeper that threads share, and those that need threads. Answers the seats,
// how many flushes of split tallies ended well, and what was answered.
fn run_shared<
    B: Names + Send + Sync,
    K: Keep<B> + Copy + Send + Sync,
    R: Threads + Wait + Sync + Abort + Print,
>(
    rt: &R,
    alloc: Global,
    keeper: K,
    seats: Vec<Seat<B>>,
    strict: bool,
    no: usize,
) -> (Vec<Seat<B>>, u64, Vec<String>) {
    let mut keeper = keeper;
    let mut seats = seats;
    match case(no).0 {
        Task::Workers => {
            let (seats, ended) = threads::beside_flusher(rt, alloc, keeper, seats);
            (seats, ended, Vec::new(alloc))
        }
        Task::BesideFlushes(beside) => {
            let seat = seats.pop().expect(rt, "a seat");
            let seat = threads::beside_flushes(rt, alloc, keeper, seat, beside);
            assert!(rt; seats.push(seat).is_ok());
            (seats, beside.flushes, Vec::new(alloc))
        }
        _ => {
            let said = run(rt, alloc, &mut keeper, &mut seats, strict, no);
            (seats, 0, said)
        }
    }
}

fn in_a_book<B: Names, R: Abort + Print>(
    rt: &R,
    alloc: Global,
    bounds: Bounds,
    strict: bool,
    no: usize,
    blanks: Blanks,
) -> Vec<String>
    requires blanks { AreBlanksOf blanks B.ledgers 16 256 16 }
{
    match Book::<B>::new(alloc, 7, bounds, 16, blanks) {
        Ok((book, mut seats)) => {
            let mut book = if strict { book.strict() } else { book };
            let said = run(rt, alloc, &mut book, &mut seats, strict, no);
            drop(seats);
            drop(book);
            said
        }
        Err(refusal) => {
            assert_eq!(rt; refusal, Refusal::NoMemory);
            growths::refused(rt, "Book::new");
            Vec::new(alloc)
        }
    }
}

fn under_a_lock<B: Names + Send + Sync, R: Threads + Wait + Sync + Abort + Print>(
    rt: &R,
    alloc: Global,
    bounds: Bounds,
    strict: bool,
    no: usize,
    blanks: Blanks,
) -> Vec<String>
    requires blanks { AreBlanksOf blanks B.ledgers 16 256 16 }
{
    let pairs = case(no).1.pairs;
    let recorded = 0 < pairs && pairs <= 100;
    let made = if recorded {
        Shared::<&R, B>::recorded(rt, alloc, 7, bounds, 16, pairs, blanks)
    } else {
        Shared::<&R, B>::new(rt, alloc, 7, bounds, 16, blanks)
    };
    match made {
        Ok((shared, seats)) => {
            let shared = if strict { shared.strict() } else { shared };
            // for the proof: a book may go to another thread
            books_are_send::<B>();
            let (seats, ended, said) = run_shared(rt, alloc, &shared, seats, strict, no);
            is_recorded(rt, alloc, &shared, no);
            let good = gathered(rt, &shared, seats).saturating_add(ended);
            let domain = shared.into_domain();
            assert_eq!(rt; domain.good(), good);
            drop(domain);
            said
        }
        Err(refusal) => {
            assert_eq!(rt; refusal, Refusal::NoMemory);
            growths::refused(
                rt,
                if recorded {
                    "Shared::recorded"
                } else {
                    "Shared::new"
                },
            );
            Vec::new(alloc)
        }
    }
}

// The seats' shares add up to the totals. How many flushes the seats ended well.
fn gathered<B: Names, R: Abort + Wait>(rt: &R, shared: &Shared<&R, B>, seats: Vec<Seat<B>>) -> u64 {
    let mut seats = seats;
    let mut good = 0u64;
    let mut sums = (0u64, 0u64, 0u64);
    for seat in &mut seats {
        good = good.saturating_add(seat.tally().good());
        sums = (
            sums.0.saturating_add(seat.count()),
            sums.1.saturating_add(seat.frames()),
            sums.2.saturating_add(seat.sum_lo()),
        );
    }
    match shared.gather(seats) {
        Ok(totals) => assert_eq!(rt; (totals.count, totals.frames, totals.sum_lo), sums),
        Err(_) => assert!(rt; false),
    }
    good
}

// What is recorded is what the case says, or begins so where growths are refused.
fn is_recorded<B: Names, R: Abort + Print + Wait>(
    rt: &R,
    alloc: Global,
    shared: &Shared<&R, B>,
    no: usize,
) {
    let case = case(no);
    let mut text = Vec::new(alloc);
    let mut steps = shared.transcript(&mut text);
    if steps == Err(Refusal::NoMemory) {
        growths::refused(rt, "transcript");
        steps = shared.transcript(&mut text);
    }
    if let Task::Growths = case.0 {
        assert!(rt; steps.is_ok());
        return;
    }
    assert_eq!(rt; text.as_slice(), case.1.record.as_bytes());
    assert_eq!(rt; steps, Ok(case.1.steps));
    assert_eq!(rt; shared.recording(), case.1.steps < case.1.pairs as u64);
}

// Whether a line begins so.
fn has(said: &Vec<String>, front: &str) -> bool {
    said.iter().any(|line| line.starts_with(front))
}

// A lock and its book were answered alike, and the random calls were answered as expected.
fn are_alike<R: Abort>(rt: &R, of_book: &Vec<String>, of_lock: &Vec<String>, strict: bool) {
    assert_eq!(rt; of_lock.len(), of_book.len());
    for (a, b) in of_lock.iter().zip(of_book.as_slice()) {
        assert_eq!(rt; a.as_str(), b.as_str());
    }
    for line in [
        "batched (Ok(2)",
        "released Ok(Queued(",
        "listed (Ok(()), [Range",
    ] {
        assert!(rt; has(of_book, line), "{line}");
    }
    // a ring that each release drains doesn't fill up
    for line in [
        "unmapped Err(RingFull)",
        "released Err(RingFull)",
        "ended Ok(Waiting(",
    ] {
        assert!(rt; strict || has(of_book, line), "{line}");
    }
    assert_eq!(rt; has(of_book, "released Ok(Freed("), strict);
}

#[test]
fn a_book_and_a_lock(rt: HostRuntime) {
    for strict in [false, true] {
        for no in 0..THREADS {
            let of_book = in_a_book::<Brand, _>(
                &rt,
                rt.alloc(),
                Bounds::new(1, case(no).1.last).expect(&rt, "bounds"),
                strict,
                no,
                Blanks::new(16, 256),
            );
            let of_lock = under_a_lock::<Brand, _>(
                &rt,
                rt.alloc(),
                Bounds::new(1, case(no).1.last).expect(&rt, "bounds"),
                strict,
                no,
                Blanks::new(16, 256),
            );
            if let Task::Random = case(no).0 {
                are_alike(&rt, &of_book, &of_lock, strict);
            }
        }
    }
}

#[test]
fn threads_of_a_lock(rt: HostRuntime) {
    for strict in [false, true] {
        for no in THREADS..GROWTHS {
            let _said = under_a_lock::<Brand, _>(
                &rt,
                rt.alloc(),
                Bounds::new(1, case(no).1.last).expect(&rt, "bounds"),
                strict,
                no,
                Blanks::new(16, 256),
            );
        }
    }
}

#[test]
fn refused_growths(rt: HostRuntime) {
    for no in GROWTHS..ALL {
        let _said = in_a_book::<Brand, _>(
            &rt,
            rt.alloc(),
            Bounds::new(1, case(no).1.last).expect(&rt, "bounds"),
            false,
            no,
            Blanks::new(16, 256),
        );
        let _said = under_a_lock::<Brand, _>(
            &rt,
            rt.alloc(),
            Bounds::new(1, case(no).1.last).expect(&rt, "bounds"),
            false,
            no,
            Blanks::new(16, 256),
        );
    }
}
