//! Several seats of one worker: each has shares of its own, and all of them are gathered.
ghost use Rattle.iova_keep.specs.Views.{AreBlanksOf};

use iova_keep::calls;
use iova_keep::keep::Keep;
use iova_keep::ledgers::Blanks;
use iova_keep::names::Names;
use iova_keep::seat::Seat;
use iova_lock::book::Book;
use iova_lock::shared::Shared;
use iova_model::totals::Totals;
use iova_range::bounds::Bounds;
use iova_range::range::Range;
use iova_range::refusal::Refusal;
use iova_sink::memory::MemorySink;
use std::alloc::Global;
use std::marker::Brand;
use std::process::Abort;
use std::sync::Wait;
use std::test::*;

// A client is opened and given a frame at each of five seats, and gives it back at its own.
fn ask_each<B: Names, K: Keep<B> + Copy, R: Abort>(rt: &R, keeper: K, seats: &mut [Seat<B>]) {
    let mut keeper = keeper;
    let mut sink = MemorySink::new(0);
    let mut workers = [9; 5];
    for (at, seat) in seats.iter_mut().enumerate() {
        if let Some(worker) = workers.get_mut(at) {
            *worker = seat.worker();
        }
        assert_eq!(rt; keeper.open(seat, false), Ok(at as u64 + 1));
        let lo = 1023u64.saturating_sub(at as u64);
        assert_eq!(rt;
            keeper.alloc(seat, at as u64 + 1, 1, 1023),
            Ok(Range::new(lo, 1))
        );
        assert_eq!(rt; (seat.count(), seat.frames(), seat.sum_lo()), (1, 1, lo));
    }
    assert_eq!(rt; workers, [0, 1, 0, 1, 0]);
    // the first and the third are one worker's
    if let Some(seat) = seats.get_mut(2) {
        assert_eq!(rt;
            calls::unmap(&mut keeper, seat, &mut sink, 3, 1021),
            Ok(Range::new(1021, 1))
        );
        assert_eq!(rt; (seat.count(), seat.frames(), seat.sum_lo()), (0, 0, 0));
        // its shares are its own
        assert_eq!(rt;
            calls::unmap(&mut keeper, seat, &mut sink, 1, 1023),
            Err(Refusal::NotHeld)
        );
    }
    if let Some(seat) = seats.first_mut() {
        assert_eq!(rt;
            calls::unmap(&mut keeper, seat, &mut sink, 1, 1023),
            Ok(Range::new(1023, 1))
        );
    }
}

// They are gathered once all of them are there.
fn gather_all<B: Names, R: Abort + Wait>(rt: &R, shared: &Shared<&R, B>, seats: Vec<Seat<B>>) {
    let mut seats = seats;
    let last = seats.pop().expect(rt, "a seat");
    match shared.gather(seats) {
        Ok(_) => assert!(rt; false),
        Err(mut few) => {
            assert!(rt; few.push(last).is_ok());
            let totals = Totals {
                count: 3,
                frames: 3,
                sum_lo: 1022 + 1020 + 1019,
            };
            assert_eq!(rt; shared.gather(few).ok(), Some(totals));
        }
    }
}

fn at_five_seats<B: Names, R: Abort + Wait>(rt: &R, alloc: Global, bounds: Bounds, blanks: Blanks)
    requires blanks { AreBlanksOf blanks B.ledgers 5 2 2 }
{
    match Book::<B>::seated(alloc, 7, bounds, 2, 5, None, blanks) {
        Ok((book, mut seats)) => {
            let shared = Shared::over(rt, book);
            ask_each(rt, &shared, &mut seats);
            gather_all(rt, &shared, seats);
            drop(shared);
        }
        Err(_) => assert!(rt; false),
    }
}

#[test]
fn several_seats_of_a_worker(rt: HostRuntime) {
    at_five_seats::<Brand, _>(
        &rt,
        rt.alloc(),
        Bounds::new(1, 1023).expect(&rt, "bounds"),
        Blanks::new(5, 2),
    );
}
