//! A plan's new domain, the windows that are reserved in it, and its posts.
ghost use Rattle.std.specs.Prelude.{◌≡◌, [], ◌∷◌, IfErr, IfOk, IfSome, map};
ghost use Rattle.iova_range.specs.declared.limits.TheConstants.{SEAT_PARTS};
ghost use Rattle.iova_keep.specs.Views.{AreBlanksOf, IsReserveRefusal, seats_in_turn};
ghost use Rattle.iova_planned.specs.PlannedDomains.{AreNewSeats, IsReserved, planned_book, seat_count, steps_of};

use crate::seats::seat_count;
use iova_command::plan::Plan;
use iova_keep::keep::Keep;
use iova_keep::ledgers::Blanks;
use iova_keep::names::Names;
use iova_keep::seat::Seat;
use iova_lock::book::Book;
use iova_lock::shared::Shared;
use iova_range::bounds::Bounds;
use iova_range::limits::RECORDED_STEPS;
use iova_range::range::Range;
use iova_range::refusal::Refusal;
use iova_regions::windows::Windows;
use iova_session::post::{Post, posts_at};
use std::alloc::Global;

/// The plan's domain under a lock, and a post at each of its seats. None for want of memory.
pub fn new_domain<'a, R, B>(
    rt: &'a R,
    plan: &Plan<'_>,
    bounds: Bounds,
    windows: &Windows,
    blanks: Blanks,
) -> Option<(Shared<&'a R, B>, Vec<Post<B>>)>
where
    R: AllocGlobal,
    B: Names,
    requires blanks { AreBlanksOf blanks B.ledgers (seat_count plan.now) SEAT_PARTS
        plan.now.workers }
    ensures number { IfSome result (λ r. r.0.number ≡ plan.now.domain) }
    ensures workers { IfSome result (λ r. r.0.workers ≡ plan.now.workers) }
    ensures seats { IfSome result (λ r. AreNewSeats r.0 (map (λ p. p.seat) r.1.items)) }
    ensures count { IfSome result (λ r. r.0.seats ≡ seat_count plan.now) }
    ensures strict { IfSome result (λ r. r.0.strict ≡ plan.now.strict) }
    ensures begun { IfSome result (λ r. IsReserved windows.now (planned_book plan.now bounds)
        r.0.begun) }
{
    match reserved_book(rt.alloc(), plan, bounds, windows, blanks) {
        Some((book, seats)) => posted(rt.alloc(), Shared::over(rt, book), seats),
        None => None,
    }
}

/// The plan's new domain, in which these windows are reserved, and its seats. None for want of
/// memory.
fn reserved_book<B: Names>(
    alloc: Global,
    plan: &Plan<'_>,
    bounds: Bounds,
    windows: &Windows,
    blanks: Blanks,
) -> Option<(Book<B>, Vec<Seat<B>>)>
    requires blanks { AreBlanksOf blanks B.ledgers (seat_count plan.now) SEAT_PARTS
        plan.now.workers }
    ensures reserved { IfSome result (λ r. IsReserved windows.now (planned_book plan.now bounds)
        r.0) }
    ensures workers { IfSome result (λ r. r.0.state.workers ≡ plan.now.workers) }
    ensures seats { IfSome result (λ r. r.1.items
        ≡ seats_in_turn SEAT_PARTS plan.now.workers (seat_count plan.now)) }
{
    let Some((mut book, seats)) = book_of(alloc, plan, bounds, blanks) else {
        return None;
    };
    match reserve_all(&mut book, windows.ranges()) {
        Ok(()) => Some((book, seats)),
        Err(_) => {
            drop(seats);
            drop(book);
            None
        }
    }
}

/// Reserves these windows in the book, in their order, up to the first one that is refused.
fn reserve_all<B: Names>(book: &mut Book<B>, windows: &[Range]) -> Result<(), Refusal>
    ensures reserved { IfOk result (λ u. IsReserved windows.now book.old book.new) }
    ensures refused { IfErr result IsReserveRefusal }
    ensures workers { book.new.state.workers ≡ book.old.state.workers }
{
    let Some((window, more)) = windows.split_first() else {
        return Ok(());
    };
    reserve(book, *window)?;
    reserve_all(book, more)
}

/// Reserves this window in the book.
#[tactic(auto, using(crate::proofs::Reserving::reserved_window))]
fn reserve<B: Names>(book: &mut Book<B>, window: Range) -> Result<(), Refusal>
    ensures reserved { IfOk result (λ u. IsReserved (window ∷ []) book.old book.new) }
    ensures refused { IfErr result IsReserveRefusal }
    ensures workers { book.new.state.workers ≡ book.old.state.workers }
{
    // for the proof: a domain keeps its workers
    book.is_kept();
    let reserved = Keep::<B>::reserve(book, window.lo(), window.hi());
    book.is_kept();
    match reserved {
        Ok(_window) => Ok(()),
        Err(refusal) => Err(refusal),
    }
}

/// The plan's new domain, recorded and strict where the plan says so, and its seats. None for want
/// of memory.
fn book_of<B: Names>(
    alloc: Global,
    plan: &Plan<'_>,
    bounds: Bounds,
    blanks: Blanks,
) -> Option<(Book<B>, Vec<Seat<B>>)>
    requires blanks { AreBlanksOf blanks B.ledgers (seat_count plan.now) SEAT_PARTS
        plan.now.workers }
    ensures { IfSome result (λ r. (r.0 ≡ planned_book plan.now bounds)
        × (r.1.items ≡ seats_in_turn SEAT_PARTS plan.now.workers (seat_count plan.now))) }
{
    let pairs = match plan.record {
        Some(_) => Some(most_steps(plan)),
        None => None,
    };
    let made = Book::seated(
        alloc,
        plan.domain,
        bounds,
        plan.workers,
        seat_count(plan),
        pairs,
        blanks,
    );
    match made {
        Ok((book, seats)) => if plan.strict {
            Some((book.strict(), seats))
        } else {
            Some((book, seats))
        },
        Err(_) => None,
    }
}

/// How many steps are recorded, where a record is wanted.
fn most_steps(plan: &Plan<'_>) -> usize
    ensures { result ≡ steps_of plan.now.record_steps }
{
    plan.record_steps.unwrap_or(RECORDED_STEPS) as usize
}

/// The domain, and a post at each seat. None for want of memory.
fn posted<Q: Drop, B: Names>(
    alloc: Global,
    shared: Shared<Q, B>,
    seats: Vec<Seat<B>>,
) -> Option<(Shared<Q, B>, Vec<Post<B>>)>
    ensures { IfSome result (λ r. (r.0 ≡ shared) × (map (λ p. p.seat) r.1.items ≡ seats.items)) }
{
    match posts_at(alloc, seats) {
        Some(posts) => Some((shared, posts)),
        None => {
            drop(shared);
            None
        }
    }
}
