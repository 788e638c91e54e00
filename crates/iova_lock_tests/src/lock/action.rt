//! Calls on a keeper as rows, each with what it is to be answered.

use iova_keep::ask::Ask;
use iova_keep::calls;
use iova_keep::closing::end_client;
use iova_keep::keep::Keep;
use iova_keep::names::Names;
use iova_keep::release::release;
use iova_keep::seat::Seat;
use iova_range::limits::MAX_RUN;
use iova_range::refusal::Refusal;
use iova_sink::memory::MemorySink;
use std::alloc::Global;
use std::fmt::Debug;
use std::process::Abort;
use std::test::*;

/// A call by a seat, or what is read of the seat or of its domain. A number is a client's first,
/// where there is one.
#[derive(Drop)]
pub(crate) enum Action<'a> {
    Number,
    /// Whether the client is `sac`.
    Open(bool),
    /// The frames and the limit.
    Alloc(u64, u64, u64),
    /// So many single frames from 4,095 on down are given, and so many of them unmapped, highest
    /// first.
    Fill(u64, u64, u64),
    Unmap(u64, u64),
    Release(u64, u64),
    Batch(u64, &'a [Ask]),
    Holdings(u64),
    EndClient(u64),
    Flush,
    Timeout,
    /// So many flushes begin, and stay in flight.
    Begin(u64),
    /// The flush of this number ends well.
    End(u64),
    DrainAll(u64),
    /// The seat's shares, and how many flushes it ended well.
    Seat,
    Totals,
    /// The frames of each place, and the two counts of the flushes.
    Stat,
    /// The seat's count, the frames in rings, and the two counts of the flushes.
    Counts,
}

/// What an action is to be answered.
pub(crate) enum Want {
    Always(&'static str),
    /// In a domain that isn't strict, and in one that is.
    Either(&'static str, &'static str),
}

/// The call of the sink that fails, 0 where none does; the action; what it is to be answered.
pub(crate) type Row = (u64, Action<'static>, Want);

// What a call was answered.
pub(crate) fn said<T: Debug, R: Abort>(rt: &R, alloc: Global, call: &str, answer: &T) -> String {
    format!(in alloc; "{call} {answer:?}").expect(rt, "memory")
}

// So many single frames for a client from 4,095 on down, and so many of them unmapped.
fn fill<B: Names, K: Keep<B>>(
    keeper: &mut K,
    seat: &mut Seat<B>,
    id: u64,
    ranges: u64,
    frees: u64,
) -> Result<(), Refusal> {
    let mut sink = MemorySink::new(1);
    for _ in 0..ranges {
        keeper.alloc(seat, id, 1, 4095)?;
    }
    for i in 0..frees.min(4095) {
        calls::unmap(keeper, seat, &mut sink, id, 4095 - i)?;
    }
    Ok(())
}

// So many flushes begin. What was heard of the last one.
fn begin<B: Names, K: Keep<B>, R: Abort>(
    rt: &R,
    alloc: Global,
    keeper: &mut K,
    seat: &mut Seat<B>,
    flushes: u64,
) -> String {
    for _ in 1..flushes {
        let _heard = keeper.begin(seat.tally());
    }
    said(rt, alloc, "begun", &keeper.begin(seat.tally()).begun)
}

fn batch<B: Names, K: Keep<B>, R: Abort>(
    rt: &R,
    alloc: Global,
    keeper: &mut K,
    seat: &mut Seat<B>,
    id: u64,
    asks: &[Ask],
) -> String {
    assert!(rt; !asks.is_empty() && asks.len() <= MAX_RUN);
    let mut told = Vec::new(alloc);
    let done = keeper.batch(seat, id, asks, &mut told);
    said(rt, alloc, "batched", &(done, told.as_slice()))
}

fn holdings<B: Names, K: Keep<B>, R: Abort>(
    rt: &R,
    alloc: Global,
    keeper: &K,
    seat: &Seat<B>,
    id: u64,
) -> String {
    let mut ranges = Vec::new(alloc);
    let listed = keeper.holdings(seat, id, &mut ranges);
    said(rt, alloc, "listed", &(listed, ranges.as_slice()))
}

fn stat<B: Names, K: Keep<B>, R: Abort>(rt: &R, alloc: Global, keeper: &K) -> String {
    let s = keeper.stat();
    let places = [
        s.free, s.reserved, s.client, s.magazine, s.depot, s.ring, s.start, s.finish,
    ];
    said(rt, alloc, "stat", &places)
}

fn counts<B: Names, K: Keep<B>, R: Abort>(
    rt: &R,
    alloc: Global,
    keeper: &K,
    seat: &Seat<B>,
) -> String {
    let stat = keeper.stat();
    said(
        rt,
        alloc,
        "counts",
        &(seat.count(), stat.ring, stat.start, stat.finish),
    )
}

// What an action is answered, over a sink that fails at its `fail_at`-th call.
pub(crate) fn answer<B: Names, K: Keep<B>, R: Abort>(
    rt: &R,
    alloc: Global,
    keeper: &mut K,
    seat: &mut Seat<B>,
    fail_at: u64,
    action: &Action<'_>,
) -> String {
    let mut sink = MemorySink::new(fail_at);
    match *action {
        Action::Number => said(rt, alloc, "number", &keeper.number()),
        Action::Open(sac) => said(rt, alloc, "opened", &keeper.open(seat, sac)),
        Action::Alloc(id, frames, limit) => {
            said(rt, alloc, "given", &keeper.alloc(seat, id, frames, limit))
        }
        Action::Fill(id, ranges, frees) => said(
            rt,
            alloc,
            "filled",
            &fill(keeper, seat, id, ranges, frees),
        ),
        Action::Unmap(id, lo) => said(
            rt,
            alloc,
            "unmapped",
            &calls::unmap(keeper, seat, &mut sink, id, lo),
        ),
        Action::Release(id, lo) => said(
            rt,
            alloc,
            "released",
            &release(keeper, seat, &mut sink, id, lo),
        ),
        Action::Batch(id, asks) => batch(rt, alloc, keeper, seat, id, asks),
        Action::Holdings(id) => holdings(rt, alloc, keeper, seat, id),
        Action::EndClient(id) => said(rt, alloc, "ended", &end_client(keeper, seat, &mut sink, id)),
        Action::Flush => said(
            rt,
            alloc,
            "flushed",
            &calls::flush(keeper, seat.tally(), &mut sink),
        ),
        Action::Timeout => said(
            rt,
            alloc,
            "timed_out",
            &calls::timeout(keeper, seat.tally(), &mut sink),
        ),
        Action::Begin(flushes) => begin(rt, alloc, keeper, seat, flushes),
        Action::End(no) => said(
            rt,
            alloc,
            "flush",
            &keeper.end(seat.tally(), no, true).reply,
        ),
        Action::DrainAll(by) => said(rt, alloc, "drained", &keeper.drain_all(by)),
        Action::Seat => said(rt, alloc, "seat", &(seat.held(), seat.tally().good())),
        Action::Totals => said(rt, alloc, "totals", &keeper.totals()),
        Action::Stat => stat(rt, alloc, keeper),
        Action::Counts => counts(rt, alloc, keeper, seat),
    }
}

// Rows, one after another.
pub(crate) fn run<B: Names, K: Keep<B>, R: Abort>(
    rt: &R,
    alloc: Global,
    keeper: &mut K,
    seat: &mut Seat<B>,
    strict: bool,
    rows: &[Row],
) {
    for (fail_at, action, want) in rows {
        let text = answer(rt, alloc, keeper, seat, *fail_at, action);
        let want = match want {
            Want::Always(want) => want,
            Want::Either(plain, of_strict) => if strict { of_strict } else { plain },
        };
        assert_eq!(rt; text.as_str(), *want);
    }
}
