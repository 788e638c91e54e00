//! A sink that several threads share.
ghost use Rattle.std.specs.Prelude.{◌≡◌, ◌++◌, [], true, false, is_ok, is_some, Ok};
ghost use Rattle.iova_sink.specs.Calls.{Invalidation, Gone, with_call, with_gone};
ghost use Rattle.iova_links.specs.LockedSinks.{WasCalled};

use iova_keep::turnstile::{Passage, Turnstile};
use iova_range::range::Range;
use iova_sink::calls::Calls;
use iova_sink::sink::{Sink, SinkFault};
use std::sync::atomic::AtomicU64;
use std::sync::atomic::Ordering::SeqCst;
use std::sync::{Mutex, Wait};

/// How many of those that wait for a turn are woken where one ends: as many as find room for a full
/// run of requests each in a ring that its flush has emptied. Each of them that needs no flush
/// wakes the next one.
const WOKEN: u64 = 16;

/// A sink, with a turnstile before it for threads that want it for several calls in a row.
pub struct SharedSink<D> {
    sink: Mutex<D>,
    way: Turnstile,
    /// How many turns have ended: those that wait for one sleep on it.
    ended: AtomicU64,
    /// How many wait for the end of a turn.
    waiting: AtomicU64,
    /// How many calls had no answer.
    unanswered: AtomicU64,
}

/// Drops its parts. The proof stands here, once for all crates above.
impl<D: Drop> Drop for SharedSink<D> {
    fn drop(self) {
        let SharedSink {
            sink: _,
            way: _,
            ended: _,
            waiting: _,
            unanswered: _,
        } = self;
    }
}

impl<D> SharedSink<D> {
    /// This sink, which nobody has.
    pub fn new(sink: D) -> SharedSink<D> {
        SharedSink {
            sink: Mutex::new(sink),
            way: Turnstile::new(),
            ended: AtomicU64::new(0),
            waiting: AtomicU64::new(0),
            unanswered: AtomicU64::new(0),
        }
    }

    /// A call had no answer.
    fn note_unanswered(&self) {
        self.unanswered.fetch_add(1, SeqCst);
    }

    /// Waits for the end of the turn that is under way, where one is, and gives whether it waited.
    fn wait_for_turn<R: Wait>(&self, rt: &R) -> bool {
        self.waiting.fetch_add(1, SeqCst);
        // a turn that ends behind this look changes what the thread would sleep on
        let ended = self.ended.load(SeqCst);
        let is_taken = self.way.is_taken();
        if is_taken {
            self.ended.park(rt, (ended & 0xffff_ffff) as u32);
        }
        self.waiting.fetch_sub(1, SeqCst);
        is_taken
    }

    /// Counts the turn that has ended, and wakes threads that wait for its end.
    fn end_turn(&self) {
        self.ended.fetch_add(1, SeqCst);
        for _ in 0..self.waiting.load(SeqCst).min(WOKEN) {
            self.ended.wake_one();
        }
    }

    /// Wakes the next one of those that wait for a turn.
    fn pass_on(&self) {
        if self.waiting.load(SeqCst) > 0 {
            self.ended.wake_one();
        }
    }
}

/// A sink that is shared, as one of the threads has it. Where a call of another thread had no
/// answer while this one waited for the sink, its own calls fail at once until it lets the sink go:
/// so a peer that is silent costs all that wait for it one time limit. Contracts see the calls that
/// were made here, and that a good one of them was a call of the sink: what others call in between,
/// nobody knows.
pub struct LockedSink<'a, R, D> {
    rt: &'a R,
    sink: &'a SharedSink<D>,
    calls: Calls,
    is_silent: bool,
    /// A call had no answer while this thread waited for a turn: its own is to fail.
    was_silent: bool,
    /// That this thread has the sink to itself: only the sink's turnstile makes one.
    passage: Option<Passage<'a>>,
}

/// Drops its parts. The proof stands here, once for all crates above.
impl<'a, R, D> Drop for LockedSink<'a, R, D> {
    fn drop(self) {
        let LockedSink {
            rt: _,
            sink: _,
            calls: _,
            is_silent: _,
            was_silent: _,
            passage: _,
        } = self;
    }
}

impl<'a, R, D> LockedSink<'a, R, D> {
    /// This sink, of which no call was made here.
    pub fn new(rt: &'a R, sink: &'a SharedSink<D>) -> LockedSink<'a, R, D>
        ensures { result.calls ≡ [] }
    {
        LockedSink {
            rt,
            sink,
            calls: Calls::new(),
            is_silent: false,
            was_silent: false,
            passage: None,
        }
    }
}

impl<'a, R: Wait, D: Sink> LockedSink<'a, R, D> {
    /// Notes for those that wait where this call had no answer.
    fn note(&self, told: Result<(), SinkFault>) {
        if told == Err(SinkFault::Broken) {
            self.sink.note_unanswered();
        }
    }
}

impl<'a, R: Wait, D: Sink> Sink for LockedSink<'a, R, D> {
    ghost calls = { λ s. s.calls };

    fn invalidate(&mut self, domain: u64, no: u64) -> Result<(), SinkFault>
        ensures calls { self.new.calls ≡ with_call self.old.calls domain no (is_ok result) }
        ensures called { is_ok result ≡ true → WasCalled D.calls (Invalidation domain no true) }
    {
        if self.is_silent {
            self.calls.add(domain, no, false);
            return Err(SinkFault::Broken);
        }
        let told = self.sink.sink.lock(self.rt).invalidate(domain, no);
        self.calls.add(domain, no, told.is_ok());
        self.note(told);
        told
    }

    fn gone(&mut self, domain: u64, client: u64, ranges: &Vec<Range>) -> Result<(), SinkFault>
        ensures calls { self.new.calls ≡ with_gone self.old.calls domain client ranges.now.items
            result }
        ensures called { is_ok result ≡ true
            → WasCalled D.calls (Gone domain client ranges.now.items (Ok tt)) }
    {
        if self.is_silent {
            let told = Err(SinkFault::Broken);
            self.calls.add_gone(domain, client, ranges, told);
            return told;
        }
        let told = self.sink.sink.lock(self.rt).gone(domain, client, ranges);
        self.calls.add_gone(domain, client, ranges, told);
        self.note(told);
        told
    }

    fn lock(&mut self)
        ensures calls { self.new.calls ≡ self.old.calls }
        ensures locked { is_some self.new.passage ≡ true }
    {
        let before = self.sink.unanswered.load(SeqCst);
        self.passage = Some(self.sink.way.pass(self.rt));
        self.is_silent = self.was_silent || self.sink.unanswered.load(SeqCst) != before;
        self.was_silent = false;
    }

    fn unlock(&mut self)
        ensures calls { self.new.calls ≡ self.old.calls }
        ensures unlocked { is_some self.new.passage ≡ false }
    {
        self.is_silent = false;
        self.passage = None;
        self.sink.end_turn();
    }

    /// Where a call of that turn had no answer it doesn't ask again, and its own call fails.
    fn wait_for_turn(&mut self) -> bool {
        let before = self.sink.unanswered.load(SeqCst);
        let has_waited = self.sink.wait_for_turn(self.rt);
        self.was_silent = self.sink.unanswered.load(SeqCst) != before;
        has_waited && !self.was_silent
    }

    fn pass_on(&mut self) {
        self.sink.pass_on();
    }
}
