//! What the threads of a daemon share: whether it is to stop, and what was counted.
ghost use Rattle.std.specs.Prelude.{◌≡◌};

use iova_range::limits::MAX_REFUSAL;
use iova_sink::stop_deadline::StopDeadline;
use std::array;
use std::sync::atomic::{AtomicU64, Ordering};

/// Whether the daemon is asked to stop, and what was counted so far. Threads share it. A count
/// begins anew behind 2^64 - 1.
pub struct Signals {
    processors: u64,
    started: u64,
    stop_deadline: StopDeadline,
    requests: AtomicU64,
    allocs: AtomicU64,
    frees: AtomicU64,
    notices: AtomicU64,
    links: AtomicU64,
    failed_flushes: AtomicU64,
    /// By number, less one.
    refusals: [AtomicU64; MAX_REFUSAL],
}

/// Drops its parts. The proof stands here, once for all crates above.
impl Drop for Signals {
    fn drop(self) {
        let Signals {
            processors: _,
            started: _,
            stop_deadline: _,
            requests: _,
            allocs: _,
            frees: _,
            notices: _,
            links: _,
            failed_flushes: _,
            refusals: _,
        } = self;
    }
}

impl Signals {
    /// Nobody has asked for a stop, and nothing is counted. The daemon's threads have so many
    /// processors; 0 where the number isn't known. It has started so many seconds after the
    /// beginning of 1970.
    pub fn new(processors: u64, started: u64) -> Signals
        ensures { (result.processors ≡ processors) × (result.started ≡ started) }
    {
        Signals {
            processors,
            started,
            stop_deadline: StopDeadline::new(),
            requests: AtomicU64::new(0),
            allocs: AtomicU64::new(0),
            frees: AtomicU64::new(0),
            notices: AtomicU64::new(0),
            links: AtomicU64::new(0),
            failed_flushes: AtomicU64::new(0),
            refusals: array::from_fn(|_number| AtomicU64::new(0)),
        }
    }

    /// Asks for the stop.
    pub fn ask_to_stop(&self) {
        self.stop_deadline.begin_end();
    }

    /// Whether the stop was asked for.
    pub fn is_stopping(&self) -> bool {
        self.stop_deadline.is_ending()
    }

    /// The deadline of calls of sinks once a stop was asked for.
    pub fn stop_deadline(&self) -> &StopDeadline {
        &self.stop_deadline
    }

    /// A link more is served.
    pub fn begin_link(&self) {
        self.links.fetch_add(1, Ordering::SeqCst);
    }

    /// A link that was served is closed.
    pub fn end_link(&self) {
        self.links.fetch_sub(1, Ordering::SeqCst);
    }

    /// Whether there is one link alone.
    pub fn is_alone(&self) -> bool {
        self.links.load(Ordering::Relaxed) == 1
    }

    /// Whether there are at most as many links as processors, so that the thread of each finds one.
    pub fn are_few(&self) -> bool {
        self.links.load(Ordering::Relaxed) <= self.processors
    }

    /// So many requests came.
    pub fn count_requests(&self, requests: u64) {
        self.requests.fetch_add(requests, Ordering::Relaxed);
    }

    /// How many requests came.
    pub fn requests(&self) -> u64 {
        self.requests.load(Ordering::Relaxed)
    }

    /// So many ranges more were given to clients, and so many were freed by them.
    pub fn count_ranges(&self, allocs: u64, frees: u64) {
        self.allocs.fetch_add(allocs, Ordering::Relaxed);
        self.frees.fetch_add(frees, Ordering::Relaxed);
    }

    /// How many ranges were given to clients.
    pub fn allocs(&self) -> u64 {
        self.allocs.load(Ordering::Relaxed)
    }

    /// How many ranges clients freed, one by one.
    pub fn frees(&self) -> u64 {
        self.frees.load(Ordering::Relaxed)
    }

    /// When the daemon has started, in seconds since the beginning of 1970.
    pub fn started(&self) -> u64
        ensures { result ≡ self.now.started }
    {
        self.started
    }

    /// One flush more has failed.
    pub fn count_failed_flush(&self) {
        self.failed_flushes.fetch_add(1, Ordering::Relaxed);
    }

    /// How many flushes have failed.
    pub fn failed_flushes(&self) -> u64 {
        self.failed_flushes.load(Ordering::Relaxed)
    }

    /// One refusal of this number more, which is 1 to 25.
    pub fn count_refusal(&self, number: usize) {
        if let Some(at) = number.checked_sub(1)
            && let Some(refusals) = self.refusals.get(at)
        {
            refusals.fetch_add(1, Ordering::Relaxed);
        }
    }

    /// How many refusals of this number there were.
    pub fn refusals(&self, number: usize) -> u64 {
        match number.checked_sub(1) {
            Some(at) => match self.refusals.get(at) {
                Some(refusals) => refusals.load(Ordering::Relaxed),
                None => 0,
            },
            None => 0,
        }
    }

    /// One notice more.
    pub fn count_notice(&self) {
        self.notices.fetch_add(1, Ordering::Relaxed);
    }

    /// How many notices there were.
    pub fn notices(&self) -> u64 {
        self.notices.load(Ordering::Relaxed)
    }
}
