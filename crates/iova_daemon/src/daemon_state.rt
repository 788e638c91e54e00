//! What the threads of a daemon share beside its domain and the pool of its session threads.
use crate::worker::WorkerContext;
use iova_links::control_task::{DaemonMetrics, MetricsSource};
use iova_links::loads::place_of;
use iova_links::pause::milliseconds;
use iova_model::step::ClientId;
use iova_range::limits::MAX_WORKERS;
use iova_session::link::Link;
use std::alloc::Global;
use std::array;
use std::rt::Clock;
use std::sync::atomic::{AtomicBool, AtomicU64, Ordering};
use std::sync::{Mutex, Wait};

/// The gate that session threads wait at until all are started, who waits, and how many session
/// threads haven't ended.
#[derive(Drop)]
pub(crate) struct DaemonState {
    /// Held while threads are started; then whether all were, so that none accepts a link where one
    /// couldn't be.
    pub gate: Mutex<bool>,
    /// By worker: whether one of its session threads tries its waiting clients.
    trying: [AtomicBool; MAX_WORKERS as usize],
    waiting: AtomicU64,
    noted: Mutex<Vec<Noted>>,
    threads: AtomicU64,
    /// When the flusher began its last round that ended well, in milliseconds of the clock.
    round: AtomicU64,
}

/// A client that waits, and the session thread that has it.
#[derive(Clone, Copy)]
struct Noted {
    thread: u64,
    client: ClientId,
}

impl DaemonState {
    /// So many session threads, and a closed gate.
    pub(crate) fn new(alloc: Global, threads: u64) -> DaemonState {
        DaemonState {
            gate: Mutex::new(false),
            trying: array::from_fn(|_worker| AtomicBool::new(false)),
            waiting: AtomicU64::new(0),
            noted: Mutex::new(Vec::new(alloc)),
            threads: AtomicU64::new(threads),
            round: AtomicU64::new(0),
        }
    }

    /// A session thread of this worker is to try its waiting clients. Whether it may: it may not
    /// while another one does.
    pub(crate) fn begin_trying(&self, worker: u64) -> bool {
        !self.trying[place_of(worker)].swap(true, Ordering::SeqCst)
    }

    /// The session thread that might try has done so.
    pub(crate) fn end_trying(&self, worker: u64) {
        self.trying[place_of(worker)].store(false, Ordering::SeqCst);
    }

    /// These clients of the session thread wait now: gives their number, and notes them where it
    /// isn't the one before. A session adds one client and a round of tries takes some out, so
    /// other clients are another number. Where memory is refused it isn't noted which they are.
    pub(crate) fn wait_for<R: Wait>(
        &self,
        rt: &R,
        thread: u64,
        before: u64,
        clients: &[ClientId],
    ) -> u64 {
        let count = clients.len() as u64;
        if count != before {
            self.waiting.fetch_add(count, Ordering::SeqCst);
            self.waiting.fetch_sub(before, Ordering::SeqCst);
            let mut noted = self.noted.lock(rt);
            noted.retain(|note| note.thread != thread);
            if noted.try_reserve(clients.len()).is_ok() {
                for client in clients {
                    let client = *client;
                    let _ = noted.push(Noted { thread, client });
                }
            }
        }
        count
    }

    /// A session thread has ended.
    pub(crate) fn end(&self) {
        self.threads.fetch_sub(1, Ordering::SeqCst);
    }

    /// The flusher has ended a round well that it began then, in milliseconds of the clock, where
    /// that could be read.
    pub(crate) fn end_round(&self, begun: Option<u64>) {
        if let Some(begun) = begun {
            self.round.store(begun, Ordering::SeqCst);
        }
    }

    /// Whether all session threads have ended.
    pub(crate) fn have_ended(&self) -> bool {
        self.threads.load(Ordering::SeqCst) == 0
    }
}

impl<'e, R: Wait + Clock, N, K, L: Link + Drop, A> MetricsSource
    for WorkerContext<'e, R, N, K, L, A> {
    fn metrics(&self) -> DaemonMetrics {
        let round = self.daemon_state.round.load(Ordering::SeqCst);
        let now = milliseconds(self.rt).unwrap_or(round);
        let waiting = self.daemon_state.waiting.load(Ordering::SeqCst);
        self.pool
            .metrics(self.rt, waiting, now.saturating_sub(round))
    }

    fn sessions(&self, worker: u64) -> u64 {
        self.pool.sessions(self.rt, worker)
    }

    fn waits(&self, client: ClientId) -> bool {
        let noted = self.daemon_state.noted.lock(self.rt);
        noted.iter().any(|note| note.client == client)
    }
}
