//! What is done beside a daemon's sessions and its flusher.
use crate::accept::Accept;
use iova_keep::look::Look;
use iova_model::step::ClientId;
use iova_session::link::{Link, LinkFault};

/// The numbers of a daemon, but for its domain.
#[derive(Clone, Copy, Debug, PartialEq, Eq)]
pub struct DaemonMetrics {
    /// How many sessions are served now.
    pub served: u64,
    /// How many had their accept, these among them.
    pub accepted: u64,
    /// How many clients wait for their end.
    pub waiting: u64,
    /// How often the last place for a session was taken.
    pub full: u64,
    /// How many milliseconds ago the flusher began its last round that ended well, or began to make
    /// rounds: nothing waits longer in a ring.
    pub since_round: u64,
}

/// Where the metrics of a daemon come from.
pub trait MetricsSource {
    /// Its numbers now.
    fn metrics(&self) -> DaemonMetrics;

    /// How many sessions of this worker are served now.
    fn sessions(&self, worker: u64) -> u64;

    /// Whether this client's session has ended, and its end waits.
    fn waits(&self, client: ClientId) -> bool;
}

/// What the control socket's thread does, from the start of the first session to the end of the
/// last one.
pub trait ControlTask {
    /// Whether it has anything to do: else no thread is started for it.
    fn is_wanted(&self) -> bool;

    /// Makes one round, which waits for something to do no longer than a part of a second.
    fn turn<K: Look, T: MetricsSource>(&self, domain: &K, source: &T);
}

/// A control task that has nothing to do.
#[derive(Clone, Copy, Debug)]
pub struct NoControlTask;

impl ControlTask for NoControlTask {
    fn is_wanted(&self) -> bool {
        false
    }

    fn turn<K: Look, T: MetricsSource>(&self, _domain: &K, _source: &T) {}
}

/// Where a daemon's links come from, and what is done beside their sessions.
#[derive(Drop)]
pub struct WithControl<'a, A, X> {
    accept: &'a A,
    control_task: &'a X,
}

impl<'a, A, X> WithControl<'a, A, X> {
    /// Links from here, and this beside them.
    pub fn new(accept: &'a A, control_task: &'a X) -> WithControl<'a, A, X> {
        WithControl {
            accept,
            control_task,
        }
    }
}

impl<'a, L: Link, A: Accept<L>, X> Accept<L> for WithControl<'a, A, X> {
    fn accept(&self, limit: Option<u64>) -> Result<Option<L>, LinkFault> {
        self.accept.accept(limit)
    }

    fn close(&self) {
        self.accept.close();
    }

    fn has_ended(&self) -> bool {
        self.accept.has_ended()
    }
}

impl<'a, A, X: ControlTask> ControlTask for WithControl<'a, A, X> {
    fn is_wanted(&self) -> bool {
        self.control_task.is_wanted()
    }

    fn turn<K: Look, T: MetricsSource>(&self, domain: &K, source: &T) {
        self.control_task.turn(domain, source);
    }
}
