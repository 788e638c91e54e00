//! A session thread of a worker: sessions at one post, one after another.
ghost use Rattle.std.specs.Prelude.{◌≡◌};
ghost use Rattle.iova_keep.specs.Views.{KeepsPlace};
ghost use Rattle.iova_session.specs.PostSessions.{between};
ghost use Rattle.iova_daemon.specs.SessionThreads.{ServesPost, IsTried};

use crate::Serving;
use crate::daemon_state::DaemonState;
use crate::pool::{Pool, Turn};
use iova_keep::keep::Keep;
use iova_keep::look::Look;
use iova_keep::names::Names;
use iova_links::accept::Accept;
use iova_links::control_task::ControlTask;
use iova_links::noting::{NotingSink, note_end, note_full};
use iova_model::step::ClientId;
use iova_range::limits::RETRY_PAUSE;
use iova_session::link::Link;
use iova_session::post::Post;
use iova_session::retry::retry;
use iova_sink::sink::Sink;
use log::Log;
use std::alloc::Global;
use std::rt::Clock;
use std::sync::Wait;

/// What the threads of a daemon are lent: references, a keeper of the domain, and what they share
/// beside it.
#[derive(Drop)]
pub(crate) struct WorkerContext<'e, R, N, K, L: Link, A> {
    pub rt: &'e R,
    pub alloc: Global,
    pub notices: &'e N,
    pub serving: Serving,
    pub keeper: K,
    pub accept: &'e A,
    pub daemon_state: DaemonState,
    pub pool: Pool<L>,
}

impl<'e, R, N, K, L, A> WorkerContext<'e, R, N, K, L, A>
where
    R: Wait + Clock,
    N: Log,
    L: Link + Drop,
    A: Accept<L>,
{
    /// Runs the session thread of this number: waits at the gate, and then serves sessions at the
    /// post, each from its first byte to the end of its client, until no session is left. It tries
    /// the post's waiting clients again before each wait in the pool, and so before each session.
    /// It has one keeper, and can't copy it.
    pub(crate) fn work<B: Names, D: Sink + Drop>(
        &self,
        thread: u64,
        keeper: K,
        place: Post<B>,
        sink: D,
    ) -> (Post<B>, D)
    where
        K: Keep<B> + Drop,
        ensures { ServesPost L.left L.sent L.calls L.reads (record {
          limits = self.now.serving.limits;
          identity = K.identity keeper;
          domain = K.domain keeper;
          seat = place.seat;
          waiting = place.waiting.items;
          calls = D.calls sink;
        }) result.0.seat result.0.waiting.items (D.calls result.1) }
    {
        let mut post = place;
        let mut keeper = keeper;
        let mut sink = NotingSink::new(sink, self.notices);
        let mut goes_on = *self.daemon_state.gate.lock(self.rt);
        let mut noted = 0;
        'turns: for _ in self.rt.forever() {
            if !goes_on {
                self.daemon_state.end();
                return (post, sink.into_sink());
            }
            try_again(&self.daemon_state, &mut keeper, &mut post, &mut sink);
            noted = self.note_tried(thread, noted, &post.waiting);
            match self.next(post.seat.worker(), noted > 0) {
                Turn::Serve(accepted) => {
                    let session = accepted.session;
                    if accepted.is_full {
                        note_full(self.notices, self.serving.places());
                    }
                    sink.begin_session();
                    let (alloc, limits) = (self.alloc, self.serving.limits);
                    let ended = accepted.serve(alloc, limits, &mut keeper, &mut post, &mut sink);
                    noted = self
                        .daemon_state
                        .wait_for(self.rt, thread, noted, &post.waiting);
                    self.pool.leave(self.rt, post.seat.worker(), noted > 0);
                    note_end(self.notices, session, ended.end, sink.ranges_gone());
                }
                Turn::End => goes_on = false,
                Turn::Lead(_) | Turn::Again => {}
            }
        }
        unreachable!()
    }

    /// Notes the clients of the session thread that still wait after a try, and returns their
    /// number. If some of them ended, the sink answers again: a post that rests tries its own at
    /// once.
    fn note_tried(&self, thread: u64, before: u64, clients: &[ClientId]) -> u64 {
        let left = self.daemon_state.wait_for(self.rt, thread, before, clients);
        if left < before {
            self.pool.wake_resting();
        }
        left
    }

    /// The control task's thread: a round after another, until all session threads have ended.
    pub(crate) fn run_control_task(&self)
    where
        K: Look,
        A: ControlTask,
    {
        for _ in self.rt.forever() {
            if self.daemon_state.have_ended() {
                return;
            }
            self.accept.turn(&self.keeper, self);
        }
        unreachable!()
    }

    /// What a post of this worker, which may rest, does next: it waits in the pool, and where it is
    /// to lead it accepts a link, within a second where it rests. It serves it, or hands it over or,
    /// where it got none, gives way. Where no link is to come, the pool ends.
    fn next(&self, worker: u64, rests: bool) -> Turn<L> {
        if self.accept.has_ended() {
            self.accept.close();
            self.pool.end(self.rt);
            return Turn::End;
        }
        let session = match self.pool.wait(self.rt, worker, rests) {
            Turn::Lead(session) => session,
            turn => return turn,
        };
        let limit = if rests { Some(RETRY_PAUSE) } else { None };
        let accepted = if self.accept.has_ended() {
            Ok(None)
        } else {
            self.accept.accept(limit)
        };
        // the trait allows an accept to fail, which uses up the number; the last number closes it
        let is_used_up = !matches!(accepted, Ok(None));
        if is_used_up && self.serving.are_all(session.wrapping_add(1)) {
            self.accept.close();
        }
        match accepted {
            Ok(Some(link)) => self.pool.assign(self.rt, worker, link, rests),
            _ => {
                self.pool.give_way(self.rt, worker, is_used_up, rests);
                Turn::Again
            }
        }
    }
}

/// Tries the post's waiting clients again, unless another session thread of its worker does so.
fn try_again<B: Names, K: Keep<B>, D: Sink>(
    daemon_state: &DaemonState,
    keeper: &mut K,
    post: &mut Post<B>,
    sink: &mut D,
)
    ensures same { K.identity keeper.new ≡ K.identity keeper.old }
    ensures tries { IsTried (K.identity keeper.old).number
        (between post.old.seat post.old.waiting.items (D.calls sink.old) (K.domain keeper.old))
        (between post.new.seat post.new.waiting.items (D.calls sink.new) (K.domain keeper.new)) }
    ensures place { KeepsPlace post.old.seat post.new.seat (D.calls sink.old) (D.calls sink.new) }
{
    let worker = post.seat.worker();
    if !post.waiting.is_empty() && daemon_state.begin_trying(worker) {
        retry(keeper, post, sink);
        daemon_state.end_trying(worker);
    }
}
