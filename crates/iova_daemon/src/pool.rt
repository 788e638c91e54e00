//! Where posts without a session wait for links: which of them is free, leads or rests, and which
//! worker gets a link, is as `serve_sessions` says.
ghost use Rattle.std.specs.Prelude.{◌≡◌, ◌<◌};
ghost use Rattle.iova_range.specs.declared.limits.TheConstants.{MAX_WORKERS};

use crate::Serving;
use crate::accepted::Accepted;
use iova_links::control_task::DaemonMetrics;
use iova_links::loads::{Load, fewest, may_serve, place_of};
use iova_range::limits::{MAX_WORKERS, RETRY_PAUSE};
use iova_session::link::Link;
use std::alloc::Global;
use std::array;
use std::rt::Clock;
use std::sync::{Condvar, Mutex, Wait};
use std::time::Duration;

/// What a post is to do.
#[derive(Drop)]
pub(crate) enum Turn<L: Link> {
    /// To serve a session.
    Serve(Accepted<L>),
    /// To accept a link for the session of this number.
    Lead(u64),
    /// To try its waiting clients again, and to come back.
    Again,
    /// To end: no session is to come.
    End,
}

/// The posts of a daemon that serve no session. Threads share it.
#[derive(Drop)]
pub(crate) struct Pool<L: Link> {
    state: Mutex<State<L>>,
    /// By worker: what its free posts sleep on, so that one of the right worker is woken.
    bells: [Condvar; MAX_WORKERS as usize],
    /// What all posts that rest sleep on.
    rest: Condvar,
}

impl<L: Link + Drop> Pool<L> {
    /// No post has come, and none of these sessions is served. There is room for links that are
    /// handed over, one for each of so many posts: none where it is refused.
    pub(crate) fn new(alloc: Global, serving: Serving, posts: usize) -> Option<Pool<L>> {
        let handed = Vec::with_capacity(alloc, posts).ok()?;
        Some(Pool {
            state: Mutex::new(State {
                serving,
                is_led: false,
                has_ended: false,
                accepted: 0,
                served: 0,
                full: 0,
                loads: [Load {
                    free: 0,
                    sessions: 0,
                }; MAX_WORKERS as usize],
                handed,
            }),
            bells: array::from_fn(|_worker| Condvar::new()),
            rest: Condvar::new(),
        })
    }

    /// A post of the worker waits for what it is to do, where it rests for a second at most.
    pub(crate) fn wait<R: Wait + Clock>(&self, rt: &R, worker: u64, rests: bool) -> Turn<L> {
        let at = place_of(worker);
        let turn = self.turn(rt, at, rests);
        match turn {
            Turn::Serve(_) => self.wake(rt, at, false),
            Turn::End => self.wake_all(),
            Turn::Lead(_) | Turn::Again => {}
        }
        turn
    }

    /// What the post, which comes to the pool, is to do; `wait` wakes others that have to know.
    fn turn<R: Wait + Clock>(&self, rt: &R, at: usize, rests: bool) -> Turn<L>
        requires { at < MAX_WORKERS }
    {
        let mut state = self.state.lock(rt);
        if !rests {
            let load = &mut state.loads[at];
            load.free = load.free.saturating_add(1);
        }
        if let Some(turn) = state.turn(at, rests) {
            return turn;
        }
        let mut state = if rests {
            let pause = Duration::from_millis(RETRY_PAUSE);
            self.rest.wait_timeout(rt, state, pause).0
        } else {
            self.bells[at].wait(rt, state)
        };
        match state.turn(at, rests) {
            // those that have slept try their waiting clients a last time, each at once
            Some(Turn::End) => {
                drop(state);
                self.wake_all();
                Turn::Again
            }
            Some(turn) => turn,
            None => {
                state.go(at, rests);
                Turn::Again
            }
        }
    }

    /// The leader, a post of this worker, has accepted a link, and leads no longer: it serves it
    /// itself, or has handed it over.
    pub(crate) fn assign<R: Wait>(&self, rt: &R, worker: u64, link: L, rests: bool) -> Turn<L>
        requires { L.calls link ≡ 0 }
    {
        let at = place_of(worker);
        let (handed_to, turn) = self.state.lock(rt).assign(at, link, rests);
        if let Some(other) = handed_to {
            self.ring(other);
        }
        if rests || handed_to.is_none() {
            self.wake(rt, at, true);
        }
        turn
    }

    /// The leader, a post of this worker, got no link, and leads no more. The session's number may
    /// be used up.
    pub(crate) fn give_way<R: Wait>(&self, rt: &R, worker: u64, is_used_up: bool, rests: bool) {
        let at = place_of(worker);
        self.state.lock(rt).give_way(at, is_used_up, rests);
        if rests {
            self.wake(rt, at, true);
        }
    }

    /// A session of this worker has ended, at a post that may rest now.
    pub(crate) fn leave<R: Wait>(&self, rt: &R, worker: u64, rests: bool) {
        let at = place_of(worker);
        let mut state = self.state.lock(rt);
        state.served = state.served.saturating_sub(1);
        if let Some(load) = state.loads.get_mut(at) {
            load.sessions = load.sessions.saturating_sub(1);
        }
        drop(state);
        self.wake(rt, at, rests);
    }

    /// The numbers of a daemon: those of its sessions, and these.
    pub(crate) fn metrics<R: Wait>(&self, rt: &R, waiting: u64, since_round: u64) -> DaemonMetrics {
        let state = self.state.lock(rt);
        DaemonMetrics {
            served: state.served,
            accepted: state.accepted,
            waiting,
            full: state.full,
            since_round,
        }
    }

    /// How many sessions of this worker are served.
    pub(crate) fn sessions<R: Wait>(&self, rt: &R, worker: u64) -> u64 {
        self.state.lock(rt).loads[place_of(worker)].sessions
    }

    /// Wakes a post that rests: it tries its waiting clients at once.
    pub(crate) fn wake_resting(&self) {
        self.rest.notify_one();
    }

    /// No session is to come.
    pub(crate) fn end<R: Wait>(&self, rt: &R) {
        self.state.lock(rt).has_ended = true;
        self.wake_all();
    }

    /// Wakes a post that is to lead, where nobody does: a free one of the worker that the next link
    /// would go to. Where none is free, one that rests, if whoever asks for it is away for longer:
    /// at a session, or at a try of its clients.
    fn wake<R: Wait>(&self, rt: &R, at: usize, is_away: bool) {
        let state = self.state.lock(rt);
        let (is_wanted, next) = (state.is_wanted(), fewest(&state.loads, at));
        drop(state);
        match next {
            Some(next) if is_wanted => self.ring(next),
            None if is_wanted && is_away => self.rest.notify_one(),
            _ => {}
        }
    }

    /// Wakes a free post of the worker at this place.
    fn ring(&self, at: usize) {
        if let Some(bell) = self.bells.get(at) {
            bell.notify_one();
        }
    }

    fn wake_all(&self) {
        for bell in &self.bells {
            bell.notify_all();
        }
        self.rest.notify_all();
    }
}

/// Who is free, and what waits for them. Of a worker there are as many free posts in the pool as
/// are counted, and one for each link that was handed over to it.
#[derive(Drop)]
struct State<L: Link> {
    serving: Serving,
    is_led: bool,
    has_ended: bool,
    /// How many sessions had their accept: the next one's number. It begins anew behind 2^64 - 1.
    accepted: u64,
    /// How many sessions are served.
    served: u64,
    /// How often the last place was taken.
    full: u64,
    /// By worker; a leader that doesn't rest is counted free.
    loads: [Load; MAX_WORKERS as usize],
    /// Links that were handed over, each to a free post of the worker at this place.
    handed: Vec<(usize, Accepted<L>)>,
}

impl<L: Link + Drop> State<L> {
    /// A post goes, which was free where it doesn't rest.
    fn go(&mut self, at: usize, rests: bool) {
        if !rests && let Some(load) = self.loads.get_mut(at) {
            load.free = load.free.saturating_sub(1);
        }
    }

    /// What a post is to do now, where there is anything.
    fn turn(&mut self, at: usize, rests: bool) -> Option<Turn<L>> {
        if !rests && let Some(accepted) = self.take(at) {
            return Some(Turn::Serve(accepted));
        }
        if !self.has_ended {
            if !self.is_wanted() || !may_serve(&self.loads, rests) {
                return None;
            }
            if !self.serving.are_all(self.accepted) {
                self.is_led = true;
                return Some(Turn::Lead(self.accepted));
            }
            self.has_ended = true;
        }
        self.go(at, rests);
        Some(Turn::End)
    }

    /// Whether a leader is wanted.
    fn is_wanted(&self) -> bool {
        !self.is_led && !self.has_ended && self.served < self.serving.places()
    }

    /// The oldest link that was handed over to the worker at this place.
    fn take(&mut self, at: usize) -> Option<Accepted<L>> {
        let place = self.handed.iter().position(|handed| handed.0 == at)?;
        Some(self.handed.remove(place).1)
    }

    /// The leader got a link: gives the place of the worker that it was handed over to, if it was,
    /// and what the leader is to do. The leader serves it itself where no post is free, where it is
    /// free itself and its worker is the one, and where there is no room.
    fn assign(&mut self, at: usize, link: L, rests: bool) -> (Option<usize>, Turn<L>)
        requires { L.calls link ≡ 0 }
    {
        let (session, other) = (self.accepted, fewest(&self.loads, at));
        self.give_way(at, true, rests);
        match other {
            Some(other) if (rests || other != at) && self.handed.len() < self.handed.capacity() => {
                let accepted = self.begin(other, link, session);
                self.handed.push_reserved((other, accepted));
                self.go(other, false);
                (Some(other), Turn::Again)
            }
            _ => (None, Turn::Serve(self.begin(at, link, session))),
        }
    }

    /// A session of the worker at this place begins, over this link.
    fn begin(&mut self, at: usize, link: L, session: u64) -> Accepted<L>
        requires { L.calls link ≡ 0 }
        ensures { self.new.handed ≡ self.old.handed }
    {
        self.served = self.served.saturating_add(1);
        if let Some(load) = self.loads.get_mut(at) {
            load.sessions = load.sessions.saturating_add(1);
        }
        let is_full = self.served == self.serving.places();
        if is_full {
            self.full = self.full.wrapping_add(1);
        }
        Accepted::new(link, session, is_full)
    }

    /// The leader leads no more, and goes. Its session's number may be used up.
    fn give_way(&mut self, at: usize, is_used_up: bool, rests: bool) {
        self.is_led = false;
        if is_used_up {
            self.accepted = self.accepted.wrapping_add(1);
        }
        self.go(at, rests);
    }
}
