//! A daemon's threads: a session thread for each post, and a flusher beside them.
#![tactic(auto)]

ghost use Rattle.std.specs.Prelude.{◌≡◌, ◌+◌, ◌≤◌, [], None, Ok, Err, IfOk, IfErr, map, take, vec_len, vec_capacity, slice_get, slice_index_or};
ghost use Rattle.std.specs.Option.{ForSome};
ghost use Rattle.iova_keep.specs.FlushEvents.{MakesRounds};
ghost use Rattle.iova_lock.specs.Books.{tally_parts};
ghost use Rattle.iova_daemon.specs.Serving.{CountsWithin, CountsWithinSome, IsServeRefusal, RoundsOnThread, without_part};
ghost use Rattle.iova_daemon.specs.SessionThreads.{AllServed, ServesPost, starts};

mod accepted;
mod daemon_state;
mod flusher;
mod pool;
mod threads;
mod worker;

use crate::daemon_state::DaemonState;
use crate::flusher::{FLUSH_AHEAD, Flusher};
use crate::pool::Pool;
use crate::threads::{PostPromise, domains_are_sync, pools_are_sync, posts_are_send};
use crate::worker::WorkerContext;
use iova_keep::keep::Keep;
use iova_keep::look::Look;
use iova_keep::names::Names;
use iova_keep::seat::Tally;
use iova_links::accept::Accept;
use iova_links::control_task::{ControlTask, NoControlTask, WithControl};
use iova_links::noting::NotingSink;
use iova_links::pause::Pause;
use iova_lock::shared::Shared;
use iova_range::refusal::Refusal;
use iova_session::link::Link;
use iova_session::post::Post;
use iova_session::session_limits::SessionLimits;
use iova_sink::sink::Sink;
use log::{Log, error};
use std::alloc::Global;
use std::marker::PhantomData;
use std::rt::Clock;
use std::snapshot::Snapshot;
use std::sync::Wait;
use std::thread::{PromisedHandle, Threads};
use std::{io, thread};

/// The domain and the posts after serving.
#[derive(Drop)]
pub struct Served<R, B: Names> {
    /// The domain under its lock.
    pub shared: Shared<R, B>,
    /// The posts, in the order in which they were given.
    pub posts: Vec<Post<B>>,
}

/// The posts after serving, with their sinks and the flusher's sink and tally.
#[derive(Drop)]
pub struct ServedBy<B: Names, D> {
    /// The posts, in the order in which they were given.
    pub posts: Vec<Post<B>>,
    /// Their sinks, in the order of the posts.
    pub sinks: Vec<D>,
    /// The flusher's sink.
    pub sink: D,
    /// The flusher's tally.
    pub tally: Tally<B>,
}

/// The sessions that a daemon serves.
#[derive(Clone, Copy, Debug, PartialEq, Eq)]
pub struct Serving {
    /// The number of sessions. None: sessions without end.
    pub sessions: Option<u64>,
    /// The greatest number of sessions at a time; 0 counts as 1.
    pub clients: u64,
    /// How much each of them may ask for.
    pub limits: SessionLimits,
}

impl Serving {
    /// Returns the greatest number of sessions at a time, which is at least 1.
    fn places(self) -> u64 {
        self.clients.max(1)
    }

    /// Whether all sessions have had their accept, once so many have.
    fn are_all(self, accepted: u64) -> bool {
        self.sessions.is_some_and(|sessions| accepted >= sessions)
    }
}

/// The runtime, the notices and the sessions of a service.
#[derive(Drop)]
pub struct Service<'a, R, N> {
    /// The runtime.
    pub rt: &'a R,
    /// Where memory comes from.
    pub alloc: Global,
    /// Where notices go.
    pub notices: &'a N,
    /// The sessions that it serves.
    pub serving: Serving,
}

/// Serves so many sessions on the domain, each within the usual limits: see `serve_sessions`.
pub fn serve_on<R, Q, N, B, L, A, D, P>(
    rt: &R,
    alloc: Global,
    notices: &N,
    shared: Shared<Q, B>,
    posts: Vec<Post<B>>,
    sinks: Vec<D>,
    accept: &A,
    pause: P,
    sessions: u64,
) -> Result<Served<Q, B>, Refusal>
where
    R: Threads + Wait + Clock + Sync,
    Q: Wait + Sync + Drop,
    N: Log + Sync,
    B: Names + Send + Sync,
    L: Link + Send + Drop,
    A: Accept<L> + Sync,
    D: Sink + Send + Drop,
    P: Pause + Drop,
    requires some { 1 ≤ vec_len posts }
    requires sinks { vec_len sinks ≡ vec_len posts + 1 }
    requires parts { ForSome (slice_get posts.items 0) (λ p. 2 ≤ p.seat.tally.parts) }
    ensures posts { IfOk result (λ s. map (λ p. p.seat.worker) s.posts.items
        ≡ map (λ p. p.seat.worker) posts.items) }
    ensures shared { IfOk result (λ s. s.shared ≡ shared) }
    ensures within { IfOk result (λ s. CountsWithinSome D.calls (map (λ p. p.seat) posts.items)
        sinks.items (map (λ p. p.seat) s.posts.items)) }
    ensures refusal { IfErr result IsServeRefusal }
{
    let service = Service {
        rt,
        alloc,
        notices,
        serving: Serving {
            sessions: Some(sessions),
            clients: posts.len() as u64,
            limits: SessionLimits::usual(),
        },
    };
    let accept = WithControl::new(accept, &NoControlTask);
    let served = serve_sessions::<R, Q, N, B, L, WithControl<'_, A, NoControlTask>, D, P>(
        &service, &shared, posts, sinks, &accept, pause,
    )?;
    let ServedBy { posts, .. } = served;
    Ok(Served { shared, posts })
}

/// Serves sessions on the domain, and flushes beside them on the calling thread. Each post is a
/// session thread: it has a thread and a sink, and serves one session at a time; several may be of
/// one worker, and their sinks one sink behind a lock (`LockedSink`). The flusher has the last
/// sink, and a tally that is split from the first post's seat. It returns once all sessions have
/// ended, and gives the posts back in their order.
///
/// A session thread repeats: it tries its waiting clients again, unless another session thread of
/// its worker does so, waits until there is a link for it, and serves a session over that. A
/// session thread without a session and without a waiting client is free; one without a session
/// whose clients wait rests. One of these at a time, the leader, takes the next session number,
/// where there is none, and accepts a link; the others sleep. The link goes to the worker that
/// serves the fewest sessions of those with a free session thread: the leader's, where that is one
/// of them. A session thread that rests is passed over: only where none is free it leads, and
/// serves. While as many sessions are served as there may be at a time nobody leads, so whoever
/// connects waits.
///
/// A session thread that rests accepts, and sleeps, no longer than a second. Another thread's try
/// that has ended a client wakes it, since the sink answers then. An accept that had no link keeps
/// the number. The trait allows an accept to fail, which uses the number up; an accept of
/// `SocketAccept` doesn't fail. Once each session had its accept, no more are accepted (`close`).
/// Session threads stop once no number is left, and also once no link is to come any more
/// (`has_ended`): then each tries its waiting clients a last time. What is to be done
/// beside them (`ControlTask`) has a thread of its own.
///
/// The flusher repeats: it pauses, and stops where the pause says so or all session threads have
/// ended; else it makes a round (`timeout`). At a busy domain it takes looks in place of the pause
/// (`pause_shortly`), and flushes where much waits in rings. Behind each flush of its own that
/// failed it pauses twice as long as before, up to a second. A session that ends by `LinkFault` or
/// `NoMemory`, or by `TooMany` with ranges in hand, a sink that fails, a round or such a flush that
/// is refused for another reason, the last place that is taken and a thread that can't be started
/// are notices, a line each; each other end of a session is one of the level `debug`.
///
/// Refused by `LinkFault` where a thread can't be started: then no link has been accepted, and
/// those that were started are joined. Refused by `NoMemory` before the first one is started.
pub fn serve_sessions<R, Q, N, B, L, A, D, P>(
    service: &Service<'_, R, N>,
    shared: &Shared<Q, B>,
    posts: Vec<Post<B>>,
    sinks: Vec<D>,
    accept: &A,
    pause: P,
) -> Result<ServedBy<B, D>, Refusal>
where
    R: Threads + Wait + Clock + Sync,
    Q: Wait + Sync,
    N: Log + Sync,
    B: Names + Send + Sync,
    L: Link + Send + Drop,
    A: Accept<L> + ControlTask + Sync,
    D: Sink + Send + Drop,
    P: Pause + Drop,
    requires some { 1 ≤ vec_len posts }
    requires sinks { vec_len sinks ≡ vec_len posts + 1 }
    requires parts { ForSome (slice_get posts.items 0) (λ p. 2 ≤ p.seat.tally.parts) }
    ensures posts { IfOk result (λ r. map (λ p. p.seat.worker) r.posts.items
        ≡ map (λ p. p.seat.worker) posts.items) }
    ensures served { IfOk result (λ r. AllServed L.left L.sent L.calls L.reads
        (starts service.now.serving.limits
        (record { number = shared.now.number; strict = shared.now.strict }) None
        (without_part (map (λ p. p.seat) posts.items)) (map (λ p. p.waiting.items) posts.items)
        (map D.calls (take (vec_len posts) sinks.items)))
        (map (λ p. p.seat) r.posts.items) (map (λ p. p.waiting.items) r.posts.items)
        (map D.calls r.sinks.items)) }
    ensures flushed { IfOk result (λ r. MakesRounds shared.now.number [] r.tally.past
        (slice_index_or (map D.calls sinks.items) (vec_len posts) []) (D.calls r.sink)) }
    ensures within { IfOk result (λ r. CountsWithin (map (λ p. p.seat) posts.items)
        (map D.calls sinks.items) (map (λ p. p.seat) r.posts.items) r.tally
        (map D.calls r.sinks.items) (D.calls r.sink)) }
    ensures parts { IfOk result (λ r. tally_parts (map (λ p. p.seat) r.posts.items)
        + r.tally.parts ≡ tally_parts (map (λ p. p.seat) posts.items)) }
    ensures refusal { IfErr result IsServeRefusal }
{
    // for the proof: threads may share the domain
    domains_are_sync::<Q, B>();
    let (rt, alloc, notices) = (service.rt, service.alloc, service.notices);
    let Some(pool) = Pool::<L>::new(alloc, service.serving, posts.len()) else {
        return Err(Refusal::NoMemory);
    };
    let mut posts = posts;
    let mut sinks = sinks;
    let Some(sink) = sinks.pop() else {
        unreachable!()
    };
    let tally = split_first(&mut posts);
    let sink = NotingSink::new(sink, notices);
    let context = WorkerContext {
        rt,
        alloc,
        notices,
        serving: service.serving,
        keeper: shared,
        accept,
        daemon_state: DaemonState::new(alloc, posts.len() as u64),
        pool,
    };
    let flusher = Flusher {
        rt,
        notices,
        keeper: shared,
        tally,
        sink,
        pause,
        daemon_state: &context.daemon_state,
        is_busy: false,
        mark: FLUSH_AHEAD,
        rest: 0,
    };
    run_all(&context, posts, sinks, flusher)
}

/// Starts a session thread for each post, with its sink, and the control task's, where one is
/// wanted; flushes beside them, and joins them.
#[tactic(auto, using(crate::proofs::Places::whole_front))]
fn run_all<R, N, B, K, L, A, D, P>(
    context: &WorkerContext<'_, R, N, K, L, A>,
    posts: Vec<Post<B>>,
    sinks: Vec<D>,
    flusher: Flusher<'_, R, N, K, B, NotingSink<'_, D, N>, P>,
) -> Result<ServedBy<B, D>, Refusal>
where
    R: Threads + Wait + Clock + Sync,
    N: Log + Sync,
    B: Names + Send + Sync,
    K: Keep<B> + Look + Copy + Sync + Drop,
    L: Link + Send + Drop,
    A: Accept<L> + ControlTask + Sync,
    D: Sink + Send + Drop,
    P: Pause + Drop,
    requires { vec_len posts ≡ vec_len sinks }
    ensures kept { IfOk result (λ r. AllServed L.left L.sent L.calls L.reads
        (starts context.now.serving.limits (K.identity context.now.keeper)
        (K.domain context.now.keeper) (map (λ p. p.seat) posts.items)
        (map (λ p. p.waiting.items) posts.items) (map D.calls sinks.items))
        (map (λ p. p.seat) r.posts.items) (map (λ p. p.waiting.items) r.posts.items)
        (map D.calls r.sinks.items)
        × RoundsOnThread (K.identity flusher.entry.keeper).number flusher.entry.tally r.tally
        (D.calls flusher.entry.sink.sink) (D.calls r.sink)) }
    ensures refusal { IfErr result IsServeRefusal }
{
    thread::scope(
        thread::scope_env(),
        context.rt,
        move |scope| -> Result<ServedBy<B, D>, Refusal>
            requires { vec_len posts ≡ vec_len sinks }
            ensures kept { IfOk result (λ r. AllServed L.left L.sent L.calls L.reads
                (starts context.entry.now.serving.limits
                (K.identity context.entry.now.keeper) (K.domain context.entry.now.keeper)
                (map (λ p. p.seat) posts.items)
                (map (λ p. p.waiting.items) posts.items) (map D.calls sinks.items))
                (map (λ p. p.seat) r.posts.items) (map (λ p. p.waiting.items) r.posts.items)
                (map D.calls r.sinks.items)
                × RoundsOnThread (K.identity flusher.entry.keeper).number flusher.entry.tally
                r.tally (D.calls flusher.entry.sink.sink) (D.calls r.sink)) }
            ensures refusal { IfErr result IsServeRefusal }
        {
            // for the proof: what threads may share, and what may go to them
            pools_are_sync::<L>();
            posts_are_send::<B>();
            let mut flusher = flusher;
            let (rt, alloc, count) = (context.rt, context.alloc, posts.len());
            // so joining needs no memory
            let Ok(mut back) = Vec::with_capacity(alloc, count) else {
                return Err(Refusal::NoMemory);
            };
            let Ok(mut given) = Vec::with_capacity(alloc, count) else {
                return Err(Refusal::NoMemory);
            };
            let Ok(mut started) = Vec::with_capacity(alloc, count) else {
                return Err(Refusal::NoMemory);
            };
            // started threads wait for the gate until all are started
            let mut gate = context.daemon_state.gate.lock(rt);
            let mut sinks = sinks.into_iter();
            for place in posts {
                let Some(sink) = sinks.next() else {
                    unreachable!()
                };
                let (thread, worker) = (started.len() as u64, place.seat.worker());
                let promise: PostPromise<B, K, L, D> = PostPromise {
                    limits: context.serving.limits,
                    keeper: Snapshot::of(&context.keeper),
                    post: Snapshot::of(&place),
                    sink: Snapshot::of(&sink),
                    links: PhantomData,
                };
                let work = move || -> (Post<B>, D)
                    ensures { ServesPost L.left L.sent L.calls L.reads (record {
                      limits = context.entry.now.serving.limits;
                      identity = K.identity context.entry.now.keeper;
                      domain = K.domain context.entry.now.keeper;
                      seat = place.seat;
                      waiting = place.waiting.items;
                      calls = D.calls sink;
                    }) result.0.seat result.0.waiting.items (D.calls result.1) }
                { context.work(thread, context.keeper, place, sink) };
                match scope.spawn_with(promise, work) {
                    Ok(handle) => started.push_reserved(handle),
                    Err(error) => {
                        let error = io::Error::from(error);
                        error!(context.notices; target: "", "thread {worker}: {error}");
                        drop(gate);
                        join_all(rt, started, &mut back, &mut given);
                        return Err(Refusal::LinkFault);
                    }
                }
            }
            let mut control_task = None;
            if context.accept.is_wanted() {
                match scope.spawn(move || context.run_control_task()) {
                    Ok(handle) => control_task = Some(handle),
                    Err(error) => {
                        let error = io::Error::from(error);
                        error!(context.notices; target: "", "control task: {error}");
                        drop(gate);
                        join_all(rt, started, &mut back, &mut given);
                        return Err(Refusal::LinkFault);
                    }
                }
            }
            *gate = true;
            drop(gate);
            flusher.go_on();
            join_all(rt, started, &mut back, &mut given);
            if let Some(control_task) = control_task {
                control_task.join(rt);
            }
            let Flusher { tally, sink, .. } = flusher;
            Ok(ServedBy {
                posts: back,
                sinks: given,
                sink: sink.into_sink(),
                tally,
            })
        },
    )
}

/// Joins each thread, and puts its post and its sink after those that are there.
#[tactic(auto, using(crate::proofs::Places::more_kept, crate::proofs::Places::none_kept))]
fn join_all<R: Threads, B: Names + Send, K: Keep<B>, L: Link, D: Sink + Send + Drop>(
    rt: &R,
    started: Vec<PromisedHandle<(Post<B>, D), PostPromise<B, K, L, D>>>,
    back: &mut Vec<Post<B>>,
    given: &mut Vec<D>,
)
    requires empty { back.old.items ≡ [] }
    requires none { given.old.items ≡ [] }
    requires room { vec_len started ≤ vec_capacity back.old }
    requires sinks { vec_len started ≤ vec_capacity given.old }
    ensures { AllServed L.left L.sent L.calls L.reads (map (λ h. record {
      limits = h.promise.limits;
      identity = K.identity h.promise.keeper.value;
      domain = K.domain h.promise.keeper.value;
      seat = h.promise.post.value.seat;
      waiting = h.promise.post.value.waiting.items;
      calls = D.calls h.promise.sink.value;
    }) started.items)
        (map (λ p. p.seat) back.new.items) (map (λ p. p.waiting.items) back.new.items)
        (map D.calls given.new.items) }
{
    for handle in started {
        let (post, sink) = handle.join(rt);
        back.push_reserved(post);
        given.push_reserved(sink);
    }
}

/// A tally with one part of the first post's.
fn split_first<B: Names>(posts: &mut Vec<Post<B>>) -> Tally<B>
    requires some { 1 ≤ vec_len posts.old }
    requires parts { ForSome (slice_get posts.old.items 0) (λ p. 2 ≤ p.seat.tally.parts) }
    ensures good { result.good ≡ 0 }
    ensures workers { map (λ p. p.seat.worker) posts.new.items
        ≡ map (λ p. p.seat.worker) posts.old.items }
    ensures tallies { map (λ p. p.seat.tally.good) posts.new.items
        ≡ map (λ p. p.seat.tally.good) posts.old.items }
    ensures parts { tally_parts (map (λ p. p.seat) posts.new.items) + result.parts
        ≡ tally_parts (map (λ p. p.seat) posts.old.items) }
    ensures past { result.past ≡ [] }
    ensures seats { map (λ p. p.seat) posts.new.items
        ≡ without_part (map (λ p. p.seat) posts.old.items) }
    ensures waiting { map (λ p. p.waiting.items) posts.new.items
        ≡ map (λ p. p.waiting.items) posts.old.items }
    ensures length { vec_len posts.new ≡ vec_len posts.old }
{
    posts[0].seat.tally().split()
}
