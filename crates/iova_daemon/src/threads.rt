//! What goes to the threads of a daemon, and what a session thread promises of it. One `search`
//! doesn't get through all that they are lent and given, so each law here is of one type.
ghost use Rattle.std.specs.Prelude.{◌≡◌};
ghost use Rattle.std.specs.Thread.{IsSend, IsSync};
ghost use Rattle.iova_lock.specs.contracts.shared.Shared as domains;
ghost use Rattle.iova_session.specs.contracts.post.Post as posts;
ghost use Rattle.iova_daemon.specs.SessionThreads.{ServesPost};
ghost use Rattle.iova_daemon.specs.contracts.pool.Pool as pools;

use crate::pool::Pool;
use iova_keep::keep::Keep;
use iova_keep::names::Names;
use iova_lock::crossing::books_are_send;
use iova_lock::shared::Shared;
use iova_session::link::Link;
use iova_session::post::Post;
use iova_session::session_limits::SessionLimits;
use iova_sink::sink::Sink;
use std::marker::PhantomData;
use std::snapshot::Snapshot;
use std::thread::Promise;

/// The promise of a session thread: only sessions, each over an unused link of its own, and tries
/// of the waiting clients led from the post and the sink that it was given to those that it gives
/// back.
#[derive(Drop)]
pub(crate) struct PostPromise<B: Names, K, L, D> {
    pub limits: SessionLimits,
    pub keeper: Snapshot<K>,
    pub post: Snapshot<Post<B>>,
    pub sink: Snapshot<D>,
    pub links: PhantomData<L>,
}

impl<B: Names, K: Keep<B>, L: Link, D: Sink> Promise<(Post<B>, D)> for PostPromise<B, K, L, D> {
    ghost kept_by = { λ p r. ServesPost L.left L.sent L.calls L.reads (record {
      limits = p.limits;
      identity = K.identity p.keeper.value;
      domain = K.domain p.keeper.value;
      seat = p.post.value.seat;
      waiting = p.post.value.waiting.items;
      calls = D.calls p.sink.value;
    }) r.0.seat r.0.waiting.items (D.calls r.1) };
}

fn is_send<T: Send>()
    ensures { IsSend T.row }
{}

fn is_sync<T: Sync>()
    ensures { IsSync T.row }
{}

/// A post may go to another thread.
pub(crate) fn posts_are_send<B: Names>()
where
    B: Send,
    ensures { IsSend (posts.the_row B.row B.Names) }
{
    is_send::<Post<B>>();
}

/// Threads may share a domain under its lock.
pub(crate) fn domains_are_sync<Q, B: Names>()
where
    Q: Sync,
    B: Send,
    ensures { IsSync (domains.the_row Q.row B.row B.Names) }
{
    books_are_send::<B>();
    is_sync::<Shared<Q, B>>();
}

/// Threads may share a pool, whose links go from one to another.
pub(crate) fn pools_are_sync<L: Link + Send>()
    ensures { IsSync (pools.the_row L.row L.Link) }
{
    is_sync::<Pool<L>>();
}
