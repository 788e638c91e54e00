//! A link that was accepted, and the session that is served over it.
ghost use Rattle.std.specs.Prelude.{◌≡◌};
ghost use Rattle.iova_keep.specs.Views.{KeepsPlace};
ghost use Rattle.iova_session.specs.PostSessions.{between};
ghost use Rattle.iova_daemon.specs.SessionThreads.{ServesSession};

use iova_keep::keep::Keep;
use iova_keep::names::Names;
use iova_session::link::Link;
use iova_session::post::Post;
use iova_session::run::{SessionEnd, run_session_within};
use iova_session::session_limits::SessionLimits;
use iova_sink::sink::Sink;
use std::alloc::Global;

/// A link, and the number of the session that is served over it. Nothing was read from the link
/// yet, and nothing was written to it. Only `serve` reads and writes.
#[derive(Drop)]
pub(crate) struct Accepted<L: Link> {
    link: L,
    pub(crate) session: u64,
    /// Whether the session takes the last place.
    pub(crate) is_full: bool,
    ghost unused: { L.calls link ≡ 0 },
}

impl<L: Link + Drop> Accepted<L> {
    /// Returns the session of this number over an unused link.
    pub(crate) fn new(link: L, session: u64, is_full: bool) -> Accepted<L>
        requires { L.calls link ≡ 0 }
    {
        Accepted {
            link,
            session,
            is_full,
        }
    }

    /// Serves the session at the post, from its first byte to the end of its client, and drops the
    /// link. So the number of connections never exceeds the number of sessions.
    pub(crate) fn serve<B: Names, K: Keep<B>, D: Sink>(
        self,
        alloc: Global,
        limits: SessionLimits,
        keeper: &mut K,
        post: &mut Post<B>,
        sink: &mut D,
    ) -> SessionEnd
        ensures same { K.identity keeper.new ≡ K.identity keeper.old }
        ensures session { ServesSession L.left L.sent L.calls L.reads limits
            (K.identity keeper.old).strict (K.identity keeper.old).number
            (between post.old.seat post.old.waiting.items (D.calls sink.old) (K.domain keeper.old))
            (between post.new.seat post.new.waiting.items (D.calls sink.new)
            (K.domain keeper.new)) }
        ensures place { KeepsPlace post.old.seat post.new.seat (D.calls sink.old)
            (D.calls sink.new) }
    {
        let Accepted { mut link, .. } = self;
        run_session_within(alloc, limits, &mut link, keeper, post, sink)
    }
}
