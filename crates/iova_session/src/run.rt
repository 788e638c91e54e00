//! A session at a post, from its first byte to the end of its client.
ghost use Rattle.std.specs.Prelude.{◌≡◌, ◌+◌, ◌++◌, ◌≤◌, List, None, Some, true, false, vec_len, vec_capacity};
ghost use Rattle.iova_range.specs.declared.limits.TheConstants.{MAX_HOLDINGS};
ghost use Rattle.iova_keep.specs.Views.{WhereKnown, KeepsPlace};
ghost use Rattle.iova_session.specs.Domains.{LeavesOthers};
ghost use Rattle.iova_session.specs.Gone.{HasRoom};
ghost use Rattle.iova_session.specs.Leading.{EndDoes, moment};
ghost use Rattle.iova_session.specs.Sessions.{usual_limits, failures_at, ends_at};
ghost use Rattle.iova_session.specs.Leaving.{still_waits};
ghost use Rattle.iova_session.specs.Posts.{EndsFrom, Fits, TellsFitting, kept_if};
ghost use Rattle.iova_session.specs.PostSessions.{RunsSession, ServesAtSeat, between};

use crate::end::End;
use crate::leaving::{leave, waits};
use crate::link::Link;
use crate::post::{Post, take_room};
use crate::serve::serve_within;
use crate::session::Session;
use crate::session_desk::{DomainAccess, SessionDesk, SessionStart};
use crate::session_limits::SessionLimits;
use crate::together::LastBatch;
use iova_keep::ending::Ending;
use iova_keep::keep::Keep;
use iova_keep::names::Names;
use iova_keep::seat::Seat;
use iova_laws::replies::others_keep_their_holdings;
use iova_laws::validity::steps_keep_validity;
use iova_model::step::ClientId;
use iova_model::totals::Totals;
use iova_range::refusal::Refusal;
use iova_sink::sink::Sink;
use std::alloc::Global;
use std::marker::{Brand, PhantomData};

/// How a session ended, and its client.
#[derive(Clone, Copy, Debug, PartialEq, Eq)]
pub struct SessionEnd {
    /// Why the session ended.
    pub end: End,
    /// The result of the end of the client that a `hello` opened; none where none was opened.
    pub client: Option<Ending>,
}

/// The result of serving, and what it had access to.
#[derive(Drop)]
struct ServedSession<'a, B: Names, K: Keep<B>, D: Sink> {
    end: End,
    client: Option<ClientId>,
    access: DomainAccess<'a, B, K, D>,
}

/// Serves a session, and gives back what it had access to.
fn serve_with<'a, B: Names, K: Keep<B>, D: Sink, L: Link, O: SessionStart>(
    alloc: Global,
    limits: SessionLimits,
    link: &mut L,
    access: DomainAccess<'a, B, K, D>,
) -> ServedSession<'a, B, K, D>
    requires names { (access.keeper.ghost_name ≡ O.keeper_name)
        × (access.seat.ghost_name ≡ O.seat_name) × (access.sink.ghost_name ≡ O.sink_name) }
    requires same { K.identity access.keeper.now ≡ O.identity }
    requires domain { K.domain access.keeper.now ≡ O.domain }
    requires seat { access.seat.now ≡ O.seat }
    requires calls { D.calls access.sink.now ≡ O.calls }
    ensures names { (result.access.keeper.ghost_name ≡ access.entry.keeper.ghost_name)
        × (result.access.seat.ghost_name ≡ access.entry.seat.ghost_name)
        × (result.access.sink.ghost_name ≡ access.entry.sink.ghost_name) }
    ensures same { K.identity result.access.keeper.now ≡ K.identity access.entry.keeper.now }
    ensures session { ServesAtSeat L.left L.sent L.reads limits
        (K.identity access.entry.keeper.now).strict (K.identity access.entry.keeper.now).number
        link.old link.new result.end result.client
        access.entry.seat.now result.access.seat.now
        (D.calls access.entry.sink.now) (D.calls result.access.sink.now)
        (K.domain access.entry.keeper.now) (K.domain result.access.keeper.now) }
    ensures failures { L.failures link.new ≡ L.failures link.old + failures_at result.end }
    ensures ends { L.ends link.new ≡ L.ends link.old + ends_at result.end }
    ensures place { KeepsPlace access.entry.seat.now result.access.seat.now
        (D.calls access.entry.sink.now)
        (D.calls result.access.sink.now) }
{
    let session = Session::new(access.keeper.number());
    let mut desk: SessionDesk<'a, B, K, D, O> = SessionDesk {
        access,
        session,
        last: LastBatch::new(alloc),
        start: PhantomData,
    };
    let end = serve_within(alloc, limits, link, &mut desk);
    let client = desk.session.client();
    let SessionDesk {
        access,
        session: _,
        last: _,
        start: _,
    } = desk;
    ServedSession {
        end,
        client,
        access,
    }
}

/// Serves a session of the seat's worker, and gives how it ended and the client that it opened.
fn serve_at<B: Names, K: Keep<B>, D: Sink, L: Link>(
    alloc: Global,
    limits: SessionLimits,
    link: &mut L,
    keeper: &mut K,
    seat: &mut Seat<B>,
    sink: &mut D,
) -> (End, Option<ClientId>)
    ensures same { K.identity keeper.new ≡ K.identity keeper.old }
    ensures session { ServesAtSeat L.left L.sent L.reads limits (K.identity keeper.old).strict
        (K.identity keeper.old).number link.old link.new result.0 result.1 seat.old seat.new
        (D.calls sink.old) (D.calls sink.new) (K.domain keeper.old) (K.domain keeper.new) }
    ensures failures { L.failures link.new ≡ L.failures link.old + failures_at result.0 }
    ensures ends { L.ends link.new ≡ L.ends link.old + ends_at result.0 }
    ensures place { KeepsPlace seat.old seat.new (D.calls sink.old) (D.calls sink.new) }
{
    let ServedSession {
        end,
        client,
        access: DomainAccess {
            keeper: _,
            seat: _,
            sink: _,
        },
    } = serve_with::<B, K, D, L, Brand>(alloc, limits, link, DomainAccess { keeper, seat, sink });
    (end, client)
}

/// Serves one session at the post, and then ends the client that its `hello` opened, whatever ended
/// the session. A client that waits is put on the post's list, last. `NoMemory` without a read
/// where there is no room for that. Where the client holds ranges, the sink is notified that it is
/// gone, and of all of them, before the first is queued; where the sink fails, none is. `client` is
/// none where no client was opened; so it would be where the seat's shares weren't as they have to
/// be, but this never happens. Over a keeper whose domain is known, each request does there what
/// its call of the lock does, and is answered by what that call answers.
pub fn run_session<B: Names, L: Link, K: Keep<B>, D: Sink>(
    alloc: Global,
    link: &mut L,
    keeper: &mut K,
    post: &mut Post<B>,
    sink: &mut D,
) -> SessionEnd
    ensures same { K.identity keeper.new ≡ K.identity keeper.old }
    ensures session { RunsSession L.left L.sent L.reads usual_limits (K.identity keeper.old).strict
        (K.identity keeper.old).number link.old link.new result
        (between post.old.seat post.old.waiting.items (D.calls sink.old) (K.domain keeper.old))
        (between post.new.seat post.new.waiting.items (D.calls sink.new) (K.domain keeper.new)) }
    ensures failures { L.failures link.new ≡ L.failures link.old + failures_at result.end }
    ensures ends { L.ends link.new ≡ L.ends link.old + ends_at result.end }
    ensures room { HasRoom post.old.waiting.items (vec_capacity post.old.ranges)
        → HasRoom post.new.waiting.items (vec_capacity post.new.ranges) }
    ensures place { KeepsPlace post.old.seat post.new.seat (D.calls sink.old) (D.calls sink.new) }
{
    run_session_within(alloc, SessionLimits::usual(), link, keeper, post, sink)
}

/// Serves one session over the link, from its first byte to the end of its client, within these
/// limits.
pub fn run_session_within<B: Names, L: Link, K: Keep<B>, D: Sink>(
    alloc: Global,
    limits: SessionLimits,
    link: &mut L,
    keeper: &mut K,
    post: &mut Post<B>,
    sink: &mut D,
) -> SessionEnd
    ensures same { K.identity keeper.new ≡ K.identity keeper.old }
    ensures session { RunsSession L.left L.sent L.reads limits (K.identity keeper.old).strict
        (K.identity keeper.old).number link.old link.new result
        (between post.old.seat post.old.waiting.items (D.calls sink.old) (K.domain keeper.old))
        (between post.new.seat post.new.waiting.items (D.calls sink.new) (K.domain keeper.new)) }
    ensures failures { L.failures link.new ≡ L.failures link.old + failures_at result.end }
    ensures ends { L.ends link.new ≡ L.ends link.old + ends_at result.end }
    ensures room { HasRoom post.old.waiting.items (vec_capacity post.old.ranges)
        → HasRoom post.new.waiting.items (vec_capacity post.new.ranges) }
    ensures place { KeepsPlace post.old.seat post.new.seat (D.calls sink.old) (D.calls sink.new) }
{
    // for the proof: whose holdings a step leaves
    others_keep_their_holdings();
    if !take_room(&mut post.waiting, &mut post.ranges) {
        return SessionEnd {
            end: End::NoMemory,
            client: None,
        };
    }
    let before = shares_of(&post.seat);
    let (end, opened) = serve_at(alloc, limits, link, keeper, &mut post.seat, sink);
    let client = match opened {
        None => None,
        Some(id) => end_opened(keeper, post, sink, id, Some(before)),
    };
    SessionEnd { end, client }
}

/// Ends the client that a session opened. Where the end has to wait, the client goes on the post's
/// list. `back` is the seat's shares from before the session: an end whose shares don't fit these
/// isn't reported.
pub(crate) fn end_opened<B: Names, K: Keep<B>, D: Sink>(
    keeper: &mut K,
    post: &mut Post<B>,
    sink: &mut D,
    id: ClientId,
    back: Option<Totals>,
) -> Option<Ending>
    requires room { vec_len post.old.waiting + 1 ≤ vec_capacity post.old.waiting }
    requires ranges { MAX_HOLDINGS ≤ vec_capacity post.old.ranges }
    ensures same { K.identity keeper.new ≡ K.identity keeper.old }
    ensures domain { WhereKnown (K.domain keeper.old) (K.domain keeper.new)
        (LeavesOthers (Some id) result) }
    ensures does { WhereKnown (K.domain keeper.old) (K.domain keeper.new)
        (λ s t. EndDoes (K.identity keeper.old).number
        (Some id) result back post.old.waiting.items post.new.waiting.items
        (moment post.old.seat (D.calls sink.old) s)
        (moment post.new.seat (D.calls sink.new) t)) }
    ensures ended { EndsFrom id result back post.old.seat.held post.new.seat.held
        post.old.waiting.items
        post.new.waiting.items }
    ensures room { MAX_HOLDINGS ≤ vec_capacity post.new.ranges }
    ensures place { KeepsPlace post.old.seat post.new.seat (D.calls sink.old) (D.calls sink.new) }
{
    // for the proof: whose holdings a step leaves, and that a domain that is known is valid
    others_keep_their_holdings();
    steps_keep_validity();
    keeper.domain_is_kept();
    let left = leave(keeper, &mut post.seat, sink, &mut post.ranges, id);
    list_waiting(&mut post.waiting, id, left.ended);
    told_of(left.ended, back, shares_of(&post.seat))
}

/// Puts the client on the list, last, where it waits.
fn list_waiting(waiting: &mut Vec<ClientId>, id: ClientId, ended: Result<Ending, Refusal>)
    requires { vec_len waiting.old + 1 ≤ vec_capacity waiting.old }
    ensures { waiting.new.items ≡ waiting.old.items ++ kept_if (still_waits ended) id }
{
    if waits(ended) {
        let Ok(()) = waiting.push(id) else {
            unreachable!();
        };
    }
}

/// The end of a client as it is reported: none where the seat's shares don't fit it, or where there
/// was no such client.
fn told_of(ended: Result<Ending, Refusal>, back: Option<Totals>, now: Totals) -> Option<Ending>
    ensures { TellsFitting result ended back now }
{
    let Ok(ending) = ended else {
        return None;
    };
    if fits(back, now, ending) {
        Some(ending)
    } else {
        None
    }
}

/// Whether the seat's shares fit this end of a client.
fn fits(back: Option<Totals>, now: Totals, ending: Ending) -> bool
    ensures yes { result ≡ true → Fits back now ending }
    ensures no { result ≡ false → Fits back now ending → ⊥ }
{
    let Some(back) = back else {
        return false;
    };
    match ending {
        Ending::Ended(_) => now == back,
        Ending::Waiting(left, _) => now.count.checked_sub(back.count) == Some(left),
    }
}

/// The seat's three shares.
pub(crate) fn shares_of<B: Names>(seat: &Seat<B>) -> Totals
    ensures { result ≡ seat.now.held }
{
    Totals {
        count: seat.count(),
        frames: seat.frames(),
        sum_lo: seat.sum_lo(),
    }
}
