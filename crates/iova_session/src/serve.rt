//! A session, from its first byte to its end.
ghost use Rattle.std.specs.Prelude.{◌≡◌, ℕ, ◌+◌, ◌++◌, List, IfErr, IsSome};
ghost use Rattle.std.specs.Io.KnownBytes.{Appends};
ghost use Rattle.iova_session.specs.Pairs.{Pair};
ghost use Rattle.iova_session.specs.Sessions.{ServesOver, usual_limits, failures_at, ends_at};
ghost use Rattle.iova_session.specs.Rounds.{TakesPiece, CountsFault};

use crate::answering::{AnswerRoom, ask_all, refuse};
use crate::desk::Desk;
use crate::end::End;
use crate::gathering::{Stop, take_requests};
use crate::link::Link;
use crate::session_limits::SessionLimits;
use arrayvec::ArrayVec;
use iova_proto::lines::Lines;
use iova_proto::request::Request;
use iova_range::limits::MAX_RUN;
use std::alloc::Global;

/// How many bytes one read asks for at most: those of two full runs of requests and more. They lie
/// on the thread's stack, which is most of what a client costs.
const PIECE: usize = 1024;

/// Serves the client at the other end of the link until the session ends: reads lines, asks the
/// desk in runs of 1 to 16 requests, and writes the answers to each run before the next. It reads no
/// more while a whole request that was read is not answered. A bad line is answered `no 20
/// BadLine`, the 65,537th request and the read after 1,048,576 ones `no 21 TooMany`, and each of
/// them ends the session; what stands at the end of the link without an LF is dropped. `NoMemory`
/// comes where a growth was refused, the desk's too: the requests of that run are not asked, or not
/// answered.
pub fn serve<L: Link, D: Desk>(alloc: Global, link: &mut L, desk: &mut D) -> End
    ensures session { (ps : List Pair) × (D.pairs desk.new ≡ D.pairs desk.old ++ ps)
        × ServesOver L.left L.sent L.reads usual_limits link.old link.new ps result }
    ensures failures { L.failures link.new ≡ L.failures link.old + failures_at result }
    ensures ends { L.ends link.new ≡ L.ends link.old + ends_at result }
{
    serve_within(alloc, SessionLimits::usual(), link, desk)
}

/// Serves a session within these limits: the request behind the last one, and the read behind the
/// last one, are answered `no 21 TooMany`.
pub fn serve_within<L: Link, D: Desk>(
    alloc: Global,
    limits: SessionLimits,
    link: &mut L,
    desk: &mut D,
) -> End
    ensures session { (ps : List Pair) × (D.pairs desk.new ≡ D.pairs desk.old ++ ps)
        × ServesOver L.left L.sent L.reads limits link.old link.new ps result }
    ensures failures { L.failures link.new ≡ L.failures link.old + failures_at result }
    ensures ends { L.ends link.new ≡ L.ends link.old + ends_at result }
{
    let Some(mut room) = AnswerRoom::new(alloc) else {
        return End::NoMemory;
    };
    let mut lines = Lines::new();
    let mut left = limits.requests;
    // room for a run's requests; it is made once, since making it fills it
    let mut run: ArrayVec<Request, MAX_RUN> = ArrayVec::new();
    let mut buf = [0; PIECE];
    'reading: for _ in 0..limits.reads {
        let Ok(n) = link.read(&mut buf) else {
            return End::LinkFault;
        };
        if n == 0 {
            return End::Closed;
        }
        let piece = &buf[..n];
        let taken = take_piece(
            link, desk, &mut lines, piece, &mut left, &mut run, &mut room,
        );
        if let Err(end) = taken {
            return end;
        }
    }
    refuse(link, b"no 21 TooMany\n", End::TooMany)
}

/// Takes the next piece of the stream: gathers, asks and answers until it is used or the session
/// ends.
pub(crate) fn take_piece<L: Link, D: Desk>(
    link: &mut L,
    desk: &mut D,
    lines: &mut Lines,
    piece: &[u8],
    left: &mut u64,
    run: &mut ArrayVec<Request, MAX_RUN>,
    room: &mut AnswerRoom,
) -> Result<(), End>
    requires { IsSome lines.old }
    ensures left { L.left link.new ≡ L.left link.old }
    ensures reads { L.reads link.new ≡ L.reads link.old }
    ensures ends { L.ends link.new ≡ L.ends link.old }
    ensures failures { CountsFault result (L.failures link.old) (L.failures link.new) }
    ensures open { IfErr result (λ e. ends_at e ≡ 0) }
    ensures taken { (kept : List ℕ) × (ps : List Pair) × (written : List ℕ)
        × (lines.old ≡ Some kept)
        × (D.pairs desk.new ≡ D.pairs desk.old ++ ps)
        × Appends (L.sent link.old) (L.sent link.new) written
        × TakesPiece left.old (kept ++ piece.now) ps written left.new lines.new result }
{
    let mut at = 0;
    'rounds: loop {
        run.clear();
        let (used, stop) = take_requests(lines, &piece[at..], *left, run);
        at += used;
        *left -= run.len() as u64;
        ask_all(link, desk, run.as_slice(), room)?;
        match stop {
            Stop::Full => {}
            Stop::More => return Ok(()),
            Stop::Bye => return Err(End::Bye),
            Stop::Bad => return Err(refuse(link, b"no 20 BadLine\n", End::BadLine)),
            Stop::Limit => return Err(refuse(link, b"no 21 TooMany\n", End::TooMany)),
        }
    }
}
