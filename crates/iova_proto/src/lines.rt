//! A stream of bytes, cut into the lines of requests.
ghost use Rattle.std.specs.Prelude.{◌≡◌, ℕ, ◌+◌, ◌<◌, List, [], ◌++◌, Option, Some, None, IfSome, length};
ghost use Rattle.iova_range.specs.declared.limits.TheConstants.{MAX_LINE};
ghost use Rattle.iova_text.specs.Lines.{HasNoLf, whole_line};
ghost use Rattle.iova_proto.specs.declared.request.Request.{Request as R};
ghost use Rattle.iova_proto.specs.Requests.{IsRequest, request_line};
ghost use Rattle.iova_proto.specs.Feeds.{Feeds, is_bad, state_behind};

use crate::decode::{request_at, request_of};
use crate::fed::Fed;
use crate::request::Request;
use iova_text::cutter::LineCutter;
use std::marker::Model;

/// What has come of a line that has not ended, or that a bad line has come. Contracts see the bytes
/// that are kept, and none after a bad line.
#[derive(Drop)]
pub struct Lines {
    /// What has come of the line.
    cutter: LineCutter,
    /// Whether a bad line has come.
    is_bad: bool,
}

impl Model for Lines {
    ghost use Rattle.std.specs.Prelude.{ℕ, List, Option, Some, None, if◌then◌else◌};

    ghost Value = { Option (List ℕ) };

    ghost view = { λ l. if l.is_bad then None else Some l.cutter };
}

impl Lines {
    ghost use Rattle.iova_proto.specs.declared.fed.Fed.{Fed as F};

    /// Nothing has come.
    pub fn new() -> Lines
        ensures { result ≡ Some [] }
    {
        Lines {
            cutter: LineCutter::new(),
            is_bad: false,
        }
    }

    /// Takes the piece up to the end of its first line. That line, with what was kept before the
    /// piece, is a request's, or it is bad. Where it has not ended, the piece is kept; 128 bytes
    /// without LF are bad. After a bad line each piece is bad. Looks at 128 bytes of the piece at
    /// most, copies none where a line lies whole in it, and takes no memory.
    #[inline(always)]
    pub fn feed(&mut self, piece: &[u8]) -> Fed
        ensures fed { IfSome self.old (λ kept. Feeds kept piece.now result self.new) }
        ensures bad { self.old ≡ None → (result ≡ Fed.Bad) × (self.new ≡ None) }

        // No other answer is right.
        ensures only { (kept : List ℕ) (other : F) (next : Option (List ℕ)) → self.old ≡ Some kept
            → Feeds kept piece.now other next → (other ≡ result) × (next ≡ self.new) }
    {
        if !self.is_bad && self.cutter.is_empty() {
            if let Some((request, behind)) = request_at(piece) {
                return Fed::Request(request, piece.len() - behind.len());
            }
        }
        self.feed_slow(piece)
    }

    /// Calls `feed_any` from a function of its own. The compiler clears the room for that call's
    /// answer where the calling function begins: so `feed` clears nothing.
    #[inline(always)]
    fn feed_slow(&mut self, piece: &[u8]) -> Fed
        ensures fed { IfSome self.old (λ kept. Feeds kept piece.now result self.new) }
        ensures bad { self.old ≡ None → (result ≡ Fed.Bad) × (self.new ≡ None) }
        ensures only { (kept : List ℕ) (other : F) (next : Option (List ℕ)) → self.old ≡ Some kept
            → Feeds kept piece.now other next → (other ≡ result) × (next ≡ self.new) }
    {
        self.feed_any(piece)
    }

    /// Feeds a piece with any line, in two passes: the line is cut off, and then read.
    #[inline(never)]
    fn feed_any(&mut self, piece: &[u8]) -> Fed
        ensures fed { IfSome self.old (λ kept. Feeds kept piece.now result self.new) }
        ensures bad { self.old ≡ None → (result ≡ Fed.Bad) × (self.new ≡ None) }
        ensures only { (kept : List ℕ) (other : F) (next : Option (List ℕ)) → self.old ≡ Some kept
            → Feeds kept piece.now other next → (other ≡ result) × (next ≡ self.new) }
    {
        if self.is_bad {
            return Fed::Bad;
        }
        let fed = feed_behind(&mut self.cutter, piece);
        self.is_bad = is_bad(fed);
        fed
    }
}

/// What the piece gives after what is kept.
fn feed_behind(cutter: &mut LineCutter, piece: &[u8]) -> Fed
    ensures { Feeds cutter.old piece.now result (state_behind result cutter.new) }
{
    match cutter.cut(piece) {
        Some((end, _behind)) => end_line(cutter, end),
        None => {
            if cutter.keep(piece) {
                Fed::More
            } else {
                Fed::Bad
            }
        }
    }
}

/// Takes the end of the line, which is without its LF.
fn end_line(cutter: &mut LineCutter, end: &[u8]) -> Fed
    requires one { HasNoLf end.now }
    requires short { length cutter.old + length end.now < MAX_LINE }
    ensures { (more : List ℕ) → Feeds cutter.old (whole_line end.now ++ more) result
        (state_behind result cutter.new) }
{
    let request = if cutter.is_empty() {
        request_of(end)
    } else {
        request_of_parts(cutter, end)
    };
    match request {
        Some(request) => Fed::Request(request, end.len() + 1),
        None => Fed::Bad,
    }
}

/// The request of a line that came in parts.
fn request_of_parts(cutter: &mut LineCutter, end: &[u8]) -> Option<Request>
    requires one { HasNoLf end.now }
    requires short { length cutter.old + length end.now < MAX_LINE }
    ensures spelled { IfSome result (λ r. IsRequest r
        × (cutter.old ++ end.now ≡ request_line r)) }
    ensures read { (r : R) → IsRequest r → cutter.old ++ end.now ≡ request_line r
        → result ≡ Some r }
    ensures empty { cutter.new ≡ [] }
{
    let line = cutter.end(end);
    request_of(line.as_slice())
}

fn is_bad(fed: Fed) -> bool
    ensures { result ≡ is_bad fed }
{
    match fed {
        Fed::Bad => true,
        Fed::Request(_, _) | Fed::More => false,
    }
}
