//! Requests gathered from a piece of the stream.
ghost use Rattle.std.specs.Prelude.{◌≡◌, ◌≤◌, ◌↔◌, [], IsTrue, IsSome, IfSome, length};
ghost use Rattle.iova_session.specs.Rounds.{Gathers};

use arrayvec::ArrayVec;
use iova_proto::fed::Fed;
use iova_proto::lines::Lines;
use iova_proto::request::Request;
use iova_range::limits::MAX_RUN;

/// Why no more requests were gathered.
#[derive(Clone, Copy, Debug, PartialEq, Eq)]
pub(crate) enum Stop {
    /// No other line has ended in the piece.
    More,
    /// 16 were gathered.
    Full,
    /// The last one is `bye`.
    Bye,
    /// The next line is bad.
    Bad,
    /// There is one more than may be asked.
    Limit,
}

/// The requests whose lines stand at the front of the piece, at most 16 and at most `left`. Gives
/// how many bytes of the piece they take, and why there are no more. Where the piece ends with the
/// line of the last one, there are no more even if they are 16. Copies no line that lies whole in
/// the piece.
pub(crate) fn take_requests(
    lines: &mut Lines,
    piece: &[u8],
    left: u64,
    run: &mut ArrayVec<Request, MAX_RUN>,
) -> (usize, Stop)
    requires empty { run.old.items ≡ [] }
    requires open { IsSome lines.old }
    ensures used { result.0 ≤ length piece.now }
    ensures most { length run.new.items ≤ MAX_RUN }
    ensures within { length run.new.items ≤ left }
    ensures full { result.1 ≡ Stop.Full → length run.new.items ≡ MAX_RUN }
    ensures gathered { IfSome lines.old
        (λ kept. Gathers left kept piece.now run.new.items result.0 result.1 lines.new) }
{
    let mut used = 0;
    'gathering: loop {
        match lines.feed(&piece[used..]) {
            Fed::More => return (piece.len(), Stop::More),
            Fed::Bad => return (used, Stop::Bad),
            Fed::Request(request, more) => {
                if run.len() as u64 >= left {
                    return (used, Stop::Limit);
                }
                used += more;
                run.push(request);
                if is_bye(request) {
                    return (used, Stop::Bye);
                }
                if used == piece.len() {
                    return (used, Stop::More);
                }
                if run.len() == MAX_RUN {
                    return (used, Stop::Full);
                }
            }
        }
    }
}

fn is_bye(request: Request) -> bool
    ensures { IsTrue result ↔ (request ≡ Request.Bye) }
{
    matches!(request, Request::Bye)
}
