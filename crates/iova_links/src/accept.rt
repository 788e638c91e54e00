//! Where a daemon's links come from.
ghost use Rattle.std.specs.Prelude.{◌≡◌, IfOk, IfSome};

use iova_session::link::{Link, LinkFault};

/// Accepts links, one in a call, for several threads at a time.
pub trait Accept<L: Link> {
    /// Waits for the next link, for at most `limit` milliseconds if there is a limit. Nothing was
    /// read from the link yet, and nothing was written to it. None if no link came, or if another
    /// thread took it. `LinkFault` if the link can't be accepted; the next call may accept one.
    fn accept(&self, limit: Option<u64>) -> Result<Option<L>, LinkFault>
        ensures unused { IfOk result (λ o. IfSome o (λ link. L.calls link ≡ 0)) };

    /// No session is to come: whoever connects from now on is refused, where that can be done.
    fn close(&self) {}

    /// Whether no link is to come any more, whatever number of sessions is left.
    fn has_ended(&self) -> bool {
        false
    }
}
