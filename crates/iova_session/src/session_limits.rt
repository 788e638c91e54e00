//! What a session may ask for.
ghost use Rattle.std.specs.Prelude.{◌≡◌, ◌*◌, min};
ghost use Rattle.iova_session.specs.Sessions.{usual_limits};

use iova_range::limits::MAX_REQUESTS;

/// How many reads a session may take for each request that it may ask.
const READS_OF_A_REQUEST: u64 = 16;

/// How much a session may ask for: it ends with the request, or the read, behind the last one.
#[derive(Clone, Copy, Debug, PartialEq, Eq)]
pub struct SessionLimits {
    /// The most requests.
    pub requests: u64,
    /// The most reads.
    pub reads: u64,
}

impl SessionLimits {
    /// 65,536 requests, in 1,048,576 reads.
    pub fn usual() -> SessionLimits
        ensures { result ≡ usual_limits }
    {
        SessionLimits::of_requests(MAX_REQUESTS)
    }

    /// So many requests, in 16 times as many reads, or in 2^64 - 1 where that is less.
    pub fn of_requests(requests: u64) -> SessionLimits
        ensures { result ≡ record {
          requests = requests;
          reads = min (requests * 16) 18446744073709551615;
        } }
    {
        SessionLimits {
            requests,
            reads: requests.saturating_mul(READS_OF_A_REQUEST),
        }
    }
}
