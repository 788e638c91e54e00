//! What several requests in one hold ask, and what they are answered.

use iova_range::range::Range;
use iova_range::refusal::Refusal;
use iova_range::stat::Stat;

/// One ask of a batch.
#[derive(Clone, Copy, PartialEq, Eq, Debug)]
pub enum Ask {
    /// A range for so many frames, with no frame above the limit.
    Alloc { frames: u64, limit: u64 },
    /// The client's range that begins at this frame is to be unmapped.
    Free { lo: u64 },
    /// How the domain stands.
    Stat,
}

/// What one ask is answered.
#[derive(Clone, Copy, PartialEq, Eq, Debug)]
pub enum Told {
    /// The client has this range.
    Given(Range),
    /// The range is unmapped, and waits in the worker's ring for a flush.
    Queued(Range),
    /// How the domain stands.
    Stat(Stat),
    /// The ask was refused.
    Refused(Refusal),
}
