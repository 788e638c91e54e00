//! How a domain stands, in numbers.

/// The frames of a domain's bounds, place by place, and the two counts of its flushes. Each frame
/// of the bounds is counted at one place, so the first six add up to the length of the bounds.
#[derive(Clone, Copy, Debug, PartialEq, Eq)]
pub struct Stat {
    /// Frames that nobody has.
    pub free: u64,
    /// Frames in windows.
    pub reserved: u64,
    /// Frames in the holdings of all clients.
    pub client: u64,
    /// Frames in the magazines of all workers.
    pub magazine: u64,
    /// Frames in the depot.
    pub depot: u64,
    /// Frames in the rings of all workers.
    pub ring: u64,
    /// How many flushes have begun.
    pub start: u64,
    /// Entries of rings with a lower count have been flushed.
    pub finish: u64,
}
