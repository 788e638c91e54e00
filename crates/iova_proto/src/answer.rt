//! What a request is answered.
use crate::held::HeldRanges;
use iova_range::range::Range;
use iova_range::refusal::Refusal;
use iova_range::stat::Stat;

/// What a request is answered.
#[derive(Debug, Drop)]
pub enum Answer {
    /// `opened <serial>`: the client that was opened.
    Opened(u64),
    /// `given <lo> <len>`: the range that was allocated.
    Given(Range),
    /// `queued <lo> <len>`: the range that was unmapped, and waits in a ring for a flush.
    Queued(Range),
    /// `freed <lo> <len>`: the range that was unmapped, and is free again.
    Freed(Range),
    /// `held <n>`, and a line `<lo> <len>` for each of the n ranges: what the client holds.
    Held(HeldRanges),
    /// `flushed <no> <freed>`: the number of the flush, and how many entries left the rings after
    /// it.
    Flushed { no: u64, freed: u64 },
    /// `stat` and eight numbers: what the domain holds.
    Stat(Stat),
    /// `bye`: the session ends.
    Bye,
    /// `no <number> <Name>`: why the request was refused.
    Refused(Refusal),
}
