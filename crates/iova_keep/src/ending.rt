//! How a client's end went.

/// The result of ending a client.
#[derive(Clone, Copy, PartialEq, Eq, Debug)]
pub enum Ending {
    /// The client is gone. The call queued so many of its ranges.
    Ended(u64),
    /// The client is closing and has so many ranges left. Why it waits.
    Waiting(u64, Why),
}

/// Why a client's end waits.
#[derive(Clone, Copy, PartialEq, Eq, Debug)]
pub enum Why {
    /// The worker's ring stayed full, since the sink failed.
    SinkFailed,
    /// The worker's ring stayed full, though the flush ended well: an older one is still in flight.
    Overlap,
    /// The worker's ring is full, and no flush can begin, since 32 are in flight.
    FlightsFull,
    /// The worker's ring is full, and no flush can begin any more, since the start count is at its
    /// last value.
    Worn,
    /// The seat's shares are less than the range to be queued. This never happens.
    Share,
}
