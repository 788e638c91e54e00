//! The steps, their replies, and the growths in them that can be refused memory.
use iova_range::range::Range;
use iova_range::refusal::Refusal;

/// The serial of a client, 1 to 2^63 - 1. None is given twice.
pub type ClientId = u64;

/// One step of a domain. Workers, rings, clients and flush numbers are any numbers: the step itself
/// refuses those that there are not.
#[derive(Clone, Copy, Debug)]
pub enum Step {
    /// Makes one window of the frames `lo` to `hi`, both inside, and of all windows that overlap
    /// them.
    Reserve {
        lo: u64,
        hi: u64,
    },
    /// Opens a client of the worker. One that is `sac` is first sought a place below 4 GiB.
    Open {
        worker: u64,
        sac: bool,
    },
    /// Gives the client `need(frames)` frames, none above `limit`.
    Alloc {
        worker: u64,
        client: u64,
        frames: u64,
        limit: u64,
    },
    /// Puts the client's holding that begins at `lo` into the worker's ring.
    Unmap {
        worker: u64,
        client: u64,
        lo: u64,
    },
    /// Begins a flush.
    Begin,
    /// Ends the flush of this number, well or not.
    End {
        no: u64,
        ok: bool,
    },
    /// Drains a ring into the magazines of the worker `by`.
    Drain {
        ring: u64,
        by: u64,
    },
    /// Marks the client closing.
    Close {
        worker: u64,
        client: u64,
    },
    /// Marks the client closing and puts its lowest holding into the worker's ring, or, where it
    /// has none, forgets it.
    CloseOne {
        worker: u64,
        client: u64,
    },
}

/// What a step is answered.
#[derive(Clone, Copy, Debug, PartialEq, Eq)]
pub enum Reply {
    /// The window that resulted.
    Reserved(Range),
    /// The serial of the new client.
    Opened(u64),
    /// The new holding.
    Given(Range),
    /// The holding that went into a ring.
    Queued(Range),
    /// The closing client held nothing, and is gone.
    Empty,
    /// The number of the new flush.
    Begun(u64),
    /// The flush has ended.
    Ended,
    /// How many entries left the ring.
    Drained(u64),
    /// The client is closing, and this is how many holdings it has left.
    Marked(u64),
    /// The step was refused.
    Refused(Refusal),
}

/// The growth of a step that was refused memory.
#[derive(Clone, Copy, Debug, PartialEq, Eq)]
pub enum Point {
    /// None was.
    Never,
    /// The one growth of `Reserve` or `Open`.
    Once,
    /// `Alloc`: room in the client's ledger.
    Ledger,
    /// `Alloc`: the tree's, in the try below 4 GiB.
    First,
    /// `Alloc`: the tree's, in the try with the limit that was asked for.
    Second,
    /// `Alloc`: the tree's, after all caches were emptied.
    Last,
}
