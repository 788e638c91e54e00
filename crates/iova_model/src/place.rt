//! Where a frame can be, and how many frames are there.
/// Where a frame is.
#[derive(Clone, Copy, Debug, PartialEq, Eq)]
pub enum Place {
    /// Nobody has it.
    Free,
    /// In a window.
    Reserved,
    /// In a holding of the client with this serial, a closing client's too.
    Client(u64),
    /// In a magazine of this worker.
    Magazine(u64),
    /// In the depot.
    Depot,
    /// In the ring of this worker.
    Ring(u64),
}

/// How many frames of the bounds are at each kind of place. They add up to the length of the
/// bounds.
#[derive(Clone, Copy, Debug, Default, PartialEq, Eq)]
pub struct Counts {
    /// Nobody's.
    pub free: u64,
    /// In windows.
    pub reserved: u64,
    /// In the holdings of all clients.
    pub client: u64,
    /// In the magazines of all workers.
    pub magazine: u64,
    /// In the depot.
    pub depot: u64,
    /// In the rings of all workers.
    pub ring: u64,
}
