//! An entry of a flush ring.
/// A range that waits in a ring for a flush (Linux 5.15 `include/linux/iova.h`: `iova_fq_entry`).
#[derive(Clone, Copy, Debug, Default, PartialEq, Eq)]
pub struct Entry {
    /// The first frame.
    pub lo: u64,
    /// How many frames, in a ring 1 to 1,048,576.
    pub len: u64,
    /// The start count when the range was queued.
    pub count: u64,
}
