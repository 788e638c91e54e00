//! Where a cached frame is.
/// Where a cached range is.
#[derive(Clone, Copy, Debug, PartialEq, Eq)]
pub enum Spot {
    /// In a magazine of this worker.
    Magazine(u64),

    /// In the depot.
    Depot,
}
