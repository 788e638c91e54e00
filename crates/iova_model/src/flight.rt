//! A flush in flight.
/// A flush in flight.
#[derive(Clone, Copy, Debug, Default, PartialEq, Eq)]
pub struct Flight {
    /// Its number, the start count that it began with.
    pub number: u64,
    /// By how much the finish count grows where it ends well.
    pub credit: u64,
}
