//! Totals over holdings.
/// What some clients hold.
#[derive(Clone, Copy, Debug, Default, PartialEq, Eq)]
pub struct Totals {
    /// How many holdings.
    pub count: u64,
    /// How many frames they have.
    pub frames: u64,
    /// The sum of their first frames, below 2^62.
    pub sum_lo: u64,
}
