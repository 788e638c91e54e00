//! The result of a release.

use iova_range::range::Range;

/// The result of releasing a range.
#[derive(Clone, Copy, PartialEq, Eq, Debug)]
pub enum Unmapped {
    /// The range is unmapped, and waits in the worker's ring for a flush.
    Queued(Range),
    /// The range is unmapped, the finish count had reached the number of the flush that began after
    /// it once that flush had ended, and the worker's ring was drained: that flush, or one that
    /// began later, has ended well.
    Freed(Range),
}
