//! The ranges that a client holds, by its answers.
use iova_range::range::Range;
use std::marker::Model;

/// The ranges that a client holds, in the order of the list that they are made of: rising by their
/// first frame.
#[derive(Debug, Drop)]
pub struct HeldRanges {
    ranges: Vec<Range>,
}

impl Model for HeldRanges {
    ghost use Rattle.std.specs.Prelude.{List};
    ghost use Rattle.iova_range.specs.Frames.{Frames};

    ghost Value = { List Frames };

    ghost view = { λ h. h.ranges.items };
}

impl HeldRanges {
    ghost use Rattle.std.specs.Prelude.{◌≡◌};

    /// These ranges, in their order.
    pub fn new(ranges: Vec<Range>) -> HeldRanges
        ensures { result ≡ ranges.items }
    {
        HeldRanges { ranges }
    }

    /// The ranges, the first one first.
    pub fn as_slice(&self) -> &[Range]
        ensures { result.now ≡ self.now }
    {
        self.ranges.as_slice()
    }

    /// The ranges, as they were handed over.
    pub fn into_vec(self) -> Vec<Range>
        ensures { result.items ≡ self }
    {
        let HeldRanges { ranges } = self;
        ranges
    }
}
