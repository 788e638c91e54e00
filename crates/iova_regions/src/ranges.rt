//! A list of ranges in fixed room.
ghost use Rattle.std.specs.Prelude.{◌≡◌, ◌+◌, ◌≤◌, ◌<◌, [], ◌∷◌, ◌++◌, length};
ghost use Rattle.iova_range.specs.declared.limits.TheConstants.{MAX_WINDOWS};

use iova_range::limits::MAX_WINDOWS;
use iova_range::range::Range;
use std::marker::Model;

/// Ranges, at most 64. Contracts see their list.
#[derive(Drop)]
pub(crate) struct Ranges {
    cells: [Range; MAX_WINDOWS],
    len: usize,
}

impl Model for Ranges {
    ghost use Rattle.std.specs.Prelude.{List, take, length, ◌≡◌, ◌≤◌};
    ghost use Rattle.iova_range.specs.Frames.{Frames};
    ghost use Rattle.iova_range.specs.declared.limits.TheConstants.{MAX_WINDOWS};

    ghost Value = { List Frames };

    ghost view = { λ r. take r.len r.cells };

    ghost invariant = { λ r. (r.len ≤ MAX_WINDOWS) × (length r.cells ≡ MAX_WINDOWS) };
}

impl Ranges {
    /// No range.
    pub(crate) fn new() -> Ranges
        ensures { result ≡ [] }
    {
        Ranges {
            cells: [Range::new(1, 1); MAX_WINDOWS],
            len: 0,
        }
    }

    /// A copy of the list.
    pub(crate) fn copied(&self) -> Ranges
        ensures { result ≡ self.now }
    {
        Ranges {
            cells: self.cells,
            len: self.len,
        }
    }

    /// How many.
    pub(crate) fn len(&self) -> usize
        ensures is { result ≡ length self.now }
        ensures bound { result ≤ MAX_WINDOWS }
    {
        self.len
    }

    /// The ranges.
    pub(crate) fn as_slice(&self) -> &[Range]
        ensures { result.now ≡ self.now }
    {
        &self.cells[..self.len]
    }

    /// One range more, at the end, for which there is room.
    pub(crate) fn push(&mut self, range: Range)
        requires { length self.old < MAX_WINDOWS }
        ensures { self.new ≡ self.old ++ range ∷ [] }
    {
        self.cells[self.len] = range;
        self.len += 1;
    }

    /// These ranges too, at the end, for which there is room.
    pub(crate) fn append(&mut self, ranges: &[Range])
        requires { length self.old + length ranges.now ≤ MAX_WINDOWS }
        ensures { self.new ≡ self.old ++ ranges.now }
    {
        for range in ranges {
            self.push(*range);
        }
    }
}
