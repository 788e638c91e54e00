//! The highest place in a gap.
ghost use Rattle.std.specs.Prelude.{◌≡◌, ◌+◌, ◌<◌, ◌≤◌, ◌-◌, ◌⊎◌, min, max};
ghost use Rattle.std.specs.Int.{IsPowerOfTwo};
ghost use Rattle.iova_tree.specs.Fit.{place, IsWanted};

use iova_range::limits::MAX_FRAMES;

/// What is sought: so many frames, at a multiple of `align`, a power of two, that end by `cap`.
#[derive(Clone, Copy, Drop)]
pub struct Wanted {
    pub size: u64,
    pub align: u64,
    pub cap: u64,
}

/// The result of a search that takes the place it finds, where there is room for the range.
#[derive(Clone, Copy)]
pub enum FoundPlace {
    /// Nothing fits.
    Nowhere,
    /// This is the highest place. There is no room for one range more in its block, and nothing has
    /// changed.
    At(u64),
    /// This is the highest place, and it has been taken.
    Taken(u64),
}

/// Where a search of things in a row begins that have room: behind this place none has more than
/// `above`. Where nothing is known of a row, `above` is more than any request.
#[derive(Clone, Copy)]
pub struct Hint {
    pub at: usize,
    pub above: u32,
}

impl Hint {
    /// Nothing is known.
    #[inline]
    pub fn none() -> Self
        ensures { MAX_FRAMES < result.above }
    {
        Hint {
            at: 0,
            above: u32::MAX,
        }
    }

    /// Where to begin in a row of `len` things, when so much room is sought: at the hint, where
    /// nothing behind it has so much, or else at the last.
    #[inline]
    pub fn start(self, len: usize, size: u64) -> Hint
        requires some { 0 < len }
        requires sized { 1 ≤ size }
        ensures within { result.at < len }
        ensures less { result.above < size }
        ensures known { (result ≡ self) ⊎ ((result.at + 1 ≡ len) × (result.above ≡ 0)) }
    {
        if (self.above as u64) < size && self.at < len {
            return self;
        }
        Hint {
            at: len - 1,
            above: 0,
        }
    }

    /// What is known once the thing at this place is gone: those above it have moved down, and what
    /// lies below the lowest of these has changed.
    #[inline]
    pub fn without(self, at: usize) -> Hint
        ensures { result ≡ record { at = max (self.at - 1) at; above = self.above } }
    {
        Hint {
            at: self.at.saturating_sub(1).max(at),
            above: self.above,
        }
    }

    /// What is known once the thing at this place has changed.
    #[inline]
    pub fn behind(self, at: usize) -> Hint
        ensures { result ≡ record { at = max self.at at; above = self.above } }
    {
        Hint {
            at: self.at.max(at),
            above: self.above,
        }
    }
}

/// The greatest multiple of the alignment from which the frames lie from `from` on and below
/// `until`, if there is one.
#[inline]
pub fn place_in(from: u64, until: u64, wanted: &Wanted) -> Option<u64>
    requires { IsPowerOfTwo wanted.now.align }
    ensures { result ≡ place from until wanted.now }
{
    if until < wanted.size {
        return None;
    }
    let last = until - wanted.size;
    let lo = last - (last & (wanted.align - 1));
    if lo < from { None } else { Some(lo) }
}

/// The highest place from `from` on and below `until` and the cap. A gap that is too short is
/// passed by at once.
#[inline]
pub fn place_between(from: u64, until: u64, wanted: &Wanted) -> Option<u64>
    requires apart { from ≤ until }
    requires wanted { IsWanted wanted.now }
    ensures { result ≡ place from (min until wanted.now.cap) wanted.now }
{
    if until - from < wanted.size {
        return None;
    }
    place_in(from, until.min(wanted.cap), wanted)
}
