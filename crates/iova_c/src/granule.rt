//! How many bytes a frame has.
ghost use Rattle.std.specs.Prelude.{◌≡◌, ◌≤◌, ◌+◌, ◌-◌, ◌*◌, ◌^◌, ◌↔◌, ℕ, IfOk, IsOk, IsErr};
ghost use Rattle.iova_c.specs.Granules.{IsGranule};
ghost use Rattle.iova_c.specs.Bytes.{frame_at, frames_of, last_frame};

use iova_range::limits::{FRAME_BYTES, MAX_GRANULE};
use iova_range::refusal::Refusal;
use std::marker::Model;

/// The bytes of a frame: a power of two from 4,096 to 2,097,152.
#[derive(Drop)]
pub struct Granule {
    bytes: u64,
    shift: u32,
}

impl Model for Granule {
    ghost use Rattle.std.specs.Prelude.{ℕ};
    ghost use Rattle.iova_c.specs.Granules.{IsShifted};

    ghost Value = { ℕ };

    ghost view = { λ g. g.bytes };

    ghost invariant = { λ g. IsShifted g.bytes g.shift };
}

/// Frames of 4,096 bytes.
pub fn usual() -> Granule
    ensures { result ≡ FRAME_BYTES }
{
    Granule {
        bytes: FRAME_BYTES,
        shift: 12,
    }
}

/// Frames of so many bytes. Refused by `BadProfile` exactly where they are no power of two from
/// 4,096 to 2,097,152.
pub fn granule_of(bytes: u64) -> Result<Granule, Refusal>
    ensures value { IfOk result (λ granule. granule ≡ bytes) }
    ensures accepted { IsOk result ↔ IsGranule bytes }
    ensures refused { IsErr result → result ≡ Err Refusal.BadProfile }
{
    let shift = bytes.trailing_zeros();
    if shift < 12 || shift > 21 || bytes != 1 << shift {
        return Err(Refusal::BadProfile);
    }
    Ok(Granule { bytes, shift })
}

impl Granule {
    /// A copy of the granule.
    pub fn again(&self) -> Granule
        ensures { result ≡ self.now }
    {
        Granule {
            bytes: self.bytes,
            shift: self.shift,
        }
    }

    /// How many bytes a frame has.
    #[inline(always)]
    pub fn bytes(&self) -> u64
        ensures is { result ≡ self.now }
        ensures least { FRAME_BYTES ≤ self.now }
        ensures most { self.now ≤ MAX_GRANULE }
    {
        self.bytes
    }

    /// How many frames so many bytes take, the last one perhaps not to its end.
    #[inline(always)]
    pub fn frames_of(&self, bytes: u64) -> u64
        ensures { result ≡ frames_of self.now bytes }
    {
        let whole = bytes >> self.shift;
        if whole * self.bytes == bytes {
            whole
        } else {
            whole + 1
        }
    }

    /// The last frame whose bytes all have addresses up to the mask. 0 where there is none, and
    /// frame 0 is never given.
    #[inline(always)]
    pub fn last_frame(&self, mask: u64) -> u64
        ensures is { result ≡ last_frame self.now mask }
        ensures within { (frame : ℕ) → 1 ≤ frame → (frame ≤ result)
            ↔ (frame * self.now + (self.now - 1) ≤ mask) }
    {
        mask.saturating_sub(self.bytes - 1) >> self.shift
    }

    /// The frame that has the byte at the address.
    #[inline(always)]
    pub fn frame_at(&self, address: u64) -> u64
        ensures is { result ≡ frame_at self.now address }
        ensures before { result * self.now ≤ address }
    {
        address >> self.shift
    }
}
