//! The sizes of the caches: the kernel's, and a second set of our own.
ghost use Rattle.std.specs.Prelude.{◌≡◌, ◌≤◌, IfOk, IsOk, IsErr, ◌↔◌};
ghost use Rattle.iova_range.specs.Bounds.{first_profile, second_profile, IsProfile};

use crate::limits::{MAGAZINE, MAX_DEPOT, SMALL_MAGAZINE, TOP, WIDE_TOP};
use crate::refusal::Refusal;
use std::marker::Model;

/// The sizes of a domain's caches, and its greatest frame number.
#[derive(Clone, Copy, Debug, PartialEq, Eq)]
pub struct Profile {
    mag: usize,
    depot: usize,
    top: u64,
}

impl Model for Profile {
    ghost use Rattle.iova_range.specs.Bounds.{Capacities, IsProfile};

    ghost Value = { Capacities };

    ghost view = { λ p. record { mag = p.mag; depot = p.depot; top = p.top } };

    ghost invariant = { λ p. IsProfile (record { mag = p.mag; depot = p.depot; top = p.top }) };

    ghost inverse = { λ v. record { mag = v.mag; depot = v.depot; top = v.top } };
}

impl Profile {
    /// The first profile: magazines of 128 entries, 32 of them in the depot for each order, frames
    /// up to 2^36 - 1 (`IOVA_MAG_SIZE` of Linux 5.15 `drivers/iommu/iova.c` and `MAX_GLOBAL_MAGS`
    /// of `include/linux/iova.h`; the greatest frame is our own).
    pub fn one() -> Self
        ensures { result ≡ first_profile }
    {
        Profile {
            mag: MAGAZINE,
            depot: MAX_DEPOT as usize,
            top: TOP,
        }
    }

    /// The second profile: magazines of 127 entries, `depot` of them in the depot for each order,
    /// frames up to 2^40 - 1. It is our own. Refused by `BadProfile` exactly where `depot` is above
    /// 32.
    pub fn two(depot: u64) -> Result<Self, Refusal>
        ensures value { IfOk result (λ p. p ≡ second_profile depot) }
        ensures accepted { IsOk result ↔ (depot ≤ MAX_DEPOT) }
        ensures refused { IsErr result → result ≡ Err Refusal.BadProfile }
    {
        if depot > MAX_DEPOT {
            return Err(Refusal::BadProfile);
        }
        Ok(Profile {
            mag: SMALL_MAGAZINE,
            depot: depot as usize,
            top: WIDE_TOP,
        })
    }

    /// How many entries a magazine is full at: 128 or 127.
    pub fn mag(self) -> usize
        ensures is { result ≡ self.mag }
        ensures profile { IsProfile self }
    {
        self.mag
    }

    /// How many full magazines of one order the depot takes, 0 to 32.
    pub fn depot(self) -> usize
        ensures is { result ≡ self.depot }
        ensures profile { IsProfile self }
    {
        self.depot
    }

    /// The greatest frame that bounds may have: 2^36 - 1 or 2^40 - 1.
    pub fn top(self) -> u64
        ensures is { result ≡ self.top }
        ensures profile { IsProfile self }
    {
        self.top
    }
}
