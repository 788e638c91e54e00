//! The frames that a domain may hand out.
ghost use Rattle.std.specs.Prelude.{◌≡◌, ◌<◌, ◌^◌, IfOk, ◌↔◌, IsOk, IsErr};
ghost use Rattle.iova_range.specs.Bounds.{first_profile, AreBounds, IsExtent};

use crate::profile::Profile;
use crate::refusal::Refusal;
use std::marker::Model;

/// The first and the last frame that a domain may hand out, and its profile. Frame 0 is never
/// handed out, so the first is at least 1; the last is at most the profile's greatest.
#[derive(Clone, Copy, Debug, PartialEq, Eq)]
pub struct Bounds {
    start: u64,
    last: u64,
    profile: Profile,
}

impl Model for Bounds {
    ghost use Rattle.iova_range.specs.Bounds.{Extent, IsExtent};

    ghost Value = { Extent };

    ghost view = { λ b. record { start = b.start; last = b.last; profile = b.profile } };

    ghost invariant = { λ b. IsExtent (record
        { start = b.start; last = b.last; profile = b.profile }) };

    ghost inverse = { λ v. record { start = v.start; last = v.last; profile = v.profile } };
}

impl Bounds {
    /// Bounds in the first profile. Refused by `BadWindow` exactly where `start` is 0, `start` is
    /// above `last`, or `last` is above 2^36 - 1.
    pub fn new(start: u64, last: u64) -> Result<Self, Refusal>
        ensures value { IfOk result (λ b. b
            ≡ record { start = start; last = last; profile = first_profile }) }
        ensures accepted { IsOk result ↔ AreBounds first_profile start last }
        ensures refused { IsErr result → result ≡ Err Refusal.BadWindow }
    {
        Bounds::new_in(Profile::one(), start, last)
    }

    /// Bounds in this profile. Refused by `BadWindow` exactly where `start` is 0, `start` is above
    /// `last`, or `last` is above the profile's greatest frame.
    pub fn new_in(profile: Profile, start: u64, last: u64) -> Result<Self, Refusal>
        ensures value { IfOk result (λ b. b
            ≡ record { start = start; last = last; profile = profile }) }
        ensures accepted { IsOk result ↔ AreBounds profile start last }
        ensures refused { IsErr result → result ≡ Err Refusal.BadWindow }
    {
        if start == 0 || start > last || last > profile.top() {
            return Err(Refusal::BadWindow);
        }
        Ok(Bounds {
            start,
            last,
            profile,
        })
    }

    /// The first frame, at least 1.
    #[inline]
    pub fn start(self) -> u64
        ensures is { result ≡ self.start }
        ensures extent { IsExtent self }
    {
        self.start
    }

    /// The last frame, at least the first, below 2^40.
    #[inline]
    pub fn last(self) -> u64
        ensures is { result ≡ self.last }
        ensures small { result < 2 ^ 40 }
        ensures extent { IsExtent self }
    {
        self.last
    }

    /// The profile.
    #[inline]
    pub fn profile(self) -> Profile
        ensures is { result ≡ self.profile }
        ensures extent { IsExtent self }
    {
        self.profile
    }
}
