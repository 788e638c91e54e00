//! One magazine.
ghost use Rattle.std.specs.Prelude.{◌≡◌, ◌+◌, ◌-◌, ◌≤◌, ◌<◌, ◌^◌, ◌↔◌, [], ◌∷◌, ◌++◌, length, slice_get, IsTrue, All, IfSome, Some, ◌&&◌, nat_le, nat_lt};
ghost use Rattle.std.specs.List.{list_any};
ghost use Rattle.iova_range.specs.Bounds.{first_profile};
ghost use Rattle.iova_range.specs.Frames.{covers};
ghost use Rattle.iova_model.specs.Caches.{fitting, front, of_order};
ghost use Rattle.iova_mag.specs.Magazines.{IsMagazine, pop};

use arrayvec::ArrayVec;
use iova_range::limits::{MAGAZINE, MAX_FRAMES};
use iova_range::profile::Profile;
use std::marker::Model;

/// First frames of cached ranges of one order, the newest last. Each is below 2^40. It is full at
/// the profile's `mag()` entries (Linux 5.15 `drivers/iommu/iova.c`: `struct iova_magazine`).
#[derive(Drop)]
pub struct Magazine {
    profile: Profile,
    entries: ArrayVec<u64, MAGAZINE>,
}

impl Model for Magazine {
    ghost use Rattle.iova_mag.specs.Magazines.{Magazine as Seen, IsMagazine};

    ghost Value = { Seen };

    ghost view = { λ m. record { profile = m.profile; entries = m.entries.items } };

    ghost invariant = { λ m. IsMagazine
        (record { profile = m.profile; entries = m.entries.items }) };
}

impl Magazine {
    /// An empty magazine of the first profile, full at 128 entries.
    pub fn new() -> Self
        ensures { result ≡ record { profile = first_profile; entries = [] } }
    {
        Magazine::new_for(Profile::one())
    }

    /// An empty magazine of this profile.
    pub fn new_for(profile: Profile) -> Self
        ensures { result ≡ record { profile = profile; entries = [] } }
    {
        // for the proof: the profile is one of the two
        let _mag = profile.mag();
        Magazine {
            profile,
            entries: ArrayVec::new(),
        }
    }

    /// The first frames, the newest last.
    #[inline]
    pub fn entries(&self) -> &[u64]
        ensures is { result.now ≡ self.now.entries }
        ensures sound { IsMagazine self.now }
    {
        self.entries.as_slice()
    }

    /// How many entries it has, at most the profile's `mag()`.
    #[inline]
    pub fn len(&self) -> usize
        ensures is { result ≡ length self.now.entries }
        ensures sound { IsMagazine self.now }
    {
        self.entries().len()
    }

    /// The profile.
    #[inline]
    pub fn profile(&self) -> Profile
        ensures { result ≡ self.now.profile }
    {
        self.profile
    }

    /// Whether it has none.
    #[inline]
    pub fn is_empty(&self) -> bool
        ensures { IsTrue result ↔ (self.now.entries ≡ []) }
    {
        self.entries.is_empty()
    }

    /// Whether it has as many as it takes.
    #[inline]
    pub fn is_full(&self) -> bool
        ensures is { IsTrue result ↔ (length self.now.entries ≡ self.now.profile.mag) }
        ensures sound { IsMagazine self.now }
    {
        self.entries.len() == self.profile.mag()
    }

    /// Puts the first frame of a range after the others. The magazine isn't full, and `lo` is below
    /// 2^40 (Linux 5.15 `drivers/iommu/iova.c`: `iova_magazine_push`).
    #[inline]
    pub fn push(&mut self, lo: u64)
        requires room { length self.old.entries < self.old.profile.mag }
        requires small { lo < 2 ^ 40 }
        ensures pushed { self.new ≡ record self.old { entries = self.old.entries ++ lo ∷ [] } }
        ensures sound { IsMagazine self.new }
    {
        self.entries.push(lo);
    }

    /// Gives the newest entry whose range of `size` frames, 1 to 1,048,576, has no frame above
    /// `limit`. The newest entry of all is put in its place. None where no entry fits, and nothing
    /// changes (Linux 5.15 `drivers/iommu/iova.c`: `iova_magazine_pop`).
    #[inline(always)]
    pub fn pop(&mut self, limit: u64, size: u64) -> Option<u64>
        requires some { 1 ≤ size }
        requires bounded { size ≤ MAX_FRAMES }
        ensures value { result ≡ (pop self.old.entries limit size).0 }
        ensures left { self.new ≡ record self.old
            { entries = (pop self.old.entries limit size).1.loaded } }
        ensures sound { IsMagazine self.new }
    {
        if newest_fits(self.entries.as_slice(), limit, size) {
            return self.entries.pop();
        }
        let place = fitting_place(self.entries.as_slice(), limit, size)?;
        let entries = self.entries.as_mut_slice();
        let lo = entries[place];
        // nothing is called, as `swap_remove` would be
        entries[place] = entries[entries.len() - 1];
        let _ = self.entries.pop();
        Some(lo)
    }

    /// Whether there is a newest entry, and its range of `size` frames, 1 to 1,048,576, has none
    /// above `limit`: `pop` then gives it.
    #[inline(always)]
    pub fn gives_newest(&self, limit: u64, size: u64) -> bool
        requires some { 1 ≤ size }
        requires bounded { size ≤ MAX_FRAMES }
        ensures some { IsTrue result → 1 ≤ length self.now.entries }
        ensures is { IsTrue result → fitting self.now.entries limit size
            ≡ Some (length self.now.entries - 1) }
    {
        newest_fits(self.entries.as_slice(), limit, size)
    }

    /// Gives the newest entry, whatever its place. None where the magazine is empty.
    #[inline]
    pub fn take_newest(&mut self) -> Option<u64>
        ensures value { result ≡ slice_get self.old.entries (length self.old.entries - 1) }
        ensures left { self.new ≡ record self.old { entries = front self.old.entries } }
        ensures sound { IsMagazine self.new }
    {
        self.entries.pop()
    }

    /// Whether a range of this order, which is below 6, that an entry begins has the frame.
    pub fn has_frame(&self, frame: u64, order: u8) -> bool
        requires { order < 6 }
        ensures { result ≡ list_any (covers frame) (of_order order self.now.entries) }
    {
        begins_around(self.entries.as_slice(), frame, 1 << order)
    }
}

/// The place of the last entry whose range of `size` frames has none above the limit.
#[inline(always)]
fn fitting_place(entries: &[u64], limit: u64, size: u64) -> Option<usize>
    requires small { All (λ lo. lo < 2 ^ 40) entries.now }
    requires some { 1 ≤ size }
    requires bounded { size ≤ MAX_FRAMES }
    ensures is { result ≡ fitting entries.now limit size }
    ensures within { IfSome result (λ place. place < length entries.now) }
{
    for place in (0..entries.len()).rev() {
        if entries[place] + (size - 1) <= limit {
            return Some(place);
        }
    }
    None
}

/// Whether there is a last entry, whose range of `size` frames has none above the limit.
#[inline(always)]
fn newest_fits(entries: &[u64], limit: u64, size: u64) -> bool
    requires small { All (λ lo. lo < 2 ^ 40) entries.now }
    requires some { 1 ≤ size }
    requires bounded { size ≤ MAX_FRAMES }
    ensures some { IsTrue result → 1 ≤ length entries.now }
    ensures is { IsTrue result → fitting entries.now limit size ≡ Some (length entries.now - 1) }
{
    let count = entries.len();
    count > 0 && entries[count - 1] + (size - 1) <= limit
}

/// Whether one of the ranges of `size` frames that the entries begin has the frame.
fn begins_around(entries: &[u64], frame: u64, size: u64) -> bool
    ensures { result ≡ list_any (λ lo. nat_le lo frame && nat_lt (frame - lo) size) entries.now }
{
    entries.iter().any(|&lo| lo <= frame && frame - lo < size)
}
