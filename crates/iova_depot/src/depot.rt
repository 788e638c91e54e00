//! The full magazines of one order.
ghost use Rattle.std.specs.Prelude.{◌≡◌, ◌≢◌, ◌+◌, ◌≤◌, ◌<◌, ◌↔◌, [], ◌∷◌, ◌++◌, length, IsTrue, IfOk, IfNone, IfSome};
ghost use Rattle.std.specs.List.{list_any};
ghost use Rattle.iova_range.specs.Frames.{covers};
ghost use Rattle.iova_model.specs.Caches.{TakesOutOfDepot, front, last_or};
ghost use Rattle.iova_model.specs.State.{list_holders};
ghost use Rattle.iova_model.specs.Valid.{IsDepot};
ghost use Rattle.iova_mag.specs.Magazines.{magazine_of};

use iova_mag::magazine::Magazine;
use iova_range::limits::ORDERS;
use iova_range::profile::Profile;
use std::alloc::{AllocError, Global};
use std::marker::Model;

/// The full magazines of one order that no worker has, the newest last
/// (Linux 5.15 `include/linux/iova.h`: `struct iova_rcache`, `depot`).
#[derive(Drop)]
pub struct Depot {
    profile: Profile,
    magazines: Vec<Magazine>,
}

impl Model for Depot {
    ghost use Rattle.std.specs.Prelude.{◌≤◌, vec_capacity};
    ghost use Rattle.iova_depot.specs.Stored.{Stored, AreStored, lists_of};

    ghost Value = { Stored };

    ghost view = { λ d. record { profile = d.profile; lists = lists_of d.magazines.items } };

    ghost invariant = { λ d. AreStored d.profile d.magazines.items
        × (d.profile.depot ≤ vec_capacity d.magazines) };
}

impl Depot {
    /// An empty depot, with room for all that the profile lets it take.
    pub fn new(alloc: Global, profile: Profile) -> Result<Self, AllocError>
        ensures { IfOk result (λ d. d ≡ record { profile = profile; lists = [] }) }
    {
        let magazines = Vec::with_capacity(alloc, profile.depot())?;
        Ok(Depot { profile, magazines })
    }

    /// Whether it has as many magazines as the profile lets it take.
    pub fn is_full(&self) -> bool
        ensures is { IsTrue result ↔ (length self.now.lists ≡ self.now.profile.depot) }
        ensures sound { IsDepot self.now.profile self.now.lists }
    {
        self.magazines.len() == self.profile.depot()
    }

    /// Stores a magazine of the same profile that isn't empty. The depot isn't full.
    pub fn push(&mut self, magazine: Magazine)
        requires room { length self.old.lists < self.old.profile.depot }
        requires profile { magazine.profile ≡ self.old.profile }
        requires some { 1 ≤ length magazine.entries }
        ensures pushed { self.new ≡ record self.old
            { lists = self.old.lists ++ magazine.entries ∷ [] } }
        ensures sound { IsDepot self.new.profile self.new.lists }
    {
        // for the proof: the magazine has no more entries than it is full at
        let _len = magazine.len();
        self.magazines.push(magazine).unwrap();
    }

    /// Gives the newest magazine, if there is one.
    pub fn pop(&mut self) -> Option<Magazine>
        ensures none { IfNone result (self.old.lists ≡ []) }
        ensures some { IfSome result
            (λ m. (self.old.lists ≢ []) × (m
            ≡ magazine_of self.old.profile (last_or [] self.old.lists))) }
        ensures left { self.new ≡ record self.old { lists = front self.old.lists } }
        ensures sound { IsDepot self.new.profile self.new.lists }
    {
        self.magazines.pop()
    }

    /// Takes the newest entry out of the newest magazine, and that goes where it was its last. None
    /// where there is none.
    pub fn take_newest(&mut self) -> Option<u64>
        ensures none { IfNone result ((self.old.lists ≡ []) × (self.new ≡ self.old)) }
        ensures taken { IfSome result (λ lo. TakesOutOfDepot lo self.old.lists self.new.lists) }
        ensures same { self.new.profile ≡ self.old.profile }
        ensures sound { IsDepot self.new.profile self.new.lists }
    {
        let last = self.magazines.len().checked_sub(1)?;
        let magazine = &mut self.magazines[last];
        let lo = magazine.take_newest()?;
        if magazine.is_empty() {
            self.magazines.truncate(last);
        }
        Some(lo)
    }

    /// Whether a range of this order, 0 to 5, that an entry begins has the frame.
    pub fn has_frame(&self, frame: u64, order: u8) -> bool
        requires { order < ORDERS }
        ensures { result ≡ list_any (λ h. covers frame h.range)
            (list_holders order self.now.lists) }
    {
        for magazine in &self.magazines {
            if magazine.has_frame(frame, order) {
                return true;
            }
        }
        false
    }
}
