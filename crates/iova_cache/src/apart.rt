//! A cache whose domain is elsewhere, and what is where in a cache.
ghost use Rattle.std.specs.Prelude.{◌≡◌, ◌≢◌, ◌≤◌, ◌<◌, ◌^◌, ℕ, [], find, length, None, Err, IfErr, OnOk, OnErr, IfSome, IfNone, IfOk, IsOkUnless};
ghost use Rattle.iova_model.specs.Clients.{begins_at};
ghost use Rattle.iova_cache.specs.Magazines.{magazine_of};
ghost use Rattle.iova_cache.specs.Caches.{new_cache};
ghost use Rattle.iova_cache.specs.Apart.{IsPutIn, IsTakenOut, IsKept, IsUnkept, IsReleased};

use crate::cache::Cache;
use iova_range::limits::{MAX_FRAMES, MOST_CACHED, ORDERS};
use iova_range::range::Range;
use iova_range::refusal::Refusal;
use iova_range::sizes::order_of;
use std::alloc::Global;

/// A frame above every first frame in a cache.
const TOP: u64 = 1 << 40;

/// Why a range doesn't come into a magazine.
#[derive(Clone, Copy, Debug, PartialEq, Eq)]
pub enum Unput {
    /// It isn't of 1, 2, 4, 8, 16 or 32 frames.
    NoOrder,

    /// Its first frame isn't below 2^40.
    TooHigh,

    /// The magazine of its order has 256 ranges.
    Full,
}

impl Cache {
    /// A cache with no range, whose client's domain is elsewhere. `NoMemory` where a growth is
    /// refused.
    pub fn apart(alloc: Global, sac: bool) -> Result<Cache, Refusal>
        ensures value { IfOk result (λ c. c ≡ new_cache 0 0 sac) }
        ensures refused { IsOkUnless result Refusal.NoMemory }
    {
        Cache::new(alloc, 0, 0, sac)
    }

    /// A range of the client comes into the magazine of its order, as the newest.
    pub fn put(&mut self, lo: u64, len: u64) -> Result<(), Unput>
        ensures put { OnOk result ((order : ℕ) × IsPutIn self.old self.new order
            (record { lo = lo; len = len })) }
        ensures no_order { result ≡ Err Unput.NoOrder → (order : ℕ) → order < ORDERS
            → len ≢ 2 ^ order }
        ensures high { result ≡ Err Unput.TooHigh → 2 ^ 40 ≤ lo }
        ensures full { result ≡ Err Unput.Full → (order : ℕ) × (len ≡ 2 ^ order)
            × (length (magazine_of self.old.magazines order) ≡ 256) }
        ensures unchanged { OnErr result (self.new ≡ self.old) }
    {
        if lo >= TOP {
            return Err(Unput::TooHigh);
        }
        if len == 0 {
            return Err(Unput::NoOrder);
        }
        if len > MOST_CACHED {
            return Err(Unput::NoOrder);
        }
        let Some(order) = order_of(len) else {
            return Err(Unput::NoOrder);
        };
        if !self.magazines.put(order, Range::new(lo, len)) {
            return Err(Unput::Full);
        }
        Ok(())
    }

    /// The newest range of an order, 0 to 5, goes out of the cache.
    pub fn take(&mut self, order: u8) -> Option<Range>
        requires { order < ORDERS }
        ensures taken { IfSome result (IsTakenOut self.old self.new order) }
        ensures empty { IfNone result (magazine_of self.old.magazines order ≡ []) }
        ensures unchanged { IfNone result (self.new ≡ self.old) }
    {
        self.magazines.take(order)
    }

    /// A range of the client goes to the user. `BadWindow` where its first frame isn't below 2^40,
    /// or its length isn't one that a domain gives: 1 to 1,048,576 frames, and up to 32 a power of
    /// two. `NoMemory` where the table of what the user holds can't grow.
    pub fn keep(&mut self, lo: u64, len: u64) -> Result<(), Refusal>
        ensures kept { OnOk result (IsKept self.old self.new (record { lo = lo; len = len })) }
        ensures refused { IfErr result (IsUnkept self.old lo len) }
        ensures unchanged { OnErr result (self.new ≡ self.old) }
    {
        if lo >= TOP {
            return Err(Refusal::BadWindow);
        }
        if len == 0 {
            return Err(Refusal::BadWindow);
        }
        if len > MAX_FRAMES {
            return Err(Refusal::BadWindow);
        }
        if len <= MOST_CACHED && order_of(len).is_none() {
            return Err(Refusal::BadWindow);
        }
        let Ok(()) = self.make_room() else {
            return Err(Refusal::NoMemory);
        };
        self.held.insert(Range::new(lo, len));
        Ok(())
    }

    /// The range that begins there goes from the user out of the cache. None where the user holds
    /// none that begins there.
    pub fn release(&mut self, lo: u64) -> Option<Range>
        ensures released { IfSome result (IsReleased self.old self.new lo) }
        ensures none { IfNone result (find (begins_at lo) self.old.held ≡ None) }
        ensures unchanged { IfNone result (self.new ≡ self.old) }
    {
        self.held.take(lo)
    }

    /// Some range of the user goes out of the cache. None exactly where the user holds none.
    pub fn any(&mut self) -> Option<Range>
        ensures gone { IfSome result (λ r. IsReleased self.old self.new r.lo r) }
        ensures none { IfNone result (self.old.held ≡ []) }
        ensures unchanged { IfNone result (self.new ≡ self.old) }
    {
        let Some(range) = self.held.any() else {
            return None;
        };
        let _taken = self.held.take(range.lo());
        Some(range)
    }

    /// How many ranges the user holds. It walks over all buckets of the table.
    pub fn held(&self) -> u64
        ensures { result ≡ length self.now.held }
    {
        self.held.len()
    }

    /// How many ranges there are in the magazine of an order, 0 to 5: at most 256.
    pub fn cached(&self, order: u8) -> u64
        requires { order < ORDERS }
        ensures { result ≡ length (magazine_of self.now.magazines order) }
    {
        self.magazines.len(order) as u64
    }
}
