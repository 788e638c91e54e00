//! The magazines of a cache: for each order the ranges that nobody has, the newest last.
ghost use Rattle.std.specs.Prelude.{◌≡◌, ◌≢◌, ◌≤◌, ◌<◌, ◌^◌, List, [], ◌∷◌, ◌++◌, length, replicate, Err, IfOk, OnOk, OnErr, IfSome, IfNone, IsOkUnless};
ghost use Rattle.std.specs.Bool.{OnTrue, OnFalse};
ghost use Rattle.iova_range.specs.Frames.{Frames};
ghost use Rattle.iova_cache.specs.Held.{CanBeHeld};
ghost use Rattle.iova_cache.specs.Magazines.{magazine_of, no_magazines, IsUpTo, IsNewest, IsTaken, IsPut, Fits, Misses, AreMagazines};

use crate::bucket::{range_of, word_of};
use crate::cache::Unmet;
use iova_range::limits::ORDERS;
use iova_range::range::Range;
use iova_range::refusal::Refusal;
use std::alloc::Global;
use std::marker::Model;

/// The most ranges of a magazine.
pub(crate) const MAGAZINE: usize = 256;

/// Ranges that a word takes, the newest last.
#[derive(Drop)]
struct Magazine {
    words: [u64; MAGAZINE],
    count: usize,
}

impl Model for Magazine {
    ghost use Rattle.std.specs.Prelude.{List};
    ghost use Rattle.iova_range.specs.Frames.{Frames};
    ghost use Rattle.iova_cache.specs.declared.magazine.TheConstants.{MAGAZINE};

    ghost Value = { List Frames };

    ghost use Rattle.iova_cache.specs.Held.{word_ranges, AreWords};

    ghost view = { λ m. word_ranges m.words m.count };

    ghost invariant = { λ m. AreWords m.words m.count MAGAZINE };
}

impl Magazine {
    fn new() -> Magazine
        ensures { result ≡ [] }
    {
        Magazine {
            words: [0; MAGAZINE],
            count: 0,
        }
    }

    #[inline(always)]
    fn len(&self) -> usize
        ensures is { result ≡ length self.now }
        ensures bounded { result ≤ MAGAZINE }
    {
        self.count
    }

    /// The newest range.
    #[inline(always)]
    fn newest(&self) -> Option<Range>
        ensures some { IfSome result (λ r. IsNewest r self.now) }
        ensures held { IfSome result CanBeHeld }
        ensures none { IfNone result (self.now ≡ []) }
    {
        if self.count == 0 {
            return None;
        }
        Some(range_of(self.words[self.count - 1]))
    }

    /// One range more, the newest.
    #[inline(always)]
    fn push(&mut self, range: Range)
        requires room { length self.old < MAGAZINE }
        requires held { CanBeHeld range }
        ensures { self.new ≡ self.old ++ range ∷ [] }
    {
        self.words[self.count] = word_of(range);
        self.count += 1;
    }

    /// Takes the newest range out.
    #[inline(always)]
    fn drop_newest(&mut self)
        requires { 1 ≤ length self.old }
        ensures { (rest : List Frames) → (r : Frames) → self.old ≡ rest ++ r ∷ []
            → self.new ≡ rest }
    {
        self.count -= 1;
    }
}

/// A magazine for each of the six orders. All memory is taken by `new`.
pub(crate) struct Magazines {
    magazines: Vec<Magazine>,
}

/// Drops its parts. The proof stands here, once for all crates above.
impl Drop for Magazines {
    fn drop(self) {
        let Magazines { magazines: _ } = self;
    }
}

impl Model for Magazines {
    ghost use Rattle.std.specs.Prelude.{List};
    ghost use Rattle.iova_range.specs.Frames.{Frames};
    ghost use Rattle.iova_cache.specs.Magazines.{AreMagazines};

    ghost Value = { List (List Frames) };

    ghost view = { λ m. m.magazines.items };

    ghost invariant = { λ m. AreMagazines m.magazines.items };
}

/// So many empty magazines.
fn new_magazines(alloc: Global) -> Result<Vec<Magazine>, Refusal>
    ensures value { IfOk result (λ v. v.items ≡ replicate ORDERS []) }
    ensures refused { IsOkUnless result Refusal.NoMemory }
{
    let Ok(mut magazines) = Vec::with_capacity(alloc, ORDERS as usize) else {
        return Err(Refusal::NoMemory);
    };
    for _ in 0..ORDERS {
        magazines.push(Magazine::new()).unwrap();
    }
    Ok(magazines)
}

impl Magazines {
    /// Six empty ones. `NoMemory` where memory is refused.
    pub(crate) fn new(alloc: Global) -> Result<Magazines, Refusal>
        ensures value { IfOk result (λ m. m ≡ no_magazines) }
        ensures refused { IsOkUnless result Refusal.NoMemory }
    {
        let magazines = new_magazines(alloc)?;
        Ok(Magazines { magazines })
    }

    /// How many ranges there are of this order, 0 to 5.
    #[inline(always)]
    pub(crate) fn len(&self, order: u8) -> usize
        requires { order < ORDERS }
        ensures is { result ≡ length (magazine_of self.now order) }
        ensures bounded { result ≤ MAGAZINE }
        ensures sound { AreMagazines self.now }
    {
        self.magazines[order as usize].len()
    }

    /// Whether the newest range of this order, 0 to 5, has no frame above `last`: then `take_up_to`
    /// gives it, and else it refuses so.
    pub(crate) fn look(&self, order: u8, last: u64) -> Result<(), Unmet>
        requires { order < ORDERS }
        ensures fits { OnOk result (Fits self.now order last) }
        ensures miss { result ≡ Err Unmet.Miss → Misses self.now order last }
        ensures empty { result ≡ Err Unmet.Empty → magazine_of self.now order ≡ [] }
        ensures kind { (result ≢ Err Unmet.NoOrder) × (result ≢ Err Unmet.NoMemory) }
    {
        match self.magazines[order as usize].newest() {
            None => Err(Unmet::Empty),
            Some(range) if range.hi() <= last => Ok(()),
            Some(_) => Err(Unmet::Miss),
        }
    }

    /// The newest range of this order, 0 to 5.
    pub(crate) fn newest(&self, order: u8) -> Option<Range>
        requires { order < ORDERS }
        ensures some { IfSome result (λ r. IsNewest r (magazine_of self.now order)) }
        ensures none { IfNone result (magazine_of self.now order ≡ []) }
    {
        self.magazines[order as usize].newest()
    }

    /// The newest range of this order, 0 to 5, where it has no frame above `last`.
    #[inline(always)]
    pub(crate) fn newest_up_to(&self, order: u8, last: u64) -> Option<Range>
        requires { order < ORDERS }
        ensures newest { IfSome result (λ r. IsNewest r (magazine_of self.now order)) }
        ensures fits { IfSome result (IsUpTo last) }
        ensures size { IfSome result (λ r. r.len ≡ 2 ^ order) }
        ensures held { IfSome result CanBeHeld }
    {
        let range = self.magazines[order as usize].newest()?;
        if range.hi() > last {
            return None;
        }
        Some(range)
    }

    /// The newest range of this order, 0 to 5, leaves, where there is one.
    #[inline(always)]
    pub(crate) fn drop_newest(&mut self, order: u8)
        requires order { order < ORDERS }
        requires some { 1 ≤ length (magazine_of self.old order) }
        ensures { (r : Frames) → IsNewest r (magazine_of self.old order)
            → IsTaken self.old self.new order r }
    {
        self.magazines[order as usize].drop_newest();
    }

    /// Takes the newest range of this order, 0 to 5, where it has no frame above `last`.
    #[inline(always)]
    pub(crate) fn take_up_to(&mut self, order: u8, last: u64) -> Result<Range, Unmet>
        requires { order < ORDERS }
        ensures taken { IfOk result (λ r. IsTaken self.old self.new order r × IsUpTo last r) }
        ensures held { IfOk result CanBeHeld }
        ensures miss { result ≡ Err Unmet.Miss → Misses self.old order last }
        ensures empty { result ≡ Err Unmet.Empty → magazine_of self.old order ≡ [] }
        ensures kind { (result ≢ Err Unmet.NoOrder) × (result ≢ Err Unmet.NoMemory) }
        ensures unchanged { OnErr result (self.new ≡ self.old) }
    {
        let magazine = &mut self.magazines[order as usize];
        let Some(range) = magazine.newest() else {
            return Err(Unmet::Empty);
        };
        if range.hi() > last {
            return Err(Unmet::Miss);
        }
        magazine.drop_newest();
        Ok(range)
    }

    /// Takes the newest range of this order, 0 to 5.
    #[inline(always)]
    pub(crate) fn take(&mut self, order: u8) -> Option<Range>
        requires { order < ORDERS }
        ensures taken { IfSome result (IsTaken self.old self.new order) }
        ensures held { IfSome result CanBeHeld }
        ensures empty { IfNone result (magazine_of self.old order ≡ []) }
        ensures unchanged { IfNone result (self.new ≡ self.old) }
    {
        let magazine = &mut self.magazines[order as usize];
        let range = magazine.newest()?;
        magazine.drop_newest();
        Some(range)
    }

    /// Puts a range of this order, 0 to 5, where there aren't 256.
    #[inline(always)]
    pub(crate) fn put(&mut self, order: u8, range: Range) -> bool
        requires order { order < ORDERS }
        requires size { range.len ≡ 2 ^ order }
        requires low { range.lo < 2 ^ 40 }
        ensures put { OnTrue result (IsPut self.old self.new order range) }
        ensures full { OnFalse result (length (magazine_of self.old order) ≡ MAGAZINE) }
        ensures unchanged { OnFalse result (self.new ≡ self.old) }
    {
        let magazine = &mut self.magazines[order as usize];
        if magazine.len() == MAGAZINE {
            return false;
        }
        magazine.push(range);
        true
    }
}
