//! The history of a thing that threads share. Only proofs see it: the tokens take no bytes, and the
//! functions do nothing at run time.
//!
//! The `Annals` are next to the thing, under its lock, and know the whole history. Each thread has
//! a `Hand`. The hand knows all entries under its number, and how much of the history its thread
//! saw. Only a hand writes entries, and only under its number.
#![tactic(auto)]

ghost use Rattle.std.specs.Prelude.{◌≡◌, ◌≤◌, ◌+◌, ℕ, List, [], ◌∷◌, ◌++◌, length, slice_get, Some};
ghost use Rattle.std.specs.Coded.{coded_list, coded×, coded_ℕ};
ghost use mathlib.Core.List.{IsPrefix};
ghost use Rattle.iova_annals.specs.Histories.{of_hand};
ghost use Rattle.iova_annals.specs.Owned.{annals_owns, hand_owns, hands_own};

pub mod crossing;

use std::marker::{Model, PhantomData};

/// The right to say which entries the history has. Each entry has the number of the hand that wrote
/// it.
pub struct Annals<E> {
    marker: PhantomData<E>,
    pub ghost book: { ℕ },
    pub ghost hands: { List ℕ } by { coded_list coded_ℕ },
    pub ghost log: { List (ℕ × E) } by { coded_list (coded× coded_ℕ E.code) },
}

impl<E> Model for Annals<E> {
    ghost also_owns = { λ a. annals_owns E.row.coded a.book a.hands a.log };
}

/// The right to write under one number. `mine` has all entries under this number, and `seen` is the
/// history at the hand's last call.
pub struct Hand<E> {
    marker: PhantomData<E>,
    pub ghost book: { ℕ },
    pub ghost name: { ℕ },
    pub ghost number: { ℕ },
    pub ghost mine: { List E } by { coded_list E.code },
    pub ghost seen: { List (ℕ × E) } by { coded_list (coded× coded_ℕ E.code) },
}

impl<E> Model for Hand<E> {
    ghost also_owns = { λ h. hand_owns E.row.coded h.book h.name h.mine h.seen };
}

/// A row of unused hands: their ghost names, and the number of the first hand.
pub struct Hands<E> {
    marker: PhantomData<E>,
    pub ghost book: { ℕ },
    pub ghost names: { List ℕ } by { coded_list coded_ℕ },
    pub ghost first: { ℕ },
}

impl<E> Model for Hands<E> {
    ghost also_owns = { λ h. hands_own E.row.coded h.book h.names };
}

impl<E> Annals<E> {
    /// Makes a history without entries, and a row of `hands` hands.
    #[inline(always)]
    pub fn open(hands: u64) -> (Annals<E>, Hands<E>)
        ensures annals { (length result.0.hands ≡ hands) × (result.0.log ≡ []) }
        ensures hands { (result.1.book ≡ result.0.book)
            × (result.1.names ≡ result.0.hands) × (result.1.first ≡ 0) }
    {
        (
            Annals {
                marker: PhantomData,
            },
            Hands {
                marker: PhantomData,
            },
        )
    }

    /// Appends the entry under the hand's number. The hand then has seen the whole history.
    #[inline(always)]
    pub fn record(&mut self, hand: &mut Hand<E>, entry: &E)
        requires book { hand.old.book ≡ self.old.book }
        requires name { slice_get self.old.hands hand.old.number ≡ Some hand.old.name }
        ensures book { (self.new.book ≡ self.old.book) × (self.new.hands ≡ self.old.hands) }
        ensures log { self.new.log ≡ self.old.log ++ (hand.old.number, entry.now) ∷ [] }
        ensures hand { (hand.new.book ≡ hand.old.book) × (hand.new.name ≡ hand.old.name) }
        ensures number { hand.new.number ≡ hand.old.number }
        ensures mine { hand.new.mine ≡ hand.old.mine ++ entry.now ∷ [] }
        ensures seen { hand.new.seen ≡ self.new.log }
        ensures told { (hand.old.mine ≡ of_hand hand.old.number self.old.log)
            × IsPrefix hand.old.seen self.old.log }
    {}

    /// Shows the hand the whole history, and appends nothing.
    #[inline(always)]
    pub fn look(&mut self, hand: &mut Hand<E>)
        requires book { hand.old.book ≡ self.old.book }
        requires name { slice_get self.old.hands hand.old.number ≡ Some hand.old.name }
        ensures annals { self.new ≡ self.old }
        ensures hand { (hand.new.book ≡ hand.old.book) × (hand.new.name ≡ hand.old.name) }
        ensures number { hand.new.number ≡ hand.old.number }
        ensures mine { hand.new.mine ≡ hand.old.mine }
        ensures seen { hand.new.seen ≡ self.old.log }
        ensures told { (hand.old.mine ≡ of_hand hand.old.number self.old.log)
            × IsPrefix hand.old.seen self.old.log }
    {}
}

impl<E> Hands<E> {
    /// Removes the first hand of the row, and returns it.
    #[inline(always)]
    pub fn take(&mut self) -> Hand<E>
        requires { 1 ≤ length self.old.names }
        ensures hand { (result.book ≡ self.old.book) × (result.number ≡ self.old.first) }
        ensures unused { (result.mine ≡ []) × (result.seen ≡ []) }
        ensures rest { (self.new.book ≡ self.old.book) × (self.new.first ≡ self.old.first + 1) }
        ensures names { self.old.names ≡ result.name ∷ self.new.names }
    {
        Hand {
            marker: PhantomData,
        }
    }

    /// Removes the first `count` hands of the row, and returns them as a row.
    #[inline(always)]
    pub fn split_off(&mut self, count: u64) -> Hands<E>
        requires { count ≤ length self.old.names }
        ensures part { (result.book ≡ self.old.book)
            × (length result.names ≡ count) × (result.first ≡ self.old.first) }
        ensures rest { (self.new.book ≡ self.old.book) × (self.new.first ≡ self.old.first + count) }
        ensures names { self.old.names ≡ result.names ++ self.new.names }
    {
        Hands {
            marker: PhantomData,
        }
    }
}

/// Drops nothing. The crates above don't prove this drop again.
impl<E> Drop for Annals<E> {
    fn drop(self) {
        let Self { marker: _ } = self;
    }
}

/// Drops nothing. The crates above don't prove this drop again.
impl<E> Drop for Hand<E> {
    fn drop(self) {
        let Self { marker: _ } = self;
    }
}

/// Drops nothing. The crates above don't prove this drop again.
impl<E> Drop for Hands<E> {
    fn drop(self) {
        let Self { marker: _ } = self;
    }
}

unsafe impl<E> Send for Annals<E> {}

unsafe impl<E> Send for Hand<E> {}

unsafe impl<E> Send for Hands<E> {}
