//! Tests of the tokens of a history: entries that contracts see as another type, two hands that
//! write in turn, and the sizes of the tokens.
#![tactic(auto)]

ghost use Rattle.std.specs.Prelude.{◌≡◌, ℕ, List, [], ◌∷◌, ◌++◌, slice_get, Some};

use iova_annals::{Annals, Hand, Hands};
use std::marker::Model;

/// An entry. Contracts see it as a `Pair`.
#[derive(Clone, Copy)]
pub struct Stored {
    pub asked: u64,
    pub answered: u64,
}

impl Model for Stored {
    ghost use Rattle.iova_annals_tests.specs.Pairs.{Pair};

    ghost Value = { Pair };

    ghost view = { λ s. record { asked = s.asked; answered = s.answered } };

    ghost invariant = { λ s. Unit };

    ghost inverse = { λ v. record { asked = v.asked; answered = v.answered } };
}

/// Appends an entry under the hand's number.
pub fn put(annals: &mut Annals<Stored>, hand: &mut Hand<Stored>, entry: Stored)
    requires book { hand.old.book ≡ annals.old.book }
    requires name { slice_get annals.old.hands hand.old.number ≡ Some hand.old.name }
    ensures log { annals.new.log ≡ annals.old.log ++ (hand.old.number, entry) ∷ [] }
    ensures mine { hand.new.mine ≡ hand.old.mine ++ entry ∷ [] }
{
    annals.record(hand, &entry);
}

/// Opens a history with three hands. The first and the second hand write in turn.
pub fn write_in_turn(
    first: Stored,
    second: Stored,
    third: Stored,
) -> (Annals<Stored>, Hand<Stored>, Hand<Stored>, Hands<Stored>)
    ensures log { result.0.log ≡ (0, first) ∷ (1, second) ∷ (0, third) ∷ [] }
    ensures mine { (result.1.mine ≡ first ∷ third ∷ []) × (result.2.mine ≡ second ∷ []) }
{
    let (mut annals, mut rest) = Annals::open(3);
    let mut row = rest.split_off(2);
    let mut one = row.take();
    let mut two = row.take();
    annals.record(&mut one, &first);
    annals.record(&mut two, &second);
    annals.record(&mut one, &third);
    (annals, one, two, rest)
}

#[cfg(test)]
mod tests {
    use super::*;
    use std::mem::size_of;
    use std::test::*;

    #[test]
    fn the_tokens_have_no_bytes(rt: HostRuntime) {
        assert_eq!(rt; size_of::<Annals<Stored>>(), 0);
        assert_eq!(rt; size_of::<Hand<Stored>>(), 0);
        assert_eq!(rt; size_of::<Hands<Stored>>(), 0);
    }
}
