//! The proof that the tokens may go to another thread.
ghost use Rattle.std.specs.Thread.{IsSend};
ghost use Rattle.iova_annals.specs.contracts.Annals as annals;
ghost use Rattle.iova_annals.specs.contracts.Hand as hand;
ghost use Rattle.iova_annals.specs.contracts.Hands as hands;

use crate::{Annals, Hand, Hands};

fn is_send<T: Send>()
    ensures { IsSend T.row }
{}

/// Proves that the tokens may go to another thread, for each type of entry.
pub fn tokens_are_send<E>()
    ensures annals { IsSend (annals.the_row E.row) }
    ensures hand { IsSend (hand.the_row E.row) }
    ensures hands { IsSend (hands.the_row E.row) }
{
    is_send::<Annals<E>>();
    is_send::<Hand<E>>();
    is_send::<Hands<E>>();
}
