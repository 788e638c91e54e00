//! What a domain's four ledgers are called. One type stands for all four.
ghost use Rattle.iova_keep.specs.Names.{LedgerNames, no_names};

use std::marker::{Brand, PhantomData};
use std::sync::ledger::Ledger;

/// A domain, by the names of its ledgers. Where a domain is made, the call passes `Brand`, and its
/// proof picks the names.
pub trait Names {
    ghost ledgers: { LedgerNames };
}

impl Names for Brand {
    ghost ledgers = { no_names };
}

/// The ledger of how many ranges are held.
#[derive(Drop)]
pub struct CountOf<B> {
    of: PhantomData<B>,
}

/// The ledger of their frames.
#[derive(Drop)]
pub struct FramesOf<B> {
    of: PhantomData<B>,
}

/// The ledger of the sum of their first frames.
#[derive(Drop)]
pub struct SumLoOf<B> {
    of: PhantomData<B>,
}

/// The ledger of the flushes that ended well.
#[derive(Drop)]
pub struct GoodOf<B> {
    of: PhantomData<B>,
}

impl<B: Names> Ledger for CountOf<B> {
    ghost name = { B.ledgers.count.name };

    ghost parts = { B.ledgers.count.parts };
}

impl<B: Names> Ledger for FramesOf<B> {
    ghost name = { B.ledgers.frames.name };

    ghost parts = { B.ledgers.frames.parts };
}

impl<B: Names> Ledger for SumLoOf<B> {
    ghost name = { B.ledgers.sum_lo.name };

    ghost parts = { B.ledgers.sum_lo.parts };
}

impl<B: Names> Ledger for GoodOf<B> {
    ghost name = { B.ledgers.good.name };

    ghost parts = { B.ledgers.good.parts };
}
