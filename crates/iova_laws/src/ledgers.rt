//! The totals and the shares are those of the holdings.
ghost use Rattle.iova_model.specs.Laws.{TotalsAreShares, StepsMoveLedgers};

/// In a valid state, the totals over all clients are the shares of all workers, added.
pub fn totals_are_shares()
    ensures { TotalsAreShares }
{}

/// A range that is given raises the totals by what it is, one that is queued lowers them by that,
/// and no other reply moves them. The share of the worker that the step names moves alike, and no
/// other share moves.
pub fn steps_move_ledgers()
    ensures { StepsMoveLedgers }
{}
