//! What a step may be answered, and what follows from the answer.
ghost use Rattle.iova_model.specs.Laws.{StepsAreAnsweredInKind, StepsMoveGood, QueuedWereHeld, OthersKeepTheirHoldings};

/// A step has answers of its own kind, and is refused by its own refusals alone; an unmap queues
/// the range that was named.
pub fn steps_are_answered_in_kind()
    ensures { StepsAreAnsweredInKind }
{}

/// One flush more has ended well where one was ended so, and else as many as before.
pub fn steps_move_good()
    ensures { StepsMoveGood }
{}

/// A range that a step queues was held by the client that it names.
pub fn queued_were_held()
    ensures { QueuedWereHeld }
{}

/// A step changes the holdings of no client but the one that it names.
pub fn others_keep_their_holdings()
    ensures { OthersKeepTheirHoldings }
{}
