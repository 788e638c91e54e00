//! What a refusal means, and what a refused step leaves.
ghost use Rattle.iova_model.specs.Laws.{NoMemoryIsRefused, OtherStepsTakeNoMemory, PointsOnlyRefuse, RefusalsKeepTheState, StepsKeepTheDomain};

/// A step is refused memory only where a growth in it was refused.
pub fn no_memory_is_refused()
    ensures { NoMemoryIsRefused }
{}

/// No step but reserving, opening and requesting is ever refused memory.
pub fn other_steps_take_no_memory()
    ensures { OtherStepsTakeNoMemory }
{}

/// A growth that is refused is answered by `NoMemory`, or the step is as it would be with memory:
/// no other reply, and no other state.
pub fn points_only_refuse()
    ensures { PointsOnlyRefuse }
{}

/// A refused step leaves the state as it was, but for the caches of a request that found nothing or
/// no memory, and for the mark of a client whose closing finds the ring full.
pub fn refusals_keep_the_state()
    ensures { RefusalsKeepTheState }
{}

/// No step changes the bounds or the number of workers.
pub fn steps_keep_the_domain()
    ensures { StepsKeepTheDomain }
{}
