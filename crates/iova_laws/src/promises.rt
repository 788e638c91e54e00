//! The promises of the product, of every list of steps.
ghost use Rattle.iova_model.specs.Promises.{PromisesAreKept};

/// Every transcript from a valid state keeps the promises: an unmapped frame leaves the rings, and
/// is given again, only after a flush that began after its unmap has ended well; clients close in
/// order, and who is gone stays gone; no frame is lost or made; and in the state that it leaves
/// each frame is in one place, the counts add up and the totals are the sums of the shares.
pub fn promises_are_kept()
    ensures { PromisesAreKept }
{}
