//! Where a range is placed.
ghost use Rattle.iova_model.specs.Laws.{BestIsGreatest};

/// The place that a request is given is the greatest that fits, and there is none only where
/// nothing fits.
pub fn best_is_greatest()
    ensures { BestIsGreatest }
{}
