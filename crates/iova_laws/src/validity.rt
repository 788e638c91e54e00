//! Each state that a domain can be in is valid.
ghost use Rattle.iova_model.specs.Laws.{NewDomainsAreValid, StepsKeepValidity, TranscriptsKeepValidity};

/// A new domain is valid, whatever its bounds and the number of its workers.
pub fn new_domains_are_valid()
    ensures { NewDomainsAreValid }
{}

/// A step from a valid state leaves a valid state, whatever it answers and whichever growth in it
/// was refused.
pub fn steps_keep_validity()
    ensures { StepsKeepValidity }
{}

/// So does every transcript.
pub fn transcripts_keep_validity()
    ensures { TranscriptsKeepValidity }
{}
