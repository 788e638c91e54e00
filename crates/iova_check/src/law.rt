//! The promise of a log, in words that need no state.
ghost use Rattle.iova_check.specs.Promise.{StagesAreTold, PromiseIsTold};

/// After any lines of a log each frame is at one stage. It is mapped exactly where its last `map`
/// line has no `unmap` line after it; stale exactly where an `unmap` line took it back since which
/// no line has mapped it, and no flush that has it began and ended well; and free exactly where it
/// may be given out: each `map` line of it was followed by an `unmap` line, and the `unmap` line
/// that took it back last by such a flush.
pub fn stages_are_told()
    ensures { StagesAreTold }
{}

/// At each `map` line of a frame in any log the frame was free exactly where the promise is kept:
/// between two `map` lines of it there is an `unmap` line; and between each `unmap` line of it
/// while it was mapped and the next `map` line of it some flush that has it began and ended well.
/// So where no line maps a frame that was mapped or stale, no frame was given out again while a
/// device might still reach it.
pub fn promise_is_told()
    ensures { PromiseIsTold }
{}
