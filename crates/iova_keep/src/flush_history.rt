//! The flush events of a tally, which only proofs see.
ghost use Rattle.std.specs.Prelude.{◌≡◌, ◌++◌, ◌∷◌, []};

use std::marker::Model;
use std::snapshot::Snapshot;

/// One event of a flush: its begin, its sink's answer, or its end.
#[derive(Clone, Copy, PartialEq, Eq, Debug)]
pub enum FlushEvent {
    /// The flush of this number began.
    Began(u64),
    /// A sink was asked for the flush of this number, and answered whether it succeeded.
    Asked(u64, bool),
    /// The flush of this number ended, by `true` as one that succeeded.
    Ended(u64, bool),
}

/// The flush events of a tally, oldest first. Contracts see a list. It takes no memory: each event
/// keeps the events before it as a snapshot, and no code reads them.
#[derive(Drop)]
pub struct FlushHistory {
    before: Option<Snapshot<FlushHistory>>,
    last: FlushEvent,
}

impl Model for FlushHistory {
    ghost use Rattle.std.specs.Prelude.{List, length};
    ghost use Rattle.iova_keep.specs.declared.flush_history.FlushEvent.{FlushEvent};
    ghost use Rattle.iova_keep.specs.FlushEvents.{events_after};

    ghost Value = { List FlushEvent };

    ghost view = { λ h. events_after h.before h.last };

    ghost size = { λ es. length es };

    ghost use Rattle.std.proofs.Common.{arith, length-append};

    ghost size_decreases = { λ a h. Prim.grind (arith, length-append) };
}

impl FlushHistory {
    /// Returns a history without an event.
    pub(crate) fn new() -> FlushHistory
        ensures { result ≡ [] }
    {
        FlushHistory {
            before: None,
            last: FlushEvent::Began(0),
        }
    }

    /// Appends an event.
    pub(crate) fn add(&mut self, event: FlushEvent)
        ensures { self.new ≡ self.old ++ event ∷ [] }
    {
        let before = Snapshot::of(self);
        self.before = Some(before);
        self.last = event;
    }
}
