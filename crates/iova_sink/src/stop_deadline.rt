//! An end that doesn't wait long for a silent peer.
use std::sync::atomic::{AtomicBool, Ordering};

/// What the channels to one peer share. Once the end has begun, the first call that the peer leaves
/// without an answer in time has all later ones of each channel fail at once: so an end takes no
/// more than two time limits, however many calls are left. Threads share it.
#[derive(Drop)]
pub struct StopDeadline {
    is_ending: AtomicBool,
    is_over: AtomicBool,
}

impl StopDeadline {
    /// No end has begun.
    pub fn new() -> StopDeadline {
        StopDeadline {
            is_ending: AtomicBool::new(false),
            is_over: AtomicBool::new(false),
        }
    }

    /// The end begins.
    pub fn begin_end(&self) {
        self.is_ending.store(true, Ordering::SeqCst);
    }

    /// Whether the end has begun.
    pub fn is_ending(&self) -> bool {
        self.is_ending.load(Ordering::SeqCst)
    }

    /// A call had no answer in time.
    pub fn note_silence(&self) {
        if self.is_ending() {
            self.is_over.store(true, Ordering::SeqCst);
        }
    }

    /// Whether no call is made any more.
    pub fn is_over(&self) -> bool {
        self.is_over.load(Ordering::SeqCst)
    }
}
