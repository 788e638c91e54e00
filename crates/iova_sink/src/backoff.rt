//! How long no connection is made after some that failed.
use iova_range::limits::{CONNECT_PAUSE, MAX_CONNECT_PAUSE};
use std::rt::Clock;
use std::time::Duration;

/// The time for which no connection is made. The first one behind a connection that failed is made
/// at once; behind each further one that had no answer the time doubles.
#[derive(Drop)]
pub struct Backoff {
    /// How long none is made behind the next failure, in milliseconds.
    pause: u64,
    /// Until when none is made, by the clock.
    until: Duration,
}

impl Backoff {
    /// A connection is made at once.
    pub fn new() -> Backoff {
        Backoff {
            pause: 0,
            until: Duration::ZERO,
        }
    }

    /// A connection had an answer.
    pub fn reset(&mut self) {
        self.pause = 0;
    }

    /// A connection failed.
    pub fn note_failed<C: Clock>(&mut self, clock: &C) {
        if let Ok(now) = clock.monotonic() {
            self.until = now.saturating_add(Duration::from_millis(self.pause));
        }
        self.pause = self
            .pause
            .saturating_mul(2)
            .clamp(CONNECT_PAUSE, MAX_CONNECT_PAUSE);
    }

    /// Whether no connection is made now.
    pub fn holds<C: Clock>(&self, clock: &C) -> bool {
        match clock.monotonic() {
            Ok(now) => now < self.until,
            Err(_) => false,
        }
    }
}
