//! Pauses of a daemon.
ghost use Rattle.std.specs.Prelude.{◌≡◌, IfSome, IfNone};
ghost use Rattle.std.specs.Ordering.{ord_min};

use iova_range::limits::FLUSH_PAUSE;
use std::rt::Clock;
use std::thread;
use std::time::Duration;

/// The time between two looks at a busy domain, in microseconds.
const LOOK_PAUSE: u64 = 100;

/// The shorter of two times; none is without an end.
pub fn shorter(limit: Option<Duration>, time: Duration) -> Duration
    ensures limit { IfSome limit (λ l. result ≡ ord_min ⟦<Duration as Ord>⟧.cmp l time) }
    ensures none { IfNone limit (result ≡ time) }
{
    match limit {
        Some(limit) => limit.min(time),
        None => time,
    }
}

/// The time of the clock in milliseconds. None where it can't be read.
pub fn milliseconds<C: Clock>(clock: &C) -> Option<u64> {
    let time = clock.monotonic().ok()?;
    u64::try_from(time.as_millis()).ok()
}

/// What a flusher waits for before each round, and between its looks at a busy domain.
pub trait Pause {
    /// Waits for the next round. False: there is none, the flusher stops.
    fn pause(&mut self) -> bool;

    /// Waits for the next look between two rounds. False: none is made before the next round.
    fn pause_shortly(&mut self) -> bool {
        false
    }
}

/// A round each 10 milliseconds, and the time that it takes itself; of a busy domain a look each
/// 100 microseconds between them. It never stops.
#[derive(Drop)]
pub struct Ticks<'a, C> {
    clock: &'a C,
}

impl<'a, C> Ticks<'a, C> {
    /// Rounds by this clock.
    pub fn new(clock: &'a C) -> Ticks<'a, C> {
        Ticks { clock }
    }
}

impl<'a, C: Clock> Pause for Ticks<'a, C> {
    fn pause(&mut self) -> bool {
        thread::sleep(self.clock, Duration::from_millis(FLUSH_PAUSE));
        true
    }

    fn pause_shortly(&mut self) -> bool {
        thread::sleep(self.clock, Duration::from_micros(LOOK_PAUSE));
        true
    }
}
