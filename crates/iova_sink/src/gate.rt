//! A sink that waits, for tests of what runs beside it.
ghost use Rattle.std.specs.Prelude.{◌≡◌, []};

use crate::calls::Calls;
use crate::sink::{Sink, SinkFault};
use iova_range::range::Range;
use std::marker::Model;
use std::sync::atomic::{AtomicBool, Ordering};
use std::thread;

/// The most turns that a wait for a flag takes.
pub const MAX_TURNS: u64 = 1_000_000;

/// A mark that threads share. It is raised once, and stays so. No contract says more of it.
#[derive(Drop)]
pub struct Flag {
    raised: AtomicBool,
}

impl Flag {
    /// A flag that isn't raised.
    pub fn new() -> Flag {
        Flag {
            raised: AtomicBool::new(false),
        }
    }

    pub fn raise(&self) {
        self.raised.store(true, Ordering::SeqCst);
    }

    pub fn is_raised(&self) -> bool {
        self.raised.load(Ordering::SeqCst)
    }

    /// Waits until the flag is raised, at most 1,000,000 turns with a yield each. Whether it was
    /// raised.
    pub fn wait(&self) -> bool {
        for _turn in 0..MAX_TURNS {
            if self.is_raised() {
                return true;
            }
            thread::yield_now();
        }
        false
    }
}

/// An invalidation raises `inside`, and then waits until `open` is raised; it fails where that
/// doesn't come in 1,000,000 turns. Contracts see the list of its calls.
#[derive(Drop)]
pub struct GateSink<'a> {
    inside: &'a Flag,
    open: &'a Flag,
    calls: Calls,
}

impl<'a> Model for GateSink<'a> {
    ghost use Rattle.std.specs.Prelude.{List};
    ghost use Rattle.iova_sink.specs.Calls.{Call};

    ghost Value = { List Call };

    ghost view = { λ s. s.calls };
}

impl<'a> GateSink<'a> {
    /// A sink that raises the first flag and waits for the second.
    pub fn new(inside: &'a Flag, open: &'a Flag) -> GateSink<'a>
        ensures { result ≡ [] }
    {
        GateSink {
            inside,
            open,
            calls: Calls::new(),
        }
    }
}

impl<'a> Sink for GateSink<'a> {
    ghost calls = { λ s. s };

    fn invalidate(&mut self, domain: u64, no: u64) -> Result<(), SinkFault> {
        self.inside.raise();
        let ok = self.open.wait();
        self.calls.add(domain, no, ok);
        if ok { Ok(()) } else { Err(SinkFault::Broken) }
    }

    /// Is good at once.
    fn gone(&mut self, domain: u64, client: u64, ranges: &Vec<Range>) -> Result<(), SinkFault> {
        self.calls.add_gone(domain, client, ranges, Ok(()));
        Ok(())
    }
}
