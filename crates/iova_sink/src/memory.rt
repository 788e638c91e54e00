//! A sink that writes nothing.
ghost use Rattle.std.specs.Prelude.{◌≡◌, ◌+◌, ◌↔◌, [], is_ok, IsErr, length};
ghost use Rattle.iova_sink.specs.Calls.{with_call, with_gone};

use crate::calls::Calls;
use crate::sink::{Sink, SinkFault};
use iova_range::range::Range;
use std::marker::Model;

/// Fails at its `fail_at`-th call, at none where that is 0. For tests.
#[derive(Drop)]
pub struct MemorySink {
    fail_at: u64,
    /// How far off the call that fails is: 1 where it comes next, 0 where none fails any more.
    ahead: u64,
    calls: Calls,
}

impl Model for MemorySink {
    ghost use Rattle.std.specs.Prelude.{◌≡◌, ◌-◌, length};
    ghost use Rattle.iova_sink.specs.Devices.{Scripted};

    ghost Value = { Scripted };

    ghost view = { λ s. record { fail_at = s.fail_at; calls = s.calls } };

    ghost invariant = { λ s. s.ahead ≡ s.fail_at - length s.calls };
}

impl MemorySink {
    /// A sink that fails at its `fail_at`-th call, at none where that is 0.
    pub fn new(fail_at: u64) -> MemorySink
        ensures { result ≡ record { fail_at = fail_at; calls = [] } }
    {
        MemorySink {
            fail_at,
            ahead: fail_at,
            calls: Calls::new(),
        }
    }
}

impl Sink for MemorySink {
    ghost calls = { λ s. s.calls };

    fn invalidate(&mut self, domain: u64, no: u64) -> Result<(), SinkFault>
        ensures calls { self.new.calls ≡ with_call self.old.calls domain no (is_ok result) }
        ensures fails { IsErr result ↔ (length self.old.calls + 1 ≡ self.old.fail_at) }
        ensures same { self.new.fail_at ≡ self.old.fail_at }
    {
        let ok = self.ahead != 1;
        self.ahead = self.ahead.saturating_sub(1);
        self.calls.add(domain, no, ok);
        if ok { Ok(()) } else { Err(SinkFault::Broken) }
    }

    fn gone(&mut self, domain: u64, client: u64, ranges: &Vec<Range>) -> Result<(), SinkFault>
        ensures calls { self.new.calls ≡ with_gone self.old.calls domain client ranges.now.items
            result }
        ensures fails { IsErr result ↔ (length self.old.calls + 1 ≡ self.old.fail_at) }
        ensures same { self.new.fail_at ≡ self.old.fail_at }
    {
        let answer = if self.ahead == 1 {
            Err(SinkFault::Refused)
        } else {
            Ok(())
        };
        self.ahead = self.ahead.saturating_sub(1);
        self.calls.add_gone(domain, client, ranges, answer);
        answer
    }
}
