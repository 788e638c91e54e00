//! A device in memory.
ghost use Rattle.std.specs.Prelude.{◌≡◌, ◌≢◌, ◌+◌, ◌<◌, ◌≤◌, [], Some, IfOk, OnOk, MatchResult, length, min, true, false};
ghost use Rattle.std.specs.Io.KnownBytes.{WriteAppends};
ghost use Rattle.iova_sink.specs.Counts.{CountsFailure};

use crate::count::Count;
use crate::device::{Device, DeviceFault};
use std::alloc::Global;
use std::marker::Model;

/// Keeps the bytes in memory, for tests. It takes at most `most` bytes in a call, and fails at its
/// `fail_at`-th call (0: at none), and where a growth is refused.
#[derive(Drop)]
pub struct MemoryDevice {
    bytes: Vec<u8>,
    most: usize,
    fail_at: u64,
    /// How far off the call that fails is: 1 where it comes next, 0 where none fails any more.
    ahead: u64,
    calls: Count,
    failed: Count,
}

impl Model for MemoryDevice {
    ghost use Rattle.std.specs.Prelude.{◌≡◌, ◌-◌, ◌≤◌};
    ghost use Rattle.iova_sink.specs.Devices.{MemoryDeviceState};

    ghost Value = { MemoryDeviceState };

    ghost view = { λ d. record {
      bytes = d.bytes.items;
      most = d.most;
      fail_at = d.fail_at;
      calls = d.calls;
      failures = d.failed;
    } };

    ghost invariant = { λ d. (1 ≤ d.most) × (d.ahead ≡ d.fail_at - d.calls) };
}

impl MemoryDevice {
    /// A device with no bytes, that takes at most `most` bytes in a call and fails at its
    /// `fail_at`-th call (0: at none).
    pub fn new(alloc: Global, most: usize, fail_at: u64) -> MemoryDevice
        requires { 1 ≤ most }
        ensures { result ≡ record {
          bytes = [];
          most = most;
          fail_at = fail_at;
          calls = 0;
          failures = 0;
        } }
    {
        MemoryDevice {
            bytes: Vec::new(alloc),
            most,
            fail_at,
            ahead: fail_at,
            calls: Count::new(),
            failed: Count::new(),
        }
    }

    /// The bytes that it took.
    pub fn bytes(&self) -> &[u8]
        ensures { result.now ≡ self.now.bytes }
    {
        self.bytes.as_slice()
    }

    /// One call more. Whether it is one that doesn't fail.
    fn next_call(&mut self) -> bool
        ensures good { result ≡ true → (self.old.calls + 1 ≢ self.old.fail_at)
            × (self.new ≡ record self.old { calls = self.old.calls + 1 }) }
        ensures fails { result ≡ false → (self.old.calls + 1 ≡ self.old.fail_at)
            × (self.new ≡ record self.old {
              calls = self.old.calls + 1;
              failures = self.old.failures + 1;
            }) }
    {
        let good = self.ahead != 1;
        self.ahead = self.ahead.saturating_sub(1);
        self.calls.up();
        if !good {
            self.failed.up();
        }
        good
    }
}

impl Device for MemoryDevice {
    ghost taken = { λ d. Some d.bytes };

    ghost failures = { λ d. d.failures };

    fn put(&mut self, bytes: &[u8]) -> Result<usize, DeviceFault>
        ensures bound { IfOk result (λ n. n ≤ length bytes.now) }
        ensures some { IfOk result (λ n. 0 < length bytes.now → 0 < n) }
        ensures bytes { WriteAppends (Some self.old.bytes) (Some self.new.bytes) result bytes.now }
        ensures failures { CountsFailure result self.old.failures self.new.failures }
        ensures most { IfOk result (λ n. n ≡ min self.old.most (length bytes.now)) }
        ensures turn { OnOk result (self.old.calls + 1 ≢ self.old.fail_at) }
        ensures same { self.new
            ≡ record self.old {
              bytes = self.new.bytes;
              calls = self.old.calls + 1;
              failures = self.new.failures;
            } }
    {
        if !self.next_call() {
            return Err(DeviceFault);
        }
        let n = self.most.min(bytes.len());
        match self.bytes.extend_from_slice(&bytes[..n]) {
            Ok(()) => Ok(n),
            Err(_) => {
                self.failed.up();
                Err(DeviceFault)
            }
        }
    }

    fn push_out(&mut self) -> Result<(), DeviceFault>
        ensures bytes { self.new.bytes ≡ self.old.bytes }
        ensures failures { CountsFailure result self.old.failures self.new.failures }
        ensures turn { MatchResult result (λ u. self.old.calls + 1 ≢ self.old.fail_at)
            (λ e. self.old.calls + 1 ≡ self.old.fail_at) }
        ensures same { self.new ≡ record self.old
            { calls = self.old.calls + 1; failures = self.new.failures } }
    {
        if self.next_call() {
            Ok(())
        } else {
            Err(DeviceFault)
        }
    }
}
