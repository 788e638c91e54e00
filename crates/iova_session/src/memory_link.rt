//! A link in memory.
ghost use Rattle.std.specs.Prelude.{◌≡◌, ◌≢◌, ◌+◌, ◌<◌, ◌≤◌, [], Some, IfOk, OnOk, MatchResult, length, min, true, false};
ghost use Rattle.iova_sink.specs.Counts.{CountsFailure};
ghost use Rattle.std.specs.Io.KnownBytes.{ReadConsumes, WriteAppends};
ghost use Rattle.iova_session.specs.Links.{CountsEnds};

use crate::link::{Link, LinkFault};
use iova_sink::count::Count;
use std::alloc::Global;
use std::marker::Model;

/// Gives bytes from a slice, and keeps in memory those that are written to it, for tests. It moves
/// at most `most` bytes in a call, and fails at its `fail_at`-th call (0: at none), and where a
/// growth is refused.
#[derive(Drop)]
pub struct MemoryLink<'a> {
    input: &'a [u8],
    sent: Vec<u8>,
    most: usize,
    fail_at: u64,
    /// How far off the call that fails is: 1 where it comes next, 0 where none fails any more.
    ahead: u64,
    calls: Count,
    reads: Count,
    failed: Count,
    ended: Count,
}

impl<'a> Model for MemoryLink<'a> {
    ghost use Rattle.std.specs.Prelude.{◌≡◌, ◌-◌, ◌≤◌};
    ghost use Rattle.iova_session.specs.Links.{Wire};

    ghost Value = { Wire };

    ghost view = { λ l. record {
      left = l.input.now;
      sent = l.sent.items;
      most = l.most;
      fail_at = l.fail_at;
      calls = l.calls;
      reads = l.reads;
      failures = l.failed;
      ends = l.ended;
    } };

    ghost invariant = { λ l. (1 ≤ l.most) × (l.ahead ≡ l.fail_at - l.calls) };
}

impl<'a> MemoryLink<'a> {
    /// A link that gives this input, moves at most `most` bytes in a call, and fails at its
    /// `fail_at`-th call (0: at none).
    pub fn new(alloc: Global, input: &'a [u8], most: usize, fail_at: u64) -> MemoryLink<'a>
        requires { 1 ≤ most }
        ensures { result ≡ record {
          left = input.now;
          sent = [];
          most = most;
          fail_at = fail_at;
          calls = 0;
          reads = 0;
          failures = 0;
          ends = 0;
        } }
    {
        MemoryLink {
            input,
            sent: Vec::new(alloc),
            most,
            fail_at,
            ahead: fail_at,
            calls: Count::new(),
            reads: Count::new(),
            failed: Count::new(),
            ended: Count::new(),
        }
    }

    /// The bytes that were written to it.
    pub fn sent(&self) -> &[u8]
        ensures { result.now ≡ self.now.sent }
    {
        self.sent.as_slice()
    }

    /// One call more. Whether it is one that doesn't fail.
    fn next_call(&mut self) -> bool
        ensures good { result ≡ true → (self.old.calls + 1 ≢ self.old.fail_at)
            × (self.new ≡ record self.old { calls = self.old.calls + 1 }) }
        ensures fails { result ≡ false → (self.old.calls + 1 ≡ self.old.fail_at)
            × (self.new ≡ record self.old {
              calls = self.old.calls + 1;
              failures = self.old.failures + 1;
            }) }
    {
        let good = self.ahead != 1;
        self.ahead = self.ahead.saturating_sub(1);
        self.calls.up();
        if !good {
            self.failed.up();
        }
        good
    }
}

impl<'a> Link for MemoryLink<'a> {
    ghost left = { λ l. Some l.left };

    ghost sent = { λ l. Some l.sent };

    ghost calls = { λ l. l.calls };

    ghost reads = { λ l. l.reads };

    ghost failures = { λ l. l.failures };

    ghost ends = { λ l. l.ends };

    fn read(&mut self, buf: &mut [u8]) -> Result<usize, LinkFault>
        ensures bound { IfOk result (λ n. n ≤ length buf.old) }
        ensures bytes { ReadConsumes (Some self.old.left) (Some self.new.left) result buf.new }
        ensures calls { self.new.calls ≡ self.old.calls + 1 }
        ensures reads { self.new.reads ≡ self.old.reads + 1 }
        ensures failures { CountsFailure result self.old.failures self.new.failures }
        ensures ends { CountsEnds result (length buf.old) self.old.ends self.new.ends }
        ensures sent { self.new.sent ≡ self.old.sent }
        ensures most { IfOk result (λ n. n
            ≡ min self.old.most (min (length buf.old) (length self.old.left))) }
        ensures turn { MatchResult result (λ n. self.old.calls + 1 ≢ self.old.fail_at)
            (λ e. self.old.calls + 1 ≡ self.old.fail_at) }
        ensures same { self.new ≡ record self.old {
          left = self.new.left;
          calls = self.old.calls + 1;
          reads = self.new.reads;
          failures = self.new.failures;
          ends = self.new.ends;
        } }
    {
        self.reads.up();
        if !self.next_call() {
            return Err(LinkFault);
        }
        let n = self.most.min(buf.len().min(self.input.len()));
        let (front, rest) = self.input.split_at(n);
        buf[..n].copy_from_slice(front);
        self.input = rest;
        if n == 0 && !buf.is_empty() {
            self.ended.up();
        }
        Ok(n)
    }

    fn write(&mut self, bytes: &[u8]) -> Result<usize, LinkFault>
        ensures bound { IfOk result (λ n. n ≤ length bytes.now) }
        ensures some { IfOk result (λ n. 0 < length bytes.now → 0 < n) }
        ensures bytes { WriteAppends (Some self.old.sent) (Some self.new.sent) result bytes.now }
        ensures failures { CountsFailure result self.old.failures self.new.failures }
        ensures left { self.new.left ≡ self.old.left }
        ensures calls { self.new.calls ≡ self.old.calls + 1 }
        ensures reads { self.new.reads ≡ self.old.reads }
        ensures ends { self.new.ends ≡ self.old.ends }
        ensures most { IfOk result (λ n. n ≡ min self.old.most (length bytes.now)) }
        ensures turn { OnOk result (self.old.calls + 1 ≢ self.old.fail_at) }
        ensures same { self.new ≡ record self.old {
          sent = self.new.sent;
          calls = self.old.calls + 1;
          failures = self.new.failures;
        } }
    {
        if !self.next_call() {
            return Err(LinkFault);
        }
        let n = self.most.min(bytes.len());
        match self.sent.extend_from_slice(&bytes[..n]) {
            Ok(()) => Ok(n),
            Err(_) => {
                self.failed.up();
                Err(LinkFault)
            }
        }
    }
}
