//! What passed over a channel, which only proofs see.
ghost use Rattle.std.specs.Prelude.{◌≡◌, []};
ghost use Rattle.iova_sink.specs.Passing.{with_one, with_sent_bytes, with_received_bytes};

use std::marker::Model;
use std::snapshot::Snapshot;

/// One thing that passed over a channel, or happened to it.
#[derive(Clone, Copy)]
pub enum Passed {
    /// A connection was made, in place of one that there was.
    Connected,
    /// This byte was sent.
    Sent(u8),
    /// This byte was received.
    Received(u8),
    /// A look found bytes in the connection.
    Strayed,
    /// A call failed.
    Failed,
}

/// What passed over a channel, oldest first. Contracts see it as a list. It takes no memory: each
/// thing keeps those before it as a snapshot, which no code reads.
#[derive(Drop)]
pub struct History {
    before: Option<Snapshot<History>>,
    last: Passed,
}

impl Model for History {
    ghost use Rattle.std.specs.Prelude.{List, length};
    ghost use Rattle.iova_sink.specs.declared.history.Passed.{Passed};
    ghost use Rattle.iova_sink.specs.Passing.{passed_after};

    ghost Value = { List Passed };

    ghost view = { λ h. passed_after h.before h.last };

    ghost size = { λ ps. length ps };

    ghost use Rattle.std.proofs.Common.{arith, length-append};

    ghost size_decreases = { λ a h. Prim.grind (arith, length-append) };
}

impl History {
    /// Nothing.
    pub fn new() -> History
        ensures { result ≡ [] }
    {
        History {
            before: None,
            last: Passed::Connected,
        }
    }

    /// One thing more.
    pub fn add(&mut self, passed: Passed)
        ensures { self.new ≡ with_one self.old passed }
    {
        let before = Snapshot::of(self);
        self.before = Some(before);
        self.last = passed;
    }

    /// These bytes were sent.
    pub fn add_sent(&mut self, bytes: &[u8])
        ensures { self.new ≡ with_sent_bytes self.old bytes.now }
    {
        for byte in bytes {
            self.add(Passed::Sent(*byte));
        }
    }

    /// These bytes were received.
    pub fn add_received(&mut self, bytes: &[u8])
        ensures { self.new ≡ with_received_bytes self.old bytes.now }
    {
        for byte in bytes {
            self.add(Passed::Received(*byte));
        }
    }
}
