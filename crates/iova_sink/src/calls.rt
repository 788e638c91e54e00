//! The calls of a sink, which only proofs see.
ghost use Rattle.std.specs.Prelude.{◌≡◌, []};
ghost use Rattle.iova_sink.specs.Calls.{with_call, with_gone};

use crate::sink::SinkFault;
use iova_range::range::Range;
use std::marker::Model;
use std::snapshot::Snapshot;

/// The calls that a sink was made, oldest first, each with its answer. Contracts see it as a list.
/// It takes no memory: each call keeps what was before it as a snapshot, which no code reads.
#[derive(Drop)]
pub struct Calls {
    before: Option<Snapshot<Calls>>,
    domain: u64,
    number: u64,
    /// The ranges of the last call, where it was of a client that is gone.
    ranges: Option<Snapshot<Vec<Range>>>,
    /// Whether the last call was good, where it was a flush.
    ok: bool,
    /// What the last call was answered, where it was of a client that is gone.
    answer: Result<(), SinkFault>,
}

impl Model for Calls {
    ghost use Rattle.std.specs.Prelude.{List, length, option_map};
    ghost use Rattle.iova_sink.specs.Calls.{Call, calls_after, last_call};

    ghost Value = { List Call };

    ghost view = { λ c. calls_after c.before
        (last_call (option_map (λ s. s.value.items) c.ranges) c.domain c.number c.ok c.answer) };

    ghost size = { λ cs. length cs };

    ghost use Rattle.std.proofs.Common.{arith, length-append};

    ghost size_decreases = { λ a h. Prim.grind (arith, length-append) };
}

impl Calls {
    /// No call.
    pub fn new() -> Calls
        ensures { result ≡ [] }
    {
        Calls {
            before: None,
            domain: 0,
            number: 0,
            ranges: None,
            ok: false,
            answer: Ok(()),
        }
    }

    /// One call more, for this domain and this flush, which was good or failed.
    pub fn add(&mut self, domain: u64, no: u64, ok: bool)
        ensures { self.new ≡ with_call self.old domain no ok }
    {
        let before = Snapshot::of(self);
        self.before = Some(before);
        self.domain = domain;
        self.number = no;
        self.ranges = None;
        self.ok = ok;
    }

    /// One call more, that this client of the domain is gone, which had these ranges, with what was
    /// answered.
    pub fn add_gone(
        &mut self,
        domain: u64,
        client: u64,
        ranges: &Vec<Range>,
        answer: Result<(), SinkFault>,
    )
        ensures { self.new ≡ with_gone self.old domain client ranges.now.items answer }
    {
        let before = Snapshot::of(self);
        self.before = Some(before);
        self.domain = domain;
        self.number = client;
        self.ranges = Some(Snapshot::of(ranges));
        self.answer = answer;
    }
}
