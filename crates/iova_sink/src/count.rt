//! A number that only proofs see.
ghost use Rattle.std.specs.Prelude.{◌≡◌, ◌+◌};

use std::marker::Model;
use std::snapshot::Snapshot;

/// A count without bound: it takes no memory and can't overflow, and no code reads it.
#[derive(Drop)]
pub struct Count {
    before: Option<Snapshot<Count>>,
}

impl Model for Count {
    ghost use Rattle.std.specs.Prelude.{ℕ};
    ghost use Rattle.iova_sink.specs.Counts.{count_of};

    ghost Value = { ℕ };

    ghost view = { λ c. count_of c.before };

    ghost size = { λ n. n };

    ghost use Rattle.std.proofs.Common.{arith};

    ghost size_decreases = { λ a h. Prim.grind arith };
}

impl Count {
    /// 0.
    pub fn new() -> Count
        ensures { result ≡ 0 }
    {
        Count { before: None }
    }

    /// One more.
    pub fn up(&mut self)
        ensures { self.new ≡ self.old + 1 }
    {
        let before = Snapshot::of(self);
        self.before = Some(before);
    }
}
