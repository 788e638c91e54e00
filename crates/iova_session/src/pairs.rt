//! What a desk was asked, which only proofs see.
ghost use Rattle.std.specs.Prelude.{◌≡◌, ◌++◌, ◌∷◌, []};

use iova_proto::answer::Answer;
use iova_proto::request::Request;
use std::marker::Model;
use std::snapshot::Snapshot;

/// What a desk was asked, oldest first, each with its answer. Contracts see it as a list. It takes
/// no memory: each pair is kept, with what was before it, as snapshots, which no code reads.
#[derive(Drop)]
pub struct Pairs {
    before: Option<Snapshot<Pairs>>,
    request: Snapshot<Request>,
    answer: Snapshot<Answer>,
}

impl Model for Pairs {
    ghost use Rattle.std.specs.Prelude.{List, length};
    ghost use Rattle.iova_session.specs.Pairs.{Pair, after_one};

    ghost Value = { List Pair };

    ghost view = { λ p. after_one p.before p.request p.answer };

    ghost size = { λ ps. length ps };

    ghost use Rattle.std.proofs.Common.{arith, length-append};

    ghost size_decreases = { λ a h. Prim.grind (arith, length-append) };
}

impl Pairs {
    /// None.
    pub fn new() -> Pairs
        ensures { result ≡ [] }
    {
        Pairs {
            before: None,
            request: Snapshot::of(&Request::Bye),
            answer: Snapshot::of(&Answer::Bye),
        }
    }

    /// One more: this request, and this answer to it.
    pub fn add(&mut self, request: Request, answer: &Answer)
        ensures { self.new ≡ self.old ++ record { request = request; answer = answer.now } ∷ [] }
    {
        let before = Snapshot::of(self);
        self.before = Some(before);
        self.request = Snapshot::of(&request);
        self.answer = Snapshot::of(answer);
    }
}
