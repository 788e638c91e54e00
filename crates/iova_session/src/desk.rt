//! What answers the requests of a session.
ghost use Rattle.std.specs.Prelude.{◌≡◌, ◌≤◌, List, IfOk, OnErr, length};
ghost use Rattle.iova_session.specs.Pairs.{Pair, AsksFront};

use iova_proto::answer::Answer;
use iova_proto::request::Request;
use iova_range::limits::MAX_RUN;
use iova_range::refusal::Refusal;

/// Answers requests. Contracts see what it was asked and what it answered.
pub trait Desk {
    /// What it was asked, with its answers, oldest first.
    ghost pairs: { Self → List Pair };

    /// Asks a front of the 1 to 16 requests, at least one of them, in their order, appends their
    /// answers, and gives their number. Refused by `NoMemory` alone: none was asked, and the
    /// answers are as they were.
    fn ask_run(&mut self, requests: &[Request], answers: &mut Vec<Answer>) -> Result<usize, Refusal>
        requires some { 1 ≤ length requests.now }
        requires most { length requests.now ≤ MAX_RUN }
        ensures count { IfOk result (λ n. (1 ≤ n) × (n ≤ length requests.now)) }
        ensures ok { IfOk result (λ n. AsksFront n requests.now (pairs self.old) (pairs self.new)
            answers.old.items answers.new.items) }
        ensures err { OnErr result ((result ≡ Err Refusal.NoMemory)
            × (pairs self.new ≡ pairs self.old)
            × (answers.new.items ≡ answers.old.items)) };
}
