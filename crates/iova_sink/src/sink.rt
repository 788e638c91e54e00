//! What gets each flush, and each client that is gone.
ghost use Rattle.std.specs.Prelude.{◌≡◌, is_ok, List};
ghost use Rattle.iova_sink.specs.Calls.{Call, with_call, with_gone};

use iova_range::range::Range;

/// A call of a sink failed.
#[derive(Clone, Copy, PartialEq, Eq, Debug)]
pub enum SinkFault {
    /// A peer answered that it failed.
    Refused,
    /// It wasn't sent whole, or no whole answer came.
    Broken,
}

/// A sink of invalidations, which also gets the clients that are gone. Contracts see the list of
/// its calls; how many invalidations were good, how many calls failed, and which invalidation was
/// the last good one are functions of that list.
pub trait Sink {
    /// The calls that it was made, oldest first, with their answers.
    ghost calls: { Self → List Call };

    /// Invalidates what the domain of this number has unmapped, for the flush of this number. `Err`
    /// says that it failed: the flush hasn't ended well then.
    fn invalidate(&mut self, domain: u64, no: u64) -> Result<(), SinkFault>
        ensures { calls self.new ≡ with_call (calls self.old) domain no (is_ok result) };

    /// Reports that this client of the domain is gone, which had these ranges: nothing of them may
    /// be mapped any more once this has ended well. A sink without an answer has nothing to do. The
    /// ranges come in a `Vec`, of which proofs keep what it was.
    fn gone(&mut self, domain: u64, client: u64, ranges: &Vec<Range>) -> Result<(), SinkFault>
        ensures { calls self.new ≡ with_gone (calls self.old) domain client ranges.now.items
            result };

    /// Keeps the sink for this thread until `unlock`: where several threads share it, no other one
    /// calls it meanwhile, and those that want it wait. A sink that isn't shared has nothing to do.
    fn lock(&mut self)
        ensures { calls self.new ≡ calls self.old }
    {}

    /// Unlocks the sink, after `lock`.
    fn unlock(&mut self)
        ensures { calls self.new ≡ calls self.old }
    {}

    /// Waits where another thread has the sink locked, until that one unlocks it or somebody passes
    /// on, and says whether it waited. What the other one's flush has freed may be enough for this
    /// thread too, which then needs no flush of its own. A sink that isn't shared has nothing to
    /// do.
    fn wait_for_turn(&mut self) -> bool
        ensures { calls self.new ≡ calls self.old }
    {
        false
    }

    /// Wakes the next one of those that wait for a turn: this thread waited for one, and needed no
    /// flush of its own.
    fn pass_on(&mut self)
        ensures { calls self.new ≡ calls self.old }
    {}
}
