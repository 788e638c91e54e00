//! What keeps a domain: the book itself, or a lock round it.
ghost use Rattle.std.specs.Prelude.{◌≡◌, ◌≢◌, ℕ, ◌+◌, ◌<◌, ◌≤◌, ◌++◌, Bool, Option, Some, None, List, IfOk, IfErr, IfSome, IsOk, MatchOption, MatchResult, length, vec_len, vec_capacity, ◌⊎◌, if◌then◌else◌};
ghost use Rattle.iova_range.specs.declared.limits.TheConstants.{MAX_HOLDINGS};
ghost use Rattle.iova_range.specs.Frames.{Frames};
ghost use Rattle.iova_model.specs.Clients.{totals, no_totals};
ghost use Rattle.iova_model.specs.State.{State};
ghost use Rattle.iova_model.specs.Valid.{Rises};
ghost use Rattle.iova_model.specs.Effects.{MovesTotals, IsReplyTo, IsGivenTo};
ghost use Rattle.iova_keep.specs.Views.{TallyState, SeatState, Identity, WhereKnown, IsReserveRefusal, IsOpenRefusal, IsAllocRefusal, IsUnmapHeard, IsBeginHeard, IsReleaseBegin, IsSecondBegin, IsCloseHeard, MovesHeard, QueuedNone, Lowers, BeginsAtSeat, EndsAtSeat, tally_after, queued_by, reserved_or, opened_or, given_or, stat_of, IsKept, IsWorker, MovesSharesAlone};
ghost use Rattle.iova_keep.specs.Batches.{DoesBatch, BatchRuns, TellsAsks};
ghost use Rattle.iova_keep.specs.Releases.{ReleaseFirst, ReleaseAgain, ReleaseLast, ReleasesFirst, ReleasesAgain, ReleasesLast};
ghost use Rattle.iova_keep.specs.StepLogs.{StepLog, StoresStep};
ghost use Rattle.iova_keep.specs.Stored.{RecordsCall};
ghost use Rattle.iova_keep.specs.Events.{UnmapFirst, UnmapAgain, CloseFirst, CloseAgain, DrainAll};
ghost use Rattle.iova_keep.specs.Answers.{Reserves, Opens, Allocs, UnmapsFirst, UnmapsAgain, Begins, Ends, ClosesFirst, ClosesAgain, Leaves, RaisesByEnd, DrainsAll, ReadsHoldings};

use crate::ask::{Ask, Told};
use crate::names::Names;
use crate::seat::{Seat, Tally};
use iova_model::step::{ClientId, Reply, Step};
use iova_model::totals::Totals;
use iova_range::limits::MAX_RUN;
use iova_range::range::Range;
use iova_range::refusal::Refusal;
use iova_range::stat::Stat;

/// What one hold of a longer call heard.
#[derive(Drop)]
pub struct Heard {
    /// The last reply that isn't a `Begin`'s.
    pub reply: Option<Reply>,
    /// The reply of a `Begin`.
    pub begun: Option<Reply>,
    /// The totals of what the hold queued.
    pub queued: Totals,
    /// How many ranges the client has left, 0 where there is no such client.
    pub left: u64,
}

/// A keeper of a domain. Each call but `number` is one hold of it: its steps are run together, and
/// nothing else runs between them.
///
/// Where the domain is known, a call says what it leaves. Of every keeper a call says what it
/// answers and how it moves the seat's shares and tally.
pub trait Keep<B: Names> {
    /// The domain, where that is known.
    ghost domain: { Self → Option State };

    /// The domain's number, and whether it is strict, where that is known.
    ghost identity: { Self → Identity };

    /// What is recorded of its steps, where that is known. Each call stores the steps that it runs,
    /// with their replies, and nothing else. So no call ends the recording before it is full, and
    /// then it is over for good.
    ghost log: { Self → Option StepLog };

    /// The domain's number. It takes no hold.
    fn number(&self) -> u64
        ensures { result ≡ (identity self.now).number };

    /// A domain that is known keeps what each domain keeps. It takes no hold, and does nothing: it
    /// is there for proofs.
    fn domain_is_kept(&self)
        ensures { IfSome (domain self.now) IsKept };

    /// Makes one window of the frames `lo` to `hi`, both inside the bounds, and of all windows that
    /// overlap them, and gives it. Refused by `BadWindow`, `Taken`, `WindowsFull` and `NoMemory`;
    /// then nothing has changed. No seat has a share in it.
    fn reserve(&mut self, lo: u64, hi: u64) -> Result<Range, Refusal>
        ensures same { identity self.new ≡ identity self.old }
        ensures log { StoresStep (log self.old) (Step.Reserve lo hi) (reserved_or result)
            (log self.new) }
        ensures domain { WhereKnown (domain self.old) (domain self.new) (Reserves lo hi result) }
        ensures refusal { IfErr result IsReserveRefusal };

    /// Opens a client of the seat's worker, which is first sought places below 4 GiB where it is
    /// `sac`. Refused by `Worn`, `ClientsFull` and `NoMemory`; then nothing has changed.
    fn open(&mut self, seat: &mut Seat<B>, sac: bool) -> Result<ClientId, Refusal>
        ensures same { identity self.new ≡ identity self.old }
        ensures log { StoresStep (log self.old) (Step.Open seat.old.worker sac) (opened_or result)
            (log self.new) }
        ensures domain { WhereKnown (domain self.old) (domain self.new)
            (Opens seat.old.worker sac result) }
        ensures refusal { IfErr result IsOpenRefusal }
        ensures seat { seat.new ≡ seat.old };

    /// Gives the client a range of as many frames as `frames` needs, none above `limit`. Refused by
    /// `Zero`, `TooBig`, `NoClient`, `Closing`, `HoldingsFull`, `NoMemory` and `NoSpace`; then the
    /// client has nothing new.
    fn alloc(
        &mut self,
        seat: &mut Seat<B>,
        id: ClientId,
        frames: u64,
        limit: u64,
    ) -> Result<Range, Refusal>
        ensures same { identity self.new ≡ identity self.old }
        ensures log { StoresStep (log self.old) (Step.Alloc seat.old.worker id frames limit)
            (given_or result) (log self.new) }
        ensures domain { WhereKnown (domain self.old) (domain self.new)
            (Allocs seat.old.worker id frames limit result) }
        ensures given { MatchResult result (IsGivenTo frames limit) IsAllocRefusal }
        ensures seat { MovesTotals (given_or result) seat.old.held seat.new.held }
        ensures rest { MovesSharesAlone seat.old seat.new };

    /// The first hold of an unmap: an unmap; where the ring is full, a flush begins.
    fn unmap_first(&mut self, seat: &mut Seat<B>, id: ClientId, lo: u64) -> Heard
        ensures same { identity self.new ≡ identity self.old }
        ensures log { RecordsCall (domain self.old) (domain self.new) (log self.old) (log self.new)
            (λ s t. UnmapFirst (Step.Unmap seat.old.worker id lo) seat.old.held result.reply
            result.begun) }
        ensures domain { WhereKnown (domain self.old) (domain self.new)
            (UnmapsFirst seat.old id lo result.reply result.begun) }
        ensures left { WhereKnown (domain self.old) (domain self.new) (Leaves id result.left) }
        ensures seat { MovesHeard result.reply seat.old.held seat.new.held }
        ensures rest { BeginsAtSeat result.begun seat.old seat.new }
        ensures heard { IsUnmapHeard lo result.reply }
        ensures queued { MatchOption result.reply ⊥ (λ r. result.queued ≡ queued_by r) }
        ensures begun { IsBeginHeard result.reply result.begun }
        ensures full { result.begun ≡ None → result.reply ≢ Some (Reply.Refused Refusal.RingFull) };

    /// The second hold of an unmap: the flush ends, as `ok` says, and the unmap is tried again.
    /// `ok` is what a sink answered for this flush.
    fn unmap_again(&mut self, seat: &mut Seat<B>, id: ClientId, lo: u64, no: u64, ok: bool) -> Heard
        ensures same { identity self.new ≡ identity self.old }
        ensures log { RecordsCall (domain self.old) (domain self.new) (log self.old) (log self.new)
            (λ s t. UnmapAgain (Step.Unmap seat.old.worker id lo) seat.old.held no ok result.reply) }
        ensures domain { WhereKnown (domain self.old) (domain self.new)
            (UnmapsAgain seat.old id lo no ok result.reply) }
        ensures left { WhereKnown (domain self.old) (domain self.new) (Leaves id result.left) }
        ensures seat { MovesHeard result.reply seat.old.held seat.new.held }
        ensures ended { WhereKnown (domain self.old) (domain self.new)
            (RaisesByEnd seat.old.tally.good seat.new.tally.good no ok) }
        ensures place { EndsAtSeat no ok None seat.old seat.new }
        ensures heard { IsUnmapHeard lo result.reply }
        ensures queued { MatchOption result.reply ⊥ (λ r. result.queued ≡ queued_by r) }
        ensures begun { result.begun ≡ None };

    /// The first hold of a flush: it begins. Refused by `FlightsFull` and `Worn`.
    fn begin(&mut self, tally: &mut Tally<B>) -> Heard
        ensures same { identity self.new ≡ identity self.old }
        ensures log { MatchOption result.begun ⊥
            (λ b. StoresStep (log self.old) Step.Begin b (log self.new)) }
        ensures domain { WhereKnown (domain self.old) (domain self.new) (Begins result.begun) }
        ensures tally { MatchOption result.begun ⊥
            (λ b. tally.new ≡ tally_after Step.Begin b tally.old) }
        ensures heard { MatchOption result.begun ⊥ (λ b. IsReplyTo Step.Begin b) }
        ensures none { (result.reply ≡ None) × (result.queued ≡ no_totals) × (result.left ≡ 0) };

    /// The second hold of a flush: it ends, as `ok` says. Refused by `NoFlight`. `ok` is what a
    /// sink answered for this flush.
    fn end(&mut self, tally: &mut Tally<B>, no: u64, ok: bool) -> Heard
        ensures same { identity self.new ≡ identity self.old }
        ensures log { MatchOption result.reply ⊥
            (λ r. StoresStep (log self.old) (Step.End no ok) r (log self.new)) }
        ensures domain { WhereKnown (domain self.old) (domain self.new) (Ends no ok result.reply) }
        ensures tally { MatchOption result.reply ⊥
            (λ r. tally.new ≡ tally_after (Step.End no ok) r tally.old) }
        ensures heard { MatchOption result.reply ⊥ (λ r. IsReplyTo (Step.End no ok) r) }
        ensures none { (result.begun ≡ None) × (result.queued ≡ no_totals) × (result.left ≡ 0) };

    /// The first hold of a client's end: its ranges are queued, lowest first, until it is gone or a
    /// step is refused; where the ring is full, a flush begins.
    fn close_first(&mut self, seat: &mut Seat<B>, id: ClientId) -> Heard
        ensures same { identity self.new ≡ identity self.old }
        ensures log { RecordsCall (domain self.old) (domain self.new) (log self.old) (log self.new)
            (λ s t. CloseFirst (Step.CloseOne seat.old.worker id) seat.old.held seat.new.held
            result.reply result.begun) }
        ensures domain { WhereKnown (domain self.old) (domain self.new)
            (ClosesFirst seat.old seat.new.held id result.reply result.begun) }
        ensures left { WhereKnown (domain self.old) (domain self.new) (Leaves id result.left) }
        ensures seat { Lowers result.queued seat.old.held seat.new.held }
        ensures rest { BeginsAtSeat result.begun seat.old seat.new }
        ensures heard { IsCloseHeard result.reply }
        ensures begun { IsBeginHeard result.reply result.begun }
        ensures full { result.begun ≡ None → result.reply ≢ Some (Reply.Refused Refusal.RingFull) };

    /// A further hold of a client's end: the flush ends, as `ok` says, and then as the first one;
    /// but where the ring is full before a range was queued, no flush begins. `ok` is what a sink
    /// answered for this flush.
    fn close_again(&mut self, seat: &mut Seat<B>, id: ClientId, no: u64, ok: bool) -> Heard
        ensures same { identity self.new ≡ identity self.old }
        ensures log { RecordsCall (domain self.old) (domain self.new) (log self.old) (log self.new)
            (λ s t. CloseAgain (Step.CloseOne seat.old.worker id) no ok seat.old.held seat.new.held
            result.reply result.begun) }
        ensures domain { WhereKnown (domain self.old) (domain self.new)
            (ClosesAgain seat.old seat.new.held id no ok result.reply result.begun) }
        ensures left { WhereKnown (domain self.old) (domain self.new) (Leaves id result.left) }
        ensures seat { Lowers result.queued seat.old.held seat.new.held }
        ensures ended { WhereKnown (domain self.old) (domain self.new)
            (RaisesByEnd seat.old.tally.good seat.new.tally.good no ok) }
        ensures place { EndsAtSeat no ok result.begun seat.old seat.new }
        ensures heard { IsCloseHeard result.reply }
        ensures begun { IsBeginHeard result.reply result.begun }
        ensures goes_on { result.begun ≢ None → seat.new.held.count < seat.old.held.count };

    /// The first hold of a release: an unmap; where the ring is full, or a range was queued in a
    /// strict domain, a flush begins.
    fn release_first(&mut self, seat: &mut Seat<B>, id: ClientId, lo: u64) -> Heard
        ensures same { identity self.new ≡ identity self.old }
        ensures log { RecordsCall (domain self.old) (domain self.new) (log self.old) (log self.new)
            (λ s t. ReleaseFirst (identity self.old).strict (Step.Unmap seat.old.worker id lo)
            seat.old.held result.reply result.begun) }
        ensures domain { WhereKnown (domain self.old) (domain self.new)
            (ReleasesFirst (identity self.old).strict seat.old id lo result.reply result.begun) }
        ensures left { WhereKnown (domain self.old) (domain self.new) (Leaves id result.left) }
        ensures seat { MovesHeard result.reply seat.old.held seat.new.held }
        ensures rest { BeginsAtSeat result.begun seat.old seat.new }
        ensures heard { IsUnmapHeard lo result.reply }
        ensures queued { MatchOption result.reply ⊥ (λ r. result.queued ≡ queued_by r) }
        ensures begun { IsReleaseBegin result.reply result.begun }
        ensures full { result.begun ≡ None → result.reply ≢ Some (Reply.Refused Refusal.RingFull) }
        ensures strict { result.begun ≡ None
            → QueuedNone (identity self.old).strict result.reply };

    /// The hold of a release after a ring that was full: the flush ends, as `ok` says, and the
    /// unmap is tried again; where it queued a range in a strict domain, a second flush begins.
    /// `ok` is what a sink answered for the first one.
    fn release_again(
        &mut self,
        seat: &mut Seat<B>,
        id: ClientId,
        lo: u64,
        no: u64,
        ok: bool,
    ) -> Heard
        ensures same { identity self.new ≡ identity self.old }
        ensures log { RecordsCall (domain self.old) (domain self.new) (log self.old) (log self.new)
            (λ s t. ReleaseAgain (identity self.old).strict (Step.Unmap seat.old.worker id lo)
            seat.old.held no ok result.reply result.begun) }
        ensures domain { WhereKnown (domain self.old) (domain self.new)
            (ReleasesAgain
            (identity self.old).strict seat.old id lo no ok result.reply result.begun) }
        ensures left { WhereKnown (domain self.old) (domain self.new) (Leaves id result.left) }
        ensures seat { MovesHeard result.reply seat.old.held seat.new.held }
        ensures ended { WhereKnown (domain self.old) (domain self.new)
            (RaisesByEnd seat.old.tally.good seat.new.tally.good no ok) }
        ensures place { EndsAtSeat no ok result.begun seat.old seat.new }
        ensures heard { IsUnmapHeard lo result.reply }
        ensures queued { MatchOption result.reply ⊥ (λ r. result.queued ≡ queued_by r) }
        ensures begun { IsSecondBegin result.reply result.begun }
        ensures strict { result.begun ≡ None
            → QueuedNone (identity self.old).strict result.reply };

    /// The last hold of a release, after a range that was queued: the flush ends, as `ok` says, and
    /// the worker's ring is drained. Whether the finish count is at least the flush's number then.
    /// `ok` is what a sink answered for this flush.
    fn release_last(&mut self, seat: &mut Seat<B>, no: u64, ok: bool) -> bool
        ensures same { identity self.new ≡ identity self.old }
        ensures log { RecordsCall (domain self.old) (domain self.new) (log self.old) (log self.new)
            (λ s t. ReleaseLast seat.old.worker no ok t.flushes.finish result) }
        ensures domain { WhereKnown (domain self.old) (domain self.new)
            (ReleasesLast seat.old no ok result) }
        ensures held { seat.new.held ≡ seat.old.held }
        ensures ended { WhereKnown (domain self.old) (domain self.new)
            (RaisesByEnd seat.old.tally.good seat.new.tally.good no ok) }
        ensures place { EndsAtSeat no ok None seat.old seat.new };

    /// Drains every ring, 0 first, into the magazines of worker `by`, and gives how many entries
    /// that frees. Refused by `NoWorker`, where the domain has no such worker; then nothing has
    /// changed. Worker 0 is there in every domain, and so is that of each seat.
    fn drain_all(&mut self, by: u64) -> Result<u64, Refusal>
        ensures same { identity self.new ≡ identity self.old }
        ensures log { RecordsCall (domain self.old) (domain self.new) (log self.old) (log self.new)
            (λ s t. DrainAll s.workers by result) }
        ensures domain { WhereKnown (domain self.old) (domain self.new) (DrainsAll by result) }
        ensures refusal { IfErr result (λ e. e ≡ Refusal.NoWorker) }
        ensures known { IsWorker B.ledgers by → IsOk result }
        ensures first { by ≡ 0 → IsOk result };

    /// Does the asks in order, in one hold, and stops before the first free whose ring is full, in
    /// a strict domain before the first free. It gives how many were done, and appends the answer
    /// to each. Refused by `NoMemory` where there is no room for that; then nothing was done.
    fn batch(
        &mut self,
        seat: &mut Seat<B>,
        id: ClientId,
        asks: &[Ask],
        told: &mut Vec<Told>,
    ) -> Result<usize, Refusal>
        requires { (1 ≤ length asks.now) × (length asks.now ≤ MAX_RUN) }
        ensures same { identity self.new ≡ identity self.old }
        ensures log { RecordsCall (domain self.old) (domain self.new) (log self.old) (log self.new)
            (λ s t. BatchRuns (identity self.old).strict seat.old seat.new.held id asks.now
            told.old.items told.new.items result) }
        ensures domain { WhereKnown (domain self.old) (domain self.new)
            (DoesBatch (identity self.old).strict seat.old seat.new.held id asks.now told.old.items
            told.new.items result) }
        ensures told { IfOk result (λ n. TellsAsks asks.now told.old.items told.new.items n
            seat.old.held
            seat.new.held) }
        ensures memory { IfErr result (λ e. (e ≡ Refusal.NoMemory)
            × (told.new.items ≡ told.old.items)
            × (seat.new ≡ seat.old)) }
        ensures rest { MovesSharesAlone seat.old seat.new };

    /// Appends the holdings of the seat's client, at most 4,096, rising by first frame. Refused by
    /// `NoClient` and `NoMemory`; then nothing is appended. With room for 4,096 more it takes no
    /// memory.
    fn holdings(&self, seat: &Seat<B>, id: ClientId, ranges: &mut Vec<Range>) -> Result<(), Refusal>
        ensures domain { IfSome (domain self.now)
            (ReadsHoldings seat.now.worker id ranges.old.items ranges.new.items result) }
        ensures ok { IfOk result (λ u. (more : List Frames)
            × (ranges.new.items ≡ ranges.old.items ++ more) × Rises 0 more) }
        ensures most { length ranges.new.items ≤ length ranges.old.items + MAX_HOLDINGS }
        ensures room { vec_len ranges.old + MAX_HOLDINGS ≤ vec_capacity ranges.old
            → result ≢ Err Refusal.NoMemory }
        ensures capacity { vec_capacity ranges.old ≤ vec_capacity ranges.new }
        ensures err { IfErr result (λ e. ((e ≡ Refusal.NoClient) ⊎ (e ≡ Refusal.NoMemory))
            × (ranges.new.items ≡ ranges.old.items)) };

    /// The count, frames and sum of first frames of all holdings.
    fn totals(&self) -> Totals
        ensures { IfSome (domain self.now) (λ s. result ≡ totals s.clients) };

    /// The frames of each place, and the counts of the flushes.
    fn stat(&self) -> Stat
        ensures { IfSome (domain self.now) (λ s. result ≡ stat_of s) };
}
