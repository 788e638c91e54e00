//! The stages of all frames, as marks in an ordered map: a step costs the logarithm of how many
//! there are. Those that say stale are in an index, so that a flush looks at these alone; and so
//! are those that say free, so that a search for a free frame passes no range that is mapped.
ghost use Rattle.iova_check.specs.StageIndex.{IsIndexed, HasFree};

use crate::stage::{Change, Stage};
use iova_range::range::Range;
use std::alloc::{AllocError, Global};
use std::collections::{BTreeMap, BTreeSet};

/// The stage of each frame. A mark at a frame says the stage of it and of those after it, up to
/// the next mark; before the first mark all are free.
#[derive(Drop)]
pub struct Stages {
    marks: BTreeMap<u64, Stage>,
    /// The marks that say stale are at these frames; where memory was refused there may be more of
    /// them.
    stale: BTreeSet<u64>,
    /// The frames of the marks that say free.
    free: BTreeSet<u64>,
    ghost indexed: { IsIndexed marks stale },
    ghost freed: { HasFree marks free },
}

impl Stages {
    ghost use Rattle.std.specs.Prelude.{◌≡◌, ◌≢◌, ℕ, ◌-◌, ◌≤◌, ◌<◌, ◌^◌, Some, None, IsSome, OnOk, if◌then◌else◌, false};
    ghost use Rattle.std.specs.Ordering.{nat_cmp};
    ghost use Rattle.std.specs.BTreeMap.{get};
    ghost use Rattle.iova_range.specs.Frames.{covers};
    ghost use Rattle.iova_check.specs.declared.stage.Stage.TheVariants.{Free as IsFree, Mapped as IsMapped, Stale as IsStale};
    ghost use Rattle.iova_check.specs.History.{with_change};
    ghost use Rattle.iova_check.specs.Marks.{stage_at, shown_before, IsBare};
    ghost use Rattle.iova_check.specs.StageIndex.{is_stale, is_free};

    /// Each frame is free.
    pub fn new(alloc: Global) -> Stages
        ensures { (f : ℕ) → stage_at result f ≡ IsFree }
    {
        Stages {
            marks: BTreeMap::new(alloc),
            stale: BTreeSet::new(alloc),
            free: BTreeSet::new(alloc),
        }
    }

    /// The stage of this frame.
    pub fn stage(&self, frame: u64) -> Stage
        ensures { result ≡ stage_at self.now frame }
    {
        match self.marks.range(..=frame).next_back() {
            Some((_, stage)) => *stage,
            None => Stage::Free,
        }
    }

    /// A frame above `frame` and at most `to`, up to which the stage is that of `frame`.
    pub fn end(&self, frame: u64, to: u64) -> u64
        requires { frame < to }
        ensures after { frame < result }
        ensures within { result ≤ to }
        ensures bare { IsBare self.now frame result }
        ensures same { (f : ℕ) → frame ≤ f → f < result → stage_at self.now f
            ≡ stage_at self.now frame }
    {
        self.next_mark(frame, to)
    }

    /// The first mark above `frame` and below `to`, or `to`.
    fn next_mark(&self, frame: u64, to: u64) -> u64
        requires { frame < to }
        ensures after { frame < result }
        ensures within { result ≤ to }
        ensures bare { IsBare self.now frame result }
    {
        match self.marks.range(frame + 1..).next() {
            Some((mark, _)) if *mark < to => *mark,
            _ => to,
        }
    }

    /// Changes the stages of these frames below frame 2^64 - 1.
    pub fn change_range(&mut self, range: Range, change: Change) -> Result<(), AllocError>
        ensures below { OnOk result ((f : ℕ) → f < 2 ^ 64 - 1
            → stage_at self.new f ≡ (if covers f range then with_change change (stage_at self.old f)
            else stage_at self.old f)) }
        ensures above { OnOk result ((f : ℕ) → 2 ^ 64 - 1 ≤ f
            → stage_at self.new f ≡ stage_at self.old f) }
    {
        let to = range.lo().saturating_add(range.len());
        self.change(range.lo(), to, change)?;
        Ok(())
    }

    /// Changes the stages of the frames from `lo` on and below `to`.
    pub fn change(&mut self, lo: u64, to: u64, change: Change) -> Result<(), AllocError>
        requires { lo ≤ to }
        ensures inside { OnOk result ((f : ℕ) → lo ≤ f → f < to
            → stage_at self.new f ≡ with_change change (stage_at self.old f)) }
        ensures below { OnOk result ((f : ℕ) → f < lo → stage_at self.new f ≡ stage_at self.old f) }
        ensures above { OnOk result ((f : ℕ) → to ≤ f → stage_at self.new f ≡ stage_at self.old f) }
    {
        let mut at = lo;
        while at < to {
            let end = self.end_of_change(at, to, change);
            let before = self.stage(at);
            let stage = change.of(before);
            if stage != before {
                self.put(at, end, stage)?;
            }
            at = end;
        }
        Ok(())
    }

    /// A frame above `frame` and at most `to`. Where the change changes `frame`, the stage up to
    /// there is one; else it changes none up to there: a flush leaves all frames up to the next one
    /// that is stale.
    fn end_of_change(&self, frame: u64, to: u64, change: Change) -> u64
        requires { frame < to }
        ensures after { frame < result }
        ensures within { result ≤ to }
        ensures bare { with_change change (stage_at self.now frame) ≢ stage_at self.now frame
            → IsBare self.now frame result }
        ensures kept { with_change change (stage_at self.now frame) ≡ stage_at self.now frame
            → (f : ℕ) → frame ≤ f → f < result
            → with_change change (stage_at self.now f) ≡ stage_at self.now f }
    {
        match change {
            Change::Flushed(_) if !self.stage(frame).is_stale() => self.next_stale(frame, to),
            _ => self.end(frame, to),
        }
    }

    /// A frame above `frame` and at most `to`: where `frame` isn't stale, none up to there is.
    pub fn next_stale(&self, frame: u64, to: u64) -> u64
        requires { frame < to }
        ensures after { frame < result }
        ensures within { result ≤ to }
        ensures none { is_stale (stage_at self.now frame) ≡ false → (f : ℕ) → frame ≤ f → f < result
            → is_stale (stage_at self.now f) ≡ false }
    {
        self.next_stale_mark(frame, to)
    }

    /// A frame above `frame` and at most `to`, with no mark between the two that says stale.
    fn next_stale_mark(&self, frame: u64, to: u64) -> u64
        requires { frame < to }
        ensures after { frame < result }
        ensures within { result ≤ to }
        ensures none { (q : ℕ) → frame < q → q < result → (since : ℕ)
            → get nat_cmp self.now.marks q ≢ Some (IsStale since) }
    {
        match self.stale.range(frame + 1..).next() {
            Some(next) if *next < to => *next,
            _ => to,
        }
    }

    /// A frame above `frame` and at most `to`: where `frame` isn't free, none up to there is.
    pub fn next_free(&self, frame: u64, to: u64) -> u64
        requires { frame < to }
        ensures after { frame < result }
        ensures within { result ≤ to }
        ensures none { is_free (stage_at self.now frame) ≡ false → (f : ℕ) → frame ≤ f → f < result
            → is_free (stage_at self.now f) ≡ false }
    {
        self.next_free_mark(frame, to)
    }

    /// A frame above `frame` and at most `to`, with no mark between the two that says free.
    fn next_free_mark(&self, frame: u64, to: u64) -> u64
        requires { frame < to }
        ensures after { frame < result }
        ensures within { result ≤ to }
        ensures none { (q : ℕ) → frame < q → q < result
            → get nat_cmp self.now.marks q ≢ Some IsFree }
    {
        match self.free.range(frame + 1..).next() {
            Some(next) if *next < to => *next,
            _ => to,
        }
    }

    /// Sets the stage of the frames from `at` on and below `end`, which had one.
    fn put(&mut self, at: u64, end: u64, stage: Stage) -> Result<(), AllocError>
        requires some { at < end }
        requires bare { IsBare self.old at end }
        ensures inside { OnOk result ((f : ℕ) → at ≤ f → f < end → stage_at self.new f ≡ stage) }
        ensures below { OnOk result ((f : ℕ) → f < at → stage_at self.new f ≡ stage_at self.old f) }
        ensures above { OnOk result
            ((f : ℕ) → end ≤ f → stage_at self.new f ≡ stage_at self.old f) }
    {
        self.cut(end)?;
        self.mark(at, stage)?;
        self.join(end);
        self.join(at);
        Ok(())
    }

    /// Sets a mark without a change of stages.
    fn cut(&mut self, at: u64) -> Result<(), AllocError>
        ensures same { OnOk result ((f : ℕ) → stage_at self.new f ≡ stage_at self.old f) }
        ensures marked { OnOk result (IsSome (get nat_cmp self.new.marks at)) }
        ensures others { OnOk result ((q : ℕ) → q ≢ at
            → get nat_cmp self.new.marks q ≡ get nat_cmp self.old.marks q) }
    {
        if self.marks.contains_key(&at) {
            return Ok(());
        }
        let stage = self.stage(at);
        self.mark(at, stage)?;
        Ok(())
    }

    /// Sets the stage from a frame on.
    fn mark(&mut self, at: u64, stage: Stage) -> Result<(), AllocError>
        ensures marked { OnOk result (get nat_cmp self.new.marks at ≡ Some stage) }
        ensures others { OnOk result ((q : ℕ) → q ≢ at
            → get nat_cmp self.new.marks q ≡ get nat_cmp self.old.marks q) }
    {
        match stage {
            Stage::Free => self.mark_free(at),
            Stage::Mapped(line) => self.mark_mapped(at, line),
            Stage::Stale(line) => self.mark_stale(at, line),
        }
    }

    /// Sets a mark that says mapped. Such marks stand in no index.
    fn mark_mapped(&mut self, at: u64, line: u64) -> Result<(), AllocError>
        ensures marked { OnOk result (get nat_cmp self.new.marks at ≡ Some (IsMapped line)) }
        ensures others { OnOk result ((q : ℕ) → q ≢ at
            → get nat_cmp self.new.marks q ≡ get nat_cmp self.old.marks q) }
    {
        self.marks.insert(at, Stage::Mapped(line))?;
        let _was_free = self.free.remove(&at);
        let _was_stale = self.stale.remove(&at);
        Ok(())
    }

    /// Sets a mark that says stale. Its index gets it first, since that may be refused memory.
    fn mark_stale(&mut self, at: u64, line: u64) -> Result<(), AllocError>
        ensures marked { OnOk result (get nat_cmp self.new.marks at ≡ Some (IsStale line)) }
        ensures others { OnOk result ((q : ℕ) → q ≢ at
            → get nat_cmp self.new.marks q ≡ get nat_cmp self.old.marks q) }
    {
        self.stale.insert(at)?;
        self.marks.insert(at, Stage::Stale(line))?;
        let _was_free = self.free.remove(&at);
        Ok(())
    }

    /// Sets a mark that says free. Its index gets it first, since that may be refused memory.
    fn mark_free(&mut self, at: u64) -> Result<(), AllocError>
        ensures marked { OnOk result (get nat_cmp self.new.marks at ≡ Some IsFree) }
        ensures others { OnOk result ((q : ℕ) → q ≢ at
            → get nat_cmp self.new.marks q ≡ get nat_cmp self.old.marks q) }
    {
        self.free.insert(at)?;
        self.marks.insert(at, Stage::Free)?;
        let _was_stale = self.stale.remove(&at);
        Ok(())
    }

    /// Takes a mark away that says what the one before it says.
    fn join(&mut self, at: u64)
        ensures { (f : ℕ) → stage_at self.new f ≡ stage_at self.old f }
    {
        if self.stage_before(at) == self.stage(at) {
            let _gone = self.marks.remove(&at);
            let _was_stale = self.stale.remove(&at);
            let _was_free = self.free.remove(&at);
        }
    }

    /// The stage of the frame before this one.
    fn stage_before(&self, at: u64) -> Stage
        ensures { result ≡ shown_before self.now at }
    {
        if at == 0 {
            return Stage::Free;
        }
        self.stage(at - 1)
    }
}
