//! The allocated ranges and the windows of a domain.
ghost use Rattle.std.specs.Prelude.{◌≡◌, ◌+◌, ◌≤◌, ◌<◌, [], length, IfOk, OnOk, OnErr, IsOkUnless, IsTrue, ◌↔◌, IsSome, IfSome, IfNone, Some, None, find, false, true};
ghost use Rattle.std.specs.List.{list_any};
ghost use Rattle.iova_range.specs.Frames.{meets};
ghost use Rattle.iova_model.specs.Fit.{IsBest, best, is_clear};
ghost use Rattle.iova_model.specs.Clients.{insert_rising, remove_at, begins_at};
ghost use Rattle.iova_model.specs.Next.{from_to, union, windows_with};
ghost use Rattle.iova_tree.specs.Space.{Space, ranges_of, IsInside, IsFree, IsSpace, with_window, reserve_refusal, clear_of};

use crate::ranges::Ranges;
use crate::search::{FoundPlace, Wanted};
use crate::span::Span;
use crate::window::{absorb, count_clear, insert_window};
use iova_range::bounds::Bounds;
use iova_range::limits::{MAX_FRAMES, MAX_WINDOWS};
use iova_range::range::Range;
use iova_range::refusal::Refusal;
use iova_range::sizes::align_of;
use std::alloc::Global;
use std::marker::Model;

/// The allocated ranges of a domain.
pub struct Tree {
    alloc: Global,
    bounds: Bounds,
    ranges: Ranges,
    windows: Vec<Range>,
}

/// Drops its parts. The proof stands here, once for all crates above.
impl Drop for Tree {
    fn drop(self) {
        let Tree {
            alloc: _,
            bounds: _,
            ranges: _,
            windows: _,
        } = self;
    }
}

impl Model for Tree {
    ghost use Rattle.iova_tree.specs.Space.{Space, IsTreeKept, space_of};

    ghost Value = { Space };

    ghost view = { λ t. space_of t.bounds t.ranges t.windows.items };

    ghost invariant = { λ t. IsTreeKept t.bounds t.ranges t.windows.items };
}

impl Tree {
    /// A tree with nothing allocated.
    pub fn new(alloc: Global, bounds: Bounds) -> Result<Self, Refusal>
        ensures value { IfOk result (λ t. t
            ≡ record { bounds = bounds; inserted = []; windows = [] }) }
        ensures space { IfOk result IsSpace }
        ensures refused { OnErr result (result ≡ Err Refusal.NoMemory) }
    {
        // for the proof: the bounds are sound
        let _start = bounds.start();
        Ok(Tree {
            alloc,
            bounds,
            ranges: Ranges::new(alloc),
            windows: Vec::new(alloc),
        })
    }

    /// The bounds.
    #[inline]
    pub fn bounds(&self) -> Bounds
        ensures is { result ≡ self.now.bounds }
    {
        self.bounds
    }

    /// The greatest first frame from which `size` frames fit, `size` being 1 to 1,048,576: aligned
    /// to `align_of(size)`, inside the bounds, none above `limit`, and all free. None where nothing
    /// fits. The search enters no part of the tree that lies above the limit or whose bound is below
    /// `size` (own: the kernel walks from where it remembers, Linux 5.15 `drivers/iommu/iova.c`:
    /// `__alloc_and_insert_iova_range`). Unlike `take` it lowers no bound.
    pub fn highest(&self, size: u64, limit: u64) -> Option<u64>
        requires some { 1 ≤ size }
        requires bounded { size ≤ MAX_FRAMES }
        ensures greatest { IsBest self.now.bounds (ranges_of self.now) size limit result }
        ensures computed { result ≡ best self.now.bounds (ranges_of self.now) size limit }
    {
        let wanted = Wanted {
            size,
            align: align_of(size),
            cap: limit.min(self.bounds.last()) + 1,
        };
        self.ranges.highest(self.bounds.start(), &wanted)
    }

    /// Allocates the frames that `highest` finds, and gives them: `highest` and `insert` in one way
    /// down, where a block has room. None where nothing fits; `NoMemory` leaves the tree as it was.
    ///
    /// The search begins where the last one found room, where nothing behind that place has so
    /// much; else at the highest. A bound that is too great costs it one way down, once. That of a
    /// block is the least there is, but where its branch has no block behind it or one of its
    /// windows grew; those of branches may be greater. Beside 100,000 ranges a call is misled for
    /// some 40 us.
    pub fn take(&mut self, size: u64, limit: u64) -> Result<Option<Range>, Refusal>
        requires some { 1 ≤ size }
        requires bounded { size ≤ MAX_FRAMES }
        ensures highest { IfOk result (λ found. IfSome found (λ range. Some range.lo
            ≡ best self.old.bounds (ranges_of self.old) size limit)) }
        ensures size { IfOk result (λ found. IfSome found (λ range. range.len ≡ size)) }
        ensures taken { IfOk result (λ found. IfSome found (λ range. self.new
            ≡ record self.old { inserted = insert_rising range self.old.inserted })) }
        ensures nothing { IfOk result (λ found. IfNone found
            (best self.old.bounds (ranges_of self.old) size limit ≡ None)) }
        ensures left { IfOk result (λ found. IfNone found (self.new ≡ self.old)) }
        ensures refused { OnErr result (result ≡ Err Refusal.NoMemory) }
        ensures unchanged { OnErr result (self.new ≡ self.old) }
        ensures fits { OnErr result
            (IsSome (best self.old.bounds (ranges_of self.old) size limit)) }
        ensures space { IsSpace self.new }
    {
        // for the proof: the last frame is below 2^40
        let last = self.bounds.last();
        let wanted = Wanted {
            size,
            align: align_of(size),
            cap: limit.min(last) + 1,
        };
        match self.ranges.take_highest(self.bounds.start(), &wanted) {
            FoundPlace::Nowhere => Ok(None),
            FoundPlace::Taken(lo) => Ok(Some(Range::new(lo, size))),
            FoundPlace::At(lo) => {
                let range = Range::new(lo, size);
                let Ok(()) = self.insert(range) else {
                    return Err(Refusal::NoMemory);
                };
                Ok(Some(range))
            }
        }
    }

    /// Allocates a range whose frames are free. `NoMemory` leaves the tree as it was.
    pub fn insert(&mut self, range: Range) -> Result<(), Refusal>
        requires inside { IsInside self.old.bounds range }
        requires free { is_clear range (ranges_of self.old) ≡ true }
        ensures ok { OnOk result (self.new
            ≡ record self.old { inserted = insert_rising range self.old.inserted }) }
        ensures err { OnErr result ((result ≡ Err Refusal.NoMemory) × (self.new ≡ self.old)) }
        ensures space { IsSpace self.new }
    {
        // for the proof: the last frame is below 2^40
        let _last = self.bounds.last();
        let span = Span::new(range.lo(), range.hi() + 1, false);
        let Ok(()) = self.ranges.insert(self.alloc, span) else {
            return Err(Refusal::NoMemory);
        };
        Ok(())
    }

    /// Frees the range that was inserted at `lo`, and gives it back. It takes no memory.
    pub fn remove(&mut self, lo: u64) -> Range
        requires { IsSome (find (begins_at lo) self.old.inserted) }
        ensures value { find (begins_at lo) self.old.inserted ≡ Some result }
        ensures rest { self.new ≡ record self.old { inserted = remove_at lo self.old.inserted } }
        ensures space { IsSpace self.new }
    {
        // for the proof: the last frame is below 2^40
        let _last = self.bounds.last();
        self.ranges.remove(lo).range()
    }

    /// Whether the frame is inside the bounds and in no allocated range.
    pub fn is_free(&self, frame: u64) -> bool
        ensures { IsTrue result ↔ IsFree frame self.now }
    {
        if frame < self.bounds.start() || frame > self.bounds.last() {
            return false;
        }
        !self.ranges.covers(frame)
    }

    /// The windows, rising by first frame and with no frame in common, at most 64.
    #[inline]
    pub fn windows(&self) -> &[Range]
        ensures value { result.now ≡ self.now.windows }
        ensures few { length result.now ≤ MAX_WINDOWS }
        ensures space { IsSpace self.now }
    {
        &self.windows
    }

    /// Makes one window of the frames `lo` to `hi`, both inside, and of all windows that have a
    /// frame in common with them, and gives it. Windows that only touch stay apart. A refusal
    /// leaves the tree as it was. The first of these that holds is the answer: `BadWindow` where
    /// `lo` is above `hi` or one of them isn't inside the bounds; `Taken` where one of the frames
    /// is in an inserted range; `WindowsFull` where there would be 65 windows; `NoMemory` where the
    /// window joins none and there is no memory for it (Linux 5.15 `drivers/iommu/iova.c`:
    /// `reserve_iova`; the limit, and that one window of all is left, are our own).
    pub fn reserve(&mut self, lo: u64, hi: u64) -> Result<Range, Refusal>
        ensures refused { IfSome (reserve_refusal self.old lo hi)
            (λ refusal. result ≡ Err refusal) }
        ensures accepted { IfNone (reserve_refusal self.old lo hi)
            (IsOkUnless result Refusal.NoMemory) }
        ensures memory { result ≡ Err Refusal.NoMemory
            → is_clear (from_to lo hi) self.old.windows ≡ true }
        ensures window { IfOk result (λ w. w ≡ union (from_to lo hi) self.old.windows) }
        ensures windows { OnOk result (self.new ≡ with_window self.old (from_to lo hi)) }
        ensures unchanged { OnErr result (self.new ≡ self.old) }
    {
        if lo > hi || lo < self.bounds.start() || hi > self.bounds.last() {
            return Err(Refusal::BadWindow);
        }
        let asked = Range::new(lo, hi - lo + 1);
        if self.ranges.meets_inserted(lo, hi + 1) {
            return Err(Refusal::Taken);
        }
        let apart = count_clear(&self.windows, asked);
        if apart >= MAX_WINDOWS {
            return Err(Refusal::WindowsFull);
        }
        if apart < self.windows.len() {
            return Ok(self.join_windows(asked));
        }
        self.add_window(asked)?;
        Ok(asked)
    }

    // Makes a window of frames that are free. It takes its place in the list before it changes
    // anything.
    fn add_window(&mut self, window: Range) -> Result<(), Refusal>
        requires inside { IsInside self.old.bounds window }
        requires free { is_clear window (ranges_of self.old) ≡ true }
        requires few { length self.old.windows < MAX_WINDOWS }
        ensures ok { OnOk result (self.new
            ≡ record self.old { windows = insert_rising window self.old.windows }) }
        ensures err { OnErr result ((result ≡ Err Refusal.NoMemory) × (self.new ≡ self.old)) }
    {
        // for the proof: the last frame is below 2^40
        let _last = self.bounds.last();
        let Ok(()) = self.windows.reserve(1) else {
            return Err(Refusal::NoMemory);
        };
        let span = Span::new(window.lo(), window.hi() + 1, true);
        let Ok(()) = self.ranges.insert(self.alloc, span) else {
            return Err(Refusal::NoMemory);
        };
        insert_window(&mut self.windows, window);
        Ok(())
    }

    // Makes one window of `asked` and of the windows that have a frame in common with it, and gives
    // it. It takes no memory: the new one takes the place of one of these.
    fn join_windows(&mut self, asked: Range) -> Range
        requires inside { IsInside self.old.bounds asked }
        requires clear { list_any (meets asked) self.old.inserted ≡ false }
        requires few { length (clear_of asked self.old.windows) < MAX_WINDOWS }
        requires joins { length (clear_of asked self.old.windows) < length self.old.windows }
        ensures value { result ≡ union asked self.old.windows }
        ensures windows { self.new ≡ record self.old
            { windows = windows_with asked self.old.windows } }
    {
        // for the proof: the last frame is below 2^40
        let _last = self.bounds.last();
        let (window, kept) = absorb(&mut self.ranges, &mut self.windows, asked);
        let Some(kept) = kept else { unreachable!() };
        insert_window(&mut self.windows, window);
        let span = Span::new(window.lo(), window.hi() + 1, true);
        self.ranges.replace(kept.lo(), span);
        window
    }
}
