//! The ranges of a tree.
ghost use Rattle.std.specs.Prelude.{◌≡◌, ◌-◌, ◌<◌, ◌≤◌, [], OnOk, OnErr};
ghost use Rattle.std.specs.List.{list_any};
ghost use Rattle.iova_range.specs.Frames.{meets};
ghost use Rattle.iova_model.specs.Fit.{is_covered};
ghost use Rattle.iova_tree.specs.Spans.{all_of, inserted_of, end_after, room_after, with_span, with_replaced, IsRisingFrom, Holds};
ghost use Rattle.iova_tree.specs.Fit.{IsWanted, IsFound, taken, highest_free};

use crate::block::Block;
use crate::branch::Branch;
use crate::node::Node;
use crate::room::{MOST_ROOM, room_with};
use crate::search::{FoundPlace, Wanted, place_in};
use crate::span::Span;
use std::alloc::{AllocError, Global};
use std::marker::Model;

/// Ranges that rise apart, in a tree whose height is its type: blocks, which lie in branches, which
/// lie in the root, and that has no limit.
#[derive(Drop)]
pub struct Ranges {
    root: Branch<Branch<Block>>,
    // no greater size fits aligned between two neighbours
    room: u32,
}

impl Model for Ranges {
    ghost use Rattle.std.specs.Prelude.{◌≤◌, List};
    ghost use Rattle.iova_tree.specs.Spans.{Span, room_between};

    ghost Value = { List Span };

    ghost view = { λ r. r.root };

    ghost invariant = { λ r. room_between r.root ≤ r.room };
}

impl Ranges {
    /// No range.
    pub fn new(alloc: Global) -> Self
        ensures { result ≡ [] }
    {
        Ranges {
            root: Branch::new(alloc),
            room: 0,
        }
    }

    // Where the highest range ends, or `start`.
    #[inline]
    fn end_or(&self, start: u64) -> u64
        ensures { result ≡ end_after start self.now }
    {
        if self.root.is_empty() {
            return start;
        }
        self.root.end()
    }

    // A bound for the room in a gap below one of the ranges and above `start`.
    #[inline]
    fn room_from(&self, start: u64) -> u32
        requires some { 1 ≤ start }
        requires rising { IsRisingFrom start self.now }
        ensures { room_after start self.now ≤ result }
    {
        if self.root.is_empty() {
            return self.room;
        }
        room_with(self.room, start, self.root.first())
    }

    /// Lets a range in, whose frames are free. It takes memory where a block is full; where that is
    /// refused nothing has changed.
    #[inline]
    pub fn insert(&mut self, alloc: Global, span: Span) -> Result<(), AllocError>
        requires free { IsRisingFrom 0 (with_span span self.old) }
        ensures ok { OnOk result (self.new ≡ with_span span self.old) }
        ensures err { OnErr result (self.new ≡ self.old) }
    {
        self.root.insert(alloc, span, &mut self.room)
    }

    /// Takes out the range that begins at `lo`. It takes no memory.
    #[inline]
    pub fn remove(&mut self, lo: u64) -> Span
        requires held { Holds lo self.old }
        requires rising { IsRisingFrom 0 self.old }
        ensures begins { result.lo ≡ lo }
        ensures taken { self.old ≡ with_span result self.new }
    {
        self.root.remove(lo, &mut self.room)
    }

    /// Puts a range in the place of the one that begins at `lo`. It takes no memory.
    pub fn replace(&mut self, lo: u64, span: Span)
        requires held { Holds lo self.old }
        requires rising { IsRisingFrom 0 self.old }
        requires free { IsRisingFrom 0 (with_replaced lo span self.old) }
        ensures { self.new ≡ with_replaced lo span self.old }
    {
        self.root.replace(lo, span);
        self.room = MOST_ROOM;
    }

    /// The highest place from `start` on: above all ranges, or in a gap below one of them.
    pub fn highest(&self, start: u64, wanted: &Wanted) -> Option<u64>
        requires wanted { IsWanted wanted.now }
        requires rising { IsRisingFrom start self.now }
        ensures { result ≡ highest_free wanted.now start self.now }
    {
        if let Some(at) = place_in(self.end_or(start), wanted.cap, wanted) {
            return Some(at);
        }
        self.root.highest(start, wanted)
    }

    /// Takes the highest place from `start` on, where it lies below a range whose block has room
    /// for one more.
    pub fn take_highest(&mut self, start: u64, wanted: &Wanted) -> FoundPlace
        requires wanted { IsWanted wanted.now }
        requires some { 1 ≤ start }
        requires rising { IsRisingFrom start self.old }
        ensures { IsFound (highest_free wanted.now start self.old) (self.new ≡ self.old)
            (λ lo. self.new ≡ with_span (taken wanted.now lo) self.old) result }
    {
        if let Some(lo) = place_in(self.end_or(start), wanted.cap, wanted) {
            return FoundPlace::At(lo);
        }
        self.room = self.room_from(start);
        if (self.room as u64) < wanted.size {
            return FoundPlace::Nowhere;
        }
        self.root.take(start, wanted, &mut self.room)
    }

    /// Whether one of the ranges has the frame.
    pub fn covers(&self, frame: u64) -> bool
        requires rising { IsRisingFrom 0 self.now }
        ensures { result ≡ is_covered frame (all_of self.now) }
    {
        self.root.covers(frame)
    }

    /// Whether one of the ranges that are no windows has a frame in common with those from `lo` on,
    /// below `end`.
    pub fn meets_inserted(&self, lo: u64, end: u64) -> bool
        requires some { lo < end }
        requires rising { IsRisingFrom 0 self.now }
        ensures { result ≡ list_any (meets (record { lo = lo; len = end - lo }))
            (inserted_of self.now) }
    {
        self.root.meets_inserted(lo, end)
    }
}
