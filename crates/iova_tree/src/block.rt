//! Ranges that rise apart, side by side in a block: a leaf of the tree.
ghost use Rattle.std.specs.Prelude.{max, take, drop, ◌≡◌, ◌+◌, ◌<◌, ◌≤◌, ◌-◌, [], ◌∷◌, ◌++◌, length, true, false, insert, remove, Some, None, IfSome, IfNone, is_ok, if◌then◌else◌};
ghost use Rattle.iova_tree.specs.Spans.{Span as Seen, first_lo, end_after, room_after, room_between, with_span, has_frame, is_taken_between, IsRisingFrom, Holds, StandsHere};
ghost use Rattle.std.specs.List.{list_any};
ghost use Rattle.iova_tree.specs.Fit.{IsWanted, highest_after, taken};

use crate::node::Node;
use crate::room::{bound_with, room_above, room_of, room_with};
use crate::search::{FoundPlace, Hint, Wanted, place_between};
use crate::span::Span;
use std::alloc::{AllocError, Global};
use std::marker::Model;

/// The ranges of a block that is full.
pub const BLOCK: usize = 24;

/// Ranges that rise apart.
#[derive(Drop)]
pub struct Block {
    spans: Vec<Span>,
    // where the next search begins
    hint: Hint,
}

impl Model for Block {
    ghost use Rattle.std.specs.Prelude.{List};
    ghost use Rattle.iova_tree.specs.Spans.{Span as Seen, IsHinted};

    ghost Value = { List Seen };

    ghost view = { λ b. b.spans.items };

    ghost invariant = { λ b. IsHinted b.hint b.spans.items };
}

impl Node for Block {
    ghost spans = { λ b. b };

    fn single(alloc: Global, span: Span) -> Result<Self, AllocError> {
        let mut spans = Vec::with_capacity(alloc, BLOCK)?;
        let Ok(()) = spans.push(span) else {
            unreachable!()
        };
        Ok(Block {
            spans,
            hint: Hint::none(),
        })
    }

    #[inline]
    fn is_full(&self) -> bool {
        self.spans.len() >= BLOCK
    }

    #[inline]
    fn is_empty(&self) -> bool {
        self.spans.is_empty()
    }

    #[inline]
    fn first(&self) -> u64 {
        self.spans[0].lo()
    }

    #[inline]
    fn end(&self) -> u64 {
        let spans = self.spans.as_slice();
        spans[spans.len() - 1].end()
    }

    fn room(&self, most: u32) -> u32 {
        room_among(&self.spans, most)
    }

    fn highest(&self, from: u64, wanted: &Wanted) -> Option<u64> {
        if self.spans.is_empty() {
            return None;
        }
        let hint = self.hint.start(self.spans.len(), wanted.size);
        let (found, _) = highest_of(&self.spans, hint, from, wanted);
        found
    }

    fn take(&mut self, from: u64, wanted: &Wanted, room: &mut u32) -> FoundPlace {
        if self.spans.is_empty() {
            return FoundPlace::Nowhere;
        }
        let start = self.hint.start(self.spans.len(), wanted.size);
        let (found, hint) = highest_of(&self.spans, start, from, wanted);
        self.hint = hint;
        let Some(lo) = found else {
            *room = room_of_all(&self.spans, from, 0, *room);
            return FoundPlace::Nowhere;
        };
        if self.is_full() {
            return FoundPlace::At(lo);
        }
        let span = Span::new(lo, lo + wanted.size, false);
        let Ok(()) = put_in(&mut self.spans, hint.at, span) else {
            return FoundPlace::At(lo);
        };
        self.hint = hint_once_taken(&self.spans, hint);
        *room = room_once_taken(&self.spans, from, self.hint, *room);
        FoundPlace::Taken(lo)
    }

    fn split(&mut self, alloc: Global, lo: u64) -> Result<Option<Self>, AllocError> {
        let keep = cut_at(&self.spans, lo);
        if keep == 0 {
            return Ok(None);
        }
        let mut high = Vec::with_capacity(alloc, BLOCK)?;
        high.extend_from_slice(&self.spans[keep..])?;
        self.spans.truncate(keep);
        self.hint = Hint::none();
        Ok(Some(Block {
            spans: high,
            hint: Hint::none(),
        }))
    }

    fn insert(&mut self, _alloc: Global, span: Span, room: &mut u32) -> Result<(), AllocError> {
        let at = place_of(&self.spans, span.lo());
        let is_most = gap_below(&self.spans, span.lo(), at) >= *room as u64;
        let known = room_with_one(&self.spans, at, span, *room);
        put_in(&mut self.spans, at, span)?;
        self.hint = Hint::none();
        *room = room_among_or(&self.spans, is_most, known);
        Ok(())
    }

    fn remove(&mut self, lo: u64, room: &mut u32) -> Span {
        let at = place_held(&self.spans, self.hint, lo);
        *room = room_without(&self.spans, at, *room);
        self.hint = self.hint.without(at);
        self.spans.remove(at)
    }

    fn replace(&mut self, lo: u64, span: Span) {
        let at = place_of(&self.spans, lo);
        self.spans[at] = span;
        self.hint = Hint::none();
    }

    fn covers(&self, frame: u64) -> bool {
        covers_any(&self.spans, frame)
    }

    fn meets_inserted(&self, lo: u64, end: u64) -> bool {
        meets_any(&self.spans, lo, end)
    }
}

// How many of the ranges begin below `lo`.
#[inline]
fn place_of(spans: &[Span], lo: u64) -> usize
    requires { IsRisingFrom 0 spans.now }
    ensures within { result ≤ length spans.now }
    ensures comes_in { (x : Seen) → x.lo ≡ lo → IsRisingFrom 0 (with_span x spans.now)
        → insert spans.now result x ≡ with_span x spans.now }
    ensures stands { Holds lo spans.now → StandsHere lo spans.now result }
{
    spans.partition_point(|span| span.lo() < lo)
}

// Puts a range in at this place, and those from there on one place up. Where there is room it takes
// no memory.
#[inline]
fn put_in(spans: &mut Vec<Span>, at: usize, span: Span) -> Result<(), AllocError>
    requires within { at ≤ length spans.old.items }
    ensures items { spans.new.items ≡ (if is_ok result then insert spans.old.items at span
        else spans.old.items) }
{
    let count = spans.len();
    let Ok(()) = spans.push(span) else {
        return Err(AllocError);
    };
    spans.copy_within(at..count, at + 1);
    spans[at] = span;
    Ok(())
}

// Where the range that begins at `lo` stands. The place below the hint's is a guess: ranges go in
// the order in which they came, and so each lies below the one that went before it.
#[inline]
fn place_held(spans: &[Span], hint: Hint, lo: u64) -> usize
    requires rising { IsRisingFrom 0 spans.now }
    requires held { Holds lo spans.now }
    ensures { StandsHere lo spans.now result }
{
    if hint.at > 0 && hint.at <= spans.len() {
        if spans[hint.at - 1].lo() == lo {
            return hint.at - 1;
        }
    }
    place_of(spans, lo)
}

// A bound for the room between two neighbours once `span` comes in at this place: two gaps that lie
// in one have no more room.
#[inline]
fn room_with_one(spans: &[Span], at: usize, span: Span, known: u32) -> u32
    requires within { at ≤ length spans.now }
    requires known { room_between spans.now ≤ known }
    requires rising { IsRisingFrom 0 spans.now }
    requires free { IsRisingFrom 0 (insert spans.now at span) }
    ensures room { room_between (insert spans.now at span) ≤ result }
    ensures known { known ≤ result }
{
    if spans.is_empty() {
        return known;
    }
    if at == 0 {
        return room_with(known, span.end(), spans[0].lo());
    }
    if at == spans.len() {
        return room_with(known, spans[at - 1].end(), span.lo());
    }
    known
}

// The most room between two neighbours, which is `most` at most.
fn room_among(spans: &[Span], most: u32) -> u32
    requires rising { IsRisingFrom 0 spans.now }
    requires most { room_between spans.now ≤ most }
    ensures { room_between spans.now ≤ result }
{
    let Some((first, rest)) = spans.split_first() else {
        return 0;
    };
    room_of_all(rest, first.end(), 0, most)
}

// The most room between two neighbours where they are to be looked at, else `known`.
#[inline]
fn room_among_or(spans: &[Span], is_looked_at: bool, known: u32) -> u32
    requires rising { IsRisingFrom 0 spans.now }
    requires known { room_between spans.now ≤ known }
    ensures { room_between spans.now ≤ result }
{
    if !is_looked_at {
        return known;
    }
    room_among(spans, known)
}

// A bound for the room between two neighbours once the range at this place is gone: one gap more
// than before may have more room, where two were.
#[inline]
fn room_without(spans: &[Span], at: usize, known: u32) -> u32
    requires within { at < length spans.now }
    requires known { room_between spans.now ≤ known }
    requires rising { IsRisingFrom 0 spans.now }
    ensures room { room_between (remove spans.now at) ≤ result }
    ensures known { known ≤ result }
{
    if at == 0 || at + 1 == spans.len() {
        return known;
    }
    room_with(known, spans[at - 1].end(), spans[at + 1].lo())
}

// How many of the ranges stay where a block is cut in two, or 0.
#[inline]
fn cut_at(spans: &[Span], lo: u64) -> usize
    ensures { 0 < result → result < length spans.now }
{
    let quarter = spans.len() / 4;
    if quarter == 0 {
        return 0;
    }
    if lo < spans[quarter].lo() {
        return quarter;
    }
    spans.len() / 2
}

// Where the gap below the range at this place begins, `from` being where the lowest does.
#[inline]
fn end_below(spans: &[Span], from: u64, at: usize) -> u64
    requires within { at ≤ length spans.now }
    ensures { result ≡ end_after from (take at spans.now) }
{
    if at == 0 {
        return from;
    }
    spans[at - 1].end()
}

// How many frames lie in the gap below the range at this place, `from` being where the lowest gap
// begins.
#[inline]
fn gap_below(spans: &[Span], from: u64, at: usize) -> u64 {
    if at >= spans.len() {
        return 0;
    }
    spans[at].lo().saturating_sub(end_below(spans, from, at))
}

// What is known once a range has been taken at the hint's place: the gap above it is another one.
#[inline]
fn hint_once_taken(spans: &[Span], hint: Hint) -> Hint
    requires within { hint.at + 1 < length spans.now }
    requires rising { IsRisingFrom 0 spans.now }
    requires hinted { room_between (drop (hint.at + 1) spans.now) ≤ hint.above }
    ensures at { result.at ≡ hint.at }
    ensures hinted { room_between (drop hint.at spans.now) ≤ result.above }
{
    Hint {
        at: hint.at,
        above: bound_with(hint.above, spans[hint.at].end(), spans[hint.at + 1].lo()),
    }
}

// The most room in a gap below one of these and above `from` once a range has been taken at the
// hint's place, or what was `known`, where another gap may have as much. The gaps above the hint
// are looked at only where they may have more than the one at its place.
#[inline]
fn room_once_taken(spans: &[Span], from: u64, hint: Hint, known: u32) -> u32
    requires some { 1 ≤ from }
    requires within { hint.at + 1 < length spans.now }
    requires rising { IsRisingFrom from spans.now }
    requires hinted { room_between (drop hint.at spans.now) ≤ hint.above }
    requires known { room_after from spans.now ≤ known }
    ensures { room_after from spans.now ≤ result }
{
    let end = end_below(spans, from, hint.at);
    let frames = spans[hint.at + 1].lo().saturating_sub(end);
    if frames < known as u64 {
        return known;
    }
    let left = room_of(end, spans[hint.at].lo());
    if left < hint.above {
        return room_of_all(spans, from, left, known);
    }
    room_of_all(&spans[..hint.at], from, left, known)
}

// The highest place in a gap below one of these and above `from`, and where it lies: above so many
// of them. Nothing fits above the hint.
#[inline]
fn highest_of(spans: &[Span], hint: Hint, from: u64, wanted: &Wanted) -> (Option<u64>, Hint)
    requires within { hint.at < length spans.now }
    requires hinted { room_between (drop hint.at spans.now) ≤ hint.above }
    requires less { hint.above < wanted.now.size }
    requires wanted { IsWanted wanted.now }
    requires rising { IsRisingFrom from spans.now }
    ensures found { highest_after wanted.now from spans.now ≡ result.0 }
    ensures within { result.1.at < length spans.now }
    ensures hinted { room_between (drop result.1.at spans.now) ≤ result.1.above }
    ensures place { IfSome result.0 (λ lo. insert spans.now result.1.at (taken wanted.now lo)
        ≡ with_span (taken wanted.now lo) spans.now) }
{
    let mut at = hint.at;
    let mut above = hint.above;
    while at > 0 {
        let end = spans[at - 1].end();
        let lo = spans[at].lo();
        if let Some(place) = place_between(end, lo, wanted) {
            return (Some(place), Hint { at, above });
        }
        above = bound_with(above, end, lo);
        at -= 1;
    }
    let found = place_between(from, spans[0].lo(), wanted);
    (found, Hint { at: 0, above })
}

// The most room in a gap below one of these and above `from`, which is `most` at most, or `least`
// where that is more: nothing is looked at behind what is as much as `most`.
fn room_of_all(spans: &[Span], from: u64, least: u32, most: u32) -> u32
    requires some { 1 ≤ from }
    requires rising { IsRisingFrom from spans.now }
    requires most { room_after from spans.now ≤ most }
    ensures { result ≡ max least (room_after from spans.now) }
{
    if least >= most {
        return least;
    }
    let mut room = least;
    let mut end = from;
    for span in spans {
        if let Some(more) = room_above(room, end, span.lo()) {
            if more == most {
                return more;
            }
            room = more;
        }
        end = span.end();
    }
    room
}

// Whether one of these has the frame.
fn covers_any(spans: &[Span], frame: u64) -> bool
    ensures { result ≡ list_any (has_frame frame) spans.now }
{
    spans.iter().any(|span| span.has(frame))
}

// Whether one of these that are no windows has a frame from `lo` on, below `end`.
fn meets_any(spans: &[Span], lo: u64, end: u64) -> bool
    ensures { result ≡ list_any (is_taken_between lo end) spans.now }
{
    spans.iter().any(|span| span.is_taken(lo, end))
}
