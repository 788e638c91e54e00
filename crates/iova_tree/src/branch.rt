//! Nodes side by side in a branch, with links to them.
ghost use Rattle.std.specs.Prelude.{◌≡◌, ◌+◌, ◌-◌, ◌<◌, ◌≤◌, [], ◌∷◌, ◌++◌, ℕ, List, length, take, drop, true, false, max, OnOk, OnErr, IfOk, IfSome, IfNone, vec_len};
ghost use Rattle.std.specs.List.{list_any};
ghost use Rattle.iova_range.specs.Frames.{meets};
ghost use Rattle.iova_model.specs.Fit.{is_covered};
ghost use Rattle.iova_tree.specs.Spans.{Span as Seen, first_lo, end_after, room_after, room_between, with_span, with_replaced, all_of, inserted_of, IsRisingFrom, Holds};
ghost use Rattle.iova_tree.specs.Room.{room as room_in};
ghost use Rattle.iova_tree.specs.Fit.{IsWanted, IsFound, highest_after, taken};
ghost use Rattle.iova_tree.specs.Branches.{spans_below, AreLinked, AreAllBelow, AreAtMost, IsLinked, LeadsTo, AreHinted, KeepBounds, IsSameLink, highest_behind};

use crate::node::Node;
use crate::room::{MOST_ROOM, room_with};
use crate::search::{FoundPlace, Hint, Wanted};
use crate::span::Span;
use iova_range::limits::MAX_FRAMES;
use std::alloc::{AllocError, Global};
use std::marker::Model;

/// The links of a branch that is full.
pub const BRANCH: usize = 64;

/// The way to a node that has a range, and what is known of its ranges: where the lowest begins and
/// the highest ends, and a bound for the sizes that fit aligned between two neighbours. But for a
/// branch's first link, the bound is one for the gap below the lowest too.
#[derive(Drop)]
pub struct Link<N> {
    first: u64,
    end: u64,
    room: u32,
    node: N,
}

/// Nodes whose ranges rise apart, each behind a link.
#[derive(Drop)]
pub struct Branch<N: Node> {
    links: Vec<Link<N>>,
    // where the next search begins
    hint: Hint,
    // the link that led to a range last: a guess
    last: usize,
}

impl<N: Node> Model for Branch<N> {
    ghost use Rattle.std.specs.Prelude.{List};
    ghost use Rattle.iova_tree.specs.Spans.{Span as Seen};
    ghost use Rattle.iova_tree.specs.Branches.{spans_below, AreLinked, AreHinted};

    ghost Value = { List Seen };

    ghost view = { λ b. spans_below N.spans b.links.items };

    ghost invariant = { λ b. AreLinked N.spans b.links.items × AreHinted b.hint b.links.items };
}

impl<N: Node> Branch<N> {
    /// No range.
    pub fn new(alloc: Global) -> Self
        ensures { result ≡ [] }
    {
        Branch {
            links: Vec::new(alloc),
            hint: Hint::none(),
            last: 0,
        }
    }
}

impl<N: Node> Node for Branch<N> {
    ghost spans = { λ b. b };

    fn single(alloc: Global, span: Span) -> Result<Self, AllocError> {
        let mut links = Vec::new(alloc);
        begin(&mut links, alloc, span)?;
        Ok(Branch {
            links,
            hint: Hint::none(),
            last: 0,
        })
    }

    #[inline]
    fn is_full(&self) -> bool {
        self.links.len() >= BRANCH
    }

    #[inline]
    fn is_empty(&self) -> bool {
        self.links.is_empty()
    }

    #[inline]
    fn first(&self) -> u64 {
        self.links[0].first
    }

    #[inline]
    fn end(&self) -> u64 {
        let links = self.links.as_slice();
        links[links.len() - 1].end
    }

    fn room(&self, _most: u32) -> u32 {
        most_room(&self.links, 0)
    }

    fn highest(&self, from: u64, wanted: &Wanted) -> Option<u64> {
        if self.links.is_empty() {
            return None;
        }
        let hint = last_with_room(&self.links, self.hint, wanted.size);
        highest_of(&self.links, hint.at, from, wanted)
    }

    fn take(&mut self, from: u64, wanted: &Wanted, room: &mut u32) -> FoundPlace {
        if self.links.is_empty() {
            return FoundPlace::Nowhere;
        }
        let hint = last_with_room(&self.links, self.hint, wanted.size);
        self.hint = hint;
        take_renewed(&mut self.links, hint.at, from, wanted, room)
    }

    fn split(&mut self, _alloc: Global, lo: u64) -> Result<Option<Self>, AllocError> {
        let keep = cut_at(&self.links, lo);
        if keep == 0 {
            return Ok(None);
        }
        let high = self.links.split_off(keep)?;
        self.hint = Hint::none();
        Ok(Some(Branch {
            links: high,
            hint: Hint::none(),
            last: 0,
        }))
    }

    fn insert(&mut self, alloc: Global, span: Span, room: &mut u32) -> Result<(), AllocError> {
        if self.links.is_empty() {
            self.hint = Hint::none();
            return begin(&mut self.links, alloc, span);
        }
        let at = open_link_to(&mut self.links, &mut self.hint, self.last, alloc, span.lo())?;
        self.last = at;
        self.hint = self.hint.behind(at + 1);
        insert_at(&mut self.links, alloc, at, span, room)
    }

    fn remove(&mut self, lo: u64, room: &mut u32) -> Span {
        let at = link_to(&self.links, self.last, lo);
        self.last = at;
        self.hint = self.hint.behind(at + 1);
        remove_at(&mut self.links, at, lo, room)
    }

    fn replace(&mut self, lo: u64, span: Span) {
        let at = link_to(&self.links, self.last, lo);
        self.hint = Hint::none();
        replace_at(&mut self.links, at, lo, span);
    }

    fn covers(&self, frame: u64) -> bool {
        covers_any(&self.links, self.last, frame)
    }

    fn meets_inserted(&self, lo: u64, end: u64) -> bool {
        meets_any(&self.links, lo, end)
    }
}

impl<N: Node> Link<N> {
    // A link to this node.
    fn to(node: N, room: u32) -> Self
        requires some { 0 < length (N.spans node) }
        requires room { room_between (N.spans node) ≤ room }
        ensures linked { IsLinked (N.spans node) result.first result.end result.room }
        ensures node { result.node ≡ node }
        ensures room { result.room ≡ room }
    {
        Link {
            first: node.first(),
            end: node.end(),
            room,
            node,
        }
    }
}

// Which of the links leads to the frame: the last one whose ranges begin at it or below, or the
// first one. `last` is a guess.
#[inline]
fn link_to<N: Node>(links: &[Link<N>], last: usize, frame: u64) -> usize
    requires some { 0 < length links.now }
    requires linked { AreLinked N.spans links.now }
    requires rising { IsRisingFrom 0 (spans_below N.spans links.now) }
    ensures { LeadsTo N.spans frame links.now result }
{
    if last < links.len() - 1 && links[last].first <= frame && frame < links[last + 1].first {
        return last;
    }
    links
        .partition_point(|link| link.first <= frame)
        .saturating_sub(1)
}

// Links a node of one range, where there is none.
fn begin<N: Node>(links: &mut Vec<Link<N>>, alloc: Global, span: Span) -> Result<(), AllocError>
    requires none { links.old.items ≡ [] }
    ensures linked { AreLinked N.spans links.new.items }
    ensures ok { OnOk result (spans_below N.spans links.new.items ≡ span ∷ []) }
    ensures err { OnErr result (links.new.items ≡ []) }
{
    links.reserve(1)?;
    let link = Link::to(N::single(alloc, span)?, 0);
    let Ok(()) = links.push(link) else {
        unreachable!()
    };
    Ok(())
}

// Which of the links leads to the frame, once its node was split where it was full.
#[inline]
fn open_link_to<N: Node>(
    links: &mut Vec<Link<N>>,
    hint: &mut Hint,
    last: usize,
    alloc: Global,
    frame: u64,
) -> Result<usize, AllocError>
    requires some { 0 < length links.old.items }
    requires hinted { AreHinted hint.old links.old.items }
    requires linked { AreLinked N.spans links.old.items }
    requires rising { IsRisingFrom 0 (spans_below N.spans links.old.items) }
    ensures leads { IfOk result (λ at. LeadsTo N.spans frame links.new.items at) }
    ensures linked { AreLinked N.spans links.new.items }
    ensures same { spans_below N.spans links.new.items ≡ spans_below N.spans links.old.items }
    ensures hinted { AreHinted hint.new links.new.items }
{
    let at = link_to(links, last, frame);
    if !links[at].node.is_full() {
        return Ok(at);
    }
    *hint = Hint::none();
    split_at(links, alloc, at, frame)?;
    Ok(link_to(links, at, frame))
}

// Splits the node behind this link, where it has more than one thing to part.
fn split_at<N: Node>(
    links: &mut Vec<Link<N>>,
    alloc: Global,
    at: usize,
    lo: u64,
) -> Result<(), AllocError>
    requires within { at < length links.old.items }
    requires linked { AreLinked N.spans links.old.items }
    requires rising { IsRisingFrom 0 (spans_below N.spans links.old.items) }
    ensures linked { AreLinked N.spans links.new.items }
    ensures same { spans_below N.spans links.new.items ≡ spans_below N.spans links.old.items }
    ensures some { 0 < length links.new.items }
{
    links.reserve(1)?;
    let Some(high) = split_below(&mut links[at], alloc, lo)? else {
        return Ok(());
    };
    let Ok(()) = links.insert(at + 1, high) else {
        unreachable!()
    };
    let mut room = MOST_ROOM;
    settle(links, at, &mut room);
    Ok(())
}

// Splits the node behind a link: the upper part has a link of its own then. The bounds of both are
// for the room between neighbours alone.
#[inline]
fn split_below<N: Node>(
    link: &mut Link<N>,
    alloc: Global,
    lo: u64,
) -> Result<Option<Link<N>>, AllocError>
    requires linked { IsLinked (N.spans link.old.node) link.old.first link.old.end link.old.room }
    requires rising { IsRisingFrom 0 (N.spans link.old.node) }
    ensures linked { IsLinked (N.spans link.new.node) link.new.first link.new.end link.new.room }
    ensures high { IfOk result (λ found. IfSome found (λ high.
        IsLinked (N.spans high.node) high.first high.end high.room)) }
    ensures cut { IfOk result (λ found. IfSome found (λ high.
        N.spans link.old.node ≡ N.spans link.new.node ++ N.spans high.node)) }
    ensures end { IfOk result (λ found. IfSome found (λ high. high.end ≡ link.old.end)) }
    ensures none { IfOk result (λ found. IfNone found (IsSameLink N.spans link.old link.new)) }
    ensures err { OnErr result (IsSameLink N.spans link.old link.new) }
{
    let Some(node) = link.node.split(alloc, lo)? else {
        return Ok(None);
    };
    let most = link.room;
    link.end = link.node.end();
    link.room = link.node.room(most);
    let room = node.room(most);
    Ok(Some(Link::to(node, room)))
}

// Lets a range in behind this link.
#[inline]
fn insert_at<N: Node>(
    links: &mut [Link<N>],
    alloc: Global,
    at: usize,
    span: Span,
    room: &mut u32,
) -> Result<(), AllocError>
    requires leads { LeadsTo N.spans span.lo links.old at }
    requires linked { AreLinked N.spans links.old }
    requires free { IsRisingFrom 0 (with_span span (spans_below N.spans links.old)) }
    requires room { room_between (spans_below N.spans links.old) ≤ room.old }
    requires rising { IsRisingFrom 0 (spans_below N.spans links.old) }
    ensures linked { AreLinked N.spans links.new }
    ensures known { room.old ≤ room.new }
    ensures ok { OnOk result (spans_below N.spans links.new
        ≡ with_span span (spans_below N.spans links.old)) }
    ensures err { OnErr result (spans_below N.spans links.new
        ≡ spans_below N.spans links.old) }
    ensures room { room_between (spans_below N.spans links.new) ≤ room.new }
    ensures others { drop (at + 2) links.new ≡ drop (at + 2) links.old }
    ensures count { length links.new ≡ length links.old }
{
    let end = links[at].end;
    insert_below(&mut links[at], alloc, span)?;
    settle(links, at, room);
    if links[at].end != end {
        renew_at(links, at, room);
        renew_at(links, at + 1, room);
    }
    Ok(())
}

// Makes the bound of the link at this place the least that is known. A gap beside its ranges has
// become shorter.
fn renew_at<N: Node>(links: &mut [Link<N>], at: usize, room: &mut u32)
    requires linked { AreLinked N.spans links.old }
    requires rising { IsRisingFrom 0 (spans_below N.spans links.old) }
    requires room { room_between (spans_below N.spans links.old) ≤ room.old }
    ensures linked { AreLinked N.spans links.new }
    ensures same { spans_below N.spans links.new ≡ spans_below N.spans links.old }
    ensures low { spans_below N.spans (take (at + 1) links.new)
        ≡ spans_below N.spans (take (at + 1) links.old) }
    ensures room { room_between (spans_below N.spans links.new) ≤ room.new }
    ensures known { room.old ≤ room.new }
    ensures others { drop (at + 1) links.new ≡ drop (at + 1) links.old }
    ensures count { length links.new ≡ length links.old }
{
    if at >= links.len() {
        return;
    }
    renew(&mut links[at]);
    raise_at(links, at, room);
}

// Makes the bound of a link the least that is known for the room between two neighbours.
#[inline]
fn renew<N: Node>(link: &mut Link<N>)
    requires linked { IsLinked (N.spans link.old.node) link.old.first link.old.end link.old.room }
    requires rising { IsRisingFrom 0 (N.spans link.old.node) }
    ensures is { link.new ≡ record link.old { room = link.new.room } }
    ensures linked { IsLinked (N.spans link.new.node) link.new.first link.new.end link.new.room }
{
    link.room = link.node.room(link.room);
}

// Lets a range in behind a link.
#[inline]
fn insert_below<N: Node>(link: &mut Link<N>, alloc: Global, span: Span) -> Result<(), AllocError>
    requires linked { IsLinked (N.spans link.old.node) link.old.first link.old.end link.old.room }
    requires free { IsRisingFrom 0 (with_span span (N.spans link.old.node)) }
    ensures linked { IsLinked (N.spans link.new.node) link.new.first link.new.end link.new.room }
    ensures ok { OnOk result (N.spans link.new.node ≡ with_span span (N.spans link.old.node)) }
    ensures err { OnErr result (N.spans link.new.node ≡ N.spans link.old.node) }
    ensures first { link.new.first ≤ link.old.first }
    ensures end { link.old.end ≤ link.new.end }
    ensures known { OnErr result (link.old.room ≤ link.new.room) }
{
    link.node.insert(alloc, span, &mut link.room)?;
    link.first = link.first.min(span.lo());
    link.end = link.end.max(span.end());
    Ok(())
}

// Takes a range out behind this link, and the link with it where its node has no other.
#[inline]
fn remove_at<N: Node>(links: &mut Vec<Link<N>>, at: usize, lo: u64, room: &mut u32) -> Span
    requires leads { LeadsTo N.spans lo links.old.items at }
    requires linked { AreLinked N.spans links.old.items }
    requires held { Holds lo (spans_below N.spans links.old.items) }
    requires rising { IsRisingFrom 0 (spans_below N.spans links.old.items) }
    requires room { room_between (spans_below N.spans links.old.items) ≤ room.old }
    ensures linked { AreLinked N.spans links.new.items }
    ensures begins { result.lo ≡ lo }
    ensures taken { spans_below N.spans links.old.items
        ≡ with_span result (spans_below N.spans links.new.items) }
    ensures room { room_between (spans_below N.spans links.new.items) ≤ room.new }
    ensures known { room.old ≤ room.new }
    ensures others { KeepBounds (at + 2) links.old.items links.new.items }
{
    let first = links[at].first;
    let end = links[at].end;
    let gone = remove_below(&mut links[at], lo);
    if links[at].node.is_empty() {
        drop(links.remove(at));
        raise_at(links, at, room);
        return gone;
    }
    if links[at].first == first {
        *room = (*room).max(links[at].room);
        if links[at].end != end {
            raise_at(links, at + 1, room);
        }
        return gone;
    }
    settle(links, at, room);
    gone
}

// Makes the bounds of the link at this place, whose ranges have changed, and of the one behind it
// those for the gaps below their ranges too, and `room` no less.
#[inline]
fn settle<N: Node>(links: &mut [Link<N>], at: usize, room: &mut u32)
    requires within { at < length links.old }
    requires low { AreLinked N.spans (take at links.old) }
    requires own { AreLinked N.spans (take 1 (drop at links.old)) }
    requires high { AreLinked N.spans (drop (at + 1) links.old) }
    requires rising { IsRisingFrom 0 (spans_below N.spans links.old) }
    requires room_low { room_between (spans_below N.spans (take at links.old)) ≤ room.old }
    requires room_high { room_between (spans_below N.spans (drop (at + 1) links.old)) ≤ room.old }
    ensures linked { AreLinked N.spans links.new }
    ensures same { spans_below N.spans links.new ≡ spans_below N.spans links.old }
    ensures room { room_between (spans_below N.spans links.new) ≤ room.new }
    ensures known { room.old ≤ room.new }
    ensures others { drop (at + 2) links.new ≡ drop (at + 2) links.old }
    ensures count { length links.new ≡ length links.old }
{
    *room = (*room).max(links[at].room);
    let (low, _) = links.split_at_mut(at + 1);
    raise_at(low, at, room);
    raise_at(links, at + 1, room);
}

// Takes a range out behind a link.
#[inline]
fn remove_below<N: Node>(link: &mut Link<N>, lo: u64) -> Span
    requires linked { IsLinked (N.spans link.old.node) link.old.first link.old.end link.old.room }
    requires held { Holds lo (N.spans link.old.node) }
    requires rising { IsRisingFrom 0 (N.spans link.old.node) }
    ensures linked { 0 < length (N.spans link.new.node)
        → IsLinked (N.spans link.new.node) link.new.first link.new.end link.new.room }
    ensures begins { result.lo ≡ lo }
    ensures taken { N.spans link.old.node ≡ with_span result (N.spans link.new.node) }
    ensures known { link.old.room ≤ link.new.room }
{
    let gone = link.node.remove(lo, &mut link.room);
    if link.node.is_empty() {
        return gone;
    }
    link.first = first_without(&link.node, link.first, gone);
    if gone.end() == link.end {
        link.end = link.node.end();
    }
    gone
}

// Where the lowest range begins once this one is gone.
#[inline]
fn first_without<N: Node>(node: &N, first: u64, gone: Span) -> u64
    requires some { 0 < length (N.spans node.now) }
    requires first { first ≡ first_lo (with_span gone (N.spans node.now)) }
    ensures { result ≡ first_lo (N.spans node.now) }
{
    if gone.lo() == first {
        return node.first();
    }
    first
}

// Makes the bound of the link at this place, where it isn't the first, one for the gap below its
// ranges too, and `room` no less.
#[inline]
fn raise_at<N: Node>(links: &mut [Link<N>], at: usize, room: &mut u32)
    requires low { AreLinked N.spans (take at links.old) }
    requires high { AreLinked N.spans (drop at links.old) }
    requires rising { IsRisingFrom 0 (spans_below N.spans links.old) }
    requires room_low { room_between (spans_below N.spans (take at links.old)) ≤ room.old }
    requires room_high { room_between (spans_below N.spans (drop at links.old)) ≤ room.old }
    ensures linked { AreLinked N.spans links.new }
    ensures same { spans_below N.spans links.new ≡ spans_below N.spans links.old }
    ensures room { room_between (spans_below N.spans links.new) ≤ room.new }
    ensures low { spans_below N.spans (take (at + 1) links.new)
        ≡ spans_below N.spans (take (at + 1) links.old) }
    ensures known { room.old ≤ room.new }
    ensures others { drop (at + 1) links.new ≡ drop (at + 1) links.old }
    ensures count { length links.new ≡ length links.old }
{
    if at == 0 || at >= links.len() {
        return;
    }
    let end = links[at - 1].end;
    raise(&mut links[at], end, room);
}

// Makes the bound of a link one for the gap from `end` on too, and `room` no less.
#[inline]
fn raise<N: Node>(link: &mut Link<N>, end: u64, room: &mut u32)
    requires linked { IsLinked (N.spans link.old.node) link.old.first link.old.end link.old.room }
    requires some { 1 ≤ end }
    requires apart { end ≤ link.old.first }
    ensures is { link.new ≡ record link.old { room = link.new.room } }
    ensures known { link.old.room ≤ link.new.room }
    ensures gap { room_in end link.old.first ≤ link.new.room }
    ensures room { max room.old link.new.room ≤ room.new }
{
    link.room = room_with(link.room, end, link.first);
    *room = (*room).max(link.room);
}

// How many of the links stay where a branch is cut in two, or 0.
#[inline]
fn cut_at<N: Node>(links: &[Link<N>], lo: u64) -> usize
    ensures { 0 < result → result < length links.now }
{
    let quarter = links.len() / 4;
    if quarter == 0 {
        return 0;
    }
    if lo < links[quarter].first {
        return quarter;
    }
    links.len() / 2
}

// Puts a range in the place of the one that begins at `lo` behind this link.
fn replace_at<N: Node>(links: &mut [Link<N>], at: usize, lo: u64, span: Span)
    requires leads { LeadsTo N.spans lo links.old at }
    requires linked { AreLinked N.spans links.old }
    requires held { Holds lo (spans_below N.spans links.old) }
    requires rising { IsRisingFrom 0 (spans_below N.spans links.old) }
    requires free { IsRisingFrom 0 (with_replaced lo span (spans_below N.spans links.old)) }
    ensures linked { AreLinked N.spans links.new }
    ensures replaced { spans_below N.spans links.new
        ≡ with_replaced lo span (spans_below N.spans links.old) }
    ensures count { length links.new ≡ length links.old }
{
    replace_below(&mut links[at], lo, span);
    let mut room = MOST_ROOM;
    settle(links, at, &mut room);
}

// Puts a range in the place of the one that begins at `lo` behind a link.
fn replace_below<N: Node>(link: &mut Link<N>, lo: u64, span: Span)
    requires linked { IsLinked (N.spans link.old.node) link.old.first link.old.end link.old.room }
    requires held { Holds lo (N.spans link.old.node) }
    requires rising { IsRisingFrom 0 (N.spans link.old.node) }
    requires free { IsRisingFrom 0 (with_replaced lo span (N.spans link.old.node)) }
    ensures linked { IsLinked (N.spans link.new.node) link.new.first link.new.end link.new.room }
    ensures replaced { N.spans link.new.node ≡ with_replaced lo span (N.spans link.old.node) }
{
    link.node.replace(lo, span);
    link.first = link.node.first();
    link.end = link.node.end();
    link.room = MOST_ROOM;
}

// The highest place in a gap below one of the ranges and above `from`. Nothing fits behind the link
// at this place.
fn highest_of<N: Node>(links: &[Link<N>], at: usize, from: u64, wanted: &Wanted) -> Option<u64>
    requires within { at < length links.now }
    requires above { AreAllBelow wanted.now.size (drop (at + 1) links.now) }
    requires wanted { IsWanted wanted.now }
    requires linked { AreLinked N.spans links.now }
    requires rising { IsRisingFrom from (spans_below N.spans links.now) }
    ensures { result ≡ highest_after wanted.now from (spans_below N.spans links.now) }
{
    if at == 0 {
        return links[0].node.highest(from, wanted);
    }
    if let Some(lo) = links[at].node.highest(links[at - 1].end, wanted) {
        return Some(lo);
    }
    let low = &links[..at];
    let next = last_with_room(low, Hint::none(), wanted.size);
    highest_of(low, next.at, from, wanted)
}

// Takes the highest place in a gap below one of the ranges and above `from`, where its block has
// room for a range. Where nothing fits, it makes `room` the least bound that is known.
#[inline]
fn take_renewed<N: Node>(
    links: &mut [Link<N>],
    at: usize,
    from: u64,
    wanted: &Wanted,
    room: &mut u32,
) -> FoundPlace
    requires within { at < length links.old }
    requires above { AreAllBelow wanted.now.size (drop (at + 1) links.old) }
    requires wanted { IsWanted wanted.now }
    requires some { 1 ≤ from }
    requires linked { AreLinked N.spans links.old }
    requires rising { IsRisingFrom from (spans_below N.spans links.old) }
    requires room { room_after from (spans_below N.spans links.old) ≤ room.old }
    ensures linked { AreLinked N.spans links.new }
    ensures found { IsFound (highest_after wanted.now from (spans_below N.spans links.old))
        (spans_below N.spans links.new ≡ spans_below N.spans links.old)
        (λ lo. spans_below N.spans links.new
        ≡ with_span (taken wanted.now lo) (spans_below N.spans links.old)) result }
    ensures room { room_after from (spans_below N.spans links.new) ≤ room.new }
    ensures others { drop (at + 1) links.new ≡ drop (at + 1) links.old }
{
    match take_highest(links, at, from, wanted) {
        FoundPlace::Nowhere => {}
        found => return found,
    }
    *room = room_of(links, from);
    FoundPlace::Nowhere
}

// Takes the highest place in a gap below one of the ranges and above `from`, where its block has
// room for a range. Nothing fits behind the link at this place.
#[inline]
fn take_highest<N: Node>(
    links: &mut [Link<N>],
    start: usize,
    from: u64,
    wanted: &Wanted,
) -> FoundPlace
    requires within { start < length links.old }
    requires above { AreAllBelow wanted.now.size (drop (start + 1) links.old) }
    requires wanted { IsWanted wanted.now }
    requires some { 1 ≤ from }
    requires linked { AreLinked N.spans links.old }
    requires rising { IsRisingFrom from (spans_below N.spans links.old) }
    ensures linked { AreLinked N.spans links.new }
    ensures found { IsFound (highest_after wanted.now from (spans_below N.spans links.old))
        (spans_below N.spans links.new ≡ spans_below N.spans links.old)
        (λ lo. spans_below N.spans links.new
        ≡ with_span (taken wanted.now lo) (spans_below N.spans links.old)) result }
    ensures others { drop (start + 1) links.new ≡ drop (start + 1) links.old }
{
    let mut at = start;
    while at > 0 {
        match take_at(links, at, wanted) {
            FoundPlace::Nowhere => {}
            found => return found,
        }
        at -= 1;
    }
    take_lowest(&mut links[0], from, wanted)
}

// Takes the highest place in a gap below one of the ranges behind the link at this place, which
// isn't the first. Where that lies below all of these, the gap above the ranges of the link before
// has become shorter, and its bound is renewed.
#[inline]
fn take_at<N: Node>(links: &mut [Link<N>], at: usize, wanted: &Wanted) -> FoundPlace
    requires some { 0 < at }
    requires within { at < length links.old }
    requires wanted { IsWanted wanted.now }
    requires linked { AreLinked N.spans links.old }
    requires rising { IsRisingFrom 1 (spans_below N.spans links.old) }
    ensures linked { AreLinked N.spans links.new }
    ensures found { IsFound (highest_behind N.spans wanted.now at links.old)
        (spans_below N.spans links.new ≡ spans_below N.spans links.old)
        (λ lo. spans_below N.spans links.new
        ≡ with_span (taken wanted.now lo) (spans_below N.spans links.old)) result }
    ensures low { spans_below N.spans (take at links.new) ≡ spans_below N.spans (take at links.old) }
    ensures others { drop (at + 1) links.new ≡ drop (at + 1) links.old }
    ensures count { length links.new ≡ length links.old }
{
    let end = links[at - 1].end;
    let first = links[at].first;
    let found = take_below(&mut links[at], end, wanted);
    if let FoundPlace::Taken(lo) = found {
        if lo < first {
            let mut room = MOST_ROOM;
            renew_at(links, at - 1, &mut room);
            return found;
        }
    }
    found
}

// Takes the highest place in a gap below one of the ranges behind the first link and above `from`.
// Its bound is one for the gap below its ranges too, then.
#[inline]
fn take_lowest<N: Node>(link: &mut Link<N>, from: u64, wanted: &Wanted) -> FoundPlace
    requires wanted { IsWanted wanted.now }
    requires some { 1 ≤ from }
    requires linked { IsLinked (N.spans link.old.node) link.old.first link.old.end link.old.room }
    requires rising { IsRisingFrom from (N.spans link.old.node) }
    ensures linked { IsLinked (N.spans link.new.node) link.new.first link.new.end link.new.room }
    ensures end { link.new.end ≡ link.old.end }
    ensures found { IsFound (highest_after wanted.now from (N.spans link.old.node))
        (N.spans link.new.node ≡ N.spans link.old.node)
        (λ lo. N.spans link.new.node
        ≡ with_span (taken wanted.now lo) (N.spans link.old.node)) result }
{
    link.room = room_with(link.room, from, link.first);
    take_below(link, from, wanted)
}

// Takes the highest place in a gap below one of the ranges behind a link and above `from`. A link
// below which nothing fits costs no call.
#[inline(always)]
fn take_below<N: Node>(link: &mut Link<N>, from: u64, wanted: &Wanted) -> FoundPlace
    requires wanted { IsWanted wanted.now }
    requires some { 1 ≤ from }
    requires linked { IsLinked (N.spans link.old.node) link.old.first link.old.end link.old.room }
    requires gap { room_in from link.old.first ≤ link.old.room }
    requires rising { IsRisingFrom from (N.spans link.old.node) }
    ensures linked { IsLinked (N.spans link.new.node) link.new.first link.new.end link.new.room }
    ensures gap { room_in from link.new.first ≤ link.new.room }
    ensures end { link.new.end ≡ link.old.end }
    ensures found { IsFound (highest_after wanted.now from (N.spans link.old.node))
        (N.spans link.new.node ≡ N.spans link.old.node)
        (λ lo. N.spans link.new.node
        ≡ with_span (taken wanted.now lo) (N.spans link.old.node)) result }
{
    if (link.room as u64) < wanted.size {
        return FoundPlace::Nowhere;
    }
    if wanted.cap <= from {
        return FoundPlace::Nowhere;
    }
    let found = link.node.take(from, wanted, &mut link.room);
    if let FoundPlace::Taken(lo) = found {
        link.first = link.first.min(lo);
    }
    found
}

// The last link but the first whose bound is so much, or the first, and the greatest bound of those
// behind it.
#[inline]
fn last_with_room<N: Node>(links: &[Link<N>], hint: Hint, size: u64) -> Hint
    requires some { 0 < length links.now }
    requires sized { 1 ≤ size }
    requires bounded { size ≤ MAX_FRAMES }
    requires hinted { AreHinted hint links.now }
    ensures within { result.at < length links.now }
    ensures above { AreAllBelow size (drop (result.at + 1) links.now) }
    ensures hinted { AreHinted result links.now }
{
    let start = hint.start(links.len(), size);
    let mut at = start.at;
    let mut above = start.above;
    while at > 0 {
        let room = links[at].room;
        if room as u64 >= size {
            return Hint { at, above };
        }
        above = above.max(room);
        at -= 1;
    }
    Hint { at: 0, above }
}

// A bound for all room in a gap below one of the ranges and above `from`.
fn room_of<N: Node>(links: &[Link<N>], from: u64) -> u32
    requires some { 1 ≤ from }
    requires linked { AreLinked N.spans links.now }
    requires rising { IsRisingFrom from (spans_below N.spans links.now) }
    ensures { room_after from (spans_below N.spans links.now) ≤ result }
{
    let Some((first, rest)) = links.split_first() else {
        return 0;
    };
    most_room(rest, room_with(first.room, from, first.first))
}

// The greatest of `known` and of the bounds of these links.
fn most_room<N: Node>(links: &[Link<N>], known: u32) -> u32
    ensures known { known ≤ result }
    ensures most { AreAtMost result links.now }
{
    let Some((link, rest)) = links.split_first() else {
        return known;
    };
    most_room(rest, known.max(link.room))
}

// Whether one of the ranges has the frame.
fn covers_any<N: Node>(links: &[Link<N>], last: usize, frame: u64) -> bool
    requires linked { AreLinked N.spans links.now }
    requires rising { IsRisingFrom 0 (spans_below N.spans links.now) }
    ensures { result ≡ is_covered frame (all_of (spans_below N.spans links.now)) }
{
    if links.is_empty() {
        return false;
    }
    let at = link_to(links, last, frame);
    links[at].node.covers(frame)
}

// Whether one of the ranges that are no windows has a frame from `lo` on, below `end`.
fn meets_any<N: Node>(links: &[Link<N>], lo: u64, end: u64) -> bool
    requires some { lo < end }
    requires linked { AreLinked N.spans links.now }
    requires rising { IsRisingFrom 0 (spans_below N.spans links.now) }
    ensures { result ≡ list_any (meets (record { lo = lo; len = end - lo }))
        (inserted_of (spans_below N.spans links.now)) }
{
    let Some((link, rest)) = links.split_first() else {
        return false;
    };
    meets_below(link, lo, end) || meets_any(rest, lo, end)
}

// Whether one of the ranges behind a link that are no windows has a frame from `lo` on, below `end`.
#[inline]
fn meets_below<N: Node>(link: &Link<N>, lo: u64, end: u64) -> bool
    requires some { lo < end }
    requires linked { IsLinked (N.spans link.now.node) link.now.first link.now.end link.now.room }
    requires rising { IsRisingFrom 0 (N.spans link.now.node) }
    ensures { result ≡ list_any (meets (record { lo = lo; len = end - lo }))
        (inserted_of (N.spans link.now.node)) }
{
    if link.end <= lo {
        return false;
    }
    if end <= link.first {
        return false;
    }
    link.node.meets_inserted(lo, end)
}
