//! The holdings of one client, in a block of cells.
ghost use Rattle.std.specs.Prelude.{◌≡◌, ◌≢◌, ◌<◌, ◌≤◌, ◌+◌, ℕ, [], true, false, find, length, take, slice_get, slice_index_or, vec_len, vec_capacity, IsOk, OnOk, OnErr, OnSome, IfSome, IfNone, None, IsTrue, ◌↔◌};
ghost use Rattle.iova_model.specs.Fit.{is_covered};
ghost use Rattle.iova_model.specs.Clients.{begins_at, insert_rising, remove_at};
ghost use Rattle.iova_clients.specs.Chains.{range_at};
ghost use Rattle.iova_clients.specs.Orders.{ordered, BeginApart, AppendsInAnyOrder};

use crate::orders::put_in_order;
use crate::{chains, heaps};
use iova_range::limits::MAX_HOLDINGS;
use iova_range::range::Range;
use std::alloc::{AllocError, Global};
use std::marker::Model;

/// The cells of the first block.
const SOME_CELLS: usize = 8;

/// Ranges in no order, so that one that comes or goes moves one other at most, wherever it lies: it
/// comes behind the others, and the last one takes its place. Each is found through the chain of
/// its first frame; the newest at its place, and it comes into its chain only once it is not what
/// goes next.
///
/// Once the client is closing they are a heap, and no chain leads to them: the lowest is found at
/// once, and goes in as many steps as twice the ranges are halved. Another one is searched for.
#[derive(Drop)]
pub(crate) struct Holdings {
    cells: Vec<Range>,
    links: Vec<u16>,
    count: usize,
    /// How many ranges are in their chains: all, or all but the newest.
    linked: usize,
    closing: bool,
    alloc: Global,
}

impl Model for Holdings {
    ghost use Rattle.std.specs.Prelude.{◌-◌, vec_len};
    ghost use Rattle.iova_clients.specs.Accounts.{HoldingsState};
    ghost use Rattle.iova_clients.specs.Blocks.{IsBlock};
    ghost use Rattle.iova_clients.specs.Orders.{ordered};

    ghost Value = { HoldingsState };

    ghost view = { λ h. record {
      ranges = ordered h.cells.items h.count;
      spare = vec_len h.cells - h.count;
      closing = h.closing;
    } };

    ghost invariant = { λ h. IsBlock h.cells.items h.links.items h.linked h.count h.closing };
}

/// As many cells as that, the new ones behind the others. Where memory is refused nothing has
/// changed.
fn grow(cells: &mut Vec<Range>, count: usize) -> Result<(), AllocError>
    requires { vec_len cells.old ≤ count }
    ensures count { OnOk result (vec_len cells.new ≡ count) }
    ensures kept { take (vec_len cells.old) cells.new.items ≡ cells.old.items }
    ensures unchanged { OnErr result (cells.new.items ≡ cells.old.items) }
{
    cells.reserve_exact(count - cells.len())?;
    cells.resize(count, Range::new(0, 1))
}

/// Where the first range stands that begins there.
fn place_of(cells: &[Range], count: usize, lo: u64) -> Option<usize>
    requires { count ≤ length cells.now }
    ensures within { IfSome result (λ place. place < count) }
    ensures begins { IfSome result (λ place. (range_at cells.now place).lo ≡ lo) }
    ensures none { IfNone result ((k : ℕ) → k < count → (range_at cells.now k).lo ≢ lo) }
{
    for place in 0..count {
        if cells[place].lo() == lo {
            return Some(place);
        }
    }
    None
}

/// Where the lowest range stands.
fn lowest_of(cells: &[Range], count: usize) -> usize
    requires within { count ≤ length cells.now }
    requires some { 1 ≤ count }
    ensures within { result < count }
    ensures lowest { (k : ℕ) → k < count
        → (range_at cells.now result).lo ≤ (range_at cells.now k).lo }
{
    let mut low = 0;
    for place in 1..count {
        if cells[place].lo() < cells[low].lo() {
            low = place;
        }
    }
    low
}

/// Whether one of the ranges has the frame.
fn is_any_covering(ranges: &[Range], frame: u64) -> bool
    ensures { result ≡ is_covered frame ranges.now }
{
    ranges.iter().any(|range| range.covers(frame))
}

/// The first so many of these cells, at the front of the list, in order.
fn copy_in_order(cells: &[Range], count: usize, list: &mut [Range])
    requires within { count ≤ length cells.now }
    requires apart { BeginApart (range_at cells.now) count }
    requires room { count ≤ length list.old }
    ensures front { take count list.new ≡ ordered cells.now count }
    ensures len { length list.new ≡ length list.old }
{
    list[..count].copy_from_slice(&cells[..count]);
    put_in_order(&mut list[..count]);
}

/// The first so many of these cells, behind the others of the list. Refused where memory is; then
/// the list is as it was.
fn append(cells: &[Range], count: usize, list: &mut Vec<Range>) -> Result<(), AllocError>
    requires within { count ≤ length cells.now }
    ensures ok { OnOk result (AppendsInAnyOrder (ordered cells.now count) list.old.items
        list.new.items) }
    ensures unchanged { OnErr result (list.new.items ≡ list.old.items) }
    ensures room { vec_len list.old + count ≤ vec_capacity list.old → IsOk result }
    ensures capacity { vec_capacity list.old ≤ vec_capacity list.new }
{
    list.extend_from_slice(&cells[..count])
}

impl Holdings {
    pub(crate) fn new(alloc: Global) -> Holdings
        ensures { result ≡ record { ranges = []; spare = 0; closing = false } }
    {
        Holdings {
            cells: Vec::new(alloc),
            links: Vec::new(alloc),
            count: 0,
            linked: 0,
            closing: false,
            alloc,
        }
    }

    #[inline(always)]
    pub(crate) fn len(&self) -> usize
        ensures { result ≡ length self.now.ranges }
    {
        self.count
    }

    #[inline(always)]
    pub(crate) fn is_closing(&self) -> bool
        ensures { result ≡ self.now.closing }
    {
        self.closing
    }

    /// Whether one range more fits without memory.
    #[inline(always)]
    pub(crate) fn has_room(&self) -> bool
        ensures yes { IsTrue result → 1 ≤ self.now.spare }
        ensures no { result ≡ false → self.now.spare ≡ 0 }
    {
        self.count < self.cells.len()
    }

    /// Makes room for one range more.
    #[inline(always)]
    pub(crate) fn reserve(&mut self) -> Result<(), AllocError>
        requires few { length self.old.ranges < MAX_HOLDINGS }
        requires live { self.old.closing ≡ false }
        ensures spare { OnOk result (1 ≤ self.new.spare) }
        ensures grows { self.old.spare ≤ self.new.spare }
        ensures ranges { self.new.ranges ≡ self.old.ranges }
        ensures live { self.new.closing ≡ self.old.closing }
        ensures starved { OnErr result (self.old.spare ≡ 0) }
        ensures unchanged { OnErr result (self.new ≡ self.old) }
    {
        if self.has_room() {
            return Ok(());
        }
        self.grow()
    }

    /// Twice the cells, and as many chains.
    #[cold]
    #[inline(never)]
    fn grow(&mut self) -> Result<(), AllocError>
        requires few { length self.old.ranges < MAX_HOLDINGS }
        requires full { self.old.spare ≡ 0 }
        requires live { self.old.closing ≡ false }
        ensures spare { OnOk result (1 ≤ self.new.spare) }
        ensures ranges { self.new.ranges ≡ self.old.ranges }
        ensures live { self.new.closing ≡ self.old.closing }
        ensures unchanged { OnErr result (self.new ≡ self.old) }
    {
        let more = (2 * self.cells.len()).max(SOME_CELLS).min(MAX_HOLDINGS);
        let mut links = Vec::from_elem(self.alloc, 0, 2 * more)?;
        grow(&mut self.cells, more)?;
        chains::link_all(self.cells.as_slice(), links.as_mut_slice(), self.count);
        self.links = links;
        self.linked = self.count;
        Ok(())
    }

    /// The range comes in, for which there is room, and which begins where no other does.
    #[inline(always)]
    pub(crate) fn insert(&mut self, range: Range)
        requires spare { 1 ≤ self.old.spare }
        requires new { find (begins_at range.lo) self.old.ranges ≡ None }
        ensures ranges { self.new.ranges ≡ insert_rising range self.old.ranges }
        ensures spare { self.new.spare + 1 ≡ self.old.spare }
        ensures closing { self.new.closing ≡ self.old.closing }
    {
        if self.closing {
            self.insert_in_heap(range);
        } else {
            self.insert_in_chain(range);
        }
    }

    #[inline(always)]
    fn insert_in_chain(&mut self, range: Range)
        requires live { self.old.closing ≡ false }
        requires spare { 1 ≤ self.old.spare }
        requires new { find (begins_at range.lo) self.old.ranges ≡ None }
        ensures ranges { self.new.ranges ≡ insert_rising range self.old.ranges }
        ensures spare { self.new.spare + 1 ≡ self.old.spare }
        ensures closing { self.new.closing ≡ self.old.closing }
    {
        let place = self.count;
        let links = self.links.as_mut_slice();
        chains::link_newest(self.cells.as_slice(), links, self.linked, place);
        self.linked = place;
        self.cells[place] = range;
        self.count = place + 1;
    }

    #[cold]
    #[inline(never)]
    fn insert_in_heap(&mut self, range: Range)
        requires closing { self.old.closing ≡ true }
        requires spare { 1 ≤ self.old.spare }
        requires new { find (begins_at range.lo) self.old.ranges ≡ None }
        ensures ranges { self.new.ranges ≡ insert_rising range self.old.ranges }
        ensures spare { self.new.spare + 1 ≡ self.old.spare }
        ensures closing { self.new.closing ≡ self.old.closing }
    {
        let count = self.count;
        self.count = count + 1;
        heaps::push(self.cells.as_mut_slice(), count, range);
    }

    /// The range that begins there, while the client isn't closing.
    #[inline(always)]
    pub(crate) fn find(&self, lo: u64) -> Option<Range>
        requires { self.now.closing ≡ false }
        ensures { result ≡ find (begins_at lo) self.now.ranges }
    {
        if self.count == 0 {
            return None;
        }
        let cells = self.cells.as_slice();
        let newest = cells[self.count - 1];
        if newest.lo() == lo {
            return Some(newest);
        }
        let links = self.links.as_slice();
        let entry = chains::entry_of(cells, links, self.linked, lo);
        let link = links[entry] as usize;
        if link == 0 {
            return None;
        }
        Some(cells[link - 1])
    }

    /// The range that begins there goes.
    #[inline(always)]
    pub(crate) fn take(&mut self, lo: u64) -> Option<Range>
        ensures value { result ≡ find (begins_at lo) self.old.ranges }
        ensures ranges { OnSome result (self.new.ranges ≡ remove_at lo self.old.ranges) }
        ensures spare { OnSome result (self.new.spare ≡ self.old.spare + 1) }
        ensures closing { self.new.closing ≡ self.old.closing }
        ensures none { IfNone result (self.new ≡ self.old) }
    {
        if self.closing {
            self.take_from_heap(lo)
        } else {
            self.take_from_chain(lo)
        }
    }

    #[inline(always)]
    fn take_from_chain(&mut self, lo: u64) -> Option<Range>
        requires { self.old.closing ≡ false }
        ensures value { result ≡ find (begins_at lo) self.old.ranges }
        ensures ranges { OnSome result (self.new.ranges ≡ remove_at lo self.old.ranges) }
        ensures spare { OnSome result (self.new.spare ≡ self.old.spare + 1) }
        ensures closing { self.new.closing ≡ self.old.closing }
        ensures none { IfNone result (self.new ≡ self.old) }
    {
        let count = self.count;
        if count == 0 {
            return None;
        }
        let last = count - 1;
        let newest = self.cells[last];
        if self.linked == last && newest.lo() == lo {
            self.count = last;
            return Some(newest);
        }
        let links = self.links.as_mut_slice();
        chains::link_newest(self.cells.as_slice(), links, self.linked, count);
        self.linked = count;
        let entry = chains::entry_of(self.cells.as_slice(), self.links.as_slice(), count, lo);
        let link = self.links[entry] as usize;
        if link == 0 {
            return None;
        }
        let range = self.cells[link - 1];
        self.count = last;
        self.linked = last;
        let links = self.links.as_mut_slice();
        chains::remove(self.cells.as_mut_slice(), links, last, entry);
        Some(range)
    }

    #[cold]
    #[inline(never)]
    fn take_from_heap(&mut self, lo: u64) -> Option<Range>
        requires { self.old.closing ≡ true }
        ensures value { result ≡ find (begins_at lo) self.old.ranges }
        ensures ranges { OnSome result (self.new.ranges ≡ remove_at lo self.old.ranges) }
        ensures spare { OnSome result (self.new.spare ≡ self.old.spare + 1) }
        ensures closing { self.new.closing ≡ self.old.closing }
        ensures none { IfNone result (self.new ≡ self.old) }
    {
        let place = place_of(self.cells.as_slice(), self.count, lo)?;
        let range = self.cells[place];
        let last = self.count - 1;
        self.count = last;
        heaps::remove(self.cells.as_mut_slice(), last, place);
        Some(range)
    }

    /// No range comes from now on, and the lowest goes first. A second call changes nothing.
    pub(crate) fn close(&mut self)
        ensures ranges { self.new.ranges ≡ self.old.ranges }
        ensures spare { self.new.spare ≡ self.old.spare }
        ensures closing { self.new.closing ≡ true }
    {
        if self.closing {
            return;
        }
        heaps::start(self.cells.as_mut_slice(), self.count);
        self.closing = true;
    }

    /// The lowest range. Unless the client is closing this looks at all.
    pub(crate) fn first(&self) -> Option<Range>
        ensures { result ≡ slice_get self.now.ranges 0 }
    {
        if self.count == 0 {
            return None;
        }
        if self.closing {
            return Some(self.cells[0]);
        }
        let place = lowest_of(self.cells.as_slice(), self.count);
        Some(self.cells[place])
    }

    /// Copies the ranges to the front of the list, rising.
    pub(crate) fn copy_to(&self, list: &mut [Range])
        requires { length self.now.ranges ≤ length list.old }
        ensures front { take (length self.now.ranges) list.new ≡ self.now.ranges }
        ensures len { length list.new ≡ length list.old }
    {
        copy_in_order(self.cells.as_slice(), self.count, list);
    }

    /// Appends the ranges, in no order. Refused where memory is; then the list is as it was.
    pub(crate) fn append_to(&self, list: &mut Vec<Range>) -> Result<(), AllocError>
        ensures ok { OnOk result (AppendsInAnyOrder self.now.ranges list.old.items
            list.new.items) }
        ensures unchanged { OnErr result (list.new.items ≡ list.old.items) }
        ensures room { vec_len list.old + length self.now.ranges ≤ vec_capacity list.old
            → IsOk result }
        ensures capacity { vec_capacity list.old ≤ vec_capacity list.new }
    {
        append(self.cells.as_slice(), self.count, list)
    }

    /// Whether a range has the frame. This looks at all.
    pub(crate) fn covers(&self, frame: u64) -> bool
        ensures { result ≡ is_covered frame self.now.ranges }
    {
        is_any_covering(&self.cells.as_slice()[..self.count], frame)
    }
}
