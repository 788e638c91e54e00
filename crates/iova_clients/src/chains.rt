//! Ranges in no order, each of which is found by its first frame.
//!
//! They are the first so many of a block of cells. There are as many chains as cells, and each
//! range is in the chain that its first frame is multiplied to. The links begin with one for each
//! place, which says which place of its chain comes next below it, and behind these stands one for
//! each chain, which says its last place: one more than the place, and 0 where there is none.
ghost use Rattle.std.specs.Prelude.{◌≡◌, ◌<◌, ◌≤◌, ◌+◌, ◌-◌, ◌^◌, length, slice_index, slice_set};
ghost use Rattle.iova_clients.specs.Chains.{chain_of, range_at, AreLinks, IsEntryAt, IsEntryOf, LeadsTo};

use iova_range::range::Range;

/// What a first frame is multiplied by: 2^64 by the golden ratio, so that frames in a row go to
/// chains far apart.
const SPREAD: u64 = 0x9e37_79b9_7f4a_7c15;

/// The chain of a range that begins there.
#[inline(always)]
fn chain_of(last: usize, lo: u64) -> usize
    ensures is { result ≡ chain_of last lo }
    ensures within { result ≤ last }
{
    (lo.wrapping_mul(SPREAD) >> 32) as usize & last
}

/// The entry that leads to the range that begins there, and where none does one that leads nowhere.
#[inline(always)]
pub(crate) fn entry_of(cells: &[Range], links: &[u16], count: usize, lo: u64) -> usize
    requires links { AreLinks cells.now count links.now }
    requires within { count ≤ length cells.now }
    requires some { 1 ≤ length cells.now }
    ensures within { result < length links.now }
    ensures entry { IsEntryOf cells.now count links.now lo result }
{
    let mut entry = cells.len() + chain_of(cells.len() - 1, lo);
    let mut link = links[entry] as usize;
    while link > 0 && cells[link - 1].lo() != lo {
        entry = link - 1;
        link = links[entry] as usize;
    }
    entry
}

/// The entry of this chain that is to lead to this place.
#[inline(always)]
fn entry_above(cells: &[Range], links: &[u16], count: usize, chain: usize, place: usize) -> usize
    requires links { AreLinks cells.now count links.now }
    requires within { count ≤ length cells.now }
    requires place { place < count }
    requires chain { chain < length cells.now }
    ensures within { result < length links.now }
    ensures entry { LeadsTo cells.now count links.now chain place result }
{
    let mut entry = cells.len() + chain;
    let mut link = links[entry] as usize;
    while link > place + 1 {
        entry = link - 1;
        link = links[entry] as usize;
    }
    entry
}

/// The range at this place, the first that has no link, comes into its chain.
#[inline(always)]
pub(crate) fn link(cells: &[Range], links: &mut [u16], place: usize)
    requires links { AreLinks cells.now place links.old }
    requires within { place < length cells.now }
    requires few { length cells.now < 2 ^ 16 }
    ensures { AreLinks cells.now (place + 1) links.new }
{
    let entry = cells.len() + chain_of(cells.len() - 1, cells[place].lo());
    links[place] = links[entry];
    links[entry] = (place + 1) as u16;
}

/// The newest range comes into its chain, where it is in none yet.
#[inline(always)]
pub(crate) fn link_newest(cells: &[Range], links: &mut [u16], linked: usize, count: usize)
    requires links { AreLinks cells.now linked links.old }
    requires newest { (linked ≤ count) × (count ≤ linked + 1) }
    requires within { count ≤ length cells.now }
    requires few { length cells.now < 2 ^ 16 }
    ensures { AreLinks cells.now count links.new }
{
    if linked < count {
        link(cells, links, linked);
    }
}

/// Links the first so many ranges anew.
pub(crate) fn link_all(cells: &[Range], links: &mut [u16], count: usize)
    requires long { length links.old ≡ length cells.now + length cells.now }
    requires within { count ≤ length cells.now }
    requires few { length cells.now < 2 ^ 16 }
    ensures linked { AreLinks cells.now count links.new }
    ensures len { length links.new ≡ length links.old }
{
    links.fill(0);
    for place in 0..count {
        link(cells, links, place);
    }
}

/// The range that this entry leads to goes, and the last one takes its place.
#[inline(always)]
pub(crate) fn remove(cells: &mut [Range], links: &mut [u16], last: usize, entry: usize)
    requires links { AreLinks cells.old (last + 1) links.old }
    requires within { last < length cells.old }
    requires few { length cells.old < 2 ^ 16 }
    requires entry { IsEntryAt cells.old (last + 1) links.old entry }
    ensures links { AreLinks cells.new last links.new }
    ensures cells { cells.new ≡ slice_set cells.old (slice_index links.old entry - 1)
        (range_at cells.old last) }
{
    let place = links[entry] as usize - 1;
    if place == last {
        links[entry] = links[last];
        return;
    }
    let home = chain_of(cells.len() - 1, cells[place].lo());
    let moved = cells[last];
    let chain = chain_of(cells.len() - 1, moved.lo());
    let first = cells.len() + chain;
    links[first] = links[last];
    if chain != home {
        let above = entry_above(cells, links, last, chain, place);
        links[entry] = links[place];
        links[place] = links[above];
        links[above] = (place + 1) as u16;
    }
    cells[place] = moved;
}
