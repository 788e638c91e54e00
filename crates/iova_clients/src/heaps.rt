//! Ranges in a heap: two are right below each one, and none of these begins below it. So the first
//! one is the lowest.
ghost use Rattle.std.specs.Prelude.{◌≡◌, ◌<◌, ◌≤◌, ◌+◌, ◌-◌, ◌/◌, ℕ, None, find, length};
ghost use Rattle.std.specs.List.Sorted.{IsPermutation};
ghost use Rattle.iova_model.specs.Clients.{begins_at, insert_rising, remove_at};
ghost use Rattle.iova_clients.specs.Chains.{range_at};
ghost use Rattle.iova_clients.specs.Heaps.{IsBelow, IsHeap, IsHeapFrom};
ghost use Rattle.iova_clients.specs.Orders.{ordered, BeginApart};

use iova_range::range::Range;

/// Of the two places right below this one, of which there is one at least, the one whose range
/// begins lower.
#[inline(always)]
fn lower_below(cells: &[Range], place: usize) -> usize
    requires { place < length cells.now / 2 }
    ensures below { IsBelow place result }
    ensures within { result < length cells.now }
    ensures lower { (other : ℕ) → IsBelow place other → other < length cells.now
        → (range_at cells.now result).lo ≤ (range_at cells.now other).lo }
{
    let left = 2 * place + 1;
    let right = left + 1;
    if right < cells.len() && cells[right].lo() < cells[left].lo() {
        right
    } else {
        left
    }
}

/// The range at this place goes down until none right below it begins lower.
fn sift_down(cells: &mut [Range], from: usize)
    requires within { from < length cells.old }
    requires heap { IsHeapFrom (from + 1) (length cells.old) cells.old }
    ensures heap { IsHeapFrom from (length cells.new) cells.new }
    ensures permutation { IsPermutation cells.old cells.new }
    ensures len { length cells.new ≡ length cells.old }
{
    let count = cells.len();
    let mut place = from;
    while place < count / 2 {
        let low = lower_below(cells, place);
        if cells[place].lo() <= cells[low].lo() {
            return;
        }
        cells.swap(place, low);
        place = low;
    }
}

/// The last range goes up until the one right above it begins no higher.
fn sift_up(cells: &mut [Range])
    requires some { 1 ≤ length cells.old }
    requires heap { IsHeapFrom 0 (length cells.old - 1) cells.old }
    ensures heap { IsHeap cells.new }
    ensures permutation { IsPermutation cells.old cells.new }
    ensures len { length cells.new ≡ length cells.old }
{
    let mut place = cells.len() - 1;
    while place > 0 {
        let over = (place - 1) / 2;
        if cells[over].lo() <= cells[place].lo() {
            return;
        }
        cells.swap(over, place);
        place = over;
    }
}

/// The ranges become a heap. It takes as many steps as there are ranges.
fn make_heap(cells: &mut [Range])
    ensures heap { IsHeap cells.new }
    ensures permutation { IsPermutation cells.old cells.new }
    ensures len { length cells.new ≡ length cells.old }
{
    let mut from = cells.len() / 2;
    while from > 0 {
        from -= 1;
        sift_down(cells, from);
    }
}

/// The first so many ranges become a heap.
pub(crate) fn start(cells: &mut [Range], count: usize)
    requires within { count ≤ length cells.old }
    requires apart { BeginApart (range_at cells.old) count }
    ensures heap { IsHeapFrom 0 count cells.new }
    ensures apart { BeginApart (range_at cells.new) count }
    ensures same { ordered cells.new count ≡ ordered cells.old count }
    ensures len { length cells.new ≡ length cells.old }
{
    make_heap(&mut cells[..count]);
}

/// The range comes into a heap of so many.
pub(crate) fn push(cells: &mut [Range], count: usize, range: Range)
    requires within { count < length cells.old }
    requires heap { IsHeapFrom 0 count cells.old }
    requires apart { BeginApart (range_at cells.old) count }
    requires new { find (begins_at range.lo) (ordered cells.old count) ≡ None }
    ensures heap { IsHeapFrom 0 (count + 1) cells.new }
    ensures apart { BeginApart (range_at cells.new) (count + 1) }
    ensures more { ordered cells.new (count + 1)
        ≡ insert_rising range (ordered cells.old count) }
    ensures len { length cells.new ≡ length cells.old }
{
    cells[count] = range;
    sift_up(&mut cells[..count + 1]);
}

/// The range at this place goes out of a heap, whose last place this is. The first one goes in a
/// few steps.
pub(crate) fn remove(cells: &mut [Range], last: usize, place: usize)
    requires within { last < length cells.old }
    requires place { place ≤ last }
    requires heap { IsHeapFrom 0 (last + 1) cells.old }
    requires apart { BeginApart (range_at cells.old) (last + 1) }
    ensures heap { IsHeapFrom 0 last cells.new }
    ensures apart { BeginApart (range_at cells.new) last }
    ensures less { ordered cells.new last
        ≡ remove_at (range_at cells.old place).lo (ordered cells.old (last + 1)) }
    ensures len { length cells.new ≡ length cells.old }
{
    cells[place] = cells[last];
    if place == 0 && last > 0 {
        sift_down(&mut cells[..last], 0);
        return;
    }
    make_heap(&mut cells[..last]);
}
