//! What goes back to a domain's tree and caches. The tree has all that is cached: a range that goes
//! to a magazine stays in it, and is removed where it becomes free.

ghost use Rattle.std.specs.Prelude.{◌≡◌, ◌≤◌, ◌<◌, ◌^◌, [], ◌∷◌, length, map, take, drop, Some, IsTrue};
ghost use Rattle.std.specs.List.{AllByRecursion};
ghost use Rattle.iova_range.specs.Sizes.{order_of};
ghost use Rattle.iova_model.specs.Caches.{of_order, without_entries};
ghost use Rattle.iova_model.specs.Flushes.{entry_range, flushed_front, unflushed_rest};
ghost use Rattle.iova_model.specs.Valid.{IsRequestSizedEntry};
ghost use Rattle.iova_flush.specs.Rings.{frame_count};
ghost use Rattle.iova_tree.specs.Space.{IsSpace};
ghost use Rattle.iova_depot.specs.Cached.{with_contents};
ghost use Rattle.iova_core.specs.Reclaim.{HasAll, Frees, IsBacked, IsDrained, Exchanges, with_range, with_ranges};

use iova_depot::caches::Caches;
use iova_flush::ring::Ring;
use iova_mag::magazine::Magazine;
use iova_model::entry::Entry;
use iova_range::limits::{MAX_ENTRIES, MAX_FRAMES, ORDERS};
use iova_range::range::Range;
use iova_range::sizes::order_of;
use iova_tree::tree::Tree;

/// Frees a range of the tree.
fn free(tree: &mut Tree, range: Range)
    requires space { IsSpace tree.old }
    requires held { HasAll tree.old (range ∷ []) }
    ensures { Frees tree.old tree.new (range ∷ []) }
{
    tree.remove(range.lo());
}

/// The range of this order, 0 to 5, that begins at `lo`.
fn range_of(order: u8, lo: u64) -> Range
    requires order { order < ORDERS }
    requires small { lo < 2 ^ 40 }
    ensures { result ≡ record { lo = lo; len = 2 ^ order } }
{
    Range::new(lo, 1 << order)
}

/// Frees the ranges of a magazine of this order, 0 to 5.
#[cold]
fn free_magazine(tree: &mut Tree, magazine: &Magazine, order: u8)
    requires order { order < ORDERS }
    requires space { IsSpace tree.old }
    requires held { HasAll tree.old (of_order order magazine.now.entries) }
    ensures { Frees tree.old tree.new (of_order order magazine.now.entries) }
{
    for lo in magazine.entries() {
        free(tree, range_of(order, *lo));
    }
}

/// Puts a range that nobody has any more into the magazines of worker `w`, where its length has an
/// order; what a full depot sends out becomes free. Another range becomes free itself.
fn put_back(tree: &mut Tree, caches: &mut Caches, w: usize, range: Range)
    requires worker { w < caches.old.workers }
    requires sized { range.len ≤ MAX_FRAMES }
    requires backed { IsBacked tree.old caches.old (range ∷ []) }
    ensures caches { caches.new ≡ with_range caches.old w range }
    ensures backed { Exchanges tree.old tree.new caches.old caches.new [] (range ∷ []) }
{
    let Some(order) = order_of(range.len()) else {
        return free(tree, range);
    };
    if !caches.try_put(w, order, range.lo()) {
        put_full(tree, caches, w, order, range);
    }
}

/// Puts a range of this order back, 0 to 5, where a full magazine has to go to the depot first.
#[cold]
fn put_full(tree: &mut Tree, caches: &mut Caches, w: usize, order: u8, range: Range)
    requires worker { w < caches.old.workers }
    requires order { order < ORDERS }
    requires length { order_of range.len ≡ Some order }
    requires backed { IsBacked tree.old caches.old (range ∷ []) }
    ensures caches { caches.new ≡ with_range caches.old w range }
    ensures backed { Exchanges tree.old tree.new caches.old caches.new [] (range ∷ []) }
{
    if let Some(magazine) = caches.put(w, order, range.lo()) {
        free_magazine(tree, &magazine, order);
    }
}

/// Takes the entries out of a ring whose counts are below `finish`, oldest first and up to the
/// first that is not, and puts them into the magazines of worker `w`. It answers how many there
/// were (Linux 5.15 `drivers/iommu/iova.c`: `fq_ring_free`). Mostly there is none, and nothing is
/// called.
#[inline(always)]
pub fn drain(tree: &mut Tree, caches: &mut Caches, ring: &mut Ring, w: usize, finish: u64) -> u64
    requires worker { w < caches.old.workers }
    requires room { length ring.old ≤ MAX_ENTRIES }
    requires backed { IsBacked tree.old caches.old (map entry_range ring.old) }
    ensures count { result ≡ length (flushed_front finish ring.old) }
    ensures ring { ring.new ≡ unflushed_rest finish ring.old }
    ensures caches { caches.new ≡ with_ranges caches.old w
        (map entry_range (flushed_front finish ring.old)) }
    ensures backed { Exchanges tree.old tree.new caches.old caches.new []
        (map entry_range (flushed_front finish ring.old)) }
{
    let waits = ring.waits(finish);
    drain_unless(waits, tree, caches, ring, w, finish)
}

/// Drains the worker's ring, unless it is known that nothing in it has been flushed.
#[inline(always)]
pub fn drain_unless(
    waits: bool,
    tree: &mut Tree,
    caches: &mut Caches,
    ring: &mut Ring,
    w: usize,
    finish: u64,
) -> u64
    requires none { IsTrue waits → flushed_front finish ring.old ≡ [] }
    requires all { IsTrue waits → unflushed_rest finish ring.old ≡ ring.old }
    requires worker { w < caches.old.workers }
    requires room { length ring.old ≤ MAX_ENTRIES }
    requires backed { IsBacked tree.old caches.old (map entry_range ring.old) }
    ensures count { result ≡ length (flushed_front finish ring.old) }
    ensures ring { ring.new ≡ unflushed_rest finish ring.old }
    ensures caches { caches.new ≡ with_ranges caches.old w
        (map entry_range (flushed_front finish ring.old)) }
    ensures backed { Exchanges tree.old tree.new caches.old caches.new []
        (map entry_range (flushed_front finish ring.old)) }
{
    if waits {
        return 0;
    }
    drain_flushed(tree, caches, ring, w, finish)
}

/// Puts the first entries of a row whose counts are below `finish` into the magazines of worker
/// `w`, up to one that is not. It answers how many there were, and how many frames they have.
#[inline]
fn put_row(
    tree: &mut Tree,
    caches: &mut Caches,
    row: &[Entry],
    w: usize,
    finish: u64,
) -> (usize, u64)
    requires worker { w < caches.old.workers }
    requires room { length row.now ≤ MAX_ENTRIES }
    requires sized { AllByRecursion IsRequestSizedEntry row.now }
    requires backed { IsBacked tree.old caches.old (map entry_range row.now) }
    ensures within { result.0 ≤ length row.now }
    ensures frames { result.1 ≡ frame_count (take result.0 row.now) }
    ensures drained { IsDrained tree.old tree.new caches.old caches.new row.now
        (drop result.0 row.now) w finish result.0 }
{
    let mut count = 0;
    let mut frames = 0;
    while count < row.len() && row[count].count < finish {
        let Entry { lo, len, .. } = row[count];
        put_back(tree, caches, w, Range::new(lo, len));
        frames += len;
        count += 1;
    }
    (count, frames)
}

/// Drains the worker's ring, whose oldest entry has been flushed.
#[inline(never)]
fn drain_flushed(
    tree: &mut Tree,
    caches: &mut Caches,
    ring: &mut Ring,
    w: usize,
    finish: u64,
) -> u64
    requires worker { w < caches.old.workers }
    requires room { length ring.old ≤ MAX_ENTRIES }
    requires backed { IsBacked tree.old caches.old (map entry_range ring.old) }
    ensures count { result ≡ length (flushed_front finish ring.old) }
    ensures ring { ring.new ≡ unflushed_rest finish ring.old }
    ensures caches { caches.new ≡ with_ranges caches.old w
        (map entry_range (flushed_front finish ring.old)) }
    ensures backed { Exchanges tree.old tree.new caches.old caches.new []
        (map entry_range (flushed_front finish ring.old)) }
{
    let mut count = 0;
    while let Some(entry) = ring.take_flushed(finish) {
        put_back(tree, caches, w, Range::new(entry.lo, entry.len));
        count += 1;
        // those behind it that stand in a row leave the ring at once
        let (row, _) = ring.as_slices();
        let (taken, frames) = put_row(tree, caches, row, w, finish);
        ring.drop_oldest(taken, frames);
        count += taken as u64;
    }
    count
}

/// Frees all that is cached.
#[cold]
pub fn empty(tree: &mut Tree, caches: &mut Caches)
    requires backed { IsBacked tree.old caches.old [] }
    ensures caches { caches.new ≡ with_contents caches.old (without_entries caches.old.caches) }
    ensures backed { Exchanges tree.old tree.new caches.old caches.new [] [] }
{
    while let Some((order, lo)) = caches.take_any() {
        free(tree, range_of(order, lo));
    }
}
