//! What a user holds: a range is found by its first frame, mostly at one look.
ghost use Rattle.std.specs.Prelude.{◌≡◌, ◌≢◌, ◌≤◌, ◌<◌, ◌+◌, ◌-◌, ◌*◌, ◌^◌, ℕ, nat_lt, [], Some, None, Err, length, take, drop, find, replicate, slice_index_or, sum_by, IfOk, IfSome, IfNone, OnOk, OnErr, IsOkUnless};
ghost use Rattle.std.specs.Bool.{OnTrue, OnFalse};
ghost use Rattle.std.specs.Option.{option_or};
ghost use Rattle.iova_range.specs.Frames.{Frames};
ghost use Rattle.iova_model.specs.Clients.{begins_at};
ghost use Rattle.iova_cache.specs.Held.{CanBeHeld, Gains, home_of, all_ranges, stray_at};

use crate::bucket::{BUCKET, Bucket};
use crate::cache::Kept;
use iova_range::limits::MOST_CACHED;
use iova_range::range::Range;
use iova_range::refusal::Refusal;
use std::alloc::Global;
use std::marker::Model;

/// What a first frame is multiplied by: 2^64 by the golden ratio, so that frames in a row go to
/// buckets far apart.
const SPREAD: u64 = 0x9e37_79b9_7f4a_7c15;

/// How far the product is shifted: what is left has a bit for each of the most buckets' numbers.
const SHIFT: u32 = 44;

/// A new table has 2^4 buckets.
const FIRST_BITS: u32 = 4;

/// A table has 2^20 buckets at most.
const LAST_BITS: u32 = 20;

/// How many ranges a table has room for, for each of its buckets, but for `SPARE`: where a large
/// one is full, six of seven places are taken, and where it has just grown, three.
const SHARE: usize = 6;

/// So many fewer. It makes small tables wider, in the memory that a cache has with no range.
const SPARE: usize = 48;

/// Ranges of at most 1,048,576 frames whose first frames are below 2^40, in buckets of seven. Each
/// is in the bucket of its first frame, its home; where that was full it is a stray, in the next
/// one that wasn't, behind the last one from the first one on. A home knows how many strays it has.
///
/// So a look-up looks at the home alone where that has no strays, and an insertion where it isn't
/// full. Else they go on, over all buckets at most: where the table is full one range in five is a
/// stray, in the next bucket mostly. Only there it grows, to twice the buckets. So it has 16
/// buckets, or for `n` ranges at most `(n + 47) / 3`, of 68 bytes with their count.
pub(crate) struct Table {
    buckets: Vec<Bucket>,
    strays: Vec<u32>,
    bits: u32,
    mask: u64,
    room: usize,
    alloc: Global,
}

/// Drops its parts. The proof stands here, once for all crates above.
impl Drop for Table {
    fn drop(self) {
        let Table {
            buckets: _,
            strays: _,
            bits: _,
            mask: _,
            room: _,
            alloc: _,
        } = self;
    }
}

impl Model for Table {
    ghost use Rattle.std.specs.Prelude.{◌≡◌, ◌*◌, ◌-◌, ◌^◌, length};
    ghost use Rattle.iova_cache.specs.declared.table.TheConstants.{SHARE, SPARE};
    ghost use Rattle.iova_cache.specs.Held.{Held, IsTable, in_order, home_of};

    ghost Value = { Held };

    ghost view = { λ t. record {
      ranges = in_order (home_of t.bits) t.buckets.items;
      capacity = SHARE * length t.buckets.items - SPARE;
    } };

    ghost invariant = { λ t. IsTable t.buckets.items t.strays.items t.bits t.room
        × (t.mask ≡ 2 ^ t.bits - 1) };
}

/// The bucket of a range that begins there.
#[inline(always)]
fn home(lo: u64, mask: u64, _bits: u32) -> usize
    requires { mask ≡ 2 ^ _bits - 1 }
    ensures is { result ≡ home_of _bits lo }
    ensures within { result < 2 ^ _bits }
{
    (lo.wrapping_mul(SPREAD) >> SHIFT & mask) as usize
}

/// So many empty buckets.
fn new_buckets(alloc: Global, count: usize) -> Result<Vec<Bucket>, Refusal>
    ensures value { IfOk result (λ v. v.items ≡ replicate count []) }
    ensures refused { IsOkUnless result Refusal.NoMemory }
{
    let Ok(mut buckets) = Vec::with_capacity(alloc, count) else {
        return Err(Refusal::NoMemory);
    };
    for _ in 0..count {
        buckets.push(Bucket::new()).unwrap();
    }
    Ok(buckets)
}

/// None of so many buckets has a stray.
fn no_strays(alloc: Global, count: usize) -> Result<Vec<u32>, Refusal>
    ensures value { IfOk result (λ v. v.items ≡ replicate count 0) }
    ensures refused { IsOkUnless result Refusal.NoMemory }
{
    let Ok(mut strays) = Vec::with_capacity(alloc, count) else {
        return Err(Refusal::NoMemory);
    };
    for _ in 0..count {
        strays.push(0).unwrap();
    }
    Ok(strays)
}

/// The first bucket that has a range that begins there, or how many buckets there are.
fn seek(buckets: &[Bucket], lo: u64) -> usize
    ensures within { result ≤ length buckets.now }
    ensures before { find (begins_at lo) (all_ranges (take result buckets.now)) ≡ None }
    ensures found { result < length buckets.now
        → find (begins_at lo) (slice_index_or buckets.now result []) ≢ None }
{
    for place in 0..buckets.len() {
        if buckets[place].find(lo).is_some() {
            return place;
        }
    }
    buckets.len()
}

/// The bucket that has the range, looked for from a home on, and behind the last bucket from the
/// first one on. Where the home has no strays it looks there alone.
fn seek_from(buckets: &[Bucket], strays: u32, home: usize, lo: u64) -> usize
    requires within { home < length buckets.now }
    requires alone { strays ≡ 0
        → option_or (find (begins_at lo) (all_ranges (drop home buckets.now)))
        (find (begins_at lo) (all_ranges (take home buckets.now)))
        ≡ find (begins_at lo) (slice_index_or buckets.now home []) }
    ensures within { result ≤ length buckets.now }
    ensures found { result < length buckets.now
        → find (begins_at lo) (slice_index_or buckets.now result []) ≢ None }
    ensures is { option_or (find (begins_at lo) (all_ranges (drop home buckets.now)))
        (find (begins_at lo) (all_ranges (take home buckets.now)))
        ≡ find (begins_at lo) (slice_index_or buckets.now result []) }
{
    if buckets[home].find(lo).is_some() {
        return home;
    }
    if strays == 0 {
        return buckets.len();
    }
    let onward = seek(&buckets[home..], lo);
    if onward < buckets.len() - home {
        return home + onward;
    }
    let around = seek(&buckets[..home], lo);
    if around == home {
        return buckets.len();
    }
    around
}

/// The first bucket that isn't full, or how many buckets there are.
fn roomy(buckets: &[Bucket]) -> usize
    ensures within { result ≤ length buckets.now }
    ensures full { length (all_ranges (take result buckets.now)) ≡ BUCKET * result }
    ensures found { result < length buckets.now
        → length (slice_index_or buckets.now result []) < BUCKET }
{
    for place in 0..buckets.len() {
        if !buckets[place].is_full() {
            return place;
        }
    }
    buckets.len()
}

/// A bucket that isn't full, looked for from a home on, and behind the last bucket from the first
/// one on. Not all are full.
fn roomy_from(buckets: &[Bucket], home: usize) -> usize
    requires within { home < length buckets.now }
    requires room { length (all_ranges buckets.now) < BUCKET * length buckets.now }
    ensures within { result < length buckets.now }
    ensures found { length (slice_index_or buckets.now result []) < BUCKET }
{
    let onward = roomy(&buckets[home..]);
    if onward < buckets.len() - home {
        return home + onward;
    }
    roomy(&buckets[..home])
}

/// One stray more of a home, where the place is another one.
fn gain_stray(strays: &mut Vec<u32>, home: usize, place: usize)
    requires within { home < length strays.old.items }
    requires fits { slice_index_or strays.old.items home 0 < 4294967295 }
    ensures each { (k : ℕ) → slice_index_or strays.new.items k 0
        ≡ slice_index_or strays.old.items k 0 + stray_at home place k }
    ensures slots { length strays.new.items ≡ length strays.old.items }
{
    if place != home {
        strays[home] += 1;
    }
}

/// One less.
fn lose_stray(strays: &mut Vec<u32>, home: usize, place: usize)
    requires within { home < length strays.old.items }
    requires some { place ≢ home → 1 ≤ slice_index_or strays.old.items home 0 }
    ensures each { (k : ℕ) → slice_index_or strays.old.items k 0
        ≡ slice_index_or strays.new.items k 0 + stray_at home place k }
    ensures slots { length strays.new.items ≡ length strays.old.items }
{
    if place != home {
        strays[home] -= 1;
    }
}

impl Table {
    /// Nothing is held. `NoMemory` where memory is refused.
    pub(crate) fn new(alloc: Global) -> Result<Table, Refusal>
        ensures value { IfOk result (λ t. t ≡ record { ranges = []; capacity = 48 }) }
        ensures refused { IsOkUnless result Refusal.NoMemory }
    {
        Table::of_bits(alloc, FIRST_BITS)
    }

    fn of_bits(alloc: Global, bits: u32) -> Result<Table, Refusal>
        requires least { FIRST_BITS ≤ bits }
        requires most { bits ≤ LAST_BITS }
        ensures value { IfOk result (λ t. t ≡ record {
          ranges = [];
          capacity = SHARE * 2 ^ bits - SPARE;
        }) }
        ensures refused { IsOkUnless result Refusal.NoMemory }
    {
        let count = 1 << bits;
        let buckets = new_buckets(alloc, count)?;
        let strays = no_strays(alloc, count)?;
        Ok(Table {
            buckets,
            strays,
            bits,
            mask: count as u64 - 1,
            room: SHARE * count - SPARE,
            alloc,
        })
    }

    /// Whether one range more comes in without memory.
    #[inline(always)]
    pub(crate) fn has_room(&self) -> bool
        ensures { result ≡ nat_lt (length self.now.ranges) self.now.capacity }
    {
        self.room > 0
    }

    /// The first range that begins there.
    pub(crate) fn find(&self, lo: u64) -> Option<Range>
        ensures is { result ≡ find (begins_at lo) self.now.ranges }
        ensures held { IfSome result CanBeHeld }
    {
        let home = home(lo, self.mask, self.bits);
        let place = seek_from(self.buckets.as_slice(), self.strays[home], home, lo);
        if place == self.buckets.len() {
            return None;
        }
        self.buckets[place].find(lo)
    }

    /// Takes a range in, where there is room for it at its home. False where there is none there,
    /// and nothing has changed.
    #[inline(always)]
    pub(crate) fn insert_at_home(&mut self, range: Range) -> bool
        requires { CanBeHeld range }
        ensures gained { OnTrue result (Gains range self.old.ranges self.new.ranges) }
        ensures room { OnTrue result (length self.old.ranges < self.old.capacity) }
        ensures same { self.new.capacity ≡ self.old.capacity }
        ensures unchanged { OnFalse result (self.new ≡ self.old) }
    {
        if self.room == 0 {
            return false;
        }
        let place = home(range.lo(), self.mask, self.bits);
        let bucket = &mut self.buckets[place];
        if bucket.is_full() {
            return false;
        }
        bucket.push(range);
        self.room -= 1;
        true
    }

    /// Takes a range in, for which there is room.
    pub(crate) fn insert(&mut self, range: Range)
        requires room { length self.old.ranges < self.old.capacity }
        requires held { CanBeHeld range }
        ensures gained { Gains range self.old.ranges self.new.ranges }
        ensures same { self.new.capacity ≡ self.old.capacity }
    {
        let home = home(range.lo(), self.mask, self.bits);
        let place = roomy_from(self.buckets.as_slice(), home);
        self.buckets[place].push(range);
        gain_stray(&mut self.strays, home, place);
        self.room -= 1;
    }

    /// Takes the first range out that begins there.
    pub(crate) fn take(&mut self, lo: u64) -> Option<Range>
        ensures value { result ≡ find (begins_at lo) self.old.ranges }
        ensures held { IfSome result CanBeHeld }
        ensures taken { IfSome result (λ r. Gains r self.new.ranges self.old.ranges) }
        ensures same { self.new.capacity ≡ self.old.capacity }
        ensures none { IfNone result (self.new ≡ self.old) }
    {
        let home = home(lo, self.mask, self.bits);
        let place = seek_from(self.buckets.as_slice(), self.strays[home], home, lo);
        if place == self.buckets.len() {
            return None;
        }
        let taken = self.buckets[place].take(lo);
        lose_stray(&mut self.strays, home, place);
        self.room += 1;
        taken
    }

    /// Takes the range that begins there out, where a magazine may take it: it has at most 32
    /// frames.
    pub(crate) fn take_cached(&mut self, lo: u64) -> Result<Range, Kept>
        ensures taken { IfOk result (λ r. (find (begins_at lo) self.old.ranges ≡ Some r)
            × Gains r self.new.ranges self.old.ranges) }
        ensures few { IfOk result (λ r. r.len ≤ MOST_CACHED) }
        ensures held { IfOk result CanBeHeld }
        ensures not_held { result ≡ Err Kept.NotHeld
            → find (begins_at lo) self.old.ranges ≡ None }
        ensures no_order { result ≡ Err Kept.NoOrder → (r : Frames)
            × (find (begins_at lo) self.old.ranges ≡ Some r) × (MOST_CACHED < r.len) }
        ensures not_full { result ≢ Err Kept.RingFull }
        ensures same { self.new.capacity ≡ self.old.capacity }
        ensures unchanged { OnErr result (self.new ≡ self.old) }
    {
        let Some(range) = self.find(lo) else {
            return Err(Kept::NotHeld);
        };
        if range.len() > MOST_CACHED {
            return Err(Kept::NoOrder);
        }
        let _taken = self.take(lo);
        Ok(range)
    }

    /// Takes the first range out that begins there, where it is at home and has at most 32 frames.
    /// One look finds it. None where there is no such range, and nothing has changed.
    #[inline(always)]
    pub(crate) fn take_at_home(&mut self, lo: u64) -> Option<Range>
        ensures taken { IfSome result (λ r. (find (begins_at lo) self.old.ranges ≡ Some r)
            × Gains r self.new.ranges self.old.ranges) }
        ensures few { IfSome result (λ r. r.len ≤ MOST_CACHED) }
        ensures held { IfSome result CanBeHeld }
        ensures same { self.new.capacity ≡ self.old.capacity }
        ensures unchanged { IfNone result (self.new ≡ self.old) }
    {
        let place = home(lo, self.mask, self.bits);
        let bucket = &mut self.buckets[place];
        match bucket.take_cached(lo) {
            Ok(range) => {
                self.room += 1;
                Some(range)
            }
            Err(_) => None,
        }
    }

    /// Some range, the first one that begins where it does.
    pub(crate) fn any(&self) -> Option<Range>
        ensures first { IfSome result (λ r. find (begins_at r.lo) self.now.ranges ≡ Some r) }
        ensures none { IfNone result (self.now.ranges ≡ []) }
    {
        let count = self.buckets.len();
        for place in 0..count {
            let bucket = &self.buckets[place];
            let ranges = bucket.len();
            if ranges > 0 {
                let range = bucket.get(0);
                return self.find(range.lo());
            }
        }
        None
    }

    /// How many ranges there are.
    pub(crate) fn len(&self) -> u64
        ensures { result ≡ length self.now.ranges }
    {
        (SHARE * self.buckets.len() - SPARE - self.room) as u64
    }

    /// Makes room for at least as many ranges more as there was room for, in twice the buckets.
    /// `NoMemory` where memory is refused, or there are 2^20 buckets, and nothing has changed.
    #[cold]
    #[inline(never)]
    pub(crate) fn grow(&mut self) -> Result<(), Refusal>
        ensures room { OnOk result (length self.new.ranges < self.new.capacity) }
        ensures doubled { OnOk result (self.new.capacity ≡ 2 * self.old.capacity + SPARE) }
        ensures same { (weigh : Frames → ℕ) → sum_by weigh self.new.ranges
            ≡ sum_by weigh self.old.ranges }
        ensures refused { IsOkUnless result Refusal.NoMemory }
        ensures unchanged { OnErr result (self.new ≡ self.old) }
    {
        let wider = self.wider()?;
        *self = wider;
        Ok(())
    }

    /// A table of these ranges with twice the buckets.
    fn wider(&self) -> Result<Table, Refusal>
        ensures room { IfOk result (λ t. length t.ranges < t.capacity) }
        ensures doubled { IfOk result (λ t. t.capacity ≡ 2 * self.now.capacity + SPARE) }
        ensures same { IfOk result (λ t. (weigh : Frames → ℕ) → sum_by weigh t.ranges
            ≡ sum_by weigh self.now.ranges) }
        ensures refused { IsOkUnless result Refusal.NoMemory }
    {
        if self.bits == LAST_BITS {
            return Err(Refusal::NoMemory);
        }
        let mut wider = Table::of_bits(self.alloc, self.bits + 1)?;
        wider.take_all(self.buckets.as_slice());
        Ok(wider)
    }

    /// Takes in the ranges of some buckets, for which there is room.
    fn take_all(&mut self, buckets: &[Bucket])
        requires { length self.old.ranges + length (all_ranges buckets.now) ≤ self.old.capacity }
        ensures moved { (weigh : Frames → ℕ) → sum_by weigh self.new.ranges
            ≡ sum_by weigh self.old.ranges + sum_by weigh (all_ranges buckets.now) }
        ensures same { self.new.capacity ≡ self.old.capacity }
    {
        for place in 0..buckets.len() {
            self.take_bucket(&buckets[place]);
        }
    }

    /// Takes in the ranges of a bucket, for which there is room.
    fn take_bucket(&mut self, bucket: &Bucket)
        requires { length self.old.ranges + length bucket.now ≤ self.old.capacity }
        ensures moved { (weigh : Frames → ℕ) → sum_by weigh self.new.ranges
            ≡ sum_by weigh self.old.ranges + sum_by weigh bucket.now }
        ensures same { self.new.capacity ≡ self.old.capacity }
    {
        for place in 0..bucket.len() {
            self.insert(bucket.get(place));
        }
    }
}
