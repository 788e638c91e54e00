//! A few ranges of a table, each in a word of 64 bits.
ghost use Rattle.std.specs.Prelude.{◌≡◌, ◌≢◌, ◌≤◌, ◌<◌, ◌^◌, ◌%◌, ◌↔◌, ℕ, [], ◌∷◌, ◌++◌, length, find, slice_index, slice_index_or, Some, None, Err, IsTrue, IfOk, OnErr, IfSome, IfNone};
ghost use Rattle.iova_range.specs.Frames.{Frames};
ghost use Rattle.iova_model.specs.Clients.{begins_at};
ghost use Rattle.iova_cache.specs.Held.{word_range, IsWord, CanBeHeld, Gains};

use crate::cache::Kept;
use iova_range::limits::MOST_CACHED;
use iova_range::range::Range;
use std::marker::Model;

/// The most ranges of a bucket: with their number they fill a line of the processor's cache.
pub(crate) const BUCKET: usize = 7;

/// What is above every first frame of a bucket.
const TOP: u64 = 1 << 40;

/// At most seven ranges of at most 1,048,576 frames whose first frames are below 2^40. A range
/// takes one word: its first frame, and above 40 bits its length.
#[derive(Drop)]
pub(crate) struct Bucket {
    words: [u64; BUCKET],
    count: usize,
}

impl Model for Bucket {
    ghost use Rattle.std.specs.Prelude.{List};
    ghost use Rattle.iova_range.specs.Frames.{Frames};
    ghost use Rattle.iova_cache.specs.declared.bucket.TheConstants.{BUCKET};

    ghost Value = { List Frames };

    ghost use Rattle.iova_cache.specs.Held.{word_ranges, AreWords};

    ghost view = { λ b. word_ranges b.words b.count };

    ghost invariant = { λ b. AreWords b.words b.count BUCKET };
}

/// The word of a range.
#[inline(always)]
pub(crate) fn word_of(range: Range) -> u64
    requires { CanBeHeld range }
    ensures is { word_range result ≡ range }
    ensures word { IsWord result }
{
    range.lo() + range.len() * TOP
}

/// The range of a word.
#[inline(always)]
pub(crate) fn range_of(word: u64) -> Range
    requires { IsWord word }
    ensures is { result ≡ word_range word }
    ensures held { CanBeHeld result }
{
    Range::new(word % TOP, word / TOP)
}

/// The place of the first word whose range begins there, or how many words there are.
#[inline(always)]
fn place_of(words: &[u64], lo: u64) -> usize
    ensures within { result ≤ length words.now }
    ensures before { (k : ℕ) → k < result → slice_index words.now k % 2 ^ 40 ≢ lo }
    ensures found { result < length words.now → slice_index words.now result % 2 ^ 40 ≡ lo }
{
    for place in 0..words.len() {
        if words[place] % TOP == lo {
            return place;
        }
    }
    words.len()
}

impl Bucket {
    pub(crate) fn new() -> Bucket
        ensures { result ≡ [] }
    {
        Bucket {
            words: [0; BUCKET],
            count: 0,
        }
    }

    /// Whether there are seven.
    #[inline(always)]
    pub(crate) fn is_full(&self) -> bool
        ensures is { IsTrue result ↔ (length self.now ≡ BUCKET) }
        ensures bounded { length self.now ≤ BUCKET }
    {
        self.count == BUCKET
    }

    /// How many there are.
    #[inline(always)]
    pub(crate) fn len(&self) -> usize
        ensures is { result ≡ length self.now }
        ensures bounded { result ≤ BUCKET }
    {
        self.count
    }

    /// The range at this place.
    #[inline(always)]
    pub(crate) fn get(&self, place: usize) -> Range
        requires { place < length self.now }
        ensures value { result ≡ slice_index_or self.now place result }
        ensures held { CanBeHeld result }
    {
        // for the proof: there are seven at most
        let _len = self.len();
        range_of(self.words[place])
    }

    /// The place of the first range that begins there, or how many there are.
    #[inline(always)]
    fn place(&self, lo: u64) -> usize
        ensures within { result ≤ length self.now }
        ensures none { result ≡ length self.now → find (begins_at lo) self.now ≡ None }
        ensures found { result < length self.now → (r : Frames)
            → r ≡ slice_index_or self.now result r
            → find (begins_at lo) self.now ≡ Some r }
    {
        place_of(&self.words[..self.count], lo)
    }

    /// The first range that begins there.
    #[inline(always)]
    pub(crate) fn find(&self, lo: u64) -> Option<Range>
        ensures is { result ≡ find (begins_at lo) self.now }
        ensures held { IfSome result CanBeHeld }
    {
        let place = self.place(lo);
        if place == self.len() {
            return None;
        }
        Some(self.get(place))
    }

    /// One range more, last.
    #[inline(always)]
    pub(crate) fn push(&mut self, range: Range)
        requires room { length self.old < BUCKET }
        requires held { CanBeHeld range }
        ensures { self.new ≡ self.old ++ range ∷ [] }
    {
        self.words[self.count] = word_of(range);
        self.count += 1;
    }

    /// Takes the range at this place out; the last one comes there.
    #[inline(always)]
    fn remove(&mut self, place: usize)
        requires { place < length self.old }
        ensures taken { (r : Frames) → r ≡ slice_index_or self.old place r
            → Gains r self.new self.old }
        ensures shorter { length self.new ≤ length self.old }
    {
        let last = self.count - 1;
        self.words[place] = self.words[last];
        self.count = last;
    }

    /// Takes the first range out that begins there.
    #[inline(always)]
    pub(crate) fn take(&mut self, lo: u64) -> Option<Range>
        ensures value { result ≡ find (begins_at lo) self.old }
        ensures held { IfSome result CanBeHeld }
        ensures taken { IfSome result (λ r. Gains r self.new self.old) }
        ensures shorter { length self.new ≤ length self.old }
        ensures none { IfNone result (self.new ≡ self.old) }
    {
        let place = self.place(lo);
        if place == self.len() {
            return None;
        }
        let range = self.get(place);
        self.remove(place);
        Some(range)
    }

    /// Takes the range that begins there out of the bucket, where a magazine may take it: it has at
    /// most 32 frames. One look finds it.
    #[inline(always)]
    pub(crate) fn take_cached(&mut self, lo: u64) -> Result<Range, Kept>
        ensures taken { IfOk result (λ r. (find (begins_at lo) self.old ≡ Some r)
            × Gains r self.new self.old) }
        ensures few { IfOk result (λ r. r.len ≤ MOST_CACHED) }
        ensures held { IfOk result CanBeHeld }
        ensures shorter { length self.new ≤ length self.old }
        ensures not_held { result ≡ Err Kept.NotHeld → find (begins_at lo) self.old ≡ None }
        ensures no_order { result ≡ Err Kept.NoOrder → (r : Frames)
            × (find (begins_at lo) self.old ≡ Some r) × (MOST_CACHED < r.len) }
        ensures not_full { result ≢ Err Kept.RingFull }
        ensures unchanged { OnErr result (self.new ≡ self.old) }
    {
        let place = self.place(lo);
        if place == self.len() {
            return Err(Kept::NotHeld);
        }
        let range = self.get(place);
        if range.len() > MOST_CACHED {
            return Err(Kept::NoOrder);
        }
        self.remove(place);
        Ok(range)
    }
}
