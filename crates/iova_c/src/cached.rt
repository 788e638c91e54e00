//! A place for one cache, and the calls of a cache that need no domain, in numbers.
ghost use Rattle.std.specs.Prelude.{◌≡◌, None, IfSome, IfNone};
ghost use Rattle.iova_c.specs.Answers.{unpacked};
ghost use Rattle.iova_c.specs.Slots.{is_set};
ghost use Rattle.iova_c.specs.Caches.{some_answer, no_range, a_range, AllocCall, UnmapCall, SettleCall, PutCall, TakeCall, RoomCall, KeepCall, ReleaseCall, AnyCall, ApartCall, CountsCall};

use crate::answer::{
    CacheCountsAnswer, NumberAnswer, PackedAnswer, RangeAnswer, a_range, no_range, number_of,
    unpack,
};
use crate::granule::{Granule, usual};
use iova_cache::apart::Unput;
use iova_cache::cache::{Cache, Kept, Unmet};
use iova_range::limits::ORDERS;
use iova_range::range::Range;
use iova_range::refusal::Refusal;
use std::alloc::Global;

/// What a cache is refused by, beside the refusals of a domain: there is no cache in the room.
pub const NO_CACHE: u64 = 201;

/// There is no magazine for so many frames.
pub const NO_ORDER: u64 = 202;

/// The magazine is empty.
pub const DRY: u64 = 203;

/// Its newest range has a frame above the limit.
pub const MISS: u64 = 204;

/// It is full.
pub const FULL: u64 = 205;

/// A cache, and how many bytes the frames of its domain have.
#[derive(Drop)]
pub struct PagedCache {
    pub(crate) cache: Cache,
    pub(crate) granule: Granule,
}

/// A cache, or none.
#[derive(Drop)]
pub struct CacheSlot {
    pub(crate) cache: Option<PagedCache>,
}

const _: () = prove!(size_of::<CacheSlot>() <= 512);

const _: () = prove!(align_of::<CacheSlot>() <= 8);

/// A slot with no cache.
pub fn no_cache() -> CacheSlot
    ensures { result.cache ≡ None }
{
    CacheSlot { cache: None }
}

/// Drops the slot's cache.
pub fn clear(slot: &mut CacheSlot)
    ensures { slot.new.cache ≡ None }
{
    slot.cache = None;
}

#[inline(always)]
fn packed(range: Range) -> PackedAnswer
    ensures { unpacked result ≡ a_range range }
{
    PackedAnswer {
        lo: range.lo(),
        len: range.len(),
    }
}

#[inline(always)]
fn packed_refusal(number: u64) -> PackedAnswer
    ensures { unpacked result ≡ no_range number }
{
    PackedAnswer { lo: number, len: 0 }
}

fn of_some(number: u64, res: Option<Range>) -> RangeAnswer
    ensures { result ≡ some_answer number res }
{
    match res {
        Some(range) => a_range(range),
        None => no_range(number),
    }
}

/// A range of the magazines, where it takes the fewest instructions.
#[inline(always)]
fn alloc_fast(slot: &mut CacheSlot, frames: u64, limit: u64) -> Option<Range>
    ensures met { IfSome result (λ r. AllocCall slot.old.cache frames limit (a_range r)
        slot.new.cache) }
    ensures unchanged { IfNone result (slot.new ≡ slot.old) }
{
    match &mut slot.cache {
        Some(cached) => cached.cache.alloc_fast(frames, limit),
        None => None,
    }
}

/// A range of the magazines, up to the limit.
pub fn alloc(slot: &mut CacheSlot, frames: u64, limit: u64) -> RangeAnswer
    ensures { AllocCall slot.old.cache frames limit result slot.new.cache }
{
    unpack(alloc_packed(slot, frames, limit))
}

/// `alloc`, answered in two registers. What is seldom done is out of line.
#[inline(always)]
pub fn alloc_packed(slot: &mut CacheSlot, frames: u64, limit: u64) -> PackedAnswer
    ensures { AllocCall slot.old.cache frames limit (unpacked result) slot.new.cache }
{
    match alloc_fast(slot, frames, limit) {
        Some(range) => packed(range),
        None => alloc_cold(slot, frames, limit),
    }
}

/// What `alloc_packed` does in the cases that are seldom.
#[cold]
#[inline(never)]
fn alloc_cold(slot: &mut CacheSlot, frames: u64, limit: u64) -> PackedAnswer
    ensures { AllocCall slot.old.cache frames limit (unpacked result) slot.new.cache }
{
    match &mut slot.cache {
        Some(cached) => match cached.cache.alloc(frames, limit) {
            Ok(range) => packed(range),
            Err(Unmet::NoOrder) => packed_refusal(NO_ORDER),
            Err(Unmet::Miss) => packed_refusal(MISS),
            Err(Unmet::Empty) => packed_refusal(DRY),
            Err(Unmet::NoMemory) => packed_refusal(17),
        },
        None => packed_refusal(NO_CACHE),
    }
}

/// What begins there is given up, where it takes the fewest instructions.
#[inline(always)]
fn unmap_fast(slot: &mut CacheSlot, lo: u64, start: u64) -> Option<Range>
    ensures given_up { IfSome result (λ r. UnmapCall slot.old.cache lo start (a_range r)
        slot.new.cache) }
    ensures unchanged { IfNone result (slot.new ≡ slot.old) }
{
    match &mut slot.cache {
        Some(cached) => cached.cache.unmap_fast(lo, start),
        None => None,
    }
}

/// What begins there is given up, with this count.
pub fn unmap(slot: &mut CacheSlot, lo: u64, start: u64) -> RangeAnswer
    ensures { UnmapCall slot.old.cache lo start result slot.new.cache }
{
    unpack(unmap_packed(slot, lo, start))
}

/// `unmap`, answered in two registers. What is seldom done is out of line.
#[inline(always)]
pub fn unmap_packed(slot: &mut CacheSlot, lo: u64, start: u64) -> PackedAnswer
    ensures { UnmapCall slot.old.cache lo start (unpacked result) slot.new.cache }
{
    match unmap_fast(slot, lo, start) {
        Some(range) => packed(range),
        None => unmap_cold(slot, lo, start),
    }
}

/// What `unmap_packed` does in the cases that are seldom.
#[cold]
#[inline(never)]
fn unmap_cold(slot: &mut CacheSlot, lo: u64, start: u64) -> PackedAnswer
    ensures { UnmapCall slot.old.cache lo start (unpacked result) slot.new.cache }
{
    match &mut slot.cache {
        Some(cached) => match cached.cache.unmap(lo, start) {
            Ok(range) => packed(range),
            Err(Kept::NotHeld) => packed_refusal(8),
            Err(Kept::NoOrder) => packed_refusal(NO_ORDER),
            Err(Kept::RingFull) => packed_refusal(7),
        },
        None => packed_refusal(NO_CACHE),
    }
}

/// What a flush has covered goes from the ring into the magazines.
pub fn settle(slot: &mut CacheSlot, newest: u64) -> NumberAnswer
    ensures { SettleCall slot.old.cache newest result slot.new.cache }
{
    match &mut slot.cache {
        Some(cached) => NumberAnswer {
            refused: 0,
            number: cached.cache.settle(newest),
        },
        None => NumberAnswer {
            refused: NO_CACHE,
            number: 0,
        },
    }
}

/// A cache whose domain is elsewhere and has frames of 4,096 bytes, in place of the one that is
/// there. 0, or the refusal's number.
pub fn apart(alloc: Global, slot: &mut CacheSlot, sac: u64) -> u64
    ensures { ApartCall slot.old.cache (is_set sac) result slot.new.cache }
{
    let sac = sac != 0;
    match Cache::apart(alloc, sac) {
        Ok(cache) => {
            slot.cache = Some(PagedCache {
                cache,
                granule: usual(),
            });
            0
        }
        Err(_) => 17,
    }
}

/// A range comes into its magazine. 0, or the refusal's number.
pub fn put(slot: &mut CacheSlot, lo: u64, len: u64) -> u64
    ensures { PutCall slot.old.cache lo len result slot.new.cache }
{
    match &mut slot.cache {
        Some(cached) => match cached.cache.put(lo, len) {
            Ok(()) => 0,
            Err(Unput::NoOrder) => NO_ORDER,
            Err(Unput::TooHigh) => 10,
            Err(Unput::Full) => FULL,
        },
        None => NO_CACHE,
    }
}

/// The newest range of an order goes out of the cache.
pub fn take(slot: &mut CacheSlot, order: u64) -> RangeAnswer
    ensures { TakeCall slot.old.cache order result slot.new.cache }
{
    match &mut slot.cache {
        Some(cached) => {
            if order >= ORDERS as u64 {
                return no_range(NO_ORDER);
            }
            of_some(DRY, cached.cache.take(order as u8))
        }
        None => no_range(NO_CACHE),
    }
}

/// Room for one range more of the user's. 0, or the refusal's number.
pub fn make_room(slot: &mut CacheSlot) -> u64
    ensures { RoomCall slot.old.cache result slot.new.cache }
{
    match &mut slot.cache {
        Some(cached) => match cached.cache.make_room() {
            Ok(()) => 0,
            Err(refusal) => number_of(refusal),
        },
        None => NO_CACHE,
    }
}

/// A range goes to the user. 0, or the refusal's number.
pub fn keep(slot: &mut CacheSlot, lo: u64, len: u64) -> u64
    ensures { KeepCall slot.old.cache lo len result slot.new.cache }
{
    match &mut slot.cache {
        Some(cached) => match cached.cache.keep(lo, len) {
            Ok(()) => 0,
            Err(refusal) => number_of(refusal),
        },
        None => NO_CACHE,
    }
}

/// The range that begins there goes from the user out of the cache.
pub fn release(slot: &mut CacheSlot, lo: u64) -> RangeAnswer
    ensures { ReleaseCall slot.old.cache lo result slot.new.cache }
{
    match &mut slot.cache {
        Some(cached) => of_some(8, cached.cache.release(lo)),
        None => no_range(NO_CACHE),
    }
}

/// Some range of the user goes out of the cache; empty where the user holds none.
pub fn any(slot: &mut CacheSlot) -> RangeAnswer
    ensures { AnyCall slot.old.cache result slot.new.cache }
{
    match &mut slot.cache {
        Some(cached) => of_some(0, cached.cache.any()),
        None => no_range(NO_CACHE),
    }
}

/// How many ranges are where.
pub fn counts(slot: &mut CacheSlot) -> CacheCountsAnswer
    ensures { CountsCall slot.old.cache result slot.new.cache }
{
    match &slot.cache {
        Some(cached) => CacheCountsAnswer {
            refused: 0,
            held: cached.cache.held(),
            waiting: cached.cache.waiting() as u64,
            order_0: cached.cache.cached(0),
            order_1: cached.cache.cached(1),
            order_2: cached.cache.cached(2),
            order_3: cached.cache.cached(3),
            order_4: cached.cache.cached(4),
            order_5: cached.cache.cached(5),
        },
        None => CacheCountsAnswer {
            refused: NO_CACHE,
            held: 0,
            waiting: 0,
            order_0: 0,
            order_1: 0,
            order_2: 0,
            order_3: 0,
            order_4: 0,
            order_5: 0,
        },
    }
}
