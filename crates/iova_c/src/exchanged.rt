//! The calls of a cache that have its domain too, in numbers.
ghost use Rattle.std.specs.Prelude.{◌≡◌};
ghost use Rattle.iova_range.specs.Refusals.{refusal_number};
ghost use Rattle.iova_c.specs.Slots.{is_set};
ghost use Rattle.iova_c.specs.Caches.{MakeCall, MakesIn, no_number, no_range, count_answer, refusal_answer, RefillCall, SpillCall, AllocByCall, UnmapByCall, EndCall};

use crate::answer::{NumberAnswer, RangeAnswer, a_range, no_range, number_of, of_number};
use crate::cached::{CacheSlot, NO_CACHE, NO_ORDER, PagedCache};
use crate::slot::{Paged, Slot};
use iova_cache::cache::Cache;
use iova_range::limits::{FRAME_BYTES, ORDERS};
use iova_range::range::Range;
use iova_range::refusal::Refusal;
use std::alloc::Global;

fn not_counted(number: u64) -> NumberAnswer
    ensures { result ≡ no_number number }
{
    NumberAnswer {
        refused: number,
        number: 0,
    }
}

fn no_domain() -> u64
    ensures { result ≡ 23 }
{
    23
}

fn of_count(res: Result<u64, Refusal>) -> NumberAnswer
    ensures { result ≡ count_answer res }
{
    match res {
        Ok(number) => NumberAnswer { refused: 0, number },
        Err(refusal) => not_counted(number_of(refusal)),
    }
}

fn of_refusal(res: Result<Range, Refusal>) -> RangeAnswer
    ensures { result ≡ refusal_answer res }
{
    match res {
        Ok(range) => a_range(range),
        Err(refusal) => no_range(number_of(refusal)),
    }
}

/// A cache of a new client of the worker, in place of the one that is there. Answers the client.
/// Single address cycles are refused as by `steps::open`.
pub fn make(
    alloc: Global,
    slot: &mut Slot,
    cache: &mut CacheSlot,
    worker: u64,
    sac: u64,
) -> NumberAnswer
    ensures { MakeCall slot.old.domain cache.old.cache worker (is_set sac) result slot.new.domain
        cache.new.cache }
{
    let sac = sac != 0;
    match &mut slot.domain {
        Some(paged) => {
            if sac && paged.granule.bytes() != FRAME_BYTES {
                return not_counted(number_of(Refusal::BadProfile));
            }
            make_in(alloc, paged, cache, worker, sac)
        }
        None => not_counted(no_domain()),
    }
}

/// A cache of a new client of this domain, whatever its granule is.
fn make_in(
    alloc: Global,
    paged: &mut Paged,
    cache: &mut CacheSlot,
    worker: u64,
    sac: bool,
) -> NumberAnswer
    ensures { MakesIn paged.old cache.old.cache worker sac result paged.new cache.new.cache }
{
    match Cache::open(alloc, &mut paged.domain, worker, sac) {
        Ok(opened) => {
            let number = opened.client();
            cache.cache = Some(PagedCache {
                cache: opened,
                granule: paged.granule.again(),
            });
            NumberAnswer { refused: 0, number }
        }
        Err(refusal) => not_counted(number_of(refusal)),
    }
}

/// Ranges of the domain come into the magazines.
pub fn refill(
    slot: &mut Slot,
    cache: &mut CacheSlot,
    frames: u64,
    limit: u64,
    most: u64,
) -> NumberAnswer
    ensures { RefillCall slot.old.domain cache.old.cache frames limit most result slot.new.domain
        cache.new.cache }
{
    match &mut cache.cache {
        Some(cached) => match &mut slot.domain {
            Some(paged) => of_count(cached.cache.refill(&mut paged.domain, frames, limit, most)),
            None => not_counted(no_domain()),
        },
        None => not_counted(NO_CACHE),
    }
}

/// Ranges of the magazines of an order go back to the domain.
pub fn spill(slot: &mut Slot, cache: &mut CacheSlot, order: u64, most: u64) -> NumberAnswer
    ensures { SpillCall slot.old.domain cache.old.cache order most result slot.new.domain
        cache.new.cache }
{
    match &mut cache.cache {
        Some(cached) => match &mut slot.domain {
            Some(paged) => {
                if order >= ORDERS as u64 {
                    return not_counted(NO_ORDER);
                }
                of_count(cached.cache.spill(&mut paged.domain, order as u8, most))
            }
            None => not_counted(no_domain()),
        },
        None => not_counted(NO_CACHE),
    }
}

/// A range of the domain for the user.
pub fn alloc_by(slot: &mut Slot, cache: &mut CacheSlot, frames: u64, limit: u64) -> RangeAnswer
    ensures { AllocByCall slot.old.domain cache.old.cache frames limit result slot.new.domain
        cache.new.cache }
{
    match &mut cache.cache {
        Some(cached) => match &mut slot.domain {
            Some(paged) => of_refusal(cached.cache.alloc_by(&mut paged.domain, frames, limit)),
            None => no_range(no_domain()),
        },
        None => no_range(NO_CACHE),
    }
}

/// The range that begins there goes from the user to the domain's ring.
pub fn unmap_by(slot: &mut Slot, cache: &mut CacheSlot, lo: u64) -> RangeAnswer
    ensures { UnmapByCall slot.old.domain cache.old.cache lo result slot.new.domain
        cache.new.cache }
{
    match &mut cache.cache {
        Some(cached) => match &mut slot.domain {
            Some(paged) => of_refusal(cached.cache.unmap_by(&mut paged.domain, lo)),
            None => no_range(no_domain()),
        },
        None => no_range(NO_CACHE),
    }
}

/// The cache is gone, and its client is marked closing.
pub fn end(slot: &mut Slot, cache: &mut CacheSlot) -> NumberAnswer
    ensures { EndCall slot.old.domain cache.old.cache result slot.new.domain cache.new.cache }
{
    let Some(ended) = cache.cache.take() else {
        return not_counted(NO_CACHE);
    };
    match &mut slot.domain {
        Some(paged) => of_number(ended.cache.end(&mut paged.domain)),
        None => not_counted(no_domain()),
    }
}
