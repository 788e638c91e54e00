//! The functions that C calls of a cache. Each takes a pointer to a slot for a cache, which the
//! caller lends for the call, as those of a domain take one to a domain's. Each is one call of a
//! function of this crate, whose contract it has.
ghost use Rattle.std.specs.Prelude.{◌≡◌, ◌≤◌, None};
ghost use Rattle.std.specs.Borrow.{full_share, sem};
ghost use Rattle.std.specs.Ptr.{lies_at, room_at};
ghost use denote.Memory.{mem};
ghost use Rattle.iova_c.specs.Answers.{unpacked};
ghost use Rattle.iova_c.specs.Bytes.{frame_at, frames_of, last_frame};
ghost use Rattle.iova_c.specs.Slots.{is_set};
ghost use Rattle.iova_c.specs.Caches.{granule_in, AllocCall, UnmapCall, MapCall, UnmapBytesCall, SettleCall, PutCall, TakeCall, RoomCall, KeepCall, ReleaseCall, AnyCall, ApartCall, CountsCall, MakeCall, RefillCall, SpillCall, AllocByCall, UnmapByCall, EndCall};
ghost use Rattle.iova_c.specs.contracts.cached.CacheSlot.{the_row};
ghost use Rattle.iova_c.specs.contracts.slot.Slot.{the_row as slot_row};

use crate::answer::{CacheCountsAnswer, MappingAnswer, NumberAnswer, PackedAnswer, RangeAnswer};
use crate::bytes::{map_cached, unmap_bytes_cached};
use crate::cached::{
    CacheSlot, alloc, alloc_packed, any, apart, clear, counts, keep, make_room, no_cache, put,
    release, settle, take, unmap, unmap_packed,
};
use crate::exchanged::{alloc_by, end, make, refill, spill, unmap_by};
use crate::exports::SlotRoom;
use crate::slot::Slot;
use std::alloc::Global;

/// The type that C has for a slot for a cache. No value of it is ever made: a pointer to one is a
/// pointer to a `CacheSlot`.
#[repr(C)]
pub struct CacheRoom {
    never: u8,
}

/// How many bytes a slot for a cache has.
#[unsafe(no_mangle)]
pub extern "C" fn iova_cache_size() -> usize
    ensures exact { result ≡ (mem the_row).size }
    ensures small { result ≤ 512 }
{
    size_of::<CacheSlot>()
}

/// Makes a slot, with no cache, of room for one.
#[unsafe(no_mangle)]
pub unsafe extern "C" fn iova_cache_init(cache: *mut CacheRoom)
    requires* { sem 𝓛 (room_at the_row cache) }
    ensures* { sem 𝓛 (lies_at the_row full_share cache (record { cache = None })) }
{
    (cache as *mut CacheSlot).write(no_cache());
}

/// A new cache whose domain is elsewhere. Answers 0, or the number of the refusal.
#[unsafe(no_mangle)]
pub unsafe extern "C" fn iova_cache_apart(alloc: Global, cache: *mut CacheRoom, sac: u64) -> u64
    ghost old: { CacheSlot }
    requires* { sem 𝓛 (lies_at the_row full_share cache old) }
    ensures* { ∃ₛ (λ (new : CacheSlot). sem 𝓛 (lies_at the_row full_share cache new)
        ∗ ⌜ ApartCall old.cache (is_set sac) result new.cache ⌝) }
{
    apart(alloc, &mut *(cache as *mut CacheSlot), sac)
}

/// Drops the slot's cache, and gives its memory back.
#[unsafe(no_mangle)]
pub unsafe extern "C" fn iova_cache_clear(cache: *mut CacheRoom)
    ghost old: { CacheSlot }
    requires* { sem 𝓛 (lies_at the_row full_share cache old) }
    ensures* { ∃ₛ (λ (new : CacheSlot). sem 𝓛 (lies_at the_row full_share cache new)
        ∗ ⌜ new.cache ≡ None ⌝) }
{
    clear(&mut *(cache as *mut CacheSlot))
}

/// A range of the magazines for the user.
#[unsafe(no_mangle)]
pub unsafe extern "C" fn iova_cache_alloc(
    cache: *mut CacheRoom,
    frames: u64,
    limit: u64,
) -> RangeAnswer
    ghost old: { CacheSlot }
    requires* { sem 𝓛 (lies_at the_row full_share cache old) }
    ensures* { ∃ₛ (λ (new : CacheSlot). sem 𝓛 (lies_at the_row full_share cache new)
        ∗ ⌜ AllocCall old.cache frames limit result new.cache ⌝) }
{
    alloc(&mut *(cache as *mut CacheSlot), frames, limit)
}

/// `iova_cache_alloc`, answered in two registers.
#[unsafe(no_mangle)]
pub unsafe extern "C" fn iova_cache_alloc_packed(
    cache: *mut CacheRoom,
    frames: u64,
    limit: u64,
) -> PackedAnswer
    ghost old: { CacheSlot }
    requires* { sem 𝓛 (lies_at the_row full_share cache old) }
    ensures* { ∃ₛ (λ (new : CacheSlot). sem 𝓛 (lies_at the_row full_share cache new)
        ∗ ⌜ AllocCall old.cache frames limit (unpacked result) new.cache ⌝) }
{
    alloc_packed(&mut *(cache as *mut CacheSlot), frames, limit)
}

/// The user gives up the range that begins there.
#[unsafe(no_mangle)]
pub unsafe extern "C" fn iova_cache_unmap(cache: *mut CacheRoom, lo: u64, start: u64) -> RangeAnswer
    ghost old: { CacheSlot }
    requires* { sem 𝓛 (lies_at the_row full_share cache old) }
    ensures* { ∃ₛ (λ (new : CacheSlot). sem 𝓛 (lies_at the_row full_share cache new)
        ∗ ⌜ UnmapCall old.cache lo start result new.cache ⌝) }
{
    unmap(&mut *(cache as *mut CacheSlot), lo, start)
}

/// `iova_cache_unmap`, answered in two registers.
#[unsafe(no_mangle)]
pub unsafe extern "C" fn iova_cache_unmap_packed(
    cache: *mut CacheRoom,
    lo: u64,
    start: u64,
) -> PackedAnswer
    ghost old: { CacheSlot }
    requires* { sem 𝓛 (lies_at the_row full_share cache old) }
    ensures* { ∃ₛ (λ (new : CacheSlot). sem 𝓛 (lies_at the_row full_share cache new)
        ∗ ⌜ UnmapCall old.cache lo start (unpacked result) new.cache ⌝) }
{
    unmap_packed(&mut *(cache as *mut CacheSlot), lo, start)
}

/// `iova_cache_alloc` in bytes, below a mask.
#[unsafe(no_mangle)]
pub unsafe extern "C" fn iova_cache_map(
    cache: *mut CacheRoom,
    bytes: u64,
    mask: u64,
) -> MappingAnswer
    ghost old: { CacheSlot }
    requires* { sem 𝓛 (lies_at the_row full_share cache old) }
    ensures* { ∃ₛ (λ (new : CacheSlot). sem 𝓛 (lies_at the_row full_share cache new)
        ∗ ⌜ MapCall old.cache (frames_of (granule_in old.cache) bytes)
        (last_frame (granule_in old.cache) mask) result new.cache ⌝) }
{
    map_cached(&mut *(cache as *mut CacheSlot), bytes, mask)
}

/// `iova_cache_unmap` in bytes.
#[unsafe(no_mangle)]
pub unsafe extern "C" fn iova_cache_unmap_bytes(
    cache: *mut CacheRoom,
    address: u64,
    start: u64,
) -> MappingAnswer
    ghost old: { CacheSlot }
    requires* { sem 𝓛 (lies_at the_row full_share cache old) }
    ensures* { ∃ₛ (λ (new : CacheSlot). sem 𝓛 (lies_at the_row full_share cache new)
        ∗ ⌜ UnmapBytesCall old.cache (frame_at (granule_in old.cache) address) start result
        new.cache ⌝) }
{
    unmap_bytes_cached(&mut *(cache as *mut CacheSlot), address, start)
}

/// What a flush has covered goes from the ring into the magazines.
#[unsafe(no_mangle)]
pub unsafe extern "C" fn iova_cache_settle(cache: *mut CacheRoom, newest: u64) -> NumberAnswer
    ghost old: { CacheSlot }
    requires* { sem 𝓛 (lies_at the_row full_share cache old) }
    ensures* { ∃ₛ (λ (new : CacheSlot). sem 𝓛 (lies_at the_row full_share cache new)
        ∗ ⌜ SettleCall old.cache newest result new.cache ⌝) }
{
    settle(&mut *(cache as *mut CacheSlot), newest)
}

/// How many ranges are where.
#[unsafe(no_mangle)]
pub unsafe extern "C" fn iova_cache_counts_of(cache: *mut CacheRoom) -> CacheCountsAnswer
    ghost old: { CacheSlot }
    requires* { sem 𝓛 (lies_at the_row full_share cache old) }
    ensures* { ∃ₛ (λ (new : CacheSlot). sem 𝓛 (lies_at the_row full_share cache new)
        ∗ ⌜ CountsCall old.cache result new.cache ⌝) }
{
    counts(&mut *(cache as *mut CacheSlot))
}

/// A range comes into its magazine.
#[unsafe(no_mangle)]
pub unsafe extern "C" fn iova_cache_put(cache: *mut CacheRoom, lo: u64, len: u64) -> u64
    ghost old: { CacheSlot }
    requires* { sem 𝓛 (lies_at the_row full_share cache old) }
    ensures* { ∃ₛ (λ (new : CacheSlot). sem 𝓛 (lies_at the_row full_share cache new)
        ∗ ⌜ PutCall old.cache lo len result new.cache ⌝) }
{
    put(&mut *(cache as *mut CacheSlot), lo, len)
}

/// The newest range of an order goes out of the cache.
#[unsafe(no_mangle)]
pub unsafe extern "C" fn iova_cache_take(cache: *mut CacheRoom, order: u64) -> RangeAnswer
    ghost old: { CacheSlot }
    requires* { sem 𝓛 (lies_at the_row full_share cache old) }
    ensures* { ∃ₛ (λ (new : CacheSlot). sem 𝓛 (lies_at the_row full_share cache new)
        ∗ ⌜ TakeCall old.cache order result new.cache ⌝) }
{
    take(&mut *(cache as *mut CacheSlot), order)
}

/// Room for one range more of the user's.
#[unsafe(no_mangle)]
pub unsafe extern "C" fn iova_cache_make_room(cache: *mut CacheRoom) -> u64
    ghost old: { CacheSlot }
    requires* { sem 𝓛 (lies_at the_row full_share cache old) }
    ensures* { ∃ₛ (λ (new : CacheSlot). sem 𝓛 (lies_at the_row full_share cache new)
        ∗ ⌜ RoomCall old.cache result new.cache ⌝) }
{
    make_room(&mut *(cache as *mut CacheSlot))
}

/// A range goes to the user.
#[unsafe(no_mangle)]
pub unsafe extern "C" fn iova_cache_keep(cache: *mut CacheRoom, lo: u64, len: u64) -> u64
    ghost old: { CacheSlot }
    requires* { sem 𝓛 (lies_at the_row full_share cache old) }
    ensures* { ∃ₛ (λ (new : CacheSlot). sem 𝓛 (lies_at the_row full_share cache new)
        ∗ ⌜ KeepCall old.cache lo len result new.cache ⌝) }
{
    keep(&mut *(cache as *mut CacheSlot), lo, len)
}

/// The range that begins there goes from the user out of the cache.
#[unsafe(no_mangle)]
pub unsafe extern "C" fn iova_cache_release(cache: *mut CacheRoom, lo: u64) -> RangeAnswer
    ghost old: { CacheSlot }
    requires* { sem 𝓛 (lies_at the_row full_share cache old) }
    ensures* { ∃ₛ (λ (new : CacheSlot). sem 𝓛 (lies_at the_row full_share cache new)
        ∗ ⌜ ReleaseCall old.cache lo result new.cache ⌝) }
{
    release(&mut *(cache as *mut CacheSlot), lo)
}

/// Some range of the user goes out of the cache.
#[unsafe(no_mangle)]
pub unsafe extern "C" fn iova_cache_any(cache: *mut CacheRoom) -> RangeAnswer
    ghost old: { CacheSlot }
    requires* { sem 𝓛 (lies_at the_row full_share cache old) }
    ensures* { ∃ₛ (λ (new : CacheSlot). sem 𝓛 (lies_at the_row full_share cache new)
        ∗ ⌜ AnyCall old.cache result new.cache ⌝) }
{
    any(&mut *(cache as *mut CacheSlot))
}

/// A cache of a new client of the worker. Answers the client's number. `sac` is 0 or not.
#[unsafe(no_mangle)]
pub unsafe extern "C" fn iova_cache_make(
    alloc: Global,
    domain: *mut SlotRoom,
    cache: *mut CacheRoom,
    worker: u64,
    sac: u64,
) -> NumberAnswer
    ghost old: { Slot × CacheSlot }
    requires* { sem 𝓛 (lies_at slot_row full_share domain old.0)
        ∗ sem 𝓛 (lies_at the_row full_share cache old.1) }
    ensures* { ∃ₛ (λ (new : Slot × CacheSlot). sem 𝓛 (lies_at slot_row full_share domain new.0)
        ∗ sem 𝓛 (lies_at the_row full_share cache new.1)
        ∗ ⌜ MakeCall old.0.domain old.1.cache worker (is_set sac) result new.0.domain new.1.cache
        ⌝) }
{
    make(
        alloc,
        &mut *(domain as *mut Slot),
        &mut *(cache as *mut CacheSlot),
        worker,
        sac,
    )
}

/// Ranges of the domain come into the magazines.
#[unsafe(no_mangle)]
pub unsafe extern "C" fn iova_cache_refill(
    domain: *mut SlotRoom,
    cache: *mut CacheRoom,
    frames: u64,
    limit: u64,
    most: u64,
) -> NumberAnswer
    ghost old: { Slot × CacheSlot }
    requires* { sem 𝓛 (lies_at slot_row full_share domain old.0)
        ∗ sem 𝓛 (lies_at the_row full_share cache old.1) }
    ensures* { ∃ₛ (λ (new : Slot × CacheSlot). sem 𝓛 (lies_at slot_row full_share domain new.0)
        ∗ sem 𝓛 (lies_at the_row full_share cache new.1)
        ∗ ⌜ RefillCall old.0.domain old.1.cache frames limit most result new.0.domain new.1.cache
        ⌝) }
{
    refill(
        &mut *(domain as *mut Slot),
        &mut *(cache as *mut CacheSlot),
        frames,
        limit,
        most,
    )
}

/// Ranges of the magazines of an order go back to the domain.
#[unsafe(no_mangle)]
pub unsafe extern "C" fn iova_cache_spill(
    domain: *mut SlotRoom,
    cache: *mut CacheRoom,
    order: u64,
    most: u64,
) -> NumberAnswer
    ghost old: { Slot × CacheSlot }
    requires* { sem 𝓛 (lies_at slot_row full_share domain old.0)
        ∗ sem 𝓛 (lies_at the_row full_share cache old.1) }
    ensures* { ∃ₛ (λ (new : Slot × CacheSlot). sem 𝓛 (lies_at slot_row full_share domain new.0)
        ∗ sem 𝓛 (lies_at the_row full_share cache new.1)
        ∗ ⌜ SpillCall old.0.domain old.1.cache order most result new.0.domain new.1.cache ⌝) }
{
    spill(
        &mut *(domain as *mut Slot),
        &mut *(cache as *mut CacheSlot),
        order,
        most,
    )
}

/// A range of the domain for the user.
#[unsafe(no_mangle)]
pub unsafe extern "C" fn iova_cache_alloc_by(
    domain: *mut SlotRoom,
    cache: *mut CacheRoom,
    frames: u64,
    limit: u64,
) -> RangeAnswer
    ghost old: { Slot × CacheSlot }
    requires* { sem 𝓛 (lies_at slot_row full_share domain old.0)
        ∗ sem 𝓛 (lies_at the_row full_share cache old.1) }
    ensures* { ∃ₛ (λ (new : Slot × CacheSlot). sem 𝓛 (lies_at slot_row full_share domain new.0)
        ∗ sem 𝓛 (lies_at the_row full_share cache new.1)
        ∗ ⌜ AllocByCall old.0.domain old.1.cache frames limit result new.0.domain new.1.cache ⌝) }
{
    alloc_by(
        &mut *(domain as *mut Slot),
        &mut *(cache as *mut CacheSlot),
        frames,
        limit,
    )
}

/// What begins there goes from the user to the domain's ring.
#[unsafe(no_mangle)]
pub unsafe extern "C" fn iova_cache_unmap_by(
    domain: *mut SlotRoom,
    cache: *mut CacheRoom,
    lo: u64,
) -> RangeAnswer
    ghost old: { Slot × CacheSlot }
    requires* { sem 𝓛 (lies_at slot_row full_share domain old.0)
        ∗ sem 𝓛 (lies_at the_row full_share cache old.1) }
    ensures* { ∃ₛ (λ (new : Slot × CacheSlot). sem 𝓛 (lies_at slot_row full_share domain new.0)
        ∗ sem 𝓛 (lies_at the_row full_share cache new.1)
        ∗ ⌜ UnmapByCall old.0.domain old.1.cache lo result new.0.domain new.1.cache ⌝) }
{
    unmap_by(
        &mut *(domain as *mut Slot),
        &mut *(cache as *mut CacheSlot),
        lo,
    )
}

/// The cache is gone, and its client is marked closing.
#[unsafe(no_mangle)]
pub unsafe extern "C" fn iova_cache_end(
    domain: *mut SlotRoom,
    cache: *mut CacheRoom,
) -> NumberAnswer
    ghost old: { Slot × CacheSlot }
    requires* { sem 𝓛 (lies_at slot_row full_share domain old.0)
        ∗ sem 𝓛 (lies_at the_row full_share cache old.1) }
    ensures* { ∃ₛ (λ (new : Slot × CacheSlot). sem 𝓛 (lies_at slot_row full_share domain new.0)
        ∗ sem 𝓛 (lies_at the_row full_share cache new.1)
        ∗ ⌜ EndCall old.0.domain old.1.cache result new.0.domain new.1.cache ⌝) }
{
    end(&mut *(domain as *mut Slot), &mut *(cache as *mut CacheSlot))
}
