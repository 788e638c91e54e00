//! The functions that C calls. Each takes a pointer to a slot, which the caller lends for the call:
//! it lies there before and after, and nobody else reads or writes it meanwhile. Each is one call
//! of a function of this crate, whose contract it has.
ghost use Rattle.std.specs.Prelude.{◌≡◌, ◌≤◌, None};
ghost use Rattle.std.specs.Borrow.{full_share, sem};
ghost use Rattle.std.specs.Ptr.{lies_at, room_at};
ghost use denote.Memory.{mem};
ghost use Rattle.iova_c.specs.Bytes.{frame_at, frames_of, last_frame};
ghost use Rattle.iova_c.specs.Lists.{ListsHoldings, ListsWindows};
ghost use Rattle.iova_c.specs.Readers.{Reads, place_answer, counts_answer, totals_answer, share_answer, client_answer, bounds_answer, flushes_answer, granule_answer};
ghost use Rattle.iova_c.specs.Slots.{is_set, granule_of, OpenStep, RangeStep, NumberStep, WordStep, MappingStep, HasMade, HasMadeSecond};
ghost use Rattle.iova_c.specs.contracts.slot.Slot.{the_row};

use crate::answer::{
    BoundsAnswer, ClientAnswer, CountsAnswer, FlushesAnswer, Listed, MappingAnswer, NumberAnswer,
    PlaceAnswer, RangeAnswer, TotalsAnswer,
};
use crate::bytes::{map, unmap_bytes};
use crate::lists::{holdings, windows};
use crate::readers::{bounds, client_of, counts, flushes, granule, place, share, totals};
use crate::slot::{Slot, clear, empty, make, make_granule, make_second, make_second_granule};
use crate::steps::{alloc, begin, close, close_one, drain, end, open, reserve, unmap};
use iova_model::step::Step;
use iova_range::limits::FRAME_BYTES;
use std::alloc::Global;

/// The type that C has for a slot. No value of it is ever made: a pointer to one is a pointer to a
/// `Slot`.
#[repr(C)]
pub struct SlotRoom {
    never: u8,
}

/// How many bytes a slot has.
#[unsafe(no_mangle)]
pub extern "C" fn iova_domain_size() -> usize
    ensures exact { result ≡ (mem the_row).size }
    ensures small { result ≤ 1536 }
{
    size_of::<Slot>()
}

/// Makes a slot, with no domain, of room for one.
#[unsafe(no_mangle)]
pub unsafe extern "C" fn iova_domain_init(domain: *mut SlotRoom)
    requires* { sem 𝓛 (room_at the_row domain) }
    ensures* { sem 𝓛 (lies_at the_row full_share domain (record { domain = None })) }
{
    (domain as *mut Slot).write(empty());
}

/// Makes a domain for the slot, in place of the one that it has, in frames of 4,096 bytes. Answers
/// 0, or the number of the refusal.
#[unsafe(no_mangle)]
pub unsafe extern "C" fn iova_domain_make(
    alloc: Global,
    domain: *mut SlotRoom,
    start: u64,
    last: u64,
    workers: u64,
) -> u64
    ghost old: { Slot }
    requires* { sem 𝓛 (lies_at the_row full_share domain old) }
    ensures* { ∃ₛ (λ (new : Slot). sem 𝓛 (lies_at the_row full_share domain new)
        ∗ ⌜ HasMade FRAME_BYTES old.domain start last workers result new.domain ⌝) }
{
    make(alloc, &mut *(domain as *mut Slot), start, last, workers)
}

/// Makes a domain of the second profile. Answers 0, or the number of the refusal.
#[unsafe(no_mangle)]
pub unsafe extern "C" fn iova_domain_make_second(
    alloc: Global,
    domain: *mut SlotRoom,
    start: u64,
    last: u64,
    workers: u64,
    depot: u64,
) -> u64
    ghost old: { Slot }
    requires* { sem 𝓛 (lies_at the_row full_share domain old) }
    ensures* { ∃ₛ (λ (new : Slot). sem 𝓛 (lies_at the_row full_share domain new)
        ∗ ⌜ HasMadeSecond FRAME_BYTES old.domain start last workers depot result new.domain ⌝) }
{
    make_second(
        alloc,
        &mut *(domain as *mut Slot),
        start,
        last,
        workers,
        depot,
    )
}

/// `iova_domain_make` in frames of so many bytes.
#[unsafe(no_mangle)]
pub unsafe extern "C" fn iova_domain_make_granule(
    alloc: Global,
    domain: *mut SlotRoom,
    start: u64,
    last: u64,
    workers: u64,
    granule: u64,
) -> u64
    ghost old: { Slot }
    requires* { sem 𝓛 (lies_at the_row full_share domain old) }
    ensures* { ∃ₛ (λ (new : Slot). sem 𝓛 (lies_at the_row full_share domain new)
        ∗ ⌜ HasMade granule old.domain start last workers result new.domain ⌝) }
{
    make_granule(
        alloc,
        &mut *(domain as *mut Slot),
        start,
        last,
        workers,
        granule,
    )
}

/// `iova_domain_make_second` in frames of so many bytes.
#[unsafe(no_mangle)]
pub unsafe extern "C" fn iova_domain_make_second_granule(
    alloc: Global,
    domain: *mut SlotRoom,
    start: u64,
    last: u64,
    workers: u64,
    depot: u64,
    granule: u64,
) -> u64
    ghost old: { Slot }
    requires* { sem 𝓛 (lies_at the_row full_share domain old) }
    ensures* { ∃ₛ (λ (new : Slot). sem 𝓛 (lies_at the_row full_share domain new)
        ∗ ⌜ HasMadeSecond granule old.domain start last workers depot result new.domain ⌝) }
{
    make_second_granule(
        alloc,
        &mut *(domain as *mut Slot),
        start,
        last,
        workers,
        depot,
        granule,
    )
}

/// Ends the domain of the slot, and gives its memory back. The slot may be used again, or its room
/// left.
#[unsafe(no_mangle)]
pub unsafe extern "C" fn iova_domain_clear(domain: *mut SlotRoom)
    ghost old: { Slot }
    requires* { sem 𝓛 (lies_at the_row full_share domain old) }
    ensures* { ∃ₛ (λ (new : Slot). sem 𝓛 (lies_at the_row full_share domain new)
        ∗ ⌜ new.domain ≡ None ⌝) }
{
    clear(&mut *(domain as *mut Slot))
}

/// `Reserve`.
#[unsafe(no_mangle)]
pub unsafe extern "C" fn iova_reserve(domain: *mut SlotRoom, lo: u64, hi: u64) -> RangeAnswer
    ghost old: { Slot }
    requires* { sem 𝓛 (lies_at the_row full_share domain old) }
    ensures* { ∃ₛ (λ (new : Slot). sem 𝓛 (lies_at the_row full_share domain new)
        ∗ ⌜ RangeStep old.domain (Step.Reserve lo hi) result new.domain ⌝) }
{
    reserve(&mut *(domain as *mut Slot), lo, hi)
}

/// `Open`. `sac` is 0 or not.
#[unsafe(no_mangle)]
pub unsafe extern "C" fn iova_open(domain: *mut SlotRoom, worker: u64, sac: u64) -> NumberAnswer
    ghost old: { Slot }
    requires* { sem 𝓛 (lies_at the_row full_share domain old) }
    ensures* { ∃ₛ (λ (new : Slot). sem 𝓛 (lies_at the_row full_share domain new)
        ∗ ⌜ OpenStep old.domain worker (is_set sac) result new.domain ⌝) }
{
    open(&mut *(domain as *mut Slot), worker, sac)
}

/// `Alloc`.
#[unsafe(no_mangle)]
pub unsafe extern "C" fn iova_alloc(
    domain: *mut SlotRoom,
    worker: u64,
    client: u64,
    frames: u64,
    limit: u64,
) -> RangeAnswer
    ghost old: { Slot }
    requires* { sem 𝓛 (lies_at the_row full_share domain old) }
    ensures* { ∃ₛ (λ (new : Slot). sem 𝓛 (lies_at the_row full_share domain new)
        ∗ ⌜ RangeStep old.domain (Step.Alloc worker client frames limit) result new.domain ⌝) }
{
    alloc(&mut *(domain as *mut Slot), worker, client, frames, limit)
}

/// `Unmap`.
#[unsafe(no_mangle)]
pub unsafe extern "C" fn iova_unmap(
    domain: *mut SlotRoom,
    worker: u64,
    client: u64,
    lo: u64,
) -> RangeAnswer
    ghost old: { Slot }
    requires* { sem 𝓛 (lies_at the_row full_share domain old) }
    ensures* { ∃ₛ (λ (new : Slot). sem 𝓛 (lies_at the_row full_share domain new)
        ∗ ⌜ RangeStep old.domain (Step.Unmap worker client lo) result new.domain ⌝) }
{
    unmap(&mut *(domain as *mut Slot), worker, client, lo)
}

/// `Begin`.
#[unsafe(no_mangle)]
pub unsafe extern "C" fn iova_begin(domain: *mut SlotRoom) -> NumberAnswer
    ghost old: { Slot }
    requires* { sem 𝓛 (lies_at the_row full_share domain old) }
    ensures* { ∃ₛ (λ (new : Slot). sem 𝓛 (lies_at the_row full_share domain new)
        ∗ ⌜ NumberStep old.domain Step.Begin result new.domain ⌝) }
{
    begin(&mut *(domain as *mut Slot))
}

/// `End`. `ok` is 0 where the flush failed.
#[unsafe(no_mangle)]
pub unsafe extern "C" fn iova_end(domain: *mut SlotRoom, no: u64, ok: u64) -> u64
    ghost old: { Slot }
    requires* { sem 𝓛 (lies_at the_row full_share domain old) }
    ensures* { ∃ₛ (λ (new : Slot). sem 𝓛 (lies_at the_row full_share domain new)
        ∗ ⌜ WordStep old.domain (Step.End no (is_set ok)) result new.domain ⌝) }
{
    end(&mut *(domain as *mut Slot), no, ok)
}

/// `Drain`.
#[unsafe(no_mangle)]
pub unsafe extern "C" fn iova_drain(domain: *mut SlotRoom, ring: u64, by: u64) -> NumberAnswer
    ghost old: { Slot }
    requires* { sem 𝓛 (lies_at the_row full_share domain old) }
    ensures* { ∃ₛ (λ (new : Slot). sem 𝓛 (lies_at the_row full_share domain new)
        ∗ ⌜ NumberStep old.domain (Step.Drain ring by) result new.domain ⌝) }
{
    drain(&mut *(domain as *mut Slot), ring, by)
}

/// `Close`.
#[unsafe(no_mangle)]
pub unsafe extern "C" fn iova_close(domain: *mut SlotRoom, worker: u64, client: u64) -> NumberAnswer
    ghost old: { Slot }
    requires* { sem 𝓛 (lies_at the_row full_share domain old) }
    ensures* { ∃ₛ (λ (new : Slot). sem 𝓛 (lies_at the_row full_share domain new)
        ∗ ⌜ NumberStep old.domain (Step.Close worker client) result new.domain ⌝) }
{
    close(&mut *(domain as *mut Slot), worker, client)
}

/// `CloseOne`.
#[unsafe(no_mangle)]
pub unsafe extern "C" fn iova_close_one(
    domain: *mut SlotRoom,
    worker: u64,
    client: u64,
) -> RangeAnswer
    ghost old: { Slot }
    requires* { sem 𝓛 (lies_at the_row full_share domain old) }
    ensures* { ∃ₛ (λ (new : Slot). sem 𝓛 (lies_at the_row full_share domain new)
        ∗ ⌜ RangeStep old.domain (Step.CloseOne worker client) result new.domain ⌝) }
{
    close_one(&mut *(domain as *mut Slot), worker, client)
}

/// `Alloc` in bytes, below a mask.
#[unsafe(no_mangle)]
pub unsafe extern "C" fn iova_map(
    domain: *mut SlotRoom,
    worker: u64,
    client: u64,
    bytes: u64,
    mask: u64,
) -> MappingAnswer
    ghost old: { Slot }
    requires* { sem 𝓛 (lies_at the_row full_share domain old) }
    ensures* { ∃ₛ (λ (new : Slot). sem 𝓛 (lies_at the_row full_share domain new)
        ∗ ⌜ MappingStep old.domain (Step.Alloc worker client
        (frames_of (granule_of old.domain) bytes) (last_frame (granule_of old.domain) mask)) result
        new.domain ⌝) }
{
    map(&mut *(domain as *mut Slot), worker, client, bytes, mask)
}

/// `Unmap` in bytes.
#[unsafe(no_mangle)]
pub unsafe extern "C" fn iova_unmap_bytes(
    domain: *mut SlotRoom,
    worker: u64,
    client: u64,
    address: u64,
) -> MappingAnswer
    ghost old: { Slot }
    requires* { sem 𝓛 (lies_at the_row full_share domain old) }
    ensures* { ∃ₛ (λ (new : Slot). sem 𝓛 (lies_at the_row full_share domain new)
        ∗ ⌜ MappingStep old.domain
        (Step.Unmap worker client (frame_at (granule_of old.domain) address)) result new.domain ⌝) }
{
    unmap_bytes(&mut *(domain as *mut Slot), worker, client, address)
}

/// Where a frame is.
#[unsafe(no_mangle)]
pub unsafe extern "C" fn iova_place_of(domain: *mut SlotRoom, frame: u64) -> PlaceAnswer
    ghost old: { Slot }
    requires* { sem 𝓛 (lies_at the_row full_share domain old) }
    ensures* { ∃ₛ (λ (new : Slot). sem 𝓛 (lies_at the_row full_share domain new)
        ∗ ⌜ Reads (place_answer frame) old.domain result new.domain ⌝) }
{
    place(&mut *(domain as *mut Slot), frame)
}

/// The frames at each kind of place, the clients, the windows.
#[unsafe(no_mangle)]
pub unsafe extern "C" fn iova_counts_of(domain: *mut SlotRoom) -> CountsAnswer
    ghost old: { Slot }
    requires* { sem 𝓛 (lies_at the_row full_share domain old) }
    ensures* { ∃ₛ (λ (new : Slot). sem 𝓛 (lies_at the_row full_share domain new)
        ∗ ⌜ Reads counts_answer old.domain result new.domain ⌝) }
{
    counts(&mut *(domain as *mut Slot))
}

/// The totals over all clients.
#[unsafe(no_mangle)]
pub unsafe extern "C" fn iova_totals_of(domain: *mut SlotRoom) -> TotalsAnswer
    ghost old: { Slot }
    requires* { sem 𝓛 (lies_at the_row full_share domain old) }
    ensures* { ∃ₛ (λ (new : Slot). sem 𝓛 (lies_at the_row full_share domain new)
        ∗ ⌜ Reads totals_answer old.domain result new.domain ⌝) }
{
    totals(&mut *(domain as *mut Slot))
}

/// A worker's share of the totals.
#[unsafe(no_mangle)]
pub unsafe extern "C" fn iova_share_of(domain: *mut SlotRoom, worker: u64) -> TotalsAnswer
    ghost old: { Slot }
    requires* { sem 𝓛 (lies_at the_row full_share domain old) }
    ensures* { ∃ₛ (λ (new : Slot). sem 𝓛 (lies_at the_row full_share domain new)
        ∗ ⌜ Reads (share_answer worker) old.domain result new.domain ⌝) }
{
    share(&mut *(domain as *mut Slot), worker)
}

/// A client.
#[unsafe(no_mangle)]
pub unsafe extern "C" fn iova_client_of(domain: *mut SlotRoom, client: u64) -> ClientAnswer
    ghost old: { Slot }
    requires* { sem 𝓛 (lies_at the_row full_share domain old) }
    ensures* { ∃ₛ (λ (new : Slot). sem 𝓛 (lies_at the_row full_share domain new)
        ∗ ⌜ Reads (client_answer client) old.domain result new.domain ⌝) }
{
    client_of(&mut *(domain as *mut Slot), client)
}

/// The bounds, the profile and the workers.
#[unsafe(no_mangle)]
pub unsafe extern "C" fn iova_bounds_of(domain: *mut SlotRoom) -> BoundsAnswer
    ghost old: { Slot }
    requires* { sem 𝓛 (lies_at the_row full_share domain old) }
    ensures* { ∃ₛ (λ (new : Slot). sem 𝓛 (lies_at the_row full_share domain new)
        ∗ ⌜ Reads bounds_answer old.domain result new.domain ⌝) }
{
    bounds(&mut *(domain as *mut Slot))
}

/// How many bytes a frame has.
#[unsafe(no_mangle)]
pub unsafe extern "C" fn iova_granule_of(domain: *mut SlotRoom) -> NumberAnswer
    ghost old: { Slot }
    requires* { sem 𝓛 (lies_at the_row full_share domain old) }
    ensures* { ∃ₛ (λ (new : Slot). sem 𝓛 (lies_at the_row full_share domain new)
        ∗ ⌜ Reads granule_answer old.domain result new.domain ⌝) }
{
    granule(&mut *(domain as *mut Slot))
}

/// The numbers of the flushes.
#[unsafe(no_mangle)]
pub unsafe extern "C" fn iova_flushes_of(domain: *mut SlotRoom) -> FlushesAnswer
    ghost old: { Slot }
    requires* { sem 𝓛 (lies_at the_row full_share domain old) }
    ensures* { ∃ₛ (λ (new : Slot). sem 𝓛 (lies_at the_row full_share domain new)
        ∗ ⌜ Reads flushes_answer old.domain result new.domain ⌝) }
{
    flushes(&mut *(domain as *mut Slot))
}

/// A client's holdings, in a list.
#[unsafe(no_mangle)]
pub unsafe extern "C" fn iova_holdings_of(
    domain: *mut SlotRoom,
    client: u64,
    list: &mut [Listed],
) -> NumberAnswer
    ghost old: { Slot }
    requires* { sem 𝓛 (lies_at the_row full_share domain old) }
    ensures* { ∃ₛ (λ (new : Slot). sem 𝓛 (lies_at the_row full_share domain new)
        ∗ ⌜ ListsHoldings old.domain client list.old result list.new new.domain ⌝) }
{
    holdings(&mut *(domain as *mut Slot), client, list)
}

/// The windows, in a list.
#[unsafe(no_mangle)]
pub unsafe extern "C" fn iova_windows_of(domain: *mut SlotRoom, list: &mut [Listed]) -> NumberAnswer
    ghost old: { Slot }
    requires* { sem 𝓛 (lies_at the_row full_share domain old) }
    ensures* { ∃ₛ (λ (new : Slot). sem 𝓛 (lies_at the_row full_share domain new)
        ∗ ⌜ ListsWindows old.domain list.old result list.new new.domain ⌝) }
{
    windows(&mut *(domain as *mut Slot), list)
}
