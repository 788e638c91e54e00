//! Mappings in bytes and masks, as a driver asks for them.
ghost use Rattle.std.specs.Prelude.{◌≡◌, ◌<◌, ◌*◌, ◌^◌};
ghost use Rattle.iova_c.specs.Bytes.{frame_at, frames_of, last_frame};
ghost use Rattle.iova_c.specs.Slots.{granule_of, MappingStep};
ghost use Rattle.iova_c.specs.Caches.{granule_in, in_bytes, MapCall, UnmapBytesCall};

use crate::answer::{MappingAnswer, RangeAnswer, no_range, of_mapping};
use crate::cached::{CacheSlot, NO_CACHE, alloc, unmap};
use crate::slot::Slot;
use iova_laws::replies::{queued_were_held, steps_are_answered_in_kind};
use iova_laws::requests::requests_are_answered;
use iova_model::step::{Reply, Step};
use iova_range::limits::FRAME_BYTES;
use iova_range::refusal::Refusal;

/// `Alloc` in bytes: frames for so many bytes, none of them with an address above the mask.
pub fn map(slot: &mut Slot, worker: u64, client: u64, bytes: u64, mask: u64) -> MappingAnswer
    ensures { MappingStep slot.old.domain
        (Step.Alloc worker client (frames_of (granule_of slot.old.domain) bytes)
        (last_frame (granule_of slot.old.domain) mask)) result slot.new.domain }
{
    // for the proof: what is given has no frame above the limit
    requests_are_answered();
    match &mut slot.domain {
        Some(paged) => {
            // for the proof: the state is valid
            let _workers = paged.domain.workers();
            let step = Step::Alloc {
                worker,
                client,
                frames: paged.granule.frames_of(bytes),
                limit: paged.granule.last_frame(mask),
            };
            of_mapping(paged.granule.bytes(), paged.domain.step(step))
        }
        None => of_mapping(FRAME_BYTES, Reply::Refused(Refusal::NoDomain)),
    }
}

/// `Unmap` in bytes: the holding in whose first frame the address is.
pub fn unmap_bytes(slot: &mut Slot, worker: u64, client: u64, address: u64) -> MappingAnswer
    ensures { MappingStep slot.old.domain
        (Step.Unmap worker client (frame_at (granule_of slot.old.domain) address)) result
        slot.new.domain }
{
    // for the proof: what is queued begins at that frame, and was held
    steps_are_answered_in_kind();
    queued_were_held();
    match &mut slot.domain {
        Some(paged) => {
            // for the proof: the state is valid
            let _workers = paged.domain.workers();
            let step = Step::Unmap {
                worker,
                client,
                lo: paged.granule.frame_at(address),
            };
            of_mapping(paged.granule.bytes(), paged.domain.step(step))
        }
        None => of_mapping(FRAME_BYTES, Reply::Refused(Refusal::NoDomain)),
    }
}

/// `cached::alloc` in bytes.
pub fn map_cached(slot: &mut CacheSlot, bytes: u64, mask: u64) -> MappingAnswer
    ensures { MapCall slot.old.cache (frames_of (granule_in slot.old.cache) bytes)
        (last_frame (granule_in slot.old.cache) mask) result slot.new.cache }
{
    let Some(cached) = &slot.cache else {
        return in_bytes(FRAME_BYTES, no_range(NO_CACHE));
    };
    let granule = cached.granule.bytes();
    let frames = cached.granule.frames_of(bytes);
    let limit = cached.granule.last_frame(mask);
    in_bytes(granule, alloc(slot, frames, limit))
}

/// `cached::unmap` in bytes.
pub fn unmap_bytes_cached(slot: &mut CacheSlot, address: u64, start: u64) -> MappingAnswer
    ensures { UnmapBytesCall slot.old.cache (frame_at (granule_in slot.old.cache) address) start
        result slot.new.cache }
{
    let Some(cached) = &slot.cache else {
        return in_bytes(FRAME_BYTES, no_range(NO_CACHE));
    };
    let granule = cached.granule.bytes();
    let lo = cached.granule.frame_at(address);
    in_bytes(granule, unmap(slot, lo, start))
}

/// The addresses of a range that is answered, in bytes, of which a frame has so many.
#[inline(always)]
fn in_bytes(granule: u64, answer: RangeAnswer) -> MappingAnswer
    requires lo { answer.lo * granule < 2 ^ 64 }
    requires len { answer.len * granule < 2 ^ 64 }
    ensures { result ≡ in_bytes granule answer }
{
    MappingAnswer {
        refused: answer.refused,
        address: answer.lo * granule,
        bytes: answer.len * granule,
    }
}
