//! A place for one domain.
ghost use Rattle.std.specs.Prelude.{◌≡◌, None};
ghost use Rattle.iova_c.specs.Slots.{HasStepped, HasMade, HasMadeSecond};

use crate::answer::number_of;
use crate::granule::{Granule, granule_of};
use iova_core::domain::Domain;
use iova_model::step::{Reply, Step};
use iova_range::bounds::Bounds;
use iova_range::limits::FRAME_BYTES;
use iova_range::profile::Profile;
use iova_range::refusal::Refusal;
use std::alloc::Global;

/// A domain, and how many bytes its frames have.
#[derive(Drop)]
pub struct Paged {
    pub(crate) domain: Domain,
    pub(crate) granule: Granule,
}

/// A domain, or none.
#[derive(Drop)]
pub struct Slot {
    pub(crate) domain: Option<Paged>,
}

const _: () = prove!(size_of::<Slot>() <= 1536);

const _: () = prove!(align_of::<Slot>() <= 8);

/// A slot with no domain.
pub fn empty() -> Slot
    ensures { result.domain ≡ None }
{
    Slot { domain: None }
}

/// The slot's domain takes the step. `NoDomain` where it has none.
#[inline(always)]
pub fn step(slot: &mut Slot, step: Step) -> Reply
    ensures { HasStepped slot.old.domain step result slot.new.domain }
{
    match &mut slot.domain {
        Some(paged) => paged.domain.step(step),
        None => Reply::Refused(Refusal::NoDomain),
    }
}

/// The slot's domain takes the step. `NoDomain` where it has none. `Unmap` is out of line.
#[inline(always)]
pub fn step_cold(slot: &mut Slot, step: Step) -> Reply
    ensures { HasStepped slot.old.domain step result slot.new.domain }
{
    match &mut slot.domain {
        Some(paged) => paged.domain.step_cold(step),
        None => Reply::Refused(Refusal::NoDomain),
    }
}

/// Whether the slot has a domain in which this `Unmap` calls nothing. Nothing is promised.
#[inline(always)]
pub fn is_unmap_fast(slot: &Slot, worker: u64, client: u64) -> bool {
    match &slot.domain {
        Some(paged) => paged.domain.is_unmap_fast(worker, client),
        None => false,
    }
}

/// A new domain of the first profile for the slot, in frames of so many bytes, in place of the one
/// that it has. Answers 0, or the number of the refusal, by which nothing has changed: `BadProfile`
/// exactly where the bytes are no granule; `BadWindow`, `NoWorker`, `NoMemory`.
pub fn make_granule(
    alloc: Global,
    slot: &mut Slot,
    start: u64,
    last: u64,
    workers: u64,
    granule: u64,
) -> u64
    ensures { HasMade granule slot.old.domain start last workers result slot.new.domain }
{
    match granule_of(granule) {
        Err(refusal) => number_of(refusal),
        Ok(granule) => match Bounds::new(start, last) {
            Err(refusal) => number_of(refusal),
            Ok(bounds) => match Domain::new(alloc, bounds, workers) {
                Err(refusal) => number_of(refusal),
                Ok(domain) => {
                    slot.domain = Some(Paged { domain, granule });
                    0
                }
            },
        },
    }
}

/// Makes a domain of the second profile, with so many magazines of each order in the depot.
/// `BadProfile` where they are too many; else refused as one of the kernel's profile.
pub fn make_second_granule(
    alloc: Global,
    slot: &mut Slot,
    start: u64,
    last: u64,
    workers: u64,
    depot: u64,
    granule: u64,
) -> u64
    ensures { HasMadeSecond granule slot.old.domain start last workers depot result
        slot.new.domain }
{
    match granule_of(granule) {
        Err(refusal) => number_of(refusal),
        Ok(granule) => match Profile::two(depot) {
            Err(refusal) => number_of(refusal),
            Ok(profile) => match Bounds::new_in(profile, start, last) {
                Err(refusal) => number_of(refusal),
                Ok(bounds) => match Domain::new(alloc, bounds, workers) {
                    Err(refusal) => number_of(refusal),
                    Ok(domain) => {
                        slot.domain = Some(Paged { domain, granule });
                        0
                    }
                },
            },
        },
    }
}

/// A new domain of the first profile in frames of 4,096 bytes.
pub fn make(alloc: Global, slot: &mut Slot, start: u64, last: u64, workers: u64) -> u64
    ensures { HasMade FRAME_BYTES slot.old.domain start last workers result slot.new.domain }
{
    make_granule(alloc, slot, start, last, workers, FRAME_BYTES)
}

/// A new domain of the second profile in frames of 4,096 bytes.
pub fn make_second(
    alloc: Global,
    slot: &mut Slot,
    start: u64,
    last: u64,
    workers: u64,
    depot: u64,
) -> u64
    ensures { HasMadeSecond FRAME_BYTES slot.old.domain start last workers depot result
        slot.new.domain }
{
    make_second_granule(alloc, slot, start, last, workers, depot, FRAME_BYTES)
}

/// Ends the slot's domain.
pub fn clear(slot: &mut Slot)
    ensures { slot.new.domain ≡ None }
{
    slot.domain = None;
}
