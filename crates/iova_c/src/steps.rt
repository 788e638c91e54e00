//! The steps of a slot's domain, in numbers.
ghost use Rattle.std.specs.Prelude.{◌≡◌, ◌≢◌};
ghost use Rattle.iova_c.specs.Answers.{unpacked};
ghost use Rattle.iova_c.specs.Slots.{is_set, granule_of, OpenStep, RangeStep, NumberStep, WordStep};

use crate::answer::{
    NumberAnswer, PackedAnswer, RangeAnswer, number_of, of_number, of_range, of_word, pack, unpack,
};
use crate::slot::{Slot, is_unmap_fast, step, step_cold};
use iova_model::step::{Reply, Step};
use iova_range::limits::FRAME_BYTES;
use iova_range::refusal::Refusal;

pub fn reserve(slot: &mut Slot, lo: u64, hi: u64) -> RangeAnswer
    ensures { RangeStep slot.old.domain (Step.Reserve lo hi) result slot.new.domain }
{
    of_range(step(slot, Step::Reserve { lo, hi }))
}

/// How many bytes a frame of the slot's domain has.
fn granule(slot: &Slot) -> u64
    ensures { result ≡ granule_of slot.now.domain }
{
    match &slot.domain {
        Some(paged) => paged.granule.bytes(),
        None => FRAME_BYTES,
    }
}

/// Single address cycles are refused by `BadProfile` in a domain whose frames don't have 4,096
/// bytes.
pub fn open(slot: &mut Slot, worker: u64, sac: u64) -> NumberAnswer
    ensures { OpenStep slot.old.domain worker (is_set sac) result slot.new.domain }
{
    let sac = sac != 0;
    if sac && granule(slot) != FRAME_BYTES {
        return of_number(Reply::Refused(Refusal::BadProfile));
    }
    of_number(step(slot, Step::Open { worker, sac }))
}

pub fn alloc(slot: &mut Slot, worker: u64, client: u64, frames: u64, limit: u64) -> RangeAnswer
    ensures { RangeStep slot.old.domain (Step.Alloc worker client frames limit) result
        slot.new.domain }
{
    of_range(step(
        slot,
        Step::Alloc {
            worker,
            client,
            frames,
            limit,
        },
    ))
}

pub fn unmap(slot: &mut Slot, worker: u64, client: u64, lo: u64) -> RangeAnswer
    ensures { RangeStep slot.old.domain (Step.Unmap worker client lo) result slot.new.domain }
{
    if is_unmap_fast(slot, worker, client) {
        of_range(step(slot, Step::Unmap { worker, client, lo }))
    } else {
        unpack(unmap_cold(slot, worker, client, lo))
    }
}

/// Out of line and answered in two registers, so that the caller has no room for a reply, and
/// nothing to keep.
#[inline(never)]
fn unmap_cold(slot: &mut Slot, worker: u64, client: u64, lo: u64) -> PackedAnswer
    ensures { RangeStep slot.old.domain (Step.Unmap worker client lo) (unpacked result)
        slot.new.domain }
{
    pack(step_cold(slot, Step::Unmap { worker, client, lo }))
}

pub fn begin(slot: &mut Slot) -> NumberAnswer
    ensures { NumberStep slot.old.domain Step.Begin result slot.new.domain }
{
    of_number(step(slot, Step::Begin))
}

pub fn end(slot: &mut Slot, no: u64, ok: u64) -> u64
    ensures { WordStep slot.old.domain (Step.End no (is_set ok)) result slot.new.domain }
{
    let ok = ok != 0;
    of_word(step(slot, Step::End { no, ok }))
}

pub fn drain(slot: &mut Slot, ring: u64, by: u64) -> NumberAnswer
    ensures { NumberStep slot.old.domain (Step.Drain ring by) result slot.new.domain }
{
    of_number(step(slot, Step::Drain { ring, by }))
}

pub fn close(slot: &mut Slot, worker: u64, client: u64) -> NumberAnswer
    ensures { NumberStep slot.old.domain (Step.Close worker client) result slot.new.domain }
{
    of_number(step(slot, Step::Close { worker, client }))
}

pub fn close_one(slot: &mut Slot, worker: u64, client: u64) -> RangeAnswer
    ensures { RangeStep slot.old.domain (Step.CloseOne worker client) result slot.new.domain }
{
    of_range(step(slot, Step::CloseOne { worker, client }))
}
