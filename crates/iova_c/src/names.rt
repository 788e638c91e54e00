//! Refusals and types by number.
ghost use Rattle.std.specs.Prelude.{◌≡◌, ◌≢◌, ◌≤◌, ℕ, Some, IsNone, IfSome};
ghost use Rattle.iova_range.specs.declared.refusal.Refusal.{Refusal};
ghost use Rattle.iova_range.specs.Refusals.{refusal_number};
ghost use Rattle.iova_c.specs.Names.{HasNamed, version, with_text, type_size};

use crate::answer::{
    BoundsAnswer, CacheCountsAnswer, ClientAnswer, CountsAnswer, FlushesAnswer, Listed,
    MappingAnswer, NumberAnswer, PackedAnswer, PlaceAnswer, RangeAnswer, TotalsAnswer,
};
use crate::cached::CacheSlot;
use crate::slot::Slot;
use iova_range::refusal::Refusal;

/// The refusal of this number.
fn refusal_of(number: u64) -> Option<Refusal>
    ensures is { IfSome result (λ refusal. refusal_number refusal ≡ number) }
    ensures none { IsNone result → (refusal : Refusal) → refusal_number refusal ≢ number }
{
    match number {
        1 => Some(Refusal::Zero),
        2 => Some(Refusal::TooBig),
        3 => Some(Refusal::NoClient),
        4 => Some(Refusal::Closing),
        5 => Some(Refusal::HoldingsFull),
        6 => Some(Refusal::NoSpace),
        7 => Some(Refusal::RingFull),
        8 => Some(Refusal::NotHeld),
        9 => Some(Refusal::Taken),
        10 => Some(Refusal::BadWindow),
        11 => Some(Refusal::WindowsFull),
        12 => Some(Refusal::NoWorker),
        13 => Some(Refusal::FlightsFull),
        14 => Some(Refusal::NoFlight),
        15 => Some(Refusal::Worn),
        16 => Some(Refusal::ClientsFull),
        17 => Some(Refusal::NoMemory),
        18 => Some(Refusal::SinkFault),
        19 => Some(Refusal::LinkFault),
        20 => Some(Refusal::BadLine),
        21 => Some(Refusal::TooMany),
        22 => Some(Refusal::BadTrace),
        23 => Some(Refusal::NoDomain),
        24 => Some(Refusal::Twice),
        25 => Some(Refusal::BadProfile),
        _ => None,
    }
}

/// Writes the bytes to the front of the text, as many as it has room for.
fn put_text(bytes: &[u8], text: &mut [u8])
    ensures { text.new ≡ with_text text.old bytes.now }
{
    let count = bytes.len().min(text.len());
    text[..count].copy_from_slice(&bytes[..count]);
}

/// Writes the refusal's name to the front of the text, as much of it as has room, and answers its
/// length; 0 where no refusal has the number.
#[unsafe(no_mangle)]
pub extern "C" fn iova_refusal_text(number: u64, text: &mut [u8]) -> u64
    ensures { HasNamed number text.old result text.new }
{
    match refusal_of(number) {
        Some(refusal) => {
            let name = refusal.name().as_bytes();
            put_text(name, text);
            name.len() as u64
        }
        None => 0,
    }
}

/// How many bytes a type of `iova.h` has, by its place there: a domain's slot is 0, a cache's 11.
/// Answers 0 where there is no such type.
#[unsafe(no_mangle)]
pub extern "C" fn iova_type_size(number: u64) -> u64
    ensures slot { number ≡ 0 → result ≤ 1536 }
    ensures cache { number ≡ 11 → result ≤ 512 }
    ensures answers { number ≢ 0 → number ≢ 11 → result ≡ type_size number }
{
    let bytes = match number {
        0 => size_of::<Slot>(),
        1 => size_of::<RangeAnswer>(),
        2 => size_of::<NumberAnswer>(),
        3 => size_of::<MappingAnswer>(),
        4 => size_of::<PlaceAnswer>(),
        5 => size_of::<CountsAnswer>(),
        6 => size_of::<TotalsAnswer>(),
        7 => size_of::<ClientAnswer>(),
        8 => size_of::<BoundsAnswer>(),
        9 => size_of::<FlushesAnswer>(),
        10 => size_of::<Listed>(),
        11 => size_of::<CacheSlot>(),
        12 => size_of::<CacheCountsAnswer>(),
        13 => size_of::<PackedAnswer>(),
        _ => 0,
    };
    bytes as u64
}

/// The library's version: 1,000,000 times its first number, 1,000 times its second, and its third.
#[unsafe(no_mangle)]
pub extern "C" fn iova_version() -> u64
    ensures { result ≡ version }
{
    2_000
}
