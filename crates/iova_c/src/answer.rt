//! What C is answered: structs of numbers, the first of which is 0, or the number of the refusal;
//! then all others are 0.
ghost use Rattle.std.specs.Prelude.{◌≡◌, ◌≤◌, ◌*◌, ◌+◌, ◌^◌};
ghost use Rattle.iova_range.specs.Refusals.{refusal_number};
ghost use Rattle.iova_c.specs.Answers.{range_answer, unpacked, number_answer, word_answer, mapping_answer, HasAddresses};

use iova_model::step::Reply;
use iova_range::range::Range;
use iova_range::refusal::Refusal;

/// A range: its first frame and how many it has.
#[repr(C)]
#[derive(Drop)]
pub struct RangeAnswer {
    pub refused: u64,
    pub lo: u64,
    pub len: u64,
}

/// A range in two registers. Where `len` is 0 it was refused, and `lo` is the refusal's number.
#[repr(C)]
#[derive(Drop)]
pub struct PackedAnswer {
    pub lo: u64,
    pub len: u64,
}

/// A number.
#[repr(C)]
#[derive(Drop)]
pub struct NumberAnswer {
    pub refused: u64,
    pub number: u64,
}

/// A range in bytes: the address of the first and how many.
#[repr(C)]
#[derive(Drop)]
pub struct MappingAnswer {
    pub refused: u64,
    pub address: u64,
    pub bytes: u64,
}

/// The kind of place that a frame is at, and the client or worker that it is at.
#[repr(C)]
#[derive(Drop)]
pub struct PlaceAnswer {
    pub refused: u64,
    pub kind: u64,
    pub number: u64,
}

/// How many frames of the bounds are at each kind of place, and how many clients and windows there
/// are.
#[repr(C)]
#[derive(Drop)]
pub struct CountsAnswer {
    pub refused: u64,
    pub free: u64,
    pub reserved: u64,
    pub client: u64,
    pub magazine: u64,
    pub depot: u64,
    pub ring: u64,
    pub clients: u64,
    pub windows: u64,
}

/// How many holdings some clients have, their frames, and the sum of their first frames.
#[repr(C)]
#[derive(Drop)]
pub struct TotalsAnswer {
    pub refused: u64,
    pub count: u64,
    pub frames: u64,
    pub sum_lo: u64,
}

/// A client's worker, whether it is closing (1) or not (0), and how many holdings it has.
#[repr(C)]
#[derive(Drop)]
pub struct ClientAnswer {
    pub refused: u64,
    pub worker: u64,
    pub closing: u64,
    pub holdings: u64,
}

/// The first and the last frame, the entries of a magazine, the magazines of the depot, and the
/// workers.
#[repr(C)]
#[derive(Drop)]
pub struct BoundsAnswer {
    pub refused: u64,
    pub start: u64,
    pub last: u64,
    pub magazine: u64,
    pub depot: u64,
    pub workers: u64,
}

/// The numbers of the flushes.
#[repr(C)]
#[derive(Drop)]
pub struct FlushesAnswer {
    pub refused: u64,
    pub start: u64,
    pub finish: u64,
    pub owed: u64,
    pub newest: u64,
    pub good: u64,
    pub in_flight: u64,
}

/// How many ranges of a cache are with its user, in its ring, and in the magazine of each order.
#[repr(C)]
#[derive(Drop)]
pub struct CacheCountsAnswer {
    pub refused: u64,
    pub held: u64,
    pub waiting: u64,
    pub order_0: u64,
    pub order_1: u64,
    pub order_2: u64,
    pub order_3: u64,
    pub order_4: u64,
    pub order_5: u64,
}

/// A range in a buffer of C's.
#[repr(C)]
#[derive(Drop)]
pub struct Listed {
    pub lo: u64,
    pub len: u64,
}

/// The refusal's number, as C has it.
pub fn number_of(refusal: Refusal) -> u64
    ensures { result ≡ refusal_number refusal }
{
    refusal.number() as u64
}

/// The answer of a range.
pub(crate) fn a_range(range: Range) -> RangeAnswer
    ensures { result ≡ record { refused = 0; lo = range.lo; len = range.len } }
{
    RangeAnswer {
        refused: 0,
        lo: range.lo(),
        len: range.len(),
    }
}

/// The answer of a refusal of this number, or at 0 an empty range.
pub(crate) fn no_range(number: u64) -> RangeAnswer
    ensures { result ≡ record { refused = number; lo = 0; len = 0 } }
{
    RangeAnswer {
        refused: number,
        lo: 0,
        len: 0,
    }
}

/// Of `Reserve`, `Alloc`, `Unmap` and `CloseOne`: the range, empty where the client is gone.
pub fn of_range(reply: Reply) -> RangeAnswer
    ensures { result ≡ range_answer reply }
{
    match reply {
        Reply::Reserved(range) | Reply::Given(range) | Reply::Queued(range) => a_range(range),
        Reply::Refused(refusal) => no_range(number_of(refusal)),
        Reply::Opened(_)
        | Reply::Empty
        | Reply::Begun(_)
        | Reply::Ended
        | Reply::Drained(_)
        | Reply::Marked(_) => no_range(0),
    }
}

/// What `of_range` answers, in two registers.
pub fn pack(reply: Reply) -> PackedAnswer
    ensures { unpacked result ≡ range_answer reply }
{
    match reply {
        Reply::Reserved(range) | Reply::Given(range) | Reply::Queued(range) => PackedAnswer {
            lo: range.lo(),
            len: range.len(),
        },
        Reply::Refused(refusal) => PackedAnswer {
            lo: number_of(refusal),
            len: 0,
        },
        Reply::Opened(_)
        | Reply::Empty
        | Reply::Begun(_)
        | Reply::Ended
        | Reply::Drained(_)
        | Reply::Marked(_) => PackedAnswer { lo: 0, len: 0 },
    }
}

/// What was packed.
#[inline(always)]
pub fn unpack(packed: PackedAnswer) -> RangeAnswer
    ensures { result ≡ unpacked packed }
{
    if packed.len == 0 {
        no_range(packed.lo)
    } else {
        RangeAnswer {
            refused: 0,
            lo: packed.lo,
            len: packed.len,
        }
    }
}

/// Of `Open`, `Begin`, `Drain` and `Close`: the number.
pub fn of_number(reply: Reply) -> NumberAnswer
    ensures { result ≡ number_answer reply }
{
    match reply {
        Reply::Opened(number)
        | Reply::Begun(number)
        | Reply::Drained(number)
        | Reply::Marked(number) => NumberAnswer { refused: 0, number },
        Reply::Refused(refusal) => NumberAnswer {
            refused: number_of(refusal),
            number: 0,
        },
        Reply::Reserved(_) | Reply::Given(_) | Reply::Queued(_) | Reply::Empty | Reply::Ended =>
            NumberAnswer {
                refused: 0,
                number: 0,
            },
    }
}

/// Of `End`: 0, or the number of the refusal.
pub fn of_word(reply: Reply) -> u64
    ensures { result ≡ word_answer reply }
{
    match reply {
        Reply::Refused(refusal) => number_of(refusal),
        _ => 0,
    }
}

/// Of `Alloc` and `Unmap`: the range in bytes, of which a frame has so many.
#[inline(always)]
pub fn of_mapping(granule: u64, reply: Reply) -> MappingAnswer
    requires { HasAddresses granule reply }
    ensures { result ≡ mapping_answer granule reply }
{
    match reply {
        Reply::Given(range) | Reply::Queued(range) => MappingAnswer {
            refused: 0,
            address: range.lo() * granule,
            bytes: range.len() * granule,
        },
        Reply::Refused(refusal) => MappingAnswer {
            refused: number_of(refusal),
            address: 0,
            bytes: 0,
        },
        _ => MappingAnswer {
            refused: 0,
            address: 0,
            bytes: 0,
        },
    }
}
