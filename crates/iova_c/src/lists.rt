//! What a slot's domain holds, in lists of C's.
ghost use Rattle.std.specs.Prelude.{◌≡◌};
ghost use Rattle.iova_range.specs.Refusals.{refusal_number};
ghost use Rattle.iova_c.specs.Lists.{with_ranges, ListsHoldings, ListsWindows};

use crate::answer::{Listed, NumberAnswer, number_of};
use crate::slot::Slot;
use iova_range::limits::MAX_HOLDINGS;
use iova_range::range::Range;
use iova_range::refusal::Refusal;

/// Writes the ranges into the list, as many as it has room for.
fn put_ranges(ranges: &[Range], list: &mut [Listed])
    ensures { list.new ≡ with_ranges list.old ranges.now }
{
    let count = ranges.len().min(list.len());
    for i in 0..count {
        let range = ranges[i];
        list[i] = Listed {
            lo: range.lo(),
            len: range.len(),
        };
    }
}

fn refused(refusal: Refusal) -> NumberAnswer
    ensures { result ≡ record { refused = refusal_number refusal; number = 0 } }
{
    NumberAnswer {
        refused: number_of(refusal),
        number: 0,
    }
}

/// The client's holdings, rising, and how many it has. `NoClient` where there is no such client.
pub fn holdings(slot: &mut Slot, client: u64, list: &mut [Listed]) -> NumberAnswer
    ensures { ListsHoldings slot.old.domain client list.old result list.new slot.new.domain }
{
    let Some(paged) = &slot.domain else {
        return refused(Refusal::NoDomain);
    };
    let mut ranges = [Range::new(0, 1); MAX_HOLDINGS];
    let Some(count) = paged.domain.copy_holdings(client, &mut ranges) else {
        return refused(Refusal::NoClient);
    };
    put_ranges(&ranges[..count], list);
    NumberAnswer {
        refused: 0,
        number: count as u64,
    }
}

/// The windows, rising, and how many there are.
pub fn windows(slot: &mut Slot, list: &mut [Listed]) -> NumberAnswer
    ensures { ListsWindows slot.old.domain list.old result list.new slot.new.domain }
{
    let Some(paged) = &slot.domain else {
        return refused(Refusal::NoDomain);
    };
    let windows = paged.domain.windows();
    put_ranges(windows, list);
    NumberAnswer {
        refused: 0,
        number: windows.len() as u64,
    }
}
