//! What a slot's domain holds. Each call leaves the slot as it is, and answers `NoDomain` where it
//! has no paged.domain.
ghost use Rattle.std.specs.Prelude.{◌≡◌};
ghost use Rattle.iova_c.specs.Readers.{Reads, place_answer, counts_answer, totals_answer, share_answer, client_answer, bounds_answer, flushes_answer, granule_answer};

use crate::answer::{
    BoundsAnswer, ClientAnswer, CountsAnswer, FlushesAnswer, NumberAnswer, PlaceAnswer,
    TotalsAnswer, number_of,
};
use crate::slot::Slot;
use iova_model::place::Place;
use iova_model::totals::Totals;
use iova_range::refusal::Refusal;

fn a_place(kind: u64, number: u64) -> PlaceAnswer
    ensures { result ≡ record { refused = 0; kind = kind; number = number } }
{
    PlaceAnswer {
        refused: 0,
        kind,
        number,
    }
}

/// Where a frame is: the kinds are 0 outside the bounds, 1 free, 2 reserved, 3 a client's, 4 a
/// worker's magazine, 5 the depot, 6 a worker's ring.
pub fn place(slot: &mut Slot, frame: u64) -> PlaceAnswer
    ensures { Reads (place_answer frame) slot.old.domain result slot.new.domain }
{
    let Some(paged) = &slot.domain else {
        return PlaceAnswer {
            refused: number_of(Refusal::NoDomain),
            kind: 0,
            number: 0,
        };
    };
    match paged.domain.place(frame) {
        None => a_place(0, 0),
        Some(Place::Free) => a_place(1, 0),
        Some(Place::Reserved) => a_place(2, 0),
        Some(Place::Client(id)) => a_place(3, id),
        Some(Place::Magazine(worker)) => a_place(4, worker),
        Some(Place::Depot) => a_place(5, 0),
        Some(Place::Ring(worker)) => a_place(6, worker),
    }
}

pub fn counts(slot: &mut Slot) -> CountsAnswer
    ensures { Reads counts_answer slot.old.domain result slot.new.domain }
{
    let Some(paged) = &slot.domain else {
        return CountsAnswer {
            refused: number_of(Refusal::NoDomain),
            free: 0,
            reserved: 0,
            client: 0,
            magazine: 0,
            depot: 0,
            ring: 0,
            clients: 0,
            windows: 0,
        };
    };
    let counts = paged.domain.counts();
    CountsAnswer {
        refused: 0,
        free: counts.free,
        reserved: counts.reserved,
        client: counts.client,
        magazine: counts.magazine,
        depot: counts.depot,
        ring: counts.ring,
        clients: paged.domain.clients() as u64,
        windows: paged.domain.windows().len() as u64,
    }
}

fn some_totals(totals: Totals) -> TotalsAnswer
    ensures { result ≡ record {
      refused = 0;
      count = totals.count;
      frames = totals.frames;
      sum_lo = totals.sum_lo;
    } }
{
    TotalsAnswer {
        refused: 0,
        count: totals.count,
        frames: totals.frames,
        sum_lo: totals.sum_lo,
    }
}

fn refused_totals(refused: u64) -> TotalsAnswer
    ensures { result ≡ record { refused = refused; count = 0; frames = 0; sum_lo = 0 } }
{
    TotalsAnswer {
        refused,
        count: 0,
        frames: 0,
        sum_lo: 0,
    }
}

/// Over all clients.
pub fn totals(slot: &mut Slot) -> TotalsAnswer
    ensures { Reads totals_answer slot.old.domain result slot.new.domain }
{
    match &slot.domain {
        Some(paged) => some_totals(paged.domain.totals()),
        None => refused_totals(number_of(Refusal::NoDomain)),
    }
}

/// Over the clients of a worker. `NoWorker` where there is no such worker.
pub fn share(slot: &mut Slot, worker: u64) -> TotalsAnswer
    ensures { Reads (share_answer worker) slot.old.domain result slot.new.domain }
{
    match &slot.domain {
        Some(paged) if worker < paged.domain.workers() => some_totals(
            paged.domain.share_of(worker),
        ),
        Some(_) => refused_totals(number_of(Refusal::NoWorker)),
        None => refused_totals(number_of(Refusal::NoDomain)),
    }
}

fn no_client(refused: u64) -> ClientAnswer
    ensures { result ≡ record { refused = refused; worker = 0; closing = 0; holdings = 0 } }
{
    ClientAnswer {
        refused,
        worker: 0,
        closing: 0,
        holdings: 0,
    }
}

/// A client of any worker. `NoClient` where there is no such client.
pub fn client_of(slot: &mut Slot, client: u64) -> ClientAnswer
    ensures { Reads (client_answer client) slot.old.domain result slot.new.domain }
{
    let Some(paged) = &slot.domain else {
        return no_client(number_of(Refusal::NoDomain));
    };
    let Some(worker) = paged.domain.owner(client) else {
        return no_client(number_of(Refusal::NoClient));
    };
    let Some(closing) = paged.domain.is_closing(client) else {
        return no_client(number_of(Refusal::NoClient));
    };
    let Some(holdings) = paged.domain.count_of(client) else {
        return no_client(number_of(Refusal::NoClient));
    };
    ClientAnswer {
        refused: 0,
        worker,
        closing: closing as u64,
        holdings,
    }
}

pub fn bounds(slot: &mut Slot) -> BoundsAnswer
    ensures { Reads bounds_answer slot.old.domain result slot.new.domain }
{
    let Some(paged) = &slot.domain else {
        return BoundsAnswer {
            refused: number_of(Refusal::NoDomain),
            start: 0,
            last: 0,
            magazine: 0,
            depot: 0,
            workers: 0,
        };
    };
    let bounds = paged.domain.bounds();
    BoundsAnswer {
        refused: 0,
        start: bounds.start(),
        last: bounds.last(),
        magazine: bounds.profile().mag() as u64,
        depot: bounds.profile().depot() as u64,
        workers: paged.domain.workers(),
    }
}

pub fn flushes(slot: &mut Slot) -> FlushesAnswer
    ensures { Reads flushes_answer slot.old.domain result slot.new.domain }
{
    let Some(paged) = &slot.domain else {
        return FlushesAnswer {
            refused: number_of(Refusal::NoDomain),
            start: 0,
            finish: 0,
            owed: 0,
            newest: 0,
            good: 0,
            in_flight: 0,
        };
    };
    FlushesAnswer {
        refused: 0,
        start: paged.domain.start(),
        finish: paged.domain.finish(),
        owed: paged.domain.owed(),
        newest: paged.domain.newest_done(),
        good: paged.domain.good(),
        in_flight: paged.domain.in_flight() as u64,
    }
}

/// How many bytes a frame has.
pub fn granule(slot: &mut Slot) -> NumberAnswer
    ensures { Reads granule_answer slot.old.domain result slot.new.domain }
{
    match &slot.domain {
        Some(paged) => NumberAnswer {
            refused: 0,
            number: paged.granule.bytes(),
        },
        None => NumberAnswer {
            refused: number_of(Refusal::NoDomain),
            number: 0,
        },
    }
}
