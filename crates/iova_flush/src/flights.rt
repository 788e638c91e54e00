//! The flushes in flight, with their credits.
ghost use Rattle.std.specs.Prelude.{◌≡◌, ◌≤◌, ◌<◌, ◌-◌, ◌^◌, ◌↔◌, ◌⊎◌, ◌==◌, position, length, IsTrue, is_ok, IsOk, IsOkUnless, IfOk, IfErr, OnOk, OnErr};
ghost use Rattle.iova_model.specs.Flushes.{flushes_from, with_flight, after_end, is_in_flight, NumbersRise, AreSound};

use arrayvec::ArrayVec;
use iova_model::flight::Flight;
use iova_range::limits::{MAX_FLIGHTS, MAX_SERIAL};
use iova_range::refusal::Refusal;
use std::marker::Model;

/// The flushes: how many have begun, how many are accounted for, and those in flight, at most 32,
/// rising by number.
///
/// The two counts are the kernel's (Linux 5.15 `drivers/iommu/iova.c`: `iova_domain_flush`, which
/// raises the start count, flushes, and raises the finish count). Flushes that overlap or fail are
/// our own: each flight has a credit, by which the finish count grows where it ends well. A flight
/// that fails gives its credit to the one with the next greater number, and where there is none,
/// the credit is owed to the next flush that begins. So the finish count is never above the
/// greatest number of a flush that ended well, and an entry whose count is below it was queued
/// before that flush began.
///
/// Contracts see it as `Flushes`, for which `AreSound` always holds: the start count is the sum of
/// the finish count, the credits in flight and what is owed.
pub struct Flights {
    start: u64,
    finish: u64,
    owed: u64,
    newest: u64,
    good: u64,
    in_flight: ArrayVec<Flight, MAX_FLIGHTS>,
}

/// Drops its parts. The proof stands here, once for all crates above.
impl Drop for Flights {
    fn drop(self) {
        let Flights {
            start: _,
            finish: _,
            owed: _,
            newest: _,
            good: _,
            in_flight: _,
        } = self;
    }
}

impl Model for Flights {
    ghost use Rattle.iova_model.specs.Flushes.{Flushes, AreSound};

    ghost Value = { Flushes };

    ghost view = { λ f. record {
      start = f.start;
      finish = f.finish;
      owed = f.owed;
      newest = f.newest;
      good = f.good;
      in_flight = f.in_flight.items;
    } };

    ghost invariant = { λ f. AreSound (record {
      start = f.start;
      finish = f.finish;
      owed = f.owed;
      newest = f.newest;
      good = f.good;
      in_flight = f.in_flight.items;
    }) };
}

impl Flights {
    /// No flush has begun.
    pub fn new() -> Self
        ensures { result ≡ flushes_from 0 }
    {
        Flights::starting_at(0)
    }

    /// As if `n` flushes had begun and ended well, `n` being at most 2^63 - 1: the next one has the
    /// number `n` + 1.
    pub fn starting_at(n: u64) -> Self
        requires { n ≤ 2 ^ 63 - 1 }
        ensures { result ≡ flushes_from n }
    {
        Flights {
            start: n,
            finish: n,
            owed: 0,
            newest: n,
            good: 0,
            in_flight: ArrayVec::new(),
        }
    }

    /// Begins a flush, and answers its number, the new start count. Its credit is one more than
    /// what was owed, and nothing is owed then. Refused, with no change, by `FlightsFull` exactly
    /// where 32 are in flight, else by `Worn` exactly where the start count is 2^63 - 1.
    pub fn begin(&mut self) -> Result<u64, Refusal>
        ensures begins { IsOk result ↔ (length self.old.in_flight < MAX_FLIGHTS)
            × (self.old.start < MAX_SERIAL) }
        ensures begun { OnOk result (self.new ≡ with_flight self.old) }
        ensures number { IfOk result (λ no. no ≡ self.new.start) }

        // Too many in flight come before too great a number.
        ensures full { (result ≡ Err Refusal.FlightsFull)
            ↔ (MAX_FLIGHTS ≤ length self.old.in_flight) }
        ensures worn { (result ≡ Err Refusal.Worn)
            ↔ (length self.old.in_flight < MAX_FLIGHTS) × (MAX_SERIAL ≤ self.old.start) }
        ensures refused { IfErr result (λ r. (r ≡ Refusal.FlightsFull) ⊎ (r ≡ Refusal.Worn)) }
        ensures unchanged { OnErr result (self.new ≡ self.old) }
    {
        if self.in_flight.is_full() {
            return Err(Refusal::FlightsFull);
        }
        if self.start == MAX_SERIAL {
            return Err(Refusal::Worn);
        }
        self.start += 1;
        self.in_flight.push(Flight {
            number: self.start,
            credit: 1 + self.owed,
        });
        self.owed = 0;
        Ok(self.start)
    }

    /// Ends the flush of this number. Where it ended well (`ok`), its credit is added to the finish
    /// count; where it failed, its credit goes to the flight with the next greater number, and
    /// where there is none, it is owed. Refused, with no change, by `NoFlight` exactly where no
    /// flush of that number is in flight.
    pub fn end(&mut self, no: u64, ok: bool) -> Result<(), Refusal>
        ensures known { is_ok result ≡ is_in_flight no self.old.in_flight }
        ensures ended { OnOk result (self.new ≡ after_end self.old no ok) }
        ensures refused { IsOkUnless result Refusal.NoFlight }
        ensures unchanged { OnErr result (self.new ≡ self.old) }

        // Where the oldest flush in flight ends well, the finish count reaches its number.
        ensures reaches { IsTrue ok → NumbersRise (no - 1) self.old.in_flight self.old.start
            → OnOk result (no ≤ self.new.finish) }
    {
        let Some(place) = position_of(self.in_flight.as_slice(), no) else {
            return Err(Refusal::NoFlight);
        };
        let flight = self.in_flight.remove(place);
        if ok {
            self.finish += flight.credit;
            self.newest = self.newest.max(no);
            self.good += 1;
        } else if let Some(later) = self.in_flight.get_mut(place) {
            later.credit += flight.credit;
        } else {
            self.owed += flight.credit;
        }
        Ok(())
    }

    /// How many flushes have begun, which is the number of the last one; at most 2^63 - 1.
    #[inline]
    pub fn start(&self) -> u64
        ensures is { result ≡ self.now.start }
        ensures sound { AreSound self.now }
    {
        self.start
    }

    /// How many flushes are accounted for, at most the greatest number of a flush that ended well:
    /// an entry whose count is below this was queued before that flush began.
    #[inline]
    pub fn finish(&self) -> u64
        ensures is { result ≡ self.now.finish }
        ensures sound { AreSound self.now }
    {
        self.finish
    }

    /// The credit of failed flushes that the next flush will take over.
    #[inline]
    pub fn owed(&self) -> u64
        ensures is { result ≡ self.now.owed }
        ensures sound { AreSound self.now }
    {
        self.owed
    }

    /// How many flushes are in flight, 0 to 32.
    #[inline]
    pub fn in_flight(&self) -> usize
        ensures is { result ≡ length self.now.in_flight }
        ensures sound { AreSound self.now }
    {
        self.in_flight.len()
    }

    /// The greatest number of a flush that ended well; at first the number that the flushes started
    /// at.
    #[inline]
    pub fn newest_done(&self) -> u64
        ensures is { result ≡ self.now.newest }
        ensures sound { AreSound self.now }
    {
        self.newest
    }

    /// How many flushes ended well.
    #[inline]
    pub fn good(&self) -> u64
        ensures is { result ≡ self.now.good }
        ensures sound { AreSound self.now }
    {
        self.good
    }
}

// Where the flight of this number is.
fn position_of(flights: &[Flight], no: u64) -> Option<usize>
    ensures { result ≡ position (λ f. f.number == no) flights.now }
{
    flights.iter().position(|flight| flight.number == no)
}
