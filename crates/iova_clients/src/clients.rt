//! The clients of a domain.
ghost use Rattle.std.specs.Prelude.{◌≡◌, ◌≢◌, ◌+◌, ◌-◌, ◌^◌, ◌<◌, ◌≤◌, ℕ, [], ◌∷◌, ◌++◌, find, length, take, vec_len, vec_capacity, option_map, option_and_then, IfOk, OnOk, OnErr, Ok, Err, Some, None, IsOkUnless, IfSome, IfNone, IsSomeAnd, All, IsTrue, ◌↔◌, false};
ghost use Rattle.iova_model.specs.Fit.{is_covered};
ghost use Rattle.iova_model.specs.Effects.{unmapped_of};
ghost use Rattle.iova_model.specs.Clients.{new_client, client_with, client_of, change_client, without_client, with_holding, without_holding, with_mark, newer_client, totals, share_of};
ghost use Rattle.iova_clients.specs.Registry.{empty_registry, spare_of, IsRegistry, open_refusal, room_refusal, CanBeGiven, held_at, AppendsHoldings, lowest, count_held, flags_of, CanBeForgotten, IsHolder};

use crate::flags::ClientFlags;
use crate::ledger::ClientLedger;
use crate::ledgers::Ledgers;
use crate::sums::Sums;
use iova_model::step::ClientId;
use iova_model::totals::Totals;
use iova_range::limits::{MAX_CLIENTS, MAX_FRAMES, MAX_HOLDINGS, MAX_SERIAL, MAX_WORKERS};
use iova_range::range::Range;
use iova_range::refusal::Refusal;
use std::alloc::Global;
use std::marker::Model;

/// The clients of a domain, each with its holdings, and the totals over them.
///
/// Contracts see a `Registry`: the clients by rising serial, the last serial given, and how many
/// more holdings each client can be given without memory (its spare). Holdings are ranges of page
/// frames.
pub struct Clients {
    ledgers: Ledgers,
    serial: u64,
    sums: Sums,
    alloc: Global,
}

/// Drops its parts. The proof stands here, once for all crates above.
impl Drop for Clients {
    fn drop(self) {
        let Clients {
            ledgers: _,
            serial: _,
            sums: _,
            alloc: _,
        } = self;
    }
}

impl Model for Clients {
    ghost use Rattle.iova_clients.specs.Registry.{Registry};
    ghost use Rattle.iova_clients.specs.Accounts.{clients_at, spares_at};
    ghost use Rattle.iova_clients.specs.Books.{AreBooks};

    ghost Value = { Registry };

    ghost view = { λ c. record {
      clients = clients_at c.ledgers;
      serial = c.serial;
      spares = spares_at c.ledgers;
    } };

    ghost invariant = { λ c. AreBooks
        (record { clients = clients_at c.ledgers; serial = c.serial; spares = spares_at c.ledgers })
        c.sums };
}

impl Clients {
    /// No clients; the first one gets serial 1.
    pub fn new(alloc: Global) -> Clients
        ensures { result ≡ empty_registry 0 }
    {
        Clients {
            ledgers: Ledgers::new(alloc),
            serial: 0,
            sums: Sums::new(),
            alloc,
        }
    }

    /// A new client of this worker, 0 to 15, which holds nothing. One that is `sac` is first sought
    /// a place below 4 GiB. Its serial is one more than the last one given.
    ///
    /// Refused by `Worn` where serial 2^63 - 1 was given, else by `ClientsFull` where there are
    /// 1,024 clients, else by `NoMemory` where memory is refused.
    pub fn open(&mut self, worker: u64, sac: bool) -> Result<ClientId, Refusal>
        requires { worker < MAX_WORKERS }
        ensures id { IfOk result (λ id. id ≡ self.old.serial + 1) }
        ensures clients { OnOk result
            (self.new.clients ≡ self.old.clients
            ++ new_client (self.old.serial + 1) worker sac ∷ []) }
        ensures serial { OnOk result (self.new.serial ≡ self.old.serial + 1) }
        ensures spares { OnOk result ((id : ℕ) → spare_of id self.new ≡ spare_of id self.old) }

        ensures refused { IfSome (open_refusal self.old) (λ refusal. result ≡ Err refusal) }
        ensures accepted { IfNone (open_refusal self.old) (IsOkUnless result Refusal.NoMemory) }
        ensures unchanged { OnErr result (self.new ≡ self.old) }
    {
        if self.serial == MAX_SERIAL {
            return Err(Refusal::Worn);
        }
        if self.ledgers.len() >= MAX_CLIENTS {
            return Err(Refusal::ClientsFull);
        }
        let id = self.serial + 1;
        self.ledgers
            .push(id, ClientLedger::new(self.alloc, worker, sac))?;
        self.serial = id;
        Ok(id)
    }

    /// How many clients there are, 0 to 1,024.
    #[inline]
    pub fn len(&self) -> usize
        ensures is { result ≡ length self.now.clients }
        ensures registry { IsRegistry self.now }
    {
        self.ledgers.len()
    }

    /// Whether there is no client.
    #[inline]
    pub fn is_empty(&self) -> bool
        ensures is { IsTrue result ↔ (self.now.clients ≡ []) }
        ensures registry { IsRegistry self.now }
    {
        self.ledgers.len() == 0
    }

    /// The last serial given, 0 where none was.
    #[inline]
    pub fn serial(&self) -> u64
        ensures is { result ≡ self.now.serial }
        ensures registry { IsRegistry self.now }
    {
        self.serial
    }

    /// The marks of the client, where it is one of this worker. Its ledger is found by what follows
    /// with no other look-up, until another client is looked up or one comes or goes.
    #[inline(always)]
    pub fn look_up(&mut self, worker: u64, id: ClientId) -> Option<ClientFlags>
        ensures is { result ≡ option_map flags_of (client_of worker id self.old.clients) }
        ensures unchanged { self.new ≡ self.old }
    {
        let ledger = self.ledgers.get_mut(id)?;
        if ledger.worker() != worker {
            return None;
        }
        Some(ClientFlags {
            sac: ledger.is_sac(),
            closing: ledger.is_closing(),
        })
    }

    /// The worker that opened the client.
    pub fn owner(&self, id: ClientId) -> Option<u64>
        ensures is { result ≡ option_map (λ c. c.worker) (client_with id self.now.clients) }
        ensures registry { IsRegistry self.now }
    {
        Some(self.ledgers.get(id)?.worker())
    }

    /// Whether the client is first sought a place below 4 GiB.
    pub fn is_sac(&self, id: ClientId) -> Option<bool>
        ensures { result ≡ option_map (λ c. c.sac) (client_with id self.now.clients) }
    {
        Some(self.ledgers.get(id)?.is_sac())
    }

    /// Whether the client is closing.
    pub fn is_closing(&self, id: ClientId) -> Option<bool>
        ensures { result ≡ option_map (λ c. c.closing) (client_with id self.now.clients) }
    {
        Some(self.ledgers.get(id)?.is_closing())
    }

    /// How many holdings the client has.
    pub fn count(&self, id: ClientId) -> Option<u64>
        ensures is { result ≡ option_map (λ c. length c.holdings)
            (client_with id self.now.clients) }
        ensures registry { IsRegistry self.now }
    {
        Some(self.ledgers.get(id)?.count() as u64)
    }

    /// Copies the client's holdings, rising by first frame, to the front of the list, which has
    /// room for 4,096, and says how many they are.
    pub fn copy_holdings(&self, id: ClientId, list: &mut [Range]) -> Option<usize>
        requires { MAX_HOLDINGS ≤ length list.old }
        ensures some { IfSome (client_with id self.now.clients) (λ c.
            (result ≡ Some (length c.holdings))
            × (take (length c.holdings) list.new ≡ c.holdings)) }
        ensures none { IfNone (client_with id self.now.clients) (result ≡ None) }
        ensures few { IfSome result (λ n. n ≤ MAX_HOLDINGS) }
        ensures len { length list.new ≡ length list.old }
    {
        // for the proof: a client has 4,096 holdings at most
        let _sums = &self.sums;
        let ledger = self.ledgers.get(id)?;
        ledger.copy_to(list);
        Some(ledger.count())
    }

    /// Appends the client's holdings, in no order, at most 4,096: `orders::put_in_order_from` puts
    /// them in order. Refused by `NoClient` where there is no such client, else by `NoMemory` where
    /// memory is refused; then nothing is appended. Where the list has room for 4,096 more it takes
    /// no memory.
    pub fn append_holdings(&self, id: ClientId, list: &mut Vec<Range>) -> Result<(), Refusal>
        ensures is { AppendsHoldings (client_with id self.now.clients) list.old.items
            list.new.items result }
        ensures unchanged { OnErr result (list.new.items ≡ list.old.items) }
        ensures room { vec_len list.old + MAX_HOLDINGS ≤ vec_capacity list.old
            → result ≢ Err Refusal.NoMemory }
        ensures capacity { vec_capacity list.old ≤ vec_capacity list.new }
    {
        // for the proof: a client has 4,096 holdings at most
        let _sums = &self.sums;
        let Some(ledger) = self.ledgers.get(id) else {
            return Err(Refusal::NoClient);
        };
        ledger.append_to(list)
    }

    /// The client's lowest holding, where it has one. Unless the client is closing this looks
    /// through its holdings.
    pub fn first(&self, id: ClientId) -> Option<Range>
        ensures is { result ≡ option_and_then lowest (client_with id self.now.clients) }
        ensures registry { IsRegistry self.now }
    {
        self.ledgers.get(id)?.first()
    }

    /// The holding that begins at `lo`, of a client of this worker that isn't closing: two
    /// look-ups.
    pub fn to_unmap(&self, worker: u64, id: ClientId, lo: u64) -> Option<Range>
        ensures { result ≡ option_and_then (unmapped_of lo)
            (client_of worker id self.now.clients) }
    {
        let ledger = self.ledgers.get(id)?;
        if worker != ledger.worker() {
            return None;
        }
        if ledger.is_closing() {
            return None;
        }
        ledger.holding(lo)
    }

    /// The first client, by serial, that has a holding with the frame. This looks through all
    /// holdings.
    pub fn holder(&self, frame: u64) -> Option<ClientId>
        ensures is { result ≡ option_map (λ c. c.id)
            (find (λ c. is_covered frame c.holdings) self.now.clients) }
        ensures holds { IfSome result (IsHolder frame self.now.clients) }
        ensures none { IfNone result (All (λ c. is_covered frame c.holdings ≡ false)
            self.now.clients) }
    {
        self.ledgers.holder(frame)
    }

    /// The first client, by serial, that this worker opened and whose serial is above this one.
    /// This looks through all clients.
    pub fn newer(&self, worker: u64, than: ClientId) -> Option<ClientId>
        ensures { result ≡ option_map (λ c. c.id) (newer_client worker than self.now.clients) }
    {
        self.ledgers.newer(worker, than)
    }

    /// Whether the client is first sought a place below 4 GiB, where it was looked up or opened
    /// last, is one of this worker, and has room for one holding more.
    #[inline(always)]
    pub fn sac_with_room(&self, worker: u64, id: ClientId) -> Option<bool> {
        let ledger = self.ledgers.last(id)?;
        if ledger.worker() == worker && ledger.has_room() {
            Some(ledger.is_sac())
        } else {
            None
        }
    }

    /// Whether the client was looked up or opened last, is one of this worker, and isn't closing.
    #[inline(always)]
    pub fn is_at_hand(&self, worker: u64, id: ClientId) -> bool {
        match self.ledgers.last(id) {
            Some(ledger) => ledger.worker() == worker && !ledger.is_closing(),
            None => false,
        }
    }

    /// Makes room for one holding more of the client, so that the next `add` needs no memory.
    ///
    /// Refused by `NoClient` where there is no such client, else by `Closing` where it is closing,
    /// else by `HoldingsFull` where it has 4,096 holdings, else by `NoMemory` where it has no spare
    /// and memory is refused.
    #[inline(always)]
    pub fn room(&mut self, id: ClientId) -> Result<(), Refusal>
        ensures refused { IfSome (room_refusal (client_with id self.old.clients))
            (λ refusal. result ≡ Err refusal) }
        ensures accepted { IfNone (room_refusal (client_with id self.old.clients))
            (IsOkUnless result Refusal.NoMemory) }
        ensures starved { result ≡ Err Refusal.NoMemory → spare_of id self.old ≡ 0 }
        ensures spare { OnOk result (1 ≤ spare_of id self.new) }
        ensures grows { spare_of id self.old ≤ spare_of id self.new }

        // Nothing else changes, and nothing at all where it is refused.
        ensures clients { self.new.clients ≡ self.old.clients }
        ensures serial { self.new.serial ≡ self.old.serial }
        ensures others { (other : ℕ) → other ≢ id
            → spare_of other self.new ≡ spare_of other self.old }
        ensures unchanged { OnErr result (self.new ≡ self.old) }
    {
        let ledger = self.ledgers.get_mut(id).ok_or(Refusal::NoClient)?;
        ledger.room()
    }

    /// Gives the client a holding, of 1 to 1,048,576 frames below 2^40, and says it again. It takes
    /// no memory: `room` makes the room.
    #[inline(always)]
    pub fn add(&mut self, id: ClientId, range: Range) -> Range
        requires client { IsSomeAnd (client_with id self.old.clients) (CanBeGiven range) }
        requires spare { 1 ≤ spare_of id self.old }
        requires sized { range.len ≤ MAX_FRAMES }
        requires low { range.lo + range.len ≤ 2 ^ 40 }
        ensures range { result ≡ range }
        ensures clients { self.new.clients
            ≡ change_client id (with_holding range) self.old.clients }
        ensures serial { self.new.serial ≡ self.old.serial }
        ensures spare { spare_of id self.new + 1 ≡ spare_of id self.old }
        ensures others { (other : ℕ) → other ≢ id
            → spare_of other self.new ≡ spare_of other self.old }
    {
        let ledger = self.ledgers.get_mut(id).unwrap();
        ledger.add(range);
        let worker = ledger.worker();
        self.sums.add(worker, range);
        range
    }

    /// The client gives up its holding that begins at `lo`.
    ///
    /// Refused by `NoClient` where there is no such client, else by `NotHeld` where it has no such
    /// holding.
    #[inline(always)]
    pub fn take(&mut self, id: ClientId, lo: u64) -> Result<Range, Refusal>
        ensures value { result ≡ held_at lo (client_with id self.old.clients) }
        ensures clients { OnOk result (self.new.clients
            ≡ change_client id (without_holding lo) self.old.clients) }
        ensures serial { self.new.serial ≡ self.old.serial }
        ensures spare { OnOk result (spare_of id self.new ≡ spare_of id self.old + 1) }
        ensures others { (other : ℕ) → other ≢ id
            → spare_of other self.new ≡ spare_of other self.old }
        ensures unchanged { OnErr result (self.new ≡ self.old) }
    {
        let ledger = self.ledgers.get_mut(id).ok_or(Refusal::NoClient)?;
        let range = ledger.take(lo).ok_or(Refusal::NotHeld)?;
        let worker = ledger.worker();
        self.sums.remove(worker, range);
        Ok(range)
    }

    /// Marks the client closing, and says how many holdings it has left. A second call says the
    /// same. Refused by `NoClient` where there is no such client.
    pub fn mark_closing(&mut self, id: ClientId) -> Result<u64, Refusal>
        ensures value { result ≡ count_held (client_with id self.old.clients) }
        ensures clients { OnOk result
            (self.new.clients ≡ change_client id with_mark self.old.clients) }
        ensures serial { self.new.serial ≡ self.old.serial }
        ensures spares { self.new.spares ≡ self.old.spares }
        ensures unchanged { OnErr result (self.new ≡ self.old) }
    {
        let ledger = self.ledgers.get_mut(id).ok_or(Refusal::NoClient)?;
        ledger.mark_closing();
        Ok(ledger.count() as u64)
    }

    /// Forgets a client that is closing and has no holding. Its serial is not given again.
    pub fn forget(&mut self, id: ClientId)
        requires { IsSomeAnd (client_with id self.old.clients) CanBeForgotten }
        ensures clients { self.new.clients ≡ without_client id self.old.clients }
        ensures serial { self.new.serial ≡ self.old.serial }
        ensures spare { spare_of id self.new ≡ 0 }
        ensures others { (other : ℕ) → other ≢ id
            → spare_of other self.new ≡ spare_of other self.old }
    {
        let _ = self.ledgers.remove(id);
    }

    /// The totals over all holdings of all clients.
    #[inline]
    pub fn totals(&self) -> Totals
        ensures { result ≡ totals self.now.clients }
    {
        self.sums.all()
    }

    /// The totals over all holdings of the clients that this worker, 0 to 15, opened.
    #[inline]
    pub fn totals_of(&self, worker: u64) -> Totals
        requires { worker < MAX_WORKERS }
        ensures { result ≡ share_of worker self.now.clients }
    {
        self.sums.share(worker)
    }
}
