//! The ledgers of all clients.
ghost use Rattle.std.specs.Prelude.{◌≡◌, ◌<◌, [], ◌∷◌, ◌++◌, find, option_map, option_copied, length, OnOk, OnErr, IsOkUnless};
ghost use Rattle.std.specs.Option.{option_copied_mut};
ghost use Rattle.std.specs.Borrow.{sem};
ghost use Rattle.std.specs.List.{AllByRecursion};
ghost use Rattle.std.specs.Map.{lookup, remove_entry};
ghost use Rattle.iova_model.specs.Fit.{is_covered};
ghost use Rattle.iova_clients.specs.Registry.{is_serial};
ghost use Rattle.iova_clients.specs.Accounts.{last_after, is_newer_entry};

use crate::ledger::ClientLedger;
use iova_range::refusal::Refusal;
use slab::Slab;
use std::alloc::Global;
use std::collections::BTreeMap;
use std::marker::Model;

/// The ledgers by the serials of their clients. They stand in a slab, under keys that nobody else
/// sees.
#[derive(Drop)]
pub(crate) struct Ledgers {
    slab: Slab<ClientLedger>,
    keys: BTreeMap<u64, usize>,
    /// A serial, with the key to look under for its ledger: its own key, and where no client has
    /// the serial, one under which nothing stands. It is the serial that was looked up last to
    /// change its ledger, or that came in since. Most steps speak of the client of the step before,
    /// and each part of a step of the same one.
    last: (u64, usize),
}

impl Model for Ledgers {
    ghost use Rattle.std.specs.Prelude.{ℕ, List};
    ghost use Rattle.iova_clients.specs.Accounts.{Account, listed_accounts, AreLedgers};
    ghost use Rattle.slab.specs.Slab.{get};

    ghost Value = { List (ℕ × Account) };

    ghost view = { λ l. listed_accounts (get l.slab) l.keys.entries };

    ghost invariant = { λ l. AreLedgers (get l.slab) l.keys.entries l.last };
}

/// The key of this serial, whichever is remembered. Where it has one, both are remembered.
#[inline(never)]
fn look_up(keys: &BTreeMap<u64, usize>, last: &mut (u64, usize), id: u64) -> Option<usize>
    ensures value { result ≡ lookup (is_serial id) keys.now.entries }
    ensures last { last.new ≡ last_after id result last.old }
{
    let key = keys.get(&id).copied()?;
    *last = (id, key);
    Some(key)
}

impl Ledgers {
    ghost use Rattle.iova_clients.specs.AccountsLends.{LendsLedger};

    pub(crate) fn new(alloc: Global) -> Ledgers
        ensures { result ≡ [] }
    {
        Ledgers {
            slab: Slab::new(alloc),
            keys: BTreeMap::new(alloc),
            last: (0, 0),
        }
    }

    #[inline]
    pub(crate) fn len(&self) -> usize
        ensures { result ≡ length self.now }
    {
        self.keys.len()
    }

    /// The ledger of this serial.
    pub(crate) fn get(&self, id: u64) -> Option<&ClientLedger>
        ensures { option_copied result ≡ lookup (is_serial id) self.now }
    {
        let (serial, key) = self.last;
        if serial == id {
            return self.slab.get(key);
        }
        let key = self.keys.get(&id).copied()?;
        self.slab.get(key)
    }

    /// The ledger of this serial, where it is the one that was looked up, or came in, last.
    #[inline(always)]
    pub(crate) fn last(&self, id: u64) -> Option<&ClientLedger> {
        let (serial, key) = self.last;
        if serial == id {
            return self.slab.get(key);
        }
        None
    }

    /// The ledger of this serial, to change it. Nothing is written where it is remembered.
    #[inline(always)]
    pub(crate) fn get_mut(&mut self, id: u64) -> Option<&mut ClientLedger>
        ensures* writes_back { sem 𝓛 (LendsLedger self.entry id result) }
        ensures value { option_copied_mut result ≡ lookup (is_serial id) self.old }
    {
        let (serial, key) = self.last;
        if serial == id {
            let ledger = self.slab.get_mut(key)?;
            return Some(ledger);
        }
        let key = look_up(&self.keys, &mut self.last, id)?;
        Some(&mut self.slab[key])
    }

    /// A ledger comes in, under a serial above all others. Refused by `NoMemory`.
    pub(crate) fn push(&mut self, id: u64, ledger: ClientLedger) -> Result<(), Refusal>
        requires { AllByRecursion (λ e. e.0 < id) self.old }
        ensures ok { OnOk result (self.new ≡ self.old ++ (id, ledger) ∷ []) }
        ensures refused { IsOkUnless result Refusal.NoMemory }
        ensures err { OnErr result (self.new ≡ self.old) }
    {
        let Ok(()) = self.slab.reserve(1) else {
            return Err(Refusal::NoMemory);
        };
        let key = self.slab.vacant_key();
        let Ok(_) = self.keys.insert(id, key) else {
            return Err(Refusal::NoMemory);
        };
        self.slab.insert_reserved(ledger);
        self.last = (id, key);
        Ok(())
    }

    /// The ledger of this serial leaves.
    pub(crate) fn remove(&mut self, id: u64) -> Option<ClientLedger>
        ensures value { result ≡ lookup (is_serial id) self.old }
        ensures left { self.new ≡ remove_entry (is_serial id) self.old }
    {
        let key = self.keys.remove(&id)?;
        self.slab.try_remove(key)
    }

    /// The serial of the first ledger with a holding that has the frame.
    pub(crate) fn holder(&self, frame: u64) -> Option<u64>
        ensures { result ≡ option_map (λ e. e.0)
            (find (λ e. is_covered frame e.1.holdings) self.now) }
    {
        for (id, key) in self.keys.iter() {
            if let Some(ledger) = self.slab.get(*key)
                && ledger.covers(frame)
            {
                return Some(*id);
            }
        }
        None
    }

    /// The first serial above this one with a ledger of the worker.
    pub(crate) fn newer(&self, worker: u64, than: u64) -> Option<u64>
        ensures { result ≡ option_map (λ e. e.0)
            (find (λ e. is_newer_entry worker than e) self.now) }
    {
        for (id, key) in self.keys.iter() {
            if let Some(ledger) = self.slab.get(*key)
                && ledger.worker() == worker
                && *id > than
            {
                return Some(*id);
            }
        }
        None
    }
}
