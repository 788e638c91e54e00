//! The ledger of one client.
ghost use Rattle.std.specs.Prelude.{◌≡◌, ◌≤◌, ◌+◌, ◌-◌, false, true, [], find, length, slice_get, take, vec_len, vec_capacity, Some, Err, IsOk, OnOk, OnErr, OnSome, IfSome, IfNone, None, IsOkUnless};
ghost use Rattle.iova_model.specs.Fit.{is_covered};
ghost use Rattle.iova_model.specs.Clients.{begins_at};
ghost use Rattle.iova_clients.specs.Registry.{room_refusal};
ghost use Rattle.iova_clients.specs.Orders.{AppendsInAnyOrder};
ghost use Rattle.iova_clients.specs.Accounts.{client_at, with_held, without_held};

use crate::holdings::Holdings;
use iova_range::limits::MAX_HOLDINGS;
use iova_range::range::Range;
use iova_range::refusal::Refusal;
use std::alloc::Global;
use std::marker::Model;

/// What is kept of a client, besides its serial. The holdings rise by first frame.
#[derive(Drop)]
pub(crate) struct ClientLedger {
    worker: u64,
    sac: bool,
    holdings: Holdings,
}

impl Model for ClientLedger {
    ghost use Rattle.iova_clients.specs.Accounts.{Account};

    ghost Value = { Account };

    ghost view = { λ l. record {
      worker = l.worker;
      sac = l.sac;
      closing = l.holdings.closing;
      holdings = l.holdings.ranges;
      spare = l.holdings.spare;
    } };
}

impl ClientLedger {
    pub(crate) fn new(alloc: Global, worker: u64, sac: bool) -> ClientLedger
        ensures { result ≡ record {
          worker = worker;
          sac = sac;
          closing = false;
          holdings = [];
          spare = 0;
        } }
    {
        ClientLedger {
            worker,
            sac,
            holdings: Holdings::new(alloc),
        }
    }

    #[inline]
    pub(crate) fn worker(&self) -> u64
        ensures { result ≡ self.now.worker }
    {
        self.worker
    }

    #[inline]
    pub(crate) fn is_sac(&self) -> bool
        ensures { result ≡ self.now.sac }
    {
        self.sac
    }

    #[inline]
    pub(crate) fn is_closing(&self) -> bool
        ensures { result ≡ self.now.closing }
    {
        self.holdings.is_closing()
    }

    /// How many holdings there are.
    #[inline]
    pub(crate) fn count(&self) -> usize
        ensures { result ≡ length self.now.holdings }
    {
        self.holdings.len()
    }

    /// The lowest holding.
    pub(crate) fn first(&self) -> Option<Range>
        ensures { result ≡ slice_get self.now.holdings 0 }
    {
        self.holdings.first()
    }

    /// Copies the holdings to the front of the list, rising.
    pub(crate) fn copy_to(&self, list: &mut [Range])
        requires { length self.now.holdings ≤ length list.old }
        ensures front { take (length self.now.holdings) list.new ≡ self.now.holdings }
        ensures len { length list.new ≡ length list.old }
    {
        self.holdings.copy_to(list);
    }

    /// Appends the holdings, in no order. `NoMemory` where memory is refused; then the list is as
    /// it was.
    pub(crate) fn append_to(&self, list: &mut Vec<Range>) -> Result<(), Refusal>
        ensures ok { OnOk result (AppendsInAnyOrder self.now.holdings list.old.items
            list.new.items) }
        ensures refused { IsOkUnless result Refusal.NoMemory }
        ensures unchanged { OnErr result (list.new.items ≡ list.old.items) }
        ensures room { vec_len list.old + length self.now.holdings ≤ vec_capacity list.old
            → IsOk result }
        ensures capacity { vec_capacity list.old ≤ vec_capacity list.new }
    {
        match self.holdings.append_to(list) {
            Ok(()) => Ok(()),
            Err(_) => Err(Refusal::NoMemory),
        }
    }

    pub(crate) fn covers(&self, frame: u64) -> bool
        ensures { result ≡ is_covered frame self.now.holdings }
    {
        self.holdings.covers(frame)
    }

    /// Whether `room` finds room at once.
    #[inline(always)]
    pub(crate) fn has_room(&self) -> bool {
        !self.is_closing() && self.holdings.has_room()
    }

    /// Makes room for one holding more.
    #[inline(always)]
    pub(crate) fn room(&mut self) -> Result<(), Refusal>
        ensures refused { IfSome (room_refusal (Some (client_at (0, self.old))))
            (λ refusal. result ≡ Err refusal) }
        ensures accepted { IfNone (room_refusal (Some (client_at (0, self.old))))
            (IsOkUnless result Refusal.NoMemory) }
        ensures starved { result ≡ Err Refusal.NoMemory → self.old.spare ≡ 0 }
        ensures spare { OnOk result (1 ≤ self.new.spare) }
        ensures grows { self.old.spare ≤ self.new.spare }
        ensures kept { self.new ≡ record self.old { spare = self.new.spare } }
        ensures unchanged { OnErr result (self.new ≡ self.old) }
    {
        if self.holdings.is_closing() {
            return Err(Refusal::Closing);
        }
        if self.holdings.len() >= MAX_HOLDINGS {
            return Err(Refusal::HoldingsFull);
        }
        match self.holdings.reserve() {
            Ok(()) => Ok(()),
            Err(_) => Err(Refusal::NoMemory),
        }
    }

    /// Takes the range in, which begins where no holding does.
    #[inline(always)]
    pub(crate) fn add(&mut self, range: Range)
        requires spare { 1 ≤ self.old.spare }
        requires new { find (begins_at range.lo) self.old.holdings ≡ None }
        ensures { self.new ≡ with_held range self.old }
    {
        self.holdings.insert(range);
    }

    /// The holding that begins there, while the client isn't closing.
    #[inline]
    pub(crate) fn holding(&self, lo: u64) -> Option<Range>
        requires { self.now.closing ≡ false }
        ensures { result ≡ find (begins_at lo) self.now.holdings }
    {
        self.holdings.find(lo)
    }

    /// Gives up the holding that begins there.
    #[inline(always)]
    pub(crate) fn take(&mut self, lo: u64) -> Option<Range>
        ensures value { result ≡ find (begins_at lo) self.old.holdings }
        ensures some { OnSome result (self.new ≡ without_held lo self.old) }
        ensures none { IfNone result (self.new ≡ self.old) }
    {
        self.holdings.take(lo)
    }

    /// Marks it closing. A second call changes nothing.
    #[inline]
    pub(crate) fn mark_closing(&mut self)
        ensures { self.new ≡ record self.old { closing = true } }
    {
        self.holdings.close();
    }
}
