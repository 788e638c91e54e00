//! The workers' shares of the totals, kept as numbers.
ghost use Rattle.std.specs.Prelude.{◌≡◌, ◌<◌, ◌≤◌, ◌+◌, ◌^◌, replicate, length};
ghost use Rattle.iova_model.specs.Clients.{no_totals};
ghost use Rattle.iova_clients.specs.Sums.{added, with_one, without_one, share_at, with_share, HaveRoom, Include};

use iova_model::totals::Totals;
use iova_range::limits::MAX_WORKERS;
use iova_range::range::Range;

const NO_TOTALS: Totals = Totals {
    count: 0,
    frames: 0,
    sum_lo: 0,
};

/// The totals over the holdings of each worker's clients.
#[derive(Drop)]
pub(crate) struct Sums {
    pub(crate) shares: [Totals; MAX_WORKERS as usize],
}

#[inline]
fn with_one(range: Range, totals: Totals) -> Totals
    requires room { HaveRoom totals }
    requires low { range.lo + range.len ≤ 2 ^ 40 }
    ensures { result ≡ with_one range totals }
{
    Totals {
        count: totals.count + 1,
        frames: totals.frames + range.len(),
        sum_lo: totals.sum_lo + range.lo(),
    }
}

#[inline]
fn without_one(range: Range, totals: Totals) -> Totals
    requires { Include range totals }
    ensures { result ≡ without_one range totals }
{
    Totals {
        count: totals.count - 1,
        frames: totals.frames - range.len(),
        sum_lo: totals.sum_lo - range.lo(),
    }
}

impl Sums {
    /// Of no holdings.
    pub(crate) fn new() -> Sums
        ensures { result.shares ≡ replicate MAX_WORKERS no_totals }
    {
        Sums {
            shares: [NO_TOTALS; MAX_WORKERS as usize],
        }
    }

    /// All workers' together: the shares are added up at each call, and no other call pays for it.
    #[inline]
    pub(crate) fn all(&self) -> Totals
        requires { HaveRoom (added self.now.shares) }
        ensures { result ≡ added self.now.shares }
    {
        let mut all = NO_TOTALS;
        for share in self.shares.iter() {
            all = Totals {
                count: all.count + share.count,
                frames: all.frames + share.frames,
                sum_lo: all.sum_lo + share.sum_lo,
            };
        }
        all
    }

    /// One worker's.
    #[inline]
    pub(crate) fn share(&self, worker: u64) -> Totals
        requires { worker < MAX_WORKERS }
        ensures { result ≡ share_at worker self.now.shares }
    {
        self.shares[worker as usize]
    }

    /// A client of this worker is given a holding.
    #[inline(always)]
    pub(crate) fn add(&mut self, worker: u64, range: Range)
        requires worker { worker < MAX_WORKERS }
        requires low { range.lo + range.len ≤ 2 ^ 40 }
        requires room { HaveRoom (share_at worker self.old.shares) }
        ensures { self.new.shares ≡ with_share worker (with_one range) self.old.shares }
    {
        let place = worker as usize;
        self.shares[place] = with_one(range, self.shares[place]);
    }

    /// A client of this worker gives a holding up.
    #[inline(always)]
    pub(crate) fn remove(&mut self, worker: u64, range: Range)
        requires worker { worker < MAX_WORKERS }
        requires held { Include range (share_at worker self.old.shares) }
        ensures { self.new.shares ≡ with_share worker (without_one range) self.old.shares }
    {
        let place = worker as usize;
        self.shares[place] = without_one(range, self.shares[place]);
    }
}
