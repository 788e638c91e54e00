//! How busy workers are, and which of them the next session goes to.
ghost use Rattle.std.specs.Prelude.{◌≡◌, ◌%◌, true, false, IfSome, IfNone, All, slice_get};
ghost use Rattle.std.specs.Option.{ForSome};
ghost use Rattle.iova_links.specs.Loads.{IsFewest};
ghost use Rattle.iova_range.specs.declared.limits.TheConstants.{MAX_WORKERS};

use iova_range::limits::MAX_WORKERS;

/// How many posts of a worker are free, which serve no session and where no client waits, and how
/// many sessions it serves.
#[derive(Clone, Copy)]
pub struct Load {
    pub free: u64,
    pub sessions: u64,
}

/// The place of a worker.
pub fn place_of(worker: u64) -> usize
    ensures { result ≡ worker % MAX_WORKERS }
{
    (worker % MAX_WORKERS) as usize
}

/// The place of the worker that serves the fewest sessions of those with a free post; among several
/// the first one, where it is one of them, else that of the lowest place. None where no post is
/// free.
pub fn fewest(loads: &[Load], first: usize) -> Option<usize>
    ensures fewest { IfSome result (λ at. ForSome (slice_get loads.now at) (IsFewest loads.now)) }
    ensures none { IfNone result (All (λ l. l.free ≡ 0) loads.now) }
{
    let mut best = None;
    if let Some(load) = loads.get(first)
        && load.free > 0
    {
        best = Some((first, load.sessions));
    }
    for at in 0..loads.len() {
        let load = loads[at];
        let is_fewer = match best {
            Some((_, least)) => load.sessions < least,
            None => true,
        };
        if load.free > 0 && is_fewer {
            best = Some((at, load.sessions));
        }
    }
    match best {
        Some((at, _)) => Some(at),
        None => None,
    }
}

/// Whether a post may take a session: one that rests may where no post is free.
pub fn may_serve(loads: &[Load], rests: bool) -> bool
    ensures rests { rests ≡ true → result ≡ true → All (λ l. l.free ≡ 0) loads.now }
    ensures free { rests ≡ false → result ≡ true }
{
    !rests || fewest(loads, 0).is_none()
}
