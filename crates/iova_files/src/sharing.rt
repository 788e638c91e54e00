//! Sinks that the posts of a daemon share.
ghost use Rattle.std.specs.Prelude.{◌≡◌, ◌≤◌, ◌+◌, [], IfSome, length, vec_len};
ghost use Rattle.std.specs.List.{AllByRecursion};

use iova_links::locked_sink::{LockedSink, SharedSink};
use std::alloc::Global;

/// Each of these sinks, for posts to share. None for want of memory.
pub fn share_all<D: Drop>(alloc: Global, sinks: Vec<D>) -> Option<Vec<SharedSink<D>>>
    ensures { IfSome result (λ v. vec_len v ≡ vec_len sinks) }
{
    let Ok(mut held) = Vec::with_capacity(alloc, sinks.len()) else {
        return None;
    };
    for sink in sinks {
        let Ok(()) = held.push(SharedSink::new(sink)) else {
            unreachable!();
        };
    }
    Some(held)
}

/// A sink for each of so many posts, and one for the flusher. The last of those that are held is
/// the flusher's; the others are those of the workers, whose posts come in turn and share them.
/// None for want of memory.
pub fn sinks_in_turn<'a, R, D>(
    rt: &'a R,
    alloc: Global,
    held: &'a [SharedSink<D>],
    posts: usize,
) -> Option<Vec<LockedSink<'a, R, D>>>
    requires { 2 ≤ length held.now }
    ensures count { IfSome result (λ v. vec_len v ≡ posts + 1) }
    ensures fresh { IfSome result (λ v. AllByRecursion (λ s. s.calls ≡ []) v.items) }
{
    let workers = held.len() - 1;
    let mut sinks = Vec::new(alloc);
    for at in 0..posts {
        let sink = LockedSink::new(rt, &held[at % workers]);
        if sinks.push(sink).is_err() {
            return None;
        }
    }
    if sinks.push(LockedSink::new(rt, &held[workers])).is_err() {
        return None;
    }
    Some(sinks)
}
