//! How many seats a plan's domain has.
ghost use Rattle.std.specs.Prelude.{◌≡◌, ◌≤◌, unwrap_or};
ghost use Rattle.iova_range.specs.declared.limits.TheConstants.{DEFAULT_CLIENTS, MAX_CLIENTS, MAX_POSTS};
ghost use Rattle.iova_planned.specs.PlannedDomains.{seat_count};

use iova_command::plan::Plan;
use iova_range::limits::{DEFAULT_CLIENTS, MAX_CLIENTS, MAX_POSTS};

/// How many seats there are at the plan's domain, one for each post: twice as many as clients that
/// are served at a time, so that as many posts may rest as serve, and 1,024 at most; and at least
/// one for each worker.
pub fn seat_count(plan: &Plan<'_>) -> u64
    ensures is { result ≡ seat_count plan.now }
    ensures enough { plan.now.workers ≤ result }
    ensures most { result ≤ MAX_POSTS }
{
    (2 * clients_of(plan)).min(MAX_POSTS).max(plan.workers)
}

/// How many clients are served at a time: 64 where the plan doesn't say.
pub fn clients_of(plan: &Plan<'_>) -> u64
    ensures is { result ≡ unwrap_or plan.now.clients DEFAULT_CLIENTS }
    ensures most { result ≤ MAX_CLIENTS }
{
    plan.clients.unwrap_or(DEFAULT_CLIENTS)
}
