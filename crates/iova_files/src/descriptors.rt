//! How many descriptors a daemon wants, and how many it may have.
ghost use Rattle.std.specs.Prelude.{◌≡◌, ◌≤◌, ◌⊎◌};

use iova_range::limits::DAEMON_DESCRIPTORS;
use log::{Log, warn};
use std::fs::File;
use std::io::Read;
use std::rt::Files;

/// Where the system shows a process its limits.
const LIMITS: &str = "/proc/self/limits";

/// What the limit of descriptors is called there.
const DESCRIPTORS: &str = "Max open files";

/// How many of so many sessions may be served at a time, beside the sinks of so many workers: as
/// many as there are descriptors for, and one at least. The others are kept back, so that the
/// sinks, the record and the control socket find one. Where they aren't enough for all, a notice
/// says so.
pub fn sessions_within<R: AllocGlobal + Files<File = File>, N: Log>(
    rt: &R,
    notices: &N,
    clients: u64,
    workers: u64,
) -> u64
    ensures most { result ≤ clients ⊎ (result ≡ 1) }
    ensures least { 1 ≤ clients → 1 ≤ result }
{
    let kept = workers.saturating_add(DAEMON_DESCRIPTORS);
    let wanted = clients.saturating_add(kept);
    match allowed(rt) {
        Some(allowed) if allowed < wanted => {
            let most = allowed.saturating_sub(kept).max(1);
            let how = "served at a time; set ulimit -n, or LimitNOFILE of the unit";
            let but = "descriptors, and";
            warn!(
                notices; target: "",
                "{clients} clients want {wanted} {but} {allowed} are allowed: {most} are {how}"
            );
            most
        }
        _ => clients,
    }
}

/// How many descriptors the process may have, where the system says so and there is a limit.
fn allowed<R: AllocGlobal + Files<File = File>>(rt: &R) -> Option<u64> {
    let mut file = File::open(rt, LIMITS).ok()?;
    let mut text = String::new(rt.alloc());
    file.read_to_string(&mut text).ok()?;
    for line in text.lines() {
        if let Some(limits) = line.strip_prefix(DESCRIPTORS) {
            return limits.split_whitespace().next()?.parse::<u64>().ok();
        }
    }
    None
}
