//! The sessions that a daemon serves, a line each.
ghost use Rattle.std.specs.Prelude.{◌≡◌, ◌++◌, ◌-◌, ◌≤◌, ℕ, IfOk, OnOk};
ghost use Rattle.iova_control.specs.Rows.{PutsRows, PutsSessions, frames_in, row_text};

use iova_keep::look::Look;
use iova_links::control_task::MetricsSource;
use iova_range::limits::MAX_CLIENTS;
use iova_range::range::Range;
use std::alloc::{AllocError, Global};

/// Puts into the text for each session that is served now its worker, its client, and how many
/// ranges and frames that holds; client 0 before it has opened one. Refused for want of memory.
pub fn put_sessions<K: Look, T: MetricsSource>(
    alloc: Global,
    workers: u64,
    source: &T,
    domain: &K,
    text: &mut String,
) -> Result<(), AllocError>
    ensures { OnOk result (PutsSessions 0 workers text.old.bytes.items text.new.bytes.items) }
{
    let mut ranges = Vec::new(alloc);
    put_from(0, workers, source, domain, &mut ranges, text)
}

/// The sessions of this worker, and of those behind it.
fn put_from<K: Look, T: MetricsSource>(
    worker: u64,
    workers: u64,
    source: &T,
    domain: &K,
    ranges: &mut Vec<Range>,
    text: &mut String,
) -> Result<(), AllocError>
    requires { worker ≤ workers }
    ensures { OnOk result (PutsSessions worker (workers - worker) text.old.bytes.items
        text.new.bytes.items) }
{
    if worker >= workers {
        return Ok(());
    }
    put_worker(worker, source, domain, ranges, text)?;
    put_from(worker + 1, workers, source, domain, ranges, text)
}

/// The sessions of this worker, as many as are served now.
fn put_worker<K: Look, T: MetricsSource>(
    worker: u64,
    source: &T,
    domain: &K,
    ranges: &mut Vec<Range>,
    text: &mut String,
) -> Result<(), AllocError>
    ensures { OnOk result ((count : ℕ) × PutsRows worker count text.old.bytes.items
        text.new.bytes.items) }
{
    put_so_many(
        worker,
        source.sessions(worker),
        source,
        domain,
        ranges,
        text,
    )
}

/// So many sessions of this worker.
fn put_so_many<K: Look, T: MetricsSource>(
    worker: u64,
    sessions: u64,
    source: &T,
    domain: &K,
    ranges: &mut Vec<Range>,
    text: &mut String,
) -> Result<(), AllocError>
    ensures { OnOk result (PutsRows worker sessions text.old.bytes.items text.new.bytes.items) }
{
    let mut told = put_clients(worker, sessions, source, domain, ranges, text)?;
    while told < sessions {
        put_row(worker, 0, &[], text)?;
        told += 1;
    }
    Ok(())
}

/// Puts a line for each client of the worker whose session is served now, at most so many, and
/// gives their number: those clients that the domain has and whose end doesn't wait. Refused for
/// want of memory.
fn put_clients<K: Look, T: MetricsSource>(
    worker: u64,
    sessions: u64,
    source: &T,
    domain: &K,
    ranges: &mut Vec<Range>,
    text: &mut String,
) -> Result<u64, AllocError>
    ensures { IfOk result (λ told. (told ≤ sessions)
        × PutsRows worker told text.old.bytes.items text.new.bytes.items) }
{
    let mut told = 0;
    let mut behind = 0;
    for _ in 0..MAX_CLIENTS {
        ranges.clear();
        let Ok(client) = domain.client(worker, behind, ranges) else {
            return Err(AllocError);
        };
        let Some(client) = client else {
            return Ok(told);
        };
        behind = client;
        if told < sessions && !source.waits(client) {
            put_row(worker, client, ranges, text)?;
            told += 1;
        }
    }
    Ok(told)
}

/// Puts the line of a session of this worker, whose client holds these ranges.
fn put_row(worker: u64, client: u64, ranges: &[Range], text: &mut String) -> Result<(), AllocError>
    ensures { OnOk result (text.new.bytes.items ≡ text.old.bytes.items
        ++ row_text worker (record { client = client; ranges = ranges.now })) }
{
    let count = ranges.len();
    let frames = frames_of(ranges);
    writeln!(text, "{worker} {client} {count} {frames}")
}

/// How many frames these ranges have, as far as a number of 64 bits goes.
fn frames_of(ranges: &[Range]) -> u64
    ensures { result ≡ frames_in ranges.now }
{
    let mut frames = 0u64;
    for range in ranges {
        frames = frames.saturating_add(range.len());
    }
    frames
}
