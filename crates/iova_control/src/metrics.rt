//! What is counted of a daemon, in the text form that Prometheus reads.
ghost use Rattle.std.specs.Prelude.{◌≡◌, ◌≢◌, ◌++◌, ◌+◌, ◌≤◌, ◌∷◌, ℕ, List, None, IfSome, MatchOption, OnOk, false, length, map, true};
ghost use Rattle.iova_range.specs.declared.limits.TheConstants.{MAX_REFUSAL};
ghost use Rattle.iova_control.specs.declared.metrics.Numbers.{Numbers};
ghost use Rattle.iova_control.specs.Metrics.{DaemonCounts, PutsMetrics, PutsRefusals};
ghost use Rattle.iova_control.specs.Metrics.{build_text, counter, daemon_metrics, metric_text, metrics_text, flush_metrics, gauge, kind_text, name_text, named_text};
ghost use Rattle.iova_control.specs.Metrics.{number_metric, place_line, places_text, program_text, refusal_text, refusals_kind, refusals_text, sink_text, wait_text, waited};
ghost use Rattle.iova_control.specs.Reports.{AreNumbersOf, IsField, NumberIn, behind_spaces};

use crate::control::{Facts, Pad};
use crate::info::{cut_line, lines_of, sink_kind};
use iova_keep::look::Look;
use iova_links::control_task::DaemonMetrics;
use iova_links::signals::Signals;
use iova_range::limits::MAX_REFUSAL;
use iova_text::number::number;
use std::alloc::AllocError;
use std::str;

/// A metric of one number.
#[derive(Clone, Copy)]
struct Metric {
    name: &'static str,
    kind: &'static str,
    /// What it is.
    help: &'static str,
    number: u64,
}

/// What a report has of a domain, by the names that it has there: the frames of each place, and
/// the numbers of its flushes.
#[derive(Clone, Copy)]
struct Numbers {
    free: u64,
    reserved: u64,
    client: u64,
    magazine: u64,
    depot: u64,
    ring: u64,
    start: u64,
    finish: u64,
    owed: u64,
}

/// Puts all metrics of such a daemon into the text, each with what it is. Refused for want of
/// memory.
pub fn put_metrics<K: Look>(
    facts: &Facts,
    signals: &Signals,
    metrics: DaemonMetrics,
    domain: &K,
    pad: &mut Pad,
) -> Result<(), AllocError>
    ensures { OnOk result ((n : Numbers) × AreNumbersOf pad.new.report.items n
        × PutsMetrics facts.now n metrics pad.old.text.bytes.items pad.new.text.bytes.items) }
{
    let Ok(()) = domain.look(&mut pad.report) else {
        return Err(AllocError);
    };
    let Ok(report) = str::from_utf8(&pad.report) else {
        return Err(AllocError);
    };
    let numbers = numbers_of(report);
    put_all_of(
        &mut pad.text,
        facts,
        signals,
        metrics,
        numbers,
        domain.steps(),
    )
}

/// All metrics, of a domain with these numbers.
fn put_all_of(
    text: &mut String,
    facts: &Facts,
    signals: &Signals,
    metrics: DaemonMetrics,
    numbers: Numbers,
    steps: u64,
) -> Result<(), AllocError>
    ensures { OnOk result (PutsMetrics facts.now numbers metrics text.old.bytes.items
        text.new.bytes.items) }
{
    put_domain(text, numbers)?;
    put_daemon(text, facts, signals, metrics, steps)?;
    put_oldest_wait(text, numbers.ring, metrics.since_round)?;
    put_refusals(text, signals)?;
    put_program(text, facts)
}

/// What the report has of the domain.
fn put_domain(text: &mut String, numbers: Numbers) -> Result<(), AllocError>
    ensures { OnOk result (text.new.bytes.items ≡ text.old.bytes.items
        ++ (places_text numbers ++ metrics_text (flush_metrics numbers))) }
{
    put_places(text, numbers)?;
    put_all(
        text,
        &[
            counter(
                "iovad_flushes_begun_total",
                "Flushes that have begun.",
                numbers.start,
            ),
            counter(
                "iovad_flushes_ended_total",
                "The finish count.",
                numbers.finish,
            ),
            gauge(
                "iovad_flushes_owed",
                "Failed flushes that none has made up for.",
                numbers.owed,
            ),
        ],
    )
}

/// The frames of each place, by its name in the report.
fn put_places(text: &mut String, numbers: Numbers) -> Result<(), AllocError>
    ensures { OnOk result (text.new.bytes.items ≡ text.old.bytes.items ++ places_text numbers) }
{
    put_kind(
        text,
        "iovad_frames",
        "gauge",
        "Page frames of the domain, by place.",
    )?;
    put_place(text, "free", numbers.free)?;
    put_place(text, "reserved", numbers.reserved)?;
    put_place(text, "client", numbers.client)?;
    put_place(text, "magazine", numbers.magazine)?;
    put_place(text, "depot", numbers.depot)?;
    put_place(text, "ring", numbers.ring)
}

/// The frames of a place.
fn put_place(text: &mut String, place: &str, frames: u64) -> Result<(), AllocError>
    ensures { OnOk result (text.new.bytes.items ≡ text.old.bytes.items
        ++ place_line place.now frames) }
{
    writeln!(text, "iovad_frames{{place=\"{place}\"}} {frames}")
}

/// How long a range has waited in a ring, at most: no longer than since a round that ended well.
fn put_oldest_wait(text: &mut String, ring: u64, since_round: u64) -> Result<(), AllocError>
    ensures { OnOk result (text.new.bytes.items ≡ text.old.bytes.items
        ++ wait_text ring since_round) }
{
    put_kind(
        text,
        "iovad_oldest_wait_seconds",
        "gauge",
        "How long a range has waited in a ring, at most.",
    )?;
    let oldest = waited(ring, since_round);
    let seconds = oldest / 1_000;
    let (first, second, third) = (oldest % 1_000 / 100, oldest % 100 / 10, oldest % 10);
    writeln!(
        text,
        "iovad_oldest_wait_seconds {seconds}.{first}{second}{third}"
    )
}

fn waited(ring: u64, since_round: u64) -> u64
    ensures { result ≡ waited ring since_round }
{
    if ring == 0 { 0 } else { since_round }
}

/// What the daemon counts itself.
fn put_daemon(
    text: &mut String,
    facts: &Facts,
    signals: &Signals,
    metrics: DaemonMetrics,
    steps: u64,
) -> Result<(), AllocError>
    ensures { OnOk result ((c : DaemonCounts) × (text.new.bytes.items ≡ text.old.bytes.items
        ++ metrics_text (daemon_metrics facts.now c metrics))) }
{
    let (granule, served, freed) = (facts.granule, metrics.served, signals.frees());
    put_all(
        text,
        &[
            counter(
                "iovad_flushes_failed_total",
                "Flushes that failed or could not begin.",
                signals.failed_flushes(),
            ),
            gauge("iovad_workers", "Workers of the domain.", facts.workers),
            gauge("iovad_granule_bytes", "Bytes of a page frame.", granule),
            gauge(
                "iovad_clients",
                "The most sessions that are served at a time.",
                facts.clients,
            ),
            gauge("iovad_sessions", "Sessions that are served.", served),
            counter(
                "iovad_clients_full_total",
                "How often the last place for a session was taken.",
                metrics.full,
            ),
            counter(
                "iovad_sessions_total",
                "Sessions that were accepted.",
                metrics.accepted,
            ),
            counter(
                "iovad_requests_total",
                "Lines that sessions sent.",
                signals.requests(),
            ),
            counter(
                "iovad_allocs_total",
                "Ranges that were given to clients.",
                signals.allocs(),
            ),
            counter("iovad_frees_total", "Ranges that clients freed.", freed),
            gauge(
                "iovad_clients_waiting",
                "Clients whose end waits.",
                metrics.waiting,
            ),
            counter(
                "iovad_notices_total",
                "Notices on standard error.",
                signals.notices(),
            ),
            gauge("iovad_record_steps", "Steps that are recorded.", steps),
            gauge(
                "iovad_start_time_seconds",
                "When the daemon started, in seconds since the beginning of 1970.",
                signals.started(),
            ),
        ],
    )
}

/// How many requests were refused, by the refusal's number: those of which there were some.
fn put_refusals(text: &mut String, signals: &Signals) -> Result<(), AllocError>
    ensures { OnOk result ((counts : List ℕ) × (length counts ≡ MAX_REFUSAL)
        × (text.new.bytes.items ≡ text.old.bytes.items
        ++ (refusals_kind ++ refusals_text 1 counts))) }
{
    put_kind(
        text,
        "iovad_refusals_total",
        "counter",
        "Requests that were refused, by number.",
    )?;
    put_refusals_from(text, signals, 1)
}

/// Puts a line for each refusal from this number on.
fn put_refusals_from(text: &mut String, signals: &Signals, number: usize) -> Result<(), AllocError>
    requires { number ≤ MAX_REFUSAL + 1 }
    ensures { OnOk result (PutsRefusals number text.old.bytes.items text.new.bytes.items) }
{
    if number > MAX_REFUSAL {
        return Ok(());
    }
    put_refusal(text, number, signals.refusals(number))?;
    put_refusals_from(text, signals, number + 1)
}

/// How many requests were refused by this number, where any was.
fn put_refusal(text: &mut String, number: usize, refusals: u64) -> Result<(), AllocError>
    ensures { OnOk result (text.new.bytes.items ≡ text.old.bytes.items
        ++ refusal_text number refusals) }
{
    if refusals == 0 {
        return Ok(());
    }
    writeln!(
        text,
        "iovad_refusals_total{{number=\"{number}\"}} {refusals}"
    )
}

/// Of which kind the sink is, which program it is, and which name it has.
fn put_program(text: &mut String, facts: &Facts) -> Result<(), AllocError>
    ensures { OnOk result (text.new.bytes.items ≡ text.old.bytes.items ++ program_text facts.now) }
{
    put_sink(text, facts.has_peer)?;
    put_build(text, facts.version.as_str())?;
    put_name(text, facts.name.as_str())
}

/// Of which kind the sink is.
fn put_sink(text: &mut String, has_peer: bool) -> Result<(), AllocError>
    ensures { OnOk result (text.new.bytes.items ≡ text.old.bytes.items ++ sink_text has_peer) }
{
    put_kind(text, "iovad_sink", "gauge", "Of which kind the sink is.")?;
    let kind = sink_kind(has_peer);
    writeln!(text, "iovad_sink{{kind=\"{kind}\"}} 1")
}

/// Which program it is.
fn put_build(text: &mut String, version: &str) -> Result<(), AllocError>
    ensures { OnOk result (text.new.bytes.items ≡ text.old.bytes.items ++ build_text version.now) }
{
    put_kind(
        text,
        "iovad_build_info",
        "gauge",
        "The version, and the kit that proved it.",
    )?;
    let (version, kit) = lines_of(version);
    writeln!(
        text,
        "iovad_build_info{{version=\"{version}\",kit=\"{kit}\"}} 1"
    )
}

/// Which name the daemon has, where it has one.
fn put_name(text: &mut String, name: &str) -> Result<(), AllocError>
    ensures { OnOk result (text.new.bytes.items ≡ text.old.bytes.items ++ name_text name.now) }
{
    if name.is_empty() {
        return Ok(());
    }
    put_named(text, name)
}

/// That the daemon has this name.
fn put_named(text: &mut String, name: &str) -> Result<(), AllocError>
    ensures { OnOk result (text.new.bytes.items ≡ text.old.bytes.items ++ named_text name.now) }
{
    put_kind(text, "iovad_name", "gauge", "The name that --name gives.")?;
    writeln!(text, "iovad_name{{name=\"{name}\"}} 1")
}

/// A count that rises.
fn counter(name: &'static str, help: &'static str, number: u64) -> Metric
    ensures { number_metric result ≡ counter name.now help.now number }
{
    Metric {
        name,
        kind: "counter",
        help,
        number,
    }
}

/// A number that rises and falls.
fn gauge(name: &'static str, help: &'static str, number: u64) -> Metric
    ensures { number_metric result ≡ gauge name.now help.now number }
{
    Metric {
        name,
        kind: "gauge",
        help,
        number,
    }
}

/// Puts these metrics into the text, one after another.
fn put_all(text: &mut String, metrics: &[Metric]) -> Result<(), AllocError>
    ensures { OnOk result (text.new.bytes.items ≡ text.old.bytes.items
        ++ metrics_text (map number_metric metrics.now)) }
{
    let Some((metric, more)) = metrics.split_first() else {
        return Ok(());
    };
    put(text, *metric)?;
    put_all(text, more)
}

/// Puts a metric into the text.
fn put(text: &mut String, metric: Metric) -> Result<(), AllocError>
    ensures { OnOk result (text.new.bytes.items ≡ text.old.bytes.items
        ++ metric_text (number_metric metric)) }
{
    let Metric {
        name,
        kind,
        help,
        number,
    } = metric;
    put_kind(text, name, kind, help)?;
    writeln!(text, "{name} {number}")
}

/// What a metric is.
fn put_kind(text: &mut String, name: &str, kind: &str, help: &str) -> Result<(), AllocError>
    ensures { OnOk result (text.new.bytes.items ≡ text.old.bytes.items
        ++ kind_text name.now kind.now help.now) }
{
    writeln!(text, "# HELP {name} {help}")?;
    writeln!(text, "# TYPE {name} {kind}")
}

/// The numbers of a report.
fn numbers_of(report: &str) -> Numbers
    ensures { AreNumbersOf report.now result }
{
    Numbers {
        free: number_of(report, "free"),
        reserved: number_of(report, "reserved"),
        client: number_of(report, "client"),
        magazine: number_of(report, "magazine"),
        depot: number_of(report, "depot"),
        ring: number_of(report, "ring"),
        start: number_of(report, "start"),
        finish: number_of(report, "finish"),
        owed: number_of(report, "owed"),
    }
}

/// The number behind this name in a report; 0 where there is none.
fn number_of(report: &str, name: &str) -> u64
    ensures { NumberIn name.now report.now result }
{
    let Some((line, more)) = cut_line(report) else {
        return 0;
    };
    match number_behind(line.as_bytes(), name.as_bytes()) {
        Some(number) => number,
        None => number_of(more, name),
    }
}

/// The number that stands behind this name in the line.
fn number_behind(line: &[u8], name: &[u8]) -> Option<u64>
    ensures spelled { IfSome result (λ n. IsField name.now n line.now) }
    ensures all { result ≡ None → (n : ℕ) → IsField name.now n line.now → ⊥ }
{
    let Some(rest) = behind_name(line, name) else {
        return None;
    };
    let Some(digits) = behind_space(rest) else {
        return None;
    };
    number(behind_spaces(digits))
}

/// What stands behind the name, where the line begins with it.
fn behind_name<'a>(line: &'a [u8], name: &[u8]) -> Option<&'a [u8]>
    ensures { MatchOption result ((rest : List ℕ) → line.now ≡ name.now ++ rest → ⊥)
        (λ rest. line.now ≡ name.now ++ rest.now) }
{
    if line.len() < name.len() {
        return None;
    }
    let (front, rest) = line.split_at(name.len());
    if are_same(front, name) {
        Some(rest)
    } else {
        None
    }
}

fn are_same(these: &[u8], those: &[u8]) -> bool
    ensures same { result ≡ true → these.now ≡ those.now }
    ensures other { result ≡ false → these.now ≢ those.now }
{
    these == those
}

/// What stands behind the space at the front, where there is one.
fn behind_space(text: &[u8]) -> Option<&[u8]>
    ensures { MatchOption result ((more : List ℕ) → text.now ≡ 32 ∷ more → ⊥)
        (λ more. text.now ≡ 32 ∷ more.now) }
{
    let (first, more) = text.split_first()?;
    if *first == b' ' { Some(more) } else { None }
}

/// What stands behind the spaces at the front.
fn behind_spaces(text: &[u8]) -> &[u8]
    ensures { result.now ≡ behind_spaces text.now }
{
    match text {
        [b' ', more @ ..] => behind_spaces(more),
        _ => text,
    }
}
