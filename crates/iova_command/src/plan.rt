//! What a daemon is to serve.
ghost use Rattle.std.specs.Prelude.{◌≡◌, ◌<◌, ◌≤◌, ◌↔◌, IfSome, codes, map, false, true};
ghost use Rattle.std.specs.Option.{ForSome};
ghost use Rattle.clap.specs.Words.{rows_of, found_of};
ghost use Rattle.iova_command.specs.Granules.{IsGranule, is_granule};
ghost use Rattle.iova_command.specs.Levels.{HasLevel, IsChoiceOf};
ghost use Rattle.iova_command.specs.Numbers.{HasNumber, HasNumberOr, HasOptional, IsInRange, IsPlain, begins_with_plus, default_of};
ghost use Rattle.iova_command.specs.Spans.{HasSpans, InsertsSpan, InsertsSpans};
ghost use Rattle.iova_range.specs.declared.limits.TheConstants.{MAX_CLIENTS, MAX_DEPOT, MAX_WORKERS, MAX_DOMAINS, MAX_IDLE, MAX_PEER_WAIT, MAX_RECORDED_STEPS, MAX_SESSION_REQUESTS, MAX_SESSIONS, MAX_SINK_TIMEOUT, WIDE_TOP};

use crate::options;
use crate::options::{OptionRow, Takes};
use crate::sink_path::SinkPath;
use clap::ArgMatches;
use iova_range::range::Range;
use iova_regions::span::read_span;
use iova_regions::windows::Windows;
use log::LevelFilter;

/// The options of `serve`, each in its range.
pub struct Plan<'a> {
    /// The path of the socket.
    pub socket: &'a str,
    /// How many workers there are.
    pub workers: u64,
    /// How many clients are served at a time, where it is said; else 64.
    pub clients: Option<u64>,
    /// The number of the domain.
    pub domain: u64,
    /// The first frame that may be given.
    pub start: u64,
    /// The last frame that may be given; it may be below the first one.
    pub last: u64,
    /// Where flushes go.
    pub sink: SinkPath<'a>,
    /// How many seconds a peer is waited for at the start, where it is said.
    pub peer_wait: Option<u64>,
    /// How many sessions are served; none: sessions without end.
    pub sessions: Option<u64>,
    /// The most requests of a session, where it is said; 0 is no bound.
    pub session_requests: Option<u64>,
    /// How many seconds a session may be idle; none: for as long as it likes.
    pub idle: Option<u64>,
    /// How many magazines the depot of the second profile takes; none: the domain has the first
    /// profile.
    pub depot: Option<u64>,
    /// Whether a range that is freed is flushed at once.
    pub strict: bool,
    /// The path of the file that the record of the domain's steps is written to, where one is
    /// wanted.
    pub record: Option<&'a str>,
    /// How many steps are recorded, where it is said.
    pub record_steps: Option<u64>,
    /// The windows that are named, as far as they are within the bounds: frames that are given to
    /// nobody.
    pub windows: Windows,
    /// The path of the file with a group's reserved regions, or `-` for standard input, which are
    /// windows too.
    pub regions: Option<&'a str>,
    /// How many seconds a sink that answers has for that, where it is said.
    pub sink_timeout: Option<u64>,
    /// Which notices are printed: those of this level and of those above it.
    pub log_level: LevelFilter,
    /// The path of the control socket, where one is wanted.
    pub control: Option<&'a str>,
    /// How many bytes a frame has, where it is said; else 4096. `info` and the metrics have it; it
    /// changes nothing else.
    pub granule: Option<u64>,
    pub ghost workers_in_range: { (1 ≤ workers) × (workers ≤ MAX_WORKERS) },
    pub ghost clients_in_range: { ForSome clients (λ n. (1 ≤ n) × (n ≤ MAX_CLIENTS)) },
    pub ghost domain_in_range: { domain < MAX_DOMAINS },
    pub ghost start_in_range: { (1 ≤ start) × (start ≤ WIDE_TOP) },
    pub ghost last_in_range: { (1 ≤ last) × (last ≤ WIDE_TOP) },
    pub ghost sessions_in_range: { ForSome sessions (λ n. (1 ≤ n) × (n ≤ MAX_SESSIONS)) },
    pub ghost requests_in_range: { ForSome session_requests
        (λ n. n ≤ MAX_SESSION_REQUESTS) },
    pub ghost idle_in_range: { ForSome idle (λ n. (1 ≤ n) × (n ≤ MAX_IDLE)) },
    pub ghost depot_in_range: { ForSome depot (λ n. n ≤ MAX_DEPOT) },
    pub ghost steps_in_range: { ForSome record_steps (λ n. (1 ≤ n) × (n ≤ MAX_RECORDED_STEPS)) },
    pub ghost wait_in_range: { ForSome peer_wait (λ n. n ≤ MAX_PEER_WAIT) },
    pub ghost timeout_in_range: { ForSome sink_timeout (λ n. n ≤ MAX_SINK_TIMEOUT) },
    pub ghost granule_in_range: { ForSome granule IsGranule },
}

/// Drops its parts. The proof stands here, once for all crates above.
impl<'a> Drop for Plan<'a> {
    fn drop(self) {
        let Plan {
            socket: _,
            workers: _,
            clients: _,
            domain: _,
            start: _,
            last: _,
            sink: _,
            peer_wait: _,
            sessions: _,
            session_requests: _,
            idle: _,
            depot: _,
            strict: _,
            record: _,
            record_steps: _,
            windows: _,
            regions: _,
            sink_timeout: _,
            log_level: _,
            control: _,
            granule: _,
        } = self;
    }
}

impl<'a> Plan<'a> {
    ghost use Rattle.iova_command.specs.Asks.{Plans};

    /// What the matches of `serve` say; workers, domain and bounds that are left out are those of
    /// their rows. None where the socket is missing, a peer and a file for records are named, or
    /// neither is, a number is outside its range, a level is none of the four, a window is of
    /// another form or makes too many, or where a count of steps is said and no record is wanted,
    /// or a wait and no peer.
    pub(crate) fn of(found: &ArgMatches<'a>) -> Option<Plan<'a>>
        ensures { IfSome result (λ p. Plans (rows_of (found_of found.now)) p) }
    {
        let socket = found.get_str("socket")?;
        let workers = number_or(found, &options::WORKERS)?;
        let clients = optional(found, &options::CLIENTS)?;
        let domain = number_or(found, &options::DOMAIN)?;
        let start = number_or(found, &options::START)?;
        let last = number_or(found, &options::LAST)?;
        let sink = SinkPath::of(found)?;
        let peer_wait = optional(found, &options::PEER_WAIT)?;
        let sessions = optional(found, &options::SESSIONS)?;
        let session_requests = optional(found, &options::SESSION_REQUESTS)?;
        let idle = optional(found, &options::IDLE)?;
        let depot = optional(found, &options::DEPOT)?;
        let strict = found.get_flag("strict");
        let record = found.get_str("record");
        let record_steps = optional(found, &options::RECORD_STEPS)?;
        let windows = windows(found, "reserve", start, last)?;
        let regions = found.get_str("reserved-regions");
        let sink_timeout = optional(found, &options::SINK_TIMEOUT)?;
        let log_level = level(found, "log-level")?;
        let control = found.get_str("control");
        let granule = granule(found)?;
        let plan = Plan {
            socket,
            workers,
            clients,
            domain,
            start,
            last,
            sink,
            peer_wait,
            sessions,
            session_requests,
            idle,
            depot,
            strict,
            record,
            record_steps,
            windows,
            regions,
            sink_timeout,
            log_level,
            control,
            granule,
        };
        if plan.record_steps.is_some() && plan.record.is_none() {
            return None;
        }
        if plan.peer_wait.is_some() && matches!(plan.sink, SinkPath::File(_)) {
            return None;
        }
        Some(plan)
    }
}

/// The bytes of a frame. None where they are no power of two in their range.
fn granule(found: &ArgMatches<'_>) -> Option<Option<u64>>
    ensures range { IfSome result (λ o. ForSome o IsGranule) }
    ensures read { IfSome result (λ o. HasOptional (rows_of (found_of found.now)) (codes "granule")
        o) }
{
    let granule = optional(found, &options::GRANULE)?;
    if let Some(bytes) = granule
        && !is_granule(bytes)
    {
        return None;
    }
    Some(granule)
}

/// Whether a frame may have so many bytes: a power of two from 4 KiB to 2 MiB.
pub(crate) fn is_granule(bytes: u64) -> bool
    ensures { result ≡ is_granule bytes }
{
    matches!(bytes, 4_096 | 8_192 | 16_384 | 32_768 | 65_536)
        || matches!(bytes, 131_072 | 262_144 | 524_288 | 1_048_576 | 2_097_152)
}

/// The level of an option that may be missing: warnings and errors then. None where it is none of
/// the four.
fn level(found: &ArgMatches<'_>, name: &str) -> Option<LevelFilter>
    ensures { IfSome result (λ l. HasLevel (rows_of (found_of found.now)) name.now l) }
{
    match found.get_str(name) {
        None => Some(LevelFilter::Warn),
        Some(text) => level_of(text),
    }
}

/// The level of this name. None exactly where it is none of the four.
pub(crate) fn level_of(name: &str) -> Option<LevelFilter>
    ensures { IsChoiceOf name.now result }
{
    match name {
        "error" => Some(LevelFilter::Error),
        "warn" => Some(LevelFilter::Warn),
        "info" => Some(LevelFilter::Info),
        "debug" => Some(LevelFilter::Debug),
        _ => None,
    }
}

/// The windows of an option that may be there any number of times, each cut at the frames `start`
/// and `last`. None where a value is none of two frames, or makes too many windows.
fn windows(found: &ArgMatches<'_>, name: &str, start: u64, last: u64) -> Option<Windows>
    requires { (1 ≤ start) × (last ≤ WIDE_TOP) }
    ensures { IfSome result (λ ws. HasSpans (rows_of (found_of found.now)) name.now start last ws) }
{
    let mut windows = Windows::new();
    match found.get_raw(name) {
        None => Some(windows),
        Some(spans) => {
            insert_spans(spans, start, last, &mut windows)?;
            Some(windows)
        }
    }
}

/// Inserts the windows that these texts name. None where a text is none of two frames, or makes too
/// many windows.
fn insert_spans(texts: &[&str], start: u64, last: u64, windows: &mut Windows) -> Option<()>
    requires { (1 ≤ start) × (last ≤ WIDE_TOP) }
    ensures { IfSome result (λ u. InsertsSpans start last (map (λ t. t.now) texts.now) windows.old
        windows.new) }
{
    let mut rest = texts;
    while !rest.is_empty() {
        match insert_span(rest[0], start, last, windows) {
            Some(()) => rest = &rest[1..],
            None => return None,
        }
    }
    Some(())
}

/// Inserts the window that this text names. None where it is none of two frames, or makes too many
/// windows.
fn insert_span(text: &str, start: u64, last: u64, windows: &mut Windows) -> Option<()>
    requires { (1 ≤ start) × (last ≤ WIDE_TOP) }
    ensures { IfSome result (λ u. InsertsSpan start last text.now windows.old windows.new) }
{
    let (lo, hi) = read_span(text.as_bytes())?;
    let lo = lo.max(start);
    let hi = hi.min(last);
    if lo > hi {
        return Some(());
    }
    windows.insert(Range::new(lo, hi - lo + 1)).ok()
}

/// The number of an option, where it is in its range.
fn number(found: &ArgMatches<'_>, option: &OptionRow) -> Option<u64>
    ensures range { IfSome result (IsInRange option.now.takes) }
    ensures read { IfSome result (λ n. HasNumber (rows_of (found_of found.now)) option.now.name.now
        n) }
{
    if has_plus(found, option.name) {
        return None;
    }
    let n = found.get_one::<u64>(option.name)?;
    if !is_in_range(option.takes, n) {
        return None;
    }
    Some(n)
}

/// Whether an option that takes this may have this number.
fn is_in_range(takes: Takes, n: u64) -> bool
    ensures { (result ≡ true) ↔ IsInRange takes n }
{
    match takes {
        Takes::Number { low, high, .. }
        | Takes::PowerOfTwo { low, high }
        | Takes::NumberPlace { low, high } => low <= n && n <= high,
        Takes::Nothing
        | Takes::Path
        | Takes::WantedPath
        | Takes::Level
        | Takes::Label
        | Takes::Spans
        | Takes::Place => false,
    }
}

/// The number that is used without an option that takes this, where there is one.
fn default_of(takes: Takes) -> Option<u64>
    ensures { result ≡ default_of takes }
{
    match takes {
        Takes::Number { default, .. } => default,
        Takes::PowerOfTwo { .. }
        | Takes::NumberPlace { .. }
        | Takes::Nothing
        | Takes::Path
        | Takes::WantedPath
        | Takes::Level
        | Takes::Label
        | Takes::Spans
        | Takes::Place => None,
    }
}

/// Whether the text of this option begins with `+`, which std's reading of a number takes.
pub(crate) fn has_plus(found: &ArgMatches<'_>, name: &str) -> bool
    ensures { result ≡ false → IsPlain (rows_of (found_of found.now)) name.now }
{
    match found.get_str(name) {
        Some(text) => begins_with_plus(text.as_bytes()),
        None => false,
    }
}

fn begins_with_plus(text: &[u8]) -> bool
    ensures { result ≡ begins_with_plus text.now }
{
    match text.split_first() {
        Some((first, _)) => *first == b'+',
        None => false,
    }
}

/// The number of an option that may be left out, which is that of its row then, where it is in its
/// range.
fn number_or(found: &ArgMatches<'_>, option: &OptionRow) -> Option<u64>
    requires { IfSome (default_of option.now.takes) (IsInRange option.now.takes) }
    ensures range { IfSome result (IsInRange option.now.takes) }
    ensures read { IfSome result (λ n. IfSome (default_of option.now.takes) (λ default.
        HasNumberOr (rows_of (found_of found.now)) option.now.name.now default n)) }
{
    match found.get_str(option.name) {
        None => default_of(option.takes),
        Some(_) => number(found, option),
    }
}

/// The number of an option that may be missing, where it is in its range.
pub(crate) fn optional(found: &ArgMatches<'_>, option: &OptionRow) -> Option<Option<u64>>
    ensures range { IfSome result (λ o. ForSome o (IsInRange option.now.takes)) }
    ensures read { IfSome result (λ o. HasOptional (rows_of (found_of found.now))
        option.now.name.now o) }
{
    if has_plus(found, option.name) {
        return None;
    }
    match found.get_one::<u64>(option.name) {
        Some(n) if !is_in_range(option.takes, n) => None,
        number => Some(number),
    }
}
