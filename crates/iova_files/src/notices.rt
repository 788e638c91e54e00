//! Where a daemon's notices go.
use iova_links::pause::milliseconds;
use iova_links::signals::Signals;
use iova_range::limits::NOTICE_PAUSE;
use log::kv::Source;
use log::sink::Console;
use log::span::Spans;
use log::{Level, Log, Logged, Metadata, Record, log, warn};
use std::fmt::Display;
use std::rt::Clock;
use std::sync::atomic::{AtomicU64, Ordering};
use std::{array, fmt};

/// What takes a daemon's notices: standard error, those of the plan's level and above it.
pub type Notices<'a, R> = Logged<&'a R, CountedConsole<'a, R>>;

/// The kinds of notices that may come in any number: the targets of their records.
const KINDS: [&str; 4] = ["accept", "client", "flush", "session"];

/// The kind of notices of flushes that failed.
const FLUSH: &str = "flush";

/// Standard error, and a count of the lines. Of a kind one line a second is printed at most; the
/// next one says how many were not. Flushes that failed are counted, whether they are printed or
/// not.
pub struct CountedConsole<'a, R> {
    rt: &'a R,
    console: Console<&'a R>,
    signals: &'a Signals,
    /// Whether warnings are printed.
    warns: bool,
    /// The daemon's name, or nothing where it has none.
    name: &'a str,
    rates: [Rate; 4],
}

/// Drops its parts. The proof stands here, once for all crates above.
impl<'a, R> Drop for CountedConsole<'a, R> {
    fn drop(self) {
        let CountedConsole {
            rt: _,
            console: _,
            signals: _,
            warns: _,
            name: _,
            rates: _,
        } = self;
    }
}

/// The daemon's name in front of a line, or nothing where it has none.
#[derive(Clone, Copy)]
struct Front<'a>(&'a str);

impl<'a> Display for Front<'a> {
    fn fmt<W: fmt::Write>(&self, f: &mut fmt::Formatter<W>) -> fmt::Result {
        let name = self.0;
        if name.is_empty() {
            return Ok(());
        }
        write!(f, "{name}: ")
    }
}

/// How often a kind is printed.
#[derive(Drop)]
struct Rate {
    /// When the next line may be printed, in milliseconds.
    due: AtomicU64,
    /// How many lines were left out since the last one.
    left: AtomicU64,
}

impl Rate {
    fn new() -> Rate {
        Rate {
            due: AtomicU64::new(0),
            left: AtomicU64::new(0),
        }
    }

    /// Whether a line is printed now, and how many before it were not. Of two threads one prints
    /// its line.
    fn take(&self, now: u64) -> Option<u64> {
        let due = self.due.load(Ordering::SeqCst);
        let next = now.saturating_add(NOTICE_PAUSE);
        if now < due
            || self
                .due
                .compare_exchange(due, next, Ordering::SeqCst, Ordering::SeqCst)
                .is_err()
        {
            self.left.fetch_add(1, Ordering::SeqCst);
            return None;
        }
        Some(self.left.swap(0, Ordering::SeqCst))
    }
}

impl<'a, R> CountedConsole<'a, R> {
    /// This standard error, with lines counted there. Warnings are printed, or not. A name that
    /// isn't empty stands in front of each line.
    pub fn new(
        rt: &'a R,
        signals: &'a Signals,
        warns: bool,
        name: &'a str,
    ) -> CountedConsole<'a, R> {
        CountedConsole {
            rt,
            console: Console(rt),
            signals,
            warns,
            name,
            rates: array::from_fn(|_kind| Rate::new()),
        }
    }
}

impl<'a, R: Clock> CountedConsole<'a, R> {
    /// The time since some start, in milliseconds.
    fn now(&self) -> u64 {
        milliseconds(self.rt).unwrap_or(u64::MAX)
    }
}

impl<'a, R: Clock + Eprint> Log for CountedConsole<'a, R> {
    fn enabled(&self, _metadata: &Metadata<'_>) -> bool {
        true
    }

    fn log<D: Display, K: Source, S: Spans>(&self, record: &Record<'_, D, K, S>) {
        if record.target() == FLUSH {
            self.signals.count_failed_flush();
        }
        if !self.warns && record.level() != Level::Error {
            return;
        }
        self.signals.count_notice();
        let (name, args) = (self.name, record.args());
        let front = Front(name);
        let Some(at) = KINDS.iter().position(|kind| *kind == record.target()) else {
            log!(self.console; target: "", record.level(), "{front}{args}");
            return;
        };
        let Some(rate) = self.rates.get(at) else {
            return;
        };
        match rate.take(self.now()) {
            Some(0) => warn!(self.console; target: "", "{front}{args}"),
            Some(left) => warn!(self.console; target: "", "{front}{args} .. and {left} more"),
            None => {}
        }
    }

    /// Prints how many lines of each kind were left out so far.
    fn flush(&self) {
        for at in 0..KINDS.len() {
            if let Some(kind) = KINDS.get(at)
                && let Some(rate) = self.rates.get(at)
            {
                let name = self.name;
                let front = Front(name);
                let left = rate.left.swap(0, Ordering::SeqCst);
                if self.warns && left > 0 {
                    warn!(self.console; target: "", "{front}{kind}: .. and {left} more");
                }
            }
        }
    }

    fn target(&self) -> &str {
        ""
    }
}
