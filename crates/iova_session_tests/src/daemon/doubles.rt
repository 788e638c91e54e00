//! Links that wait for one another, accepts that fail, pauses without time, sinks that wait, and
//! notices that are counted.
ghost use Rattle.std.specs.Prelude.{Some, None};

use iova_links::accept::Accept;
use iova_links::pause::Pause;
use iova_range::range::Range;
use iova_session::link::{Link, LinkFault};
use iova_session::memory_link::MemoryLink;
use iova_sink::calls::Calls;
use iova_sink::gate::{Flag, GateSink};
use iova_sink::memory::MemorySink;
use iova_sink::sink::{Sink, SinkFault};
use log::kv::Source;
use log::span::Spans;
use log::{Level, Log, Metadata, Record};
use std::alloc::Global;
use std::fmt::Display;
use std::sync::atomic::{AtomicU64, Ordering};
use std::thread;

/// A session that is to come: what its peer sends, once a flag is raised if it waits for one, at
/// which call its link fails (0: at none), what it is to be answered, and the flag that is raised
/// once it has been. Flags are named by their place in a list.
#[derive(Clone, Copy)]
pub struct Row<'a> {
    pub input: &'a [u8],
    pub before: Option<usize>,
    pub fail_at: u64,
    pub answers: &'a [u8],
    pub answered: usize,
}

/// A link of such a session.
#[derive(Drop)]
pub struct RowLink<'a> {
    row: &'a Row<'a>,
    flags: &'a [Flag],
    wire: MemoryLink<'a>,
}

impl<'a> Link for RowLink<'a> {
    ghost left = { λ l. Some l.wire.left };

    ghost sent = { λ l. Some l.wire.sent };

    ghost calls = { λ l. l.wire.calls };

    ghost reads = { λ l. l.wire.reads };

    ghost failures = { λ l. l.wire.failures };

    ghost ends = { λ l. l.wire.ends };

    fn read(&mut self, buf: &mut [u8]) -> Result<usize, LinkFault> {
        if let Some(before) = self.row.before
            && let Some(flag) = self.flags.get(before)
        {
            flag.wait();
        }
        self.wire.read(buf)
    }

    fn write(&mut self, bytes: &[u8]) -> Result<usize, LinkFault> {
        let written = self.wire.write(bytes);
        if self.wire.sent() == self.row.answers
            && let Some(flag) = self.flags.get(self.row.answered)
        {
            flag.raise();
        }
        written
    }
}

/// Fails at its first calls, and then accepts the sessions of a list in turn; after its end each
/// accept fails. How often it was called is counted.
#[derive(Drop)]
pub struct Rows<'a> {
    pub alloc: Global,
    pub failing: u64,
    pub rows: &'a [Row<'a>],
    pub flags: &'a [Flag],
    pub calls: AtomicU64,
}

impl<'a> Accept<RowLink<'a>> for Rows<'a> {
    fn accept(&self, _limit: Option<u64>) -> Result<Option<RowLink<'a>>, LinkFault> {
        let call = self.calls.fetch_add(1, Ordering::SeqCst);
        let Some(at) = call.checked_sub(self.failing) else {
            return Err(LinkFault);
        };
        let Some(row) = self.rows.get(at as usize) else {
            return Err(LinkFault);
        };
        Ok(Some(RowLink {
            row,
            flags: self.flags,
            wire: MemoryLink::new(self.alloc, row.input, 4096, row.fail_at),
        }))
    }
}

/// So many rounds, or rounds as fast as they come. It waits for a flag before each of them, and
/// raises another one once it stops, where it has such. Where it has two more flags there is one
/// look between rounds: it raises the first of them, and waits for the second.
#[derive(Drop)]
pub struct Rounds<'a> {
    pub before: Option<&'a Flag>,
    pub left: Option<u64>,
    pub after: Option<&'a Flag>,
    pub look: Option<(&'a Flag, &'a Flag)>,
}

impl<'a> Pause for Rounds<'a> {
    fn pause(&mut self) -> bool {
        if let Some(before) = self.before {
            before.wait();
        }
        let Some(left) = self.left else {
            thread::yield_now();
            return true;
        };
        self.left = Some(left.saturating_sub(1));
        if left == 0
            && let Some(after) = self.after
        {
            after.raise();
        }
        left > 0
    }

    fn pause_shortly(&mut self) -> bool {
        let Some((begun, before)) = self.look.take() else {
            return false;
        };
        begun.raise();
        before.wait();
        true
    }
}

/// A sink behind a gate: a call raises the first flag and waits for the second; it fails where that
/// isn't raised, and at one call of its own.
#[derive(Drop)]
pub struct GatedSink<'a> {
    pub gate: GateSink<'a>,
    pub sink: MemorySink,
    pub calls: Calls,
}

impl<'a> Sink for GatedSink<'a> {
    ghost calls = { λ s. s.calls };

    fn invalidate(&mut self, domain: u64, no: u64) -> Result<(), SinkFault> {
        let is_open = self.gate.invalidate(domain, no).is_ok();
        let ok = self.sink.invalidate(domain, no).is_ok() && is_open;
        self.calls.add(domain, no, ok);
        if ok { Ok(()) } else { Err(SinkFault::Broken) }
    }

    /// Is good at once.
    fn gone(&mut self, domain: u64, client: u64, ranges: &Vec<Range>) -> Result<(), SinkFault> {
        self.calls.add_gone(domain, client, ranges, Ok(()));
        Ok(())
    }
}

/// Counts warnings and errors, and prints none.
#[derive(Drop)]
pub struct CountedWarnings {
    pub records: AtomicU64,
}

impl Log for CountedWarnings {
    fn enabled(&self, _metadata: &Metadata<'_>) -> bool {
        true
    }

    fn log<D: Display, K: Source, S: Spans>(&self, record: &Record<'_, D, K, S>) {
        let counts = matches!(record.level(), Level::Error | Level::Warn);
        // whether the last place is ever taken is a matter of time
        if counts && record.target() != "accept" {
            self.records.fetch_add(1, Ordering::SeqCst);
        }
    }

    fn flush(&self) {}

    fn target(&self) -> &str {
        ""
    }
}
