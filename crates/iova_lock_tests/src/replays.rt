//! Replays to writers whose flushes fail, from a reader that waits for each reply. Reads and writes
//! that move few bytes or fail, and refused growths, are seen on the program (tests/run_replays).
use iova_trace::fault::ReplayFault;
use iova_trace::replay::replay;
use std::alloc::Global;
use std::cell::Cell;
use std::io;
use std::io::{ErrorKind, Read, Write};
use std::test::*;

/// A trace whose every line but the first has a reply.
const LINES: [&str; 6] = [
    "iovatrace 1 1 1023 2\n",
    "open 0 dac\n",
    "alloc 0 1 1 1023\n",
    "alloc 1 1 1 1023\n",
    "alloc 0 1 33 1023\n",
    "open 9 sac\n",
];

/// A reader that gives one line a call, and fails unless the reply to the line before has been
/// flushed.
#[derive(Drop)]
struct Peer<'a> {
    next: usize,
    flushed: &'a Cell<usize>,
}

impl Read for Peer<'_> {
    fn read(&mut self, buf: &mut [u8]) -> io::Result<usize> {
        if self.flushed.get() != self.next.saturating_sub(1) {
            return Err(io::Error::from(ErrorKind::Other));
        }
        let Some(line) = LINES.get(self.next) else {
            return Ok(0);
        };
        self.next += 1;
        let mut rest = line.as_bytes();
        rest.read(buf)
    }
}

/// A writer that counts the replies that were written, and those that have been flushed. Its flush
/// of number `fail_at` fails.
#[derive(Drop)]
struct Replies<'a> {
    written: usize,
    flushes: usize,
    fail_at: usize,
    flushed: &'a Cell<usize>,
}

impl Write for Replies<'_> {
    fn write(&mut self, buf: &[u8]) -> io::Result<usize> {
        for byte in buf {
            if *byte == b'\n' {
                self.written = self.written.saturating_add(1);
            }
        }
        Ok(buf.len())
    }

    fn flush(&mut self) -> io::Result<()> {
        self.flushes = self.flushes.saturating_add(1);
        if self.flushes == self.fail_at {
            return Err(io::Error::from(ErrorKind::Interrupted));
        }
        self.flushed.set(self.written);
        Ok(())
    }
}

/// The number of steps, or the fault, and how many replies were written in how many flushes.
fn replayed(alloc: Global, fail_at: usize) -> (Result<u64, ReplayFault>, usize, usize) {
    let flushed = Cell::new(0);
    let mut reader = Peer {
        next: 0,
        flushed: &flushed,
    };
    let mut writer = Replies {
        written: 0,
        flushes: 0,
        fail_at,
        flushed: &flushed,
    };
    let outcome = match replay(alloc, &mut reader, &mut writer) {
        Ok((domain, steps)) => {
            drop(domain);
            Ok(steps)
        }
        Err(fault) => Err(fault),
    };
    (outcome, writer.written, writer.flushes)
}

#[test]
fn a_reply_reaches_the_writer_before_the_next_read(rt: HostRuntime) {
    for fail_at in 0..=5usize {
        let (outcome, written, flushes) = replayed(rt.alloc(), fail_at);
        let count = if fail_at == 0 { 5 } else { fail_at };
        let want = if fail_at == 0 {
            Ok(5)
        } else {
            Err(ReplayFault::WriteFault)
        };
        assert_eq!(rt; outcome, want, "flush {fail_at}");
        assert_eq!(rt; written, count, "nothing is written after a fault");
        assert!(rt;
            fail_at == 0 || flushes == fail_at,
            "nothing follows a fault"
        );
    }
}
