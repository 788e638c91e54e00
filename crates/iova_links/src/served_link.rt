//! A link over a socket, which a daemon's stop ends.
ghost use Rattle.std.specs.Prelude.{◌≡◌, ◌≤◌, ◌<◌, ℕ, IfOk, IfSome, length};
ghost use Rattle.memchr.specs.Find.{places, is_byte};

use crate::signals::Signals;
use iova_session::link::{Link, LinkFault};
use iova_sink::count::Count;
use iova_sink::device::bytes_taken;
use iova_sink::socket_calls::{SocketCalls, SystemCalls};
use iova_sink::soon::{SpinBudget, read_from, write_to};
use libc::EAGAIN;
use libc::net::{POLLIN, poll};
use libc::types::pollfd;
use memchr::memchr_iter;
use std::io;
use std::io::ErrorKind;
use std::marker::Model;
use std::net::Shutdown;
use std::os::fd::AsRawFd;
use std::os::unix::net::UnixStream;
use std::sync::Wait;
use std::time::Duration;

/// The time that a link waits for its client, in turns. After each turn it looks whether the daemon
/// stops.
#[derive(Clone, Copy, Debug)]
pub struct TimeOuts {
    /// The time of a turn; none: one turn without an end.
    pub turn: Option<Duration>,
    /// How many turns a read or a write may take.
    pub turns: u64,
}

/// From so many bytes on what a read found is a run of several requests.
const RUN_BYTES: usize = 64;

/// What an answer that refuses begins with.
const REFUSAL: &[u8] = b"no ";

/// What the answer to `alloc` begins with.
const GIVEN: &[u8] = b"given ";

/// What the answer to `free` begins with, in a domain that queues and in a strict one.
const QUEUED: &[u8] = b"queued ";

const FREED: &[u8] = b"freed ";

/// A connected Unix socket that a daemon serves. A read that finds no byte, and a write that finds
/// no room, are made again turn after turn, until its time-outs allow no more. One that is
/// interrupted is made again too, and takes no turn: an interruption is no failure of this link.
/// A short read makes one turn, and the next read goes on with the count. A read of a daemon that
/// stops finds the end. Where it is the only link, it looks a while for what comes before it
/// sleeps; where links are few, it waits by a poll behind a run of requests. Contracts see the
/// numbers of its calls, its reads, its failures and the reads that found the end; what bytes come
/// and go, no contract can say.
pub struct ServedLink<'a, R> {
    rt: &'a R,
    signals: &'a Signals,
    time_outs: TimeOuts,
    stream: UnixStream,
    spins: SpinBudget,
    /// Whether the last read found a run of several requests.
    in_runs: bool,
    /// The number of turns for which its client may still be silent.
    left: u64,
    calls: Count,
    reads: Count,
    failed: Count,
    ended: Count,
}

/// Drops its parts. The proof stands here, once for all crates above.
impl<'a, R> Drop for ServedLink<'a, R> {
    fn drop(self) {
        let ServedLink {
            rt: _,
            signals,
            time_outs: _,
            stream: _,
            spins: _,
            in_runs: _,
            left: _,
            calls: _,
            reads: _,
            failed: _,
            ended: _,
        } = self;
        signals.end_link();
    }
}

impl<'a, R> Model for ServedLink<'a, R> {
    ghost use Rattle.iova_session.specs.Links.{LinkCounts};

    ghost Value = { LinkCounts };

    ghost view = { λ l. record {
      calls = l.calls;
      reads = l.reads;
      failures = l.failed;
      ends = l.ended;
    } };
}

impl<'a, R> ServedLink<'a, R> {
    /// A link over this socket, of which no call was made. The socket's own time limits are set to
    /// those of a turn.
    pub fn new(
        rt: &'a R,
        signals: &'a Signals,
        time_outs: TimeOuts,
        stream: UnixStream,
    ) -> io::Result<ServedLink<'a, R>>
        ensures { IfOk result
            (λ l. l ≡ record { calls = 0; reads = 0; failures = 0; ends = 0 }) }
    {
        if time_outs.turn.is_some() {
            stream.set_read_timeout(time_outs.turn)?;
            stream.set_write_timeout(time_outs.turn)?;
        }
        signals.begin_link();
        Ok(ServedLink {
            rt,
            signals,
            time_outs,
            stream,
            spins: SpinBudget::new(),
            in_runs: false,
            left: time_outs.turns,
            calls: Count::new(),
            reads: Count::new(),
            failed: Count::new(),
            ended: Count::new(),
        })
    }
}

impl<'a, R: Wait> Link for ServedLink<'a, R> {
    ghost use Rattle.std.specs.Prelude.{None};

    ghost left = { λ l. None };

    ghost sent = { λ l. None };

    ghost calls = { λ l. l.calls };

    ghost reads = { λ l. l.reads };

    ghost failures = { λ l. l.failures };

    ghost ends = { λ l. l.ends };

    fn read(&mut self, buf: &mut [u8]) -> Result<usize, LinkFault> {
        self.calls.up();
        self.reads.up();
        let read = match read_received(
            self.signals,
            self.time_outs,
            &self.stream,
            self.in_runs,
            buf,
        ) {
            ReadNow::Read(n) => {
                note_lines(self.signals, self.time_outs, n, buf);
                self.in_runs = n >= RUN_BYTES;
                self.left = self.time_outs.turns;
                Ok(n)
            }
            ReadNow::Failed(error) if is_failure(error, &mut self.left) => Err(LinkFault),
            ReadNow::Failed(_) | ReadNow::Nothing => received(
                self.rt,
                self.signals,
                self.time_outs,
                &self.stream,
                &mut self.spins,
                &mut self.left,
                buf,
            ),
        };
        let Ok(n) = read else {
            self.failed.up();
            end_stream(&self.stream);
            return Err(LinkFault);
        };
        if n == 0 && !buf.is_empty() {
            self.ended.up();
        }
        Ok(n)
    }

    fn write(&mut self, bytes: &[u8]) -> Result<usize, LinkFault> {
        self.calls.up();
        let written = match SystemCalls.send(&self.stream, bytes) {
            Ok(n) if n > 0 => Some(n),
            sent => sent_behind(
                self.rt,
                self.signals,
                self.time_outs,
                &self.stream,
                sent,
                bytes,
            ),
        };
        match written {
            Some(n) => {
                note_answers(self.signals, self.time_outs, n, bytes);
                Ok(n)
            }
            None => {
                self.failed.up();
                end_stream(&self.stream);
                Err(LinkFault)
            }
        }
    }
}

/// Ends the stream of a link that failed. A client that was only silent finds the end before its
/// ranges are given to others. If the client is gone, the call fails and changes nothing.
#[inline(never)]
fn end_stream(stream: &UnixStream) {
    let _ended = stream.shutdown(Shutdown::Both);
}

/// The result of a read without a turn of its own.
#[derive(Clone, Copy)]
enum ReadNow {
    /// So many bytes, 0 at the end.
    Read(usize),
    /// The call failed; the number of the system's error.
    Failed(i32),
    /// No byte has come, or the daemon stops.
    Nothing,
}

/// Reads the bytes that have come; where there are other links, those that come in one time-out.
/// This is the quick way of a read: it answers nothing but the number of bytes or of the error.
#[inline(always)]
fn read_received(
    signals: &Signals,
    time_outs: TimeOuts,
    stream: &UnixStream,
    in_runs: bool,
    buf: &mut [u8],
) -> ReadNow
    ensures { (n : ℕ) → result ≡ ReadNow.Read n → n ≤ length buf.old }
{
    if signals.is_stopping() {
        return ReadNow::Nothing;
    }
    if signals.is_alone() {
        return match SystemCalls.receive(stream, buf, false) {
            Ok(n) => ReadNow::Read(n),
            Err(error) if error == EAGAIN => ReadNow::Nothing,
            Err(error) => ReadNow::Failed(error),
        };
    }
    if in_runs && signals.are_few() {
        if let Err(error) = wait_for(stream, time_outs.turn) {
            return ReadNow::Failed(error);
        }
    }
    match SystemCalls.receive(stream, buf, true) {
        Ok(n) => ReadNow::Read(n),
        Err(error) => ReadNow::Failed(error),
    }
}

/// Waits until something stands in the connection, for a turn at most. Where nothing came,
/// `EAGAIN`; where the call failed, the number of the system's error.
///
/// A client that reads its answers wakes a thread that waits in a read of this end, though nothing
/// has come: of bytes taken from a socket the system notifies its other end by the queue at which a
/// read waits too. A poll reports only what it asks for. It is one call more, and pays where the
/// client has a run of answers to go through before it asks again.
#[inline(never)]
fn wait_for(stream: &UnixStream, turn: Option<Duration>) -> Result<(), i32> {
    let mut asked = [pollfd {
        fd: stream.as_raw_fd(),
        events: POLLIN,
        revents: 0,
    }];
    let ready = poll(&mut asked, milliseconds_of(turn));
    if ready < 0 {
        Err(os::errno())
    } else if ready == 0 {
        Err(EAGAIN)
    } else {
        Ok(())
    }
}

/// The time of a poll that lasts a turn, in milliseconds; -1 where it has no end.
fn milliseconds_of(turn: Option<Duration>) -> i32 {
    match turn {
        Some(turn) => i32::try_from(turn.as_millis()).unwrap_or(i32::MAX),
        None => -1,
    }
}

/// Whether a read that failed so isn't made again.
#[inline(never)]
fn is_failure(error: i32, left: &mut u64) -> bool {
    !is_to_be_tried_again(&Err(io::Error::from_raw_os_error(error)), left)
}

/// Counts the lines of what was read: without a control socket nobody can ask how many there were.
#[inline(always)]
fn note_lines(signals: &Signals, time_outs: TimeOuts, n: usize, buf: &[u8]) {
    if time_outs.turn.is_some() {
        count_read(signals, n, buf);
    }
}

/// Counts the refusals, the ranges that were given and those that were freed among the answers
/// whose first byte was written: without a control socket nobody can ask how many there were.
#[inline(always)]
fn note_answers(signals: &Signals, time_outs: TimeOuts, n: usize, bytes: &[u8]) {
    if time_outs.turn.is_some() {
        let (mut allocs, mut frees) = (0u64, 0u64);
        note_answer(signals, bytes, &mut allocs, &mut frees);
        for at in memchr_iter(b'\n', bytes) {
            let begin = at.saturating_add(1);
            if begin < n
                && let Some(line) = bytes.get(begin..)
            {
                note_answer(signals, line, &mut allocs, &mut frees);
            }
        }
        signals.count_ranges(allocs, frees);
    }
}

/// Counts the answer that begins here.
#[inline(always)]
fn note_answer(signals: &Signals, line: &[u8], allocs: &mut u64, frees: &mut u64) {
    match line.first() {
        Some(b'g') => *allocs = allocs.saturating_add(u64::from(line.starts_with(GIVEN))),
        Some(b'q') => *frees = frees.saturating_add(u64::from(line.starts_with(QUEUED))),
        Some(b'f') => *frees = frees.saturating_add(u64::from(line.starts_with(FREED))),
        Some(b'n') if line.starts_with(REFUSAL) => {
            signals.count_refusal(number_at(line, REFUSAL.len()));
        }
        _ => {}
    }
}

/// The number that begins at this place, of two digits at most; 0 where there is none.
fn number_at(bytes: &[u8], at: usize) -> usize {
    let mut number = 0usize;
    for digit in bytes.iter().skip(at).take(2) {
        if !digit.is_ascii_digit() {
            return number;
        }
        number = number
            .saturating_mul(10)
            .saturating_add(usize::from(*digit - b'0'));
    }
    number
}

/// Reads what comes within the time-outs: nothing once the daemon stops.
#[inline(never)]
fn received<R: Wait>(
    rt: &R,
    signals: &Signals,
    time_outs: TimeOuts,
    stream: &UnixStream,
    spins: &mut SpinBudget,
    left: &mut u64,
    buf: &mut [u8],
) -> Result<usize, LinkFault>
    ensures { IfOk result (λ n. n ≤ length buf.old) }
{
    for _ in rt.forever() {
        match read_once(signals, time_outs, stream, spins, left, buf) {
            Ok(Some(n)) => return Ok(n),
            Ok(None) => {}
            Err(_) => return Err(LinkFault),
        }
    }
    unreachable!()
}

/// Reads once: 0 bytes once the daemon stops. None where the read has to be made again, in the
/// turns that are left. A read that found bytes gives back all turns.
fn read_once(
    signals: &Signals,
    time_outs: TimeOuts,
    stream: &UnixStream,
    spins: &mut SpinBudget,
    left: &mut u64,
    buf: &mut [u8],
) -> io::Result<Option<usize>>
    ensures { IfOk result (λ found. IfSome found (λ n. n ≤ length buf.old)) }
{
    if signals.is_stopping() {
        return Ok(Some(0));
    }
    let read = if signals.is_alone() {
        spins.read(&mut SystemCalls, stream, buf)
    } else {
        read_from(&mut SystemCalls, stream, buf)
    };
    if is_to_be_tried_again(&read, left) {
        return Ok(None);
    }
    if let Ok(n) = read {
        note_lines(signals, time_outs, n, buf);
    }
    *left = time_outs.turns;
    Ok(Some(read?))
}

/// Writes what finds room within the time-outs, behind a first call with this result. It writes
/// nothing more once the daemon stops and there is no room. None where a call failed, or took none
/// of some bytes.
#[inline(never)]
fn sent_behind<R: Wait>(
    rt: &R,
    signals: &Signals,
    time_outs: TimeOuts,
    stream: &UnixStream,
    sent: Result<usize, i32>,
    bytes: &[u8],
) -> Option<usize>
    requires { IfOk sent (λ n. n ≤ length bytes.now) }
    ensures bound { IfSome result (λ n. n ≤ length bytes.now) }
    ensures some { IfSome result (λ n. 0 < length bytes.now → 0 < n) }
{
    let written = match sent {
        Ok(n) => Ok(n),
        Err(error) => Err(io::Error::from_raw_os_error(error)),
    };
    let mut left = time_outs.turns;
    if signals.is_stopping() || !is_to_be_tried_again(&written, &mut left) {
        return bytes_taken(written, bytes.len());
    }
    for _ in rt.forever() {
        let written = write_to(&mut SystemCalls, stream, bytes);
        if signals.is_stopping() || !is_to_be_tried_again(&written, &mut left) {
            return bytes_taken(written, bytes.len());
        }
    }
    unreachable!()
}

/// Whether a call found nothing in its turn, and another turn is left, or was interrupted.
fn is_to_be_tried_again(called: &io::Result<usize>, left: &mut u64) -> bool {
    match called {
        Err(error) if error.kind() == ErrorKind::WouldBlock => {
            *left = left.saturating_sub(1);
            *left > 0
        }
        // as where the process was stopped by a signal, and goes on
        Err(error) => error.kind() == ErrorKind::Interrupted,
        Ok(_) => false,
    }
}

/// Counts the lines that were read.
fn count_read(signals: &Signals, n: usize, buf: &[u8]) {
    if let Some(piece) = buf.get(..n) {
        signals.count_requests(count_lines(piece));
    }
}

/// How many lines end in these bytes: one at each newline.
pub fn count_lines(piece: &[u8]) -> u64
    ensures { result ≡ length (places (is_byte 10) piece.now) }
{
    memchr_iter(b'\n', piece).count() as u64
}
