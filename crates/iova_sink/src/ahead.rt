//! A connection, and the bytes of it that were read before anybody asked for them.
ghost use Rattle.std.specs.Prelude.{◌≡◌, ◌≢◌, ℕ, ◌+◌, ◌<◌, ◌≤◌, ◌++◌, [], true, false, IfOk, IfErr, List, length, take, min};
ghost use Rattle.std.specs.Io.KnownBytes.{IsAtEnd};
ghost use Rattle.iova_sink.specs.Sockets.{HandsOver, Reads};

use crate::again::{is_interrupted, read_again};
use crate::socket_calls::SocketCalls;
use crate::soon::SpinBudget;
use std::io;
use std::marker::Model;
use std::os::unix::net::UnixStream;
use std::rt::Clock;
use std::time::Duration;

/// How many bytes are read ahead at a time: more than an answer has.
const AHEAD: usize = 64;

/// Bytes that were read from a connection and not handed on yet, in their order.
#[derive(Drop)]
struct Ahead {
    bytes: [u8; AHEAD],
    from: usize,
    left: usize,
}

impl Model for Ahead {
    ghost use Rattle.std.specs.Prelude.{◌+◌, ◌≤◌, ℕ, List, take, drop};

    ghost Value = { List ℕ };

    ghost view = { λ a. take a.left (drop a.from a.bytes) };

    ghost invariant = { λ a. a.from + a.left ≤ 64 };
}

impl Ahead {
    /// None.
    fn new() -> Ahead
        ensures { result ≡ [] }
    {
        Ahead {
            bytes: [0; AHEAD],
            from: 0,
            left: 0,
        }
    }

    /// How many there are.
    fn len(&self) -> usize
        ensures { result ≡ length self.now }
    {
        self.left
    }

    /// Reads the next bytes, where there are none: none come at the end of the stream. It takes no
    /// longer than this, whatever interrupts it.
    #[tactic(auto, using(crate::proofs::HandedOn::read_first))]
    fn fill<T: Clock, C: SocketCalls>(
        &mut self,
        clock: &T,
        calls: &mut C,
        stream: &UnixStream,
        spins: &mut SpinBudget,
        limit: Duration,
    ) -> io::Result<()>
        ensures read { IfOk result (λ u. (more : List ℕ)
            × HandsOver (C.state calls.old) (C.state calls.new) more
            × (self.new ≡ self.old ++ more)) }
        ensures end { IfOk result (λ u. self.new ≡ [] → IsAtEnd (C.state calls.new).left) }
        ensures kept { self.old ≢ []
            → (self.new ≡ self.old) × (C.state calls.new ≡ C.state calls.old) }
        ensures failed { IfErr result (λ e. (self.new ≡ self.old)
            × (C.state calls.new ≡ C.state calls.old)) }
    {
        if self.len() > 0 {
            return Ok(());
        }
        let n = read_next(clock, calls, stream, spins, limit, &mut self.bytes)?;
        self.from = 0;
        self.left = n;
        Ok(())
    }

    /// Hands the next bytes on into the buffer, and gives how many.
    fn take(&mut self, buffer: &mut [u8]) -> usize
        ensures order { self.old ≡ take result buffer.new ++ self.new }
        ensures count { result ≡ min (length self.old) (length buffer.new) }
    {
        let n = self.left.min(buffer.len());
        let incoming = &self.bytes[self.from..];
        buffer[..n].copy_from_slice(&incoming[..n]);
        self.from += n;
        self.left -= n;
        n
    }
}

/// Reads what comes next. It takes no longer than this, whatever interrupts it.
fn read_next<T: Clock, C: SocketCalls>(
    clock: &T,
    calls: &mut C,
    stream: &UnixStream,
    spins: &mut SpinBudget,
    limit: Duration,
    buffer: &mut [u8],
) -> io::Result<usize>
    ensures bound { IfOk result (λ n. n ≤ length buffer.new) }
    ensures reads { Reads (C.state calls.old) (C.state calls.new) buffer.new result }
{
    let begun = clock.monotonic()?;
    let read = spins.read(calls, stream, buffer);
    if is_interrupted(&read) {
        return read_again(clock, calls, stream, buffer, begun, limit);
    }
    read
}

/// A connection, with what was read of it ahead: so nothing of one before can be left.
#[derive(Drop)]
pub(crate) struct Connection {
    stream: UnixStream,
    ahead: Ahead,
}

impl Model for Connection {
    ghost use Rattle.std.specs.Prelude.{ℕ, List};

    ghost Value = { List ℕ };

    ghost view = { λ c. c.ahead };
}

impl Connection {
    /// This stream, of which nothing was read yet.
    pub(crate) fn new(stream: UnixStream) -> Connection
        ensures { result ≡ [] }
    {
        Connection {
            stream,
            ahead: Ahead::new(),
        }
    }

    /// The stream.
    pub(crate) fn stream(&self) -> &UnixStream {
        &self.stream
    }

    /// Whether bytes of it were read ahead.
    pub(crate) fn is_ahead(&self) -> bool
        ensures some { result ≡ true → self.now ≢ [] }
        ensures none { result ≡ false → self.now ≡ [] }
    {
        self.ahead.len() > 0
    }

    /// Hands on into the buffer what was read ahead, or else what is read next, in the order in
    /// which it was read, and gives how many bytes: none at the end of the stream. What is read
    /// beyond the buffer is kept for the next call. It takes no longer than this, whatever
    /// interrupts it.
    pub(crate) fn receive<T: Clock, C: SocketCalls>(
        &mut self,
        clock: &T,
        calls: &mut C,
        spins: &mut SpinBudget,
        limit: Duration,
        buffer: &mut [u8],
    ) -> io::Result<usize>
        ensures order { IfOk result (λ n. (more : List ℕ)
            × HandsOver (C.state calls.old) (C.state calls.new) more
            × (self.old ++ more ≡ take n buffer.new ++ self.new)) }
        ensures end { IfOk result (λ n. n ≡ 0 → 0 < length buffer.new
            → (self.old ≡ []) × IsAtEnd (C.state calls.new).left) }
        ensures ahead { IfOk result (λ n. self.old ≢ [] → C.state calls.new ≡ C.state calls.old) }
        ensures bound { IfOk result (λ n. n ≤ length buffer.new) }
        ensures failed { IfErr result (λ e. (self.new ≡ self.old)
            × (C.state calls.new ≡ C.state calls.old)) }
    {
        self.ahead.fill(clock, calls, &self.stream, spins, limit)?;
        Ok(self.ahead.take(buffer))
    }
}
