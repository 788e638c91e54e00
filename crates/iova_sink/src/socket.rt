//! A channel over a Unix socket.
ghost use Rattle.std.specs.Prelude.{◌≡◌, ◌≢◌, ◌≤◌, ◌<◌, [], IfOk, IfSome, length, false};
ghost use Rattle.iova_sink.specs.Channels.{with_failure};
ghost use Rattle.iova_sink.specs.Sockets.{Writes, FindsBehind};

use crate::again::{is_interrupted, write_again};
use crate::ahead::Connection;
use crate::backoff::Backoff;
use crate::channel::{Channel, ChannelFault, Incoming};
use crate::device::bytes_taken;
use crate::socket_calls::{SocketCalls, TracedCalls};
use crate::soon::{SpinBudget, write_to};
use crate::stop_deadline::StopDeadline;
use std::io;
use std::io::ErrorKind;
use std::marker::Model;
use std::net::Net;
use std::os::unix::net::UnixStream;
use std::rt::Clock;
use std::time::Duration;

/// A Unix socket at a path, with one time limit for each read and each write; one that a signal
/// interrupts is made again, for what is left of its time. An answer is one read: what comes with
/// it is read too, and is handed on with the next call that receives. A read looks a while for what
/// comes before it waits, as long as that pays: to sleep and to be woken costs as much as a peer
/// that is at hand takes to answer. A connect waits no longer than that of `net` does. Behind two
/// connections in a row that had no answer none is made for a while, up to a second, so that the
/// queue of a peer that stands still fills slowly. Contracts see what its writes handed to the
/// system and what its reads gave, its failures and the looks that found bytes, one behind the
/// other, and whether there is a connection. That these bytes are the peer's no contract can say.
pub struct SocketChannel<'a, N: Net> {
    net: &'a N,
    path: &'a str,
    limit: Duration,
    stop_deadline: Option<&'a StopDeadline>,
    connection: Option<Connection>,
    was_full: bool,
    backoff: Backoff,
    spins: SpinBudget,
    calls: TracedCalls,
}

/// Drops its parts. The proof stands here, once for all crates above.
impl<'a, N: Net> Drop for SocketChannel<'a, N> {
    fn drop(self) {
        let SocketChannel {
            net: _,
            path: _,
            limit: _,
            stop_deadline: _,
            connection: _,
            was_full: _,
            backoff: _,
            spins: _,
            calls: _,
        } = self;
    }
}

impl<'a, N: Net> Model for SocketChannel<'a, N> {
    ghost use Rattle.std.specs.Prelude.{is_some};
    ghost use Rattle.iova_sink.specs.Channels.{Talk};
    ghost use Rattle.iova_sink.specs.Passing.{ahead_of};

    ghost Value = { Talk };

    ghost view = { λ c. record {
      passed = c.calls;
      ahead = ahead_of c.connection;
      connected = is_some c.connection;
    } };
}

impl<'a, N: Net + Clock> SocketChannel<'a, N> {
    /// A channel to the socket at this path, without a connection. A read or a write that takes
    /// longer than this many seconds, at least one, fails; with a limit of 0 each connect fails.
    pub fn new(net: &'a N, path: &'a str, seconds: u64) -> SocketChannel<'a, N>
        ensures { result ≡ record { passed = []; ahead = []; connected = false } }
    {
        SocketChannel {
            net,
            path,
            limit: Duration::from_secs(seconds),
            stop_deadline: None,
            connection: None,
            was_full: false,
            backoff: Backoff::new(),
            spins: SpinBudget::new(),
            calls: TracedCalls::new(),
        }
    }

    /// From now on its end is hurried there.
    pub fn stop_by(&mut self, stop_deadline: &'a StopDeadline)
        ensures { self.new ≡ self.old }
    {
        self.stop_deadline = Some(stop_deadline);
    }

    /// Whether the last connect failed since the peer's queue was full, or no connection is made
    /// for a while.
    pub fn was_full(&self) -> bool {
        self.was_full
    }

    /// Whether no call is made any more.
    fn is_given_up(&self) -> bool {
        match self.stop_deadline {
            Some(stop_deadline) => stop_deadline.is_over(),
            None => false,
        }
    }

    /// A call failed so.
    fn fault_of(&mut self, error: &io::Error) -> ChannelFault
        ensures { self.new ≡ with_failure self.old }
    {
        if let Some(stop_deadline) = self.stop_deadline
            && is_late(error)
        {
            stop_deadline.note_silence();
        }
        self.fault()
    }

    /// One failure more.
    fn fault(&mut self) -> ChannelFault
        ensures { self.new ≡ with_failure self.old }
    {
        self.calls.note_failed();
        ChannelFault
    }
}

impl<'a, N: Net + Clock> Channel for SocketChannel<'a, N> {
    ghost talk = { λ c. c };

    fn is_open(&self) -> bool {
        self.connection.is_some()
    }

    fn send(&mut self, bytes: &[u8]) -> Result<usize, ChannelFault> {
        if self.is_given_up() {
            return Err(self.fault());
        }
        let Some(connection) = &self.connection else {
            return Err(self.fault());
        };
        let stream = connection.stream();
        let written = written(self.net, &mut self.calls, stream, bytes, self.limit);
        if let Err(error) = &written {
            return Err(self.fault_of(error));
        }
        match bytes_taken(written, bytes.len()) {
            Some(n) => Ok(n),
            None => Err(self.fault()),
        }
    }

    fn receive(&mut self, buffer: &mut [u8]) -> Result<usize, ChannelFault> {
        if self.is_given_up() {
            return Err(self.fault());
        }
        let Some(connection) = &mut self.connection else {
            return Err(self.fault());
        };
        let (calls, spins) = (&mut self.calls, &mut self.spins);
        match connection.receive(self.net, calls, spins, self.limit, buffer) {
            Ok(n) => {
                if n > 0 {
                    self.backoff.reset();
                }
                Ok(n)
            }
            Err(error) => Err(self.fault_of(&error)),
        }
    }

    /// Bytes that were read ahead stand there too.
    fn look(&mut self) -> Result<Incoming, ChannelFault> {
        let Some(connection) = &self.connection else {
            return Err(self.fault());
        };
        match incoming_of(&mut self.calls, connection) {
            Ok(Incoming::Bytes) => {
                self.calls.note_stray();
                Ok(Incoming::Bytes)
            }
            Ok(incoming) => Ok(incoming),
            Err(_) => Err(self.fault()),
        }
    }

    fn connect(&mut self) -> Result<(), ChannelFault> {
        self.connection = None;
        self.was_full = true;
        if self.is_given_up() || self.backoff.holds(self.net) {
            return Err(self.fault());
        }
        match self.calls.connect(self.net, self.path, self.limit) {
            Ok(stream) => {
                self.connection = Some(Connection::new(stream));
                self.was_full = false;
                Ok(())
            }
            Err(error) => {
                self.was_full = error.kind() == ErrorKind::WouldBlock;
                Err(self.fault_of(&error))
            }
        }
    }

    /// It is closed where it failed, so the next one may have to wait.
    fn close(&mut self) {
        if self.connection.is_some() {
            self.backoff.note_failed(self.net);
        }
        self.connection = None;
    }
}

/// Whether a call had no answer in time.
fn is_late(error: &io::Error) -> bool {
    error.kind() == ErrorKind::WouldBlock || error.kind() == ErrorKind::TimedOut
}

/// Writes a front of the bytes. It takes no longer than this, whatever interrupts it.
fn written<T: Clock, C: SocketCalls>(
    clock: &T,
    calls: &mut C,
    stream: &UnixStream,
    bytes: &[u8],
    limit: Duration,
) -> io::Result<usize>
    ensures bound { IfOk result (λ n. n ≤ length bytes.now) }
    ensures writes { Writes (C.state calls.old) (C.state calls.new) bytes.now result }
{
    let begun = clock.monotonic()?;
    let written = write_to(calls, stream, bytes);
    if is_interrupted(&written) {
        return write_again(clock, calls, stream, bytes, begun, limit);
    }
    written
}

/// What stands in the connection, or was read of it ahead.
fn incoming_of<C: SocketCalls>(calls: &mut C, connection: &Connection) -> Result<Incoming, i32>
    ensures { FindsBehind connection.now (C.state calls.old) (C.state calls.new) result }
{
    if connection.is_ahead() {
        return Ok(Incoming::Bytes);
    }
    calls.look(connection.stream())
}
