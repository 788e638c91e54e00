//! The system's calls on a connected socket, and what passed by them.
ghost use Rattle.std.specs.Prelude.{◌≡◌, ◌≤◌, [], None, Some, IfOk, IfErr, length};
ghost use Rattle.iova_sink.specs.Passing.{with_one};
ghost use Rattle.iova_sink.specs.Sockets.{Reads, Writes, Finds};

use crate::channel::Incoming;
use crate::history::{History, Passed};
use libc::EAGAIN;
use libc::net::{MSG_DONTWAIT, MSG_NOSIGNAL, MSG_PEEK, recv, send};
use std::io;
use std::marker::Model;
use std::net::Net;
use std::os::fd::AsRawFd;
use std::os::unix::net::UnixStream;
use std::time::Duration;

/// The system's calls on connected sockets. A function over any `SocketCalls` hands on only bytes
/// that these calls gave, and reports only bytes as written that these calls took.
pub trait SocketCalls {
    ghost use Rattle.iova_sink.specs.Sockets.{SocketState};

    /// The bytes that the calls will still receive, the bytes that passed by them, and the results
    /// of the looks: each of them if it is known.
    ghost state: { Self → SocketState };

    /// Receives bytes into the front of the buffer, and gives their number: 0 bytes for a buffer
    /// with room are the end. If no byte has come, the call waits as long as the socket's limit
    /// allows, or doesn't wait and fails by `EAGAIN`. `Err` has the number of the system's error.
    fn receive(&mut self, stream: &UnixStream, buffer: &mut [u8], waits: bool) -> Result<usize, i32>
        ensures bound { IfOk result (λ n. n ≤ length buffer.new) }
        ensures reads { Reads (state self.old) (state self.new) buffer.new result };

    /// Sends a front of the bytes, and gives their number. `Err` has the number of the system's
    /// error.
    fn send(&mut self, stream: &UnixStream, bytes: &[u8]) -> Result<usize, i32>
        ensures bound { IfOk result (λ n. n ≤ length bytes.now) }
        ensures writes { Writes (state self.old) (state self.new) bytes.now result };

    /// Looks whether the connection has bytes, or its end. The call doesn't wait, and receives
    /// nothing. `Err` has the number of the system's error.
    fn look(&mut self, stream: &UnixStream) -> Result<Incoming, i32>
        ensures { Finds (state self.old) (state self.new) result };
}

/// The system's calls without a history: contracts don't see what passes by them.
#[derive(Clone, Copy, Debug)]
pub struct SystemCalls;

impl SocketCalls for SystemCalls {
    ghost state = { λ c. record { left = None; passed = None; found = None } };

    #[inline(always)]
    fn receive(
        &mut self,
        stream: &UnixStream,
        buffer: &mut [u8],
        waits: bool,
    ) -> Result<usize, i32> {
        received(stream, buffer, waits)
    }

    #[inline(always)]
    fn send(&mut self, stream: &UnixStream, bytes: &[u8]) -> Result<usize, i32> {
        sent(stream, bytes)
    }

    fn look(&mut self, stream: &UnixStream) -> Result<Incoming, i32> {
        incoming(stream)
    }
}

/// The system's calls, with what passed by them, and what else happened on the channel, which only
/// proofs see. Each byte is noted at the call that moves it, and nowhere else.
#[derive(Drop)]
pub struct TracedCalls {
    past: History,
}

impl Model for TracedCalls {
    ghost use Rattle.std.specs.Prelude.{List};
    ghost use Rattle.iova_sink.specs.declared.history.Passed.{Passed};

    ghost Value = { List Passed };

    ghost view = { λ c. c.past };
}

impl TracedCalls {
    /// No call was made.
    pub fn new() -> TracedCalls
        ensures { result ≡ [] }
    {
        TracedCalls {
            past: History::new(),
        }
    }

    /// Connects to the socket at this path, with this limit for each read and each write.
    pub fn connect<N: Net>(
        &mut self,
        net: &N,
        path: &str,
        limit: Duration,
    ) -> io::Result<UnixStream>
        ensures made { IfOk result (λ s. self.new ≡ with_one self.old Passed.Connected) }
        ensures failed { IfErr result (λ e. self.new ≡ self.old) }
    {
        let stream = connected(net, path, limit)?;
        self.past.add(Passed::Connected);
        Ok(stream)
    }

    /// A look found bytes.
    pub fn note_stray(&mut self)
        ensures { self.new ≡ with_one self.old Passed.Strayed }
    {
        self.past.add(Passed::Strayed);
    }

    /// A call failed.
    pub fn note_failed(&mut self)
        ensures { self.new ≡ with_one self.old Passed.Failed }
    {
        self.past.add(Passed::Failed);
    }
}

impl SocketCalls for TracedCalls {
    ghost state = { λ c. record { left = None; passed = Some c; found = None } };

    fn receive(
        &mut self,
        stream: &UnixStream,
        buffer: &mut [u8],
        waits: bool,
    ) -> Result<usize, i32> {
        let n = received(stream, buffer, waits)?;
        self.past.add_received(&buffer[..n]);
        Ok(n)
    }

    fn send(&mut self, stream: &UnixStream, bytes: &[u8]) -> Result<usize, i32> {
        let n = sent(stream, bytes)?;
        self.past.add_sent(&bytes[..n]);
        Ok(n)
    }

    fn look(&mut self, stream: &UnixStream) -> Result<Incoming, i32> {
        incoming(stream)
    }
}

/// A connection with these limits.
fn connected<N: Net>(net: &N, path: &str, limit: Duration) -> io::Result<UnixStream> {
    let stream = UnixStream::connect(net, path)?;
    stream.set_read_timeout(Some(limit))?;
    stream.set_write_timeout(Some(limit))?;
    Ok(stream)
}

/// Receives by one call of the system: trusted.
#[inline(always)]
fn received(stream: &UnixStream, buffer: &mut [u8], waits: bool) -> Result<usize, i32>
    ensures { IfOk result (λ n. n ≤ length buffer.new) }
{
    let flags = if waits { 0 } else { MSG_DONTWAIT };
    let read = unsafe { recv(stream.as_raw_fd(), buffer, flags) };
    if read < 0 {
        Err(os::errno())
    } else {
        Ok(read as usize)
    }
}

/// Sends by one call of the system: trusted.
#[inline(always)]
fn sent(stream: &UnixStream, bytes: &[u8]) -> Result<usize, i32>
    ensures { IfOk result (λ n. n ≤ length bytes.now) }
{
    let written = unsafe { send(stream.as_raw_fd(), bytes, MSG_NOSIGNAL) };
    if written < 0 {
        Err(os::errno())
    } else {
        Ok(written as usize)
    }
}

/// Looks by one call of the system: trusted.
fn incoming(stream: &UnixStream) -> Result<Incoming, i32> {
    let mut byte = [0u8];
    let read = unsafe { recv(stream.as_raw_fd(), &mut byte, MSG_PEEK | MSG_DONTWAIT) };
    if read > 0 {
        return Ok(Incoming::Bytes);
    }
    if read == 0 {
        return Ok(Incoming::End);
    }
    match os::errno() {
        EAGAIN => Ok(Incoming::Nothing),
        error => Err(error),
    }
}
