//! Reads of what a peer sends soon: it is looked for a while before the thread sleeps.
ghost use Rattle.std.specs.Prelude.{◌≡◌, ◌≤◌, IfOk, IsErr, length, true};
ghost use Rattle.iova_sink.specs.Sockets.{Reads, Writes};

use crate::socket_calls::SocketCalls;
use std::hint::spin_loop;
use std::io;
use std::io::ErrorKind;
use std::os::unix::net::UnixStream;

/// How often is looked before a thread sleeps: for less time than it takes to sleep and to be woken
/// twice.
const LOOKS: u32 = 64;

/// How many pauses of the processor lie between two looks.
const PAUSES: u32 = 16;

/// After so many waits in a row without success it is looked only now and then.
const VAIN: u32 = 4;

/// So many waits lie between two of these.
const SELDOM: u32 = 16;

/// How often a thread looks for what comes before it sleeps, as long as that pays. It pays where a
/// peer that is at hand answers at once, since to sleep and to be woken takes as long as that.
#[derive(Clone, Copy, Debug)]
pub struct SpinBudget {
    /// How many waits in a row had no success.
    vain: u32,
}

impl SpinBudget {
    /// It is looked at first.
    pub fn new() -> SpinBudget {
        SpinBudget { vain: 0 }
    }

    /// How often is looked now.
    fn count(self) -> u32 {
        if self.vain < VAIN || self.vain >= SELDOM {
            LOOKS
        } else {
            0
        }
    }

    /// Whether a look found something.
    fn note(&mut self, has_found: bool) {
        self.vain = if has_found {
            0
        } else if self.vain >= SELDOM {
            VAIN
        } else {
            self.vain + 1
        };
    }

    /// Reads what comes next: looks for it, and then waits as long as the socket's own limit says.
    pub fn read<C: SocketCalls>(
        &mut self,
        calls: &mut C,
        stream: &UnixStream,
        buffer: &mut [u8],
    ) -> io::Result<usize>
        ensures bound { IfOk result (λ n. n ≤ length buffer.new) }
        ensures reads { Reads (C.state calls.old) (C.state calls.new) buffer.new result }
    {
        for _ in 0..self.count() {
            let read = read_now(calls, stream, buffer);
            if !is_awaited(&read) {
                self.note(true);
                return read;
            }
            for _ in 0..PAUSES {
                spin_loop();
            }
        }
        self.note(false);
        read_from(calls, stream, buffer)
    }
}

/// Reads what stands in the connection, and doesn't wait: `WouldBlock` if nothing does.
fn read_now<C: SocketCalls>(
    calls: &mut C,
    stream: &UnixStream,
    buffer: &mut [u8],
) -> io::Result<usize>
    ensures bound { IfOk result (λ n. n ≤ length buffer.new) }
    ensures reads { Reads (C.state calls.old) (C.state calls.new) buffer.new result }
{
    match calls.receive(stream, buffer, false) {
        Ok(n) => Ok(n),
        Err(error) => Err(io::Error::from_raw_os_error(error)),
    }
}

/// Whether a call that doesn't wait found nothing.
fn is_awaited(done: &io::Result<usize>) -> bool
    ensures { result ≡ true → IsErr done.now }
{
    match done {
        Ok(_) => false,
        Err(error) => error.kind() == ErrorKind::WouldBlock,
    }
}

/// Reads what comes next, and waits for it.
pub fn read_from<C: SocketCalls>(
    calls: &mut C,
    stream: &UnixStream,
    buffer: &mut [u8],
) -> io::Result<usize>
    ensures bound { IfOk result (λ n. n ≤ length buffer.new) }
    ensures reads { Reads (C.state calls.old) (C.state calls.new) buffer.new result }
{
    match calls.receive(stream, buffer, true) {
        Ok(n) => Ok(n),
        Err(error) => Err(io::Error::from_raw_os_error(error)),
    }
}

/// Writes a front of the bytes.
pub fn write_to<C: SocketCalls>(
    calls: &mut C,
    stream: &UnixStream,
    bytes: &[u8],
) -> io::Result<usize>
    ensures bound { IfOk result (λ n. n ≤ length bytes.now) }
    ensures writes { Writes (C.state calls.old) (C.state calls.new) bytes.now result }
{
    match calls.send(stream, bytes) {
        Ok(n) => Ok(n),
        Err(error) => Err(io::Error::from_raw_os_error(error)),
    }
}
