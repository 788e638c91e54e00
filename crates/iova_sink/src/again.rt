//! Calls that a signal interrupted, made again.
ghost use Rattle.std.specs.Prelude.{◌≡◌, ◌≤◌, IfOk, IsErr, length, true};
ghost use Rattle.iova_sink.specs.Sockets.{Reads, Writes};

use crate::socket_calls::SocketCalls;
use crate::soon::{read_from, write_to};
use std::io;
use std::io::ErrorKind;
use std::os::unix::net::UnixStream;
use std::rt::Clock;
use std::time::Duration;

/// How often an interrupted call is made again at most.
const MOST: u64 = 1_000_000;

/// Whether a signal interrupted the call: then it has moved no byte.
pub fn is_interrupted(done: &io::Result<usize>) -> bool
    ensures { result ≡ true → IsErr done.now }
{
    match done {
        Ok(_) => false,
        Err(error) => error.kind() == ErrorKind::Interrupted,
    }
}

/// Reads what comes next, as long as the time that began then isn't over. `TimedOut` once it is.
/// The connection has this limit again afterwards.
pub fn read_again<T: Clock, C: SocketCalls>(
    clock: &T,
    calls: &mut C,
    stream: &UnixStream,
    buffer: &mut [u8],
    begun: Duration,
    limit: Duration,
) -> io::Result<usize>
    ensures bound { IfOk result (λ n. n ≤ length buffer.new) }
    ensures reads { Reads (C.state calls.old) (C.state calls.new) buffer.new result }
{
    for _ in 0..MOST {
        stream.set_read_timeout(Some(left(clock, begun, limit)?))?;
        let read = read_from(calls, stream, buffer);
        if !is_interrupted(&read) {
            // what was read isn't lost if the limit can't be set
            let _ = stream.set_read_timeout(Some(limit));
            return read;
        }
    }
    Err(io::Error::from(ErrorKind::TimedOut))
}

/// Writes a front of the bytes, as long as the time that began then isn't over. `TimedOut` once it
/// is. The connection has this limit again afterwards.
pub fn write_again<T: Clock, C: SocketCalls>(
    clock: &T,
    calls: &mut C,
    stream: &UnixStream,
    bytes: &[u8],
    begun: Duration,
    limit: Duration,
) -> io::Result<usize>
    ensures bound { IfOk result (λ n. n ≤ length bytes.now) }
    ensures writes { Writes (C.state calls.old) (C.state calls.new) bytes.now result }
{
    for _ in 0..MOST {
        stream.set_write_timeout(Some(left(clock, begun, limit)?))?;
        let written = write_to(calls, stream, bytes);
        if !is_interrupted(&written) {
            let _ = stream.set_write_timeout(Some(limit));
            return written;
        }
    }
    Err(io::Error::from(ErrorKind::TimedOut))
}

/// What is left of the time that began then. `TimedOut` where nothing is.
fn left<C: Clock>(clock: &C, begun: Duration, limit: Duration) -> io::Result<Duration> {
    let spent = clock.monotonic()?.saturating_sub(begun);
    let left = limit.saturating_sub(spent);
    if left.is_zero() {
        return Err(io::Error::from(ErrorKind::TimedOut));
    }
    Ok(left)
}
