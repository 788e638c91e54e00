//! Connections to Unix sockets, from any thread.
use crate::made_file::MadeFile;
use iova_range::limits::CONNECT_LOOK;
use mio::net as nonblocking;
use std::fs::File;
use std::io::ErrorKind;
use std::net::{Net, SocketAddr, TcpListener, TcpStream};
use std::os::unix::net as unix;
use std::os::unix::net::UnixStream;
use std::rt::{Clock, Files};
use std::time::Duration;
use std::{io, thread};

/// What a thread needs of `Net`, of `Files` and of a clock. A bound by `Net` is assumed of one
/// thread alone, so what goes to others has this one: a program has it of its runtime.
pub trait Dial {
    /// Connects to the Unix socket at this address, without waiting: `WouldBlock` where its
    /// listener's queue is full.
    fn dial(&self, address: &unix::SocketAddr) -> io::Result<UnixStream>;

    /// The time since some start.
    fn time(&self) -> io::Result<Duration>;

    /// Removes this file, where it still stands at its path and that can be done.
    fn unlink(&self, file: &MadeFile<'_>);
}

impl<R: Net + Files<File = File> + Clock> Dial for R {
    fn dial(&self, address: &unix::SocketAddr) -> io::Result<UnixStream> {
        connect_now(self, address)
    }

    fn time(&self) -> io::Result<Duration> {
        self.monotonic()
    }

    fn unlink(&self, file: &MadeFile<'_>) {
        file.remove(self);
    }
}

/// Connects to the Unix socket at this address, without waiting: `WouldBlock` where its listener's
/// queue is full. Reads and writes of the connection wait.
pub fn connect_now<R: Net>(net: &R, address: &unix::SocketAddr) -> io::Result<UnixStream> {
    let stream = nonblocking::UnixStream::connect_addr(net, address)?;
    let stream = UnixStream::from(stream);
    stream.set_nonblocking(false)?;
    Ok(stream)
}

/// Connects to the Unix socket at this path, where its listener's queue is full as soon as there is
/// room, within the time: `TimedOut` behind it. Reads and writes of the connection wait.
pub fn connect_within<R: Net + Clock>(
    rt: &R,
    path: &str,
    limit: Option<Duration>,
) -> io::Result<UnixStream> {
    let address = unix::SocketAddr::from_pathname(path)?;
    let Some(limit) = limit else {
        return UnixStream::connect_addr(rt, &address);
    };
    let pause = Duration::from_millis(CONNECT_LOOK);
    let mut left = limit;
    for _ in 0..u64::MAX {
        match connect_now(rt, &address) {
            Err(error) if error.kind() == ErrorKind::WouldBlock => {}
            connected => return connected,
        }
        if left.is_zero() {
            break;
        }
        thread::sleep(rt, pause);
        left = left.saturating_sub(pause);
    }
    Err(io::Error::from(ErrorKind::TimedOut))
}

/// A network of Unix sockets alone, which are reached by a dialer.
#[derive(Drop)]
pub struct UnixNet<'a, R> {
    dialer: &'a R,
}

impl<'a, R> UnixNet<'a, R> {
    /// The Unix sockets that this dialer reaches.
    pub fn new(dialer: &'a R) -> UnixNet<'a, R> {
        UnixNet { dialer }
    }
}

impl<'a, R: Dial> Net for UnixNet<'a, R> {
    type Stream = TcpStream;

    type Listener = TcpListener;

    fn bind(&self, _addr: SocketAddr) -> io::Result<TcpListener> {
        Err(io::Error::from(ErrorKind::Unsupported))
    }

    fn connect(&self, _addr: SocketAddr) -> io::Result<TcpStream> {
        Err(io::Error::from(ErrorKind::Unsupported))
    }

    fn connect_unix(&self, addr: &unix::SocketAddr) -> io::Result<UnixStream> {
        self.dialer.dial(addr)
    }
}

impl<'a, R: Dial> Clock for UnixNet<'a, R> {
    fn monotonic(&self) -> io::Result<Duration> {
        self.dialer.time()
    }

    /// Refused by `Unsupported`.
    fn since_1970(&self) -> io::Result<Duration> {
        Err(io::Error::from(ErrorKind::Unsupported))
    }
}
