//! Links over the connections to a Unix socket.
ghost use Rattle.std.specs.Prelude.{◌≡◌, IfOk, IfSome};

use crate::accept::Accept;
use crate::dial::{Dial, UnixNet};
use crate::made_file::MadeFile;
use crate::pause::shorter;
use crate::served_link::{ServedLink, TimeOuts};
use crate::signals::Signals;
use iova_range::limits::{ACCEPT_PAUSE, MAX_ACCEPT_PAUSE, MAX_WAITING};
use iova_session::link::LinkFault;
use log::{Log, warn};
use mio::unix::SourceFd;
use mio::{Events, Interest, Poll, Token};
use std::io::{ErrorKind, Read};
use std::os::fd::{AsRawFd, RawFd};
use std::os::unix::net::{UnixListener, UnixStream};
use std::rt::Clock;
use std::sync::atomic::{AtomicU64, Ordering};
use std::sync::{Mutex, Wait};
use std::time::Duration;
use std::{io, thread};

/// Accepts the connections of a listener, each one a link, until it is closed or the daemon is
/// asked to stop. An accept that fails is a notice, and a pause follows, which doubles with each
/// failure after another; none was had then, and the next call tries again. While it waits it has
/// one descriptor of its own.
pub struct SocketAccept<'a, R, N> {
    rt: &'a R,
    notices: &'a N,
    file: MadeFile<'a>,
    listener: Mutex<Option<UnixListener>>,
    signals: &'a Signals,
    time_outs: TimeOuts,
    pause: AtomicU64,
}

/// Drops its parts. The proof stands here, once for all crates above.
impl<'a, R, N> Drop for SocketAccept<'a, R, N> {
    fn drop(self) {
        let SocketAccept {
            rt: _,
            notices: _,
            file: _,
            listener: _,
            signals: _,
            time_outs: _,
            pause: _,
        } = self;
    }
}

impl<'a, R: AllocGlobal + Dial + Wait, N: Log> SocketAccept<'a, R, N> {
    /// Accepts what connects to this listener, which is that of this socket's file. The caller has
    /// made it one that doesn't block; else an accept has no limit.
    pub fn new(
        rt: &'a R,
        notices: &'a N,
        file: MadeFile<'a>,
        listener: UnixListener,
        signals: &'a Signals,
        time_outs: TimeOuts,
    ) -> SocketAccept<'a, R, N> {
        SocketAccept {
            rt,
            notices,
            file,
            listener: Mutex::new(Some(listener)),
            signals,
            time_outs,
            pause: AtomicU64::new(ACCEPT_PAUSE),
        }
    }

    /// The next connection; where none stands there, it is waited for. None where none came, or
    /// another thread had it.
    fn next(&self, limit: Option<u64>) -> io::Result<Option<ServedLink<'a, R>>>
        ensures { IfOk result (λ o. IfSome o (λ link. link.calls ≡ 0)) }
    {
        if let Some(link) = self.pending_link()? {
            return Ok(Some(link));
        }
        let Some(turn) = self.time_outs.turn else {
            self.wait(limit.map(Duration::from_millis))?;
            return self.pending_link();
        };
        // in turns: a stop ends the wait
        let mut left = limit.map(Duration::from_millis);
        for _ in self.rt.forever() {
            self.wait(Some(shorter(left, turn)))?;
            if let Some(link) = self.pending_link()? {
                return Ok(Some(link));
            }
            left = left.map(|time| time.saturating_sub(turn));
            if self.signals.is_stopping() || left == Some(Duration::ZERO) {
                return Ok(None);
            }
        }
        unreachable!()
    }

    /// The connection that stands there, if one does.
    fn pending_link(&self) -> io::Result<Option<ServedLink<'a, R>>>
        ensures { IfOk result (λ o. IfSome o (λ link. link.calls ≡ 0)) }
    {
        match self.accepted()? {
            Some(stream) => {
                let link = ServedLink::new(self.rt, self.signals, self.time_outs, stream)?;
                Ok(Some(link))
            }
            None => Ok(None),
        }
    }

    /// The stream of the connection that stands there, if one does.
    fn accepted(&self) -> io::Result<Option<UnixStream>> {
        let held = self.listener.lock(self.rt);
        let Some(listener) = &*held else {
            return Ok(None);
        };
        match listener.accept() {
            Ok((stream, _peer)) => Ok(Some(stream)),
            Err(error) if error.kind() == ErrorKind::WouldBlock => Ok(None),
            Err(error) => Err(error),
        }
    }

    /// Waits until a connection stands there, no longer than this.
    fn wait(&self, limit: Option<Duration>) -> io::Result<()> {
        let mut poll = Poll::new(&UnixNet::new(self.rt))?;
        let mut events = Events::with_capacity(self.rt.alloc(), 1)?;
        let Some(descriptor) = self.listening() else {
            return Ok(());
        };
        poll.registry()
            .register(&mut SourceFd(&descriptor), Token(0), Interest::READABLE)?;
        poll.poll(&mut events, limit)
    }

    /// Removes the listener's file, has whoever waits there hung up on, and closes it: whoever
    /// connects is refused. The file goes first, while somebody still listens there, so that no
    /// other daemon has put one of its own in its place.
    fn stop_listening(&self) {
        let mut held = self.listener.lock(self.rt);
        if let Some(listener) = held.take() {
            self.rt.unlink(&self.file);
            hang_up(&listener);
        }
    }

    /// The listener's descriptor, as long as it isn't closed.
    fn listening(&self) -> Option<RawFd> {
        match &*self.listener.lock(self.rt) {
            Some(listener) => Some(listener.as_raw_fd()),
            None => None,
        }
    }

    /// Writes a notice of an accept that failed, and gives how long to wait for the next.
    fn note_failed(&self, error: &io::Error) -> Duration {
        let pause = self.pause.load(Ordering::SeqCst);
        warn!(self.notices; target: "accept", "accept: {error}");
        self.pause.store(
            pause.saturating_mul(2).min(MAX_ACCEPT_PAUSE),
            Ordering::SeqCst,
        );
        Duration::from_millis(pause)
    }
}

impl<'a, R: AllocGlobal + Dial + Clock + Wait, N: Log> Accept<ServedLink<'a, R>>
    for SocketAccept<'a, R, N> {
    fn accept(&self, limit: Option<u64>) -> Result<Option<ServedLink<'a, R>>, LinkFault> {
        match self.next(limit) {
            Ok(link) => {
                self.pause.store(ACCEPT_PAUSE, Ordering::SeqCst);
                Ok(link)
            }
            Err(error) => {
                thread::sleep(self.rt, self.note_failed(&error));
                Ok(None)
            }
        }
    }

    fn close(&self) {
        self.stop_listening();
    }

    /// Once the daemon is asked to stop.
    fn has_ended(&self) -> bool {
        self.signals.is_stopping()
    }
}

/// Accepts each client that waits at the listener, and closes the connection. It reads the client's
/// bytes first: otherwise the client would get a reset.
fn hang_up(listener: &UnixListener) {
    for _ in 0..MAX_WAITING {
        let Ok((mut stream, _peer)) = listener.accept() else {
            return;
        };
        let mut lost = [0u8; 4096];
        if stream.set_nonblocking(true).is_ok() {
            let _ = stream.read(&mut lost);
        }
    }
}
