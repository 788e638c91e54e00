//! The sockets that a daemon listens on.
ghost use Rattle.std.specs.Prelude.{◌≡◌, IfSome};

use crate::cause::tell_cause;
use arrayvec::ArrayString;
use iova_links::made_file::MadeFile;
use iova_range::limits::{FOLDER_LOOKS, FOLDER_PAUSE};
use log::Log;
use mio::net::UnixStream;
use std::fs::{DirBuilder, File, Permissions};
use std::io::ErrorKind;
use std::net::Net;
use std::os::unix::fs::{DirBuilderExt, FileTypeExt, PermissionsExt};
use std::os::unix::net::UnixListener;
use std::rt::{Clock, Files};
use std::time::Duration;
use std::{fs, io, thread};

/// The system's number of the error of an address that is in use (`EADDRINUSE` of Linux).
const ADDRESS_IN_USE: i32 = 98;

/// The longest path of a socket, in bytes (`sun_path` of Linux, without its NUL).
const MAX_SOCKET_PATH: usize = 107;

/// Who may connect to a socket.
#[derive(Clone, Copy)]
pub enum Access {
    /// Whom the umask leaves the right to write.
    Umask,
    /// The daemon's own user alone: mode 0600.
    Private,
}

/// A socket that is listened on, and its file.
pub struct Listening<'a> {
    /// What accepts. An accept doesn't block.
    pub listener: UnixListener,
    /// The socket's file.
    pub file: MadeFile<'a>,
}

/// Drops its parts. The proof stands here, once for all crates above.
impl<'a> Drop for Listening<'a> {
    fn drop(self) {
        let Listening {
            listener: _,
            file: _,
        } = self;
    }
}

impl<'a> Listening<'a> {
    /// What accepts, and the socket's file.
    pub fn into_parts(self) -> (UnixListener, MadeFile<'a>)
        ensures { (result.0 ≡ self.entry.listener) × (result.1 ≡ self.entry.file) }
    {
        let Listening { listener, file } = self;
        (listener, file)
    }
}

/// Listens on a socket at this path, in place of one that nobody listens on any more. Anything else
/// that stands there is left as it is. An accept there doesn't block. None where it can't be had,
/// which a notice says.
///
/// The folder is locked (`flock`) from the look to the socket, so that of several daemons that
/// start at once one listens: none takes a socket that another one has just made for one that was
/// left. A folder that can't be opened isn't locked, and nothing is replaced there.
pub fn listen<'a, R, N>(rt: &R, notices: &N, path: &'a str, access: Access) -> Option<Listening<'a>>
where
    R: Clock + Net + Files<File = File>,
    N: Log,
    ensures { IfSome result (λ l. l.file.path.now ≡ path.now) }
{
    let listener = match bound(rt, path, access) {
        Ok(listener) => listener,
        Err(error) => {
            tell_cause(notices, "bind", path, &error);
            return None;
        }
    };
    match MadeFile::at(rt, path) {
        Some(file) => Some(Listening { listener, file }),
        None => {
            tell_cause(notices, "bind", path, &io::Error::from(ErrorKind::NotFound));
            None
        }
    }
}

/// A socket that is bound at the path, or the system's error.
fn bound<R: Clock + Net + Files<File = File>>(
    rt: &R,
    path: &str,
    access: Access,
) -> io::Result<UnixListener> {
    // the system would take an empty path for a socket without a name
    if path.is_empty() {
        return Err(io::Error::from(ErrorKind::NotFound));
    }
    match File::open(rt, folder_of(path)) {
        Ok(folder) => {
            // closing the folder gives up its lock
            let bound = bound_in(rt, &folder, path, access);
            drop(folder);
            bound
        }
        Err(_) => bind(rt, path, access),
    }
}

/// A socket that is bound in this folder, which is locked meanwhile. It waits a second at most for
/// a lock that somebody else has, and replaces nothing then.
fn bound_in<R: Clock + Net + Files<File = File>>(
    rt: &R,
    folder: &File,
    path: &str,
    access: Access,
) -> io::Result<UnixListener> {
    for _ in 0..FOLDER_LOOKS {
        if folder.try_lock().is_ok() {
            remove_left(rt, path);
            return bind(rt, path, access);
        }
        thread::sleep(rt, Duration::from_millis(FOLDER_PAUSE));
    }
    bind(rt, path, access)
}

/// Whether a daemon may listen at this path: nothing stands there, or a socket that nobody listens
/// on. Else a notice says why.
pub fn is_free<R, N>(rt: &R, notices: &N, path: &str) -> bool
where
    R: Net + Files<File = File>,
    N: Log,
{
    if fs::symlink_metadata(rt, path).is_err() || is_left(rt, path) {
        return true;
    }
    tell_cause(
        notices,
        "bind",
        path,
        &io::Error::from_raw_os_error(ADDRESS_IN_USE),
    );
    false
}

/// Binds a socket there, where nothing stands.
fn bind<R: Net + Files<File = File>>(
    rt: &R,
    path: &str,
    access: Access,
) -> io::Result<UnixListener> {
    let listener = match access {
        Access::Umask => UnixListener::bind(rt, path)?,
        Access::Private => bind_private(rt, path)?,
    };
    match listener.set_nonblocking(true) {
        Ok(()) => Ok(listener),
        Err(error) => {
            remove(rt, path);
            Err(error)
        }
    }
}

/// Binds a socket to which only the same user may connect: it is made in a folder beside its place
/// that only the same user may enter, and is put at its place once it has its mode. So whatever the
/// umask is, nobody else can connect to it at any time.
fn bind_private<R: Net + Files<File = File>>(rt: &R, path: &str) -> io::Result<UnixListener> {
    let folder = beside(path, ".n")?;
    let made = beside(path, ".n/s")?;
    // what a daemon left there that was killed here
    remove_left(rt, made.as_str());
    let _ = fs::remove_dir(rt, folder.as_str());
    DirBuilder::new().mode(0o700).create(rt, folder.as_str())?;
    let bound = bind_at(rt, made.as_str(), path);
    remove(rt, made.as_str());
    let _ = fs::remove_dir(rt, folder.as_str());
    bound
}

/// Binds a socket of mode 0600 at the first path, and gives it the second one too.
fn bind_at<R: Net + Files<File = File>>(
    rt: &R,
    made: &str,
    path: &str,
) -> io::Result<UnixListener> {
    let listener = UnixListener::bind(rt, made)?;
    fs::set_permissions(rt, made, Permissions::from_mode(0o600))?;
    fs::hard_link(rt, made, path)?;
    Ok(listener)
}

/// This path with an end. Refused where it would be too long for a socket's.
fn beside(path: &str, end: &str) -> io::Result<ArrayString<MAX_SOCKET_PATH>> {
    let mut joined = ArrayString::new();
    match (joined.try_push_str(path), joined.try_push_str(end)) {
        (Ok(()), Ok(())) => Ok(joined),
        _ => Err(io::Error::from(ErrorKind::InvalidInput)),
    }
}

/// Removes a socket that nobody listens on.
fn remove_left<R: Net + Files<File = File>>(rt: &R, path: &str) {
    if is_left(rt, path) {
        remove(rt, path);
    }
}

/// Whether a socket stands there that nobody listens on. Nobody is waited for, as where a
/// listener's queue is full.
fn is_left<R: Net + Files<File = File>>(rt: &R, path: &str) -> bool {
    is_socket(rt, path) && is_refused(&UnixStream::connect(rt, path))
}

/// Whether a socket stands there, and not a link to one.
fn is_socket<R: Files<File = File>>(rt: &R, path: &str) -> bool {
    match fs::symlink_metadata(rt, path) {
        Ok(metadata) => metadata.file_type().is_socket(),
        Err(_) => false,
    }
}

/// Whether nobody listens where this connection should have led.
fn is_refused(connected: &io::Result<UnixStream>) -> bool {
    match connected {
        Ok(_) => false,
        Err(error) => error.kind() == ErrorKind::ConnectionRefused,
    }
}

/// Removes the file at this path. That it can't be removed is no fault.
fn remove<R: Files<File = File>>(rt: &R, path: &str) {
    let _ = fs::remove_file(rt, path);
}

/// The folder of the file at this path.
fn folder_of(path: &str) -> &str {
    match path.rsplit_once('/') {
        Some(("", _)) => "/",
        Some((folder, _)) => folder,
        None => ".",
    }
}
