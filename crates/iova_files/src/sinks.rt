//! The sinks of a daemon: files that take records, or connections to a peer that answers.
ghost use Rattle.std.specs.Prelude.{◌≡◌, [], IfSome, unwrap_or};
ghost use Rattle.iova_range.specs.declared.limits.TheConstants.{SINK_TIMEOUT};
ghost use Rattle.iova_files.specs.Sinks.{HasReset, IsOpened};

use crate::cause::tell_cause;
use iova_command::plan::Plan;
use iova_command::sink_path::SinkPath;
use iova_range::limits::{CONNECT_LOOK, SINK_TIMEOUT};
use iova_range::range::Range;
use iova_sink::channel::Channel;
use iova_sink::channel_sink::ChannelSink;
use iova_sink::file::FileDevice;
use iova_sink::record::RecordSink;
use iova_sink::sink::{Sink, SinkFault};
use iova_sink::socket::SocketChannel;
use iova_sink::stop_deadline::StopDeadline;
use log::{Log, error};
use std::fs::File;
use std::net::Net;
use std::os::unix::fs::FileTypeExt;
use std::rt::{Clock, Files};
use std::time::Duration;
use std::{fs, thread};

/// A sink of one of two kinds. Its calls are those of the one that it is.
pub enum EitherSink<A, B> {
    /// Of the first kind.
    First(A),
    /// Of the second kind.
    Second(B),
}

/// Drops its part. The proof stands here, once for all crates above.
impl<A: Drop, B: Drop> Drop for EitherSink<A, B> {
    fn drop(self) {
        match self {
            EitherSink::First(_) | EitherSink::Second(_) => {}
        }
    }
}

impl<A: Sink, B: Sink> Sink for EitherSink<A, B> {
    ghost use Rattle.iova_files.specs.Sinks.{either_calls};

    ghost calls = { either_calls A.calls B.calls };

    fn invalidate(&mut self, domain: u64, no: u64) -> Result<(), SinkFault> {
        match self {
            EitherSink::First(sink) => sink.invalidate(domain, no),
            EitherSink::Second(sink) => sink.invalidate(domain, no),
        }
    }

    fn gone(&mut self, domain: u64, client: u64, ranges: &Vec<Range>) -> Result<(), SinkFault> {
        match self {
            EitherSink::First(sink) => sink.gone(domain, client, ranges),
            EitherSink::Second(sink) => sink.gone(domain, client, ranges),
        }
    }

    fn lock(&mut self) {
        match self {
            EitherSink::First(sink) => sink.lock(),
            EitherSink::Second(sink) => sink.lock(),
        }
    }

    fn unlock(&mut self) {
        match self {
            EitherSink::First(sink) => sink.unlock(),
            EitherSink::Second(sink) => sink.unlock(),
        }
    }

    fn wait_for_turn(&mut self) -> bool {
        match self {
            EitherSink::First(sink) => sink.wait_for_turn(),
            EitherSink::Second(sink) => sink.wait_for_turn(),
        }
    }

    fn pass_on(&mut self) {
        match self {
            EitherSink::First(sink) => sink.pass_on(),
            EitherSink::Second(sink) => sink.pass_on(),
        }
    }
}

/// A daemon's sink: a file that takes records, or a peer that answers.
pub type DaemonSink<'a, N> = EitherSink<RecordSink<FileDevice>, ChannelSink<SocketChannel<'a, N>>>;

/// Where the sinks of a daemon are, and how long a peer has.
#[derive(Clone, Copy)]
pub struct SinkPlace<'a> {
    path: SinkPath<'a>,
    seconds: u64,
    wait: u64,
}

impl<'a> SinkPlace<'a> {
    /// The plan's.
    pub fn of(plan: &Plan<'a>) -> SinkPlace<'a>
        ensures path { result.path ≡ plan.now.sink }
        ensures seconds { result.seconds ≡ unwrap_or plan.now.sink_timeout SINK_TIMEOUT }
        ensures wait { result.wait ≡ unwrap_or plan.now.peer_wait 0 }
    {
        SinkPlace {
            path: plan.sink,
            seconds: plan.sink_timeout.unwrap_or(SINK_TIMEOUT),
            wait: plan.peer_wait.unwrap_or(0),
        }
    }

    /// This place, at which nobody waits for a peer that isn't there.
    pub fn without_wait(self) -> SinkPlace<'a>
        ensures { result ≡ record self.entry { wait = 0 } }
    {
        SinkPlace { wait: 0, ..self }
    }
}

/// A sink there; a peer first gets a record that nothing is mapped of the domain that is to be
/// reset, where one is. None where the file can't be opened, nobody listens, or the peer didn't
/// answer that it is done; a notice says which. A stop ends its waits.
pub fn open_sink<'a, R: Clock + Files<File = File>, W: Log, N: Net + Clock>(
    rt: &R,
    notices: &W,
    net: &'a N,
    stop_deadline: &'a StopDeadline,
    place: SinkPlace<'a>,
    reset: Option<u64>,
) -> Option<DaemonSink<'a, N>>
    ensures { IfSome result (λ s. IsOpened place.entry.path reset s) }
{
    match place.path {
        SinkPath::Peer(path) => match open_peer(
            rt,
            notices,
            net,
            stop_deadline,
            path,
            place,
            reset,
        ) {
            Some(sink) => Some(EitherSink::Second(sink)),
            None => None,
        },
        SinkPath::File(path) => match open_file(rt, notices, path) {
            Some(device) => Some(EitherSink::First(RecordSink::new(device))),
            None => None,
        },
    }
}

/// The file at this path, which takes records. None, of which a notice says why, where it can't be
/// opened, or is a socket.
fn open_file<R: Files<File = File>, W: Log>(rt: &R, notices: &W, path: &str) -> Option<FileDevice> {
    if is_socket(rt, path) {
        error!(notices; target: "", "open {path}: a socket: use --peer");
        return None;
    }
    match FileDevice::open(rt, path) {
        Ok(device) => Some(device),
        Err(error) => {
            tell_cause(notices, "open", path, &error);
            None
        }
    }
}

/// Whether a socket stands at this path.
fn is_socket<R: Files<File = File>>(rt: &R, path: &str) -> bool {
    match fs::metadata(rt, path) {
        Ok(metadata) => metadata.file_type().is_socket(),
        Err(_) => false,
    }
}

/// A sink over a connection to the peer.
fn open_peer<'a, R: Clock, W: Log, N: Net + Clock>(
    rt: &R,
    notices: &W,
    net: &'a N,
    stop_deadline: &'a StopDeadline,
    path: &'a str,
    place: SinkPlace<'a>,
    reset: Option<u64>,
) -> Option<ChannelSink<SocketChannel<'a, N>>>
    ensures { IfSome result (λ s. (s.calls ≡ []) × HasReset reset s.channel) }
{
    let mut channel = SocketChannel::new(net, path, place.seconds);
    channel.stop_by(stop_deadline);
    if !connects(rt, &mut channel, place) {
        error!(notices; target: "", "connect {path}: nobody answers");
        return None;
    }
    let mut sink = ChannelSink::new(channel);
    let Some(domain) = reset else {
        return Some(sink);
    };
    match sink.reset(domain) {
        Ok(()) => Some(sink),
        Err(_) => {
            error!(notices; target: "", "reset {path}: not answered as done");
            None
        }
    }
}

/// Connects the channel. One whose peer's queue is full is tried again for as long as an answer
/// has, and one at which nobody listens for as long as a peer is waited for.
fn connects<R: Clock, N: Net + Clock>(
    rt: &R,
    channel: &mut SocketChannel<'_, N>,
    place: SinkPlace<'_>,
) -> bool {
    let mut full = tries_of(place.seconds);
    let mut nobody = tries_of(place.wait);
    for _ in 0..tries_of(place.seconds.saturating_add(place.wait)) {
        if channel.connect().is_ok() {
            return true;
        }
        let left = if channel.was_full() {
            &mut full
        } else {
            &mut nobody
        };
        *left = left.saturating_sub(1);
        if *left == 0 {
            return false;
        }
        thread::sleep(rt, Duration::from_millis(CONNECT_LOOK));
    }
    false
}

/// How many tries to connect there are in so many seconds: one at least.
fn tries_of(seconds: u64) -> u64 {
    (seconds.saturating_mul(1_000) / CONNECT_LOOK).saturating_add(1)
}
