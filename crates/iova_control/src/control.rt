//! A daemon's control socket: what the daemon does now, asked in lines, and its stop.
ghost use Rattle.std.specs.Prelude.{◌≡◌, ◌<◌, ◌≤◌, ◌++◌, [], false, length, true};
ghost use Rattle.iova_control.specs.Texts.{answer_text};
ghost use Rattle.iova_range.specs.declared.limits.TheConstants.{MAX_DAEMON_NAME};

use crate::info::put_info;
use crate::metrics::put_metrics;
use crate::sessions::put_sessions;
use arrayvec::{ArrayString, ArrayVec};
use iova_keep::look::Look;
use iova_links::control_task::{ControlTask, MetricsSource};
use iova_links::signals::Signals;
use iova_range::limits::{
    CONTROL_PAUSE, CONTROL_READS, FRAME_BYTES, MAX_CONTROL_SILENCE, MAX_CONTROLS, MAX_DAEMON_NAME,
    MAX_LINE,
};
use iova_text::buffer::{LineBuffer, put, put_number};
use log::{Log, warn};
use memchr::memchr_iter;
use std::alloc::Global;
use std::io::{ErrorKind, Read, Write};
use std::os::unix::net::{UnixListener, UnixStream};
use std::rt::Clock;
use std::sync::atomic::{AtomicBool, Ordering};
use std::sync::{Mutex, Wait};
use std::time::Duration;
use std::{io, thread};

/// What is done beside the sessions of a daemon: its control socket, where it has one, and that a
/// full record is reported.
pub struct Control<'a, R, N> {
    rt: &'a R,
    notices: &'a N,
    signals: &'a Signals,
    facts: Facts,
    was_told: AtomicBool,
    socket: Mutex<Option<ControlSocket>>,
}

/// Drops its parts. The proof stands here, once for all crates above.
impl<'a, R, N> Drop for Control<'a, R, N> {
    fn drop(self) {
        let Control {
            rt: _,
            notices: _,
            signals: _,
            facts: _,
            was_told: _,
            socket: _,
        } = self;
    }
}

/// The most bytes of a version's text.
const MAX_VERSION: usize = 128;

/// What is so of a daemon from its start to its end.
#[derive(Drop)]
pub struct Facts {
    /// The program's version, and on a second line the kit that proved it.
    pub version: ArrayString<MAX_VERSION>,
    /// How many workers the domain has.
    pub workers: u64,
    /// How many sessions are served at a time.
    pub clients: u64,
    /// How many bytes a page frame has.
    pub granule: u64,
    /// Whether a peer answers; else a file takes records.
    pub has_peer: bool,
    /// Whether the domain's steps are recorded.
    pub is_recorded: bool,
    /// The daemon's name, in printable ASCII without quotes and backslashes; empty where it has
    /// none.
    pub name: ArrayString<MAX_DAEMON_NAME>,
}

impl Facts {
    /// What is so of a daemon of this version, whose domain has so many workers, without more:
    /// frames of 4096 bytes, as many clients at a time, no peer, no record and no name. Of a
    /// version's text that is longer than 128 bytes nothing is kept.
    pub fn new(version: &str, workers: u64) -> Facts
        ensures numbers { (result.workers ≡ workers) × (result.clients ≡ workers)
            × (result.granule ≡ FRAME_BYTES) }
        ensures plain { (result.has_peer ≡ false) × (result.is_recorded ≡ false)
            × (result.name.bytes ≡ []) }
        ensures version { length version.now ≤ MAX_VERSION → result.version.bytes ≡ version.now }
        ensures too_long { MAX_VERSION < length version.now → result.version.bytes ≡ [] }
    {
        let mut kept = ArrayString::new();
        let _ = kept.try_push_str(version);
        Facts {
            version: kept,
            workers,
            clients: workers,
            granule: FRAME_BYTES,
            has_peer: false,
            is_recorded: false,
            name: ArrayString::new(),
        }
    }

    /// Gives the daemon this name. One of more than `MAX_DAEMON_NAME` bytes changes nothing.
    pub fn set_name(&mut self, name: &str)
        ensures named { length name.now ≤ MAX_DAEMON_NAME → self.new.name.bytes ≡ name.now }
        ensures too_long { MAX_DAEMON_NAME < length name.now → self.new ≡ self.old }
        ensures others { self.new ≡ record self.old { name = self.new.name } }
    {
        if let Ok(kept) = ArrayString::from(name) {
            self.name = kept;
        }
    }
}

/// The listener, who is connected, and room to write answers in.
#[derive(Drop)]
struct ControlSocket {
    listener: UnixListener,
    connections: Vec<Connection>,
    pad: Pad,
}

/// Room for an answer's lines: the report's bytes, and text that is put together.
#[derive(Drop)]
pub struct Pad {
    pub report: Vec<u8>,
    pub text: String,
}

/// A connection: the front of a line that has no LF yet, what is owed of answers, how long nothing
/// came, and whether a line was answered.
#[derive(Drop)]
struct Connection {
    stream: UnixStream,
    line: ArrayVec<u8, MAX_LINE>,
    owed: Vec<u8>,
    silent: u64,
    was_answered: bool,
    /// Whether no more is read of it: it has ended, or has said `stop`, and then it is kept until
    /// the daemon's end.
    is_read: bool,
    is_kept: bool,
}

impl<'a, R: Wait, N> Control<'a, R, N> {
    /// What is done beside the sessions of such a daemon, without a control socket yet.
    pub fn new(rt: &'a R, notices: &'a N, signals: &'a Signals, facts: Facts) -> Control<'a, R, N> {
        Control {
            rt,
            notices,
            signals,
            facts,
            was_told: AtomicBool::new(false),
            socket: Mutex::new(None),
        }
    }

    /// Serves whoever connects to this listener. The caller has made it one that doesn't block.
    pub fn listen(&self, alloc: Global, listener: UnixListener) {
        *self.socket.lock(self.rt) = Some(ControlSocket {
            listener,
            connections: Vec::new(alloc),
            pad: Pad {
                report: Vec::new(alloc),
                text: String::new(alloc),
            },
        });
    }
}

impl<'a, R, N: Log> Control<'a, R, N> {
    /// Writes a notice, once, that the record is full, where steps are recorded no more.
    pub fn look_at_record(&self, is_recording: bool) {
        if self.facts.is_recorded && !is_recording && !self.was_told.swap(true, Ordering::SeqCst) {
            warn!(self.notices; target: "", "the record is full");
        }
    }
}

impl<'a, R: AllocGlobal + Clock + Wait, N: Log> ControlTask for Control<'a, R, N> {
    fn is_wanted(&self) -> bool {
        self.facts.is_recorded || self.socket.lock(self.rt).is_some()
    }

    fn turn<K: Look, T: MetricsSource>(&self, domain: &K, source: &T) {
        self.look_at_record(domain.is_recording());
        if let Some(socket) = &mut *self.socket.lock(self.rt) {
            self.admit(socket);
            let ControlSocket {
                listener: _,
                connections,
                pad,
            } = socket;
            connections.retain_mut(|connection| self.serves(connection, domain, source, pad));
        }
        // no wait for a descriptor, so there is none to run out of
        thread::sleep(self.rt, Duration::from_millis(CONTROL_PAUSE));
    }
}

impl<'a, R: AllocGlobal, N: Log> Control<'a, R, N> {
    /// Takes what came over the connection, and sends what is owed. Whether it stays.
    fn serves<K: Look, T: MetricsSource>(
        &self,
        connection: &mut Connection,
        domain: &K,
        source: &T,
        pad: &mut Pad,
    ) -> bool {
        connection.silent = connection.silent.saturating_add(1);
        for _ in 0..CONTROL_READS {
            if !connection.is_read || !connection.owed.is_empty() {
                break;
            }
            self.reads(connection, domain, source, pad);
            if !is_pushed_out(connection) {
                return false;
            }
            if connection.silent > 0 {
                break;
            }
        }
        is_pushed_out(connection)
            && (connection.is_read || connection.is_kept || !connection.owed.is_empty())
    }

    /// Reads once, and answers the lines that end in what came.
    fn reads<K: Look, T: MetricsSource>(
        &self,
        connection: &mut Connection,
        domain: &K,
        source: &T,
        pad: &mut Pad,
    ) {
        let mut piece = [0u8; MAX_LINE];
        match connection.stream.read(&mut piece) {
            Ok(0) => connection.is_read = false,
            Ok(n) => {
                connection.silent = 0;
                if let Some(bytes) = piece.get(..n) {
                    self.takes(connection, bytes, domain, source, pad);
                }
            }
            Err(error) if is_to_be_tried_again(&error) => {
                connection.silent = connection.silent.max(1);
            }
            Err(_) => connection.is_read = false,
        }
    }

    /// Takes these bytes, and answers the lines that end in them.
    fn takes<K: Look, T: MetricsSource>(
        &self,
        connection: &mut Connection,
        bytes: &[u8],
        domain: &K,
        source: &T,
        pad: &mut Pad,
    ) {
        for byte in bytes {
            if !connection.is_read {
                return;
            }
            if *byte == b'\n' {
                self.answers(connection, domain, source, pad);
                connection.line.clear();
            } else if connection.line.len() + 1 >= MAX_LINE {
                refuse(connection);
            } else {
                connection.line.push(*byte);
            }
        }
    }

    /// Answers the line.
    fn answers<K: Look, T: MetricsSource>(
        &self,
        connection: &mut Connection,
        domain: &K,
        source: &T,
        pad: &mut Pad,
    ) {
        pad.report.clear();
        pad.text.clear();
        let is_answered = match connection.line.as_slice() {
            b"report" => {
                domain.look(&mut pad.report).is_ok()
                    && is_owed(&mut connection.owed, b"report", &pad.report)
            }
            b"sessions" => {
                put_sessions(
                    self.rt.alloc(),
                    self.facts.workers,
                    source,
                    domain,
                    &mut pad.text,
                )
                .is_ok()
                    && is_owed(&mut connection.owed, b"sessions", pad.text.as_bytes())
            }
            b"metrics" => {
                put_metrics(&self.facts, self.signals, source.metrics(), domain, pad).is_ok()
                    && is_owed(&mut connection.owed, b"metrics", pad.text.as_bytes())
            }
            b"info" => {
                put_info(&self.facts, &mut pad.text).is_ok()
                    && is_owed(&mut connection.owed, b"info", pad.text.as_bytes())
            }
            b"stop" => {
                self.signals.ask_to_stop();
                connection.is_kept = true;
                connection.is_read = false;
                connection.owed.extend_from_slice(b"stopping\n").is_ok()
            }
            _ => {
                refuse(connection);
                true
            }
        };
        connection.was_answered = true;
        if !is_answered {
            warn!(self.notices; target: "", "control: no memory for an answer");
            connection.is_read = false;
        }
    }
}

/// A line that is none of the words ends the connection.
fn refuse(connection: &mut Connection) {
    let _ = connection.owed.extend_from_slice(b"no 20 BadLine\n");
    connection.is_read = false;
}

/// Appends the word with the number of the text's lines, and the text. Whether there was memory for
/// it.
fn is_owed(owed: &mut Vec<u8>, word: &[u8], text: &[u8]) -> bool
    requires { length word.now ≤ 32 }
    ensures { result ≡ true
        → owed.new.items ≡ owed.old.items ++ answer_text word.now text.now }
{
    let mut line = LineBuffer::new();
    put(&mut line, word);
    put(&mut line, b" ");
    put_number(&mut line, memchr_iter(b'\n', text).count() as u64);
    put(&mut line, b"\n");
    owed.extend_from_slice(line.as_slice()).is_ok() && owed.extend_from_slice(text).is_ok()
}

/// Sends what is owed, as far as it is taken. Whether the connection is whole.
fn is_pushed_out(connection: &mut Connection) -> bool {
    if connection.owed.is_empty() {
        return true;
    }
    match connection.stream.write(&connection.owed) {
        Ok(n) => {
            connection.silent = 0;
            connection.owed.drain(..n.min(connection.owed.len()));
            true
        }
        Err(error) => is_to_be_tried_again(&error),
    }
}

/// Whether a call that failed so is made again at the next look: a read found nothing, a write
/// found no room, or a signal interrupted it.
fn is_to_be_tried_again(error: &io::Error) -> bool {
    error.kind() == ErrorKind::WouldBlock || error.kind() == ErrorKind::Interrupted
}

/// The place of the connection that makes room for another one: the oldest that was answered and is
/// owed nothing, and else one that has long been silent.
fn place_of_oldest(connections: &[Connection]) -> Option<usize> {
    let answered = connections
        .iter()
        .position(|c| c.was_answered && c.owed.is_empty() && !c.is_kept);
    match answered {
        Some(at) => Some(at),
        None => connections
            .iter()
            .position(|c| c.silent > MAX_CONTROL_SILENCE && !c.is_kept),
    }
}

impl<'a, R: AllocGlobal, N: Log> Control<'a, R, N> {
    /// Accepts whoever waits, where there is room or somebody makes some.
    fn admit(&self, socket: &mut ControlSocket) {
        let oldest = if socket.connections.len() < MAX_CONTROLS {
            None
        } else {
            match place_of_oldest(&socket.connections) {
                Some(at) => Some(at),
                None => return,
            }
        };
        match socket.listener.accept() {
            Ok((stream, _peer)) => {
                if let Some(at) = oldest
                    && at < socket.connections.len()
                {
                    socket.connections.remove(at);
                }
                self.serve_too(socket, stream);
            }
            Err(error) if error.kind() == ErrorKind::WouldBlock => {}
            Err(error) => warn!(self.notices; target: "accept", "accept of control: {error}"),
        }
    }

    /// Serves this connection too. One that can't be served is closed, and a notice says so.
    fn serve_too(&self, socket: &mut ControlSocket, stream: UnixStream) {
        let is_ready = stream.set_nonblocking(true).is_ok();
        let connection = Connection {
            stream,
            line: ArrayVec::new(),
            owed: Vec::new(self.rt.alloc()),
            silent: 0,
            was_answered: false,
            is_read: true,
            is_kept: false,
        };
        if !is_ready || socket.connections.push(connection).is_err() {
            warn!(self.notices; target: "accept", "accept of control: no memory");
        }
    }
}
