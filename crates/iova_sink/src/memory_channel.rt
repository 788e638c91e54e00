//! A channel in memory.
ghost use Rattle.std.specs.Prelude.{◌≡◌, ◌<◌, ◌≤◌, [], IfOk, length, false};
ghost use Rattle.iova_sink.specs.Channels.{Sends, Receives, Looks, Connects, without_connection, with_failure, with_stray};
ghost use Rattle.iova_sink.specs.Passing.{sent_of, received_of};

use crate::channel::{Channel, ChannelFault, Incoming};
use crate::history::{History, Passed};
use std::alloc::Global;
use std::marker::Model;

/// What a planned peer says over one connection.
#[derive(Clone, Copy)]
pub struct Peer<'a> {
    /// The first of these stands in the connection from its beginning. Each next one comes with a
    /// send, once all before it has been received.
    pub says: &'a [&'a [u8]],
    /// Whether the stream ends behind them. Otherwise a receive behind them fails, as by a
    /// time-out.
    pub ends: bool,
}

/// A channel whose peers are planned and whose bytes are kept in memory, for tests. Each connect
/// takes the next peer, and fails where none is left. A send takes at most `most` bytes. The
/// `fail_at`-th send, receive, look or connect fails (0: none), and so does one where a growth is
/// refused.
#[derive(Drop)]
pub struct MemoryChannel<'a> {
    peers: &'a [Peer<'a>],
    /// How many of them were connected.
    met: usize,
    /// Which of them is at the other end.
    peer: usize,
    /// Which of its texts stands in the connection.
    text: usize,
    /// How many bytes of that text were received.
    taken: usize,
    connected: bool,
    most: usize,
    /// How far off the call that fails is: 1 where it comes next, 0 where none fails any more.
    ahead: u64,
    sent: Vec<u8>,
    received: Vec<u8>,
    past: History,
}

impl<'a> Model for MemoryChannel<'a> {
    ghost use Rattle.std.specs.Prelude.{◌≡◌, ◌≤◌, []};
    ghost use Rattle.iova_sink.specs.Channels.{Talk};
    ghost use Rattle.iova_sink.specs.Passing.{sent_of, received_of};

    ghost Value = { Talk };

    ghost view = { λ c. record { passed = c.past; ahead = []; connected = c.connected } };

    ghost invariant = { λ c. record {
      most : 1 ≤ c.most;
      sent : c.sent.items ≡ sent_of c.past;
      received : c.received.items ≡ received_of c.past;
    } };
}

impl<'a> MemoryChannel<'a> {
    /// A channel to these peers, without a connection.
    pub fn new(alloc: Global, peers: &'a [Peer<'a>], most: usize, fail_at: u64) -> MemoryChannel<'a>
        requires { 1 ≤ most }
        ensures { result ≡ record { passed = []; ahead = []; connected = false } }
    {
        MemoryChannel {
            peers,
            met: 0,
            peer: 0,
            text: 0,
            taken: 0,
            connected: false,
            most,
            ahead: fail_at,
            sent: Vec::new(alloc),
            received: Vec::new(alloc),
            past: History::new(),
        }
    }

    /// The bytes that were sent.
    pub fn sent(&self) -> &[u8]
        ensures { result.now ≡ sent_of self.now.passed }
    {
        self.sent.as_slice()
    }

    /// The bytes that were received.
    pub fn received(&self) -> &[u8]
        ensures { result.now ≡ received_of self.now.passed }
    {
        self.received.as_slice()
    }

    /// One call more. Whether it is planned to fail.
    fn next_fails(&mut self) -> bool
        ensures { self.new ≡ self.old }
    {
        let fails = self.ahead == 1;
        self.ahead = self.ahead.saturating_sub(1);
        fails
    }

    /// What stands in the connection.
    fn incoming(&self) -> &'a [u8] {
        let peers = self.peers;
        let Some(peer) = peers.get(self.peer) else {
            return &[];
        };
        let Some(text) = peer.says.get(self.text) else {
            return &[];
        };
        match text.get(self.taken..) {
            Some(rest) => rest,
            None => &[],
        }
    }

    /// Whether a text comes behind the one that stands there.
    fn has_more(&self) -> bool {
        match self.peers.get(self.peer) {
            Some(peer) => self.text.saturating_add(1) < peer.says.len(),
            None => false,
        }
    }

    /// Whether the stream ends behind what stands in the connection.
    fn ends(&self) -> bool {
        match self.peers.get(self.peer) {
            Some(peer) => peer.ends && !self.has_more(),
            None => true,
        }
    }

    /// The next text comes, where all before it has been received.
    fn hear_next(&mut self)
        ensures { self.new ≡ self.old }
    {
        if self.incoming().is_empty() && self.has_more() {
            self.text = self.text.saturating_add(1);
            self.taken = 0;
        }
    }

    /// One failure more.
    fn fault(&mut self) -> ChannelFault
        ensures { self.new ≡ with_failure self.old }
    {
        self.past.add(Passed::Failed);
        ChannelFault
    }

    /// Takes the next bytes out of the connection into the buffer, and gives how many.
    fn take(&mut self, buffer: &mut [u8]) -> Result<usize, ChannelFault>
        ensures bound { IfOk result (λ n. n ≤ length buffer.new) }
        ensures receives { Receives self.old self.new buffer.new result }
    {
        let incoming = self.incoming();
        let n = incoming.len().min(buffer.len());
        let now = &incoming[..n];
        buffer[..n].copy_from_slice(now);
        match self.received.extend_from_slice(now) {
            Ok(()) => {
                self.past.add_received(now);
                self.taken = self.taken.saturating_add(n);
                Ok(n)
            }
            Err(_) => Err(self.fault()),
        }
    }
}

impl<'a> Channel for MemoryChannel<'a> {
    ghost talk = { λ c. c };

    fn is_open(&self) -> bool {
        self.connected
    }

    fn send(&mut self, bytes: &[u8]) -> Result<usize, ChannelFault> {
        if self.next_fails() || !self.connected {
            return Err(self.fault());
        }
        let n = self.most.min(bytes.len());
        let now = &bytes[..n];
        match self.sent.extend_from_slice(now) {
            Ok(()) => {
                self.past.add_sent(now);
                self.hear_next();
                Ok(n)
            }
            Err(_) => Err(self.fault()),
        }
    }

    fn receive(&mut self, buffer: &mut [u8]) -> Result<usize, ChannelFault> {
        if self.next_fails() || !self.connected {
            return Err(self.fault());
        }
        if self.incoming().is_empty() && !self.ends() {
            return Err(self.fault());
        }
        self.take(buffer)
    }

    fn look(&mut self) -> Result<Incoming, ChannelFault> {
        if self.next_fails() || !self.connected {
            return Err(self.fault());
        }
        if !self.incoming().is_empty() {
            self.past.add(Passed::Strayed);
            return Ok(Incoming::Bytes);
        }
        if self.ends() {
            Ok(Incoming::End)
        } else {
            Ok(Incoming::Nothing)
        }
    }

    fn connect(&mut self) -> Result<(), ChannelFault> {
        self.connected = false;
        if self.next_fails() {
            return Err(self.fault());
        }
        if self.met >= self.peers.len() {
            return Err(self.fault());
        }
        self.peer = self.met;
        self.met += 1;
        self.text = 0;
        self.taken = 0;
        self.past.add(Passed::Connected);
        self.connected = true;
        Ok(())
    }

    fn close(&mut self) {
        self.connected = false;
    }
}
