//! A connection to a peer that answers.
ghost use Rattle.std.specs.Prelude.{◌≡◌, ◌<◌, ◌≤◌, [], IfOk, length};
ghost use Rattle.iova_sink.specs.Channels.{Talk, Sends, Receives, Looks, Connects, without_connection};

/// The channel failed.
#[derive(Clone, Copy, PartialEq, Eq, Debug)]
pub struct ChannelFault;

/// What stands in a connection.
#[derive(Clone, Copy, PartialEq, Eq, Debug)]
pub enum Incoming {
    /// Nothing: a peer that is quiet.
    Nothing,
    /// Bytes that the peer has sent.
    Bytes,
    /// The end of the stream.
    End,
}

/// A stream of bytes to a peer and one back, over one connection at a time. Any error of the
/// operating system is a failure, an interruption and a time-out too; nothing is tried again.
/// Without a connection all calls but `connect` and `close` fail.
pub trait Channel {
    ghost use Rattle.iova_sink.specs.Channels.{Talk};

    /// What passed over it: the bytes that were sent and received, the connections that were made,
    /// the calls that failed and the looks that found bytes, one behind the other; what of it was
    /// received ahead of the call that hands it on; and whether there is a connection.
    ghost talk: { Self → Talk };

    /// Whether there is a connection.
    fn is_open(&self) -> bool
        ensures { result ≡ (talk self.now).connected };

    /// Sends a front of the bytes, at least one byte where there is one, and gives their number. A
    /// call that fails sends none.
    fn send(&mut self, bytes: &[u8]) -> Result<usize, ChannelFault>
        ensures bound { IfOk result (λ n. n ≤ length bytes.now) }
        ensures some { IfOk result (λ n. 0 < length bytes.now → 0 < n) }
        ensures sends { Sends (talk self.old) (talk self.new) bytes.now result };

    /// Receives some bytes into the front of the buffer, which has room, and gives their number: 0
    /// says that the stream has ended.
    fn receive(&mut self, buffer: &mut [u8]) -> Result<usize, ChannelFault>
        requires { 0 < length buffer.old }
        ensures bound { IfOk result (λ n. n ≤ length buffer.new) }
        ensures receives { Receives (talk self.old) (talk self.new) buffer.new result }
        ensures end { IfOk result (λ n. n ≡ 0 → (talk self.old).ahead ≡ []) };

    /// Looks what stands in the connection, without waiting. Where it is `Bytes`, the connection is
    /// good for nothing but to be closed: some of them may be lost.
    fn look(&mut self) -> Result<Incoming, ChannelFault>
        ensures { Looks (talk self.old) (talk self.new) result };

    /// Connects anew, in place of a connection that there is.
    fn connect(&mut self) -> Result<(), ChannelFault>
        ensures { Connects (talk self.old) (talk self.new) result };

    /// Closes the connection, where there is one.
    fn close(&mut self)
        ensures { talk self.new ≡ without_connection (talk self.old) };
}
