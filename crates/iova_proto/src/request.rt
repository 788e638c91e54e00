//! What a line asks.

/// What a line asks of a session. Frames and domains are numbers of 64 bits.
#[derive(Clone, Copy, Debug, Default, PartialEq, Eq)]
pub enum Request {
    /// `hello iova1 <domain> sac` or `hello iova1 <domain> dac`: opens a client in the domain,
    /// which asks below 4 GiB first where it is `sac`.
    Hello { domain: u64, sac: bool },
    /// `alloc <frames> <limit>`: a range of so many frames, its last one not above the limit.
    Alloc { frames: u64, limit: u64 },
    /// `free <lo>`: gives back the range that begins at this frame.
    Free { lo: u64 },
    /// `list`: what the client holds.
    List,
    /// `flush`: runs a flush, and empties the rings as far as it covers them.
    Flush,
    /// `stat`: what the domain holds, in numbers.
    Stat,
    /// `bye`: ends the session.
    #[default]
    Bye,
}
