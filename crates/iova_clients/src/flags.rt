//! What a step asks of a client before it looks at a holding.

/// The two marks of a client.
#[derive(Clone, Copy, Debug, PartialEq, Eq)]
pub struct ClientFlags {
    /// Whether it is first sought a place below 4 GiB.
    pub sac: bool,
    /// Whether it is closing.
    pub closing: bool,
}
