//! How a session ends.

/// Why a session ended.
#[derive(Clone, Copy, Debug, PartialEq, Eq)]
pub enum End {
    /// The client asked `bye`.
    Bye,
    /// The link has ended.
    Closed,
    /// The link failed.
    LinkFault,
    /// A line is no request's, or 128 bytes have no LF.
    BadLine,
    /// A request or a read passed the limit: 65,536 requests, 1,048,576 reads.
    TooMany,
    /// A growth was refused.
    NoMemory,
}
