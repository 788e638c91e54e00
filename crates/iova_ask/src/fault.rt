//! Why asking ends early.
use thiserror::Error;

/// Why asking ended early.
#[derive(Clone, Copy, Debug, PartialEq, Eq, Error)]
pub enum AskFault {
    /// The input can't be read, has a line of more than 128 bytes, or takes more than 134,217,728
    /// reads.
    #[error("the input cannot be read")]
    Read,
    /// The answers can't be written.
    #[error("the answers cannot be written")]
    Write,
    /// The link failed, has an answer's line of more than 128 bytes, or ended before an answer was
    /// whole.
    #[error("the link failed")]
    Link,
    /// A growth was refused.
    #[error("no memory")]
    NoMemory,
}
