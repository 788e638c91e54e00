//! Why regions are not read.
use thiserror::Error;

/// Why the regions of a text are not read to its end.
#[derive(Clone, Copy, Debug, PartialEq, Eq, Error)]
pub enum RegionsFault {
    /// The line with this number, counted from 1, is none of a region, or its region would make a
    /// 65th window.
    #[error("reserved regions refused at line {0}")]
    Line(u64),
    /// A growth was refused memory.
    #[error("no memory")]
    NoMemory,
    /// A read failed.
    #[error("the reserved regions cannot be read")]
    Read,
}
