//! Why a trace is not read or replayed to its end.
ghost use Rattle.std.specs.Prelude.{◌≡◌};
ghost use Rattle.iova_trace.specs.declared.fault.ReplayFault.TheVariants.{NoMemory as WantsMemory, ReadFault as CannotRead, WriteFault as CannotWrite};

use iova_text::{read, write};
use std::alloc::AllocError;
use thiserror::Error;

/// Why the bytes of a trace are not read or replayed to their end.
#[derive(Clone, Copy, Debug, PartialEq, Eq, Error)]
pub enum ReplayFault {
    /// The line with this number, counted from 1, is no line of a trace, or one too many.
    #[error("trace refused at line {0}")]
    BadTrace(u64),
    /// A growth was refused memory.
    #[error("no memory")]
    NoMemory,
    /// A read failed, or there were too many.
    #[error("the input cannot be read")]
    ReadFault,
    /// A write failed, or took nothing.
    #[error("the output cannot be written")]
    WriteFault,
}

impl From<AllocError> for ReplayFault {
    ghost from_gives = { λ _ e. e ≡ WantsMemory };

    fn from(_error: AllocError) -> ReplayFault {
        ReplayFault::NoMemory
    }
}

impl From<read::ReadFault> for ReplayFault {
    ghost from_gives = { λ _ e. e ≡ CannotRead };

    fn from(_fault: read::ReadFault) -> ReplayFault {
        ReplayFault::ReadFault
    }
}

impl From<write::WriteFault> for ReplayFault {
    ghost from_gives = { λ _ e. e ≡ CannotWrite };

    fn from(_fault: write::WriteFault) -> ReplayFault {
        ReplayFault::WriteFault
    }
}
