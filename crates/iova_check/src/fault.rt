//! Why a log is not checked to its end.
ghost use Rattle.std.specs.Prelude.{◌≡◌};
ghost use Rattle.iova_check.specs.declared.fault.CheckFault.TheVariants.{NoMemory as WantsMemory, ReadFault as CannotRead, WriteFault as CannotWrite};

use iova_text::{read, write};
use std::alloc::AllocError;
use thiserror::Error;

/// Why the bytes of a log are not checked to their end.
#[derive(Clone, Copy, Debug, Error)]
pub enum CheckFault {
    /// The line with this number, counted from 1, is no line of a log.
    #[error("log refused at line {0}")]
    BadLog(u64),
    /// A growth was refused memory.
    #[error("no memory")]
    NoMemory,
    /// A read failed, or there were too many.
    #[error("the input cannot be read")]
    ReadFault,
    /// A write failed, or took nothing.
    #[error("the output cannot be written")]
    WriteFault,
}

impl From<AllocError> for CheckFault {
    ghost from_gives = { λ _ e. e ≡ WantsMemory };

    fn from(_error: AllocError) -> CheckFault {
        CheckFault::NoMemory
    }
}

impl From<read::ReadFault> for CheckFault {
    ghost from_gives = { λ _ e. e ≡ CannotRead };

    fn from(_fault: read::ReadFault) -> CheckFault {
        CheckFault::ReadFault
    }
}

impl From<write::WriteFault> for CheckFault {
    ghost from_gives = { λ _ e. e ≡ CannotWrite };

    fn from(_fault: write::WriteFault) -> CheckFault {
        CheckFault::WriteFault
    }
}
