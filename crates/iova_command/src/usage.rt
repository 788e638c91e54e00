//! Words that are not understood, or that ask for help.
ghost use Rattle.std.specs.Prelude.{◌≡◌};

use clap::Error;
use clap::error::ErrorKind;
use std::alloc::AllocError;
use std::marker::Model;
use std::{fmt, io};

/// The text for whoever wrote the words: what is wrong with them and the usage, or the help that
/// they ask for. A contract sees the status that the process ends with.
#[derive(Drop)]
pub struct Usage {
    error: Error,
}

impl Model for Usage {
    ghost use Rattle.std.specs.Prelude.{ℕ};
    ghost use Rattle.clap.specs.Values.{kind_of};
    ghost use Rattle.iova_command.specs.Usage.{words_status};

    ghost Value = { ℕ };

    ghost view = { λ u. words_status (kind_of u.error) };
}

impl Usage {
    /// The status that the process ends with: 0 where the words ask for help, 2 where they are not
    /// understood.
    pub fn status(&self) -> u8
        ensures { result ≡ self.now }
    {
        if self.error.use_stderr() { 2 } else { 0 }
    }

    /// Prints help on standard output, and what is wrong on standard error.
    pub fn print<R: Print + Eprint>(&self, rt: &R) -> io::Result<()> {
        self.error.print(rt)
    }
}

impl fmt::Display for Usage {
    fn fmt<W: fmt::Write>(&self, f: &mut fmt::Formatter<W>) -> fmt::Result {
        write!(f, "{}", self.error)
    }
}

/// Why words ask for nothing that can be done.
#[derive(Drop)]
pub enum WordsFault {
    /// They are not understood, or ask for help.
    Usage(Usage),
    /// A growth was refused memory.
    NoMemory,
}

/// Words that could not be read for want of memory are reported as such.
impl From<Error> for WordsFault {
    ghost use Rattle.std.specs.Prelude.{◌≡◌, ◌≢◌};
    ghost use Rattle.clap.specs.Values.{kind_of};
    ghost use Rattle.clap.specs.declared.error.kind.ErrorKind.TheVariants.{OutOfMemory};
    ghost use Rattle.iova_command.specs.Usage.{words_status};
    ghost use Rattle.iova_command.specs.declared.usage.WordsFault.TheVariants.{Usage as IsUsage, NoMemory};

    ghost from_gives = { λ error fault. (kind_of error ≡ OutOfMemory → fault ≡ NoMemory)
        × (kind_of error ≢ OutOfMemory → fault ≡ IsUsage (words_status (kind_of error))) };

    fn from(error: Error) -> WordsFault {
        if error.kind() == ErrorKind::OutOfMemory {
            WordsFault::NoMemory
        } else {
            WordsFault::Usage(Usage { error })
        }
    }
}

impl From<AllocError> for WordsFault {
    ghost use Rattle.std.specs.Prelude.{◌≡◌};
    ghost use Rattle.iova_command.specs.declared.usage.WordsFault.TheVariants.{NoMemory};

    ghost from_gives = { λ _ fault. fault ≡ NoMemory };

    fn from(_error: AllocError) -> WordsFault {
        WordsFault::NoMemory
    }
}
