//! One read, and its result.
ghost use Rattle.std.specs.Prelude.{◌≡◌, ◌<◌, ◌≤◌, take, length, IfOk, OnErr, IsErr};
ghost use Rattle.std.specs.Io.KnownBytes.{Consumes, Keeps, IsAtEnd};

use std::io;
use std::io::Read;
use thiserror::Error;

/// A read failed, an interruption too.
#[derive(Clone, Copy, Debug, PartialEq, Eq, Error)]
#[error("the input cannot be read")]
pub struct ReadFault;

/// Reads once, and gives how many bytes came, none only at the end. Refused where the read fails,
/// an interruption too; it is not tried again.
pub fn read_some<R: Read>(reader: &mut R, buffer: &mut [u8]) -> Result<usize, ReadFault>
    requires { 0 < length buffer.old }
    ensures ok { IfOk result (λ len. Consumes (R.remaining reader.old) (R.remaining reader.new)
        (take len buffer.new)) }
    ensures bound { IfOk result (λ len. len ≤ length buffer.new) }
    ensures end { IfOk result (λ len. len ≡ 0 → IsAtEnd (R.remaining reader.new)) }
    ensures err { OnErr result (Keeps (R.remaining reader.old) (R.remaining reader.new)) }
{
    bytes_read(reader.read(buffer))
}

/// How many bytes a read gave. Any error is a fault, an interruption too.
pub fn bytes_read(read: io::Result<usize>) -> Result<usize, ReadFault>
    ensures ok { IfOk result (λ len. read ≡ Ok len) }
    ensures err { OnErr result (IsErr read) }
{
    match read {
        Ok(len) => Ok(len),
        Err(_) => Err(ReadFault),
    }
}
