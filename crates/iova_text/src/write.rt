//! All bytes written, and flushed where that is wanted.
ghost use Rattle.std.specs.Prelude.{◌≡◌, ◌<◌, IfOk, OnOk, OnErr, IsOk, IsErr};
ghost use Rattle.std.specs.Io.KnownBytes.{Appends};
ghost use Rattle.iova_text.specs.Writing.{AppendsFront};

use std::io;
use std::io::Write;
use thiserror::Error;

/// A write failed, an interruption too, or took nothing; or the flush failed.
#[derive(Clone, Copy, Debug, PartialEq, Eq, Error)]
#[error("the output cannot be written")]
pub struct WriteFault;

/// Writes all bytes and flushes. A call that fails is not tried again. Refused where a call fails,
/// an interruption too, or a write takes nothing; some first bytes are written then.
pub fn write_all<W: Write>(writer: &mut W, bytes: &[u8]) -> Result<(), WriteFault>
    ensures ok { OnOk result (Appends (W.contents writer.old) (W.contents writer.new) bytes.now) }
    ensures err { OnErr result
        (AppendsFront (W.contents writer.old) (W.contents writer.new) bytes.now) }
{
    write_bytes(writer, bytes)?;
    flushed(writer.flush())
}

/// Writes all bytes, and leaves it to the writer when it hands them on. A call that fails is not
/// tried again. Refused where a write fails, an interruption too, or takes nothing; some first
/// bytes are written then.
pub fn write_bytes<W: Write>(writer: &mut W, bytes: &[u8]) -> Result<(), WriteFault>
    ensures ok { OnOk result (Appends (W.contents writer.old) (W.contents writer.new) bytes.now) }
    ensures err { OnErr result
        (AppendsFront (W.contents writer.old) (W.contents writer.new) bytes.now) }
{
    let mut done = 0;
    while done < bytes.len() {
        done += bytes_written(writer.write(&bytes[done..]))?;
    }
    Ok(())
}

/// How many bytes a write took. Any error is a fault, an interruption too, and so is none.
fn bytes_written(written: io::Result<usize>) -> Result<usize, WriteFault>
    ensures ok { IfOk result (λ len. (written ≡ Ok len) × (0 < len)) }
    ensures err { OnErr result (IfOk written (λ len. len ≡ 0)) }
{
    match written {
        Ok(len) if len > 0 => Ok(len),
        _ => Err(WriteFault),
    }
}

/// The result of a flush. Any error is a fault, an interruption too.
fn flushed(flushed: io::Result<()>) -> Result<(), WriteFault>
    ensures ok { OnOk result (IsOk flushed) }
    ensures err { OnErr result (IsErr flushed) }
{
    match flushed {
        Ok(()) => Ok(()),
        Err(_) => Err(WriteFault),
    }
}
