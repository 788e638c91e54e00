//! What a session reads from and writes to.
ghost use Rattle.std.specs.Prelude.{◌≡◌, ◌+◌, ◌<◌, ◌≤◌, ℕ, List, Option, Ok, IfOk, OnErr, OnOk, length};
ghost use Rattle.iova_sink.specs.Counts.{CountsFailure};
ghost use Rattle.std.specs.Io.KnownBytes.{Appends, ReadConsumes, WriteAppends};
ghost use Rattle.iova_text.specs.Writing.{AppendsFront};
ghost use Rattle.iova_session.specs.Links.{CountsEnds};

use thiserror::Error;

/// The link failed.
#[derive(Clone, Copy, Debug, PartialEq, Eq, Error)]
#[error("the link failed")]
pub struct LinkFault;

/// A stream of bytes in each direction. Any error of the operating system is a failure, an
/// interruption too, and so is a write that takes none of a nonempty slice.
pub trait Link {
    /// The bytes that are still to be read, where they are known.
    ghost left: { Self → Option (List ℕ) };

    /// The bytes that were written, where they are known.
    ghost sent: { Self → Option (List ℕ) };

    /// The number of calls: a link without one is unused.
    ghost calls: { Self → ℕ };

    /// How many reads there were.
    ghost reads: { Self → ℕ };

    /// How many calls failed.
    ghost failures: { Self → ℕ };

    /// How many reads found the end.
    ghost ends: { Self → ℕ };

    /// Reads bytes into a front of `buf`, and gives their number. 0 bytes for a nonempty `buf` are
    /// the end. A call that fails reads none.
    fn read(&mut self, buf: &mut [u8]) -> Result<usize, LinkFault>
        ensures bound { IfOk result (λ n. n ≤ length buf.old) }
        ensures bytes { ReadConsumes (left self.old) (left self.new) result buf.new }
        ensures calls { calls self.new ≡ calls self.old + 1 }
        ensures reads { reads self.new ≡ reads self.old + 1 }
        ensures failures { CountsFailure result (failures self.old) (failures self.new) }
        ensures ends { CountsEnds result (length buf.old) (ends self.old) (ends self.new) }
        ensures sent { sent self.new ≡ sent self.old };

    /// Writes a front of the bytes, at least one byte where there is one, and gives their number. A
    /// call that fails writes none.
    fn write(&mut self, bytes: &[u8]) -> Result<usize, LinkFault>
        ensures bound { IfOk result (λ n. n ≤ length bytes.now) }
        ensures some { IfOk result (λ n. 0 < length bytes.now → 0 < n) }
        ensures bytes { WriteAppends (sent self.old) (sent self.new) result bytes.now }
        ensures failures { CountsFailure result (failures self.old) (failures self.new) }
        ensures left { left self.new ≡ left self.old }
        ensures calls { calls self.new ≡ calls self.old + 1 }
        ensures reads { reads self.new ≡ reads self.old }
        ensures ends { ends self.new ≡ ends self.old };
}

/// Writes all of the bytes, going on after short counts.
pub fn put_all<L: Link>(link: &mut L, bytes: &[u8]) -> Result<(), LinkFault>
    ensures left { L.left link.new ≡ L.left link.old }
    ensures reads { L.reads link.new ≡ L.reads link.old }
    ensures ends { L.ends link.new ≡ L.ends link.old }
    ensures failures { CountsFailure result (L.failures link.old) (L.failures link.new) }
    ensures ok { OnOk result (Appends (L.sent link.old) (L.sent link.new) bytes.now) }
    ensures err { OnErr result (AppendsFront (L.sent link.old) (L.sent link.new) bytes.now) }
{
    let mut done = 0;
    while done < bytes.len() {
        done += link.write(&bytes[done..])?;
    }
    Ok(())
}
