//! What takes the bytes of records.
ghost use Rattle.std.specs.Prelude.{◌≡◌, ◌<◌, ◌≤◌, ◌⊎◌, ℕ, List, Option, None, Ok, IfOk, IfSome, IsErr, length};
ghost use Rattle.std.specs.Io.KnownBytes.{WriteAppends, Keeps};
ghost use Rattle.iova_sink.specs.Counts.{CountsFailure};

use std::io;

/// The device failed.
#[derive(Clone, Copy, PartialEq, Eq, Debug)]
pub struct DeviceFault;

/// Takes bytes. Any error of the operating system is a failure, an interruption too, and so is a
/// call that takes none of a nonempty slice.
pub trait Device {
    /// The bytes that it took, where they are known.
    ghost taken: { Self → Option (List ℕ) };

    /// How many calls failed.
    ghost failures: { Self → ℕ };

    /// Takes a front of the bytes, at least one byte where there is one, and gives their number. A
    /// call that fails takes none.
    fn put(&mut self, bytes: &[u8]) -> Result<usize, DeviceFault>
        ensures bound { IfOk result (λ n. n ≤ length bytes.now) }
        ensures some { IfOk result (λ n. 0 < length bytes.now → 0 < n) }
        ensures bytes { WriteAppends (taken self.old) (taken self.new) result bytes.now }
        ensures failures { CountsFailure result (failures self.old) (failures self.new) };

    /// Hands on what the device itself kept back.
    fn push_out(&mut self) -> Result<(), DeviceFault>
        ensures bytes { Keeps (taken self.old) (taken self.new) }
        ensures failures { CountsFailure result (failures self.old) (failures self.new) };
}

/// How many bytes a write of `wanted` bytes took. None where it failed: any error of the operating
/// system is a failure, an interruption too, and so is a call that took none of some. Nothing is
/// tried again.
pub fn bytes_taken(written: io::Result<usize>, wanted: usize) -> Option<usize>
    ensures some { IfSome result (λ n. (written ≡ Ok n) × (n ≡ 0 → wanted ≡ 0)) }
    ensures none { result ≡ None → IsErr written ⊎ ((written ≡ Ok 0) × (0 < wanted)) }
{
    match written {
        Ok(n) if n > 0 || wanted == 0 => Some(n),
        _ => None,
    }
}
