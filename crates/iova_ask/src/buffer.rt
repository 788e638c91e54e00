//! Bytes that were read and not yet used.
ghost use Rattle.std.specs.Prelude.{◌≡◌, ◌<◌, ◌≤◌, ◌++◌, [], IfOk, OnOk, OnErr, length, drop};
ghost use Rattle.iova_range.specs.declared.limits.TheConstants.{MAX_LINE};

use crate::fault::AskFault;
use iova_range::limits::MAX_LINE;
use iova_text::buffer::{LineBuffer, append, put};
use std::alloc::Global;
use std::marker::Model;

/// How many bytes one read asks for at most.
pub(crate) const PIECE: usize = 4096;

/// Bytes, in the order in which they came.
#[derive(Drop)]
pub(crate) struct Buffer {
    bytes: Vec<u8>,
    from: usize,
}

impl Model for Buffer {
    ghost use Rattle.std.specs.Prelude.{◌≤◌, ℕ, List, drop, vec_len};

    ghost Value = { List ℕ };

    ghost view = { λ b. drop b.from b.bytes.items };

    ghost invariant = { λ b. b.from ≤ vec_len b.bytes };
}

impl Buffer {
    /// No bytes, with room for what a read gives after a part of a line.
    pub(crate) fn new(alloc: Global) -> Result<Buffer, AskFault>
        ensures ok { IfOk result (λ b. b ≡ []) }
        ensures err { OnErr result (result ≡ Err AskFault.NoMemory) }
    {
        match Vec::with_capacity(alloc, MAX_LINE + PIECE) {
            Ok(bytes) => Ok(Buffer { bytes, from: 0 }),
            Err(_) => Err(AskFault::NoMemory),
        }
    }

    pub(crate) fn as_slice(&self) -> &[u8]
        ensures { result.now ≡ self.now }
    {
        &self.bytes.as_slice()[self.from..]
    }

    /// Uses up the first `n` bytes.
    pub(crate) fn pass(&mut self, n: usize)
        requires { n ≤ length self.old }
        ensures { self.new ≡ drop n self.old }
    {
        self.from += n;
    }

    /// Adds the piece after a part of a line.
    pub(crate) fn add(&mut self, piece: &[u8]) -> Result<(), AskFault>
        requires { length self.old < MAX_LINE }
        ensures ok { OnOk result (self.new ≡ self.old ++ piece.now) }
        ensures err { OnErr result (result ≡ Err AskFault.NoMemory) }
    {
        let mut kept = LineBuffer::new();
        put(&mut kept, self.as_slice());
        self.from = 0;
        self.bytes.clear();
        if append(&mut self.bytes, &kept).is_err() {
            return Err(AskFault::NoMemory);
        }
        match self.bytes.extend_from_slice(piece) {
            Ok(()) => Ok(()),
            Err(_) => Err(AskFault::NoMemory),
        }
    }
}
