//! A file that takes records.
ghost use Rattle.std.specs.Prelude.{◌≡◌, None, IfOk};

use crate::count::Count;
use crate::device::{Device, DeviceFault, bytes_taken};
use std::fs::{File, Files, OpenOptions};
use std::io;
use std::io::Write;
use std::marker::Model;

/// A file that was opened for appending. Each `put` is one write of the operating system. Each
/// write goes to the file's end, so records of several threads, each with a device of its own on
/// one file, don't mix where the system takes each record whole. Contracts see the number of its
/// failures; what lies in the file, no contract can say.
pub struct FileDevice {
    file: File,
    failed: Count,
}

/// Drops its parts. The proof stands here, once for all crates above.
impl Drop for FileDevice {
    fn drop(self) {
        let FileDevice { file: _, failed: _ } = self;
    }
}

impl Model for FileDevice {
    ghost use Rattle.std.specs.Prelude.{ℕ};

    ghost Value = { ℕ };

    ghost view = { λ d. d.failed };
}

impl FileDevice {
    /// Opens the file for appending, and makes it where there is none. `Err` is the operating
    /// system's.
    pub fn open<R: Files<File = File>>(files: &R, path: &str) -> io::Result<FileDevice>
        ensures { IfOk result (λ d. d ≡ 0) }
    {
        let file = OpenOptions::new()
            .append(true)
            .create(true)
            .open(files, path)?;
        Ok(FileDevice {
            file,
            failed: Count::new(),
        })
    }
}

impl Device for FileDevice {
    ghost taken = { λ d. None };

    ghost failures = { λ d. d };

    fn put(&mut self, bytes: &[u8]) -> Result<usize, DeviceFault> {
        let written = self.file.write(bytes);
        match bytes_taken(written, bytes.len()) {
            Some(n) => Ok(n),
            None => {
                self.failed.up();
                Err(DeviceFault)
            }
        }
    }

    /// Nothing is kept back: what a `put` took has been handed to the operating system. That it has
    /// reached the disk is not promised, since nothing is synced.
    fn push_out(&mut self) -> Result<(), DeviceFault> {
        match self.file.flush() {
            Ok(()) => Ok(()),
            Err(_) => {
                self.failed.up();
                Err(DeviceFault)
            }
        }
    }
}
