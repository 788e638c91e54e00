//! The file of a record, and files that are opened beside another one.
use crate::cause::tell_cause;
use iova_links::made_file::MadeFile;
use log::Log;
use std::fs::{File, OpenOptions};
use std::io::{ErrorKind, Seek, SeekFrom, Write};
use std::os::unix::fs::{FileTypeExt, MetadataExt};
use std::rt::Files;
use std::{fs, io};

/// What a notice says of a file that is one of the others.
const IN_USE: &str = "this run uses it already";

/// What a notice says of a record that would wait for a reader.
const FIFO: &str = "a FIFO can't take a record";

/// The file that a record is written to, open from a daemon's start to its end.
#[derive(Drop)]
pub struct RecordFile<'a> {
    path: &'a str,
    file: File,
    made: Option<MadeFile<'a>>,
}

impl<'a> RecordFile<'a> {
    /// The file at this path, with what stands in it. None, of which a notice says why, where it
    /// can't be opened for writing, is a FIFO, or is the plain file at one of the other paths.
    pub fn open<R: Files<File = File>, N: Log>(
        rt: &R,
        notices: &N,
        path: &'a str,
        others: &[&str],
    ) -> Option<RecordFile<'a>> {
        let is_new = fs::symlink_metadata(rt, path).is_err();
        match open_for_record(rt, path, others) {
            Ok(file) => {
                let made = if is_new { MadeFile::at(rt, path) } else { None };
                Some(RecordFile { path, file, made })
            }
            Err(error) => {
                tell_cause(notices, "open", path, &error);
                None
            }
        }
    }

    /// Removes it, where it was made here.
    pub fn undo<R: Files<File = File>>(&self, rt: &R) {
        if let Some(made) = &self.made {
            made.remove(rt);
        }
    }

    /// Writes this text, in place of what stands in the file. Whether all of it was written: else
    /// a notice says so.
    pub fn write<N: Log>(&mut self, notices: &N, text: &[u8]) -> bool {
        match rewritten(&mut self.file, text) {
            Ok(()) => true,
            Err(error) => {
                tell_cause(notices, "write", self.path, &error);
                false
            }
        }
    }
}

/// Opens the file for the record. A FIFO is refused: to open one would wait for a reader.
fn open_for_record<R: Files<File = File>>(rt: &R, path: &str, others: &[&str]) -> io::Result<File> {
    if let Ok(metadata) = fs::metadata(rt, path)
        && metadata.file_type().is_fifo()
    {
        return Err(io::Error::new(ErrorKind::InvalidInput, FIFO));
    }
    open_beside(rt, path, others)
}

/// The file at this path, open for writing, with what stands in it. It is made where there is
/// none. `AlreadyExists` where it is the plain file at one of the other paths.
pub fn open_beside<R: Files<File = File>>(rt: &R, path: &str, others: &[&str]) -> io::Result<File> {
    let file = OpenOptions::new().write(true).create(true).open(rt, path)?;
    for other in others {
        if is_at(rt, &file, other) {
            return Err(io::Error::new(ErrorKind::AlreadyExists, IN_USE));
        }
    }
    Ok(file)
}

/// Whether the same plain file stands at both paths; then a notice says so.
pub fn is_in_use<R: Files<File = File>, N: Log>(
    rt: &R,
    notices: &N,
    path: &str,
    other: &str,
) -> bool {
    let (Ok(this), Ok(that)) = (fs::metadata(rt, path), fs::metadata(rt, other)) else {
        return false;
    };
    let is_same = this.dev() == that.dev() && this.ino() == that.ino() && this.is_file();
    if is_same {
        tell_cause(
            notices,
            "open",
            path,
            &io::Error::new(ErrorKind::AlreadyExists, IN_USE),
        );
    }
    is_same
}

/// Whether this file is the plain one at this path.
fn is_at<R: Files<File = File>>(rt: &R, file: &File, path: &str) -> bool {
    let Ok(this) = file.metadata() else {
        return false;
    };
    match fs::metadata(rt, path) {
        Ok(that) => this.dev() == that.dev() && this.ino() == that.ino() && this.is_file(),
        Err(_) => false,
    }
}

/// Writes the text from the file's beginning on, and nothing stands behind it. What isn't a plain
/// file is only written to.
fn rewritten(file: &mut File, text: &[u8]) -> io::Result<()> {
    if file.metadata()?.is_file() {
        file.set_len(0)?;
        file.seek(SeekFrom::Start(0))?;
    }
    file.write_all(text)
}
