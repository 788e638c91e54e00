//! Requests asked by hand, at a terminal: a prompt before each line, and beside a refusal what it
//! means.
ghost use Rattle.std.specs.Prelude.{List, Option, ℕ};
ghost use Rattle.iova_ask.specs.Asking.{Sends};

use crate::ask_lines;
use crate::fault::AskFault;
use crate::meaning::meaning_of;
use iova_session::link::Link;
use iova_text::line::cut_line;
use std::io;
use std::io::{Read, Write};
use std::rt::Runtime;
use std::str::from_utf8;

/// What stands before a line that is typed.
const PROMPT: &[u8] = b"> ";

/// Asks the lines that are typed on standard input over the link, and shows their answers, as
/// `ask_lines` does; with a prompt before each line, and behind a refusal what it means. Gives the
/// number of lines sent. Refused as `ask_lines` is; a prompt that can't be written counts as a read
/// that fails.
pub fn ask_by_hand<R: Runtime + AllocGlobal, L: Link>(rt: &R, link: &mut L) -> Result<u64, AskFault>
    ensures { (typed : List ℕ) × (left : Option (List ℕ))
        × Sends typed left (L.sent link.old) (L.sent link.new) result }
{
    let mut lines = Prompted::new(rt.reader(), io::writer(rt));
    let mut shown = Explained::new(io::writer(rt));
    ask_lines(rt.alloc(), &mut lines, &mut shown, link)
}

/// A reader of lines that are typed, with a prompt on the writer before each of them. A contract
/// sees nothing of it.
#[derive(Drop)]
struct Prompted<R, W> {
    reader: R,
    writer: W,
    is_in_line: bool,
}

impl<R, W> Prompted<R, W> {
    /// Lines of this reader, with prompts on this writer.
    fn new(reader: R, writer: W) -> Prompted<R, W> {
        Prompted {
            reader,
            writer,
            is_in_line: false,
        }
    }
}

/// At its end the prompt's line is ended.
impl<R: Read, W: Write> Read for Prompted<R, W> {
    fn read(&mut self, buf: &mut [u8]) -> io::Result<usize> {
        if !self.is_in_line {
            self.writer.write_all(PROMPT)?;
            self.writer.flush()?;
        }
        let len = self.reader.read(buf)?;
        if len == 0 {
            self.writer.write_all(b"\n")?;
            return Ok(0);
        }
        self.is_in_line = buf[len - 1] != b'\n';
        Ok(len)
    }
}

/// A writer of answers that adds what a refusal means. Lines are given to it whole, one or several
/// at a time. A contract sees nothing of it.
#[derive(Drop)]
struct Explained<W> {
    writer: W,
}

impl<W> Explained<W> {
    /// Answers on this writer.
    fn new(writer: W) -> Explained<W> {
        Explained { writer }
    }
}

impl<W: Write> Write for Explained<W> {
    fn write(&mut self, buf: &[u8]) -> io::Result<usize> {
        let Some((line, rest)) = cut_line(buf) else {
            return self.writer.write(buf);
        };
        self.writer.write_all(line)?;
        if let Ok(refusal) = from_utf8(line)
            && let Some(meaning) = meaning_of(refusal)
        {
            self.writer.write_all(b": ")?;
            self.writer.write_all(meaning.as_bytes())?;
        }
        self.writer.write_all(b"\n")?;
        Ok(buf.len() - rest.len())
    }

    fn flush(&mut self) -> io::Result<()> {
        self.writer.flush()
    }
}
