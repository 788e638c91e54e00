//! What is printed beside the findings: why a line is refused, and what of a trace could not be
//! read. What fails is passed over: nobody is left to tell.
ghost use Rattle.std.specs.Prelude.{◌≡◌};

use crate::reason::{Reason, compressed, other_form};
use crate::trace::tells_lost;
use arrayvec::ArrayVec;
use iova_range::limits::{MAX_LINE, MAX_TRACE_LINE};
use iova_text::buffer::put_number;
use iova_text::write::write_all;
use std::io::Write;

/// Room for a notice, in bytes: of a line of 1,023, or of 128 bytes with each of them as four.
const ROOM: usize = 1_051;

/// A notice that is put together; what has no room in it is left out.
#[derive(Drop)]
struct Notice {
    text: ArrayVec<u8, ROOM>,
}

impl Notice {
    /// Of the line of this number.
    fn of_line(number: u64) -> Notice {
        let mut text: ArrayVec<u8, ROOM> = ArrayVec::new();
        let _fits = text.try_extend_from_slice(b"line ");
        if text.len() + 20 <= ROOM {
            put_number(&mut text, number);
        }
        let _fits = text.try_extend_from_slice(b": ");
        Notice { text }
    }

    fn put(&mut self, bytes: &[u8]) {
        let _fits = self.text.try_extend_from_slice(bytes);
    }

    /// The first 128 bytes in quotes, those that are no printed ASCII escaped.
    fn put_quoted(&mut self, bytes: &[u8]) {
        let front = &bytes[..bytes.len().min(MAX_LINE)];
        self.put(b"'");
        for byte in front.escape_ascii() {
            let _fits = self.text.try_push(byte);
        }
        self.put(b"'");
    }

    fn tell<N: Write>(self, notices: &mut N) {
        let mut text = self.text;
        let _fits = text.try_push(b'\n');
        let _told = write_all(notices, text.as_slice());
    }
}

/// Tells why the line of this number is refused, and the first 128 bytes of its text.
pub fn tell_refused<N: Write>(number: u64, reason: Reason, line: &[u8], notices: &mut N) {
    let mut notice = Notice::of_line(number);
    notice.put(reason.words().as_bytes());
    if reason.has_text() {
        notice.put(b": ");
        notice.put_quoted(line);
    }
    notice.tell(notices);
}

/// Tells that the line of this number, which begins with `kept` and goes on with `more`, is too
/// long for a log, or what its text is where it is the first one.
pub fn tell_overlong<N: Write>(number: u64, kept: &[u8], more: &[u8], notices: &mut N) {
    let mut front: ArrayVec<u8, MAX_TRACE_LINE> = ArrayVec::new();
    let _fits = front.try_extend_from_slice(kept);
    let room = MAX_TRACE_LINE - front.len();
    let _fits = front.try_extend_from_slice(&more[..room.min(more.len())]);
    let reason = match other_form(&front) {
        Some(reason) if number == 1 => reason,
        _ => Reason::TooLong,
    };
    tell_refused(number, reason, &front, notices);
}

/// Tells of a line of a trace, of which this is kept, that events were lost, that it is the first
/// one which is too long to be read, or, at line 1, that the text is no trace as it stands.
pub fn tell_of_trace<N: Write>(number: u64, line: &[u8], longs: u64, notices: &mut N) {
    if number == 1 {
        tell_no_trace(line, notices);
    }
    if tells_lost(line) {
        let mut notice = Notice::of_line(number);
        notice.put(line);
        notice.tell(notices);
    }
    if line.len() >= MAX_TRACE_LINE && longs == 0 {
        let mut notice = Notice::of_line(number);
        notice.put(b"longer than 1024 bytes with its LF, and not read");
        notice.tell(notices);
    }
}

/// Tells that a text which begins with this line is no trace as it stands.
fn tell_no_trace<N: Write>(line: &[u8], notices: &mut N) {
    let words: &[u8] = match compressed(line) {
        Some(Reason::Xz) => b"compressed: xz -dc FILE | iovad check --ftrace -",
        Some(_) => b"compressed: gzip -dc FILE | iovad check --ftrace -",
        None if line.starts_with(b"iovalog ") => b"this looks like a log: leave out --ftrace",
        None if line.ends_with(b"\r") => b"CR before LF",
        None => return,
    };
    let mut notice = Notice::of_line(1);
    notice.put(words);
    notice.tell(notices);
}
