//! Why a line is no line of a log, in words.
ghost use Rattle.std.specs.Prelude.{◌≡◌, ◌≢◌, ◌<◌, ◌^◌, ℕ, IfSome, IsNone, IfNone, decimal};

use crate::trace::{are_digits, is_of_trace};
use iova_range::limits::{MAX_LINE, WIDE_TOP};
use iova_text::number::number;
use iova_text::words::{first_word, next_number, next_word, three_numbers, two_numbers};

/// Why a line is refused, or why nothing of a text can be read.
#[derive(Clone, Copy)]
pub enum Reason {
    /// There is no line.
    Empty,
    /// The text is compressed by xz.
    Xz,
    /// The text is compressed by gzip.
    Gzip,
    /// The text is a kernel's trace, and read as a log.
    KernelTrace,
    /// The text is a trace of steps.
    StepTrace,
    /// The line ends by CR and LF.
    Cr,
    /// The line is longer than any line of a log.
    TooLong,
    /// The text ends in the line, which has no LF.
    NoLf,
    /// The line has no byte but its LF.
    EmptyLine,
    /// A blank stands before the first word.
    BlankInFront,
    /// A blank stands behind the last word.
    BlankBehind,
    /// Two blanks stand side by side.
    TwoBlanks,
    /// The first line is no header.
    NoHeader,
    /// A header stands behind the first line.
    SecondHeader,
    /// A header has another number of words.
    HeaderWords,
    /// A header's version is not 1.
    Version,
    /// A header's first frame is 0.
    FirstIsZero,
    /// A header's first frame is above its last.
    FirstAboveLast,
    /// A header's last frame is above the greatest.
    LastTooHigh,
    /// The first word is none of a log's.
    UnknownWord,
    /// A range has another number of words.
    RangeWords,
    /// A `begin` has another number of words.
    BeginWords,
    /// An `end` has another number of words.
    EndWords,
    /// An `end` has another word than `ok` or `fail`.
    Outcome,
    /// A number has a zero in front.
    LeadingZero,
    /// A number has a sign.
    Sign,
    /// A number does not fit 64 bits.
    TooGreat,
    /// A word that is to be a number is none.
    NoNumber,
    /// A range has no frame.
    NoFrames,
    /// A range ends too high.
    EndsTooHigh,
}

impl Reason {
    /// The reason in words, at most 75 bytes.
    pub fn words(self) -> &'static str {
        match self {
            Reason::Empty => "the input is empty",
            Reason::Xz => "compressed: xz -dc FILE | iovad check -",
            Reason::Gzip => "compressed: gzip -dc FILE | iovad check -",
            Reason::KernelTrace => "this looks like a kernel's trace: use --ftrace",
            Reason::StepTrace => "a trace of steps, for iovad replay",
            Reason::Cr => "CR before LF",
            Reason::TooLong => "longer than 128 bytes with its LF",
            Reason::NoLf => "no LF at its end",
            Reason::EmptyLine => "an empty line",
            Reason::BlankInFront => "a blank in front",
            Reason::BlankBehind => "a blank at its end",
            Reason::TwoBlanks => "two blanks side by side",
            Reason::NoHeader => "the first line is not iovalog 1 FIRST LAST",
            Reason::SecondHeader => "a second header",
            Reason::HeaderWords => "iovalog takes three numbers: 1, a first and a last frame",
            Reason::Version => "the version is not 1",
            Reason::FirstIsZero => "the first frame is 0",
            Reason::FirstAboveLast => "the first frame is above the last",
            Reason::LastTooHigh => "the last frame is above 1099511627775",
            Reason::UnknownWord => "its first word is not map, unmap, use, begin or end",
            Reason::RangeWords => "map, unmap and use take a first frame and a number of frames",
            Reason::BeginWords =>
                "begin takes a flush, or a flush, a first frame and a number of frames",
            Reason::EndWords => "end takes a flush, and ok or fail",
            Reason::Outcome => "a flush ends ok or fail",
            Reason::LeadingZero => "a number has a leading zero",
            Reason::Sign => "a number has a sign",
            Reason::TooGreat => "a number is above 18446744073709551615",
            Reason::NoNumber => "a word is no number",
            Reason::NoFrames => "a range has no frame",
            Reason::EndsTooHigh => "a range does not end below frame 18446744073709551615",
        }
    }

    /// Whether the line's own text says more.
    pub fn has_text(self) -> bool {
        !matches!(self, Reason::Empty | Reason::Xz | Reason::Gzip)
    }
}

/// Why this line, which is without its LF and no header, is none.
pub fn why_no_header(line: &[u8]) -> Reason {
    if let Some(reason) = other_form(line) {
        return reason;
    }
    if line.len() >= MAX_LINE {
        return Reason::TooLong;
    }
    if let Some(reason) = bad_blanks(line) {
        return reason;
    }
    let (word, numbers) = first_word(line);
    if word != b"iovalog".as_slice() {
        return Reason::NoHeader;
    }
    if count_words(numbers) != 3 {
        return Reason::HeaderWords;
    }
    match bad_number(numbers) {
        Some(reason) => reason,
        None => why_no_bounds(numbers),
    }
}

/// Why these numbers are none of a header's.
fn why_no_bounds(numbers: &[u8]) -> Reason {
    let Some((version, first, last)) = three_numbers(numbers) else {
        return Reason::HeaderWords;
    };
    if version != 1 {
        Reason::Version
    } else if first == 0 {
        Reason::FirstIsZero
    } else if last > WIDE_TOP {
        Reason::LastTooHigh
    } else {
        Reason::FirstAboveLast
    }
}

/// Why this line, which is without its LF and behind a header, says nothing.
pub fn why_no_event(line: &[u8]) -> Reason {
    if line.len() >= MAX_LINE {
        return Reason::TooLong;
    }
    if let Some(reason) = bad_blanks(line) {
        return reason;
    }
    let (word, arguments) = first_word(line);
    let count = count_words(arguments);
    if word == b"map".as_slice() || word == b"unmap".as_slice() || word == b"use".as_slice() {
        if count != 2 {
            return Reason::RangeWords;
        }
        why_no_range(arguments)
    } else if word == b"begin".as_slice() {
        why_no_begin(arguments, count)
    } else if word == b"end".as_slice() {
        why_no_end(arguments, count)
    } else if word == b"iovalog".as_slice() {
        Reason::SecondHeader
    } else {
        Reason::UnknownWord
    }
}

/// Why these two words are no range.
fn why_no_range(text: &[u8]) -> Reason {
    if let Some(reason) = bad_number(text) {
        return reason;
    }
    match two_numbers(text) {
        Some((_, 0)) => Reason::NoFrames,
        _ => Reason::EndsTooHigh,
    }
}

/// Why these are no words behind a `begin`.
fn why_no_begin(text: &[u8], count: usize) -> Reason {
    if count != 1 && count != 3 {
        return Reason::BeginWords;
    }
    if let Some(reason) = bad_number(text) {
        return reason;
    }
    match next_number(text) {
        Some((_, range)) => why_no_range(range),
        None => Reason::BeginWords,
    }
}

/// Why these are no words behind an `end`.
fn why_no_end(text: &[u8], count: usize) -> Reason {
    if count != 2 {
        return Reason::EndWords;
    }
    let Some((word, _)) = next_word(text) else {
        return Reason::EndWords;
    };
    match number_fault(word) {
        Some(reason) => reason,
        None => Reason::Outcome,
    }
}

/// What the text is that begins so, where it is no log, and known.
pub fn other_form(front: &[u8]) -> Option<Reason> {
    if let Some(reason) = compressed(front) {
        return Some(reason);
    }
    if front.starts_with(b"iovatrace ") {
        Some(Reason::StepTrace)
    } else if is_of_trace(front) {
        Some(Reason::KernelTrace)
    } else {
        None
    }
}

/// What the text that begins so is compressed by: xz begins by `\xfd7zXZ\0`, gzip by `\x1f\x8b`.
pub fn compressed(front: &[u8]) -> Option<Reason> {
    if front.starts_with(b"\xfd7zXZ\0") {
        Some(Reason::Xz)
    } else if front.starts_with(b"\x1f\x8b") {
        Some(Reason::Gzip)
    } else {
        None
    }
}

/// Whether words are separated otherwise than by one blank.
fn bad_blanks(line: &[u8]) -> Option<Reason> {
    if line.ends_with(b"\r") {
        Some(Reason::Cr)
    } else if line.is_empty() {
        Some(Reason::EmptyLine)
    } else if line.starts_with(b" ") {
        Some(Reason::BlankInFront)
    } else if line.ends_with(b" ") {
        Some(Reason::BlankBehind)
    } else if has_two_blanks(line) {
        Some(Reason::TwoBlanks)
    } else {
        None
    }
}

fn has_two_blanks(line: &[u8]) -> bool {
    let mut was_blank = false;
    for byte in line {
        let is_blank = *byte == b' ';
        if is_blank && was_blank {
            return true;
        }
        was_blank = is_blank;
    }
    false
}

/// How many words there are, each with a blank before it.
fn count_words(text: &[u8]) -> usize {
    let mut count = 0usize;
    for byte in text {
        if *byte == b' ' {
            count = count.saturating_add(1);
        }
    }
    count
}

/// Why the first of the words that is no number is none; of three words at most.
fn bad_number(text: &[u8]) -> Option<Reason> {
    let Some((first, text)) = next_word(text) else {
        return None;
    };
    if let Some(reason) = number_fault(first) {
        return Some(reason);
    }
    let Some((second, text)) = next_word(text) else {
        return None;
    };
    if let Some(reason) = number_fault(second) {
        return Some(reason);
    }
    match next_word(text) {
        Some((third, _)) => number_fault(third),
        None => None,
    }
}

/// Why this word is no number of 64 bits. None exactly where it is one.
fn number_fault(word: &[u8]) -> Option<Reason>
    ensures none { IfNone result ((n : ℕ) × (word.now ≡ decimal n)) }
    ensures some { IfSome result (λ reason. (n : ℕ) → n < 2 ^ 64 → word.now ≢ decimal n) }
{
    match number(word) {
        Some(_) => None,
        None => Some(why_no_number(word)),
    }
}

fn why_no_number(word: &[u8]) -> Reason {
    if word.starts_with(b"-") || word.starts_with(b"+") {
        Reason::Sign
    } else if !are_digits(word) {
        Reason::NoNumber
    } else if word.starts_with(b"0") {
        Reason::LeadingZero
    } else {
        Reason::TooGreat
    }
}
