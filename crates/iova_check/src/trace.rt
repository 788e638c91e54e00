//! The lines of a kernel's trace, read.
ghost use Rattle.std.specs.Prelude.{◌≡◌, ℕ, ◌+◌, ◌<◌, ◌≤◌, List, [], ◌∷◌, ◌++◌, Some, None, IfSome, IfNone, IsTrue, length, codes};
ghost use Rattle.iova_check.specs.History.{IsRange, IsInReach};
ghost use Rattle.iova_check.specs.Trace.{word_at_front, from_blank, spaced_words, hex_digit, hex_from, hex_number, after, hex_after, decimal_digit, decimal_from, decimal_number, number_after, are_digits, are_digits_after, frames_of, frames_from, frames_within, frames_between, mapped_frames, unmapped_frames, paged_frames, is_other_domain, flush_at, flush_said, is_either, event_from, line_said, event_said, counts_lost, is_lost_behind, says_lost};

use crate::event::{Event, OtherLine};
use iova_range::limits::{FRAME_BYTES, MAX_TRACE_LINE};
use iova_range::range::Range;
use iova_text::words::first_word;
use memchr::{memmem, memrchr};

/// The last seven words of a line.
#[derive(Drop)]
struct Seven<'a> {
    name: &'a [u8],
    about: &'a [u8],
    a: &'a [u8],
    b: &'a [u8],
    c: &'a [u8],
    d: &'a [u8],
    e: &'a [u8],
}

/// What this line, which is without its LF, says. Flushes of this domain count, or of each.
pub fn read_trace_line(domain: Option<u64>, line: &[u8]) -> Event
    ensures said { result ≡ event_said domain line.now }
    ensures reach { IsInReach result }
{
    if line.len() >= MAX_TRACE_LINE {
        return Event::Other(OtherLine::TooLong);
    }
    line_said(domain, line)
}

/// What this line says, which is not too long.
fn line_said(domain: Option<u64>, line: &[u8]) -> Event
    ensures said { result ≡ line_said domain line.now }
    ensures reach { IsInReach result }
{
    if is_lost(line) {
        return Event::Other(OtherLine::Lost);
    }
    match seven_words(line) {
        Some(words) => event_of(domain, &words),
        None => Event::Other(OtherLine::Plain),
    }
}

/// Whether this line, which is without its LF, says that events were lost.
pub fn tells_lost(line: &[u8]) -> bool
    ensures lost { result ≡ says_lost line.now }
    ensures short { IsTrue result → length line.now < MAX_TRACE_LINE }
{
    line.len() < MAX_TRACE_LINE && is_lost(line)
}

/// Whether a kernel's trace may begin so: with tracefs' or trace-cmd's head, with an event, or with
/// the number of a processor.
pub fn is_of_trace(front: &[u8]) -> bool {
    front.starts_with(b"# tracer:")
        || front.starts_with(b"CPU")
        || front.starts_with(b"cpus=")
        || memmem::find(front, b"IOMMU: iova=0x").is_some()
        || memmem::find(front, b"qi_submit: ").is_some()
        || memmem::find(front, b" [00").is_some()
}

fn is_lost(line: &[u8]) -> bool
    ensures { result ≡ is_lost_behind (after (codes "CPU:") line.now) }
{
    match after(b"CPU:", line) {
        Some(bytes) => is_lost_on_one(bytes),
        None => false,
    }
}

/// Whether these bytes are the number of a processor, and how many events it lost.
fn is_lost_on_one(bytes: &[u8]) -> bool
    ensures { result ≡ is_lost_behind (Some bytes.now) }
{
    let (number, rest) = word_and_rest(bytes);
    are_digits(number) && counts_lost(rest)
}

fn counts_lost(rest: &[u8]) -> bool
    ensures { result ≡ counts_lost (after (codes " [LOST ") rest.now) }
{
    match after(b" [LOST ", rest) {
        Some(bytes) => is_count_of_events(bytes),
        None => false,
    }
}

fn is_count_of_events(bytes: &[u8]) -> bool
    ensures { result ≡ counts_lost (Some bytes.now) }
{
    let (count, end) = word_and_rest(bytes);
    are_digits(count) && end == b" EVENTS]".as_slice()
}

/// What stands before the first blank, and from it on.
fn word_and_rest(bytes: &[u8]) -> (&[u8], &[u8])
    ensures word { result.0.now ≡ word_at_front bytes.now }
    ensures rest { result.1.now ≡ from_blank bytes.now }
{
    first_word(bytes)
}

fn event_of(domain: Option<u64>, words: &Seven<'_>) -> Event
    ensures said { result ≡ event_from domain words.now.name.now words.now.about.now words.now.a.now
        words.now.b.now words.now.c.now
        words.now.d.now words.now.e.now }
    ensures reach { IsInReach result }
{
    if is_either(words.name, b"map:", b"iommu:map:") && words.about == b"IOMMU:".as_slice() {
        match mapped_frames(words) {
            Some(range) => Event::Map(range),
            None => Event::Other(OtherLine::Plain),
        }
    } else if is_either(words.name, b"unmap:", b"iommu:unmap:")
        && words.about == b"IOMMU:".as_slice()
    {
        match unmapped_frames(words) {
            Some(range) => Event::Unmap(range),
            None => Event::Other(OtherLine::Plain),
        }
    } else if is_either(words.name, b"qi_submit:", b"intel_iommu:qi_submit:")
        && words.about == b"iotlb_inv".as_slice()
    {
        flush_said(domain, words)
    } else {
        Event::Other(OtherLine::Plain)
    }
}

fn is_either(name: &[u8], short: &[u8], long: &[u8]) -> bool
    ensures { result ≡ is_either short.now long.now name.now }
{
    name == short || name == long
}

fn mapped_frames(words: &Seven<'_>) -> Option<Range>
    ensures is { result ≡ mapped_frames words.now.a.now words.now.b.now words.now.c.now
        words.now.d.now words.now.e.now }
    ensures reach { IfSome result (λ r. IsRange r) }
{
    let dash = words.b == b"-".as_slice();
    if dash && hex_after(b"paddr=0x", words.d).is_some() && are_digits_after(b"size=", words.e) {
        frames_of(words)
    } else {
        None
    }
}

fn unmapped_frames(words: &Seven<'_>) -> Option<Range>
    ensures is { result ≡ unmapped_frames words.now.a.now words.now.b.now words.now.c.now
        words.now.d.now words.now.e.now }
    ensures reach { IfSome result (λ r. IsRange r) }
{
    let dash = words.b == b"-".as_slice();
    if dash && hex_after(b"0x", words.c).is_some() && are_digits_after(b"size=", words.d) {
        frames_from(words)
    } else {
        None
    }
}

/// The frames of so many bytes as were unmapped, from the first one on.
fn frames_from(words: &Seven<'_>) -> Option<Range>
    ensures is { result ≡ frames_from (hex_after (codes "iova=0x") words.now.a.now)
        (number_after (codes "unmapped_size=") words.now.e.now) }
    ensures reach { IfSome result (λ r. IsRange r) }
{
    match (
        hex_after(b"iova=0x", words.a),
        number_after(b"unmapped_size=", words.e),
    ) {
        (Some(start), Some(size)) => frames_within(start, size),
        _ => None,
    }
}

fn frames_within(start: u64, size: u64) -> Option<Range>
    ensures is { result ≡ frames_within start size }
    ensures reach { IfSome result (λ r. IsRange r) }
{
    match start.checked_add(size) {
        Some(behind) => frames_between(start, behind),
        None => None,
    }
}

/// The frames between the first byte and the byte behind the last one.
fn frames_of(words: &Seven<'_>) -> Option<Range>
    ensures is { result ≡ frames_of (hex_after (codes "iova=0x") words.now.a.now)
        (hex_after (codes "0x") words.now.c.now) }
    ensures reach { IfSome result (λ r. IsRange r) }
{
    match (hex_after(b"iova=0x", words.a), hex_after(b"0x", words.c)) {
        (Some(start), Some(behind)) => frames_between(start, behind),
        _ => None,
    }
}

fn frames_between(start: u64, behind: u64) -> Option<Range>
    ensures is { result ≡ frames_between start behind }
    ensures reach { IfSome result (λ r. IsRange r) }
{
    if start < behind {
        let (lo, hi) = (start / FRAME_BYTES, (behind - 1) / FRAME_BYTES);
        Some(Range::new(lo, hi - lo + 1))
    } else {
        None
    }
}

fn flush_said(domain: Option<u64>, words: &Seven<'_>) -> Event
    ensures said { result ≡ flush_said domain words.now.b.now words.now.c.now words.now.d.now
        words.now.e.now }
    ensures reach { IsInReach result }
{
    if hex_after(b"0x", words.d).is_none() || hex_after(b"0x", words.e).is_none() {
        return Event::Other(OtherLine::Plain);
    }
    match (hex_after(b"0x", words.b), hex_after(b"0x", words.c)) {
        (Some(q0), Some(q1)) => flush_at(domain, q0 / 16 % 4, q0 / 65_536 % 65_536, q1),
        _ => Event::Other(OtherLine::Plain),
    }
}

fn flush_at(domain: Option<u64>, granularity: u64, number: u64, q1: u64) -> Event
    ensures said { result ≡ flush_at domain granularity number q1 }
    ensures reach { IsInReach result }
{
    if granularity == 1 {
        Event::Flush(None)
    } else if is_other_domain(domain, number) {
        Event::Other(OtherLine::Plain)
    } else if granularity == 2 {
        Event::Flush(None)
    } else if granularity == 3 {
        Event::Flush(Some(paged_frames(q1)))
    } else {
        Event::Other(OtherLine::Plain)
    }
}

fn is_other_domain(domain: Option<u64>, number: u64) -> bool
    ensures { result ≡ is_other_domain domain number }
{
    match domain {
        Some(domain) => domain != number,
        None => false,
    }
}

/// 2^n frames from a multiple of 2^n on.
fn paged_frames(q1: u64) -> Range
    ensures is { result ≡ paged_frames q1 }
    ensures reach { IsRange result }
{
    let len = 1u64 << (q1 % 64);
    let lo = q1 / FRAME_BYTES / len * len;
    Range::new(lo, len)
}

fn are_digits_after(prefix: &[u8], word: &[u8]) -> bool
    ensures { result ≡ are_digits_after prefix.now word.now }
{
    match after(prefix, word) {
        Some(digits) => are_digits(digits),
        None => false,
    }
}

pub(crate) fn are_digits(digits: &[u8]) -> bool
    ensures { result ≡ are_digits (Some digits.now) }
{
    if digits.is_empty() {
        return false;
    }
    for digit in digits {
        if !digit.is_ascii_digit() {
            return false;
        }
    }
    true
}

fn number_after(prefix: &[u8], word: &[u8]) -> Option<u64>
    ensures { result ≡ number_after prefix.now word.now }
{
    match after(prefix, word) {
        Some(digits) => decimal_number(digits),
        None => None,
    }
}

fn hex_after(prefix: &[u8], word: &[u8]) -> Option<u64>
    ensures { result ≡ hex_after prefix.now word.now }
{
    match after(prefix, word) {
        Some(digits) => hex_number(digits),
        None => None,
    }
}

/// What stands in the word behind these bytes.
fn after<'a>(prefix: &[u8], word: &'a [u8]) -> Option<&'a [u8]>
    ensures some { IfSome result (λ rest. after prefix.now word.now ≡ Some rest.now) }
    ensures none { IfNone result (after prefix.now word.now ≡ None) }
{
    if prefix.len() > word.len() {
        return None;
    }
    let (front, rest) = word.split_at(prefix.len());
    if front == prefix { Some(rest) } else { None }
}

/// A number of 1 to 16 digits.
fn hex_number(digits: &[u8]) -> Option<u64>
    ensures { result ≡ hex_number digits.now }
{
    if digits.is_empty() || digits.len() > 16 {
        return None;
    }
    hex_from(digits)
}

fn hex_from(digits: &[u8]) -> Option<u64>
    requires { length digits.now ≤ 16 }
    ensures { result ≡ hex_from (Some 0) digits.now }
{
    let mut value = 0u64;
    let mut rest = digits;
    while let Some((first, others)) = rest.split_first() {
        let digit = hex_digit(*first)?;
        value = value * 16 + u64::from(digit);
        rest = others;
    }
    Some(value)
}

fn hex_digit(byte: u8) -> Option<u8>
    ensures is { result ≡ hex_digit byte }
    ensures small { IfSome result (λ d. d < 16) }
{
    if b'0' <= byte && byte <= b'9' {
        Some(byte - b'0')
    } else if b'a' <= byte && byte <= b'f' {
        Some(byte - b'a' + 10)
    } else {
        None
    }
}

/// A number of 1 to 19 digits.
fn decimal_number(digits: &[u8]) -> Option<u64>
    ensures { result ≡ decimal_number digits.now }
{
    if digits.is_empty() || digits.len() > 19 {
        return None;
    }
    decimal_from(digits)
}

fn decimal_from(digits: &[u8]) -> Option<u64>
    requires { length digits.now ≤ 19 }
    ensures { result ≡ decimal_from (Some 0) digits.now }
{
    let mut value = 0u64;
    let mut rest = digits;
    while let Some((first, others)) = rest.split_first() {
        let digit = decimal_digit(*first)?;
        value = value * 10 + u64::from(digit);
        rest = others;
    }
    Some(value)
}

fn decimal_digit(byte: u8) -> Option<u8>
    ensures is { result ≡ decimal_digit byte }
    ensures small { IfSome result (λ d. d < 10) }
{
    if b'0' <= byte && byte <= b'9' {
        Some(byte - b'0')
    } else {
        None
    }
}

/// The last seven words that have a blank before them. None where there are fewer.
fn seven_words(line: &[u8]) -> Option<Seven<'_>>
    ensures some { IfSome result (λ w. (before : List (List ℕ))
        × (spaced_words line.now ≡ before ++ w.name.now ∷ w.about.now ∷ w.a.now
        ∷ w.b.now ∷ w.c.now ∷ w.d.now ∷ w.e.now ∷ [])) }
    ensures none { IfNone result (length (spaced_words line.now) < 7) }
{
    let Some((line, b, c, d, e)) = four_words(line) else {
        return None;
    };
    let Some((line, about, a)) = two_words(line) else {
        return None;
    };
    let Some((_, name)) = last_word(line) else {
        return None;
    };
    Some(Seven {
        name,
        about,
        a,
        b,
        c,
        d,
        e,
    })
}

fn four_words(line: &[u8]) -> Option<(&[u8], &[u8], &[u8], &[u8], &[u8])>
    ensures some { IfSome result (λ p. spaced_words line.now ≡ spaced_words p.0.now
        ++ p.1.now ∷ p.2.now ∷ p.3.now ∷ p.4.now ∷ []) }
    ensures none { IfNone result (length (spaced_words line.now) < 4) }
{
    let Some((line, c, d)) = two_words(line) else {
        return None;
    };
    let Some((line, a, b)) = two_words(line) else {
        return None;
    };
    Some((line, a, b, c, d))
}

fn two_words(line: &[u8]) -> Option<(&[u8], &[u8], &[u8])>
    ensures some { IfSome result
        (λ p. spaced_words line.now ≡ spaced_words p.0.now ++ p.1.now ∷ p.2.now ∷ []) }
    ensures none { IfNone result (length (spaced_words line.now) < 2) }
{
    let Some((line, b)) = last_word(line) else {
        return None;
    };
    let Some((line, a)) = last_word(line) else {
        return None;
    };
    Some((line, a, b))
}

/// The last word that has a blank before it, and what stands before that blank.
fn last_word(line: &[u8]) -> Option<(&[u8], &[u8])>
    ensures some { IfSome result
        (λ p. spaced_words line.now ≡ spaced_words p.0.now ++ p.1.now ∷ []) }
    ensures none { IfNone result (spaced_words line.now ≡ []) }
{
    match memrchr(b' ', line) {
        Some(blank) => Some((&line[..blank], &line[blank + 1..])),
        None => None,
    }
}
