//! A log's lines, read.
ghost use Rattle.std.specs.Prelude.{◌≡◌, ◌≢◌, ℕ, ◌+◌, ◌≤◌, ◌<◌, ◌↔◌, Bool, [], ◌∷◌, ◌++◌, Some, None, Option, IsSome, IfSome, IsNone};
ghost use Rattle.iova_range.specs.Frames.{Frames};
ghost use Rattle.iova_check.specs.declared.event.Event.{Event};
ghost use Rattle.iova_check.specs.declared.line.LogVerb.{LogVerb};
ghost use Rattle.iova_text.specs.Words.{spaced_words};
ghost use Rattle.iova_check.specs.History.{IsRange, IsScope};
ghost use Rattle.iova_check.specs.Text.{verb_text, verb_of, outcome_text, range_words, scope_words, arguments_of, event_text, header_text, header_words, IsEvent, IsHeader};

use crate::event::Event;
use iova_range::limits::WIDE_TOP;
use iova_range::range::Range;
use iova_text::words::{first_word, next_number, three_numbers, two_numbers};

/// The first word of a line that is not the header.
#[derive(Clone, Copy)]
pub enum LogVerb {
    /// `map <lo> <len>`.
    Map,
    /// `unmap <lo> <len>`.
    Unmap,
    /// `use <lo> <len>`.
    Use,
    /// `begin <no>` or `begin <no> <lo> <len>`.
    Begin,
    /// `end <no> ok` or `end <no> fail`.
    End,
}

/// What the first line of a log says: the first and the last frame that may be mapped.
#[derive(Clone, Copy)]
pub struct LogHeader {
    /// The first frame, at least 1.
    pub first: u64,
    /// The last frame, at least the first and at most 2^40 - 1.
    pub last: u64,
}

/// What this line, which is without its LF, says. None exactly where it is no line of a log, or its
/// header.
pub fn read_event(line: &[u8]) -> Option<Event>
    ensures spelled { IfSome result (λ e. IsEvent e × (line.now ≡ event_text e)) }
    ensures read { (e : Event) → IsEvent e → line.now ≡ event_text e → result ≡ Some e }
    ensures all { IsNone result → (e : Event) → IsEvent e → line.now ≢ event_text e }
{
    let (word, arguments) = first_word(line);
    match verb_named(word) {
        Some(verb) => event_of(verb, arguments),
        None => None,
    }
}

/// The header of this line, which is without its LF: `iovalog 1 <first> <last>`. None exactly where
/// the line is no header's, also where the bounds are not in order, or not 1 to 2^40 - 1.
pub fn read_header(line: &[u8]) -> Option<LogHeader>
    ensures spelled { IfSome result (λ h. IsHeader h.first h.last
        × (line.now ≡ header_text h.first h.last)) }
    ensures read { (first last : ℕ) → IsHeader first last → line.now ≡ header_text first last
        → result ≡ Some (record { first = first; last = last }) }
    ensures all { IsNone result → (first last : ℕ) → IsHeader first last
        → line.now ≢ header_text first last }
{
    let (word, numbers) = first_word(line);
    if word != b"iovalog".as_slice() {
        return None;
    }
    let Some((version, first, last)) = three_numbers(numbers) else {
        return None;
    };
    if version != 1 || first == 0 || first > last || last > WIDE_TOP {
        return None;
    }
    Some(LogHeader { first, last })
}

fn verb_named(word: &[u8]) -> Option<LogVerb>
    ensures spelled { IfSome result (λ v. word.now ≡ verb_text v) }
    ensures all { IsNone result → (v : LogVerb) → word.now ≢ verb_text v }
{
    if word == b"map".as_slice() {
        Some(LogVerb::Map)
    } else if word == b"unmap".as_slice() {
        Some(LogVerb::Unmap)
    } else if word == b"begin".as_slice() {
        Some(LogVerb::Begin)
    } else if word == b"end".as_slice() {
        Some(LogVerb::End)
    } else if word == b"use".as_slice() {
        Some(LogVerb::Use)
    } else {
        None
    }
}

fn event_of(verb: LogVerb, arguments: &[u8]) -> Option<Event>
    ensures spelled { IfSome result (λ e. (verb_of e ≡ Some verb)
        × (arguments.now ≡ spaced_words (arguments_of e))) }
    ensures good { IfSome result (λ e. IsEvent e) }
    ensures read { (e : Event) → IsEvent e → verb_of e ≡ Some verb
        → arguments.now ≡ spaced_words (arguments_of e)
        → result ≡ Some e }
{
    match verb {
        LogVerb::Map => match range_of(arguments) {
            Some(range) => Some(Event::Map(range)),
            None => None,
        },
        LogVerb::Unmap => match range_of(arguments) {
            Some(range) => Some(Event::Unmap(range)),
            None => None,
        },
        LogVerb::Use => match range_of(arguments) {
            Some(range) => Some(Event::Use(range)),
            None => None,
        },
        LogVerb::Begin => {
            let Some((no, scope)) = next_number(arguments) else {
                return None;
            };
            match scope_of(scope) {
                Some(range) => Some(Event::Begin { no, range }),
                None => None,
            }
        }
        LogVerb::End => {
            let Some((no, outcome)) = next_number(arguments) else {
                return None;
            };
            match outcome_of(outcome) {
                Some(ok) => Some(Event::End { no, ok }),
                None => None,
            }
        }
    }
}

/// A range of at least one frame, which ends below frame 2^64 - 1.
fn range_of(text: &[u8]) -> Option<Range>
    ensures spelled { IfSome result (λ r. IsRange r × (text.now ≡ spaced_words (range_words r))) }
    ensures read { (r : Frames) → IsRange r → text.now ≡ spaced_words (range_words r)
        → result ≡ Some r }
{
    let (lo, len) = two_numbers(text)?;
    if len == 0 || len > u64::MAX - lo {
        return None;
    }
    Some(Range::new(lo, len))
}

/// Nothing, or a range.
fn scope_of(text: &[u8]) -> Option<Option<Range>>
    ensures spelled { IfSome result (λ s. IsScope s × (text.now ≡ spaced_words (scope_words s))) }
    ensures read { (s : Option Frames) → IsScope s → text.now ≡ spaced_words (scope_words s)
        → result ≡ Some s }
{
    if text.is_empty() {
        return Some(None);
    }
    match range_of(text) {
        Some(range) => Some(Some(range)),
        None => None,
    }
}

fn outcome_of(text: &[u8]) -> Option<bool>
    ensures spelled { IfSome result (λ ok. text.now ≡ spaced_words (outcome_text ok ∷ [])) }
    ensures read { (ok : Bool) → text.now ≡ spaced_words (outcome_text ok ∷ []) → result ≡ Some ok }
{
    if text == b" ok".as_slice() {
        Some(true)
    } else if text == b" fail".as_slice() {
        Some(false)
    } else {
        None
    }
}
