//! A line read as a request.
ghost use Rattle.std.specs.Prelude.{◌≡◌, ℕ, Bool, [], ◌++◌, Some, Ok, IfSome, IfOk, OnErr, codes};
ghost use Rattle.iova_text.specs.Words.{spaced_words};
ghost use Rattle.iova_proto.specs.declared.request.Request.{Request as R};
ghost use Rattle.iova_proto.specs.Requests.{request_verb, request_arguments, request_line, request_text, IsRequest, IsSpelledBy, Spells};

use crate::request::Request;
use iova_text::words::{
    first_word, kind_of, next_number, next_short, next_word, one_number, two_numbers,
};
use thiserror::Error;

/// The line is no request's.
#[derive(Clone, Copy, Debug, PartialEq, Eq, Error)]
#[error("not a line of the protocol")]
pub struct BadLine;

/// The request of this line, which ends with its LF. Refused exactly where no request has that
/// spelling: each request has one. Takes no memory.
pub fn decode(line: &[u8]) -> Result<Request, BadLine>
    ensures spelled { IfOk result (Spells line.now) }
    ensures read { (r : R) → Spells line.now r → result ≡ Ok r }
    ensures refused { OnErr result ((r : R) → Spells line.now r → ⊥) }
{
    let Some((last, text)) = line.split_last() else {
        return Err(BadLine);
    };
    if *last != b'\n' {
        return Err(BadLine);
    }
    match request_of(text) {
        Some(request) => Ok(request),
        None => Err(BadLine),
    }
}

/// The request of this line, which is without its LF.
pub(crate) fn request_of(line: &[u8]) -> Option<Request>
    ensures spelled { IfSome result (λ r. IsRequest r × (line.now ≡ request_line r)) }
    ensures read { (r : R) → IsRequest r → line.now ≡ request_line r → result ≡ Some r }
{
    let (word, arguments) = first_word(line);
    if word == b"alloc".as_slice() {
        alloc_of(arguments)
    } else if word == b"free".as_slice() {
        free_of(arguments)
    } else if word == b"hello".as_slice() {
        hello_of(arguments)
    } else if arguments.is_empty() {
        word_alone(word)
    } else {
        None
    }
}

/// `free` as a number whose lowest byte is its first letter.
const FREE: u32 = 0x6565_7266;

/// `allo`, the front of `alloc`, as a number whose lowest byte is its first letter.
const ALLO: u32 = 0x6f6c_6c61;

/// No line of these two words has fewer bytes: `free 1` and its LF.
const SHORTEST: usize = 7;

/// The request of the line at the front of the text, and what is behind that line, read in one
/// pass. It knows the two requests of which there are many, `alloc` and `free`, with numbers of 1
/// to 18 digits that do not begin with `0`. None where no such line is at the front.
#[inline(always)]
pub(crate) fn request_at(text: &[u8]) -> Option<(Request, &[u8])>
    ensures { IfSome result (λ p. IsRequest p.0 × (text.now ≡ request_text p.0 ++ p.1.now)) }
{
    if text.len() < SHORTEST {
        return None;
    }
    let word = u32::from_le_bytes([text[0], text[1], text[2], text[3]]);
    if word == FREE {
        free_at(&text[4..])
    } else if word == ALLO && text[4] == b'c' {
        alloc_at(&text[5..])
    } else {
        None
    }
}

/// ` <frames> <limit>` and an LF.
#[inline(always)]
fn alloc_at(text: &[u8]) -> Option<(Request, &[u8])>
    ensures { IfSome result (λ p. IsRequest p.0
        × (codes "alloc" ++ text.now ≡ request_text p.0 ++ p.1.now)) }
{
    let (frames, more) = next_short(text)?;
    let (limit, end) = next_short(more)?;
    match end {
        [b'\n', behind @ ..] => Some((Request::Alloc { frames, limit }, behind)),
        _ => None,
    }
}

/// ` <lo>` and an LF.
#[inline(always)]
fn free_at(text: &[u8]) -> Option<(Request, &[u8])>
    ensures { IfSome result (λ p. IsRequest p.0
        × (codes "free" ++ text.now ≡ request_text p.0 ++ p.1.now)) }
{
    let (lo, end) = next_short(text)?;
    match end {
        [b'\n', behind @ ..] => Some((Request::Free { lo }, behind)),
        _ => None,
    }
}

/// ` <frames> <limit>`.
fn alloc_of(arguments: &[u8]) -> Option<Request>
    ensures spelled { IfSome result (IsSpelledBy (codes "alloc") arguments.now) }
    ensures read { (frames limit : ℕ) → IsRequest (Request.Alloc frames limit)
        → arguments.now ≡ spaced_words (request_arguments (Request.Alloc frames limit))
        → result ≡ Some (Request.Alloc frames limit) }
{
    let (frames, limit) = two_numbers(arguments)?;
    Some(Request::Alloc { frames, limit })
}

/// ` <lo>`.
fn free_of(arguments: &[u8]) -> Option<Request>
    ensures spelled { IfSome result (IsSpelledBy (codes "free") arguments.now) }
    ensures read { (lo : ℕ) → IsRequest (Request.Free lo)
        → arguments.now ≡ spaced_words (request_arguments (Request.Free lo))
        → result ≡ Some (Request.Free lo) }
{
    let lo = one_number(arguments)?;
    Some(Request::Free { lo })
}

/// ` iova1 <domain> sac` or ` iova1 <domain> dac`.
fn hello_of(arguments: &[u8]) -> Option<Request>
    ensures spelled { IfSome result (IsSpelledBy (codes "hello") arguments.now) }
    ensures read { (domain : ℕ) (sac : Bool) → IsRequest (Request.Hello domain sac)
        → arguments.now ≡ spaced_words (request_arguments (Request.Hello domain sac))
        → result ≡ Some (Request.Hello domain sac) }
{
    let (version, arguments) = next_word(arguments)?;
    if version == b"iova1".as_slice() {
        client_of(arguments)
    } else {
        None
    }
}

/// ` <domain> sac` or ` <domain> dac`.
fn client_of(arguments: &[u8]) -> Option<Request>
    ensures spelled { IfSome result (IsSpelledBy (codes "hello")
        (codes " iova1" ++ arguments.now)) }
    ensures read { (domain : ℕ) (sac : Bool) → IsRequest (Request.Hello domain sac)
        → codes " iova1" ++ arguments.now
        ≡ spaced_words (request_arguments (Request.Hello domain sac))
        → result ≡ Some (Request.Hello domain sac) }
{
    let (domain, kind) = next_number(arguments)?;
    let sac = kind_of(kind)?;
    Some(Request::Hello { domain, sac })
}

/// A request of one word.
fn word_alone(word: &[u8]) -> Option<Request>
    ensures spelled { IfSome result (λ r. IsRequest r × (word.now ≡ request_verb r)
        × (request_arguments r ≡ [])) }
    ensures read { (r : R) → word.now ≡ request_verb r → request_arguments r ≡ []
        → result ≡ Some r }
{
    if word == b"list".as_slice() {
        Some(Request::List)
    } else if word == b"flush".as_slice() {
        Some(Request::Flush)
    } else if word == b"stat".as_slice() {
        Some(Request::Stat)
    } else if word == b"bye".as_slice() {
        Some(Request::Bye)
    } else {
        None
    }
}
