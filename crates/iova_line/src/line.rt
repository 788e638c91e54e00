//! A step's line and a header's, read and written.
ghost use Rattle.std.specs.Prelude.{◌≡◌, ◌≢◌, ℕ, ◌+◌, ◌<◌, ◌≤◌, ◌↔◌, Bool, [], ◌∷◌, ◌++◌, Some, IsSome, IfSome, IsNone, OnOk, OnErr, length, vec_len, vec_capacity, decimal, codes};
ghost use Rattle.iova_range.specs.Bounds.{Extent, AreBounds, first_profile, second_profile};
ghost use Rattle.iova_model.specs.declared.step.Step.{Step};
ghost use Rattle.iova_text.specs.Words.{spaced_words};
ghost use Rattle.iova_line.specs.Text.{verb_text, verb_of, outcome_text, arguments_of, step_text, NumbersFit, header_text, first_words, second_words, IsHeader};
ghost use Rattle.iova_line.specs.LineSteps.{IsStep};
ghost use Rattle.iova_line.specs.declared.line.Verb.{Verb};

use iova_model::step::Step;
use iova_range::bounds::Bounds;
use iova_range::limits::MAX_WORKERS;
use iova_range::profile::Profile;
use iova_range::refusal::Refusal;
use iova_text::buffer::{LineBuffer, append, put, put_numbers};
use iova_text::number::short_number;
use iova_text::words::{first_word, kind_of, next_number, next_short, three_numbers, two_numbers};

/// The first word of a step's line.
#[derive(Clone, Copy, Debug, PartialEq, Eq)]
pub enum Verb {
    /// `reserve <lo> <hi>`.
    Reserve,
    /// `open <worker> sac` or `open <worker> dac`.
    Open,
    /// `alloc <worker> <client> <frames> <limit>`.
    Alloc,
    /// `unmap <worker> <client> <lo>`.
    Unmap,
    /// `begin`.
    Begin,
    /// `end <number> ok` or `end <number> fail`.
    End,
    /// `drain <ring> <by>`.
    Drain,
    /// `close <worker> <client>`.
    Close,
    /// `closeone <worker> <client>`.
    CloseOne,
}

/// What the first line of a trace says of the domain.
#[derive(Clone, Copy, Debug, PartialEq, Eq)]
pub struct Header {
    /// The bounds and the profile.
    pub bounds: Bounds,
    /// How many workers, 1 to 16.
    pub workers: u64,
}

/// The step of this line, which is without its LF. None exactly where the line is no step's. A line
/// of `alloc` or `unmap`, of which there are many, is mostly read in one pass.
pub fn read_step(line: &[u8]) -> Option<Step>
    ensures spelled { IfSome result (λ s. line.now ≡ step_text s) }
    ensures read { (s : Step) → NumbersFit s → line.now ≡ step_text s → result ≡ Some s }
    ensures all { IsNone result → (s : Step) → NumbersFit s → line.now ≢ step_text s }
{
    if let Some(step) = usual_step(line) {
        return Some(step);
    }
    let (word, arguments) = first_word(line);
    let verb = verb_named(word)?;
    step_of(verb, arguments)
}

/// The header of this line, which is without its LF: `iovatrace 1 <start> <last> <workers>` in the
/// first profile, `iovatrace 2 <start> <last> <workers> <depot>` in the second. None exactly where
/// the line is no header's, also where the depot is above 32, the bounds are none of the profile,
/// or there are not 1 to 16 workers.
pub fn read_header(line: &[u8]) -> Option<Header>
    ensures spelled { IfSome result (λ h. line.now ≡ header_text h.bounds h.workers) }
    ensures good { IfSome result (λ h. IsHeader h.bounds h.workers) }
    ensures read { (bounds : Extent) (workers : ℕ) → IsHeader bounds workers
        → line.now ≡ header_text bounds workers
        → result ≡ Some (record { bounds = bounds; workers = workers }) }
    ensures all { IsNone result → (bounds : Extent) (workers : ℕ) → IsHeader bounds workers
        → line.now ≢ header_text bounds workers }
{
    let (word, numbers) = first_word(line);
    if word != b"iovatrace".as_slice() {
        return None;
    }
    let (version, numbers) = next_number(numbers)?;
    match version {
        1 => first_header(numbers),
        2 => second_header(numbers),
        _ => None,
    }
}

/// Appends the step's line with its LF: each step is one that a line may say. Refused by
/// `NoMemory`, which appends nothing and comes only where `out` has to grow.
pub fn write_step(step: &Step, out: &mut Vec<u8>) -> Result<(), Refusal>
    ensures ok { OnOk result (out.new.items ≡ out.old.items ++ (step_text step.now ++ 10 ∷ [])) }
    ensures step { IsStep step.now }
    ensures err { OnErr result ((result ≡ Err Refusal.NoMemory) × (out.new.items ≡ out.old.items)) }
    ensures full { OnErr result (vec_capacity out.old < vec_len
        out.old + (length (step_text step.now) + 1)) }
{
    // for the proof: the numbers of a step have 64 bits
    is_step(*step);
    let mut text = LineBuffer::new();
    put_step(step, &mut text);
    append(out, &text)
}

/// Appends the header's line with its LF. Refused by `NoMemory`, which appends nothing and comes
/// only where `out` has to grow.
pub fn write_header(bounds: &Bounds, workers: u64, out: &mut Vec<u8>) -> Result<(), Refusal>
    ensures ok { OnOk result (out.new.items ≡ out.old.items
        ++ (header_text bounds.now workers ++ 10 ∷ [])) }
    ensures err { OnErr result ((result ≡ Err Refusal.NoMemory) × (out.new.items ≡ out.old.items)) }
    ensures full { OnErr result
        (vec_capacity out.old < vec_len out.old + (length (header_text bounds.now workers) + 1)) }
{
    let mut text = LineBuffer::new();
    put_header(*bounds, workers, &mut text);
    append(out, &text)
}

/// `allo` as a number whose lowest byte is its first letter.
const ALLO: u32 = 0x6f6c_6c61;

/// `unma` as a number whose lowest byte is its first letter.
const UNMA: u32 = 0x616d_6e75;

/// No line of these two words has fewer bytes: `unmap 0 1 1`.
const SHORTEST: usize = 11;

/// The step of this line, read in one pass. It knows the two steps of which there are many, `alloc`
/// and `unmap`, with numbers of 1 to 18 digits of which the worker's alone may be `0`. None where
/// the line is no such step's.
#[inline(always)]
fn usual_step(line: &[u8]) -> Option<Step>
    ensures { IfSome result (λ s. NumbersFit s × (line.now ≡ step_text s)) }
{
    if line.len() < SHORTEST {
        return None;
    }
    let word = u32::from_le_bytes([line[0], line[1], line[2], line[3]]);
    if word == ALLO && line[4] == b'c' {
        usual_alloc(&line[5..])
    } else if word == UNMA && line[4] == b'p' {
        usual_unmap(&line[5..])
    } else {
        None
    }
}

/// ` <worker> <client> <frames> <limit>`.
#[inline(always)]
fn usual_alloc(arguments: &[u8]) -> Option<Step>
    ensures { IfSome result (λ s. NumbersFit s × (codes "alloc" ++ arguments.now ≡ step_text s)) }
{
    let (worker, more) = next_worker(arguments)?;
    let (client, more) = next_short(more)?;
    let (frames, more) = next_short(more)?;
    let (limit, end) = next_short(more)?;
    if end.is_empty() {
        Some(Step::Alloc {
            worker,
            client,
            frames,
            limit,
        })
    } else {
        None
    }
}

/// ` <worker> <client> <lo>`.
#[inline(always)]
fn usual_unmap(arguments: &[u8]) -> Option<Step>
    ensures { IfSome result (λ s. NumbersFit s × (codes "unmap" ++ arguments.now ≡ step_text s)) }
{
    let (worker, more) = next_worker(arguments)?;
    let (client, more) = next_short(more)?;
    let (lo, end) = next_short(more)?;
    if end.is_empty() {
        Some(Step::Unmap { worker, client, lo })
    } else {
        None
    }
}

/// A space and a worker, `0` or a number that `next_short` knows, and the text after it.
#[inline(always)]
fn next_worker(text: &[u8]) -> Option<(u64, &[u8])>
    ensures { IfSome result (λ p. text.now ≡ 32 ∷ (decimal p.0 ++ p.1.now)) }
{
    match text {
        [b' ', digits @ ..] => zero_or_short(digits),
        _ => None,
    }
}

/// `0` or a number that `short_number` knows, and the text after it.
#[inline(always)]
fn zero_or_short(text: &[u8]) -> Option<(u64, &[u8])>
    ensures { IfSome result (λ p. text.now ≡ decimal p.0 ++ p.1.now) }
{
    if text.is_empty() {
        return None;
    }
    if text[0] == b'0' {
        return Some((0, &text[1..]));
    }
    short_number(text)
}

fn verb_named(word: &[u8]) -> Option<Verb>
    ensures spelled { IfSome result (λ v. word.now ≡ verb_text v) }
    ensures all { IsNone result → (v : Verb) → word.now ≢ verb_text v }
{
    if word == b"alloc".as_slice() {
        Some(Verb::Alloc)
    } else if word == b"unmap".as_slice() {
        Some(Verb::Unmap)
    } else if word == b"drain".as_slice() {
        Some(Verb::Drain)
    } else if word == b"begin".as_slice() {
        Some(Verb::Begin)
    } else if word == b"end".as_slice() {
        Some(Verb::End)
    } else if word == b"closeone".as_slice() {
        Some(Verb::CloseOne)
    } else if word == b"open".as_slice() {
        Some(Verb::Open)
    } else if word == b"close".as_slice() {
        Some(Verb::Close)
    } else if word == b"reserve".as_slice() {
        Some(Verb::Reserve)
    } else {
        None
    }
}

fn step_of(verb: Verb, arguments: &[u8]) -> Option<Step>
    ensures spelled { IfSome result (λ s. (verb_of s ≡ verb)
        × (arguments.now ≡ spaced_words (arguments_of s))) }
    ensures read { (s : Step) → NumbersFit s → verb_of s ≡ verb
        → arguments.now ≡ spaced_words (arguments_of s)
        → result ≡ Some s }
{
    match verb {
        Verb::Reserve => {
            let (lo, hi) = two_numbers(arguments)?;
            Some(Step::Reserve { lo, hi })
        }
        Verb::Open => {
            let (worker, kind) = next_number(arguments)?;
            let sac = kind_of(kind)?;
            Some(Step::Open { worker, sac })
        }
        Verb::Alloc => {
            let (worker, numbers) = next_number(arguments)?;
            let (client, frames, limit) = three_numbers(numbers)?;
            Some(Step::Alloc {
                worker,
                client,
                frames,
                limit,
            })
        }
        Verb::Unmap => {
            let (worker, client, lo) = three_numbers(arguments)?;
            Some(Step::Unmap { worker, client, lo })
        }
        Verb::Begin => begin_of(arguments),
        Verb::End => {
            let (no, outcome) = next_number(arguments)?;
            let ok = outcome_of(outcome)?;
            Some(Step::End { no, ok })
        }
        Verb::Drain => {
            let (ring, by) = two_numbers(arguments)?;
            Some(Step::Drain { ring, by })
        }
        Verb::Close => {
            let (worker, client) = two_numbers(arguments)?;
            Some(Step::Close { worker, client })
        }
        Verb::CloseOne => {
            let (worker, client) = two_numbers(arguments)?;
            Some(Step::CloseOne { worker, client })
        }
    }
}

fn begin_of(arguments: &[u8]) -> Option<Step>
    ensures some { IfSome result (λ s. (s ≡ Step.Begin) × (arguments.now ≡ [])) }
    ensures none { IsNone result → arguments.now ≢ [] }
{
    if arguments.is_empty() {
        Some(Step::Begin)
    } else {
        None
    }
}

fn outcome_of(text: &[u8]) -> Option<bool>
    ensures spelled { IfSome result (λ ok. text.now ≡ spaced_words (outcome_text ok ∷ [])) }
    ensures read { (ok : Bool) → text.now ≡ spaced_words (outcome_text ok ∷ []) → result ≡ Some ok }
{
    if text == b" ok".as_slice() {
        Some(true)
    } else if text == b" fail".as_slice() {
        Some(false)
    } else {
        None
    }
}

fn first_header(numbers: &[u8]) -> Option<Header>
    ensures profile { IfSome result (λ h. h.bounds.profile ≡ first_profile) }
    ensures spelled { IfSome result (λ h. numbers.now
        ≡ spaced_words (first_words h.bounds h.workers)) }
    ensures good { IfSome result (λ h. IsHeader h.bounds h.workers) }
    ensures read { (bounds : Extent) (workers : ℕ) → IsHeader bounds workers
        → bounds.profile ≡ first_profile
        → numbers.now ≡ spaced_words (first_words bounds workers)
        → result ≡ Some (record { bounds = bounds; workers = workers }) }
{
    let (start, last, workers) = three_numbers(numbers)?;
    header_of(Profile::one(), start, last, workers)
}

fn second_header(numbers: &[u8]) -> Option<Header>
    ensures profile { IfSome result (λ h. h.bounds.profile
        ≡ second_profile h.bounds.profile.depot) }
    ensures spelled { IfSome result (λ h. numbers.now
        ≡ spaced_words (second_words h.bounds h.workers)) }
    ensures good { IfSome result (λ h. IsHeader h.bounds h.workers) }
    ensures read { (bounds : Extent) (workers : ℕ) → IsHeader bounds workers
        → bounds.profile ≡ second_profile bounds.profile.depot
        → numbers.now ≡ spaced_words (second_words bounds workers)
        → result ≡ Some (record { bounds = bounds; workers = workers }) }
{
    let (start, numbers) = next_number(numbers)?;
    let (last, workers, depot) = three_numbers(numbers)?;
    match Profile::two(depot) {
        Ok(profile) => header_of(profile, start, last, workers),
        Err(_) => None,
    }
}

fn header_of(profile: Profile, start: u64, last: u64, workers: u64) -> Option<Header>
    ensures value { IfSome result (λ h.
        h ≡ record {
          bounds = record { start = start; last = last; profile = profile };
          workers = workers;
        }) }
    ensures accepted { IsSome result ↔ (AreBounds profile start last
        × ((1 ≤ workers) × (workers ≤ MAX_WORKERS))) }
{
    if workers == 0 || workers > MAX_WORKERS {
        return None;
    }
    match Bounds::new_in(profile, start, last) {
        Ok(bounds) => Some(Header { bounds, workers }),
        Err(_) => None,
    }
}

/// Each step is one that a line may say.
fn is_step(step: Step)
    ensures { IsStep step }
{}

fn put_step(step: &Step, out: &mut LineBuffer)
    requires { out.old.items ≡ [] }
    ensures { out.new.items ≡ step_text step.now ++ 10 ∷ [] }
{
    match *step {
        Step::Reserve { lo, hi } => put_numbers(out, b"reserve", &[lo, hi]),
        Step::Open { worker, sac } => {
            put_numbers(out, b"open", &[worker]);
            let kind = if sac { " sac" } else { " dac" };
            put(out, kind.as_bytes());
        }
        Step::Alloc {
            worker,
            client,
            frames,
            limit,
        } => put_numbers(out, b"alloc", &[worker, client, frames, limit]),
        Step::Unmap { worker, client, lo } => put_numbers(out, b"unmap", &[worker, client, lo]),
        Step::Begin => put(out, b"begin"),
        Step::End { no, ok } => {
            put_numbers(out, b"end", &[no]);
            let outcome = if ok { " ok" } else { " fail" };
            put(out, outcome.as_bytes());
        }
        Step::Drain { ring, by } => put_numbers(out, b"drain", &[ring, by]),
        Step::Close { worker, client } => put_numbers(out, b"close", &[worker, client]),
        Step::CloseOne { worker, client } => put_numbers(out, b"closeone", &[worker, client]),
    }
    put(out, b"\n");
}

fn put_header(bounds: Bounds, workers: u64, out: &mut LineBuffer)
    requires { out.old.items ≡ [] }
    ensures { out.new.items ≡ header_text bounds workers ++ 10 ∷ [] }
{
    let (start, last, profile) = (bounds.start(), bounds.last(), bounds.profile());
    if profile.mag() == Profile::one().mag() {
        put_numbers(out, b"iovatrace", &[1, start, last, workers]);
    } else {
        put_numbers(
            out,
            b"iovatrace",
            &[2, start, last, workers, profile.depot() as u64],
        );
    }
    put(out, b"\n");
}
