//! Two frames as on a command line.
ghost use Rattle.std.specs.Prelude.{◌≡◌, ◌≢◌, ℕ, ◌^◌, ◌<◌, ◌≤◌, Some, IfSome, IsNone};
ghost use Rattle.iova_regions.specs.Span.{span_text, IsSpan};

use iova_text::number::{leading_number, number};

/// The first and the last number of `FIRST-LAST`: two decimal numbers of 64 bits with one `-`
/// between them, each in its one spelling, the first at most the last. None exactly where the text
/// has another form.
pub fn read_span(text: &[u8]) -> Option<(u64, u64)>
    ensures spelled { IfSome result (λ p. IsSpan p.0 p.1 × (text.now ≡ span_text p.0 p.1)) }
    ensures read { (first last : ℕ) → IsSpan first last → text.now ≡ span_text first last
        → result ≡ Some (record { 0 = first; 1 = last }) }
    ensures all { IsNone result → (first last : ℕ) → IsSpan first last
        → text.now ≢ span_text first last }
{
    let (first, rest) = leading_number(text)?;
    let (dash, rest) = rest.split_first()?;
    if *dash != b'-' {
        return None;
    }
    let last = number(rest)?;
    if first > last {
        return None;
    }
    Some((first, last))
}
