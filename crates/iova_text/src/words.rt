//! A line cut into words at single spaces, and the numbers after them.
ghost use Rattle.std.specs.Prelude.{◌≡◌, ℕ, ◌^◌, ◌<◌, Bool, List, [], ◌∷◌, ◌++◌, Some, IfSome, IsSomeAnd, IsTrue, decimal};
ghost use Rattle.std.specs.Char.{is_ascii_digit};
ghost use Rattle.std.specs.List.{list_all};
ghost use Rattle.iova_text.specs.Reading.{stops, is_not_space};
ghost use Rattle.iova_text.specs.Words.{spaced_words, kind_text};

use crate::number::{leading_number, short_number};

/// The bytes before the first space, all where there is none, and the rest from that space on.
pub fn first_word(line: &[u8]) -> (&[u8], &[u8])
    ensures whole { line.now ≡ result.0.now ++ result.1.now }
    ensures read { (word rest : List ℕ) → IsTrue (list_all is_not_space word)
        → IsTrue (stops is_not_space rest)
        → line.now ≡ word ++ rest → (result.0.now ≡ word) × (result.1.now ≡ rest) }
{
    let mut len = 0;
    while len < line.len() && line[len] != b' ' {
        len += 1;
    }
    line.split_at(len)
}

/// A space and the word after it, which may be empty, and the text from the next space on. None
/// where no space is at the front.
pub fn next_word(text: &[u8]) -> Option<(&[u8], &[u8])>
    ensures spelled { IfSome result (λ p. text.now ≡ 32 ∷ (p.0.now ++ p.1.now)) }
    ensures read { (word rest : List ℕ) → IsTrue (list_all is_not_space word)
        → IsTrue (stops is_not_space rest)
        → text.now ≡ 32 ∷ (word ++ rest) → IsSomeAnd result
        (λ p. (p.0.now ≡ word) × (p.1.now ≡ rest)) }
{
    let (first, words) = text.split_first()?;
    if *first == b' ' {
        Some(first_word(words))
    } else {
        None
    }
}

/// A space and a number, and the text after them.
#[inline]
pub fn next_number(text: &[u8]) -> Option<(u64, &[u8])>
    ensures spelled { IfSome result (λ p. text.now ≡ 32 ∷ (decimal p.0 ++ p.1.now)) }
    ensures read { (n : ℕ) (rest : List ℕ) → n < 2 ^ 64 → IsTrue (stops is_ascii_digit rest)
        → text.now ≡ 32 ∷ (decimal n ++ rest)
        → IsSomeAnd result (λ p. (p.0 ≡ n) × (p.1.now ≡ rest)) }
{
    let (first, digits) = text.split_first()?;
    if *first == b' ' {
        leading_number(digits)
    } else {
        None
    }
}

/// A space and a number of 1 to 18 digits that does not begin with `0`, and the text after them.
#[inline(always)]
pub fn next_short(text: &[u8]) -> Option<(u64, &[u8])>
    ensures { IfSome result (λ p. text.now ≡ 32 ∷ (decimal p.0 ++ p.1.now)) }
{
    match text {
        [b' ', digits @ ..] => short_number(digits),
        _ => None,
    }
}

/// A space and a number, and nothing after them.
#[inline]
pub fn one_number(text: &[u8]) -> Option<u64>
    ensures spelled { IfSome result (λ a. text.now ≡ spaced_words (decimal a ∷ [])) }
    ensures read { (a : ℕ) → a < 2 ^ 64 → text.now ≡ spaced_words (decimal a ∷ [])
        → result ≡ Some a }
{
    let (a, rest) = next_number(text)?;
    if rest.is_empty() { Some(a) } else { None }
}

/// Two numbers, each with a space before it, and nothing after them.
#[inline]
pub fn two_numbers(text: &[u8]) -> Option<(u64, u64)>
    ensures spelled { IfSome result (λ p. text.now
        ≡ spaced_words (decimal p.0 ∷ decimal p.1 ∷ [])) }
    ensures read { (a b : ℕ) → a < 2 ^ 64 → b < 2 ^ 64
        → text.now ≡ spaced_words (decimal a ∷ decimal b ∷ [])
        → result ≡ Some (record { 0 = a; 1 = b }) }
{
    let (a, rest) = next_number(text)?;
    let b = one_number(rest)?;
    Some((a, b))
}

/// Three numbers, each with a space before it, and nothing after them.
pub fn three_numbers(text: &[u8]) -> Option<(u64, u64, u64)>
    ensures spelled { IfSome result (λ p. text.now
        ≡ spaced_words (decimal p.0 ∷ decimal p.1 ∷ decimal p.2 ∷ [])) }
    ensures read { (a b c : ℕ) → a < 2 ^ 64 → b < 2 ^ 64 → c < 2 ^ 64
        → text.now ≡ spaced_words (decimal a ∷ decimal b ∷ decimal c ∷ [])
        → result ≡ Some (record { 0 = a; 1 = b; 2 = c }) }
{
    let (a, rest) = next_number(text)?;
    let (b, c) = two_numbers(rest)?;
    Some((a, b, c))
}

/// A space and the kind of a client, and nothing after it: true for `sac`, false for `dac`.
pub fn kind_of(text: &[u8]) -> Option<bool>
    ensures spelled { IfSome result (λ sac. text.now ≡ spaced_words (kind_text sac ∷ [])) }
    ensures read { (sac : Bool) → text.now ≡ spaced_words (kind_text sac ∷ []) → result ≡ Some sac }
{
    if text == b" sac".as_slice() {
        Some(true)
    } else if text == b" dac".as_slice() {
        Some(false)
    } else {
        None
    }
}
