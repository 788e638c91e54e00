//! Numbers of 64 bits, which have one spelling each.
ghost use Rattle.std.specs.Prelude.{◌≡◌, ◌≢◌, ℕ, ◌^◌, ◌<◌, List, ◌++◌, Some, IfSome, IsNone, IsSomeAnd, IsTrue, decimal, slice_index, length, take, drop, ◌≤◌};
ghost use Rattle.std.specs.Char.{is_ascii_digit};
ghost use Rattle.iova_text.specs.Reading.{stops};

/// The number of 64 bits that this text spells: `0`, or a digit 1 to 9 and further digits. None
/// where the text is not the one spelling of a number below 2^64: with a sign, a leading zero,
/// another byte, or no byte at all.
pub fn number(text: &[u8]) -> Option<u64>
    ensures spelled { IfSome result (λ n. text.now ≡ decimal n) }
    ensures read { (n : ℕ) → n < 2 ^ 64 → text.now ≡ decimal n → result ≡ Some n }
    ensures all { IsNone result → (n : ℕ) → n < 2 ^ 64 → text.now ≢ decimal n }
{
    let (n, rest) = leading_number(text)?;
    if rest.is_empty() { Some(n) } else { None }
}

/// The number that the digits at the front spell, and the text after them; after a `0` no further
/// digit is looked at. None where no digit is at the front, or where the digits spell no number
/// below 2^64.
#[inline]
pub fn leading_number(text: &[u8]) -> Option<(u64, &[u8])>
    ensures spelled { IfSome result (λ p. text.now ≡ decimal p.0 ++ p.1.now) }
    ensures read { (n : ℕ) (rest : List ℕ) → n < 2 ^ 64 → IsTrue (stops is_ascii_digit rest)
        → text.now ≡ decimal n ++ rest → IsSomeAnd result (λ p. (p.0 ≡ n) × (p.1.now ≡ rest)) }
{
    match short_number(text) {
        Some((n, rest)) => Some((n, rest)),
        None => any_number(text),
    }
}

/// Whichever digits they are, so many spell a number of 64 bits.
const SURE_DIGITS: usize = 19;

/// So many digits are read at once, where the text is as long.
const FIRST_DIGITS: usize = 8;

/// A number has fewer digits mostly, and is then read without a test for the end of the text at
/// each, where the text is as long: a first frame of up to 2^36 has eleven.
const USUAL_DIGITS: usize = 12;

/// The digit `0` in each byte.
const ZEROS: u64 = 0x3030_3030_3030_3030;

/// 6 in each byte, which carries 10 and more into the high half of its byte.
const SIXES: u64 = 0x0606_0606_0606_0606;

/// The high half of each byte.
const HIGH_HALVES: u64 = 0xf0f0_f0f0_f0f0_f0f0;

/// The number of 1 to 18 digits at the front, of which the first is not `0`, and the text after it.
/// None where no such number is there, and where more digits are.
#[inline(always)]
pub fn short_number(text: &[u8]) -> Option<(u64, &[u8])>
    ensures spelled { IfSome result (λ p. text.now ≡ decimal p.0 ++ p.1.now) }
    ensures all { IfSome result (λ p. IsTrue (stops is_ascii_digit p.1.now)) }
    ensures fits { IfSome result (λ p. p.0 < 2 ^ 64) }
{
    if text.is_empty() {
        return None;
    }
    if text[0] < b'1' || text[0] > b'9' {
        return None;
    }
    let first = u64::from(text[0]) - 48;
    if text.len() < FIRST_DIGITS {
        let (n, len) = digits(text, first, 1, text.len());
        return Some((n, &text[len..]));
    }
    let Some(eight) = eight_digits(text) else {
        let (n, len) = digits(text, first, 1, FIRST_DIGITS);
        return if len < FIRST_DIGITS {
            Some((n, &text[len..]))
        } else {
            None
        };
    };
    if text.len() >= USUAL_DIGITS {
        let (n, len) = digits(text, eight, FIRST_DIGITS, USUAL_DIGITS);
        if len < USUAL_DIGITS {
            return Some((n, &text[len..]));
        }
    }
    let (n, len) = digits(text, eight, FIRST_DIGITS, text.len().min(SURE_DIGITS));
    if len < SURE_DIGITS {
        Some((n, &text[len..]))
    } else {
        None
    }
}

/// The number of the eight digits at the front, of which the first is not `0`. None where one of
/// these bytes is no digit.
#[inline(always)]
fn eight_digits(text: &[u8]) -> Option<u64>
    requires within { FIRST_DIGITS ≤ length text.now }
    requires first { slice_index text.now 0 ≢ 48 }
    ensures spelled { IfSome result (λ n. take FIRST_DIGITS text.now ≡ decimal n) }
    ensures some { IfSome result (λ n. 0 < n) }
    ensures fits { IfSome result (λ n. n < 10 ^ FIRST_DIGITS) }
{
    let bytes = text.first_chunk::<FIRST_DIGITS>()?;
    // A digit in each byte, the first one in the lowest.
    let digits = u64::from_le_bytes(*bytes).wrapping_sub(ZEROS);
    if digits & HIGH_HALVES != 0 || digits.wrapping_add(SIXES) & HIGH_HALVES != 0 {
        return None;
    }
    // Each joins two neighbours, of which the one before is in the lower bits.
    let pairs = (digits * 10 + (digits >> 8)) & 0x00ff_00ff_00ff_00ff;
    let fours = (pairs * 100 + (pairs >> 16)) & 0x0000_ffff_0000_ffff;
    let eight = (fours * 10_000 + (fours >> 32)) & 0xffff_ffff;
    Some(eight)
}

/// The number `front`, whose text ends at `start`, with the digits after it, up to `end` at most;
/// and where these end.
#[inline(always)]
fn digits(text: &[u8], front: u64, start: usize, end: usize) -> (u64, usize)
    requires some { 0 < front }
    requires fits { front < 10 ^ start }
    requires front { take start text.now ≡ decimal front }
    requires within { (start ≤ end) × (end ≤ length text.now) × (end ≤ SURE_DIGITS) }
    ensures some { 0 < result.0 }
    ensures fits { result.0 < 10 ^ result.1 }
    ensures spelled { take result.1 text.now ≡ decimal result.0 }
    ensures within { (start ≤ result.1) × (result.1 ≤ end) }
    ensures all { result.1 < end → IsTrue (stops is_ascii_digit (drop result.1 text.now)) }
{
    let mut n = front;
    let mut len = start;
    while len < end {
        // It is below 10 for a digit, and for no other byte.
        let digit = u64::from(text[len]).wrapping_sub(48);
        if digit > 9 {
            break;
        }
        n = n * 10 + digit;
        len += 1;
    }
    (n, len)
}

/// The number at the front of the text, and what is behind it, for numbers that `short_number`
/// doesn't read.
fn any_number(text: &[u8]) -> Option<(u64, &[u8])>
    ensures spelled { IfSome result (λ p. text.now ≡ decimal p.0 ++ p.1.now) }
    ensures read { (n : ℕ) (rest : List ℕ) → n < 2 ^ 64 → IsTrue (stops is_ascii_digit rest)
        → text.now ≡ decimal n ++ rest → IsSomeAnd result (λ p. (p.0 ≡ n) × (p.1.now ≡ rest)) }
{
    if text.is_empty() {
        return None;
    }
    if text[0] == b'0' {
        return Some((0, &text[1..]));
    }
    any_positive(text)
}

/// The number at the front of a text that doesn't begin with a `0`. Each digit is added with a
/// check that the number has 64 bits.
fn any_positive(text: &[u8]) -> Option<(u64, &[u8])>
    requires { slice_index text.now 0 ≢ 48 }
    ensures spelled { IfSome result (λ p. text.now ≡ decimal p.0 ++ p.1.now) }
    ensures read { (n : ℕ) (rest : List ℕ) → n < 2 ^ 64 → IsTrue (stops is_ascii_digit rest)
        → text.now ≡ decimal n ++ rest → IsSomeAnd result (λ p. (p.0 ≡ n) × (p.1.now ≡ rest)) }
{
    let mut n = 0u64;
    let mut len = 0;
    while len < text.len() && text[len].is_ascii_digit() {
        let digit = u64::from(text[len] - b'0');
        n = n.checked_mul(10)?.checked_add(digit)?;
        len += 1;
    }
    if len == 0 {
        None
    } else {
        Some((n, &text[len..]))
    }
}
