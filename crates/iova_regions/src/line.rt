//! A line of `reserved_regions`, read.
ghost use Rattle.std.specs.Prelude.{◌≡◌, ◌≢◌, ℕ, ◌^◌, ◌*◌, ◌<◌, ◌≤◌, List, ◌∷◌, ◌++◌, Some, IfSome, IsNone, IsSomeAnd, length};
ghost use Rattle.iova_regions.specs.declared.region.Region.{Region};
ghost use Rattle.iova_regions.specs.declared.region.RegionKind.{RegionKind};
ghost use Rattle.iova_regions.specs.Text.{hex_digit, hex_digits, address_text, kind_text, region_text, IsRegion};

use crate::region::{Region, RegionKind};

/// The region of this line, which is without its LF: `0x` and 16 hexadecimal digits (0-9, a-f), a
/// blank, the same again, a blank and the region's kind. None exactly where the line has another
/// form, also where the first byte is above the last. The longest such line has 54 bytes.
pub fn read_region(line: &[u8]) -> Option<Region>
    ensures spelled { IfSome result (λ r. IsRegion r × (line.now ≡ region_text r)) }
    ensures read { (r : Region) → IsRegion r → line.now ≡ region_text r → result ≡ Some r }
    ensures all { IsNone result → (r : Region) → IsRegion r → line.now ≢ region_text r }
{
    let (first, rest) = address(line)?;
    let (last, word) = address(after_blank(rest)?)?;
    let kind = kind_named(after_blank(word)?)?;
    if first > last {
        return None;
    }
    Some(Region { first, last, kind })
}

/// The number of 64 bits that the bytes at the front spell, and the bytes after them.
fn address(text: &[u8]) -> Option<(u64, &[u8])>
    ensures spelled { IfSome result (λ p. text.now ≡ address_text p.0 ++ p.1.now) }
    ensures read { (n : ℕ) (rest : List ℕ) → n < 2 ^ 64 → text.now ≡ address_text n ++ rest
        → IsSomeAnd result (λ p. (p.0 ≡ n) × (p.1.now ≡ rest)) }
{
    if text.len() < 18 {
        return None;
    }
    let (mark, digits) = text.split_at(2);
    if mark != b"0x".as_slice() {
        return None;
    }
    let (digits, rest) = digits.split_at(16);
    let n = hex_number(digits)?;
    Some((n, rest))
}

/// The number that these digits spell, at most 16.
fn hex_number(digits: &[u8]) -> Option<u64>
    requires { length digits.now ≤ 16 }
    ensures spelled { IfSome result (λ n. digits.now ≡ hex_digits (length digits.now) n) }
    ensures fits { IfSome result (λ n. n < 2 ^ (4 * length digits.now)) }
    ensures none { IsNone result → (n : ℕ) → digits.now ≢ hex_digits (length digits.now) n }
{
    let mut n = 0u64;
    for byte in digits {
        let digit = hex_value(*byte)?;
        n = n * 16 + u64::from(digit);
    }
    Some(n)
}

/// What a hexadecimal digit stands for.
fn hex_value(byte: u8) -> Option<u8>
    ensures spelled { IfSome result (λ d. (d < 16) × (byte ≡ hex_digit d)) }
    ensures none { IsNone result → (d : ℕ) → d < 16 → byte ≢ hex_digit d }
{
    match byte {
        b'0'..=b'9' => Some(byte - b'0'),
        b'a'..=b'f' => Some(byte - b'a' + 10),
        _ => None,
    }
}

/// What stands after a blank. None where no blank is at the front.
fn after_blank(text: &[u8]) -> Option<&[u8]>
    ensures spelled { IfSome result (λ p. text.now ≡ 32 ∷ p.now) }
    ensures read { (rest : List ℕ) → text.now ≡ 32 ∷ rest → IsSomeAnd result (λ p. p.now ≡ rest) }
{
    let (first, rest) = text.split_first()?;
    if *first == b' ' { Some(rest) } else { None }
}

fn kind_named(word: &[u8]) -> Option<RegionKind>
    ensures spelled { IfSome result (λ k. word.now ≡ kind_text k) }
    ensures all { IsNone result → (k : RegionKind) → word.now ≢ kind_text k }
{
    if word == b"direct".as_slice() {
        Some(RegionKind::Direct)
    } else if word == b"direct-relaxable".as_slice() {
        Some(RegionKind::DirectRelaxable)
    } else if word == b"msi".as_slice() {
        Some(RegionKind::Msi)
    } else if word == b"reserved".as_slice() {
        Some(RegionKind::Reserved)
    } else {
        None
    }
}
