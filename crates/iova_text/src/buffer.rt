//! Lines put together in buffers of fixed room, and their way into a vector.
ghost use Rattle.std.specs.Prelude.{◌≡◌, ◌+◌, ◌*◌, ◌/◌, ◌%◌, ◌<◌, ◌≤◌, [], ◌∷◌, ◌++◌, OnOk, OnErr, decimal, length, vec_len, vec_capacity};
ghost use Rattle.iova_text.specs.Words.{numbers_line, refusal_line, spaced_words};

use arrayvec::ArrayVec;
use iova_range::limits::MAX_LINE;
use iova_range::refusal::Refusal;
use itoa::Buffer;

/// The two digits of each number below 100.
static PAIRS: [u8; 200] = *b"\
    0001020304050607080910111213141516171819202122232425262728293031323334353637383940414243444546474849\
    5051525354555657585960616263646566676869707172737475767778798081828384858687888990919293949596979899";

/// The bytes of a line, with its LF at most 128 of them.
pub type LineBuffer = ArrayVec<u8, MAX_LINE>;

/// Appends the bytes, for which there is room.
#[inline]
pub fn put<const CAP: usize>(out: &mut ArrayVec<u8, CAP>, bytes: &[u8])
    requires { length out.old.items + length bytes.now ≤ CAP }
    ensures items { out.new.items ≡ out.old.items ++ bytes.now }
{
    let _fits = out.try_extend_from_slice(bytes);
}

/// Appends the number's text, at most 20 bytes, for which there is room.
#[inline(always)]
pub fn put_number<const CAP: usize>(out: &mut ArrayVec<u8, CAP>, n: u64)
    requires { length out.old.items + 20 ≤ CAP }
    ensures items { out.new.items ≡ out.old.items ++ decimal n }
    ensures longer { length out.new.items ≤ length out.old.items + 20 }
{
    if n < 10_000 {
        put_short(out, n);
    } else if n < 100_000_000 {
        let low = n % 10_000;
        put_short(out, n / 10_000);
        put_pair(out, low / 100);
        put_pair(out, low % 100);
    } else {
        put_long(out, n);
    }
}

/// Appends a number of nine digits or more. Out of line.
#[inline(never)]
fn put_long<const CAP: usize>(out: &mut ArrayVec<u8, CAP>, n: u64)
    requires long { 100000000 ≤ n }
    requires room { length out.old.items + 20 ≤ CAP }
    ensures items { out.new.items ≡ out.old.items ++ decimal n }
    ensures longer { length out.new.items ≤ length out.old.items + 20 }
{
    if n < 1_000_000_000_000 {
        put_usual(out, n);
    } else {
        put(out, Buffer::new().format(n).as_bytes());
    }
}

/// Appends a number of nine to twelve digits, as most long ones are: a first frame up to 2^36 has
/// eleven.
#[inline(always)]
fn put_usual<const CAP: usize>(out: &mut ArrayVec<u8, CAP>, n: u64)
    requires long { 100000000 ≤ n }
    requires short { n < 1000000000000 }
    requires room { length out.old.items + 20 ≤ CAP }
    ensures items { out.new.items ≡ out.old.items ++ decimal n }
    ensures longer { length out.new.items ≤ length out.old.items + 20 }
{
    let high = n / 100_000_000;
    let low = n % 100_000_000;
    let middle = low / 10_000;
    let last = low % 10_000;
    put_short(out, high);
    put_pair(out, middle / 100);
    put_pair(out, middle % 100);
    put_pair(out, last / 100);
    put_pair(out, last % 100);
}

/// Appends the text of a number of at most four digits.
#[inline(always)]
fn put_short<const CAP: usize>(out: &mut ArrayVec<u8, CAP>, n: u64)
    requires short { n < 10000 }
    requires room { length out.old.items + 4 ≤ CAP }
    ensures items { out.new.items ≡ out.old.items ++ decimal n }
    ensures longer { length out.new.items ≤ length out.old.items + 4 }
{
    if n < 100 {
        put_shorter(out, n);
    } else {
        put_shorter(out, n / 100);
        put_pair(out, n % 100);
    }
}

/// Appends the text of a number of one or two digits.
#[inline(always)]
fn put_shorter<const CAP: usize>(out: &mut ArrayVec<u8, CAP>, n: u64)
    requires short { n < 100 }
    requires room { length out.old.items + 2 ≤ CAP }
    ensures items { out.new.items ≡ out.old.items ++ decimal n }
    ensures longer { length out.new.items ≤ length out.old.items + 2 }
{
    if n < 10 {
        out.push(b'0' + n as u8);
    } else {
        put_pair(out, n);
    }
}

/// Appends two digits, of which the first one may be a `0`.
#[inline(always)]
fn put_pair<const CAP: usize>(out: &mut ArrayVec<u8, CAP>, n: u64)
    requires short { n < 100 }
    requires room { length out.old.items + 2 ≤ CAP }
    ensures { out.new.items ≡ out.old.items ++ (48 + n / 10) ∷ (48 + n % 10) ∷ [] }
{
    let at = n as usize * 2;
    out.push(PAIRS[at]);
    out.push(PAIRS[at + 1]);
}

/// Appends a word that the caller names. Inlined, its bytes are a store or two, with no test
/// whether they lie in `out`.
#[inline(always)]
fn put_word<const CAP: usize>(out: &mut ArrayVec<u8, CAP>, word: &[u8])
    requires { length out.old.items + length word.now ≤ CAP }
    ensures items { out.new.items ≡ out.old.items ++ word.now }
{
    for byte in word {
        out.push(*byte);
    }
}

/// Appends the word, and two numbers with a space before each, for which there is room.
#[inline(always)]
pub fn put_two_numbers<const CAP: usize>(out: &mut ArrayVec<u8, CAP>, word: &[u8], a: u64, b: u64)
    requires { length out.old.items + length word.now + 42 ≤ CAP }
    ensures items { out.new.items ≡ out.old.items ++ numbers_line word.now (a ∷ b ∷ []) }
    ensures longer { length out.new.items ≤ length out.old.items + length word.now + 42 }
{
    put_word(out, word);
    put_spaced(out, a, b);
}

/// Appends the two numbers, with a space before each. The first one is mostly a frame, and is then
/// written with no call, around which registers would be saved.
#[inline(never)]
fn put_spaced<const CAP: usize>(out: &mut ArrayVec<u8, CAP>, a: u64, b: u64)
    requires { length out.old.items + 42 ≤ CAP }
    ensures items { out.new.items ≡ out.old.items ++ spaced_words (decimal a ∷ decimal b ∷ []) }
    ensures longer { length out.new.items ≤ length out.old.items + 42 }
{
    if a < 100_000_000 || a >= 1_000_000_000_000 {
        put_any_spaced(out, a, b);
        return;
    }
    out.push(b' ');
    put_usual(out, a);
    out.push(b' ');
    put_number(out, b);
}

/// Appends a space and a number, twice, whatever the numbers are.
#[inline(never)]
fn put_any_spaced<const CAP: usize>(out: &mut ArrayVec<u8, CAP>, a: u64, b: u64)
    requires { length out.old.items + 42 ≤ CAP }
    ensures items { out.new.items ≡ out.old.items ++ spaced_words (decimal a ∷ decimal b ∷ []) }
    ensures longer { length out.new.items ≤ length out.old.items + 42 }
{
    out.push(b' ');
    put_number(out, a);
    out.push(b' ');
    put_number(out, b);
}

/// Appends the word, and each number with a space before it, for which there is room.
pub fn put_numbers<const CAP: usize>(out: &mut ArrayVec<u8, CAP>, word: &[u8], ns: &[u64])
    requires { length out.old.items + length word.now + 21 * length ns.now ≤ CAP }
    ensures items { out.new.items ≡ out.old.items ++ numbers_line word.now ns.now }
    ensures longer { length out.new.items ≤ length out.old.items + length word.now + 21 * length
        ns.now }
{
    put(out, word);
    for n in ns {
        put(out, b" ");
        put_number(out, *n);
    }
}

/// Appends the refusal's line without its LF, at most 63 bytes, for which there is room.
pub fn put_refusal<const CAP: usize>(out: &mut ArrayVec<u8, CAP>, refusal: Refusal)
    requires { length out.old.items + 63 ≤ CAP }
    ensures items { out.new.items ≡ out.old.items ++ refusal_line refusal }
    ensures longer { length out.new.items ≤ length out.old.items + 63 }
{
    put_numbers(out, b"no", &[u64::from(refusal.number())]);
    put(out, b" ");
    put(out, refusal.name().as_bytes());
}

/// Appends the bytes. Refused by `NoMemory`, which appends nothing and comes only where `out` has
/// to grow.
pub fn append<const CAP: usize>(out: &mut Vec<u8>, bytes: &ArrayVec<u8, CAP>) -> Result<(), Refusal>
    ensures ok { OnOk result (out.new.items ≡ out.old.items ++ bytes.now.items) }
    ensures err { OnErr result ((result ≡ Err Refusal.NoMemory) × (out.new.items ≡ out.old.items)) }
    ensures full { OnErr result (vec_capacity out.old < vec_len out.old + length bytes.now.items) }
    ensures room { vec_capacity out.old ≤ vec_capacity out.new }
{
    match out.extend_from_slice(bytes.as_slice()) {
        Ok(()) => Ok(()),
        Err(_) => Err(Refusal::NoMemory),
    }
}
