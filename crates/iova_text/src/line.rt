//! A line cut off at its LF.
ghost use Rattle.std.specs.Prelude.{◌≡◌, ◌++◌, IfSome, IfNone};
ghost use Rattle.iova_text.specs.Lines.{HasNoLf, whole_line};

use memchr::memchr;

/// The bytes before the first LF, and those after it. None where there is no LF.
#[inline]
pub fn cut_line(text: &[u8]) -> Option<(&[u8], &[u8])>
    ensures cut { IfSome result (λ p. text.now ≡ whole_line p.0.now ++ p.1.now) }
    ensures one { IfSome result (λ p. HasNoLf p.0.now) }
    ensures none { IfNone result (HasNoLf text.now) }
{
    let end = memchr(b'\n', text)?;
    Some((&text[..end], &text[end + 1..]))
}
