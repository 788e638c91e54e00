//! A stream of bytes that is cut into its lines.
ghost use Rattle.std.specs.Prelude.{◌≡◌, ◌+◌, ◌-◌, ◌<◌, ◌==◌, [], ◌++◌, true, false, IfSome, IfNone, length, take};
ghost use Rattle.iova_range.specs.declared.limits.TheConstants.{MAX_LINE};
ghost use Rattle.iova_text.specs.Lines.{HasNoLf, whole_line, IsUnended, IsOverlong};

use crate::buffer::{LineBuffer, put};
use crate::line::cut_line;
use iova_range::limits::MAX_LINE;
use std::marker::Model;

/// What has come of a line that has not ended: contracts see its bytes. Whoever feeds it a piece of
/// the stream cuts off the end of a line at the front of the piece (`cut`), again and again, and
/// keeps what is left where no line ends in it (`keep`). The whole line is that end itself where
/// nothing was kept, which copies no byte, and else it is put together (`end`). Takes no memory.
#[derive(Drop)]
pub struct LineCutter {
    kept: LineBuffer,
}

impl Model for LineCutter {
    ghost use Rattle.std.specs.Prelude.{ℕ, List};
    ghost use Rattle.iova_text.specs.Lines.{IsUnended};

    ghost Value = { List ℕ };

    ghost view = { λ c. c.kept.items };

    ghost invariant = { λ c. IsUnended c.kept.items };
}

impl LineCutter {
    /// Nothing has come.
    pub fn new() -> LineCutter
        ensures { result ≡ [] }
    {
        LineCutter {
            kept: LineBuffer::new(),
        }
    }

    /// Whether nothing is kept.
    #[inline]
    pub fn is_empty(&self) -> bool
        ensures value { result ≡ (length self.now == 0) }
        ensures unended { IsUnended self.now }
    {
        self.kept.is_empty()
    }

    /// The end of the line at the front of the piece, without its LF, and what comes after it. None
    /// where the line doesn't end in the piece, or is too long. Looks at 128 bytes at most.
    #[inline]
    pub fn cut<'a>(&self, piece: &'a [u8]) -> Option<(&'a [u8], &'a [u8])>
        ensures cut { IfSome result (λ p. piece.now ≡ whole_line p.0.now ++ p.1.now) }
        ensures one { IfSome result (λ p. HasNoLf p.0.now) }
        ensures short { IfSome result (λ p. length self.now + length p.0.now < MAX_LINE) }
        ensures none { IfNone result (HasNoLf (take (MAX_LINE - length self.now) piece.now)) }
    {
        let room = MAX_LINE - self.kept.len();
        let (end, _behind) = cut_line(&piece[..piece.len().min(room)])?;
        Some((end, &piece[end.len() + 1..]))
    }

    /// The whole line that has this end, put together. Nothing is kept then.
    pub fn end(&mut self, end: &[u8]) -> LineBuffer
        requires one { HasNoLf end.now }
        requires short { length self.old + length end.now < MAX_LINE }
        ensures line { result.items ≡ self.old ++ end.now }
        ensures one { HasNoLf result.items }
        ensures empty { self.new ≡ [] }
    {
        let mut line = self.kept.take();
        put(&mut line, end);
        line
    }

    /// Keeps the piece, in which the line doesn't end. False where it is too long: then nothing of
    /// the piece is kept.
    #[inline]
    pub fn keep(&mut self, piece: &[u8]) -> bool
        requires { HasNoLf (take (MAX_LINE - length self.old) piece.now) }
        ensures kept { result ≡ true
            → IsUnended (self.old ++ piece.now) × (self.new ≡ self.old ++ piece.now) }
        ensures long { result ≡ false
            → IsOverlong (self.old ++ piece.now) × (self.new ≡ self.old) }
    {
        if self.kept.len() + piece.len() >= MAX_LINE {
            return false;
        }
        put(&mut self.kept, piece);
        true
    }
}
