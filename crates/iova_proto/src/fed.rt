//! What a piece of a stream gives.
use crate::request::Request;

/// What a piece of a stream gives.
#[derive(Clone, Copy, Debug, PartialEq, Eq)]
pub enum Fed {
    /// The first line is this request's. It ends after so many bytes of the piece; the others were
    /// not looked at.
    Request(Request, usize),
    /// No line has ended yet. All of the piece is kept.
    More,
    /// The first line is no request's, or has 128 bytes and no LF. From now on each piece gives
    /// this.
    Bad,
}
