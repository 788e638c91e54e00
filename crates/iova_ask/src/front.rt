//! The whole lines at the front of what was read.
ghost use Rattle.iova_ask.specs.LineRuns.{IsRunOfLines};

use iova_range::limits::{MAX_LINE, MAX_RUN};
use iova_text::line::cut_line;

/// Lines that are sent together.
#[derive(Clone, Copy)]
pub(crate) struct LineRun {
    /// How many bytes they have, with their LFs.
    pub len: usize,
    /// How many they are.
    pub lines: u64,
    /// Whether the last of them is `bye`.
    pub is_last: bool,
}

/// The whole lines at the front of the bytes, at most 16, up to the first `bye`, and before a line
/// of more than 128 bytes.
pub(crate) fn run_in_front(bytes: &[u8]) -> LineRun
    ensures { IsRunOfLines bytes.now result }
{
    let mut rest = bytes;
    let mut len = 0;
    let mut lines = 0;
    while lines < MAX_RUN {
        let Some((line, after)) = cut_line(rest) else {
            return LineRun {
                len,
                lines: lines as u64,
                is_last: false,
            };
        };
        if line.len() >= MAX_LINE {
            return LineRun {
                len,
                lines: lines as u64,
                is_last: false,
            };
        }
        len += line.len() + 1;
        lines += 1;
        rest = after;
        if line == b"bye".as_slice() {
            return LineRun {
                len,
                lines: lines as u64,
                is_last: true,
            };
        }
    }
    LineRun {
        len,
        lines: lines as u64,
        is_last: false,
    }
}
