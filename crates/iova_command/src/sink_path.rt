//! Where the flushes of a daemon go.
ghost use Rattle.std.specs.Prelude.{IfSome};
ghost use Rattle.clap.specs.Words.{rows_of, found_of};
ghost use Rattle.iova_command.specs.Sinks.{HasSink, IsPathOf};

use clap::ArgMatches;

/// Where the flushes of a daemon go.
#[derive(Clone, Copy, Debug)]
pub enum SinkPath<'a> {
    /// To a peer that answers, which listens at the socket at this path.
    Peer(&'a str),
    /// To the file at this path, as records, which nobody answers.
    File(&'a str),
}

impl<'a> SinkPath<'a> {
    /// What the matches of `serve` say. None where a peer and a file are named, or neither is.
    pub(crate) fn of(found: &ArgMatches<'a>) -> Option<SinkPath<'a>>
        ensures { IfSome result (λ s. HasSink (rows_of (found_of found.now)) s) }
    {
        match (found.get_str("peer"), found.get_str("sink")) {
            (Some(path), None) => Some(SinkPath::Peer(path)),
            (None, Some(path)) => Some(SinkPath::File(path)),
            _ => None,
        }
    }

    /// The path.
    pub fn path(self) -> &'a str
        ensures { IsPathOf self.entry result.now }
    {
        match self {
            SinkPath::Peer(path) => path,
            SinkPath::File(path) => path,
        }
    }
}
