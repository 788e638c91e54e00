//! A sink whose failures are notices.
ghost use Rattle.std.specs.Prelude.{◌≡◌};

use iova_range::range::Range;
use iova_session::end::End;
use iova_sink::sink::{Sink, SinkFault};
use log::{Log, debug, warn};

/// A sink, each of whose failures is a notice.
#[derive(Drop)]
pub struct NotingSink<'a, D, N> {
    sink: D,
    notices: &'a N,
    /// How many ranges the clients held that it reported since a session began.
    gone: u64,
}

impl<'a, D, N> NotingSink<'a, D, N> {
    /// This sink, whose notices go here.
    pub fn new(sink: D, notices: &'a N) -> NotingSink<'a, D, N>
        ensures sink { result.sink ≡ sink }
        ensures notices { result.notices ≡ notices.entry }
    {
        NotingSink {
            sink,
            notices,
            gone: 0,
        }
    }

    /// The sink.
    pub fn into_sink(self) -> D
        ensures { result ≡ self.entry.sink }
    {
        let NotingSink {
            sink,
            notices: _,
            gone: _,
        } = self;
        sink
    }

    /// A session begins.
    pub fn begin_session(&mut self)
        ensures { self.new.sink ≡ self.old.sink }
    {
        self.gone = 0;
    }

    /// How many ranges the clients held that it reported since a session began.
    pub fn ranges_gone(&self) -> u64 {
        self.gone
    }
}

impl<'a, D: Sink, N: Log> Sink for NotingSink<'a, D, N> {
    ghost calls = { λ s. D.calls s.sink };

    fn invalidate(&mut self, domain: u64, no: u64) -> Result<(), SinkFault> {
        let told = self.sink.invalidate(domain, no);
        if told.is_err() {
            note(self.notices, "flush", no, "the sink failed");
        }
        told
    }

    fn gone(&mut self, domain: u64, client: u64, ranges: &Vec<Range>) -> Result<(), SinkFault> {
        self.gone = self.gone.saturating_add(ranges.len() as u64);
        let told = self.sink.gone(domain, client, ranges);
        if told.is_err() {
            note(self.notices, "client", client, "the sink failed");
        }
        told
    }

    fn lock(&mut self) {
        self.sink.lock();
    }

    fn unlock(&mut self) {
        self.sink.unlock();
    }

    fn wait_for_turn(&mut self) -> bool {
        self.sink.wait_for_turn()
    }

    fn pass_on(&mut self) {
        self.sink.pass_on();
    }
}

/// A notice of what happened to the flush, the client or the session of this number. Its target is
/// the word, so that who takes notices may print those of a kind less often.
pub fn note<N: Log>(notices: &N, what: &str, number: u64, how: &str) {
    warn!(notices; target: what, "{what} {number}: {how}");
}

/// The last place for a session is taken, of so many.
pub fn note_full<N: Log>(notices: &N, places: u64) {
    let then = "who connects now waits";
    warn!(notices; target: "accept", "accept: the last of {places} places is taken: {then}");
}

/// A session's end is a warning where the link failed, or memory was refused, and where it asked
/// too much and its client held so many ranges, which go to others.
pub fn note_end<N: Log>(notices: &N, session: u64, end: End, held: u64) {
    match end {
        End::TooMany if held > 0 => {
            let how = "too many requests, with ranges in hand: they go to others";
            note(notices, "session", session, how);
        }
        End::LinkFault => note(notices, "session", session, "the link failed"),
        End::NoMemory => note(notices, "session", session, "no memory"),
        End::Bye => note_good_end(notices, session, "bye"),
        End::Closed => note_good_end(notices, session, "closed"),
        End::BadLine => note_good_end(notices, session, "a bad line"),
        End::TooMany => note_good_end(notices, session, "too many requests"),
    }
}

/// An end of a session that is as it should be, or its client's fault.
fn note_good_end<N: Log>(notices: &N, session: u64, how: &str) {
    debug!(notices; target: "", "session {session}: {how}");
}
