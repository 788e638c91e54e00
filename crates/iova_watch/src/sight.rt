//! What is counted of a daemon at one time, read from its metrics.

/// The places of a frame, as the report has them.
pub(crate) const PLACES: [&str; 6] = ["free", "reserved", "client", "magazine", "depot", "ring"];

/// The metrics of the places, in that order.
const FRAMES: [&str; 6] = [
    "iovad_frames{place=\"free\"}",
    "iovad_frames{place=\"reserved\"}",
    "iovad_frames{place=\"client\"}",
    "iovad_frames{place=\"magazine\"}",
    "iovad_frames{place=\"depot\"}",
    "iovad_frames{place=\"ring\"}",
];

/// What is counted of a daemon at one time.
#[derive(Clone, Copy)]
pub(crate) struct Sight {
    /// When it was looked at, in milliseconds of the clock.
    time: u64,
    requests: u64,
    allocs: u64,
    frees: u64,
    refusals: u64,
    begun: u64,
    /// Flushes that failed.
    pub failed: u64,
    /// Failed flushes that none has made up for.
    pub owed: u64,
    /// Sessions that are served.
    pub sessions: u64,
    /// The most of them at a time.
    pub clients: u64,
    /// Clients whose end waits.
    pub waiting: u64,
    /// Frames, by place.
    pub places: [u64; 6],
    /// How long a range has waited in a ring, at most, in milliseconds.
    pub oldest: u64,
    /// Whether a peer answers.
    pub has_peer: bool,
}

/// How much was counted in a second.
#[derive(Clone, Copy)]
pub(crate) struct Rates {
    pub requests: u64,
    pub allocs: u64,
    pub frees: u64,
    pub refusals: u64,
    pub flushes: u64,
    pub failed: u64,
}

impl Sight {
    /// What this text of metrics says, at this time. A metric that isn't there is 0.
    pub(crate) fn of(text: &str, time: u64) -> Sight {
        let mut places = [0; 6];
        for (frames, name) in places.iter_mut().zip(FRAMES) {
            *frames = metric(text, name);
        }
        Sight {
            time,
            requests: metric(text, "iovad_requests_total"),
            allocs: metric(text, "iovad_allocs_total"),
            frees: metric(text, "iovad_frees_total"),
            refusals: all_refusals(text),
            begun: metric(text, "iovad_flushes_begun_total"),
            failed: metric(text, "iovad_flushes_failed_total"),
            owed: metric(text, "iovad_flushes_owed"),
            sessions: metric(text, "iovad_sessions"),
            clients: metric(text, "iovad_clients"),
            waiting: metric(text, "iovad_clients_waiting"),
            places,
            oldest: thousandths(word_of(text, "iovad_oldest_wait_seconds")),
            has_peer: metric(text, "iovad_sink{kind=\"peer\"}") == 1,
        }
    }

    /// All frames of the domain.
    pub(crate) fn frames(&self) -> u64 {
        let mut frames = 0u64;
        for place in self.places {
            frames = frames.saturating_add(place);
        }
        frames
    }

    /// A second's part of what was counted since the look before. Where a count is less than it
    /// was, another daemon has begun to count.
    pub(crate) fn rates_since(&self, before: Sight) -> Rates {
        let time = self.time.saturating_sub(before.time);
        Rates {
            requests: rate(before.requests, self.requests, time),
            allocs: rate(before.allocs, self.allocs, time),
            frees: rate(before.frees, self.frees, time),
            refusals: rate(before.refusals, self.refusals, time),
            flushes: rate(before.begun, self.begun, time),
            failed: rate(before.failed, self.failed, time),
        }
    }
}

/// A second's part of what a count has grown by in so many milliseconds, rounded up, so that one
/// refusal in an hour is seen.
fn rate(before: u64, now: u64, milliseconds: u64) -> u64 {
    let more = match now.checked_sub(before) {
        Some(more) => more,
        None => now,
    };
    more.saturating_mul(1_000).div_ceil(milliseconds.max(1))
}

/// The number of this name; 0 where there is none.
fn metric(text: &str, name: &str) -> u64 {
    word_of(text, name).parse::<u64>().unwrap_or(0)
}

/// What stands behind this name.
fn word_of<'t>(text: &'t str, name: &str) -> &'t str {
    for line in text.lines() {
        let mut words = line.split(' ');
        if words.next() == Some(name) {
            return words.next().unwrap_or("");
        }
    }
    ""
}

/// How many requests were refused, whatever the number.
fn all_refusals(text: &str) -> u64 {
    let mut refusals = 0u64;
    for line in text.lines() {
        let mut words = line.split(' ');
        let name = words.next().unwrap_or("");
        if name.starts_with("iovad_refusals_total{") {
            let number = words.next().unwrap_or("").parse::<u64>().unwrap_or(0);
            refusals = refusals.saturating_add(number);
        }
    }
    refusals
}

/// A number of seconds with three places behind its point, in milliseconds.
fn thousandths(seconds: &str) -> u64 {
    let mut parts = seconds.split('.');
    let whole = parts.next().unwrap_or("").parse::<u64>().unwrap_or(0);
    let left = parts.next().unwrap_or("").parse::<u64>().unwrap_or(0);
    whole.saturating_mul(1_000).saturating_add(left)
}
