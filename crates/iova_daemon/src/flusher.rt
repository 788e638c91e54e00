//! The flusher: rounds beside the workers, and flushes ahead of them.
ghost use Rattle.std.specs.Prelude.{◌≡◌};
ghost use Rattle.iova_daemon.specs.Serving.{RoundsOnThread};

use crate::daemon_state::DaemonState;
use iova_keep::calls::{flush, timeout};
use iova_keep::keep::Keep;
use iova_keep::names::Names;
use iova_keep::seat::Tally;
use iova_links::pause::{Pause, milliseconds};
use iova_range::limits::{FLUSH_PAUSE, MAX_FLUSH_PAUSE};
use iova_range::refusal::Refusal;
use iova_sink::sink::Sink;
use log::{Log, warn};
use std::rt::Clock;
use std::sync::Wait;

/// So many frames in rings, at least, let the flusher think that a ring may soon be full.
pub(crate) const FLUSH_AHEAD: u64 = 128;

/// Where a worker finds its ring full, later flushes ahead wait for fewer frames, by one part of so
/// many. Half as many would have a third more flushes made.
const FALL: u64 = 32;

/// How many looks the flusher takes at a busy domain between two rounds.
const LOOKS: u64 = 64;

/// What the flusher has: a keeper of the domain, a tally and a sink of its own, and its pauses.
#[derive(Drop)]
pub(crate) struct Flusher<'e, R, N, K, B: Names, D, P> {
    pub rt: &'e R,
    pub notices: &'e N,
    pub keeper: K,
    pub tally: Tally<B>,
    pub sink: D,
    pub pause: P,
    pub daemon_state: &'e DaemonState,
    /// Whether the domain is busy.
    pub is_busy: bool,
    /// How many frames are to be in rings for a flush ahead: the most with which workers seldom
    /// find a ring full.
    pub mark: u64,
    /// How long it pauses behind a flush that failed, in milliseconds; 0 where the last one didn't.
    pub rest: u64,
}

impl<'e, R, N, K, B, D, P> Flusher<'e, R, N, K, B, D, P>
where
    R: Wait + Clock,
    N: Log,
    B: Names,
    K: Keep<B>,
    D: Sink,
    P: Pause,
{
    /// Makes rounds, with pauses between them, as `serve_sessions` says. Where a round freed many
    /// entries or a flush was made ahead before it, it flushes ahead in place of the next pause.
    pub(crate) fn go_on(&mut self)
        ensures { RoundsOnThread (K.identity self.old.keeper).number self.old.tally self.new.tally
            (D.calls self.old.sink) (D.calls self.new.sink) }
    {
        self.daemon_state.end_round(milliseconds(self.rt));
        for _ in self.rt.forever() {
            if !rests(&mut self.pause, self.daemon_state, self.rest) {
                return;
            }
            let looked = self.is_busy && self.go_ahead();
            if (!looked && !self.pause.pause()) || self.daemon_state.have_ended() {
                return;
            }
            let begun = milliseconds(self.rt);
            let round = timeout(&mut self.keeper, &mut self.tally, &mut self.sink);
            if let Ok(freed) = round {
                self.daemon_state.end_round(begun);
                self.is_busy |= freed >= FLUSH_AHEAD;
            }
            let longer = self.rest.saturating_mul(2);
            self.rest = match round {
                Err(Refusal::SinkFault) => longer.clamp(FLUSH_PAUSE, MAX_FLUSH_PAUSE),
                _ => 0,
            };
            note_round(self.notices, round);
        }
        unreachable!()
    }

    /// Flushes before the next round is due, where so much waits in rings that workers would soon
    /// find them full: so these needn't flush themselves, and wait for the sink. What was flushed
    /// they drain at their next unmap; so rings in which as much waits as at the last flush made
    /// here have most likely nothing new. False where it ended early: where no look is to be made,
    /// where all workers have ended, and where a flush is refused, which is a notice.
    fn go_ahead(&mut self) -> bool
        ensures same { K.identity self.new.keeper ≡ K.identity self.old.keeper }
        ensures rounds { RoundsOnThread (K.identity self.old.keeper).number self.old.tally
            self.new.tally (D.calls self.old.sink) (D.calls self.new.sink) }
    {
        self.is_busy = false;
        let mut start = self.keeper.stat().start;
        let mut flushed = 0;
        for _ in 0..LOOKS {
            if self.daemon_state.have_ended() || !self.pause.pause_shortly() {
                return false;
            }
            let stat = self.keeper.stat();
            let mut mark = self.mark;
            if stat.start != start {
                // a worker found its ring full
                start = stat.start;
                mark = mark.saturating_sub(mark / FALL).max(FLUSH_AHEAD / 2);
                self.mark = mark;
            }
            if stat.ring >= mark && stat.ring != flushed {
                flushed = stat.ring;
                match flush(&mut self.keeper, &mut self.tally, &mut self.sink) {
                    Ok(number) => {
                        start = number;
                        self.is_busy = true;
                        self.mark = mark.saturating_add(mark / 16);
                    }
                    Err(refusal) => {
                        note_round(self.notices, Err(refusal));
                        return false;
                    }
                }
            }
        }
        true
    }
}

/// Pauses for this time, behind a flush that failed. False where a pause says stop, or all workers
/// have ended.
fn rests<P: Pause>(pause: &mut P, daemon_state: &DaemonState, rest: u64) -> bool {
    for _ in 0..rest / FLUSH_PAUSE {
        if daemon_state.have_ended() || !pause.pause() {
            return false;
        }
    }
    true
}

/// A round that is refused is a notice. Of a sink that failed there is one already (`NotingSink`).
fn note_round<N: Log>(notices: &N, round: Result<u64, Refusal>) {
    match round {
        Ok(_) | Err(Refusal::SinkFault) => {}
        Err(refusal) => warn!(notices; target: "flush", "the flusher is refused: {refusal}"),
    }
}
