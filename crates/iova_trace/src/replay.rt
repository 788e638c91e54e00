//! A trace replayed from a reader to a writer, one line after another.
ghost use Rattle.std.specs.Prelude.{◌≡◌, ◌+◌, ◌-◌, ◌<◌, ◌≤◌, ◌⊎◌, ℕ, length, take, IfOk, IfErr, OnOk, OnErr};
ghost use Rattle.std.specs.Io.KnownBytes.{Appends};
ghost use Rattle.iova_range.specs.declared.limits.TheConstants.{MAX_LINE, MAX_STEPS};
ghost use Rattle.iova_text.specs.Lines.{IsUnended};
ghost use Rattle.iova_trace.specs.Logged.{ReplaysAndLogs};
ghost use Rattle.iova_trace.specs.Replay.{Replays};

use crate::fault::ReplayFault;
use crate::log::{Log, NoLog};
use crate::reply::write_reply;
use iova_core::domain::Domain;
use iova_laws::promises::promises_are_kept;
use iova_laws::validity::new_domains_are_valid;
use iova_line::line::read_header;
use iova_line::trace::next_step;
use iova_range::limits::{MAX_LINE, MAX_READS};
use iova_text::cutter::LineCutter;
use iova_text::read::read_some;
use iova_text::write::{WriteFault, write_all};
use std::alloc::Global;
use std::io::{Read, Write};

/// How many bytes are read, or gathered before they are written.
const BUFFER: usize = 65_536;

/// Replays a trace: reads its lines, runs its steps in a new domain, and writes a line for each
/// reply. It gives the domain as the last step left it, and the number of steps. One line is kept
/// at a time, and replies are written before each read, so that a peer that waits for a reply gets
/// it.
///
/// The answer is the fault of the earliest line. `BadTrace` where a line is none of a trace's,
/// where it is the line of step 1,000,001, or where the input ends in a line without LF; the
/// replies to the lines before it are written. `ReadFault` where a read fails, an interruption too,
/// or after 134,217,728 reads; the replies to all whole lines are written. `WriteFault` where a
/// write fails or takes nothing, and `NoMemory`: some first bytes of the replies are written.
pub fn replay<R: Read, W: Write>(
    alloc: Global,
    reader: &mut R,
    writer: &mut W,
) -> Result<(Domain, u64), ReplayFault>
    ensures { Replays (R.remaining reader.old) (R.remaining reader.new)
        (W.contents writer.old) (W.contents writer.new) result }
{
    replay_and_log(alloc, reader, writer, &mut NoLog)
}

/// Replays a trace as `replay` does, and writes its log: the header, and the line of each step that
/// has one, as it is run. `WriteFault` also where the log can't be written or handed on. The log
/// has what was said by the lines whose replies are written; at `WriteFault` and `NoMemory` some
/// first bytes of that.
pub fn replay_and_log<R: Read, W: Write, L: Log>(
    alloc: Global,
    reader: &mut R,
    writer: &mut W,
    log: &mut L,
) -> Result<(Domain, u64), ReplayFault>
    ensures { ReplaysAndLogs (R.remaining reader.old) (R.remaining reader.new)
        (W.contents writer.old) (W.contents writer.new) (L.contents log.old) (L.contents log.new)
        result }
{
    let replayed = replay_lines(alloc, reader, writer, log);
    let flushed = log.flush();
    closed(replayed, flushed)
}

/// What a replay answers once its log was handed on.
fn closed(
    replayed: Result<(Domain, u64), ReplayFault>,
    flushed: Result<(), WriteFault>,
) -> Result<(Domain, u64), ReplayFault>
    ensures { (result ≡ replayed) ⊎ (result ≡ Err ReplayFault.WriteFault) }
{
    match flushed {
        Ok(()) => replayed,
        Err(_) => {
            drop(replayed);
            Err(ReplayFault::WriteFault)
        }
    }
}

/// Replays the lines, and leaves what the log keeps back.
fn replay_lines<R: Read, W: Write, L: Log>(
    alloc: Global,
    reader: &mut R,
    writer: &mut W,
    log: &mut L,
) -> Result<(Domain, u64), ReplayFault>
    ensures { ReplaysAndLogs (R.remaining reader.old) (R.remaining reader.new)
        (W.contents writer.old) (W.contents writer.new) (L.contents log.old) (L.contents log.new)
        result }
{
    let mut input: Vec<u8> = vec![in alloc; 0u8; BUFFER]?;
    let mut state = ReplayState::new(alloc)?;
    for _ in 0..MAX_READS {
        match read_some(reader, &mut input)? {
            0 => return state.finish(),
            len => state.replay_piece(&input[..len], writer, log)?,
        }
    }
    Err(ReplayFault::ReadFault)
}

/// How far a replay has come.
#[derive(Drop)]
struct ReplayState {
    alloc: Global,
    /// The domain, once the header has been read.
    domain: Option<Domain>,
    /// How many steps have been run.
    steps: u64,
    /// What has come of a line that has not ended.
    line: LineCutter,
    /// Replies that have not been written.
    replies: Vec<u8>,
    ghost few: { steps ≤ MAX_STEPS },
    ghost unended: { IsUnended line },
}

impl ReplayState {
    ghost use Rattle.std.specs.Prelude.{List, Option, []};
    ghost use Rattle.iova_text.specs.Lines.{HasNoLf, whole_line};
    ghost use Rattle.iova_trace.specs.ReplayState.{HasTaken, number_at, TakesBytes, Outcome, Closes};

    fn new(alloc: Global) -> Result<Self, ReplayFault>
        ensures ok { IfOk result (λ p. (log : Option (List ℕ)) → HasTaken [] [] log log p) }
        ensures none { IfOk result (λ p. p.replies.items ≡ []) }
        ensures err { OnErr result (result ≡ Err ReplayFault.NoMemory) }
    {
        Ok(ReplayState {
            alloc,
            domain: None,
            steps: 0,
            line: LineCutter::new(),
            replies: Vec::with_capacity(alloc, BUFFER)?,
        })
    }

    /// The number of the line that comes next, the header being line 1.
    fn number(&self) -> u64
        ensures { result ≡ number_at self.now.domain self.now.steps }
    {
        if self.domain.is_none() {
            1
        } else {
            self.steps + 2
        }
    }

    /// Takes the next bytes of the trace, and writes the replies to the lines that they end.
    fn replay_piece<W: Write, L: Log>(
        &mut self,
        piece: &[u8],
        writer: &mut W,
        log: &mut L,
    ) -> Result<(), ReplayFault>
        ensures outcome { (more : List ℕ)
            × Appends (W.contents writer.old) (W.contents writer.new) more
            × Outcome self.old (L.contents log.old) piece.now more self.new (L.contents log.new)
            result }
        ensures written { OnOk result (self.new.replies.items ≡ []) }
    {
        let mut rest = piece;
        while let Some((end, behind)) = self.line.cut(rest) {
            rest = behind;
            self.reply_to_line(end, writer, log)?;
        }
        let kept = self.keep_part(rest);
        self.write_replies(writer)?;
        kept
    }

    /// Takes the end of a line, without its LF, and writes the replies where they are many. Where
    /// the line is refused, the replies to those before it are written first.
    fn reply_to_line<W: Write, L: Log>(
        &mut self,
        end: &[u8],
        writer: &mut W,
        log: &mut L,
    ) -> Result<(), ReplayFault>
        requires one { HasNoLf end.now }
        requires short { length self.old.line + length end.now < MAX_LINE }
        ensures { (more : List ℕ) × Appends (W.contents writer.old) (W.contents writer.new) more
            × Outcome self.old (L.contents log.old) (whole_line end.now) more self.new
            (L.contents log.new) result }
    {
        let ended = self.complete_line(end, log);
        if ended.is_err() || self.replies.len() > BUFFER - MAX_LINE {
            self.write_replies(writer)?;
        }
        ended
    }

    /// Takes the end of a line, without its LF.
    fn complete_line<L: Log>(&mut self, end: &[u8], log: &mut L) -> Result<(), ReplayFault>
        requires one { HasNoLf end.now }
        requires short { length self.old.line + length end.now < MAX_LINE }
        ensures { TakesBytes self.old (L.contents log.old) (whole_line end.now) self.new
            (L.contents log.new) result }
    {
        if self.line.is_empty() {
            return self.run_line(end, log);
        }
        let line = self.line.end(end);
        self.run_line(line.as_slice(), log)
    }

    /// Keeps what has come of a line. One that is too long is refused.
    fn keep_part(&mut self, bytes: &[u8]) -> Result<(), ReplayFault>
        requires { HasNoLf (take (MAX_LINE - length self.old.line) bytes.now) }
        ensures takes { (log : Option (List ℕ))
            → TakesBytes self.old log bytes.now self.new log result }
        ensures replies { self.new.replies.items ≡ self.old.replies.items }
    {
        if self.line.keep(bytes) {
            Ok(())
        } else {
            Err(ReplayFault::BadTrace(self.number()))
        }
    }

    /// Takes a whole line, the header first.
    fn run_line<L: Log>(&mut self, line: &[u8], log: &mut L) -> Result<(), ReplayFault>
        requires one { HasNoLf line.now }
        requires fresh { self.old.line ≡ [] }
        ensures { TakesBytes self.old (L.contents log.old) (whole_line line.now) self.new
            (L.contents log.new) result }
    {
        // for the proof: the steps so far keep the promises
        promises_are_kept();
        new_domains_are_valid();
        if self.domain.is_none() {
            return self.run_header(line, log);
        }
        let number = self.number();
        let Some(domain) = &mut self.domain else {
            unreachable!();
        };
        let Some(step) = next_step(line, self.steps) else {
            return Err(ReplayFault::BadTrace(number));
        };
        let reply = domain.step(step);
        self.steps += 1;
        match log.log_step(&step, &reply) {
            Ok(()) => {}
            Err(_) => return Err(ReplayFault::WriteFault),
        }
        match write_reply(&reply, &mut self.replies) {
            Ok(()) => Ok(()),
            Err(_) => Err(ReplayFault::NoMemory),
        }
    }

    fn run_header<L: Log>(&mut self, line: &[u8], log: &mut L) -> Result<(), ReplayFault>
        requires one { HasNoLf line.now }
        requires fresh { self.old.line ≡ [] }
        requires first { self.old.domain ≡ None }
        ensures { TakesBytes self.old (L.contents log.old) (whole_line line.now) self.new
            (L.contents log.new) result }
    {
        // for the proof: so does a new domain
        promises_are_kept();
        new_domains_are_valid();
        let Some(header) = read_header(line) else {
            return Err(ReplayFault::BadTrace(1));
        };
        match Domain::new(self.alloc, header.bounds, header.workers) {
            Ok(domain) => {
                self.domain = Some(domain);
                match log.log_bounds(&header.bounds) {
                    Ok(()) => Ok(()),
                    Err(_) => Err(ReplayFault::WriteFault),
                }
            }
            Err(_) => Err(ReplayFault::NoMemory),
        }
    }

    /// Writes the replies that have been gathered.
    fn write_replies<W: Write>(&mut self, writer: &mut W) -> Result<(), ReplayFault>
        ensures ok { OnOk result (Appends (W.contents writer.old) (W.contents writer.new)
            self.old.replies.items) }
        ensures none { OnOk result (self.new.replies.items ≡ []) }
        ensures same { self.new ≡ record self.old { replies = self.new.replies } }
        ensures err { IfErr result (λ e. (e ≡ ReplayFault.WriteFault)
            × ((n : ℕ) × Appends (W.contents writer.old) (W.contents writer.new)
            (take n self.old.replies.items))) }
    {
        if self.replies.is_empty() {
            return Ok(());
        }
        write_all(writer, &self.replies)?;
        self.replies.clear();
        Ok(())
    }

    /// The result of the replay where the trace ends here.
    fn finish(self) -> Result<(Domain, u64), ReplayFault>
        requires { self.replies.items ≡ [] }
        ensures { (taken written : List ℕ) (before now : Option (List ℕ))
            → HasTaken taken written before now self
            → Closes taken written result }
    {
        let number = self.number();
        if !self.line.is_empty() {
            return Err(ReplayFault::BadTrace(number));
        }
        let ReplayState {
            alloc: _,
            domain,
            steps,
            line: _,
            replies: _,
        } = self;
        match domain {
            Some(domain) => Ok((domain, steps)),
            None => Err(ReplayFault::BadTrace(number)),
        }
    }
}
