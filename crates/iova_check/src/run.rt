//! A log checked from a reader to a writer, one line after another.
ghost use Rattle.std.specs.Prelude.{◌≡◌, ◌<◌, ℕ, [], ◌∷◌, Option, take, length, IfOk, IfErr, OnOk, OnErr};
ghost use Rattle.std.specs.Io.KnownBytes.{Appends};
ghost use Rattle.iova_check.specs.declared.source.Source.{Source};
ghost use Rattle.iova_check.specs.CheckState.{IsBegun, is_last};
ghost use Rattle.iova_check.specs.AllowedBounds.{bounds_asked};
ghost use Rattle.iova_check.specs.Checking.{HasChecked};
ghost use Rattle.iova_check.specs.Runs.{Checks, Counts, ChecksAndCounts};

use crate::allowed::{Allowed, LogBounds};
use crate::checker::Checker;
use crate::event::{Event, OtherLine};
use crate::fault::CheckFault;
use crate::line::{read_event, read_header};
use crate::notice::{tell_of_trace, tell_overlong, tell_refused};
use crate::reason::{Reason, other_form, why_no_event, why_no_header};
use crate::source::{Form, Source};
use crate::summary::summary;
use crate::trace::read_trace_line;
use arrayvec::ArrayVec;
use iova_range::limits::{MAX_LINE, MAX_TRACE_LINE, WIDE_TOP};
use iova_text::buffer::put;
use iova_text::line::cut_line;
use iova_text::read::read_some;
use iova_text::write::write_all;
use std::alloc::{AllocError, Global};
use std::io;
use std::io::{Read, Write};

/// How many bytes are read, or gathered before they are written.
const BUFFER: usize = 65_536;

/// Checks a log under the bounds of its header, or those that are asked for in their place, and
/// without the windows: reads its lines, and writes a line for each finding. It gives what is known
/// after the last line. One line is kept at a time, and findings are written before each read, so
/// that a peer that waits for them gets them.
///
/// The answer is the fault of the earliest line. `BadLog` where a line is none of a log's, or where
/// the input ends in a line without LF or has no line; the findings of the lines before it are
/// written, and why it is none goes to `notices`, with its text. `ReadFault` where a read fails,
/// an interruption too; the findings of all whole lines are written. `WriteFault` where a write
/// fails or takes nothing, and `NoMemory`: some first bytes of the findings are written.
pub fn check<R: Read, W: Write, N: Write>(
    alloc: Global,
    asked: &LogBounds<'_>,
    reader: &mut R,
    writer: &mut W,
    notices: &mut N,
) -> Result<Checker, CheckFault>
    ensures { Checks (record { form = Form.Log; asked = asked.now }) (R.remaining reader.old)
        (R.remaining reader.new)
        (W.contents writer.old) (W.contents writer.new) result }
{
    let source = Source {
        form: Form::Log,
        asked: *asked,
    };
    run(alloc, &source, reader, writer, notices)
}

/// Checks a kernel's trace as a log is checked, under the bounds that are asked for, else from
/// frame 0 to frame 2^40 - 1. Of its flushes of a domain those of `domain` count, or all. No line
/// is refused: one that says nothing of frames or flushes is passed over, as is one of more than
/// 1,024 bytes with its LF, and a last line needs no LF. A line that says that events were lost is
/// written to `notices` with its number before the next one is taken, and so are the first one that
/// is too long to be read and a first line that shows that the text is no trace as it stands. What
/// fails there is passed over.
///
/// Refused as a log is, without `BadLog`.
pub fn check_trace<R: Read, W: Write, N: Write>(
    alloc: Global,
    asked: &LogBounds<'_>,
    domain: Option<u64>,
    reader: &mut R,
    writer: &mut W,
    notices: &mut N,
) -> Result<Checker, CheckFault>
    ensures { Checks (record { form = Form.Trace domain; asked = asked.now })
        (R.remaining reader.old) (R.remaining reader.new)
        (W.contents writer.old) (W.contents writer.new) result }
{
    let source = Source {
        form: Form::Trace(domain),
        asked: *asked,
    };
    run(alloc, &source, reader, writer, notices)
}

/// Checks a text of either form.
fn run<R: Read, W: Write, N: Write>(
    alloc: Global,
    source: &Source<'_>,
    reader: &mut R,
    writer: &mut W,
    notices: &mut N,
) -> Result<Checker, CheckFault>
    ensures { Checks source.now (R.remaining reader.old) (R.remaining reader.new)
        (W.contents writer.old) (W.contents writer.new) result }
{
    let mut input: Vec<u8> = vec![in alloc; 0u8; BUFFER]?;
    let mut state = CheckState::new(alloc, source)?;
    match state.read_all(&mut input, source, reader, writer, notices) {
        Ok(()) => {
            state.tell_end(notices);
            state.finish()
        }
        Err(fault) => Err(fault),
    }
}

/// Checks a log, and writes its counts after the findings. It gives whether there is a finding.
/// Refused as the check is, and then no count is written, or by `WriteFault`.
pub fn check_and_count<R: Read, W: Write>(
    alloc: Global,
    asked: &LogBounds<'_>,
    reader: &mut R,
    writer: &mut W,
) -> Result<bool, CheckFault>
    ensures { ChecksAndCounts (record { form = Form.Log; asked = asked.now })
        (R.remaining reader.old) (R.remaining reader.new)
        (W.contents writer.old) (W.contents writer.new) result }
{
    let checked = check(alloc, asked, reader, writer, &mut io::sink());
    let told = write_counts(&checked, writer);
    drop(checked);
    told
}

/// Writes the counts of a log that was checked, and gives whether there is a finding. Where the
/// check failed its fault is given and nothing is written. Refused by `WriteFault` where a write
/// fails or takes nothing; some first bytes are written then.
pub fn write_counts<W: Write>(
    checked: &Result<Checker, CheckFault>,
    writer: &mut W,
) -> Result<bool, CheckFault>
    ensures { Counts (W.contents writer.old) (W.contents writer.new) checked.now result }
{
    match checked {
        Ok(checker) => {
            write_all(writer, summary(checker).as_slice())?;
            Ok(checker.counts.findings > 0)
        }
        Err(fault) => Err(*fault),
    }
}

/// How far a check has come.
struct CheckState {
    alloc: Global,
    /// What is known of the lines: nothing before the header of a log.
    checker: Option<Checker>,
    /// What has come of a line that has not ended, and is kept of it.
    line: ArrayVec<u8, MAX_TRACE_LINE>,
    /// Findings that have not been written.
    findings: Vec<u8>,
}

/// Drops its parts. The proof stands here, once for all exits.
impl Drop for CheckState {
    fn drop(self) {
        let CheckState {
            alloc: _,
            checker: _,
            line: _,
            findings: _,
        } = self;
    }
}

impl CheckState {
    ghost use Rattle.std.specs.Prelude.{List, Result, false, true, ◌++◌};
    ghost use Rattle.iova_check.specs.declared.fault.CheckFault.{CheckFault};
    ghost use Rattle.iova_check.specs.declared.checker.Checker.{Checker};
    ghost use Rattle.iova_text.specs.Lines.{HasNoLf, whole_line};
    ghost use Rattle.iova_check.specs.CheckState.{HasTaken, number_at, IsKeptOf, IsFront, Goes, TakesBytes, Outcome, Closes, is_last};

    /// Nothing has been taken.
    fn new(alloc: Global, source: &Source<'_>) -> Result<Self, CheckFault>
        ensures ok { IfOk result (λ p. HasTaken source.now [] [] p) }
        ensures none { IfOk result (λ p. p.findings.items ≡ []) }
        ensures err { OnErr result (result ≡ Err CheckFault.NoMemory) }
    {
        let findings = Vec::with_capacity(alloc, BUFFER)?;
        let checker = first_checker(alloc, source)?;
        Ok(CheckState {
            alloc,
            checker,
            line: ArrayVec::new(),
            findings,
        })
    }

    /// The number of the line that comes next.
    fn number(&self) -> u64
        ensures { result ≡ number_at self.now.checker }
    {
        match &self.checker {
            Some(checker) => checker.tracker.line,
            None => 1,
        }
    }

    /// Takes a text to its end, and writes the findings of its lines. The result of the check then
    /// is what `finish` says.
    fn read_all<R: Read, W: Write, N: Write>(
        &mut self,
        buffer: &mut [u8],
        source: &Source<'_>,
        reader: &mut R,
        writer: &mut W,
        notices: &mut N,
    ) -> Result<(), CheckFault>
        requires room { 0 < length buffer.old }
        requires begun { HasTaken source.now [] [] self.old }
        requires none { self.old.findings.items ≡ [] }
        ensures ended { OnOk result ((answer : Result Checker CheckFault)
            → ((taken written : List ℕ) → HasTaken source.now taken written self.new
            → self.new.findings.items ≡ []
            → is_last source.now.form self.new.line.items ≡ false
            → Closes source.now taken written answer)
            → Checks source.now (R.remaining reader.old) (R.remaining reader.new)
            (W.contents writer.old) (W.contents writer.new) answer) }
        ensures stopped { IfErr result (λ e. Checks source.now (R.remaining reader.old)
            (R.remaining reader.new) (W.contents writer.old) (W.contents writer.new) (Err e)) }
    {
        for _ in 0..u64::MAX {
            match read_some(reader, buffer)? {
                0 => return self.end_line(source, writer, notices),
                len => self.check_piece(&buffer[..len], source, writer, notices)?,
            }
        }
        Err(CheckFault::ReadFault)
    }

    /// Takes the next bytes, and writes the findings of the lines that they end.
    fn check_piece<W: Write, N: Write>(
        &mut self,
        piece: &[u8],
        source: &Source<'_>,
        writer: &mut W,
        notices: &mut N,
    ) -> Result<(), CheckFault>
        ensures outcome { (more : List ℕ)
            × Appends (W.contents writer.old) (W.contents writer.new) more
            × Outcome source.now self.old piece.now more self.new result }
        ensures written { OnOk result (self.new.findings.items ≡ []) }
    {
        let mut rest = piece;
        while let Some((end, behind)) = cut_line(rest) {
            rest = behind;
            self.tell_line(end, source, writer, notices)?;
        }
        let kept = self.keep_part(rest, source, notices);
        self.write_findings(writer)?;
        kept
    }

    /// Ends a trace's last line that has no LF.
    fn end_line<W: Write, N: Write>(
        &mut self,
        source: &Source<'_>,
        writer: &mut W,
        notices: &mut N,
    ) -> Result<(), CheckFault>
        ensures other { is_last source.now.form self.old.line.items ≡ false
            → (result ≡ Ok tt) × (self.new ≡ self.old)
            × (W.contents writer.new ≡ W.contents writer.old) }
        ensures last { is_last source.now.form self.old.line.items ≡ true
            → (more : List ℕ) × Appends (W.contents writer.old) (W.contents writer.new) more
            × Outcome source.now self.old (10 ∷ []) more self.new result
            × OnOk result (self.new.findings.items ≡ []) }
    {
        if is_last(source.form, &self.line) {
            return self.check_piece(b"\n", source, writer, notices);
        }
        Ok(())
    }

    /// Takes the rest of a line, without its LF, and writes the findings where they are many. Where
    /// the line is refused, those of the lines before it are written first.
    fn tell_line<W: Write, N: Write>(
        &mut self,
        end: &[u8],
        source: &Source<'_>,
        writer: &mut W,
        notices: &mut N,
    ) -> Result<(), CheckFault>
        requires { HasNoLf end.now }
        ensures { (more : List ℕ) × Appends (W.contents writer.old) (W.contents writer.new) more
            × Outcome source.now self.old (whole_line end.now) more self.new result }
    {
        let ended = self.complete_line(end, source, notices);
        if ended.is_err() || self.findings.len() > BUFFER - MAX_LINE {
            self.write_findings(writer)?;
        }
        ended
    }

    /// Takes the rest of a line, without its LF.
    fn complete_line<N: Write>(
        &mut self,
        end: &[u8],
        source: &Source<'_>,
        notices: &mut N,
    ) -> Result<(), CheckFault>
        requires { HasNoLf end.now }
        ensures { TakesBytes source.now self.old (whole_line end.now) self.new result }
    {
        if self.line.is_empty() {
            return self.run_line(end, source, notices);
        }
        self.keep_part(end, source, notices)?;
        let line = std::mem::take(&mut self.line);
        self.run_line(line.as_slice(), source, notices)
    }

    /// Keeps what has come of a line.
    fn keep_part<N: Write>(
        &mut self,
        bytes: &[u8],
        source: &Source<'_>,
        notices: &mut N,
    ) -> Result<(), CheckFault>
        requires { HasNoLf bytes.now }
        ensures takes { TakesBytes source.now self.old bytes.now self.new result }
        ensures findings { self.new.findings.items ≡ self.old.findings.items }
    {
        match source.form {
            Form::Log => self.keep_all(bytes, notices),
            Form::Trace(_) => {
                self.keep_front(bytes);
                Ok(())
            }
        }
    }

    /// Keeps what has come of a log's line. One of 128 bytes without an LF is refused.
    fn keep_all<N: Write>(&mut self, bytes: &[u8], notices: &mut N) -> Result<(), CheckFault>
        requires { HasNoLf bytes.now }
        ensures takes { (source : Source) → source.form ≡ Form.Log
            → TakesBytes source self.old bytes.now self.new result }
        ensures findings { self.new.findings.items ≡ self.old.findings.items }
    {
        if self.line.len() + bytes.len() >= MAX_LINE {
            let number = self.number();
            tell_overlong(number, &self.line, bytes, notices);
            return Err(CheckFault::BadLog(number));
        }
        let _fits = self.line.try_extend_from_slice(bytes);
        Ok(())
    }

    /// Keeps as much of what has come of a trace's line as there is room for.
    fn keep_front(&mut self, bytes: &[u8])
        requires { HasNoLf bytes.now }
        ensures goes { (source : Source) (domain : Option ℕ) → source.form ≡ Form.Trace domain
            → Goes source self.old bytes.now [] self.new }
        ensures findings { self.new.findings.items ≡ self.old.findings.items }
    {
        let room = MAX_TRACE_LINE - self.line.len();
        put(&mut self.line, &bytes[..room.min(bytes.len())]);
    }

    /// Takes a whole line, of which this is kept.
    fn run_line<N: Write>(
        &mut self,
        line: &[u8],
        source: &Source<'_>,
        notices: &mut N,
    ) -> Result<(), CheckFault>
        requires { self.old.line.items ≡ [] }
        ensures takes { (whole : List ℕ) → HasNoLf whole → IsKeptOf source.now.form line.now whole
            → TakesBytes source.now self.old (whole_line whole) self.new result }
        ensures findings { OnErr result (self.new.findings.items ≡ self.old.findings.items) }
    {
        match source.form {
            Form::Log => self.run_log_line(line, source, notices),
            Form::Trace(domain) => self.run_trace_line(line, domain, notices),
        }
    }

    /// Takes a whole line of a log, the header first.
    fn run_log_line<N: Write>(
        &mut self,
        line: &[u8],
        source: &Source<'_>,
        notices: &mut N,
    ) -> Result<(), CheckFault>
        requires log { source.now.form ≡ Form.Log }
        requires fresh { self.old.line.items ≡ [] }
        ensures takes { HasNoLf line.now → TakesBytes source.now self.old (whole_line line.now)
            self.new result }
        ensures findings { OnErr result (self.new.findings.items ≡ self.old.findings.items) }
    {
        let number = self.number();
        let Some(checker) = &mut self.checker else {
            return self.run_header(line, source, notices);
        };
        let Some(event) = read_event(line) else {
            tell_refused(number, why_no_event(line), line, notices);
            return Err(CheckFault::BadLog(number));
        };
        match checker.check(event, &mut self.findings) {
            Ok(()) => Ok(()),
            Err(_) => Err(CheckFault::NoMemory),
        }
    }

    fn run_header<N: Write>(
        &mut self,
        line: &[u8],
        source: &Source<'_>,
        notices: &mut N,
    ) -> Result<(), CheckFault>
        requires log { source.now.form ≡ Form.Log }
        requires fresh { self.old.line.items ≡ [] }
        requires first { self.old.checker ≡ None }
        ensures takes { HasNoLf line.now → TakesBytes source.now self.old (whole_line line.now)
            self.new result }
        ensures findings { OnErr result (self.new.findings.items ≡ self.old.findings.items) }
    {
        let Some(header) = read_header(line) else {
            tell_refused(1, why_no_header(line), line, notices);
            return Err(CheckFault::BadLog(1));
        };
        let Ok(mut checker) = opened(self.alloc, &source.asked, header.first, header.last) else {
            return Err(CheckFault::NoMemory);
        };
        match checker.check(Event::Other(OtherLine::Plain), &mut self.findings) {
            Ok(()) => {}
            Err(_) => return Err(CheckFault::NoMemory),
        }
        self.checker = Some(checker);
        Ok(())
    }

    /// Takes a whole line of a trace, of which this is kept, and writes to the notices what of it
    /// can't be read.
    fn run_trace_line<N: Write>(
        &mut self,
        line: &[u8],
        domain: Option<u64>,
        notices: &mut N,
    ) -> Result<(), CheckFault>
        requires { self.old.line.items ≡ [] }
        ensures takes { (source : Source) (whole : List ℕ) → source.form ≡ Form.Trace domain
            → HasNoLf whole → IsFront line.now whole
            → TakesBytes source self.old (whole_line whole) self.new result }
        ensures findings { OnErr result (self.new.findings.items ≡ self.old.findings.items) }
    {
        // a trace has a checker from its beginning
        let Some(checker) = &mut self.checker else {
            return Ok(());
        };
        let longs = checker.counts.too_long;
        tell_of_trace(checker.tracker.line, line, longs, notices);
        let event = read_trace_line(domain, line);
        match checker.check(event, &mut self.findings) {
            Ok(()) => Ok(()),
            Err(_) => Err(CheckFault::NoMemory),
        }
    }

    /// Writes the findings that have been gathered.
    fn write_findings<W: Write>(&mut self, writer: &mut W) -> Result<(), CheckFault>
        ensures ok { OnOk result (Appends (W.contents writer.old) (W.contents writer.new)
            self.old.findings.items) }
        ensures none { OnOk result (self.new.findings.items ≡ []) }
        ensures same { self.new ≡ record self.old { findings = self.new.findings } }
        ensures err { IfErr result (λ e. (e ≡ CheckFault.WriteFault)
            × ((n : ℕ) × Appends (W.contents writer.old) (W.contents writer.new)
            (take n self.old.findings.items))) }
    {
        if self.findings.is_empty() {
            return Ok(());
        }
        write_all(writer, &self.findings)?;
        self.findings.clear();
        Ok(())
    }

    /// Tells why the text may not end here, where it may not.
    fn tell_end<N: Write>(&self, notices: &mut N) {
        if !self.line.is_empty() {
            let reason = match other_form(&self.line) {
                Some(reason) if self.checker.is_none() => reason,
                _ => Reason::NoLf,
            };
            tell_refused(self.number(), reason, &self.line, notices);
        } else if self.checker.is_none() {
            tell_refused(1, Reason::Empty, b"", notices);
        }
    }

    /// The result of the check where the text ends here.
    fn finish(self) -> Result<Checker, CheckFault>
        ensures { (source : Source) (taken written : List ℕ) → HasTaken source taken written self
            → self.findings.items ≡ []
            → is_last source.form self.line.items ≡ false → Closes source taken written result }
    {
        let number = self.number();
        if !self.line.is_empty() {
            return Err(CheckFault::BadLog(number));
        }
        let CheckState {
            alloc: _,
            checker,
            line: _,
            findings: _,
        } = self;
        match checker {
            Some(checker) => Ok(checker),
            None => Err(CheckFault::BadLog(number)),
        }
    }
}

/// Whether something of a trace's last line has come.
fn is_last(form: Form, kept: &[u8]) -> bool
    ensures { result ≡ is_last form kept.now }
{
    match form {
        Form::Log => false,
        Form::Trace(_) => !kept.is_empty(),
    }
}

/// What is known before the first line: of a log nothing, since its header has the bounds. Refused
/// by `NoMemory`.
fn first_checker(alloc: Global, source: &Source<'_>) -> Result<Option<Checker>, CheckFault>
    ensures ok { IfOk result (λ c. IsBegun source.now.form source.now.asked c) }
    ensures err { OnErr result (result ≡ Err CheckFault.NoMemory) }
{
    match source.form {
        Form::Log => Ok(None),
        Form::Trace(_) => match opened(alloc, &source.asked, 0, WIDE_TOP) {
            Ok(checker) => Ok(Some(checker)),
            Err(_) => Err(CheckFault::NoMemory),
        },
    }
}

/// A checker of no line under these bounds, or those that are asked for in their place.
fn opened(
    alloc: Global,
    asked: &LogBounds<'_>,
    first: u64,
    last: u64,
) -> Result<Checker, AllocError>
    ensures { IfOk result (λ c. HasChecked (bounds_asked asked.now first last) [] c []) }
{
    let first = asked.first.unwrap_or(first);
    let last = asked.last.unwrap_or(last);
    let allowed = Allowed::new(alloc, first, last, asked.windows)?;
    Ok(Checker::new(alloc, allowed))
}
