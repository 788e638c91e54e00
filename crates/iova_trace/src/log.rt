//! The log of a replay: what its steps and their replies say of frames and flushes, in the form
//! that a check of logs reads.
ghost use Rattle.std.specs.Prelude.{◌≡◌, ℕ, List, [], Option, None, take, OnOk, OnErr};
ghost use Rattle.std.specs.Io.KnownBytes.{Appends, Keeps};
ghost use Rattle.iova_trace.specs.Log.{log_header, log_line, end_line};

use iova_model::step::{Reply, Step};
use iova_range::bounds::Bounds;
use iova_text::buffer::{LineBuffer, put, put_numbers};
use iova_text::write::{WriteFault, write_bytes};
use std::io::Write;

/// What a replay is logged to.
pub trait Log {
    /// The bytes that were written, where they are known.
    ghost contents: { Self → Option (List ℕ) };

    /// Writes the header's line. Refused where a write fails, an interruption too, or takes
    /// nothing; some first bytes are written then.
    fn log_bounds(&mut self, bounds: &Bounds) -> Result<(), WriteFault>
        ensures ok { OnOk result (Appends (contents self.old) (contents self.new)
            (log_header bounds.now)) }
        ensures err { OnErr result ((n : ℕ) × Appends (contents self.old) (contents self.new)
            (take n (log_header bounds.now))) };

    /// Writes the line of a step with this reply, if it has one. Refused as the header is.
    fn log_step(&mut self, step: &Step, reply: &Reply) -> Result<(), WriteFault>
        ensures ok { OnOk result (Appends (contents self.old) (contents self.new)
            (log_line step.now reply.now)) }
        ensures err { OnErr result ((n : ℕ) × Appends (contents self.old) (contents self.new)
            (take n (log_line step.now reply.now))) };

    /// Hands on what was kept back. Refused where that fails.
    fn flush(&mut self) -> Result<(), WriteFault>
        ensures { Keeps (contents self.old) (contents self.new) };
}

/// No log: nothing is written, and it costs nothing.
#[derive(Clone, Copy, Debug, Default, Drop)]
pub struct NoLog;

impl Log for NoLog {
    ghost contents = { λ _. None };

    #[inline]
    fn log_bounds(&mut self, _bounds: &Bounds) -> Result<(), WriteFault> {
        Ok(())
    }

    #[inline]
    fn log_step(&mut self, _step: &Step, _reply: &Reply) -> Result<(), WriteFault> {
        Ok(())
    }

    #[inline]
    fn flush(&mut self) -> Result<(), WriteFault> {
        Ok(())
    }
}

/// A log that is written to a writer, a line in a write: so that writer had better keep small
/// writes back.
pub struct LogWriter<W: Write> {
    writer: W,
}

/// Drops its parts. The proof stands here, once for all crates above.
impl<W: Write + Drop> Drop for LogWriter<W> {
    fn drop(self) {
        let LogWriter { writer: _ } = self;
    }
}

impl<W: Write> LogWriter<W> {
    /// A log that goes to this writer.
    pub fn new(writer: W) -> LogWriter<W>
        ensures { W.contents result.writer ≡ W.contents writer }
    {
        LogWriter { writer }
    }
}

impl<W: Write> Log for LogWriter<W> {
    ghost contents = { λ s. W.contents s.writer };

    fn log_bounds(&mut self, bounds: &Bounds) -> Result<(), WriteFault> {
        write_log_header(bounds, &mut self.writer)
    }

    fn log_step(&mut self, step: &Step, reply: &Reply) -> Result<(), WriteFault> {
        write_log_line(step, reply, &mut self.writer)
    }

    fn flush(&mut self) -> Result<(), WriteFault> {
        match self.writer.flush() {
            Ok(()) => Ok(()),
            Err(_) => Err(WriteFault),
        }
    }
}

/// Writes the line of a step with this reply, if it has one: `map` for what was given, `unmap`
/// for what went into a ring, `begin` and `end` for a flush. Refused where a write fails, an
/// interruption too, or takes nothing; some first bytes of the line are written then.
pub fn write_log_line<W: Write>(
    step: &Step,
    reply: &Reply,
    writer: &mut W,
) -> Result<(), WriteFault>
    ensures ok { OnOk result (Appends (W.contents writer.old) (W.contents writer.new)
        (log_line step.now reply.now)) }
    ensures err { OnErr result ((n : ℕ) × Appends (W.contents writer.old) (W.contents writer.new)
        (take n (log_line step.now reply.now))) }
{
    let mut text = LineBuffer::new();
    put_log_line(step, reply, &mut text);
    write_bytes(writer, text.as_slice())
}

/// Writes the header's line of a log in these bounds. Refused as a line is.
pub fn write_log_header<W: Write>(bounds: &Bounds, writer: &mut W) -> Result<(), WriteFault>
    ensures ok { OnOk result (Appends (W.contents writer.old) (W.contents writer.new)
        (log_header bounds.now)) }
    ensures err { OnErr result ((n : ℕ) × Appends (W.contents writer.old) (W.contents writer.new)
        (take n (log_header bounds.now))) }
{
    let mut text = LineBuffer::new();
    put_numbers(&mut text, b"iovalog", &[1, bounds.start(), bounds.last()]);
    put(&mut text, b"\n");
    write_bytes(writer, text.as_slice())
}

fn put_log_line(step: &Step, reply: &Reply, out: &mut LineBuffer)
    requires { out.old.items ≡ [] }
    ensures { out.new.items ≡ log_line step.now reply.now }
{
    match *reply {
        Reply::Given(range) => put_numbers(out, b"map", &[range.lo(), range.len()]),
        Reply::Queued(range) => put_numbers(out, b"unmap", &[range.lo(), range.len()]),
        Reply::Begun(number) => put_numbers(out, b"begin", &[number]),
        Reply::Ended => {
            put_end(step, out);
            return;
        }
        Reply::Reserved(_)
        | Reply::Opened(_)
        | Reply::Empty
        | Reply::Drained(_)
        | Reply::Marked(_)
        | Reply::Refused(_) => return,
    }
    put(out, b"\n");
}

fn put_end(step: &Step, out: &mut LineBuffer)
    requires { out.old.items ≡ [] }
    ensures { out.new.items ≡ end_line step.now }
{
    if let Step::End { no, ok } = *step {
        put_numbers(out, b"end", &[no]);
        let outcome = if ok { " ok\n" } else { " fail\n" };
        put(out, outcome.as_bytes());
    }
}
