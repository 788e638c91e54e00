//! The whole text of a trace, read.
ghost use Rattle.std.specs.Prelude.{◌≡◌, ◌≢◌, ◌<◌, ℕ, List, [], ◌∷◌, ◌++◌, Ok, Err, IfOk, IfErr, length};
ghost use Rattle.iova_range.specs.Bounds.{Extent};
ghost use Rattle.iova_range.specs.declared.limits.TheConstants.{MAX_STEPS};
ghost use Rattle.iova_model.specs.declared.step.Step.{Step as S};
ghost use Rattle.iova_line.specs.Text.{IsHeader, header_text, step_text};
ghost use Rattle.iova_line.specs.LineSteps.{IsStep};
ghost use Rattle.iova_line.specs.Traces.{IsTrace, trace_text};
ghost use Rattle.iova_trace.specs.Lines.{IsWritten, IsRefused};
ghost use Rattle.iova_trace.specs.Replay.{StopsAtBad};
ghost use Rattle.iova_trace.specs.Whole.{IsFaultOf, IsUnlessOutOfMemory};
ghost use Rattle.iova_line.specs.declared.trace.Trace.{Trace as T};

use crate::fault::ReplayFault;
use iova_line::line::read_header;
use iova_line::trace::{Steps, Trace, next_step};
use iova_text::line::cut_line;
use std::alloc::Global;

/// Reads the whole text of a trace: the line of its header, and a line for each of its steps, at
/// most 1,000,000, each line with its LF.
///
/// Refused by `BadTrace` with the number of the first line that is another one, the header being
/// line 1, or in which the text ends; and by `NoMemory`.
pub fn read_trace(alloc: Global, text: &[u8]) -> Result<Trace, ReplayFault>
    ensures ok { IfOk result (λ trace. IsTrace trace × (text.now ≡ trace_text trace)) }
    ensures err { IfErr result (IsFaultOf text.now) }

    // It is the only reading, and the first bad line has one number.
    ensures whole { (trace : T) → IsTrace trace → text.now ≡ trace_text trace
        → IsUnlessOutOfMemory (Ok trace) result }
    ensures refused { (number : ℕ) → IsRefused text.now number
        → IsUnlessOutOfMemory (Err (ReplayFault.BadTrace number)) result }
{
    let Some((line, mut rest)) = cut_line(text) else {
        return Err(ReplayFault::BadTrace(1));
    };
    let Some(header) = read_header(line) else {
        return Err(ReplayFault::BadTrace(1));
    };
    let mut steps = Vec::new(alloc);
    while !rest.is_empty() {
        let count = steps.len() as u64;
        let Some((line, more)) = cut_line(rest) else {
            return Err(ReplayFault::BadTrace(count + 2));
        };
        let Some(step) = next_step(line, count) else {
            return Err(ReplayFault::BadTrace(count + 2));
        };
        if steps.push(step).is_err() {
            return Err(ReplayFault::NoMemory);
        }
        rest = more;
    }
    Ok(Trace {
        bounds: header.bounds,
        workers: header.workers,
        steps: Steps::new(steps),
    })
}

/// The first bad line of a text has one number, and a trace has none. Where a replay has stopped at
/// a bad line, it is that of the whole input, whatever comes after what was taken.
pub fn first_bad_line()
    ensures unique_number { (text : List ℕ) (n m : ℕ) → IsRefused text n → IsRefused text m
        → n ≡ m }
    ensures no_trace { (text : List ℕ) (n : ℕ) (trace : T) → IsRefused text n → IsTrace trace
        → text ≢ trace_text trace }
    ensures stops { (taken written more : List ℕ) (n : ℕ) → StopsAtBad taken written n
        → IsRefused (taken ++ more) n }
{}

/// What `write_header` writes of good bounds and 1 to 16 workers is the text of a trace without
/// steps, and what `write_step` writes after the text of a trace, of fewer than 1,000,000 steps,
/// makes it that of the trace with this step more. So the lines that are written are read back by
/// `read_trace` as that header and those steps.
pub fn written_lines_are_a_trace()
    ensures header { (bounds : Extent) (workers : ℕ) → IsHeader bounds workers
        → IsWritten (header_text bounds workers ++ 10 ∷ []) bounds workers [] }
    ensures step { (text : List ℕ) (bounds : Extent) (workers : ℕ) (steps : List S) (step : S)
        → IsWritten text bounds workers steps → length steps < MAX_STEPS → IsStep step
        → IsWritten (text ++ (step_text step ++ 10 ∷ [])) bounds workers (steps ++ step ∷ []) }
{}
