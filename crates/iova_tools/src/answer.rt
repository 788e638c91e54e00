//! A replay, its log, and the report after it.
ghost use Rattle.iova_tools.specs.Answers.{ReplaysAndReports, Follows, Reports};

use iova_core::domain::Domain;
use iova_report::report;
use iova_text::write::write_all;
use iova_trace::fault::ReplayFault;
use iova_trace::log::Log;
use iova_trace::replay::replay_and_log;
use std::alloc::Global;
use std::io::{Read, Write};

/// Replays a trace and logs it, and writes the report of the domain after the replies where it is
/// wanted. Refused as the replay is; then by `NoMemory`, with no byte of the report written, and by
/// `WriteFault`.
pub fn answer<R: Read, W: Write, L: Log>(
    alloc: Global,
    reader: &mut R,
    writer: &mut W,
    log: &mut L,
    has_report: bool,
) -> Result<(), ReplayFault>
    ensures { ReplaysAndReports has_report (R.remaining reader.old) (R.remaining reader.new)
        (W.contents writer.old) (W.contents writer.new) (L.contents log.old) (L.contents log.new)
        result }
{
    let replayed = replay_and_log(alloc, reader, writer, log);
    let told = follow(alloc, &replayed, writer, has_report);
    drop(replayed);
    told
}

/// Writes what comes after the replies of this replay.
fn follow<W: Write>(
    alloc: Global,
    replayed: &Result<(Domain, u64), ReplayFault>,
    writer: &mut W,
    has_report: bool,
) -> Result<(), ReplayFault>
    ensures { Follows has_report (W.contents writer.old) (W.contents writer.new) replayed.now
        result }
{
    match replayed {
        Ok((domain, _steps)) => {
            if has_report {
                write_report(alloc, domain, writer)
            } else {
                Ok(())
            }
        }
        Err(fault) => Err(*fault),
    }
}

fn write_report<W: Write>(alloc: Global, domain: &Domain, writer: &mut W) -> Result<(), ReplayFault>
    ensures { Reports (W.contents writer.old) (W.contents writer.new) domain.now result }
{
    let mut text = Vec::new(alloc);
    match report(domain, &mut text) {
        Ok(()) => {
            write_all(writer, &text)?;
            Ok(())
        }
        Err(_) => Err(ReplayFault::NoMemory),
    }
}
