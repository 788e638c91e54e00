//! A trace replayed as the words ask for it.
ghost use Rattle.iova_tools.specs.Answers.{PrintsReplay};

use crate::answer::answer;
use crate::fault::Fault;
use iova_command::words::STANDARD_INPUT;
use iova_files::cause::tell_cause;
use iova_files::record_file::open_beside;
use iova_files::standard::path_of_input;
use iova_trace::log::{Log, LogWriter, NoLog};
use std::alloc::Global;
use std::fs::File;
use std::io;
use std::io::{BufWriter, Read, Write};
use std::rt::{Files, Runtime};

/// How many bytes of a log are gathered before they are written.
const BUFFER: usize = 65_536;

/// Replays the trace of this name to standard output, and writes its log to a file where one is
/// named, which is created or emptied before the trace is opened, and may not be the trace's own.
pub fn replay<'a, R>(
    rt: &R,
    path: &'a str,
    has_report: bool,
    log: Option<&'a str>,
) -> Result<(), Fault<'a>>
where
    R: Runtime + AllocGlobal + Files<File = File> + log::Log,
{
    let Some(name) = log else {
        return replay_trace(rt, path, has_report, &mut NoLog);
    };
    match create_log(rt, name, path) {
        Ok(file) => replay_to(rt, path, has_report, file),
        Err(error) => {
            tell_cause(rt, "open", name, &error);
            Err(Fault::CannotWrite)
        }
    }
}

/// The file of this name, created or emptied. `AlreadyExists` where it is the trace's own, which
/// stays as it is.
fn create_log<R: Files<File = File>>(rt: &R, name: &str, trace: &str) -> io::Result<File> {
    let file = open_beside(rt, name, &[path_of_input(trace)])?;
    if file.metadata()?.is_file() {
        file.set_len(0)?;
    }
    Ok(file)
}

/// Replays the trace, and writes its log to this file.
fn replay_to<'a, R>(rt: &R, path: &'a str, has_report: bool, file: File) -> Result<(), Fault<'a>>
where
    R: Runtime + AllocGlobal + Files<File = File>,
{
    match BufWriter::with_capacity(rt.alloc(), BUFFER, file) {
        Ok(writer) => replay_trace(rt, path, has_report, &mut LogWriter::new(writer)),
        Err(_) => Err(Fault::NoMemory),
    }
}

/// Opens the trace, and replays it with this log.
fn replay_trace<'a, R, L>(
    rt: &R,
    path: &'a str,
    has_report: bool,
    log: &mut L,
) -> Result<(), Fault<'a>>
where
    R: Runtime + AllocGlobal + Files<File = File>,
    L: Log,
{
    if path == STANDARD_INPUT {
        let (mut reader, mut writer) = (rt.reader(), io::writer(rt));
        return print(rt.alloc(), &mut reader, &mut writer, path, has_report, log);
    }
    match File::open(rt, path) {
        Ok(mut file) => print(
            rt.alloc(),
            &mut file,
            &mut io::writer(rt),
            path,
            has_report,
            log,
        ),
        Err(_) => Err(Fault::CannotRead(path)),
    }
}

/// Replays the trace that the reader has, and writes its replies, and its report if one is wanted.
/// A fault of the replay is the program's fault for the trace of this name.
fn print<'a, I: Read, W: Write, L: Log>(
    alloc: Global,
    reader: &mut I,
    writer: &mut W,
    path: &'a str,
    has_report: bool,
    log: &mut L,
) -> Result<(), Fault<'a>>
    ensures { PrintsReplay path.entry has_report (I.remaining reader.old) (I.remaining reader.new)
        (W.contents writer.old) (W.contents writer.new) (L.contents log.old) (L.contents log.new)
        result }
{
    match answer(alloc, reader, writer, log, has_report) {
        Ok(()) => Ok(()),
        Err(fault) => Err(Fault::of_replay(fault, path)),
    }
}
