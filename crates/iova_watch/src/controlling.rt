//! A daemon asked over its control socket.
use iova_command::control_word::ControlWord;
use iova_files::cause::tell_cause;
use iova_links::dial::connect_within;
use iova_range::limits::CONTROL_TIMEOUT;
use iova_tools::fault::Fault;
use log::{Log, error};
use memchr::{memchr, memchr_iter};
use std::io::{Read, Write};
use std::net::{Net, Shutdown};
use std::rt::{Clock, Runtime};
use std::time::Duration;
use std::{io, str};

/// Asks the daemon at this path for what the word names, and prints what it answers, without the
/// line that says how many lines follow. After `stop` it waits for the daemon's end. A connection
/// and an answer are waited for so many seconds, where that is said; else 10, and the answer to
/// `stop` without end. Refused by `SocketFault` where nobody answers in time, or not as asked, and
/// by `CannotWrite`.
pub fn control<R>(
    rt: &R,
    path: &str,
    word: ControlWord,
    timeout: Option<u64>,
) -> Result<(), Fault<'static>>
where
    R: Runtime + AllocGlobal + Net + Log,
{
    let mut answer = Vec::new(rt.alloc());
    if let Err(error) = asked(rt, path, word, timeout, &mut answer) {
        tell_cause(rt, "connect", path, &error);
        return Err(Fault::SocketFault);
    }
    match told(&answer, word) {
        Some(text) => match io::writer(rt).write_all(text) {
            Ok(()) => Ok(()),
            Err(_) => Err(Fault::CannotWrite),
        },
        None => {
            let line = first_line(&answer);
            error!(rt; target: "", "{path} answered: {line}");
            Err(Fault::SocketFault)
        }
    }
}

/// Sends the word, and takes all that comes within the time.
pub(crate) fn asked<R: Net + Clock>(
    rt: &R,
    path: &str,
    word: ControlWord,
    timeout: Option<u64>,
    answer: &mut Vec<u8>,
) -> io::Result<()> {
    let limit = Duration::from_secs(timeout.unwrap_or(CONTROL_TIMEOUT));
    let mut stream = connect_within(rt, path, Some(limit))?;
    if word != ControlWord::Stop || timeout.is_some() {
        stream.set_read_timeout(Some(limit))?;
    }
    stream.set_write_timeout(Some(limit))?;
    stream.write_all(word.name().as_bytes())?;
    stream.write_all(b"\n")?;
    stream.shutdown(Shutdown::Write)?;
    stream.read_to_end(answer)?;
    Ok(())
}

/// What is to be printed of the answer: all behind its first line, which has the word and how many
/// lines follow, or `stopping`. None where it is neither, or isn't whole.
pub(crate) fn told(answer: &[u8], word: ControlWord) -> Option<&[u8]> {
    if word == ControlWord::Stop {
        return if answer == b"stopping\n".as_slice() {
            Some(answer)
        } else {
            None
        };
    }
    let end = memchr(b'\n', answer)?;
    let text = answer.get(end + 1..)?;
    let mut words = str::from_utf8(answer.get(..end)?).ok()?.split(' ');
    let is_named = words.next() == Some(word.name());
    let count = words.next()?.parse::<usize>().ok()?;
    let is_whole = memchr_iter(b'\n', text).count() == count
        && (text.is_empty() || text.ends_with(b"\n"));
    if is_named && is_whole && words.next().is_none() {
        Some(text)
    } else {
        None
    }
}

/// The answer's first line, to be printed.
fn first_line(answer: &[u8]) -> &str {
    let end = memchr(b'\n', answer).unwrap_or(answer.len());
    match answer.get(..end) {
        Some(line) => str::from_utf8(line).unwrap_or("?"),
        None => "?",
    }
}
