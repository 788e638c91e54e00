//! Lines of standard input, asked of a daemon.
use crate::fault::Fault;
use iova_ask::ask_lines;
use iova_ask::terminal::ask_by_hand;
use iova_files::cause::tell_cause;
use iova_links::dial::connect_within;
use iova_session::socket_link::SocketLink;
use log::Log;
use std::io;
use std::net::Net;
use std::os::unix::net::UnixStream;
use std::rt::{Clock, Runtime};
use std::time::Duration;

/// Asks the lines of standard input of the socket at this path, and prints the answers: by hand
/// with prompts, and with what refusals mean. A connection and each answer are waited for so many
/// seconds, where that is said.
pub fn ask_at<R>(
    rt: &R,
    path: &str,
    timeout: Option<u64>,
    is_by_hand: bool,
) -> Result<(), Fault<'static>>
where
    R: Runtime + AllocGlobal + Net + Log,
{
    match connected(rt, path, timeout) {
        Ok(stream) => ask_over(rt, SocketLink::new(stream), is_by_hand),
        Err(error) => {
            tell_cause(rt, "connect", path, &error);
            Err(Fault::SocketFault)
        }
    }
}

/// A connection to this socket, with these limits.
fn connected<R: Net + Clock>(rt: &R, path: &str, timeout: Option<u64>) -> io::Result<UnixStream> {
    let limit = timeout.map(Duration::from_secs);
    let stream = connect_within(rt, path, limit)?;
    stream.set_read_timeout(limit)?;
    stream.set_write_timeout(limit)?;
    Ok(stream)
}

/// Asks over this link what standard input has, and prints the answers.
fn ask_over<R: Runtime + AllocGlobal>(
    rt: &R,
    link: SocketLink,
    is_by_hand: bool,
) -> Result<(), Fault<'static>> {
    let mut link = link;
    let asked = if is_by_hand {
        ask_by_hand(rt, &mut link)
    } else {
        ask_lines(rt.alloc(), &mut rt.reader(), &mut io::writer(rt), &mut link)
    };
    match asked {
        Ok(_sent) => Ok(()),
        Err(fault) => Err(Fault::of_ask(fault)),
    }
}
