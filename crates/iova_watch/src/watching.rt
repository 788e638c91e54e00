//! A daemon watched: what is counted of it, looked at again and again.
use crate::controlling::{asked, told};
use crate::sight::{PLACES, Sight};
use iova_command::control_word::ControlWord;
use iova_files::cause::tell_cause;
use iova_tools::fault::Fault;
use log::{Log, error};
use std::alloc::AllocError;
use std::io::{ErrorKind, Write};
use std::net::Net;
use std::rt::{Clock, Runtime};
use std::time::Duration;
use std::{io, str, thread};

/// How many lines have one header.
const LINES: u64 = 20;

/// The names of a line's numbers: of those of a second, and of those of what is so now.
const RATES: &str = "requests  allocs   frees refused flushes failed clients";

const STATE: &str = "     free reserved  client magazine  depot   ring  oldest";

/// How many sessions a screen shows.
const SESSIONS: usize = 8;

/// A bar of all frames.
const BAR: &str = "########################################";

/// What a terminal is sent before a screen, behind each of its lines, and behind it.
const HOME: &str = "\x1b[H";

const CLEAR_LINE: &str = "\x1b[K";

const CLEAR_BELOW: &str = "\x1b[J";

/// How a daemon is watched.
#[derive(Clone, Copy)]
pub struct WatchPlan {
    /// How many seconds are between two looks.
    pub seconds: u64,
    /// Whether each look has a screen of its own; else it has a line.
    pub is_top: bool,
    /// Whether a screen is drawn over the one before.
    pub is_at_terminal: bool,
    /// How many seconds a connection and an answer are waited for, where it is said; else 10.
    pub timeout: Option<u64>,
}

/// Looks at the daemon with this control socket again and again, and prints what was counted from
/// one look to the next, a second's part of it, until the daemon ends. Each look is a connection of
/// its own. Refused by `SocketFault` where nobody answers at the first look, or not in time, or not
/// as asked; by `CannotWrite`, and by `NoMemory`.
pub fn watch<R>(rt: &R, path: &str, plan: WatchPlan) -> Result<(), Fault<'static>>
where
    R: Runtime + AllocGlobal + Net + Log,
{
    let mut answer = Vec::new(rt.alloc());
    let mut text = String::new(rt.alloc());
    let Some(mut before) = look(rt, path, plan, &mut answer, false)? else {
        return Err(Fault::SocketFault);
    };
    for line in 0..u64::MAX {
        thread::sleep(rt, Duration::from_secs(plan.seconds));
        let Some(now) = look(rt, path, plan, &mut answer, true)? else {
            return Ok(());
        };
        text.clear();
        let put = if plan.is_top {
            answer.clear();
            let Some(sessions) = answered(rt, path, ControlWord::Sessions, plan, &mut answer)?
            else {
                return Ok(());
            };
            put_screen(&mut text, path, plan, before, now, sessions)
        } else {
            put_lines(&mut text, line % LINES == 0, before, now)
        };
        if put.is_err() {
            return Err(Fault::NoMemory);
        }
        if io::writer(rt).write_all(text.as_bytes()).is_err() {
            return Err(Fault::CannotWrite);
        }
        before = now;
    }
    Ok(())
}

/// What is counted now. None where the daemon has ended, which is a fault at the first look.
fn look<R>(
    rt: &R,
    path: &str,
    plan: WatchPlan,
    answer: &mut Vec<u8>,
    was_there: bool,
) -> Result<Option<Sight>, Fault<'static>>
where
    R: Runtime + AllocGlobal + Net + Log,
{
    answer.clear();
    let found = if was_there {
        answered(rt, path, ControlWord::Metrics, plan, answer)?
    } else {
        first_answer(rt, path, plan, answer)?
    };
    let time = match rt.monotonic() {
        Ok(time) => u64::try_from(time.as_millis()).unwrap_or(0),
        Err(_) => 0,
    };
    Ok(found.map(|text| Sight::of(text, time)))
}

/// The first answer: here it is a fault that nobody answers.
fn first_answer<'b, R>(
    rt: &R,
    path: &str,
    plan: WatchPlan,
    answer: &'b mut Vec<u8>,
) -> Result<Option<&'b str>, Fault<'static>>
where
    R: Runtime + AllocGlobal + Net + Log,
{
    if let Err(error) = asked(rt, path, ControlWord::Metrics, plan.timeout, answer) {
        tell_cause(rt, "connect", path, &error);
        return Err(Fault::SocketFault);
    }
    text_of(rt, path, ControlWord::Metrics, answer)
}

/// What the daemon answers to this word. None where it has ended: then nobody listens, or the
/// connection breaks.
fn answered<'b, R>(
    rt: &R,
    path: &str,
    word: ControlWord,
    plan: WatchPlan,
    answer: &'b mut Vec<u8>,
) -> Result<Option<&'b str>, Fault<'static>>
where
    R: Runtime + AllocGlobal + Net + Log,
{
    match asked(rt, path, word, plan.timeout, answer) {
        Ok(()) if answer.is_empty() => Ok(None),
        Ok(()) => text_of(rt, path, word, answer),
        Err(error) if is_end(error.kind()) => Ok(None),
        Err(error) => {
            tell_cause(rt, "connect", path, &error);
            Err(Fault::SocketFault)
        }
    }
}

/// Whether a connection fails so where the daemon has ended.
fn is_end(kind: ErrorKind) -> bool {
    matches!(
        kind,
        ErrorKind::NotFound
            | ErrorKind::ConnectionRefused
            | ErrorKind::ConnectionReset
            | ErrorKind::BrokenPipe
    )
}

/// The answer's text, which is as asked.
fn text_of<'b, R: Log>(
    rt: &R,
    path: &str,
    word: ControlWord,
    answer: &'b [u8],
) -> Result<Option<&'b str>, Fault<'static>> {
    if let Some(bytes) = told(answer, word)
        && let Ok(text) = str::from_utf8(bytes)
    {
        return Ok(Some(text));
    }
    let word = word.name();
    error!(rt; target: "", "{path} answered something else to {word}");
    Err(Fault::SocketFault)
}

/// A line of what was counted, with a header in front where one is due.
fn put_lines(
    text: &mut String,
    has_header: bool,
    before: Sight,
    now: Sight,
) -> Result<(), AllocError> {
    if has_header {
        writeln!(text, "{RATES}{STATE}")?;
    }
    put_line(text, before, now)
}

/// What a second has of what was counted between two looks, and what is so now.
fn put_line(text: &mut String, before: Sight, now: Sight) -> Result<(), AllocError> {
    let rates = now.rates_since(before);
    write!(
        text,
        "{:>8} {:>7} {:>7} {:>7} {:>7} {:>6} {:>7}",
        rates.requests,
        rates.allocs,
        rates.frees,
        rates.refusals,
        rates.flushes,
        rates.failed,
        now.sessions
    )?;
    let [free, reserved, client, magazine, depot, ring] = now.places;
    let (seconds, left) = (now.oldest / 1_000, now.oldest % 1_000);
    write!(text, " {free:>8} {reserved:>8} {client:>7} {magazine:>8}")?;
    writeln!(text, " {depot:>6} {ring:>6} {seconds:>3}.{left:03}")
}

/// A screen of what is so now, and of what was counted since the look before.
fn put_screen(
    text: &mut String,
    path: &str,
    plan: WatchPlan,
    before: Sight,
    now: Sight,
    sessions: &str,
) -> Result<(), AllocError> {
    let end = if plan.is_at_terminal { CLEAR_LINE } else { "" };
    if plan.is_at_terminal {
        write!(text, "{HOME}")?;
    }
    let (served, clients, seconds) = (now.sessions, now.clients, plan.seconds);
    writeln!(
        text,
        "{path}: {served} of {clients} clients, each {seconds} s{end}"
    )?;
    put_rates(text, before, now, end)?;
    put_bars(text, now, end)?;
    put_busiest(text, sessions, end)?;
    put_wrong(text, before, now, end)?;
    if plan.is_at_terminal {
        write!(text, "{CLEAR_BELOW}")?;
    }
    Ok(())
}

/// What a second has of what was counted.
fn put_rates(text: &mut String, before: Sight, now: Sight, end: &str) -> Result<(), AllocError> {
    let rates = now.rates_since(before);
    writeln!(
        text,
        "a second: requests {}, allocs {}, frees {}, refused {}, flushes {}, failed {}{end}",
        rates.requests, rates.allocs, rates.frees, rates.refusals, rates.flushes, rates.failed
    )?;
    let (seconds, left) = (now.oldest / 1_000, now.oldest % 1_000);
    writeln!(
        text,
        "the oldest range in a ring: {seconds}.{left:03} s{end}"
    )?;
    writeln!(text, "{end}")
}

/// A bar for each place of frames.
fn put_bars(text: &mut String, now: Sight, end: &str) -> Result<(), AllocError> {
    let all = now.frames();
    for (place, frames) in PLACES.iter().zip(now.places) {
        let part = u128::from(frames) * BAR.len() as u128;
        let mut length = usize::try_from(part / u128::from(all.max(1))).unwrap_or(0);
        if frames > 0 {
            length = length.clamp(1, BAR.len());
        }
        let bar = BAR.get(..length).unwrap_or("");
        writeln!(text, "{place:<9} {frames:>13} {bar}{end}")?;
    }
    writeln!(text, "{end}")
}

/// The sessions that have the most frames, those with more first.
fn put_busiest(text: &mut String, sessions: &str, end: &str) -> Result<(), AllocError> {
    writeln!(
        text,
        "{:>6} {:>20} {:>8} {:>13}{end}",
        "worker", "client", "ranges", "frames"
    )?;
    let mut bound = (u64::MAX, 0);
    for _ in 0..SESSIONS {
        let Some((frames, at)) = most_below(sessions, bound) else {
            break;
        };
        bound = (frames, at.saturating_add(1));
        let mut words = sessions.lines().nth(at).unwrap_or("").split(' ');
        let worker = words.next().unwrap_or("");
        let client = words.next().unwrap_or("");
        let ranges = words.next().unwrap_or("");
        writeln!(
            text,
            "{worker:>6} {client:>20} {ranges:>8} {frames:>13}{end}"
        )?;
    }
    writeln!(text, "{end}")
}

/// The session with the most frames behind this one, by frames and then by place: its frames and
/// its place. Those that have opened no client are passed over.
fn most_below(sessions: &str, bound: (u64, usize)) -> Option<(u64, usize)> {
    let mut most: Option<(u64, usize)> = None;
    for (at, line) in sessions.lines().enumerate() {
        let mut words = line.split(' ');
        let is_open = words.nth(1) != Some("0");
        let frames = match words.nth(1) {
            Some(word) => word.parse::<u64>().unwrap_or(0),
            None => 0,
        };
        let is_behind = frames < bound.0 || (frames == bound.0 && at >= bound.1);
        let is_more = match most {
            Some((frames_of_most, _)) => frames > frames_of_most,
            None => true,
        };
        if is_open && is_behind && is_more {
            most = Some((frames, at));
        }
    }
    most
}

/// What is wrong, and what is to be done.
fn put_wrong(text: &mut String, before: Sight, now: Sight, end: &str) -> Result<(), AllocError> {
    let rates = now.rates_since(before);
    let [free, _, _, magazine, depot, _] = now.places;
    let left = free.saturating_add(magazine).saturating_add(depot);
    let wrongs = [
        (
            now.owed > 0 || now.failed > before.failed,
            "flushes fail: look at the peer, or at the disk's room",
        ),
        (
            now.oldest >= 1_000,
            "a range waits for long: flushes fail, or one is held up: look at the sink",
        ),
        (
            now.waiting > 0,
            "clients that ended couldn't be told, or found no room in a ring: look at the sink",
        ),
        (
            now.sessions >= now.clients,
            "all places are taken, and more clients wait: set more --clients, or --idle",
        ),
        (
            left < now.frames() / 20,
            "few frames are free: widen --last, or find the client that frees nothing",
        ),
        (
            rates.refusals > 0,
            "requests are refused: the page iovad(1) says what each refusal is",
        ),
        (
            !now.has_peer,
            "no device is asked: give --peer where one is to be",
        ),
    ];
    let mut is_well = true;
    for (is_wrong, what) in wrongs {
        if is_wrong {
            is_well = false;
            writeln!(text, "! {what}{end}")?;
        }
    }
    if is_well {
        writeln!(text, "nothing is wrong{end}")?;
    }
    Ok(())
}
