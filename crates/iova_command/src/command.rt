//! The command and its help.
ghost use Rattle.std.specs.Prelude.{◌≡◌, ◌<◌, ◌^◌, IfOk, false, map, true};
ghost use Rattle.clap.specs.Words.{App, new_app, rule_of, with_subcommand};
ghost use Rattle.iova_command.specs.Commands.{IsCommand, are_parsable, is_parsable, option_rule_of, taken, with_options, place_rule, flag_rule, option_rule, optional_rule, repeated_rule, optional_number_rule, optional_place_rule, replay_app, serve_app, ask_app, check_app, control_app, iovad_app};

use crate::options::{
    OptionRow, Takes, USAGE, ask_rows, check_rows, control_rows, replay_rows, serve_rows,
};
use crate::words::VERSION;
use clap::{Arg, ArgAction, Command, value_parser};
use std::alloc::{AllocError, Global};

/// How `serve` is called, which stands in its help and after words of its own that aren't
/// understood.
const SERVE_USAGE: &str = "iovad serve --socket PATH --peer PATH|--sink FILE [OPTIONS]
Example: iovad serve --socket /tmp/iovad.socket --peer /tmp/iovad.device";

const STATUSES: &str = "Statuses:
  0  done
  1  a log has a finding
  2  the words are not understood, or the bounds are refused
  3  the trace or the log is refused
  4  a file or a socket
  5  no memory
  6  a daemon was stopped, and ranges are left at clients or in rings";

const LINES_OF_A_TRACE: &str = "Lines of a trace, the first one of these two:
  iovatrace 1 START LAST WORKERS
  iovatrace 2 START LAST WORKERS DEPOT
and then steps:
  reserve FIRST LAST               keeps frames out of use
  open WORKER dac|sac              a client; sac asks below 4 GiB first
  alloc WORKER CLIENT FRAMES LIMIT a range, with no frame above LIMIT
  unmap WORKER CLIENT FIRST        puts a range into the worker's ring
  begin                            begins a flush
  end FLUSH ok|fail                ends it
  drain RING WORKER                frees what a flush has reached
  close WORKER CLIENT              marks a client closing
  closeone WORKER CLIENT           puts its lowest range into the ring";

const REQUESTS: &str = "Requests, a line each, and their answers:
  hello iova1 DOMAIN dac|sac  opened CLIENT
  alloc FRAMES LIMIT          given FIRST FRAMES
  free FIRST                  queued FIRST FRAMES, or freed FIRST FRAMES in a strict domain
  list                        held COUNT, and a line for each range
  flush                       flushed FLUSH FREED
  stat                        stat FREE RESERVED CLIENT MAGAZINE DEPOT RING START FINISH
  bye                         bye
A request that is refused is answered no NUMBER NAME.";

const CONTROL_WORDS: &str = "Words:
  report   the domain's report
  sessions the sessions that are served
  metrics  what is counted, in the text form that Prometheus reads
  info     the daemon's version, the bytes of a frame, workers and clients
  watch    what is counted in a second, a line each second, or each SECONDS;
           with --top a screen of it; until the daemon's end
  stop     the daemon's end: each session answers what it has read, clients
           that wait are tried once more, the rings are flushed, the report
           is printed, and the record is written";

const LINES_OF_A_LOG: &str = "Lines of a log, the first one of this form:
  iovalog 1 FIRST LAST
and then what was done, in frames:
  map FIRST FRAMES                gives frames to a device
  unmap FIRST FRAMES              takes them back
  use FIRST FRAMES                an access of the device
  begin FLUSH                     begins an invalidation of everything
  begin FLUSH FIRST FRAMES        or of these frames
  end FLUSH ok|fail               ends it
Findings: outside, overlap, reused, cut, unmapped, stale, wild, flush. A frame
is reused where it is mapped again, and no flush of it that began after its
unmap has ended well: then a device may still reach it.";

/// The program's command.
pub fn iovad_command<'a>(alloc: Global) -> Result<Command<'a>, AllocError>
    ensures { IfOk result (IsCommand iovad_app) }
{
    let command = Command::new(alloc, "iovad")
        .about("Hands out I/O virtual addresses; with no word, replays a trace from standard input")
        .version(VERSION)
        .override_usage(USAGE)
        .after_help(STATUSES);
    let command = with_subcommand(Ok(command), replay_command(alloc));
    let command = with_subcommand(command, serve_command(alloc));
    let command = with_subcommand(command, ask_command(alloc));
    let command = with_subcommand(command, check_command(alloc));
    with_subcommand(command, control_command(alloc))
}

fn replay_command<'a>(alloc: Global) -> Result<Command<'a>, AllocError>
    ensures { IfOk result (IsCommand replay_app) }
{
    let about = "Replays a trace and prints the reply to each of its steps";
    command_of(alloc, "replay", about, LINES_OF_A_TRACE, replay_rows())
}

fn serve_command<'a>(alloc: Global) -> Result<Command<'a>, AllocError>
    ensures { IfOk result (IsCommand serve_app) }
{
    let command = Command::new(alloc, "serve")
        .about("Serves sessions on a socket, then prints the domain's report")
        .override_usage(SERVE_USAGE);
    with_rows(alloc, command, serve_rows())
}

fn ask_command<'a>(alloc: Global) -> Result<Command<'a>, AllocError>
    ensures { IfOk result (IsCommand ask_app) }
{
    let about = "Sends lines from standard input to a socket and prints the answers";
    command_of(alloc, "ask", about, REQUESTS, ask_rows())
}

fn control_command<'a>(alloc: Global) -> Result<Command<'a>, AllocError>
    ensures { IfOk result (IsCommand control_app) }
{
    let about = "Asks a daemon for its report or its metrics, or has it stop";
    command_of(alloc, "control", about, CONTROL_WORDS, control_rows())
}

fn check_command<'a>(alloc: Global) -> Result<Command<'a>, AllocError>
    ensures { IfOk result (IsCommand check_app) }
{
    let about = "Checks a log of what was mapped, unmapped and flushed, by whomever";
    command_of(alloc, "check", about, LINES_OF_A_LOG, check_rows())
}

/// The command of this name, what it is about, a text after its help, and its options and places.
fn command_of<'a>(
    alloc: Global,
    name: &'a str,
    about: &'a str,
    after: &'a str,
    rows: &[OptionRow],
) -> Result<Command<'a>, AllocError>
    requires { are_parsable (map taken rows.now) ≡ true }
    ensures { IfOk result (IsCommand (with_options (new_app name.now) (map taken rows.now))) }
{
    let command = Command::new(alloc, name).about(about).after_help(after);
    with_rows(alloc, command, rows)
}

/// The command with these options and places, in this order.
fn with_rows<'a>(
    alloc: Global,
    command: Command<'a>,
    rows: &[OptionRow],
) -> Result<Command<'a>, AllocError>
    requires { are_parsable (map taken rows.now) ≡ true }
    ensures { (app : App) → IsCommand app command.entry
        → IfOk result (IsCommand (with_options app (map taken rows.now))) }
{
    match rows.split_first() {
        None => Ok(command),
        Some((row, more)) => with_rows(alloc, command.arg(arg_of(alloc, row))?, more),
    }
}

/// The argument of a row, as clap reads it.
fn arg_of<'a>(alloc: Global, row: &OptionRow) -> Arg<'a>
    requires { is_parsable row.now.takes ≡ true }
    ensures rule { rule_of result ≡ option_rule_of (taken row.now) }
    ensures local { result.global ≡ false }
{
    let (name, value, help) = (row.name, row.value, row.help);
    match row.takes {
        Takes::Nothing => flag(alloc, name, help),
        Takes::Path => optional_path(alloc, name, value, help),
        Takes::WantedPath => path(alloc, name, value, help),
        Takes::Number { low, high, .. } => { optional_number(alloc, name, value, low, high, help) }
        Takes::PowerOfTwo { low, high } => optional_number(alloc, name, value, low, high, help),
        Takes::Level | Takes::Label => optional_path(alloc, name, value, help),
        Takes::Spans => repeated(alloc, name, value, help),
        Takes::Place => place(alloc, name, value, help),
        Takes::NumberPlace { low, high } => optional_place(alloc, name, value, low, high, help),
    }
}

/// The command with this subcommand too.
fn with_subcommand<'a>(
    command: Result<Command<'a>, AllocError>,
    subcommand: Result<Command<'a>, AllocError>,
) -> Result<Command<'a>, AllocError>
    ensures { (app : App) (more : App) → IfOk command.entry (IsCommand app)
        → IfOk subcommand.entry (IsCommand more)
        → IfOk result (IsCommand (with_subcommand app more.top)) }
{
    command?.subcommand(subcommand?)
}

/// An argument that must be there, known by its place.
fn place<'a>(alloc: Global, name: &'a str, value: &'a str, help: &'a str) -> Arg<'a>
    ensures rule { rule_of result ≡ place_rule name.entry.now }
    ensures local { result.global ≡ false }
{
    Arg::new(alloc, name)
        .required(true)
        .action(ArgAction::Set)
        .help(help)
        .value_name(value)
}

/// An option that is there or not.
fn flag<'a>(alloc: Global, name: &'a str, help: &'a str) -> Arg<'a>
    ensures rule { rule_of result ≡ flag_rule name.entry.now }
    ensures local { result.global ≡ false }
{
    Arg::new(alloc, name)
        .long(name)
        .action(ArgAction::SetTrue)
        .help(help)
}

/// A required option with a path.
fn path<'a>(alloc: Global, name: &'a str, value: &'a str, help: &'a str) -> Arg<'a>
    ensures rule { rule_of result ≡ option_rule name.entry.now }
    ensures local { result.global ≡ false }
{
    optional_path(alloc, name, value, help).required(true)
}

/// An option with a path.
fn optional_path<'a>(alloc: Global, name: &'a str, value: &'a str, help: &'a str) -> Arg<'a>
    ensures rule { rule_of result ≡ optional_rule name.entry.now }
    ensures local { result.global ≡ false }
{
    flag(alloc, name, help)
        .action(ArgAction::Set)
        .value_name(value)
}

/// An option with a value, which may be there any number of times.
fn repeated<'a>(alloc: Global, name: &'a str, value: &'a str, help: &'a str) -> Arg<'a>
    ensures rule { rule_of result ≡ repeated_rule name.entry.now }
    ensures local { result.global ≡ false }
{
    flag(alloc, name, help)
        .action(ArgAction::Append)
        .value_name(value)
}

/// An option with a number from `low` to `high`.
fn optional_number<'a>(
    alloc: Global,
    name: &'a str,
    value: &'a str,
    low: u64,
    high: u64,
    help: &'a str,
) -> Arg<'a>
    requires low { low < 2 ^ 63 }
    requires high { high < 2 ^ 63 }
    ensures rule { rule_of result ≡ optional_number_rule name.entry.now low high }
    ensures local { result.global ≡ false }
{
    optional_place(alloc, name, value, low, high, help).long(name)
}

/// A number from `low` to `high` that may be there, known by its place.
fn optional_place<'a>(
    alloc: Global,
    name: &'a str,
    value: &'a str,
    low: u64,
    high: u64,
    help: &'a str,
) -> Arg<'a>
    requires low { low < 2 ^ 63 }
    requires high { high < 2 ^ 63 }
    ensures rule { rule_of result ≡ optional_place_rule name.entry.now low high }
    ensures local { result.global ≡ false }
{
    Arg::new(alloc, name)
        .value_name(value)
        .action(ArgAction::Set)
        .value_parser(value_parser!(u64).range(low as i64..=high as i64))
        .help(help)
}
