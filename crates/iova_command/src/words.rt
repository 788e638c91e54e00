//! The process's words, and what they ask for.
ghost use Rattle.std.specs.Prelude.{◌≡◌, IfErr, IfOk, IfSome, codes, map, true};
ghost use Rattle.clap.specs.Words.{app_of, fault_of, found_of, is_simple, is_simple_and_free, rows_of, subcommand_of, subcommand_rows_of};
ghost use Rattle.iova_command.specs.Asks.{AsksFor, AsksOf};
ghost use Rattle.iova_command.specs.Commands.{iovad_app};
ghost use Rattle.iova_command.specs.Controls.{HasControl};
ghost use Rattle.iova_command.specs.Refuses.{IsNotUnderstood, RefusesBy};

use crate::asked::Asked;
use crate::check_plan::CheckPlan;
use crate::command::iovad_command;
use crate::control_word::ControlWord;
use crate::label::are_right;
use crate::options;
use crate::options::serve_rows;
use crate::plan::{Plan, optional};
use crate::said::Said;
use crate::usage::WordsFault;
use crate::wrong_word::wrong_word;
use clap::error::ErrorKind;
use clap::{ArgMatches, Command};
use std::alloc::Global;
use std::convert::AsStr;
use std::rt::Env;
use std::{env, io};

/// The program's version, and the kit that it is written for.
pub const VERSION: &str = "0.2.0
rattle-kit-13f logic dac8208d650f15bf";

/// The name that stands for standard input.
pub const STANDARD_INPUT: &str = "-";

/// What asks for a daemon's metrics again and again, and isn't a word of its socket.
pub(crate) const WATCH: &str = "watch";

/// The process's words, its name first. Refused where a word is not UTF-8, and by `NoMemory`.
pub fn words<R: Env + AllocGlobal>(rt: &R) -> Result<Vec<String>, WordsFault>
    ensures { IfErr result IsNotUnderstood }
{
    match env::args(rt) {
        Ok(words) => Ok(words.collect(rt.alloc())?),
        Err(error) if error.kind() == io::ErrorKind::OutOfMemory => Err(WordsFault::NoMemory),
        Err(_) => Err(fault(rt.alloc(), "a word is not UTF-8")),
    }
}

/// What these words ask for, the program's name first; no word but that asks for a replay of
/// standard input.
pub fn asked<'a, S: AsStr>(alloc: Global, words: &'a [S]) -> Result<Asked<'a>, WordsFault>
    ensures asks { IfOk result (λ a. AsksFor (subcommand_of iovad_app (map S.text words.entry.now))
        a) }
    ensures refused { RefusesBy (fault_of iovad_app (map S.text words.entry.now)) result }
{
    asked_of(alloc, iovad_command(alloc)?, words)
}

/// What these words ask for of this command.
fn asked_of<'a, S: AsStr>(
    alloc: Global,
    command: Command<'a>,
    words: &'a [S],
) -> Result<Asked<'a>, WordsFault>
    ensures asks { is_simple (app_of command.entry) ≡ true
        → IfOk result (λ a. AsksFor (subcommand_of (app_of command.entry)
        (map S.text words.entry.now)) a) }
    ensures refused { is_simple_and_free (app_of command.entry) ≡ true
        → RefusesBy (fault_of (app_of command.entry) (map S.text words.entry.now)) result }
{
    let matches = command.try_get_matches_from(words)?;
    asked_by(alloc, matches)
}

/// What the matched words ask for. Refused where an option is missing, or its value is none that it
/// takes.
fn asked_by<'a>(alloc: Global, mut matches: ArgMatches<'a>) -> Result<Asked<'a>, WordsFault>
    ensures asks { IfOk result (λ a. AsksFor (subcommand_rows_of matches.entry) a) }
    ensures refused { IfErr result IsNotUnderstood }
{
    match matches.remove_subcommand() {
        Some((name, found)) => asked_in(alloc, name, found),
        None => Ok(Asked::Replay {
            path: STANDARD_INPUT,
            has_report: false,
            log: None,
        }),
    }
}

/// What the command of this name asks for, by what it matched.
fn asked_in<'a>(alloc: Global, name: &str, found: ArgMatches<'a>) -> Result<Asked<'a>, WordsFault>
    ensures asks { IfOk result (λ a. AsksOf name.now (rows_of (found_of found.entry)) a) }
    ensures refused { IfErr result IsNotUnderstood }
{
    match name {
        "serve" => asked_to_serve(alloc, found),
        _ => match asked_of_command(name, &found) {
            Some(asked) => Ok(asked),
            None => Err(wrong(alloc, name, &found)),
        },
    }
}

/// What `serve` asks for, by what it matched.
fn asked_to_serve<'a>(alloc: Global, found: ArgMatches<'a>) -> Result<Asked<'a>, WordsFault>
    ensures asks { IfOk result (λ a. AsksOf (codes "serve") (rows_of (found_of found.entry)) a) }
    ensures refused { IfErr result IsNotUnderstood }
{
    if !are_right(&found, serve_rows()) {
        return Err(wrong(alloc, "serve", &found));
    }
    match Plan::of(&found) {
        Some(plan) => Ok(Asked::Serve(plan, Said::new(found))),
        None => Err(wrong(alloc, "serve", &found)),
    }
}

/// The fault of words that ask for nothing.
fn wrong(alloc: Global, name: &str, found: &ArgMatches<'_>) -> WordsFault
    ensures { IsNotUnderstood result }
{
    match wrong_word(alloc, name, found) {
        Ok(text) => fault(alloc, text.as_str()),
        Err(error) => WordsFault::from(error),
    }
}

/// What the command of this name asks for, by what it matched; `serve` is looked at by itself.
fn asked_of_command<'a>(name: &str, found: &ArgMatches<'a>) -> Option<Asked<'a>>
    ensures { IfSome result (λ a. AsksOf name.now (rows_of (found_of found.now)) a) }
{
    match name {
        "serve" => None,
        "ask" => Some(Asked::Ask {
            path: found.get_str("path")?,
            timeout: optional(found, &options::ASK_TIMEOUT)?,
        }),
        "check" => Some(Asked::Check(CheckPlan::of(found)?)),
        "control" => asked_of_control(found),
        _ => Some(Asked::Replay {
            path: found.get_str("file")?,
            has_report: found.get_flag("report"),
            log: found.get_str("log"),
        }),
    }
}

/// What `control` asks for, by what it matched: a word for the socket has neither a time nor a
/// screen.
fn asked_of_control<'a>(found: &ArgMatches<'a>) -> Option<Asked<'a>>
    ensures { IfSome result (λ a. AsksOf (codes "control") (rows_of (found_of found.now)) a) }
{
    let path = found.get_str("path")?;
    let timeout = optional(found, &options::CONTROL_TIMEOUT)?;
    let seconds = optional(found, &options::SECONDS)?;
    let is_top = found.get_flag("top");
    let word = found.get_str("word")?;
    match (word, seconds, is_top) {
        ("watch", seconds, is_top) => Some(Asked::Watch {
            path,
            seconds,
            is_top,
            timeout,
        }),
        (_, None, false) => Some(Asked::Control {
            path,
            word: control_word(found, "word")?,
            timeout,
        }),
        _ => None,
    }
}

/// The word of this name for a control socket. None where it is none.
fn control_word(found: &ArgMatches<'_>, name: &str) -> Option<ControlWord>
    ensures { IfSome result (λ w. HasControl (rows_of (found_of found.now)) name.now w) }
{
    ControlWord::of(found.get_str(name)?)
}

/// Words that are not understood, for this reason.
fn fault(alloc: Global, reason: &str) -> WordsFault
    ensures { IsNotUnderstood result }
{
    match iovad_command(alloc) {
        Ok(mut command) => match command.error(ErrorKind::InvalidValue, reason) {
            Ok(error) => WordsFault::from(error),
            Err(error) => WordsFault::from(error),
        },
        Err(error) => WordsFault::from(error),
    }
}
