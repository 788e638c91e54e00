//! What is wrong with words that clap takes and that ask for nothing: the option, and its value.
use crate::control_word::ControlWord;
use crate::label::is_label;
use crate::options::{OptionRow, SECONDS, Takes, ask_rows, check_rows, control_rows, serve_rows};
use crate::plan::{has_plus, is_granule, level_of};
use crate::said::is_given;
use crate::words::WATCH;
use clap::ArgMatches;
use iova_range::limits::{MAX_DAEMON_NAME, MAX_WINDOWS};
use iova_regions::span::read_span;
use std::alloc::{AllocError, Global};

/// What the options are tested for, in this order: the first test that fails is reported.
#[derive(Clone, Copy, PartialEq, Eq)]
enum OptionTest {
    /// Whether numbers begin with a digit; clap has seen to their ranges.
    Numbers,
    /// Whether words are among those of their option.
    Words,
    /// Whether the options that others need are there.
    Needs,
    /// Whether numbers are powers of two.
    Powers,
    /// Whether two frames are, and whether there is room for so many windows.
    Spans,
}

/// What is wrong with these words of the command of this name, in one line.
pub(crate) fn wrong_word(
    alloc: Global,
    name: &str,
    found: &ArgMatches<'_>,
) -> Result<String, AllocError> {
    match wrong_in_command(alloc, name, found)? {
        Some(text) => Ok(text),
        None => String::from_str(alloc, "an option is missing, or outside its range"),
    }
}

fn wrong_in_command(
    alloc: Global,
    name: &str,
    found: &ArgMatches<'_>,
) -> Result<Option<String>, AllocError> {
    match name {
        "serve" => wrong_to_serve(alloc, found),
        "check" => wrong_among(alloc, found, check_rows()),
        "control" => wrong_to_control(alloc, found),
        "ask" => wrong_among(alloc, found, ask_rows()),
        _ => Ok(None),
    }
}

fn wrong_to_control(alloc: Global, found: &ArgMatches<'_>) -> Result<Option<String>, AllocError> {
    let word = found.get_str("word").unwrap_or("");
    if word != WATCH && ControlWord::of(word).is_none() {
        let text = format!(in alloc;
            "WORD: '{word}' is none of report, sessions, metrics, info, stop and watch"
        )?;
        return Ok(Some(text));
    }
    if let Some(text) = wrong_among(alloc, found, control_rows())? {
        return Ok(Some(text));
    }
    let seconds = found.get_str("seconds");
    if word != WATCH
        && let Some(seconds) = seconds
    {
        let text = format!(in alloc; "SECONDS '{seconds}' is for watch, and not for {word}")?;
        return Ok(Some(text));
    }
    if word != WATCH && found.get_flag("top") {
        let text = format!(in alloc; "--top is for watch, and not for {word}")?;
        return Ok(Some(text));
    }
    let seconds = seconds.unwrap_or("");
    match SECONDS.takes {
        Takes::NumberPlace { low, high } => {
            let text = format!(in alloc;
                "SECONDS: '{seconds}' is not a number from {low} to {high}"
            )?;
            Ok(Some(text))
        }
        _ => Ok(None),
    }
}

fn wrong_to_serve(alloc: Global, found: &ArgMatches<'_>) -> Result<Option<String>, AllocError> {
    let rows = serve_rows();
    let first = [OptionTest::Numbers, OptionTest::Words];
    if let Some(text) = first_wrong(alloc, found, rows, &first)? {
        return Ok(Some(text));
    }
    if let Some(text) = wrong_sinks(alloc, found)? {
        return Ok(Some(text));
    }
    let rest = [OptionTest::Needs, OptionTest::Powers, OptionTest::Spans];
    first_wrong(alloc, found, rows, &rest)
}

/// What is wrong with the first of these options that is, of a command without tests of its own.
fn wrong_among(
    alloc: Global,
    found: &ArgMatches<'_>,
    rows: &[OptionRow],
) -> Result<Option<String>, AllocError> {
    let tests = [OptionTest::Numbers, OptionTest::Words, OptionTest::Needs];
    first_wrong(alloc, found, rows, &tests)
}

/// What is wrong with the first of these options that fails the first test that one fails.
fn first_wrong(
    alloc: Global,
    found: &ArgMatches<'_>,
    rows: &[OptionRow],
    tests: &[OptionTest],
) -> Result<Option<String>, AllocError> {
    for test in tests {
        for row in rows {
            if let Some(text) = wrong_option(alloc, found, row, *test)? {
                return Ok(Some(text));
            }
        }
    }
    Ok(None)
}

/// What is wrong with this option, of what the test looks at.
fn wrong_option(
    alloc: Global,
    found: &ArgMatches<'_>,
    row: &OptionRow,
    test: OptionTest,
) -> Result<Option<String>, AllocError> {
    let name = row.name;
    if test == OptionTest::Needs {
        return missing_need(alloc, found, name, row.needs);
    }
    match (row.takes, test) {
        (Takes::Number { low, high, .. }, OptionTest::Numbers) => {
            wrong_number(alloc, found, name, low, high)
        }
        (Takes::PowerOfTwo { low, high }, OptionTest::Numbers) => {
            wrong_number(alloc, found, name, low, high)
        }
        (Takes::PowerOfTwo { low, high }, OptionTest::Powers) => {
            wrong_power(alloc, found, name, low, high)
        }
        (Takes::Level, OptionTest::Words) => wrong_level(alloc, found, name),
        (Takes::Label, OptionTest::Words) => wrong_label(alloc, found, name),
        (Takes::Spans, OptionTest::Spans) => wrong_span(alloc, found, name),
        _ => Ok(None),
    }
}

/// An option without the one that it needs.
fn missing_need(
    alloc: Global,
    found: &ArgMatches<'_>,
    name: &str,
    need: &str,
) -> Result<Option<String>, AllocError> {
    let Some(value) = found.get_str(name) else {
        return Ok(None);
    };
    if need.is_empty() || is_given(found, need) {
        return Ok(None);
    }
    let text = format!(in alloc; "--{name} '{value}' is for --{need}, which is missing")?;
    Ok(Some(text))
}

fn wrong_number(
    alloc: Global,
    found: &ArgMatches<'_>,
    name: &str,
    low: u64,
    high: u64,
) -> Result<Option<String>, AllocError> {
    if !has_plus(found, name) {
        return Ok(None);
    }
    let value = found.get_str(name).unwrap_or("");
    let text = format!(in alloc; "--{name}: '{value}' is not a number from {low} to {high}")?;
    Ok(Some(text))
}

fn wrong_power(
    alloc: Global,
    found: &ArgMatches<'_>,
    name: &str,
    low: u64,
    high: u64,
) -> Result<Option<String>, AllocError> {
    let Some(number) = found.get_one::<u64>(name) else {
        return Ok(None);
    };
    if is_granule(number) {
        return Ok(None);
    }
    let text = format!(in alloc;
        "--{name}: '{number}' is not a power of two from {low} to {high}"
    )?;
    Ok(Some(text))
}

fn wrong_level(
    alloc: Global,
    found: &ArgMatches<'_>,
    name: &str,
) -> Result<Option<String>, AllocError> {
    let Some(level) = found.get_str(name) else {
        return Ok(None);
    };
    if level_of(level).is_some() {
        return Ok(None);
    }
    let text = format!(in alloc; "--{name}: '{level}' is none of error, warn, info and debug")?;
    Ok(Some(text))
}

fn wrong_label(
    alloc: Global,
    found: &ArgMatches<'_>,
    name: &str,
) -> Result<Option<String>, AllocError> {
    let Some(label) = found.get_str(name) else {
        return Ok(None);
    };
    if is_label(label) {
        return Ok(None);
    }
    let text = format!(in alloc;
        "--{name}: '{label}' is not 1 to {MAX_DAEMON_NAME} visible ASCII characters without quote or backslash"
    )?;
    Ok(Some(text))
}

/// Two options of which one is wanted.
fn wrong_sinks(alloc: Global, found: &ArgMatches<'_>) -> Result<Option<String>, AllocError> {
    let has_peer = found.get_str("peer").is_some();
    let has_sink = found.get_str("sink").is_some();
    if has_peer && has_sink {
        let text = String::from_str(
            alloc,
            "--peer and --sink are both given: one of them is wanted",
        )?;
        return Ok(Some(text));
    }
    if !has_peer && !has_sink {
        let text = String::from_str(alloc, "--peer or --sink is missing: one of them is wanted")?;
        return Ok(Some(text));
    }
    Ok(None)
}

/// The first window that is none of two frames; else the windows are too many.
fn wrong_span(
    alloc: Global,
    found: &ArgMatches<'_>,
    name: &str,
) -> Result<Option<String>, AllocError> {
    let Some(spans) = found.get_raw(name) else {
        return Ok(None);
    };
    for span in spans {
        if read_span(span.as_bytes()).is_none() {
            let text = format!(in alloc;
                "--{name}: '{span}' is not FIRST-LAST, with the first frame at most the last"
            )?;
            return Ok(Some(text));
        }
    }
    let last = match spans.last() {
        Some(span) => *span,
        None => "",
    };
    let text = format!(in alloc; "--{name}: more than {MAX_WINDOWS} windows up to '{last}'")?;
    Ok(Some(text))
}
