//! A daemon's plan in the words of the command line.
use crate::options::{DEFAULT_LEVEL, OptionRow, Takes, told_rows};
use crate::said::Said;
use iova_range::range::Range;
use iova_regions::windows::Windows;
use std::fmt;

/// The words by which a plan with these windows is asked for: each number stands there that is used
/// where it was left out, and each window is an option of its own.
#[derive(Clone, Copy)]
pub struct PlanWords<'p, 'a> {
    said: &'p Said<'a>,
    windows: &'p Windows,
}

impl<'p, 'a> PlanWords<'p, 'a> {
    /// The words for what was said of `serve`, and its windows.
    pub fn new(said: &'p Said<'a>, windows: &'p Windows) -> PlanWords<'p, 'a> {
        PlanWords { said, windows }
    }
}

impl<'p, 'a> fmt::Display for PlanWords<'p, 'a> {
    fn fmt<W: fmt::Write>(&self, f: &mut fmt::Formatter<W>) -> fmt::Result {
        f.write_str("serve")?;
        for option in told_rows() {
            write_option(self.said, option, f)?;
        }
        write_windows(self.windows.ranges(), f)
    }
}

/// An option with its value, or with the one that is used without it.
fn write_option<W: fmt::Write>(
    said: &Said<'_>,
    option: &OptionRow,
    f: &mut fmt::Formatter<W>,
) -> fmt::Result {
    let name = option.name;
    match option.takes {
        Takes::Nothing if said.is_given(name) => write!(f, " --{name}"),
        Takes::Nothing => Ok(()),
        Takes::Number { default, .. } if is_asked_for(said, option) => {
            write_number(name, said.number(name).or(default), f)
        }
        Takes::Number { .. } => Ok(()),
        Takes::PowerOfTwo { .. } => write_number(name, said.number(name), f),
        Takes::Level => write!(f, " --{name} {}", said.text(name).unwrap_or(DEFAULT_LEVEL)),
        _ => write_text(name, said.text(name), f),
    }
}

/// Whether an option may be there: it needs no other one, or that is there.
fn is_asked_for(said: &Said<'_>, option: &OptionRow) -> bool {
    option.needs.is_empty() || said.is_given(option.needs)
}

/// An option with a number, where there is one.
fn write_number<W: fmt::Write>(
    name: &str,
    value: Option<u64>,
    f: &mut fmt::Formatter<W>,
) -> fmt::Result {
    match value {
        None => Ok(()),
        Some(n) => write!(f, " --{} {}", name, n),
    }
}

/// An option with a text, where there is one.
fn write_text<W: fmt::Write>(
    name: &str,
    value: Option<&str>,
    f: &mut fmt::Formatter<W>,
) -> fmt::Result {
    match value {
        None => Ok(()),
        Some(text) => write!(f, " --{} {}", name, text),
    }
}

/// An option for each window.
fn write_windows<W: fmt::Write>(windows: &[Range], f: &mut fmt::Formatter<W>) -> fmt::Result {
    let Some((window, more)) = windows.split_first() else {
        return Ok(());
    };
    write!(f, " --reserve {}-{}", window.lo(), window.hi())?;
    write_windows(more, f)
}
