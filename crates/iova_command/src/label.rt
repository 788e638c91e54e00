//! Labels: names that stand in notices and metrics as they are.
ghost use Rattle.std.specs.Prelude.{◌≡◌, ◌↔◌, map, true};
ghost use Rattle.clap.specs.Words.{found_of, rows_of};
ghost use Rattle.iova_command.specs.Commands.{taken};
ghost use Rattle.iova_command.specs.Labels.{AreRight, HasLabel, IsRight, are_label_bytes, is_label, is_label_byte};

use crate::options::{OptionRow, Takes};
use clap::ArgMatches;
use iova_range::limits::MAX_DAEMON_NAME;

/// Whether each option that takes a label has one, where it is there.
pub(crate) fn are_right(found: &ArgMatches<'_>, rows: &[OptionRow]) -> bool
    ensures { (result ≡ true) ↔ AreRight (rows_of (found_of found.now)) (map taken rows.now) }
{
    match rows.split_first() {
        None => true,
        Some((row, more)) => {
            if !is_right(found, row) {
                return false;
            }
            are_right(found, more)
        }
    }
}

/// Whether this option, where it takes a label and is there, has one.
fn is_right(found: &ArgMatches<'_>, row: &OptionRow) -> bool
    ensures { (result ≡ true) ↔ IsRight (rows_of (found_of found.now)) (taken row.now) }
{
    match row.takes {
        Takes::Label => has_label(found, row.name),
        _ => true,
    }
}

/// Whether the option of this name, where it is there, has a label.
fn has_label(found: &ArgMatches<'_>, name: &str) -> bool
    ensures { (result ≡ true) ↔ HasLabel (rows_of (found_of found.now)) name.now }
{
    match found.get_str(name) {
        Some(text) => is_label(text),
        None => true,
    }
}

/// Whether a text is a label: one to `MAX_DAEMON_NAME` visible characters of ASCII, none of them a
/// quote or a backslash.
pub(crate) fn is_label(text: &str) -> bool
    ensures { result ≡ is_label text.now }
{
    let bytes = text.as_bytes();
    !bytes.is_empty() && bytes.len() <= MAX_DAEMON_NAME && are_label_bytes(bytes)
}

fn are_label_bytes(bytes: &[u8]) -> bool
    ensures { result ≡ are_label_bytes bytes.now }
{
    match bytes.split_first() {
        None => true,
        Some((b, more)) => is_label_byte(*b) && are_label_bytes(more),
    }
}

fn is_label_byte(b: u8) -> bool
    ensures { result ≡ is_label_byte b }
{
    b > 32 && b < 127 && b != 34 && b != 92
}
