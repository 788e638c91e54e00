//! What is so of a daemon from its start to its end, a line each.
ghost use Rattle.std.specs.Prelude.{◌≡◌, ◌++◌, MatchOption, OnOk};
ghost use Rattle.iova_control.specs.Infos.{HasNoLf, IsCut, behind_line, first_line, info_text, name_line, second_line, sink_kind, yes_or_no};
ghost use Rattle.iova_control.specs.Texts.{number_line, word_line};

use crate::control::Facts;
use std::alloc::AllocError;

/// Puts the version and its kit, the bytes of a frame, the workers, the most clients at a time, the
/// kind of the sink, whether steps are recorded and, where it has one, the daemon's name into the
/// text, a line each of a name and a word. Refused for want of memory.
pub(crate) fn put_info(facts: &Facts, text: &mut String) -> Result<(), AllocError>
    ensures { OnOk result (text.new.bytes.items ≡ text.old.bytes.items ++ info_text facts.now) }
{
    let (version, kit) = lines_of(facts.version.as_str());
    put_word(text, "version", version)?;
    put_word(text, "kit", kit)?;
    put_number(text, "granule", facts.granule)?;
    put_number(text, "workers", facts.workers)?;
    put_number(text, "clients", facts.clients)?;
    put_word(text, "sink", sink_kind(facts.has_peer))?;
    put_word(text, "recorded", yes_or_no(facts.is_recorded))?;
    put_name(text, facts.name.as_str())
}

/// Puts a line with the daemon's name into the text, where it has one.
fn put_name(text: &mut String, name: &str) -> Result<(), AllocError>
    ensures { OnOk result (text.new.bytes.items ≡ text.old.bytes.items ++ name_line name.now) }
{
    if name.is_empty() {
        return Ok(());
    }
    put_word(text, "name", name)
}

/// Puts a line of a name and a word into the text.
fn put_word(text: &mut String, name: &str, word: &str) -> Result<(), AllocError>
    ensures { OnOk result (text.new.bytes.items ≡ text.old.bytes.items
        ++ word_line name.now word.now) }
{
    writeln!(text, "{name} {word}")
}

/// Puts a line of a name and a number into the text.
pub(crate) fn put_number(text: &mut String, name: &str, number: u64) -> Result<(), AllocError>
    ensures { OnOk result (text.new.bytes.items ≡ text.old.bytes.items
        ++ number_line name.now number) }
{
    writeln!(text, "{name} {number}")
}

/// The first two lines of a version's text: the version, and the kit that proved it.
pub(crate) fn lines_of(version: &str) -> (&str, &str)
    ensures first { result.0.now ≡ first_line version.now }
    ensures second { result.1.now ≡ second_line version.now }
{
    let (first, more) = first_of(version);
    let (second, _rest) = first_of(more);
    (first, second)
}

/// The first line of a text, and what is behind it.
fn first_of(text: &str) -> (&str, &str)
    ensures first { result.0.now ≡ first_line text.now }
    ensures more { result.1.now ≡ behind_line text.now }
{
    match cut_line(text) {
        Some((first, more)) => (first, more),
        None => (text, ""),
    }
}

/// The first whole line of a text, and what is behind it.
pub(crate) fn cut_line(text: &str) -> Option<(&str, &str)>
    ensures { MatchOption result (HasNoLf text.now) (λ p. IsCut text.now p.0.now p.1.now) }
{
    text.split_once('\n')
}

/// The kind of a sink.
pub(crate) fn sink_kind(has_peer: bool) -> &'static str
    ensures { result.now ≡ sink_kind has_peer }
{
    if has_peer { "peer" } else { "file" }
}

fn yes_or_no(is_so: bool) -> &'static str
    ensures { result.now ≡ yes_or_no is_so }
{
    if is_so { "yes" } else { "no" }
}
