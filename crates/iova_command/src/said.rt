//! What the words say of a command's options.
ghost use Rattle.std.specs.Prelude.{◌≡◌, ◌↔◌, true};
ghost use Rattle.std.specs.Option.{option_map};
ghost use Rattle.clap.specs.Words.{first_of, found_of, rows_of};
ghost use Rattle.iova_command.specs.Asks.{IsGiven};
ghost use Rattle.iova_command.specs.Numbers.{ParsesOptional};

use clap::ArgMatches;
use clap::parser::ValueSource;
use std::marker::Model;

/// What the words say of a command's options, each of which is read by its name. A contract sees
/// what was matched.
pub struct Said<'a> {
    found: ArgMatches<'a>,
}

/// Drops its part. The proof stands here, once for all crates above.
impl<'a> Drop for Said<'a> {
    fn drop(self) {
        let Said { found: _ } = self;
    }
}

impl<'a> Model for Said<'a> {
    ghost use Rattle.std.specs.Prelude.{List};
    ghost use Rattle.clap.specs.Words.{Row, found_of, rows_of};

    ghost Value = { List Row };

    ghost view = { λ s. rows_of (found_of s.found) };
}

impl<'a> Said<'a> {
    /// What was matched of a command.
    pub(crate) fn new(found: ArgMatches<'a>) -> Said<'a>
        ensures { result ≡ rows_of (found_of found.entry) }
    {
        Said { found }
    }

    /// The text of the option of this name. None where there is none.
    pub fn text(&self, name: &str) -> Option<&'a str>
        ensures { option_map (λ t. t.now) result ≡ first_of name.now self.now }
    {
        self.found.get_str(name)
    }

    /// The number of the option of this name. None where there is no such option, or its text is no
    /// number.
    pub(crate) fn number(&self, name: &str) -> Option<u64>
        ensures { ParsesOptional self.now name.now result }
    {
        self.found.get_one::<u64>(name)
    }

    /// Whether the words have the option of this name.
    pub(crate) fn is_given(&self, name: &str) -> bool
        ensures { (result ≡ true) ↔ IsGiven self.now name.now }
    {
        is_given(&self.found, name)
    }
}

/// Whether the words have the option of this name.
pub(crate) fn is_given(found: &ArgMatches<'_>, name: &str) -> bool
    ensures { (result ≡ true) ↔ IsGiven (rows_of (found_of found.now)) name.now }
{
    matches!(found.value_source(name), Some(ValueSource::CommandLine))
}
