//! The result of a check whose text was taken to its end.
ghost use Rattle.std.specs.Prelude.{◌≡◌};
ghost use Rattle.iova_tools.specs.Verdicts.{has_gap};

use iova_check::counts::LogCounts;

/// What a check says of a text that it took to its end.
#[derive(Clone, Copy)]
pub enum Verdict {
    /// Nothing is wrong, and nothing was left out.
    Sound,
    /// There is a finding.
    Found,
    /// No finding says nothing: there is no `map` line, events were lost, or a line was too long to
    /// be read.
    Incomplete,
}

impl Verdict {
    ghost use Rattle.std.specs.Prelude.{◌≡◌};
    ghost use Rattle.iova_tools.specs.Verdicts.{verdict_of};

    /// The result of these counts. A finding stands, whatever was left out.
    pub fn of(counts: &LogCounts) -> Verdict
        ensures { result ≡ verdict_of counts.now.findings counts.now.maps counts.now.lost
            counts.now.too_long }
    {
        if counts.findings > 0 {
            Verdict::Found
        } else if has_gap(counts) {
            Verdict::Incomplete
        } else {
            Verdict::Sound
        }
    }
}

/// Whether something was left out.
fn has_gap(counts: &LogCounts) -> bool
    ensures { result ≡ has_gap counts.now.maps counts.now.lost counts.now.too_long }
{
    counts.maps == 0 || counts.lost > 0 || counts.too_long > 0
}
