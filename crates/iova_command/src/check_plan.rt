//! What a check is to read, and what it holds it to.
ghost use Rattle.std.specs.Prelude.{◌≤◌, IfSome};
ghost use Rattle.std.specs.Option.{ForSome};
ghost use Rattle.clap.specs.Words.{rows_of, found_of};
ghost use Rattle.iova_range.specs.declared.limits.TheConstants.{LAST_DOMAIN_ID, WIDE_TOP};

use crate::options;
use crate::plan::optional;
use clap::ArgMatches;

/// The options of `check`, each in its range.
#[derive(Drop)]
pub struct CheckPlan<'a> {
    /// The log's file, or `-` for standard input.
    pub path: &'a str,
    /// Whether the counts alone are printed.
    pub quiet: bool,
    /// The first frame that may be mapped, in place of the log's.
    pub first: Option<u64>,
    /// The last frame that may be mapped, in place of the log's; it may be below the first one.
    pub last: Option<u64>,
    /// The path of the file with a group's reserved regions, or `-` for standard input.
    pub regions: Option<&'a str>,
    /// Whether the log is a kernel's trace.
    pub ftrace: bool,
    /// The domain whose flushes count in a kernel's trace, beside those of all domains.
    pub did: Option<u64>,
    pub ghost first_in_range: { ForSome first (λ n. n ≤ WIDE_TOP) },
    pub ghost last_in_range: { ForSome last (λ n. n ≤ WIDE_TOP) },
    pub ghost did_in_range: { ForSome did (λ n. n ≤ LAST_DOMAIN_ID) },
}

impl<'a> CheckPlan<'a> {
    ghost use Rattle.iova_command.specs.Asks.{PlansCheck};

    /// What the matches of `check` say. None where the file is missing, a number is outside its
    /// range, or a domain is named of a log that is no kernel's trace.
    pub(crate) fn of(found: &ArgMatches<'a>) -> Option<CheckPlan<'a>>
        ensures { IfSome result (λ p. PlansCheck (rows_of (found_of found.now)) p) }
    {
        let path = found.get_str("file")?;
        let quiet = found.get_flag("quiet");
        let first = optional(found, &options::CHECK_FIRST)?;
        let last = optional(found, &options::CHECK_LAST)?;
        let regions = found.get_str("reserved-regions");
        let ftrace = found.get_flag("ftrace");
        let did = optional(found, &options::DID)?;
        let plan = CheckPlan {
            path,
            quiet,
            first,
            last,
            regions,
            ftrace,
            did,
        };
        if plan.did.is_some() && !plan.ftrace {
            return None;
        }
        Some(plan)
    }
}
