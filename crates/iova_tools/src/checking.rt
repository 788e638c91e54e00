//! A log, or a kernel's trace, checked as the words ask for it.
ghost use Rattle.std.specs.Prelude.{ℕ, ◌≡◌, IfOk, List, OnOk, Option};
ghost use Rattle.iova_range.specs.Bounds.{second_profile};
ghost use Rattle.iova_range.specs.declared.limits.TheConstants.{MAX_DEPOT, WIDE_TOP};
ghost use Rattle.iova_check.specs.Runs.{Checks};
ghost use Rattle.iova_tools.specs.Sound.{AreKeptOut, ChecksSound, form_of};
ghost use Rattle.iova_tools.specs.Verdicts.{EndsCheck};

use crate::fault::Fault;
use crate::regions::add_regions;
use crate::verdict::Verdict;
use iova_check::allowed::LogBounds;
use iova_check::checker::Checker;
use iova_check::counts::LogCounts;
use iova_check::fault::CheckFault;
use iova_check::law::promise_is_told;
use iova_check::run::{check, check_trace, write_counts};
use iova_command::check_plan::CheckPlan;
use iova_command::words::STANDARD_INPUT;
use iova_range::bounds::Bounds;
use iova_range::limits::{MAX_DEPOT, WIDE_TOP};
use iova_range::profile::Profile;
use iova_regions::region::Counted;
use iova_regions::windows::Windows;
use std::alloc::Global;
use std::fs::File;
use std::io;
use std::io::{Eprint, Read, Write};
use std::rt::{Files, Runtime};

/// Checks what the plan names, and prints what is found. No contract sees what a file has: what an
/// end without a fault means `check_from` says of its reader.
pub fn check_planned<'a, R>(rt: &R, plan: &CheckPlan<'a>) -> Result<(), Fault<'a>>
where
    R: Runtime + AllocGlobal + Files<File = File>,
{
    let windows = windows_of(rt, plan.regions)?;
    if plan.path == STANDARD_INPUT {
        return check_from(rt, &mut rt.reader(), plan, &windows);
    }
    match File::open(rt, plan.path) {
        Ok(mut file) => check_from(rt, &mut file, plan, &windows),
        Err(_) => Err(Fault::CannotRead(plan.path)),
    }
}

/// The windows of the file with a group's reserved regions, where one is named: a kernel maps its
/// direct ones itself.
fn windows_of<'a, R>(rt: &R, path: Option<&'a str>) -> Result<Windows, Fault<'a>>
where
    R: Runtime + AllocGlobal + Files<File = File>,
    ensures { IfOk result (λ ws. AreKeptOut path.entry ws) }
{
    let mut windows = Windows::new();
    if let Some(path) = path {
        add_regions(rt, path, Counted::NotDirect, widest(), &mut windows)?;
    }
    Ok(windows)
}

/// All frames that any bounds may have.
fn widest() -> Bounds
    ensures { result ≡ record { start = 1; last = WIDE_TOP; profile = second_profile MAX_DEPOT } }
{
    let Ok(profile) = Profile::two(MAX_DEPOT) else {
        unreachable!();
    };
    match Bounds::new_in(profile, 1, WIDE_TOP) {
        Ok(bounds) => bounds,
        Err(_) => unreachable!(),
    }
}

/// Checks what comes from this reader. It ends without a fault only where all bytes were read, some
/// line maps frames, each frame of each such line may be mapped, and none of them was given out
/// again while a device might still reach it.
fn check_from<'a, R: Runtime + AllocGlobal, I: Read>(
    rt: &R,
    reader: &mut I,
    plan: &CheckPlan<'a>,
    windows: &Windows,
) -> Result<(), Fault<'a>>
    ensures { OnOk result (ChecksSound plan.now windows.now (I.remaining reader.old)
        (I.remaining reader.new)) }
{
    // for the proof: what a finding of a line says of the lines before it
    promise_is_told();
    let asked = LogBounds {
        first: plan.first,
        last: plan.last,
        windows: windows.ranges(),
    };
    let checked = check_and_print(rt, plan, &asked, reader);
    let told = write_counts(&checked, &mut io::writer(rt));
    if let Ok(checker) = &checked {
        tell_gaps(rt, plan, &checker.counts);
    }
    let ended = end_of_check(&checked, told, plan.path);
    drop(checked);
    ended
}

/// Checks it, and prints the findings where they are wanted.
fn check_and_print<R: Runtime + AllocGlobal, I: Read>(
    rt: &R,
    plan: &CheckPlan<'_>,
    asked: &LogBounds<'_>,
    reader: &mut I,
) -> Result<Checker, CheckFault>
    ensures { (output : Option (List ℕ)) × (filled : Option (List ℕ))
        × Checks (record { form = form_of plan.now.ftrace plan.now.did; asked = asked.now })
        (I.remaining reader.old) (I.remaining reader.new) output filled result }
{
    if plan.quiet {
        checked_by(rt, plan, asked, reader, &mut io::sink())
    } else {
        checked_by(rt, plan, asked, reader, &mut io::writer(rt))
    }
}

/// What ends a check: the fault that it or the writing of its counts met, else the verdict of its
/// counts.
fn end_of_check<'a>(
    checked: &Result<Checker, CheckFault>,
    told: Result<bool, CheckFault>,
    path: &'a str,
) -> Result<(), Fault<'a>>
    ensures { EndsCheck path.entry checked.now told result }
{
    match (checked, told) {
        (Err(fault), _) => Err(Fault::of_check(*fault, path)),
        (Ok(_), Err(fault)) => Err(Fault::of_check(fault, path)),
        (Ok(checker), Ok(_)) => match Fault::of_verdict(Verdict::of(&checker.counts)) {
            None => Ok(()),
            Some(fault) => Err(fault),
        },
    }
}

/// Checks it as the log or the trace that it is, and writes the findings.
fn checked_by<R: Runtime + AllocGlobal, I: Read, W: Write>(
    rt: &R,
    plan: &CheckPlan<'_>,
    asked: &LogBounds<'_>,
    reader: &mut I,
    writer: &mut W,
) -> Result<Checker, CheckFault>
    ensures { Checks (record { form = form_of plan.now.ftrace plan.now.did; asked = asked.now })
        (I.remaining reader.old) (I.remaining reader.new)
        (W.contents writer.old) (W.contents writer.new) result }
{
    let mut notices = StandardError { rt };
    if plan.ftrace {
        check_trace(rt.alloc(), asked, plan.did, reader, writer, &mut notices)
    } else {
        check(rt.alloc(), asked, reader, writer, &mut notices)
    }
}

/// Prints on standard error how many lines of a kernel's trace said nothing of frames, and what was
/// not checked.
fn tell_gaps<R: Eprint>(rt: &R, plan: &CheckPlan<'_>, counts: &LogCounts) {
    if plan.ftrace {
        let others = counts.others;
        let _ = eprintln!(rt; "{others} lines passed over");
    }
    if counts.maps == 0 {
        let _ = eprintln!(rt; "iovad: nothing is checked: no line maps a frame");
    }
    if counts.lost > 0 {
        let lost = counts.lost;
        let _ = eprintln!(rt; "iovad: not all is checked: events were lost, as {lost} lines say");
    }
    if counts.too_long > 0 {
        let longs = counts.too_long;
        let _ = eprintln!(rt; "iovad: not all is checked: {longs} lines are too long to be read");
    }
}

/// Standard error, as a writer of text.
#[derive(Drop)]
struct StandardError<'a, R> {
    rt: &'a R,
}

impl<R: Eprint> Write for StandardError<'_, R> {
    fn write(&mut self, bytes: &[u8]) -> io::Result<usize> {
        match str::from_utf8(bytes) {
            Ok(text) => {
                self.rt.eprint(text)?;
                Ok(bytes.len())
            }
            Err(_) => Err(io::Error::from(io::ErrorKind::InvalidData)),
        }
    }

    fn flush(&mut self) -> io::Result<()> {
        Ok(())
    }
}
