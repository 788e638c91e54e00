//! What keeps a run from its end, the line that it says then, and the status.
ghost use Rattle.std.specs.Prelude.{◌≡◌, ◌⊎◌, ℕ, codes};
ghost use Rattle.std.specs.Process.{exit_status};
ghost use Rattle.iova_tools.specs.Verdicts.{fault_of_verdict, fault_of_check};
ghost use Rattle.iova_tools.specs.Faults.{IfUnread, IsFaultOfWords, fault_of_replay, fault_text, fault_status};

use crate::verdict::Verdict;
use iova_ask::fault::AskFault;
use iova_check::fault::CheckFault;
use iova_command::usage::{Usage, WordsFault};
use iova_command::words::STANDARD_INPUT;
use iova_regions::fault::RegionsFault;
use iova_trace::fault::ReplayFault;
use std::fmt;
use std::process::ExitCode;

/// Why a run ends with another status than 0, or has printed its help.
#[derive(Drop)]
pub enum Fault<'a> {
    /// The words are not understood, or ask for help.
    Words(Usage),
    /// The first frame of a plan is above the last one.
    StartAboveLast,
    /// The last frame of a plan is above 2^36 - 1, and the plan has no depot.
    LastAboveProfile,
    /// The line with this number, counted from 1, is no line of a trace, or one too many.
    TraceRefused(u64),
    /// The line with this number, counted from 1, is no line of a log.
    LogRefused(u64),
    /// The line with this number, counted from 1, is none of reserved regions, or makes too many
    /// windows.
    RegionsRefused(u64),
    /// A log has a finding, which was printed.
    Found,
    /// A log has no finding, and not all of it was checked, which was printed.
    Incomplete,
    /// The file of this name cannot be opened or read; `-` is standard input.
    CannotRead(&'a str),
    /// Standard output cannot be written.
    CannotWrite,
    /// A socket can't be bound or connected, a link of `ask` failed, or a thread can't be started.
    SocketFault,
    /// The file that the records of flushes are appended to can't be opened.
    CannotOpenSink,
    /// A daemon was stopped, and something is left at clients or in rings.
    Left(Left),
    /// A growth was refused memory.
    NoMemory,
}

/// What is left of a domain whose daemon was stopped.
#[derive(Clone, Copy, Debug, PartialEq, Eq)]
pub struct Left {
    /// How many clients couldn't be ended.
    pub clients: u64,
    /// How many ranges they hold.
    pub ranges: u64,
    /// How many frames wait in rings for a flush.
    pub frames: u64,
    /// Whether a peer was to answer.
    pub has_peer: bool,
}

impl<'a> Fault<'a> {
    /// The fault of a replay of the trace of this name.
    pub fn of_replay(fault: ReplayFault, path: &'a str) -> Fault<'a>
        ensures { result ≡ fault_of_replay path.entry fault }
    {
        match fault {
            ReplayFault::BadTrace(line) => Fault::TraceRefused(line),
            ReplayFault::ReadFault => Fault::CannotRead(path),
            ReplayFault::WriteFault => Fault::CannotWrite,
            ReplayFault::NoMemory => Fault::NoMemory,
        }
    }

    /// The fault of the check of the log of this name.
    pub fn of_check(fault: CheckFault, path: &'a str) -> Fault<'a>
        ensures is { result ≡ fault_of_check path.entry fault }
        ensures refused { (line : ℕ) → fault ≡ CheckFault.BadLog line
            → result ≡ Fault.LogRefused line }
        ensures unread { fault ≡ CheckFault.ReadFault → result ≡ Fault.CannotRead path.entry }
        ensures unwritten { fault ≡ CheckFault.WriteFault → result ≡ Fault.CannotWrite }
        ensures memory { fault ≡ CheckFault.NoMemory → result ≡ Fault.NoMemory }
    {
        match fault {
            CheckFault::BadLog(line) => Fault::LogRefused(line),
            CheckFault::ReadFault => Fault::CannotRead(path),
            CheckFault::WriteFault => Fault::CannotWrite,
            CheckFault::NoMemory => Fault::NoMemory,
        }
    }

    /// The fault of the reserved regions of this name.
    pub fn of_regions(fault: RegionsFault, path: &'a str) -> Fault<'a>
        ensures refused { (line : ℕ) → fault ≡ RegionsFault.Line line
            → result ≡ Fault.RegionsRefused line }
        ensures unread { fault ≡ RegionsFault.Read → result ≡ Fault.CannotRead path.entry }
        ensures memory { fault ≡ RegionsFault.NoMemory → result ≡ Fault.NoMemory }
    {
        match fault {
            RegionsFault::Line(line) => Fault::RegionsRefused(line),
            RegionsFault::Read => Fault::CannotRead(path),
            RegionsFault::NoMemory => Fault::NoMemory,
        }
    }

    /// The fault of lines asked from standard input.
    pub fn of_ask(fault: AskFault) -> Fault<'static>
        ensures unread { fault ≡ AskFault.Read → IfUnread result (λ path. path ≡ codes "-") }
        ensures unwritten { fault ≡ AskFault.Write → result ≡ Fault.CannotWrite }
        ensures link { fault ≡ AskFault.Link → result ≡ Fault.SocketFault }
        ensures memory { fault ≡ AskFault.NoMemory → result ≡ Fault.NoMemory }
    {
        match fault {
            AskFault::Read => Fault::CannotRead(STANDARD_INPUT),
            AskFault::Write => Fault::CannotWrite,
            AskFault::Link => Fault::SocketFault,
            AskFault::NoMemory => Fault::NoMemory,
        }
    }

    /// The fault of a check with this verdict, whose log was read to its end. None where the log
    /// has no finding and all of it was checked.
    pub fn of_verdict(verdict: Verdict) -> Option<Fault<'static>>
        ensures { result ≡ fault_of_verdict verdict }
    {
        match verdict {
            Verdict::Sound => None,
            Verdict::Found => Some(Fault::Found),
            Verdict::Incomplete => Some(Fault::Incomplete),
        }
    }

    /// The status that the process ends with: 0 where help was asked for, 1 for a log that has a
    /// finding, 2 where the words are not understood or can't be followed, 3 for a trace, a log or
    /// regions that are refused and for a log of which not all was checked, 4 for a file that
    /// cannot be read or written, 5 for memory, 6 for what is left of a domain.
    pub fn status(&self) -> u8
        ensures { result ≡ fault_status self.now }
    {
        match self {
            Fault::Words(usage) => usage.status(),
            Fault::StartAboveLast | Fault::LastAboveProfile => 2,
            Fault::Found => 1,
            Fault::Incomplete
            | Fault::TraceRefused(_)
            | Fault::LogRefused(_)
            | Fault::RegionsRefused(_) => 3,
            Fault::CannotRead(_)
            | Fault::CannotWrite
            | Fault::SocketFault
            | Fault::CannotOpenSink => 4,
            Fault::NoMemory => 5,
            Fault::Left(_) => 6,
        }
    }

    /// Prints the fault's line on standard error, or help on standard output, and gives the status.
    /// A finding has been printed, as has what was not checked, and prints nothing. Help that can't
    /// be written is the fault `CannotWrite`; where a fault's line can't be, the
    /// status alone says it.
    pub fn tell<R: Print + Eprint>(&self, rt: &R) -> ExitCode
        ensures { (exit_status result ≡ fault_status self.now)
            ⊎ ((fault_status self.now ≡ 0) × (exit_status result
            ≡ fault_status Fault.CannotWrite)) }
    {
        let told = match self {
            Fault::Words(usage) => usage.print(rt),
            Fault::Found | Fault::Incomplete => Ok(()),
            fault => eprintln!(rt; "{fault}"),
        };
        if told.is_err() && self.status() == 0 {
            let unwritten = Fault::CannotWrite;
            let _ = eprintln!(rt; "{unwritten}");
            return ExitCode::from(unwritten.status());
        }
        ExitCode::from(self.status())
    }
}

impl<'a> From<WordsFault> for Fault<'a> {
    ghost from_gives = { IsFaultOfWords };

    fn from(fault: WordsFault) -> Fault<'a> {
        match fault {
            WordsFault::Usage(usage) => Fault::Words(usage),
            WordsFault::NoMemory => Fault::NoMemory,
        }
    }
}

/// The fault's line, without its LF.
impl<'a> fmt::Display for Fault<'a> {
    ghost output = { fault_text };

    fn fmt<W: fmt::Write>(&self, f: &mut fmt::Formatter<W>) -> fmt::Result {
        match self {
            Fault::Words(usage) => write!(f, "{usage}"),
            Fault::StartAboveLast => f.write_str("iovad: start is above last"),
            Fault::LastAboveProfile => f.write_str("iovad: last is above the profile"),
            Fault::TraceRefused(line) => write!(f, "iovad: trace refused at line {line}"),
            Fault::LogRefused(line) => write!(f, "iovad: log refused at line {line}"),
            Fault::RegionsRefused(line) => {
                write!(f, "iovad: reserved regions refused at line {line}")
            }
            Fault::Found => f.write_str("iovad: the log has a finding"),
            Fault::Incomplete => f.write_str("iovad: not all of the log was checked"),
            Fault::CannotRead(path) => write!(f, "iovad: cannot read {path}"),
            Fault::CannotWrite => f.write_str("iovad: cannot write the output"),
            Fault::SocketFault => f.write_str("iovad: socket fault"),
            Fault::CannotOpenSink => f.write_str("iovad: cannot open the sink"),
            Fault::Left(left) => write!(f, "{left}"),
            Fault::NoMemory => f.write_str("iovad: no memory"),
        }
    }
}

/// What is left, and why.
impl fmt::Display for Left {
    ghost use Rattle.std.specs.Prelude.{Some};
    ghost use Rattle.iova_tools.specs.Faults.{left_text};

    ghost output = { λ left. Some (left_text left) };

    fn fmt<W: fmt::Write>(&self, f: &mut fmt::Formatter<W>) -> fmt::Result {
        let Left {
            clients,
            ranges,
            ..
        } = self;
        let rings = Rings {
            frames: self.frames,
        };
        let cause = Cause {
            has_peer: self.has_peer,
        };
        write!(
            f,
            "iovad: {clients} clients and {ranges} ranges are left{rings}{cause}"
        )
    }
}

/// The frames in rings, where there are any.
#[derive(Drop)]
struct Rings {
    frames: u64,
}

impl fmt::Display for Rings {
    ghost use Rattle.std.specs.Prelude.{Some};
    ghost use Rattle.iova_tools.specs.Faults.{rings_text};

    ghost output = { λ rings. Some (rings_text rings.frames) };

    fn fmt<W: fmt::Write>(&self, f: &mut fmt::Formatter<W>) -> fmt::Result {
        if self.frames == 0 {
            return f.write_str("");
        }
        write!(f, ", and {} frames in rings", self.frames)
    }
}

/// Whose answer did not come: a peer's, or a file's.
#[derive(Drop)]
struct Cause {
    has_peer: bool,
}

impl fmt::Display for Cause {
    ghost use Rattle.std.specs.Prelude.{Some};
    ghost use Rattle.iova_tools.specs.Faults.{cause_text};

    ghost output = { λ cause. Some (cause_text cause.has_peer) };

    fn fmt<W: fmt::Write>(&self, f: &mut fmt::Formatter<W>) -> fmt::Result {
        if self.has_peer {
            f.write_str(": the peer did not answer")
        } else {
            f.write_str(": the sink failed")
        }
    }
}
