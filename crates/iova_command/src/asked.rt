//! What the words of the command line ask for.
use crate::check_plan::CheckPlan;
use crate::control_word::ControlWord;
use crate::plan::Plan;
use crate::said::Said;

/// What the words ask for.
#[derive(Drop)]
pub enum Asked<'a> {
    /// The replay of a trace.
    Replay {
        /// The trace's file, or `-` for standard input.
        path: &'a str,
        /// Whether the report follows the replies.
        has_report: bool,
        /// The file that the log is written to, where one is wanted.
        log: Option<&'a str>,
    },
    /// A daemon, and all that is said of it.
    Serve(Plan<'a>, Said<'a>),
    /// The check of a log.
    Check(CheckPlan<'a>),
    /// Lines sent to a daemon, and its answers.
    Ask {
        /// The path of the daemon's socket.
        path: &'a str,
        /// How many seconds a connection and each answer are waited for; none: without end.
        timeout: Option<u64>,
    },
    /// A word for a daemon's control socket.
    Control {
        /// The path of that socket.
        path: &'a str,
        /// What is asked for.
        word: ControlWord,
        /// How many seconds a connection and the answer are waited for, where it is said.
        timeout: Option<u64>,
    },
    /// A daemon's metrics, again and again.
    Watch {
        /// The path of its control socket.
        path: &'a str,
        /// How many seconds are between two looks, where it is said; else 1.
        seconds: Option<u64>,
        /// Whether each look has a screen; else it has a line.
        is_top: bool,
        /// How many seconds a connection and the answer are waited for, where it is said.
        timeout: Option<u64>,
    },
}
