//! The options of the command line, each in a row with all that is said of it.
ghost use Rattle.std.specs.Prelude.{◌≡◌, map};
ghost use Rattle.iova_command.specs.Commands.{ask_options, check_options, control_options, replay_options, serve_options, taken};

use iova_range::limits;

/// An option of a command, or one of its places: all that is said of it.
#[derive(Clone, Copy)]
pub struct OptionRow {
    /// The option's name, without its two dashes; of a place the name that it is read by.
    pub name: &'static str,
    /// What stands for its value in the help.
    pub value: &'static str,
    /// What it takes.
    pub takes: Takes,
    /// The option without which this one is refused; empty where it needs none.
    pub needs: &'static str,
    /// What the help says of it: what it is, its range, and what holds without it.
    pub help: &'static str,
    /// What a shell's completion says of it.
    pub hint: &'static str,
}

/// What an option or a place takes.
#[derive(Clone, Copy)]
pub enum Takes {
    /// Nothing: the option is there or not.
    Nothing,
    /// A path.
    Path,
    /// A path; the option must be there.
    WantedPath,
    /// A number.
    Number {
        /// The least one.
        low: u64,
        /// The greatest one.
        high: u64,
        /// The number that is used without the option, and stands in the notice of a start.
        default: Option<u64>,
    },
    /// A power of two.
    PowerOfTwo {
        /// The least one.
        low: u64,
        /// The greatest one.
        high: u64,
    },
    /// The name of a level of notices.
    Level,
    /// A label: one to `MAX_DAEMON_NAME` visible characters of ASCII, none of them a quote or a
    /// backslash.
    Label,
    /// Two frames as FIRST-LAST; the option may be there any number of times.
    Spans,
    /// A word at its place, which must be there.
    Place,
    /// A number at its place, which may be there.
    NumberPlace {
        /// The least one.
        low: u64,
        /// The greatest one.
        high: u64,
    },
}

/// The ways to call the program, which stand in its help and after words that aren't understood.
pub(crate) const USAGE: &str = "iovad < FILE
       iovad replay [--report] [--log FILE] FILE
       iovad serve --socket PATH --peer PATH|--sink FILE [--peer-wait SECONDS]
                   [--workers N] [--clients N] [--domain N] [--start N] [--last N]
                   [--sessions N] [--session-requests N] [--idle SECONDS] [--depot N]
                   [--strict] [--granule BYTES]
                   [--record FILE [--record-steps N]] [--reserve FIRST-LAST]..
                   [--reserved-regions FILE] [--sink-timeout SECONDS]
                   [--log-level error|warn|info|debug] [--name TEXT]
                   [--control PATH]
       iovad control [--timeout SECONDS] PATH report|sessions|metrics|info|stop
       iovad control [--timeout SECONDS] [--top] PATH watch [SECONDS]
       iovad ask [--timeout SECONDS] PATH
       iovad check [--quiet] [--first N] [--last N] [--reserved-regions PATH]
                   [--ftrace [--did N]] FILE";

/// The options of `replay`, in the order of its help.
pub(crate) fn replay_rows() -> &'static [OptionRow]
    ensures { map taken result.now ≡ replay_options }
{
    &REPLAY_ROWS
}

const REPLAY_ROWS: [OptionRow; 3] = [REPORT, LOG, REPLAY_FILE];

const REPORT: OptionRow = OptionRow {
    name: "report",
    value: "",
    takes: Takes::Nothing,
    needs: "",
    help: "The domain's report follows the replies",
    hint: "the domain's report follows the replies",
};

const LOG: OptionRow = OptionRow {
    name: "log",
    value: "FILE",
    takes: Takes::Path,
    needs: "",
    help: "The file that a log for iovad check is written to",
    hint: "the file that the log is written to",
};

const REPLAY_FILE: OptionRow = OptionRow {
    name: "file",
    value: "FILE",
    takes: Takes::Place,
    needs: "",
    help: "The trace's file, or - for standard input",
    hint: "",
};

/// The options of `serve`, in the order of its help.
pub(crate) fn serve_rows() -> &'static [OptionRow]
    ensures { map taken result.now ≡ serve_options }
{
    &SERVE_ROWS
}

const SERVE_ROWS: [OptionRow; 23] = [
    SOCKET,
    WORKERS,
    CLIENTS,
    DOMAIN,
    START,
    LAST,
    PEER,
    SINK,
    PEER_WAIT,
    SESSIONS,
    SESSION_REQUESTS,
    IDLE,
    DEPOT,
    STRICT,
    RECORD,
    RECORD_STEPS,
    RESERVE,
    RESERVED_REGIONS,
    SINK_TIMEOUT,
    LOG_LEVEL,
    NAME,
    CONTROL,
    GRANULE,
];

const SOCKET: OptionRow = OptionRow {
    name: "socket",
    value: "PATH",
    takes: Takes::WantedPath,
    needs: "",
    help: "The socket's path, where nothing stands or a socket that a daemon left, at most 107 bytes",
    hint: "the socket's path",
};

pub(crate) const WORKERS: OptionRow = OptionRow {
    name: "workers",
    value: "N",
    takes: Takes::Number {
        low: 1,
        high: limits::MAX_WORKERS,
        default: Some(limits::DEFAULT_WORKERS),
    },
    needs: "",
    help: "How many workers the domain has, 1 to 16; without it 4",
    hint: "how many workers the domain has, 1 to 16",
};

pub(crate) const CLIENTS: OptionRow = OptionRow {
    name: "clients",
    value: "N",
    takes: Takes::Number {
        low: 1,
        high: limits::MAX_CLIENTS as u64,
        default: Some(limits::DEFAULT_CLIENTS),
    },
    needs: "",
    help: "How many clients are served at a time, 1 to 1024; without it 64",
    hint: "how many clients are served at a time, 1 to 1024",
};

pub(crate) const DOMAIN: OptionRow = OptionRow {
    name: "domain",
    value: "N",
    takes: Takes::Number {
        low: 0,
        high: limits::MAX_DOMAINS - 1,
        default: Some(limits::DEFAULT_DOMAIN),
    },
    needs: "",
    help: "The number that clients name the domain by, 0 to 7; without it 0",
    hint: "the number of the domain, 0 to 7",
};

pub(crate) const START: OptionRow = OptionRow {
    name: "start",
    value: "N",
    takes: Takes::Number {
        low: 1,
        high: limits::WIDE_TOP,
        default: Some(limits::DEFAULT_START),
    },
    needs: "",
    help: "The first frame that may be given, 1 to 68719476735, with --depot to 1099511627775; without it 1",
    hint: "the first frame that may be given",
};

pub(crate) const LAST: OptionRow = OptionRow {
    name: "last",
    value: "N",
    takes: Takes::Number {
        low: 1,
        high: limits::WIDE_TOP,
        default: Some(limits::DEFAULT_LAST),
    },
    needs: "",
    help: "The last frame that may be given, 1 to 68719476735, with --depot to 1099511627775; without it 1043967",
    hint: "the last frame that may be given",
};

const PEER: OptionRow = OptionRow {
    name: "peer",
    value: "PATH",
    takes: Takes::Path,
    needs: "",
    help: "The socket of a peer that invalidates and answers; this or --sink is wanted",
    hint: "the socket of a peer that answers",
};

const SINK: OptionRow = OptionRow {
    name: "sink",
    value: "FILE",
    takes: Takes::Path,
    needs: "",
    help: "The file that records are appended to, which no device answers",
    hint: "a file for records, which no device answers",
};

pub(crate) const PEER_WAIT: OptionRow = OptionRow {
    name: "peer-wait",
    value: "SECONDS",
    takes: Takes::Number {
        low: 0,
        high: limits::MAX_PEER_WAIT,
        default: None,
    },
    needs: "peer",
    help: "With --peer: how long it is waited for at the start, 0 to 3600; without it 0",
    hint: "the seconds that the peer is waited for at the start",
};

pub(crate) const SESSIONS: OptionRow = OptionRow {
    name: "sessions",
    value: "N",
    takes: Takes::Number {
        low: 1,
        high: limits::MAX_SESSIONS,
        default: None,
    },
    needs: "",
    help: "How many sessions are served before the daemon ends, 1 to 65536; without it they have no end",
    hint: "how many sessions are served",
};

pub(crate) const SESSION_REQUESTS: OptionRow = OptionRow {
    name: "session-requests",
    value: "N",
    takes: Takes::Number {
        low: 0,
        high: limits::MAX_SESSION_REQUESTS,
        default: Some(limits::MAX_REQUESTS),
    },
    needs: "",
    help: "The most requests of a session, or 0 for no bound, 0 to 9223372036854775807; without it 65536",
    hint: "the most requests of a session",
};

pub(crate) const IDLE: OptionRow = OptionRow {
    name: "idle",
    value: "SECONDS",
    takes: Takes::Number {
        low: 1,
        high: limits::MAX_IDLE,
        default: None,
    },
    needs: "",
    help: "After how long a session ends that sends nothing or takes nothing, 1 to 86400; without it none does",
    hint: "the seconds after which a silent session ends",
};

pub(crate) const DEPOT: OptionRow = OptionRow {
    name: "depot",
    value: "N",
    takes: Takes::Number {
        low: 0,
        high: limits::MAX_DEPOT,
        default: None,
    },
    needs: "",
    help: "The second profile, with at most N magazines of each size in the depot, 0 to 32; without it the first",
    hint: "the second profile, with so many magazines in the depot",
};

const STRICT: OptionRow = OptionRow {
    name: "strict",
    value: "",
    takes: Takes::Nothing,
    needs: "",
    help: "A range that is freed is flushed at once, before its answer",
    hint: "flushes each range at once that is freed",
};

const RECORD: OptionRow = OptionRow {
    name: "record",
    value: "FILE",
    takes: Takes::Path,
    needs: "",
    help: "The file that the domain's first steps are written to at the end, as a trace",
    hint: "the file that the first steps are written to",
};

pub(crate) const RECORD_STEPS: OptionRow = OptionRow {
    name: "record-steps",
    value: "N",
    takes: Takes::Number {
        low: 1,
        high: limits::MAX_RECORDED_STEPS,
        default: Some(limits::RECORDED_STEPS),
    },
    needs: "record",
    help: "How many steps --record keeps, 1 to 1000000; without it 100000",
    hint: "how many steps are recorded",
};

const RESERVE: OptionRow = OptionRow {
    name: "reserve",
    value: "FIRST-LAST",
    takes: Takes::Spans,
    needs: "",
    help: "Frames that are given to nobody; it may be there any number of times",
    hint: "FIRST-LAST: frames that are given to nobody",
};

const RESERVED_REGIONS: OptionRow = OptionRow {
    name: "reserved-regions",
    value: "FILE",
    takes: Takes::Path,
    needs: "",
    help: "A group's reserved_regions, or - for standard input: their frames are given to nobody",
    hint: "the reserved_regions of a group",
};

pub(crate) const SINK_TIMEOUT: OptionRow = OptionRow {
    name: "sink-timeout",
    value: "SECONDS",
    takes: Takes::Number {
        low: 1,
        high: limits::MAX_SINK_TIMEOUT,
        default: Some(limits::SINK_TIMEOUT),
    },
    needs: "",
    help: "How long a peer that answers has for each read and each write, 1 to 3600; without it 10",
    hint: "the seconds that a peer has to answer",
};

const LOG_LEVEL: OptionRow = OptionRow {
    name: "log-level",
    value: "LEVEL",
    takes: Takes::Level,
    needs: "",
    help: "The least grave notices that are told, error, warn, info or debug; without it warn",
    hint: "which notices are told",
};

const NAME: OptionRow = OptionRow {
    name: "name",
    value: "TEXT",
    takes: Takes::Label,
    needs: "",
    help: "A name for notices and metrics, 1 to 64 visible characters; without it there is none",
    hint: "the daemon's name in notices and metrics",
};

const CONTROL: OptionRow = OptionRow {
    name: "control",
    value: "PATH",
    takes: Takes::Path,
    needs: "",
    help: "The path of a socket for iovad control, at most 107 bytes; without it there is none",
    hint: "the path of the control socket",
};

pub(crate) const GRANULE: OptionRow = OptionRow {
    name: "granule",
    value: "BYTES",
    takes: Takes::PowerOfTwo {
        low: limits::FRAME_BYTES,
        high: limits::MAX_GRANULE,
    },
    needs: "",
    help: "The bytes of a frame, a power of two, 4096 to 2097152; without it 4096",
    hint: "the bytes of a page frame, which metrics and info tell",
};

/// The options that the notice of a start names, in its order; the windows of `--reserve` follow.
pub(crate) fn told_rows() -> &'static [OptionRow] {
    &TOLD
}

const TOLD: [OptionRow; 22] = [
    SOCKET,
    PEER,
    SINK,
    PEER_WAIT,
    SINK_TIMEOUT,
    WORKERS,
    CLIENTS,
    DOMAIN,
    START,
    LAST,
    LOG_LEVEL,
    NAME,
    SESSION_REQUESTS,
    SESSIONS,
    IDLE,
    CONTROL,
    GRANULE,
    DEPOT,
    STRICT,
    RECORD,
    RECORD_STEPS,
    RESERVED_REGIONS,
];

/// The level of the notices that are printed without `--log-level`.
pub(crate) const DEFAULT_LEVEL: &str = "warn";

/// The options of `ask`, in the order of its help.
pub(crate) fn ask_rows() -> &'static [OptionRow]
    ensures { map taken result.now ≡ ask_options }
{
    &ASK_ROWS
}

const ASK_ROWS: [OptionRow; 2] = [ASK_TIMEOUT, ASK_PATH];

pub(crate) const ASK_TIMEOUT: OptionRow = OptionRow {
    name: "timeout",
    value: "SECONDS",
    takes: Takes::Number {
        low: 1,
        high: limits::MAX_ANSWER_TIMEOUT,
        default: None,
    },
    needs: "",
    help: "How long each answer may take, 1 to 86400; without it without end",
    hint: "the seconds that a connection and each answer are waited for",
};

const ASK_PATH: OptionRow = OptionRow {
    name: "path",
    value: "PATH",
    takes: Takes::Place,
    needs: "",
    help: "The socket's path",
    hint: "",
};

/// The options of `control`, in the order of its help.
pub(crate) fn control_rows() -> &'static [OptionRow]
    ensures { map taken result.now ≡ control_options }
{
    &CONTROL_ROWS
}

const CONTROL_ROWS: [OptionRow; 5] = [CONTROL_TIMEOUT, TOP, CONTROL_PATH, WORD, SECONDS];

pub(crate) const CONTROL_TIMEOUT: OptionRow = OptionRow {
    name: "timeout",
    value: "SECONDS",
    takes: Takes::Number {
        low: 1,
        high: limits::MAX_ANSWER_TIMEOUT,
        default: None,
    },
    needs: "",
    help: "How long the answer may take, 1 to 86400; without it 10, for a stop without end",
    hint: "the seconds that a connection and the answer are waited for",
};

const TOP: OptionRow = OptionRow {
    name: "top",
    value: "",
    takes: Takes::Nothing,
    needs: "",
    help: "With watch: a screen in place of lines",
    hint: "with watch: a screen in place of lines",
};

const CONTROL_PATH: OptionRow = OptionRow {
    name: "path",
    value: "PATH",
    takes: Takes::Place,
    needs: "",
    help: "The path of its control socket",
    hint: "",
};

const WORD: OptionRow = OptionRow {
    name: "word",
    value: "WORD",
    takes: Takes::Place,
    needs: "",
    help: "What is asked for",
    hint: "",
};

pub(crate) const SECONDS: OptionRow = OptionRow {
    name: "seconds",
    value: "SECONDS",
    takes: Takes::NumberPlace {
        low: 1,
        high: limits::MAX_WATCH_PAUSE,
    },
    needs: "",
    help: "With watch: the time between two lines, 1 to 3600; without it 1",
    hint: "",
};

/// The options of `check`, in the order of its help.
pub(crate) fn check_rows() -> &'static [OptionRow]
    ensures { map taken result.now ≡ check_options }
{
    &CHECK_ROWS
}

const CHECK_ROWS: [OptionRow; 7] = [
    QUIET,
    CHECK_FIRST,
    CHECK_LAST,
    CHECK_RESERVED_REGIONS,
    FTRACE,
    DID,
    CHECK_FILE,
];

const QUIET: OptionRow = OptionRow {
    name: "quiet",
    value: "",
    takes: Takes::Nothing,
    needs: "",
    help: "The counts alone are printed",
    hint: "prints the counts alone",
};

pub(crate) const CHECK_FIRST: OptionRow = OptionRow {
    name: "first",
    value: "N",
    takes: Takes::Number {
        low: 0,
        high: limits::WIDE_TOP,
        default: None,
    },
    needs: "",
    help: "The first frame that may be mapped, 0 to 1099511627775; without it the log's, with --ftrace 0",
    hint: "the first frame that may be mapped",
};

pub(crate) const CHECK_LAST: OptionRow = OptionRow {
    name: "last",
    value: "N",
    takes: Takes::Number {
        low: 0,
        high: limits::WIDE_TOP,
        default: None,
    },
    needs: "",
    help: "The last frame that may be mapped, 0 to 1099511627775; without it the log's, with --ftrace 1099511627775",
    hint: "the last frame that may be mapped",
};

const CHECK_RESERVED_REGIONS: OptionRow = OptionRow {
    name: "reserved-regions",
    value: "PATH",
    takes: Takes::Path,
    needs: "",
    help: "A group's reserved_regions, or - for standard input: its msi and reserved ones may not be mapped",
    hint: "the reserved_regions of a group",
};

const FTRACE: OptionRow = OptionRow {
    name: "ftrace",
    value: "",
    takes: Takes::Nothing,
    needs: "",
    help: "FILE is a kernel's trace, as tracefs or perf script print it",
    hint: "reads a kernel's trace",
};

pub(crate) const DID: OptionRow = OptionRow {
    name: "did",
    value: "N",
    takes: Takes::Number {
        low: 0,
        high: limits::LAST_DOMAIN_ID,
        default: None,
    },
    needs: "ftrace",
    help: "With --ftrace: the IOMMU's domain whose flushes count beside those of all, 0 to 65535; without it all do",
    hint: "with --ftrace: the IOMMU's domain whose flushes count",
};

const CHECK_FILE: OptionRow = OptionRow {
    name: "file",
    value: "FILE",
    takes: Takes::Place,
    needs: "",
    help: "The log's file, or - for standard input",
    hint: "",
};
