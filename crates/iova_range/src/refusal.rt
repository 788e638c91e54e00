//! Why a call is refused.
ghost use Rattle.std.specs.Prelude.{◌≡◌};
ghost use Rattle.iova_range.specs.Refusals.{refusal_number, refusal_name};

use thiserror::Error;

/// Why a call is refused. Each kind has a number and a name, which the formats print as `no
/// <number> <Name>`.
#[derive(Clone, Copy, Debug, PartialEq, Eq, Error)]
pub enum Refusal {
    /// No frame was asked for.
    #[error("no 1 Zero")]
    Zero = 1,

    /// More than 1,048,576 frames were asked for.
    #[error("no 2 TooBig")]
    TooBig = 2,

    /// The worker has no such client, or the session has not said `hello`.
    #[error("no 3 NoClient")]
    NoClient = 3,

    /// The client is closing.
    #[error("no 4 Closing")]
    Closing = 4,

    /// The client has 4,096 holdings.
    #[error("no 5 HoldingsFull")]
    HoldingsFull = 5,

    /// Nothing fits, with all caches emptied.
    #[error("no 6 NoSpace")]
    NoSpace = 6,

    /// The worker's ring has 255 entries after it was drained.
    #[error("no 7 RingFull")]
    RingFull = 7,

    /// The client has no holding that begins at that frame.
    #[error("no 8 NotHeld")]
    NotHeld = 8,

    /// The window meets a frame that is a client's, cached or in a ring.
    #[error("no 9 Taken")]
    Taken = 9,

    /// The window or the bounds are out of order or out of range.
    #[error("no 10 BadWindow")]
    BadWindow = 10,

    /// There would be 65 windows.
    #[error("no 11 WindowsFull")]
    WindowsFull = 11,

    /// There is no such worker, or the worker count is not 1 to 16.
    #[error("no 12 NoWorker")]
    NoWorker = 12,

    /// 32 flushes are in flight.
    #[error("no 13 FlightsFull")]
    FlightsFull = 13,

    /// No flush of that number is in flight.
    #[error("no 14 NoFlight")]
    NoFlight = 14,

    /// The client serial or the start count is at its last value, 2^63 - 1.
    #[error("no 15 Worn")]
    Worn = 15,

    /// There are 1,024 clients.
    #[error("no 16 ClientsFull")]
    ClientsFull = 16,

    /// A growth was refused memory.
    #[error("no 17 NoMemory")]
    NoMemory = 17,

    /// The sink failed during the call.
    #[error("no 18 SinkFault")]
    SinkFault = 18,

    /// The link failed during the call, or a thread could not be started.
    #[error("no 19 LinkFault")]
    LinkFault = 19,

    /// Not a line of the protocol.
    #[error("no 20 BadLine")]
    BadLine = 20,

    /// A limit of the session was passed.
    #[error("no 21 TooMany")]
    TooMany = 21,

    /// Not a line of a trace.
    #[error("no 22 BadTrace")]
    BadTrace = 22,

    /// `hello` names a number that is not the domain's.
    #[error("no 23 NoDomain")]
    NoDomain = 23,

    /// A second `hello`.
    #[error("no 24 Twice")]
    Twice = 24,

    /// The depot limit is above 32.
    #[error("no 25 BadProfile")]
    BadProfile = 25,
}

impl Refusal {
    /// Its number, 1 to 25.
    pub fn number(self) -> u8
        ensures { result ≡ refusal_number self }
    {
        self as u8
    }

    /// Its name, one word.
    pub fn name(self) -> &'static str
        ensures { result.now ≡ refusal_name self }
    {
        match self {
            Refusal::Zero => "Zero",
            Refusal::TooBig => "TooBig",
            Refusal::NoClient => "NoClient",
            Refusal::Closing => "Closing",
            Refusal::HoldingsFull => "HoldingsFull",
            Refusal::NoSpace => "NoSpace",
            Refusal::RingFull => "RingFull",
            Refusal::NotHeld => "NotHeld",
            Refusal::Taken => "Taken",
            Refusal::BadWindow => "BadWindow",
            Refusal::WindowsFull => "WindowsFull",
            Refusal::NoWorker => "NoWorker",
            Refusal::FlightsFull => "FlightsFull",
            Refusal::NoFlight => "NoFlight",
            Refusal::Worn => "Worn",
            Refusal::ClientsFull => "ClientsFull",
            Refusal::NoMemory => "NoMemory",
            Refusal::SinkFault => "SinkFault",
            Refusal::LinkFault => "LinkFault",
            Refusal::BadLine => "BadLine",
            Refusal::TooMany => "TooMany",
            Refusal::BadTrace => "BadTrace",
            Refusal::NoDomain => "NoDomain",
            Refusal::Twice => "Twice",
            Refusal::BadProfile => "BadProfile",
        }
    }
}
