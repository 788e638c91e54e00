//! What a daemon is asked for over its control socket.
ghost use Rattle.std.specs.Prelude.{◌≡◌, codes};
ghost use Rattle.iova_command.specs.Controls.{IsControlOf, control_name};

/// A word of a control socket.
#[derive(Clone, Copy, Debug, PartialEq, Eq)]
pub enum ControlWord {
    /// The domain's report.
    Report,
    /// The sessions that are served.
    Sessions,
    /// What is counted, in the text form that Prometheus reads.
    Metrics,
    /// What is so from its start to its end: version, frames' bytes, workers, clients.
    Info,
    /// The daemon's orderly end.
    Stop,
}

impl ControlWord {
    /// The word's own text.
    pub fn name(self) -> &'static str
        ensures { result.now ≡ control_name self }
    {
        match self {
            ControlWord::Report => "report",
            ControlWord::Sessions => "sessions",
            ControlWord::Metrics => "metrics",
            ControlWord::Info => "info",
            ControlWord::Stop => "stop",
        }
    }

    /// The word of this text. None exactly where no word has it.
    pub(crate) fn of(text: &str) -> Option<ControlWord>
        ensures { IsControlOf text.now result }
    {
        match text {
            "report" => Some(ControlWord::Report),
            "sessions" => Some(ControlWord::Sessions),
            "metrics" => Some(ControlWord::Metrics),
            "info" => Some(ControlWord::Info),
            "stop" => Some(ControlWord::Stop),
            _ => None,
        }
    }
}
