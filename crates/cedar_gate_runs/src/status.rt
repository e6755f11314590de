//! Statuses of the service.

ghost use Rattle.std.specs.Prelude.{◌≡◌};
ghost use Rattle.cedar_gate_runs.specs.Statuses.{status_number};

/// How an input was served.
#[derive(Clone, Copy, Debug, PartialEq, Eq)]
pub enum Status {
    /// The run came to its answer.
    Answered,
    /// The gate refused what was handed in.
    Refused,
    /// The input is no bundle.
    Unreadable,
    /// The run stopped without an answer.
    Stopped,
}

impl Status {
    /// The number of the status: what the program exits with.
    pub fn number(self) -> u8
        ensures { result ≡ status_number self }
    {
        match self {
            Status::Answered => 0,
            Status::Refused => 1,
            Status::Unreadable => 2,
            Status::Stopped => 3,
        }
    }
}
