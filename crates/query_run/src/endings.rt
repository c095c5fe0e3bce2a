// How a status is told outside: by the number that the process ends with, and by a line on standard error.
ghost use Rattle.std.specs.Prelude.{◌≡◌, None, Some, MatchOption};
ghost use Rattle.query_run.specs.Endings.{exit_number_of, fault_line_of};

use crate::top::{Status, Which};

impl Status {
    /// The number that the process ends with.
    pub fn exit_number(self) -> u8
        ensures { result ≡ exit_number_of self }
    {
        match self {
            Status::Done => 0,
            Status::DoneWithRefusals => 1,
            Status::Usage => 2,
            Status::Memory => 3,
            Status::InputFault(_) => 4,
            Status::OutputFault => 5,
            Status::TooLong(_) => 6,
        }
    }

    /// The line on standard error, where the output is not whole.
    pub fn fault_line(self) -> Option<&'static str>
        ensures { MatchOption result (fault_line_of self ≡ None)
            (λ line. fault_line_of self ≡ Some line.now) }
    {
        match self {
            Status::Done | Status::DoneWithRefusals => None,
            Status::Usage => Some(
                "usage: query_cli --model event|persistent --events PATH --script PATH",
            ),
            Status::Memory => Some("out of memory"),
            Status::InputFault(Which::Events) => Some("cannot read the events file"),
            Status::InputFault(Which::Script) => Some("cannot read the script"),
            Status::OutputFault => Some("cannot write the output"),
            Status::TooLong(Which::Events) => Some("the events file is too long"),
            Status::TooLong(Which::Script) => Some("the script is too long"),
        }
    }
}
