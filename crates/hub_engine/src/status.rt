//! How the program ends.
ghost use Rattle.std.specs.Prelude.{◌≡◌, option_map};
ghost use Rattle.std.specs.Process.{exit_status};
ghost use Rattle.hub_engine.specs.Status.{status_number};
ghost use Rattle.hub_engine.specs.Ending.{message_for, status_for};

use std::process::ExitCode;

/// How the program ended.
#[derive(Clone, Copy, Debug, PartialEq, Eq)]
pub enum ExitStatus {
    Success,
    /// The checker found a fault, and told it.
    Fault,
    /// The arguments weren't understood, and the usage line was printed.
    Usage,
    /// The input was bad, and one text line says where.
    BadInput,
    /// `out of memory` is the last text line of the output.
    OutOfMemory,
    /// A read or a write failed.
    Device,
}

impl ExitStatus {
    /// The status that the process ends with.
    pub fn number(self) -> u8
        ensures { result ≡ status_number self }
    {
        match self {
            ExitStatus::Success => 0,
            ExitStatus::Fault => 1,
            ExitStatus::Usage | ExitStatus::BadInput => 2,
            ExitStatus::OutOfMemory => 3,
            ExitStatus::Device => 4,
        }
    }

    /// The number that the process ends with.
    pub fn code(self) -> ExitCode
        ensures { exit_status result ≡ status_number self }
    {
        ExitCode::from(self.number())
    }
}

/// A read or a write failed.
#[derive(Clone, Copy, Debug, PartialEq, Eq, Drop)]
pub struct Device;

/// How the process ends.
#[derive(Clone, Copy, Debug, PartialEq, Eq)]
pub struct Ending {
    pub status: ExitStatus,
    /// What is printed on standard error, as a line.
    pub message: Option<&'static str>,
}

impl Ending {
    /// The ending for what the engine answered, or for arguments that ask for nothing.
    pub fn of(answer: Result<ExitStatus, Device>) -> Ending
        ensures status { result.status ≡ status_for answer }
        ensures message { option_map (λ m. m.now) result.message ≡ message_for answer }
    {
        match answer {
            Ok(ExitStatus::Usage) => Ending {
                status: ExitStatus::Usage,
                message: Some("usage: messagehub steps|run|check"),
            },
            Ok(status) => Ending {
                status,
                message: None,
            },
            Err(Device) => Ending {
                status: ExitStatus::Device,
                message: Some("input or output failed"),
            },
        }
    }
}
