ghost use Rattle.std.specs.Prelude.{◌≡◌, Some};
ghost use Rattle.hub_trace.specs.Text.{log_error_text};

use hub_envelope::OutOfMemory;
use std::alloc::AllocFailed;
use std::error::Error;
use std::fmt;

/// What is wrong with a log line, or with the first line of a file of logs. It is printed as its
/// name.
#[derive(Clone, Copy, Debug, PartialEq, Eq, Drop)]
pub enum LogError {
    /// The first text line isn't the header.
    BadHeader,
    /// A later text line isn't an `agent` line or an entry, goes past a limit, is an entry before
    /// the first `agent` line, or closes an end that an earlier one closed.
    BadLine,
    OutOfMemory,
}

impl LogError {
    /// The name by which it is printed.
    pub fn name(self) -> &'static str
        ensures { result.now ≡ log_error_text self }
    {
        match self {
            LogError::BadHeader => "BadHeader",
            LogError::BadLine => "BadLine",
            LogError::OutOfMemory => "OutOfMemory",
        }
    }
}

impl fmt::Display for LogError {
    ghost output = { λ e. Some (log_error_text e) };

    fn fmt<W: fmt::Write>(&self, f: &mut fmt::Formatter<W>) -> fmt::Result {
        f.write_str(self.name())
    }
}

impl Error for LogError {}

impl<T: Drop> From<AllocFailed<T>> for LogError {
    ghost use Rattle.std.specs.Prelude.{◌≡◌};
    ghost use Rattle.hub_trace.specs.declared.error.LogError.TheVariants.{OutOfMemory};

    ghost from_gives = { λ _ e. e ≡ OutOfMemory };

    fn from(_error: AllocFailed<T>) -> LogError {
        LogError::OutOfMemory
    }
}

impl From<OutOfMemory> for LogError {
    ghost use Rattle.std.specs.Prelude.{◌≡◌};
    ghost use Rattle.hub_trace.specs.declared.error.LogError.TheVariants.{OutOfMemory};

    ghost from_gives = { λ _ e. e ≡ OutOfMemory };

    fn from(_error: OutOfMemory) -> LogError {
        LogError::OutOfMemory
    }
}
