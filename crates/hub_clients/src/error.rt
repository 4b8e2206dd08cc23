use hub_envelope::OutOfMemory;
use thiserror::Error;

/// Why no line was lent. What is listed is as it was.
#[derive(Clone, Copy, Debug, PartialEq, Eq, Hash, Drop, Error)]
pub enum DirectoryError {
    /// No queue of that number is listed.
    #[error("no such end")]
    NoSuchEnd,
    /// Each of the queue's lines is with an agent.
    #[error("no line")]
    NoLine,
}

/// Why a queue was not handed on. The queue comes back with it.
#[derive(Clone, Copy, Debug, PartialEq, Eq, Hash, Drop, Error)]
pub enum HandError {
    /// There was no memory for one more queue in the directory.
    #[error("out of memory")]
    OutOfMemory,
    /// The directory keeps a queue of that number for that agent: another queue that was handed on
    /// over this directory has the same number.
    #[error("a queue of that number is handed to that agent already")]
    Taken,
}

/// Why no queue was made. No number was drawn, and nothing is listed.
#[derive(Clone, Copy, Debug, PartialEq, Eq, Hash, Drop, Error)]
pub enum QueueError {
    /// Each of the `MAX_ENDS` numbers was drawn.
    #[error("too many ends")]
    TooManyEnds,
    /// There was no memory for the queue, its lines or their place in the directory.
    #[error("out of memory")]
    OutOfMemory,
}

impl From<OutOfMemory> for QueueError {
    ghost use Rattle.std.specs.Prelude.{◌≡◌};
    ghost use Rattle.hub_clients.specs.declared.error.QueueError.TheVariants.{OutOfMemory};

    ghost from_gives = { λ _ e. e ≡ OutOfMemory };

    fn from(_error: OutOfMemory) -> QueueError {
        QueueError::OutOfMemory
    }
}
