use hub_envelope::OutOfMemory;
use thiserror::Error;

/// Why nothing was cast. `InvalidState` is tested before `NotTransferable`, and both before any
/// memory is asked for. After each of them nothing was posted.
#[derive(Clone, Copy, Debug, PartialEq, Eq, Drop, Error)]
pub enum CastError {
    /// The source is not in the roster: it has left (WHATWG HTML, "Broadcasting to other browsing
    /// contexts": a closed flag that is set).
    #[error("the source has left the roster")]
    InvalidState,
    /// The list names a port, and a broadcast channel transfers none.
    #[error("a broadcast channel transfers no ports")]
    NotTransferable,
    /// An allocation failed before the first post.
    #[error("out of memory")]
    OutOfMemory,
}

impl From<OutOfMemory> for CastError {
    ghost use Rattle.std.specs.Prelude.{◌≡◌};
    ghost use Rattle.hub_broadcast.specs.declared.error.CastError.TheVariants.{OutOfMemory};

    ghost from_gives = { λ _ e. e ≡ OutOfMemory };

    fn from(_error: OutOfMemory) -> CastError {
        CastError::OutOfMemory
    }
}

/// Why no member was made. `TooManyEnds` is tested first, then `OtherEnds`, and both before any
/// memory is asked for. After each of them the roster is as it was, and no number of an end is
/// used.
#[derive(Clone, Copy, Debug, PartialEq, Eq, Drop, Error)]
pub enum JoinError {
    /// All numbers of ends were drawn.
    #[error("too many ends")]
    TooManyEnds,
    /// The number of the next end isn't above those of all members, so it is of another count of
    /// ends than theirs.
    #[error("an end of another count")]
    OtherEnds,
    /// An allocation failed.
    #[error("out of memory")]
    OutOfMemory,
}

impl From<OutOfMemory> for JoinError {
    ghost use Rattle.std.specs.Prelude.{◌≡◌};
    ghost use Rattle.hub_broadcast.specs.declared.error.JoinError.TheVariants.{OutOfMemory};

    ghost from_gives = { λ _ e. e ≡ OutOfMemory };

    fn from(_error: OutOfMemory) -> JoinError {
        JoinError::OutOfMemory
    }
}
