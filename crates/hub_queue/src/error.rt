use thiserror::Error;

/// Why an end was not adopted. The taker comes back with it, as it was: no gate was retired, and
/// the yard has nothing new.
#[derive(Clone, Copy, Debug, PartialEq, Eq, Hash, Drop, Error)]
pub enum AdoptError {
    /// There was no memory.
    #[error("out of memory")]
    OutOfMemory,
    /// The end was adopted `MAX_MOVES` times before.
    #[error("the end was adopted too often")]
    TooManyMoves,
    /// The yard keeps an onward poster under a name of the new queue: another end that uses this
    /// yard has the same number.
    #[error("the yard keeps a poster of that name")]
    Taken,
}

/// Why a draft was not accepted. The draft comes back with it, and what the line has put is as it
/// was.
#[derive(Clone, Copy, Debug, PartialEq, Eq, Hash, Drop, Error)]
pub enum PostError {
    /// The end is closed.
    #[error("the end is closed")]
    Closed,
    /// The end has moved on, and the line could not follow it: the yard has no onward poster for
    /// it, or `MAX_HOPS` retired queues were passed and the next one is retired too.
    #[error("the end has moved on")]
    Moving,
    /// There was no memory, or the line has put `MAX_PUT` envelopes in this queue.
    #[error("out of memory")]
    OutOfMemory,
}
