//! What a step line shows.
use hub_core::Outcome;
use hub_envelope::{EndId, Items};
use hub_life::{LifeError, State};

/// What a cast posted at a destination.
#[derive(Debug, Drop)]
pub struct CastPost {
    pub end: EndId,
    /// The outcome of the Push, or else of the Enter.
    pub outcome: Outcome,
}

/// What a step line shows.
#[derive(Debug)]
pub enum Shown {
    /// The outcome of one of its core steps, or what its first failed test says.
    Answer(Outcome),
    /// The line of a post stood at a retired queue still after `MAX_HOPS` hops.
    Moving,
    /// The list of a post held the end to which it went, and each listed port was closed.
    Doomed,
    /// A port was closed, and its notice found no memory.
    DoneNoMemory,
    /// A port was closed, and its line stood at a retired queue still after `MAX_HOPS` hops.
    DoneMoving,
    /// The URL of a new agent is none, or its origin is opaque. No step was taken.
    BadUrl,
    OpaqueOrigin,
    /// What was posted at each destination of a cast.
    Cast(Items<CastPost>),
    /// The state of a worker agent after an event.
    State(State),
    /// The life of a worker agent refused an event.
    Refused(LifeError),
}

// By hand, so that whoever drops one makes one call, and its proof has no cases of its outcome.
impl Drop for Shown {
    fn drop(self) {
        match self {
            Shown::Answer(outcome) => drop(outcome),
            Shown::Cast(posts) => drop(posts),
            Shown::Moving
            | Shown::Doomed
            | Shown::DoneNoMemory
            | Shown::DoneMoving
            | Shown::BadUrl
            | Shown::OpaqueOrigin
            | Shown::State(_)
            | Shown::Refused(_) => {}
        }
    }
}
