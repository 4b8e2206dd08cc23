ghost use Rattle.std.specs.Prelude.{◌≡◌, option_map};

use hub_core::Action;
use hub_envelope::{AgentId, Body, BodyError, EndId, Items, LineId, OutOfMemory, Text};
use hub_life::Event;
use std::alloc::AllocFailed;

/// Whose poster a step line speaks of.
#[derive(Clone, Copy, Debug, PartialEq, Eq)]
pub enum PosterName {
    /// The poster that a port holds, to line 0 of the port that it is entangled with.
    Port(EndId),
    /// The poster of a line of a client's or worker's queue, or of a broadcast channel.
    Line(EndId, LineId),
}

/// What a step line asks of a poster.
#[derive(Debug, Drop)]
pub enum PosterCommand {
    Enter,
    Push(Items<EndId>, Body),
    Leave,
    Hop,
    /// The line is given back.
    Back,
    /// Tests, and then Enter, Push and Leave in one step line.
    Post(Items<EndId>, Body),
}

/// The origin that the URL of a new agent gives, or why it gives none.
#[derive(Debug, Drop)]
pub enum AgentUrl {
    /// `-`, for an agent with no origin.
    NoUrl,
    Origin(Text),
    BadUrl,
    OpaqueOrigin,
}

/// What a step line asks for.
#[derive(Debug, Drop)]
pub enum Command {
    /// One step of the core, and no more.
    Step(Action),
    /// Agent, where the URL gives an origin or there is none.
    Agent(AgentUrl),
    /// A worker's queue, and its Start.
    Worker(AgentId),
    /// A broadcast channel of this name, and its Start.
    Member(AgentId, Text),
    At(PosterName, PosterCommand),
    /// Start of a client's queue, whose document is parsed.
    Loaded(EndId),
    /// Adopt, and Start where the end is a worker's queue.
    Adopt(EndId, AgentId),
    /// The notice of a port, and Close.
    Close(EndId),
    /// Sweep, and the closing of each end that what was discarded names.
    Sweep(EndId),
    /// See, and the termination of the life of a worker agent that is found ending.
    See(AgentId),
    /// Cast, and then Enter, Push and Leave at each destination.
    Cast(EndId, Items<EndId>, Body),
    /// No step: an event of the life of a worker agent.
    Event(AgentId, Event),
}

impl Command {
    ghost use Rattle.hub_steps.specs.Unfolding.{takes_at_most_one_step};

    /// Whether it takes one step of the core, or none.
    pub fn takes_at_most_one_step(&self) -> bool
        ensures { result ≡ takes_at_most_one_step self.now }
    {
        !matches!(
            self,
            Command::Worker(_)
                | Command::Member(..)
                | Command::At(_, PosterCommand::Post(..))
                | Command::Adopt(..)
                | Command::Close(_)
                | Command::Sweep(_)
                | Command::Cast(..)
        )
    }
}

/// What a step line asks for, and whether memory is refused in its steps: the mark `!`.
#[derive(Debug, Drop)]
pub struct StepLine {
    pub command: Command,
    pub memory_refused: bool,
}

/// Why a text line is no step line: the first of these tests, in this order, that it fails.
#[derive(Clone, Copy, Debug, PartialEq, Eq, Drop)]
pub enum StepLineError {
    BadUtf8,
    /// The first word names no step; the text line may be empty.
    UnknownStep,
    /// Too few words, or too many.
    BadWords,
    BadNumber,
    BadPoster,
    BadList,
    BadName,
    BadEvent,
    NotJson,
    NotWhole,
    TooDeep,
    TooLong,
    /// Memory ran out. The text line may be a step line or not.
    OutOfMemory,
}

impl StepLineError {
    ghost use Rattle.hub_steps.specs.StepLineKind.{step_kind_text};

    /// The name by which the kind of a bad line is printed. `None` where memory ran out.
    pub fn printed_kind(self) -> Option<&'static str>
        ensures { option_map (λ name. name.now) result ≡ step_kind_text self }
    {
        match self {
            StepLineError::BadUtf8 => Some("BadUtf8"),
            StepLineError::UnknownStep => Some("UnknownStep"),
            StepLineError::BadWords => Some("BadWords"),
            StepLineError::BadNumber => Some("BadNumber"),
            StepLineError::BadPoster => Some("BadPoster"),
            StepLineError::BadList => Some("BadList"),
            StepLineError::BadName => Some("BadName"),
            StepLineError::BadEvent => Some("BadEvent"),
            StepLineError::NotJson => Some("NotJson"),
            StepLineError::NotWhole => Some("NotWhole"),
            StepLineError::TooDeep => Some("TooDeep"),
            StepLineError::TooLong => Some("TooLong"),
            StepLineError::OutOfMemory => None,
        }
    }
}

impl From<OutOfMemory> for StepLineError {
    ghost use Rattle.hub_steps.specs.declared.step_line.StepLineError.TheVariants.{OutOfMemory};
    ghost use Rattle.std.specs.Prelude.{◌≡◌};

    ghost from_gives = { λ _ kind. kind ≡ OutOfMemory };

    fn from(_error: OutOfMemory) -> StepLineError {
        StepLineError::OutOfMemory
    }
}

impl From<BodyError> for StepLineError {
    ghost use Rattle.hub_steps.specs.BodyKind.{body_kind};
    ghost use Rattle.std.specs.Prelude.{◌≡◌};

    ghost from_gives = { λ error kind. kind ≡ body_kind error };

    fn from(error: BodyError) -> StepLineError {
        match error {
            BodyError::NotJson => StepLineError::NotJson,
            BodyError::NotWhole => StepLineError::NotWhole,
            BodyError::TooDeep => StepLineError::TooDeep,
            BodyError::TooLong => StepLineError::TooLong,
            BodyError::OutOfMemory => StepLineError::OutOfMemory,
        }
    }
}

impl<T: Drop> From<AllocFailed<T>> for StepLineError {
    ghost use Rattle.hub_steps.specs.declared.step_line.StepLineError.TheVariants.{OutOfMemory};
    ghost use Rattle.std.specs.Prelude.{◌≡◌};

    ghost from_gives = { λ _ e. e ≡ OutOfMemory };

    fn from(_error: AllocFailed<T>) -> StepLineError {
        StepLineError::OutOfMemory
    }
}
