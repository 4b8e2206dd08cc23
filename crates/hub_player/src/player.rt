use crate::agent::Agent;
use crate::lines::Lent;
use crate::seat::{Kind, Place, Seat};
use hub_broadcast::SharedRoster;
use hub_clients::Directory;
use hub_core::{Action, Outcome};
use hub_envelope::{AgentId, EndId};
use hub_ports::Hub;
use hub_queue::Ends;
use hub_steps::{Command, PosterCommand, PosterName, Shown, StepLine, StepLineError};
use std::alloc::Global;
use std::sync::Wait;

/// Why a text line was not played.
#[derive(Clone, Copy)]
pub(crate) enum Stop {
    /// It is no step line.
    Bad(StepLineError),
    /// There was no memory.
    OutOfMemory,
    /// Memory is to be refused, and no call refuses it.
    RefusedMemory,
    /// A part of a post, where a call makes a whole one; or a look at a queue, which is a part of a
    /// take and of a sweep.
    Part,
    /// The start of a queue that has no such call, since it is enabled from the first.
    Start,
    /// The sweep of a port that a doomed post has closed and kept nothing of.
    Doomed,
    /// A line that a loop holds is given back, which it does when it ends.
    Line,
    /// A list of more ports than a message takes, of which some are not at hand.
    List,
    /// A call has answered what no step line shows.
    Unexpected,
}

impl Stop {
    /// The reason, as a text.
    pub(crate) fn reason(self) -> &'static str {
        match self {
            Stop::Bad(_) => "no step line",
            Stop::OutOfMemory => "out of memory",
            Stop::RefusedMemory => "no call refuses memory",
            Stop::Part => "no call makes a part of a post or of a sweep",
            Stop::Start => "no call starts a queue that is enabled from the first",
            Stop::Doomed => "nothing is kept of a port that a doomed post has closed",
            Stop::Line => "a loop gives its lines back when it ends",
            Stop::List => "no call lists so many ports that are not at hand",
            Stop::Unexpected => "a call has answered what no step line shows",
        }
    }
}

/// Where an end stands for whoever takes from it.
#[derive(Clone, Copy, PartialEq, Eq)]
pub(crate) enum Standing {
    /// A running agent has it.
    AtHand,
    Closed,
    /// There is none, or it isn't with a running agent.
    Elsewhere,
}

/// What the agents share, and all that they have.
#[derive(Drop)]
pub(crate) struct Player {
    pub(crate) alloc: Global,
    pub(crate) hub: Hub,
    pub(crate) directory: Directory,
    pub(crate) roster: SharedRoster,
    pub(crate) ends: Ends,
    /// The agents by number.
    pub(crate) agents: Vec<Agent>,
    /// The ends by number.
    pub(crate) seats: Vec<Seat>,
    pub(crate) lent: Vec<Lent>,
    /// Loops hold lines too. None is given back before its loop ends.
    pub(crate) holds_lines: bool,
}

/// What is shown where there is nothing to call.
pub(crate) fn not_now() -> Result<Shown, Stop> {
    answer(Outcome::NotNow)
}

pub(crate) fn answer(outcome: Outcome) -> Result<Shown, Stop> {
    Ok(Shown::Answer(outcome))
}

/// Whether memory may be asked for in the steps of the line.
fn takes_memory(command: &Command) -> bool {
    match command {
        Command::Step(action) => matches!(action, Action::Channel(_) | Action::Client(_)),
        Command::At(_, command) => matches!(command, PosterCommand::Post(..)),
        Command::Agent(_)
        | Command::Worker(_)
        | Command::Member(..)
        | Command::Adopt(..)
        | Command::Close(_)
        | Command::Sweep(_)
        | Command::Cast(..) => true,
        Command::Loaded(_) | Command::See(_) | Command::Event(..) => false,
    }
}

impl Player {
    pub(crate) fn new(alloc: Global, holds_lines: bool) -> Player {
        Player {
            alloc,
            hub: Hub::new(alloc),
            directory: Directory::new(alloc),
            roster: SharedRoster::new(alloc),
            ends: Ends::new(),
            agents: Vec::new(alloc),
            seats: Vec::new(alloc),
            lent: Vec::new(alloc),
            holds_lines,
        }
    }

    /// Plays a step line, and gives what it shows.
    pub(crate) fn play<R: Wait>(&mut self, rt: &R, line: StepLine) -> Result<Shown, Stop> {
        let StepLine {
            command,
            memory_refused,
        } = line;
        if memory_refused && takes_memory(&command) {
            return Err(Stop::RefusedMemory);
        }
        match command {
            Command::Step(action) => self.step(rt, &action),
            Command::Agent(url) => self.make_agent(url),
            Command::Worker(agent) => self.make_queue(rt, Kind::Worker, agent),
            Command::Member(agent, name) => self.make_member(rt, agent, name),
            Command::At(poster, command) => self.at(rt, poster, command),
            Command::Loaded(end) => self.load(end),
            Command::Adopt(end, agent) => self.adopt(rt, end, agent),
            Command::Close(end) => self.close(rt, end),
            Command::Sweep(end) => self.sweep(rt, end),
            Command::See(agent) => self.see(agent),
            Command::Cast(end, ports, body) => self.cast(rt, end, ports, body),
            Command::Event(agent, event) => self.event(agent, event),
        }
    }

    fn step<R: Wait>(&mut self, rt: &R, action: &Action) -> Result<Shown, Stop> {
        match action {
            Action::Channel(agent) => self.make_channel(*agent),
            Action::Client(agent) => self.make_queue(rt, Kind::Client, *agent),
            Action::Line(end, agent) => self.lend(rt, *end, *agent),
            Action::Start(end) => self.start(*end),
            Action::Take(end) => self.take(rt, *end),
            Action::Hand(end, agent) => self.hand(rt, *end, *agent),
            Action::Part(end) => self.part(rt, *end),
            Action::Order(agent) => self.order(*agent),
            _ => Err(Stop::Part),
        }
    }

    fn at<R: Wait>(
        &mut self,
        rt: &R,
        poster: PosterName,
        command: PosterCommand,
    ) -> Result<Shown, Stop> {
        match command {
            PosterCommand::Post(ports, body) => match poster {
                PosterName::Port(port) => self.post_from_port(rt, port, ports, body),
                PosterName::Line(end, line) => self.post_on_line(rt, end, line, ports, body),
            },
            PosterCommand::Back => match poster {
                PosterName::Port(_) => not_now(),
                PosterName::Line(end, line) => self.give_back(rt, end, line),
            },
            _ => Err(Stop::Part),
        }
    }

    pub(crate) fn agent(&self, agent: AgentId) -> Option<&Agent> {
        self.agents.get(usize::from(agent.0))
    }

    pub(crate) fn agent_mut(&mut self, agent: AgentId) -> Option<&mut Agent> {
        self.agents.get_mut(usize::from(agent.0))
    }

    pub(crate) fn seat(&self, end: EndId) -> Option<&Seat> {
        self.seats.get(end.0 as usize)
    }

    pub(crate) fn seat_mut(&mut self, end: EndId) -> Option<&mut Seat> {
        self.seats.get_mut(end.0 as usize)
    }

    pub(crate) fn is_running(&self, agent: AgentId) -> bool {
        match self.agent(agent) {
            Some(agent) => !agent.is_ending,
            None => false,
        }
    }

    /// Where an end stands for whoever takes from it.
    pub(crate) fn standing(&self, end: EndId) -> Standing {
        let Some(seat) = self.seat(end) else {
            return Standing::Elsewhere;
        };
        if seat.is_closed() {
            Standing::Closed
        } else if seat.place == Place::Held && self.is_running(seat.agent) {
            Standing::AtHand
        } else {
            Standing::Elsewhere
        }
    }
}
