use hub_envelope::{AgentId, Body, EndId, Envelope, Items, LineId, Text};

/// A line of an end: what one sender posts at that end goes by it. A port has the one line 0, which
/// the port that it is entangled with holds. A client's or worker's queue has `MAX_LINES` lines,
/// which agents hold. A broadcast channel has the one line 0, by which casts come.
#[derive(Clone, Copy, Debug, PartialEq, Eq)]
pub struct Sender {
    pub end: EndId,
    pub line: LineId,
}

/// One event of the hub. A number that names nothing is answered by `NotNow`.
#[derive(Debug, Drop)]
pub enum Action {
    /// A new agent begins to run. Its origin says which broadcast channels its own ones reach; an
    /// agent with none makes no broadcast channel.
    Agent(Option<Text>),
    /// The agent makes two entangled ports (WHATWG HTML, "Message channels").
    Channel(AgentId),
    /// The agent makes its queue of the messages to a client (W3C Service Workers, "Client").
    Client(AgentId),
    /// The agent makes its queue of the messages to a worker (W3C Service Workers,
    /// "ServiceWorker").
    Worker(AgentId),
    /// The agent makes a broadcast channel of this name, a member of the roster (WHATWG HTML,
    /// "Broadcasting to other browsing contexts").
    Member(AgentId, Text),
    /// The agent gets a line of a client's or worker's queue, and holds it until it gives it back.
    Line(EndId, AgentId),
    /// A line is given back.
    Back(Sender),
    /// A poster passes the gate of its line's queue, or is turned back there.
    Enter(Sender),
    /// A poster that is inside a queue puts a body in it, with the ports that travel along.
    Push(Sender, Items<EndId>, Body),
    /// A poster that is inside a queue says that the port that it posts for is closed (WHATWG HTML,
    /// "Message ports", the `close` event). It is the last that the line puts.
    Notice(Sender),
    /// A poster leaves, or has turned back.
    Leave(Sender),
    /// A line that is out goes on from a retired queue to the next one.
    Hop(Sender),
    /// The queue of an end is enabled (WHATWG HTML, "Message ports", `start()`).
    Start(EndId),
    /// The agent that has the end takes the next envelope from it.
    Take(EndId),
    /// The oldest queue, from the taker's on, that is retired or closed and isn't clear is looked
    /// at: it becomes clear where no poster is inside or being turned back there.
    Look(EndId),
    /// The agent at which an end has arrived adopts it, with a new, disabled queue (WHATWG HTML,
    /// "Message ports", the transfer-receiving steps).
    Adopt(EndId, AgentId),
    /// An end is closed (WHATWG HTML, "Message ports", `close()`).
    Close(EndId),
    /// What waits at a closed end is discarded.
    Sweep(EndId),
    /// The agent that has a client's or worker's queue hands it to another agent, at which it
    /// arrives.
    Hand(EndId, AgentId),
    /// A member casts a body to the others of its origin and name, which are fixed now; each gets
    /// it by an `Enter`, `Push` and `Leave` on its line 0, one destination after the other.
    Cast(EndId, Items<EndId>, Body),
    /// A member leaves the roster, and is no destination of later casts.
    Part(EndId),
    /// The agent is ordered to end (WHATWG HTML, "terminate a worker").
    Order(AgentId),
    /// The agent looks whether it was ordered to end. One that was is ending from now on.
    See(AgentId),
}

/// An event, and whether memory is refused in it. A test refuses memory to see what happens then.
/// It has no effect on an event that takes no memory, and none on `Sweep`, `See` and `Cast`.
#[derive(Debug, Drop)]
pub struct Step {
    pub action: Action,
    pub memory_refused: bool,
}

/// The part of an accepted envelope's name that its `Push` doesn't say.
#[derive(Clone, Copy, Debug, PartialEq, Eq)]
pub struct Acceptance {
    /// The agent that posted.
    pub agent: AgentId,
    /// The queue of the end.
    pub epoch: u32,
    /// How many envelopes of the line stood in that queue before.
    pub number: u64,
}

/// What a step is answered.
#[derive(Debug, Drop)]
pub enum Outcome {
    /// The step can't be taken now. Nothing changed.
    NotNow,
    /// Memory was refused in the step. Nothing changed.
    NoMemory,
    /// The new agent.
    Agent(AgentId),
    /// There are `MAX_AGENTS` agents. Nothing changed.
    TooManyAgents,
    /// The two new ports, entangled with each other.
    Ends(EndId, EndId),
    /// The new end.
    End(EndId),
    /// There is no number left for a new end. Nothing changed.
    TooManyEnds,
    /// The agent holds this line of the end.
    Line(LineId),
    /// The agent has no origin. Nothing changed.
    NoOrigin,
    /// The member has parted or is closed. Nothing changed.
    InvalidState,
    /// A cast has ports. Nothing changed.
    NotTransferable,
    /// The end is no client's or worker's queue. Nothing changed.
    NoSuchEnd,
    /// Agents hold all `MAX_LINES` lines of the end. Nothing changed.
    NoLine,
    /// The poster is inside.
    In,
    /// The end, or the line's queue, is closed. A poster that enters is being turned back.
    Closed,
    /// The line's queue is retired. The poster is being turned back.
    Moved,
    /// The envelope is the last of its queue.
    Accepted(Acceptance),
    /// The list has more than `MAX_PORTS` ports. Nothing changed.
    TooManyPorts,
    /// The poster is out.
    Left,
    /// The line stands at this queue now.
    Hopped(u32),
    /// The queue is enabled.
    Started,
    /// The envelope, which is in its queue no more.
    Got(Envelope),
    /// Nothing is left to take. Nothing changed.
    Empty,
    /// A poster is inside or being turned back: at the taker's queue, which is retired and holds
    /// nothing, or at a queue that a `Look` or a `Sweep` needs settled. Nothing changed.
    Busy,
    /// Nothing is left in a retired queue, and the taker went on to the next one.
    Again,
    /// The queue isn't enabled. Nothing changed.
    Disabled,
    /// The queue that became clear; `None` where there was none to look at, and nothing changed.
    Clear(Option<u32>),
    /// The end is with the agent, and this is its newest queue.
    Adopted(u32),
    /// The end was adopted `MAX_MOVES` times. Nothing changed.
    TooManyMoves,
    /// The end is closed from now on; or the line that was given back is held by no agent; or the
    /// member has left the roster.
    Done,
    /// The end has arrived at the other agent.
    Handed,
    /// The agent was ordered to end.
    Ordered,
    /// The agent wasn't ordered to end. Nothing changed.
    GoingOn,
    /// The agent found the order and is ending; these ends are with it or have arrived at it, in
    /// rising order.
    Ending(Items<EndId>),
    /// The ends to which the cast goes, in the order in which they were made.
    Destinations(Items<EndId>),
    /// What waited at the end, in order of the queues and then of acceptance. It waits no more.
    Discarded(Items<Envelope>),
}

/// What a list of ports is to a message on a line.
#[derive(Clone, Copy, Debug, PartialEq, Eq)]
pub enum Listing {
    /// The message may take the ports along.
    Good,
    /// The list would be good, but it holds the end to which the message goes (WHATWG HTML,
    /// "Message ports", the message port post message steps: such a message is doomed).
    HoldsTarget,
    Bad,
}
