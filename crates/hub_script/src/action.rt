use hub_envelope::{AgentId, Body, EndId, Ports};
use hub_life::Event;

/// One action of an agent. Ends are named by number: first the queues of the agents, then the ports
/// of the channels, then the members, each in the order of the file.
#[derive(Debug, Drop)]
pub struct Action {
    pub at: AgentId,
    pub kind: ActionKind,
}

#[derive(Debug, Drop)]
pub enum ActionKind {
    /// Posts the body and the ports of `transfer` at a port of its own.
    Post {
        port: EndId,
        body: Body,
        transfer: Ports,
    },
    /// Posts at the queue that an agent got when it was declared.
    Send {
        queue: EndId,
        body: Body,
        transfer: Ports,
    },
    /// Posts from a broadcast member of its own.
    Cast {
        member: EndId,
        body: Body,
    },
    /// Starts a port of its own, or its own client queue.
    Start {
        end: EndId,
    },
    /// Its document is parsed, which starts its own client queue.
    Loaded {
        queue: EndId,
    },
    /// Closes a port or a member of its own.
    Close {
        end: EndId,
    },
    /// Takes turns until so many more messages were delivered to it; notices don't count.
    Wait {
        messages: u32,
    },
    /// Takes turns until it holds the port.
    Receive {
        port: EndId,
    },
    /// Gives the agent the order to end.
    Order {
        to: AgentId,
    },
    /// An event of the life of this worker.
    Event {
        event: Event,
    },
    /// Hands its own queue to another agent.
    Hand {
        to: AgentId,
    },
    /// Takes turns until it holds a queue that was handed to it.
    Fetch {
        queue: EndId,
    },
}
