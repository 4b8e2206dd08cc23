use crate::script::AgentKind;
use hub_envelope::{Body, BodyError, Items, Text};
use hub_life::Event;
use hub_origin::{Origin, OriginError};

/// What a script line says by itself, before agents and names are looked up. Its URL and its body
/// are read already; where they are refused, the refusal is kept, since other tests come first.
#[derive(Debug, Drop)]
pub(crate) enum Form {
    Agent {
        kind: AgentKind,
        origin: Result<Origin, OriginError>,
    },
    Channel {
        first: Text,
        second: Text,
        at: u32,
    },
    Member {
        name: Text,
        at: u32,
        on: Text,
    },
    Action {
        at: u32,
        action: ActionForm,
    },
}

/// What an agent is to do, with agents as numbers and ends as names.
#[derive(Debug, Drop)]
pub(crate) enum ActionForm {
    Post {
        port: Text,
        body: Result<Body, BodyError>,
        transfer: Items<Text>,
    },
    Send {
        to: u32,
        body: Result<Body, BodyError>,
        transfer: Items<Text>,
    },
    Cast {
        member: Text,
        body: Result<Body, BodyError>,
    },
    /// A port, or `queue`.
    Start {
        name: Text,
    },
    Loaded,
    Close {
        name: Text,
    },
    Wait {
        messages: u32,
    },
    Receive {
        port: Text,
    },
    Order {
        to: u32,
    },
    Event {
        event: Event,
    },
    Hand {
        to: u32,
    },
    Fetch {
        from: u32,
    },
}
