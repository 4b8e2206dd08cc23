//! What the tests make their members of, and the calls that they make.
mod lent;
mod memory;
mod numbers;

use hub_broadcast::{JoinError, Member, Origin, Roster, origin_of};
use hub_envelope::{AgentId, EndId};
use hub_queue::{Ends, Took};
use hub_test_parts::bell;
use std::alloc::Global;
use std::sync::Wait;

/// The list of a cast that may be made.
pub(crate) const NO_PORTS: [EndId; 0] = [];

fn try_key(alloc: Global) -> Option<(Origin, String)> {
    let origin = origin_of(alloc, "https://a.test").ok()?;
    let name = String::from_str(alloc, "news").ok()?;
    Some((origin, name))
}

/// The origin and the name of all members. They are made again where an allocation was refused.
pub(crate) fn key(alloc: Global) -> Option<(Origin, String)> {
    match try_key(alloc) {
        Some(key) => Some(key),
        None => try_key(alloc),
    }
}

/// One more member of agent 7, by one call. `None` where an allocation was refused before it.
pub(crate) fn try_join(
    alloc: Global,
    roster: &mut Roster,
    ends: &mut Ends,
) -> Option<Result<Member, JoinError>> {
    let (origin, name) = key(alloc)?;
    Some(roster.join(ends, AgentId(7), origin, name, bell(alloc)?))
}

/// Whether the take gave the first envelope of the line, of this agent and text and without ports.
pub(crate) fn is_first(took: Took, agent: u8, text: &str) -> bool {
    match took {
        Took::Got(envelope) => {
            envelope.number == 0
                && envelope.agent.0 == agent
                && envelope.body.text() == text
                && envelope.ports.as_slice().is_empty()
        }
        _ => false,
    }
}
