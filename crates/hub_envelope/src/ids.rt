//! The numbers by which ends, agents and lines are named.

/// The number of an end: a port, a queue of a client or worker, or a broadcast channel.
/// Ends are numbered from 0 in the order in which they are made.
#[derive(Clone, Copy, Debug, PartialEq, Eq, PartialOrd, Ord, Hash)]
pub struct EndId(pub u32);

/// The number of an agent, one run of one event loop. Agents are numbered from 0 as they are made.
#[derive(Clone, Copy, Debug, PartialEq, Eq, PartialOrd, Ord, Hash)]
pub struct AgentId(pub u8);

/// The number of a line of an end. What one sender posts at an end goes by one line.
#[derive(Clone, Copy, Debug, PartialEq, Eq, PartialOrd, Ord, Hash)]
pub struct LineId(pub u8);
