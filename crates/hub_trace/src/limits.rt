//! What a log may name: the greatest numbers, and the lists of ports.

ghost use Rattle.std.specs.Prelude.{◌≡◌, ◌↔◌, IsTrue};
ghost use Rattle.hub_trace.specs.Limits.{IsPortList};
ghost use Rattle.hub_trace.specs.PortList.{are_distinct, are_ends, is_port_list};

use hub_envelope::{EndId, MAX_AGENTS, MAX_ENDS, MAX_LINES, MAX_MOVES, MAX_PORTS, MAX_PUT};

/// The greatest number of an agent.
pub const MAX_AGENT: u64 = MAX_AGENTS as u64 - 1;

/// The greatest number of an end.
pub const MAX_END: u64 = MAX_ENDS as u64 - 1;

/// The greatest epoch: how often an end may be adopted.
pub const MAX_EPOCH: u64 = MAX_MOVES as u64;

/// The greatest number of a line of an end.
pub const MAX_LINE: u64 = MAX_LINES as u64 - 1;

/// The greatest number of a line of an end in logs of the first two versions.
pub(crate) const OLD_MAX_LINE: u64 = 15;

/// How long the compact text of a body may be in logs of the first two versions, in bytes.
pub(crate) const OLD_MAX_BODY_BYTES: usize = 65_536;

/// The greatest number of an envelope in its line and epoch.
pub const MAX_NUMBER: u64 = MAX_PUT - 1;

/// Whether a log may have the ends as its list of ports.
pub fn is_port_list(ends: &[EndId]) -> bool
    ensures test { result ≡ is_port_list ends.now }
    ensures list { IsTrue result ↔ IsPortList ends.now }
{
    ends.len() <= MAX_PORTS && is_each_end_number_within_limit(ends) && are_distinct(ends)
}

fn is_each_end_number_within_limit(ends: &[EndId]) -> bool
    ensures { result ≡ are_ends ends.now }
{
    ends.iter().all(|end| u64::from(end.0) <= MAX_END)
}

/// Whether no end stands twice.
fn are_distinct(ends: &[EndId]) -> bool
    ensures { result ≡ are_distinct ends.now }
{
    let mut rest = ends;
    while let Some((end, others)) = rest.split_first() {
        if others.contains(end) {
            return false;
        }
        rest = others;
    }
    true
}
