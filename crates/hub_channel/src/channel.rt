//! How a channel is opened.
ghost use Rattle.std.specs.Prelude.{◌≡◌, [], false, IfOk};
ghost use Rattle.hub_channel.specs.Ports.{sent, got, ArePeers};

use crate::port::{ChannelPort, NO_TOKEN};
use hub_line::{LinePoster, LineTaker, OutOfMemory, open_line};
use std::alloc::Global;
use std::sync::Arc;
use std::sync::atomic::AtomicU64;

/// The two ports of a new channel, which its host names by a number. Neither is started, and
/// neither has a token.
pub fn new_pair_of_channel_ports<M: Drop>(
    alloc: Global,
    name: u64,
) -> Result<(ChannelPort<M>, ChannelPort<M>), OutOfMemory>
    ensures peers { IfOk result (λ ports. ArePeers ports.0 ports.1) }
    ensures new { IfOk result (λ ports. (sent ports.0 ≡ []) × (got ports.0 ≡ [])
        × (sent ports.1 ≡ []) × (got ports.1 ≡ [])) }
    ensures named { IfOk result (λ ports. (ports.0.name ≡ name) × (ports.1.name ≡ name)) }
    ensures disabled { IfOk result (λ ports. (ports.0.is_started ≡ false)
        × (ports.1.is_started ≡ false)) }
{
    let (to, from_first) = open_line(alloc)?;
    let (back, from) = open_line(alloc)?;
    let here = Arc::new(alloc, AtomicU64::new(NO_TOKEN))?;
    let there = Arc::new(alloc, AtomicU64::new(NO_TOKEN))?;
    let tokens = (Arc::try_clone(&there)?, Arc::try_clone(&here)?);
    let port = channel_port_of_parts(to, from, (here, there), name);
    let peer = channel_port_of_parts(back, from_first, tokens, name);
    Ok((port, peer))
}

fn channel_port_of_parts<M: Drop>(
    to: LinePoster<M>,
    from: LineTaker<M>,
    tokens: (Arc<AtomicU64>, Arc<AtomicU64>),
    name: u64,
) -> ChannelPort<M>
    ensures lines { (result.to ≡ to) × (result.from ≡ from) }
    ensures rest { (result.name ≡ name) × (result.is_started ≡ false) }
{
    let (here, there) = tokens;
    ChannelPort {
        to,
        from,
        here,
        there,
        name,
        is_started: false,
    }
}
