//! The calls for a port.
ghost use Rattle.std.specs.Prelude.{◌≡◌, ◌⊎◌, None, false, true};
ghost use Rattle.hub_ports_c.specs.Handles.{At, BothOpenAs, HeldNo, SameHeld};
ghost use Rattle.hub_ports_c.specs.Held.{NamesChannel, is_grave_in, is_port_in};
ghost use Rattle.hub_ports_c.specs.Resources.{AtPort, AtGrave, Becomes, ClosesPort, FindsNone};
ghost use Rattle.hub_ports_c.specs.Resources.{FindsSome, HandsBack, HandsBackLast, HandsBackNone};
ghost use Rattle.hub_ports_c.specs.Resources.{NewPeers, PostsMessage, PostsNothing, RefusesClosed};
ghost use Rattle.hub_ports_c.specs.Resources.{TakesMessage, TakesLast, TakesNone, Waits};

use crate::handle::Handle;
use crate::resource::{Message, Resource};
use crate::status::{DONE, NO_MEMORY, WRONG_STATE};
use hub_channel::new_pair_of_channel_ports;
use std::alloc::Global;

/// Opens the two ports of a channel in two closed handles. The host names the channel.
#[unsafe(no_mangle)]
pub extern "C" fn varukoni_channel_open(
    alloc: Global,
    left: &mut Handle,
    right: &mut Handle,
    name: u64,
) -> u8
    ensures opened { result ≡ 0 → BothOpenAs (NewPeers name) left.old right.old left.new right.new }
    ensures refused { (result ≡ 0) ⊎ ((left.new ≡ left.old) × (right.new ≡ right.old)) }
    ensures other { result ≡ 5 → (left.old.is_open ≡ true) ⊎ (right.old.is_open ≡ true) }
    ensures statuses { (result ≡ 0) ⊎ ((result ≡ 3) ⊎ (result ≡ 5)) }
{
    if left.is_open || right.is_open {
        return WRONG_STATE;
    }
    let Ok((one, other)) = new_pair_of_channel_ports(alloc, name) else {
        return NO_MEMORY;
    };
    let Ok(one) = Box::new(alloc, Resource::Port(one)) else {
        return NO_MEMORY;
    };
    let Ok(other) = Box::new(alloc, Resource::Port(other)) else {
        return NO_MEMORY;
    };
    *left = Handle::new_open(one);
    *right = Handle::new_open(other);
    DONE
}

/// Posts a message, and says whom to wake for it.
#[unsafe(no_mangle)]
pub extern "C" fn varukoni_port_post(
    alloc: Global,
    handle: &mut Handle,
    message: &Message,
    wake: &mut u64,
) -> u8
    ensures posted { result ≡ 0 → At (AtPort (PostsMessage message.now)) handle.old handle.new }
    ensures no_memory { result ≡ 3 → At (AtPort PostsNothing) handle.old handle.new }
    ensures closed { result ≡ 6 → At (AtPort RefusesClosed) handle.old handle.new }
    ensures other { result ≡ 5 → HeldNo is_port_in handle.old handle.new }
    ensures wake { (result ≡ 0) ⊎ (wake.new ≡ wake.old) }
    ensures statuses { (result ≡ 0) ⊎ ((result ≡ 3) ⊎ ((result ≡ 5) ⊎ (result ≡ 6))) }
{
    if !handle.is_open {
        return WRONG_STATE;
    }
    let mut resource = handle.take_resource(alloc);
    let status = resource.post_at_port(message, wake);
    *handle = Handle::new_open(resource);
    status
}

/// Takes the next message of a port that is started.
#[unsafe(no_mangle)]
pub extern "C" fn varukoni_port_take(
    alloc: Global,
    handle: &mut Handle,
    message: &mut Message,
) -> u8
    ensures took { result ≡ 0 → At (AtPort (TakesMessage message.new)) handle.old handle.new }
    ensures empty { result ≡ 1 → At (AtPort TakesNone) handle.old handle.new }
    ensures ended { result ≡ 2 → At (AtPort TakesLast) handle.old handle.new }
    ensures disabled { result ≡ 4 → At (AtPort Waits) handle.old handle.new }
    ensures other { result ≡ 5 → HeldNo is_port_in handle.old handle.new }
    ensures message { (result ≡ 0) ⊎ (message.new ≡ message.old) }
    ensures statuses { (result ≡ 0)
        ⊎ ((result ≡ 1) ⊎ ((result ≡ 2) ⊎ ((result ≡ 4) ⊎ (result ≡ 5)))) }
{
    if !handle.is_open {
        return WRONG_STATE;
    }
    let mut resource = handle.take_resource(alloc);
    let status = resource.take_from_port(message);
    *handle = Handle::new_open(resource);
    status
}

/// Starts a port: its messages may be taken.
#[unsafe(no_mangle)]
pub extern "C" fn varukoni_port_start(alloc: Global, handle: &mut Handle) -> u8
    ensures started { result ≡ 0 → At (AtPort (Becomes true)) handle.old handle.new }
    ensures other { result ≡ 5 → HeldNo is_port_in handle.old handle.new }
    ensures statuses { (result ≡ 0) ⊎ (result ≡ 5) }
{
    if !handle.is_open {
        return WRONG_STATE;
    }
    let mut resource = handle.take_resource(alloc);
    let status = resource.start_port();
    *handle = Handle::new_open(resource);
    status
}

/// Says by its token whom to wake for a port, and looks into it then.
#[unsafe(no_mangle)]
pub extern "C" fn varukoni_port_arm(
    alloc: Global,
    handle: &mut Handle,
    token: u64,
    old: &mut u64,
) -> u8
    ensures armed { (result ≡ 5) ⊎ At (AtPort PostsNothing) handle.old handle.new }
    ensures some { result ≡ 0 → At (AtPort FindsSome) handle.old handle.new }
    ensures none { result ≡ 1 → At (AtPort FindsNone) handle.old handle.new }
    ensures other { result ≡ 5 → HeldNo is_port_in handle.old handle.new × (old.new ≡ old.old) }
    ensures statuses { (result ≡ 0) ⊎ ((result ≡ 1) ⊎ (result ≡ 5)) }
{
    if !handle.is_open {
        return WRONG_STATE;
    }
    let mut resource = handle.take_resource(alloc);
    let status = resource.arm_port(token, old);
    *handle = Handle::new_open(resource);
    status
}

/// Makes a port that of another owner, disabled, and looks into it then.
#[unsafe(no_mangle)]
pub extern "C" fn varukoni_port_adopt(
    alloc: Global,
    handle: &mut Handle,
    token: u64,
    old: &mut u64,
) -> u8
    ensures adopted { (result ≡ 5) ⊎ At (AtPort (Becomes false)) handle.old handle.new }
    ensures some { result ≡ 0 → At (AtPort FindsSome) handle.old handle.new }
    ensures none { result ≡ 1 → At (AtPort FindsNone) handle.old handle.new }
    ensures other { result ≡ 5 → HeldNo is_port_in handle.old handle.new × (old.new ≡ old.old) }
    ensures statuses { (result ≡ 0) ⊎ ((result ≡ 1) ⊎ (result ≡ 5)) }
{
    if !handle.is_open {
        return WRONG_STATE;
    }
    let mut resource = handle.take_resource(alloc);
    let status = resource.adopt_port(token, old);
    *handle = Handle::new_open(resource);
    status
}

/// Closes a port, and leaves its grave in the handle. It gives back the port's own token, and says
/// whom to wake for the peer.
#[unsafe(no_mangle)]
pub extern "C" fn varukoni_port_close(
    alloc: Global,
    handle: &mut Handle,
    own: &mut u64,
    peer: &mut u64,
) -> u8
    ensures closed { result ≡ 0 → At ClosesPort handle.old handle.new }
    ensures other { result ≡ 5 → HeldNo is_port_in handle.old handle.new × (own.new ≡ own.old)
        × (peer.new ≡ peer.old) }
    ensures statuses { (result ≡ 0) ⊎ (result ≡ 5) }
{
    if !handle.is_open {
        return WRONG_STATE;
    }
    let mut resource = handle.take_resource(alloc);
    let status = resource.close_port(own, peer);
    *handle = Handle::new_open(resource);
    status
}

/// Hands back the next message that was posted at a closed port.
#[unsafe(no_mangle)]
pub extern "C" fn varukoni_port_drain(
    alloc: Global,
    handle: &mut Handle,
    message: &mut Message,
) -> u8
    ensures handed { result ≡ 0 → At (AtGrave (HandsBack message.new)) handle.old handle.new }
    ensures empty { result ≡ 1 → At (AtGrave HandsBackNone) handle.old handle.new }
    ensures ended { result ≡ 2 → At (AtGrave HandsBackLast) handle.old handle.new }
    ensures other { result ≡ 5 → HeldNo is_grave_in handle.old handle.new }
    ensures message { (result ≡ 0) ⊎ (message.new ≡ message.old) }
    ensures statuses { (result ≡ 0) ⊎ ((result ≡ 1) ⊎ ((result ≡ 2) ⊎ (result ≡ 5))) }
{
    if !handle.is_open {
        return WRONG_STATE;
    }
    let mut resource = handle.take_resource(alloc);
    let status = resource.take_leftover_message(message);
    *handle = Handle::new_open(resource);
    status
}

/// The number by which the host has named the channel of a port: its two ports have the same.
#[unsafe(no_mangle)]
pub extern "C" fn varukoni_port_name(alloc: Global, handle: &mut Handle, name: &mut u64) -> u8
    ensures named { result ≡ 0 → SameHeld handle.old handle.new
        × NamesChannel name.new handle.old.slot.held }
    ensures other { result ≡ 5 → HeldNo is_port_in handle.old handle.new × (name.new ≡ name.old) }
    ensures statuses { (result ≡ 0) ⊎ (result ≡ 5) }
{
    if !handle.is_open {
        return WRONG_STATE;
    }
    let resource = handle.take_resource(alloc);
    let status = resource.channel_name(name);
    *handle = Handle::new_open(resource);
    status
}

/// Closes a handle, whatever it holds, and frees its memory. A port is closed so, and what waits in
/// it is discarded. A closed handle stays closed.
#[unsafe(no_mangle)]
pub extern "C" fn varukoni_port_drop(alloc: Global, handle: &mut Handle)
    ensures closed { (handle.new.slot.held ≡ None) × (handle.new.is_open ≡ false) }
{
    *handle = Handle::new_closed(alloc);
}
