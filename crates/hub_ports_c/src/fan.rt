//! The calls for a fan.
ghost use Rattle.std.specs.Prelude.{◌≡◌, ◌⊎◌, None, false, true};
ghost use Rattle.hub_fan.specs.declared.closing.FanDrained.TheVariants as drained;
ghost use Rattle.hub_fan.specs.declared.fan.FanTaken.TheVariants as taken;
ghost use Rattle.hub_ports_c.specs.Handles.{At, HeldNo, OpensAs, OpensLineAt, SameHeld};
ghost use Rattle.hub_ports_c.specs.Held.{is_fan_grave_in, is_fan_in};
ghost use Rattle.hub_ports_c.specs.FanResources.{AtFan, AtFanGrave, ClosesFan, DrainsOf};
ghost use Rattle.hub_ports_c.specs.FanResources.{FindsALine, FindsNoLine, IsDisabled, IsFull};
ghost use Rattle.hub_ports_c.specs.FanResources.{IsNewFan, KeepsAll};
ghost use Rattle.hub_ports_c.specs.FanResources.{SameFan, Starts, TakesOf};

use crate::handle::Handle;
use crate::resource::{Message, Resource};
use crate::status::{DONE, NO_MEMORY, WRONG_STATE};
use hub_fan::Fan;
use std::alloc::Global;

/// Opens a fan in a closed handle.
#[unsafe(no_mangle)]
pub extern "C" fn varukoni_fan_open(alloc: Global, handle: &mut Handle) -> u8
    ensures opened { result ≡ 0 → OpensAs IsNewFan handle.old handle.new }
    ensures refused { (result ≡ 0) ⊎ (handle.new ≡ handle.old) }
    ensures other { result ≡ 5 → handle.old.is_open ≡ true }
    ensures statuses { (result ≡ 0) ⊎ ((result ≡ 3) ⊎ (result ≡ 5)) }
{
    if handle.is_open {
        return WRONG_STATE;
    }
    let Ok(fan) = Fan::open_empty(alloc) else {
        return NO_MEMORY;
    };
    let Ok(resource) = Box::new(alloc, Resource::Fan(fan)) else {
        return NO_MEMORY;
    };
    *handle = Handle::new_open(resource);
    DONE
}

/// Opens a line of a fan, and its poster in a closed handle.
#[unsafe(no_mangle)]
pub extern "C" fn varukoni_fan_line(
    alloc: Global,
    handle: &mut Handle,
    poster: &mut Handle,
    line: &mut u32,
) -> u8
    ensures opened { result ≡ 0 → OpensLineAt line.new handle.old handle.new poster.old poster.new }
    ensures no_memory { result ≡ 3 → At (AtFan SameFan) handle.old handle.new
        ⊎ SameHeld handle.old handle.new }
    ensures full { result ≡ 10 → At (AtFan IsFull) handle.old handle.new }
    ensures other { result ≡ 5 → SameHeld handle.old handle.new
        × ((is_fan_in handle.old.slot.held ≡ false) ⊎ (poster.old.is_open ≡ true)) }
    ensures poster { (result ≡ 0) ⊎ (poster.new ≡ poster.old) }
    ensures line { (result ≡ 0) ⊎ (line.new ≡ line.old) }
    ensures statuses { (result ≡ 0) ⊎ ((result ≡ 3) ⊎ ((result ≡ 5) ⊎ (result ≡ 10))) }
{
    if !handle.is_open || poster.is_open {
        return WRONG_STATE;
    }
    let Ok(mut opened) = Box::new(alloc, Resource::Gone) else {
        return NO_MEMORY;
    };
    let mut resource = handle.take_resource(alloc);
    let status = resource.open_line(&mut opened, line);
    *handle = Handle::new_open(resource);
    if status == DONE {
        *poster = Handle::new_open(opened);
    }
    status
}

/// Starts a fan: its messages may be taken.
#[unsafe(no_mangle)]
pub extern "C" fn varukoni_fan_start(alloc: Global, handle: &mut Handle) -> u8
    ensures started { result ≡ 0 → At (AtFan Starts) handle.old handle.new }
    ensures other { result ≡ 5 → HeldNo is_fan_in handle.old handle.new }
    ensures statuses { (result ≡ 0) ⊎ (result ≡ 5) }
{
    if !handle.is_open {
        return WRONG_STATE;
    }
    let mut resource = handle.take_resource(alloc);
    let status = resource.start_fan();
    *handle = Handle::new_open(resource);
    status
}

/// Takes the next message of a fan that is started, and says which line gave it.
#[unsafe(no_mangle)]
pub extern "C" fn varukoni_fan_take(
    alloc: Global,
    handle: &mut Handle,
    message: &mut Message,
    line: &mut u32,
) -> u8
    ensures took { result ≡ 0 →
        At (AtFan (TakesOf (taken.Message line.new message.new))) handle.old handle.new }
    ensures empty { result ≡ 1 → At (AtFan (TakesOf taken.Empty)) handle.old handle.new }
    ensures ended { result ≡ 2 → At (AtFan (TakesOf (taken.Ended line.new))) handle.old handle.new }
    ensures disabled { result ≡ 4 → At (AtFan IsDisabled) handle.old handle.new }
    ensures other { result ≡ 5 → HeldNo is_fan_in handle.old handle.new }
    ensures message { (result ≡ 0) ⊎ (message.new ≡ message.old) }
    ensures line { (result ≡ 0) ⊎ ((result ≡ 2) ⊎ (line.new ≡ line.old)) }
    ensures statuses { (result ≡ 0)
        ⊎ ((result ≡ 1) ⊎ ((result ≡ 2) ⊎ ((result ≡ 4) ⊎ (result ≡ 5)))) }
{
    if !handle.is_open {
        return WRONG_STATE;
    }
    let mut resource = handle.take_resource(alloc);
    let status = resource.take_from_fan(message, line);
    *handle = Handle::new_open(resource);
    status
}

/// Says by its token whom to wake for a fan, and looks into each line then.
#[unsafe(no_mangle)]
pub extern "C" fn varukoni_fan_arm(
    alloc: Global,
    handle: &mut Handle,
    token: u64,
    old: &mut u64,
) -> u8
    ensures armed { (result ≡ 5) ⊎ At (AtFan KeepsAll) handle.old handle.new }
    ensures some { result ≡ 0 → At (AtFan FindsALine) handle.old handle.new }
    ensures none { result ≡ 1 → At (AtFan FindsNoLine) handle.old handle.new }
    ensures other { result ≡ 5 → HeldNo is_fan_in handle.old handle.new × (old.new ≡ old.old) }
    ensures statuses { (result ≡ 0) ⊎ ((result ≡ 1) ⊎ (result ≡ 5)) }
{
    if !handle.is_open {
        return WRONG_STATE;
    }
    let mut resource = handle.take_resource(alloc);
    let status = resource.arm_fan(token, old);
    *handle = Handle::new_open(resource);
    status
}

/// Closes a fan, and leaves its grave in the handle. It gives back the fan's token.
#[unsafe(no_mangle)]
pub extern "C" fn varukoni_fan_close(alloc: Global, handle: &mut Handle, own: &mut u64) -> u8
    ensures closed { result ≡ 0 → At ClosesFan handle.old handle.new }
    ensures other { result ≡ 5 → HeldNo is_fan_in handle.old handle.new × (own.new ≡ own.old) }
    ensures statuses { (result ≡ 0) ⊎ (result ≡ 5) }
{
    if !handle.is_open {
        return WRONG_STATE;
    }
    let mut resource = handle.take_resource(alloc);
    let status = resource.close_fan(own);
    *handle = Handle::new_open(resource);
    status
}

/// Hands back the next message that was posted at a closed fan, and says over which line.
#[unsafe(no_mangle)]
pub extern "C" fn varukoni_fan_drain(
    alloc: Global,
    handle: &mut Handle,
    message: &mut Message,
    line: &mut u32,
) -> u8
    ensures handed { result ≡ 0 →
        At (AtFanGrave (DrainsOf (drained.Message line.new message.new))) handle.old handle.new }
    ensures empty { result ≡ 1 → At (AtFanGrave (DrainsOf drained.Empty)) handle.old handle.new }
    ensures ended { result ≡ 2 → At (AtFanGrave (DrainsOf drained.Ended)) handle.old handle.new }
    ensures other { result ≡ 5 → HeldNo is_fan_grave_in handle.old handle.new }
    ensures message { (result ≡ 0) ⊎ ((message.new ≡ message.old) × (line.new ≡ line.old)) }
    ensures statuses { (result ≡ 0) ⊎ ((result ≡ 1) ⊎ ((result ≡ 2) ⊎ (result ≡ 5))) }
{
    if !handle.is_open {
        return WRONG_STATE;
    }
    let mut resource = handle.take_resource(alloc);
    let status = resource.take_leftover_message_of_fan(message, line);
    *handle = Handle::new_open(resource);
    status
}

/// Closes a handle, whatever it holds, and frees its memory, as `varukoni_port_drop` does.
#[unsafe(no_mangle)]
pub extern "C" fn varukoni_fan_drop(alloc: Global, handle: &mut Handle)
    ensures closed { (handle.new.slot.held ≡ None) × (handle.new.is_open ≡ false) }
{
    *handle = Handle::new_closed(alloc);
}
