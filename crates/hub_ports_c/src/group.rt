//! The calls for a group.
ghost use Rattle.std.specs.Prelude.{◌≡◌, ◌⊎◌, None, false, length, true};
ghost use Rattle.hub_ports_c.specs.Handles.{At, HeldNo, JoinsAt, OpensAs, SameHeld};
ghost use Rattle.hub_ports_c.specs.Held.{CountsIn, is_group_in, is_poster_in};
ghost use Rattle.hub_ports_c.specs.GroupResources.{AtGroup, CastsAll, HasNoMember, IsCrowded};
ghost use Rattle.hub_ports_c.specs.GroupResources.{IsNewGroup, LeavesGroup, SameGroup};

use crate::handle::Handle;
use crate::resource::{Message, Resource};
use crate::status::{DONE, NO_MEMORY, WRONG_STATE};
use hub_group::{CastAnswer, CastGroup};
use std::alloc::Global;

/// Opens a group in a closed handle.
#[unsafe(no_mangle)]
pub extern "C" fn varukoni_group_open(alloc: Global, handle: &mut Handle) -> u8
    ensures opened { result ≡ 0 → OpensAs IsNewGroup handle.old handle.new }
    ensures refused { (result ≡ 0) ⊎ (handle.new ≡ handle.old) }
    ensures other { result ≡ 5 → handle.old.is_open ≡ true }
    ensures statuses { (result ≡ 0) ⊎ ((result ≡ 3) ⊎ (result ≡ 5)) }
{
    if handle.is_open {
        return WRONG_STATE;
    }
    let Ok(resource) = Box::new(alloc, Resource::Group(CastGroup::new(alloc))) else {
        return NO_MEMORY;
    };
    *handle = Handle::new_open(resource);
    DONE
}

/// Makes who takes from a poster's line the last member of a group. The poster's handle is closed.
#[unsafe(no_mangle)]
pub extern "C" fn varukoni_group_join(
    alloc: Global,
    handle: &mut Handle,
    poster: &mut Handle,
    member: &mut u64,
) -> u8
    ensures joined { result ≡ 0 → JoinsAt member.new handle.old handle.new poster.old poster.new }
    ensures no_memory { result ≡ 3 → At (AtGroup SameGroup) handle.old handle.new }
    ensures other { result ≡ 5 → SameHeld handle.old handle.new
        × ((is_group_in handle.old.slot.held ≡ false)
        ⊎ (is_poster_in poster.old.slot.held ≡ false)) }
    ensures poster { (result ≡ 0) ⊎ SameHeld poster.old poster.new }
    ensures member { (result ≡ 0) ⊎ (member.new ≡ member.old) }
    ensures statuses { (result ≡ 0) ⊎ ((result ≡ 3) ⊎ (result ≡ 5)) }
{
    if !handle.is_open || !poster.is_open {
        return WRONG_STATE;
    }
    let mut resource = handle.take_resource(alloc);
    let mut joining = poster.take_resource(alloc);
    let status = resource.add_group_member(&mut joining, member);
    *handle = Handle::new_open(resource);
    if status != DONE {
        *poster = Handle::new_open(joining);
    }
    status
}

/// How many members a group has.
#[unsafe(no_mangle)]
pub extern "C" fn varukoni_group_count(alloc: Global, handle: &mut Handle, count: &mut usize) -> u8
    ensures counted { result ≡ 0 → SameHeld handle.old handle.new
        × CountsIn count.new handle.old.slot.held }
    ensures other { result ≡ 5 → HeldNo is_group_in handle.old handle.new
        × (count.new ≡ count.old) }
    ensures statuses { (result ≡ 0) ⊎ (result ≡ 5) }
{
    if !handle.is_open {
        return WRONG_STATE;
    }
    let resource = handle.take_resource(alloc);
    let status = resource.member_count(count);
    *handle = Handle::new_open(resource);
    status
}

/// Posts a message at each member of a group but the source, and tells what each answered.
#[unsafe(no_mangle)]
pub extern "C" fn varukoni_group_cast(
    alloc: Global,
    handle: &mut Handle,
    source: u64,
    message: &Message,
    answers: &mut [CastAnswer],
) -> u8
    ensures cast { result ≡ 0 →
        At (AtGroup (CastsAll message.now source answers.old answers.new)) handle.old handle.new }
    ensures crowded { result ≡ 10 →
        At (AtGroup (IsCrowded (length answers.old))) handle.old handle.new }
    ensures other { result ≡ 5 → HeldNo is_group_in handle.old handle.new }
    ensures answers { (result ≡ 0) ⊎ (answers.new ≡ answers.old) }
    ensures statuses { (result ≡ 0) ⊎ ((result ≡ 5) ⊎ (result ≡ 10)) }
{
    if !handle.is_open {
        return WRONG_STATE;
    }
    let mut resource = handle.take_resource(alloc);
    let status = resource.cast(source, message, answers);
    *handle = Handle::new_open(resource);
    status
}

/// Takes a member out of a group, gives its line back, and says whom to wake for it.
#[unsafe(no_mangle)]
pub extern "C" fn varukoni_group_leave(
    alloc: Global,
    handle: &mut Handle,
    member: u64,
    wake: &mut u64,
) -> u8
    ensures left { result ≡ 0 → At (AtGroup (LeavesGroup member)) handle.old handle.new }
    ensures none { result ≡ 1 → At (AtGroup (HasNoMember member)) handle.old handle.new }
    ensures other { result ≡ 5 → HeldNo is_group_in handle.old handle.new }
    ensures wake { (result ≡ 0) ⊎ (wake.new ≡ wake.old) }
    ensures statuses { (result ≡ 0) ⊎ ((result ≡ 1) ⊎ (result ≡ 5)) }
{
    if !handle.is_open {
        return WRONG_STATE;
    }
    let mut resource = handle.take_resource(alloc);
    let status = resource.remove_member(member, wake);
    *handle = Handle::new_open(resource);
    status
}

/// Closes a handle, whatever it holds, and frees its memory. The line of each member is given back.
#[unsafe(no_mangle)]
pub extern "C" fn varukoni_group_drop(alloc: Global, handle: &mut Handle)
    ensures closed { (handle.new.slot.held ≡ None) × (handle.new.is_open ≡ false) }
{
    *handle = Handle::new_closed(alloc);
}
