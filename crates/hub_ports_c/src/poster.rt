//! The calls for a poster of a fan.
ghost use Rattle.std.specs.Prelude.{◌≡◌, ◌⊎◌, true, false};
ghost use Rattle.hub_ports_c.specs.Handles.{At, HeldNo};
ghost use Rattle.hub_ports_c.specs.Held.{GivesAway, is_poster_in};
ghost use Rattle.hub_ports_c.specs.FanResources.{AtPoster, IsPoster, PostsNone, PostsToFan};
ghost use Rattle.hub_ports_c.specs.FanResources.{RefusesOver};

use crate::handle::Handle;
use crate::resource::{Message, Resource};
use crate::status::{DONE, WRONG_STATE};
use std::alloc::Global;

/// Posts a message over a line of a fan, and says whom to wake for it.
#[unsafe(no_mangle)]
pub extern "C" fn varukoni_poster_post(
    alloc: Global,
    handle: &mut Handle,
    message: &Message,
    wake: &mut u64,
) -> u8
    ensures posted { result ≡ 0 → At (AtPoster (PostsToFan message.now)) handle.old handle.new }
    ensures no_memory { result ≡ 3 → At (AtPoster PostsNone) handle.old handle.new }
    ensures closed { result ≡ 6 → At (AtPoster RefusesOver) handle.old handle.new }
    ensures other { result ≡ 5 → HeldNo is_poster_in handle.old handle.new }
    ensures wake { (result ≡ 0) ⊎ (wake.new ≡ wake.old) }
    ensures statuses { (result ≡ 0) ⊎ ((result ≡ 3) ⊎ ((result ≡ 5) ⊎ (result ≡ 6))) }
{
    if !handle.is_open {
        return WRONG_STATE;
    }
    let mut resource = handle.take_resource(alloc);
    let status = resource.post_over_line_of_fan(message, wake);
    *handle = Handle::new_open(resource);
    status
}

/// Gives a line of a fan back, and closes its poster's handle. It says whom to wake.
#[unsafe(no_mangle)]
pub extern "C" fn varukoni_poster_close(alloc: Global, handle: &mut Handle, wake: &mut u64) -> u8
    ensures closed { result ≡ 0 → GivesAway IsPoster handle.old.slot.held handle.new.slot.held }
    ensures other { result ≡ 5 → HeldNo is_poster_in handle.old handle.new × (wake.new ≡ wake.old) }
    ensures statuses { (result ≡ 0) ⊎ (result ≡ 5) }
{
    if !handle.is_open {
        return WRONG_STATE;
    }
    let mut resource = handle.take_resource(alloc);
    let status = resource.close_poster(wake);
    if status == WRONG_STATE {
        *handle = Handle::new_open(resource);
    }
    status
}
