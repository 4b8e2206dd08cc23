//! The handle by which a C program holds a port.
ghost use Rattle.std.specs.Prelude.{◌≡◌, Some, None, true, false};
ghost use Rattle.hub_ports_c.specs.Held.{is_filled};

use crate::resource::Resource;
use crate::slot::{RawBox, Slot};
use std::alloc::Global;
use std::mem;

/// What a C program holds. All bytes zero are a closed one.
#[repr(C)]
pub struct Handle {
    pub(crate) slot: Slot,
    pub(crate) is_open: bool,
    ghost tells: { is_open ≡ is_filled slot.held },
}

impl Drop for Handle {
    fn drop(self) {
        let Self { slot, is_open } = self;
        if is_open {
            drop(slot.into_raw_box().into_box());
        }
    }
}

impl Handle {
    ghost use Rattle.std.specs.Prelude.{◌≡◌, Some, None, true};

    pub(crate) fn new_closed(alloc: Global) -> Handle
        ensures { result.slot.held ≡ None }
    {
        Handle {
            slot: Slot::none(alloc),
            is_open: false,
        }
    }

    pub(crate) fn new_open(resource: Box<Resource>) -> Handle
        ensures { result.slot.held ≡ Some resource.value }
    {
        Handle {
            slot: Slot::from_raw_box(RawBox::from_box(resource)),
            is_open: true,
        }
    }

    /// Takes what an open handle holds out of it, which is closed then.
    pub(crate) fn take_resource(&mut self, alloc: Global) -> Box<Resource>
        requires { self.old.is_open ≡ true }
        ensures { (Some result.value ≡ self.old.slot.held) × (self.new.slot.held ≡ None) }
    {
        mem::replace(self, Handle::new_closed(alloc)).into_resource()
    }

    /// What an open handle holds.
    fn into_resource(self) -> Box<Resource>
        requires { self.is_open ≡ true }
        ensures { Some result.value ≡ self.slot.held }
    {
        let Self { slot, is_open: _ } = self;
        slot.into_raw_box().into_box()
    }
}
