//! A place for a resource that C can hold: a pointer whose memory is owned.

ghost use Rattle.std.specs.Prelude.{◌≡◌, Some, None, IsSome};
ghost use Rattle.std.specs.Box.Ownership.{box_owns};
ghost use Rattle.hub_ports_c.specs.Held.{Held, held_coded};

use crate::resource::Resource;
use std::alloc::{Allocator, Global};
use std::marker::Model;

/// A box as its pointer.
pub struct RawBox<T, A: Allocator> {
    pub(crate) ptr: *mut T,
    pub(crate) alloc: A,
    pub ghost value: { T },
}

impl<T, A: Allocator> Model for RawBox<T, A> {
    ghost also_owns = { λ p. box_owns (A.dealloc_token p.alloc) T.row p.ptr p.value };
}

impl<T, A: Allocator> RawBox<T, A> {
    /// The box, taken apart. It moves nothing and takes no memory.
    pub fn from_box(b: Box<T, A>) -> RawBox<T, A>
    where
        T: Drop,
        ensures { result.value ≡ b.value }
    {
        let (ptr, alloc) = Box::into_raw_with_allocator(b);
        RawBox { ptr, alloc }
    }

    /// The same box again.
    pub fn into_box(self) -> Box<T, A>
        ensures { result.value ≡ self.value }
    {
        let RawBox { ptr, alloc } = self;
        unsafe { Box::from_raw(alloc, ptr) }
    }
}

/// A place for a resource, which may have one. To C it is one pointer, which only this library
/// follows.
#[repr(C)]
#[derive(Drop)]
pub struct Slot {
    at: *mut u8,
    alloc: Global,
    pub ghost held: { Held } by { held_coded },
}

impl Model for Slot {
    ghost use Rattle.hub_ports_c.specs.Held.{slot_owns};

    ghost also_owns = { λ h. slot_owns h.alloc h.at h.held };
}

impl Slot {
    /// It has no resource, and its pointer is null.
    pub fn none(alloc: Global) -> Slot
        ensures { result.held ≡ None }
    {
        Slot {
            at: std::ptr::null_mut(),
            alloc,
        }
    }

    /// It has the resource.
    pub fn from_raw_box(parts: RawBox<Resource, Global>) -> Slot
        ensures { result.held ≡ Some parts.value }
    {
        let RawBox { ptr, alloc } = parts;
        Slot {
            at: ptr.cast::<u8>(),
            alloc,
        }
    }

    /// The resource thing that it has.
    pub fn into_raw_box(self) -> RawBox<Resource, Global>
        requires { IsSome self.held }
        ensures { Some result.value ≡ self.held }
    {
        let Slot { at, alloc } = self;
        RawBox {
            ptr: at.cast::<Resource>(),
            alloc,
        }
    }
}
