//! The handle that C has of a hub.
ghost use Rattle.std.specs.Prelude.{◌≡◌, Some, None, is_some};
ghost use Rattle.inst_c.specs.HeldHub.{TakesHub};

use crate::held_hub::HeldHub;
use crate::line_hub::LineHub;
use std::alloc::Global;
use std::mem;

/// An optional hub. For C it is a struct of a pointer and a `bool`, which must begin with all bytes
/// 0.
#[repr(C)]
#[derive(Drop)]
pub struct Handle {
    /// The hub, behind a pointer.
    pub held: HeldHub,
    /// `true` if a hub is open.
    pub is_open: bool,
    ghost same: { is_open ≡ is_some held.hub },
}

impl Handle {
    /// Takes the hub out of the handle, if one is open.
    pub fn take(&mut self, alloc: Global) -> Option<Box<LineHub>>
        ensures taken { TakesHub self.old.held.hub result }
        ensures none { self.new.held.hub ≡ None }
    {
        let none = Handle {
            held: HeldHub::none(alloc),
            is_open: false,
        };
        let Handle { held, is_open } = mem::replace(self, none);
        if is_open { Some(held.into_box()) } else { None }
    }

    /// Puts a hub into the handle, which must have none.
    pub fn put(&mut self, hub: Box<LineHub>)
        requires { self.old.held.hub ≡ None }
        ensures { self.new.held.hub ≡ Some hub.value }
    {
        *self = Handle {
            held: HeldHub::of(hub),
            is_open: true,
        };
    }
}
