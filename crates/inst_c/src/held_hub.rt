//! A hub behind a pointer that C holds.
ghost use Rattle.std.specs.Prelude.{◌≡◌, true, Option, Some, None, is_some};
ghost use Rattle.inst_c.specs.HeldHub.{held_owns};
ghost use Rattle.inst_c.specs.declared.line_hub.LineHub.{LineHub as TheHub};

mod box_parts;

use crate::line_hub::LineHub;
use box_parts::BoxParts;
use std::alloc::Global;
use std::marker::Model;
use std::ptr;

/// An optional hub behind an opaque pointer for C. Dropping this value leaks the hub; `inst_close`
/// frees it.
#[repr(C)]
#[derive(Drop)]
pub struct HeldHub {
    at: *mut (),
    alloc: Global,
    /// The hub at the pointer, for contracts.
    pub ghost hub: { Option TheHub },
}

impl Model for HeldHub {
    ghost also_owns = { λ held. held_owns held.alloc held.at held.hub };
}

impl HeldHub {
    /// Returns the value without a hub.
    pub fn none(alloc: Global) -> HeldHub
        ensures { result.hub ≡ None }
    {
        HeldHub {
            at: ptr::null_mut(),
            alloc,
        }
    }

    /// Returns the value with this hub.
    pub fn of(hub: Box<LineHub>) -> HeldHub
        ensures { result.hub ≡ Some hub.value }
    {
        HeldHub::of_parts(BoxParts::of(hub))
    }

    /// Returns the hub, which must be there.
    pub fn into_box(self) -> Box<LineHub>
        requires { is_some self.hub ≡ true }
        ensures { self.hub ≡ Some result.value }
    {
        self.into_parts().into_box()
    }

    fn of_parts(parts: BoxParts<LineHub, Global>) -> HeldHub
        ensures { result.hub ≡ Some parts.value }
    {
        let BoxParts { ptr, alloc } = parts;
        HeldHub {
            at: ptr as *mut (),
            alloc,
        }
    }

    fn into_parts(self) -> BoxParts<LineHub, Global>
        requires { is_some self.hub ≡ true }
        ensures { self.hub ≡ Some result.value }
    {
        let HeldHub { at, alloc } = self;
        BoxParts {
            ptr: at as *mut LineHub,
            alloc,
        }
    }
}
