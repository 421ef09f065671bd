//! A box in parts, whose fields the module above can use.
ghost use Rattle.std.specs.Prelude.{◌≡◌};
ghost use Rattle.std.specs.Box.Ownership.{box_owns};

use std::alloc::Allocator;
use std::marker::Model;

/// The parts of a box: its address and its allocator.
pub struct BoxParts<T, A: Allocator> {
    pub(super) ptr: *mut T,
    pub(super) alloc: A,
    /// The value at the address, for contracts.
    pub ghost value: { T },
}

impl<T, A: Allocator> Model for BoxParts<T, A> {
    ghost also_owns = { λ p. box_owns (A.dealloc_token p.alloc) T.row p.ptr p.value };
}

impl<T, A: Allocator> BoxParts<T, A> {
    /// Returns the parts of a box. They own its memory; only `into_box` leads to its release.
    pub fn of(b: Box<T, A>) -> BoxParts<T, A>
    where
        T: Drop,
        ensures { result.value ≡ b.value }
    {
        let (ptr, alloc) = Box::into_raw_with_allocator(b);
        BoxParts { ptr, alloc }
    }

    /// Returns the box of these parts.
    pub fn into_box(self) -> Box<T, A>
        ensures { result.value ≡ self.value }
    {
        let BoxParts { ptr, alloc } = self;
        unsafe { Box::from_raw(alloc, ptr) }
    }
}
