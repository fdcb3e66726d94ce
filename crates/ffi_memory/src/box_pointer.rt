//! A value in a box, as its pointer.

ghost use Rattle.std.specs.Prelude.{◌≡◌};

use std::alloc::Allocator;
use std::marker::Model;

/// A box as its pointer and its allocator. It owns the value, and the right to free its block: dropping it alone frees nothing,
/// so it has no `Drop`.
pub struct BoxPointer<T, A: Allocator> {
    /// Where the value is.
    pub at: *mut T,
    /// What frees its block.
    pub alloc: A,
    /// The value.
    pub ghost value: { T },
}

impl<T, A: Allocator> Model for BoxPointer<T, A> {
    ghost use Rattle.std_alloc.specs.Box.Ownership.{box_owns};

    ghost also_owns = { λ p. box_owns (A.dealloc_token p.alloc) T.row p.at p.value };
}

impl<T: Drop, A: Allocator> BoxPointer<T, A> {
    /// The pointer of a box.
    pub fn of(boxed: Box<T, A>) -> BoxPointer<T, A>
        ensures { result.value ≡ boxed.value }
    {
        let (at, alloc) = Box::into_raw_with_allocator(boxed);
        BoxPointer { at, alloc }
    }

    /// The box of a pointer.
    pub fn into_box(self) -> Box<T, A>
        ensures { result.value ≡ self.value }
    {
        let BoxPointer { at, alloc } = self;
        unsafe { Box::from_raw(alloc, at) }
    }
}
