//! What C holds: a checked schema in a box, as its pointer, or nothing.

ghost use Rattle.std.specs.Prelude.{◌≡◌, ◌≢◌, Option, Some, None};
ghost use Rattle.std.specs.Coded.{coded_option};
ghost use Rattle.graphql_checked_c.specs.contracts.handle.Kept as kept;

use crate::held::HeldText;
use ffi_memory::BoxPointer;
use graphql_checked::CheckedSchema;
use std::alloc::Global;
use std::marker::Model;
use std::mem::replace;
use std::ptr::null_mut;

/// What a handle keeps.
#[derive(Drop)]
pub struct Kept {
    /// The schema over which documents are checked.
    pub(crate) schema: CheckedSchema,
    /// Its texts.
    pub(crate) texts: Vec<HeldText>,
}

/// A checked schema, or nothing, as c/graphql_checked.c declares it. Its pointer is opaque, since a pointer to a type with
/// shared parts does not cross to C.
#[repr(C)]
#[derive(Drop)]
pub struct Handle {
    pub(crate) at: *mut u8,
    pub(crate) ghost value: { Option kept.the_row.Denot } by { coded_option kept.the_row.coded },
}

impl Model for Handle {
    ghost use Rattle.graphql_checked_c.specs.Held.{held};
    ghost use Rattle.graphql_checked_c.specs.contracts.handle.Kept as kept;

    ghost also_owns = { λ h. held kept.the_row h.at h.value };
}

impl Handle {
    /// The handle of nothing.
    pub(crate) fn none() -> Handle
        ensures { result.value ≡ None }
    {
        Handle {
            at: null_mut::<u8>(),
        }
    }

    /// The handle of a box.
    pub(crate) fn of(pointer: BoxPointer<Kept, Global>) -> Handle
        ensures { result.value ≡ Some pointer.value }
    {
        let BoxPointer { at, alloc: _ } = pointer;
        Handle { at: at as *mut u8 }
    }

    /// The box of a handle that is not empty.
    pub(crate) fn into_pointer(self, alloc: Global) -> BoxPointer<Kept, Global>
        requires { self.value ≢ None }
        ensures { self.value ≡ Some result.value }
    {
        let Handle { at } = self;
        BoxPointer {
            at: at as *mut Kept,
            alloc,
        }
    }
}

/// Takes what is kept, and leaves the handle empty.
pub(crate) fn take(alloc: Global, handle: &mut Handle) -> Box<Kept>
    requires { handle.old.value ≢ None }
    ensures taken { handle.old.value ≡ Some result.value }
    ensures empty { handle.new.value ≡ None }
{
    replace(handle, Handle::none())
        .into_pointer(alloc)
        .into_box()
}

/// Puts what is to be kept into the handle, which is empty.
pub(crate) fn keep(handle: &mut Handle, kept: Box<Kept>)
    requires { handle.old.value ≡ None }
    ensures { handle.new.value ≡ Some kept.value }
{
    let _none = replace(handle, Handle::of(BoxPointer::of(kept)));
}
