//! What C keeps between calls: a box as its pointer, or nothing.

ghost use Rattle.std.specs.Prelude.{◌≡◌, Option, Some, None};
ghost use Rattle.std.specs.Option.{option_map};
ghost use Rattle.library_c.specs.Owning.{kept_coded, kept_owns};
ghost use Rattle.library_c.specs.declared.kept.Kept.{Kept};

use crate::kept::Kept;
use crate::loose::Loose;
use std::alloc::Global;
use std::marker::Model;
use std::ptr::null_mut;

/// What C keeps between calls. All zeros is a handle that is shut.
#[repr(C)]
pub struct Handle {
    at: *mut u8,
    is_open: bool,
    pub(crate) ghost value: { Option Kept } by { kept_coded },
}

impl Model for Handle {
    ghost also_owns = { λ h. kept_owns h.is_open h.at h.value };
}

impl Handle {
    /// A handle that is shut.
    pub(crate) fn closed() -> Handle
        ensures { result.value ≡ None }
    {
        Handle {
            at: null_mut(),
            is_open: false,
        }
    }

    /// A handle that keeps a box.
    pub(crate) fn of(loose: Loose<Kept, Global>) -> Handle
        ensures { result.value ≡ Some loose.value }
    {
        let Loose { at, alloc: _ } = loose;
        Handle {
            at: at as *mut u8,
            is_open: true,
        }
    }

    /// What a handle keeps, taken out.
    pub(crate) fn into_loose(self, alloc: Global) -> Option<Loose<Kept, Global>>
        ensures { option_map (λ l. l.value) result ≡ self.value }
    {
        let Handle { at, is_open } = self;
        if !is_open {
            return None;
        }
        Some(Loose {
            at: at as *mut Kept,
            alloc,
        })
    }
}
