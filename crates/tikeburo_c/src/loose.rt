//! A value behind a pointer, or none: the one place where a box becomes a pointer and a pointer a
//! box again. No function has a branch, so that the proofs, which are written by hand, stay short.
ghost use Rattle.std.specs.Prelude.{◌≡◌, true};
ghost use Rattle.tikeburo_c.specs.Held.{is_some};
ghost use Rattle.std.specs.declared.option.Option.{Option};
ghost use Rattle.std.specs.declared.option.Option.TheVariants.{None, Some};
ghost use Rattle.tikeburo_c.specs.declared.kept.Kept.{Kept};

use crate::kept::Kept;
use std::alloc::Global;
use std::marker::Model;

/// A value behind a pointer, which the struct owns, or none.
#[repr(C)]
pub(crate) struct Loose {
    at: *mut u8,
    alloc: Global,
    pub(crate) ghost value: { Option Kept },
}

impl Model for Loose {
    ghost use Rattle.tikeburo_c.specs.Held.{held};

    ghost also_owns = { λ h. held h.alloc h.at h.value };
}

impl Loose {
    /// The value of the box, behind a pointer.
    pub(crate) fn of(kept: Box<Kept>) -> Loose
        ensures { result.value ≡ Some kept.value }
    {
        let (at, alloc) = Box::into_raw_with_allocator(kept);
        let at = at as *mut u8;
        Loose { at, alloc }
    }

    /// No value.
    pub(crate) fn empty(alloc: Global) -> Loose
        ensures { result.value ≡ None }
    {
        let at = std::ptr::null_mut();
        Loose { at, alloc }
    }

    /// The box of the value. There has to be one.
    pub(crate) fn into_box(self) -> Box<Kept>
        requires { is_some self.value ≡ true }
        ensures { Some result.value ≡ self.value }
    {
        let Loose { at, alloc } = self;
        // The pointer came from a box, and the struct owns what is behind it.
        unsafe { Box::from_raw(alloc, at as *mut Kept) }
    }

    /// There is no value to let go.
    pub(crate) fn end(self)
        requires { self.value ≡ None }
    {
        let Loose { at: _, alloc: _ } = self;
    }
}
