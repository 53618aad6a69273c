//! A handle on a value, as C holds it: all zero is a handle on none.
ghost use Rattle.std.specs.Prelude.{◌≡◌, Bool, true, false};
ghost use Rattle.std.specs.declared.option.Option.{Option};
ghost use Rattle.std.specs.declared.option.Option.TheVariants.{None, Some};
ghost use Rattle.tikeburo_c.specs.Held.{is_some, in_box};
ghost use Rattle.tikeburo_c.specs.declared.kept.Kept.{Kept};

use crate::kept::Kept;
use crate::loose::Loose;
use std::alloc::Global;

/// A handle on a value, or on none. The flag is kept beside the owner and not in it, so that it is
/// read and tested as any field is.
#[repr(C)]
pub struct Handle {
    loose: Loose,
    is_live: bool,
    ghost fits: { is_some loose.value ≡ is_live },
}

impl Handle {
    /// A handle on none.
    pub(crate) fn none(alloc: Global) -> Handle
        ensures { result.loose.value ≡ None }
    {
        Handle {
            loose: Loose::empty(alloc),
            is_live: false,
        }
    }

    /// The value, which the handle has no longer.
    pub(crate) fn take(&mut self, alloc: Global) -> Option<Box<Kept>>
        ensures taken { in_box result ≡ self.old.loose.value }
        ensures left { self.new.loose.value ≡ None }
    {
        if !self.is_live {
            return None;
        }
        let Handle { loose, is_live: _ } = std::mem::replace(self, Handle::none(alloc));
        Some(loose.into_box())
    }

    /// The handle has this value from now on, and what it had is freed.
    pub(crate) fn put(&mut self, alloc: Global, kept: Box<Kept>)
        ensures put { self.new.loose.value ≡ Some kept.value }
    {
        drop(self.take(alloc));
        let full = Handle {
            loose: Loose::of(kept),
            is_live: true,
        };
        let Handle { loose, is_live: _ } = std::mem::replace(self, full);
        loose.end();
    }
}
