//! Where decoding ended without a value.
ghost use Rattle.std.specs.Prelude.{◌≡◌};
ghost use Rattle.cbor.specs.declared.error.ReadError.TheVariants.{Memory};
ghost use Rattle.termwiz_wire.specs.Answers.{error_of};

use crate::fault::{Fault, WireError};
use cbor::ReadError;
use std::alloc::{AllocError, AllocFailed};

/// An error, and the index of the change in which it is, if it is in one.
#[derive(Clone, Copy)]
pub(crate) struct Halted {
    pub error: ReadError,
    pub change: Option<usize>,
}

impl Halted {
    /// The error that decoding fails with, where the item that shows it begins at this byte.
    pub(crate) fn located(self, at: usize) -> WireError
        ensures { result ≡ error_of self.error at self.change }
    {
        match self.error.fault() {
            None => WireError::Memory,
            Some(kind) => WireError::Fault(Fault {
                kind,
                at,
                change: self.change,
            }),
        }
    }
}

impl From<AllocError> for Halted {
    ghost from_gives = { λ _ e. e.error ≡ Memory };

    fn from(_refused: AllocError) -> Halted {
        Halted {
            error: ReadError::Memory,
            change: None,
        }
    }
}

impl<T: Drop> From<AllocFailed<T>> for Halted {
    ghost from_gives = { λ _ e. e.error ≡ Memory };

    fn from(_refused: AllocFailed<T>) -> Halted {
        Halted {
            error: ReadError::Memory,
            change: None,
        }
    }
}
