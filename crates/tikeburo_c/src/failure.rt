//! Why calls fail, and the numbers that they return.
ghost use Rattle.std.specs.Prelude.{◌≡◌};
ghost use Rattle.tikeburo_c.specs.Outcomes.{changing_failure, decoding_failure, status_of};
ghost use Rattle.tikeburo_c.specs.Outcomes.{unread_by};
ghost use Rattle.tikeburo_c.specs.declared.failure.Failure.TheVariants.{Memory, Range};

use cbor::FaultKind;
use std::alloc::{AllocError, AllocFailed};
use termwiz_surface::SurfaceError;
use termwiz_surface::cell::UnknownNumber;
use termwiz_wire::WireError;

/// Why a call failed.
#[derive(Clone, Copy, Drop)]
pub(crate) enum Failure {
    Memory,
    Unreadable,
    Truncated,
    Region,
    Numbers,
    NoHandle,
    WrongKind,
    Range,
    Short,
    OtherWidths,
}

/// The number of an outcome, as the header names them.
pub(crate) fn status(outcome: Result<(), Failure>) -> i32
    ensures { result ≡ status_of outcome }
{
    match outcome {
        Ok(()) => 0,
        Err(Failure::Memory) => 1,
        Err(Failure::Unreadable) => 2,
        Err(Failure::Truncated) => 3,
        Err(Failure::Region) => 4,
        Err(Failure::Numbers) => 5,
        Err(Failure::NoHandle) => 6,
        Err(Failure::WrongKind) => 7,
        Err(Failure::Range) => 8,
        Err(Failure::Short) => 9,
        Err(Failure::OtherWidths) => 10,
    }
}

impl From<AllocError> for Failure {
    ghost from_gives = { λ _ failure. failure ≡ Memory };

    fn from(_refused: AllocError) -> Failure {
        Failure::Memory
    }
}

impl From<SurfaceError> for Failure {
    ghost from_gives = { λ error failure. failure ≡ changing_failure error };

    fn from(error: SurfaceError) -> Failure {
        match error {
            SurfaceError::ScrollRegion => Failure::Region,
            SurfaceError::Numbers => Failure::Numbers,
            SurfaceError::Memory => Failure::Memory,
        }
    }
}

impl From<WireError> for Failure {
    ghost from_gives = { λ error failure. failure ≡ decoding_failure error };

    fn from(error: WireError) -> Failure {
        match error {
            WireError::Memory => Failure::Memory,
            WireError::Fault(fault) => unread(fault.kind),
        }
    }
}

pub(crate) fn unread(kind: FaultKind) -> Failure
    ensures { result ≡ unread_by kind }
{
    match kind {
        FaultKind::Truncated => Failure::Truncated,
        _ => Failure::Unreadable,
    }
}

impl<T: Drop> From<AllocFailed<T>> for Failure {
    ghost from_gives = { λ _ failure. failure ≡ Memory };

    fn from(_refused: AllocFailed<T>) -> Failure {
        Failure::Memory
    }
}

impl From<UnknownNumber> for Failure {
    ghost from_gives = { λ _ failure. failure ≡ Range };

    fn from(_unknown: UnknownNumber) -> Failure {
        Failure::Range
    }
}
