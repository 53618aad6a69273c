//! Why bytes were not decoded.
ghost use Rattle.std.specs.Prelude.{◌≡◌};
ghost use Rattle.cbor.specs.Decoding.{fault_of};
ghost use Rattle.cbor.specs.declared.error.ReadError.TheVariants.{Memory};

use std::alloc::{AllocError, AllocFailed};
use thiserror::Error;

/// What is wrong with the bytes: the first fault from left to right. `ReadError` has an error of
/// the same name for each.
#[derive(Clone, Copy, Debug, PartialEq, Eq)]
pub enum FaultKind {
    Truncated,
    Version,
    Type,
    Utf8,
    Range,
    Region,
    Limit,
    Measure,
}

/// Why nothing was decoded: a fault of the bytes, or refused memory.
#[derive(Clone, Copy, Debug, PartialEq, Eq, Error)]
pub enum ReadError {
    /// The bytes end within a value. More bytes may complete it.
    #[error("the bytes end within a value")]
    Truncated,
    /// The version of the format is unknown. This crate never returns it; it is for formats that
    /// have versions.
    #[error("the version is unknown")]
    Version,
    /// The item has another type or count than expected, or its head has no definite length.
    #[error("an item of another type or count is wanted")]
    Type,
    /// A text is not UTF-8.
    #[error("a text is no UTF-8")]
    Utf8,
    /// A number is out of its range, a head isn't the shortest one, or keys don't ascend.
    #[error("a number is out of range, a head is not the shortest one, or keys don't ascend")]
    Range,
    /// A scroll's region goes past the last row. This crate never returns it; it is for formats
    /// that have scrolls.
    #[error("a scroll's region goes past the last row")]
    Region,
    /// The bytes, or the bytes that a head announces, go past the limit.
    #[error("the bytes go past the limit")]
    Limit,
    /// A text was cut or measured in another way than here. This crate never returns it; it is for
    /// formats that have measures.
    #[error("a text is measured otherwise here")]
    Measure,
    /// Memory was refused. The bytes may have no fault.
    #[error("out of memory")]
    Memory,
}

impl ReadError {
    /// What is wrong with the bytes, or `None` where memory was refused.
    pub fn fault(self) -> Option<FaultKind>
        ensures { result ≡ fault_of self }
    {
        match self {
            ReadError::Truncated => Some(FaultKind::Truncated),
            ReadError::Version => Some(FaultKind::Version),
            ReadError::Type => Some(FaultKind::Type),
            ReadError::Utf8 => Some(FaultKind::Utf8),
            ReadError::Range => Some(FaultKind::Range),
            ReadError::Region => Some(FaultKind::Region),
            ReadError::Limit => Some(FaultKind::Limit),
            ReadError::Measure => Some(FaultKind::Measure),
            ReadError::Memory => None,
        }
    }
}

impl From<AllocError> for ReadError {
    ghost from_gives = { λ _ e. e ≡ Memory };

    fn from(_refused: AllocError) -> ReadError {
        ReadError::Memory
    }
}

impl<T: Drop> From<AllocFailed<T>> for ReadError {
    ghost from_gives = { λ _ e. e ≡ Memory };

    fn from(_refused: AllocFailed<T>) -> ReadError {
        ReadError::Memory
    }
}
