//! Why a play ends early.
use std::alloc::{AllocError, AllocFailed};

/// Why a play ends early.
#[derive(Clone, Copy, Debug)]
pub enum PlayError {
    /// A line is no command, or names nothing that stands.
    Bad,
    /// Memory was refused.
    Memory,
    /// A recorded answer differs.
    Differs,
    /// Input can't be read, or output can't be written.
    Io,
}

impl From<AllocError> for PlayError {
    fn from(_: AllocError) -> PlayError {
        PlayError::Memory
    }
}

impl<T: Drop> From<AllocFailed<T>> for PlayError {
    fn from(_: AllocFailed<T>) -> PlayError {
        PlayError::Memory
    }
}
