//! Why a client took no more bytes.
ghost use Rattle.std.specs.Prelude.{◌≡◌};
ghost use Rattle.termwiz_share.specs.declared.error.ClientError.TheVariants.{Memory};

use std::alloc::AllocError;
use termwiz_wire::Fault;
use thiserror::Error;

/// Why a client didn't take all bytes that it was fed.
///
/// After `Fault` and `Size` it takes no more bytes of this connection: each further call fails with
/// the same error, until `reset`.
#[derive(Debug, Drop, Clone, Copy, PartialEq, Eq, Error)]
pub enum ClientError {
    /// The bytes have a fault. The client shows what it showed before the answer that has it.
    #[error("{0}")]
    Fault(Fault),
    /// An answer leads on from what the client shows, but is for another size. Its width begins at
    /// the byte `at`, counted from the answer's first one, or its height where the width is the
    /// same. The client shows what it showed before.
    #[error("size at {at}")]
    Size { at: usize },
    /// The numbers of the client's own surface would pass the greatest `usize`. It shows what it
    /// showed, without a number. More bytes may be fed, but a repaint may fail with this error too:
    /// only a new client begins with the number 0.
    #[error("the numbers of changes are used up")]
    Numbers,
    /// Memory was refused.
    ///
    /// - Where it was refused for the bytes, they are lost: each further call fails with this
    ///   error, until `reset`.
    /// - Where it was refused for an answer, the bytes from that answer on are kept: `take_answer`
    ///   and `feed(&[])` go on. The client shows what it showed, or may show anything, without a
    ///   number.
    #[error("out of memory")]
    Memory,
}

impl From<AllocError> for ClientError {
    ghost from_gives = { λ _ error. error ≡ Memory };

    fn from(_error: AllocError) -> ClientError {
        ClientError::Memory
    }
}
