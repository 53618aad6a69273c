//! Why bytes were not decoded, and where.
ghost use Rattle.std.specs.Prelude.{◌≡◌};

use cbor::FaultKind;
use std::fmt::{self, Display, Formatter};
use thiserror::Error;

/// What a decoder takes at most. An answer of more is the fault `Limit`, found before memory is
/// taken for it. One whose changes cost more than its screen bears is that fault too, whatever
/// these limits are: see `is_borne`.
#[derive(Clone, Copy, PartialEq, Eq, Debug)]
pub struct Limits {
    /// Cells of the screen: columns times rows.
    pub cells: usize,
    /// Rows of the screen.
    pub rows: usize,
    /// Bytes of an answer.
    pub bytes: usize,
}

impl Default for Limits {
    ghost is_default = { λ l. l ≡ record { cells = 1048576; rows = 65536; bytes = 16777216 } };

    fn default() -> Limits {
        Limits {
            cells: 1048576,
            rows: 65536,
            bytes: 16777216,
        }
    }
}

/// The first fault from left to right.
#[derive(Clone, Copy, PartialEq, Eq, Debug)]
pub struct Fault {
    pub kind: FaultKind,
    /// The byte, from the beginning of what was decoded, where the item begins that shows it.
    pub at: usize,
    /// The index of the change in which it is, if it is in one.
    pub change: Option<usize>,
}

impl Display for Fault {
    fn fmt<W: fmt::Write>(&self, f: &mut Formatter<W>) -> fmt::Result {
        let kind = kind_word(self.kind);
        match self.change {
            None => write!(f, "{kind} at {}", self.at),
            Some(change) => write!(f, "{kind} at {} in change {change}", self.at),
        }
    }
}

// The kind as a word.
fn kind_word(kind: FaultKind) -> &'static str {
    match kind {
        FaultKind::Truncated => "truncated",
        FaultKind::Version => "version",
        FaultKind::Type => "type",
        FaultKind::Utf8 => "utf-8",
        FaultKind::Range => "range",
        FaultKind::Region => "region",
        FaultKind::Limit => "limit",
        FaultKind::Measure => "measure",
    }
}

/// Why nothing was decoded: the bytes have a fault, or memory was refused.
#[derive(Clone, Copy, PartialEq, Eq, Debug, Error)]
pub enum WireError {
    #[error("{0}")]
    Fault(Fault),
    #[error("out of memory")]
    Memory,
}
