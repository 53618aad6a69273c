//! What comes of an answer that a client takes.

/// What a client made of an answer that it took off its bytes.
#[derive(Debug, Drop, Clone, Copy, PartialEq, Eq)]
pub enum Taken {
    /// The client shows what the answer leads to.
    Shown,
    /// The client shows what it showed: the answer is no repaint, and doesn't lead on from that,
    /// since it is late, comes again, or is of another source. At the byte `at`, counted from the
    /// answer's first one, its source begins, or its base where the source is the one shown.
    Stale { at: usize },
}
