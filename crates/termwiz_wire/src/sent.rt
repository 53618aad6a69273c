//! Answers, each with its source, and asks.
use termwiz_cell::change::SequenceNo;
use termwiz_surface::{Answer, LentChange};

/// The number of a source, which is a surface that gives answers. Numbers are from 1 on, and 0
/// names no source.
pub type SourceNo = usize;

/// An answer, and the source that gave it.
#[derive(Debug, Drop)]
pub struct SentAnswer {
    pub source: SourceNo,
    pub answer: Answer<'static>,
}

/// An answer whose texts are borrowed from the bytes that it was decoded from, and the source that
/// gave it.
#[derive(Debug, Drop)]
pub struct LentAnswer<'a> {
    pub source: SourceNo,
    /// Columns of the screen.
    pub width: usize,
    /// Rows of the screen.
    pub height: usize,
    /// The number that its changes lead on from, or 0 where it is a repaint.
    pub base: SequenceNo,
    /// The number that they lead to.
    pub number: SequenceNo,
    pub changes: Vec<LentChange<'a>>,
}

/// The source and the number that a client shows, by which it is answered. Both are 0 where it
/// shows nothing.
#[derive(Clone, Copy, PartialEq, Eq, Debug)]
pub struct Ask {
    pub source: SourceNo,
    pub number: SequenceNo,
}
