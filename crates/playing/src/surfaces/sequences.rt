//! Sequences of changes in cases.
use crate::error::PlayError;
use crate::surfaces::answers::push_refused;
use crate::surfaces::measure::Measure;
use crate::surfaces::sizes::checked_size;
use crate::turn::Turn;
use std::mem;
use termwiz_cell::change::{Change, ChangeSequence, SequenceError};

/// A sequence of a case.
#[derive(Drop)]
pub struct Sequence {
    size: (usize, usize, Measure),
    /// The sequence itself.
    pub changes: ChangeSequence<Measure>,
}

impl Sequence {
    /// An empty sequence for a screen of this size.
    pub fn new(turn: &mut Turn<'_>, size: (usize, usize, Measure)) -> Option<Sequence> {
        let (width, height) = checked_size(turn, size.0, size.1)?;
        let changes = ChangeSequence::new(turn.alloc, height, width, size.2);
        Some(Sequence { size, changes })
    }

    /// Adds a list of changes. One to which memory is refused leaves its first changes in the
    /// sequence, which is replaced by an empty one: fails with `Memory` where the place is where
    /// those lead, and else with `Differs`.
    pub fn add_changes(&mut self, turn: &mut Turn<'_>, changes: Vec<Change>) {
        let count = changes.len();
        let made = self.changes.add_changes(changes);
        if !matches!(&made, Err(SequenceError::Memory)) {
            return push_refused(turn, made, SequenceError::Memory);
        }
        let place = self.changes.current_cursor_position();
        let (empty, again) = (
            Sequence::new(turn, self.size),
            Sequence::new(turn, self.size),
        );
        let (Some(empty), Some(mut again)) = (empty, again) else {
            return;
        };
        let first = mem::replace(self, empty).changes.consume();
        let fewer = first.len() < count;
        let made = again.changes.add_changes(first);
        if fewer && made.is_ok() && again.changes.current_cursor_position() == place {
            turn.fail(PlayError::Memory);
        } else {
            turn.fail(PlayError::Differs);
        }
    }

    /// Moves to a column and a row by `goto`, or answers where the cursor is, and the distance from
    /// the least row to the greatest so far.
    pub fn answer(&mut self, turn: &mut Turn<'_>, name: &str) {
        if name == "goto" {
            let (x, y) = (turn.number(), turn.word());
            let place = (x, turn.distance_of(y));
            return push_refused(turn, self.changes.move_to(place), SequenceError::Memory);
        }
        let (x, y) = self.changes.current_cursor_position();
        let height = self.changes.render_height();
        write!(turn, "cursor {x} {y}, height {height}");
    }
}
