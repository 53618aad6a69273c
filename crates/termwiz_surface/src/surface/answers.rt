//! The answers that viewers get: the changes that they lack, or a repaint.
ghost use Rattle.std.specs.Prelude.{◌≡◌, ◌≤◌, ◌==◌, [], IfOk, IsOkAnd, false, length, map, true, ℕ};
ghost use Rattle.termwiz_surface.specs.{IsOwnedSlice, Repaints, StreamsFullyFrom, most_own_entries};
ghost use Rattle.termwiz_surface.specs.{Preserves, StreamsFrom, change_value, due, full_repaint};
ghost use Rattle.termwiz_surface.specs.{Lends, delta_limit, next_number, own_repaint, regions_fit};
ghost use Rattle.termwiz_surface.specs.{forgotten, is_known, not, screen_of, stream_of};
ghost use Rattle.termwiz_surface.specs.{flushed, full_of, knows, measure, repaint};
ghost use Rattle.termwiz_surface.specs.{with_log};

use super::Surface;
use std::alloc::AllocError;
use std::borrow::CowSlice;
use termwiz_cell::cell::Cell;
use termwiz_cell::change::{Change, SequenceNo};
use termwiz_cell::emoji::Widths;
use termwiz_screen::log::delta_limit;
use termwiz_screen::repaint::full::{fully_framed, fully_started};
use termwiz_screen::repaint::{all_rows, framed, started};

impl<W: Widths> Surface<W> {
    /// Whether a viewer with this number lacks changes: whether it isn't the number of the next
    /// change.
    pub fn has_changes(&self, seq: SequenceNo) -> bool
        ensures { result ≡ not (seq == next_number self.now.log) }
    {
        seq != self.log.next_number()
    }

    /// Forgets the changes before this number, if it is at least the log's first number and at most
    /// that of the next change. Viewers with this number or a greater one get the same answers as
    /// before.
    pub fn flush_changes_older_than(&mut self, seq: SequenceNo)
        ensures flushes { self.new ≡ with_log self.old (flushed self.old.log seq) }
        // The answer for this number, and for each greater one, is the same.
        ensures answers { (n most : ℕ) → seq ≤ n →
            (is_known most self.new.log n ≡ is_known most self.old.log n)
            × (due self.new.log n ≡ due self.old.log n) }
        // At the number of the next change all changes are forgotten.
        ensures emptied { seq ≡ next_number self.old.log → self.new.log.changes ≡ [] }
        // Viewers, numbers and rows hold.
        ensures preserves { Preserves (measure W.width_of) self.old self.new }
    {
        self.log.flush(seq);
    }

    /// Forgets the changes that no answer needs: all but the last 3 plus six fifths of the number
    /// of cells. All viewers get the same answers as before.
    ///
    /// All calls together cost a few instructions for each change that they forget.
    pub fn forget_unneeded(&mut self)
        ensures forgets { self.new ≡ with_log self.old
            (forgotten (delta_limit self.old.width self.old.height) self.old.log) }
        // The same numbers are known, and the same is due from each of them.
        ensures answers { (n : ℕ) → (knows self.new n ≡ knows self.old n)
            × (knows self.old n ≡ true → due self.new.log n ≡ due self.old.log n) }
        ensures few { length self.new.log.changes
            ≤ delta_limit self.new.width self.new.height }
        // Viewers, numbers and rows hold.
        ensures preserves { Preserves (measure W.width_of) self.old self.new }
    {
        let most = delta_limit(self.width, self.height);
        let first = self.log.next_number().saturating_sub(most);
        self.flush_changes_older_than(first);
    }

    /// The number of the next change, and the changes that a viewer that was last given the number
    /// `seq` has to apply.
    ///
    /// Where the log has the changes from `seq` on, and they aren't too many, they are borrowed,
    /// and the call never fails. Otherwise they are a repaint, which leads from any screen of this
    /// size to this one:
    ///
    /// - for 0, the number of a viewer that was given none;
    /// - for a number before the log's first one, as after a flush, and for one past the number of
    ///   the next change;
    /// - where more changes are due than 3 plus six fifths of the number of cells.
    ///
    /// A repaint sets the screen, and also:
    ///
    /// - the title, unless it is empty, and the shape of a visible cursor, if one was set, but
    ///   neither the cursor's colour nor the sizes of lines;
    /// - of a full surface, the title, even an empty one, the cursor's shape, even of a hidden
    ///   cursor or where none was set, its colour, and the size of each line.
    pub fn get_changes(
        &self,
        seq: SequenceNo,
    ) -> Result<(SequenceNo, CowSlice<'_, Change>), AllocError>
        ensures number { IfOk result (λ answer. answer.0 ≡ next_number self.now.log) }
        ensures due { knows self.now seq ≡ true →
            IsOkAnd result (λ answer. Lends answer.1 (due self.now.log seq)) }
        // Replayed on any screen of this size, a repaint gives this one: rows, cursor, visibility
        // and pen.
        ensures repaint { knows self.now seq ≡ false →
            IfOk result (λ answer. Repaints (measure W.width_of) self.now (stream_of answer.1)) }
        // Its changes are the defined ones, the title and the cursor's shape among them.
        ensures entries { knows self.now seq ≡ false →
            IfOk result (λ answer. stream_of answer.1 ≡ own_repaint self.now) }
        ensures short { knows self.now seq ≡ false →
            IfOk result (λ answer. length (stream_of answer.1) ≤ most_own_entries self.now) }
        // No scroll in the answer has a region that goes past the last row.
        ensures regions { IfOk result (λ answer.
            regions_fit self.now.height (stream_of answer.1) ≡ true) }
        ensures owned { knows self.now seq ≡ false → IfOk result (λ answer. IsOwnedSlice answer.1) }
        // Both kinds of answer in one: by `following_laws` they lead a viewer that follows to this
        // screen.
        ensures stream { IfOk result (λ answer.
            StreamsFrom (measure W.width_of) self.now seq (stream_of answer.1)) }
        // Those of a full surface lead a viewer to its full screen.
        ensures full { self.now.full ≡ true → IfOk result (λ answer.
            StreamsFullyFrom (measure W.width_of) self.now seq (stream_of answer.1)) }
    {
        let number = self.log.next_number();
        match self.log.due(seq, delta_limit(self.width, self.height)) {
            Some(due) => Ok((number, CowSlice::Borrowed(due))),
            None => Ok((number, CowSlice::Owned(self.repaint()?))),
        }
    }

    // The repaint of a surface of this kind. It is kept out of line, so that the path of deltas is
    // short.
    #[inline(never)]
    fn repaint(&self) -> Result<Vec<Change>, AllocError>
        ensures { IfOk result (λ changes. map change_value changes.items ≡ own_repaint self.now) }
    {
        if self.full {
            self.full_repaint()
        } else {
            self.screen_repaint()
        }
    }

    fn screen_repaint(&self) -> Result<Vec<Change>, AllocError>
        ensures { IfOk result (λ changes.
            map change_value changes.items
            ≡ repaint (screen_of self.now) self.now.title self.now.shape) }
    {
        let padding = Cell::blank();
        let writer = started(self.alloc, &padding, self.title.as_str())?;
        let drawn = all_rows(writer, &self.rows, self.width, &padding)?;
        framed(
            drawn,
            self.x,
            self.y,
            self.visibility,
            self.shape,
            &self.pen,
        )
    }

    fn full_repaint(&self) -> Result<Vec<Change>, AllocError>
        ensures { IfOk result (λ changes.
            map change_value changes.items ≡ full_repaint (full_of self.now)) }
    {
        let padding = Cell::blank();
        let title = self.title.as_str();
        let writer = fully_started(self.alloc, &padding, title, self.color, &self.rows)?;
        let drawn = all_rows(writer, &self.rows, self.width, &padding)?;
        let (x, y) = (self.x, self.y);
        fully_framed(drawn, x, y, self.visibility, self.shape, &self.pen)
    }
}
