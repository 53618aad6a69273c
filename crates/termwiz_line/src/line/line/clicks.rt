//! What a double click selects.
ghost use Rattle.std.specs.Prelude.{◌≡◌, ◌<◌, ◌≤◌, ◌↔◌, Bool, IsTrue, List, false, length, ℕ};
ghost use Rattle.termwiz_line.specs.{AnswersAs, FnReturnsAt, cells_left, last_is_wrapped, lower_of};
ghost use Rattle.termwiz_line.specs.{All, IsLower, IsUpper, goes_on, ref_cell, upper_of, visible};

use super::Line;
use std::ops;
use termwiz_storage::line::cellref::{CellRef, VisibleCellIter};

/// The columns that a double click selects: from the range's start up to its end, which is
/// excluded.
#[derive(Clone, Debug, PartialEq, Drop)]
pub enum DoubleClickRange {
    /// They end in this line.
    Range(ops::Range<usize>),
    /// They extend to the end of this line, whose text continues in the next one.
    RangeWithWrap(ops::Range<usize>),
}

impl Line {
    /// The columns of the word that a double click at a column selects. A word cell is a visible
    /// one whose text `is_word` accepts.
    ///
    /// - The start is the column of the first cell of the longest run of word cells that ends with
    ///   the last visible cell at the column or before it.
    /// - The end is one past the column at which the last cell begins, of the longest run of word
    ///   cells that starts with the first visible cell at the column or after it. So the second
    ///   column of a wide cell at the end of a word is excluded.
    /// - Where the run on a side has no cell, the start or end is the column itself. Where the
    ///   column is past the end of the line, both are the column.
    ///
    /// ```text
    /// |foo bar|  at column 1:  0..3      at column 3, the space:  3..3      at column 5:  4..7
    /// ```
    pub fn compute_double_click_range<F: Fn(&str) -> bool>(
        &self,
        click_col: usize,
        is_word: F,
    ) -> DoubleClickRange
        requires { F.IsAlwaysCallable is_word }
        ensures outside { length self.now.cells ≤ click_col → (lower_of result ≡ click_col)
            × (upper_of result ≡ click_col) × (goes_on result ≡ false) }
        ensures around { click_col < length self.now.cells → (lower_of result ≤ click_col)
            × (click_col ≤ upper_of result) × (upper_of result ≤ length self.now.cells) }
        // For a predicate that returns the same for the same text.
        ensures upper { click_col < length self.now.cells → (word : List ℕ → Bool) →
            AnswersAs (FnReturnsAt F.Fn is_word) word →
            IsUpper word (visible self.now.cells) click_col (upper_of result) }
        ensures lower { click_col < length self.now.cells → (word : List ℕ → Bool) →
            AnswersAs (FnReturnsAt F.Fn is_word) word →
            IsLower word (visible self.now.cells) click_col (lower_of result) }
        ensures wraps { click_col < length self.now.cells →
            (IsTrue (goes_on result)
            ↔ ((lower_of result < upper_of result) × (length self.now.cells ≤ upper_of result)
            × IsTrue (last_is_wrapped (visible self.now.cells)))) }
    {
        let len = self.len();
        if click_col >= len {
            return DoubleClickRange::Range(click_col..click_col);
        }
        let upper = upper_end(self.visible_cells(), click_col, &is_word, len);
        let lower = lower_end(self.visible_cells(), click_col, &is_word);
        if upper > lower && upper >= len && self.last_cell_was_wrapped() {
            DoubleClickRange::RangeWithWrap(lower..upper)
        } else {
            DoubleClickRange::Range(lower..upper)
        }
    }
}

// Whether the predicate accepts the cell's text.
fn is_in_word<F: Fn(&str) -> bool>(cell: CellRef<'_>, is_word: &F) -> bool
    requires { F.IsAlwaysCallable is_word.now }
    ensures { (word : List ℕ → Bool) → AnswersAs (FnReturnsAt F.Fn is_word.now) word →
        result ≡ word (ref_cell cell.entry).text }
{
    is_word(cell.str())
}

// The end of the word at the click.
fn upper_end<F: Fn(&str) -> bool>(
    cells: VisibleCellIter<'_>,
    click: usize,
    is_word: &F,
    len: usize,
) -> usize
    requires callable { F.IsAlwaysCallable is_word.now }
    requires indices { All (λ p. p.column < len) (cells_left cells) }
    requires click { click < len }
    ensures at_least { click ≤ result }
    ensures at_most { result ≤ len }
    ensures agreed { (word : List ℕ → Bool) → AnswersAs (FnReturnsAt F.Fn is_word.now) word →
        IsUpper word (cells_left cells.entry) click result }
{
    let mut upper = click;
    for cell in cells {
        let index = cell.cell_index();
        if index >= click {
            if !is_in_word(cell, is_word) {
                break;
            }
            upper = index + 1;
        }
    }
    upper
}

// The start of the word at the click.
fn lower_end<F: Fn(&str) -> bool>(cells: VisibleCellIter<'_>, click: usize, is_word: &F) -> usize
    requires callable { F.IsAlwaysCallable is_word.now }
    ensures at_most { result ≤ click }
    ensures agreed { (word : List ℕ → Bool) → AnswersAs (FnReturnsAt F.Fn is_word.now) word →
        IsLower word (cells_left cells.entry) click result }
{
    let mut start = None;
    for cell in cells {
        let index = cell.cell_index();
        if index <= click {
            if !is_in_word(cell, is_word) {
                start = None;
            } else if start.is_none() {
                start = Some(index);
            }
        }
    }
    start.unwrap_or(click)
}
