//! The visible cells of a row, with blank ones after those that are stored.
ghost use Rattle.std.specs.Prelude.{◌≡◌, ◌+◌, ◌<◌, ◌^◌, ◌++◌, MatchOption, length};
ghost use Rattle.termwiz_cell.specs.CellValue as cell_value;
ghost use Rattle.termwiz_storage.specs.{IsPlainFirst, YieldsCell, item_count, visible};
ghost use Rattle.tikeburo_c.specs.Rows.{blanks_at};

use std::marker::Model;
use termwiz_cell::cell::{Cell, CellAttributes};
use termwiz_storage::line::cellref::CellRef;
use termwiz_storage::line::vecstorage::VecStorageIter;

/// The visible cells of stored ones, and a number of blank ones after them.
#[derive(Drop)]
pub(crate) struct ShownCells<'a> {
    stored: VecStorageIter<'a>,
    column: usize,
    blanks: usize,
    blank: &'a Cell,
}

impl<'a> Model for ShownCells<'a> {
    ghost use Rattle.std.specs.Prelude.{◌≡◌, ◌+◌, ◌<◌, ◌^◌, ◌++◌, List};
    ghost use Rattle.termwiz_cell.specs.CellValue as cell_value;
    ghost use Rattle.termwiz_storage.specs.VisibleCell.{VisibleCell};
    ghost use Rattle.tikeburo_c.specs.Rows.{blanks_at};

    ghost Value = { List VisibleCell };

    ghost view = { λ s. s.stored ++ blanks_at s.column s.blanks };

    ghost invariant = { λ s.
        (s.blank.now ≡ cell_value.blank) × (s.column + s.blanks < 2 ^ 64) };
}

impl<'a> ShownCells<'a> {
    /// The visible ones of these stored cells, and `blanks` blank ones after them.
    pub(crate) fn new(stored: &'a [Cell], blanks: usize, blank: &'a Cell) -> ShownCells<'a>
        requires blank { blank.now ≡ cell_value.blank }
        requires few { length stored.now + blanks < 2 ^ 64 }
        ensures { result ≡ visible stored.now ++ blanks_at (length stored.now) blanks }
    {
        ShownCells {
            stored: VecStorageIter::new(stored),
            column: stored.len(),
            blanks,
            blank,
        }
    }

    /// The character of the next cell, where that is stored, and is one character of printable
    /// ASCII, of one column, with these attributes. Otherwise returns `None`, and is unchanged.
    #[inline(always)]
    pub(crate) fn next_plain(&mut self, attrs: &CellAttributes) -> Option<u8>
        ensures { MatchOption result (self.new ≡ self.old)
            (λ byte. IsPlainFirst attrs.now self.old byte self.new) }
    {
        self.stored.next_plain(attrs)
    }
}

impl<'a> Iterator for ShownCells<'a> {
    type Item = CellRef<'a>;

    ghost next_gives = { YieldsCell (λ s. s) };

    ghost remaining = { item_count (λ s. s) };

    #[inline(always)]
    fn next(&mut self) -> Option<CellRef<'a>> {
        if let Some(cell) = self.stored.next() {
            return Some(cell);
        }
        if self.blanks == 0 {
            return None;
        }
        let cell_index = self.column;
        self.column += 1;
        self.blanks -= 1;
        let cell = self.blank;
        Some(CellRef::CellRef { cell_index, cell })
    }
}
