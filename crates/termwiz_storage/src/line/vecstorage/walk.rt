//! The iterator over cells that are stored one by one.
ghost use Rattle.std.specs.Prelude.{◌≡◌, ◌↔◌, ◌∷◌, ◌<◌, [], IfSome, IsSome, MatchOption, false};
ghost use Rattle.termwiz_storage.specs.{IsPlainFirst, YieldsCell, begins_plain, is_plain_with};
ghost use Rattle.termwiz_storage.specs.{item_count, true, visible};

use crate::line::cellref::CellRef;
use std::marker::Model;
use std::slice;
use termwiz_cell::cell::{Cell, CellAttributes};

/// The visible cells of a list of stored cells, in order.
#[derive(Drop)]
pub struct VecStorageIter<'a> {
    cells: slice::Iter<'a, Cell>,
    idx: usize,
}

impl<'a> Model for VecStorageIter<'a> {
    ghost use Rattle.std.specs.Prelude.{◌+◌, ◌<◌, ◌^◌, List, length, ℕ};
    ghost use Rattle.std.specs.Slice.Iter.{iter_rest};
    ghost use Rattle.termwiz_storage.specs.Stored.{visible_from};
    ghost use Rattle.termwiz_storage.specs.VisibleCell.{VisibleCell};

    ghost Value = { List VisibleCell };

    ghost view = { λ s. visible_from s.idx 0 (iter_rest s.cells) };

    ghost invariant = { λ s. s.idx + length (iter_rest s.cells) < 2 ^ 64 };
}

impl<'a> VecStorageIter<'a> {
    /// An iterator over the visible cells of these stored cells.
    #[doc(hidden)]
    pub fn new(cells: &'a [Cell]) -> VecStorageIter<'a>
        ensures { result ≡ visible cells.now }
    {
        VecStorageIter {
            cells: cells.iter(),
            idx: 0,
        }
    }

    /// The character of the next cell, where that is one character of printable ASCII, of one
    /// column, with these attributes. Otherwise returns `None`, and the iterator isn't advanced.
    #[doc(hidden)]
    #[inline(always)]
    pub fn next_plain(&mut self, attrs: &CellAttributes) -> Option<u8>
        ensures { MatchOption result
            ((self.new ≡ self.old) × (begins_plain attrs.now self.old ≡ false))
            (λ byte. IsPlainFirst attrs.now self.old byte self.new) }
    {
        let (first, rest) = self.cells.as_slice().split_first()?;
        match plain_byte(first, attrs) {
            Some(byte) => {
                self.cells = rest.iter();
                self.idx += 1;
                Some(byte)
            }
            None => None,
        }
    }
}

impl<'a> Iterator for VecStorageIter<'a> {
    type Item = CellRef<'a>;

    ghost next_gives = { YieldsCell (λ s. s) };

    ghost remaining = { item_count (λ s. s) };

    #[inline(always)]
    fn next(&mut self) -> Option<CellRef<'a>> {
        let cell = self.cells.next()?;
        // `str` promises that a cell's text is clean.
        let _text = cell.str();
        let cell_index = self.idx;
        self.idx += 1;
        // The cell after a wide one is skipped.
        if cell.width() > 1 && self.cells.next().is_some() {
            self.idx += 1;
        }
        Some(CellRef::CellRef { cell_index, cell })
    }
}

// The character of a plain cell with these attributes.
#[inline(always)]
pub(crate) fn plain_byte(cell: &Cell, attrs: &CellAttributes) -> Option<u8>
    ensures plain { IsSome result ↔ (is_plain_with attrs.now cell.now ≡ true) }
    ensures text { IfSome result (λ byte. cell.now.text ≡ byte ∷ []) }
    ensures ascii { IfSome result (λ byte. byte < 128) }
{
    let byte = cell.as_plain()?;
    if *cell.attrs() == *attrs {
        return Some(byte);
    }
    None
}
