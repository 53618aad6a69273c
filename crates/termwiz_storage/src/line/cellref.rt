//! The visible cells of a line, borrowed.
ghost use Rattle.std.specs.Prelude.{◌≡◌, ◌≤◌, ◌↔◌, IfOk, IsTrue};
ghost use Rattle.termwiz_storage.specs.{IsOfCell, YieldsCell, blank, cell_of, cells_left, columns};
ghost use Rattle.termwiz_storage.specs.{contents, contents_of, indexed_cell, item_count, ref_cell};
ghost use Rattle.termwiz_storage.specs.{ref_index, ref_width, space, unwrap_or};

use crate::line::clusterline::ClusterLineIter;
use crate::line::vecstorage::VecStorageIter;
use std::alloc::{AllocError, Global};
use termwiz_cell::cell::{Cell, CellAttributes};
use termwiz_cell::emoji::{Presentation, Widths};

/// A visible cell of a line, with its column: a stored cell, or a piece of a text with its width in
/// columns and its attributes. A value that a caller constructs may have any width and any text.
#[derive(Clone, Copy, Debug)]
pub enum CellRef<'a> {
    /// A cell that is stored by itself.
    CellRef {
        cell_index: usize,
        cell: &'a Cell,
    },
    /// A cell that is stored in a text.
    ClusterRef {
        cell_index: usize,
        text: &'a str,
        width: usize,
        attrs: &'a CellAttributes,
    },
}

impl<'a> CellRef<'a> {
    /// The column at which the cell begins.
    pub fn cell_index(&self) -> usize
        ensures { result ≡ ref_index self.now }
    {
        match self {
            CellRef::CellRef { cell_index, .. } => *cell_index,
            CellRef::ClusterRef { cell_index, .. } => *cell_index,
        }
    }

    /// The text of the cell.
    pub fn str(&self) -> &'a str
        ensures { result.now ≡ (ref_cell self.now).text }
    {
        match self {
            CellRef::CellRef { cell, .. } => cell.str(),
            CellRef::ClusterRef { text, .. } => text,
        }
    }

    /// The cell's width in columns. The cells that an iterator over a line yields have 1 or 2.
    pub fn width(&self) -> usize
        ensures { result ≡ ref_width self.now }
    {
        match self {
            CellRef::CellRef { cell, .. } => cell.width(),
            CellRef::ClusterRef { width, .. } => *width,
        }
    }

    /// The attributes.
    pub fn attrs(&self) -> &'a CellAttributes
        ensures { result.now ≡ (ref_cell self.now).attrs }
    {
        match self {
            CellRef::CellRef { cell, .. } => cell.attrs(),
            CellRef::ClusterRef { attrs, .. } => attrs,
        }
    }

    /// The form in which the text is shown, as the width value gives it: the one that a variation
    /// selector in the text asks for, or else the default one.
    pub fn presentation<W: Widths>(&self, widths: &W) -> Presentation
        ensures { let shown = W.presentation_of widths.now (ref_cell self.now).text in
            result ≡ unwrap_or shown.1 shown.0 }
    {
        let (presentation, variation) = widths.presentation(self.str());
        variation.unwrap_or(presentation)
    }

    /// A cell of this text, width and attributes, as `Cell::new_grapheme_with_width` returns it.
    /// The width must be at most 2.
    pub fn as_cell(&self, alloc: Global) -> Result<Cell, AllocError>
        requires { ref_width self.now ≤ 2 }
        ensures { IfOk result (λ cell.
            cell ≡ cell_of (ref_cell self.now).text (ref_width self.now)
            (ref_cell self.now).attrs) }
    {
        match self {
            CellRef::CellRef { cell, .. } => copied(cell),
            CellRef::ClusterRef {
                text,
                width,
                attrs,
                ..
            } => {
                let attrs = (**attrs).clone()?;
                Cell::new_grapheme_with_width(alloc, text, *width, attrs)
            }
        }
    }

    /// A copy of the cell. The reference must have a width and a text that a cell can have, as each
    /// item of an iterator over a line has.
    #[doc(hidden)]
    pub fn to_cell(&self, alloc: Global) -> Result<Cell, AllocError>
        requires { IsOfCell self.now }
        ensures { IfOk result (λ cell. cell ≡ ref_cell self.now) }
    {
        self.as_cell(alloc)
    }

    /// Whether text, width and attributes are the same, whatever the columns.
    pub fn same_contents(&self, other: &CellRef<'_>) -> bool
        ensures { IsTrue result ↔ (contents self.now ≡ contents other.now) }
    {
        self.str() == other.str()
            && (self.width() == other.width() && *self.attrs() == *other.attrs())
    }

    /// Whether both are the same cell, at the same column. Both references must have a width and a
    /// text that a cell can have.
    #[doc(hidden)]
    pub fn is_same(&self, other: &CellRef<'_>) -> bool
        requires own { IsOfCell self.now }
        requires other { IsOfCell other.now }
        ensures { IsTrue result ↔ (indexed_cell self.now ≡ indexed_cell other.now) }
    {
        self.cell_index() == other.cell_index() && self.same_contents(other)
    }

    /// Whether text, width and attributes are those of this cell.
    #[doc(hidden)]
    pub fn is_cell(&self, cell: &Cell) -> bool
        ensures { IsTrue result ↔ (contents self.now ≡ contents_of cell.now) }
    {
        self.same_contents(&CellRef::CellRef {
            cell_index: 0,
            cell,
        })
    }

    /// Whether the text is a single space.
    #[doc(hidden)]
    pub fn is_space(&self) -> bool
        ensures { IsTrue result ↔ ((ref_cell self.now).text ≡ space) }
    {
        matches!(self.str().as_bytes(), b" ")
    }

    /// Whether this is a space of one column with default attributes.
    #[doc(hidden)]
    pub fn is_blank(&self) -> bool
        ensures { IsTrue result ↔ (contents self.now ≡ contents_of blank) }
    {
        self.is_space() && (self.width() == 1 && self.attrs().is_blank())
    }
}

fn copied(cell: &Cell) -> Result<Cell, AllocError>
    ensures { IfOk result (λ made. made ≡ cell_of cell.now.text (columns cell.now) cell.now.attrs) }
{
    // `str` promises that a cell's text is clean.
    let _text = cell.str();
    cell.clone()
}

/// The visible cells of a line, in order.
#[derive(Drop)]
pub enum VisibleCellIter<'a> {
    /// The cells are stored one by one.
    V(VecStorageIter<'a>),
    /// The cells are stored as one text.
    Cluster(ClusterLineIter<'a>),
}

impl<'a> Iterator for VisibleCellIter<'a> {
    type Item = CellRef<'a>;

    ghost next_gives = { YieldsCell cells_left };

    ghost remaining = { item_count cells_left };

    #[inline(always)]
    fn next(&mut self) -> Option<CellRef<'a>> {
        match self {
            VisibleCellIter::V(iter) => iter.next(),
            VisibleCellIter::Cluster(iter) => iter.next(),
        }
    }
}
