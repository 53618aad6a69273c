//! Lines of cells.
ghost use Rattle.std.specs.Prelude.{◌≡◌, ◌≤◌, ◌↔◌, if◌then◌else◌, [], OnErr, option_map, replicate};
ghost use Rattle.termwiz_line.specs.{AreClusters, IfOk, IsEdited, IsOk, IsTrue, IsUnchanged, None};
ghost use Rattle.termwiz_line.specs.{IsWhole, OnOk, Some, blank, cells_eq, cells_in, cells_left};
ghost use Rattle.termwiz_line.specs.{change_value, contents_eq, contents_eq-Decides, decided, map};
ghost use Rattle.termwiz_line.specs.{false, flags_eq, is_vector, length, line_contents, line_eq};
ghost use Rattle.termwiz_line.specs.{no_flags, on_equiv, on_per, partial_equiv_from_equiv, resized};
ghost use Rattle.termwiz_line.specs.{row_entries, true, visible};

use crate::cellcluster::CellCluster;
use crate::entries::row_entries;
use crate::line::linebits::LineBits;
use std::alloc::{AllocError, Global};
use std::marker::Model;
use termwiz_cell::cell::{Cell, CellAttributes};
use termwiz_cell::change::{Change, SequenceNo};
use termwiz_cell::emoji::Widths;
use termwiz_storage::line::cellref::VisibleCellIter;
use termwiz_storage::line::storage::CellStorage;

mod clicks;
mod edits;
mod flags;
mod texts;
mod wrapped;
mod wraps;
mod zones;

pub use clicks::DoubleClickRange;
pub use zones::ZoneRange;
use zones::drop_zones;

/// A line of cells, for example a row of a copied screen or of a program's scrollback.
///
/// Its stored cells begin at column 0. A wide cell hides the cell stored after it, usually its
/// half: a blank with its attributes. The number of stored cells is not the width at which the line
/// is shown: a shorter line is padded with default blanks, and a longer one is cut.
///
/// An edit is given the number of the change that it belongs to, and raises the line's number to
/// it; `blank_out` sets it. Where each change has a new number, a cache of what was made from a
/// line can tell by it whether the line has changed.
///
/// `split_off`, and writing through `cells_mut`, don't change the number.
///
/// Two lines are equal where their cells, numbers and flags are, whichever form stores the cells.
///
/// A line stores its cells as a vector or as one text. `stored_cells`, whether `as_str` borrows,
/// and the variants of visible cells depend on it; `==` doesn't.
///
/// - `new` returns a text. It stays a text while `set_cell`, `set_cell_grapheme` or
///   `overlay_text_with_attribute` sets each cell at its end, `fill_range` sets narrow cells there,
///   or one wide cell, and no default blanks, `append_line` appends another line, or
///   `set_last_cell_was_wrapped` marks the last cell.
/// - Any other edit that changes cells, and `cells_mut`, makes a text a vector. An edit that
///   changes none, or fails, may do so.
/// - `compress_for_scrollback` makes a vector a text, where each visible wide cell is followed by
///   its half.
///
/// `visible_cells` iterates over the visible cells, and `changes` returns the changes that print
/// them.
#[derive(Drop, Debug)]
pub struct Line {
    alloc: Global,
    storage: CellStorage,
    seqno: SequenceNo,
    bits: LineBits,
    // The zones, once they were computed, or none. Each edit of cells drops them.
    zones: Vec<ZoneRange>,
}

impl Model for Line {
    ghost use Rattle.std.specs.Prelude.{◌≡◌};
    ghost use Rattle.termwiz_storage.specs.Storage.{cells_in, is_vector};
    ghost use Rattle.termwiz_line.specs.LineFlags.{flag_bits, flags_of};
    ghost use Rattle.termwiz_line.specs.LineValue.{LineValue};
    ghost use Rattle.termwiz_line.specs.Zones.{AreUpToDate};

    ghost Value = { LineValue };

    ghost view = { λ l.
        record {
          cells = cells_in l.storage;
          seqno = l.seqno;
          flags = flags_of l.bits.0;
          is_vector = is_vector l.storage;
        } };

    // There are no other bits, and zones that are cached are those of the cells.
    ghost invariant = { λ l. (flag_bits (flags_of l.bits.0) ≡ l.bits.0)
        × AreUpToDate l.zones.items (cells_in l.storage) };
}

impl Line {
    /// A line of this many default blanks.
    pub fn with_width(alloc: Global, width: usize, seqno: SequenceNo) -> Result<Line, AllocError>
        ensures { IfOk result (λ line.
            line ≡ record {
              cells = replicate width blank;
              seqno = seqno;
              flags = no_flags;
              is_vector = true;
            }) }
    {
        let mut storage = CellStorage::vector(Vec::new(alloc));
        storage.blank_out(width)?;
        Ok(Line::of(alloc, storage, seqno))
    }

    /// A line of this many stored copies of a cell, without halves where it is wide.
    pub fn with_width_and_cell(
        alloc: Global,
        width: usize,
        cell: Cell,
        seqno: SequenceNo,
    ) -> Result<Line, AllocError>
        ensures { IfOk result (λ line.
            line ≡ record {
              cells = replicate width cell;
              seqno = seqno;
              flags = no_flags;
              is_vector = true;
            }) }
    {
        Ok(Line::of(alloc, CellStorage::copies(alloc, width, cell)?, seqno))
    }

    /// A line of these stored cells, which include the halves of wide cells.
    pub fn from_cells(cells: Vec<Cell>, seqno: SequenceNo) -> Line
        ensures { result
            ≡ record { cells = cells.items; seqno = seqno; flags = no_flags; is_vector = true } }
    {
        let alloc = *cells.allocator();
        Line::of(alloc, CellStorage::vector(cells), seqno)
    }

    /// A line without cells, stored as one text.
    pub fn new(alloc: Global, seqno: SequenceNo) -> Line
        ensures { result
            ≡ record { cells = []; seqno = seqno; flags = no_flags; is_vector = false } }
    {
        Line::of(alloc, CellStorage::clustered(alloc), seqno)
    }

    // A line without flags.
    fn of(alloc: Global, storage: CellStorage, seqno: SequenceNo) -> Line
        ensures { result
            ≡ record {
              cells = cells_in storage;
              seqno = seqno;
              flags = no_flags;
              is_vector = is_vector storage;
            } }
    {
        Line {
            alloc,
            storage,
            seqno,
            bits: LineBits::NONE,
            zones: Vec::new(alloc),
        }
    }

    /// Replaces the line by one of this many default blanks, with this number and without flags.
    /// With a vector that doesn't grow it never fails. An error leaves number, flags and cells
    /// unchanged.
    #[doc(hidden)]
    pub fn blank_out(&mut self, width: usize, seqno: SequenceNo) -> Result<(), AllocError>
        ensures ok { OnOk result (
            self.new ≡ record {
              cells = replicate width blank;
              seqno = seqno;
              flags = no_flags;
              is_vector = true;
            }) }
        ensures err { OnErr result (IsUnchanged self.old self.new) }
        ensures succeeds { self.old.is_vector ≡ true → width ≤ length self.old.cells → IsOk result }
    {
        drop_zones(&mut self.zones);
        self.storage.blank_out(width)?;
        self.seqno = seqno;
        self.bits = LineBits::NONE;
        Ok(())
    }

    /// Cuts the line to this many columns, or pads it with default blanks. Where it grows and its
    /// last visible cell lacks its half, the half is appended first. Raises the line's number to
    /// `seqno`. An error leaves number, flags and cells unchanged.
    pub fn resize(&mut self, width: usize, seqno: SequenceNo) -> Result<(), AllocError>
        ensures ok { OnOk result (IsEdited self.old (resized width self.old.cells) seqno self.new) }
        ensures err { OnErr result (IsUnchanged self.old self.new) }
        ensures succeeds { self.old.is_vector ≡ true → width ≤ length self.old.cells → IsOk result }
        ensures made { OnOk result (self.new.is_vector ≡ true) }
    {
        drop_zones(&mut self.zones);
        self.storage.resize(width)?;
        self.seqno = self.seqno.max(seqno);
        Ok(())
    }

    /// A copy that is stored as a vector, with this number and without flags, cut or padded to this
    /// many columns as by `resize`.
    #[doc(hidden)]
    pub fn resized(&self, width: usize, seqno: SequenceNo) -> Result<Line, AllocError>
        ensures { IfOk result (λ line.
            line ≡ record {
              cells = resized width self.now.cells;
              seqno = seqno;
              flags = no_flags;
              is_vector = true;
            }) }
    {
        let storage = self.storage.resized_copy(width)?;
        Ok(Line::of(self.alloc, storage, seqno))
    }

    /// Stores the cells as one text, which usually takes far less memory than a vector, for example
    /// for scrollback. Cells, number and flags don't change.
    ///
    /// - A vector stays a vector where a hidden cell isn't a blank with the attributes of the cell
    ///   that hides it, or where the last visible cell is wide and lacks its half.
    /// - An error leaves the line unchanged.
    pub fn compress_for_scrollback(&mut self) -> Result<(), AllocError>
        ensures cells { self.new.cells ≡ self.old.cells }
        ensures number { self.new.seqno ≡ self.old.seqno }
        ensures flags { self.new.flags ≡ self.old.flags }
        ensures clustered { OnOk result (self.new.is_vector ≡ false ↔ IsWhole self.old.cells) }
        ensures err { OnErr result (self.new ≡ self.old) }
    {
        self.storage.compress(self.alloc)?;
        Ok(())
    }

    /// Whether both lines have the same cells, whatever their numbers and flags, and whichever form
    /// stores them.
    #[doc(hidden)]
    pub fn has_same_cells(&self, other: &Line) -> bool
        ensures { result ≡ cells_eq self.now.cells other.now.cells }
    {
        self.storage == other.storage
    }

    fn is_same(&self, other: &Line) -> bool
        ensures { result ≡ line_eq self.now other.now }
    {
        self.seqno == other.seqno && (self.has_same_flags(other) && self.has_same_cells(other))
    }

    #[tactic(auto, using(crate::proofs::Flags::bits_eq))]
    fn has_same_flags(&self, other: &Line) -> bool
        ensures { result ≡ flags_eq self.now.flags other.now.flags }
    {
        self.bits == other.bits
    }

    /// How many cells are stored, hidden ones included.
    pub fn len(&self) -> usize
        ensures { result ≡ length self.now.cells }
    {
        self.storage.len()
    }

    /// The visible cells, in order, each with its column.
    pub fn visible_cells(&self) -> VisibleCellIter<'_>
        ensures { cells_left result ≡ visible self.now.cells }
    {
        self.storage.iter()
    }

    /// The changes that print the visible cells, starting with a pen of these attributes.
    pub fn changes(&self, start_attr: &CellAttributes) -> Result<Vec<Change>, AllocError>
        ensures { IfOk result (λ out.
            map change_value out.items
            ≡ (row_entries start_attr.now (visible self.now.cells)).entries) }
    {
        let row = row_entries(self.alloc, self.visible_cells(), start_attr)?;
        Ok(row.entries)
    }

    /// The clusters of the visible cells: the pieces that a text shaper is given.
    pub fn cluster<W: Widths>(&self, widths: &W) -> Result<Vec<CellCluster>, AllocError>
        ensures { IfOk result (λ clusters.
            AreClusters (W.presentation_of widths.now) (visible self.now.cells) clusters.items) }
    {
        CellCluster::make_cluster(self.alloc, widths, self.visible_cells())
    }

    /// The stored cells of a vector, hidden ones included, or `None` for a line that is stored as
    /// one text.
    pub fn stored_cells(&self) -> Option<&[Cell]>
        ensures { option_map (λ cells. cells.now) result
            ≡ (if self.now.is_vector then Some self.now.cells else None) }
    {
        self.storage.cells()
    }

    /// The stored cells of a line that is a vector, hidden ones included.
    #[doc(hidden)]
    pub fn vector_cells(&self) -> &[Cell]
        requires { self.now.is_vector ≡ true }
        ensures { result.now ≡ self.now.cells }
    {
        self.stored_cells().unwrap()
    }
}

impl Clone for Line {
    ghost is_clone = { λ a b. b ≡ a };

    fn clone(&self) -> Result<Line, AllocError> {
        let storage = self.storage.clone()?;
        Ok(Line {
            alloc: self.alloc,
            storage,
            seqno: self.seqno,
            bits: self.bits,
            zones: Vec::new(self.alloc),
        })
    }
}

impl PartialEq for Line {
    ghost eq = { line_eq };

    ghost laws = { on_per line_contents (partial_equiv_from_equiv
        (decided contents_eq contents_eq-Decides)) };

    // The form that stores the cells doesn't matter.
    fn eq(&self, other: &Line) -> bool
        ensures value { result ≡ line_eq self.now other.now }
        ensures same { IsTrue result ↔ (line_contents self.now ≡ line_contents other.now) }
    {
        self.is_same(other)
    }
}

impl Eq for Line {
    ghost laws = { on_equiv line_contents (decided contents_eq contents_eq-Decides) };
}
