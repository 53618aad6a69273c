//! A writer of row entries.
ghost use Rattle.std.specs.Prelude.{◌≡◌, ◌++◌, ◌∷◌, ◌+◌, ◌&&◌, ◌-◌, ◌<◌, [], IsTrue, bytes_eq};
ghost use Rattle.termwiz_line.specs.{attributes_eq, change_value, not, option_copied, penned_value};
ghost use Rattle.termwiz_line.specs.{IsWritten, VisibleCell, and_cells, cells_left, spaces_of};
ghost use Rattle.termwiz_line.specs.{IsInText, IsLastOf, behind, is_text, last_is, length, nat_lt};
ghost use Rattle.termwiz_line.specs.{IfOk, List, OnOk, false, has_only_background, space, true};
ghost use Rattle.termwiz_line.specs.Entries as spec;

mod plain;

use super::{EntryList, Penned};
use std::alloc::{AllocError, Global};
use std::marker::Model;
use termwiz_cell::cell::CellAttributes;
use termwiz_cell::change::Change;
use termwiz_storage::line::cellref::VisibleCellIter;

/// Writes rows of visible cells as entries: a pen for each run of equal attributes, then its texts.
/// Spaces at the end of a row are left out where their attributes are default except for the
/// background. Where that isn't the default, a clear to the end of the line replaces them.
///
/// After an error of a method the writer may have any entries.
#[derive(Drop)]
pub struct RowWriter<'a> {
    entries: EntryList,
    pen: &'a CellAttributes,
    // Spaces that may end the row are held back: their number, and their attributes.
    spaces: usize,
    space_attrs: &'a CellAttributes,
}

impl<'a> Model for RowWriter<'a> {
    ghost use Rattle.termwiz_line.specs.Writing.{Writing};

    ghost Value = { Writing };

    ghost view = { λ w.
        record {
          printed = record { entries = w.entries; pen = w.pen.now };
          spaces = w.spaces;
          space_attrs = w.space_attrs.now;
        } };
}

impl<'a> RowWriter<'a> {
    /// A writer without entries, with this pen as the current one.
    pub fn new(alloc: Global, pen: &'a CellAttributes) -> RowWriter<'a>
        ensures printed { result.printed ≡ record { entries = []; pen = pen.now } }
        ensures spaces { result.spaces ≡ 0 }
    {
        RowWriter {
            entries: EntryList::new(alloc),
            pen,
            spaces: 0,
            space_attrs: pen,
        }
    }

    /// Appends an entry between two rows. It isn't a text.
    pub fn push(&mut self, entry: Change) -> Result<(), AllocError>
        requires { is_text (change_value entry) ≡ false }
        ensures printed { OnOk result (
            self.new.printed
            ≡ record self.old.printed {
              entries = self.old.printed.entries ++ change_value entry ∷ [];
            }) }
        ensures spaces { self.new.spaces ≡ self.old.spaces }
    {
        self.entries.push(entry)?;
        Ok(())
    }

    /// Writes a visible cell with this text and these attributes.
    #[inline(always)]
    pub fn cell(&mut self, text: &str, attrs: &'a CellAttributes) -> Result<(), AllocError>
        ensures { OnOk result (
            (from : spec.Penned) (cells : List VisibleCell) (p : VisibleCell) →
            p.cell.text ≡ text.now → p.cell.attrs ≡ attrs.now → IsWritten from cells self.old →
            IsWritten from (cells ++ p ∷ []) self.new) }
    {
        if is_space(text) {
            return self.spaces(1, attrs);
        }
        self.print_spaces()?;
        self.print(text, attrs)
    }

    /// Writes `count` spaces with these attributes.
    #[inline(always)]
    pub fn spaces(&mut self, count: usize, attrs: &'a CellAttributes) -> Result<(), AllocError>
        ensures { OnOk result (
            (from : spec.Penned) (cells more : List VisibleCell) →
            spec.all_spaces attrs.now more ≡ true → length more ≡ count →
            IsWritten from cells self.old → IsWritten from (cells ++ more) self.new) }
    {
        if count == 0 {
            return Ok(());
        }
        if self.holds_back(attrs) {
            self.spaces = added(self.spaces, count)?;
            return Ok(());
        }
        self.print_spaces()?;
        self.spaces = count;
        self.space_attrs = attrs;
        Ok(())
    }

    // Whether spaces with these attributes are held back.
    fn holds_back(&self, attrs: &CellAttributes) -> bool
        ensures { result
            ≡ (nat_lt 0 self.now.spaces && attributes_eq self.now.space_attrs attrs.now) }
    {
        self.spaces > 0 && *self.space_attrs == *attrs
    }

    // Prints the held-back spaces. Once the first is printed, the last entry is a text that ends in
    // printable ASCII.
    #[inline(always)]
    fn print_spaces(&mut self) -> Result<(), AllocError>
        ensures printed { OnOk result (
            self.new.printed
            ≡ and_cells self.old.printed (spaces_of self.old.spaces self.old.space_attrs)) }
        ensures spaces { OnOk result (self.new.spaces ≡ 0) }
        ensures space_attrs { self.new.space_attrs ≡ self.old.space_attrs }
    {
        if self.spaces > 0 {
            if !self.holds_in_text() {
                self.print_space()?;
            }
            self.push_spaces()?;
        }
        Ok(())
    }

    // Whether the last entry is a text that ends in printable ASCII, and held-back spaces have the
    // current pen.
    #[inline(always)]
    fn holds_in_text(&self) -> bool
        ensures { IsTrue result → IsInText self.now }
    {
        self.entries.ends_printable() && *self.space_attrs == *self.pen
    }

    // Prints one of the held-back spaces, whatever the last entry is. It is kept out of line, so
    // that the path without spaces is short.
    #[inline(never)]
    fn print_space(&mut self) -> Result<(), AllocError>
        requires { 0 < self.old.spaces }
        ensures printed { OnOk result (
            self.new.printed
            ≡ and_cells self.old.printed (spaces_of 1 self.old.space_attrs)) }
        ensures spaces { OnOk result (self.new.spaces ≡ self.old.spaces - 1) }
        ensures space_attrs { self.new.space_attrs ≡ self.old.space_attrs }
        ensures text { OnOk result (IsInText self.new) }
    {
        let attrs = self.space_attrs;
        self.print(" ", attrs)?;
        self.spaces -= 1;
        Ok(())
    }

    // Prints a visible cell with this text.
    #[inline(always)]
    fn print(&mut self, text: &str, attrs: &'a CellAttributes) -> Result<(), AllocError>
        ensures printed { OnOk result (
            (p : VisibleCell) → p.cell.text ≡ text.now → p.cell.attrs ≡ attrs.now →
            self.new.printed ≡ spec.cell_out self.old.printed p) }
        ensures spaces { self.new.spaces ≡ self.old.spaces }
        ensures space_attrs { self.new.space_attrs ≡ self.old.space_attrs }
    {
        self.entries.push_pen(self.pen, attrs)?;
        self.pen = attrs;
        self.entries.push_text(text)?;
        Ok(())
    }

    /// Writes a row of these visible cells, followed by `spaces` spaces with these attributes.
    pub fn row(
        &mut self,
        cells: VisibleCellIter<'a>,
        spaces: usize,
        attrs: &'a CellAttributes,
    ) -> Result<(), AllocError>
        requires between { self.old.spaces ≡ 0 }
        requires apart { last_is is_text self.old.printed.entries ≡ false }
        ensures row { OnOk result (
            (more : List VisibleCell) → spec.all_spaces attrs.now more ≡ true →
            length more ≡ spaces →
            self.new.printed
            ≡ behind self.old.printed.entries (spec.row_entries self.old.printed.pen
            (cells_left cells.entry ++ more))) }
        ensures between { OnOk result (self.new.spaces ≡ 0) }
    {
        self.cells(cells)?;
        self.spaces(spaces, attrs)?;
        self.end_row()
    }

    // Writes visible cells. Each form of storage has a loop of its own, which needs no test of the
    // form for each cell.
    fn cells(&mut self, cells: VisibleCellIter<'a>) -> Result<(), AllocError>
        ensures { OnOk result (
            (from : spec.Penned) (before : List VisibleCell) → IsWritten from before self.old →
            IsWritten from (before ++ cells_left cells.entry) self.new) }
    {
        match cells {
            VisibleCellIter::V(cells) => self.stored_cells(cells),
            VisibleCellIter::Cluster(cells) => self.walk(VisibleCellIter::Cluster(cells)),
        }
    }

    #[inline(always)]
    fn walk(&mut self, cells: VisibleCellIter<'a>) -> Result<(), AllocError>
        ensures { OnOk result (
            (from : spec.Penned) (before : List VisibleCell) → IsWritten from before self.old →
            IsWritten from (before ++ cells_left cells.entry) self.new) }
    {
        for cell in cells {
            self.cell(cell.str(), cell.attrs())?;
        }
        Ok(())
    }

    // Whether the held-back spaces are left out where the row ends.
    fn leaves_out(&self) -> bool
        ensures { result ≡ (nat_lt 0 self.now.spaces
            && has_only_background self.now.space_attrs) }
    {
        self.spaces > 0 && self.space_attrs.has_only_background()
    }

    // Ends the row: the held-back spaces are left out, or printed where other attributes than the
    // background are set.
    fn end_row(&mut self) -> Result<(), AllocError>
        ensures row { OnOk result (
            (from : spec.Penned) (cells : List VisibleCell) →
            last_is is_text from.entries ≡ false → IsWritten from cells self.old →
            self.new.printed ≡ behind from.entries (spec.row_entries from.pen cells)) }
        ensures between { OnOk result (self.new.spaces ≡ 0) }
    {
        if !self.leaves_out() {
            return self.print_spaces();
        }
        self.pen = push_tail(&mut self.entries, self.pen, self.space_attrs)?;
        self.spaces = 0;
        Ok(())
    }

    /// Reserves room for `rows` rows like those that were written, if memory allows.
    pub fn reserve_rows(&mut self, rows: usize)
        ensures { self.new ≡ self.old }
    {
        self.entries.reserve_times(rows);
    }

    /// The last entry, if it isn't a text.
    pub fn last(&self) -> Option<&Change>
        ensures { IsLastOf self.now.printed.entries (option_copied result) }
    {
        self.entries.last()
    }

    /// The entries of the rows, and the pen after them.
    pub fn into_penned(self) -> Result<Penned<'a>, AllocError>
        ensures { IfOk result (λ row. penned_value row ≡ self.entry.printed) }
    {
        let RowWriter {
            entries,
            pen,
            spaces: _,
            space_attrs: _,
        } = self;
        let entries = entries.into_vec()?;
        Ok(Penned { entries, pen })
    }
}

// Pushes what ends a row where spaces with these attributes are left out, and returns the pen after
// it.
fn push_tail<'a>(
    entries: &mut EntryList,
    pen: &'a CellAttributes,
    end: &'a CellAttributes,
) -> Result<&'a CellAttributes, AllocError>
    ensures { IfOk result (λ after. (kept : List VisibleCell) →
        spec.is_empty kept ≡ not (last_is is_text entries.old) →
        record { entries = entries.new; pen = after.now }
        ≡ spec.with_tail (record { entries = entries.old; pen = pen.now }) kept end.now) }
{
    if entries.ends_with_text() {
        entries.push_pen(pen, end)?;
    } else if end.is_blank() {
        return Ok(pen);
    }
    push_clear(entries, end)?;
    Ok(end)
}

// Pushes a clear to the end of the line, unless the background is the default.
fn push_clear(entries: &mut EntryList, end: &CellAttributes) -> Result<(), AllocError>
    ensures { OnOk result (entries.new ≡ entries.old ++ spec.clear_entry end.now) }
{
    if !end.is_blank() {
        entries.push(Change::ClearToEndOfLine(end.background()))?;
    }
    Ok(())
}

// Whether the text is one space.
fn is_space(text: &str) -> bool
    ensures { result ≡ bytes_eq text.now space }
{
    matches!(text.as_bytes(), [b' '])
}

fn added(a: usize, b: usize) -> Result<usize, AllocError>
    ensures { IfOk result (λ sum. sum ≡ a + b) }
{
    a.checked_add(b).ok_or(AllocError)
}
