//! Lines of texts, and the texts of a line.
ghost use Rattle.std.specs.Prelude.{◌≡◌, ◌≢◌, ◌+◌, ◌↔◌, ◌++◌, [], IfSome, option_map, string_bytes};
ghost use Rattle.termwiz_line.specs.{All, AppendsAt, EditsElsewhere, IfOk, IsBorrowedStr, IsMade};
ghost use Rattle.termwiz_line.specs.{IsOfCell, IsOkAnd, IsPartlyOverlaid, IsTrue, OnErr, OnOk};
ghost use Rattle.termwiz_line.specs.{Overlays, at_columns, at_version, cell_at, cells_left, false};
ghost use Rattle.termwiz_line.specs.{cells_of_text, columns, cow_str_bytes, default_attributes};
ghost use Rattle.termwiz_line.specs.{indexed_cell, is_linked, list_any, measure, measured, space};
ghost use Rattle.termwiz_line.specs.{no_flags, ref_cell, ref_index, stored_text, text_within, true};
ghost use Rattle.termwiz_line.specs.{texts_between, texts_of, visible, wrapped_text};

use super::Line;
use std::alloc::{AllocError, Global};
use std::borrow::CowStr;
use std::ops::Range;
use termwiz_cell::cell::{Cell, CellAttributes};
use termwiz_cell::change::{SEQ_ZERO, SequenceNo};
use termwiz_cell::emoji::{UnicodeVersion, Widths};
use termwiz_cell::hyperlink::LinkCopies;
use termwiz_storage::line::cellref::{CellRef, VisibleCellIter};
use termwiz_storage::line::vecstorage::push_with_half;
use termwiz_text::Graphemes;

impl Line {
    /// A line of the cells of a text's graphemes with these attributes, each wide cell followed by
    /// its half. They are measured in the given version of Unicode.
    pub fn from_text<W: Widths>(
        alloc: Global,
        text: &str,
        attrs: &CellAttributes,
        seqno: SequenceNo,
        version: Option<UnicodeVersion>,
        widths: &W,
    ) -> Result<Line, AllocError>
        ensures { IfOk result (λ line.
            line ≡ record {
              cells = stored_text (at_version (W.width_of widths.now) version)
                  attrs.now text.now;
              seqno = seqno;
              flags = no_flags;
              is_vector = true;
            }) }
    {
        let mut cells = Vec::new(alloc);
        push_text(&mut cells, alloc, text, attrs, version, widths)?;
        Ok(Line::from_cells(cells, seqno))
    }

    /// A line of a text with default attributes and the number 0, measured without a version.
    pub fn from_plain<W: Widths>(alloc: Global, text: &str, widths: &W) -> Result<Line, AllocError>
        ensures { IfOk result (λ line.
            line ≡ record {
              cells = stored_text (measure W.width_of widths.now)
                  default_attributes text.now;
              seqno = 0;
              flags = no_flags;
              is_vector = true;
            }) }
    {
        Line::from_text(
            alloc,
            text,
            &CellAttributes::blank(),
            SEQ_ZERO,
            None,
            widths,
        )
    }

    /// A line of a text, as `from_text` returns it without a version, whose last visible cell and
    /// its half are marked as wrapped. An empty text gives a line without cells.
    pub fn from_text_with_wrapped_last_col<W: Widths>(
        alloc: Global,
        text: &str,
        attrs: &CellAttributes,
        seqno: SequenceNo,
        widths: &W,
    ) -> Result<Line, AllocError>
        ensures { IfOk result (
            IsMade (wrapped_text (measure W.width_of widths.now) attrs.now text.now) seqno) }
    {
        let mut line = Line::from_text(alloc, text, attrs, seqno, None, widths)?;
        if line.len() > 0 {
            line.set_last_cell_was_wrapped(true, seqno)?;
        }
        Ok(line)
    }

    /// Sets the cells of a text's graphemes, as `set_cell` does, the first at a column and each of
    /// the others after the one before it.
    /// ```text
    /// |abcdef|  `xかy` from column 1:  |axかyf|      |ab|  `x` from column 4:  |ab  x|
    /// ```
    /// Raises the line's number to `seqno`; an empty text changes nothing. It also fails where a
    /// cell would end past the greatest `usize`. After an error some of the first cells are set, or
    /// none.
    pub fn overlay_text_with_attribute<W: Widths>(
        &mut self,
        start: usize,
        text: &str,
        attr: &CellAttributes,
        seqno: SequenceNo,
        widths: &W,
    ) -> Result<(), AllocError>
        ensures ok { OnOk result (
            Overlays self.old (at_columns start (cells_of_text
            (measure W.width_of widths.now) attr.now text.now)) seqno self.new) }
        ensures err { OnErr result (
            IsPartlyOverlaid self.old (at_columns start (cells_of_text
            (measure W.width_of widths.now) attr.now text.now)) seqno self.new) }
        ensures appended { OnOk result (AppendsAt start self.old self.new) }
        ensures made { text.now ≢ [] → OnOk result (EditsElsewhere start self.old self.new) }
    {
        let mut column = start;
        for grapheme in Graphemes::new(text) {
            let cell = measured_cell(self.alloc, grapheme, attr, None, widths)?;
            let end = end_of(column, &cell)?;
            self.set_cell(column, cell, seqno)?;
            column = end;
        }
        Ok(())
    }

    /// The texts of the visible cells, concatenated. Borrows from a line that stores its cells as
    /// one text, and never fails there.
    pub fn as_str(&self) -> Result<CowStr<'_>, AllocError>
        ensures text { IfOk result (λ text.
            cow_str_bytes text ≡ texts_of (visible self.now.cells)) }
        ensures lent { self.now.is_vector ≡ false → IsOkAnd result IsBorrowedStr }
    {
        if let Some(text) = self.storage.text() {
            return Ok(CowStr::Borrowed(text));
        }
        let text = joined_texts(self.alloc, self.visible_cells())?;
        Ok(CowStr::Owned(text))
    }

    /// The texts of the visible cells that begin in these columns, concatenated.
    pub fn columns_as_str(&self, range: Range<usize>) -> Result<String, AllocError>
        ensures { IfOk result (λ text.
            string_bytes text ≡ texts_between range.start range.end (visible self.now.cells)) }
    {
        let mut text = String::new(self.alloc);
        for cell in self.visible_cells() {
            push_within(&mut text, cell, range.start, range.end)?;
        }
        Ok(text)
    }

    /// The visible cell that begins at a column. There is none at the second column of a wide cell,
    /// or past the end of the line.
    pub fn get_cell(&self, cell_index: usize) -> Option<CellRef<'_>>
        ensures cell { option_map ref_cell result ≡ cell_at (visible self.now.cells) cell_index }
        ensures index { IfSome result (λ cell. ref_index cell ≡ cell_index) }
        ensures of_cell { IfSome result IsOfCell }
    {
        self.storage.get_cell(cell_index)
    }

    /// Gives the cells links of their own, which share no memory with others. The line stays as it
    /// is, even after an error.
    pub fn own_links(&mut self, copies: &mut LinkCopies) -> Result<(), AllocError>
        ensures { self.new ≡ self.old }
    {
        self.storage.own_links(self.alloc, copies)
    }

    /// Whether a stored cell has a link.
    pub fn has_hyperlink(&self) -> bool
        ensures { result ≡ list_any is_linked self.now.cells }
    {
        self.storage.has_hyperlink()
    }

    /// Whether the text of each visible cell is a single space. A line without cells is white
    /// space.
    pub fn is_whitespace(&self) -> bool
        ensures { IsTrue result ↔ All (λ p. p.cell.text ≡ space) (visible self.now.cells) }
    {
        for cell in self.visible_cells() {
            if !cell.is_space() {
                return false;
            }
        }
        true
    }
}

// The cell of a grapheme.
fn measured_cell<W: Widths>(
    alloc: Global,
    grapheme: &str,
    attrs: &CellAttributes,
    version: Option<UnicodeVersion>,
    widths: &W,
) -> Result<Cell, AllocError>
    ensures { IfOk result (λ cell.
        cell ≡ measured (at_version (W.width_of widths.now) version) grapheme.now attrs.now) }
{
    let attrs = attrs.clone()?;
    Cell::new_grapheme(alloc, widths, grapheme, attrs, version)
}

// The column after a cell.
fn end_of(column: usize, cell: &Cell) -> Result<usize, AllocError>
    ensures { IfOk result (λ end. end ≡ column + columns cell.now) }
{
    column.checked_add(cell.width()).ok_or(AllocError)
}

// Pushes the cells of a text's graphemes with their halves.
fn push_text<W: Widths>(
    cells: &mut Vec<Cell>,
    alloc: Global,
    text: &str,
    attrs: &CellAttributes,
    version: Option<UnicodeVersion>,
    widths: &W,
) -> Result<(), AllocError>
    ensures { OnOk result (
        cells.new.items ≡ cells.old.items
        ++ stored_text (at_version (W.width_of widths.now) version) attrs.now text.now) }
{
    for grapheme in Graphemes::new(text) {
        let cell = measured_cell(alloc, grapheme, attrs, version, widths)?;
        push_with_half(cells, cell)?;
    }
    Ok(())
}

// The texts of cells, concatenated.
fn joined_texts(alloc: Global, cells: VisibleCellIter<'_>) -> Result<String, AllocError>
    ensures { IfOk result (λ text. string_bytes text ≡ texts_of (cells_left cells.entry)) }
{
    let mut text = String::new(alloc);
    for cell in cells {
        text.push_str(cell.str())?;
    }
    Ok(text)
}

// Pushes the text of a cell, if it begins in the columns `from..to`.
fn push_within(
    text: &mut String,
    cell: CellRef<'_>,
    from: usize,
    to: usize,
) -> Result<(), AllocError>
    ensures { OnOk result (
        string_bytes text.new
        ≡ string_bytes text.old ++ text_within from to (indexed_cell cell.entry)) }
{
    let index = cell.cell_index();
    if from <= index && index < to {
        text.push_str(cell.str())?;
    }
    Ok(())
}
