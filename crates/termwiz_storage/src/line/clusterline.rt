//! Cells stored as one text.
ghost use Rattle.std.specs.Prelude.{◌≡◌, ◌+◌, ◌++◌, ◌∷◌, ◌<◌, ◌≤◌, ◌↔◌, [], OnErr, string_capacity};
ghost use Rattle.termwiz_storage.specs.{ArePlain, HasByteCells, IfOk, IfSome, IsKept, IsOfCell};
ghost use Rattle.termwiz_storage.specs.{IsSome, IsTrue, IsWhole, None, OnOk, Some, YieldsCell};
ghost use Rattle.termwiz_storage.specs.{blank, cell_at, cell_len, clean, default_attributes, half};
ghost use Rattle.termwiz_storage.specs.{first_texts, is_linked, item_count, last_attrs, last_or};
ghost use Rattle.termwiz_storage.specs.{length, list_any, option_copied, option_map, ref_cell};
ghost use Rattle.termwiz_storage.specs.{ref_index, set_last_wrapped, string_bytes, string_len};
ghost use Rattle.termwiz_storage.specs.{take, texts_of, true, visible, with_half, with_wrapped};

mod joined;
mod run_lists;
mod runs;

use crate::line::cellref::CellRef;
use crate::line::vecstorage::{hides_next, plain_byte, push_with_half, set_wrapped};
use run_lists::{
    AttrsIter, ShapeIter, attrs_at, cell_count, has_link, own_links, push_attrs, push_shape,
    wrap_last,
};
use runs::{AttrsRun, Shape, ShapeRun};
use std::alloc::{AllocError, Global};
use std::marker::Model;
use termwiz_cell::cell::{Cell, CellAttributes};
use termwiz_cell::hyperlink::LinkCopies;

/// The cells of a line as one text, with runs of equal shapes and runs of equal attributes. Where
/// adjacent cells have equal shapes and attributes it takes far less memory than a vector of cells.
///
/// Its value is a list of stored cells, in which each wide cell is followed by its half, a blank
/// with its attributes.
#[derive(Drop, Debug)]
pub struct ClusteredLine {
    text: String,
    shapes: Vec<ShapeRun>,
    attrs: Vec<AttrsRun>,
    len: usize,
}

impl Model for ClusteredLine {
    ghost use Rattle.std.specs.Prelude.{List, string_bytes};
    ghost use Rattle.termwiz_cell.specs.CellValue.{CellValue};
    ghost use Rattle.termwiz_storage.specs.CellRuns.{attrs_of, shapes_of};
    ghost use Rattle.termwiz_storage.specs.Clustered.{IsClusteredText, cells_from};

    ghost Value = { List CellValue };

    ghost view = { λ s.
        cells_from (string_bytes s.text) (shapes_of s.shapes.items) (attrs_of s.attrs.items) };

    ghost invariant = { λ s.
        IsClusteredText (string_bytes s.text) (shapes_of s.shapes.items) (attrs_of s.attrs.items)
        s.len };
}

impl ClusteredLine {
    /// No cells.
    pub fn new(alloc: Global) -> ClusteredLine
        ensures { result ≡ [] }
    {
        ClusteredLine {
            text: String::new(alloc),
            shapes: Vec::new(alloc),
            attrs: Vec::new(alloc),
            len: 0,
        }
    }

    /// The line of these stored cells, or `None` where a hidden cell isn't a blank with the
    /// attributes of the cell that hides it, or where the last visible cell is wide and lacks its
    /// half.
    pub fn from_cells(alloc: Global, cells: &[Cell]) -> Result<Option<ClusteredLine>, AllocError>
        ensures some { IfOk result (λ line. IsSome line ↔ IsWhole cells.now) }
        ensures value { IfOk result (λ line. IfSome line (λ line. line ≡ cells.now)) }
    {
        if !is_whole(cells) {
            return Ok(None);
        }
        let mut line = ClusteredLine::new(alloc);
        // Each visible cell has at least one byte.
        line.text.reserve(cells.len())?;
        let mut rest = cells;
        'runs: while !rest.is_empty() {
            rest = line.append_first(rest)?;
        }
        line.shrink_to_fit();
        Ok(Some(line))
    }

    /// How many cells are stored, the halves of wide ones included.
    pub fn len(&self) -> usize
        ensures len { result ≡ length self.now }
        ensures whole { IsWhole self.now }
    {
        self.len
    }

    /// Whether no cell is stored.
    pub fn is_empty(&self) -> bool
        ensures { IsTrue result ↔ (self.now ≡ []) }
    {
        self.len == 0
    }

    /// The attributes of the last visible cell, if any.
    pub(super) fn last_attrs(&self) -> Option<&CellAttributes>
        ensures { option_copied result ≡ last_attrs (visible self.now) }
    {
        let run = self.attrs.last()?;
        Some(&run.attrs)
    }

    /// The number of cells without the visible default blanks that end the list.
    pub(super) fn kept_len(&self) -> usize
        ensures { IsKept self.now result }
    {
        if self.ends_default() && self.ends_with_space() {
            return self.walked_len();
        }
        self.len
    }

    // Whether the last visible cell has default attributes.
    fn ends_default(&self) -> bool
        ensures { IsTrue result ↔ (last_attrs (visible self.now) ≡ Some default_attributes) }
    {
        match self.last_attrs() {
            Some(attrs) => attrs.is_blank(),
            None => false,
        }
    }

    // Whether the text ends with a space.
    fn ends_with_space(&self) -> bool
        ensures { IsTrue result ↔ (last_or None (texts_of (visible self.now)) ≡ Some 32) }
    {
        match self.text().as_bytes().last() {
            Some(byte) => *byte == b' ',
            None => false,
        }
    }

    // The column after the last visible cell that isn't a default blank.
    fn walked_len(&self) -> usize
        ensures { IsKept self.now result }
    {
        let mut kept = 0;
        for cell in self.iter() {
            if !cell.is_blank() {
                kept = cell.cell_index().saturating_add(cell.width());
            }
        }
        kept.min(self.len)
    }

    /// The visible cell that begins at a column, if any.
    pub(super) fn get_cell(&self, i: usize) -> Option<CellRef<'_>>
        ensures cell { option_map ref_cell result ≡ cell_at (visible self.now) i }
        ensures index { IfSome result (λ cell. ref_index cell ≡ i) }
        ensures of_cell { IfSome result IsOfCell }
    {
        if !self.has_byte_cells() {
            return self.walked_cell(i);
        }
        let attrs = attrs_at(&self.attrs, i)?;
        let (_, rest) = self.text.as_str().split_at(i);
        let (text, _) = rest.split_at(1);
        Some(CellRef::ClusterRef {
            cell_index: i,
            text,
            width: 1,
            attrs,
        })
    }

    // Whether each cell takes one byte of the text, and one column.
    fn has_byte_cells(&self) -> bool
        ensures { IsTrue result ↔ HasByteCells self.now }
    {
        self.text().len() == self.len && cell_count(&self.shapes) == self.len
    }

    // The visible cell that begins at a column, found by a walk.
    fn walked_cell(&self, i: usize) -> Option<CellRef<'_>>
        ensures cell { option_map ref_cell result ≡ cell_at (visible self.now) i }
        ensures index { IfSome result (λ cell. ref_index cell ≡ i) }
        ensures of_cell { IfSome result IsOfCell }
    {
        for cell in self.iter() {
            if cell.cell_index() == i {
                return Some(cell);
            }
        }
        None
    }

    /// Gives the cells links of their own. The list stays as it is, even after an error.
    pub(super) fn own_links(
        &mut self,
        alloc: Global,
        copies: &mut LinkCopies,
    ) -> Result<(), AllocError>
        ensures { self.new ≡ self.old }
    {
        own_links(alloc, &mut self.attrs, copies)
    }

    /// Whether a stored cell has a link.
    pub(super) fn has_hyperlink(&self) -> bool
        ensures { result ≡ list_any is_linked self.now }
    {
        has_link(&self.attrs)
    }

    // Frees the memory that is reserved for more cells.
    fn shrink_to_fit(&mut self)
        ensures { self.new ≡ self.old }
    {
        self.text.shrink_to_fit();
        self.shapes.shrink_to_fit();
        self.attrs.shrink_to_fit();
    }

    /// Appends a cell, and the half of a wide one. An error leaves the line unchanged.
    pub fn append(&mut self, cell: &Cell) -> Result<(), AllocError>
        ensures ok { OnOk result (self.new ≡ self.old ++ with_half cell.now) }
        ensures err { OnErr result (self.new ≡ self.old) }
    {
        self.append_clean(cell.str(), cell.width() > 1, cell.attrs())?;
        Ok(())
    }

    // Appends a run of plain cells, or else one cell and its half, and returns the rest.
    fn append_first<'a>(&mut self, cells: &'a [Cell]) -> Result<&'a [Cell], AllocError>
        requires some { 0 < length cells.now }
        requires whole { IsWhole cells.now }
        ensures same { IfOk result (λ rest. self.new ++ rest.now ≡ self.old ++ cells.now) }
        ensures whole { IfOk result (λ rest. IsWhole rest.now) }
        ensures shorter { IfOk result (λ rest. length rest.now < length cells.now) }
    {
        let first = &cells[0];
        let count = self.append_run(cells, first.attrs())?;
        if count > 0 {
            return Ok(&cells[count..]);
        }
        self.append(first)?;
        Ok(&cells[first.width()..])
    }

    // Appends the leading cells that are plain and have these attributes, at most 65,535, and
    // returns their number.
    fn append_run(&mut self, cells: &[Cell], attrs: &CellAttributes) -> Result<usize, AllocError>
        requires { 0 < length cells.now }
        ensures within { IfOk result (λ count. count ≤ length cells.now) }
        ensures plain { IfOk result (λ count. ArePlain attrs.now (take count cells.now)) }
        ensures ok { IfOk result (λ count. self.new ≡ self.old ++ take count cells.now) }
        ensures err { OnErr result (self.new ≡ self.old) }
    {
        if cells[0].width() > 1 {
            return Ok(0);
        }
        let most = cells
            .len()
            .min(u16::MAX as usize)
            .min(usize::MAX - self.len);
        self.shapes.reserve(1)?;
        self.text.reserve(most)?;
        let end = self.text.len();
        let count = push_plain(&mut self.text, &cells[..most], attrs);
        if count == 0 {
            return Ok(0);
        }
        if let Err(error) = push_attrs(&mut self.attrs, attrs, count as u16) {
            // The texts that were appended are removed.
            self.text.truncate(end);
            return Err(error);
        }
        push_shape(&mut self.shapes, one_char(false), count as u16);
        self.len += count;
        Ok(count)
    }

    // What can fail comes first, so that an error leaves the line unchanged.
    fn append_clean(
        &mut self,
        text: &str,
        wide: bool,
        attrs: &CellAttributes,
    ) -> Result<(), AllocError>
        requires { clean text.now ≡ text.now }
        ensures ok { OnOk result (
            self.new ≡ self.old
            ++ with_half (record { text = text.now; wide = wide; attrs = attrs.now })) }
        ensures err { OnErr result (self.new ≡ self.old) }
    {
        let width = if wide { 2 } else { 1 };
        if width > usize::MAX - self.len {
            return Err(AllocError);
        }
        let len = self.len + width;
        self.shapes.reserve(1)?;
        self.text.reserve(text.len())?;
        push_attrs(&mut self.attrs, attrs, 1)?;
        push_shape(&mut self.shapes, shape_of(text, wide), 1);
        push_text(&mut self.text, text);
        self.len = len;
        Ok(())
    }

    /// Sets whether the last visible cell, and its half, are marked as wrapped. To an empty list a
    /// default blank is first appended. An error leaves the line unchanged.
    pub fn set_last_cell_was_wrapped(&mut self, wrapped: bool) -> Result<(), AllocError>
        ensures ok { OnOk result (self.new ≡ set_last_wrapped wrapped self.old) }
        ensures err { OnErr result (self.new ≡ self.old) }
    {
        if self.len == 0 {
            return self.append_marked(wrapped);
        }
        self.attrs.reserve(1)?;
        wrap_last(&mut self.attrs, wrapped)?;
        Ok(())
    }

    // Appends a blank with this wrapped mark.
    fn append_marked(&mut self, wrapped: bool) -> Result<(), AllocError>
        ensures ok { OnOk result (self.new ≡ self.old ++ with_wrapped wrapped blank ∷ []) }
        ensures err { OnErr result (self.new ≡ self.old) }
    {
        let mut attrs = CellAttributes::blank();
        set_wrapped(&mut attrs, wrapped);
        self.append(&Cell::blank_with_attrs(attrs))
    }

    /// The texts of the visible cells, concatenated.
    pub fn text(&self) -> &str
        ensures { result.now ≡ texts_of (visible self.now) }
    {
        self.text.as_str()
    }

    /// The visible cells, in order.
    pub fn iter(&self) -> ClusterLineIter<'_>
        ensures { result ≡ visible self.now }
    {
        ClusterLineIter {
            text: self.text.as_str(),
            shapes: ShapeIter::new(&self.shapes),
            attrs: AttrsIter::new(&self.attrs),
            idx: 0,
        }
    }

    /// The stored cells, each wide one with its half.
    pub fn to_cells(&self) -> Result<Vec<Cell>, AllocError>
        ensures { IfOk result (λ cells. cells.items ≡ self.now) }
    {
        let alloc = *self.text.allocator();
        let mut cells = Vec::new(alloc);
        for cell in self.iter() {
            push_with_half(&mut cells, cell.to_cell(alloc)?)?;
        }
        Ok(cells)
    }
}

/// Whether each hidden cell is the half of the one that hides it, and no visible wide cell lacks
/// its half.
pub(super) fn is_whole(cells: &[Cell]) -> bool
    ensures { IsTrue result ↔ IsWhole cells.now }
{
    let mut hidden = false;
    for i in 0..cells.len() {
        if hidden && !is_half_of(&cells[i], &cells[i - 1]) {
            return false;
        }
        hidden = hides_next(&cells[i], hidden);
    }
    !hidden
}

fn is_half_of(cell: &Cell, wide: &Cell) -> bool
    ensures { IsTrue result ↔ (cell.now ≡ half wide.now) }
{
    cell.width() == 1 && matches!(cell.str().as_bytes(), b" ") && *cell.attrs() == *wide.attrs()
}

// Appends the texts of the leading cells that are plain and have these attributes, and returns
// their number. The text has room for all.
fn push_plain(text: &mut String, cells: &[Cell], attrs: &CellAttributes) -> usize
    requires { string_len text.old + length cells.now ≤ string_capacity text.old }
    ensures within { result ≤ length cells.now }
    ensures plain { ArePlain attrs.now (take result cells.now) }
    ensures bytes { string_bytes text.new ≡ string_bytes text.old ++ first_texts result cells.now }
{
    for i in 0..cells.len() {
        let Some(byte) = plain_byte(&cells[i], attrs) else {
            return i;
        };
        text.push(byte as char).unwrap();
    }
    cells.len()
}

// Appends to a text that has room. A character of ASCII is appended without a call.
fn push_text(text: &mut String, more: &str)
    requires { string_len text.old + length more.now ≤ string_capacity text.old }
    ensures { string_bytes text.new ≡ string_bytes text.old ++ more.now }
{
    match more.as_bytes() {
        [byte] if *byte < 128 => text.push(*byte as char).unwrap(),
        _ => text.push_str(more).unwrap(),
    }
}

// How many bytes the first cell of a text has.
fn cell_len(shape: Shape, text: &str) -> usize
    ensures { result ≡ cell_len shape text.now }
{
    if !shape.one_char {
        return shape.bytes;
    }
    match text.as_bytes().first().copied().unwrap_or(0) {
        0..128 => 1,
        128..224 => 2,
        224..240 => 3,
        _ => 4,
    }
}

// The shape of a cell of one character.
fn one_char(wide: bool) -> Shape
    ensures { result ≡ record { bytes = 0; one_char = true; wide = wide } }
{
    Shape {
        bytes: 0,
        one_char: true,
        wide,
    }
}

// The shape of a cell of this text.
fn shape_of(text: &str, wide: bool) -> Shape
    ensures len { cell_len result text.now ≡ length text.now }
    ensures wide { result.wide ≡ wide }
{
    let one_char = one_char(wide);
    if cell_len(one_char, text) == text.len() {
        one_char
    } else {
        Shape {
            bytes: text.len(),
            one_char: false,
            wide,
        }
    }
}

impl Clone for ClusteredLine {
    ghost is_clone = { λ a b. b ≡ a };

    fn clone(&self) -> Result<ClusteredLine, AllocError> {
        let text = self.text.clone()?;
        let shapes = self.shapes.clone()?;
        let attrs = self.attrs.clone()?;
        Ok(ClusteredLine {
            text,
            shapes,
            attrs,
            len: self.len,
        })
    }
}

/// The visible cells of a list that is stored as one text, in order.
#[derive(Drop)]
pub struct ClusterLineIter<'a> {
    text: &'a str,
    shapes: ShapeIter<'a>,
    attrs: AttrsIter<'a>,
    idx: usize,
}

impl<'a> Model for ClusterLineIter<'a> {
    ghost use Rattle.std.specs.Prelude.{◌+◌, ◌^◌, ◌<◌, List, length, ℕ};
    ghost use Rattle.termwiz_storage.specs.Clustered.{IsStepping, shown_cells};
    ghost use Rattle.termwiz_storage.specs.VisibleCell.{VisibleCell};

    ghost Value = { List VisibleCell };

    ghost view = { λ s. shown_cells s.idx s.text.now s.shapes s.attrs };

    ghost invariant = { λ s. IsStepping s.text.now s.shapes s.attrs s.idx };
}

impl<'a> Iterator for ClusterLineIter<'a> {
    type Item = CellRef<'a>;

    ghost next_gives = { YieldsCell (λ s. s) };

    ghost remaining = { item_count (λ s. s) };

    fn next(&mut self) -> Option<CellRef<'a>> {
        let shape = self.shapes.next()?;
        let attrs = self.attrs.next()?;
        let bytes = cell_len(shape, self.text);
        let (text, rest) = self.text.split_at(bytes);
        let cell_index = self.idx;
        let width = if shape.wide { 2 } else { 1 };
        self.text = rest;
        self.idx += width;
        Some(CellRef::ClusterRef {
            cell_index,
            text,
            width,
            attrs,
        })
    }
}
