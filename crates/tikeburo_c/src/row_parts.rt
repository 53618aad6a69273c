//! What is read of a row at once.
ghost use Rattle.std.specs.Prelude.{◌≡◌, ◌≤◌, ◌<◌, ◌+◌, ◌^◌, ◌++◌, IfSome, IsTrue, length};
ghost use Rattle.std.specs.Prelude.{slice_set};
ghost use Rattle.std.specs.Option.{option_copied};
ghost use Rattle.termwiz_storage.specs.{IsOfCell, ref_cell, visible};
ghost use Rattle.termwiz_storage.specs.CellTexts.{cell_texts};
ghost use Rattle.tikeburo_c.specs.Rows as rows;
ghost use Rattle.tikeburo_c.specs.Rows.{at_front, blanks_at, counts_of, overwritten, row_value};

use crate::fields::{AttributeFields, attribute_fields};
use crate::shown_cells::ShownCells;
use termwiz_cell::cell::{Cell, CellAttributes};
use termwiz_storage::line::cellref::CellRef;

/// A visible cell of a row: where its text begins in the row's text, how long that is, and which
/// of the row's attributes it has.
#[repr(C)]
#[derive(Clone, Copy)]
pub struct RowCellFields {
    pub begin: usize,
    pub len: usize,
    pub run: usize,
    pub columns: u8,
    pub has_link: bool,
}

/// How many cells, attributes and bytes of text a row has.
#[repr(C)]
#[derive(Clone, Copy)]
pub struct RowCounts {
    pub cells: usize,
    pub attributes: usize,
    pub text: usize,
}

#[inline(always)]
fn row_cell(cell: &CellRef<'_>, begin: usize, run: usize) -> RowCellFields
    requires { IsOfCell cell.now }
    ensures { result ≡ rows.row_cell begin run (ref_cell cell.now) }
{
    RowCellFields {
        begin,
        len: cell.str().len(),
        run,
        columns: cell.width() as u8,
        has_link: cell.attrs().hyperlink().is_some(),
    }
}

// A cell of one column and one byte, in the run of this one.
#[inline(always)]
fn plain_cell(first: RowCellFields, begin: usize) -> RowCellFields
    ensures { result ≡ record first { begin = begin; len = 1; columns = 1 } }
{
    RowCellFields {
        begin,
        len: 1,
        columns: 1,
        ..first
    }
}

#[inline(always)]
fn begins(before: Option<&CellAttributes>, attrs: &CellAttributes) -> bool
    ensures { result ≡ rows.begins (option_copied before.entry) attrs.now }
{
    match before {
        Some(before) => *before != *attrs,
        None => true,
    }
}

// How many attributes, cells and bytes of text these cells have, where a number can say it.
#[tactic(auto, using(crate::proofs::RowParts::cells_count))]
pub(crate) fn count_parts(cells: ShownCells<'_>) -> Option<RowCounts>
    requires { length cells < 2 ^ 64 }
    ensures { IfSome result (λ counts. counts ≡ counts_of (row_value cells.entry)) }
{
    let mut counts = RowCounts {
        cells: 0,
        attributes: 0,
        text: 0,
    };
    let mut before = None;
    for cell in cells {
        let attrs = cell.attrs();
        if begins(before, attrs) {
            counts.attributes += 1;
        }
        counts.cells += 1;
        counts.text = counts.text.checked_add(cell.str().len())?;
        before = Some(attrs);
    }
    Some(counts)
}

// Writes the items from an index on.
fn put_items<T: Copy>(items: &[T], at: usize, room: &mut [T])
    requires { at + length items.now ≤ length room.old }
    ensures { room.new ≡ overwritten at items.now room.old }
{
    room[at..at + items.len()].copy_from_slice(items);
}

// Writes the bytes from an index on. Mostly there is one.
#[inline(always)]
fn put_bytes(bytes: &[u8], at: usize, room: &mut [u8])
    requires { at + length bytes.now ≤ length room.old }
    ensures { room.new ≡ overwritten at bytes.now room.old }
{
    match bytes {
        [byte] => room[at] = *byte,
        _ => put_items(bytes, at, room),
    }
}

// Writes the attributes that begin a run at this index, and returns the index of the next run.
#[inline(always)]
#[tactic(auto, using(crate::proofs::RowParts::run_begins, crate::proofs::RowParts::run_goes_on))]
fn put_run(
    before: Option<&CellAttributes>,
    attrs: &CellAttributes,
    at: usize,
    room: &mut [AttributeFields],
) -> usize
    requires { at + length (rows.begun (option_copied before) attrs.now) ≤ length room.old }
    ensures next { result ≡ at + length (rows.begun (option_copied before.entry) attrs.now) }
    ensures room { room.new
        ≡ overwritten at (rows.begun (option_copied before.entry) attrs.now) room.old }
{
    if begins(before, attrs) {
        room[at] = attribute_fields(attrs);
        return at + 1;
    }
    at
}

// Writes the cell at this index, and returns the next index.
#[inline(always)]
fn put_cell(cell: RowCellFields, at: usize, room: &mut [RowCellFields]) -> usize
    requires { at < length room.old }
    ensures next { result ≡ at + 1 }
    ensures room { room.new ≡ slice_set room.old at cell }
{
    room[at] = cell;
    at + 1
}

/// Writes what these cells have to the fronts of arrays that have room for it, and returns how much
/// that is.
pub(crate) fn write_parts(
    cells: ShownCells<'_>,
    row_cells: &mut [RowCellFields],
    attributes: &mut [AttributeFields],
    text: &mut [u8],
) -> RowCounts
    requires cells { length (row_value cells).cells ≤ length row_cells.old }
    requires attributes { length (row_value cells).attributes ≤ length attributes.old }
    requires text { length (row_value cells).text ≤ length text.old }
    ensures counts { result ≡ counts_of (row_value cells.entry) }
    ensures cells { row_cells.new ≡ at_front (row_value cells.entry).cells row_cells.old }
    ensures attributes { attributes.new
        ≡ at_front (row_value cells.entry).attributes attributes.old }
    ensures text { text.new ≡ at_front (row_value cells.entry).text text.old }
{
    let mut cells = cells;
    let mut written = 0;
    let mut runs = 0;
    let mut end = 0;
    let mut before = None;
    while let Some(cell) = cells.next() {
        let attrs = cell.attrs();
        runs = put_run(before, attrs, runs, attributes);
        let first = row_cell(&cell, end, runs.saturating_sub(1));
        written = put_cell(first, written, row_cells);
        let bytes = cell.str().as_bytes();
        put_bytes(bytes, end, text);
        end += bytes.len();
        // Of the plain cells after it in the same run only the bytes are read.
        let mut plain = 0;
        while let Some(byte) = cells.next_plain(attrs) {
            row_cells[written + plain] = plain_cell(first, end + plain);
            text[end + plain] = byte;
            plain += 1;
        }
        written += plain;
        end += plain;
        before = Some(attrs);
    }
    RowCounts {
        cells: written,
        attributes: runs,
        text: end,
    }
}

// Whether an array of this length has room for the texts of these cells, visible or not.
fn texts_fit(cells: &[Cell], room: usize) -> bool
    ensures { IsTrue result → length (cell_texts cells.now) ≤ room }
{
    let mut left = room;
    for cell in cells {
        let len = cell.str().len();
        if left < len {
            return false;
        }
        left -= len;
    }
    true
}

/// Whether arrays of these lengths have room for all that these stored cells and `blanks` blank
/// ones after them may need. Where they lack it, the row itself may still have room there.
#[tactic(auto, using(crate::proofs::RowNeeds::needs_cells, crate::proofs::RowNeeds::needs_attributes, crate::proofs::RowNeeds::needs_text))]
pub(crate) fn have_room(
    stored: &[Cell],
    blanks: usize,
    cells: usize,
    attributes: usize,
    text: usize,
) -> bool
    requires { length stored.now + blanks < 2 ^ 64 }
    ensures cells { IsTrue result →
        length (row_value (visible stored.now ++ blanks_at (length stored.now) blanks)).cells
        ≤ cells }
    ensures attributes { IsTrue result →
        length (row_value (visible stored.now ++ blanks_at (length stored.now) blanks)).attributes
        ≤ attributes }
    ensures text { IsTrue result →
        length (row_value (visible stored.now ++ blanks_at (length stored.now) blanks)).text
        ≤ text }
{
    let most = stored.len() + blanks;
    if cells < most || (attributes < most || text < blanks) {
        return false;
    }
    texts_fit(stored, text - blanks)
}
