//! Rows and their cells, one by one.
ghost use Rattle.std.specs.Prelude.{◌≡◌, ◌⊎◌, IfErr, IfOk, None, Some, false, slice_get, true};
ghost use Rattle.termwiz_cell.specs.CellValue as cell_value;
ghost use Rattle.termwiz_surface.specs.{texts_of, visible};
ghost use Rattle.tikeburo_c.specs.Cells.{CellPlace, GivesCell, GivesLink, GivesRow, cell_in};
ghost use Rattle.tikeburo_c.specs.Cells.{ReadsLine, uri_of};
ghost use Rattle.tikeburo_c.specs.Handles.{handle_value};
ghost use Rattle.tikeburo_c.specs.Outcomes.{Reports};
ghost use Rattle.tikeburo_c.specs.Results.{GivesInto, OrNoMemory, ReadsInto};
ghost use Rattle.tikeburo_c.specs.declared.failure.Failure.TheVariants.{Memory, Range};

use crate::access::fill;
use crate::buffers::give;
use crate::failure::{Failure, status};
use crate::fields::{CellFields, cell_fields};
use crate::handle::Handle;
use crate::kept::Kept;
use crate::widths::ChosenWidths;
use std::alloc::Global;
use termwiz_screen::full::attribute_of;
use termwiz_surface::change::SEQ_ZERO;
use termwiz_surface::{Cell, CellAttributes, Line, Surface};

fn give_line(line: &Line, room: &mut [u8], len: &mut usize) -> Result<(), Failure>
    ensures { OrNoMemory (GivesInto (texts_of (visible line.now.cells)))
        (room.old, len.old) result (room.new, len.new) }
{
    let text = line.as_str()?;
    give(text.as_str().as_bytes(), room, len)
}

/// The row at this index from the top, if there is one.
pub(crate) fn line_at<'a>(
    surface: &'a Surface<ChosenWidths>,
    row: usize,
) -> Result<&'a Line, Failure>
    ensures found { IfOk result (λ line.
        slice_get surface.now.lines row ≡ Some line.now.cells) }
    ensures missing { IfErr result (λ failure.
        (failure ≡ Range) × (slice_get surface.now.lines row ≡ None)) }
    ensures flags { IfOk result (λ line.
        slice_get surface.now.flags row ≡ Some line.now.flags) }
    ensures no_flags { IfErr result (λ _. slice_get surface.now.flags row ≡ None) }
{
    match surface.screen_line(row) {
        Some(line) => Ok(line),
        None => Err(Failure::Range),
    }
}

// Gives the texts of a row's visible cells within its stored length.
fn give_stored(
    surface: &Surface<ChosenWidths>,
    row: usize,
    room: &mut [u8],
    len: &mut usize,
) -> Result<(), Failure>
    ensures { OrNoMemory (GivesRow false row surface.now)
        (room.old, len.old) result (room.new, len.new) }
{
    let line = line_at(surface, row)?;
    give_line(line, room, len)
}

// Gives the texts of the visible cells that a row shows in all columns of the width.
fn give_filled(
    surface: &Surface<ChosenWidths>,
    row: usize,
    room: &mut [u8],
    len: &mut usize,
) -> Result<(), Failure>
    ensures { OrNoMemory (GivesRow true row surface.now)
        (room.old, len.old) result (room.new, len.new) }
{
    let (width, _) = surface.dimensions();
    let line = line_at(surface, row)?;
    let filled = line.resized(width, SEQ_ZERO)?;
    give_line(&filled, room, len)
}

fn give_row(
    surface: &Surface<ChosenWidths>,
    row: usize,
    filled: bool,
    room: &mut [u8],
    len: &mut usize,
) -> Result<(), Failure>
    ensures { OrNoMemory (GivesRow filled row surface.now)
        (room.old, len.old) result (room.new, len.new) }
{
    if filled {
        give_filled(surface, row, room, len)
    } else {
        give_stored(surface, row, room, len)
    }
}

/// The texts of a row's visible cells within its stored length, or, where it is to be filled, in
/// all columns of the width.
#[unsafe(no_mangle)]
pub extern "C" fn tk_row_text(
    alloc: Global,
    handle: &mut Handle,
    row: usize,
    filled: bool,
    room: &mut [u8],
    len: &mut usize,
) -> i32
    ensures read { Reports result (λ outcome. ReadsInto (λ s. OrNoMemory (GivesRow filled row s))
        (handle_value handle.old) (room.old, len.old) outcome (room.new, len.new)) }
    ensures same { handle_value handle.new ≡ handle_value handle.old }
{
    let outcome = fill(alloc, handle, room, len, |surface, room, len| {
        give_row(surface, row, filled, room, len)
    });
    status(outcome)
}

fn read_attribute(kept: &Kept, row: usize, attribute: &mut u8) -> Result<(), Failure>
    ensures { ReadsInto (λ s. ReadsLine row s) (Some kept.now) attribute.old result attribute.new }
{
    let surface = kept.shown()?;
    let line = line_at(surface, row)?;
    *attribute = attribute_of(line).number();
    Ok(())
}

/// How large a row is shown, by its number.
#[unsafe(no_mangle)]
pub extern "C" fn tk_line_attribute(
    alloc: Global,
    handle: &mut Handle,
    row: usize,
    attribute: &mut u8,
) -> i32
    ensures read { Reports result (λ outcome. ReadsInto (λ s. ReadsLine row s)
        (handle_value handle.old) attribute.old outcome attribute.new) }
    ensures same { handle_value handle.new ≡ handle_value handle.old }
{
    let outcome = match handle.take(alloc) {
        Some(kept) => {
            let outcome = read_attribute(&kept, row, attribute);
            handle.put(alloc, kept);
            outcome
        }
        None => Err(Failure::NoHandle),
    };
    status(outcome)
}

fn give_cell(
    cell: &Cell,
    fields: &mut CellFields,
    room: &mut [u8],
    len: &mut usize,
) -> Result<(), Failure>
    ensures { GivesCell (Some cell.now)
        (fields.old, (room.old, len.old)) result (fields.new, (room.new, len.new)) }
{
    give(cell.str().as_bytes(), room, len)?;
    *fields = cell_fields(cell);
    Ok(())
}

/// The cell at a column of a row, or the blank one after the stored cells.
pub(crate) fn cell_at<'a>(
    surface: &'a Surface<ChosenWidths>,
    column: usize,
    row: usize,
    blank: &'a Cell,
) -> Result<&'a Cell, Failure>
    requires { blank.now ≡ cell_value.blank }
    ensures found { IfOk result (λ cell. cell_in column row surface.now ≡ Some cell.now) }
    ensures missing { IfErr result (λ failure.
        (failure ≡ Range) × (cell_in column row surface.now ≡ None)) }
{
    let Some(cells) = surface.row_cells(row) else {
        return Err(Failure::Range);
    };
    let (width, _) = surface.dimensions();
    if column >= width {
        return Err(Failure::Range);
    }
    match cells.get(column) {
        Some(cell) => Ok(cell),
        None => Ok(blank),
    }
}

fn read_cell(
    kept: &Kept,
    column: usize,
    row: usize,
    fields: &mut CellFields,
    room: &mut [u8],
    len: &mut usize,
) -> Result<(), Failure>
    ensures { ReadsInto {B = CellPlace} (λ s. GivesCell (cell_in column row s)) (Some kept.now)
        (fields.old, (room.old, len.old)) result (fields.new, (room.new, len.new)) }
{
    let blank = Cell::blank();
    let surface = kept.shown()?;
    let cell = cell_at(surface, column, row, &blank)?;
    give_cell(cell, fields, room, len)
}

/// The cell at a column of a row: its text into the buffer, and the rest into the struct.
#[unsafe(no_mangle)]
pub extern "C" fn tk_cell_at(
    alloc: Global,
    handle: &mut Handle,
    column: usize,
    row: usize,
    fields: &mut CellFields,
    room: &mut [u8],
    len: &mut usize,
) -> i32
    ensures read { Reports result (λ outcome.
        ReadsInto {B = CellPlace} (λ s. GivesCell (cell_in column row s))
        (handle_value handle.old) (fields.old, (room.old, len.old))
        outcome (fields.new, (room.new, len.new))) }
    ensures same { handle_value handle.new ≡ handle_value handle.old }
{
    let outcome = match handle.take(alloc) {
        Some(kept) => {
            let outcome = read_cell(&kept, column, row, fields, room, len);
            handle.put(alloc, kept);
            outcome
        }
        None => Err(Failure::NoHandle),
    };
    status(outcome)
}

/// The target of the attributes' link, or nothing.
pub(crate) fn uri_of(attrs: &CellAttributes) -> &str
    ensures { result.now ≡ uri_of attrs.now.hyperlink }
{
    match attrs.hyperlink() {
        Some(link) => link.uri(),
        None => "",
    }
}

fn read_link(
    surface: &Surface<ChosenWidths>,
    column: usize,
    row: usize,
    room: &mut [u8],
    len: &mut usize,
) -> Result<(), Failure>
    ensures { GivesLink (cell_in column row surface.now)
        (room.old, len.old) result (room.new, len.new) }
{
    let blank = Cell::blank();
    let cell = cell_at(surface, column, row, &blank)?;
    give(uri_of(cell.attrs()).as_bytes(), room, len)
}

/// The uri of the link that the cell at a column of a row has, or nothing.
#[unsafe(no_mangle)]
pub extern "C" fn tk_link_at(
    alloc: Global,
    handle: &mut Handle,
    column: usize,
    row: usize,
    room: &mut [u8],
    len: &mut usize,
) -> i32
    ensures read { Reports result (λ outcome.
        ReadsInto (λ s. GivesLink (cell_in column row s))
        (handle_value handle.old) (room.old, len.old) outcome (room.new, len.new)) }
    ensures same { handle_value handle.new ≡ handle_value handle.old }
{
    let outcome = fill(alloc, handle, room, len, |surface, room, len| {
        read_link(surface, column, row, room, len)
    });
    status(outcome)
}
