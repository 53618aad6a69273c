//! Whole rows: their visible cells at once.
ghost use Rattle.std.specs.Prelude.{◌≡◌, ◌≤◌, ◌<◌, ◌+◌, ◌^◌, ◌++◌, IfErr, IfOk, None, Some, length};
ghost use Rattle.std.specs.Prelude.{slice_get};
ghost use Rattle.termwiz_line.specs.Row.{row_of, visible_upto};
ghost use Rattle.termwiz_screen.specs.{IsPaddable};
ghost use Rattle.termwiz_surface.specs.{visible};
ghost use Rattle.tikeburo_c.specs.Handles.{handle_value};
ghost use Rattle.tikeburo_c.specs.Outcomes.{Reports};
ghost use Rattle.tikeburo_c.specs.Results.{OrNoMemory, ReadsInto};
ghost use Rattle.tikeburo_c.specs.Rows as rows;
ghost use Rattle.tikeburo_c.specs.Rows.{GivesCells, GivesParts, GivesShown, RowPlace, at_front};
ghost use Rattle.tikeburo_c.specs.Rows.{blanks_at, counts_of, row_value};
ghost use Rattle.tikeburo_c.specs.declared.failure.Failure.TheVariants.{Range};

use crate::failure::{Failure, status};
use crate::fields::AttributeFields;
use crate::handle::Handle;
use crate::kept::Kept;
use crate::row_parts::{RowCellFields, RowCounts, count_parts, have_room, write_parts};
use crate::shown_cells::ShownCells;
use crate::widths::ChosenWidths;
use std::alloc::Global;
use termwiz_surface::{Cell, Surface};

/// Copies the items to the front of an array that has room for them.
pub(crate) fn put_front<T: Copy>(items: &[T], room: &mut [T])
    requires { length items.now ≤ length room.old }
    ensures { room.new ≡ at_front items.now room.old }
{
    room[..items.len()].copy_from_slice(items);
}

// Gives these cells, whose counts are `needed`.
fn give_counted(
    needed: RowCounts,
    shown: ShownCells<'_>,
    cells: &mut [RowCellFields],
    attributes: &mut [AttributeFields],
    text: &mut [u8],
    counts: &mut RowCounts,
) -> Result<(), Failure>
    requires { needed ≡ counts_of (row_value shown) }
    ensures { GivesParts (row_value shown.entry)
        (rows.row_place cells.old attributes.old text.old counts.old) result
        (rows.row_place cells.new attributes.new text.new counts.new) }
{
    if needed.cells > cells.len()
        || (needed.attributes > attributes.len() || needed.text > text.len())
    {
        *counts = needed;
        return Err(Failure::Short);
    }
    *counts = write_parts(shown, cells, attributes, text);
    Ok(())
}

// Gives the visible ones of these stored cells, and `blanks` blank ones after them.
#[tactic(auto, using(crate::proofs::ShownRow::are_few))]
fn give_parts(
    stored: &[Cell],
    blanks: usize,
    cells: &mut [RowCellFields],
    attributes: &mut [AttributeFields],
    text: &mut [u8],
    counts: &mut RowCounts,
) -> Result<(), Failure>
    requires { length stored.now + blanks < 2 ^ 64 }
    ensures { OrNoMemory (GivesParts
        (row_value (visible stored.now ++ blanks_at (length stored.now) blanks)))
        (rows.row_place cells.old attributes.old text.old counts.old) result
        (rows.row_place cells.new attributes.new text.new counts.new) }
{
    let blank = Cell::blank();
    if have_room(stored, blanks, cells.len(), attributes.len(), text.len()) {
        let shown = ShownCells::new(stored, blanks, &blank);
        *counts = write_parts(shown, cells, attributes, text);
        return Ok(());
    }
    let Some(needed) = count_parts(ShownCells::new(stored, blanks, &blank)) else {
        return Err(Failure::Memory);
    };
    let shown = ShownCells::new(stored, blanks, &blank);
    give_counted(needed, shown, cells, attributes, text, counts)
}

/// Gives the visible ones of these stored cells.
pub(crate) fn give_stored(
    stored: &[Cell],
    cells: &mut [RowCellFields],
    attributes: &mut [AttributeFields],
    text: &mut [u8],
    counts: &mut RowCounts,
) -> Result<(), Failure>
    ensures { OrNoMemory (GivesParts (row_value (visible stored.now)))
        (rows.row_place cells.old attributes.old text.old counts.old) result
        (rows.row_place cells.new attributes.new text.new counts.new) }
{
    give_parts(stored, 0, cells, attributes, text, counts)
}

// Gives the visible cells of the row of this width.
fn give_filled(
    stored: &[Cell],
    width: usize,
    cells: &mut [RowCellFields],
    attributes: &mut [AttributeFields],
    text: &mut [u8],
    counts: &mut RowCounts,
) -> Result<(), Failure>
    requires { IsPaddable width stored.now }
    ensures { OrNoMemory (GivesParts (row_value (visible_upto (row_of width stored.now) width)))
        (rows.row_place cells.old attributes.old text.old counts.old) result
        (rows.row_place cells.new attributes.new text.new counts.new) }
{
    give_parts(
        stored,
        width - stored.len(),
        cells,
        attributes,
        text,
        counts,
    )
}

// The stored cells of the row at this index from the top, if there is one.
fn stored_at<'a>(surface: &'a Surface<ChosenWidths>, row: usize) -> Result<&'a [Cell], Failure>
    ensures found { IfOk result (λ stored. slice_get surface.now.lines row ≡ Some stored.now) }
    ensures missing { IfErr result (λ failure.
        (failure ≡ Range) × (slice_get surface.now.lines row ≡ None)) }
{
    match surface.row_cells(row) {
        Some(stored) => Ok(stored),
        None => Err(Failure::Range),
    }
}

fn give_cells(
    kept: &Kept,
    row: usize,
    cells: &mut [RowCellFields],
    attributes: &mut [AttributeFields],
    text: &mut [u8],
    counts: &mut RowCounts,
) -> Result<(), Failure>
    ensures { ReadsInto {B = RowPlace} (GivesCells row) (Some kept.now)
        (rows.row_place cells.old attributes.old text.old counts.old) result
        (rows.row_place cells.new attributes.new text.new counts.new) }
{
    let surface = kept.shown()?;
    let stored = stored_at(surface, row)?;
    give_stored(stored, cells, attributes, text, counts)
}

#[tactic(auto, using(crate::proofs::ShownRow::is_paddable, crate::proofs::ShownRow::shows_none))]
fn give_shown(
    surface: &Surface<ChosenWidths>,
    row: usize,
    cells: &mut [RowCellFields],
    attributes: &mut [AttributeFields],
    text: &mut [u8],
    counts: &mut RowCounts,
) -> Result<(), Failure>
    ensures { GivesShown row surface.now
        (rows.row_place cells.old attributes.old text.old counts.old) result
        (rows.row_place cells.new attributes.new text.new counts.new) }
{
    let (width, _) = surface.dimensions();
    let stored = stored_at(surface, row)?;
    give_filled(stored, width, cells, attributes, text, counts)
}

fn give_shown_of(
    kept: &Kept,
    row: usize,
    cells: &mut [RowCellFields],
    attributes: &mut [AttributeFields],
    text: &mut [u8],
    counts: &mut RowCounts,
) -> Result<(), Failure>
    ensures { ReadsInto {B = RowPlace} (GivesShown row) (Some kept.now)
        (rows.row_place cells.old attributes.old text.old counts.old) result
        (rows.row_place cells.new attributes.new text.new counts.new) }
{
    let surface = kept.shown()?;
    give_shown(surface, row, cells, attributes, text, counts)
}

/// The visible cells of a row within its stored length, the attributes of each run of cells that
/// have the same ones, and the texts, one after another.
#[unsafe(no_mangle)]
pub extern "C" fn tk_row_cells(
    alloc: Global,
    handle: &mut Handle,
    row: usize,
    cells: &mut [RowCellFields],
    attributes: &mut [AttributeFields],
    text: &mut [u8],
    counts: &mut RowCounts,
) -> i32
    ensures read { Reports result (λ outcome.
        ReadsInto {B = RowPlace} (GivesCells row) (handle_value handle.old)
        (rows.row_place cells.old attributes.old text.old counts.old)
        outcome (rows.row_place cells.new attributes.new text.new counts.new)) }
    ensures same { handle_value handle.new ≡ handle_value handle.old }
{
    let outcome = match handle.take(alloc) {
        Some(kept) => {
            let outcome = give_cells(&kept, row, cells, attributes, text, counts);
            handle.put(alloc, kept);
            outcome
        }
        None => Err(Failure::NoHandle),
    };
    status(outcome)
}

/// The visible cells that a row shows in all columns of the width: blank ones stand after those
/// that are stored. Attributes and texts are given as by `tk_row_cells`.
#[unsafe(no_mangle)]
pub extern "C" fn tk_shown_cells(
    alloc: Global,
    handle: &mut Handle,
    row: usize,
    cells: &mut [RowCellFields],
    attributes: &mut [AttributeFields],
    text: &mut [u8],
    counts: &mut RowCounts,
) -> i32
    ensures read { Reports result (λ outcome.
        ReadsInto {B = RowPlace} (GivesShown row) (handle_value handle.old)
        (rows.row_place cells.old attributes.old text.old counts.old)
        outcome (rows.row_place cells.new attributes.new text.new counts.new)) }
    ensures same { handle_value handle.new ≡ handle_value handle.old }
{
    let outcome = match handle.take(alloc) {
        Some(kept) => {
            let outcome = give_shown_of(&kept, row, cells, attributes, text, counts);
            handle.put(alloc, kept);
            outcome
        }
        None => Err(Failure::NoHandle),
    };
    status(outcome)
}
