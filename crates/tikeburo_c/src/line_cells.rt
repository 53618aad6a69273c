//! What lines of lists show: their visible cells at once.
ghost use Rattle.std.specs.Prelude.{◌≡◌, Some};
ghost use Rattle.termwiz_surface.specs.{visible};
ghost use Rattle.tikeburo_c.specs.Handles.{handle_value};
ghost use Rattle.tikeburo_c.specs.LineLists.{GivesLine};
ghost use Rattle.tikeburo_c.specs.Outcomes.{Reports};
ghost use Rattle.tikeburo_c.specs.Results.{OrNoMemory, ReadsLines};
ghost use Rattle.tikeburo_c.specs.Rows as rows;
ghost use Rattle.tikeburo_c.specs.Rows.{GivesParts, RowPlace, row_value};

use crate::failure::{Failure, status};
use crate::fields::AttributeFields;
use crate::handle::Handle;
use crate::kept::Kept;
use crate::row_parts::{RowCellFields, RowCounts};
use crate::rows::give_stored;
use std::alloc::Global;
use termwiz_surface::Line;
use termwiz_surface::change::SEQ_ZERO;

// Gives the visible cells of a line that is stored as one text, from a copy.
fn give_compressed(
    line: &Line,
    cells: &mut [RowCellFields],
    attributes: &mut [AttributeFields],
    text: &mut [u8],
    counts: &mut RowCounts,
) -> Result<(), Failure>
    ensures { OrNoMemory (GivesParts (row_value (visible line.now.cells)))
        (rows.row_place cells.old attributes.old text.old counts.old) result
        (rows.row_place cells.new attributes.new text.new counts.new) }
{
    let copy = line.resized(line.len(), SEQ_ZERO)?;
    give_stored(copy.vector_cells(), cells, attributes, text, counts)
}

fn give_line(
    line: &Line,
    cells: &mut [RowCellFields],
    attributes: &mut [AttributeFields],
    text: &mut [u8],
    counts: &mut RowCounts,
) -> Result<(), Failure>
    ensures { OrNoMemory (GivesParts (row_value (visible line.now.cells)))
        (rows.row_place cells.old attributes.old text.old counts.old) result
        (rows.row_place cells.new attributes.new text.new counts.new) }
{
    match line.stored_cells() {
        Some(stored) => give_stored(stored, cells, attributes, text, counts),
        None => give_compressed(line, cells, attributes, text, counts),
    }
}

fn give_line_at(
    kept: &Kept,
    index: usize,
    cells: &mut [RowCellFields],
    attributes: &mut [AttributeFields],
    text: &mut [u8],
    counts: &mut RowCounts,
) -> Result<(), Failure>
    ensures { ReadsLines {B = RowPlace} (GivesLine index) (Some kept.now)
        (rows.row_place cells.old attributes.old text.old counts.old) result
        (rows.row_place cells.new attributes.new text.new counts.new) }
{
    let list = kept.lines()?;
    let line = list.line_at(index)?;
    give_line(line, cells, attributes, text, counts)
}

/// The visible cells of a line, as `tk_row_cells` has those of a row.
#[unsafe(no_mangle)]
pub extern "C" fn tk_line_cells(
    alloc: Global,
    handle: &mut Handle,
    index: usize,
    cells: &mut [RowCellFields],
    attributes: &mut [AttributeFields],
    text: &mut [u8],
    counts: &mut RowCounts,
) -> i32
    ensures read { Reports result (λ outcome.
        ReadsLines {B = RowPlace} (GivesLine index) (handle_value handle.old)
        (rows.row_place cells.old attributes.old text.old counts.old)
        outcome (rows.row_place cells.new attributes.new text.new counts.new)) }
    ensures same { handle_value handle.new ≡ handle_value handle.old }
{
    let outcome = match handle.take(alloc) {
        Some(kept) => {
            let outcome = give_line_at(&kept, index, cells, attributes, text, counts);
            handle.put(alloc, kept);
            outcome
        }
        None => Err(Failure::NoHandle),
    };
    status(outcome)
}
