//! Lines drawn on rows of surfaces.
ghost use Rattle.std.specs.Prelude.{◌≡◌, IfOk, Some, map};
ghost use Rattle.termwiz_cell.specs.ChangeValue.{change_value};
ghost use Rattle.termwiz_screen.specs.Diff.{restoring};
ghost use Rattle.tikeburo_c.specs.Handles.{handle_value};
ghost use Rattle.tikeburo_c.specs.LineDrawing.{DrawsFrom, DrawsLine, DrawsOne, IsDrawing};
ghost use Rattle.tikeburo_c.specs.Outcomes.{Reports};

use crate::access::on_surface;
use crate::changes::add_changes;
use crate::failure::{Failure, status};
use crate::handle::Handle;
use crate::kept::Kept;
use crate::line_list::LineList;
use crate::widths::ChosenWidths;
use std::alloc::{AllocError, Global};
use termwiz_cell::change::own_links;
use termwiz_cell::hyperlink::LinkCopies;
use termwiz_share::Source;
use termwiz_surface::{CellAttributes, Change, Line, Position, Surface};

// The changes, followed, where there are any, by a move and a pen that restore the cursor and the
// pen.
fn restored(
    mut changes: Vec<Change>,
    cursor: (usize, usize),
    pen: &CellAttributes,
) -> Result<Vec<Change>, AllocError>
    ensures { IfOk result (λ l. map change_value l.items
        ≡ restoring cursor.0 cursor.1 pen.now (map change_value changes.items)) }
{
    if changes.is_empty() {
        return Ok(changes);
    }
    changes.push(Change::CursorPosition {
        x: Position::Absolute(cursor.0),
        y: Position::Absolute(cursor.1),
    })?;
    changes.push(Change::AllAttributes(pen.clone()?))?;
    Ok(changes)
}

// The changes that draw a line on a row.
fn line_drawing(
    alloc: Global,
    surface: &Surface<ChosenWidths>,
    row: usize,
    line: &Line,
) -> Result<Vec<Change>, AllocError>
    ensures { IfOk result (λ l.
        IsDrawing surface.now row line.now.cells (map change_value l.items)) }
{
    // Every surface is valid.
    let _size = surface.dimensions();
    let printed = surface.diff_against_numbered_line(row, line)?;
    let mut changes = restored(printed, surface.cursor_position(), surface.pen())?;
    // The surface shares no memory with the line.
    own_links(alloc, &mut changes, &mut LinkCopies::new())?;
    Ok(changes)
}

fn draw_line(
    alloc: Global,
    surface: &mut Source<ChosenWidths>,
    row: usize,
    line: &Line,
) -> Result<(), Failure>
    ensures { DrawsLine row line.now.cells surface.old result surface.new }
{
    if !surface.surface().measures(line) {
        return Err(Failure::OtherWidths);
    }
    let changes = line_drawing(alloc, surface.surface(), row, line)?;
    add_changes(surface, changes)
}

fn draw_line_at(
    alloc: Global,
    surface: &mut Source<ChosenWidths>,
    row: usize,
    list: &LineList,
    index: usize,
) -> Result<(), Failure>
    ensures { DrawsOne row index list.now surface.old result surface.new }
{
    let line = list.line_at(index)?;
    draw_line(alloc, surface, row, line)
}

fn draw_kept(
    alloc: Global,
    handle: &mut Handle,
    row: usize,
    lines: &Kept,
    index: usize,
) -> Result<(), Failure>
    ensures { DrawsFrom (Some lines.now) row index
        (handle_value handle.old) result (handle_value handle.new) }
{
    let list = lines.lines()?;
    on_surface(alloc, handle, |surface| {
        draw_line_at(alloc, surface, row, list, index)
    })
}

/// Draws a line on a row of a surface.
#[unsafe(no_mangle)]
pub extern "C" fn tk_draw_line_distinct(
    alloc: Global,
    handle: &mut Handle,
    row: usize,
    lines: &mut Handle,
    index: usize,
) -> i32
    ensures draws { Reports result (λ outcome. DrawsFrom (handle_value lines.old) row index
        (handle_value handle.old) outcome (handle_value handle.new)) }
    ensures lines { handle_value lines.new ≡ handle_value lines.old }
{
    let outcome = match lines.take(alloc) {
        Some(kept) => {
            let outcome = draw_kept(alloc, handle, row, &kept, index);
            lines.put(alloc, kept);
            outcome
        }
        None => Err(Failure::NoHandle),
    };
    status(outcome)
}
