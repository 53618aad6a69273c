//! Copies of a surface's rows, as a renderer has them that paints row by row: just the rows that
//! may have changed are copied again.
ghost use Rattle.std.specs.Prelude.{◌≡◌, ◌<◌, ◌≤◌, IfOk, OnErr, OnOk, length, map, ℕ};
ghost use Rattle.uses.specs.{AreCopiesAt, CopiesRows, InTurn, KeepsOthers, MakesOrRefuses};
ghost use Rattle.uses.specs.{MayDiffer};
ghost use Rattle.uses.specs.{cells_of, change_value, measure, next_number, number_at, row_of};
ghost use Rattle.uses.specs.{rows_shown, screen_after, screen_of, shown_at};

use std::alloc::{AllocError, Global};
use termwiz_surface::{Change, Line, SequenceNo, Surface, SurfaceError, Widths};

/// Copies of all rows of a surface.
pub fn copy_rows<W: Widths>(alloc: Global, surface: &Surface<W>) -> Result<Vec<Line>, AllocError>
    ensures { IfOk result (λ copies. cells_of copies.items ≡ surface.now.lines) }
{
    let lines = surface.screen_lines()?;
    let mut copies = Vec::with_capacity(alloc, lines.len())?;
    for row in 0..lines.len() {
        copies.push(lines[row].clone()?)?;
    }
    Ok(copies)
}

/// Copies a row again if it may have changed since the surface had the number `since`, and leaves
/// its copy alone if it can't have.
fn refresh_row<W: Widths>(
    surface: &Surface<W>,
    row: usize,
    since: SequenceNo,
    copy: &mut Line,
) -> Result<(), AllocError>
    requires inside { row < surface.now.height }
    requires full { length surface.now.lines ≡ surface.now.height }
    requires known { 0 < since → number_at surface.now row ≤ since →
        row_of surface.now.width copy.old.cells ≡ shown_at surface.now row }
    ensures copied { OnOk result
        (row_of surface.now.width copy.new.cells ≡ shown_at surface.now row) }
    ensures left { 0 < since → number_at surface.now row ≤ since → copy.new ≡ copy.old }
    ensures kept { OnErr result (copy.new ≡ copy.old) }
    ensures needed { OnErr result (MayDiffer since surface.now row) }
{
    if !surface.row_changed_since(row, since) {
        return Ok(());
    }
    let Some(line) = surface.screen_line(row) else {
        unreachable!();
    };
    *copy = line.clone()?;
    Ok(())
}

/// Copies the rows again that may have changed since the surface had the number `since`, when the
/// copies were taken. The other copies are left alone. After an error some rows may be copied.
pub fn refresh_rows<W: Widths>(
    surface: &Surface<W>,
    since: SequenceNo,
    copies: &mut [Line],
) -> Result<(), AllocError>
    requires { AreCopiesAt since surface.now (cells_of copies.old) }
    ensures copied { OnOk result
        (rows_shown surface.now.width copies.new ≡ (screen_of surface.now).rows) }
    ensures left { KeepsOthers since surface.now copies.old copies.new }
    // The next call can rely on it, after an error too.
    ensures kept { AreCopiesAt since surface.now (cells_of copies.new) }
    // Where no row may have changed, it doesn't fail.
    ensures needed { OnErr result ((row : ℕ) × (row < surface.now.height)
        × MayDiffer since surface.now row) }
{
    let (_, height) = surface.dimensions();
    for row in 0..height {
        refresh_row(surface, row, since, &mut copies[row])?;
    }
    Ok(())
}

/// Makes changes on a surface, and copies the rows that they changed.
///
/// Where a change is refused the surface stands as `add_changes` says, and the copies are as they
/// were. Where memory is refused for a copy the changes are made, and some rows may be copied.
/// After either, `refresh_rows` goes on with the number that the surface had before.
pub fn show<W: Widths>(
    surface: &mut Surface<W>,
    changes: Vec<Change>,
    copies: &mut [Line],
) -> Result<(), SurfaceError>
    requires { rows_shown surface.old.width copies.old ≡ (screen_of surface.old).rows }
    // The changes are made, and then the rows are copied.
    ensures shows { OnOk result (screen_of surface.new
        ≡ screen_after (measure W.width_of) surface.old (map change_value changes.items)) }
    ensures either { InTurn (λ r. MakesOrRefuses (measure W.width_of surface.old.widths)
        surface.old (map change_value changes.items) r surface.new)
        (copies.new ≡ copies.old)
        (CopiesRows (next_number surface.old.log) surface.new) result }
    ensures copied { OnOk result
        (rows_shown surface.new.width copies.new ≡ (screen_of surface.new).rows) }
    // A copy of a row that they can't have changed is left alone.
    ensures left { KeepsOthers (next_number surface.old.log) surface.new copies.old copies.new }
    ensures kept { AreCopiesAt (next_number surface.old.log) surface.new (cells_of copies.new) }
{
    let _form = surface.dimensions();
    let since = surface.current_seqno();
    surface.add_changes(changes)?;
    refresh_rows(surface, since, copies)?;
    Ok(())
}
