//! The last row of a surface: cleared, or drawn as a status line.
ghost use Rattle.std.specs.Prelude.{◌≡◌, ◌+◌, ◌-◌, ◌<◌, IfOk, OnOk, map, ℕ};
ghost use Rattle.uses.specs.{MakesOrFails, appended, blank_in, change_value, last_row_cleared};
ghost use Rattle.uses.specs.{measure, next_number, row_at, screen_after, screen_of, status_line};
ghost use Rattle.uses.specs.{stored};

use std::alloc::{AllocError, Global};
use termwiz_surface::laws::{row_laws, stored_row_laws};
use termwiz_surface::{
    CellAttributes, Change, ColorAttribute, Position, Surface, SurfaceError, Widths,
};

/// Clears the last row with a background. The rows above stay.
/// At an error the surface is unchanged, or as after that error of `add_changes`.
pub fn clear_last_row<W: Widths>(
    alloc: Global,
    surface: &mut Surface<W>,
    background: ColorAttribute,
) -> Result<(), SurfaceError>
    ensures adds { MakesOrFails (measure W.width_of surface.old.widths)
        surface.old (last_row_cleared background) result surface.new }
    ensures above { OnOk result ((j : ℕ) → j < surface.old.height - 1 →
        row_at (screen_of surface.new).rows j ≡ row_at (screen_of surface.old).rows j) }
    ensures cleared { OnOk result ((k : ℕ) → k < surface.old.width →
        stored (row_at (screen_of surface.new).rows (surface.old.height - 1)) k
        ≡ blank_in background) }
    ensures width { surface.new.width ≡ surface.old.width }
    ensures height { surface.new.height ≡ surface.old.height }
{
    // What is known of rows, of their number and of clearing them.
    stored_row_laws();
    row_laws();
    let _form = surface.dimensions();
    let changes = clear_changes(alloc, background)?;
    surface.add_changes(changes)?;
    Ok(())
}

fn clear_changes(alloc: Global, background: ColorAttribute) -> Result<Vec<Change>, AllocError>
    ensures { IfOk result (λ changes.
        map change_value changes.items ≡ last_row_cleared background) }
{
    let changes = vec![in alloc;
        Change::CursorPosition {
            x: Position::Absolute(0),
            y: Position::EndRelative(1),
        },
        Change::ClearToEndOfLine(background),
    ]?;
    Ok(changes)
}

/// Clears the last row with a background, and prints a text there with a pen.
/// At an error the surface is unchanged, or as after that error of `add_changes`.
pub fn draw_status<W: Widths>(
    alloc: Global,
    surface: &mut Surface<W>,
    background: ColorAttribute,
    pen: CellAttributes,
    text: &str,
) -> Result<(), SurfaceError>
    ensures adds { MakesOrFails (measure W.width_of surface.old.widths)
        surface.old (status_line background pen text.now) result surface.new }
    ensures ok { OnOk result (screen_of surface.new
        ≡ screen_after (measure W.width_of) surface.old (status_line background pen text.now)) }
    ensures log { OnOk result (
        surface.new.log ≡ appended surface.old.log (status_line background pen text.now)) }
    ensures numbers { OnOk result (next_number surface.new.log ≡ next_number surface.old.log + 4) }
    ensures width { surface.new.width ≡ surface.old.width }
    ensures height { surface.new.height ≡ surface.old.height }
{
    let changes = status_changes(alloc, background, pen, text)?;
    surface.add_changes(changes)?;
    Ok(())
}

fn status_changes(
    alloc: Global,
    background: ColorAttribute,
    pen: CellAttributes,
    text: &str,
) -> Result<Vec<Change>, AllocError>
    ensures { IfOk result (λ changes.
        map change_value changes.items ≡ status_line background pen text.now) }
{
    let text = Change::text_from(alloc, text)?;
    let changes = vec![in alloc;
        Change::CursorPosition {
            x: Position::Absolute(0),
            y: Position::EndRelative(1),
        },
        Change::ClearToEndOfLine(background),
        Change::AllAttributes(pen),
        text,
    ]?;
    Ok(changes)
}
