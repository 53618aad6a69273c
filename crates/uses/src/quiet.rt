//! A terminal that nobody follows: what a program writes is shown and not logged, a heading is
//! shown twice, and what a program may leave changed is set as it was.
ghost use Rattle.std.specs.Prelude.{◌≡◌, ◌+◌, ◌-◌, Err, IfOk, OnOk};
ghost use Rattle.uses.specs.{AddsUnlogged, IsDrawn, ScrollRegion, measure, next_number};
ghost use Rattle.uses.specs.{output_changes, passed, region_at, screen_after, screen_of};
ghost use Rattle.uses.specs.{settings_changes};

use std::alloc::AllocError;
use termwiz_surface::{
    CellAttributes, Change, ChangeList, ColorAttribute, LentChange, LentChanges, NoScrollback,
    SequenceNo, Surface, SurfaceError, Widths,
};

/// Prints what a program wrote, and sets the title that it gave. Neither text is copied or logged,
/// and the log is empty afterwards.
///
/// `Numbers`: the surface is unchanged. `Memory`: the text may be printed in part; the surface has
/// its old size, and its log is empty.
pub fn show_output<W: Widths>(
    surface: &mut Surface<W>,
    output: &str,
    title: &str,
) -> Result<SequenceNo, SurfaceError>
    // Both are made, or the surface is what the error leaves.
    ensures adds { AddsUnlogged (measure W.width_of surface.old.widths)
        surface.old (output_changes output.now title.now)
        (next_number surface.old.log - 1 + 2) result surface.new }
    ensures shows { OnOk result (screen_of surface.new
        ≡ screen_after (measure W.width_of) surface.old (output_changes output.now title.now)) }
    ensures title { OnOk result (surface.new.title ≡ title.now) }
    ensures log { OnOk result (surface.new.log ≡ passed surface.old.log 2) }
    ensures no_scroll { result ≡ Err ScrollRegion → ⊥ }
{
    let changes = [LentChange::Text(output), LentChange::Title(title)];
    surface.add(
        ChangeList::Unlogged(LentChanges(&changes)),
        &mut NoScrollback,
    )
}

/// Shows these columns of a row, as a heading or a line of state, in another row too. Cursor and
/// pen are as before, a pending wrap too.
///
/// `Numbers`: the surface is unchanged. `Memory`: the surface is unchanged, or the other row may be
/// drawn in part; the surface has its old size, and its log is empty.
pub fn repeat_columns<W: Widths>(
    surface: &mut Surface<W>,
    x: usize,
    width: usize,
    row: usize,
    other: usize,
) -> Result<SequenceNo, SurfaceError>
    // They are drawn, or the surface is what the error leaves.
    ensures drawn { IsDrawn (measure W.width_of) surface.old surface.old
        (region_at x other width 1 x row) result surface.new }
    // All parts of the screen but the rows are unchanged.
    ensures restores { OnOk result (screen_of surface.new
        ≡ record (screen_of surface.old) { rows = (screen_of surface.new).rows }) }
    ensures no_scroll { result ≡ Err ScrollRegion → ⊥ }
{
    surface.draw_region(x, row, width, 1, x, other)
}

/// What a program may leave changed beside the rows: the pen, and the cursor's colour.
#[derive(Drop, Debug)]
pub struct Settings {
    pub pen: CellAttributes,
    pub color: ColorAttribute,
}

/// The settings of a surface, read before a program writes.
pub fn save_settings<W: Widths>(surface: &Surface<W>) -> Result<Settings, AllocError>
    ensures pen { IfOk result (λ settings. settings.pen ≡ surface.now.pen) }
    ensures color { IfOk result (λ settings. settings.color ≡ surface.now.color) }
{
    let pen = surface.pen().clone()?;
    let color = surface.cursor_color();
    Ok(Settings { pen, color })
}

/// Sets the pen and the cursor's colour as they were saved, and logs neither.
///
/// `Numbers`: the surface is unchanged. `Memory`: one of them may be set; the surface has its old
/// size, and its log is empty.
pub fn restore_settings<W: Widths>(
    surface: &mut Surface<W>,
    settings: Settings,
) -> Result<SequenceNo, SurfaceError>
    // Both are set, or the surface is what the error leaves.
    ensures adds { AddsUnlogged (measure W.width_of surface.old.widths)
        surface.old (settings_changes settings.pen settings.color)
        (next_number surface.old.log - 1 + 2) result surface.new }
    // All parts of the screen but the pen are unchanged.
    ensures shows { OnOk result (screen_of surface.new
        ≡ record (screen_of surface.old) { pen = settings.pen }) }
    ensures color { OnOk result (surface.new.color ≡ settings.color) }
    ensures log { OnOk result (surface.new.log ≡ passed surface.old.log 2) }
    ensures no_scroll { result ≡ Err ScrollRegion → ⊥ }
{
    let changes = [
        LentChange::Owned(Change::AllAttributes(settings.pen)),
        LentChange::Owned(Change::CursorColor(settings.color)),
    ];
    surface.add(
        ChangeList::Unlogged(LentChanges(&changes)),
        &mut NoScrollback,
    )
}
