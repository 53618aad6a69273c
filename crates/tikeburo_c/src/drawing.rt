//! Surfaces drawn on others, and regions copied within one.
ghost use Rattle.std.specs.Prelude.{◌≡◌, Some};
ghost use Rattle.termwiz_screen.specs.{region_value};
ghost use Rattle.termwiz_surface.specs.{region_at};
ghost use Rattle.tikeburo_c.specs.Drawing.{Copies, DrawsFor, DrawsRegion, DrawsSame, DrawsSource};
ghost use Rattle.tikeburo_c.specs.Handles.{handle_value};
ghost use Rattle.tikeburo_c.specs.Outcomes.{Reports};
ghost use Rattle.tikeburo_c.specs.Results.{OnSurface};

use crate::access::on_surface;
use crate::failure::{Failure, status};
use crate::handle::Handle;
use crate::kept::Kept;
use crate::same_widths::require_same;
use crate::widths::ChosenWidths;
use std::alloc::Global;
use termwiz_screen::diff::region::Region;
use termwiz_share::Source;
use termwiz_surface::Surface;

fn draw_on<'t>(
    surface: &mut Source<ChosenWidths<'t>>,
    source: &Surface<ChosenWidths<'t>>,
    region: Region,
) -> Result<(), Failure>
    ensures { DrawsFor source.now (region_value region) surface.old result surface.new }
{
    let Region {
        x,
        y,
        width,
        height,
        other_x,
        other_y,
    } = region;
    surface.draw_from(source, other_x, other_y, width, height, x, y)?;
    Ok(())
}

fn draw_same<'t>(
    surface: &mut Source<ChosenWidths<'t>>,
    source: &Surface<ChosenWidths<'t>>,
    region: Region,
) -> Result<(), Failure>
    ensures { DrawsSame source.now (region_value region) surface.old result surface.new }
{
    require_same(&source.widths(), &surface.surface().widths())?;
    draw_on(surface, source, region)
}

// No closure lends what is shown, since nothing would be known of its call then.
fn draw_shown(
    alloc: Global,
    handle: &mut Handle,
    shown: &Surface<ChosenWidths<'static>>,
    region: Region,
) -> Result<(), Failure>
    ensures { OnSurface (DrawsSame shown.now (region_value region))
        (handle_value handle.old) result (handle_value handle.new) }
{
    let Some(mut kept) = handle.take(alloc) else {
        return Err(Failure::NoHandle);
    };
    let outcome = match &mut *kept {
        Kept::Surface(surface) => draw_same(surface, shown, region),
        Kept::Viewer(_) | Kept::Client(_) | Kept::Lines(_) => Err(Failure::WrongKind),
    };
    handle.put(alloc, kept);
    outcome
}

fn draw_kept(
    alloc: Global,
    handle: &mut Handle,
    source: &Kept,
    region: Region,
) -> Result<(), Failure>
    ensures { DrawsSource (Some source.now) (region_value region)
        (handle_value handle.old) result (handle_value handle.new) }
{
    let shown = source.shown()?;
    draw_shown(alloc, handle, shown, region)
}

/// Draws what a region of the source shows, cut to what fits in both, at another column and row.
#[unsafe(no_mangle)]
pub extern "C" fn tk_draw_from_distinct(
    alloc: Global,
    handle: &mut Handle,
    source: &mut Handle,
    column: usize,
    row: usize,
    width: usize,
    height: usize,
    to_column: usize,
    to_row: usize,
) -> i32
    ensures draws { Reports result (λ outcome. DrawsSource (handle_value source.old)
        (region_at to_column to_row width height column row)
        (handle_value handle.old) outcome (handle_value handle.new)) }
    ensures source { handle_value source.new ≡ handle_value source.old }
{
    let region = Region {
        x: to_column,
        y: to_row,
        width,
        height,
        other_x: column,
        other_y: row,
    };
    let outcome = match source.take(alloc) {
        Some(kept) => {
            let outcome = draw_kept(alloc, handle, &kept, region);
            source.put(alloc, kept);
            outcome
        }
        None => Err(Failure::NoHandle),
    };
    status(outcome)
}

fn copy_within(
    surface: &mut Source<ChosenWidths>,
    column: usize,
    row: usize,
    width: usize,
    height: usize,
    to_column: usize,
    to_row: usize,
) -> Result<(), Failure>
    ensures { Copies column row width height to_column to_row surface.old result surface.new }
{
    surface.copy_region(column, row, width, height, to_column, to_row)?;
    Ok(())
}

/// Copies what a region shows to another column and row.
#[unsafe(no_mangle)]
pub extern "C" fn tk_copy(
    alloc: Global,
    handle: &mut Handle,
    column: usize,
    row: usize,
    width: usize,
    height: usize,
    to_column: usize,
    to_row: usize,
) -> i32
    ensures { Reports result (λ outcome.
        OnSurface (Copies column row width height to_column to_row)
        (handle_value handle.old) outcome (handle_value handle.new)) }
{
    let outcome = on_surface(alloc, handle, |surface| {
        copy_within(surface, column, row, width, height, to_column, to_row)
    });
    status(outcome)
}

fn draw_within(
    surface: &mut Source<ChosenWidths>,
    column: usize,
    row: usize,
    width: usize,
    height: usize,
    to_column: usize,
    to_row: usize,
) -> Result<(), Failure>
    ensures { DrawsRegion column row width height to_column to_row surface.old result surface.new }
{
    surface.draw_region(column, row, width, height, to_column, to_row)?;
    Ok(())
}

/// Copies what a region shows to another column and row, and leaves cursor and pen as before.
#[unsafe(no_mangle)]
pub extern "C" fn tk_draw_region(
    alloc: Global,
    handle: &mut Handle,
    column: usize,
    row: usize,
    width: usize,
    height: usize,
    to_column: usize,
    to_row: usize,
) -> i32
    ensures { Reports result (λ outcome.
        OnSurface (DrawsRegion column row width height to_column to_row)
        (handle_value handle.old) outcome (handle_value handle.new)) }
{
    let outcome = on_surface(alloc, handle, |surface| {
        draw_within(surface, column, row, width, height, to_column, to_row)
    });
    status(outcome)
}
