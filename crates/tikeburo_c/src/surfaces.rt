//! Surfaces: how they are made, resized and freed.
ghost use Rattle.std.specs.Prelude.{◌≡◌, IfErr, IfOk, IsTrue, None, ◌<◌};
ghost use Rattle.termwiz_surface.specs.Surface.{IsSurfaceSize};
ghost use Rattle.tikeburo_c.specs.Handles.{handle_value};
ghost use Rattle.tikeburo_c.specs.Making.{MakesSurface, MakesSurfaceBy, ResizesIn, TakesSize};
ghost use Rattle.tikeburo_c.specs.Making.{blank_source, is_size, widths_for, widths_where};
ghost use Rattle.tikeburo_c.specs.Outcomes.{Reports};
ghost use Rattle.tikeburo_c.specs.declared.failure.Failure.TheVariants.{Memory};
ghost use Rattle.tikeburo_c.specs.declared.kept.Kept.TheVariants as kinds;

use crate::access::on_surface;
use crate::failure::{Failure, status};
use crate::handle::Handle;
use crate::kept::Kept;
use crate::tables::WidthRange;
use crate::widths::ChosenWidths;
use std::alloc::Global;
use termwiz_share::Source;

// Whether a surface may have this size.
fn is_size(width: usize, height: usize) -> bool
    ensures value { result ≡ is_size width height }
    ensures size { IsTrue result → IsSurfaceSize width height }
{
    const MOST: usize = 4294967295;
    (width > 0 && height > 0) && (width <= MOST && height <= MOST)
}

fn blank_surface(
    alloc: Global,
    width: usize,
    height: usize,
    widths: ChosenWidths<'static>,
    source: usize,
) -> Result<Box<Kept>, Failure>
    requires size { IsSurfaceSize width height }
    requires source { 0 < source }
    ensures made { IfOk result (λ kept.
        kept.value ≡ kinds.Surface (blank_source widths.entry width height source)) }
    ensures memory { IfErr result (λ failure. failure ≡ Memory) }
{
    let surface = Source::new(alloc, source, width, height, widths)?;
    let kept = Box::new(alloc, Kept::Surface(surface))?;
    Ok(kept)
}

fn make_surface(
    alloc: Global,
    handle: &mut Handle,
    width: usize,
    height: usize,
    widths: Option<ChosenWidths<'static>>,
    source: usize,
) -> Result<(), Failure>
    ensures { MakesSurface width height source (widths_where width height source widths.entry)
        (handle_value handle.old) result (handle_value handle.new) }
{
    if source == 0 || !is_size(width, height) {
        return Err(Failure::Range);
    }
    let Some(widths) = widths else {
        return Err(Failure::Range);
    };
    let kept = blank_surface(alloc, width, height, widths, source)?;
    handle.put(alloc, kept);
    Ok(())
}

/// Makes a blank surface that measures by the chosen widths, with this number as a source.
#[unsafe(no_mangle)]
pub extern "C" fn tk_surface_new(
    alloc: Global,
    handle: &mut Handle,
    width: usize,
    height: usize,
    widths: u8,
    source: usize,
) -> i32
    ensures { Reports result (λ outcome. MakesSurface width height source
        (widths_for width height source widths)
        (handle_value handle.old) outcome (handle_value handle.new)) }
{
    let widths = ChosenWidths::at(widths);
    let outcome = make_surface(alloc, handle, width, height, widths, source);
    status(outcome)
}

/// Makes a blank surface that measures by a table, with this number as a source. The ranges must
/// stay as they are while the program runs.
#[unsafe(no_mangle)]
pub extern "C" fn tk_surface_new_by(
    alloc: Global,
    handle: &mut Handle,
    width: usize,
    height: usize,
    ranges: &'static [WidthRange],
    source: usize,
) -> i32
    ensures { Reports result (λ outcome. MakesSurfaceBy width height source ranges.entry
        (handle_value handle.old) outcome (handle_value handle.new)) }
{
    let widths = ChosenWidths::by(ranges);
    let outcome = make_surface(alloc, handle, width, height, widths, source);
    status(outcome)
}

/// Frees what the handle has, if it has anything.
#[unsafe(no_mangle)]
pub extern "C" fn tk_free_handle(alloc: Global, handle: &mut Handle)
    ensures { handle_value handle.new ≡ None }
{
    drop(handle.take(alloc));
}

fn resize_one(
    surface: &mut Source<ChosenWidths>,
    width: usize,
    height: usize,
) -> Result<(), Failure>
    requires size { IsSurfaceSize width height }
    ensures { TakesSize width height surface.old result surface.new }
{
    surface.resize(width, height)?;
    Ok(())
}

fn resize(alloc: Global, handle: &mut Handle, width: usize, height: usize) -> Result<(), Failure>
    ensures { ResizesIn width height (handle_value handle.old) result (handle_value handle.new) }
{
    if !is_size(width, height) {
        return Err(Failure::Range);
    }
    on_surface(alloc, handle, |surface| resize_one(surface, width, height))
}

/// Resizes the surface that the handle has.
#[unsafe(no_mangle)]
pub extern "C" fn tk_resize(alloc: Global, handle: &mut Handle, width: usize, height: usize) -> i32
    ensures { Reports result (λ outcome.
        ResizesIn width height (handle_value handle.old) outcome (handle_value handle.new)) }
{
    let outcome = resize(alloc, handle, width, height);
    status(outcome)
}
