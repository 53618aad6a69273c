//! What calls do with what a handle has: it is taken out, used, and put back.
ghost use Rattle.std.specs.Prelude.{◌≡◌, Some};
ghost use Rattle.std.specs.Fn.{FnOnceReturnsAt, FnOnceReturnsAtMut};
ghost use Rattle.tikeburo_c.specs.Access.{Computes, FillsBy};
ghost use Rattle.tikeburo_c.specs.Handles.{handle_value};
ghost use Rattle.tikeburo_c.specs.Results.{OnLines, OnSurface, ReadsInto};

use crate::failure::Failure;
use crate::handle::Handle;
use crate::kept::Kept;
use crate::line_list::LineList;
use crate::widths::ChosenWidths;
use std::alloc::Global;
use termwiz_share::Source;
use termwiz_surface::Surface;

/// Does this to the surface that the handle has.
pub(crate) fn on_surface<F: FnOnce(&mut Source<ChosenWidths>) -> Result<(), Failure> + Drop>(
    alloc: Global,
    handle: &mut Handle,
    action: F,
) -> Result<(), Failure>
    requires { F.IsAlwaysCallable action }
    ensures { OnSurface (λ old outcome new. FnOnceReturnsAtMut F.FnOnce action old outcome new)
        (handle_value handle.old) result (handle_value handle.new) }
{
    let Some(mut kept) = handle.take(alloc) else {
        return Err(Failure::NoHandle);
    };
    let outcome = match &mut *kept {
        Kept::Surface(surface) => act_on(surface, action),
        Kept::Viewer(_) | Kept::Client(_) | Kept::Lines(_) => Err(Failure::WrongKind),
    };
    handle.put(alloc, kept);
    outcome
}

fn act_on<F: FnOnce(&mut Source<ChosenWidths>) -> Result<(), Failure>>(
    surface: &mut Source<ChosenWidths>,
    action: F,
) -> Result<(), Failure>
    requires { F.IsAlwaysCallable action }
    ensures { FnOnceReturnsAtMut F.FnOnce action surface.old result surface.new }
{
    action(surface)
}

/// Does this to the lines that the handle has.
pub(crate) fn on_lines<F: FnOnce(&mut LineList) -> Result<(), Failure> + Drop>(
    alloc: Global,
    handle: &mut Handle,
    action: F,
) -> Result<(), Failure>
    requires { F.IsAlwaysCallable action }
    ensures { OnLines (λ old outcome new. FnOnceReturnsAtMut F.FnOnce action old outcome new)
        (handle_value handle.old) result (handle_value handle.new) }
{
    let Some(mut kept) = handle.take(alloc) else {
        return Err(Failure::NoHandle);
    };
    let outcome = match &mut *kept {
        Kept::Lines(list) => act_on_lines(list, action),
        Kept::Surface(_) | Kept::Viewer(_) | Kept::Client(_) => Err(Failure::WrongKind),
    };
    handle.put(alloc, kept);
    outcome
}

fn act_on_lines<F: FnOnce(&mut LineList) -> Result<(), Failure>>(
    list: &mut LineList,
    action: F,
) -> Result<(), Failure>
    requires { F.IsAlwaysCallable action }
    ensures { FnOnceReturnsAtMut F.FnOnce action list.old result list.new }
{
    action(list)
}

/// Reads a value of the surface that the handle has, or that its viewer or client shows.
pub(crate) fn read<T: Copy, F: FnOnce(&Surface<ChosenWidths>) -> T + Drop>(
    alloc: Global,
    handle: &mut Handle,
    value: &mut T,
    action: F,
) -> Result<(), Failure>
    requires { F.IsAlwaysCallable action }
    ensures read { ReadsInto (Computes (λ s x. FnOnceReturnsAt F.FnOnce action s x))
        (handle_value handle.old) value.old result value.new }
    ensures same { handle_value handle.new ≡ handle_value handle.old }
{
    let Some(kept) = handle.take(alloc) else {
        return Err(Failure::NoHandle);
    };
    let outcome = read_kept(&kept, value, action);
    handle.put(alloc, kept);
    outcome
}

fn read_kept<T: Copy, F: FnOnce(&Surface<ChosenWidths>) -> T + Drop>(
    kept: &Kept,
    value: &mut T,
    action: F,
) -> Result<(), Failure>
    requires { F.IsAlwaysCallable action }
    ensures { ReadsInto (Computes (λ s x. FnOnceReturnsAt F.FnOnce action s x))
        (Some kept.now) value.old result value.new }
{
    let surface = kept.shown()?;
    *value = read_from(surface, action);
    Ok(())
}

fn read_from<T, F: FnOnce(&Surface<ChosenWidths>) -> T>(
    surface: &Surface<ChosenWidths>,
    action: F,
) -> T
    requires { F.IsAlwaysCallable action }
    ensures { FnOnceReturnsAt F.FnOnce action surface.now result }
{
    action(surface)
}

/// Writes bytes of the surface that the handle has, or that its viewer or client shows, into a
/// buffer of the caller's.
pub(crate) fn fill<
    F: FnOnce(&Surface<ChosenWidths>, &mut [u8], &mut usize) -> Result<(), Failure> + Drop,
>(
    alloc: Global,
    handle: &mut Handle,
    room: &mut [u8],
    len: &mut usize,
    action: F,
) -> Result<(), Failure>
    requires { F.IsAlwaysCallable action }
    ensures read { ReadsInto (λ s old outcome new. FillsBy F.FnOnce action s old outcome new)
        (handle_value handle.old) (room.old, len.old) result (room.new, len.new) }
    ensures same { handle_value handle.new ≡ handle_value handle.old }
{
    let Some(kept) = handle.take(alloc) else {
        return Err(Failure::NoHandle);
    };
    let outcome = fill_kept(&kept, room, len, action);
    handle.put(alloc, kept);
    outcome
}

fn fill_kept<
    F: FnOnce(&Surface<ChosenWidths>, &mut [u8], &mut usize) -> Result<(), Failure> + Drop,
>(kept: &Kept, room: &mut [u8], len: &mut usize, action: F) -> Result<(), Failure>
    requires { F.IsAlwaysCallable action }
    ensures { ReadsInto (λ s old outcome new. FillsBy F.FnOnce action s old outcome new)
        (Some kept.now) (room.old, len.old) result (room.new, len.new) }
{
    let surface = kept.shown()?;
    fill_from(surface, room, len, action)
}

fn fill_from<F: FnOnce(&Surface<ChosenWidths>, &mut [u8], &mut usize) -> Result<(), Failure>>(
    surface: &Surface<ChosenWidths>,
    room: &mut [u8],
    len: &mut usize,
    action: F,
) -> Result<(), Failure>
    requires { F.IsAlwaysCallable action }
    ensures { FillsBy F.FnOnce action surface.now (room.old, len.old) result (room.new, len.new) }
{
    action(surface, room, len)
}
