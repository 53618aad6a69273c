//! Lists of lines: how they are made, grow and shrink.
ghost use Rattle.std.specs.Prelude.{◌≡◌, Some, length};
ghost use Rattle.tikeburo_c.specs.Handles.{handle_value};
ghost use Rattle.tikeburo_c.specs.LineLists.{Compresses, MakesLines, Pushes, PushesFrom, Removes};
ghost use Rattle.tikeburo_c.specs.LineLists.{Wraps};
ghost use Rattle.tikeburo_c.specs.Outcomes.{Reports};
ghost use Rattle.tikeburo_c.specs.Results.{OnLines, ReadsLines, Returns};

use crate::access::on_lines;
use crate::cells::line_at;
use crate::failure::{Failure, status};
use crate::handle::Handle;
use crate::kept::Kept;
use crate::line_list::LineList;
use crate::widths::ChosenWidths;
use std::alloc::Global;
use termwiz_surface::Surface;

fn make_lines(alloc: Global, handle: &mut Handle) -> Result<(), Failure>
    ensures { MakesLines (handle_value handle.old) result (handle_value handle.new) }
{
    let kept = Box::new(alloc, Kept::Lines(LineList::new(alloc)))?;
    handle.put(alloc, kept);
    Ok(())
}

/// Makes a list of no lines.
#[unsafe(no_mangle)]
pub extern "C" fn tk_lines_new(alloc: Global, handle: &mut Handle) -> i32
    ensures { Reports result (λ outcome.
        MakesLines (handle_value handle.old) outcome (handle_value handle.new)) }
{
    let outcome = make_lines(alloc, handle);
    status(outcome)
}

fn read_count(kept: &Kept, count: &mut usize) -> Result<(), Failure>
    ensures { ReadsLines (λ lines. Returns (length lines))
        (Some kept.now) count.old result count.new }
{
    let list = kept.lines()?;
    *count = list.count();
    Ok(())
}

/// How many lines there are.
#[unsafe(no_mangle)]
pub extern "C" fn tk_lines_count(alloc: Global, handle: &mut Handle, count: &mut usize) -> i32
    ensures read { Reports result (λ outcome. ReadsLines (λ lines. Returns (length lines))
        (handle_value handle.old) count.old outcome count.new) }
    ensures same { handle_value handle.new ≡ handle_value handle.old }
{
    let outcome = match handle.take(alloc) {
        Some(kept) => {
            let outcome = read_count(&kept, count);
            handle.put(alloc, kept);
            outcome
        }
        None => Err(Failure::NoHandle),
    };
    status(outcome)
}

/// Removes `count` lines from the line at `first` on.
#[unsafe(no_mangle)]
pub extern "C" fn tk_lines_remove(
    alloc: Global,
    handle: &mut Handle,
    first: usize,
    count: usize,
) -> i32
    ensures { Reports result (λ outcome.
        OnLines (Removes first count) (handle_value handle.old) outcome (handle_value handle.new)) }
{
    let outcome = on_lines(alloc, handle, |list| list.remove(first, count));
    status(outcome)
}

fn push_row(list: &mut LineList, surface: &Surface<ChosenWidths>, row: usize) -> Result<(), Failure>
    ensures { Pushes row surface.now list.old result list.new }
{
    let line = line_at(surface, row)?;
    let mut copy = line.clone()?;
    list.scrollback.own_links(&mut copy)?;
    list.push(copy)?;
    Ok(())
}

// No closure lends what is shown, since nothing would be known of its call then.
fn push_shown(
    alloc: Global,
    handle: &mut Handle,
    shown: &Surface<ChosenWidths<'static>>,
    row: usize,
) -> Result<(), Failure>
    ensures { OnLines (Pushes row shown.now)
        (handle_value handle.old) result (handle_value handle.new) }
{
    let Some(mut kept) = handle.take(alloc) else {
        return Err(Failure::NoHandle);
    };
    let outcome = match &mut *kept {
        Kept::Lines(list) => push_row(list, shown, row),
        Kept::Surface(_) | Kept::Viewer(_) | Kept::Client(_) => Err(Failure::WrongKind),
    };
    handle.put(alloc, kept);
    outcome
}

fn push_kept(alloc: Global, handle: &mut Handle, source: &Kept, row: usize) -> Result<(), Failure>
    ensures { PushesFrom (Some source.now) row
        (handle_value handle.old) result (handle_value handle.new) }
{
    let shown = source.shown()?;
    push_shown(alloc, handle, shown, row)
}

/// Appends a copy of a row of what the source shows.
#[unsafe(no_mangle)]
pub extern "C" fn tk_lines_push_row_distinct(
    alloc: Global,
    handle: &mut Handle,
    source: &mut Handle,
    row: usize,
) -> i32
    ensures pushes { Reports result (λ outcome. PushesFrom (handle_value source.old) row
        (handle_value handle.old) outcome (handle_value handle.new)) }
    ensures source { handle_value source.new ≡ handle_value source.old }
{
    let outcome = match source.take(alloc) {
        Some(kept) => {
            let outcome = push_kept(alloc, handle, &kept, row);
            source.put(alloc, kept);
            outcome
        }
        None => Err(Failure::NoHandle),
    };
    status(outcome)
}

/// Stores `count` lines from the line at `first` on in less memory. What they show is as before.
#[unsafe(no_mangle)]
pub extern "C" fn tk_lines_compress(
    alloc: Global,
    handle: &mut Handle,
    first: usize,
    count: usize,
) -> i32
    ensures { Reports result (λ outcome.
        OnLines (Compresses first count)
        (handle_value handle.old) outcome (handle_value handle.new)) }
{
    let outcome = on_lines(alloc, handle, |list| list.compress(first, count));
    status(outcome)
}

/// Wraps each line to this width, in order.
#[unsafe(no_mangle)]
pub extern "C" fn tk_lines_wrap(alloc: Global, handle: &mut Handle, width: usize) -> i32
    ensures { Reports result (λ outcome.
        OnLines (Wraps width) (handle_value handle.old) outcome (handle_value handle.new)) }
{
    let outcome = on_lines(alloc, handle, |list| list.wrap(alloc, width));
    status(outcome)
}
