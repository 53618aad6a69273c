//! Lists of changes that are made on a surface, logged or not, and the rows that they scroll off,
//! which are kept as lines or not.
ghost use Rattle.std.specs.Prelude.{IsTrue};
ghost use Rattle.tikeburo_c.specs.Handles.{handle_value};
ghost use Rattle.tikeburo_c.specs.Lists.{AddsListed};
ghost use Rattle.tikeburo_c.specs.Outcomes.{Reports};
ghost use Rattle.tikeburo_c.specs.Results.{OnLines, OnSurface};
ghost use Rattle.tikeburo_c.specs.Scrolling.{AddsListedRows, AddsRowsOf, OnLinesIf, WithLines};
ghost use Rattle.tikeburo_c.specs.Scrolling.{WithLinesIf};

use crate::failure::{Failure, status};
use crate::handle::Handle;
use crate::kept::Kept;
use crate::lists::{ChangeFields, listed_in};
use crate::unlogged::listed_lent_in;
use crate::widths::ChosenWidths;
use std::alloc::Global;
use termwiz_share::Source;
use termwiz_surface::{ChangeList, LentChanges, LineSink, NoScrollback};

fn add_listed<L: LineSink>(
    alloc: Global,
    surface: &mut Source<ChosenWidths>,
    is_logged: bool,
    list: &[ChangeFields],
    texts: &[u8],
    lines: &mut L,
) -> Result<(), Failure>
    ensures adds { AddsListed is_logged list.now texts.now surface.old result surface.new }
    ensures lines { IsTrue L.KEEPS → AddsListedRows list.now texts.now surface.old.surface
        (L.lines_of lines.old) result (L.lines_of lines.new) }
{
    if is_logged {
        let changes = listed_in(alloc, list, texts)?;
        surface.add(ChangeList::Owned(changes), lines)?;
        return Ok(());
    }
    let changes = listed_lent_in(alloc, list, texts)?;
    surface.add(ChangeList::Unlogged(LentChanges(&changes)), lines)?;
    Ok(())
}

// Applies the listed changes to the surface that the handle has. It is no closure that takes the
// lines, since nothing would be known of what it adds to them then.
fn add_on<L: LineSink>(
    alloc: Global,
    handle: &mut Handle,
    is_logged: bool,
    list: &[ChangeFields],
    texts: &[u8],
    lines: &mut L,
) -> Result<(), Failure>
    ensures adds { OnSurface (AddsListed is_logged list.now texts.now)
        (handle_value handle.old) result (handle_value handle.new) }
    ensures lines { IsTrue L.KEEPS → AddsRowsOf list.now texts.now (handle_value handle.old)
        (L.lines_of lines.old) result (L.lines_of lines.new) }
{
    let Some(mut kept) = handle.take(alloc) else {
        return Err(Failure::NoHandle);
    };
    let outcome = match &mut *kept {
        Kept::Surface(surface) => add_listed(alloc, surface, is_logged, list, texts, lines),
        Kept::Viewer(_) | Kept::Client(_) | Kept::Lines(_) => Err(Failure::WrongKind),
    };
    handle.put(alloc, kept);
    outcome
}

// Applies the listed changes, and appends the rows that they scroll off to the lines that the other
// handle has.
fn add_keeping(
    alloc: Global,
    handle: &mut Handle,
    is_logged: bool,
    list: &[ChangeFields],
    texts: &[u8],
    lines: &mut Handle,
) -> Result<(), Failure>
    ensures adds { WithLines (handle_value lines.old)
        (OnSurface (AddsListed is_logged list.now texts.now))
        (handle_value handle.old) result (handle_value handle.new) }
    ensures lines { OnLines (AddsRowsOf list.now texts.now (handle_value handle.old))
        (handle_value lines.old) result (handle_value lines.new) }
{
    let Some(mut kept) = lines.take(alloc) else {
        return Err(Failure::NoHandle);
    };
    let outcome = match &mut *kept {
        Kept::Lines(found) => {
            add_on(alloc, handle, is_logged, list, texts, &mut found.scrollback)
        }
        Kept::Surface(_) | Kept::Viewer(_) | Kept::Client(_) => Err(Failure::WrongKind),
    };
    lines.put(alloc, kept);
    outcome
}

/// Applies a list of changes, whose texts follow one another, and logs them or not. Where lines are
/// kept, the rows that the changes scroll off the top are appended to those of the other handle,
/// which is not looked at elsewhere.
#[unsafe(no_mangle)]
pub extern "C" fn tk_add_list_distinct(
    alloc: Global,
    handle: &mut Handle,
    list: &[ChangeFields],
    texts: &[u8],
    is_logged: bool,
    keeps_lines: bool,
    lines: &mut Handle,
) -> i32
    ensures adds { Reports result (λ outcome. WithLinesIf keeps_lines (handle_value lines.old)
        (OnSurface (AddsListed is_logged list.now texts.now))
        (handle_value handle.old) outcome (handle_value handle.new)) }
    ensures lines { Reports result (λ outcome. OnLinesIf keeps_lines
        (AddsRowsOf list.now texts.now (handle_value handle.old))
        (handle_value lines.old) outcome (handle_value lines.new)) }
{
    let outcome = if keeps_lines {
        add_keeping(alloc, handle, is_logged, list, texts, lines)
    } else {
        add_on(alloc, handle, is_logged, list, texts, &mut NoScrollback)
    };
    status(outcome)
}
