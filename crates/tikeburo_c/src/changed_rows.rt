//! Which rows may have changed since a surface had a number.
ghost use Rattle.std.specs.Prelude.{◌≡◌, IfOk, Some};
ghost use Rattle.tikeburo_c.specs.ChangedRows as specs_of;
ghost use Rattle.tikeburo_c.specs.Handles.{handle_value};
ghost use Rattle.tikeburo_c.specs.Outcomes.{Reports};
ghost use Rattle.tikeburo_c.specs.Results.{GivesInto, OrNoMemory, ReadsInto};

use crate::buffers::give;
use crate::failure::{Failure, status};
use crate::handle::Handle;
use crate::kept::Kept;
use crate::widths::ChosenWidths;
use std::alloc::{AllocError, Global};
use termwiz_surface::Surface;

fn changed_rows(
    alloc: Global,
    surface: &Surface<ChosenWidths>,
    since: usize,
) -> Result<Vec<u8>, AllocError>
    ensures { IfOk result (λ rows. rows.items ≡ specs_of.changed_rows since surface.now) }
{
    let (_, height) = surface.dimensions();
    let mut rows = Vec::with_capacity(alloc, height)?;
    for row in 0..height {
        rows.push(u8::from(surface.row_changed_since(row, since)))?;
    }
    Ok(rows)
}

fn give_changed(
    alloc: Global,
    surface: &Surface<ChosenWidths>,
    since: usize,
    room: &mut [u8],
    len: &mut usize,
) -> Result<(), Failure>
    ensures { OrNoMemory (GivesInto (specs_of.changed_rows since surface.now))
        (room.old, len.old) result (room.new, len.new) }
{
    let rows = changed_rows(alloc, surface, since)?;
    give(&rows, room, len)
}

fn give_changed_of(
    alloc: Global,
    kept: &Kept,
    since: usize,
    room: &mut [u8],
    len: &mut usize,
) -> Result<(), Failure>
    ensures { ReadsInto (λ s. OrNoMemory (GivesInto (specs_of.changed_rows since s)))
        (Some kept.now)
        (room.old, len.old) result (room.new, len.new) }
{
    let surface = kept.shown()?;
    give_changed(alloc, surface, since, room, len)
}

/// For each row from the top 1 if it may show something else than when the surface had the number
/// `since`, and 0 if it doesn't; 1 for all rows where that is 0.
#[unsafe(no_mangle)]
pub extern "C" fn tk_changed_rows(
    alloc: Global,
    handle: &mut Handle,
    since: usize,
    room: &mut [u8],
    len: &mut usize,
) -> i32
    ensures read { Reports result (λ outcome.
        ReadsInto (λ s. OrNoMemory (GivesInto (specs_of.changed_rows since s)))
        (handle_value handle.old) (room.old, len.old) outcome (room.new, len.new)) }
    ensures same { handle_value handle.new ≡ handle_value handle.old }
{
    let outcome = match handle.take(alloc) {
        Some(kept) => {
            let outcome = give_changed_of(alloc, &kept, since, room, len);
            handle.put(alloc, kept);
            outcome
        }
        None => Err(Failure::NoHandle),
    };
    status(outcome)
}
