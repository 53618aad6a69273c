//! Changes of surfaces.
ghost use Rattle.std.specs.Prelude.{map, true};
ghost use Rattle.termwiz_cell.specs.ChangeValue.{change_value};
ghost use Rattle.tikeburo_c.specs.Changes.{AddsBytes, AddsChanges, IsOnlyList};
ghost use Rattle.tikeburo_c.specs.Outcomes.{Reports};
ghost use Rattle.tikeburo_c.specs.Handles.{handle_value};
ghost use Rattle.tikeburo_c.specs.Results.{OnSurface};
ghost use Rattle.tikeburo_c.specs.Widths.{columns_by};

use crate::access::on_surface;
use crate::failure::{Failure, status};
use crate::handle::Handle;
use crate::widths::ChosenWidths;
use std::alloc::Global;
use termwiz_share::Source;
use termwiz_surface::Change;
use termwiz_wire::decode_changes;

// The list of changes that the bytes encode, with nothing after it.
fn only_changes(alloc: Global, widths: ChosenWidths, bytes: &[u8]) -> Result<Vec<Change>, Failure>
    ensures { IsOnlyList (columns_by widths.entry) bytes.now result }
{
    let (changes, taken) = decode_changes(alloc, &widths, bytes)?;
    if taken < bytes.len() {
        return Err(Failure::Unreadable);
    }
    Ok(changes)
}

/// Applies changes to a surface, which logs them.
pub(crate) fn add_changes(
    surface: &mut Source<ChosenWidths>,
    changes: Vec<Change>,
) -> Result<(), Failure>
    ensures { AddsChanges true (map change_value changes.items) surface.old result surface.new }
{
    surface.add_changes(changes)?;
    Ok(())
}

fn add_bytes(alloc: Global, surface: &mut Source<ChosenWidths>, bytes: &[u8]) -> Result<(), Failure>
    ensures { AddsBytes bytes.now surface.old result surface.new }
{
    let changes = only_changes(alloc, surface.surface().widths(), bytes)?;
    add_changes(surface, changes)
}

/// Applies the list of changes that these bytes encode.
#[unsafe(no_mangle)]
pub extern "C" fn tk_add_encoded(alloc: Global, handle: &mut Handle, bytes: &[u8]) -> i32
    ensures { Reports result (λ outcome. OnSurface (AddsBytes bytes.now)
        (handle_value handle.old) outcome (handle_value handle.new)) }
{
    let outcome = on_surface(alloc, handle, |surface| add_bytes(alloc, surface, bytes));
    status(outcome)
}
