//! What a surface lacks of another one, as a list of structs.
ghost use Rattle.std.specs.Prelude.{◌≡◌, IfOk, None, Some, map, option_map};
ghost use Rattle.termwiz_screen.specs.{region_value};
ghost use Rattle.termwiz_surface.specs.{change_value, region_at};
ghost use Rattle.tikeburo_c.specs.Diffs.{GivesDiff, GivesSameDiff, IsWrittenDiff, ReadsBoth};
ghost use Rattle.tikeburo_c.specs.Getting.{ListPlace, list_place};
ghost use Rattle.tikeburo_c.specs.Handles.{handle_value};
ghost use Rattle.tikeburo_c.specs.Outcomes.{Reports};
ghost use Rattle.tikeburo_c.specs.Results.{OrNoMemory, ReadsInto};

use crate::failure::{Failure, status};
use crate::getting::{ListCounts, give_all};
use crate::handle::Handle;
use crate::kept::Kept;
use crate::lists::ChangeFields;
use crate::same_widths::require_same;
use crate::widths::ChosenWidths;
use std::alloc::{AllocError, Global};
use termwiz_screen::diff::region::Region;
use termwiz_surface::{Change, Surface};

// The changes that print what a surface lacks of another one in a region, or of all that it shows.
fn diff_in(
    surface: &Surface<ChosenWidths>,
    other: &Surface<ChosenWidths>,
    region: Option<Region>,
) -> Result<Vec<Change>, AllocError>
    ensures { IfOk result (λ l. IsWrittenDiff (option_map region_value region) surface.now other.now
        (map change_value l.items)) }
{
    match region {
        Some(
            Region {
                x,
                y,
                width,
                height,
                other_x,
                other_y,
            },
        ) => surface.diff_region(x, y, width, height, other, other_x, other_y),
        None => surface.diff_screens(other),
    }
}

fn give_diff(
    alloc: Global,
    surface: &Surface<ChosenWidths>,
    other: &Surface<ChosenWidths>,
    region: Option<Region>,
    list: &mut [ChangeFields],
    texts: &mut [u8],
    counts: &mut ListCounts,
) -> Result<(), Failure>
    ensures { OrNoMemory (GivesDiff (option_map region_value region) surface.now other.now)
        (list_place list.old texts.old counts.old) result
        (list_place list.new texts.new counts.new) }
{
    let changes = diff_in(surface, other, region)?;
    give_all(alloc, &changes, 0, list, texts, counts)
}

fn give_same_diff(
    alloc: Global,
    surface: &Surface<ChosenWidths>,
    other: &Surface<ChosenWidths>,
    region: Option<Region>,
    list: &mut [ChangeFields],
    texts: &mut [u8],
    counts: &mut ListCounts,
) -> Result<(), Failure>
    ensures { GivesSameDiff (option_map region_value region) surface.now other.now
        (list_place list.old texts.old counts.old) result
        (list_place list.new texts.new counts.new) }
{
    require_same(&surface.widths(), &other.widths())?;
    give_diff(alloc, surface, other, region, list, texts, counts)
}

fn give_diff_of(
    alloc: Global,
    kept: &Kept,
    other: &Surface<ChosenWidths>,
    region: Option<Region>,
    list: &mut [ChangeFields],
    texts: &mut [u8],
    counts: &mut ListCounts,
) -> Result<(), Failure>
    ensures { ReadsInto {B = ListPlace}
        (λ s. GivesSameDiff (option_map region_value region) s other.now)
        (Some kept.now) (list_place list.old texts.old counts.old)
        result (list_place list.new texts.new counts.new) }
{
    let surface = kept.shown()?;
    give_same_diff(alloc, surface, other, region, list, texts, counts)
}

fn diff_from(
    alloc: Global,
    handle: &mut Handle,
    other: &Surface<ChosenWidths>,
    region: Option<Region>,
    list: &mut [ChangeFields],
    texts: &mut [u8],
    counts: &mut ListCounts,
) -> Result<(), Failure>
    ensures read { ReadsInto {B = ListPlace}
        (λ s. GivesSameDiff (option_map region_value region) s other.now)
        (handle_value handle.old) (list_place list.old texts.old counts.old)
        result (list_place list.new texts.new counts.new) }
    ensures same { handle_value handle.new ≡ handle_value handle.old }
{
    let Some(kept) = handle.take(alloc) else {
        return Err(Failure::NoHandle);
    };
    let outcome = give_diff_of(alloc, &kept, other, region, list, texts, counts);
    handle.put(alloc, kept);
    outcome
}

fn diff_kept(
    alloc: Global,
    handle: &mut Handle,
    other: &Kept,
    region: Option<Region>,
    list: &mut [ChangeFields],
    texts: &mut [u8],
    counts: &mut ListCounts,
) -> Result<(), Failure>
    ensures read { ReadsBoth {B = ListPlace}
        (GivesSameDiff (option_map region_value region))
        (handle_value handle.old) (Some other.now) (list_place list.old texts.old counts.old)
        result (list_place list.new texts.new counts.new) }
    ensures same { handle_value handle.new ≡ handle_value handle.old }
{
    let shown = other.shown()?;
    diff_from(alloc, handle, shown, region, list, texts, counts)
}

fn diff_both(
    alloc: Global,
    handle: &mut Handle,
    other: &mut Handle,
    region: Option<Region>,
    list: &mut [ChangeFields],
    texts: &mut [u8],
    counts: &mut ListCounts,
) -> Result<(), Failure>
    ensures read { ReadsBoth {B = ListPlace}
        (GivesSameDiff (option_map region_value region))
        (handle_value handle.old) (handle_value other.old)
        (list_place list.old texts.old counts.old)
        result (list_place list.new texts.new counts.new) }
    ensures same { handle_value handle.new ≡ handle_value handle.old }
    ensures other { handle_value other.new ≡ handle_value other.old }
{
    let Some(kept) = other.take(alloc) else {
        return Err(Failure::NoHandle);
    };
    let outcome = diff_kept(alloc, handle, &kept, region, list, texts, counts);
    other.put(alloc, kept);
    outcome
}

/// The changes that make the first handle's screen show what the other one's does.
#[unsafe(no_mangle)]
pub extern "C" fn tk_diff_screens_distinct(
    alloc: Global,
    handle: &mut Handle,
    other: &mut Handle,
    list: &mut [ChangeFields],
    texts: &mut [u8],
    counts: &mut ListCounts,
) -> i32
    ensures read { Reports result (λ outcome.
        ReadsBoth {B = ListPlace} (GivesSameDiff None)
        (handle_value handle.old) (handle_value other.old)
        (list_place list.old texts.old counts.old)
        outcome (list_place list.new texts.new counts.new)) }
    ensures same { handle_value handle.new ≡ handle_value handle.old }
    ensures other { handle_value other.new ≡ handle_value other.old }
{
    let outcome = diff_both(alloc, handle, other, None, list, texts, counts);
    status(outcome)
}

/// The changes that make a region of the first handle's screen show what a region of the same size
/// of the other one's does.
#[unsafe(no_mangle)]
pub extern "C" fn tk_diff_region_distinct(
    alloc: Global,
    handle: &mut Handle,
    column: usize,
    row: usize,
    width: usize,
    height: usize,
    other: &mut Handle,
    other_column: usize,
    other_row: usize,
    list: &mut [ChangeFields],
    texts: &mut [u8],
    counts: &mut ListCounts,
) -> i32
    ensures read { Reports result (λ outcome. ReadsBoth {B = ListPlace}
        (GivesSameDiff (Some (region_at column row width height other_column other_row)))
        (handle_value handle.old) (handle_value other.old)
        (list_place list.old texts.old counts.old)
        outcome (list_place list.new texts.new counts.new)) }
    ensures same { handle_value handle.new ≡ handle_value handle.old }
    ensures other { handle_value other.new ≡ handle_value other.old }
{
    let region = Region {
        x: column,
        y: row,
        width,
        height,
        other_x: other_column,
        other_y: other_row,
    };
    let outcome = diff_both(alloc, handle, other, Some(region), list, texts, counts);
    status(outcome)
}
