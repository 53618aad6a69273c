//! The changes that a viewer lacks, as a list of structs.
ghost use Rattle.std.specs.Prelude.{◌≡◌, IfOk, Some, map};
ghost use Rattle.termwiz_surface.specs.{change_value, next_number, stream_of};
ghost use Rattle.tikeburo_c.specs.Getting as getting;
ghost use Rattle.tikeburo_c.specs.Getting.{GivesAll, GivesChanges, GivesList, ListPlace};
ghost use Rattle.tikeburo_c.specs.Getting.{list_place};
ghost use Rattle.tikeburo_c.specs.Handles.{handle_value};
ghost use Rattle.tikeburo_c.specs.Outcomes.{Reports};
ghost use Rattle.tikeburo_c.specs.Results.{OrNoMemory, ReadsInto};

use crate::failure::{Failure, status};
use crate::handle::Handle;
use crate::kept::Kept;
use crate::listing::{ChangeList, list_of};
use crate::lists::ChangeFields;
use crate::rows::put_front;
use crate::widths::ChosenWidths;
use std::alloc::{AllocError, Global};
use std::borrow::CowSlice;
use termwiz_surface::{Change, Surface};

/// How many changes and bytes of texts a list has, and the number that it leads to.
#[repr(C)]
#[derive(Clone, Copy)]
pub struct ListCounts {
    pub changes: usize,
    pub texts: usize,
    pub number: usize,
}

fn give_list(
    made: &ChangeList,
    number: usize,
    list: &mut [ChangeFields],
    texts: &mut [u8],
    counts: &mut ListCounts,
) -> Result<(), Failure>
    ensures { GivesList made.now.list.items made.now.texts.items number
        (list_place list.old texts.old counts.old) result
        (list_place list.new texts.new counts.new) }
{
    *counts = ListCounts {
        changes: made.list.len(),
        texts: made.texts.len(),
        number,
    };
    if made.list.len() > list.len() || made.texts.len() > texts.len() {
        return Err(Failure::Short);
    }
    put_front(&made.list, list);
    put_front(&made.texts, texts);
    Ok(())
}

// What a viewer with this number lacks, and the number that it leads to.
fn changes_since<'a>(
    surface: &'a Surface<ChosenWidths>,
    since: usize,
) -> Result<(usize, CowSlice<'a, Change>), AllocError>
    ensures number { IfOk result (λ answer. answer.0 ≡ next_number surface.now.log) }
    ensures changes { IfOk result (λ answer.
        stream_of answer.1 ≡ getting.changes_since surface.now since) }
{
    surface.get_changes(since)
}

/// Writes these changes as a list, and its counts, where the arrays have room for it.
pub(crate) fn give_all(
    alloc: Global,
    changes: &[Change],
    number: usize,
    list: &mut [ChangeFields],
    texts: &mut [u8],
    counts: &mut ListCounts,
) -> Result<(), Failure>
    ensures { OrNoMemory (GivesAll (map change_value changes.now) number)
        (list_place list.old texts.old counts.old) result
        (list_place list.new texts.new counts.new) }
{
    let made = list_of(alloc, changes)?;
    give_list(&made, number, list, texts, counts)
}

fn give_changes(
    alloc: Global,
    surface: &Surface<ChosenWidths>,
    since: usize,
    list: &mut [ChangeFields],
    texts: &mut [u8],
    counts: &mut ListCounts,
) -> Result<(), Failure>
    ensures { OrNoMemory (GivesChanges since surface.now)
        (list_place list.old texts.old counts.old) result
        (list_place list.new texts.new counts.new) }
{
    let (number, changes) = changes_since(surface, since)?;
    give_all(alloc, &changes, number, list, texts, counts)
}

fn give_changes_of(
    alloc: Global,
    kept: &Kept,
    since: usize,
    list: &mut [ChangeFields],
    texts: &mut [u8],
    counts: &mut ListCounts,
) -> Result<(), Failure>
    ensures { ReadsInto {B = ListPlace} (λ s. OrNoMemory (GivesChanges since s)) (Some kept.now)
        (list_place list.old texts.old counts.old) result
        (list_place list.new texts.new counts.new) }
{
    let surface = kept.shown()?;
    give_changes(alloc, surface, since, list, texts, counts)
}

/// The changes that a viewer that was last given this number lacks, as `tk_add_changes` takes them,
/// or a repaint. A link has its uri alone, and a pen no link to an empty one.
#[unsafe(no_mangle)]
pub extern "C" fn tk_get_changes(
    alloc: Global,
    handle: &mut Handle,
    since: usize,
    list: &mut [ChangeFields],
    texts: &mut [u8],
    counts: &mut ListCounts,
) -> i32
    ensures read { Reports result (λ outcome.
        ReadsInto {B = ListPlace} (λ s. OrNoMemory (GivesChanges since s)) (handle_value handle.old)
        (list_place list.old texts.old counts.old)
        outcome (list_place list.new texts.new counts.new)) }
    ensures same { handle_value handle.new ≡ handle_value handle.old }
{
    let outcome = match handle.take(alloc) {
        Some(kept) => {
            let outcome = give_changes_of(alloc, &kept, since, list, texts, counts);
            handle.put(alloc, kept);
            outcome
        }
        None => Err(Failure::NoHandle),
    };
    status(outcome)
}
