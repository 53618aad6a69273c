//! By which widths a surface measures, or what a viewer or a client shows.
ghost use Rattle.std.specs.Prelude.{◌≡◌, Some};
ghost use Rattle.tikeburo_c.specs.Handles.{handle_value};
ghost use Rattle.tikeburo_c.specs.Outcomes.{Reports};
ghost use Rattle.tikeburo_c.specs.ReadingWidths.{GivesWidths, WidthsPlace, widths_place};
ghost use Rattle.tikeburo_c.specs.Results.{ReadsInto};

use crate::failure::{Failure, status};
use crate::handle::Handle;
use crate::kept::Kept;
use crate::rows::put_front;
use crate::tables::WidthRange;
use crate::widths::ChosenWidths;
use std::alloc::Global;

fn give_widths(
    widths: &ChosenWidths,
    kind: &mut u8,
    ranges: &mut [WidthRange],
    count: &mut usize,
) -> Result<(), Failure>
    ensures { GivesWidths widths.now (widths_place kind.old ranges.old count.old) result
        (widths_place kind.new ranges.new count.new) }
{
    let found = widths.ranges();
    *count = found.len();
    if found.len() > ranges.len() {
        return Err(Failure::Short);
    }
    *kind = widths.number();
    put_front(found, ranges);
    Ok(())
}

fn give_widths_of(
    kept: &Kept,
    kind: &mut u8,
    ranges: &mut [WidthRange],
    count: &mut usize,
) -> Result<(), Failure>
    ensures { ReadsInto {B = WidthsPlace} (λ s. GivesWidths s.widths) (Some kept.now)
        (widths_place kind.old ranges.old count.old) result
        (widths_place kind.new ranges.new count.new) }
{
    let surface = kept.shown()?;
    give_widths(&surface.widths(), kind, ranges, count)
}

/// The number of the widths by which what is shown is measured, and the ranges of a table.
#[unsafe(no_mangle)]
pub extern "C" fn tk_widths(
    alloc: Global,
    handle: &mut Handle,
    kind: &mut u8,
    ranges: &mut [WidthRange],
    count: &mut usize,
) -> i32
    ensures read { Reports result (λ outcome.
        ReadsInto {B = WidthsPlace} (λ s. GivesWidths s.widths) (handle_value handle.old)
        (widths_place kind.old ranges.old count.old)
        outcome (widths_place kind.new ranges.new count.new)) }
    ensures same { handle_value handle.new ≡ handle_value handle.old }
{
    let outcome = match handle.take(alloc) {
        Some(kept) => {
            let outcome = give_widths_of(&kept, kind, ranges, count);
            handle.put(alloc, kept);
            outcome
        }
        None => Err(Failure::NoHandle),
    };
    status(outcome)
}
