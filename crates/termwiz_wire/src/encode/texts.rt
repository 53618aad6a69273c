//! Texts that are printed, with the pieces that they need.
ghost use Rattle.std.specs.Prelude.{◌≡◌, ◌*◌, ◌<◌, ◌^◌, ◌++◌, length, OnOk};
ghost use Rattle.std.specs.List.{flat_map};
ghost use Rattle.cbor.specs.Encoding.{Extends};
ghost use Rattle.termwiz_cell.specs.ChangeValue as changed;
ghost use Rattle.termwiz_cell.specs.Measure.{measure};
ghost use Rattle.termwiz_wire.specs.Beginning.{NeedsPieces};
ghost use Rattle.termwiz_wire.specs.Encoding.{change, pieces};
ghost use Rattle.termwiz_wire.specs.Encoding as encoding;
ghost use Rattle.termwiz_wire.specs.Forms.{IsPrinted};
ghost use Rattle.termwiz_wire.specs.Pieces.{runs};

use crate::pieces::{Run, Runs, needed_runs};
use cbor::{put_array, put_text, put_unsigned};
use std::alloc::AllocError;
use termwiz_cell::emoji::Widths;

/// Appends a change that prints a text.
#[tactic(auto, unfolding(crate::specs::Encoding::change_values))]
pub(super) fn put_printed<W: Widths>(
    out: &mut Vec<u8>,
    widths: &W,
    text: &str,
) -> Result<(), AllocError>
    ensures written { OnOk result (out.new.items
        ≡ out.old.items ++ change (measure W.width_of widths.now) (changed.Text text.now)) }
    ensures kept { Extends out.old.items out.new.items }
    ensures form { OnOk result (IsPrinted (measure W.width_of widths.now) text.now) }
{
    let needed = needed_runs(widths, text);
    put_array(out, if needed.is_some() { 3 } else { 2 })?;
    put_unsigned(out, 2)?;
    put_text(out, text)?;
    match needed {
        None => Ok(()),
        Some(count) => put_pieces(out, widths, text, count),
    }
}

// Appends the pieces of a text, in `count` runs.
#[inline(never)]
#[tactic(auto, unfolding(crate::specs::Encoding::pieces))]
fn put_pieces<W: Widths>(
    out: &mut Vec<u8>,
    widths: &W,
    text: &str,
    count: usize,
) -> Result<(), AllocError>
    requires { NeedsPieces count (runs (measure W.width_of widths.now) text.now) }
    ensures written { OnOk result (out.new.items
        ≡ out.old.items ++ pieces (runs (measure W.width_of widths.now) text.now)) }
    ensures kept { Extends out.old.items out.new.items }
    ensures counted { OnOk result
        (3 * length (runs (measure W.width_of widths.now) text.now) < 2 ^ 64) }
{
    put_array(out, count.checked_mul(3).ok_or(AllocError)?)?;
    put_runs(out, widths, text)
}

fn put_runs<W: Widths>(out: &mut Vec<u8>, widths: &W, text: &str) -> Result<(), AllocError>
    ensures written { OnOk result (out.new.items
        ≡ out.old.items ++ flat_map encoding.run (runs (measure W.width_of widths.now) text.now)) }
    ensures kept { Extends out.old.items out.new.items }
{
    for run in Runs::new(widths, text) {
        put_run(out, run)?;
    }
    Ok(())
}

#[tactic(auto, unfolding(crate::specs::Encoding::run))]
fn put_run(out: &mut Vec<u8>, run: Run) -> Result<(), AllocError>
    ensures written { OnOk result (out.new.items ≡ out.old.items ++ encoding.run run) }
    ensures kept { Extends out.old.items out.new.items }
{
    put_unsigned(out, run.count)?;
    put_unsigned(out, run.characters)?;
    put_unsigned(out, run.columns)
}
