//! Whether two surfaces measure by the same widths.
ghost use Rattle.std.specs.Prelude.{◌≡◌, ◌↔◌, IfErr, IsTrue, OnOk};
ghost use Rattle.tikeburo_c.specs.SameWidths.{SameWidths};
ghost use Rattle.tikeburo_c.specs.declared.failure.Failure.TheVariants.{OtherWidths};

use crate::failure::Failure;
use crate::tables::WidthRange;
use crate::widths::{Choice, ChosenWidths};

fn are_same_ranges(ranges: &[WidthRange], others: &[WidthRange]) -> bool
    ensures { IsTrue result ↔ (ranges.now ≡ others.now) }
{
    ranges == others
}

fn are_same(widths: &ChosenWidths, others: &ChosenWidths) -> bool
    ensures { IsTrue result ↔ SameWidths widths.now others.now }
{
    match (&widths.choice, &others.choice) {
        (Choice::Unicode, Choice::Unicode) | (Choice::OneColumn, Choice::OneColumn) => true,
        (Choice::Table(table), Choice::Table(other)) => are_same_ranges(table.ranges, other.ranges),
        _ => false,
    }
}

/// Fails where the widths are of two kinds, or tables whose ranges differ.
pub(crate) fn require_same(widths: &ChosenWidths, others: &ChosenWidths) -> Result<(), Failure>
    ensures same { OnOk result (SameWidths widths.now others.now) }
    ensures different { IfErr result (λ failure.
        (failure ≡ OtherWidths) × (SameWidths widths.now others.now → ⊥)) }
{
    if are_same(widths, others) {
        Ok(())
    } else {
        Err(Failure::OtherWidths)
    }
}
