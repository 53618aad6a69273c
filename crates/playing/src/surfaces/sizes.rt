//! Sizes of surfaces by their words.
ghost use Rattle.std.specs.Prelude.{◌<◌, ◌^◌, IfSome};

use crate::error::PlayError;
use crate::surfaces::measure::{MEASURES, Measure};
use crate::turn::Turn;

/// The most columns of a surface, and its most rows.
pub const MOST: usize = u32::MAX as usize;

/// A width and a height, if a surface may have them.
pub fn checked_size(turn: &mut Turn<'_>, width: usize, height: usize) -> Option<(usize, usize)>
    ensures { IfSome result (λ size.
        (0 < size.0) × (size.0 < 2 ^ 32) × (0 < size.1) × (size.1 < 2 ^ 32)) }
{
    if 0 < width && width <= MOST && 0 < height && height <= MOST {
        return Some((width, height));
    }
    turn.fail(PlayError::Bad);
    None
}

/// A width and a height that a surface may have, and how columns are measured.
pub fn measured_size(turn: &mut Turn<'_>) -> Option<(usize, usize, Measure)>
    ensures { IfSome result (λ made.
        (0 < made.0) × (made.0 < 2 ^ 32) × (0 < made.1) × (made.1 < 2 ^ 32)) }
{
    let (width, height) = turn.pair();
    let measure = turn.named(&MEASURES, Measure::Unicode);
    let (width, height) = checked_size(turn, width, height)?;
    Some((width, height, measure))
}
