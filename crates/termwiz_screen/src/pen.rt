//! Pens: the attributes of the next texts and of cleared columns.
ghost use Rattle.std.specs.Prelude.{◌≡◌, IfOk};
ghost use Rattle.termwiz_screen.specs.{blank_of, with_background};

use std::alloc::{AllocError, Global};
use termwiz_cell::cell::{Cell, CellAttributes};
use termwiz_cell::color::ColorAttribute;

/// Default attributes with this background.
pub fn background_only(alloc: Global, color: ColorAttribute) -> Result<CellAttributes, AllocError>
    ensures { IfOk result (λ pen. pen ≡ with_background color) }
{
    let mut pen = CellAttributes::blank();
    pen.change_background(alloc, color)?;
    Ok(pen)
}

/// A blank with this pen.
pub fn blank_with(pen: &CellAttributes) -> Result<Cell, AllocError>
    ensures { IfOk result (λ cell. cell ≡ blank_of pen.now) }
{
    let attrs = pen.clone()?;
    Ok(Cell::blank_with_attrs(attrs))
}
