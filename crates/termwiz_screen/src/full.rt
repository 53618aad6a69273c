//! Full screens: copies of what surfaces show, with title, the cursor's colour and shape, and the
//! size of each row.
ghost use Rattle.std.specs.Prelude.{◌≡◌, IfOk, map};
ghost use Rattle.termwiz_screen.specs.{line_attribute, row_flags, shape_of};

use crate::screen::Screen;
use std::alloc::{AllocError, Global};
use std::collections::VecDeque;
use termwiz_cell::change::{CursorShape, LineAttribute};
use termwiz_cell::color::ColorAttribute;
use termwiz_line::line::line::Line;

/// What a surface shows, with title, the cursor's colour and shape, and the size of each row. Two
/// are equal where all of this is.
#[derive(Drop, Debug, PartialEq, Eq)]
pub struct FullScreen {
    /// The rows, the cursor, its visibility, and the pen.
    pub screen: Screen,
    pub title: String,
    /// The cursor's shape, or the default one where none was set.
    pub shape: CursorShape,
    /// The cursor's colour.
    pub color: ColorAttribute,
    /// How large each row is shown.
    pub lines: Vec<LineAttribute>,
}

/// How large each row is shown.
#[doc(hidden)]
pub fn attributes_of(alloc: Global, rows: &VecDeque<Line>) -> Result<Vec<LineAttribute>, AllocError>
    ensures { IfOk result (λ lines. lines.items ≡ map line_attribute (row_flags rows.now.items)) }
{
    let mut lines = Vec::with_capacity(alloc, rows.len())?;
    for i in 0..rows.len() {
        lines.push(attribute_of(&rows[i]))?;
    }
    Ok(lines)
}

/// How large a row is shown.
#[doc(hidden)]
pub fn attribute_of(row: &Line) -> LineAttribute
    ensures { result ≡ line_attribute row.now.flags }
{
    if row.is_double_height_top() {
        LineAttribute::DoubleHeightTopHalfLine
    } else if row.is_double_height_bottom() {
        LineAttribute::DoubleHeightBottomHalfLine
    } else if row.is_double_width() {
        LineAttribute::DoubleWidthLine
    } else {
        LineAttribute::SingleWidthLine
    }
}

/// The cursor's shape, or the default one where none was set.
#[doc(hidden)]
pub fn shape_or_default(shape: Option<CursorShape>) -> CursorShape
    ensures { result ≡ shape_of shape }
{
    match shape {
        Some(shape) => shape,
        None => CursorShape::Default,
    }
}
