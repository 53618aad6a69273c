//! What rows show up to the width: their stored cells, and then default blanks.
ghost use Rattle.std.specs.Prelude.{◌≡◌, ◌-◌, ◌<◌, false, replicate};
ghost use Rattle.termwiz_screen.specs.{IsPaddable, attributes_eq, beq, blank, blank_of, cell_eq};
ghost use Rattle.termwiz_screen.specs.{columns, default_attributes, is_wide, pointwise, ref_cell};
ghost use Rattle.termwiz_screen.specs.{ref_width, row_of, stored};

use termwiz_cell::cell::{Cell, CellAttributes};
use termwiz_line::line::line::Line;
use termwiz_storage::line::cellref::CellRef;

/// The attributes of a row's last column.
pub fn last_attrs<'a>(row: &'a Line, width: usize, padding: &'a Cell) -> &'a CellAttributes
    requires some_column { 0 < width }
    requires paddable { IsPaddable width row.now.cells }
    requires blank { padding.now ≡ blank }
    ensures { result.now ≡ (stored (row_of width row.now.cells) (width - 1)).attrs }
{
    let mut attrs = padding.attrs();
    if row.len() == width {
        for cell in row.visible_cells() {
            attrs = cell.attrs();
        }
    }
    attrs
}

/// Whether each column of a row shows a blank with these attributes, which must not be the default
/// ones.
pub fn is_blank_row(row: &Line, width: usize, attrs: &CellAttributes) -> bool
    requires paddable { IsPaddable width row.now.cells }
    requires other { attributes_eq attrs.now default_attributes ≡ false }
    ensures { result
        ≡ pointwise cell_eq (row_of width row.now.cells) (replicate width (blank_of attrs.now)) }
{
    if row.len() < width {
        return false;
    }
    for shown in row.visible_cells() {
        if !is_blank_of(&shown, attrs) {
            return false;
        }
    }
    true
}

fn is_blank_of(shown: &CellRef<'_>, attrs: &CellAttributes) -> bool
    requires { ref_width shown.now ≡ columns (ref_cell shown.now) }
    ensures { result ≡ cell_eq (ref_cell shown.now) (blank_of attrs.now) }
{
    shown.is_space() && (is_narrow(shown) && *shown.attrs() == *attrs)
}

fn is_narrow(shown: &CellRef<'_>) -> bool
    requires { ref_width shown.now ≡ columns (ref_cell shown.now) }
    ensures { result ≡ beq (is_wide (ref_cell shown.now)) false }
{
    shown.width() == 1
}
