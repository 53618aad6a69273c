//! Whether lines are as wide as a surface measures them.
ghost use Rattle.std.specs.Prelude.{◌≡◌, ◌∷◌, ◌↔◌, [], IsTrue, true};
ghost use Rattle.termwiz_storage.specs.CellRef.{ref_cell};
ghost use Rattle.termwiz_storage.specs.CellsLeft.{IsOfCell};
ghost use Rattle.termwiz_surface.specs.{AreMeasured, ArePrintable, IsMeasured, graphemes, measure};

use super::Surface;
use termwiz_cell::emoji::Widths;
use termwiz_line::line::line::Line;
use termwiz_storage::line::cellref::CellRef;
use termwiz_text::split_first_grapheme;

impl<W: Widths> Surface<W> {
    /// Whether each visible cell of a line is one grapheme, with the width that this surface
    /// measures. Such a line is shown as it is by what `diff_lines` and
    /// `diff_against_numbered_line` print.
    pub fn measures(&self, line: &Line) -> bool
        ensures measured { IsTrue result
            ↔ AreMeasured (measure W.width_of self.now.widths) line.now.cells }
        ensures printable { result ≡ true →
            ArePrintable (measure W.width_of self.now.widths) line.now.cells }
    {
        for cell in line.visible_cells() {
            if !is_measured(&self.widths, &cell) {
                return false;
            }
        }
        true
    }
}

// Whether the text of a cell is one grapheme, whose width is measured.
fn is_measured<W: Widths>(widths: &W, cell: &CellRef<'_>) -> bool
    requires { IsOfCell cell.now }
    ensures { IsTrue result ↔ IsMeasured (measure W.width_of widths.now) (ref_cell cell.now) }
{
    let text = cell.str();
    is_grapheme(text) && (cell.width() > 1) == (widths.width(text, None) > 1)
}

// Whether a text is one grapheme.
fn is_grapheme(text: &str) -> bool
    ensures { IsTrue result ↔ (graphemes true text.now ≡ text.now ∷ []) }
{
    match split_first_grapheme(text) {
        Some((_, rest)) => rest.is_empty(),
        None => false,
    }
}
