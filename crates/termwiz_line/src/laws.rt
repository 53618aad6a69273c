//! Laws of the definitions that the contracts cite: of rows, edits and cuts. Each is stated on a
//! function that does nothing.
ghost use Rattle.std.specs.Prelude.{◌≡◌, true};
ghost use Rattle.termwiz_line.specs.{AllColumnsShow, BytesTellTheirCells, CellsHaveRow, ClearPast};
ghost use Rattle.termwiz_line.specs.{ClearClears, ClustersAreOne, ClustersJoin, DoubleClickRange};
ghost use Rattle.termwiz_line.specs.{EqualInAnyForm, PaintPaints, PruningKeepsRow, ResizedIsRow};
ghost use Rattle.termwiz_line.specs.{SetCellPaints, StoredAgainShows, VisibleFixesRow, WalkGrows};
ghost use Rattle.termwiz_line.specs.{VisibleFixesRowOf, WholeIsVisible, WrapsAreAlike, WrapsAreOne};
ghost use Rattle.termwiz_line.specs.{ZonesAreOne};

use crate::line::line::DoubleClickRange;

/// How painting and clearing change what a row shows: which cell is at which column, and which
/// columns it covers. What a row shows determines the row.
pub fn row_laws()
    ensures paint { PaintPaints }
    ensures clear { ClearClears }
    ensures clear_past { ClearPast }
    ensures fixed { VisibleFixesRow }
{}

/// The row of stored cells shows the visible ones of them, which determine it. Visible cells have
/// increasing columns, and are at most as many as the stored ones. Resizing cells in settled form
/// gives their row. Setting a cell paints it in the row, where the stored halves are halves, and
/// pruning changes no row.
pub fn stored_row_laws()
    ensures row { CellsHaveRow }
    ensures fixed { VisibleFixesRowOf }
    ensures walk { WalkGrows }
    ensures resized { ResizedIsRow }
    ensures set_cell { SetCellPaints }
    ensures pruned { PruningKeepsRow }
{}

/// Visible cells that are appended to an empty line, or copied out by all columns, are shown at the
/// same columns.
pub fn edit_laws()
    ensures again { StoredAgainShows }
    ensures all { AllColumnsShow }
{}

/// The cells of a line determine its zones. Its cells, number and flags determine those of the
/// lines into which it is wrapped. The form that stores the cells doesn't matter.
pub fn cut_laws()
    ensures zones { ZonesAreOne }
    ensures wraps { WrapsAreOne }
    ensures alike { WrapsAreAlike }
{}

/// The cells of a line determine its clusters, whichever form stores them. The texts of the
/// clusters, concatenated, are those of the visible cells, and the sum of their widths is that of
/// the cells. Each byte of a cell's text is mapped to the column and the width of that cell.
pub fn cluster_laws()
    ensures one { ClustersAreOne }
    ensures joined { ClustersJoin }
    ensures bytes { BytesTellTheirCells }
{}

/// Lines are equal where cells, number and flags are, whichever form stores the cells. The lists
/// that can be stored as a text are those that are their visible cells with their halves.
pub fn storage_laws()
    ensures equal { EqualInAnyForm }
    ensures whole { WholeIsVisible }
{}

/// `==` of what a double click selects is reflexive.
pub fn click_laws()
    ensures { (a : DoubleClickRange) → ⟦<DoubleClickRange as PartialEq>⟧.eq a a ≡ true }
{}
