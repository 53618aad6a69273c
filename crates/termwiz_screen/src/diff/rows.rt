//! The cells that a diff prints, row by row.
ghost use Rattle.std.specs.Prelude.{◌≡◌, ◌+◌, ◌-◌, ◌<◌, ◌≤◌, ◌^◌, ◌∷◌, if◌then◌else◌, [], map};
ghost use Rattle.termwiz_screen.specs.{AreHalved, AreVectors, CellValue, cells_left, region_value};
ghost use Rattle.termwiz_screen.specs.{EndsBlank, HasHalves, IfOk, at_column, deque_len, is_hidden};
ghost use Rattle.termwiz_screen.specs.{IsOfCell, cell_eq, cells_of, print_out, ref_cell, row_need};
ghost use Rattle.termwiz_screen.specs.{List, blank, false, in_row, nat_lt, row_of, stored, visible};
ghost use Rattle.termwiz_screen.specs.{OnOk, band, fold, hides, length, min, need, shows, true, ℕ};

use super::region::Region;
use super::runs::count_same;
use super::writer::DiffWriter;
use std::alloc::AllocError;
use std::collections::VecDeque;
use termwiz_cell::cell::{Cell, CellAttributes};
use termwiz_line::line::line::Line;
use termwiz_storage::line::cellref::{CellRef, VisibleCellIter};

/// Prints the rows of a region of another surface, in order.
pub(super) fn print_rows<'a>(
    writer: &mut DiffWriter<'a>,
    own: &VecDeque<Line>,
    other: &'a VecDeque<Line>,
    padding: &'a Cell,
    region: Region,
) -> Result<(), AllocError>
    requires blank { padding.now ≡ blank }
    requires own_fits { region.x + region.width < 2 ^ 32 }
    requires other_fits { region.other_x + region.width < 2 ^ 32 }
    requires own_rows { region.y + region.height ≤ deque_len own.now }
    requires other_rows { region.other_y + region.height ≤ deque_len other.now }
    requires vectors { AreVectors own.now.items }
    ensures { OnOk result (
        (v w : ℕ) → AreHalved v (cells_of own.now.items) → region.x + region.width ≤ v →
        region.other_x + region.width ≤ w →
        writer.new ≡ fold print_out writer.old (need (map (row_of v) (cells_of own.now.items))
        (map (row_of w) (cells_of other.now.items)) (region_value region))) }
{
    for i in 0..region.height {
        let row = region.y + i;
        print_row(
            writer,
            &own[row],
            &other[region.other_y + i],
            padding,
            region,
            row,
        )?;
    }
    Ok(())
}

/// Prints the rows that lines show, in order.
pub(super) fn print_lines<'a>(
    writer: &mut DiffWriter<'a>,
    own: &VecDeque<Line>,
    lines: &[&'a Line],
    padding: &'a Cell,
    width: usize,
) -> Result<(), AllocError>
    requires blank { padding.now ≡ blank }
    requires fits { width < 2 ^ 32 }
    requires vectors { AreVectors own.now.items }
    ensures { OnOk result (
        AreHalved width (cells_of own.now.items) →
        writer.new ≡ fold print_out writer.old (need (map (row_of width) (cells_of own.now.items))
        (map (λ line. row_of width line.now.cells) lines.now)
        (band width 0 0 (min (deque_len own.now) (length lines.now))))) }
{
    let region = Region::band(width, 0, own.len().min(lines.len()));
    for row in 0..region.height {
        print_row(writer, &own[row], lines[row], padding, region, row)?;
    }
    Ok(())
}

/// Prints one row of a region: the cells that the other line shows and the own one doesn't.
pub(super) fn print_row<'a>(
    writer: &mut DiffWriter<'a>,
    own: &Line,
    other: &'a Line,
    padding: &'a Cell,
    region: Region,
    row: usize,
) -> Result<(), AllocError>
    requires blank { padding.now ≡ blank }
    requires own_fits { region.x + region.width < 2 ^ 32 }
    requires other_fits { region.other_x + region.width < 2 ^ 32 }
    requires vector { own.now.is_vector ≡ true }
    ensures { OnOk result (
        (v w : ℕ) → HasHalves v own.now.cells → region.x + region.width ≤ v →
        region.other_x + region.width ≤ w →
        writer.new ≡ fold print_out writer.old (map (in_row row)
        (row_need (row_of v own.now.cells) region.x
        (row_of w other.now.cells) region.other_x region.width))) }
{
    // Most rows are equal, which is tested without a loop over visible cells.
    if region.x == region.other_x && own.has_same_cells(other) {
        return Ok(());
    }
    print_cells(writer, own.vector_cells(), other, padding, region, row)?;
    Ok(())
}

fn print_cells<'a>(
    writer: &mut DiffWriter<'a>,
    own: &[Cell],
    other: &'a Line,
    padding: &'a Cell,
    region: Region,
    row: usize,
) -> Result<(), AllocError>
    requires blank { padding.now ≡ blank }
    requires own_fits { region.x + region.width < 2 ^ 32 }
    requires other_fits { region.other_x + region.width < 2 ^ 32 }
    ensures { OnOk result (
        (w : ℕ) → region.other_x + region.width ≤ w →
        writer.new ≡ fold print_out writer.old (map (in_row row)
        (row_need own.now region.x (row_of w other.now.cells) region.other_x region.width))) }
{
    let next = print_visible(writer, own, other, padding, region, row)?;
    let met = next.saturating_sub(region.other_x).min(region.width);
    let end = region.x + region.width;
    // After the stored cells of both there are default blanks. The first column there may be the
    // half of a wide own cell.
    let count = end.min(own.len() + 1).saturating_sub(region.x + met);
    print_blanks(writer, own, padding, row, region.x + met, count)?;
    Ok(())
}

// Prints the visible cells of a line at the region's columns, and returns the column after the last
// one.
fn print_visible<'a>(
    writer: &mut DiffWriter<'a>,
    own: &[Cell],
    other: &'a Line,
    padding: &Cell,
    region: Region,
    row: usize,
) -> Result<usize, AllocError>
    requires blank { padding.now ≡ blank }
    requires own_fits { region.x + region.width < 2 ^ 32 }
    requires other_fits { region.other_x + region.width < 2 ^ 32 }
    ensures printed { IfOk result (λ next. (w : ℕ) → region.other_x + region.width ≤ w →
        writer.new ≡ fold print_out writer.old (map (in_row row)
        (row_need own.now region.x (row_of w other.now.cells) region.other_x
        (min region.width (next - region.other_x))))) }
    ensures rest { IfOk result (λ next. (w : ℕ) → next < region.other_x + region.width →
        EndsBlank w (row_of w other.now.cells) next) }
{
    match other.stored_cells() {
        Some(cells) => print_stored(writer, own, cells, padding, region, row),
        None => print_walk(writer, own, other.visible_cells(), padding, region, row),
    }
}

// Prints stored cells at the region's columns, read in step with the own ones, and returns the
// column after the last one.
fn print_stored<'a>(
    writer: &mut DiffWriter<'a>,
    own: &[Cell],
    cells: &'a [Cell],
    padding: &Cell,
    region: Region,
    row: usize,
) -> Result<usize, AllocError>
    requires blank { padding.now ≡ blank }
    requires own_fits { region.x + region.width < 2 ^ 32 }
    requires other_fits { region.other_x + region.width < 2 ^ 32 }
    ensures printed { IfOk result (λ next. (w : ℕ) → region.other_x + region.width ≤ w →
        writer.new ≡ fold print_out writer.old (map (in_row row)
        (row_need own.now region.x (row_of w cells.now) region.other_x
        (min region.width (next - region.other_x))))) }
    ensures rest { IfOk result (λ next. (w : ℕ) → next < region.other_x + region.width →
        EndsBlank w (row_of w cells.now) next) }
{
    let end = cells.len().min(region.other_x + region.width);
    let mut next = first_visible(cells, region.other_x);
    while next < end {
        let cell = &cells[next];
        let column = region.x + (next - region.other_x);
        let shown = print_unless_stored(writer, own, padding, row, column, cell)?;
        next += cell.width();
        if cell.width() == 1 {
            next += if shown {
                count_same(own, column + 1, cells, next, end)
            } else {
                writer.print_run(own, column + 1, cells, next, end)?
            };
        }
    }
    Ok(next)
}

// The first column from this one on that no wide cell hides.
fn first_visible(cells: &[Cell], from: usize) -> usize
    ensures from { from ≤ result }
    ensures visible { hides cells.now result ≡ false }
    ensures hidden { (k : ℕ) → from ≤ k → k < result → hides cells.now k ≡ true }
{
    let mut next = 0;
    while next < from && next < cells.len() {
        next += cells[next].width();
    }
    next.max(from)
}

// Prints a stored cell at a column, unless the own row shows it there, and returns whether it does.
#[inline(always)]
fn print_unless_stored<'a>(
    writer: &mut DiffWriter<'a>,
    own: &[Cell],
    padding: &Cell,
    row: usize,
    column: usize,
    cell: &'a Cell,
) -> Result<bool, AllocError>
    requires blank { padding.now ≡ blank }
    requires fits { column < 2 ^ 32 }
    ensures shown { IfOk result (λ shown. shown ≡ shows own.now column cell.now) }
    ensures printed { OnOk result (
        writer.new ≡ fold print_out writer.old (map (in_row row)
        (if shows own.now column cell.now then []
        else at_column column cell.now ∷ []))) }
{
    // `str` promises that a cell's text is clean.
    let _text = cell.str();
    let lent = CellRef::CellRef {
        cell_index: column,
        cell,
    };
    let shown = is_shown(own, padding, column, &lent);
    if !shown {
        writer.print(row, column, lent)?;
    }
    Ok(shown)
}

// Prints the visible cells of a line that is stored as one text, and returns the column after the
// last one.
fn print_walk<'a>(
    writer: &mut DiffWriter<'a>,
    own: &[Cell],
    cells: VisibleCellIter<'a>,
    padding: &Cell,
    region: Region,
    row: usize,
) -> Result<usize, AllocError>
    requires blank { padding.now ≡ blank }
    requires own_fits { region.x + region.width < 2 ^ 32 }
    requires other_fits { region.other_x + region.width < 2 ^ 32 }
    ensures printed { IfOk result (λ next. (w : ℕ) (cs : List CellValue) →
        cells_left cells.entry ≡ visible cs → region.other_x + region.width ≤ w →
        writer.new ≡ fold print_out writer.old (map (in_row row)
        (row_need own.now region.x (row_of w cs) region.other_x
        (min region.width (next - region.other_x))))) }
    ensures rest { IfOk result (λ next. (w : ℕ) (cs : List CellValue) →
        cells_left cells.entry ≡ visible cs → next < region.other_x + region.width →
        EndsBlank w (row_of w cs) next) }
{
    let end = region.other_x + region.width;
    let mut next = 0;
    for cell in cells {
        if next >= end {
            return Ok(next);
        }
        let width = cell.width();
        if next >= region.other_x {
            let column = region.x + (next - region.other_x);
            print_unless_shown(writer, own, padding, row, column, cell)?;
        }
        next += width;
    }
    Ok(next)
}

// Prints this many default blanks from a column on.
fn print_blanks<'a>(
    writer: &mut DiffWriter<'a>,
    own: &[Cell],
    padding: &'a Cell,
    row: usize,
    from: usize,
    count: usize,
) -> Result<(), AllocError>
    requires blank { padding.now ≡ blank }
    requires fits { from + count ≤ 2 ^ 32 }
    ensures { OnOk result (
        writer.new ≡ fold print_out writer.old (map (in_row row)
        (row_need own.now from [] 0 count))) }
{
    let blank = CellRef::CellRef {
        cell_index: 0,
        cell: padding,
    };
    for k in 0..count {
        print_unless_shown(writer, own, padding, row, from + k, blank)?;
    }
    Ok(())
}

// Prints a cell at a column, unless the own row shows it there.
#[inline(always)]
fn print_unless_shown<'a>(
    writer: &mut DiffWriter<'a>,
    own: &[Cell],
    padding: &Cell,
    row: usize,
    column: usize,
    cell: CellRef<'a>,
) -> Result<(), AllocError>
    requires blank { padding.now ≡ blank }
    requires fits { column < 2 ^ 32 }
    requires cell { IsOfCell cell }
    ensures { OnOk result (
        writer.new ≡ fold print_out writer.old (map (in_row row)
        (if shows own.now column (ref_cell cell.entry) then []
        else at_column column (ref_cell cell.entry) ∷ []))) }
{
    if !is_shown(own, padding, column, &cell) {
        writer.print(row, column, cell)?;
    }
    Ok(())
}

// Whether the row of these cells shows the cell at a column.
#[inline(always)]
fn is_shown(own: &[Cell], padding: &Cell, column: usize, cell: &CellRef<'_>) -> bool
    requires { padding.now ≡ blank }
    ensures { result ≡ shows own.now column (ref_cell cell.now) }
{
    if column < own.len() {
        is_equal(&own[column], cell) && !is_half(own, column)
    } else {
        is_shown_past_end(own, padding, column, cell)
    }
}

// As `is_shown`, for a column after the stored cells, where the padding is shown. It is kept out of
// line, so that the path of stored cells is short.
#[inline(never)]
fn is_shown_past_end(own: &[Cell], padding: &Cell, column: usize, cell: &CellRef<'_>) -> bool
    requires padding { padding.now ≡ blank }
    requires past_end { length own.now ≤ column }
    ensures { result ≡ shows own.now column (ref_cell cell.now) }
{
    is_equal(padding, cell) && !is_half(own, column)
}

// Whether a wide cell hides the cell at the column.
#[inline(always)]
fn is_half(cells: &[Cell], column: usize) -> bool
    ensures { result ≡ is_hidden cells.now column }
{
    column > 0 && column <= cells.len() && cells[column - 1].width() > 1
}

#[inline(always)]
fn is_equal(own: &Cell, cell: &CellRef<'_>) -> bool
    ensures { result ≡ cell_eq own.now (ref_cell cell.now) }
{
    match cell {
        CellRef::CellRef { cell, .. } => *own == **cell,
        CellRef::ClusterRef {
            text,
            width,
            attrs,
            ..
        } => is_piece(own, text, *width, attrs),
    }
}

// Whether the cell has this text, width and attributes.
fn is_piece(own: &Cell, text: &str, width: usize, attrs: &CellAttributes) -> bool
    ensures { result
        ≡ cell_eq own.now (record { text = text.now; wide = nat_lt 1 width; attrs = attrs.now }) }
{
    own.str() == text && ((own.width() > 1) == (width > 1) && *own.attrs() == *attrs)
}
