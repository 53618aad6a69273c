//! The lists of changes of diffs.
ghost use Rattle.std.specs.Prelude.{◌≡◌, ◌-◌, ◌<◌, ◌^◌, ◌∷◌, [], IfOk, length, map, min};
ghost use Rattle.termwiz_screen.specs.{AreHalved, AreVectors, band, blank, cells_of, change_value};
ghost use Rattle.termwiz_screen.specs.{cut, deque_len, diff, region_value, row_of};

use super::region::Region;
use super::rows::{print_lines, print_row, print_rows};
use super::writer::DiffWriter;
use std::alloc::{AllocError, Global};
use std::collections::VecDeque;
use termwiz_cell::cell::Cell;
use termwiz_cell::change::Change;
use termwiz_line::line::line::Line;

/// The changes that print what own rows lack of a region of other rows, each of its own width.
pub fn diff_rows(
    alloc: Global,
    own: &VecDeque<Line>,
    width: usize,
    other: &VecDeque<Line>,
    other_width: usize,
    region: Region,
) -> Result<Vec<Change>, AllocError>
    requires fits { width < 2 ^ 32 }
    requires other_fits { other_width < 2 ^ 32 }
    requires vectors { AreVectors own.now.items }
    requires halved { AreHalved width (cells_of own.now.items) }
    ensures { IfOk result (λ l.
        map change_value l.items
        ≡ diff (map (row_of width) (cells_of own.now.items))
        (map (row_of other_width) (cells_of other.now.items))
        (cut (region_value region) width (deque_len own.now) other_width (deque_len other.now))) }
{
    let region = region.cut((width, own.len()), (other_width, other.len()));
    if region.is_empty() {
        return Ok(Vec::new(alloc));
    }
    let padding = Cell::blank();
    let mut writer = DiffWriter::new(alloc);
    print_rows(&mut writer, own, other, &padding, region)?;
    writer.into_vec()
}

/// The changes that print what the first own rows lack of lines.
pub fn diff_lines(
    alloc: Global,
    own: &VecDeque<Line>,
    width: usize,
    lines: Vec<&Line>,
) -> Result<Vec<Change>, AllocError>
    requires fits { width < 2 ^ 32 }
    requires vectors { AreVectors own.now.items }
    requires halved { AreHalved width (cells_of own.now.items) }
    ensures { IfOk result (λ l.
        map change_value l.items
        ≡ diff (map (row_of width) (cells_of own.now.items))
        (map (λ line. row_of width line.now.cells) lines.entry.items)
        (band width 0 0 (min (deque_len own.now) (length lines.entry.items)))) }
{
    diff_padded(alloc, own, width, lines, &Cell::blank())
}

// As `diff_lines`. The caller also lends the cell that pads a line.
fn diff_padded<'a>(
    alloc: Global,
    own: &VecDeque<Line>,
    width: usize,
    lines: Vec<&'a Line>,
    padding: &'a Cell,
) -> Result<Vec<Change>, AllocError>
    requires blank { padding.now ≡ blank }
    requires fits { width < 2 ^ 32 }
    requires vectors { AreVectors own.now.items }
    requires halved { AreHalved width (cells_of own.now.items) }
    ensures { IfOk result (λ l.
        map change_value l.items
        ≡ diff (map (row_of width) (cells_of own.now.items))
        (map (λ line. row_of width line.now.cells) lines.entry.items)
        (band width 0 0 (min (deque_len own.now) (length lines.entry.items)))) }
{
    let mut writer = DiffWriter::new(alloc);
    print_lines(&mut writer, own, &lines, padding, width)?;
    writer.into_vec()
}

/// The changes that print what an own row lacks of a line, or none where there is no such row.
pub fn diff_line(
    alloc: Global,
    own: &VecDeque<Line>,
    width: usize,
    row: usize,
    line: &Line,
) -> Result<Vec<Change>, AllocError>
    requires fits { width < 2 ^ 32 }
    requires vectors { AreVectors own.now.items }
    requires halved { AreHalved width (cells_of own.now.items) }
    ensures { IfOk result (λ l.
        map change_value l.items
        ≡ diff (map (row_of width) (cells_of own.now.items)) (row_of width line.now.cells ∷ [])
        (band width row 0 (min 1 (deque_len own.now - row)))) }
{
    if row >= own.len() {
        return Ok(Vec::new(alloc));
    }
    let padding = Cell::blank();
    let mut writer = DiffWriter::new(alloc);
    let region = Region::band(width, row, 1);
    print_row(&mut writer, &own[row], line, &padding, region, row)?;
    writer.into_vec()
}
