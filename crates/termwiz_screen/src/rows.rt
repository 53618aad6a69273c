//! The rows of a surface: lines that all have the number 0.
ghost use Rattle.std.specs.Prelude.{◌≡◌, ◌+◌, ◌∷◌, ◌-◌, ◌<◌, ◌≤◌, ◌++◌, [], length, slice_index_or};
ghost use Rattle.termwiz_screen.specs.{AreFilled, AreLetters, ArePartly, ArePartlyReset, IsPartly};
ghost use Rattle.termwiz_screen.specs.{AreVectors, IfOk, IsPruned, KeepSides, KeepsSide, OnErr, ℕ};
ghost use Rattle.termwiz_screen.specs.{OnOk, blank_line, cells_of, chars, deque_capacity, deque_len};
ghost use Rattle.termwiz_screen.specs.{drop, false, fill, is_plain, list_all, map, needs_box, take};
ghost use Rattle.termwiz_screen.specs.{no_flags, numberless, painted_in, region_down, region_up};
ghost use Rattle.termwiz_screen.specs.{region_reversed, region_turned, replicate, resized, row_at};
ghost use Rattle.termwiz_screen.specs.{row_chars, row_flags, screen_chars, set_letters};
ghost use Rattle.termwiz_screen.specs.{set_run, slice_set, string_bytes, true, with_line_attribute};

mod resizing;

pub use resizing::resize_rows;
use std::alloc::{AllocError, Global};
use std::collections::VecDeque;
use termwiz_cell::cell::{Cell, CellAttributes};
use termwiz_cell::change::{LineAttribute, SEQ_ZERO};
use termwiz_line::line::line::Line;

fn fill_line(line: &mut Line, from: usize, to: usize, cell: &Cell) -> Result<(), AllocError>
    requires { 0 < length line.old.cells }
    ensures ok { OnOk result (
        IsPruned (fill (to - from) from cell.now line.old.cells) line.new.cells) }
    ensures err { from ≤ to → OnErr result (IsPartly to cell.now line.old.cells line.new.cells) }
    ensures side { KeepsSide line.old line.new }
{
    line.fill_range(from..to, cell, SEQ_ZERO)?;
    Ok(())
}

fn push_chars(line: &Line, text: &mut String) -> Result<(), AllocError>
    ensures { OnOk result (
        string_bytes text.new ≡ string_bytes text.old ++ row_chars line.now.cells) }
{
    for cell in line.visible_cells() {
        text.push_str(cell.str())?;
    }
    text.push_str("\n")?;
    Ok(())
}

/// Copies of the rows, each cut or padded to the width.
pub fn resized_lines(
    alloc: Global,
    rows: &VecDeque<Line>,
    width: usize,
) -> Result<Vec<Line>, AllocError>
    ensures { IfOk result (λ lines.
        lines.items ≡ map (λ r. numberless (resized width r)) (cells_of rows.now.items)) }
{
    let mut lines = Vec::with_capacity(alloc, rows.len())?;
    for i in 0..rows.len() {
        lines.push(rows[i].resized(width, SEQ_ZERO)?)?;
    }
    Ok(lines)
}

/// The texts of the rows' visible cells, with a newline after each row.
pub fn chars_of(alloc: Global, rows: &VecDeque<Line>) -> Result<String, AllocError>
    ensures { IfOk result (λ text. string_bytes text ≡ screen_chars (cells_of rows.now.items)) }
{
    let mut text = String::new(alloc);
    for i in 0..rows.len() {
        push_chars(&rows[i], &mut text)?;
    }
    Ok(text)
}

// Appends rows of default blanks.
fn add_blank_rows(
    alloc: Global,
    rows: &mut VecDeque<Line>,
    width: usize,
    count: usize,
) -> Result<(), AllocError>
    requires { deque_len rows.old + count ≤ deque_capacity rows.old }
    ensures { OnOk result (
        rows.new.items ≡ rows.old.items ++ replicate count (blank_line width)) }
{
    for _row in 0..count {
        rows.push_back_reserved(Line::with_width(alloc, width, SEQ_ZERO)?);
    }
    Ok(())
}

/// Rows of default blanks.
pub fn blank_rows(alloc: Global, width: usize, height: usize) -> Result<VecDeque<Line>, AllocError>
    ensures { IfOk result (λ rows. rows.items ≡ replicate height (blank_line width)) }
{
    let mut rows = VecDeque::with_capacity(alloc, height)?;
    add_blank_rows(alloc, &mut rows, width, height)?;
    Ok(rows)
}

/// Paints a cell in a row.
pub fn paint_row(
    rows: &mut VecDeque<Line>,
    width: usize,
    x: usize,
    y: usize,
    cell: Cell,
) -> Result<(), AllocError>
    requires { y < deque_len rows.old }
    ensures ok { OnOk result (
        cells_of rows.new.items
        ≡ slice_set (cells_of rows.old.items) y (painted_in width x cell
        (row_at (cells_of rows.old.items) y))) }
    ensures err { OnErr result (cells_of rows.new.items ≡ cells_of rows.old.items) }
    ensures sides { KeepSides rows.old.items rows.new.items }
{
    // A wide cell in the last column is cut.
    rows[y].set_cell_within(x, cell, width, SEQ_ZERO)?;
    Ok(())
}

/// Paints a run of printable ASCII in a row, with a pen that takes no memory.
pub fn paint_run(
    rows: &mut VecDeque<Line>,
    x: usize,
    y: usize,
    run: &str,
    pen: &CellAttributes,
) -> Result<(), AllocError>
    requires inside { y < deque_len rows.old }
    requires plain { list_all is_plain run.now ≡ true }
    requires unboxed { needs_box pen.now ≡ false }
    ensures ok { OnOk result (
        cells_of rows.new.items
        ≡ slice_set (cells_of rows.old.items) y (set_run x run.now pen.now
        (row_at (cells_of rows.old.items) y))) }
    ensures err { OnErr result (cells_of rows.new.items ≡ cells_of rows.old.items) }
    ensures sides { KeepSides rows.old.items rows.new.items }
{
    rows[y].set_run(x, run, pen, SEQ_ZERO)?;
    Ok(())
}

/// Paints a run of letters in a row, each of two columns, with a pen that takes no memory.
pub fn paint_letters(
    rows: &mut VecDeque<Line>,
    x: usize,
    y: usize,
    run: &str,
    pen: &CellAttributes,
) -> Result<(), AllocError>
    requires inside { y < deque_len rows.old }
    requires letters { AreLetters run.now }
    requires unboxed { needs_box pen.now ≡ false }
    ensures ok { OnOk result (
        cells_of rows.new.items
        ≡ slice_set (cells_of rows.old.items) y (set_letters x (chars run.now) pen.now
        (row_at (cells_of rows.old.items) y))) }
    ensures err { OnErr result (cells_of rows.new.items ≡ cells_of rows.old.items) }
    ensures sides { KeepSides rows.old.items rows.new.items }
{
    rows[y].set_letters(x, run, pen, SEQ_ZERO)?;
    Ok(())
}

/// Removes row 0, and appends a row of default blanks, which reuses its memory.
pub fn scroll_rows(rows: &mut VecDeque<Line>, width: usize) -> Result<(), AllocError>
    requires some { 0 < deque_len rows.old }
    requires vectors { AreVectors rows.old.items }
    ensures ok { OnOk result (rows.new.items ≡ drop 1 rows.old.items ++ blank_line width ∷ []) }
    ensures err { OnErr result (rows.new.items ≡ rows.old.items) }
{
    rows[0].blank_out(width, SEQ_ZERO)?;
    if let Some(row) = rows.pop_front() {
        rows.push_back_reserved(row);
    }
    Ok(())
}

// Replaces `count` rows, from `first` on, by rows of default blanks. After an error each row is
// unchanged, or has default blanks.
fn blank_some(
    rows: &mut VecDeque<Line>,
    width: usize,
    first: usize,
    count: usize,
) -> Result<(), AllocError>
    requires inside { first + count ≤ deque_len rows.old }
    requires vectors { AreVectors rows.old.items }
    ensures ok { OnOk result (
        rows.new.items ≡ take first rows.old.items
        ++ (replicate count (blank_line width) ++ drop (first + count) rows.old.items)) }
    ensures err { OnErr result (
        ArePartlyReset (blank_line width) rows.old.items rows.new.items) }
    ensures len { deque_len rows.new ≡ deque_len rows.old }
{
    for i in first..first + count {
        rows[i].blank_out(width, SEQ_ZERO)?;
    }
    Ok(())
}

// Reverses the order of the rows of a region.
fn reverse_region(rows: &mut VecDeque<Line>, first: usize, size: usize)
    requires { first + size ≤ deque_len rows.old }
    ensures items { rows.new.items ≡ region_reversed rows.old.items first size }
    ensures len { deque_len rows.new ≡ deque_len rows.old }
{
    for i in 0..size / 2 {
        rows.swap(first + i, first + size - 1 - i);
    }
}

// Moves the first rows of a region after its others. No row outside the region is moved.
fn turn_by_reversals(rows: &mut VecDeque<Line>, first: usize, size: usize, count: usize)
    requires inside { first + size ≤ deque_len rows.old }
    requires within { count ≤ size }
    ensures { rows.new.items ≡ region_turned rows.old.items first size count }
{
    reverse_region(rows, first, count);
    reverse_region(rows, first + count, size - count);
    reverse_region(rows, first, size);
}

// Moves the first rows of a region after its others, and faster where the region is all rows.
fn turn_region(rows: &mut VecDeque<Line>, first: usize, size: usize, count: usize)
    requires inside { first + size ≤ deque_len rows.old }
    requires within { count ≤ size }
    ensures { rows.new.items ≡ region_turned rows.old.items first size count }
{
    // All rows are rotated by moving the smaller part of them.
    if size == rows.len() {
        rows.rotate_left(count);
    } else {
        turn_by_reversals(rows, first, size, count);
    }
}

/// Scrolls a region of rows up: removes its first `count` rows, and adds as many rows of default
/// blanks below the others. After an error each row is unchanged, or has default blanks.
pub fn scroll_region_up(
    rows: &mut VecDeque<Line>,
    width: usize,
    first: usize,
    size: usize,
    count: usize,
) -> Result<(), AllocError>
    requires inside { first + size ≤ deque_len rows.old }
    requires vectors { AreVectors rows.old.items }
    ensures ok { OnOk result (
        rows.new.items ≡ region_up (blank_line width) rows.old.items first size count) }
    ensures err { OnErr result (
        ArePartlyReset (blank_line width) rows.old.items rows.new.items) }
{
    let gone = count.min(size);
    blank_some(rows, width, first, gone)?;
    turn_region(rows, first, size, gone);
    Ok(())
}

/// Scrolls a region of rows down: removes its last `count` rows, and adds as many rows of default
/// blanks above the others. After an error each row is unchanged, or has default blanks.
pub fn scroll_region_down(
    rows: &mut VecDeque<Line>,
    width: usize,
    first: usize,
    size: usize,
    count: usize,
) -> Result<(), AllocError>
    requires inside { first + size ≤ deque_len rows.old }
    requires vectors { AreVectors rows.old.items }
    ensures ok { OnOk result (
        rows.new.items ≡ region_down (blank_line width) rows.old.items first size count) }
    ensures err { OnErr result (
        ArePartlyReset (blank_line width) rows.old.items rows.new.items) }
{
    let gone = count.min(size);
    let kept = size - gone;
    blank_some(rows, width, first + kept, gone)?;
    turn_region(rows, first, size, kept);
    Ok(())
}

/// Fills one row from a column on, and cuts the default blanks at its end.
pub fn fill_row(
    rows: &mut VecDeque<Line>,
    width: usize,
    x: usize,
    y: usize,
    cell: &Cell,
) -> Result<(), AllocError>
    requires inside { y < deque_len rows.old }
    requires some { 0 < length (row_at (cells_of rows.old.items) y) }
    ensures ok { OnOk result (
        AreFilled width x y (y + 1) cell.now (cells_of rows.old.items) (cells_of rows.new.items)) }
    ensures err { x ≤ width →
        OnErr result (
        ArePartly width cell.now (cells_of rows.old.items) (cells_of rows.new.items)) }
    ensures sides { KeepSides rows.old.items rows.new.items }
{
    fill_line(&mut rows[y], x, width, cell)?;
    Ok(())
}

/// Fills one row from a column on, and all rows below it, and cuts the default blanks at their
/// ends.
pub fn fill_rows(
    rows: &mut VecDeque<Line>,
    width: usize,
    x: usize,
    y: usize,
    cell: &Cell,
) -> Result<(), AllocError>
    requires inside { y < deque_len rows.old }
    requires some { (j : ℕ) → j < deque_len rows.old →
        0 < length (row_at (cells_of rows.old.items) j) }
    ensures ok { OnOk result (
        AreFilled width x y (length (cells_of rows.old.items)) cell.now (cells_of rows.old.items)
        (cells_of rows.new.items)) }
    ensures err { x ≤ width →
        OnErr result (
        ArePartly width cell.now (cells_of rows.old.items) (cells_of rows.new.items)) }
    ensures sides { KeepSides rows.old.items rows.new.items }
{
    fill_row(rows, width, x, y, cell)?;
    for j in y + 1..rows.len() {
        fill_line(&mut rows[j], 0, width, cell)?;
    }
    Ok(())
}

/// Sets how large a row is shown.
pub fn set_line_attribute(rows: &mut VecDeque<Line>, y: usize, attribute: LineAttribute)
    requires { y < deque_len rows.old }
    ensures cells { cells_of rows.new.items ≡ cells_of rows.old.items }
    ensures flags { row_flags rows.new.items
        ≡ slice_set (row_flags rows.old.items) y
        (with_line_attribute attribute (slice_index_or (row_flags rows.old.items) y no_flags)) }
    ensures vectors { AreVectors rows.old.items → AreVectors rows.new.items }
{
    show_line(&mut rows[y], attribute);
}

fn show_line(line: &mut Line, attribute: LineAttribute)
    ensures cells { line.new.cells ≡ line.old.cells }
    ensures flags { line.new.flags ≡ with_line_attribute attribute line.old.flags }
    ensures vector { line.new.is_vector ≡ line.old.is_vector }
{
    match attribute {
        LineAttribute::DoubleHeightTopHalfLine => line.set_double_height_top(SEQ_ZERO),
        LineAttribute::DoubleHeightBottomHalfLine => line.set_double_height_bottom(SEQ_ZERO),
        LineAttribute::DoubleWidthLine => line.set_double_width(SEQ_ZERO),
        LineAttribute::SingleWidthLine => line.set_single_width(SEQ_ZERO),
    }
}
