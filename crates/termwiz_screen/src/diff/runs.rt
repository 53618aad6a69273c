//! Runs of cells, which need fewer tests than single cells.
ghost use Rattle.std.specs.Prelude.{◌≡◌, ◌+◌, ◌-◌, ◌<◌, ◌≤◌, ◌↔◌, IfOk, IfSome, IsTrue, false};
ghost use Rattle.termwiz_screen.specs.{IsPrintedTo, cell_eq, ended_at, ends_printable, is_plain, ℕ};
ghost use Rattle.termwiz_screen.specs.{PrintedOut, is_wide, last_is, length, plain_cell, stored};
ghost use Rattle.termwiz_screen.specs.{true};

use std::alloc::AllocError;
use termwiz_cell::cell::{Cell, CellAttributes};
use termwiz_line::entries::EntryList;

/// How many narrow cells from these columns on are the same. No half follows a visible narrow cell,
/// so they are visible too.
#[inline(never)]
pub(super) fn count_same(
    own: &[Cell],
    column: usize,
    cells: &[Cell],
    from: usize,
    end: usize,
) -> usize
    requires within { from ≤ end }
    requires stored { end ≤ length cells.now }
    ensures end { from + result ≤ end }
    ensures same { (k : ℕ) → k < result →
        stored own.now (column + k) ≡ stored cells.now (from + k) }
    ensures narrow { (k : ℕ) → k < result → is_wide (stored cells.now (from + k)) ≡ false }
{
    let count = own.len().saturating_sub(column).min(end - from);
    for k in 0..count {
        if !is_same_narrow(&own[column + k], &cells[from + k]) {
            return k;
        }
    }
    count
}

// Whether both are the same narrow cell. Of plain cells only the characters and the attributes are
// compared.
#[inline(always)]
fn is_same_narrow(own: &Cell, cell: &Cell) -> bool
    ensures { IsTrue result ↔ ((own.now ≡ cell.now) × (is_wide cell.now ≡ false)) }
{
    match own.as_plain() {
        Some(byte) => is_plain_cell(cell, byte, own.attrs()),
        None => is_same_other(own, cell),
    }
}

// Whether both are the same narrow cell, whatever its text. It is kept out of line, so that the
// path of plain cells is short.
#[inline(never)]
fn is_same_other(own: &Cell, cell: &Cell) -> bool
    ensures { IsTrue result ↔ ((own.now ≡ cell.now) × (is_wide cell.now ≡ false)) }
{
    *own == *cell && cell.width() == 1
}

// Whether the cell is the plain one of this character and these attributes.
#[inline(always)]
fn is_plain_cell(cell: &Cell, byte: u8, attrs: &CellAttributes) -> bool
    requires { is_plain byte ≡ true }
    ensures { IsTrue result ↔ (cell.now ≡ plain_cell byte attrs.now) }
{
    match cell.as_plain() {
        Some(other) => other == byte && *cell.attrs() == *attrs,
        None => false,
    }
}

/// Appends the texts of plain cells with these attributes, from these columns on, that the own row
/// doesn't show, to the text at the end of the entries, and returns their number.
#[inline(always)]
pub(super) fn push_run(
    entries: &mut EntryList,
    pen: &CellAttributes,
    own: &[Cell],
    column: usize,
    cells: &[Cell],
    from: usize,
    end: usize,
) -> Result<usize, AllocError>
    requires within { from ≤ end }
    requires stored { end ≤ length cells.now }
    requires text { last_is ends_printable entries.old ≡ true }
    ensures end { IfOk result (λ count. from + count ≤ end) }
    ensures printed { IfOk result (λ count. (x q n row : ℕ) (d : PrintedOut) →
        column ≡ x + (from - q) → end ≤ q + n →
        IsPrintedTo own.now x cells.now q n row d
        (ended_at entries.old column row pen.now) from →
        IsPrintedTo own.now x cells.now q n row d
        (ended_at entries.new (column + count) row pen.now) (from + count)) }
{
    let count = own.len().saturating_sub(column).min(end - from);
    for k in 0..count {
        match other_plain(&own[column + k], &cells[from + k], pen) {
            Some(byte) => entries.push_plain(byte)?,
            None => return Ok(k),
        }
    }
    Ok(count)
}

// The character of a plain cell with these attributes, if the own cell differs.
#[inline(always)]
fn other_plain(own: &Cell, cell: &Cell, attrs: &CellAttributes) -> Option<u8>
    ensures plain { IfSome result (λ byte. is_plain byte ≡ true) }
    ensures cell { IfSome result (λ byte. cell.now ≡ plain_cell byte attrs.now) }
    ensures other { IfSome result (λ byte. cell_eq own.now cell.now ≡ false) }
{
    let byte = cell.as_plain()?;
    if *own == *cell {
        return None;
    }
    if *cell.attrs() == *attrs {
        return Some(byte);
    }
    None
}
