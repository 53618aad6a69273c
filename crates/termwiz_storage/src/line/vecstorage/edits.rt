//! Edits that move stored cells.
ghost use Rattle.std.specs.Prelude.{◌≡◌, ◌∷◌, ◌+◌, ◌<◌, ◌≤◌, ◌-◌, ◌++◌, ◌&&◌, if◌then◌else◌, []};
ghost use Rattle.termwiz_storage.specs.{IfOk, OnErr, OnOk, blank, columns_between, drop, erased};
ghost use Rattle.termwiz_storage.specs.{erased_within, false, half, insert, inserted, is_wide, not};
ghost use Rattle.termwiz_storage.specs.{inserted_at_margin, length, nat_le, padded, remove, take};
ghost use Rattle.termwiz_storage.specs.{removed, removed_at_margin, replicate, vec_capacity};
ghost use Rattle.termwiz_storage.specs.{fill, is_plain, needs_box, plain_cell, put_run, true};
ghost use Rattle.termwiz_storage.specs.{vec_len, visible, with_half, with_halves};

use super::lists::put_copies;
use crate::line::vecstorage::{VecStorage, end_of, half_of, pad_cells};
use std::alloc::{AllocError, Global};
use termwiz_cell::cell::{Cell, CellAttributes};

impl VecStorage {
    /// This many copies of a cell.
    pub(crate) fn copies(alloc: Global, len: usize, cell: Cell) -> Result<VecStorage, AllocError>
        ensures { IfOk result (λ storage. storage ≡ replicate len cell) }
    {
        let owns = cell.owns_memory();
        let mut cells = Vec::new(alloc);
        VecCloneMethods::resize(&mut cells, len, cell)?;
        let used = len;
        Ok(VecStorage { cells, used, owns })
    }

    /// Removes the stored cell at a column, if any. A wide cell stored directly before it becomes a
    /// blank with its attributes.
    pub(crate) fn remove_cell(&mut self, x: usize)
        ensures { self.new ≡ removed x self.old }
    {
        if x < self.cells.len() {
            self.tear(x);
            take_out(&mut self.cells, x);
        }
    }

    /// Removes the cell at a column, if any, as `remove_cell` does, and then appends a default
    /// blank.
    pub(crate) fn erase_cell(&mut self, x: usize)
        ensures { self.new ≡ erased x self.old }
    {
        if x < self.cells.len() {
            self.tear(x);
            shift_out(&mut self.cells, x);
        }
    }

    /// Removes the cell at a column, if any, as `remove_cell` does, and then inserts a blank with
    /// these attributes in the column before `margin`, where the list reaches up to that column. An
    /// error leaves the list unchanged.
    pub(crate) fn erase_cell_with_margin(
        &mut self,
        x: usize,
        margin: usize,
        attrs: CellAttributes,
    ) -> Result<(), AllocError>
        requires { 1 ≤ margin }
        ensures ok { OnOk result (self.new ≡ erased_within x margin attrs self.old) }
        ensures err { OnErr result (self.new ≡ self.old) }
    {
        let blank = Cell::blank_with_attrs(attrs);
        let owned = blank.owns_memory();
        if x < self.cells.len() {
            self.tear(x);
            shift_to_margin(&mut self.cells, x, margin, blank);
            self.used = self.cells.len();
            self.owns |= owned;
            return Ok(());
        }
        insert_at_margin(&mut self.cells, margin, blank)?;
        self.used = self.cells.len();
        self.owns |= owned;
        Ok(())
    }

    /// Inserts a cell at a column, and the half of a wide one after it. First the stored cell in
    /// the column before `margin` is removed, if any, and the list is padded with default blanks up
    /// to the column. It also fails at a column past the greatest `usize`. An error leaves the list
    /// unchanged.
    pub(crate) fn insert_cell(
        &mut self,
        x: usize,
        cell: Cell,
        margin: usize,
    ) -> Result<(), AllocError>
        requires { 1 ≤ margin }
        ensures ok { OnOk result (self.new ≡ inserted x cell margin self.old) }
        ensures err { OnErr result (self.new ≡ self.old) }
    {
        let owned = cell.owns_memory();
        insert_moving(&mut self.cells, x, cell, margin)?;
        self.used = self.cells.len();
        self.owns |= owned;
        Ok(())
    }

    /// Sets the cell of a character of printable ASCII in each of the columns `from..to`, in order,
    /// with attributes that take no memory. An error leaves the list unchanged.
    pub(crate) fn set_copies(
        &mut self,
        from: usize,
        to: usize,
        byte: u8,
        attrs: &CellAttributes,
    ) -> Result<(), AllocError>
        requires plain { is_plain byte ≡ true }
        requires unboxed { needs_box attrs.now ≡ false }
        ensures ok { OnOk result (
            self.new ≡ fill (to - from) from (plain_cell byte attrs.now) self.old) }
        ensures err { OnErr result (self.new ≡ self.old) }
    {
        if from < to {
            self.make_room(from, to)?;
            self.put_copies(from, to - from, byte, attrs);
        }
        Ok(())
    }

    // Stores the cell of the character in `count` columns from `from` on.
    fn put_copies(&mut self, from: usize, count: usize, byte: u8, attrs: &CellAttributes)
        requires plain { is_plain byte ≡ true }
        requires unboxed { needs_box attrs.now ≡ false }
        requires room { from + count ≤ length self.old }
        ensures { self.new ≡ put_run from (replicate count byte) attrs.now self.old }
    {
        self.used = self.used.max(from + count);
        put_copies(&mut self.cells, from, count, byte, attrs, self.owns);
    }

    /// Keeps the stored cells before a column, and returns the rest. An error leaves the list
    /// unchanged.
    pub(crate) fn split_off(&mut self, at: usize) -> Result<VecStorage, AllocError>
        ensures kept { OnOk result (self.new ≡ take at self.old) }
        ensures rest { IfOk result (λ rest. rest ≡ drop at self.old) }
        ensures err { OnErr result (self.new ≡ self.old) }
    {
        let at = at.min(self.cells.len());
        let rest = self.cells.split_off(at)?;
        self.used = self.used.min(at);
        Ok(VecStorage {
            used: rest.len(),
            cells: rest,
            owns: self.owns,
        })
    }

    /// Appends the visible cells of another list, each wide one followed by its half. An error
    /// leaves the list unchanged.
    pub(crate) fn append_visible(&mut self, other: &VecStorage) -> Result<(), AllocError>
        ensures ok { OnOk result (self.new ≡ self.old ++ with_halves (visible other.now)) }
        ensures err { OnErr result (self.new ≡ self.old) }
    {
        let mut more = other.columns(0, other.len())?;
        self.cells.append(&mut more.cells)?;
        self.used = self.cells.len();
        self.owns |= more.owns;
        Ok(())
    }

    /// The visible cells that begin in the columns `from..to`, each wide one followed by its half.
    pub(crate) fn columns(&self, from: usize, to: usize) -> Result<VecStorage, AllocError>
        ensures { IfOk result (λ cells. cells ≡ columns_between from to self.now) }
    {
        let mut out = Vec::new(self.allocator());
        push_columns(&mut out, &self.cells, from, to)?;
        Ok(VecStorage::new(out))
    }
}

// Removes the cell at a column, so the list has room for another.
fn take_out(cells: &mut Vec<Cell>, x: usize)
    requires { x < vec_len cells.old }
    ensures items { cells.new.items ≡ remove cells.old.items x }
    ensures len { vec_len cells.new + 1 ≡ vec_len cells.old }
    ensures room { vec_len cells.new < vec_capacity cells.new }
    ensures capacity { vec_capacity cells.new ≡ vec_capacity cells.old }
{
    cells.remove(x);
}

// Removes the cell at a column, and appends a default blank.
fn shift_out(cells: &mut Vec<Cell>, x: usize)
    requires { x < vec_len cells.old }
    ensures { cells.new.items ≡ remove cells.old.items x ++ blank ∷ [] }
{
    take_out(cells, x);
    cells.push(Cell::blank()).unwrap();
}

// Removes the cell at a column, and inserts one in the column before `margin`, where the list
// reaches up to it.
fn shift_to_margin(cells: &mut Vec<Cell>, x: usize, margin: usize, cell: Cell)
    requires place { x < vec_len cells.old }
    requires margin { 1 ≤ margin }
    ensures { cells.new.items ≡ inserted_at_margin margin cell (remove cells.old.items x) }
{
    take_out(cells, x);
    insert_at_margin(cells, margin, cell).unwrap();
}

// Inserts a cell in the column before `margin`, where the list reaches up to it.
fn insert_at_margin(cells: &mut Vec<Cell>, margin: usize, cell: Cell) -> Result<(), AllocError>
    requires { 1 ≤ margin }
    ensures ok { OnOk result (cells.new.items ≡ inserted_at_margin margin cell cells.old.items) }
    ensures err { OnErr result (cells.new.items ≡ cells.old.items) }
    ensures full { OnErr result (vec_capacity cells.old ≤ vec_len cells.old) }
{
    if margin - 1 <= cells.len() {
        cells.insert(margin - 1, cell)?;
    }
    Ok(())
}

// Removes the cell in the column before `margin`, if any.
fn remove_at_margin(cells: &mut Vec<Cell>, margin: usize)
    requires { 1 ≤ margin }
    ensures items { cells.new.items ≡ removed_at_margin margin cells.old.items }
    ensures capacity { vec_capacity cells.new ≡ vec_capacity cells.old }
{
    if margin <= cells.len() {
        take_out(cells, margin - 1);
    }
}

// How many of `len` cells are left once the one in the column before `margin` is removed.
fn len_before_margin(len: usize, margin: usize) -> usize
    requires { 1 ≤ margin }
    ensures { result ≡ (if nat_le margin len then len - 1 else len) }
{
    if margin <= len {
        return len - 1;
    }
    len
}

// Removes the cell in the column before `margin`, and pads up to column `x`, with room for
// `columns` more cells. An error leaves the list unchanged.
fn make_gap(
    cells: &mut Vec<Cell>,
    x: usize,
    margin: usize,
    columns: usize,
) -> Result<(), AllocError>
    requires { 1 ≤ margin }
    ensures ok { OnOk result (
        cells.new.items ≡ padded x (removed_at_margin margin cells.old.items)) }
    ensures room { OnOk result (vec_len cells.new + columns ≤ vec_capacity cells.new) }
    ensures err { OnErr result (cells.new.items ≡ cells.old.items) }
{
    let len = cells.len();
    let end = end_of(x.max(len_before_margin(len, margin)), columns)?;
    cells.reserve(end.saturating_sub(len))?;
    remove_at_margin(cells, margin);
    pad_cells(cells, x).unwrap();
    Ok(())
}

// Inserts a cell. The list has room for it.
fn insert_in_gap(cells: &mut Vec<Cell>, x: usize, cell: Cell)
    requires place { x ≤ vec_len cells.old }
    requires room { vec_len cells.old < vec_capacity cells.old }
    ensures items { cells.new.items ≡ insert cells.old.items x cell }
    ensures len { vec_len cells.new ≡ vec_len cells.old + 1 }
    ensures capacity { vec_capacity cells.old ≤ vec_capacity cells.new }
{
    cells.insert(x, cell).unwrap();
}

// Inserts a cell, and the half of a wide one after it, once the cell in the column before `margin`
// is removed.
fn insert_moving(
    cells: &mut Vec<Cell>,
    x: usize,
    cell: Cell,
    margin: usize,
) -> Result<(), AllocError>
    requires { 1 ≤ margin }
    ensures ok { OnOk result (cells.new.items ≡ inserted x cell margin cells.old.items) }
    ensures err { OnErr result (cells.new.items ≡ cells.old.items) }
{
    if cell.width() > 1 {
        let half = half_of(&cell)?;
        make_gap(cells, x, margin, 2)?;
        insert_in_gap(cells, x, half);
        insert_in_gap(cells, x, cell);
        return Ok(());
    }
    if x < margin && margin <= cells.len() {
        insert_before_margin(cells, x, cell, margin);
        return Ok(());
    }
    make_gap(cells, x, margin, 1)?;
    insert_in_gap(cells, x, cell);
    Ok(())
}

// Inserts a cell, and removes the one in the column before `margin`, in one pass.
fn insert_before_margin(cells: &mut Vec<Cell>, x: usize, cell: Cell, margin: usize)
    requires before { x < margin }
    requires within { margin ≤ vec_len cells.old }
    ensures { cells.new.items ≡ insert (remove cells.old.items (margin - 1)) x cell }
{
    push_along(&mut cells[x..margin], cell);
}

// Moves each cell by one, stores the new one at the front, and drops the last one.
fn push_along(cells: &mut [Cell], cell: Cell)
    requires { 0 < length cells.old }
    ensures { cells.new ≡ take (length cells.old) (cell ∷ cells.old) }
{
    cells.rotate_right(1);
    cells[0] = cell;
}

/// Pushes a cell, and the half of a wide one after it. An error may leave a wide cell without its
/// half.
#[doc(hidden)]
pub fn push_with_half(out: &mut Vec<Cell>, cell: Cell) -> Result<(), AllocError>
    ensures { OnOk result (out.new.items ≡ out.old.items ++ with_half cell) }
{
    if cell.width() > 1 {
        push_wide(out, cell)?;
    } else {
        out.push(cell)?;
    }
    Ok(())
}

fn push_wide(out: &mut Vec<Cell>, cell: Cell) -> Result<(), AllocError>
    ensures { OnOk result (out.new.items ≡ out.old.items ++ cell ∷ half cell ∷ []) }
{
    let half = half_of(&cell)?;
    out.push(cell)?;
    out.push(half)?;
    Ok(())
}

// Whether a cell at column `i` is visible, and not before column `from`.
fn is_shown(i: usize, from: usize, hidden: bool) -> bool
    ensures { result ≡ (nat_le from i && not hidden) }
{
    i >= from && !hidden
}

/// Whether a cell, which may be hidden itself, hides the next one.
pub(crate) fn hides_next(cell: &Cell, hidden: bool) -> bool
    ensures { result ≡ (is_wide cell.now && not hidden) }
{
    cell.width() > 1 && !hidden
}

// Pushes a copy of a cell that is shown, and the half of a wide one.
fn push_where(out: &mut Vec<Cell>, cell: &Cell, shown: bool) -> Result<(), AllocError>
    ensures { OnOk result (
        out.new.items ≡ out.old.items ++ (if shown then with_half cell.now else [])) }
{
    if shown {
        push_with_half(out, cell.clone()?)?;
    }
    Ok(())
}

// Pushes copies of the visible cells that begin in the columns `from..to`, with their halves.
fn push_columns(
    out: &mut Vec<Cell>,
    cells: &[Cell],
    from: usize,
    to: usize,
) -> Result<(), AllocError>
    ensures { OnOk result (out.new.items ≡ out.old.items ++ columns_between from to cells.now) }
{
    let mut hidden = false;
    for i in 0..to.min(cells.len()) {
        let cell = &cells[i];
        push_where(out, cell, is_shown(i, from, hidden))?;
        hidden = hides_next(cell, hidden);
    }
    Ok(())
}
