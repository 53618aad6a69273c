//! Cells stored one by one.
ghost use Rattle.std.specs.Prelude.{◌≡◌, ◌↔◌, ◌<◌, ◌≤◌, ◌+◌, ◌-◌, ◌*◌, ◌++◌, ◌∷◌, [], option_map};
ghost use Rattle.std.specs.Prelude.{replicate, vec_capacity};
ghost use Rattle.termwiz_storage.specs.{AreLetters, IsBlanked, IsFilledTo, LendsCells, set_letters};
ghost use Rattle.termwiz_storage.specs.{IfOk, IsOfCell, is_linked, needs_box, ref_index, slice_set};
ghost use Rattle.termwiz_storage.specs.{IfSome, IsKept, IsTrue, length, padded, vec_len, visible};
ghost use Rattle.termwiz_storage.specs.{IsOk, cell_at, decided, is_wide, put_run, resized, set_run};
ghost use Rattle.termwiz_storage.specs.{OnErr, OnOk, blank, chars, false, fill, hides, sem, stored};
ghost use Rattle.termwiz_storage.specs.{cells_eq, is_plain, list_all, list_any, ref_cell, set_cell};
ghost use Rattle.termwiz_storage.specs.{cells_eq-Decides, partial_equiv_from_equiv, put_letters};
ghost use Rattle.termwiz_storage.specs.{half, take, torn, true};

mod edits;
mod lists;
mod walk;
mod wrapped;

use crate::line::cellref::CellRef;
pub(crate) use edits::hides_next;
pub use edits::push_with_half;
use lists::{
    blank_cells, copied_cells, cut, own_links, own_nothing, pad_cells, pad_in_room, put_cells,
    put_letter_cells,
};
use std::alloc::{AllocError, Global};
use std::marker::Model;
use std::mem;
use std::ops::{DerefSlice, DerefSliceMut};
use termwiz_cell::cell::{Cell, CellAttributes};
use termwiz_cell::hyperlink::LinkCopies;
use termwiz_text::letter_count;
pub use walk::VecStorageIter;
pub(crate) use walk::plain_byte;
pub(crate) use wrapped::set_wrapped;

/// The cells of a line, stored one by one. It can be read and written as a slice of cells.
#[derive(Debug)]
pub struct VecStorage {
    cells: Vec<Cell>,
    // From this column on each cell is a default blank.
    used: usize,
    // Whether a cell may own memory. Where none does, cells are overwritten, copied and dropped
    // without inspecting each.
    owns: bool,
}

impl Model for VecStorage {
    ghost use Rattle.std.specs.Prelude.{List};
    ghost use Rattle.termwiz_cell.specs.CellValue.{CellValue};
    ghost use Rattle.termwiz_storage.specs.Used.{IsMarked};

    ghost Value = { List CellValue };

    ghost view = { λ s. s.cells.items };

    ghost invariant = { λ s. IsMarked s.used s.owns s.cells.items };
}

// Where no cell owns memory, none is inspected.
impl Drop for VecStorage {
    fn drop(self) {
        let VecStorage {
            cells,
            used: _,
            owns,
        } = self;
        let mut cells = cells;
        cut(&mut cells, 0, owns);
    }
}

impl VecStorage {
    /// A storage of these cells.
    #[doc(hidden)]
    #[tactic(auto, using(crate::proofs::Owned::marked_new))]
    pub fn new(cells: Vec<Cell>) -> VecStorage
        ensures { result ≡ cells.items }
    {
        let used = cells.len();
        let owns = !own_nothing(&cells);
        VecStorage { cells, used, owns }
    }

    /// How many cells are stored, hidden ones included.
    pub fn len(&self) -> usize
        ensures { result ≡ length self.now }
    {
        self.cells.len()
    }

    /// Whether no cell is stored.
    pub fn is_empty(&self) -> bool
        ensures { IsTrue result ↔ (self.now ≡ []) }
    {
        self.cells.is_empty()
    }

    /// The stored cells, hidden ones included.
    pub fn cells(&self) -> &[Cell]
        ensures { result.now ≡ self.now }
    {
        &self.cells
    }

    /// The visible cells, in order.
    pub fn iter(&self) -> VecStorageIter<'_>
        ensures { result ≡ visible self.now }
    {
        VecStorageIter::new(&self.cells)
    }

    /// The allocator of the list.
    #[doc(hidden)]
    pub fn allocator(&self) -> Global {
        *self.cells.allocator()
    }

    /// Pads with default blanks to at least this many cells. An error leaves the list unchanged.
    #[tactic(auto, using(crate::proofs::Owned::marked_padded))]
    pub(crate) fn pad(&mut self, len: usize) -> Result<(), AllocError>
        ensures ok { OnOk result (self.new ≡ padded len self.old) }
        ensures err { OnErr result (self.new ≡ self.old) }
        ensures succeeds { len ≤ length self.old → IsOk result }
    {
        if self.cells.len() < len {
            pad_cells(&mut self.cells, len)?;
        }
        Ok(())
    }

    // Makes a wide cell that column i cuts a blank with its attributes.
    #[tactic(auto, using(crate::proofs::Owned::marked_halved))]
    fn tear(&mut self, i: usize)
        requires { i ≤ length self.old }
        ensures { self.new ≡ torn i self.old }
    {
        if i > 0 && self.cells[i - 1].width() > 1 {
            blank_out(&mut self.cells[i - 1]);
        }
    }

    // Makes room for cells in the columns `i..end`. An error leaves the list unchanged.
    #[inline(always)]
    fn make_room(&mut self, i: usize, end: usize) -> Result<(), AllocError>
        requires { i ≤ end }
        ensures ok { OnOk result (self.new ≡ torn i (padded end self.old)) }
        ensures room { OnOk result (end ≤ length self.new) }
        ensures err { OnErr result (self.new ≡ self.old) }
    {
        self.pad(end)?;
        self.tear(i);
        Ok(())
    }

    // Stores the cell at column i.
    #[inline(always)]
    fn store(&mut self, i: usize, cell: Cell)
        requires { i < length self.old }
        ensures { self.new ≡ slice_set self.old i cell }
    {
        self.used = self.used.max(i + 1);
        self.owns |= cell.owns_memory();
        self.cells[i] = cell;
    }

    // Stores a wide cell at column i, and its half after it.
    #[inline(always)]
    fn store_wide(&mut self, i: usize, cell: Cell, half: Cell)
        requires { i + 1 < length self.old }
        ensures { self.new ≡ slice_set (slice_set self.old (i + 1) half) i cell }
    {
        self.used = self.used.max(i + 2);
        self.owns |= cell.owns_memory() | half.owns_memory();
        self.cells[i + 1] = half;
        self.cells[i] = cell;
    }

    #[inline(always)]
    fn set_narrow(&mut self, i: usize, cell: Cell) -> Result<(), AllocError>
        requires { is_wide cell ≡ false }
        ensures ok { OnOk result (self.new ≡ set_cell i cell self.old) }
        ensures err { OnErr result (self.new ≡ self.old) }
    {
        let end = end_of(i, 1)?;
        self.make_room(i, end)?;
        self.store(i, cell);
        Ok(())
    }

    #[inline(always)]
    fn set_wide(&mut self, i: usize, cell: Cell) -> Result<(), AllocError>
        requires { is_wide cell ≡ true }
        ensures ok { OnOk result (self.new ≡ set_cell i cell self.old) }
        ensures err { OnErr result (self.new ≡ self.old) }
    {
        let end = end_of(i, 2)?;
        let half = half_of(&cell)?;
        self.make_room(i, end)?;
        self.store_wide(i, cell, half);
        Ok(())
    }

    /// Sets the cell at a column, and the half of a wide one after it. The list is first padded
    /// with default blanks as far as needed, and a wide cell stored directly before the column
    /// becomes a blank with its attributes. It also fails at a column past the greatest `usize`. An
    /// error leaves the list unchanged.
    #[inline(always)]
    pub(crate) fn set_cell(&mut self, i: usize, cell: Cell) -> Result<(), AllocError>
        ensures ok { OnOk result (self.new ≡ set_cell i cell self.old) }
        ensures err { OnErr result (self.new ≡ self.old) }
    {
        if cell.width() > 1 {
            self.set_wide(i, cell)?;
        } else {
            self.set_narrow(i, cell)?;
        }
        Ok(())
    }

    /// Sets a cell as `set_cell` does, and then cuts the list to `len` cells. It also fails at a
    /// column past the greatest `usize`. An error leaves the list unchanged.
    #[inline(always)]
    pub(crate) fn set_cell_within(
        &mut self,
        i: usize,
        cell: Cell,
        len: usize,
    ) -> Result<(), AllocError>
        ensures ok { OnOk result (self.new ≡ take len (set_cell i cell self.old)) }
        ensures err { OnErr result (self.new ≡ self.old) }
    {
        self.set_cell(i, cell)?;
        self.truncate(len);
        Ok(())
    }

    /// Sets the cell of each character of a run of printable ASCII, in order from a column on, with
    /// attributes that take no memory. It also fails at a column past the greatest `usize`. An
    /// error leaves the list unchanged.
    pub(crate) fn set_run(
        &mut self,
        i: usize,
        run: &str,
        attrs: &CellAttributes,
    ) -> Result<(), AllocError>
        requires plain { list_all is_plain run.now ≡ true }
        requires unboxed { needs_box attrs.now ≡ false }
        ensures ok { OnOk result (self.new ≡ set_run i run.now attrs.now self.old) }
        ensures err { OnErr result (self.new ≡ self.old) }
    {
        let end = end_of(i, run.len())?;
        if i < end {
            self.make_room(i, end)?;
            self.put_run(i, run.as_bytes(), attrs);
        }
        Ok(())
    }

    // Stores the cells of the run in the columns from i on.
    fn put_run(&mut self, i: usize, run: &[u8], attrs: &CellAttributes)
        requires plain { list_all is_plain run.now ≡ true }
        requires unboxed { needs_box attrs.now ≡ false }
        requires room { i + length run.now ≤ length self.old }
        ensures { self.new ≡ put_run i run.now attrs.now self.old }
    {
        self.used = self.used.max(i + run.len());
        put_cells(&mut self.cells[i..i + run.len()], run, attrs, self.owns);
    }

    /// Sets the cell of each letter of a run, of two columns, and its half, in order from a column
    /// on, with attributes that take no memory. It also fails at a column past the greatest
    /// `usize`. An error leaves the list unchanged.
    pub(crate) fn set_letters(
        &mut self,
        i: usize,
        run: &str,
        attrs: &CellAttributes,
    ) -> Result<(), AllocError>
        requires letters { AreLetters run.now }
        requires unboxed { needs_box attrs.now ≡ false }
        ensures ok { OnOk result (
            self.new ≡ set_letters i (chars run.now) attrs.now self.old) }
        ensures err { OnErr result (self.new ≡ self.old) }
    {
        let end = end_of(i, 2 * letter_count(run))?;
        if i < end {
            self.make_room(i, end)?;
            self.put_letters(i, run, attrs);
        }
        Ok(())
    }

    // Stores the cells of the letters and their halves in the columns from i on.
    fn put_letters(&mut self, i: usize, run: &str, attrs: &CellAttributes)
        requires letters { AreLetters run.now }
        requires unboxed { needs_box attrs.now ≡ false }
        requires room { i + 2 * length (chars run.now) ≤ length self.old }
        ensures { self.new ≡ put_letters i (chars run.now) attrs.now self.old }
    {
        let alloc = *self.cells.allocator();
        let columns = 2 * letter_count(run);
        self.used = self.used.max(i + columns);
        put_letter_cells(
            alloc,
            &mut self.cells[i..i + columns],
            run,
            attrs,
            self.owns,
        );
    }

    /// Sets a default blank in each of the columns `from..to`, in order. An error leaves the list
    /// unchanged.
    pub(crate) fn set_blanks(&mut self, from: usize, to: usize) -> Result<(), AllocError>
        ensures ok { OnOk result (self.new ≡ fill (to - from) from blank self.old) }
        ensures err { OnErr result (self.new ≡ self.old) }
    {
        if from < to {
            self.make_room(from, to)?;
            self.blank_between(from, to);
        }
        Ok(())
    }

    // Makes the cells in the columns `from..to` default blanks.
    #[inline(always)]
    fn blank_between(&mut self, from: usize, to: usize)
        requires { to ≤ length self.old }
        ensures { IsBlanked from to self.old self.new }
    {
        blank_cells(&mut self.cells, from, to.min(self.used), self.owns);
        if self.used <= to {
            self.used = self.used.min(from);
            // Default blanks own nothing.
            self.owns &= self.used > 0;
        }
    }

    /// Cuts the list to at most this many cells.
    #[inline]
    #[tactic(auto, using(crate::proofs::Halves::take_whole))]
    pub(crate) fn truncate(&mut self, len: usize)
        ensures { self.new ≡ take len self.old }
    {
        if len < self.cells.len() {
            cut(&mut self.cells, len, self.owns);
            self.used = self.used.min(len);
            self.owns &= self.used > 0;
        }
    }

    /// Replaces the list by this many default blanks. It can only fail where the list grows. An
    /// error leaves the list unchanged.
    pub(crate) fn blank_out(&mut self, len: usize) -> Result<(), AllocError>
        ensures ok { OnOk result (self.new ≡ replicate len blank) }
        ensures err { OnErr result (self.new ≡ self.old) }
        ensures succeeds { len ≤ length self.old → IsOk result }
    {
        self.fit(len)?;
        self.blank_between(0, len);
        Ok(())
    }

    // Pads with default blanks, or cuts, to this many cells. An error leaves the list unchanged.
    fn fit(&mut self, len: usize) -> Result<(), AllocError>
        ensures ok { OnOk result (length self.new ≡ len) }
        ensures err { OnErr result (self.new ≡ self.old) }
        ensures succeeds { len ≤ length self.old → IsOk result }
    {
        let have = self.cells.len();
        if have < len {
            self.pad(len)?;
        } else if len < have {
            self.truncate(len);
        }
        Ok(())
    }

    // Whether the last visible cell is wide and lacks its half.
    fn lacks_half(&self) -> bool
        ensures { result ≡ hides self.now (length self.now) }
    {
        self.is_hidden(self.cells.len())
    }

    /// Cuts the list to this many cells, or pads it with default blanks. Where it grows and its
    /// last visible cell is wide and lacks its half, the half is appended first. It can only fail
    /// where the list grows. An error leaves the list unchanged.
    pub(crate) fn resize(&mut self, len: usize) -> Result<(), AllocError>
        ensures ok { OnOk result (self.new ≡ resized len self.old) }
        ensures err { OnErr result (self.new ≡ self.old) }
        ensures succeeds { len ≤ length self.old → IsOk result }
    {
        let have = self.cells.len();
        if len <= have {
            self.truncate(len);
            return Ok(());
        }
        self.cells.reserve(len - have)?;
        if self.lacks_half() {
            push_half(&mut self.cells)?;
            self.used = self.cells.len();
        }
        pad_in_room(&mut self.cells, len);
        Ok(())
    }

    /// A copy, cut or padded to this many cells as by `resize`.
    pub(crate) fn resized_copy(&self, len: usize) -> Result<VecStorage, AllocError>
        ensures { IfOk result (λ copy. copy ≡ resized len self.now) }
    {
        let mut copy = self.first_cells(len)?;
        copy.resize(len)?;
        Ok(copy)
    }

    // A copy of at most this many cells, with room for as many. Default blanks at the end are not
    // cloned.
    fn first_cells(&self, len: usize) -> Result<VecStorage, AllocError>
        ensures { IfOk result (λ copy. copy ≡ take len self.now) }
    {
        let have = len.min(self.cells.len());
        let used = have.min(self.used);
        let owns = self.owns;
        let mut cells = copied_cells(self.allocator(), &self.cells[..used], len, owns)?;
        pad_cells(&mut cells, have)?;
        Ok(VecStorage { cells, used, owns })
    }

    /// The number of cells without the visible default blanks that end the list.
    pub(crate) fn kept_len(&self) -> usize
        ensures { IsKept self.now result }
    {
        let end = self.filled_len();
        // A default blank directly after a wide cell is hidden.
        if end < self.cells.len() && self.is_hidden(end) {
            return end + 1;
        }
        end
    }

    /// The visible cell that begins at a column, if any.
    pub(crate) fn get_cell(&self, i: usize) -> Option<CellRef<'_>>
        ensures cell { option_map ref_cell result ≡ cell_at (visible self.now) i }
        ensures index { IfSome result (λ cell. ref_index cell ≡ i) }
        ensures of_cell { IfSome result IsOfCell }
    {
        if i >= self.cells.len() || self.is_hidden(i) {
            return None;
        }
        let cell = &self.cells[i];
        // `str` promises that a cell's text is clean.
        let _text = cell.str();
        Some(CellRef::CellRef {
            cell_index: i,
            cell,
        })
    }

    /// Gives the cells links of their own. Where no cell owns memory, none is inspected. The list
    /// stays as it is, even after an error.
    pub(crate) fn own_links(
        &mut self,
        alloc: Global,
        copies: &mut LinkCopies,
    ) -> Result<(), AllocError>
        ensures { self.new ≡ self.old }
    {
        if self.owns {
            own_links(alloc, &mut self.cells, copies)?;
        }
        Ok(())
    }

    /// Whether a stored cell has a link.
    pub(crate) fn has_hyperlink(&self) -> bool
        ensures { result ≡ list_any is_linked self.now }
    {
        for cell in &self.cells {
            if has_link(cell) {
                return true;
            }
        }
        false
    }

    // The column after the last stored cell that isn't a default blank.
    fn filled_len(&self) -> usize
        ensures { IsFilledTo result self.now }
    {
        let mut end = self.used.min(self.cells.len());
        while end > 0 && self.cells[end - 1].is_blank() {
            end -= 1;
        }
        end
    }
}

fn has_link(cell: &Cell) -> bool
    ensures { result ≡ is_linked cell.now }
{
    match cell.attrs().hyperlink() {
        Some(_) => true,
        None => false,
    }
}

fn end_of(i: usize, columns: usize) -> Result<usize, AllocError>
    ensures { IfOk result (λ end. end ≡ i + columns) }
{
    i.checked_add(columns).ok_or(AllocError)
}

// Appends the half of the last cell. It is kept out of line, so that the path of other cells is
// short.
#[inline(never)]
fn push_half(cells: &mut Vec<Cell>) -> Result<(), AllocError>
    requires { 0 < vec_len cells.old }
    ensures ok { OnOk result (
        cells.new.items
        ≡ cells.old.items ++ half (stored cells.old.items (length cells.old.items - 1)) ∷ []) }
    ensures err { OnErr result (cells.new.items ≡ cells.old.items) }
    ensures capacity { vec_capacity cells.old ≤ vec_capacity cells.new }
{
    let half = half_of(&cells[cells.len() - 1])?;
    cells.push(half)?;
    Ok(())
}

// The half of a cell.
fn half_of(cell: &Cell) -> Result<Cell, AllocError>
    ensures { IfOk result (λ made. made ≡ half cell.now) }
{
    let attrs = cell.attrs().clone()?;
    Ok(Cell::blank_with_attrs(attrs))
}

// Replaces a cell by a blank with its attributes.
#[inline(never)]
fn blank_out(cell: &mut Cell)
    ensures { cell.new ≡ half cell.old }
{
    let attrs = mem::replace(cell.attrs_mut(), CellAttributes::blank());
    *cell = Cell::blank_with_attrs(attrs);
}

impl DerefSlice for VecStorage {
    type Elem = Cell;

    ghost deref_gives = { λ s cells. cells ≡ s };

    fn deref(&self) -> &[Cell]
        ensures { result.now ≡ self.now }
    {
        &self.cells
    }
}

impl DerefSliceMut for VecStorage {
    // Any cell may be written.
    #[tactic(auto, using(crate::proofs::Owned::marked_lent))]
    fn deref_mut(&mut self) -> &mut [Cell]
        ensures* writes_back { sem 𝓛 (LendsCells self.entry result) }
        ensures value { result.now ≡ self.old }
    {
        self.used = self.cells.len();
        self.owns = true;
        &mut self.cells
    }
}

impl Clone for VecStorage {
    ghost is_clone = { λ a b. b ≡ a };

    fn clone(&self) -> Result<VecStorage, AllocError> {
        self.first_cells(self.cells.len())
    }
}

impl PartialEq for VecStorage {
    ghost eq = { cells_eq };

    ghost laws = { partial_equiv_from_equiv (decided cells_eq cells_eq-Decides) };

    fn eq(&self, other: &VecStorage) -> bool
        ensures value { result ≡ cells_eq self.now other.now }
        ensures same { IsTrue result ↔ (self.now ≡ other.now) }
    {
        self.cells.len() == other.cells.len()
            && are_same(self.cells.as_slice(), other.cells.as_slice())
    }
}

// Whether both are the same cells. They are compared in the loop itself, without a call for each.
fn are_same(cells: &[Cell], others: &[Cell]) -> bool
    requires { length cells.now ≡ length others.now }
    ensures { IsTrue result ↔ (cells.now ≡ others.now) }
{
    for i in 0..cells.len() {
        if cells[i] != others[i] {
            return false;
        }
    }
    true
}

impl Eq for VecStorage {
    ghost laws = { decided cells_eq cells_eq-Decides };
}
