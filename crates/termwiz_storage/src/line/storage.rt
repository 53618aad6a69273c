//! The storage of a line's cells, and the edits of it.
ghost use Rattle.std.specs.Prelude.{◌≡◌, ◌≢◌, ◌-◌, ◌<◌, ◌≤◌, ◌∷◌, ◌↔◌, if◌then◌else◌, [], IfSome};
ghost use Rattle.termwiz_storage.specs.{AreLetters, IfOk, IsKept, IsOfCell, IsOk, IsTrue, IsWhole};
ghost use Rattle.termwiz_storage.specs.{LendsVector, None, OnErr, OnOk, Some, blank, cell_at, drop};
ghost use Rattle.termwiz_storage.specs.{cells_eq, cells_eq-Decides, cells_in, cells_left, chars};
ghost use Rattle.termwiz_storage.specs.{decided, false, fill, indexed_cell, is_linked, is_plain};
ghost use Rattle.termwiz_storage.specs.{is_vector, last_attrs, length, list_all, list_any, on_per};
ghost use Rattle.termwiz_storage.specs.{needs_box, on_equiv, option_copied, option_map, ref_cell};
ghost use Rattle.termwiz_storage.specs.{partial_equiv_from_equiv, ref_index, replicate, resized};
ghost use Rattle.termwiz_storage.specs.{same_cells, sem, set_cell, set_last_wrapped, set_letters};
ghost use Rattle.termwiz_storage.specs.{set_run, take, texts_of, true, visible};

mod edits;

use crate::line::cellref::{CellRef, VisibleCellIter};
use crate::line::clusterline::{ClusteredLine, is_whole};
use crate::line::vecstorage::VecStorage;
use std::alloc::{AllocError, Global};
use termwiz_cell::cell::{Cell, CellAttributes};
use termwiz_cell::hyperlink::LinkCopies;

/// The stored cells of a line: a list in one of two forms. `coerce_vec` lends the cells for
/// writing.
///
/// An iterator over the list yields the visible cells: the stored cell after a visible wide one is
/// hidden. `set_cell` stores the half of the wide one there, a blank with its attributes.
///
/// Two storages are equal where their lists of cells are, in whichever form.
#[derive(Drop, Debug)]
pub enum CellStorage {
    /// The cells are stored one by one.
    V(VecStorage),
    /// All cells are stored in one text.
    Cluster(ClusteredLine),
}

impl CellStorage {
    /// A vector of these cells.
    pub fn vector(cells: Vec<Cell>) -> CellStorage
        ensures cells { cells_in result ≡ cells.items }
        ensures vector { is_vector result ≡ true }
    {
        CellStorage::V(VecStorage::new(cells))
    }

    /// No cells, in a text.
    pub fn clustered(alloc: Global) -> CellStorage
        ensures cells { cells_in result ≡ [] }
        ensures clustered { is_vector result ≡ false }
    {
        CellStorage::Cluster(ClusteredLine::new(alloc))
    }

    /// How many cells are stored, hidden ones included.
    pub fn len(&self) -> usize
        ensures { result ≡ length (cells_in self.now) }
    {
        match self {
            CellStorage::V(storage) => storage.len(),
            CellStorage::Cluster(line) => line.len(),
        }
    }

    /// Whether no cell is stored.
    pub fn is_empty(&self) -> bool
        ensures { IsTrue result ↔ (cells_in self.now ≡ []) }
    {
        match self {
            CellStorage::V(storage) => storage.is_empty(),
            CellStorage::Cluster(line) => line.is_empty(),
        }
    }

    /// The stored cells of a vector, hidden ones included, or `None` for a text.
    pub fn cells(&self) -> Option<&[Cell]>
        ensures { option_map (λ cells. cells.now) result
            ≡ (if is_vector self.now then Some (cells_in self.now) else None) }
    {
        match self {
            CellStorage::V(storage) => Some(storage.cells()),
            CellStorage::Cluster(_) => None,
        }
    }

    /// The texts of the visible cells, concatenated, or `None` for a vector.
    pub fn text(&self) -> Option<&str>
        ensures { option_map (λ text. text.now) result
            ≡ (if is_vector self.now then None else Some (texts_of (visible (cells_in self.now)))) }
    {
        match self {
            CellStorage::V(_) => None,
            CellStorage::Cluster(line) => Some(line.text()),
        }
    }

    /// The visible cells, in order.
    pub fn iter(&self) -> VisibleCellIter<'_>
        ensures { cells_left result ≡ visible (cells_in self.now) }
    {
        match self {
            CellStorage::V(storage) => VisibleCellIter::V(storage.iter()),
            CellStorage::Cluster(line) => VisibleCellIter::Cluster(line.iter()),
        }
    }

    /// Sets the cell at a column, and the half of a wide one after it. The list is first padded
    /// with default blanks as far as needed, and a wide cell stored directly before the column
    /// becomes a blank with its attributes.
    ///
    /// - At the column directly after the last cell of a text, the cell is appended to the text.
    /// - At any other column a text becomes a vector. Every other edit but `append_visible` and
    ///   `set_last_wrapped` makes it a vector too, even where no cell changes.
    /// - It also fails at a column past the greatest `usize`. An error leaves the cells unchanged.
    pub fn set_cell(&mut self, i: usize, cell: Cell) -> Result<(), AllocError>
        ensures ok { OnOk result (cells_in self.new ≡ set_cell i cell (cells_in self.old)) }
        ensures err { OnErr result (cells_in self.new ≡ cells_in self.old) }
        ensures vector { is_vector self.old ≡ true → is_vector self.new ≡ true }
        ensures appended { is_vector self.old ≡ false → i ≡ length (cells_in self.old) →
            OnOk result (is_vector self.new ≡ false) }
        ensures made { i ≢ length (cells_in self.old) → OnOk result (is_vector self.new ≡ true) }
    {
        if let CellStorage::Cluster(line) = self {
            if line.len() == i {
                line.append(&cell)?;
                return Ok(());
            }
        }
        self.coerce_vec()?.set_cell(i, cell)?;
        Ok(())
    }

    /// Sets a cell as `set_cell` does, and then cuts the list to `len` cells. A text becomes a
    /// vector. It also fails at a column past the greatest `usize`. An error leaves the cells
    /// unchanged.
    #[inline(always)]
    pub fn set_cell_within(&mut self, i: usize, cell: Cell, len: usize) -> Result<(), AllocError>
        ensures ok { OnOk result (
            cells_in self.new ≡ take len (set_cell i cell (cells_in self.old))) }
        ensures err { OnErr result (cells_in self.new ≡ cells_in self.old) }
        ensures vector { is_vector self.old ≡ true → is_vector self.new ≡ true }
        ensures made { OnOk result (is_vector self.new ≡ true) }
    {
        self.coerce_vec()?.set_cell_within(i, cell, len)?;
        Ok(())
    }

    /// Sets the cell of each character of a run of printable ASCII, in order from a column on, with
    /// attributes that take no memory. A text becomes a vector, even for an empty run. It also
    /// fails at a column past the greatest `usize`. An error leaves the cells unchanged.
    #[inline]
    pub fn set_run(&mut self, i: usize, run: &str, attrs: &CellAttributes) -> Result<(), AllocError>
        requires plain { list_all is_plain run.now ≡ true }
        requires unboxed { needs_box attrs.now ≡ false }
        ensures ok { OnOk result (
            cells_in self.new ≡ set_run i run.now attrs.now (cells_in self.old)) }
        ensures err { OnErr result (cells_in self.new ≡ cells_in self.old) }
        ensures vector { is_vector self.old ≡ true → is_vector self.new ≡ true }
        ensures made { OnOk result (is_vector self.new ≡ true) }
    {
        self.coerce_vec()?.set_run(i, run, attrs)?;
        Ok(())
    }

    /// Sets the cell of each letter of a run, of two columns, and its half, in order from a column
    /// on, with attributes that take no memory. A text becomes a vector, even for an empty run. It
    /// also fails at a column past the greatest `usize`. An error leaves the cells unchanged.
    #[inline]
    pub fn set_letters(
        &mut self,
        i: usize,
        run: &str,
        attrs: &CellAttributes,
    ) -> Result<(), AllocError>
        requires letters { AreLetters run.now }
        requires unboxed { needs_box attrs.now ≡ false }
        ensures ok { OnOk result (
            cells_in self.new ≡ set_letters i (chars run.now) attrs.now (cells_in self.old)) }
        ensures err { OnErr result (cells_in self.new ≡ cells_in self.old) }
        ensures vector { is_vector self.old ≡ true → is_vector self.new ≡ true }
        ensures made { OnOk result (is_vector self.new ≡ true) }
    {
        self.coerce_vec()?.set_letters(i, run, attrs)?;
        Ok(())
    }

    /// Sets a default blank in each of the columns `from..to`, in order. A text becomes a vector,
    /// even where there is no such column. An error leaves the cells unchanged.
    pub fn set_blanks(&mut self, from: usize, to: usize) -> Result<(), AllocError>
        ensures ok { OnOk result (
            cells_in self.new ≡ fill (to - from) from blank (cells_in self.old)) }
        ensures err { OnErr result (cells_in self.new ≡ cells_in self.old) }
        ensures vector { is_vector self.old ≡ true → is_vector self.new ≡ true }
        ensures made { OnOk result (is_vector self.new ≡ true) }
    {
        self.coerce_vec()?.set_blanks(from, to)?;
        Ok(())
    }

    /// Replaces the list by this many default blanks, in a vector. It can only fail where the list
    /// grows, or a text becomes a vector. An error leaves the cells unchanged.
    #[inline(always)]
    pub fn blank_out(&mut self, len: usize) -> Result<(), AllocError>
        ensures ok { OnOk result (cells_in self.new ≡ replicate len blank) }
        ensures err { OnErr result (cells_in self.new ≡ cells_in self.old) }
        ensures succeeds { is_vector self.old ≡ true → len ≤ length (cells_in self.old) →
            IsOk result }
        ensures vector { is_vector self.old ≡ true → is_vector self.new ≡ true }
        ensures made { OnOk result (is_vector self.new ≡ true) }
    {
        self.coerce_vec()?.blank_out(len)?;
        Ok(())
    }

    /// Cuts the list to this many cells, or pads it with default blanks. Where it grows and its
    /// last visible cell is wide and lacks its half, the half is appended first.
    ///
    /// - A text becomes a vector, even where the length doesn't change.
    /// - It can only fail where the list grows, or a text becomes a vector. An error leaves the
    ///   cells unchanged.
    pub fn resize(&mut self, len: usize) -> Result<(), AllocError>
        ensures ok { OnOk result (cells_in self.new ≡ resized len (cells_in self.old)) }
        ensures err { OnErr result (cells_in self.new ≡ cells_in self.old) }
        ensures succeeds { is_vector self.old ≡ true → len ≤ length (cells_in self.old) →
            IsOk result }
        ensures vector { is_vector self.old ≡ true → is_vector self.new ≡ true }
        ensures made { OnOk result (is_vector self.new ≡ true) }
    {
        self.coerce_vec()?.resize(len)?;
        Ok(())
    }

    /// Cuts the list to at most this many cells. A text becomes a vector, even where nothing is
    /// cut, and only that can fail. An error leaves the cells unchanged.
    pub fn truncate(&mut self, len: usize) -> Result<(), AllocError>
        ensures ok { OnOk result (cells_in self.new ≡ take len (cells_in self.old)) }
        ensures err { OnErr result (cells_in self.new ≡ cells_in self.old) }
        ensures succeeds { is_vector self.old ≡ true → IsOk result }
        ensures vector { is_vector self.old ≡ true → is_vector self.new ≡ true }
        ensures made { OnOk result (is_vector self.new ≡ true) }
    {
        self.coerce_vec()?.truncate(len);
        Ok(())
    }

    /// Sets whether the last visible cell and the stored cell that it hides are marked as wrapped.
    /// To an empty list a default blank is first appended. With a vector that has cells it never
    /// fails. An error leaves the cells unchanged.
    pub fn set_last_wrapped(&mut self, wrapped: bool) -> Result<(), AllocError>
        ensures ok { OnOk result (
            cells_in self.new ≡ set_last_wrapped wrapped (cells_in self.old)) }
        ensures err { OnErr result (cells_in self.new ≡ cells_in self.old) }
        ensures succeeds { is_vector self.old ≡ true → 0 < length (cells_in self.old) →
            IsOk result }
        ensures form { is_vector self.new ≡ is_vector self.old }
    {
        match self {
            CellStorage::V(storage) => storage.set_last_wrapped(wrapped)?,
            CellStorage::Cluster(line) => line.set_last_cell_was_wrapped(wrapped)?,
        }
        Ok(())
    }

    /// The number of cells without the visible default blanks that end the list. The hidden cell
    /// after a wide one is not one of these.
    pub fn kept_len(&self) -> usize
        ensures { IsKept (cells_in self.now) result }
    {
        match self {
            CellStorage::V(storage) => storage.kept_len(),
            CellStorage::Cluster(line) => line.kept_len(),
        }
    }

    /// The attributes of the last visible cell, if any.
    pub fn last_attrs(&self) -> Option<&CellAttributes>
        ensures { option_copied result ≡ last_attrs (visible (cells_in self.now)) }
    {
        match self {
            CellStorage::V(storage) => storage.last_attrs(),
            CellStorage::Cluster(line) => line.last_attrs(),
        }
    }

    /// The visible cell that begins at a column, if any.
    pub fn get_cell(&self, i: usize) -> Option<CellRef<'_>>
        ensures cell { option_map ref_cell result ≡ cell_at (visible (cells_in self.now)) i }
        ensures index { IfSome result (λ cell. ref_index cell ≡ i) }
        ensures of_cell { IfSome result IsOfCell }
    {
        match self {
            CellStorage::V(storage) => storage.get_cell(i),
            CellStorage::Cluster(line) => line.get_cell(i),
        }
    }

    /// Gives the cells links of their own, which share no memory with others. The list stays as it
    /// is, even after an error.
    pub fn own_links(&mut self, alloc: Global, copies: &mut LinkCopies) -> Result<(), AllocError>
        ensures cells { cells_in self.new ≡ cells_in self.old }
        ensures vector { is_vector self.new ≡ is_vector self.old }
    {
        match self {
            CellStorage::V(storage) => storage.own_links(alloc, copies),
            CellStorage::Cluster(line) => line.own_links(alloc, copies),
        }
    }

    /// Whether a stored cell has a link.
    pub fn has_hyperlink(&self) -> bool
        ensures { result ≡ list_any is_linked (cells_in self.now) }
    {
        match self {
            CellStorage::V(storage) => storage.has_hyperlink(),
            CellStorage::Cluster(line) => line.has_hyperlink(),
        }
    }

    /// A copy of the cells in a vector, cut or padded to this many cells as by `resize`.
    pub fn resized_copy(&self, len: usize) -> Result<CellStorage, AllocError>
        ensures cells { IfOk result (λ copy. cells_in copy ≡ resized len (cells_in self.now)) }
        ensures vector { IfOk result (λ copy. is_vector copy ≡ true) }
    {
        match self {
            CellStorage::V(storage) => {
                let copy = storage.resized_copy(len)?;
                Ok(CellStorage::V(copy))
            }
            CellStorage::Cluster(line) => {
                let mut copy = expanded(line)?;
                copy.resize(len)?;
                Ok(CellStorage::V(copy))
            }
        }
    }

    /// Makes the storage a vector, and returns it for writing. The storage then has the cells that
    /// are written, or the vector that is assigned. With a vector it never fails.
    #[inline(always)]
    pub fn coerce_vec(&mut self) -> Result<&mut VecStorage, AllocError>
        ensures* writes_back { sem 𝓛 (LendsVector self.entry result) }
        ensures value { IfOk result (λ v. v.now ≡ cells_in self.old) }
        ensures succeeds { is_vector self.old ≡ true → IsOk result }
    {
        if let CellStorage::Cluster(_) = self {
            self.expand()?;
        }
        match self {
            CellStorage::V(storage) => Ok(storage),
            CellStorage::Cluster(_) => unreachable!(),
        }
    }

    // Makes a text a vector of its cells. It is kept out of line, so that the path of a vector is
    // short.
    #[inline(never)]
    fn expand(&mut self) -> Result<(), AllocError>
        ensures cells { cells_in self.new ≡ cells_in self.old }
        ensures vector { OnOk result (is_vector self.new ≡ true) }
        ensures err { OnErr result (self.new ≡ self.old) }
    {
        if let CellStorage::Cluster(line) = self {
            *self = CellStorage::V(expanded(line)?);
        }
        Ok(())
    }

    /// Stores the cells in a text, which takes far less memory where adjacent cells have equal
    /// shapes and attributes. The list of cells doesn't change.
    ///
    /// - A vector stays a vector where a hidden cell isn't a blank with the attributes of the cell
    ///   that hides it, or where the last visible cell is wide and lacks its half.
    /// - An error leaves the storage unchanged.
    pub fn compress(&mut self, alloc: Global) -> Result<(), AllocError>
        ensures cells { cells_in self.new ≡ cells_in self.old }
        ensures clustered { OnOk result (is_vector self.new ≡ false ↔ IsWhole (cells_in self.old)) }
        ensures err { OnErr result (self.new ≡ self.old) }
    {
        match self {
            CellStorage::V(storage) => {
                if let Some(line) = ClusteredLine::from_cells(alloc, storage.cells())? {
                    *self = CellStorage::Cluster(line);
                }
            }
            CellStorage::Cluster(line) => {
                // `len` promises that no wide cell of a text lacks its half.
                let _len = line.len();
            }
        }
        Ok(())
    }
}

// The cells of a text, stored one by one.
#[inline(never)]
fn expanded(line: &ClusteredLine) -> Result<VecStorage, AllocError>
    ensures { IfOk result (λ storage. storage ≡ line.now) }
{
    Ok(VecStorage::new(line.to_cells()?))
}

impl Clone for CellStorage {
    ghost is_clone = { λ a b. b ≡ a };

    fn clone(&self) -> Result<CellStorage, AllocError> {
        match self {
            CellStorage::V(storage) => {
                let storage = storage.clone()?;
                Ok(CellStorage::V(storage))
            }
            CellStorage::Cluster(line) => {
                let line = line.clone()?;
                Ok(CellStorage::Cluster(line))
            }
        }
    }
}

impl PartialEq for CellStorage {
    ghost eq = { same_cells };

    ghost laws = { on_per cells_in (partial_equiv_from_equiv (decided cells_eq cells_eq-Decides)) };

    fn eq(&self, other: &CellStorage) -> bool
        ensures value { result ≡ same_cells self.now other.now }
        ensures same { IsTrue result ↔ (cells_in self.now ≡ cells_in other.now) }
    {
        self.has_same_cells(other)
    }
}

impl Eq for CellStorage {
    ghost laws = { on_equiv cells_in (decided cells_eq cells_eq-Decides) };
}

impl CellStorage {
    // Whether each hidden cell is the half of the one that hides it, and no visible wide cell lacks
    // its half. For a text, `len` promises it.
    fn is_whole(&self) -> bool
        ensures { IsTrue result ↔ IsWhole (cells_in self.now) }
    {
        match self {
            CellStorage::V(storage) => is_whole(storage.cells()),
            CellStorage::Cluster(line) => {
                let _len = line.len();
                true
            }
        }
    }

    fn has_same_cells(&self, other: &CellStorage) -> bool
        ensures { IsTrue result ↔ (cells_in self.now ≡ cells_in other.now) }
    {
        match (self, other) {
            (CellStorage::V(a), CellStorage::V(b)) => *a == *b,
            (CellStorage::Cluster(line), _) => has_cells_of(line, other),
            (_, CellStorage::Cluster(line)) => has_cells_of(line, self),
        }
    }
}

// Whether both are the same list.
fn has_cells_of(line: &ClusteredLine, other: &CellStorage) -> bool
    ensures { IsTrue result ↔ (line.now ≡ cells_in other.now) }
{
    if line.len() != other.len() || !other.is_whole() {
        return false;
    }
    shows_same(VisibleCellIter::Cluster(line.iter()), other.iter())
}

// Whether both iterators yield the same cells, at the same columns.
fn shows_same(cells: VisibleCellIter<'_>, others: VisibleCellIter<'_>) -> bool
    ensures { IsTrue result ↔ (cells_left cells.entry ≡ cells_left others.entry) }
{
    let mut others = others;
    for cell in cells {
        if !comes_next(&mut others, cell) {
            return false;
        }
    }
    others.next().is_none()
}

// Whether this cell is the next item of an iterator, which is advanced.
fn comes_next(others: &mut VisibleCellIter<'_>, cell: CellRef<'_>) -> bool
    requires { IsOfCell cell }
    ensures same { IsTrue result
        ↔ (cells_left others.old ≡ indexed_cell cell.entry ∷ cells_left others.new) }
    ensures rest { cells_left others.new ≡ drop 1 (cells_left others.old) }
{
    match others.next() {
        Some(other) => other.is_same(&cell),
        None => false,
    }
}
