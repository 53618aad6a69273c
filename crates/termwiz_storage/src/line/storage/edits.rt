//! Edits that move the stored cells.
ghost use Rattle.std.specs.Prelude.{◌≡◌, ◌≤◌, ◌-◌, ◌++◌, IfOk, IsOk, OnErr, OnOk, drop, take};
ghost use Rattle.std.specs.Prelude.{replicate};
ghost use Rattle.termwiz_storage.specs.{blank_of, cells_in, columns_between, erased, erased_within};
ghost use Rattle.termwiz_storage.specs.{false, fill, is_plain, needs_box, plain_cell};
ghost use Rattle.termwiz_storage.specs.{inserted, is_vector, removed, true, visible, with_halves};

use crate::line::clusterline::ClusteredLine;
use crate::line::storage::{CellStorage, expanded};
use crate::line::vecstorage::VecStorage;
use std::alloc::{AllocError, Global};
use termwiz_cell::cell::{Cell, CellAttributes};

impl CellStorage {
    /// A vector of this many copies of a cell.
    pub fn copies(alloc: Global, len: usize, cell: Cell) -> Result<CellStorage, AllocError>
        ensures cells { IfOk result (λ storage. cells_in storage ≡ replicate len cell) }
        ensures vector { IfOk result (λ storage. is_vector storage ≡ true) }
    {
        let storage = VecStorage::copies(alloc, len, cell)?;
        Ok(CellStorage::V(storage))
    }

    /// Replaces the list by this many blanks with these attributes, in a vector. An error leaves
    /// the cells unchanged.
    pub fn clear_to(
        &mut self,
        alloc: Global,
        len: usize,
        attrs: CellAttributes,
    ) -> Result<(), AllocError>
        ensures ok { OnOk result (cells_in self.new ≡ replicate len (blank_of attrs)) }
        ensures err { OnErr result (cells_in self.new ≡ cells_in self.old) }
        ensures vector { is_vector self.old ≡ true → is_vector self.new ≡ true }
        ensures made { OnOk result (is_vector self.new ≡ true) }
    {
        if attrs.is_blank() {
            self.blank_out(len)?;
            return Ok(());
        }
        *self = CellStorage::copies(alloc, len, Cell::blank_with_attrs(attrs))?;
        Ok(())
    }

    /// Sets the cell of a character of printable ASCII in each of the columns `from..to`, in order,
    /// with attributes that take no memory. A text becomes a vector, even where there is no such
    /// column. An error leaves the cells unchanged.
    pub fn set_copies(
        &mut self,
        from: usize,
        to: usize,
        byte: u8,
        attrs: &CellAttributes,
    ) -> Result<(), AllocError>
        requires plain { is_plain byte ≡ true }
        requires unboxed { needs_box attrs.now ≡ false }
        ensures ok { OnOk result (
            cells_in self.new
            ≡ fill (to - from) from (plain_cell byte attrs.now) (cells_in self.old)) }
        ensures err { OnErr result (cells_in self.new ≡ cells_in self.old) }
        ensures vector { is_vector self.old ≡ true → is_vector self.new ≡ true }
        ensures made { OnOk result (is_vector self.new ≡ true) }
    {
        self.coerce_vec()?.set_copies(from, to, byte, attrs)?;
        Ok(())
    }

    /// Removes the stored cell at a column, if any. A wide cell stored directly before it becomes a
    /// blank with its attributes. The half of a removed wide cell is not removed. With a vector it
    /// never fails. An error leaves the cells unchanged.
    pub fn remove_cell(&mut self, x: usize) -> Result<(), AllocError>
        ensures ok { OnOk result (cells_in self.new ≡ removed x (cells_in self.old)) }
        ensures err { OnErr result (cells_in self.new ≡ cells_in self.old) }
        ensures succeeds { is_vector self.old ≡ true → IsOk result }
        ensures vector { is_vector self.old ≡ true → is_vector self.new ≡ true }
        ensures made { OnOk result (is_vector self.new ≡ true) }
    {
        self.coerce_vec()?.remove_cell(x);
        Ok(())
    }

    /// Removes the cell at a column, if any, as `remove_cell` does, and then appends a default
    /// blank. With a vector it never fails. An error leaves the cells unchanged.
    pub fn erase_cell(&mut self, x: usize) -> Result<(), AllocError>
        ensures ok { OnOk result (cells_in self.new ≡ erased x (cells_in self.old)) }
        ensures err { OnErr result (cells_in self.new ≡ cells_in self.old) }
        ensures succeeds { is_vector self.old ≡ true → IsOk result }
        ensures vector { is_vector self.old ≡ true → is_vector self.new ≡ true }
        ensures made { OnOk result (is_vector self.new ≡ true) }
    {
        self.coerce_vec()?.erase_cell(x);
        Ok(())
    }

    /// Removes the cell at a column, if any, as `remove_cell` does, and then inserts a blank with
    /// these attributes in the column before `margin`, which is at least 1, where the list reaches
    /// up to that column. An error leaves the cells unchanged.
    pub fn erase_cell_with_margin(
        &mut self,
        x: usize,
        margin: usize,
        attrs: CellAttributes,
    ) -> Result<(), AllocError>
        requires { 1 ≤ margin }
        ensures ok { OnOk result (
            cells_in self.new ≡ erased_within x margin attrs (cells_in self.old)) }
        ensures err { OnErr result (cells_in self.new ≡ cells_in self.old) }
        ensures vector { is_vector self.old ≡ true → is_vector self.new ≡ true }
        ensures made { OnOk result (is_vector self.new ≡ true) }
    {
        self.coerce_vec()?.erase_cell_with_margin(x, margin, attrs)?;
        Ok(())
    }

    /// Inserts a cell at a column, and the half of a wide one after it. First the stored cell in
    /// the column before `margin`, which is at least 1, is removed, if any, and the list is padded
    /// with default blanks up to the column.
    ///
    /// - A wide cell that is then stored directly before the column is kept, so the inserted cell
    ///   may be hidden.
    /// - It also fails at a column past the greatest `usize`. An error leaves the cells unchanged.
    pub fn insert_cell(&mut self, x: usize, cell: Cell, margin: usize) -> Result<(), AllocError>
        requires { 1 ≤ margin }
        ensures ok { OnOk result (cells_in self.new ≡ inserted x cell margin (cells_in self.old)) }
        ensures err { OnErr result (cells_in self.new ≡ cells_in self.old) }
        ensures vector { is_vector self.old ≡ true → is_vector self.new ≡ true }
        ensures made { OnOk result (is_vector self.new ≡ true) }
    {
        self.coerce_vec()?.insert_cell(x, cell, margin)?;
        Ok(())
    }

    /// Keeps the stored cells before a column, and returns the rest in a vector. An error leaves
    /// the cells unchanged.
    pub fn split_off(&mut self, at: usize) -> Result<CellStorage, AllocError>
        ensures kept { OnOk result (cells_in self.new ≡ take at (cells_in self.old)) }
        ensures rest { IfOk result (λ rest. cells_in rest ≡ drop at (cells_in self.old)) }
        ensures err { OnErr result (cells_in self.new ≡ cells_in self.old) }
        ensures vector { is_vector self.old ≡ true → is_vector self.new ≡ true }
        ensures made { OnOk result (is_vector self.new ≡ true) }
        ensures rest_vector { IfOk result (λ rest. is_vector rest ≡ true) }
    {
        let rest = self.coerce_vec()?.split_off(at)?;
        Ok(CellStorage::V(rest))
    }

    /// Appends the visible cells of another list, each wide one followed by its half. The form is
    /// kept, whichever form the other list has. An error leaves the storage unchanged.
    pub fn append_visible(&mut self, other: CellStorage) -> Result<(), AllocError>
        ensures ok { OnOk result (
            cells_in self.new ≡ cells_in self.old ++ with_halves (visible (cells_in other))) }
        ensures err { OnErr result (self.new ≡ self.old) }
        ensures appended { is_vector self.new ≡ is_vector self.old }
    {
        match self {
            CellStorage::V(storage) => storage.append_visible(&other.into_vector()?)?,
            CellStorage::Cluster(line) => line.append_text(other.into_text()?)?,
        }
        Ok(())
    }

    // The cells, stored one by one.
    fn into_vector(self) -> Result<VecStorage, AllocError>
        ensures { IfOk result (λ storage. storage ≡ cells_in self) }
    {
        match self {
            CellStorage::V(storage) => Ok(storage),
            CellStorage::Cluster(line) => expanded(&line),
        }
    }

    // The visible cells in one text, each wide one followed by its half.
    fn into_text(self) -> Result<ClusteredLine, AllocError>
        ensures { IfOk result (λ line. line ≡ with_halves (visible (cells_in self))) }
    {
        match self {
            CellStorage::V(storage) => ClusteredLine::of_visible(&storage),
            CellStorage::Cluster(line) => {
                // `len` promises that the cells of a text are its visible ones with their halves.
                let _len = line.len();
                Ok(line)
            }
        }
    }

    /// A vector of the visible cells that begin in the columns `from..to`, each wide one followed
    /// by its half.
    pub fn columns(&self, from: usize, to: usize) -> Result<CellStorage, AllocError>
        ensures cells { IfOk result (λ cells.
            cells_in cells ≡ columns_between from to (cells_in self.now)) }
        ensures vector { IfOk result (λ cells. is_vector cells ≡ true) }
    {
        match self {
            CellStorage::V(storage) => {
                let cells = storage.columns(from, to)?;
                Ok(CellStorage::V(cells))
            }
            CellStorage::Cluster(line) => {
                let cells = expanded(line)?.columns(from, to)?;
                Ok(CellStorage::V(cells))
            }
        }
    }
}
