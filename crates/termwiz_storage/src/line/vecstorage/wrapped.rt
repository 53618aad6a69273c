//! The wrapped mark of the last visible cell: the next line continues the text.
ghost use Rattle.std.specs.Prelude.{◌≡◌, ◌<◌, ◌≤◌, IsOk, IsTrue, OnErr, length, slice_set, vec_len};
ghost use Rattle.termwiz_storage.specs.{OnOk, hides, last_attrs, last_index, option_copied, stored};
ghost use Rattle.termwiz_storage.specs.{set_last_wrapped, visible, with_wrapped, wrapped_last};

use super::VecStorage;
use std::alloc::AllocError;
use termwiz_cell::cell::{Cell, CellAttributes};

impl VecStorage {
    /// Sets whether the last visible cell and the stored cell that it hides are marked as wrapped.
    /// To an empty list a default blank is first appended, and only that can fail. An error leaves
    /// the list unchanged.
    pub(crate) fn set_last_wrapped(&mut self, wrapped: bool) -> Result<(), AllocError>
        ensures ok { OnOk result (self.new ≡ set_last_wrapped wrapped self.old) }
        ensures err { OnErr result (self.new ≡ self.old) }
        ensures succeeds { 0 < length self.old → IsOk result }
    {
        self.pad(1)?;
        self.wrap_last(wrapped);
        Ok(())
    }

    fn wrap_last(&mut self, wrapped: bool)
        requires { 0 < length self.old }
        ensures { self.new ≡ wrapped_last wrapped self.old }
    {
        let last = self.cells.len() - 1;
        if self.is_hidden(last) {
            put_wrapped(&mut self.cells, last - 1, wrapped);
        }
        put_wrapped(&mut self.cells, last, wrapped);
        self.used = self.cells.len();
    }

    /// The attributes of the last visible cell, if any.
    pub(crate) fn last_attrs(&self) -> Option<&CellAttributes>
        ensures { option_copied result ≡ last_attrs (visible self.now) }
    {
        if self.cells.is_empty() {
            return None;
        }
        Some(self.cells[self.last_shown()].attrs())
    }

    // The column of the last visible cell.
    fn last_shown(&self) -> usize
        requires { 0 < length self.now }
        ensures value { result ≡ last_index (visible self.now) }
        ensures within { result < length self.now }
    {
        let last = self.cells.len() - 1;
        if self.is_hidden(last) { last - 1 } else { last }
    }

    // Whether the cell before column i hides it. Of adjacent wide cells the first hides the second,
    // which hides none; the third hides the fourth, and so on.
    pub(super) fn is_hidden(&self, i: usize) -> bool
        requires { i ≤ length self.now }
        ensures value { result ≡ hides self.now i }
        ensures some { IsTrue result → 0 < i }
    {
        let mut hidden = false;
        let mut first = i;
        while first > 0 && self.cells[first - 1].width() > 1 {
            hidden = !hidden;
            first -= 1;
        }
        hidden
    }
}

fn put_wrapped(cells: &mut Vec<Cell>, i: usize, wrapped: bool)
    requires { i < vec_len cells.old }
    ensures { cells.new.items
        ≡ slice_set cells.old.items i (with_wrapped wrapped (stored cells.old.items i)) }
{
    set_wrapped(cells[i].attrs_mut(), wrapped);
}

/// Sets the wrapped mark of attributes.
pub(crate) fn set_wrapped(attrs: &mut CellAttributes, wrapped: bool)
    ensures { attrs.new ≡ record attrs.old { wrapped = wrapped } }
{
    attrs.set_wrapped(wrapped);
}
