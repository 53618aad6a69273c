//! Rows of cells that are stored one by one, most of which are one character of printable ASCII in
//! the current pen.
ghost use Rattle.std.specs.Prelude.{◌≡◌, ◌++◌, ◌∷◌, ◌≤◌, ◌&&◌, ◌==◌, [], List, OnOk, length, true};
ghost use Rattle.termwiz_line.specs.{IsInText, IsUnderWay, IsWritten, Penned, VisibleCell};
ghost use Rattle.termwiz_line.specs.{and_cells, ends_printable, is_plain, last_is, spaces_of};

use super::{RowWriter, added};
use std::alloc::AllocError;
use termwiz_cell::cell::CellAttributes;
use termwiz_storage::line::vecstorage::VecStorageIter;

impl<'a> RowWriter<'a> {
    // Writes cells that are stored one by one. After each one, the plain cells in its pen are
    // written in a loop of their own, which only tests what they need.
    pub(super) fn stored_cells(&mut self, cells: VecStorageIter<'a>) -> Result<(), AllocError>
        ensures { OnOk result (
            (from : Penned) (before : List VisibleCell) → IsWritten from before self.old →
            IsWritten from (before ++ cells.entry) self.new) }
    {
        let mut left = cells;
        while let Some(cell) = left.next() {
            self.cell(cell.str(), cell.attrs())?;
            self.plain_cells(&mut left)?;
        }
        Ok(())
    }

    // Writes the next plain cells in the current pen, if the last entry is a text that ends in
    // printable ASCII.
    #[inline(always)]
    fn plain_cells(&mut self, left: &mut VecStorageIter<'a>) -> Result<(), AllocError>
        ensures written { OnOk result (
            (from : Penned) (all : List VisibleCell) →
            IsUnderWay from all left.old self.old → IsUnderWay from all left.new self.new) }
        ensures shorter { length left.new ≤ length left.old }
    {
        if !self.is_in_text() {
            return Ok(());
        }
        // A local copy of the pen is compared without following a reference.
        match self.pen.unboxed_copy() {
            Some(pen) => self.plain_run(left, &pen),
            None => self.boxed_run(left),
        }
    }

    // Writes the next plain cells in a pen that has a box. It is kept out of line, so that the path
    // of other pens is short.
    #[inline(never)]
    fn boxed_run(&mut self, left: &mut VecStorageIter<'a>) -> Result<(), AllocError>
        requires spaces { self.old.spaces ≡ 0 }
        requires text { last_is ends_printable self.old.printed.entries ≡ true }
        ensures written { OnOk result (
            (from : Penned) (all : List VisibleCell) →
            IsUnderWay from all left.old self.old → IsUnderWay from all left.new self.new) }
        ensures shorter { length left.new ≤ length left.old }
    {
        let pen = self.pen;
        self.plain_run(left, pen)
    }

    // Writes the next plain cells in a pen that is equal to the current one.
    #[inline(always)]
    fn plain_run(
        &mut self,
        left: &mut VecStorageIter<'a>,
        pen: &CellAttributes,
    ) -> Result<(), AllocError>
        requires spaces { self.old.spaces ≡ 0 }
        requires text { last_is ends_printable self.old.printed.entries ≡ true }
        requires pen { pen.now ≡ self.old.printed.pen }
        ensures written { OnOk result (
            (from : Penned) (all : List VisibleCell) →
            IsUnderWay from all left.old self.old → IsUnderWay from all left.new self.new) }
        ensures shorter { length left.new ≤ length left.old }
    {
        self.space_attrs = self.pen;
        while let Some(byte) = left.next_plain(pen) {
            self.plain_cell(byte)?;
        }
        Ok(())
    }

    // Whether the last entry is a text that ends in printable ASCII, and no space is held back.
    fn is_in_text(&self) -> bool
        ensures { result
            ≡ (self.now.spaces == 0 && last_is ends_printable self.now.printed.entries) }
    {
        self.spaces == 0 && self.entries.ends_printable()
    }

    // Writes a cell of one character of printable ASCII in the current pen.
    #[inline(always)]
    fn plain_cell(&mut self, byte: u8) -> Result<(), AllocError>
        requires plain { is_plain byte ≡ true }
        requires text { IsInText self.old }
        ensures cell { OnOk result (
            (from : Penned) (cells : List VisibleCell) (p : VisibleCell) →
            p.cell.text ≡ byte ∷ [] → p.cell.attrs ≡ self.old.printed.pen →
            IsWritten from cells self.old → IsWritten from (cells ++ p ∷ []) self.new) }
        ensures text { OnOk result (IsInText self.new) }
        ensures pen { OnOk result (self.new.printed.pen ≡ self.old.printed.pen) }
    {
        if byte == b' ' {
            self.spaces = added(self.spaces, 1)?;
            return Ok(());
        }
        self.push_spaces()?;
        self.entries.push_plain(byte)?;
        Ok(())
    }

    // Prints the held-back spaces, which have the current pen, after printable ASCII.
    #[inline(always)]
    pub(super) fn push_spaces(&mut self) -> Result<(), AllocError>
        requires { IsInText self.old }
        ensures printed { OnOk result (
            self.new.printed
            ≡ and_cells self.old.printed (spaces_of self.old.spaces self.old.space_attrs)) }
        ensures spaces { OnOk result (self.new.spaces ≡ 0) }
        ensures space_attrs { self.new.space_attrs ≡ self.old.space_attrs }
    {
        while self.spaces > 0 {
            self.entries.push_plain(b' ')?;
            self.spaces -= 1;
        }
        Ok(())
    }
}
