//! Edits of a line's cells.
ghost use Rattle.std.specs.Prelude.{◌≡◌, ◌<◌, ◌≤◌, ◌-◌, ◌↔◌, ◌++◌, [], IsTrue, length, replicate};
ghost use Rattle.termwiz_cell.specs.CellValue.{plain_cell};
ghost use Rattle.termwiz_line.specs.{AppendsCells, EditsElsewhere, IsPartlyFilled, columns_between};
ghost use Rattle.termwiz_line.specs.{IsTakenFrom, IsUnchanged, MakesVector, cell_of, erased_within};
ghost use Rattle.termwiz_line.specs.{AppendsAt, AreLetters, IsEditedAt, set_letters, with_halves};
ghost use Rattle.termwiz_line.specs.{HasCells, IsEdited, IsFilled, IsPruned, LendsLine, needs_box};
ghost use Rattle.termwiz_line.specs.{blank_of, inserted, is_plain, list_all, no_flags, set_cell};
ghost use Rattle.termwiz_line.specs.{Fills, IfOk, IfSome, IsSome, OnErr, Prunes, erased, removed};
ghost use Rattle.termwiz_line.specs.{set_run, visible};
ghost use Rattle.termwiz_line.specs.{IsOk, OnOk, blank, chars, drop, false, max, sem, take, true};

use crate::line::line::Line;
use crate::line::line::zones::drop_zones;
use crate::line::linebits::LineBits;
use std::alloc::AllocError;
use std::ops::Range;
use termwiz_cell::cell::{Cell, CellAttributes};
use termwiz_cell::change::SequenceNo;
use termwiz_storage::line::vecstorage::VecStorage;

impl Line {
    /// Replaces the cells by this many blanks with these attributes, and clears the flags. Raises
    /// the line's number to `seqno`. An error leaves number, flags and cells unchanged.
    pub fn resize_and_clear(
        &mut self,
        width: usize,
        seqno: SequenceNo,
        blank_attr: CellAttributes,
    ) -> Result<(), AllocError>
        ensures ok { OnOk result (
            self.new ≡ record {
              cells = replicate width (blank_of blank_attr);
              seqno = max self.old.seqno seqno;
              flags = no_flags;
              is_vector = true;
            }) }
        ensures err { OnErr result (IsUnchanged self.old self.new) }
    {
        drop_zones(&mut self.zones);
        self.storage.clear_to(self.alloc, width, blank_attr)?;
        self.seqno = self.seqno.max(seqno);
        self.bits = LineBits::NONE;
        Ok(())
    }

    /// Sets the cell at a column, and the half of a wide one after it. The line is first padded
    /// with default blanks up to the column, and a wide cell directly before the column becomes a
    /// blank with its attributes. Raises the line's number to `seqno`.
    ///
    /// - At the end of a line that stores its cells as one text, the cell is appended to the text.
    /// - It also fails where the cell would end past the greatest `usize`. An error leaves number,
    ///   flags and cells unchanged.
    pub fn set_cell(&mut self, i: usize, cell: Cell, seqno: SequenceNo) -> Result<(), AllocError>
        ensures ok { OnOk result (
            IsEdited self.old (set_cell i cell self.old.cells) seqno self.new) }
        ensures err { OnErr result (IsUnchanged self.old self.new) }
        ensures appended { OnOk result (AppendsAt i self.old self.new) }
        ensures made { OnOk result (EditsElsewhere i self.old self.new) }
    {
        drop_zones(&mut self.zones);
        self.storage.set_cell(i, cell)?;
        self.seqno = self.seqno.max(seqno);
        Ok(())
    }

    /// Sets the cell of a text of this width at a column, as `set_cell` does. A width of 0 counts
    /// as 1. Raises the line's number to `seqno`. It also fails where the cell would end past the
    /// greatest `usize`. An error leaves number, flags and cells unchanged.
    pub fn set_cell_grapheme(
        &mut self,
        i: usize,
        text: &str,
        width: usize,
        attrs: CellAttributes,
        seqno: SequenceNo,
    ) -> Result<(), AllocError>
        requires { width ≤ 2 }
        ensures ok { OnOk result (
            IsEdited self.old (set_cell i (cell_of text.now width attrs) self.old.cells) seqno
            self.new) }
        ensures err { OnErr result (IsUnchanged self.old self.new) }
        ensures appended { OnOk result (AppendsAt i self.old self.new) }
        ensures made { OnOk result (EditsElsewhere i self.old self.new) }
    {
        let cell = Cell::new_grapheme_with_width(self.alloc, text, width, attrs)?;
        self.set_cell(i, cell, seqno)?;
        Ok(())
    }

    /// Sets the cell at a column as `set_cell` does, and then cuts the line to `width` columns.
    /// Raises the line's number to `seqno`. It also fails where the cell would end past the
    /// greatest `usize`. An error leaves number, flags and cells unchanged.
    #[doc(hidden)]
    #[inline(always)]
    pub fn set_cell_within(
        &mut self,
        i: usize,
        cell: Cell,
        width: usize,
        seqno: SequenceNo,
    ) -> Result<(), AllocError>
        ensures ok { OnOk result (
            IsEdited self.old (take width (set_cell i cell self.old.cells)) seqno self.new) }
        ensures err { OnErr result (IsUnchanged self.old self.new) }
        ensures made { OnOk result (self.new.is_vector ≡ true) }
    {
        drop_zones(&mut self.zones);
        self.storage.set_cell_within(i, cell, width)?;
        self.seqno = self.seqno.max(seqno);
        Ok(())
    }

    /// Sets the cell of each character of a run of printable ASCII, in order from a column on, with
    /// attributes that take no memory. Raises the line's number to `seqno`. It also fails where the
    /// run would end past the greatest `usize`. An error leaves number, flags and cells unchanged.
    #[doc(hidden)]
    pub fn set_run(
        &mut self,
        i: usize,
        run: &str,
        attrs: &CellAttributes,
        seqno: SequenceNo,
    ) -> Result<(), AllocError>
        requires plain { list_all is_plain run.now ≡ true }
        requires unboxed { needs_box attrs.now ≡ false }
        ensures ok { OnOk result (
            IsEdited self.old (set_run i run.now attrs.now self.old.cells) seqno self.new) }
        ensures err { OnErr result (IsUnchanged self.old self.new) }
        ensures made { OnOk result (self.new.is_vector ≡ true) }
    {
        drop_zones(&mut self.zones);
        self.storage.set_run(i, run, attrs)?;
        self.seqno = self.seqno.max(seqno);
        Ok(())
    }

    /// Sets the cell of each letter of a run, of two columns, and its half, in order from a column
    /// on, with attributes that take no memory. Raises the line's number to `seqno`. It also fails
    /// where the run would end past the greatest `usize`. An error leaves number, flags and cells
    /// unchanged.
    #[doc(hidden)]
    pub fn set_letters(
        &mut self,
        i: usize,
        run: &str,
        attrs: &CellAttributes,
        seqno: SequenceNo,
    ) -> Result<(), AllocError>
        requires letters { AreLetters run.now }
        requires unboxed { needs_box attrs.now ≡ false }
        ensures ok { OnOk result (
            IsEdited self.old (set_letters i (chars run.now) attrs.now self.old.cells) seqno
            self.new) }
        ensures err { OnErr result (IsUnchanged self.old self.new) }
        ensures made { OnOk result (self.new.is_vector ≡ true) }
    {
        drop_zones(&mut self.zones);
        self.storage.set_letters(i, run, attrs)?;
        self.seqno = self.seqno.max(seqno);
        Ok(())
    }

    /// Cuts the default blanks at the end, unless the line has no other cell. Raises the line's
    /// number to `seqno` where it cuts any. It can only fail where it cuts a text, which becomes a
    /// vector. An error leaves number, flags and cells unchanged.
    pub fn prune_trailing_blanks(&mut self, seqno: SequenceNo) -> Result<(), AllocError>
        ensures ok { OnOk result (Prunes self.old seqno self.new) }
        ensures err { OnErr result (IsUnchanged self.old self.new) }
        ensures succeeds { self.old.is_vector ≡ true → IsOk result }
        // If there is nothing to cut.
        ensures rests { IsPruned self.old.cells self.old.cells →
            (result ≡ Ok tt) × (self.new ≡ self.old) }
    {
        let kept = self.storage.kept_len();
        if kept > 0 && kept < self.len() {
            drop_zones(&mut self.zones);
            self.storage.truncate(kept)?;
            self.seqno = self.seqno.max(seqno);
        }
        Ok(())
    }

    // Sets a default blank in each of the columns `from..to`.
    fn set_blanks(&mut self, from: usize, to: usize, seqno: SequenceNo) -> Result<(), AllocError>
        ensures ok { OnOk result (Fills self.old (to - from) from blank seqno self.new) }
        ensures err { OnErr result (IsUnchanged self.old self.new) }
        ensures made { OnOk result (self.new.is_vector ≡ true) }
    {
        drop_zones(&mut self.zones);
        self.storage.set_blanks(from, to)?;
        if from < to {
            self.seqno = self.seqno.max(seqno);
        }
        Ok(())
    }

    // Sets the cell of a character of printable ASCII in each of the columns `from..to`, with
    // attributes that take no memory.
    fn set_copies(
        &mut self,
        from: usize,
        to: usize,
        byte: u8,
        attrs: &CellAttributes,
        seqno: SequenceNo,
    ) -> Result<(), AllocError>
        requires plain { is_plain byte ≡ true }
        requires unboxed { needs_box attrs.now ≡ false }
        ensures ok { OnOk result (
            Fills self.old (to - from) from (plain_cell byte attrs.now) seqno self.new) }
        ensures err { OnErr result (IsUnchanged self.old self.new) }
        ensures made { OnOk result (self.new.is_vector ≡ true) }
    {
        drop_zones(&mut self.zones);
        self.storage.set_copies(from, to, byte, attrs)?;
        if from < to {
            self.seqno = self.seqno.max(seqno);
        }
        Ok(())
    }

    // The character of a plain cell that can be copied without taking memory, if the line is a
    // vector.
    fn copied_byte(&self, cell: &Cell) -> Option<u8>
        ensures cell { IfSome result (λ byte. cell.now ≡ plain_cell byte cell.now.attrs) }
        ensures plain { IfSome result (λ byte. is_plain byte ≡ true) }
        ensures unboxed { IsSome result → needs_box cell.now.attrs ≡ false }
        ensures vector { IsSome result → self.now.is_vector ≡ true }
    {
        if self.stored_cells().is_none() || cell.owns_memory() {
            return None;
        }
        cell.as_plain()
    }

    // Sets the cell in each of the columns `from..to`.
    fn set_cells(
        &mut self,
        from: usize,
        to: usize,
        cell: &Cell,
        seqno: SequenceNo,
    ) -> Result<(), AllocError>
        ensures ok { OnOk result (Fills self.old (to - from) from cell.now seqno self.new) }
        ensures err { OnErr result (IsPartlyFilled self.old from to cell.now seqno self.new) }
        ensures appended { OnOk result (AppendsCells self.old from to cell.now self.new) }
        ensures made { OnOk result (MakesVector self.old from to cell.now self.new) }
        ensures none { to ≤ from → (result ≡ Ok tt) × (self.new ≡ self.old) }
    {
        if from >= to {
            return Ok(());
        }
        if cell.is_blank() {
            self.set_blanks(from, to, seqno)?;
            return Ok(());
        }
        if let Some(byte) = self.copied_byte(cell) {
            self.set_copies(from, to, byte, cell.attrs(), seqno)?;
            return Ok(());
        }
        for i in from..to {
            let copy = cell.clone()?;
            self.set_cell(i, copy, seqno)?;
        }
        Ok(())
    }

    // Whether filling with the cell leaves the line empty.
    fn stays_empty(&self, cell: &Cell) -> bool
        ensures { IsTrue result ↔ ((self.now.cells ≡ []) × (cell.now ≡ blank)) }
    {
        self.storage.is_empty() && cell.is_blank()
    }

    /// Sets the cell in each of the columns, in order, as `set_cell` does, and then cuts default
    /// blanks as `prune_trailing_blanks` does. Raises the line's number to `seqno` where it sets or
    /// cuts a cell.
    ///
    /// - A wide cell stays in the last column only: each one before it becomes its half.
    /// - An empty line is unchanged where the cell is a default blank.
    /// - For an empty range it only cuts default blanks, and can only fail where that makes a text
    ///   a vector.
    /// - After an error the cell is set in some of the first columns, or none, and no blank is cut.
    pub fn fill_range(
        &mut self,
        range: Range<usize>,
        cell: &Cell,
        seqno: SequenceNo,
    ) -> Result<(), AllocError>
        ensures ok { OnOk result (IsFilled self.old range.start range.end cell.now seqno self.new) }
        ensures err { OnErr result (
            IsPartlyFilled self.old range.start range.end cell.now seqno self.new) }
        ensures appended { OnOk result (
            AppendsCells self.old range.start range.end cell.now self.new) }
        ensures made { OnOk result (MakesVector self.old range.start range.end cell.now self.new) }
        // For an empty range.
        ensures none { range.end ≤ range.start → OnOk result (Prunes self.old seqno self.new) }
        ensures succeeds { range.end ≤ range.start → self.old.is_vector ≡ true → IsOk result }
        // For an empty range, if there is nothing to cut.
        ensures rests { range.end ≤ range.start → IsPruned self.old.cells self.old.cells →
            (result ≡ Ok tt) × (self.new ≡ self.old) }
    {
        if self.stays_empty(cell) {
            return Ok(());
        }
        self.set_cells(range.start, range.end, cell, seqno)?;
        self.prune_trailing_blanks(seqno)
    }

    /// Inserts a cell at a column, and the half of a wide one after it, and moves the cells from
    /// that column on. First the cell in the last column before the margin is removed, if any, and
    /// a line that is too short is padded with default blanks. Raises the line's number to `seqno`.
    ///
    /// ```text
    /// |abcd|  X at 1, margin 4:  |aXbc|      X at 1, margin 3:  |aXbd|
    /// ```
    /// - The margin is the column after the last one that is edited, so it is at least 1.
    /// - A wide cell that this cuts is kept.
    /// - It also fails where the cell would end past the greatest `usize`. An error leaves number,
    ///   flags and cells unchanged.
    pub fn insert_cell(
        &mut self,
        x: usize,
        cell: Cell,
        right_margin: usize,
        seqno: SequenceNo,
    ) -> Result<(), AllocError>
        requires { 1 ≤ right_margin }
        ensures ok { OnOk result (
            IsEdited self.old (inserted x cell right_margin self.old.cells) seqno self.new) }
        ensures err { OnErr result (IsUnchanged self.old self.new) }
        ensures made { OnOk result (self.new.is_vector ≡ true) }
    {
        drop_zones(&mut self.zones);
        self.storage.insert_cell(x, cell, right_margin)?;
        self.seqno = self.seqno.max(seqno);
        Ok(())
    }

    /// Removes the cell at a column, moves those after it, and appends a default blank. Raises the
    /// line's number to `seqno` where it removes a cell.
    ///
    /// - A wide cell before it that this cuts becomes a blank with its attributes.
    /// - Past the end of the line it changes nothing.
    /// - With a vector it never fails. An error leaves number, flags and cells unchanged.
    pub fn erase_cell(&mut self, x: usize, seqno: SequenceNo) -> Result<(), AllocError>
        ensures ok { OnOk result (IsEditedAt x self.old (erased x self.old.cells) seqno self.new) }
        ensures err { OnErr result (IsUnchanged self.old self.new) }
        ensures succeeds { self.old.is_vector ≡ true → IsOk result }
        ensures made { x < length self.old.cells → OnOk result (self.new.is_vector ≡ true) }
    {
        if x < self.len() {
            drop_zones(&mut self.zones);
            self.storage.erase_cell(x)?;
            self.seqno = self.seqno.max(seqno);
        }
        Ok(())
    }

    /// Removes the cell at a column, and moves those after it. A wide cell before it that this cuts
    /// becomes a blank with its attributes. Past the end of the line it changes nothing. Raises the
    /// line's number to `seqno` where it removes a cell. With a vector it never fails. An error
    /// leaves number, flags and cells unchanged.
    pub fn remove_cell(&mut self, x: usize, seqno: SequenceNo) -> Result<(), AllocError>
        ensures ok { OnOk result (IsEditedAt x self.old (removed x self.old.cells) seqno self.new) }
        ensures err { OnErr result (IsUnchanged self.old self.new) }
        ensures succeeds { self.old.is_vector ≡ true → IsOk result }
        ensures made { x < length self.old.cells → OnOk result (self.new.is_vector ≡ true) }
    {
        if x < self.len() {
            drop_zones(&mut self.zones);
            self.storage.remove_cell(x)?;
            self.seqno = self.seqno.max(seqno);
        }
        Ok(())
    }

    /// Removes the cell at a column as `remove_cell` does, and inserts a blank with these
    /// attributes in the last column before the margin, where the line reaches up to it. The margin
    /// is the column after the last one that is edited, so it is at least 1.
    /// ```text
    /// |abcd|  column 0, margin 3:  |bc d|
    /// ```
    /// Raises the line's number to `seqno`. An error leaves number, flags and cells unchanged.
    pub fn erase_cell_with_margin(
        &mut self,
        x: usize,
        right_margin: usize,
        seqno: SequenceNo,
        blank_attr: CellAttributes,
    ) -> Result<(), AllocError>
        requires { 1 ≤ right_margin }
        ensures ok { OnOk result (
            IsEdited self.old (erased_within x right_margin blank_attr self.old.cells) seqno
            self.new) }
        ensures err { OnErr result (IsUnchanged self.old self.new) }
        ensures made { OnOk result (self.new.is_vector ≡ true) }
    {
        drop_zones(&mut self.zones);
        self.storage
            .erase_cell_with_margin(x, right_margin, blank_attr)?;
        self.seqno = self.seqno.max(seqno);
        Ok(())
    }

    /// Keeps the cells before a column, and the line's number. Returns the rest as a line with the
    /// same flags and the number `seqno`. An error leaves number, flags and cells unchanged.
    pub fn split_off(&mut self, i: usize, seqno: SequenceNo) -> Result<Line, AllocError>
        ensures kept { OnOk result (HasCells self.old (take i self.old.cells) self.new) }
        ensures rest { IfOk result (λ rest.
            IsTakenFrom self.old (drop i self.old.cells) seqno rest) }
        ensures err { OnErr result (IsUnchanged self.old self.new) }
        ensures made { OnOk result (self.new.is_vector ≡ true) }
        ensures rest_vector { IfOk result (λ rest. rest.is_vector ≡ true) }
    {
        drop_zones(&mut self.zones);
        let storage = self.storage.split_off(i)?;
        let mut rest = Line::of(self.alloc, storage, seqno);
        rest.bits = self.bits;
        Ok(rest)
    }

    /// Appends the visible cells of another line, each wide one followed by its half. Raises the
    /// line's number to `seqno`.
    ///
    /// - The form that stores the cells is kept, whichever form the other line has.
    /// - It also fails where a cell would end past the greatest `usize`. An error leaves the line
    ///   unchanged.
    pub fn append_line(&mut self, other: Line, seqno: SequenceNo) -> Result<(), AllocError>
        ensures ok { OnOk result (
            IsEdited self.old (self.old.cells ++ with_halves (visible other.cells)) seqno
            self.new) }
        ensures err { OnErr result (self.new ≡ self.old) }
        ensures appended { OnOk result (self.new.is_vector ≡ self.old.is_vector) }
    {
        drop_zones(&mut self.zones);
        self.storage.append_visible(other.storage)?;
        self.seqno = self.seqno.max(seqno);
        Ok(())
    }

    /// A line of the visible cells that begin in these columns, each wide one followed by its half.
    /// It has this line's number, and no flags.
    pub fn columns_as_line(&self, range: Range<usize>) -> Result<Line, AllocError>
        ensures { IfOk result (λ line.
            line ≡ record {
              cells = columns_between range.start range.end self.now.cells;
              seqno = self.now.seqno;
              flags = no_flags;
              is_vector = true;
            }) }
    {
        let storage = self.storage.columns(range.start, range.end)?;
        Ok(Line::of(self.alloc, storage, self.seqno))
    }

    /// The stored cells, for writing: `line.cells_mut()?[i] = cell`. The line becomes a vector, and
    /// keeps its number. With a vector it never fails. An error leaves number, flags and cells
    /// unchanged.
    pub fn cells_mut(&mut self) -> Result<&mut VecStorage, AllocError>
        ensures* writes_back { sem 𝓛 (LendsLine self.entry result) }
        ensures value { IfOk result (λ cells. cells.now ≡ self.old.cells) }
        ensures succeeds { self.old.is_vector ≡ true → IsOk result }
    {
        drop_zones(&mut self.zones);
        self.storage.coerce_vec()
    }

    /// The stored cells, as `cells_mut` lends them, for writing attributes only.
    pub fn cells_mut_for_attr_changes_only(&mut self) -> Result<&mut VecStorage, AllocError>
        ensures* writes_back { sem 𝓛 (LendsLine self.entry result) }
        ensures value { IfOk result (λ cells. cells.now ≡ self.old.cells) }
        ensures succeeds { self.old.is_vector ≡ true → IsOk result }
    {
        self.cells_mut()
    }
}
