//! A writer of the changes that print cells at their columns and rows.
ghost use Rattle.std.specs.Prelude.{◌≡◌, ◌+◌, ◌-◌, ◌<◌, ◌≤◌, ◌^◌, ◌++◌, ◌∷◌, [], IfOk, OnOk, Some};
ghost use Rattle.termwiz_screen.specs.{IsOfCell, IsPrintedTo, change_value, cursor_at, end_value};
ghost use Rattle.termwiz_screen.specs.{length, map, ref_cell, ℕ};
ghost use Rattle.termwiz_screen.specs.Diff as spec;
ghost use Rattle.termwiz_screen.specs.Prints.{Print};

use super::runs::push_run;
use std::alloc::{AllocError, Global};
use std::marker::Model;
use termwiz_cell::cell::{Cell, CellAttributes};
use termwiz_cell::change::{Change, Position};
use termwiz_line::entries::EntryList;
use termwiz_storage::line::cellref::CellRef;

// The cursor and the pen after the last cell.
#[derive(Clone, Copy)]
struct End<'a> {
    x: usize,
    y: usize,
    pen: &'a CellAttributes,
}

/// Writes cells as changes: a move and a pen where they are needed, and their texts.
#[derive(Drop)]
pub(super) struct DiffWriter<'a> {
    entries: EntryList,
    end: Option<End<'a>>,
}

impl<'a> Model for DiffWriter<'a> {
    ghost use Rattle.termwiz_screen.specs.Diff.{PrintedOut};
    ghost use Rattle.termwiz_screen.specs.Ends.{end_value};

    ghost Value = { PrintedOut };

    ghost view = { λ w. record { entries = w.entries; end = end_value w.end } };
}

impl<'a> DiffWriter<'a> {
    /// A writer without entries.
    pub(super) fn new(alloc: Global) -> DiffWriter<'a>
        ensures { result ≡ spec.nothing_printed }
    {
        DiffWriter {
            entries: EntryList::new(alloc),
            end: None,
        }
    }

    /// Prints a cell at a column of a row.
    #[inline(always)]
    pub(super) fn print(
        &mut self,
        row: usize,
        column: usize,
        cell: CellRef<'a>,
    ) -> Result<(), AllocError>
        requires fits { column < 2 ^ 32 }
        requires cell { IsOfCell cell }
        ensures { OnOk result (
            self.new ≡ spec.print_out self.old (record {
              row = row;
              column = column;
              cell = ref_cell cell.entry;
            })) }
    {
        let pen = cell.attrs();
        let x = column + cell.width();
        push_place(&mut self.entries, self.end, row, column, pen)?;
        self.entries.push_text(cell.str())?;
        self.end = Some(End { x, y: row, pen });
        Ok(())
    }

    /// Prints the plain cells from a column on that directly follow the last cell, in its pen, and
    /// that the own row doesn't show, and returns their number.
    ///
    /// They need no move and no pen, and printable ASCII always joins a text that ends in printable
    /// ASCII.
    pub(super) fn print_run(
        &mut self,
        own: &[Cell],
        column: usize,
        cells: &[Cell],
        from: usize,
        end: usize,
    ) -> Result<usize, AllocError>
        requires within { from ≤ end }
        requires stored { end ≤ length cells.now }
        requires fits { column + (end - from) ≤ 2 ^ 32 }
        ensures end { IfOk result (λ count. from + count ≤ end) }
        ensures printed { IfOk result (λ count. (e : spec.End) (x q n : ℕ) (d : spec.PrintedOut) →
            self.old.end ≡ Some e → e.x ≡ column → column ≡ x + (from - q) → end ≤ q + n →
            IsPrintedTo own.now x cells.now q n e.y d self.old from →
            IsPrintedTo own.now x cells.now q n e.y d self.new (from + count)) }
    {
        if !self.entries.ends_printable() {
            return Ok(0);
        }
        let Some(last) = self.end else {
            return Ok(0);
        };
        let Some(pen) = last.pen.unboxed_copy() else {
            return Ok(0);
        };
        let count = push_run(&mut self.entries, &pen, own, column, cells, from, end)?;
        self.end = Some(End {
            x: column + count,
            ..last
        });
        Ok(count)
    }

    /// The changes, in order.
    pub(super) fn into_vec(self) -> Result<Vec<Change>, AllocError>
        ensures { IfOk result (λ changes. map change_value changes.items ≡ self.entry.entries) }
    {
        self.entries.into_vec()
    }
}

// Appends a move to a row and column, and a pen, where they are needed.
#[inline(always)]
fn push_place(
    entries: &mut EntryList,
    end: Option<End<'_>>,
    row: usize,
    column: usize,
    pen: &CellAttributes,
) -> Result<(), AllocError>
    ensures { OnOk result (
        (p : Print) → p.row ≡ row → p.column ≡ column → p.cell.attrs ≡ pen.now →
        entries.new ≡ (entries.old ++ spec.move_to (end_value end.entry) p)
        ++ spec.pen_to (end_value end.entry) p) }
{
    match end {
        Some(end) => {
            if end.x != column || end.y != row {
                push_move(entries, row, column)?;
            }
            entries.push_pen(end.pen, pen)?;
        }
        None => {
            push_move(entries, row, column)?;
            entries.push(Change::AllAttributes(pen.clone()?))?;
        }
    }
    Ok(())
}

fn push_move(entries: &mut EntryList, row: usize, column: usize) -> Result<(), AllocError>
    ensures { OnOk result (entries.new ≡ entries.old ++ cursor_at column row ∷ []) }
{
    entries.push(Change::CursorPosition {
        x: Position::Absolute(column),
        y: Position::Absolute(row),
    })?;
    Ok(())
}
