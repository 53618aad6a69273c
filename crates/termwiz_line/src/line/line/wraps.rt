//! Wrapping a line into lines of a width.
ghost use Rattle.std.specs.Prelude.{◌≡◌, ◌+◌, ◌<◌, ◌≤◌, ◌^◌, ◌∷◌, ◌++◌, ◌↔◌, IfOk, IsTrue, length};
ghost use Rattle.termwiz_line.specs.{AreLinesOf, FitsWidth, IsOfCell, IsSpace, IsTrimmed, OnOk};
ghost use Rattle.termwiz_line.specs.{IsWrapped, cells_left, indexed_cell, ref_cell, take, true};
ghost use Rattle.termwiz_line.specs.{with_half, with_wrapped};

use super::Line;
use std::alloc::{AllocError, Global};
use termwiz_cell::cell::{Cell, CellAttributes};
use termwiz_cell::change::SequenceNo;
use termwiz_storage::line::cellref::{CellRef, VisibleCellIter};
use termwiz_storage::line::vecstorage::push_with_half;

impl Line {
    /// Splits the line into lines of at most this many columns, which have the number `seqno` and
    /// no flags. The cells after the last one that isn't a space are dropped, and each line but the
    /// last is marked as wrapped.
    ///
    /// ```text
    /// |aかb |  at 2 columns:  |a|  |か|  |b|
    /// ```
    /// - Each line has as many cells as fit, and at least one, so a wide cell has a line of 2
    ///   columns where the width is less. The half of a wide cell follows it.
    /// - A line of spaces alone, or of no cells, is returned unchanged.
    /// - An error drops the line.
    pub fn wrap(self, width: usize, seqno: SequenceNo) -> Result<Vec<Line>, AllocError>
        ensures ok { IfOk result (λ lines. IsWrapped width seqno self lines.items) }
        ensures fits { 2 ≤ width → IfOk result (λ lines. FitsWidth width self lines.items) }
    {
        // There are no more visible cells than stored ones.
        let _len = self.len();
        let kept = text_count(self.visible_cells());
        if kept > 0 {
            let mut rest = self.visible_cells();
            if let Some(first) = rest.next() {
                return lines_from(self.alloc, first, rest, kept - 1, width, seqno);
            }
        }
        let mut lines = Vec::new(self.alloc);
        lines.push(self)?;
        Ok(lines)
    }
}

// How many visible cells there are up to the last that isn't a space.
fn text_count(cells: VisibleCellIter<'_>) -> usize
    requires { length (cells_left cells) < 2 ^ 64 }
    ensures { IsTrimmed IsSpace (cells_left cells.entry) (take result (cells_left cells.entry)) }
{
    let mut seen = 0;
    let mut kept = 0;
    for cell in cells {
        seen += 1;
        if !cell.is_space() {
            kept = seen;
        }
    }
    kept
}

// The lines of a cell and of those after it, up to a count. The last cell of a line is held back
// until it is known whether another line follows.
fn lines_from<'a>(
    alloc: Global,
    first: CellRef<'a>,
    rest: VisibleCellIter<'a>,
    count: usize,
    width: usize,
    seqno: SequenceNo,
) -> Result<Vec<Line>, AllocError>
    requires { IsOfCell first }
    ensures { IfOk result (λ lines.
        AreLinesOf width seqno (indexed_cell first.entry ∷ take count (cells_left rest.entry))
        lines.items) }
{
    let mut lines = Vec::new(alloc);
    let mut line = Vec::new(alloc);
    let mut last = first;
    let mut used = first.width();
    let mut left = count;
    for cell in rest {
        if left == 0 {
            break;
        }
        left -= 1;
        let more = cell.width();
        if has_room(used, more, width) {
            push_copy(&mut line, alloc, last)?;
            used += more;
        } else {
            push_marked(&mut line, alloc, last)?;
            lines.push(Line::from_cells(line, seqno))?;
            line = Vec::new(alloc);
            used = more;
        }
        last = cell;
    }
    push_copy(&mut line, alloc, last)?;
    lines.push(Line::from_cells(line, seqno))?;
    Ok(lines)
}

fn has_room(used: usize, more: usize, width: usize) -> bool
    ensures { IsTrue result ↔ (used + more ≤ width) }
{
    used <= width && more <= width - used
}

// Stores a copy of a cell, a wide one with its half.
fn push_copy(line: &mut Vec<Cell>, alloc: Global, cell: CellRef<'_>) -> Result<(), AllocError>
    requires { IsOfCell cell }
    ensures { OnOk result (line.new.items ≡ line.old.items ++ with_half (ref_cell cell.entry)) }
{
    let copy = cell.to_cell(alloc)?;
    push_with_half(line, copy)
}

// Stores a copy of a cell that is marked as wrapped, a wide one with its half.
fn push_marked(line: &mut Vec<Cell>, alloc: Global, cell: CellRef<'_>) -> Result<(), AllocError>
    requires { IsOfCell cell }
    ensures { OnOk result (
        line.new.items ≡ line.old.items ++ with_half (with_wrapped true (ref_cell cell.entry))) }
{
    let mut copy = cell.to_cell(alloc)?;
    mark(copy.attrs_mut());
    push_with_half(line, copy)
}

fn mark(attrs: &mut CellAttributes)
    ensures { attrs.new ≡ record attrs.old { wrapped = true } }
{
    attrs.set_wrapped(true);
}
