//! The rows of a surface, borrowed as lines or as cells.
ghost use Rattle.std.specs.Prelude.{◌≡◌, IfOk, map, option_map, slice_get};
ghost use Rattle.termwiz_surface.specs.{AreVectors, cells_of, row_flags};

use super::Surface;
use std::alloc::{AllocError, Global};
use std::collections::VecDeque;
use termwiz_cell::cell::Cell;
use termwiz_cell::emoji::Widths;
use termwiz_line::line::line::Line;

impl<W: Widths> Surface<W> {
    /// The rows from the top, as they are stored: a row may be shorter than the surface is wide,
    /// and shows default blanks after its cells. The numbers of these lines are unspecified:
    /// `row_seqno` returns the number of a row.
    pub fn screen_lines(&self) -> Result<Vec<&Line>, AllocError>
        ensures cells { IfOk result (λ lines. map (λ l. l.now.cells) lines.items ≡ self.now.lines) }
        ensures flags { IfOk result (λ lines. map (λ l. l.now.flags) lines.items ≡ self.now.flags) }
    {
        lent_lines(self.alloc, &self.rows)
    }

    /// The stored cells of each row from the top, which may be fewer than the surface's columns.
    pub fn screen_cells(&self) -> Result<Vec<&[Cell]>, AllocError>
        ensures { IfOk result (λ rows. map (λ r. r.now) rows.items ≡ self.now.lines) }
    {
        lent_cells(self.alloc, &self.rows)
    }

    /// The row at this index from the top, as `screen_lines` returns it, or `None` past the last
    /// one.
    pub fn screen_line(&self, row: usize) -> Option<&Line>
        ensures cells { option_map (λ l. l.now.cells) result ≡ slice_get self.now.lines row }
        ensures flags { option_map (λ l. l.now.flags) result ≡ slice_get self.now.flags row }
    {
        self.rows.get(row)
    }

    /// The stored cells of the row at this index from the top, as `screen_cells` returns them, or
    /// `None` past the last one.
    pub fn row_cells(&self, row: usize) -> Option<&[Cell]>
        ensures { option_map (λ r. r.now) result ≡ slice_get self.now.lines row }
    {
        let line = self.rows.get(row)?;
        Some(line.vector_cells())
    }
}

fn lent_lines(alloc: Global, rows: &VecDeque<Line>) -> Result<Vec<&Line>, AllocError>
    ensures cells { IfOk result (λ lines.
        map (λ l. l.now.cells) lines.items ≡ cells_of rows.now.items) }
    ensures flags { IfOk result (λ lines.
        map (λ l. l.now.flags) lines.items ≡ row_flags rows.now.items) }
{
    let mut lines = Vec::with_capacity(alloc, rows.len())?;
    for i in 0..rows.len() {
        lines.push(&rows[i])?;
    }
    Ok(lines)
}

fn lent_cells(alloc: Global, rows: &VecDeque<Line>) -> Result<Vec<&[Cell]>, AllocError>
    requires { AreVectors rows.now.items }
    ensures { IfOk result (λ lent. map (λ r. r.now) lent.items ≡ cells_of rows.now.items) }
{
    let mut lent = Vec::with_capacity(alloc, rows.len())?;
    for i in 0..rows.len() {
        lent.push(rows[i].vector_cells())?;
    }
    Ok(lent)
}
