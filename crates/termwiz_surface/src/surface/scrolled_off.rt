//! Rows that scroll off the top, and are kept.
ghost use Rattle.std.specs.Prelude.{◌≡◌, ◌+◌, ◌<◌, ◌≤◌, ◌∷◌, ◌==◌, [], IsTrue, OnErr, length};
ghost use Rattle.std.specs.Prelude.{replicate, slice_set};
ghost use Rattle.termwiz_surface.specs.{Becomes, BeginsRows, IsSound, OnOk, SameFrame, ScrollsOff};
ghost use Rattle.termwiz_surface.specs.{blank, first_leaves, first_rows, graphemes, kept_of};
ghost use Rattle.termwiz_surface.specs.{left_region, measure, moves_down, nat_lt, no_flags};
ghost use Rattle.termwiz_surface.specs.{piece_of, region_up, row_shown, screen_of, scroll_touches};
ghost use Rattle.termwiz_surface.specs.{topped, true};

use super::Surface;
use crate::scrollback::LineSink;
use std::alloc::AllocError;
use termwiz_cell::emoji::Widths;
use termwiz_text::{after_line_end, split_first_grapheme};

impl<W: Widths> Surface<W> {
    // Moves a row to the end of the lines that are kept, and leaves a row of default blanks in its
    // place.
    pub(super) fn take_row<L: LineSink>(
        &mut self,
        row: usize,
        lines: &mut L,
    ) -> Result<(), AllocError>
        requires inside { row < self.old.height }
        requires keeps { IsTrue L.KEEPS }
        ensures ok { OnOk result (let s = screen_of self.old in let k = kept_of self.old in
            Becomes self.old
            (record s { rows = slice_set s.rows row (replicate s.width blank) })
            (record k {
              lengths = slice_set k.lengths row s.width;
              flags = slice_set k.flags row no_flags;
            })
            (λ j. j == row) self.new) }
        ensures moves { OnOk result (ScrollsOff self.old.width
            (row_shown (screen_of self.old) (kept_of self.old) row ∷ [])
            (L.lines_of lines.old) (L.lines_of lines.new)) }
        ensures err { OnErr result (self.new ≡ self.old) }
        ensures kept { OnErr result (L.lines_of lines.new ≡ L.lines_of lines.old) }
        ensures spare { L.spare_of lines.new ≤ L.spare_of lines.old }
        ensures sound { OnOk result (IsSound (measure W.width_of self.old.widths) self.old) }
    {
        lines.take(self.alloc, self.width, &mut self.rows[row])?;
        self.numbers.mark_row(row, self.mark);
        Ok(())
    }

    // Moves the first `count` rows to the end of the lines that are kept, and leaves rows of
    // default blanks in their place.
    fn take_rows<L: LineSink>(&mut self, count: usize, lines: &mut L) -> Result<(), AllocError>
        requires inside { count ≤ self.old.height }
        requires keeps { IsTrue L.KEEPS }
        ensures ok { OnOk result (let s = screen_of self.old in let k = kept_of self.old in
            Becomes self.old
            (record s { rows = topped (replicate s.width blank) count s.rows })
            (record k {
              lengths = topped s.width count k.lengths;
              flags = topped no_flags count k.flags;
            })
            (λ j. nat_lt j count) self.new) }
        ensures moves { OnOk result (ScrollsOff self.old.width
            (first_rows (screen_of self.old) (kept_of self.old) count)
            (L.lines_of lines.old) (L.lines_of lines.new)) }
        ensures err { OnErr result (SameFrame self.old self.new) }
        ensures kept { OnErr result (BeginsRows self.old.width
            (first_rows (screen_of self.old) (kept_of self.old) count)
            (L.lines_of lines.old) (L.lines_of lines.new)) }
        ensures spare { L.spare_of lines.new ≤ L.spare_of lines.old }
    {
        for row in 0..count {
            self.take_row(row, lines)?;
        }
        Ok(())
    }

    // Whether a grapheme moves the cursor down.
    fn moves_down(&self, grapheme: &str) -> bool
        ensures { result ≡ moves_down (screen_of self.now)
            (piece_of (measure W.width_of self.now.widths) self.now.pen grapheme.now) }
    {
        match grapheme.as_bytes() {
            [b'\r'] => false,
            [b'\n'] | [b'\r', b'\n'] => true,
            _ => self.x >= self.width,
        }
    }

    // Whether the text's first grapheme scrolls row 0 off.
    pub(super) fn first_leaves(&self, text: &str) -> bool
        requires { 0 < length text.now }
        ensures leaves { result ≡ first_leaves (measure W.width_of self.now.widths)
            (screen_of self.now) (graphemes true text.now) }
        ensures some_row { 0 < self.now.height }
    {
        if self.y + 1 < self.height {
            return false;
        }
        // What begins with no control character is printed as a cell.
        if text.as_bytes()[0] >= b' ' {
            return self.x >= self.width;
        }
        if after_line_end(text).is_some() {
            return true;
        }
        match split_first_grapheme(text) {
            Some((grapheme, _)) => self.moves_down(grapheme),
            None => unreachable!(),
        }
    }

    // Scrolls rows up inside a region. Those that leave row 0 go to the lines that are kept.
    pub(super) fn scroll_up<L: LineSink>(
        &mut self,
        first: usize,
        size: usize,
        count: usize,
        lines: &mut L,
    ) -> Result<(), AllocError>
        requires { first + size ≤ self.old.height }
        ensures ok { OnOk result (let s = screen_of self.old in let k = kept_of self.old in
            Becomes self.old
            (record s { rows = region_up (replicate s.width blank) s.rows first size count })
            (record k {
              lengths = region_up s.width k.lengths first size count;
              flags = region_up no_flags k.flags first size count;
            })
            (scroll_touches first size count) self.new) }
        ensures scrolls { OnOk result (IsTrue L.KEEPS → ScrollsOff self.old.width
            (left_region (screen_of self.old) (kept_of self.old) first size count)
            (L.lines_of lines.old) (L.lines_of lines.new)) }
        ensures err { OnErr result (SameFrame self.old self.new) }
        ensures kept { OnErr result (IsTrue L.KEEPS → BeginsRows self.old.width
            (left_region (screen_of self.old) (kept_of self.old) first size count)
            (L.lines_of lines.old) (L.lines_of lines.new)) }
        ensures spare { L.spare_of lines.new ≤ L.spare_of lines.old }
    {
        if !L::KEEPS {
            self.scroll_region_up(first, size, count)?;
            return Ok(());
        }
        if first > 0 {
            self.scroll_region_up(first, size, count)?;
            return Ok(());
        }
        self.take_rows(count.min(size), lines)?;
        self.scroll_region_up(0, size, count)?;
        Ok(())
    }
}
