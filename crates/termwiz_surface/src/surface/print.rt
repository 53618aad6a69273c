//! How a surface prints texts.
ghost use Rattle.std.specs.Prelude.{◌≡◌, ◌+◌, ◌*◌, ◌<◌, ◌≤◌, ◌∷◌, [], OnErr, encode_utf8, length};
ghost use Rattle.termwiz_surface.specs.{PrintsGraphemes, columns_left, put_at_cursor, wrapped_kept};
ghost use Rattle.termwiz_surface.specs.{AreLetters, AreNarrow, IsMeasured, PrintsFirst, print_kept};
ghost use Rattle.termwiz_surface.specs.{SameFrame, down_kept, graphemes, map, needs_box, print_one};
ghost use Rattle.termwiz_surface.specs.{AreWide, is_plain, list_all, one_kept, put_kept, screen_of};
ghost use Rattle.termwiz_surface.specs.{Becomes, chars, false, kept_of, measure, returned, wrapped};
ghost use Rattle.termwiz_surface.specs.{cursor_row, down_touches, one_touches, touched_by};
ghost use Rattle.termwiz_surface.specs.{IfOk, OnOk, down, left_behind_first, left_by, print, true};
ghost use Rattle.termwiz_surface.specs.{BeginsRows, KeepsTop, ScrollsOff, wrap_touches};
ghost use Rattle.std.specs.Prelude.{IsTrue};

use super::Surface;
use crate::scrollback::LineSink;
use std::alloc::AllocError;
use termwiz_cell::cell::Cell;
use termwiz_cell::emoji::Widths;
use termwiz_screen::print::{
    Piece, begins_letters, begins_plain, printed_piece, split_narrow_run, split_wide_run,
};
use termwiz_screen::rows::{paint_letters, paint_row, paint_run, scroll_rows};
use termwiz_text::{after_line_end, letter_count, split_first_grapheme};

impl<W: Widths> Surface<W> {
    fn line_feed(&mut self) -> Result<(), AllocError>
        ensures ok { OnOk result (Becomes self.old (down (screen_of self.old))
            (down_kept (screen_of self.old) (kept_of self.old))
            (down_touches (screen_of self.old)) self.new) }
        ensures err { OnErr result (self.new ≡ self.old) }
    {
        if self.y + 1 < self.height {
            self.y += 1;
            return Ok(());
        }
        scroll_rows(&mut self.rows, self.width)?;
        self.numbers.mark_all(self.mark);
        Ok(())
    }

    // Moves the cursor to the beginning of the next row.
    fn next_line(&mut self) -> Result<(), AllocError>
        ensures ok { OnOk result (Becomes self.old (returned (down (screen_of self.old)))
            (down_kept (screen_of self.old) (kept_of self.old))
            (down_touches (screen_of self.old)) self.new) }
        ensures err { OnErr result (self.new ≡ self.old) }
    {
        self.line_feed()?;
        self.x = 0;
        Ok(())
    }

    #[inline(always)]
    fn put(&mut self, cell: Cell) -> Result<(), AllocError>
        requires inside { self.old.x < self.old.width }
        requires measured { IsMeasured (measure W.width_of self.old.widths) cell }
        ensures ok { OnOk result (let s = screen_of self.old in
            Becomes self.old (put_at_cursor s cell) (put_kept s cell (kept_of self.old))
            (cursor_row s) self.new) }
        ensures err { OnErr result (self.new ≡ self.old) }
    {
        let end = self.x + cell.width();
        paint_row(&mut self.rows, self.width, self.x, self.y, cell)?;
        self.numbers.mark_row(self.y, self.mark);
        self.x = end.min(self.width);
        Ok(())
    }

    // Moves the cursor to the next row, if a wrap is pending.
    fn wrap(&mut self) -> Result<(), AllocError>
        ensures ok { OnOk result (Becomes self.old (wrapped (screen_of self.old))
            (wrapped_kept (screen_of self.old) (kept_of self.old))
            (wrap_touches (screen_of self.old)) self.new) }
        ensures inside { OnOk result (self.new.x < self.new.width) }
        ensures err { OnErr result (self.new ≡ self.old) }
    {
        if self.x >= self.width {
            self.next_line()?;
        }
        Ok(())
    }

    fn print_one(&mut self, grapheme: &str) -> Result<(), AllocError>
        requires { graphemes true grapheme.now ≡ grapheme.now ∷ [] }
        ensures ok { OnOk result (let f = measure W.width_of self.old.widths in
            let s = screen_of self.old in
            Becomes self.old (print_one f s grapheme.now)
            (one_kept f s grapheme.now (kept_of self.old)) (one_touches f s grapheme.now)
            self.new) }
        ensures err { OnErr result (SameFrame self.old self.new) }
    {
        match printed_piece(self.alloc, &self.widths, grapheme, &self.pen)? {
            Piece::CarriageReturn => self.x = 0,
            Piece::LineFeed => self.line_feed()?,
            Piece::CarriageReturnLineFeed => self.next_line()?,
            Piece::Cell(cell) => {
                self.wrap()?;
                self.put(cell)?;
            }
        }
        Ok(())
    }

    // How many columns a run may have: those left in the row of its first character, and none where
    // the pen takes memory.
    fn run_limit(&self) -> usize
        ensures fits { result ≤ columns_left (screen_of self.now) }
        ensures unboxed { 0 < result → needs_box self.now.pen ≡ false }
    {
        if self.pen.unboxed_copy().is_none() {
            0
        } else if self.x < self.width {
            self.width - self.x
        } else {
            self.width
        }
    }

    // Prints a run of ASCII in the cursor's row.
    fn put_run(&mut self, run: &str) -> Result<(), AllocError>
        requires some { 0 < length run.now }
        requires plain { list_all is_plain run.now ≡ true }
        requires narrow { AreNarrow (measure W.width_of self.old.widths) run.now }
        requires unboxed { needs_box self.old.pen ≡ false }
        requires fits { self.old.x + length run.now ≤ self.old.width }
        ensures ok { OnOk result (PrintsGraphemes (measure W.width_of self.old.widths)
            self.old (map (λ c. c ∷ []) run.now) self.new) }
        ensures err { OnErr result (self.new ≡ self.old) }
    {
        paint_run(&mut self.rows, self.x, self.y, run, &self.pen)?;
        self.numbers.mark_row(self.y, self.mark);
        self.x += run.len();
        Ok(())
    }

    // Prints a run of letters in the cursor's row, where each takes two columns.
    fn put_letters(&mut self, run: &str) -> Result<(), AllocError>
        requires some { 0 < length (chars run.now) }
        requires letters { AreLetters run.now }
        requires wide { AreWide (measure W.width_of self.old.widths) (chars run.now) }
        requires unboxed { needs_box self.old.pen ≡ false }
        requires fits { self.old.x + 2 * length (chars run.now) ≤ self.old.width }
        ensures ok { OnOk result (PrintsGraphemes (measure W.width_of self.old.widths)
            self.old (map encode_utf8 (chars run.now)) self.new) }
        ensures err { OnErr result (self.new ≡ self.old) }
    {
        paint_letters(&mut self.rows, self.x, self.y, run, &self.pen)?;
        self.numbers.mark_row(self.y, self.mark);
        self.x += 2 * letter_count(run);
        Ok(())
    }

    // Prints the run of ASCII or of letters, or the CR LF, that the text begins with, or else its
    // first grapheme, and returns the rest.
    fn print_first<'a>(&mut self, text: &'a str) -> Result<&'a str, AllocError>
        requires { 0 < length text.now }
        ensures ok { IfOk result (λ rest. PrintsFirst (measure W.width_of self.old.widths)
            self.old text.now rest.now self.new) }
        // Of what is printed only the first grapheme scrolls.
        ensures scrolls { IfOk result (λ rest. let f = measure W.width_of self.old.widths in
            left_behind_first f (screen_of self.old) (kept_of self.old) (graphemes true text.now)
            ≡ left_by f (screen_of self.new) (kept_of self.new) (graphemes true rest.now)) }
        ensures err { OnErr result (SameFrame self.old self.new) }
    {
        if begins_plain(text) {
            let (run, rest) = split_narrow_run(&self.widths, text, self.run_limit());
            if !run.is_empty() {
                self.wrap()?;
                self.put_run(run)?;
                return Ok(rest);
            }
        }
        if let Some(rest) = after_line_end(text) {
            self.next_line()?;
            return Ok(rest);
        }
        if begins_letters(text) {
            let (run, rest) = split_wide_run(&self.widths, text, self.run_limit());
            if !run.is_empty() {
                self.wrap()?;
                self.put_letters(run)?;
                return Ok(rest);
            }
        }
        let Some((grapheme, rest)) = split_first_grapheme(text) else {
            unreachable!();
        };
        self.print_one(grapheme)?;
        Ok(rest)
    }

    // Moves row 0 to the lines that are kept, if printing the text begins by scrolling it off. The
    // rows below then move up over the default blanks in its place.
    fn keep_top<L: LineSink>(&mut self, text: &str, lines: &mut L) -> Result<(), AllocError>
        requires { 0 < length text.now }
        ensures ok { OnOk result (KeepsTop (measure W.width_of self.old.widths) L.KEEPS
            (graphemes true text.now) self.old (L.lines_of lines.old)
            self.new (L.lines_of lines.new)) }
        ensures err { OnErr result (self.new ≡ self.old) }
        ensures kept { OnErr result (L.lines_of lines.new ≡ L.lines_of lines.old) }
        ensures spare { L.spare_of lines.new ≤ L.spare_of lines.old }
    {
        if !L::KEEPS {
            return Ok(());
        }
        if !self.first_leaves(text) {
            return Ok(());
        }
        self.take_row(0, lines)?;
        Ok(())
    }

    pub(super) fn print_text<L: LineSink>(
        &mut self,
        text: &str,
        lines: &mut L,
    ) -> Result<(), AllocError>
        ensures ok { OnOk result (let f = measure W.width_of self.old.widths in
            let s = screen_of self.old in
            Becomes self.old (print f s text.now)
            (print_kept f s text.now (kept_of self.old))
            (touched_by f s (graphemes true text.now)) self.new) }
        ensures scrolls { OnOk result (IsTrue L.KEEPS → ScrollsOff self.old.width
            (left_by (measure W.width_of self.old.widths) (screen_of self.old)
            (kept_of self.old) (graphemes true text.now))
            (L.lines_of lines.old) (L.lines_of lines.new)) }
        ensures err { OnErr result (SameFrame self.old self.new) }
        ensures kept { OnErr result (IsTrue L.KEEPS → BeginsRows self.old.width
            (left_by (measure W.width_of self.old.widths) (screen_of self.old)
            (kept_of self.old) (graphemes true text.now))
            (L.lines_of lines.old) (L.lines_of lines.new)) }
        ensures spare { L.spare_of lines.new ≤ L.spare_of lines.old }
    {
        let mut rest = text;
        'pieces: while !rest.is_empty() {
            self.keep_top(rest, lines)?;
            rest = self.print_first(rest)?;
        }
        Ok(())
    }
}
