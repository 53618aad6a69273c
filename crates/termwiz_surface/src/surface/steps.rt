//! What each change does to a surface.
ghost use Rattle.std.specs.Prelude.{◌≡◌, ◌+◌, ◌-◌, ◌<◌, ◌≤◌, nat_le, replicate, slice_index_or};
ghost use Rattle.std.specs.Prelude.{slice_set};
ghost use Rattle.termwiz_surface.specs.{attribute_change_value, no_flags, with_line_attribute};
ghost use Rattle.termwiz_surface.specs.{OnOk, screen_lengths, with_attribute, with_background};
ghost use Rattle.termwiz_surface.specs.{change_list, clear_screen, eol_lengths, eos_lengths};
ghost use Rattle.termwiz_surface.specs.{region_down, region_fits, regions_fit, replay_kept};
ghost use Rattle.termwiz_surface.specs.{Becomes, SameFrame, clear_eol, clear_eos, lengths_of};
ghost use Rattle.termwiz_surface.specs.{kept_of, measure, region_up, screen_of, step_kept};
ghost use Rattle.termwiz_surface.specs.{cursor_row, eol_touches, every_row, no_row, touched};
ghost use Rattle.termwiz_surface.specs.{OnErr, blank, length, placed, replay, step, touches};
ghost use Rattle.termwiz_surface.specs.{scroll_touches, true};
ghost use Rattle.std.specs.Prelude.{IsTrue};
ghost use Rattle.termwiz_surface.specs.{BeginsRows, ScrollsOff, left_step, listed_value};
ghost use Rattle.termwiz_surface.specs.{rows_scrolled_off};

use super::Surface;
use super::lists::{ChangeList, ListedChange};
use crate::scrollback::LineSink;
use std::alloc::AllocError;
use termwiz_cell::cell::AttributeChange;
use termwiz_cell::change::{Change, LineAttribute, Position};
use termwiz_cell::color::ColorAttribute;
use termwiz_cell::emoji::Widths;
use termwiz_screen::pen::{background_only, blank_with};
use termwiz_screen::place::{column_at, row_at};
use termwiz_screen::rows::{
    fill_row, fill_rows, scroll_region_down, scroll_region_up, set_line_attribute,
};

impl<W: Widths> Surface<W> {
    // Clears from the cursor to the end of its row, and sets the pen to this background. The clears
    // are kept out of line, so that the path of texts is short.
    #[inline(never)]
    pub(super) fn clear_to_end_of_line(&mut self, color: &ColorAttribute) -> Result<(), AllocError>
        ensures ok { OnOk result (let s = screen_of self.old in
            Becomes self.old (clear_eol s (with_background color.now))
            (record (kept_of self.old) {
              lengths = eol_lengths s (with_background color.now) (lengths_of self.old);
            })
            (eol_touches s) self.new) }
        ensures err { OnErr result (SameFrame self.old self.new) }
    {
        let pen = background_only(self.alloc, *color)?;
        let cleared = blank_with(&pen)?;
        fill_row(&mut self.rows, self.width, self.x, self.y, &cleared)?;
        self.pen = pen;
        if self.x == self.width {
            // A wrap is pending, and the row shows what it did.
            return Ok(());
        }
        self.numbers.mark_row(self.y, self.mark);
        Ok(())
    }

    // Clears from the cursor to the end of the screen.
    #[inline(never)]
    pub(super) fn clear_to_end_of_screen(
        &mut self,
        color: &ColorAttribute,
    ) -> Result<(), AllocError>
        ensures ok { OnOk result (let s = screen_of self.old in
            Becomes self.old (clear_eos s (with_background color.now))
            (record (kept_of self.old) {
              lengths = eos_lengths s (with_background color.now) (lengths_of self.old);
            })
            (λ j. nat_le s.y j) self.new) }
        ensures err { OnErr result (SameFrame self.old self.new) }
    {
        let pen = background_only(self.alloc, *color)?;
        let cleared = blank_with(&pen)?;
        fill_rows(&mut self.rows, self.width, self.x, self.y, &cleared)?;
        self.numbers
            .mark_rows(self.y, self.height - self.y, self.mark);
        self.pen = pen;
        Ok(())
    }

    // Clears all rows, and moves the cursor to column 0 of row 0.
    #[inline(never)]
    pub(super) fn clear_screen(&mut self, color: &ColorAttribute) -> Result<(), AllocError>
        ensures ok { OnOk result (let s = screen_of self.old in
            Becomes self.old (clear_screen s (with_background color.now))
            (record (kept_of self.old) {
              lengths = screen_lengths s (with_background color.now) (lengths_of self.old);
            })
            every_row self.new) }
        ensures err { OnErr result (SameFrame self.old self.new) }
    {
        let pen = background_only(self.alloc, *color)?;
        let cleared = blank_with(&pen)?;
        fill_rows(&mut self.rows, self.width, 0, 0, &cleared)?;
        self.numbers.mark_all(self.mark);
        self.pen = pen;
        self.x = 0;
        self.y = 0;
        Ok(())
    }

    #[inline(never)]
    pub(super) fn change_pen(&mut self, change: &AttributeChange) -> Result<(), AllocError>
        ensures ok { OnOk result (Becomes self.old
            (record (screen_of self.old) {
              pen = with_attribute self.old.pen (attribute_change_value change.now);
            })
            (kept_of self.old) no_row self.new) }
        ensures err { OnErr result (self.new ≡ self.old) }
    {
        self.pen.apply_change(self.alloc, change)
    }

    pub(super) fn place_cursor(&mut self, x: Position, y: Position)
        ensures { Becomes self.old (placed (screen_of self.old) x y) (kept_of self.old) no_row
            self.new }
    {
        self.x = column_at(x, self.x, self.width);
        self.y = row_at(y, self.y, self.height);
    }

    // Scrolls rows up inside a region. The cursor doesn't move.
    pub(super) fn scroll_region_up(
        &mut self,
        first: usize,
        size: usize,
        count: usize,
    ) -> Result<(), AllocError>
        requires { first + size ≤ self.old.height }
        ensures ok { OnOk result (let s = screen_of self.old in let k = kept_of self.old in
            Becomes self.old
            (record s { rows = region_up (replicate s.width blank) s.rows first size count })
            (record k {
              lengths = region_up s.width k.lengths first size count;
              flags = region_up no_flags k.flags first size count;
            })
            (scroll_touches first size count) self.new) }
        ensures err { OnErr result (SameFrame self.old self.new) }
    {
        if count == 0 {
            return Ok(());
        }
        scroll_region_up(&mut self.rows, self.width, first, size, count)?;
        self.numbers.mark_rows(first, size, self.mark);
        Ok(())
    }

    // Scrolls rows down inside a region. The cursor doesn't move.
    pub(super) fn scroll_region_down(
        &mut self,
        first: usize,
        size: usize,
        count: usize,
    ) -> Result<(), AllocError>
        requires { first + size ≤ self.old.height }
        ensures ok { OnOk result (let s = screen_of self.old in let k = kept_of self.old in
            Becomes self.old
            (record s { rows = region_down (replicate s.width blank) s.rows first size count })
            (record k {
              lengths = region_down s.width k.lengths first size count;
              flags = region_down no_flags k.flags first size count;
            })
            (scroll_touches first size count) self.new) }
        ensures err { OnErr result (SameFrame self.old self.new) }
    {
        if count == 0 {
            return Ok(());
        }
        scroll_region_down(&mut self.rows, self.width, first, size, count)?;
        self.numbers.mark_rows(first, size, self.mark);
        Ok(())
    }

    // Sets how large the cursor's row is shown.
    pub(super) fn set_line_attribute(&mut self, attribute: LineAttribute)
        ensures { let k = kept_of self.old in
            Becomes self.old (screen_of self.old)
            (record k {
              flags = slice_set k.flags self.old.y
                  (with_line_attribute attribute (slice_index_or k.flags self.old.y no_flags));
            })
            (cursor_row (screen_of self.old)) self.new }
    {
        set_line_attribute(&mut self.rows, self.y, attribute);
        self.numbers.mark_row(self.y, self.mark);
    }

    #[inline(never)]
    pub(super) fn set_title(&mut self, title: &str) -> Result<(), AllocError>
        ensures ok { OnOk result (Becomes self.old (screen_of self.old)
            (record (kept_of self.old) { title = title.now }) no_row self.new) }
        ensures err { OnErr result (self.new ≡ self.old) }
    {
        self.title = String::from_str(self.alloc, title)?;
        Ok(())
    }

    #[inline(always)]
    fn apply<L: LineSink>(
        &mut self,
        change: ListedChange<'_>,
        lines: &mut L,
    ) -> Result<(), AllocError>
        requires { region_fits self.old.height (listed_value change) ≡ true }
        ensures ok { OnOk result (let f = measure W.width_of self.old.widths in
            let s = screen_of self.old in
            Becomes self.old (step f s (listed_value change.entry))
            (step_kept f s (kept_of self.old) (listed_value change.entry))
            (touches f s (listed_value change.entry)) self.new) }
        ensures scrolls { OnOk result (IsTrue L.KEEPS → ScrollsOff self.old.width
            (left_step (measure W.width_of self.old.widths) (screen_of self.old)
            (kept_of self.old) (listed_value change.entry))
            (L.lines_of lines.old) (L.lines_of lines.new)) }
        ensures err { OnErr result (SameFrame self.old self.new) }
        ensures kept { OnErr result (IsTrue L.KEEPS → BeginsRows self.old.width
            (left_step (measure W.width_of self.old.widths) (screen_of self.old)
            (kept_of self.old) (listed_value change.entry))
            (L.lines_of lines.old) (L.lines_of lines.new)) }
        ensures spare { L.spare_of lines.new ≤ L.spare_of lines.old }
    {
        let change = match change {
            ListedChange::Text(text) => return self.print_text(text, lines),
            ListedChange::Title(title) => return self.set_title(title),
            ListedChange::Whole(change) => change,
        };
        match change {
            Change::Attribute(change) => return self.change_pen(change),
            Change::AllAttributes(attrs) => self.pen = attrs.clone()?,
            Change::Text(text) => return self.print_text(text.as_str(), lines),
            Change::ClearScreen(color) => return self.clear_screen(color),
            Change::ClearToEndOfLine(color) => return self.clear_to_end_of_line(color),
            Change::ClearToEndOfScreen(color) => return self.clear_to_end_of_screen(color),
            Change::CursorPosition { x, y } => self.place_cursor(*x, *y),
            Change::CursorColor(color) => self.color = *color,
            Change::CursorShape(shape) => self.shape = Some(*shape),
            Change::CursorVisibility(visibility) => self.visibility = *visibility,
            Change::ScrollRegionUp {
                first_row,
                region_size,
                scroll_count,
            } => return self.scroll_up(*first_row, *region_size, *scroll_count, lines),
            Change::ScrollRegionDown {
                first_row,
                region_size,
                scroll_count,
            } => return self.scroll_region_down(*first_row, *region_size, *scroll_count),
            Change::Title(title) => return self.set_title(title.as_str()),
            Change::LineAttribute(attribute) => self.set_line_attribute(*attribute),
        }
        Ok(())
    }

    // Applies the changes of a list in order. A single one needs no loop.
    #[inline(always)]
    pub(super) fn apply_all<L: LineSink>(
        &mut self,
        list: &ChangeList<'_>,
        lines: &mut L,
    ) -> Result<(), AllocError>
        requires { regions_fit self.old.height (change_list list.now) ≡ true }
        ensures ok { OnOk result (let f = measure W.width_of self.old.widths in
            let s = screen_of self.old in
            Becomes self.old (replay f s (change_list list.now))
            (replay_kept f s (kept_of self.old) (change_list list.now))
            (touched f s (change_list list.now)) self.new) }
        ensures scrolls { OnOk result (IsTrue L.KEEPS → ScrollsOff self.old.width
            (rows_scrolled_off (measure W.width_of self.old.widths) (screen_of self.old)
            (kept_of self.old) (change_list list.now))
            (L.lines_of lines.old) (L.lines_of lines.new)) }
        ensures err { OnErr result (SameFrame self.old self.new) }
        ensures kept { OnErr result (IsTrue L.KEEPS → BeginsRows self.old.width
            (rows_scrolled_off (measure W.width_of self.old.widths) (screen_of self.old)
            (kept_of self.old) (change_list list.now))
            (L.lines_of lines.old) (L.lines_of lines.new)) }
        ensures spare { L.spare_of lines.new ≤ L.spare_of lines.old }
        ensures empty { OnErr result (0 < length (change_list list.now)) }
        ensures none { length (change_list list.now) ≡ 0 → self.new ≡ self.old }
    {
        match list {
            ChangeList::One(change) => self.apply(ListedChange::Whole(change), lines)?,
            _ => {
                for i in 0..list.len() {
                    self.apply(list.at(i), lines)?;
                }
            }
        }
        Ok(())
    }
}
