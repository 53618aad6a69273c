//! Reading what a surface shows and keeps.
ghost use Rattle.std.specs.Prelude.{◌≡◌, ◌-◌, ◌<◌, ◌^◌, IfOk, string_bytes};
ghost use Rattle.termwiz_surface.specs.{All, HasFullSize, HasSize, IsPrintable, IsSound};
ghost use Rattle.termwiz_surface.specs.{full_of, lengths_of, measure, next_number, no_flags};
ghost use Rattle.termwiz_surface.specs.{screen_of, screen_value, shown_chars};

use super::Surface;
use std::alloc::AllocError;
use termwiz_cell::cell::CellAttributes;
use termwiz_cell::change::{CursorShape, CursorVisibility, SequenceNo};
use termwiz_cell::color::ColorAttribute;
use termwiz_cell::emoji::Widths;
use termwiz_screen::rows::{chars_of, resized_lines};
use termwiz_screen::screen::Screen;

impl<W: Widths> Surface<W> {
    /// The width in columns and the height in rows.
    pub fn dimensions(&self) -> (usize, usize)
        ensures width { result.0 ≡ self.now.width }
        ensures height { result.1 ≡ self.now.height }
        // Every surface is valid.
        ensures sound { IsSound (measure W.width_of self.now.widths) self.now }
        // Its screen has its size, so repaints can be replayed on it.
        ensures sized { HasSize self.now.width self.now.height (screen_of self.now) }
        // Its full screen has its size too.
        ensures fully_sized { HasFullSize self.now.width self.now.height (full_of self.now) }
        // Each row of the screen has a half after each wide cell, and each visible cell is one
        // grapheme with its measured width.
        ensures printable { IsPrintable (measure W.width_of self.now.widths) (screen_of self.now) }
    {
        (self.width, self.height)
    }

    /// The width value, by which texts are measured.
    pub fn widths(&self) -> W
        ensures { result ≡ self.now.widths }
    {
        self.widths
    }

    /// Whether this is a full surface: whether its repaints also set the title, the cursor's shape
    /// and colour, and how large each row is shown.
    pub fn is_full(&self) -> bool
        ensures { result ≡ self.now.full }
    {
        self.full
    }

    /// The cursor's column and row, from 0. Where a wrap is pending, the column equals the width.
    pub fn cursor_position(&self) -> (usize, usize)
        ensures column { result.0 ≡ self.now.x }
        ensures row { result.1 ≡ self.now.y }
    {
        (self.x, self.y)
    }

    /// Whether the cursor is shown.
    pub fn cursor_visibility(&self) -> CursorVisibility
        ensures { result ≡ self.now.visibility }
    {
        self.visibility
    }

    /// The title, which is empty at first.
    pub fn title(&self) -> &str
        ensures { result.now ≡ self.now.title }
    {
        self.title.as_str()
    }

    /// The cursor's shape, if one was set.
    pub fn cursor_shape(&self) -> Option<CursorShape>
        ensures { result ≡ self.now.shape }
    {
        self.shape
    }

    /// The cursor's colour, which is the default one at first.
    pub fn cursor_color(&self) -> ColorAttribute
        ensures { result ≡ self.now.color }
    {
        self.color
    }

    /// The pen: the attributes of the next text, which are the default ones at first.
    pub fn pen(&self) -> &CellAttributes
        ensures { result.now ≡ self.now.pen }
    {
        &self.pen
    }

    /// The number of the next change, which is the number of a viewer that has all changes.
    pub fn current_seqno(&self) -> SequenceNo
        ensures value { result ≡ next_number self.now.log }
        ensures fits { result < 2 ^ 64 }
    {
        self.log.next_number()
    }

    /// The texts of each row's visible cells within its stored length, with a newline after each
    /// row.
    pub fn screen_chars_to_string(&self) -> Result<String, AllocError>
        ensures { IfOk result (λ text.
            string_bytes text ≡ shown_chars (screen_of self.now).rows (lengths_of self.now)) }
    {
        chars_of(self.alloc, &self.rows)
    }

    /// A copy of what the surface shows. Each row is cut or padded with default blanks to the
    /// width, and has the number 0 and no flags.
    pub fn screen(&self) -> Result<Screen, AllocError>
        ensures shown { IfOk result (λ screen. screen_value screen ≡ screen_of self.now) }
        ensures numbers { IfOk result (λ screen. All (λ line. line.seqno ≡ 0) screen.rows.items) }
        ensures flags { IfOk result (λ screen.
            All (λ line. line.flags ≡ no_flags) screen.rows.items) }
    {
        let rows = resized_lines(self.alloc, &self.rows, self.width)?;
        let pen = self.pen.clone()?;
        Ok(Screen {
            width: self.width,
            height: self.height,
            rows,
            cursor: (self.x, self.y),
            visibility: self.visibility,
            pen,
        })
    }
}
