//! Surfaces.
ghost use Rattle.std.specs.Prelude.{◌≡◌, IfOk};
ghost use Rattle.termwiz_surface.specs.{IsSurfaceSize, blank_surface, blank_surface_from, false};
ghost use Rattle.termwiz_surface.specs.{true};
ghost use Rattle.termwiz_surface.specs.declared.surface.NewSurfaceError.TheVariants as errors;

mod adding;
mod answer;
mod answers;
mod copies;
mod diff;
mod full;
mod lines;
mod lists;
mod measuring;
mod numbers;
mod print;
mod readings;
mod resizing;
mod scrolled_off;
mod sized;
mod steps;

pub use answer::Answer;
pub use lists::{ChangeList, LentChange, LentChanges};
use numbers::RowNumbers;
use std::alloc::{AllocError, Global};
use std::collections::VecDeque;
use std::marker::Model;
use termwiz_cell::cell::CellAttributes;
pub use termwiz_cell::change::{CursorShape, CursorVisibility, Position, SEQ_ZERO, SequenceNo};
use termwiz_cell::color::ColorAttribute;
use termwiz_cell::emoji::Widths;
use termwiz_line::line::line::Line;
pub use termwiz_screen::full::FullScreen;
use termwiz_screen::log::Log;
use termwiz_screen::rows::blank_rows;
pub use termwiz_screen::screen::Screen;
use thiserror::Error;

/// Why a list of changes, or a resize, is refused. The first applicable error is returned, in this
/// order.
#[derive(Debug, Drop, Clone, Copy, PartialEq, Eq, Error)]
pub enum SurfaceError {
    /// Error 1: the region of a scroll goes past the last row. The surface is unchanged.
    #[error("a scroll region goes past the last row")]
    ScrollRegion,
    /// Error 2: the numbers of the changes would pass the greatest `usize`. The surface is
    /// unchanged. After `Viewer::follow` the viewer may show anything, and has no number.
    #[error("the numbers of changes are used up")]
    Numbers,
    /// Error 3: memory was refused. After `Viewer::follow` the viewer may show anything, and has no
    /// number.
    ///
    /// - After a list of changes, that of a draw or a copy too, the surface is valid and has its
    ///   old size, its log is empty, and its number is greater by one, or still 0.
    /// - Where memory was refused for the list of a draw or a copy, or for a resize, the surface is
    ///   unchanged.
    #[error("out of memory")]
    Memory,
}

impl From<AllocError> for SurfaceError {
    ghost use Rattle.termwiz_surface.specs.declared.surface.SurfaceError.TheVariants.{Memory};

    ghost from_gives = { λ _ error. error ≡ Memory };

    fn from(_error: AllocError) -> SurfaceError {
        SurfaceError::Memory
    }
}

/// Why no surface was created.
#[derive(Debug, Drop, Clone, Copy, PartialEq, Eq, Error)]
pub enum NewSurfaceError {
    /// The size is out of range: columns and rows are 1 to 2^32 - 1 each.
    #[error("no surface has {width} columns and {height} rows")]
    Size { width: usize, height: usize },
    /// Memory was refused.
    #[error("out of memory")]
    Memory,
}

impl From<AllocError> for NewSurfaceError {
    ghost from_gives = { λ _ error. error ≡ errors.Memory };

    fn from(_error: AllocError) -> NewSurfaceError {
        NewSurfaceError::Memory
    }
}

/// The contents of a terminal's screen, without a terminal: rows of cells, a cursor, its
/// visibility, and the pen, which is the attributes of the next text.
///
/// `add_change` adds one change, and `add_changes` a list of them: texts, pens, clears, moves and
/// scrolls. The surface applies them in order, and logs them by their numbers. `add` also takes
/// lists that are borrowed or aren't logged, and keeps the lines that scroll off. A surface keeps a
/// title too, the cursor's shape and colour, and how large each line is shown.
///
/// `get_changes` returns what a viewer lacks: the changes since the number that it was last given,
/// or, where the log no longer has them or they are too many, a repaint, which leads from any
/// screen of this size to this one. `answer` returns the same as a value that can be stored or
/// sent.
///
/// `flush_changes_older_than` forgets the changes that all viewers have, and `forget_unneeded`
/// those that no answer needs: without them the log grows with each change. `screen` copies what
/// the surface shows, and `full_screen` also the title, the cursor's shape and colour, and how
/// large each line is shown.
///
/// `new_full` returns a full surface: its repaints also set all of these, so that its viewers have
/// them whatever they missed. Those of other surfaces set only the screen, the title unless it is
/// empty, and the shape of a visible cursor, if one was set.
///
/// A viewer applies these changes: to a terminal, at the other end of a connection, or to a second
/// surface. It must measure texts as this surface does, by the same width value.
///
/// A program may draw the parts of a screen on separate surfaces and compose them:
/// `draw_from_screen` draws one surface on another, and `copy_region` copies a region within one.
#[derive(Drop, Debug)]
pub struct Surface<W: Widths> {
    widths: W,
    alloc: Global,
    width: usize,
    height: usize,
    rows: VecDeque<Line>,
    x: usize,
    y: usize,
    visibility: CursorVisibility,
    pen: CellAttributes,
    title: String,
    shape: Option<CursorShape>,
    color: ColorAttribute,
    full: bool,
    log: Log,
    numbers: RowNumbers,
    mark: SequenceNo,
}

impl<W: Widths> Model for Surface<W> {
    ghost use Rattle.std.specs.Prelude.{◌≡◌, string_bytes, vec_len};
    ghost use Rattle.termwiz_screen.specs.{AreVectors, cells_of, measure, row_flags};
    ghost use Rattle.termwiz_surface.specs.Surface.{IsSound, SurfaceValue, numbers_over};

    ghost Value = { SurfaceValue W };

    ghost view = { λ s. record {
      widths = s.widths;
      width = s.width;
      height = s.height;
      lines = cells_of s.rows.items;
      flags = row_flags s.rows.items;
      x = s.x;
      y = s.y;
      visibility = s.visibility;
      pen = s.pen;
      title = string_bytes s.title;
      shape = s.shape;
      color = s.color;
      full = s.full;
      log = s.log;
      numbers = numbers_over s.numbers.all s.numbers.own.items;
      mark = s.mark;
    } };

    ghost invariant = { λ s.
        IsSound (measure W.width_of s.widths) (view s) × AreVectors s.rows.items
        × (vec_len s.numbers.own ≡ s.height) };
}

/// A copy equals its original in all that can be read: the size, the kind (full or not), the
/// screen, each row's line attribute and stored length, the title, the cursor's shape and colour,
/// the log and the number. A viewer of one can follow the other until one of them changes.
impl<W: Widths> Clone for Surface<W> {
    ghost is_clone = { λ a b. b ≡ a };

    fn clone(&self) -> Result<Surface<W>, AllocError> {
        let rows = self.rows.clone()?;
        let pen = self.pen.clone()?;
        let title = self.title.clone()?;
        let log = self.log.clone()?;
        let numbers = self.numbers.clone()?;
        Ok(Surface {
            widths: self.widths,
            alloc: self.alloc,
            width: self.width,
            height: self.height,
            rows,
            x: self.x,
            y: self.y,
            visibility: self.visibility,
            pen,
            title,
            shape: self.shape,
            color: self.color,
            full: self.full,
            log,
            numbers,
            mark: self.mark,
        })
    }
}

impl<W: Widths> Surface<W> {
    /// A surface of this width in columns and this height in rows: it has default blanks, a visible
    /// cursor at column 0 of row 0, a pen of default attributes, and the number 0.
    pub fn new(
        alloc: Global,
        width: usize,
        height: usize,
        widths: W,
    ) -> Result<Surface<W>, AllocError>
        requires size { IsSurfaceSize width height }
        ensures { IfOk result (λ s. s ≡ blank_surface widths width height false) }
    {
        Surface::blank(alloc, width, height, widths, false, SEQ_ZERO)
    }

    /// A surface as `new` returns it, but a full one: its repaints also set the title, the cursor's
    /// shape and colour, and how large each row is shown.
    pub fn new_full(
        alloc: Global,
        width: usize,
        height: usize,
        widths: W,
    ) -> Result<Surface<W>, AllocError>
        requires size { IsSurfaceSize width height }
        ensures { IfOk result (λ s. s ≡ blank_surface widths width height true) }
    {
        Surface::blank(alloc, width, height, widths, true, SEQ_ZERO)
    }

    /// A surface as `new_full` returns it, but with the number `seq`, which its rows have too. It
    /// can take the place of another surface: with a number above that of the other one, each row
    /// has changed since.
    pub fn new_full_from(
        alloc: Global,
        width: usize,
        height: usize,
        widths: W,
        seq: SequenceNo,
    ) -> Result<Surface<W>, AllocError>
        requires size { IsSurfaceSize width height }
        ensures { IfOk result (λ s. s ≡ blank_surface_from widths width height true seq) }
    {
        Surface::blank(alloc, width, height, widths, true, seq)
    }

    /// A blank surface with this number, full or not.
    pub(crate) fn blank(
        alloc: Global,
        width: usize,
        height: usize,
        widths: W,
        full: bool,
        seq: SequenceNo,
    ) -> Result<Surface<W>, AllocError>
        requires size { IsSurfaceSize width height }
        ensures { IfOk result (λ s. s ≡ blank_surface_from widths width height full seq) }
    {
        let rows = blank_rows(alloc, width, height)?;
        let numbers = RowNumbers::new(alloc, height, seq)?;
        let mut log = Log::new(alloc);
        log.pass(seq);
        Ok(Surface {
            widths,
            alloc,
            width,
            height,
            rows,
            x: 0,
            y: 0,
            visibility: CursorVisibility::Visible,
            pen: CellAttributes::blank(),
            title: String::new(alloc),
            shape: None,
            color: ColorAttribute::Default,
            full,
            log,
            numbers,
            mark: seq,
        })
    }
}
