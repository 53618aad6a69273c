//! Resizing surfaces.
ghost use Rattle.std.specs.Prelude.{◌≡◌, ◌+◌, ◌<◌, ◌≤◌, ◌^◌, OnErr, OnOk, nat_le, ℕ};
ghost use Rattle.termwiz_surface.specs.{HasResized, IsSurfaceSize, Preserves};
ghost use Rattle.termwiz_surface.specs.{Resizes, measure, next_number};
ghost use Rattle.termwiz_surface.specs.{resize_touches};

use super::{Surface, SurfaceError};
use std::alloc::AllocError;
use termwiz_cell::emoji::Widths;
use termwiz_screen::rows::resize_rows;

impl<W: Widths> Surface<W> {
    /// Resizes the surface to a width in columns and a height in rows.
    ///
    /// - Each row is cut, or padded with default blanks. At the bottom rows are removed, or default
    ///   ones added.
    /// - A cursor past the last column or row, as where a wrap is pending, moves to the last one.
    /// - The log is emptied, and the number grows by one, unless it is 0, so every viewer gets a
    ///   repaint. Where the width changes every row gets the number, and else the rows that are
    ///   added.
    /// - `Numbers`: the number is the greatest `usize`. `Memory`: memory was refused. Both leave
    ///   the surface unchanged.
    pub fn resize(&mut self, width: usize, height: usize) -> Result<(), SurfaceError>
        requires size { IsSurfaceSize width height }
        ensures resizes { Resizes self.old width height result self.new }
        // Viewers, numbers and rows hold, even after an error.
        ensures preserves { Preserves (measure W.width_of) self.old self.new }
    {
        if !self.log.has_numbers(1) {
            return Err(SurfaceError::Numbers);
        }
        self.change_size(width, height)?;
        Ok(())
    }

    fn change_size(&mut self, width: usize, height: usize) -> Result<(), AllocError>
        requires size { IsSurfaceSize width height }
        requires number { next_number self.old.log + 1 < 2 ^ 64 }
        ensures ok { OnOk result (HasResized self.old width height self.new) }
        ensures err { OnErr result (self.new ≡ self.old) }
    {
        let first = self.first_touched(width, height);
        self.numbers.reserve(height)?;
        resize_rows(self.alloc, &mut self.rows, width, height)?;
        self.width = width;
        self.height = height;
        self.x = self.x.min(width - 1);
        self.y = self.y.min(height - 1);
        self.log.restart();
        self.mark = self.log.next_number();
        self.numbers.renew(height, first, self.mark);
        Ok(())
    }

    // The first row that a resize touches: it touches each one from there on.
    fn first_touched(&self, width: usize, height: usize) -> usize
        ensures inside { result ≤ height }
        ensures kept { result ≤ self.now.height }
        ensures touched { (j : ℕ) → j < height →
            resize_touches self.now width j ≡ nat_le result j }
    {
        if width == self.width {
            self.height.min(height)
        } else {
            0
        }
    }
}
