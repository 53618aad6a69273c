//! Full screens of surfaces.
ghost use Rattle.std.specs.Prelude.{◌≡◌, IfOk};
ghost use Rattle.termwiz_surface.specs.{All, full_of, full_value, no_flags};

use super::Surface;
use std::alloc::AllocError;
use termwiz_cell::emoji::Widths;
use termwiz_screen::full::{FullScreen, attributes_of, shape_or_default};

impl<W: Widths> Surface<W> {
    /// A copy of the screen, as `screen` returns it, with the title, the cursor's shape and colour,
    /// and how large each line is shown. Its rows have the number 0 and no flags.
    pub fn full_screen(&self) -> Result<FullScreen, AllocError>
        ensures shown { IfOk result (λ copy. full_value copy ≡ full_of self.now) }
        ensures numbers { IfOk result (λ copy.
            All (λ line. line.seqno ≡ 0) copy.screen.rows.items) }
        ensures flags { IfOk result (λ copy.
            All (λ line. line.flags ≡ no_flags) copy.screen.rows.items) }
    {
        let screen = self.screen()?;
        let title = self.title.clone()?;
        let lines = attributes_of(self.alloc, &self.rows)?;
        Ok(FullScreen {
            screen,
            title,
            shape: shape_or_default(self.shape),
            color: self.color,
            lines,
        })
    }
}
