//! A viewer of your own, which mirrors a surface by repaints.
ghost use Rattle.std.specs.Prelude.{◌≡◌, IfOk, OnOk, false};
ghost use Rattle.uses.specs.{MakesOrFails, SurfaceValue, blank_surface, measure, own_repaint};
ghost use Rattle.uses.specs.{screen_of};

use std::alloc::{AllocError, Global};
use std::marker::Model;
use termwiz_surface::{Surface, SurfaceError, Widths};

/// A copy of what a surface showed when the mirror last caught up with it.
#[derive(Drop)]
pub struct Mirror<W: Widths> {
    alloc: Global,
    shown: Surface<W>,
}

impl<W: Widths> Model for Mirror<W> {
    ghost Value = { SurfaceValue W };

    ghost view = { λ v. v.shown };
}

impl<W: Widths> Mirror<W> {
    /// A blank mirror of a surface's size, which measures texts by `widths`: give it what the
    /// surface measures by.
    pub fn new(alloc: Global, surface: &Surface<W>, widths: W) -> Result<Mirror<W>, AllocError>
        ensures blank { IfOk result (λ mirror.
            mirror ≡ blank_surface widths surface.now.width surface.now.height false) }
        ensures width { IfOk result (λ mirror. mirror.width ≡ surface.now.width) }
        ensures height { IfOk result (λ mirror. mirror.height ≡ surface.now.height) }
        ensures widths { IfOk result (λ mirror. mirror.widths ≡ widths) }
    {
        let (width, height) = surface.dimensions();
        let shown = Surface::new(alloc, width, height, widths)?;
        Ok(Mirror { alloc, shown })
    }

    /// What the mirror shows.
    pub fn shown(&self) -> &Surface<W>
        ensures { result.now ≡ self.now }
    {
        &self.shown
    }

    /// Catches up with a surface of the mirror's size that measures texts alike. Whatever the
    /// mirror showed, it has the surface's rows, cursor, visibility and pen then.
    /// It makes the surface's repaint. At an error it is unchanged, or as after that error of
    /// `add_changes`, and still has its size: it can catch up later.
    pub fn catch_up(&mut self, surface: &Surface<W>) -> Result<(), SurfaceError>
        requires same_width { self.old.width ≡ surface.now.width }
        requires same_height { self.old.height ≡ surface.now.height }
        requires same_widths { self.old.widths ≡ surface.now.widths }
        ensures ok { OnOk result (screen_of self.new ≡ screen_of surface.now) }
        ensures adds { MakesOrFails (measure W.width_of self.old.widths)
            self.old (own_repaint surface.now) result self.new }
        ensures width { self.new.width ≡ self.old.width }
        ensures height { self.new.height ≡ self.old.height }
        ensures widths { self.new.widths ≡ self.old.widths }
    {
        // The surface's theorem speaks of any screen of its size, and so of the mirror's.
        let _size = self.shown.dimensions();
        let (_, changes) = surface.get_changes(0)?;
        self.shown.add_changes(changes.into_owned(self.alloc)?)?;
        Ok(())
    }
}
