//! Viewers that know whom they follow.
ghost use Rattle.std.specs.Prelude.{◌≡◌, IfOk, OnErr, OnOk};
ghost use Rattle.tikeburo_c.specs.Following.{FollowsOne, HasTurned, HasViewer, StepsTo};
ghost use Rattle.tikeburo_c.specs.Following.{turned_to};
ghost use Rattle.tikeburo_c.specs.Kept.{number_reached};
ghost use Rattle.tikeburo_c.specs.Results.{OrNoMemory};
ghost use Rattle.tikeburo_c.specs.declared.kept.Kept.TheVariants as kinds;

use crate::failure::Failure;
use crate::widths::ChosenWidths;
use std::alloc::{AllocError, Global};
use termwiz_surface::laws::row_number_laws;
use termwiz_surface::{Surface, SurfaceError, Viewer};

/// A viewer, and the number of the surface that it follows, or 0. Nobody follows the viewer by what
/// it logs.
#[derive(Drop)]
pub struct Follower {
    viewer: Viewer<ChosenWidths<'static>>,
    source: usize,
}

impl Follower {
    /// A blank viewer for the surface of this number.
    pub(crate) fn new(
        alloc: Global,
        surface: &Surface<ChosenWidths<'static>>,
        source: usize,
    ) -> Result<Follower, AllocError>
        ensures { IfOk result (HasViewer source surface.now) }
    {
        let viewer = Viewer::new(alloc, surface)?;
        Ok(Follower { viewer, source })
    }

    /// What the viewer shows.
    pub(crate) fn surface(&self) -> &Surface<ChosenWidths<'static>>
        ensures { result.now ≡ self.now.viewer.surface }
    {
        self.viewer.surface()
    }

    /// The number of the surface that it follows, or 0.
    pub(crate) fn source(&self) -> usize
        ensures { result ≡ self.now.source }
    {
        self.source
    }

    /// The number of that surface when the viewer followed it last, or 0.
    pub(crate) fn reached(&self) -> usize
        ensures { result ≡ number_reached (kinds.Viewer self.now) }
    {
        if self.source == 0 {
            0
        } else {
            self.viewer.last()
        }
    }

    /// Shows what the surface of this number shows: what changed since, where it followed that one,
    /// and else all.
    pub(crate) fn follow(
        &mut self,
        alloc: Global,
        surface: &Surface<ChosenWidths<'static>>,
        source: usize,
    ) -> Result<(), Failure>
        ensures { OrNoMemory (FollowsOne source surface.now) self.old result self.new }
    {
        self.turn_to(alloc, surface, source)?;
        self.step(surface)?;
        Ok(())
    }

    // Begins from blank, unless it follows the surface of this number. The numbers of what it shows
    // go on, so that each row has changed.
    fn turn_to(
        &mut self,
        alloc: Global,
        surface: &Surface<ChosenWidths<'static>>,
        source: usize,
    ) -> Result<(), AllocError>
        ensures turned { OnOk result (HasTurned source surface.now self.old self.new) }
        ensures same { OnErr result (self.new ≡ self.old) }
    {
        if source == 0 || source != self.source {
            let number = self.viewer.surface().current_seqno().saturating_add(1);
            let viewer = Viewer::new_from(alloc, surface, number)?;
            *self = Follower { viewer, source };
        }
        Ok(())
    }

    // Shows what the surface shows, and forgets what it made.
    fn step(&mut self, surface: &Surface<ChosenWidths<'static>>) -> Result<usize, SurfaceError>
        ensures { StepsTo surface.now self.old result self.new }
    {
        let number = self.viewer.follow(surface);
        let made = self.viewer.surface().current_seqno();
        self.viewer.flush_changes_older_than(made);
        // Both calls keep what the numbers of rows say.
        row_number_laws::<ChosenWidths>();
        number
    }
}
