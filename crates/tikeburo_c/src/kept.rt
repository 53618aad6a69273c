//! What a handle may have.
ghost use Rattle.std.specs.Prelude.{◌≡◌, IfErr, IfOk, None, Some};
ghost use Rattle.tikeburo_c.specs.Kept.{lines_of, number_of, number_reached, shown_of};
ghost use Rattle.tikeburo_c.specs.Kept.{source_shown};
ghost use Rattle.tikeburo_c.specs.declared.failure.Failure.TheVariants.{WrongKind};

use crate::failure::Failure;
use crate::followers::Follower;
use crate::line_list::LineList;
use crate::widths::ChosenWidths;
use termwiz_share::{Client, Source};
use termwiz_surface::Surface;

/// A value that a handle may have.
#[derive(Drop)]
pub enum Kept {
    Surface(Source<ChosenWidths<'static>>),
    Viewer(Follower),
    Client(Client<ChosenWidths<'static>>),
    Lines(LineList),
}

impl Kept {
    /// The surface, or the one that the viewer or the client shows. Lines show none.
    pub(crate) fn shown(&self) -> Result<&Surface<ChosenWidths<'static>>, Failure>
        ensures found { IfOk result (λ surface. shown_of self.now ≡ Some surface.now) }
        ensures missing { IfErr result (λ failure.
            (failure ≡ WrongKind) × (shown_of self.now ≡ None)) }
    {
        match self {
            Kept::Surface(source) => Ok(source.surface()),
            Kept::Viewer(follower) => Ok(follower.surface()),
            Kept::Client(client) => Ok(client.surface()),
            Kept::Lines(_) => Err(Failure::WrongKind),
        }
    }

    /// The lines. Surfaces, viewers and clients have none.
    pub(crate) fn lines(&self) -> Result<&LineList, Failure>
        ensures found { IfOk result (λ list. lines_of self.now ≡ Some list.now) }
        ensures missing { IfErr result (λ failure.
            (failure ≡ WrongKind) × (lines_of self.now ≡ None)) }
    {
        match self {
            Kept::Lines(list) => Ok(list),
            Kept::Surface(_) | Kept::Viewer(_) | Kept::Client(_) => Err(Failure::WrongKind),
        }
    }

    /// The surface's number as a source, or 0 of anything else.
    pub(crate) fn number(&self) -> usize
        ensures { result ≡ number_of self.now }
    {
        match self {
            Kept::Surface(source) => source.number(),
            Kept::Viewer(_) | Kept::Client(_) | Kept::Lines(_) => 0,
        }
    }

    /// The number of the surface that it shows, which may be itself, or 0 where it shows none.
    pub(crate) fn source(&self) -> usize
        ensures { result ≡ source_shown self.now }
    {
        match self {
            Kept::Surface(source) => source.number(),
            Kept::Viewer(follower) => follower.source(),
            Kept::Client(client) => client.source(),
            Kept::Lines(_) => 0,
        }
    }

    /// The number of that surface's coming change when it showed this, or 0.
    pub(crate) fn reached(&self) -> usize
        ensures { result ≡ number_reached self.now }
    {
        match self {
            Kept::Surface(source) => source.surface().current_seqno(),
            Kept::Viewer(follower) => follower.reached(),
            Kept::Client(client) => client.number(),
            Kept::Lines(_) => 0,
        }
    }
}
