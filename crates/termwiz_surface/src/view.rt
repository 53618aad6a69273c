//! Runs of events on a surface.
ghost use Rattle.termwiz_surface.specs.{IsFullSchedule, IsSchedule, IsScheduleOf, IsSurfaceSize};
ghost use Rattle.termwiz_surface.specs.{All, Follows, IfOk, IsInRange, measure};
ghost use Rattle.termwiz_surface.specs.Schedule.{Runs};

mod many;
mod serving;
mod viewer;
mod waiting;

use crate::surface::{FullScreen, Screen, Surface, SurfaceError};
pub use many::{ManyEvent, ManyOutcome, run_many};
pub use serving::copied;
use serving::serve;
use std::alloc::{AllocError, Global};
use termwiz_cell::change::{Change, SEQ_ZERO, SequenceNo};
use termwiz_cell::emoji::Widths;
pub use viewer::{AcceptError, Viewer};
use waiting::Waiting;

/// What happens to a surface.
#[derive(Drop, Debug)]
pub enum Event<W: Widths> {
    /// Adds the changes, as one list.
    Changes(Vec<Change>),
    /// Draws this surface from this column and row on, as `draw_from_screen` does.
    Draw(Surface<W>, usize, usize),
    /// Copies a region, as `copy_region` does: its column, row, width and height, and the column
    /// and the row of the copy.
    Copy(usize, usize, usize, usize, usize, usize),
    /// Forgets the changes before this number, as `flush_changes_older_than` does.
    Flush(SequenceNo),
    /// Resizes the surface to this width in columns and this height in rows.
    Resize(usize, usize),
    /// Calls `follow` on the viewer.
    Follow,
    /// Asks for the texts and the cursor.
    Show,
    /// Asks for the changes from this number on.
    Ask(SequenceNo),
}

/// The outcome of an event.
#[derive(Drop, Debug)]
pub enum Outcome {
    /// The number that adding a list of changes returned, that of a draw or a copy too.
    Answered(SequenceNo),
    /// The log was flushed, or the surface resized.
    Done,
    /// The event was refused.
    Refused(SurfaceError),
    /// The surface's number, the changes that the viewer applied, and its screen then.
    Followed(SequenceNo, Vec<Change>, Screen),
    /// The number of a full surface, the changes that the viewer applied, and its full screen then.
    FollowedFull(SequenceNo, Vec<Change>, FullScreen),
    /// The texts of the stored rows, each with a line feed, and the cursor's column and row.
    Shown(String, (usize, usize)),
    /// The surface's number, and the changes that a viewer that was last given the requested number
    /// has to apply.
    Asked(SequenceNo, Vec<Change>),
}

/// Runs the events on one blank surface, of this width in columns and this height in rows, and its
/// viewer, and returns one outcome for each.
///
/// - A refused event is an outcome, and the run continues.
/// - It fails where memory is refused for the surface, the viewer, the list of outcomes, or the
///   outcome of a viewer that followed.
pub fn run<W: Widths>(
    alloc: Global,
    widths: W,
    width: usize,
    height: usize,
    events: Vec<Event<W>>,
) -> Result<Vec<Outcome>, AllocError>
    requires size { IsSurfaceSize width height }
    requires sizes { All IsInRange events.items }
    ensures { IfOk result (λ outcomes. IsSchedule (measure W.width_of)
        widths width height events.items outcomes.items) }
{
    run_on(alloc, widths, width, height, false, events)
}

/// Runs the events as `run` does, on a full surface. The outcome of a viewer that followed has its
/// full screen.
pub fn run_full<W: Widths>(
    alloc: Global,
    widths: W,
    width: usize,
    height: usize,
    events: Vec<Event<W>>,
) -> Result<Vec<Outcome>, AllocError>
    requires size { IsSurfaceSize width height }
    requires sizes { All IsInRange events.items }
    ensures { IfOk result (λ outcomes. IsFullSchedule (measure W.width_of)
        widths width height events.items outcomes.items) }
{
    run_on(alloc, widths, width, height, true, events)
}

// Runs the events on a full surface, or on another one.
fn run_on<W: Widths>(
    alloc: Global,
    widths: W,
    width: usize,
    height: usize,
    full: bool,
    events: Vec<Event<W>>,
) -> Result<Vec<Outcome>, AllocError>
    requires size { IsSurfaceSize width height }
    requires sizes { All IsInRange events.items }
    ensures { IfOk result (λ outcomes. IsScheduleOf full (measure W.width_of)
        widths width height events.items outcomes.items) }
{
    let mut surface = Surface::blank(alloc, width, height, widths, full, SEQ_ZERO)?;
    let mut viewer = Viewer::new(alloc, &surface)?;
    serve_all(alloc, &mut surface, &mut viewer, events)
}

// Runs the events on a surface and its viewer, and returns one outcome for each.
fn serve_all<W: Widths>(
    alloc: Global,
    surface: &mut Surface<W>,
    viewer: &mut Viewer<W>,
    events: Vec<Event<W>>,
) -> Result<Vec<Outcome>, AllocError>
    requires follows { Follows (measure W.width_of) viewer.old surface.old }
    requires sizes { All IsInRange events.items }
    ensures { IfOk result (λ outcomes. Runs (measure W.width_of) surface.old viewer.old
        events.items outcomes.items surface.new viewer.new) }
{
    let mut outcomes = Vec::new(alloc);
    let mut waiting = Waiting::new(events);
    while let Some(event) = waiting.next() {
        outcomes.push(serve(alloc, surface, viewer, event)?)?;
    }
    Ok(outcomes)
}
