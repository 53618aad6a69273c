//! Runs of events on one surface and several viewers.
ghost use Rattle.std.specs.Prelude.{◌≡◌, IfOk, List, [], replicate};
ghost use Rattle.termwiz_surface.specs.{All, AnswersTo, DeliversTo, Held, IsManyInRange};
ghost use Rattle.termwiz_surface.specs.{IsManySchedule, IsSurfaceSize, Remembers, ResizesAs};
ghost use Rattle.termwiz_surface.specs.{IsGivenBy, ServesEvent, blank_viewer, knows, measure};
ghost use Rattle.termwiz_surface.specs.{false, own_repaint, screens};
ghost use Rattle.termwiz_surface.specs.ManySchedule.{ManyState, RunsMany};
ghost use Rattle.termwiz_surface.specs.ManySteps.{many_state};

use super::serving::act;
use super::waiting::Waiting;
use super::{AcceptError, Event, Outcome, Viewer};
use crate::surface::{Answer, Screen, Surface, SurfaceError};
use std::alloc::{AllocError, Global};
use termwiz_cell::change::SequenceNo;
use termwiz_cell::emoji::Widths;

/// What happens to a surface with several viewers. Viewers and answers are numbered from 0.
#[derive(Drop, Debug)]
pub enum ManyEvent<W: Widths> {
    /// An event on the surface, other than `Follow`.
    On(Event<W>),
    /// The surface returns an answer for this viewer's number, which is stored.
    AnswerFor(usize),
    /// Gives this viewer the answer of this number.
    Deliver(usize, usize),
    /// Resizes this viewer to this width in columns and this height in rows.
    ResizeViewer(usize, usize, usize),
}

/// The outcome of such an event.
#[derive(Drop, Debug)]
pub enum ManyOutcome {
    /// The outcome of an event on the surface.
    Of(Outcome),
    /// The answer is stored with this number.
    Kept(usize),
    /// The viewer accepted the answer: its number now, and its screen.
    Accepted(SequenceNo, Screen),
    /// The viewer didn't accept it.
    NotAccepted(AcceptError),
    /// The viewer was resized.
    Done,
    /// The answer, or the resize of the viewer, was refused.
    Refused(SurfaceError),
    /// There is no such viewer, or no such answer, or the event was `On(Event::Follow)`.
    NoSuch,
}

/// Runs the events on one blank surface, of this width in columns and this height in rows, and this
/// many blank viewers of it, and returns one outcome for each.
///
/// - A refused event is an outcome, and the run continues.
/// - It fails where memory is refused for the surface, a viewer, the lists of answers and outcomes,
///   or the outcome of a viewer that accepted.
pub fn run_many<W: Widths>(
    alloc: Global,
    widths: W,
    width: usize,
    height: usize,
    viewers: usize,
    events: Vec<ManyEvent<W>>,
) -> Result<Vec<ManyOutcome>, AllocError>
    requires size { IsSurfaceSize width height }
    requires sizes { All IsManyInRange events.items }
    ensures { IfOk result (λ outcomes. IsManySchedule (measure W.width_of)
        widths width height viewers events.items outcomes.items) }
{
    let mut surface = Surface::new(alloc, width, height, widths)?;
    let mut seats = blank_viewers(alloc, &surface, viewers)?;
    serve_all(alloc, &mut surface, &mut seats, events)
}

// Runs the events on a surface and its viewers, and returns one outcome for each.
fn serve_all<W: Widths>(
    alloc: Global,
    surface: &mut Surface<W>,
    viewers: &mut Vec<Viewer<W>>,
    events: Vec<ManyEvent<W>>,
) -> Result<Vec<ManyOutcome>, AllocError>
    requires remembers { Remembers (measure W.width_of) surface.old viewers.old.items [] [] }
    requires sizes { All IsManyInRange events.items }
    ensures { IfOk result (λ outcomes. (end : ManyState W) × RunsMany (measure W.width_of)
        (many_state surface.old viewers.old.items []) events.items outcomes.items end) }
{
    let mut answers = Vec::new(alloc);
    let mut outcomes = Vec::new(alloc);
    let mut waiting = Waiting::new(events);
    while let Some(event) = waiting.next() {
        outcomes.push(serve(alloc, surface, viewers, &mut answers, event)?)?;
    }
    Ok(outcomes)
}

// This many blank viewers of a surface.
fn blank_viewers<W: Widths>(
    alloc: Global,
    surface: &Surface<W>,
    count: usize,
) -> Result<Vec<Viewer<W>>, AllocError>
    ensures { IfOk result (λ viewers. viewers.items ≡ replicate count (blank_viewer surface.now)) }
{
    let mut viewers = Vec::new(alloc);
    for _ in 0..count {
        viewers.push(Viewer::new(alloc, surface)?)?;
    }
    Ok(viewers)
}

// Runs one event.
fn serve<W: Widths>(
    alloc: Global,
    surface: &mut Surface<W>,
    viewers: &mut Vec<Viewer<W>>,
    answers: &mut Vec<Answer<'static>>,
    event: ManyEvent<W>,
) -> Result<ManyOutcome, AllocError>
    requires { IsManyInRange event }
    ensures { IfOk result (λ outcome. (held : List Held) →
        Remembers (measure W.width_of) surface.old viewers.old.items answers.old.items held →
        ServesEvent (measure W.width_of) surface.old viewers.old.items held event outcome
        surface.new viewers.new.items answers.new.items) }
{
    match event {
        ManyEvent::On(event) => match act(alloc, surface, event) {
            Some(outcome) => Ok(ManyOutcome::Of(outcome)),
            None => Ok(ManyOutcome::NoSuch),
        },
        ManyEvent::AnswerFor(v) => {
            if v >= viewers.len() {
                return Ok(ManyOutcome::NoSuch);
            }
            answer(alloc, surface, viewers[v].last(), answers)
        }
        ManyEvent::Deliver(v, k) => {
            if v >= viewers.len() || k >= answers.len() {
                return Ok(ManyOutcome::NoSuch);
            }
            deliver(&mut viewers[v], &answers[k])
        }
        ManyEvent::ResizeViewer(v, width, height) => {
            if v >= viewers.len() {
                return Ok(ManyOutcome::NoSuch);
            }
            Ok(resize(&mut viewers[v], width, height))
        }
    }
}

// Stores the surface's answer for a number.
fn answer<W: Widths>(
    alloc: Global,
    surface: &Surface<W>,
    seq: SequenceNo,
    answers: &mut Vec<Answer<'static>>,
) -> Result<ManyOutcome, AllocError>
    ensures { IfOk result (λ outcome. AnswersTo (measure W.width_of)
        surface.now seq answers.old.items outcome answers.new.items) }
{
    match kept_answer(alloc, surface, seq) {
        Ok(answer) => {
            let number = answers.len();
            answers.push(answer)?;
            Ok(ManyOutcome::Kept(number))
        }
        Err(_) => Ok(ManyOutcome::Refused(SurfaceError::Memory)),
    }
}

// The surface's answer for a number, with changes of its own.
fn kept_answer<W: Widths>(
    alloc: Global,
    surface: &Surface<W>,
    seq: SequenceNo,
) -> Result<Answer<'static>, AllocError>
    ensures given { IfOk result (λ answer.
        IsGivenBy screens (measure W.width_of) surface.now seq answer) }
    ensures entries { knows surface.now seq ≡ false →
        IfOk result (λ answer. answer.changes ≡ own_repaint surface.now) }
{
    surface.answer(seq)?.into_owned(alloc)
}

// Gives a viewer an answer. The outcome has what the viewer shows then.
fn deliver<W: Widths>(
    viewer: &mut Viewer<W>,
    answer: &Answer<'_>,
) -> Result<ManyOutcome, AllocError>
    ensures { IfOk result (λ outcome.
        DeliversTo (measure W.width_of) viewer.old answer.now outcome viewer.new) }
{
    match viewer.accept(answer) {
        Ok(number) => {
            let screen = viewer.surface().screen()?;
            Ok(ManyOutcome::Accepted(number, screen))
        }
        Err(error) => Ok(ManyOutcome::NotAccepted(error)),
    }
}

// Resizes a viewer.
fn resize<W: Widths>(viewer: &mut Viewer<W>, width: usize, height: usize) -> ManyOutcome
    requires size { IsSurfaceSize width height }
    ensures { ResizesAs viewer.old width height result viewer.new }
{
    match viewer.resize(width, height) {
        Ok(()) => ManyOutcome::Done,
        Err(error) => ManyOutcome::Refused(error),
    }
}
