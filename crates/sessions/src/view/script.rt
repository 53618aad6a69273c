//! Scripts of `surfview`: one command a line, each of which is an event, for one viewer or several.
ghost use Rattle.std.specs.Prelude.{IfOk};
ghost use Rattle.sessions.specs.Events.{AreInRange};
ghost use Rattle.termwiz_surface.specs.ManySchedule.{IsManyInRange};

use crate::script::{Command, LineError, ScriptError, commands, event, given, given_size};
use std::alloc::Global;
use termwiz_cell::emoji::UnicodeWidths;
use termwiz_surface::view::{Event, ManyEvent};

/// What a script says.
#[derive(Drop)]
pub enum Events {
    /// The events of a surface with one viewer.
    OfOne(Vec<Event<UnicodeWidths>>),
    /// Those of a surface with several viewers, where a line names one of them.
    OfMany(Vec<ManyEvent<UnicodeWidths>>),
}

impl Command for ManyEvent<UnicodeWidths> {
    ghost is_in_range = { IsManyInRange };

    fn of_line(alloc: Global, line: &str) -> Result<ManyEvent<UnicodeWidths>, LineError> {
        if names_viewer(line) {
            return viewer_event(alloc, line);
        }
        let event = event(alloc, line)?;
        Ok(ManyEvent::On(event))
    }
}

/// Reads the events of a script: for several viewers where one of its commands names a viewer.
///
/// Lines end with LF. Empty lines and lines that begin with `#` are skipped. The error names the
/// first line that is no command.
pub fn read(alloc: Global, script: &str) -> Result<Events, ScriptError>
    ensures { IfOk result AreInRange }
{
    if script.split('\n').any(|line| names_viewer(line)) {
        let events = commands(alloc, script)?;
        return Ok(Events::OfMany(events));
    }
    let events = commands(alloc, script)?;
    Ok(Events::OfOne(events))
}

/// Whether the first word of a line is that of a command that names a viewer.
fn names_viewer(line: &str) -> bool {
    matches!(line.split(' ').next(), Some("answer" | "deliver" | "size"))
}

/// The event of a line that names a viewer.
fn viewer_event(alloc: Global, line: &str) -> Result<ManyEvent<UnicodeWidths>, LineError>
    ensures { IfOk result IsManyInRange }
{
    let words: Vec<&str> = line.split(' ').collect(alloc)?;
    viewer_event_of(words.as_slice())
}

/// The event of a line's words, of which the second one names a viewer.
fn viewer_event_of(words: &[&str]) -> Result<ManyEvent<UnicodeWidths>, LineError>
    ensures { IfOk result IsManyInRange }
{
    match words {
        ["answer", viewer] => answer(viewer),
        ["deliver", viewer, answer] => deliver(viewer, answer),
        ["size", viewer, width, height] => resize_viewer(viewer, width, height),
        _ => Err(LineError::BadCommand),
    }
}

/// The event of an answer for a viewer.
fn answer(viewer: &str) -> Result<ManyEvent<UnicodeWidths>, LineError>
    ensures { IfOk result IsManyInRange }
{
    Ok(ManyEvent::AnswerFor(given(viewer)?))
}

/// The event of a viewer's being given an answer.
fn deliver(viewer: &str, answer: &str) -> Result<ManyEvent<UnicodeWidths>, LineError>
    ensures { IfOk result IsManyInRange }
{
    let viewer = given(viewer)?;
    let answer = given(answer)?;
    Ok(ManyEvent::Deliver(viewer, answer))
}

/// The event of a viewer's taking another size.
fn resize_viewer(
    viewer: &str,
    width: &str,
    height: &str,
) -> Result<ManyEvent<UnicodeWidths>, LineError>
    ensures { IfOk result IsManyInRange }
{
    let viewer = given(viewer)?;
    let width = given_size(width)?;
    let height = given_size(height)?;
    Ok(ManyEvent::ResizeViewer(viewer, width, height))
}
