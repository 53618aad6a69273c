//! What the lines of the cases do, and their answers.
use crate::scripts::endings::push_ending;
use playing::error::PlayError;
use playing::play::Play;
use playing::turn::Turn;
use sessions::printed::PrintedMany;
use sessions::view::script::{Events, read};
use std::alloc::Global;
use std::mem;
use termwiz_cell::change::Change;
use termwiz_cell::emoji::UnicodeWidths;
use termwiz_surface::surface::SurfaceError;
use termwiz_surface::view::{AcceptError, Event, ManyEvent, ManyOutcome, Outcome};

const SURFACE_ERRORS: [(&str, SurfaceError); 3] = [
    ("region", SurfaceError::ScrollRegion),
    ("numbers", SurfaceError::Numbers),
    ("memory", SurfaceError::Memory),
];

const ACCEPT_ERRORS: [(&str, AcceptError); 4] = [
    ("size", AcceptError::Size),
    ("stale", AcceptError::Stale),
    ("numbers", AcceptError::Numbers),
    ("memory", AcceptError::Memory),
];

/// The lines of an input, and the changes for an outcome.
#[derive(Drop)]
pub struct Stage {
    input: String,
    changes: Vec<Change>,
}

impl Play for Stage {
    fn line(&mut self, turn: &mut Turn<'_>) {
        if turn.takes("|") {
            let text = turn.rest();
            return turn.note(writeln!(self.input, "{text}"));
        }
        match turn.word() {
            "case" => *self = Stage::new(turn.alloc),
            "change" => {
                let name = turn.word();
                let change = turn.change(name);
                if let (Some(change), false) = (turn.found(change), turn.has_failed()) {
                    turn.note(self.changes.push(change));
                }
            }
            "events" => {
                push_events(turn, self.input.as_str());
                self.input.clear();
            }
            "report" => push_ending(turn, "report"),
            "flush" => push_ending(turn, "flush"),
            name => {
                if let Some(outcome) = self.outcome(turn, name) {
                    write!(turn, "{}", PrintedMany(&outcome));
                }
            }
        }
    }
}

impl Stage {
    pub fn new(alloc: Global) -> Stage {
        Stage {
            input: String::new(alloc),
            changes: Vec::new(alloc),
        }
    }

    // The lines of the input are the rows that are shown.
    fn outcome(&mut self, turn: &mut Turn<'_>, name: &str) -> Option<ManyOutcome> {
        let outcome = match name {
            "answered" => Outcome::Answered(turn.number()),
            "refused" => Outcome::Refused(turn.named(&SURFACE_ERRORS, SurfaceError::Memory)),
            "unanswered" => {
                let error = turn.named(&SURFACE_ERRORS, SurfaceError::Memory);
                return Some(ManyOutcome::Refused(error));
            }
            "unaccepted" => {
                let error = turn.named(&ACCEPT_ERRORS, AcceptError::Memory);
                return Some(ManyOutcome::NotAccepted(error));
            }
            "shown" => {
                let rows = mem::replace(&mut self.input, String::new(turn.alloc));
                Outcome::Shown(rows, turn.pair())
            }
            "asked" => {
                let changes = mem::replace(&mut self.changes, Vec::new(turn.alloc));
                Outcome::Asked(turn.number(), changes)
            }
            _ => return turn.found(None),
        };
        Some(ManyOutcome::Of(outcome))
    }
}

// Answers each event of a script, on a line of its own.
fn push_events(turn: &mut Turn<'_>, script: &str) {
    match read(turn.alloc, script) {
        Ok(Events::OfOne(events)) => {
            for event in events.as_slice() {
                push_event(turn, event);
            }
        }
        Ok(Events::OfMany(events)) => {
            for event in events.as_slice() {
                push_many(turn, event);
            }
        }
        Err(_) => turn.fail(PlayError::Bad),
    }
}

fn push_many(turn: &mut Turn<'_>, event: &ManyEvent<UnicodeWidths>) {
    match event {
        ManyEvent::On(event) => push_event(turn, event),
        ManyEvent::AnswerFor(viewer) => writeln!(turn, "answer {viewer}"),
        ManyEvent::Deliver(viewer, answer) => writeln!(turn, "deliver {viewer} {answer}"),
        ManyEvent::ResizeViewer(viewer, width, height) => {
            writeln!(turn, "size {viewer} {width} {height}")
        }
    }
}

fn push_event(turn: &mut Turn<'_>, event: &Event<UnicodeWidths>) {
    match event {
        Event::Changes(changes) => writeln!(turn, "changes {changes:?}"),
        Event::Resize(width, height) => writeln!(turn, "resize {width} {height}"),
        Event::Flush(seq) => writeln!(turn, "flush {seq}"),
        Event::Follow => writeln!(turn, "view"),
        Event::Show => writeln!(turn, "show"),
        Event::Ask(seq) => writeln!(turn, "ask {seq}"),
        Event::Draw(..) | Event::Copy(..) => writeln!(turn, "another event"),
    }
}
