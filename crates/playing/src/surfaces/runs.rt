//! Runs of events on a surface with a viewer.
ghost use Rattle.std.specs.Prelude.{◌≡◌, true};
ghost use Rattle.termwiz_surface.specs.{All, IsInRange};

use crate::error::PlayError;
use crate::surfaces::answers::{push_changes, push_full, push_rows};
use crate::surfaces::measure::Measure;
use crate::surfaces::sizes::{MOST, measured_size};
use crate::turn::Turn;
use std::mem;
use termwiz_surface::view::{self, Event, Outcome, run_full};

fn are_in_range(events: &[Event<Measure>]) -> bool
    ensures { result ≡ true → All IsInRange events.now }
{
    for event in events {
        if let Event::Resize(width, height) = event {
            if *width == 0 || MOST < *width || *height == 0 || MOST < *height {
                return false;
            }
        }
    }
    true
}

/// What comes of the events, each on lines of its own, on a surface of the size that the words
/// write, which is a full one or not. None are left.
pub fn run(turn: &mut Turn<'_>, full: bool, events: &mut Vec<Event<Measure>>) {
    let Some((width, height, measure)) = measured_size(turn) else {
        return;
    };
    let events = mem::replace(events, Vec::new(turn.alloc));
    if !are_in_range(events.as_slice()) {
        return turn.fail(PlayError::Bad);
    }
    let outcomes = if full {
        run_full(turn.alloc, measure, width, height, events)
    } else {
        view::run(turn.alloc, measure, width, height, events)
    };
    if let Some(outcomes) = turn.kept(outcomes) {
        for outcome in &outcomes {
            push_outcome(turn, outcome);
        }
    }
}

fn push_outcome(turn: &mut Turn<'_>, outcome: &Outcome) {
    match outcome {
        Outcome::Answered(number) => writeln!(turn, "= {number}"),
        Outcome::Done => turn.push_str("done\n"),
        Outcome::Refused(error) => writeln!(turn, "refused: {error}"),
        Outcome::Shown(rows, cursor) => push_rows(turn, rows.as_str(), *cursor),
        Outcome::Asked(number, changes) => {
            writeln!(turn, "asked {number}, {} changes", changes.len());
            push_changes(turn, changes.as_slice());
        }
        Outcome::Followed(number, changes, screen) => {
            let (x, y) = screen.cursor;
            writeln!(turn, "followed {number}, {} changes", changes.len());
            push_changes(turn, changes.as_slice());
            writeln!(turn, "at {x} {y}");
        }
        Outcome::FollowedFull(number, changes, full) => {
            writeln!(turn, "followed {number}, {} changes", changes.len());
            push_changes(turn, changes.as_slice());
            push_full(turn, full);
        }
    }
}
