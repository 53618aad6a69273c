//! The surfaces of a case, and what the lines do with them.
use crate::error::PlayError;
use crate::play::Play;
use crate::surfaces::answers::{answer, is_same, push_changes, push_made, push_refused};
use crate::surfaces::lists::{keep_blank_lines, make_list, push_scrollback};
use crate::surfaces::measure::Measure;
use crate::surfaces::refusals::is_left;
use crate::surfaces::runs::run;
use crate::surfaces::sequences::Sequence;
use crate::surfaces::sizes::{checked_size, measured_size};
use crate::surfaces::tables::{diffs, regions};
use crate::turn::Turn;
use std::alloc::Global;
use termwiz_cell::cell::{Cell, CellAttributes};
use termwiz_cell::change::{Change, SequenceError, SequenceNo};
use termwiz_cell::emoji::UnicodeWidths;
use termwiz_surface::Scrollback;
use termwiz_surface::surface::{Surface, SurfaceError};
use termwiz_surface::view::{Event, Viewer};

/// What the lines are about, by its number.
#[derive(Clone, Copy)]
enum Shown {
    Surface(usize),
    Viewer(usize),
}

/// What a case has.
#[derive(Drop)]
pub struct Stage {
    surfaces: Vec<Surface<Measure>>,
    viewers: Vec<Viewer<Measure>>,
    shown: Shown,
    sequence: Option<Sequence>,
    // The changes of a list that is not at its end.
    list: Option<Vec<Change>>,
    // Those of the sequence that was consumed last.
    consumed: Vec<Change>,
    // The lines that lists scroll off, where they are kept.
    scrollback: Option<Scrollback>,
    // The events of the coming run.
    events: Vec<Event<Measure>>,
}

impl Play for Stage {
    fn line(&mut self, turn: &mut Turn<'_>) {
        let name = turn.word();
        match turn.change(name) {
            Some(change) => self.add(turn, change),
            None => self.command(turn, name),
        }
    }
}

impl Stage {
    pub fn new(alloc: Global) -> Stage {
        Stage {
            surfaces: Vec::new(alloc),
            viewers: Vec::new(alloc),
            shown: Shown::Surface(0),
            sequence: None,
            list: None,
            consumed: Vec::new(alloc),
            scrollback: None,
            events: Vec::new(alloc),
        }
    }

    // Changes what a case has, and what its lines are about.
    fn command(&mut self, turn: &mut Turn<'_>, name: &str) {
        match name {
            "case" => *self = Stage::new(turn.alloc),
            "new" => self.make(turn, false),
            "new-full" => self.make(turn, true),
            "clone" => {
                if let Some(clone) = self.own_clone(turn) {
                    turn.note(self.surfaces.push(clone));
                }
            }
            "viewer" => {
                let Some(own) = self.own(turn) else { return };
                if let Some(viewer) = turn.kept(Viewer::new(turn.alloc, own)) {
                    write!(turn, "last {}", viewer.last());
                    turn.note(self.viewers.push(viewer));
                }
            }
            "on" => self.shown = Shown::Surface(turn.number()),
            "view" => self.shown = Shown::Viewer(turn.number()),
            "sequence" => {
                if let Some(size) = measured_size(turn) {
                    self.sequence = Sequence::new(turn, size);
                }
            }
            "list" => self.list = Some(Vec::new(turn.alloc)),
            "keep" => keep_blank_lines(turn, &mut self.scrollback),
            "event" => self.add_event(turn),
            _ => self.call(turn, name),
        }
    }

    // Changes a surface, a viewer or a sequence.
    fn call(&mut self, turn: &mut Turn<'_>, name: &str) {
        match name {
            "end" => self.end_list(turn, true),
            "unlogged" => self.end_list(turn, false),
            "newest" => {
                let count = turn.number();
                if let Some(scrollback) = turn.found(self.scrollback.as_mut()) {
                    scrollback.remove_first(scrollback.len().saturating_sub(count));
                }
            }
            "repeat" | "resize" | "flush" => self.change_own(turn, name),
            "draw" | "draw-from" | "copy" | "draw-region" => self.draw(turn, name),
            "lead" => self.lead(turn),
            "follow" => self.follow(turn),
            "goto" | "place" => {
                if let Some(sequence) = turn.found(self.sequence.as_mut()) {
                    sequence.answer(turn, name);
                }
            }
            "consume" => {
                if let Some(sequence) = self.sequence.take() {
                    self.consumed = sequence.changes.consume();
                }
                push_changes(turn, self.consumed.as_slice());
            }
            "run" => run(turn, false, &mut self.events),
            "run-full" => run(turn, true, &mut self.events),
            _ => self.ask(turn, name),
        }
    }

    // Answers a question, and changes nothing.
    fn ask(&self, turn: &mut Turn<'_>, name: &str) {
        match name {
            "same" | "full-same" | "diff" | "diff-region" | "diff-regions" => {
                self.compare(turn, name);
            }
            "diffs" => diffs(turn, self.surfaces.as_slice()),
            "lines" | "spare" => {
                if let Some(scrollback) = turn.found(self.scrollback.as_ref()) {
                    push_scrollback(turn, scrollback, name);
                }
            }
            "refusals" => {
                let (region, numbers) = (SurfaceError::ScrollRegion, SurfaceError::Numbers);
                writeln!(turn, "{region}\n{numbers}\n{}", SurfaceError::Memory);
            }
            "sequence-refusals" => {
                writeln!(turn, "{}\n{}", SequenceError::Range, SequenceError::Memory);
            }
            "cell" => push_cell(turn),
            _ => {
                if let Some(own) = self.own(turn) {
                    answer(turn, own, name);
                }
            }
        }
    }

    // Whether this surface and another one are the same, or the changes that lead from it to that.
    fn compare(&self, turn: &mut Turn<'_>, name: &str) {
        let Some(own) = self.own(turn) else { return };
        let ((x, y), (width, height)) = if name == "diff-region" {
            (turn.pair(), turn.pair())
        } else {
            ((0, 0), (0, 0))
        };
        let Some(to) = self.other(turn) else { return };
        let made = match name {
            "diff" => own.diff_screens(to),
            "diff-region" => {
                let (to_x, to_y) = turn.pair();
                own.diff_region(x, y, width, height, to, to_x, to_y)
            }
            "diff-regions" => return regions(turn, own, to),
            _ => {
                let same = is_same(turn, own, to, name == "full-same");
                return write!(turn, "{same}");
            }
        };
        if let Some(changes) = turn.kept(made) {
            push_changes(turn, changes.as_slice());
        }
    }

    // The surface that the lines are about, or that of the viewer.
    fn own(&self, turn: &mut Turn<'_>) -> Option<&Surface<Measure>> {
        match self.shown {
            Shown::Surface(number) => turn.found(self.surfaces.get(number)),
            Shown::Viewer(number) => {
                let viewer = turn.found(self.viewers.get(number))?;
                Some(viewer.surface())
            }
        }
    }

    // A clone of that surface.
    fn own_clone(&self, turn: &mut Turn<'_>) -> Option<Surface<Measure>> {
        let own = self.own(turn)?;
        turn.kept(own.clone())
    }

    // The surface that the lines are about, to be changed.
    fn target(&mut self, turn: &mut Turn<'_>) -> Option<&mut Surface<Measure>> {
        match self.shown {
            Shown::Surface(number) => turn.found(self.surfaces.get_mut(number)),
            Shown::Viewer(_) => turn.found(None),
        }
    }

    // The surface whose number the next word writes.
    fn other(&self, turn: &mut Turn<'_>) -> Option<&Surface<Measure>> {
        let number = turn.number();
        turn.found(self.surfaces.get(number))
    }

    // A new surface, which the coming lines are about.
    fn make(&mut self, turn: &mut Turn<'_>, full: bool) {
        let Some((width, height, measure)) = measured_size(turn) else {
            return;
        };
        let made = if full {
            Surface::new_full(turn.alloc, width, height, measure)
        } else {
            Surface::new(turn.alloc, width, height, measure)
        };
        if let Some(surface) = turn.kept(made) {
            let number = self.surfaces.len();
            turn.note(self.surfaces.push(surface));
            if !turn.has_failed() {
                self.shown = Shown::Surface(number);
            }
        }
    }

    // An event of the coming run.
    fn add_event(&mut self, turn: &mut Turn<'_>) {
        let event = match turn.word() {
            "end" => match self.list.take() {
                Some(list) => Event::Changes(list),
                None => return turn.fail(PlayError::Bad),
            },
            "draw" => {
                let Some(from) = self.other(turn) else { return };
                let clone = turn.kept(from.clone());
                let Some(clone) = clone else { return };
                let (x, y) = turn.pair();
                Event::Draw(clone, x, y)
            }
            "copy" => {
                let ((x, y), (width, height)) = (turn.pair(), turn.pair());
                let (to_x, to_y) = turn.pair();
                Event::Copy(x, y, width, height, to_x, to_y)
            }
            "resize" => Event::Resize(turn.number(), turn.number()),
            "flush" => Event::Flush(turn.number()),
            "ask" => Event::Ask(turn.number()),
            "follow" => Event::Follow,
            "rows" => Event::Show,
            _ => return turn.fail(PlayError::Bad),
        };
        turn.note(self.events.push(event));
    }

    // Adds a change to the list, to the sequence or to the surface.
    fn add(&mut self, turn: &mut Turn<'_>, change: Change) {
        if turn.has_failed() {
            return;
        }
        if let Some(list) = &mut self.list {
            return turn.note(list.push(change));
        }
        if let Some(sequence) = &mut self.sequence {
            let made = sequence.changes.add(change);
            return push_refused(turn, made, SequenceError::Memory);
        }
        if let Some(mut next) = self.own_clone(turn) {
            let made = next.add_change(change);
            self.put(turn, next, made, false);
        }
    }

    // The surface is the next one from now on, on which a list of changes was made, that of a draw
    // or a copy or another one, unless memory was refused to it.
    fn put(
        &mut self,
        turn: &mut Turn<'_>,
        next: Surface<Measure>,
        made: Result<SequenceNo, SurfaceError>,
        copied: bool,
    ) {
        let Some(own) = self.target(turn) else { return };
        let refused = matches!(&made, Err(SurfaceError::Memory));
        if refused && !is_left(turn, own, &next, copied) {
            turn.fail(PlayError::Differs);
        }
        push_made(turn, made);
        if !turn.has_failed() {
            *own = next;
        }
    }

    // Makes the changes of the list, which stays until they are made. Where they aren't, the lines
    // that they scrolled off a surface go.
    fn end_list(&mut self, turn: &mut Turn<'_>, logged: bool) {
        let Some(list) = turn.found(self.list.as_ref()) else {
            return;
        };
        let Some(list) = turn.kept(list.clone()) else {
            return;
        };
        if let Some(sequence) = &mut self.sequence {
            sequence.add_changes(turn, list);
        } else if let Some(mut next) = self.own_clone(turn) {
            let count = self
                .scrollback
                .as_ref()
                .map_or(0, |scrollback| scrollback.len());
            let made = make_list(turn, &mut next, list, logged, &mut self.scrollback);
            if let Some(made) = made {
                self.put(turn, next, made, false);
            }
            if let (Some(scrollback), true) = (&mut self.scrollback, turn.has_failed()) {
                scrollback.lines.truncate(count);
            }
        }
        if !turn.has_failed() {
            self.list = None;
        }
    }

    // Prints a text again and again on this surface, resizes it, or cuts its log.
    fn change_own(&mut self, turn: &mut Turn<'_>, name: &str) {
        let number = turn.number();
        let Some(own) = self.target(turn) else { return };
        match name {
            "repeat" => repeat(turn, own, number),
            "flush" => own.flush_changes_older_than(number),
            _ => {
                let height = turn.number();
                if let Some((width, height)) = checked_size(turn, number, height) {
                    push_refused(turn, own.resize(width, height), SurfaceError::Memory);
                }
            }
        }
    }

    // Draws another surface or a region on this surface, or copies a region.
    fn draw(&mut self, turn: &mut Turn<'_>, name: &str) {
        let next = self.own_clone(turn);
        let Some(mut next) = next else { return };
        let made = if name == "draw" {
            let Some(from) = self.other(turn) else { return };
            let (x, y) = turn.pair();
            next.draw_from_screen(from, x, y)
        } else if name == "draw-from" {
            let Some(from) = self.other(turn) else { return };
            let ((x, y), (width, height)) = (turn.pair(), turn.pair());
            let (to_x, to_y) = turn.pair();
            next.draw_from(from, x, y, width, height, to_x, to_y)
        } else {
            let ((x, y), (width, height)) = (turn.pair(), turn.pair());
            let (to_x, to_y) = turn.pair();
            if name == "copy" {
                next.copy_region(x, y, width, height, to_x, to_y)
            } else {
                next.draw_region(x, y, width, height, to_x, to_y)
            }
        };
        self.put(turn, next, made, true);
    }

    // Another surface makes what is due from a number on.
    fn lead(&mut self, turn: &mut Turn<'_>) {
        let (number, seq) = turn.pair();
        let Some(own) = self.own(turn) else { return };
        let due = turn.kept(own.get_changes(seq));
        let Some((next, changes)) = due else { return };
        let changes = turn.kept(changes.into_owned(turn.alloc));
        let other = turn.found(self.surfaces.get_mut(number));
        if let (Some(changes), Some(other)) = (changes, other) {
            push_made(turn, other.add_changes(changes).map(|_| next));
        }
    }

    // A viewer follows this surface: what it returned, its last number, the surface's, and whether
    // both show the same, of a full surface all that it carries.
    fn follow(&mut self, turn: &mut Turn<'_>) {
        let number = turn.number();
        let source = self.own_clone(turn);
        let viewer = turn.found(self.viewers.get_mut(number));
        let (Some(source), Some(viewer)) = (source, viewer) else {
            return;
        };
        match viewer.follow(&source) {
            Ok(answer) => {
                let same = is_same(turn, viewer.surface(), &source, source.is_full());
                let (last, number) = (viewer.last(), source.current_seqno());
                write!(
                    turn,
                    "= {answer}, last {last}, of {number}, shows the same: {same}"
                );
            }
            // It has no number then.
            Err(SurfaceError::Memory) if viewer.last() != 0 => turn.fail(PlayError::Differs),
            Err(error) => push_made(turn, Err(error)),
        }
    }
}

// Prints a text again and again, and answers the number then.
fn repeat(turn: &mut Turn<'_>, surface: &mut Surface<Measure>, count: usize) {
    let word = turn.word();
    let text = turn.unescaped(word, ' ');
    for _ in 0..count {
        if turn.has_failed() {
            return;
        }
        if let Some(change) = turn.kept(Change::text_from(turn.alloc, text.as_str())) {
            if surface.add_change(change).is_err() {
                turn.fail(PlayError::Memory);
            }
        }
    }
    write!(turn, "{}", surface.current_seqno());
}

// The text and the width of a cell of one grapheme.
fn push_cell(turn: &mut Turn<'_>) {
    let words = turn.rest();
    let (text, pen) = (turn.unescaped(words, ' '), CellAttributes::blank());
    let made = Cell::new_grapheme(turn.alloc, &UnicodeWidths, text.as_str(), pen, None);
    if let Some(cell) = turn.kept(made) {
        write!(turn, "{:?}, {} columns", cell.str(), cell.width());
    }
}
