//! The lines of a case, and what a transcript does with them.
use crate::error::PlayError;
use crate::lines::asks::answer;
use crate::lines::edits::edit;
use crate::lines::makes::make;
use crate::lines::readings::{push_kept, push_pieces};
use crate::play::Play;
use crate::turn::Turn;
use std::alloc::Global;
use termwiz_line::line::line::Line;

/// How many lines a recorded case begins with.
const REGISTERS: usize = 4;

/// The lines of a case by their numbers, from 0, and the number of the one for edits and questions.
#[derive(Drop)]
pub struct Stage {
    pub(crate) lines: Vec<Line>,
    pub(crate) on: usize,
    compresses: bool,
}

impl Play for Stage {
    fn line(&mut self, turn: &mut Turn<'_>) {
        match turn.word() {
            "case" => {
                self.on = 0;
                self.lines = Vec::new(turn.alloc);
                let registers = if turn.is_read() { REGISTERS } else { 0 };
                for _ in 0..registers {
                    turn.note(self.lines.push(Line::new(turn.alloc, 0)));
                }
            }
            ">" => self.call(turn),
            "ask" => self.ask(turn),
            "wrap" => {
                if let Some(pieces) = self.pieces(turn) {
                    push_pieces(pieces.as_slice(), turn);
                }
            }
            "try" => self.edit_copy(turn),
            name => self.command(name, turn),
        }
        self.settle(turn);
    }
}

impl Stage {
    /// Leaves lines as the commands do, or compresses each after each command on it.
    pub fn new(alloc: Global, compresses: bool) -> Stage {
        Stage {
            lines: Vec::new(alloc),
            on: 0,
            compresses,
        }
    }

    fn ask(&mut self, turn: &mut Turn<'_>) {
        if turn.takes("same ") {
            let same = self.is_same(turn);
            write!(turn, "{same}");
        } else if let Some(line) = self.own(turn) {
            answer(line, turn);
        }
        if turn.is_unanswered() {
            turn.push_str("nothing");
        }
    }

    // Compresses the line, if each is compressed.
    fn settle(&mut self, turn: &mut Turn<'_>) {
        if self.compresses && !turn.has_failed() {
            if let Some(line) = self.lines.get_mut(self.on) {
                turn.note(line.compress_for_scrollback());
            }
        }
    }

    /// Makes, edits or joins lines, which answers nothing.
    pub(crate) fn command(&mut self, name: &str, turn: &mut Turn<'_>) {
        match name {
            "on" => self.on = turn.number(),
            "new" | "clone" | "part" | "split" | "resized" => self.add(name, turn),
            "append" | "append-other" => self.append(name, turn),
            "pieces" => {
                for piece in self.pieces(turn).unwrap_or(Vec::new(turn.alloc)) {
                    turn.note(self.lines.push(piece));
                }
            }
            _ => {
                if let Some(line) = self.own(turn) {
                    edit(line, name, turn);
                }
            }
        }
    }

    /// The line for edits and questions.
    pub(crate) fn own(&mut self, turn: &mut Turn<'_>) -> Option<&mut Line> {
        turn.found(self.lines.get_mut(self.on))
    }

    /// Whether that line equals the one of the number that is read.
    pub(crate) fn is_same(&self, turn: &mut Turn<'_>) -> bool {
        match (self.lines.get(self.on), self.lines.get(turn.number())) {
            (Some(own), Some(other)) => *own == *other,
            _ => {
                turn.fail(PlayError::Bad);
                false
            }
        }
    }

    // Adds a line, and goes on with it.
    fn add(&mut self, name: &str, turn: &mut Turn<'_>) {
        let to = self.lines.len();
        turn.note(self.lines.reserve(1));
        if turn.has_failed() {
            return;
        }
        let made = self.made(name, turn);
        if turn.has_failed() {
            return;
        }
        if let Some(line) = made {
            turn.note(self.lines.push(line));
            self.settle(turn);
            self.on = to;
        }
    }

    /// The line that the words make, or that comes of the one for edits.
    pub(crate) fn made(&mut self, name: &str, turn: &mut Turn<'_>) -> Option<Line> {
        if name == "new" {
            return make(turn.word(), turn);
        }
        let (from, to) = if name == "clone" { (0, 0) } else { turn.pair() };
        let line = self.own(turn)?;
        let made = match name {
            "clone" => return turn.kept(line.clone()),
            "part" => line.columns_as_line(from..to),
            "split" => line.split_off(from, to),
            _ => line.resized(from, to),
        };
        turn.kept(made)
    }

    /// The pieces into which a copy is wrapped, by a width and a number that are read.
    pub(crate) fn pieces(&mut self, turn: &mut Turn<'_>) -> Option<Vec<Line>> {
        let (width, seqno) = turn.pair();
        let line = self.own(turn)?;
        let copy = turn.kept(line.clone())?;
        turn.kept(copy.wrap(width, seqno))
    }

    // Appends a copy of another line, which may be stored in the other form, if it can be, before
    // that.
    fn append(&mut self, name: &str, turn: &mut Turn<'_>) {
        let (number, seqno) = turn.pair();
        let Some(line) = turn.found(self.lines.get(number)) else {
            return;
        };
        let Some(mut other) = turn.kept(line.clone()) else {
            return;
        };
        let is_turned = name == "append-other";
        if is_turned && other.stored_cells().is_some() {
            turn.note(other.compress_for_scrollback());
        } else if is_turned {
            turn.note(other.cells_mut());
        }
        if turn.has_failed() {
            return;
        }
        if let Some(line) = self.own(turn) {
            turn.note(line.append_line(other, seqno));
        }
    }

    // Answers what a command makes of a copy of the line, which is kept, and the lines that it
    // makes. All are dropped then.
    fn edit_copy(&mut self, turn: &mut Turn<'_>) {
        let (own, count) = (self.on, self.lines.len());
        self.add("clone", turn);
        if !turn.has_failed() {
            self.command(turn.word(), turn);
            self.settle(turn);
        }
        for line in self.lines.iter().skip(count) {
            push_kept(line, turn);
            turn.push('\n');
        }
        self.lines.truncate(count);
        self.on = own;
    }
}
