//! Lists of calls with recorded answers. A `case` has registers, which hold empty lines at first,
//! and a call is `> R NAME WORDS`, on the line in a register. Its answer is the line's length,
//! number and text then, or what the call asks for.
use crate::error::PlayError;
use crate::lines::makes::make;
use crate::lines::readings::{TRUTHS, push_pieces, push_readings, push_summary};
use crate::lines::stage::Stage;
use crate::turn::Turn;
use crate::words::{name_of, named};
use termwiz_line::line::line::Line;

// The names of calls that are commands of the transcripts under other names.
const NAMES: [(&str, &str); 12] = [
    ("copy", "clone"),
    ("columns", "part"),
    ("new", "empty"),
    ("blank", "blanks"),
    ("repeat", "many"),
    ("wrappedtext", "wrapping"),
    ("put", "grapheme"),
    ("margin", "erase-within"),
    ("wrapped", "mark"),
    ("number", "take-number"),
    ("bidi", "enable"),
    ("bidiinfo", "bidi"),
];

impl Stage {
    /// Makes a call on the line in a register.
    pub(crate) fn call(&mut self, turn: &mut Turn<'_>) {
        self.on = turn.number();
        let word = turn.word();
        match named(&NAMES, word).unwrap_or(word) {
            "?" => {
                if let Some(line) = self.own(turn) {
                    push_readings(line, false, turn);
                }
            }
            "equal" => {
                let same = self.is_same(turn);
                turn.push_str(name_of(&TRUTHS, &same));
            }
            "compress" => self.command("compress", turn),
            name => {
                let beside = self.change(name, turn);
                self.push_register(self.on, turn);
                if beside != self.on {
                    turn.push('\n');
                    self.push_register(beside, turn);
                }
            }
        }
    }

    // Makes a call that changes registers, and returns the number of the one that is answered
    // beside the line's own.
    fn change(&mut self, name: &str, turn: &mut Turn<'_>) -> usize {
        match name {
            "clone" | "split" | "part" => {
                let made = self.made(name, turn);
                let to = turn.number();
                self.put(to, made, turn);
                return if name == "clone" { self.on } else { to };
            }
            "wrap" => self.wrap_into(turn),
            "cells" | "plain" | "text" | "empty" | "blanks" | "many" | "wrapping" => {
                let made = make(name, turn);
                self.put(self.on, made, turn);
            }
            _ => self.command(name, turn),
        }
        self.on
    }

    // Answers the pieces of a copy, and puts one, whose number is counted round, into a register.
    fn wrap_into(&mut self, turn: &mut Turn<'_>) {
        let Some(pieces) = self.pieces(turn) else {
            return;
        };
        push_pieces(pieces.as_slice(), turn);
        let (to, number) = turn.pair();
        let number = number.checked_rem(pieces.len()).unwrap_or(0);
        if let Some(piece) = turn.found(pieces.get(number)) {
            let copy = turn.kept(piece.clone());
            self.put(to, copy, turn);
        }
    }

    // Puts a line into a register, if it was made.
    fn put(&mut self, to: usize, made: Option<Line>, turn: &mut Turn<'_>) {
        match (made, self.lines.get_mut(to)) {
            (Some(line), Some(register)) => *register = line,
            _ => turn.fail(PlayError::Bad),
        }
    }

    fn push_register(&self, number: usize, turn: &mut Turn<'_>) {
        if let Some(line) = turn.found(self.lines.get(number)) {
            push_summary(line, turn);
        }
    }
}
