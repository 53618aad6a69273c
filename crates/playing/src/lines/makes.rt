//! Lines by the words that make them.
use crate::error::PlayError;
use crate::lines::words::{cell, pen_and_number, text};
use crate::turn::Turn;
use termwiz_cell::emoji::UnicodeWidths;
use termwiz_line::line::line::Line;

/// The line that the words after `new` make.
pub fn make(name: &str, turn: &mut Turn<'_>) -> Option<Line> {
    match name {
        "set" => set(turn),
        "cells" => {
            let (seqno, mut cells) = (turn.number(), Vec::new(turn.alloc));
            for word in turn.rest().split_terminator(' ') {
                let pushed = cells.push(cell(word, turn));
                turn.note(pushed);
            }
            Some(Line::from_cells(cells, seqno))
        }
        "empty" => Some(Line::new(turn.alloc, turn.number())),
        "blanks" => {
            let (width, seqno) = turn.pair();
            turn.kept(Line::with_width(turn.alloc, width, seqno))
        }
        "many" => {
            let width = turn.number();
            let (cell, seqno) = (cell(turn.word(), turn), turn.number());
            turn.kept(Line::with_width_and_cell(turn.alloc, width, cell, seqno))
        }
        "plain" => {
            let text = text(turn.word(), turn);
            turn.kept(Line::from_plain(turn.alloc, text.as_str(), &UnicodeWidths))
        }
        _ => in_pen(name, turn),
    }
}

// Sets the cells one after another.
fn set(turn: &mut Turn<'_>) -> Option<Line> {
    let mut line = turn.kept(Line::with_width(turn.alloc, 0, 0))?;
    for word in turn.rest().split(' ') {
        let (at, cell) = (line.len(), cell(word, turn));
        turn.note(line.set_cell(at, cell, 0));
    }
    Some(line)
}

fn in_pen(name: &str, turn: &mut Turn<'_>) -> Option<Line> {
    let text = text(turn.word(), turn);
    let (attrs, seqno) = pen_and_number(turn);
    let (alloc, text, widths) = (turn.alloc, text.as_str(), &UnicodeWidths);
    let made = match name {
        "text" => Line::from_text(alloc, text, &attrs, seqno, None, widths),
        "wrapping" => Line::from_text_with_wrapped_last_col(alloc, text, &attrs, seqno, widths),
        _ => {
            turn.fail(PlayError::Bad);
            return None;
        }
    };
    turn.kept(made)
}
