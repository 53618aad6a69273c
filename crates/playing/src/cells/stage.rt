//! Lines of the cases, and their answers by topic.
use crate::cells::{cells, changes, items, links, pens, texts, values};
use crate::error::PlayError;
use crate::play::Play;
use crate::turn::Turn;
use termwiz_cell::cell::CellAttributes;

/// Answers the lines, and keeps the pen that is set.
#[derive(Drop)]
pub struct Stage {
    pen: CellAttributes,
}

impl Play for Stage {
    fn line(&mut self, turn: &mut Turn<'_>) {
        match turn.word() {
            "case" => {}
            "new" => {
                let words = turn.rest();
                let pen = turn.pen_of(words, ' ');
                if !turn.has_failed() {
                    self.pen = pen;
                }
            }
            "set" => {
                let word = turn.rest();
                turn.put(&mut self.pen, word);
            }
            "free" => {
                // What takes memory that is refused in this turn of its own fails with `Differs`.
                let own = Turn::new(turn.alloc, turn.rest());
                if let Some(mut own) = turn.kept(own) {
                    let word = own.rest();
                    own.put(&mut self.pen, word);
                    if own.has_failed() {
                        turn.fail(PlayError::Differs);
                    }
                }
            }
            "pen" if turn.is_read() => {
                let pen = &self.pen;
                write!(turn, "{pen:?}, blank {}", pen.is_blank());
            }
            topic => answer(turn, topic),
        }
    }
}

impl Stage {
    pub fn new() -> Stage {
        Stage {
            pen: CellAttributes::blank(),
        }
    }
}

fn answer(turn: &mut Turn<'_>, topic: &str) {
    match topic {
        "colour" | "ansi" | "spec" => values::colors(turn, topic),
        "columns" | "form" | "white" => values::widths(turn, topic),
        "version" => values::version(turn),
        "defaults" => values::defaults(turn),
        "styles" | "order" => values::styles(turn, topic),
        "link" => links::answer(turn),
        "faults" => links::faults(turn),
        "pen" => pens::answer(turn),
        "cell" => cells::answer(turn),
        "clusters" => cells::clusters(turn),
        "lent" => cells::lent(turn),
        "change" => changes::answer(turn),
        "item" => items::answer(turn),
        _ => texts::answer(turn, topic),
    }
}
