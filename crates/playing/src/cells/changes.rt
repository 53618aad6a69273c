//! Questions about changes.
use crate::error::PlayError;
use crate::turn::Turn;
use crate::words::{LINE_ATTRIBUTES, SHAPES};
use termwiz_cell::change::{Change, CursorShape, LineAttribute};

pub fn answer(turn: &mut Turn<'_>) {
    match turn.word() {
        "show" => {
            let change = change(turn);
            if change.is_text() {
                write!(turn, "{:?}", Some(change.text()));
            } else {
                turn.push_str("None");
            }
        }
        "same" => {
            let (one, other) = turn.sides();
            turn.rest = one;
            let one = change(turn);
            turn.rest = other;
            let same = one == change(turn);
            write!(turn, "{same}");
        }
        "blinks" => {
            let shape = turn.named(&SHAPES, CursorShape::Default);
            write!(turn, "{}", shape.is_blinking());
        }
        _ => turn.fail(PlayError::Bad),
    }
}

// The change of some words, or its copy. Those that aren't named here are words of surfaces.
fn change(turn: &mut Turn<'_>) -> Change {
    let (alloc, copies) = (turn.alloc, turn.takes("copy "));
    let made = match turn.word() {
        "text" => {
            let text = turn.quoted();
            turn.kept(Change::text_from(alloc, text))
        }
        "from" => {
            let text = turn.quoted();
            Some(Change::from(turn.owned(text)))
        }
        "title" => {
            let text = turn.quoted();
            Some(Change::Title(turn.owned(text)))
        }
        "set" => {
            let word = turn.word();
            Some(Change::from(turn.attribute_of(word)))
        }
        "line" => turn.change("row"),
        "size" => {
            let single = LineAttribute::SingleWidthLine;
            Some(Change::from(turn.named(&LINE_ATTRIBUTES, single)))
        }
        "up" => {
            turn.rest = "=0 ~-1";
            turn.change("move")
        }
        name => turn.change(name.strip_prefix("scroll-").unwrap_or(name)),
    };
    let change = turn.found(made).unwrap_or(Change::Text(String::new(alloc)));
    turn.copied(change, copies)
}
