//! Texts, pens and cells by their words.
use crate::turn::Turn;
use termwiz_cell::cell::{Cell, CellAttributes};

/// The text of a word: `_` stands for a space, and `""` for no text.
pub fn text(word: &str, turn: &mut Turn<'_>) -> String {
    turn.unescaped(if word == "\"\"" { "" } else { word }, '_')
}

/// Default attributes, for no word or `-`, or with those whose words are joined by `,`.
pub fn pen(word: &str, turn: &mut Turn<'_>) -> CellAttributes {
    match word {
        "" | "-" => CellAttributes::blank(),
        _ => turn.pen_of(word, ','),
    }
}

/// The pen and the number of the last words. Recorded calls have the number first. A number alone
/// has default attributes.
pub fn pen_and_number(turn: &mut Turn<'_>) -> (CellAttributes, usize) {
    let (word, beside) = (turn.word(), turn.rest());
    if beside == "max" || beside.parse::<usize>().is_ok() {
        (pen(word, turn), turn.number_of(beside))
    } else {
        (pen(beside, turn), turn.number_of(word))
    }
}

/// A cell: its text alone, or with its width, or with its width and its pen, with `/` or `:`
/// between them.
pub fn cell(word: &str, turn: &mut Turn<'_>) -> Cell {
    let has_slash = word.split_once('/').is_some();
    let between = if has_slash { '/' } else { ':' };
    let (word, rest) = word.split_once(between).unwrap_or((word, "1"));
    let (width, pen_word) = rest.split_once(between).unwrap_or((rest, "-"));
    let width = turn.number_of(width).min(2);
    let attrs = pen(pen_word, turn);
    let text = text(word, turn);
    let made = Cell::new_grapheme_with_width(turn.alloc, text.as_str(), width, attrs);
    turn.kept(made).unwrap_or(Cell::blank())
}
