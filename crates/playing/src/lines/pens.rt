//! The words of attributes and of changes.
use crate::lines::words::pen;
use crate::pens::{BLINKS, INTENSITIES, SEMANTIC_TYPES, UNDERLINES, VERTICAL_ALIGNS};
use crate::turn::Turn;
use crate::words::name_of;
use termwiz_cell::cell::{CellAttributes, SemanticType};
use termwiz_cell::change::Change;
use termwiz_cell::color::ColorAttribute;
use termwiz_line::line::line::Line;

/// Answers the words of a pen, and `and more` where these do not say it all.
pub fn push_pen(attrs: &CellAttributes, turn: &mut Turn<'_>) {
    let Some(mut list) = turn.kept(Turn::new(turn.alloc, "")) else {
        return;
    };
    push_words(attrs, &mut list);
    let Some(list) = turn.kept(list.into_answer()) else {
        return;
    };
    let words = list.as_str().strip_prefix(',').unwrap_or("-");
    turn.push_str(words);
    if pen(words, turn) != *attrs {
        turn.push_str(" and more");
    }
}

// Adds the words that hold, each with a comma before it.
fn push_words(attrs: &CellAttributes, list: &mut Turn<'_>) {
    let kind = attrs.semantic_type();
    for (holds, word) in [
        (true, name_of(&INTENSITIES, &attrs.intensity())),
        (true, name_of(&UNDERLINES, &attrs.underline())),
        (true, name_of(&BLINKS, &attrs.blink())),
        (attrs.italic(), "italic"),
        (attrs.reverse(), "reverse"),
        (attrs.strikethrough(), "strike"),
        (attrs.invisible(), "invisible"),
        (attrs.wrapped(), "wrapped"),
        (attrs.overline(), "overline"),
        (
            kind != SemanticType::Output,
            name_of(&SEMANTIC_TYPES, &kind),
        ),
        (true, name_of(&VERTICAL_ALIGNS, &attrs.vertical_align())),
        (attrs.hyperlink().is_some(), "link"),
    ] {
        if holds && !word.is_empty() {
            list.push(',');
            list.push_str(word);
        }
    }
    for (name, color) in [
        (",fg=", attrs.foreground()),
        (",bg=", attrs.background()),
        (",ul=", attrs.underline_color()),
    ] {
        if color != ColorAttribute::Default {
            list.push_str(name);
            list.push_color(color);
        }
    }
}

/// Answers the changes that write the line where a pen is set, each with `|` after it, or by the
/// words of `entries`, which are those of recorded answers, or, of `lengths`, how many bytes each
/// text has.
pub fn push_changes(form: &str, line: &Line, pen: &CellAttributes, turn: &mut Turn<'_>) {
    let Some(changes) = turn.kept(line.changes(pen)) else {
        return;
    };
    let recorded = form == "entries";
    for change in &changes {
        match change {
            Change::Text(text) if recorded => turn.push_word(" text=", text.as_str()),
            Change::Text(text) if form == "lengths" => write!(turn, "{}|", text.len()),
            Change::Text(text) => write!(turn, "text {text}|"),
            _ if form == "lengths" => {}
            Change::AllAttributes(attrs) => {
                turn.push_str(if recorded { " pen=" } else { "pen " });
                push_pen(attrs, turn);
                turn.push_str(if recorded { "" } else { "|" });
            }
            Change::ClearToEndOfLine(color) if recorded => {
                turn.push_str(" eol=");
                turn.push_color(*color);
            }
            _ => write!(turn, "{change:?}|"),
        }
    }
}
