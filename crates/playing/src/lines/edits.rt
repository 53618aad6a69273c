//! Edits of a line by the words of a line of the script.
use crate::error::PlayError;
use crate::lines::words::{cell, pen, pen_and_number, text};
use crate::pens::SEMANTIC_TYPES;
use crate::turn::Turn;
use termwiz_cell::cell::{Cell, CellAttributes, SemanticType};
use termwiz_cell::emoji::UnicodeWidths;
use termwiz_line::line::bidi::{Direction, ParagraphDirectionHint};
use termwiz_line::line::line::Line;
use termwiz_text::split_letter_run;

// Recorded calls have digits.
const TRUTHS: [(&str, bool); 4] = [("true", true), ("false", false), ("1", true), ("0", false)];

const DIRECTIONS: [(&str, Direction); 2] = [
    ("left", Direction::LeftToRight),
    ("right", Direction::RightToLeft),
];

/// The names of hints, and those that `Debug` shows.
pub const HINTS: [(&str, ParagraphDirectionHint); 8] = [
    ("ltr", ParagraphDirectionHint::LeftToRight),
    ("rtl", ParagraphDirectionHint::RightToLeft),
    ("autoltr", ParagraphDirectionHint::AutoLeftToRight),
    ("autortl", ParagraphDirectionHint::AutoRightToLeft),
    ("LeftToRight", ParagraphDirectionHint::LeftToRight),
    ("RightToLeft", ParagraphDirectionHint::RightToLeft),
    ("AutoLeftToRight", ParagraphDirectionHint::AutoLeftToRight),
    ("AutoRightToLeft", ParagraphDirectionHint::AutoRightToLeft),
];

/// Makes an edit of this name. The last word of most edits is the number that the line is given.
pub fn edit(line: &mut Line, name: &str, turn: &mut Turn<'_>) {
    match name {
        "compress" => turn.note(line.compress_for_scrollback()),
        "retype" => retype(line, turn),
        "reverse" => reverse(line, turn),
        "write" | "paint" => edit_lent(line, name, turn),
        "set" | "within" | "insert" | "fill" => set_cells(line, name, turn),
        "grapheme" | "overlay" => write_text(line, name, turn),
        "erase-within" | "clear" => blank_cells(line, name, turn),
        "mark" | "bidi" | "enable" | "direction" => set_flags(line, name, turn),
        "run" | "letters" | "erase" | "remove" | "resize" | "blank-out" => {
            edit_at(line, name, turn);
        }
        "size" => set_number(line, turn.word(), turn),
        _ => set_number(line, name, turn),
    }
}

// Writes the type of each cell that the line lends.
fn retype(line: &mut Line, turn: &mut Turn<'_>) {
    let semantic_type = turn.named(&SEMANTIC_TYPES, SemanticType::Output);
    if let Some(cells) = turn.kept(line.cells_mut()) {
        for cell in cells.iter_mut() {
            cell.attrs_mut().set_semantic_type(semantic_type);
        }
    }
}

// Sets reverse in one cell that the line lends for its attributes alone.
fn reverse(line: &mut Line, turn: &mut Turn<'_>) {
    let column = turn.number();
    if let Some(cells) = turn.kept(line.cells_mut_for_attr_changes_only()) {
        if let Some(lent) = cells.get_mut(column) {
            lent.attrs_mut().set_reverse(true);
        }
    }
}

// Writes one cell that the line lends, or its attributes, if it has one at the column.
fn edit_lent(line: &mut Line, name: &str, turn: &mut Turn<'_>) {
    let column = turn.number();
    let is_whole = name == "write";
    let written = if is_whole {
        cell(turn.word(), turn)
    } else {
        Cell::blank()
    };
    let attrs = pen(turn.rest(), turn);
    if turn.has_failed() {
        return;
    }
    if let Some(cells) = turn.kept(line.cells_mut()) {
        match cells.get_mut(column) {
            Some(lent) if is_whole => *lent = written,
            Some(lent) => *lent.attrs_mut() = attrs,
            None => {}
        }
    }
}

// The margin of an insertion is at least 1.
fn set_cells(line: &mut Line, name: &str, turn: &mut Turn<'_>) {
    let column = turn.number();
    let end = if name == "fill" { turn.number() } else { 0 };
    let cell = cell(turn.word(), turn);
    let width = turn.number();
    let seqno = if turn.is_read() { width } else { turn.number() };
    if turn.has_failed() {
        return;
    }
    let edited = match name {
        "set" => line.set_cell(column, cell, seqno),
        "within" => line.set_cell_within(column, cell, width, seqno),
        "fill" => line.fill_range(column..end, &cell, seqno),
        _ if width > 0 => line.insert_cell(column, cell, width, seqno),
        _ => return turn.fail(PlayError::Bad),
    };
    turn.note(edited);
}

fn write_text(line: &mut Line, name: &str, turn: &mut Turn<'_>) {
    let column = turn.number();
    let text = text(turn.word(), turn);
    let width = if name == "grapheme" { turn.number() } else { 0 };
    let (attrs, seqno) = pen_and_number(turn);
    if turn.has_failed() {
        return;
    }
    let (text, widths) = (text.as_str(), &UnicodeWidths);
    let edited = match name {
        "grapheme" => line.set_cell_grapheme(column, text, width.min(2), attrs, seqno),
        _ => line.overlay_text_with_attribute(column, text, &attrs, seqno, widths),
    };
    turn.note(edited);
}

// The margin of an erasure is the column after the last one, and so at least 1.
fn blank_cells(line: &mut Line, name: &str, turn: &mut Turn<'_>) {
    let at = turn.number();
    let margin = if name == "clear" { 0 } else { turn.number() };
    let (attrs, seqno) = pen_and_number(turn);
    if turn.has_failed() {
        return;
    }
    let edited = match name {
        "clear" => line.resize_and_clear(at, seqno, attrs),
        _ if margin > 0 => line.erase_cell_with_margin(at, margin, seqno, attrs),
        _ => return turn.fail(PlayError::Bad),
    };
    turn.note(edited);
}

fn edit_at(line: &mut Line, name: &str, turn: &mut Turn<'_>) {
    let (at, seqno) = turn.pair();
    let edited = match name {
        "run" => line.set_run(at, "xy", &CellAttributes::blank(), seqno),
        "letters" => {
            let (letters, _) = split_letter_run("かき", 2);
            line.set_letters(at, letters, &CellAttributes::blank(), seqno)
        }
        "erase" => line.erase_cell(at, seqno),
        "remove" => line.remove_cell(at, seqno),
        "resize" => line.resize(at, seqno),
        _ => line.blank_out(at, seqno),
    };
    turn.note(edited);
}

fn set_flags(line: &mut Line, name: &str, turn: &mut Turn<'_>) {
    let direction = match name {
        "direction" => turn.named(&DIRECTIONS, Direction::LeftToRight),
        _ => Direction::LeftToRight,
    };
    let flag = turn.named(&TRUTHS, false);
    let hint = match name {
        "bidi" => turn.named(&HINTS, ParagraphDirectionHint::LeftToRight),
        _ => ParagraphDirectionHint::LeftToRight,
    };
    let seqno = turn.number();
    match name {
        "mark" => turn.note(line.set_last_cell_was_wrapped(flag, seqno)),
        "enable" => line.set_bidi_enabled(flag, seqno),
        "bidi" => line.set_bidi_info(flag, hint, seqno),
        _ => line.set_direction(direction, flag, seqno),
    }
}

// Edits of the whole line that are given its number alone, by their names or by its size.
fn set_number(line: &mut Line, name: &str, turn: &mut Turn<'_>) {
    let seqno = turn.number();
    match name {
        "prune" => turn.note(line.prune_trailing_blanks(seqno)),
        "take-number" => line.update_last_change_seqno(seqno),
        "single" => line.set_single_width(seqno),
        "double" => line.set_double_width(seqno),
        "top" => line.set_double_height_top(seqno),
        "bottom" => line.set_double_height_bottom(seqno),
        _ => turn.fail(PlayError::Bad),
    }
}
