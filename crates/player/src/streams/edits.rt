//! Callers of crates/uses that change a surface of the table.
use crate::streams::given::{Shown, changes_of, note_change, push_rows};
use playing::error::PlayError;
use playing::turn::Turn;
use termwiz_cell::emoji::UnicodeWidths;
use termwiz_surface::{Line, Scrollback};
use uses::last_row::{clear_last_row, draw_status};
use uses::one_by_one::make_one_by_one;
use uses::quiet::{repeat_columns, restore_settings, save_settings, show_output};
use uses::scrollback::{keep_newest, print_and_keep, store, stored_copy};
use uses::shaper::shaped_text;
use uses::sharing::forget_delivered;

/// What a surface shows after the caller changed it that the first word names, below the rows that
/// are kept then.
pub fn edit(turn: &mut Turn<'_>, surface: &mut Shown) {
    match turn.word() {
        "status" => {
            let (ground, style, text) = (turn.color(), turn.word(), turn.word());
            let style = turn.pen_of(style, ',');
            if !turn.has_failed() {
                note_change(turn, draw_status(turn.alloc, surface, ground, style, text));
            }
        }
        "clear-last" => {
            let ground = turn.color();
            note_change(turn, clear_last_row(turn.alloc, surface, ground));
        }
        "one-by-one" => {
            let words = turn.rest();
            let changes = changes_of(turn, words);
            if !turn.has_failed() {
                note_change(turn, make_one_by_one(surface, changes));
            }
        }
        "quiet" => quiet(turn, surface),
        "forget" if turn.is_read() => forget_delivered(surface, &[]),
        "forget" => {
            let (one, other) = turn.pair();
            forget_delivered(surface, &[one, other]);
        }
        "kept" => keep(turn, surface),
        _ => turn.fail(PlayError::Bad),
    }
    push_rows(turn, surface);
}

// What a program wrote is printed with its title, the first row is drawn in the last one too, and
// the pen is set as it was.
fn quiet(turn: &mut Turn<'_>, surface: &mut Shown) {
    let (width, height) = surface.dimensions();
    let (output, title) = (turn.word(), turn.word());
    let output = turn.unescaped(output, ' ');
    let title = turn.unescaped(title, ' ');
    let settings = turn.kept(save_settings(surface));
    if turn.has_failed() {
        return;
    }
    note_change(turn, show_output(surface, output.as_str(), title.as_str()));
    let repeated = repeat_columns(surface, 0, width, 0, height.saturating_sub(1));
    note_change(turn, repeated);
    if let Some(settings) = settings {
        note_change(turn, restore_settings(surface, settings));
    }
}

// Prints what a program wrote, and keeps the newest of the rows that it scrolled off, up to a
// number of them.
fn keep(turn: &mut Turn<'_>, surface: &mut Shown) {
    let output = turn.word();
    let output = turn.unescaped(output, ' ');
    let limit = turn.number();
    let mut scrollback = Scrollback::new(turn.alloc);
    if !turn.has_failed() {
        let printed = print_and_keep(surface, output.as_str(), &mut scrollback);
        note_change(turn, printed);
    }
    keep_newest(&mut scrollback, limit);
    for line in &scrollback.lines {
        push_stored(turn, line);
    }
}

// Answers a kept line, whether it is equal to itself once it is stored, and whether its copy is a
// text.
fn push_stored(turn: &mut Turn<'_>, line: &Line) {
    let Some(mut stored) = turn.kept(line.clone()) else {
        return;
    };
    turn.note(store(&mut stored));
    let is_same = stored == *line;
    if let Some(copy) = turn.kept(stored_copy(line)) {
        let is_text = copy.stored_cells().is_none();
        if let Some(text) = turn.kept(shaped_text(turn.alloc, &copy, &UnicodeWidths)) {
            write!(turn, "kept {text:?}, as it was: {is_same}, ");
            writeln!(turn, "a text: {is_text}");
        }
    }
}
