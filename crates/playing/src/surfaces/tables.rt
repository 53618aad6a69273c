//! Tables of diffs, by how many graphemes they print, and of what a text leaves at each place.
use crate::error::PlayError;
use crate::surfaces::measure::Measure;
use crate::turn::Turn;
use termwiz_cell::change::{Change, Position};
use termwiz_surface::surface::Surface;
use unicode_segmentation::UnicodeSegmentation;

/// A line for each surface, with the number of each one to which it leads: how many graphemes that
/// diff prints.
pub fn diffs(turn: &mut Turn<'_>, surfaces: &[Surface<Measure>]) {
    for from in surfaces {
        for (column, to) in surfaces.iter().enumerate() {
            turn.push_str(if 0 < column { " " } else { "" });
            if let Some(changes) = turn.kept(from.diff_screens(to)) {
                push_count(turn, changes.as_slice());
                push_led(turn, from, to, changes);
            }
        }
        turn.push('\n');
    }
}

// How many graphemes the changes print, and a mark where there are more than three for each.
fn push_count(turn: &mut Turn<'_>, changes: &[Change]) {
    let mut count: usize = 0;
    for change in changes {
        if let Change::Text(text) = change {
            count = count.saturating_add(text.as_str().graphemes(true).count());
        }
    }
    write!(turn, "{count}");
    if changes.len() > count.saturating_mul(3) {
        turn.push('!');
    }
}

// A mark unless the changes make one surface show the rows of the other.
fn push_led(
    turn: &mut Turn<'_>,
    from: &Surface<Measure>,
    to: &Surface<Measure>,
    changes: Vec<Change>,
) {
    let made = turn.kept(from.clone());
    let Some(mut made) = made else { return };
    let refused = made.add_changes(changes).is_err();
    let (shown, wanted) = (turn.kept(made.screen()), turn.kept(to.screen()));
    if let (Some(shown), Some(wanted)) = (shown, wanted) {
        if refused || shown.rows.as_slice() != wanted.rows.as_slice() {
            turn.push('?');
        }
    }
}

/// A line for each column of a surface, with a digit for each column of another one: how many
/// graphemes the diff of regions of the size that the words write in the first rows, from these
/// columns on, prints.
pub fn regions(turn: &mut Turn<'_>, own: &Surface<Measure>, other: &Surface<Measure>) {
    let (width, height) = turn.pair();
    let ((columns, _), (other_columns, _)) = (own.dimensions(), other.dimensions());
    for x in 0..columns {
        for other_x in 0..other_columns {
            let changes = own.diff_region(x, 0, width, height, other, other_x, 0);
            if let Some(changes) = turn.kept(changes) {
                push_count(turn, changes.as_slice());
            }
        }
        turn.push('\n');
    }
}

/// A line for each place from which a text is printed, after the last column too: the column and
/// the row, the rows then, for each of their cells whether it is in the surface's pen, and the
/// cursor.
pub fn prints(turn: &mut Turn<'_>, surface: &Surface<Measure>) {
    let word = turn.word();
    let text = turn.unescaped(word, ' ');
    let (width, height) = surface.dimensions();
    for x in 0..width.saturating_add(1) {
        for y in 0..height {
            write!(turn, "{x} {y} |");
            let change = Change::CursorPosition {
                x: Position::Absolute(x),
                y: Position::Absolute(y),
            };
            push_print(turn, surface, change, text.as_str());
        }
    }
}

// What a surface shows on which a text is printed after a change: the rows, for each cell `+` where
// it has the pen's attributes and else `-`, and the cursor.
fn push_print(turn: &mut Turn<'_>, surface: &Surface<Measure>, change: Change, text: &str) {
    let printed = turn.kept(Change::text_from(turn.alloc, text));
    let (Some(mut made), Some(printed)) = (turn.kept(surface.clone()), printed) else {
        return;
    };
    if made.add_change(change).is_err() || made.add_change(printed).is_err() {
        return turn.fail(PlayError::Memory);
    }
    if let Some(rows) = turn.kept(made.screen_chars_to_string()) {
        for row in rows.as_str().lines() {
            turn.push_barred(row);
        }
    }
    if let Some(lines) = turn.kept(made.screen_lines()) {
        for line in &lines {
            turn.push(' ');
            for cell in line.visible_cells() {
                let in_pen = *cell.attrs() == *made.pen();
                turn.push(if in_pen { '+' } else { '-' });
            }
        }
    }
    let (x, y) = made.cursor_position();
    writeln!(turn, " {x} {y}");
}
