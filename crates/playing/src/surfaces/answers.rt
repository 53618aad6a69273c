//! Answers to the questions about a surface, and to calls on it.
use crate::error::PlayError;
use crate::surfaces::measure::Measure;
use crate::surfaces::tables::prints;
use crate::turn::Turn;
use std::borrow::CowSlice;
use std::fmt::Display;
use termwiz_cell::change::{Change, SequenceNo};
use termwiz_cell::emoji::UnicodeWidths;
use termwiz_line::line::line::Line;
use termwiz_surface::surface::{FullScreen, Surface, SurfaceError};

/// The number of a change that was made, or why it was refused, unless memory was.
pub fn push_made(turn: &mut Turn<'_>, made: Result<SequenceNo, SurfaceError>) {
    if let Ok(number) = &made {
        write!(turn, "= {number}");
    }
    push_refused(turn, made, SurfaceError::Memory);
}

/// Why a call was refused, if it was, unless memory was.
pub fn push_refused<T: Drop, E: Copy + PartialEq + Display>(
    turn: &mut Turn<'_>,
    made: Result<T, E>,
    memory: E,
) {
    match made {
        Ok(_) => {}
        Err(error) if error == memory => turn.fail(PlayError::Memory),
        Err(error) => write!(turn, "refused: {error}"),
    }
}

/// Answers a question about this surface alone.
pub fn answer(turn: &mut Turn<'_>, surface: &Surface<Measure>, name: &str) {
    match name {
        "number" => write!(turn, "{}", surface.current_seqno()),
        "kept" => {
            let (title, shape) = (surface.title(), surface.cursor_shape());
            let cursor = surface.cursor_visibility();
            write!(turn, "title {title:?}, shape {shape:?}, cursor {cursor:?}");
        }
        "rows" | "full" => {
            if let Some(rows) = turn.kept(surface.screen_chars_to_string()) {
                push_rows(turn, rows.as_str(), surface.cursor_position());
            }
            if name == "full" {
                if let Some(full) = turn.kept(surface.full_screen()) {
                    push_full(turn, &full);
                }
            }
        }
        "screen" | "flags" | "cells" => push_lines(turn, surface, name),
        "prints" => prints(turn, surface),
        "measures" => {
            let text = turn.rest();
            if let Some(line) = turn.kept(Line::from_plain(turn.alloc, text, &UnicodeWidths)) {
                write!(turn, "{}", surface.measures(&line));
            }
        }
        "diff-line" | "diff-lines" => push_line_diff(turn, surface, name),
        _ => push_due(turn, surface, name),
    }
}

/// Each row between bars, and the cursor.
pub fn push_rows(turn: &mut Turn<'_>, rows: &str, cursor: (usize, usize)) {
    for row in rows.lines() {
        writeln!(turn, "|{row}|");
    }
    let (x, y) = cursor;
    writeln!(turn, "cursor {x} {y}");
}

/// What is kept beside the rows of a full screen.
pub fn push_full(turn: &mut Turn<'_>, full: &FullScreen) {
    let ((x, y), visibility) = (full.screen.cursor, full.screen.visibility);
    let (title, shape, color) = (full.title.as_str(), full.shape, full.color);
    write!(
        turn,
        "at {x} {y} {visibility:?}, title {title:?}, shape {shape:?}"
    );
    write!(turn, ", color {color:?}, lines");
    for line in full.lines.as_slice() {
        write!(turn, " {line:?}");
    }
    turn.push('\n');
}

// For each row how many columns it has on the screen, how many its line has and whether that is
// double wide, or the texts of its stored cells.
fn push_lines(turn: &mut Turn<'_>, surface: &Surface<Measure>, name: &str) {
    if name == "screen" {
        if let Some(screen) = turn.kept(surface.screen()) {
            for row in screen.rows.as_slice() {
                writeln!(turn, "{} columns", row.len());
            }
        }
    } else if name == "flags" {
        if let Some(lines) = turn.kept(surface.screen_lines()) {
            for line in &lines {
                let (columns, double) = (line.len(), line.is_double_width());
                writeln!(turn, "{columns} columns, double wide: {double}");
            }
        }
    } else if let Some(rows) = turn.kept(surface.screen_cells()) {
        for row in &rows {
            for (column, cell) in row.iter().enumerate() {
                turn.push_str(if 0 < column { " " } else { "" });
                write!(turn, "{:?}", cell.str());
            }
            turn.push('\n');
        }
    }
}

// The changes that lead from a row to a line of this text, or from the rows to lines of these.
fn push_line_diff(turn: &mut Turn<'_>, surface: &Surface<Measure>, name: &str) {
    let row = if name == "diff-line" {
        turn.number()
    } else {
        0
    };
    let mut lines = Vec::new(turn.alloc);
    for text in turn.rest().split_terminator(' ') {
        if let Some(line) = turn.kept(Line::from_plain(turn.alloc, text, &UnicodeWidths)) {
            turn.note(lines.push(line));
        }
    }
    let made = if name == "diff-line" {
        let line = turn.found(lines.first());
        let Some(line) = line else { return };
        surface.diff_against_numbered_line(row, line)
    } else {
        let lent = lines.iter().collect(turn.alloc);
        let Some(lent) = turn.kept(lent) else { return };
        surface.diff_lines(lent)
    };
    if let Some(changes) = turn.kept(made) {
        push_changes(turn, changes.as_slice());
    }
}

// Whether there are changes for a viewer with this number; whether what is due to it is lent, its
// number and its changes; the answer that is carried to it, with its size and base; or for each
// row, and one past the last, whether it may have changed since then, and its own number.
fn push_due(turn: &mut Turn<'_>, surface: &Surface<Measure>, name: &str) {
    let seq = turn.number();
    match name {
        "has" => write!(turn, "{}", surface.has_changes(seq)),
        "ask" => {
            if let Some((number, changes)) = turn.kept(surface.get_changes(seq)) {
                let lent = matches!(&changes, CowSlice::Borrowed(_));
                writeln!(turn, "{} {number}", if lent { "lent" } else { "repaint" });
                push_changes(turn, changes.as_slice());
            }
        }
        "answer" => {
            if let Some(answer) = turn.kept(surface.answer(seq)) {
                let ((width, height), base) = (answer.size(), answer.base());
                let (number, repaint) = (answer.number(), answer.is_repaint());
                write!(turn, "{width}x{height}, from {base} to {number}");
                writeln!(turn, ", repaint: {repaint}");
                push_changes(turn, answer.changes());
            }
        }
        "changed" => {
            let (_, height) = surface.dimensions();
            for row in 0..height.saturating_add(1) {
                let changed = surface.row_changed_since(row, seq);
                let number = surface.row_seqno(row);
                writeln!(turn, "row {row}: {changed}, number {number}");
            }
        }
        _ => turn.fail(PlayError::Bad),
    }
}

/// Each change on a line of its own.
pub fn push_changes(turn: &mut Turn<'_>, changes: &[Change]) {
    for change in changes {
        writeln!(turn, "{change:?}");
    }
}

/// Whether both have the same screen, or the same full screen.
pub fn is_same(
    turn: &mut Turn<'_>,
    one: &Surface<Measure>,
    other: &Surface<Measure>,
    full: bool,
) -> bool {
    if full {
        let (one, other) = (turn.kept(one.full_screen()), turn.kept(other.full_screen()));
        one == other
    } else {
        let (one, other) = (turn.kept(one.screen()), turn.kept(other.screen()));
        one == other
    }
}
