//! Lists of changes that are made on a surface, logged or not, and the lines that they scroll off.
use crate::surfaces::measure::Measure;
use crate::turn::Turn;
use termwiz_cell::change::{Change, SequenceNo};
use termwiz_line::line::line::Line;
use termwiz_surface::surface::{ChangeList, LentChange, LentChanges, Surface, SurfaceError};
use termwiz_surface::{NoScrollback, Scrollback};

/// Makes the changes, logged or not, and keeps what they scroll off where there is a scrollback.
pub fn make_list(
    turn: &mut Turn<'_>,
    surface: &mut Surface<Measure>,
    list: Vec<Change>,
    logged: bool,
    scrollback: &mut Option<Scrollback>,
) -> Option<Result<SequenceNo, SurfaceError>> {
    if logged {
        return Some(add(surface, ChangeList::Owned(list), scrollback));
    }
    let lent = lent(turn, list.as_slice());
    if turn.has_failed() {
        return None;
    }
    Some(add(
        surface,
        ChangeList::Unlogged(LentChanges(lent.as_slice())),
        scrollback,
    ))
}

// Makes the changes, and keeps what they scroll off where there is a scrollback.
fn add(
    surface: &mut Surface<Measure>,
    list: ChangeList<'_>,
    scrollback: &mut Option<Scrollback>,
) -> Result<SequenceNo, SurfaceError> {
    match scrollback {
        Some(scrollback) => surface.add(list, scrollback),
        None => surface.add(list, &mut NoScrollback),
    }
}

// The changes with texts and titles that are lent.
fn lent<'a>(turn: &mut Turn<'_>, list: &'a [Change]) -> Vec<LentChange<'a>> {
    let mut lent = Vec::new(turn.alloc);
    for change in list {
        let made = match change {
            Change::Text(text) => LentChange::Text(text.as_str()),
            Change::Title(title) => LentChange::Title(title.as_str()),
            other => match turn.kept(other.clone()) {
                Some(other) => LentChange::Owned(other),
                None => return lent,
            },
        };
        turn.note(lent.push(made));
    }
    lent
}

/// Answers the lines that are kept, each with whether it is double wide, or how many are spare.
pub fn push_scrollback(turn: &mut Turn<'_>, scrollback: &Scrollback, name: &str) {
    if name == "spare" {
        return write!(turn, "{}", scrollback.spare_lines());
    }
    for line in &scrollback.lines {
        let size = if line.is_double_width() {
            ", double wide"
        } else {
            ""
        };
        if let Some(text) = turn.kept(line.as_str()) {
            writeln!(turn, "|{text}| {} columns{size}", line.len());
        }
    }
}

/// Keeps blank lines of the widths that the words write, in place of all others.
pub fn keep_blank_lines(turn: &mut Turn<'_>, kept: &mut Option<Scrollback>) {
    let mut scrollback = Scrollback::new(turn.alloc);
    for width in turn.rest().split_terminator(' ') {
        let width = turn.number_of(width);
        if let Some(line) = turn.kept(Line::with_width(turn.alloc, width, 1)) {
            turn.note(scrollback.lines.push_back(line));
        }
    }
    if !turn.has_failed() {
        *kept = Some(scrollback);
    }
}
