//! Screens that are carried to a viewer by the bytes of a repaint.
use crate::streams::given::{note_change, paint, sent, size_of};
use playing::error::PlayError;
use playing::surfaces::measure::Measure;
use playing::turn::Turn;
use termwiz_cell::change::{Change, Position};
use termwiz_cell::emoji::{OneColumn, UnicodeWidths, Widths};
use termwiz_surface::surface::Surface;

// What a viewer shows before a repaint: other text, wide and narrow, in another pen, and no cursor.
const OTHER: &str = "82018508f6f6f6f6 =か#か#か#か#か#か#か#か#か#か#か#か# 8209f4";

/// How many screens are carried that changes make on blank surfaces of these sizes, with commas
/// between them, where texts are measured as the first word says.
pub fn carried(turn: &mut Turn<'_>) {
    let measure = turn.word();
    let sizes = turn.word();
    let count = match measure {
        "unicode" => carried_by(turn, UnicodeWidths, sizes),
        "one" => carried_by(turn, OneColumn, sizes),
        "wide" => carried_by(turn, Measure::Wide, sizes),
        _ => return turn.fail(PlayError::Bad),
    };
    write!(turn, "{count} screens");
}

// The screens that changes make, or where `columns` stands before them those with each column of
// the last row at which the cursor may be, after the last one too.
fn carried_by<W: Widths>(turn: &mut Turn<'_>, widths: W, sizes: &str) -> usize {
    let has_columns = turn.takes("columns ");
    let words = turn.rest();
    let mut count = 0usize;
    for size in sizes.split(',') {
        let (width, height) = size_of(turn, size);
        let blank = Surface::new(turn.alloc, width, height, widths);
        if let Some(mut surface) = turn.kept(blank) {
            paint(turn, &mut surface, words);
            let columns = if has_columns { width } else { 0 };
            for column in 0..columns.saturating_add(1) {
                if has_columns {
                    let moved = surface.add_change(Change::CursorPosition {
                        x: Position::Absolute(column),
                        y: Position::EndRelative(1),
                    });
                    note_change(turn, moved);
                }
                carry(turn, &surface).unwrap_or(());
                count = count.wrapping_add(1);
            }
        }
    }
    count
}

// Carries what a surface shows to one that shows other text, and fails unless both show the same.
fn carry<W: Widths>(turn: &mut Turn<'_>, surface: &Surface<W>) -> Option<()> {
    let answer = turn.kept(surface.answer(0))?;
    let repaint = sent(turn, &surface.widths(), &answer)?;
    let (width, height) = surface.dimensions();
    let blank = Surface::new(turn.alloc, width, height, surface.widths());
    let mut viewer = turn.kept(blank)?;
    paint(turn, &mut viewer, OTHER);
    let changes = turn.kept(repaint.into_changes(turn.alloc))?;
    note_change(turn, viewer.add_changes(changes));
    if turn.kept(viewer.screen()) != turn.kept(surface.screen()) {
        turn.fail(PlayError::Differs);
    }
    Some(())
}
