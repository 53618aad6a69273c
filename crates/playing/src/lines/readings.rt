//! All that is read of a line, in the words of recorded answers.
use crate::lines::cells::{push_stored, push_visible};
use crate::lines::clusters::push_clusters;
use crate::lines::edits::HINTS;
use crate::lines::pens::push_changes;
use crate::pens::SEMANTIC_TYPES;
use crate::turn::Turn;
use crate::words::name_of;
use termwiz_cell::cell::CellAttributes;
use termwiz_cell::emoji::UnicodeWidths;
use termwiz_line::line::bidi::ParagraphDirectionHint;
use termwiz_line::line::line::{DoubleClickRange, Line};

/// The words of truths.
pub const TRUTHS: [(&str, bool); 2] = [("yes", true), ("no", false)];

/// Answers its length, number and text.
pub fn push_summary(line: &Line, turn: &mut Turn<'_>) {
    if let Some(text) = turn.kept(line.as_str()) {
        write!(turn, "{} {} ", line.len(), line.current_seqno());
        turn.push_escaped(&text);
    }
}

/// Answers how many pieces there are, and each one, with whether its text goes on.
pub fn push_pieces(pieces: &[Line], turn: &mut Turn<'_>) {
    writeln!(turn, "wrap {}", pieces.len());
    for piece in pieces {
        push_summary(piece, turn);
        writeln!(
            turn,
            " {}",
            name_of(&TRUTHS, &piece.last_cell_was_wrapped())
        );
    }
}

/// Answers what it stores: its length, number and cells, and its flags where it has some.
pub fn push_kept(line: &Line, turn: &mut Turn<'_>) {
    write!(turn, "{} {}", line.len(), line.current_seqno());
    push_copied("kept", line, turn);
    let (enabled, hint) = line.bidi_info();
    if enabled || hint != ParagraphDirectionHint::LeftToRight || !line.is_single_width() {
        let (size, direction, hint) = flags(line);
        write!(turn, " flags {size} {direction} {hint}");
    }
}

// Answers the stored cells of a copy.
fn push_copied(form: &str, line: &Line, turn: &mut Turn<'_>) {
    if let Some(mut copy) = turn.kept(line.clone()) {
        if let Some(cells) = turn.kept(copy.cells_mut()) {
            push_stored(form, cells, turn);
        }
    }
}

/// The names of sizes, each with whether the line has it.
pub fn sizes(line: &Line) -> [(&'static str, bool); 4] {
    [
        ("single", line.is_single_width()),
        ("double", line.is_double_width()),
        ("top", line.is_double_height_top()),
        ("bottom", line.is_double_height_bottom()),
    ]
}

// The words of its size, of whether directions are found, and of its hint.
fn flags(line: &Line) -> (&'static str, &'static str, &'static str) {
    let (enabled, hint) = line.bidi_info();
    let direction = if enabled { "bidi" } else { "plain" };
    let size = name_of(&sizes(line), &true);
    (size, direction, name_of(&HINTS, &hint))
}

/// Answers each reading on a line of its own: all of them, or those that are recorded of such a
/// line. Stored cells are read where a cell is wide.
pub fn push_readings(line: &Line, all: bool, turn: &mut Turn<'_>) {
    turn.push_str("line ");
    push_summary(line, turn);
    let (size, direction, hint) = flags(line);
    write!(turn, "\nflags {size} {direction} {hint}\ncells");
    push_visible("placed", line, turn);
    if line.visible_cells().any(|cell| cell.width() > 1) {
        turn.push_str("\nstored");
        push_copied("recorded", line, turn);
    }
    turn.push_str("\ncolumns");
    for columns in [1..3, 2..usize::MAX, 3..1, 0..line.len()] {
        if let Some(text) = turn.kept(line.columns_as_str(columns)) {
            turn.push_word(" ", text.as_str());
        }
    }
    push_ranges(line, turn);
    if all || keeps_apart(line, turn) {
        turn.push_str("\nentries");
        push_changes("entries", line, &CellAttributes::blank(), turn);
    }
    // Clusters are recorded where no text of one byte is wide.
    let mut cells = line.visible_cells();
    if all || !cells.any(|cell| cell.str().len() == 1 && cell.width() > 1) {
        turn.push_str("\nclusters");
        push_clusters("recorded", line, turn);
    }
}

// Double clicks, semantic zones, and whether it is of spaces and goes on.
fn push_ranges(line: &Line, turn: &mut Turn<'_>) {
    turn.push_str("\nclick");
    for column in 0..line.len().saturating_add(2) {
        let (range, mark) = match line.compute_double_click_range(column, |text| text != " ") {
            DoubleClickRange::Range(range) => (range, '-'),
            DoubleClickRange::RangeWithWrap(range) => (range, '~'),
        };
        write!(turn, " {}{mark}{}", range.start, range.end);
    }
    turn.push_str("\nzones");
    if let Some(mut copy) = turn.kept(line.clone()) {
        for zone in turn.kept(copy.semantic_zone_ranges()).unwrap_or(&[]) {
            let name = name_of(&SEMANTIC_TYPES, &zone.semantic_type);
            write!(turn, " {name}:{}-{}", zone.range.start, zone.range.end);
        }
    }
    let space = name_of(&TRUTHS, &line.is_whitespace());
    let wrapped = name_of(&TRUTHS, &line.last_cell_was_wrapped());
    write!(turn, "\nspace {space} wrapped {wrapped}");
}

// Whether the cells' texts are the graphemes of the line's text.
fn keeps_apart(line: &Line, turn: &mut Turn<'_>) -> bool {
    let Some(text) = turn.kept(line.as_str()) else {
        return false;
    };
    let whole = turn.kept(Line::from_plain(turn.alloc, &text, &UnicodeWidths));
    let Some(whole) = whole else {
        return false;
    };
    let own = line.visible_cells().map(|cell| cell.str());
    own.eq(whole.visible_cells().map(|cell| cell.str()))
}
