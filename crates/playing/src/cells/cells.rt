//! Questions about cells.
use crate::error::PlayError;
use crate::turn::Turn;
use termwiz_cell::cell::{Cell, CellAttributes, Underline};
use termwiz_cell::emoji::{OneColumn, UnicodeWidths};
use termwiz_line::cellcluster::CellCluster;
use termwiz_line::line::line::Line;

pub fn answer(turn: &mut Turn<'_>) {
    match turn.word() {
        "show" => {
            let cell = cell(turn);
            let (text, width, blank) = (cell.str(), cell.width(), cell.is_blank());
            write!(turn, "\"{text}\", columns {width}, blank {blank}");
        }
        "form" => {
            let form = cell(turn).presentation(&UnicodeWidths);
            write!(turn, "{form:?}");
        }
        "same" => {
            let (one, other) = turn.sides();
            turn.rest = one;
            let one = cell(turn);
            turn.rest = other;
            let same = one == cell(turn);
            write!(turn, "{same}");
        }
        "debug" => debug(turn, false),
        "copied" => debug(turn, true),
        _ => turn.fail(PlayError::Bad),
    }
}

// What `{:?}` shows of a cell with attributes; or of the copy of such a cell of one column, and
// whether both are equal.
fn debug(turn: &mut Turn<'_>, copies: bool) {
    let (alloc, (word, words)) = (turn.alloc, turn.sides());
    let attrs = turn.pen_of(words, ' ');
    turn.rest = word;
    let text = turn.quoted();
    if !copies {
        let made = Cell::new_grapheme(alloc, &UnicodeWidths, text, attrs, None);
        if let Some(cell) = turn.kept(made) {
            write!(turn, "{cell:?}");
        }
    } else if let Some(cell) = turn.kept(Cell::new_grapheme_with_width(alloc, text, 1, attrs)) {
        if let Some(copy) = turn.kept(cell.clone()) {
            write!(turn, "{copy:?}, same {}", copy == cell);
        }
    }
}

/// A blank cell whose attributes are set where they stand, and whether it is a blank one again
/// where they are replaced by blank ones.
pub fn lent(turn: &mut Turn<'_>) {
    let mut cell = Cell::blank();
    cell.attrs_mut()
        .set_underline(Underline::Single)
        .set_italic(true);
    write!(turn, "{cell:?}, ");
    *cell.attrs_mut() = CellAttributes::blank();
    let same = cell == Cell::blank_with_attrs(CellAttributes::blank());
    write!(turn, "replaced {same}");
}

/// The texts of copies of the clusters that the cells of a text make.
pub fn clusters(turn: &mut Turn<'_>) {
    let (alloc, text) = (turn.alloc, turn.quoted());
    let Some(line) = turn.kept(Line::from_plain(alloc, text, &UnicodeWidths)) else {
        return;
    };
    let made = CellCluster::make_cluster(alloc, &UnicodeWidths, line.visible_cells());
    for cluster in &turn.kept(made).unwrap_or(Vec::new(alloc)) {
        if let Some(copy) = turn.kept(cluster.clone()) {
            turn.push_barred(copy.text.as_str());
        }
    }
}

// The cell of some words, or its copy.
fn cell(turn: &mut Turn<'_>) -> Cell {
    let (alloc, copies) = (turn.alloc, turn.takes("copy "));
    let (how, text) = (turn.word(), turn.quoted());
    let (widths, c) = (&UnicodeWidths, text.chars().next().unwrap_or(' '));
    let made = match how {
        "blank" => Ok(Cell::blank()),
        "default" => Ok(Cell::default()),
        "grapheme" => Cell::new_grapheme(alloc, widths, text, CellAttributes::blank(), None),
        "char" => Cell::new(alloc, widths, c, CellAttributes::blank()),
        "one" => Cell::new(alloc, &OneColumn, c, CellAttributes::blank()),
        _ => {
            let width = turn.number_of(how).min(2);
            Cell::new_grapheme_with_width(alloc, text, width, CellAttributes::blank())
        }
    };
    let cell = turn.kept(made).unwrap_or(Cell::blank());
    turn.copied(cell, copies)
}
