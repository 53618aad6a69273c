//! The cells of a line, in the form of a question or of recorded answers.
use crate::lines::pens::push_pen;
use crate::turn::Turn;
use termwiz_cell::cell::{Cell, CellAttributes};
use termwiz_cell::emoji::OneColumn;
use termwiz_line::line::line::Line;
use termwiz_storage::line::cellref::CellRef;

/// Answers each visible cell in this form. Those that are `shown` stand between bars.
pub fn push_visible(form: &str, line: &Line, turn: &mut Turn<'_>) {
    let bar = if form == "shown" { "|" } else { "" };
    turn.push_str(bar);
    for cell in line.visible_cells() {
        push_cell(form, cell, turn);
    }
    turn.push_str(bar);
}

/// Answers each of these cells in this form. Those that are `stored` stand between bars.
pub fn push_stored(form: &str, cells: &[Cell], turn: &mut Turn<'_>) {
    let bar = if form == "stored" { "|" } else { "" };
    turn.push_str(bar);
    for cell in cells {
        let cell = CellRef::CellRef {
            cell_index: 0,
            cell,
        };
        push_cell(form, cell, turn);
    }
    turn.push_str(bar);
}

/// Answers a cell in one of these forms.
///
/// - `stored`, `shown`: its text; `lent`: its text with a bar after it.
/// - `cells`: its text after its column, as `1b|`.
/// - `pens`: its pen.
/// - `cell`, `visible`: its text, column, width and pen, and how it is shown.
/// - others: its text, width and pen as in recorded answers.
pub fn push_cell(form: &str, cell: CellRef<'_>, turn: &mut Turn<'_>) {
    let (text, column, width) = (cell.str(), cell.cell_index(), cell.width());
    match form {
        "stored" | "shown" => turn.push_str(text),
        "lent" => turn.push_barred(text),
        "cells" => write!(turn, "{column}{text}|"),
        "pens" => {
            push_pen(cell.attrs(), turn);
            turn.push('|');
        }
        "cell" | "visible" => {
            write!(turn, "{text} at {column}, width {width}, pen ");
            push_pen(cell.attrs(), turn);
            write!(turn, ", {:?}", cell.presentation(&OneColumn));
            turn.push_str(if form == "visible" { "|" } else { "" });
        }
        _ => push_recorded(form, cell, turn),
    }
}

// After its column, where it is `placed`, and without the width and the pen of most cells, where it
// is `kept`.
fn push_recorded(form: &str, cell: CellRef<'_>, turn: &mut Turn<'_>) {
    let (width, attrs) = (cell.width(), cell.attrs());
    turn.push(' ');
    if form == "placed" {
        write!(turn, "{}:", cell.cell_index());
    }
    turn.push_escaped(cell.str());
    let plain = form == "kept" && *attrs == CellAttributes::blank();
    if !plain || width != 1 {
        write!(turn, "/{width}");
    }
    if !plain {
        turn.push('/');
        push_pen(attrs, turn);
    }
}
