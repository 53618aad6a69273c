//! Questions about a line.
use crate::error::PlayError;
use crate::lines::cells::{push_cell, push_stored, push_visible};
use crate::lines::clusters::push_clusters;
use crate::lines::pens::{push_changes, push_pen};
use crate::lines::readings::{push_kept, push_readings, sizes};
use crate::lines::words::{cell, pen};
use crate::turn::Turn;
use std::borrow::CowStr;
use std::cell::Cell as Place;
use termwiz_line::line::line::{DoubleClickRange, Line};

/// Answers a question, maybe with no text.
pub fn answer(line: &mut Line, turn: &mut Turn<'_>) {
    let name = turn.word();
    match name {
        "kept" => push_kept(line, turn),
        "all" => push_readings(line, true, turn),
        "stored" | "pens" => match line.stored_cells() {
            Some(cells) => push_stored(name, cells, turn),
            None => turn.push_str("one text"),
        },
        "lent" => {
            if let Some(cells) = turn.kept(line.cells_mut()) {
                push_stored(name, cells, turn);
            }
        }
        "shown" | "cells" | "visible" => push_visible(name, line, turn),
        "changes" | "lengths" => {
            let attrs = pen(turn.rest(), turn);
            push_changes(name, line, &attrs, turn);
        }
        "columns" => {
            let (from, to) = turn.pair();
            if let Some(text) = turn.kept(line.columns_as_str(from..to)) {
                write!(turn, "|{text}|");
            }
        }
        "clusters" | "cell-clusters" | "bytes" | "looks" | "cluster-copies" => {
            push_clusters(name, line, turn);
        }
        "pen" | "cell" | "changed" | "click" | "turning-click" | "alike" | "copied" => {
            about(line, name, turn);
        }
        _ => push_state(line, name, turn),
    }
}

// Questions about a column or a number.
fn about(line: &Line, name: &str, turn: &mut Turn<'_>) {
    let number = turn.number();
    match name {
        "pen" => {
            let cells = line.stored_cells().unwrap_or(&[]);
            if let Some(cell) = turn.found(cells.get(number)) {
                push_pen(cell.attrs(), turn);
            }
        }
        "cell" => match line.get_cell(number) {
            Some(cell) => push_cell(name, cell, turn),
            None => turn.push_str("none"),
        },
        "changed" => write!(turn, "{}", line.changed_since(number)),
        "click" => {
            let range = line.compute_double_click_range(number, |text| text != " ");
            write!(turn, "{range:?}");
        }
        "turning-click" => push_turning_click(line, number, turn),
        _ => push_likeness(line, name, number, turn),
    }
}

// The range where cells are of a word and of none by turns, and whether it lies in the line, and
// the column in it or at its end.
fn push_turning_click(line: &Line, column: usize, turn: &mut Turn<'_>) {
    let last = Place::new(false);
    let clicked = line.compute_double_click_range(column, |_| {
        last.set(!last.get());
        last.get()
    });
    let range = match &clicked {
        DoubleClickRange::Range(range) | DoubleClickRange::RangeWithWrap(range) => range,
    };
    let around = range.start <= column && column <= range.end && range.end <= line.len();
    write!(turn, "{clicked:?}, around {around}");
}

// What the visible cell at a column is like: another one, or a cell.
fn push_likeness(line: &Line, name: &str, column: usize, turn: &mut Turn<'_>) {
    let Some(visible) = line.get_cell(column) else {
        return turn.fail(PlayError::Bad);
    };
    if name == "alike" {
        let number = turn.number();
        if let Some(other) = turn.found(line.get_cell(number)) {
            write!(turn, "{}", visible.same_contents(&other));
        }
        return;
    }
    let cell = cell(turn.word(), turn);
    if let Some(copy) = turn.kept(visible.as_cell(turn.alloc)) {
        let (equal, back) = (copy == cell, visible.is_cell(&copy));
        write!(
            turn,
            "equal {equal}, back {back}, blank {}",
            visible.is_blank()
        );
    }
}

fn push_state(line: &mut Line, name: &str, turn: &mut Turn<'_>) {
    match name {
        "text" => match turn.kept(line.as_str()) {
            Some(CowStr::Borrowed(text)) => write!(turn, "lent |{text}|"),
            Some(CowStr::Owned(text)) => write!(turn, "own |{text}|"),
            None => {}
        },
        "len" => write!(turn, "{}", line.len()),
        "number" => write!(turn, "{}", line.current_seqno()),
        "size" => {
            for (size, holds) in sizes(line) {
                if holds {
                    turn.push_barred(size);
                }
            }
        }
        "bidi" => {
            let (enabled, hint) = line.bidi_info();
            write!(turn, "{enabled} {hint:?}");
        }
        "zones" => {
            for zone in turn.kept(line.semantic_zone_ranges()).unwrap_or(&[]) {
                write!(turn, "{:?} {:?}|", zone.semantic_type, zone.range);
            }
        }
        "spaces" => write!(turn, "{}", line.is_whitespace()),
        "link" => write!(turn, "{}", line.has_hyperlink()),
        "marked" => write!(turn, "{}", line.last_cell_was_wrapped()),
        "fresh" => {
            let fresh = is_fresh(line, turn);
            write!(turn, "{fresh}");
        }
        _ => turn.fail(PlayError::Bad),
    }
}

// Whether the zones are those of a copy, which keeps none.
fn is_fresh(line: &mut Line, turn: &mut Turn<'_>) -> bool {
    let Some(mut copy) = turn.kept(line.clone()) else {
        return false;
    };
    let fresh = turn.kept(copy.semantic_zone_ranges());
    fresh == turn.kept(line.semantic_zone_ranges())
}
