//! Full repaints: their entries before the rows, and after them.
ghost use Rattle.std.specs.Prelude.{◌≡◌, ◌++◌, IfOk, List, OnOk, length, map};
ghost use Rattle.termwiz_screen.specs.{ChangeValue, behind, blank, change_value, line_attribute};
ghost use Rattle.termwiz_screen.specs.{default_attributes, penned_value, row_flags, shape_of};
ghost use Rattle.termwiz_line.specs.Entries as line;
ghost use Rattle.termwiz_screen.specs.Repaint as spec;
ghost use Rattle.termwiz_screen.specs.Screen.{Screen};

use super::{cleared, placed, push_next_line};
use crate::full::{attribute_of, shape_or_default};
use std::alloc::{AllocError, Global};
use std::collections::VecDeque;
use termwiz_cell::cell::{Cell, CellAttributes};
use termwiz_cell::change::{Change, CursorShape, CursorVisibility, Position};
use termwiz_cell::color::ColorAttribute;
use termwiz_line::entries::{Penned, RowWriter};
use termwiz_line::line::line::Line;

/// A writer that begins with a hidden cursor, a clear of the screen, the title, the cursor's
/// colour, how large each row is shown, and a move to column 0 of row 0.
pub fn fully_started<'a>(
    alloc: Global,
    padding: &'a Cell,
    title: &str,
    color: ColorAttribute,
    rows: &VecDeque<Line>,
) -> Result<RowWriter<'a>, AllocError>
    requires { padding.now ≡ blank }
    ensures printed { IfOk result (λ writer.
        writer.printed ≡ record {
          entries = spec.started_entries
              ++ spec.full_entries title.now color (map line_attribute (row_flags rows.now.items));
          pen = default_attributes;
        }) }
    ensures between { IfOk result (λ writer. writer.spaces ≡ 0) }
{
    let mut writer = cleared(alloc, padding)?;
    let title = String::from_str(alloc, title)?;
    writer.push(Change::Title(title))?;
    writer.push(Change::CursorColor(color))?;
    push_lines(&mut writer, rows)?;
    writer.push(Change::CursorPosition {
        x: Position::Absolute(0),
        y: Position::Absolute(0),
    })?;
    Ok(writer)
}

// Appends how large each row is shown, with a move down before each but the first.
fn push_lines(writer: &mut RowWriter<'_>, rows: &VecDeque<Line>) -> Result<(), AllocError>
    ensures printed { OnOk result (
        let lines = map line_attribute (row_flags rows.now.items) in
        writer.new.printed
        ≡ record writer.old.printed {
          entries = writer.old.printed.entries
              ++ spec.lines_upto lines (length lines);
        }) }
    ensures spaces { writer.new.spaces ≡ writer.old.spaces }
{
    for i in 0..rows.len() {
        push_next_line(writer, i)?;
        writer.push(Change::LineAttribute(attribute_of(&rows[i])))?;
    }
    Ok(())
}

/// What was drawn without the moves at its end, followed by the cursor, the pen, the visibility of
/// a visible cursor, and the cursor's shape, or the default one where none was set.
pub fn fully_framed(
    drawn: Penned<'_>,
    x: usize,
    y: usize,
    visibility: CursorVisibility,
    shape: Option<CursorShape>,
    pen: &CellAttributes,
) -> Result<Vec<Change>, AllocError>
    ensures { IfOk result (λ entries. (first : List ChangeValue) (d : line.Penned) (s : Screen) →
        penned_value drawn.entry ≡ behind (spec.started_entries ++ first) d → s.x ≡ x → s.y ≡ y →
        s.visibility ≡ visibility → s.pen ≡ pen.now →
        map change_value entries.items
        ≡ spec.repaint_of first d s (spec.full_shown_entries s.visibility (shape_of shape))) }
{
    let mut entries = placed(drawn, x, y, pen)?;
    push_fully_shown(&mut entries, visibility, shape)?;
    Ok(entries)
}

// Appends a visible cursor, and the cursor's shape.
fn push_fully_shown(
    entries: &mut Vec<Change>,
    visibility: CursorVisibility,
    shape: Option<CursorShape>,
) -> Result<(), AllocError>
    ensures { OnOk result (
        map change_value entries.new.items
        ≡ map change_value entries.old.items
        ++ spec.full_shown_entries visibility (shape_of shape)) }
{
    if visibility == CursorVisibility::Visible {
        entries.push(Change::CursorVisibility(CursorVisibility::Visible))?;
    }
    entries.push(Change::CursorShape(shape_or_default(shape)))?;
    Ok(())
}
