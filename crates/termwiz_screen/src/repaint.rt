//! Repaints: the changes that lead from any screen of this size to the one that rows show.
ghost use Rattle.std.specs.Prelude.{◌≡◌, ◌-◌, ◌<◌, ◌≤◌, ◌++◌, ◌∷◌, ◌&&◌, if◌then◌else◌, ◌==◌, []};
ghost use Rattle.termwiz_screen.specs.{AreApart, ArePaddable, ChangeValue, IfOk, IsBeforeRow, List};
ghost use Rattle.termwiz_screen.specs.{IsPaddable, IsWrittenUpto, OnOk, attributes_eq, behind, map};
ghost use Rattle.termwiz_screen.specs.{blank, cells_of, change_value, clears, color_eq, cursor_at};
ghost use Rattle.termwiz_screen.specs.{default_attributes, false, has_only_background, is_text};
ghost use Rattle.termwiz_screen.specs.{last_is, length, not, option_copied, penned_value, row_of};
ghost use Rattle.termwiz_screen.specs.{true, visible_upto};
ghost use Rattle.termwiz_cell.specs.ChangeValue as change;
ghost use Rattle.termwiz_line.specs.Entries as line;
ghost use Rattle.termwiz_screen.specs.Screen.{Screen};
ghost use Rattle.termwiz_screen.specs.Repaint as spec;

pub mod full;

use crate::shown::{is_blank_row, last_attrs};
use std::alloc::{AllocError, Global};
use std::collections::VecDeque;
use termwiz_cell::cell::{Cell, CellAttributes};
use termwiz_cell::change::{Change, CursorShape, CursorVisibility, Position};
use termwiz_cell::color::ColorAttribute;
use termwiz_line::entries::{Penned, RowWriter};
use termwiz_line::line::line::Line;

/// The entries that are written already, followed by those of all rows. Blank rows of one
/// background at the bottom are painted by one clear to the end of the screen.
pub fn all_rows<'a>(
    mut writer: RowWriter<'a>,
    rows: &'a VecDeque<Line>,
    width: usize,
    padding: &'a Cell,
) -> Result<Penned<'a>, AllocError>
    requires before { IsBeforeRow 0 writer }
    requires some_column { 0 < width }
    requires some_row { 0 < length (cells_of rows.now.items) }
    requires paddable { ArePaddable width (cells_of rows.now.items) }
    requires blank { padding.now ≡ blank }
    ensures { IfOk result (λ drawn. (first : List ChangeValue) → AreApart first →
        IsWrittenUpto first width (map (row_of width) (cells_of rows.now.items)) 0 writer.entry →
        penned_value drawn
        ≡ behind first (spec.all_rows width (length (cells_of rows.now.items))
        (map (row_of width) (cells_of rows.now.items)))) }
{
    let attrs = bottom_attrs(rows, width, padding);
    if is_clearable(attrs) {
        return joined_rows(writer, rows, width, padding, attrs);
    }
    write_rows(&mut writer, rows, width, padding, 0, rows.len())?;
    writer.into_penned()
}

// The attributes of the last column of the bottom row.
fn bottom_attrs<'a>(rows: &'a VecDeque<Line>, width: usize, padding: &'a Cell) -> &'a CellAttributes
    requires some_column { 0 < width }
    requires some_row { 0 < length (cells_of rows.now.items) }
    requires paddable { ArePaddable width (cells_of rows.now.items) }
    requires blank { padding.now ≡ blank }
    ensures { result.now
        ≡ spec.bottom_attrs width (length (cells_of rows.now.items))
        (map (row_of width) (cells_of rows.now.items)) }
{
    last_attrs(&rows[rows.len() - 1], width, padding)
}

/// A writer that begins with a hidden cursor, a clear of the screen, and the title, unless it is
/// empty.
pub fn started<'a>(
    alloc: Global,
    padding: &'a Cell,
    title: &str,
) -> Result<RowWriter<'a>, AllocError>
    requires { padding.now ≡ blank }
    ensures printed { IfOk result (λ writer.
        writer.printed ≡ record {
          entries = spec.started_entries ++ spec.title_entry title.now;
          pen = default_attributes;
        }) }
    ensures between { IfOk result (λ writer. writer.spaces ≡ 0) }
{
    let mut writer = cleared(alloc, padding)?;
    push_title(&mut writer, alloc, title)?;
    Ok(writer)
}

// A writer that begins with a hidden cursor and a clear of the screen.
fn cleared<'a>(alloc: Global, padding: &'a Cell) -> Result<RowWriter<'a>, AllocError>
    requires { padding.now ≡ blank }
    ensures printed { IfOk result (λ writer.
        writer.printed ≡ record { entries = spec.started_entries; pen = default_attributes }) }
    ensures between { IfOk result (λ writer. writer.spaces ≡ 0) }
{
    let mut writer = RowWriter::new(alloc, padding.attrs());
    writer.push(Change::CursorVisibility(CursorVisibility::Hidden))?;
    writer.push(Change::ClearScreen(ColorAttribute::Default))?;
    Ok(writer)
}

// Appends the title, unless it is empty.
fn push_title(writer: &mut RowWriter<'_>, alloc: Global, title: &str) -> Result<(), AllocError>
    ensures printed { OnOk result (
        writer.new.printed
        ≡ record writer.old.printed {
          entries = writer.old.printed.entries
              ++ spec.title_entry title.now;
        }) }
    ensures spaces { writer.new.spaces ≡ writer.old.spaces }
{
    if !title.is_empty() {
        writer.push(Change::Title(String::from_str(alloc, title)?))?;
    }
    Ok(())
}

// Whether the attributes are default except for the background, which isn't.
fn is_clearable(attrs: &CellAttributes) -> bool
    ensures { result ≡ (has_only_background attrs.now
        && not (attributes_eq attrs.now default_attributes)) }
{
    attrs.has_only_background() && !attrs.is_blank()
}

// The entries of all rows, given the attributes of the last column of the last row.
fn joined_rows<'a>(
    mut writer: RowWriter<'a>,
    rows: &'a VecDeque<Line>,
    width: usize,
    padding: &'a Cell,
    attrs: &'a CellAttributes,
) -> Result<Penned<'a>, AllocError>
    requires before { IsBeforeRow 0 writer }
    requires some_column { 0 < width }
    requires paddable { ArePaddable width (cells_of rows.now.items) }
    requires blank { padding.now ≡ blank }
    requires bottom { attrs.now
        ≡ spec.bottom_attrs width (length (cells_of rows.now.items))
        (map (row_of width) (cells_of rows.now.items)) }
    requires clearable { (has_only_background attrs.now
        && not (attributes_eq attrs.now default_attributes))
        ≡ true }
    ensures { IfOk result (λ drawn. (first : List ChangeValue) → AreApart first →
        IsWrittenUpto first width (map (row_of width) (cells_of rows.now.items)) 0 writer.entry →
        penned_value drawn
        ≡ behind first (spec.all_rows width (length (cells_of rows.now.items))
        (map (row_of width) (cells_of rows.now.items)))) }
{
    let above = rows_above(rows, width, attrs);
    write_rows(&mut writer, rows, width, padding, 0, above)?;
    let joined = joined_row(writer.last(), attrs, above);
    if above < rows.len() && joined + 1 < rows.len() {
        write_rows(&mut writer, rows, width, padding, above, joined + 1)?;
        let drawn = writer.into_penned()?;
        return clear_below(drawn, attrs);
    }
    write_rows(&mut writer, rows, width, padding, above, rows.len())?;
    writer.into_penned()
}

// How many rows there are above the rows at the bottom that show only blanks with these attributes.
fn rows_above(rows: &VecDeque<Line>, width: usize, attrs: &CellAttributes) -> usize
    requires paddable { ArePaddable width (cells_of rows.now.items) }
    requires other { attributes_eq attrs.now default_attributes ≡ false }
    ensures above { result
        ≡ spec.first_blank width attrs.now (map (row_of width) (cells_of rows.now.items))
        (length (cells_of rows.now.items)) }
    ensures within { result ≤ length (cells_of rows.now.items) }
{
    let mut above = rows.len();
    while above > 0 && is_blank_row(&rows[above - 1], width, attrs) {
        above -= 1;
    }
    above
}

// The row from which one `ClearToEndOfScreen` clears to the end: the first of the blank rows, or
// the row above it where its last entry clears to the end of the line with the same background.
fn joined_row(last: Option<&Change>, attrs: &CellAttributes, above: usize) -> usize
    requires { has_only_background attrs.now ≡ true }
    ensures { result
        ≡ (if clears attrs.now (option_copied last.entry) then above - 1 else above) }
{
    if is_clear(last, attrs) {
        above.saturating_sub(1)
    } else {
        above
    }
}

// Whether the entry clears to the end of the line with this background.
fn is_clear(last: Option<&Change>, attrs: &CellAttributes) -> bool
    requires { has_only_background attrs.now ≡ true }
    ensures { result ≡ clears attrs.now (option_copied last.entry) }
{
    match last {
        Some(last) => is_clear_of(last, attrs),
        None => false,
    }
}

fn is_clear_of(entry: &Change, attrs: &CellAttributes) -> bool
    requires { has_only_background attrs.now ≡ true }
    ensures { result ≡ spec.is_clear_of attrs.now (change_value entry.now) }
{
    match entry {
        Change::ClearToEndOfLine(color) => is_color(*color, attrs.background()),
        _ => false,
    }
}

fn is_color(color: ColorAttribute, other: ColorAttribute) -> bool
    ensures { result ≡ color_eq color other }
{
    color == other
}

// Replaces the last entry, a clear to the end of the line, by a clear to the end of the screen.
fn clear_below<'a>(
    mut drawn: Penned<'a>,
    attrs: &'a CellAttributes,
) -> Result<Penned<'a>, AllocError>
    ensures { IfOk result (λ cleared.
        penned_value cleared
        ≡ record {
          entries = spec.front_of (penned_value drawn.entry).entries
              ++ change.ClearToEndOfScreen attrs.now.background ∷ [];
          pen = attrs.now;
        }) }
{
    drop_last(&mut drawn.entries);
    drawn
        .entries
        .push(Change::ClearToEndOfScreen(attrs.background()))?;
    drawn.pen = attrs;
    Ok(drawn)
}

// Writes the entries of the rows `from..to`.
fn write_rows<'a>(
    writer: &mut RowWriter<'a>,
    rows: &'a VecDeque<Line>,
    width: usize,
    padding: &'a Cell,
    from: usize,
    to: usize,
) -> Result<(), AllocError>
    requires before { IsBeforeRow from writer.old }
    requires order { from ≤ to }
    requires within { to ≤ length (cells_of rows.now.items) }
    requires paddable { ArePaddable width (cells_of rows.now.items) }
    requires blank { padding.now ≡ blank }
    ensures before { OnOk result (IsBeforeRow to writer.new) }
    ensures upto { OnOk result (
        (first : List ChangeValue) →
        IsWrittenUpto first width (map (row_of width) (cells_of rows.now.items)) from writer.old →
        IsWrittenUpto first width (map (row_of width) (cells_of rows.now.items)) to writer.new) }
{
    for i in from..to {
        push_next_line(writer, i)?;
        write_row(writer, &rows[i], width, padding)?;
        expect_rows(writer, i, rows.len());
    }
    Ok(())
}

// After the first row, reserves room for `count` rows like it: then the list usually grows only
// once.
fn expect_rows(writer: &mut RowWriter<'_>, i: usize, count: usize)
    ensures { writer.new ≡ writer.old }
{
    if i == 0 {
        writer.reserve_rows(count);
    }
}

// Writes the entries of a row, up to the width.
fn write_row<'a>(
    writer: &mut RowWriter<'a>,
    row: &'a Line,
    width: usize,
    padding: &'a Cell,
) -> Result<(), AllocError>
    requires between { writer.old.spaces ≡ 0 }
    requires apart { last_is is_text writer.old.printed.entries ≡ false }
    requires paddable { IsPaddable width row.now.cells }
    requires blank { padding.now ≡ blank }
    ensures row { OnOk result (
        writer.new.printed
        ≡ behind writer.old.printed.entries (line.row_entries writer.old.printed.pen
        (visible_upto (row_of width row.now.cells) width))) }
    ensures between { OnOk result (writer.new.spaces ≡ 0) }
{
    let blanks = width - row.len();
    writer.row(row.visible_cells(), blanks, padding.attrs())?;
    Ok(())
}

// Appends a move to row i, unless it is the first.
fn push_next_line(writer: &mut RowWriter<'_>, i: usize) -> Result<(), AllocError>
    ensures printed { OnOk result (
        writer.new.printed
        ≡ record writer.old.printed {
          entries = writer.old.printed.entries
              ++ (if i == 0 then [] else spec.next_line ∷ []);
        }) }
    ensures spaces { writer.new.spaces ≡ writer.old.spaces }
{
    if i != 0 {
        writer.push(Change::CursorPosition {
            x: Position::Absolute(0),
            y: Position::Relative(1),
        })?;
    }
    Ok(())
}

/// What was drawn without the moves at its end, followed by the cursor, the pen, and, for a visible
/// cursor, its visibility and shape.
pub fn framed(
    drawn: Penned<'_>,
    x: usize,
    y: usize,
    visibility: CursorVisibility,
    shape: Option<CursorShape>,
    pen: &CellAttributes,
) -> Result<Vec<Change>, AllocError>
    ensures { IfOk result (λ entries. (first : List ChangeValue) (d : line.Penned) (s : Screen) →
        penned_value drawn.entry ≡ behind (spec.started_entries ++ first) d → s.x ≡ x → s.y ≡ y →
        s.visibility ≡ visibility → s.pen ≡ pen.now →
        map change_value entries.items
        ≡ spec.repaint_of first d s (spec.shown_entries s.visibility shape)) }
{
    let mut entries = placed(drawn, x, y, pen)?;
    push_visible(&mut entries, visibility, shape)?;
    Ok(entries)
}

// What was drawn without the moves at its end, followed by the cursor and the pen.
fn placed(
    drawn: Penned<'_>,
    x: usize,
    y: usize,
    pen: &CellAttributes,
) -> Result<Vec<Change>, AllocError>
    ensures { IfOk result (λ entries. (first : List ChangeValue) (d : line.Penned) (s : Screen) →
        penned_value drawn.entry ≡ behind (spec.started_entries ++ first) d → s.x ≡ x → s.y ≡ y →
        s.pen ≡ pen.now → let es = spec.without_last_moves (first ++ d.entries) in
        map change_value entries.items
        ≡ ((spec.started_entries ++ es) ++ spec.cursor_entry es s.x s.y)
        ++ line.pen_entry d.pen s.pen) }
{
    let Penned {
        mut entries,
        pen: last,
    } = drawn;
    drop_last_moves(&mut entries);
    let nothing = is_started_alone(entries.as_slice());
    push_cursor(&mut entries, nothing, x, y)?;
    push_pen(&mut entries, last, pen)?;
    Ok(entries)
}

// Whether there are only the first two entries.
fn is_started_alone(entries: &[Change]) -> bool
    ensures { (es : List ChangeValue) → map change_value entries.now ≡ spec.started_entries ++ es →
        result ≡ spec.is_nil es }
{
    entries.len() == 2
}

// Appends a pen, unless it equals the old one.
fn push_pen(
    entries: &mut Vec<Change>,
    old: &CellAttributes,
    new: &CellAttributes,
) -> Result<(), AllocError>
    ensures { OnOk result (
        map change_value entries.new.items
        ≡ map change_value entries.old.items ++ line.pen_entry old.now new.now) }
{
    if *old == *new {
        return Ok(());
    }
    entries.push(Change::AllAttributes(new.clone()?))?;
    Ok(())
}

// Appends a move to the cursor, unless nothing follows the first two entries and the cursor is at
// column 0 of row 0.
fn push_cursor(
    entries: &mut Vec<Change>,
    nothing: bool,
    x: usize,
    y: usize,
) -> Result<(), AllocError>
    ensures { OnOk result (
        map change_value entries.new.items
        ≡ map change_value entries.old.items
        ++ (if nothing && (x == 0 && y == 0) then [] else cursor_at x y ∷ [])) }
{
    if nothing && (x == 0 && y == 0) {
        return Ok(());
    }
    entries.push(Change::CursorPosition {
        x: Position::Absolute(x),
        y: Position::Absolute(y),
    })?;
    Ok(())
}

fn drop_last_moves(entries: &mut Vec<Change>)
    ensures { map change_value entries.new.items
        ≡ spec.without_last_moves (map change_value entries.old.items) }
{
    while ends_with_move(entries.as_slice()) {
        drop_last(entries);
    }
}

fn drop_last(entries: &mut Vec<Change>)
    ensures { map change_value entries.new.items
        ≡ spec.front_of (map change_value entries.old.items) }
{
    let _ = entries.pop();
}

fn ends_with_move(entries: &[Change]) -> bool
    ensures { result ≡ last_is spec.is_move (map change_value entries.now) }
{
    match entries.last() {
        Some(last) => is_move(last),
        None => false,
    }
}

fn is_move(entry: &Change) -> bool
    ensures { result ≡ spec.is_move (change_value entry.now) }
{
    matches!(entry, Change::CursorPosition { .. })
}

// Appends a visible cursor, and its shape.
fn push_visible(
    entries: &mut Vec<Change>,
    visibility: CursorVisibility,
    shape: Option<CursorShape>,
) -> Result<(), AllocError>
    ensures { OnOk result (
        map change_value entries.new.items
        ≡ map change_value entries.old.items ++ spec.shown_entries visibility shape) }
{
    if visibility == CursorVisibility::Visible {
        entries.push(Change::CursorVisibility(CursorVisibility::Visible))?;
        push_shape(entries, shape)?;
    }
    Ok(())
}

// Appends the cursor's shape, if one was set.
fn push_shape(entries: &mut Vec<Change>, shape: Option<CursorShape>) -> Result<(), AllocError>
    ensures { OnOk result (
        map change_value entries.new.items
        ≡ map change_value entries.old.items ++ spec.shape_entry shape) }
{
    if let Some(shape) = shape {
        entries.push(Change::CursorShape(shape))?;
    }
    Ok(())
}
