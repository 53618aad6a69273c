//! Sequences of changes, which report where their changes move a cursor.
ghost use Rattle.std.specs.Prelude.{◌≡◌, ◌+◌, ◌+ℤ◌, ◌-ℤ◌, ◌≤ℤ◌, ◌<◌, ◌≤◌, ◌^◌, ◌∷◌, ◌++◌, [], IfOk};
ghost use Rattle.termwiz_cell.specs.{AddsAll, AddsOne, DistancesFit, FitsSigned, IfErr, IsSequence};
ghost use Rattle.termwiz_cell.specs.{MovesTo, OnErr, OnOk, Range, RowFits, SequenceValue, aim, map};
ghost use Rattle.termwiz_cell.specs.{bytes_eq, cell_place, change_value, false, grapheme_place, ℤ};
ghost use Rattle.termwiz_cell.specs.{graphemes, int_rem, int_rem_euclid, is_text, measure, move_by};
ghost use Rattle.termwiz_cell.specs.{place_after, pos, position_place, printed_columns, text_place};
ghost use Rattle.termwiz_cell.specs.{true, w64};

use super::{Change, Position};
use crate::emoji::Widths;
use std::alloc::{AllocError, Global};
use std::marker::Model;
use termwiz_text::split_first_grapheme;
use thiserror::Error;

/// Why a sequence refuses a change. The first applicable error is returned, in this order.
#[derive(Debug, Drop, Clone, Copy, PartialEq, Eq, Error)]
pub enum SequenceError {
    /// Error 1: a text moves the cursor's row past the greatest `isize`, or the distance of a move
    /// doesn't fit an `isize`.
    #[error("a row or a distance is out of range")]
    Range,
    /// Error 2: memory was refused.
    #[error("out of memory")]
    Memory,
}

impl From<AllocError> for SequenceError {
    ghost use Rattle.termwiz_cell.specs.declared.change.sequence.SequenceError.TheVariants.{Memory};

    ghost from_gives = { λ _ error. error ≡ Memory };

    fn from(_error: AllocError) -> SequenceError {
        SequenceError::Memory
    }
}

/// A growing list of changes, which reports where its changes move a cursor, and the height of the
/// rows that the cursor was in.
///
/// It is for a program that doesn't own the whole screen, such as a line editor, whose output
/// begins wherever the cursor is. So rows are numbered from there: the cursor begins at column 0 of
/// row 0, and rows above that one are negative. Nothing scrolls, and the rows have no end.
///
/// A text moves the cursor's column as on a surface of as many columns with the same width value.
#[derive(Drop)]
pub struct ChangeSequence<W: Widths> {
    widths: W,
    rows: usize,
    columns: usize,
    x: usize,
    y: isize,
    least: isize,
    greatest: isize,
    changes: Vec<Change>,
}

impl<W: Widths> Model for ChangeSequence<W> {
    ghost use Rattle.std.specs.Prelude.{map};
    ghost use Rattle.termwiz_cell.specs.ChangeValue.{change_value};
    ghost use Rattle.termwiz_cell.specs.Sequence.{IsSequence, SequenceValue};

    ghost Value = { SequenceValue W };

    ghost view = { λ s.
        record {
          widths = s.widths;
          rows = s.rows;
          columns = s.columns;
          cursor = (s.x, s.y);
          least = s.least;
          greatest = s.greatest;
          changes = map change_value s.changes.items;
        } };

    ghost invariant = { λ s.
        IsSequence (record {
          widths = s.widths;
          rows = s.rows;
          columns = s.columns;
          cursor = (s.x, s.y);
          least = s.least;
          greatest = s.greatest;
          changes = map change_value s.changes.items;
        }) };
}

// The columns of the cell that a grapheme prints.
#[tactic(auto, using(crate::proofs::Graphemes::single_same, crate::proofs::Graphemes::alone_some))]
fn columns_of<W: Widths>(widths: &W, grapheme: &str) -> usize
    requires alone { graphemes true grapheme.now ≡ grapheme.now ∷ [] }
    requires no_break { bytes_eq grapheme.now (13 ∷ 10 ∷ []) ≡ false }
    ensures { result ≡ printed_columns (measure W.width_of widths.now) grapheme.now }
{
    match grapheme.as_bytes() {
        [byte] if *byte < 0x20 || *byte == 0x7f => 1,
        _ => widths.width(grapheme, None).max(1),
    }
}

// Where a cell of this width moves a cursor.
fn after_cell(columns: usize, at: (usize, i128), width: usize) -> (usize, i128)
    requires column { at.0 ≤ columns }
    requires few { columns < 2 ^ 32 }
    requires narrow { width ≤ 2 }
    requires row { at.1 ≤ℤ pos (2 ^ 65) }
    ensures place { result ≡ cell_place columns at width }
    ensures column { result.0 ≤ columns }
    ensures row { result.1 ≤ℤ (at.1 +ℤ pos 1) }
{
    let (x, y) = at;
    if x == columns {
        (width.min(columns), y + 1)
    } else {
        ((x + width).min(columns), y)
    }
}

// Where a grapheme moves a cursor.
fn after_grapheme<W: Widths>(
    widths: &W,
    columns: usize,
    at: (usize, i128),
    grapheme: &str,
) -> (usize, i128)
    requires alone { graphemes true grapheme.now ≡ grapheme.now ∷ [] }
    requires column { at.0 ≤ columns }
    requires few { columns < 2 ^ 32 }
    requires row { at.1 ≤ℤ pos (2 ^ 65) }
    ensures place { result
        ≡ grapheme_place (measure W.width_of widths.now) columns at grapheme.now }
    ensures column { result.0 ≤ columns }
    ensures row { result.1 ≤ℤ (at.1 +ℤ pos 1) }
{
    let (x, y) = at;
    match grapheme.as_bytes() {
        [b'\r'] => (0, y),
        [b'\n'] => (x, y + 1),
        [b'\r', b'\n'] => (0, y + 1),
        _ => after_cell(columns, at, columns_of(widths, grapheme)),
    }
}

// Where a text moves a cursor.
fn after_text<W: Widths>(widths: &W, columns: usize, x: usize, y: i128, text: &str) -> (usize, i128)
    requires column { x ≤ columns }
    requires few { columns < 2 ^ 32 }
    requires row { y ≤ℤ pos (2 ^ 63) }
    ensures place { result
        ≡ text_place (measure W.width_of widths.now) columns (x, y) text.now }
    ensures column { result.0 ≤ columns }
    ensures row { result.1 ≤ℤ pos (2 ^ 65) }
{
    let mut at = (x, y);
    let mut rest = text;
    'graphemes: while let Some((grapheme, behind)) = split_first_grapheme(rest) {
        at = after_grapheme(widths, columns, at, grapheme);
        rest = behind;
    }
    at
}

// The column or row that a position asks for, from a current one, of `count` columns or rows.
fn aim_at(position: Position, from: i128, count: usize) -> i128
    requires few { count < 2 ^ 32 }
    requires low { (pos 0 -ℤ pos (2 ^ 64)) ≤ℤ from }
    requires high { from ≤ℤ pos (2 ^ 64) }
    ensures { result ≡ aim position from count }
{
    match position {
        Position::Relative(distance) => from + distance as i128,
        Position::Absolute(place) => place as i128,
        Position::EndRelative(distance) => count as i128 - distance as i128,
    }
}

fn column_of(aim: i128, columns: usize) -> usize
    requires some { 0 < columns }
    ensures value { pos result ≡ int_rem_euclid aim (pos columns) }
    ensures inside { result < columns }
{
    aim.rem_euclid(columns as i128) as usize
}

fn row_of(aim: i128, rows: usize) -> isize
    requires some { 0 < rows }
    requires few { rows < 2 ^ 32 }
    ensures { result ≡ int_rem aim (pos rows) }
{
    (aim % rows as i128) as isize
}

// A row or a distance, or `Range` where it doesn't fit an `isize`.
fn in_range(value: i128) -> Result<isize, SequenceError>
    ensures ok { IfOk result (λ same. same ≡ value) }
    ensures fits { OnOk result (FitsSigned w64 value) }
    ensures err { IfErr result (λ error. (error ≡ Range) × (FitsSigned w64 value → ⊥)) }
{
    isize::try_from(value).map_err(|_| SequenceError::Range)
}

// Appends a change. An error leaves the list unchanged.
fn push(changes: &mut Vec<Change>, change: Change) -> Result<(), AllocError>
    ensures ok { OnOk result (
        map change_value changes.new.items
        ≡ map change_value changes.old.items ++ change_value change ∷ []) }
    ensures err { OnErr result (changes.new.items ≡ changes.old.items) }
{
    changes.push(change)?;
    Ok(())
}

impl<W: Widths> ChangeSequence<W> {
    /// An empty sequence for a screen of this many rows and columns: at least 1 and fewer than 2^32
    /// each.
    pub fn new(alloc: Global, rows: usize, cols: usize, widths: W) -> ChangeSequence<W>
        requires some_row { 0 < rows }
        requires few_rows { rows < 2 ^ 32 }
        requires some_column { 0 < cols }
        requires few_columns { cols < 2 ^ 32 }
        ensures { result
            ≡ record {
              widths = widths;
              rows = rows;
              columns = cols;
              cursor = (0, pos 0);
              least = pos 0;
              greatest = pos 0;
              changes = [];
            } }
    {
        ChangeSequence {
            widths,
            rows,
            columns: cols,
            x: 0,
            y: 0,
            least: 0,
            greatest: 0,
            changes: Vec::new(alloc),
        }
    }

    /// The changes that were added, in order.
    pub fn consume(self) -> Vec<Change>
        ensures { map change_value result.items ≡ self.changes }
    {
        self.changes
    }

    /// The cursor's column and row. Where a wrap is pending, the column equals the number of
    /// columns. A row above the first is negative.
    pub fn current_cursor_position(&self) -> (usize, isize)
        ensures cursor { result ≡ self.now.cursor }
        // The column is at most the number of columns, and the row between the least and the
        // greatest.
        ensures form { IsSequence self.now }
    {
        (self.x, self.y)
    }

    /// The greatest row minus the least row that the cursor was in, row 0 included: one less than
    /// the number of rows from the one to the other.
    pub fn render_height(&self) -> usize
        ensures { pos result ≡ self.now.greatest -ℤ self.now.least }
    {
        (self.greatest as i128 - self.least as i128) as usize
    }

    // Where a text moves the cursor.
    fn after_text(&self, text: &str) -> Result<(usize, isize), SequenceError>
        ensures ok { IfOk result (λ at.
            at ≡ text_place (measure W.width_of self.now.widths) self.now.columns
            self.now.cursor text.now) }
        ensures column { IfOk result (λ at. at.0 ≤ self.now.columns) }
        ensures err { IfErr result (λ error. (error ≡ Range)
            × (FitsSigned w64 (text_place (measure W.width_of self.now.widths)
            self.now.columns self.now.cursor text.now).1 → ⊥)) }
    {
        let (x, y) = after_text(&self.widths, self.columns, self.x, self.y as i128, text);
        let y = in_range(y)?;
        Ok((x, y))
    }

    // Where a position moves the cursor.
    fn after_position(&self, x: Position, y: Position) -> (usize, isize)
        ensures place { result ≡ position_place self.now.rows self.now.columns self.now.cursor x y }
        ensures column { result.0 ≤ self.now.columns }
    {
        let column = column_of(aim_at(x, self.x as i128, self.columns), self.columns);
        let row = row_of(aim_at(y, self.y as i128, self.rows), self.rows);
        (column, row)
    }

    // Where a change moves the cursor.
    fn after_change(&self, change: &Change) -> Result<(usize, isize), SequenceError>
        ensures ok { IfOk result (λ at.
            at ≡ place_after (measure W.width_of self.now.widths) self.now
            (change_value change.now)) }
        ensures column { IfOk result (λ at. at.0 ≤ self.now.columns) }
        ensures err { IfErr result (λ error. (error ≡ Range)
            × (is_text (change_value change.now) ≡ true)
            × (RowFits (measure W.width_of self.now.widths) self.now
            (change_value change.now) → ⊥)) }
    {
        match change {
            Change::Text(text) => self.after_text(text.as_str()),
            Change::CursorPosition { x, y } => Ok(self.after_position(*x, *y)),
            Change::ClearScreen(_)
            | Change::ScrollRegionUp { .. }
            | Change::ScrollRegionDown { .. } => Ok((0, 0)),
            _ => Ok((self.x, self.y)),
        }
    }

    // The change that moves the cursor to a column and a row.
    fn move_by(&self, place: (usize, isize)) -> Result<Change, SequenceError>
        ensures ok { IfOk result (λ change. DistancesFit self.now place
            × (change_value change ≡ move_by self.now place)) }
        ensures err { IfErr result (λ error. (error ≡ Range) × (DistancesFit self.now place → ⊥)) }
    {
        let (x, y) = place;
        let right = in_range(x as i128 - self.x as i128)?;
        let down = in_range(y as i128 - self.y as i128)?;
        Ok(Change::CursorPosition {
            x: Position::Relative(right),
            y: Position::Relative(down),
        })
    }

    /// Adds a change, and moves the cursor:
    /// - by a text as on a surface, and down by one row at each LF, CR LF and wrap;
    /// - by a position to the remainder of the requested column by the columns, which is never
    ///   negative, and to the remainder of the requested row by the rows, which has the row's sign;
    /// - by a clear of the screen and a scroll to column 0 of row 0, and by other changes not at
    ///   all.
    ///
    /// `Range`: a text moves the row past the greatest `isize`. `Memory`: memory was refused. Both
    /// leave the sequence unchanged.
    pub fn add(&mut self, change: Change) -> Result<(), SequenceError>
        ensures { AddsOne (measure W.width_of self.old.widths) self.old
            (change_value change) result self.new }
    {
        let (x, y) = self.after_change(&change)?;
        push(&mut self.changes, change)?;
        self.x = x;
        self.y = y;
        self.least = self.least.min(y);
        self.greatest = self.greatest.max(y);
        Ok(())
    }

    /// Adds the changes in order. After an error the sequence has those before the refused one.
    pub fn add_changes(&mut self, changes: Vec<Change>) -> Result<(), SequenceError>
        ensures { AddsAll (measure W.width_of self.old.widths) self.old
            (map change_value changes.items) result self.new }
    {
        for change in changes {
            self.add(change)?;
        }
        Ok(())
    }

    /// Adds the change that moves the cursor by the distances from its column and row to these.
    ///
    /// - The cursor moves to this place where the column is less than the columns and the absolute
    ///   value of the row less than the rows, and else to the remainders by these.
    /// - `Range`: a distance doesn't fit an `isize`. `Memory`: memory was refused. Both leave the
    ///   sequence unchanged.
    pub fn move_to(&mut self, place: (usize, isize)) -> Result<(), SequenceError>
        ensures { MovesTo (measure W.width_of self.old.widths) self.old place result
            self.new }
    {
        let change = self.move_by(place)?;
        self.add(change)
    }
}
