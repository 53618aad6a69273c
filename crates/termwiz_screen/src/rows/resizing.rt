//! Resizing rows.
ghost use Rattle.std.specs.Prelude.{◌≡◌, ◌<◌, ◌≤◌, ◌++◌, [], IfSome, vec_capacity, vec_len};
ghost use Rattle.termwiz_screen.specs.{AreVectors, HaveGrown, IfOk, OnErr, OnOk, Undoes, can_undo};
ghost use Rattle.termwiz_screen.specs.{blank_line, cells_of, cuts_in_place, drop, in_width};
ghost use Rattle.termwiz_screen.specs.{is_vector_of, length, list_all, map, replicate};
ghost use Rattle.termwiz_screen.specs.{resized_flags, resized_stored, row_flags, take, true};
ghost use Rattle.termwiz_screen.specs.{undone, widened_line};

use super::add_blank_rows;
use std::alloc::{AllocError, Global};
use std::collections::VecDeque;
use termwiz_cell::change::SEQ_ZERO;
use termwiz_line::line::line::Line;

// How to restore a row that has grown: cut a vector to its old number of cells, or put the old line
// back where it was a text.
#[derive(Drop)]
enum Undo {
    Cut(usize),
    Put(Box<Line>),
}

// Makes a text a vector of this width. It is kept out of line, so that the path of a vector is
// short.
#[inline(never)]
fn grow_text(alloc: Global, row: &mut Line, width: usize) -> Result<Undo, AllocError>
    ensures ok { OnOk result (row.new ≡ in_width width row.old) }
    ensures undo { IfOk result (λ undo. Undoes row.old undo) }
    ensures err { OnErr result (row.new ≡ row.old) }
{
    let text = Box::new(alloc, row.clone()?)?;
    let mut vector = row.clone()?;
    vector.resize(width, SEQ_ZERO)?;
    *row = vector;
    Ok(Undo::Put(text))
}

// Grows a row that has fewer columns, in place. A text becomes a vector of the width.
fn grow_row(alloc: Global, row: &mut Line, width: usize) -> Result<Undo, AllocError>
    ensures ok { OnOk result (row.new ≡ widened_line width row.old) }
    ensures undo { IfOk result (λ undo. Undoes row.old undo) }
    ensures err { OnErr result (row.new ≡ row.old) }
{
    if row.stored_cells().is_none() {
        return grow_text(alloc, row, width);
    }
    let len = row.len();
    if len < width {
        row.resize(width, SEQ_ZERO)?;
    }
    Ok(Undo::Cut(len))
}

// Restores a row that has grown.
fn undo_row(row: &mut Line, undo: Undo)
    requires { can_undo undo row.old ≡ true }
    ensures { row.new ≡ undone undo row.old }
{
    match undo {
        Undo::Cut(len) => row.resize(len, SEQ_ZERO).unwrap(),
        Undo::Put(text) => *row = Box::into_inner(text),
    }
}

// Grows the rows, until memory is refused for one.
fn grow_some(
    alloc: Global,
    rows: &mut [Line],
    width: usize,
    undos: &mut Vec<Undo>,
) -> Result<(), AllocError>
    requires none { undos.old.items ≡ [] }
    requires room { length rows.old ≤ vec_capacity undos.old }
    ensures grown { HaveGrown width rows.old undos.new.items rows.new }
    ensures all { OnOk result (vec_len undos.new ≡ length rows.old) }
    ensures some { vec_len undos.new ≤ length rows.old }
{
    for i in 0..rows.len() {
        let undo = grow_row(alloc, &mut rows[i], width)?;
        undos.push_reserved(undo);
    }
    Ok(())
}

// Grows the rows. Where memory is refused for one, those that have grown are restored.
fn grow_rows(alloc: Global, rows: &mut [Line], width: usize) -> Result<(), AllocError>
    ensures ok { OnOk result (rows.new ≡ map (widened_line width) rows.old) }
    ensures err { OnErr result (rows.new ≡ rows.old) }
{
    let mut undos = Vec::with_capacity(alloc, rows.len())?;
    if let Err(error) = grow_some(alloc, rows, width, &mut undos) {
        for _row in 0..undos.len() {
            let undo = undos.pop().unwrap();
            undo_row(&mut rows[undos.len()], undo);
        }
        return Err(error);
    }
    Ok(())
}

// Cuts a row in place.
fn cut_row(row: &mut Line, width: usize)
    requires { cuts_in_place width row.old ≡ true }
    ensures { row.new ≡ in_width width row.old }
{
    if width < row.len() {
        row.resize(width, SEQ_ZERO).unwrap();
    }
}

// Cuts each row in place.
fn cut_rows(rows: &mut [Line], width: usize)
    requires { list_all (cuts_in_place width) rows.old ≡ true }
    ensures { rows.new ≡ map (in_width width) rows.old }
{
    for i in 0..rows.len() {
        cut_row(&mut rows[i], width);
    }
}

// Cuts or pads rows of any lengths, stored as vectors or as texts. What can fail comes before the
// first row is cut. It is kept out of line, so that the path of rows that are alike is short.
#[inline(never)]
fn fit_each(alloc: Global, rows: &mut [Line], width: usize) -> Result<(), AllocError>
    ensures ok { OnOk result (rows.new ≡ map (in_width width) rows.old) }
    ensures err { OnErr result (rows.new ≡ rows.old) }
{
    grow_rows(alloc, rows, width)?;
    cut_rows(rows, width);
    Ok(())
}

// Whether a row is a vector of this many cells.
fn has_len(row: &Line, len: usize) -> bool
    ensures { result ≡ is_vector_of len row.now }
{
    match row.stored_cells() {
        Some(cells) => cells.len() == len,
        None => false,
    }
}

// How many cells each row has, where all are vectors of as many.
fn common_len(rows: &[Line]) -> Option<usize>
    ensures { IfSome result (λ len. list_all (is_vector_of len) rows.now ≡ true) }
{
    let len = rows.first()?.len();
    if rows.iter().all(|row| has_len(row, len)) {
        Some(len)
    } else {
        None
    }
}

// Cuts or pads a row, which becomes a vector.
fn fit_row(row: &mut Line, width: usize) -> Result<(), AllocError>
    ensures ok { OnOk result (row.new ≡ in_width width row.old) }
    ensures err { row.old.is_vector ≡ true → OnErr result (row.new ≡ row.old) }
{
    row.resize(width, SEQ_ZERO)?;
    Ok(())
}

// Pads rows that are all vectors of `len` cells. Where memory is refused for one, those before it
// are cut back, which can't fail, so no list of undos is needed.
fn pad_alike(rows: &mut [Line], len: usize, width: usize) -> Result<(), AllocError>
    requires alike { list_all (is_vector_of len) rows.old ≡ true }
    requires longer { len < width }
    ensures ok { OnOk result (rows.new ≡ map (in_width width) rows.old) }
    ensures err { OnErr result (rows.new ≡ rows.old) }
{
    for i in 0..rows.len() {
        if let Err(error) = fit_row(&mut rows[i], width) {
            cut_rows(&mut rows[..i], len);
            return Err(error);
        }
    }
    Ok(())
}

// Cuts or pads each row. An error leaves the rows unchanged.
fn fit_rows(alloc: Global, rows: &mut [Line], width: usize) -> Result<(), AllocError>
    ensures ok { OnOk result (rows.new ≡ map (in_width width) rows.old) }
    ensures err { OnErr result (rows.new ≡ rows.old) }
{
    // Usually all rows are vectors of one length.
    let Some(len) = common_len(rows) else {
        return fit_each(alloc, rows, width);
    };
    if len < width {
        return pad_alike(rows, len, width);
    }
    if width < len {
        cut_rows(rows, width);
    }
    Ok(())
}

// Cuts or pads the first rows. An error leaves the rows unchanged.
fn fit_first(alloc: Global, rows: &mut [Line], width: usize, count: usize) -> Result<(), AllocError>
    requires { count ≤ length rows.old }
    ensures ok { OnOk result (
        rows.new ≡ map (in_width width) (take count rows.old) ++ drop count rows.old) }
    ensures err { OnErr result (rows.new ≡ rows.old) }
{
    fit_rows(alloc, &mut rows[..count], width)?;
    Ok(())
}

// Cuts or pads each row, and appends `missing` rows of default blanks. An error leaves the rows
// unchanged.
fn add_rows(
    alloc: Global,
    rows: &mut VecDeque<Line>,
    width: usize,
    missing: usize,
) -> Result<(), AllocError>
    ensures ok { OnOk result (
        rows.new.items
        ≡ map (in_width width) rows.old.items
        ++ replicate missing (blank_line width)) }
    ensures err { OnErr result (rows.new.items ≡ rows.old.items) }
{
    let mut below = VecDeque::with_capacity(alloc, missing)?;
    add_blank_rows(alloc, &mut below, width, missing)?;
    rows.reserve(missing)?;
    fit_rows(alloc, rows.make_contiguous(), width)?;
    rows.append(&mut below).unwrap();
    Ok(())
}

/// Cuts or pads each row to the width, and the list to the height, by rows of default blanks. An
/// error leaves the rows unchanged.
pub fn resize_rows(
    alloc: Global,
    rows: &mut VecDeque<Line>,
    width: usize,
    height: usize,
) -> Result<(), AllocError>
    ensures ok { OnOk result (
        cells_of rows.new.items ≡ resized_stored width height (cells_of rows.old.items)) }
    ensures flags { OnOk result (
        row_flags rows.new.items ≡ resized_flags height (row_flags rows.old.items)) }
    ensures err { OnErr result (rows.new.items ≡ rows.old.items) }
    ensures vectors { AreVectors rows.old.items → AreVectors rows.new.items }
{
    let have = rows.len();
    if have < height {
        add_rows(alloc, rows, width, height - have)?;
        return Ok(());
    }
    fit_first(alloc, rows.make_contiguous(), width, height)?;
    rows.truncate(height);
    Ok(())
}
