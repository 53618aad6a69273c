//! Lists of cells: pad, copy, overwrite and cut them, without inspecting cells that own no memory.
ghost use Rattle.std.specs.Prelude.{◌≡◌, ◌↔◌, ◌<◌, ◌≤◌, ◌+◌, ◌*◌, ◌++◌, ◌∷◌, [], map, vec_capacity};
ghost use Rattle.termwiz_storage.specs.{AreLetters, OwnNothing, is_plain, owns_memory, put_letters};
ghost use Rattle.termwiz_storage.specs.{IfOk, IsOk, IsTrue, OnOk, chars, false, length, padded};
ghost use Rattle.termwiz_storage.specs.{IsBlanked, OnErr, list_all, needs_box, plain_cell, vec_len};
ghost use Rattle.termwiz_storage.specs.{put_run, replicate, take, true};

use std::alloc::{AllocError, Global};
use std::mem;
use termwiz_cell::cell::{Cell, CellAttributes};
use termwiz_cell::hyperlink::LinkCopies;
use termwiz_text::{letter_at, letter_count};

// Pads with default blanks. It is kept out of line, so that the path of a list that is long enough
// is short.
#[inline(never)]
pub(super) fn pad_cells(cells: &mut Vec<Cell>, len: usize) -> Result<(), AllocError>
    ensures ok { OnOk result (cells.new.items ≡ padded len cells.old.items) }
    ensures err { OnErr result (cells.new.items ≡ cells.old.items) }
    ensures succeeds { len ≤ vec_capacity cells.old → IsOk result }
    ensures capacity { vec_capacity cells.old ≤ vec_capacity cells.new }
{
    let have = cells.len();
    if have < len {
        cells.reserve(len - have)?;
        // A local list is filled faster than one that a reference points to.
        let none = Vec::new(*cells.allocator());
        let own = mem::replace(cells, none);
        *cells = with_blanks(own, len);
    }
    Ok(())
}

// Pads with default blanks, for which the list has room. Where one is missing, as where a line gets
// a column, it is appended without a call.
#[inline(always)]
pub(super) fn pad_in_room(cells: &mut Vec<Cell>, len: usize)
    requires { len ≤ vec_capacity cells.old }
    ensures { cells.new.items ≡ padded len cells.old.items }
{
    if cells.len() + 1 == len {
        cells.push_reserved(Cell::blank());
    } else {
        pad_cells(cells, len).unwrap();
    }
}

// Pads with default blanks. The list has room for them.
fn with_blanks(cells: Vec<Cell>, len: usize) -> Vec<Cell>
    requires longer { vec_len cells ≤ len }
    requires room { len ≤ vec_capacity cells }
    ensures items { result.items ≡ padded len cells.items }
    ensures capacity { vec_capacity result ≡ vec_capacity cells }
{
    let have = cells.len();
    let mut cells = cells;
    for _ in have..len {
        cells.push_reserved(Cell::blank());
    }
    cells
}

// Whether no cell owns memory.
pub(super) fn own_nothing(cells: &[Cell]) -> bool
    ensures { IsTrue result ↔ OwnNothing cells.now }
{
    cells.iter().all(|cell| !cell.owns_memory())
}

// Gives the cells links of their own. Each stays as it is, even after an error.
pub(super) fn own_links(
    alloc: Global,
    cells: &mut [Cell],
    copies: &mut LinkCopies,
) -> Result<(), AllocError>
    ensures { cells.new ≡ cells.old }
{
    for cell in cells.iter_mut() {
        cell.attrs_mut().own_link(alloc, copies)?;
    }
    Ok(())
}

// Copies of cells, with room for `room` cells. Those that own no memory are copied without a call.
pub(super) fn copied_cells(
    alloc: Global,
    cells: &[Cell],
    room: usize,
    owns: bool,
) -> Result<Vec<Cell>, AllocError>
    requires room { length cells.now ≤ room }
    requires unowned { owns ≡ false → OwnNothing cells.now }
    ensures { IfOk result (λ copy. copy.items ≡ cells.now) }
{
    let mut copy = Vec::with_capacity(alloc, room)?;
    if owns {
        VecCloneMethods::extend_from_slice(&mut copy, cells)?;
        return Ok(copy);
    }
    Ok(with_short_copies(copy, cells))
}

// Appends copies of cells that own no memory. The list has room for them. An iteration copies four,
// to keep the overhead of the loop low.
fn with_short_copies(list: Vec<Cell>, cells: &[Cell]) -> Vec<Cell>
    requires unowned { OwnNothing cells.now }
    requires room { vec_len list + length cells.now ≤ vec_capacity list }
    ensures { result.items ≡ list.items ++ cells.now }
{
    let mut list = list;
    let mut rest = cells;
    'fours: while let [a, b, c, d, more @ ..] = rest {
        list = with_short_copy(list, a);
        list = with_short_copy(list, b);
        list = with_short_copy(list, c);
        list = with_short_copy(list, d);
        rest = more;
    }
    for cell in rest {
        list = with_short_copy(list, cell);
    }
    list
}

// Appends a copy of a cell that owns no memory. The list has room for it.
#[inline(always)]
fn with_short_copy(list: Vec<Cell>, cell: &Cell) -> Vec<Cell>
    requires unowned { owns_memory cell.now ≡ false }
    requires room { vec_len list < vec_capacity list }
    ensures items { result.items ≡ list.items ++ cell.now ∷ [] }
    ensures len { vec_len result ≡ vec_len list + 1 }
    ensures capacity { vec_capacity result ≡ vec_capacity list }
{
    let mut list = list;
    list.push_reserved(cell.short_copy().unwrap());
    list
}

// Replaces a cell, which is dropped only where it may own memory.
#[inline(always)]
fn overwrite(place: &mut Cell, cell: Cell, owns: bool)
    requires { owns ≡ false → owns_memory place.old ≡ false }
    ensures { place.new ≡ cell }
{
    let old = mem::replace(place, cell);
    if !owns {
        mem::forget(old);
    }
}

// Cuts the list to at most this many cells. The others are dropped only where they may own memory.
pub(super) fn cut(cells: &mut Vec<Cell>, len: usize, owns: bool)
    requires { owns ≡ false → OwnNothing cells.old.items }
    ensures { cells.new.items ≡ take len cells.old.items }
{
    if owns {
        cells.truncate(len);
        return;
    }
    while cells.len() > len {
        if let Some(cell) = cells.pop() {
            mem::forget(cell);
        }
    }
}

// Overwrites as many cells with those of the run.
pub(super) fn put_cells(cells: &mut [Cell], run: &[u8], attrs: &CellAttributes, owns: bool)
    requires plain { list_all is_plain run.now ≡ true }
    requires unboxed { needs_box attrs.now ≡ false }
    requires unowned { owns ≡ false → OwnNothing cells.old }
    requires len { length cells.old ≡ length run.now }
    ensures { cells.new ≡ map (λ b. plain_cell b attrs.now) run.now }
{
    // So neither loop tests `owns` for each cell.
    if owns {
        overwrite_by_run(cells, run, attrs, true);
    } else {
        overwrite_by_run(cells, run, attrs, false);
    }
}

#[inline(always)]
fn overwrite_by_run(cells: &mut [Cell], run: &[u8], attrs: &CellAttributes, owns: bool)
    requires plain { list_all is_plain run.now ≡ true }
    requires unboxed { needs_box attrs.now ≡ false }
    requires unowned { owns ≡ false → OwnNothing cells.old }
    requires len { length cells.old ≡ length run.now }
    ensures { cells.new ≡ map (λ b. plain_cell b attrs.now) run.now }
{
    let own = attrs.unboxed_copy().unwrap();
    for k in 0..run.len() {
        let copy = own.unboxed_copy().unwrap();
        overwrite(&mut cells[k], Cell::plain(run[k], copy), owns);
    }
}

// Overwrites `count` cells from column `from` on with the cell of one character.
pub(super) fn put_copies(
    cells: &mut [Cell],
    from: usize,
    count: usize,
    byte: u8,
    attrs: &CellAttributes,
    owns: bool,
)
    requires plain { is_plain byte ≡ true }
    requires unboxed { needs_box attrs.now ≡ false }
    requires unowned { owns ≡ false → OwnNothing cells.old }
    requires room { from + count ≤ length cells.old }
    ensures { cells.new ≡ put_run from (replicate count byte) attrs.now cells.old }
{
    if byte == b' ' && !owns {
        return put_blanks(cells, from, count, attrs);
    }
    let own = attrs.unboxed_copy().unwrap();
    for k in 0..count {
        let copy = own.unboxed_copy().unwrap();
        overwrite(&mut cells[from + k], Cell::plain(byte, copy), owns);
    }
}

// Overwrites cells that own no memory with blanks, whose text is a constant.
fn put_blanks(cells: &mut [Cell], from: usize, count: usize, attrs: &CellAttributes)
    requires unboxed { needs_box attrs.now ≡ false }
    requires unowned { OwnNothing cells.old }
    requires room { from + count ≤ length cells.old }
    ensures { cells.new ≡ put_run from (replicate count 32) attrs.now cells.old }
{
    let own = attrs.unboxed_copy().unwrap();
    for k in 0..count {
        let copy = own.unboxed_copy().unwrap();
        overwrite(&mut cells[from + k], Cell::blank_with_attrs(copy), false);
    }
}

// Overwrites the first cells with those of the letters and their halves.
pub(super) fn put_letter_cells(
    alloc: Global,
    cells: &mut [Cell],
    run: &str,
    attrs: &CellAttributes,
    owns: bool,
)
    requires letters { AreLetters run.now }
    requires unboxed { needs_box attrs.now ≡ false }
    requires unowned { owns ≡ false → OwnNothing cells.old }
    requires room { 2 * length (chars run.now) ≤ length cells.old }
    ensures { cells.new ≡ put_letters 0 (chars run.now) attrs.now cells.old }
{
    // So neither loop tests `owns` for each cell.
    if owns {
        overwrite_by_letters(alloc, cells, run, attrs, true);
    } else {
        overwrite_by_letters(alloc, cells, run, attrs, false);
    }
}

#[inline(always)]
fn overwrite_by_letters(
    alloc: Global,
    cells: &mut [Cell],
    run: &str,
    attrs: &CellAttributes,
    owns: bool,
)
    requires letters { AreLetters run.now }
    requires unboxed { needs_box attrs.now ≡ false }
    requires unowned { owns ≡ false → OwnNothing cells.old }
    requires room { 2 * length (chars run.now) ≤ length cells.old }
    ensures { cells.new ≡ put_letters 0 (chars run.now) attrs.now cells.old }
{
    let own = attrs.unboxed_copy().unwrap();
    for k in 0..letter_count(run) {
        let copy = own.unboxed_copy().unwrap();
        let cell = Cell::new_grapheme_with_width(alloc, letter_at(run, k), 2, copy).unwrap();
        let copy = own.unboxed_copy().unwrap();
        overwrite(&mut cells[2 * k + 1], Cell::blank_with_attrs(copy), owns);
        overwrite(&mut cells[2 * k], cell, owns);
    }
}

// Makes the cells in the columns `from..to` default blanks.
#[inline(always)]
pub(super) fn blank_cells(cells: &mut [Cell], from: usize, to: usize, owns: bool)
    requires range { to ≤ length cells.old }
    requires unowned { owns ≡ false → OwnNothing cells.old }
    ensures { IsBlanked from to cells.old cells.new }
{
    for i in from..to {
        overwrite(&mut cells[i], Cell::blank(), owns);
    }
}
