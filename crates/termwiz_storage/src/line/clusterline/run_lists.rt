//! Lists of runs: append cells, count them, index one, and iterate over all.
ghost use Rattle.std.specs.Prelude.{◌≡◌, ◌<◌, ◌≤◌, ◌+◌, ◌^◌, ◌++◌, ◌∷◌, [], vec_capacity, vec_len};
ghost use Rattle.termwiz_storage.specs.{AddsAttrs, IfOk, IsTrue, MatchOption, OnErr, OnOk, false};
ghost use Rattle.termwiz_storage.specs.{attrs_of, is_some, length, list_any, map_last, marked};
ghost use Rattle.termwiz_storage.specs.{option_copied, replicate, shape_in, shapes_of, slice_get};

use crate::line::clusterline::runs::{AttrsRun, Shape, ShapeRun};
use crate::line::vecstorage::set_wrapped;
use std::alloc::{AllocError, Global};
use std::marker::Model;
use std::slice;
use termwiz_cell::cell::CellAttributes;
use termwiz_cell::hyperlink::LinkCopies;

impl Clone for AttrsRun {
    ghost use Rattle.termwiz_storage.specs.CellRuns.{same_run};

    ghost is_clone = { same_run };

    fn clone(&self) -> Result<AttrsRun, AllocError> {
        let attrs = self.attrs.clone()?;
        Ok(AttrsRun {
            attrs,
            cells: self.cells,
        })
    }
}

/// Appends `cells` cells of this shape. The list has room for one more run.
pub(super) fn push_shape(runs: &mut Vec<ShapeRun>, shape: Shape, cells: u16)
    requires { vec_len runs.old < vec_capacity runs.old }
    ensures shapes { shapes_of runs.new.items ≡ shapes_of runs.old.items ++ replicate cells shape }
    ensures len { vec_len runs.new ≤ vec_len runs.old + 1 }
    ensures capacity { vec_capacity runs.old ≤ vec_capacity runs.new }
{
    let count = runs.len();
    if count > 0 {
        let last = runs[count - 1];
        if last.bytes == shape.bytes
            && last.one_char == shape.one_char
            && last.wide == shape.wide
            && cells <= u16::MAX - last.cells
        {
            runs[count - 1] = run_of(shape, last.cells + cells);
            return;
        }
    }
    runs.push(run_of(shape, cells)).unwrap();
}

fn run_of(shape: Shape, cells: u16) -> ShapeRun
    ensures { result
        ≡ record {
          bytes = shape.bytes;
          one_char = shape.one_char;
          wide = shape.wide;
          cells = cells;
        } }
{
    ShapeRun {
        bytes: shape.bytes,
        one_char: shape.one_char,
        wide: shape.wide,
        cells,
    }
}

/// Appends runs. The list has room for them.
pub(super) fn append_shapes(runs: &mut Vec<ShapeRun>, more: &[ShapeRun])
    requires { vec_len runs.old + length more.now ≤ vec_capacity runs.old }
    ensures { shapes_of runs.new.items ≡ shapes_of runs.old.items ++ shapes_of more.now }
{
    for run in more {
        push_shape(runs, shape_in(run), run.cells);
    }
}

// The shape of the cells of a run.
fn shape_in(run: &ShapeRun) -> Shape
    ensures { result ≡ shape_in run.now }
{
    Shape {
        bytes: run.bytes,
        one_char: run.one_char,
        wide: run.wide,
    }
}

// Adds `cells` to the count of the last run, if that has these attributes and the sum fits, and
// returns whether it did.
#[inline(always)]
fn lengthen_last(runs: &mut Vec<AttrsRun>, attrs: &CellAttributes, cells: u16) -> bool
    ensures yes { IsTrue result → AddsAttrs runs.old.items cells attrs.now runs.new.items }
    ensures no { result ≡ false → runs.new.items ≡ runs.old.items }
    ensures len { vec_len runs.new ≡ vec_len runs.old }
    ensures capacity { vec_capacity runs.new ≡ vec_capacity runs.old }
{
    let count = runs.len();
    if count > 0 && cells <= u16::MAX - runs[count - 1].cells && runs[count - 1].attrs == *attrs {
        runs[count - 1].cells += cells;
        return true;
    }
    false
}

/// Appends runs. The list has room for them.
pub(super) fn append_attrs(runs: &mut Vec<AttrsRun>, more: Vec<AttrsRun>)
    requires { vec_len runs.old + vec_len more ≤ vec_capacity runs.old }
    ensures { attrs_of runs.new.items ≡ attrs_of runs.old.items ++ attrs_of more.items }
{
    for run in more {
        if !lengthen_last(runs, &run.attrs, run.cells) {
            runs.push(run).unwrap();
        }
    }
}

/// Appends `cells` cells with these attributes, at least one. An error leaves the list unchanged.
#[inline(always)]
pub(super) fn push_attrs(
    runs: &mut Vec<AttrsRun>,
    attrs: &CellAttributes,
    cells: u16,
) -> Result<(), AllocError>
    requires { 0 < cells }
    ensures ok { OnOk result (AddsAttrs runs.old.items cells attrs.now runs.new.items) }
    ensures err { OnErr result (runs.new.items ≡ runs.old.items) }
{
    if lengthen_last(runs, attrs, cells) {
        return Ok(());
    }
    let attrs = attrs.clone()?;
    runs.push(AttrsRun { attrs, cells })?;
    Ok(())
}

// Appends a run of `cells` cells, unless that is 0. The list has room for it.
fn push_run(runs: &mut Vec<AttrsRun>, attrs: CellAttributes, cells: u16)
    requires { vec_len runs.old < vec_capacity runs.old }
    ensures attrs { attrs_of runs.new.items ≡ attrs_of runs.old.items ++ replicate cells attrs }
    ensures len { vec_len runs.new ≤ vec_len runs.old + 1 }
    ensures capacity { vec_capacity runs.old ≤ vec_capacity runs.new }
{
    if cells > 0 {
        runs.push(AttrsRun { attrs, cells }).unwrap();
    }
}

/// Sets the wrapped mark of the last cell, in a run of its own. The list has room for it. An error
/// leaves the list unchanged.
pub(super) fn wrap_last(runs: &mut Vec<AttrsRun>, wrapped: bool) -> Result<(), AllocError>
    requires { vec_len runs.old < vec_capacity runs.old }
    ensures ok { OnOk result (
        attrs_of runs.new.items ≡ map_last (marked wrapped) (attrs_of runs.old.items)) }
    ensures err { OnErr result (runs.new.items ≡ runs.old.items) }
{
    let count = runs.len();
    if count == 0 {
        return Ok(());
    }
    let attrs = marked_copy(&runs[count - 1].attrs, wrapped)?;
    if let Some(last) = runs.pop() {
        push_run(runs, last.attrs, last.cells - 1);
        push_run(runs, attrs, 1);
    }
    Ok(())
}

// A copy with this wrapped mark.
fn marked_copy(attrs: &CellAttributes, wrapped: bool) -> Result<CellAttributes, AllocError>
    ensures { IfOk result (λ copy. copy ≡ marked wrapped attrs.now) }
{
    let mut copy = attrs.clone()?;
    set_wrapped(&mut copy, wrapped);
    Ok(copy)
}

/// The number of cells.
pub(super) fn cell_count(runs: &[ShapeRun]) -> usize
    requires { length (shapes_of runs.now) < 2 ^ 64 }
    ensures { result ≡ length (shapes_of runs.now) }
{
    let mut count = 0;
    for run in runs {
        count += run.cells as usize;
    }
    count
}

/// The attributes of the cell at index `i`, if any.
pub(super) fn attrs_at(runs: &[AttrsRun], i: usize) -> Option<&CellAttributes>
    ensures { option_copied result ≡ slice_get (attrs_of runs.now) i }
{
    let mut left = i;
    for run in runs {
        let cells = run.cells as usize;
        if left < cells {
            return Some(&run.attrs);
        }
        left -= cells;
    }
    None
}

/// Gives the runs links of their own. Each stays as it is, even after an error.
pub(super) fn own_links(
    alloc: Global,
    runs: &mut [AttrsRun],
    copies: &mut LinkCopies,
) -> Result<(), AllocError>
    ensures { attrs_of runs.new ≡ attrs_of runs.old }
{
    for run in runs.iter_mut() {
        run.attrs.own_link(alloc, copies)?;
    }
    Ok(())
}

/// Whether a cell has a link.
pub(super) fn has_link(runs: &[AttrsRun]) -> bool
    ensures { result ≡ list_any (λ a. is_some a.hyperlink) (attrs_of runs.now) }
{
    for run in runs {
        if run.attrs.hyperlink().is_some() {
            return true;
        }
    }
    false
}

/// An iterator over the shapes of the cells of runs.
#[derive(Drop)]
pub(super) struct ShapeIter<'a> {
    run: ShapeRun,
    rest: slice::Iter<'a, ShapeRun>,
}

impl<'a> Model for ShapeIter<'a> {
    ghost use Rattle.std.specs.Prelude.{◌∷◌, List};
    ghost use Rattle.std.specs.Slice.Iter.{iter_rest};
    ghost use Rattle.termwiz_storage.specs.declared.line.clusterline.runs.Shape.{Shape};
    ghost use Rattle.termwiz_storage.specs.CellRuns.{shapes_of};

    ghost Value = { List Shape };

    ghost view = { λ s. shapes_of (s.run ∷ iter_rest s.rest) };
}

impl<'a> ShapeIter<'a> {
    pub(super) fn new(runs: &'a [ShapeRun]) -> ShapeIter<'a>
        ensures { result ≡ shapes_of runs.now }
    {
        ShapeIter {
            run: ShapeRun {
                bytes: 0,
                one_char: false,
                wide: false,
                cells: 0,
            },
            rest: runs.iter(),
        }
    }

    pub(super) fn next(&mut self) -> Option<Shape>
        ensures { MatchOption result ((self.old ≡ [])
            × (self.new ≡ [])) (λ s. self.old ≡ s ∷ self.new) }
    {
        while self.run.cells == 0 {
            self.run = *self.rest.next()?;
        }
        self.run.cells -= 1;
        Some(Shape {
            bytes: self.run.bytes,
            one_char: self.run.one_char,
            wide: self.run.wide,
        })
    }
}

/// An iterator over the attributes of the cells of runs.
#[derive(Drop)]
pub(super) struct AttrsIter<'a> {
    attrs: Option<&'a CellAttributes>,
    left: u16,
    rest: slice::Iter<'a, AttrsRun>,
}

impl<'a> Model for AttrsIter<'a> {
    ghost use Rattle.std.specs.Prelude.{◌≡◌, ◌++◌, List, None};
    ghost use Rattle.std.specs.Slice.Iter.{iter_rest};
    ghost use Rattle.termwiz_cell.specs.Attributes.{Attributes};
    ghost use Rattle.termwiz_storage.specs.CellRuns.{attrs_of, same_attrs};

    ghost Value = { List Attributes };

    ghost view = { λ s. same_attrs s.left s.attrs ++ attrs_of (iter_rest s.rest) };

    ghost invariant = { λ s. s.attrs ≡ None → s.left ≡ 0 };
}

impl<'a> AttrsIter<'a> {
    pub(super) fn new(runs: &'a [AttrsRun]) -> AttrsIter<'a>
        ensures { result ≡ attrs_of runs.now }
    {
        AttrsIter {
            attrs: None,
            left: 0,
            rest: runs.iter(),
        }
    }

    pub(super) fn next(&mut self) -> Option<&'a CellAttributes>
        ensures { MatchOption result ((self.old ≡ [])
            × (self.new ≡ [])) (λ a. self.old ≡ a.now ∷ self.new) }
    {
        while self.left == 0 {
            let run = self.rest.next()?;
            self.attrs = Some(&run.attrs);
            self.left = run.cells;
        }
        self.left -= 1;
        self.attrs
    }
}
