//! Clusters: the pieces of a line that a text shaper is given.
ghost use Rattle.std.specs.Prelude.{◌≡◌, ◌<◌, ◌↔◌, ◌∷◌, [], IfOk, IsTrue, length, slice_index_or};
ghost use Rattle.termwiz_line.specs.{AreClusters, ClusterValue, IsOfCell, OnOk, cells_left};
ghost use Rattle.termwiz_line.specs.{cluster_of, columns, indexed_cell, look_of, ref_cell};
ghost use Rattle.termwiz_line.specs.{unmarked_attributes, with_cell};

use crate::line::bidi::Direction;
use std::alloc::{AllocError, Global};
use std::marker::Model;
use termwiz_cell::cell::CellAttributes;
use termwiz_cell::emoji::{Presentation, Widths};
use termwiz_storage::line::cellref::{CellRef, VisibleCellIter};

mod byte_cells;
mod shape;

use byte_cells::ByteCells;
use shape::Shape;

/// A piece of a line that is shaped as a unit: visible cells with the same attributes and
/// presentation, of which all are spaces, or at most the last one is.
///
/// The cluster maps each byte of its text to the column and the width of the cell that the byte
/// belongs to, so that glyphs can be placed.
#[derive(Debug, Drop)]
pub struct CellCluster {
    /// The attributes of the cells, without the wrapped mark.
    pub attrs: CellAttributes,
    /// The texts of the cells, concatenated.
    pub text: String,
    /// The number of columns of the cells.
    pub width: usize,
    /// The form in which the cells are shown, text or emoji.
    pub presentation: Presentation,
    /// The direction in which the text is laid out: always left to right.
    pub direction: Direction,
    /// The column at which the first cell begins.
    pub first_cell_idx: usize,
    cells: ByteCells,
}

impl Model for CellCluster {
    ghost use Rattle.std.specs.Prelude.{◌≤◌, length, string_bytes};
    ghost use Rattle.termwiz_line.specs.Clusters.{ClusterValue};

    ghost Value = { ClusterValue };

    ghost view = { λ c.
        record {
          attrs = c.attrs;
          presentation = c.presentation;
          direction = c.direction;
          text = string_bytes c.text;
          width = c.width;
          first_cell_idx = c.first_cell_idx;
          cells_of_bytes = c.cells;
        } };

    // Each byte has a cell.
    ghost invariant = { λ c. length (string_bytes c.text) ≤ length c.cells };
}

impl CellCluster {
    /// The clusters of visible cells, in order. The cells are split where the presentation or the
    /// attributes change, except for the wrapped mark. Each piece is split from the left into
    /// clusters that are as long as possible: spaces alone, or other cells and at most one space
    /// after them.
    /// ```text
    /// |foo  bar|  gives  `foo `, ` ` and `bar`
    /// ```
    pub fn make_cluster<W: Widths>(
        alloc: Global,
        widths: &W,
        cells: VisibleCellIter<'_>,
    ) -> Result<Vec<CellCluster>, AllocError>
        ensures { IfOk result (λ clusters.
            AreClusters (W.presentation_of widths.now) (cells_left cells.entry) clusters.items) }
    {
        let mut rest = cells;
        match rest.next() {
            None => Ok(Vec::new(alloc)),
            Some(first) => clusters_from(alloc, widths, first, rest),
        }
    }

    /// The column of the cell that a byte of the text belongs to.
    pub fn byte_to_cell_idx(&self, byte_idx: usize) -> usize
        requires { byte_idx < length self.now.text }
        ensures { result ≡ (slice_index_or self.now.cells_of_bytes byte_idx (0, 0)).0 }
    {
        self.cells.get(byte_idx).0
    }

    /// The width in columns of the cell that a byte of the text belongs to.
    pub fn byte_to_cell_width(&self, byte_idx: usize) -> u8
        requires { byte_idx < length self.now.text }
        ensures { result ≡ (slice_index_or self.now.cells_of_bytes byte_idx (0, 0)).1 }
    {
        self.cells.get(byte_idx).1
    }

    // The cluster of a single cell.
    fn starting_at<W: Widths>(
        alloc: Global,
        widths: &W,
        cell: CellRef<'_>,
    ) -> Result<CellCluster, AllocError>
        requires { IsOfCell cell }
        ensures { IfOk result (λ cluster.
            cluster ≡ cluster_of (W.presentation_of widths.now) (indexed_cell cell.entry ∷ [])) }
    {
        let attrs = without_mark(cell.attrs())?;
        let text = String::from_str(alloc, cell.str())?;
        let index = cell.cell_index();
        let mut cells = ByteCells::new(alloc, index);
        cells.push(text.len(), index, width_of(cell))?;
        Ok(CellCluster {
            attrs,
            text,
            width: cell.width(),
            presentation: cell.presentation(widths),
            direction: Direction::LeftToRight,
            first_cell_idx: index,
            cells,
        })
    }

    // Adds a cell.
    fn add(&mut self, cell: CellRef<'_>) -> Result<(), AllocError>
        requires { IsOfCell cell }
        ensures { OnOk result (self.new ≡ with_cell self.old (indexed_cell cell.entry)) }
    {
        let text = cell.str();
        let width = self.width.checked_add(cell.width()).ok_or(AllocError)?;
        self.cells
            .push(text.len(), cell.cell_index(), width_of(cell))?;
        self.text.push_str(text)?;
        self.width = width;
        Ok(())
    }

    // Whether the cell has the attributes and the presentation of the cluster.
    fn looks_like<W: Widths>(&self, widths: &W, cell: CellRef<'_>) -> Result<bool, AllocError>
        ensures { IfOk result (λ alike. IsTrue alike
            ↔ (look_of (W.presentation_of widths.now) (indexed_cell cell.entry)
            ≡ (self.now.attrs, self.now.presentation))) }
    {
        if cell.presentation(widths) != self.presentation {
            return Ok(false);
        }
        has_attributes(cell.attrs(), &self.attrs)
    }
}

impl Clone for CellCluster {
    ghost is_clone = { λ a b. b ≡ a };

    fn clone(&self) -> Result<CellCluster, AllocError> {
        let attrs = self.attrs.clone()?;
        let text = self.text.clone()?;
        let cells = self.cells.clone()?;
        Ok(CellCluster {
            attrs,
            text,
            width: self.width,
            presentation: self.presentation,
            direction: self.direction,
            first_cell_idx: self.first_cell_idx,
            cells,
        })
    }
}

// The clusters of a cell and of those after it.
fn clusters_from<'a, W: Widths>(
    alloc: Global,
    widths: &W,
    first: CellRef<'a>,
    rest: VisibleCellIter<'a>,
) -> Result<Vec<CellCluster>, AllocError>
    requires { IsOfCell first }
    ensures { IfOk result (λ clusters.
        AreClusters (W.presentation_of widths.now)
        (indexed_cell first.entry ∷ cells_left rest.entry) clusters.items) }
{
    let mut clusters = Vec::new(alloc);
    let mut cluster = CellCluster::starting_at(alloc, widths, first)?;
    let mut shape = Shape::of_one(first.is_space());
    for cell in rest {
        let is_space = cell.is_space();
        let is_alike = cluster.looks_like(widths, cell)?;
        match shape.grown(is_alike, is_space) {
            Some(grown) => {
                cluster.add(cell)?;
                shape = grown;
            }
            None => {
                clusters.push(cluster)?;
                cluster = CellCluster::starting_at(alloc, widths, cell)?;
                shape = Shape::of_one(is_space);
            }
        }
    }
    clusters.push(cluster)?;
    Ok(clusters)
}

// The width of a cell in columns.
fn width_of(cell: CellRef<'_>) -> u8
    requires { IsOfCell cell }
    ensures { result ≡ columns (ref_cell cell.entry) }
{
    if cell.width() > 1 { 2 } else { 1 }
}

// A copy of the attributes without the wrapped mark.
fn without_mark(attrs: &CellAttributes) -> Result<CellAttributes, AllocError>
    ensures { IfOk result (λ copy. copy ≡ unmarked_attributes attrs.now) }
{
    let mut copy = attrs.clone()?;
    copy.set_wrapped(false);
    Ok(copy)
}

// Whether the attributes equal `unmarked` except for the wrapped mark.
fn has_attributes(attrs: &CellAttributes, unmarked: &CellAttributes) -> Result<bool, AllocError>
    ensures { IfOk result (λ same. IsTrue same ↔ (unmarked_attributes attrs.now ≡ unmarked.now)) }
{
    if attrs.wrapped() {
        let copy = without_mark(attrs)?;
        return Ok(copy == *unmarked);
    }
    Ok(*attrs == *unmarked)
}
