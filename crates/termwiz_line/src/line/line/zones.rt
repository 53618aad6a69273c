//! Zones: the runs of cells of one semantic type.
ghost use Rattle.std.specs.Prelude.{◌≡◌, ◌<◌, ◌^◌, ◌↔◌, ◌∷◌, [], IfOk, IsTrue, length, take};
ghost use Rattle.termwiz_line.specs.{AreZones, AreZonesOf, IsBlank, IsTrimmed, KeepsLine, cells_in};
ghost use Rattle.termwiz_line.specs.{cells_left, indexed_cell, sem, semantic, visible, zone_of};

use super::Line;
use std::alloc::{AllocError, Global};
use std::ops::Range;
use termwiz_cell::cell::SemanticType;
use termwiz_storage::line::cellref::{CellRef, VisibleCellIter};
use termwiz_storage::line::storage::CellStorage;

/// A run of visible cells of one semantic type.
#[derive(Clone, Debug, PartialEq, Eq, Drop)]
pub struct ZoneRange {
    /// The type of the cells.
    pub semantic_type: SemanticType,
    /// From the column of the first cell to the column of the last, which is in the zone too: the
    /// range of a zone of one cell is empty.
    pub range: Range<usize>,
}

impl Line {
    /// The runs of visible cells of one semantic type, in order, up to the last cell that isn't a
    /// default blank, or all where there is no such cell. They are cached until the next edit of
    /// cells. The line doesn't change, even on an error.
    pub fn semantic_zone_ranges(&mut self) -> Result<&[ZoneRange], AllocError>
        ensures* unchanged { sem 𝓛 (KeepsLine self.entry) }
        ensures value { IfOk result (λ zones. AreZones (visible self.old.cells) zones.now) }
    {
        if self.zones.is_empty() {
            self.zones = zones_of(self.alloc, &self.storage)?;
        }
        Ok(&self.zones)
    }
}

/// Drops cached zones. Usually there are none, so that test comes first.
#[inline(always)]
pub(super) fn drop_zones(zones: &mut Vec<ZoneRange>)
    ensures { zones.new.items ≡ [] }
{
    if !zones.is_empty() {
        zones.clear();
    }
}

// The zones of the visible cells.
fn zones_of(alloc: Global, storage: &CellStorage) -> Result<Vec<ZoneRange>, AllocError>
    ensures { IfOk result (λ zones. AreZones (visible (cells_in storage.now)) zones.items) }
{
    let len = storage.len();
    let kept = kept_count(storage.iter());
    let mut rest = storage.iter();
    match rest.next() {
        None => Ok(Vec::new(alloc)),
        Some(first) => {
            let count = if kept == 0 { len } else { kept - 1 };
            zones_from(alloc, first, rest, count)
        }
    }
}

// How many visible cells there are up to the last that isn't a default blank.
fn kept_count(cells: VisibleCellIter<'_>) -> usize
    requires { length (cells_left cells) < 2 ^ 64 }
    ensures { IsTrimmed IsBlank (cells_left cells.entry) (take result (cells_left cells.entry)) }
{
    let mut seen = 0;
    let mut kept = 0;
    for cell in cells {
        seen += 1;
        if !cell.is_blank() {
            kept = seen;
        }
    }
    kept
}

// The zones of a cell and of at most `count` cells after it.
fn zones_from(
    alloc: Global,
    first: CellRef<'_>,
    rest: VisibleCellIter<'_>,
    count: usize,
) -> Result<Vec<ZoneRange>, AllocError>
    ensures { IfOk result (λ zones.
        AreZonesOf (indexed_cell first.entry ∷ take count (cells_left rest.entry)) zones.items) }
{
    let mut zones = Vec::new(alloc);
    let mut zone = zone_at(first);
    let mut left = count;
    for cell in rest {
        if left == 0 {
            break;
        }
        left -= 1;
        if has_type(cell, zone.semantic_type) {
            zone.range.end = cell.cell_index();
        } else {
            zones.push(zone)?;
            zone = zone_at(cell);
        }
    }
    zones.push(zone)?;
    Ok(zones)
}

fn has_type(cell: CellRef<'_>, semantic_type: SemanticType) -> bool
    ensures { IsTrue result ↔ (semantic (indexed_cell cell.entry) ≡ semantic_type) }
{
    cell.attrs().semantic_type() == semantic_type
}

// The zone of a single cell.
fn zone_at(cell: CellRef<'_>) -> ZoneRange
    ensures { result ≡ zone_of (indexed_cell cell.entry ∷ []) }
{
    let index = cell.cell_index();
    ZoneRange {
        semantic_type: cell.attrs().semantic_type(),
        range: index..index,
    }
}
