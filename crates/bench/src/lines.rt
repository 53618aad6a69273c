//! Workloads on lines of a given number of columns, and on attributes.
ghost use Rattle.std.specs.Prelude.{◌≤◌};

use crate::drawn::{Sum, sized};
use std::alloc::{AllocError, Global};
use termwiz_cell::cell::{Cell, CellAttributes};
use termwiz_cell::change::SEQ_ZERO;
use termwiz_cell::color::ColorAttribute;
use termwiz_line::line::line::Line;

/// What is done over and over, as `workload` says.
#[derive(Clone, Copy)]
pub enum LineWork {
    Clone,
    Compress,
    Walk,
    Get,
    Mark,
    Prune,
    Insert,
    Append,
}

/// Works `count` times on a line that has a colour for every 8 columns. It is stored as one text,
/// but for what copies it or inserts.
pub fn worked(alloc: Global, work: LineWork, size: Option<u16>, count: u32) -> Sum {
    let columns = sized(size, 120);
    let mut line = coloured(alloc, columns)?;
    if !matches!(
        work,
        LineWork::Clone | LineWork::Compress | LineWork::Insert
    ) {
        line.compress_for_scrollback()?;
    }
    match work {
        LineWork::Clone => clones(&line, false, count),
        LineWork::Compress => clones(&line, true, count),
        LineWork::Walk => Ok(widths(&line, count)),
        LineWork::Get => Ok(widths_at(&line, columns.saturating_sub(1), count)),
        LineWork::Mark => marks(&mut line, count),
        LineWork::Prune => prune(&mut line, count),
        LineWork::Insert => insert(&mut line, columns, count),
        LineWork::Append => appended(alloc, columns, count),
    }
}

// A line whose cells are stored one by one.
fn coloured(alloc: Global, columns: usize) -> Result<Line, AllocError> {
    let mut line = Line::with_width(alloc, columns, SEQ_ZERO)?;
    for column in 0..columns {
        let color = ColorAttribute::PaletteIndex((column / 8 % 256) as u8);
        let mut attrs = CellAttributes::blank();
        attrs.set_foreground(alloc, color)?;
        line.set_cell_grapheme(column, "x", 1, attrs, SEQ_ZERO)?;
    }
    Ok(line)
}

// Clones the line `count` times, stores each clone as one text where it is to be compressed, and
// returns how many columns they have.
fn clones(line: &Line, compresses: bool, count: u32) -> Sum {
    let mut columns = 0usize;
    for _ in 0..count {
        let mut copy = line.clone()?;
        if compresses {
            copy.compress_for_scrollback()?;
        }
        columns = columns.wrapping_add(copy.len());
    }
    Ok(columns)
}

// Walks over the cells `count` times, and returns the sum of their widths.
fn widths(line: &Line, count: u32) -> usize {
    let mut columns = 0usize;
    for _ in 0..count {
        for cell in line.visible_cells() {
            columns = columns.wrapping_add(cell.width());
        }
    }
    columns
}

// Asks `count` times for the cell at a column, and returns the sum of its widths.
fn widths_at(line: &Line, column: usize, count: u32) -> usize {
    let mut columns = 0usize;
    for _ in 0..count {
        columns = columns.wrapping_add(line.get_cell(column).map_or(0, |cell| cell.width()));
    }
    columns
}

// Sets the line's mark or takes it away, `count` times in all, and returns how often it is set.
fn marks(line: &mut Line, count: u32) -> Sum {
    let mut marks = 0usize;
    for round in 0..count {
        line.set_last_cell_was_wrapped(round % 2 == 0, SEQ_ZERO)?;
        marks = marks.wrapping_add(usize::from(line.last_cell_was_wrapped()));
    }
    Ok(marks)
}

// Prunes the line `count` times, and returns how many columns it has then.
fn prune(line: &mut Line, count: u32) -> Sum {
    for _ in 0..count {
        line.prune_trailing_blanks(SEQ_ZERO)?;
    }
    Ok(line.len())
}

// Inserts `count` blanks at the line's beginning, each of which removes a cell at its end, and
// returns how many columns the line has then.
fn insert(line: &mut Line, columns: usize, count: u32) -> Sum
    requires { 1 ≤ columns }
{
    for _ in 0..count {
        line.insert_cell(0, Cell::blank(), columns, SEQ_ZERO)?;
    }
    Ok(line.len())
}

// Sets `count` characters at the ends of lines, one by one, and returns how many columns the full
// lines have.
fn appended(alloc: Global, columns: usize, count: u32) -> Sum {
    let mut line = Line::new(alloc, SEQ_ZERO);
    let mut appended = 0usize;
    for _ in 0..count {
        if line.len() >= columns {
            appended = appended.wrapping_add(line.len());
            line = Line::new(alloc, SEQ_ZERO);
        }
        let end = line.len();
        line.set_cell_grapheme(end, "x", 1, CellAttributes::blank(), SEQ_ZERO)?;
    }
    Ok(appended)
}

/// Sets an attribute `count` times, and returns how often it was set to `true`.
pub fn attribute_set(count: u32) -> Sum {
    let mut attrs = CellAttributes::blank();
    let mut changed = 0usize;
    for i in 0..count {
        attrs.set_italic(i % 3 == 0);
        if attrs.italic() {
            changed = changed.wrapping_add(1);
        }
    }
    Ok(changed)
}

pub fn attributes_cloned(count: u32) -> Sum {
    let mut attrs = CellAttributes::blank();
    for i in 0..count {
        let copy = attrs.clone()?;
        attrs = copy;
        if i % 1024 == 0 {
            attrs.set_italic(i % 3 == 0);
        }
    }
    Ok(usize::from(attrs.italic()))
}

pub fn attributes_compared(count: u32) -> Sum {
    let mut attrs = CellAttributes::blank();
    let other = CellAttributes::blank();
    let mut equal = 0usize;
    for i in 0..count {
        if i % 1024 == 0 {
            attrs.set_italic(i % 3 == 0);
        }
        if attrs == other {
            equal = equal.wrapping_add(1);
        }
    }
    Ok(equal)
}
