//! Row entries: the changes that print rows of visible cells.
ghost use Rattle.std.specs.Prelude.{◌≡◌, IfOk};
ghost use Rattle.termwiz_line.specs.{cells_left, penned_value, row_entries};

mod list;
mod writer;

pub use list::EntryList;
use std::alloc::{AllocError, Global};
use termwiz_cell::cell::CellAttributes;
use termwiz_cell::change::Change;
use termwiz_storage::line::cellref::VisibleCellIter;
pub use writer::RowWriter;

/// The changes that print rows, and the pen after them.
#[derive(Drop)]
pub struct Penned<'a> {
    /// The changes, in order.
    pub entries: Vec<Change>,
    /// The pen that the changes leave.
    pub pen: &'a CellAttributes,
}

/// The changes that print a row of these visible cells, starting with a pen, and the pen that they
/// leave.
pub fn row_entries<'a>(
    alloc: Global,
    cells: VisibleCellIter<'a>,
    pen: &'a CellAttributes,
) -> Result<Penned<'a>, AllocError>
    ensures { IfOk result (λ row.
        penned_value row ≡ row_entries pen.now (cells_left cells.entry)) }
{
    let mut writer = RowWriter::new(alloc, pen);
    writer.row(cells, 0, pen)?;
    writer.into_penned()
}
