//! The cells that the bytes of a text belong to.
ghost use Rattle.std.specs.Prelude.{◌≡◌, ◌≤◌, ◌<◌, ◌+◌, ◌++◌, ◌^◌, [], replicate, slice_index_or};
ghost use Rattle.termwiz_line.specs.{IfSome, IsSome, OnOk, length};

use std::alloc::{AllocError, Global};
use std::marker::Model;
use std::ops::Range;

/// The column and the width of the cell of each byte of a text.
#[derive(Debug, Drop)]
pub(super) struct ByteCells {
    // The columns of the first bytes, each of which has a narrow cell of its own, one after
    // another. They take no memory.
    plain: Range<usize>,
    // The cells of the bytes after these.
    others: Vec<(usize, u8)>,
}

impl Model for ByteCells {
    ghost use Rattle.std.specs.Prelude.{◌≤◌, ◌++◌, List, ℕ};
    ghost use Rattle.termwiz_line.specs.PlainCells.{plain_cells};

    ghost Value = { List (ℕ × ℕ) };

    ghost view = { λ c. plain_cells c.plain.start c.plain.end ++ c.others.items };

    ghost invariant = { λ c. c.plain.start ≤ c.plain.end };
}

impl ByteCells {
    /// The cells of an empty text that begins at this column.
    pub(super) fn new(alloc: Global, first: usize) -> ByteCells
        ensures { result ≡ [] }
    {
        ByteCells {
            plain: first..first,
            others: Vec::new(alloc),
        }
    }

    /// The column and the width of the cell of a byte.
    pub(super) fn get(&self, byte: usize) -> (usize, u8)
        requires { byte < length self.now }
        ensures { result ≡ slice_index_or self.now byte (0, 0) }
    {
        let count = self.plain.end - self.plain.start;
        if byte < count {
            (self.plain.start + byte, 1)
        } else {
            self.others[byte - count]
        }
    }

    /// Adds the bytes of one cell. After an error some of them may have been added.
    pub(super) fn push(&mut self, count: usize, index: usize, width: u8) -> Result<(), AllocError>
        ensures ok { OnOk result (self.new ≡ self.old ++ replicate count (index, width)) }
        ensures grows { length self.old ≤ length self.new }
    {
        if self.others.is_empty() {
            if let Some(end) = end_with(&self.plain, count, index, width) {
                self.plain.end = end;
                return Ok(());
            }
        }
        push_copies(&mut self.others, count, (index, width))
    }
}

impl Clone for ByteCells {
    ghost is_clone = { λ a b. b ≡ a };

    fn clone(&self) -> Result<ByteCells, AllocError> {
        let others = self.others.clone()?;
        Ok(ByteCells {
            plain: self.plain.start..self.plain.end,
            others,
        })
    }
}

// The end of the columns once a cell is added, if the cell has one byte and one column and is the
// next one.
fn end_with(columns: &Range<usize>, count: usize, index: usize, width: u8) -> Option<usize>
    ensures end { IfSome result (λ end. (count ≡ 1) × (width ≡ 1) × (index ≡ columns.now.end)
        × (end ≡ index + 1)) }
    ensures taken { count ≡ 1 → width ≡ 1 → index ≡ columns.now.end → index + 1 < 2 ^ 64 →
        IsSome result }
{
    if count == 1 && (width == 1 && index == columns.end) {
        index.checked_add(1)
    } else {
        None
    }
}

// Pushes a cell this many times.
fn push_copies(
    cells: &mut Vec<(usize, u8)>,
    count: usize,
    cell: (usize, u8),
) -> Result<(), AllocError>
    ensures ok { OnOk result (cells.new.items ≡ cells.old.items ++ replicate count cell) }
    ensures grows { length cells.old.items ≤ length cells.new.items }
{
    for _ in 0..count {
        cells.push(cell)?;
    }
    Ok(())
}
