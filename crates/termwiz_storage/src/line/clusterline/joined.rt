//! Appending to the cells of a text.
ghost use Rattle.std.specs.Prelude.{◌≡◌, ◌++◌, IfOk, OnErr, OnOk};
ghost use Rattle.termwiz_storage.specs.{IsOfCell, ref_cell, visible, with_half, with_halves};

use crate::line::cellref::CellRef;
use crate::line::clusterline::run_lists::{append_attrs, append_shapes};
use crate::line::clusterline::{ClusteredLine, push_text};
use crate::line::vecstorage::VecStorage;
use std::alloc::AllocError;

impl ClusteredLine {
    /// The visible cells of a vector, each wide one followed by its half.
    pub(crate) fn of_visible(storage: &VecStorage) -> Result<ClusteredLine, AllocError>
        ensures { IfOk result (λ line. line ≡ with_halves (visible storage.now)) }
    {
        let mut line = ClusteredLine::new(storage.allocator());
        for cell in storage.iter() {
            line.append_visible_cell(cell)?;
        }
        Ok(line)
    }

    // Appends a visible cell, and the half of a wide one. An error leaves the line unchanged.
    fn append_visible_cell(&mut self, cell: CellRef<'_>) -> Result<(), AllocError>
        requires { IsOfCell cell }
        ensures ok { OnOk result (self.new ≡ self.old ++ with_half (ref_cell cell.entry)) }
        ensures err { OnErr result (self.new ≡ self.old) }
    {
        self.append_clean(cell.str(), cell.width() > 1, cell.attrs())?;
        Ok(())
    }

    /// Appends the cells of another text. An error leaves the line unchanged.
    pub(crate) fn append_text(&mut self, more: ClusteredLine) -> Result<(), AllocError>
        ensures ok { OnOk result (self.new ≡ self.old ++ more) }
        ensures err { OnErr result (self.new ≡ self.old) }
    {
        if more.len > usize::MAX - self.len {
            return Err(AllocError);
        }
        // What can fail comes first, so that an error leaves the line unchanged.
        self.text.reserve(more.text.len())?;
        self.shapes.reserve(more.shapes.len())?;
        self.attrs.reserve(more.attrs.len())?;
        push_text(&mut self.text, &more.text);
        append_shapes(&mut self.shapes, &more.shapes);
        append_attrs(&mut self.attrs, more.attrs);
        self.len += more.len;
        Ok(())
    }
}
