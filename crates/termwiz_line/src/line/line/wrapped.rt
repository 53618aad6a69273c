//! The wrapped mark: the next line continues the text.
ghost use Rattle.std.specs.Prelude.{◌≡◌, ◌<◌, IsOk, OnErr, OnOk, length, true};
ghost use Rattle.termwiz_line.specs.{IsEdited, IsUnchanged, last_is_wrapped, set_last_wrapped};
ghost use Rattle.termwiz_line.specs.{visible};

use super::Line;
use super::zones::drop_zones;
use std::alloc::AllocError;
use termwiz_cell::change::SequenceNo;

impl Line {
    /// Sets whether the last visible cell, and the stored cell that it hides, are marked as
    /// wrapped. To an empty line a default blank is first appended. Raises the line's number to
    /// `seqno`. An error leaves number, flags and cells unchanged.
    pub fn set_last_cell_was_wrapped(
        &mut self,
        wrapped: bool,
        seqno: SequenceNo,
    ) -> Result<(), AllocError>
        ensures ok { OnOk result (
            IsEdited self.old (set_last_wrapped wrapped self.old.cells) seqno self.new) }
        ensures marked { OnOk result (last_is_wrapped (visible self.new.cells) ≡ wrapped) }
        ensures err { OnErr result (IsUnchanged self.old self.new) }
        ensures succeeds { self.old.is_vector ≡ true → 0 < length self.old.cells → IsOk result }
        ensures form { self.new.is_vector ≡ self.old.is_vector }
    {
        drop_zones(&mut self.zones);
        self.storage.set_last_wrapped(wrapped)?;
        self.seqno = self.seqno.max(seqno);
        Ok(())
    }

    /// Whether the last visible cell is marked as wrapped: the next line continues the text.
    pub fn last_cell_was_wrapped(&self) -> bool
        ensures { result ≡ last_is_wrapped (visible self.now.cells) }
    {
        match self.storage.last_attrs() {
            Some(attrs) => attrs.wrapped(),
            None => false,
        }
    }
}
