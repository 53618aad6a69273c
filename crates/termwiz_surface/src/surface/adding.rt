//! How a surface adds changes.
ghost use Rattle.std.specs.Prelude.{◌≡◌, ◌+◌, ◌-◌, ◌<◌, ◌≤◌, ◌^◌, ◌∷◌, [], IsTrue, OnErr, length};
ghost use Rattle.std.specs.Prelude.{◌≢◌, vec_len, ℕ};
ghost use Rattle.termwiz_surface.specs.{Adds, AddsList, AddsScrolledOff, BeginsRows, IsOk, Makes};
ghost use Rattle.termwiz_surface.specs.{MakesList, NumbersRows, OnOk, Preserves};
ghost use Rattle.termwiz_surface.specs.{Refuses, SameFrame, ScrollsOff, change_list, change_value};
ghost use Rattle.termwiz_surface.specs.{false, is_logged, kept_of, knows, map, measure};
ghost use Rattle.termwiz_surface.specs.{next_number, passed};
ghost use Rattle.termwiz_surface.specs.{regions_fit, rows_scrolled_off, screen_of};
ghost use Rattle.termwiz_surface.specs.{stream_of, true};

use super::lists::ChangeList;
use super::{Surface, SurfaceError};
use crate::scrollback::{LineSink, NoScrollback};
use crate::view::copied;
use std::alloc::AllocError;
use std::borrow::CowSlice;
use termwiz_cell::change::{Change, SequenceNo, any_sets_link, own_links};
use termwiz_cell::emoji::Widths;
use termwiz_cell::hyperlink::LinkCopies;

impl<W: Widths> Surface<W> {
    // Refuses a list of changes that can't be applied, before any is applied.
    #[inline(always)]
    fn refuse(&self, list: &ChangeList<'_>) -> Result<(), SurfaceError>
        ensures { Refuses self.now (change_list list.now) result }
    {
        if !list.regions_fit(self.height) {
            return Err(SurfaceError::ScrollRegion);
        }
        if !self.log.has_numbers(list.len()) {
            return Err(SurfaceError::Numbers);
        }
        Ok(())
    }

    // Applies the changes of a list, and logs those that are to be logged.
    #[inline(always)]
    fn make<L: LineSink>(&mut self, list: ChangeList<'_>, lines: &mut L) -> Result<(), AllocError>
        requires fits { regions_fit self.old.height (change_list list) ≡ true }
        requires numbers { next_number self.old.log + length (change_list list) < 2 ^ 64 }
        ensures ok { OnOk result (MakesList (measure W.width_of self.old.widths)
            self.old list.entry self.new) }
        ensures scrolls { OnOk result (IsTrue L.KEEPS → ScrollsOff self.old.width
            (rows_scrolled_off (measure W.width_of self.old.widths) (screen_of self.old)
            (kept_of self.old) (change_list list.entry))
            (L.lines_of lines.old) (L.lines_of lines.new)) }
        ensures err { OnErr result (SameFrame self.old self.new) }
        ensures kept { OnErr result (IsTrue L.KEEPS → BeginsRows self.old.width
            (rows_scrolled_off (measure W.width_of self.old.widths) (screen_of self.old)
            (kept_of self.old) (change_list list.entry))
            (L.lines_of lines.old) (L.lines_of lines.new)) }
        ensures spare { L.spare_of lines.new ≤ L.spare_of lines.old }
        ensures some { OnErr result (0 < length (change_list list.entry)) }
        ensures none { length (change_list list.entry) ≡ 0 → NumbersRows self.old self.new }
    {
        self.mark = self.log.next_number() + list.len();
        self.apply_all(&list, lines)?;
        list.log_in(&mut self.log)?;
        Ok(())
    }

    /// Applies the changes of a list in order, and logs them, or not, as the list says. The lines
    /// that they scroll off the top of the screen go to `lines`, the first one first. Texts scroll
    /// lines off, and `ScrollRegionUp` does where its region begins at row 0.
    ///
    /// Returns `max(n, 1) - 1 + list.len()`, where `n` is the surface's number before the call: for
    /// a list that isn't empty, the number of its last change, or one more where `n` is 0.
    ///
    /// After changes that aren't logged the log is empty: only a viewer that has the surface's
    /// number is answered by the changes that it lacks, and any other one by a repaint.
    ///
    /// - `ScrollRegion`, `Numbers`: the surface and the lines are unchanged.
    /// - `Memory`: some changes may be applied, the last of them in part; the surface is valid and
    ///   has its old size, its log is empty, and its number is greater by one, or still 0. After
    ///   their old ones the lines may have the first of those that the changes scroll off.
    #[inline(always)]
    pub fn add<L: LineSink>(
        &mut self,
        list: ChangeList<'_>,
        lines: &mut L,
    ) -> Result<SequenceNo, SurfaceError>
        ensures adds { AddsList (measure W.width_of self.old.widths) self.old list.entry
            (next_number self.old.log - 1 + length (change_list list.entry)) result self.new }
        // The lines that scroll off are added, as they were shown. The old ones stay, even after an
        // error.
        ensures scrolled { IsTrue L.KEEPS → AddsScrolledOff self.old.width
            (rows_scrolled_off (measure W.width_of self.old.widths) (screen_of self.old)
            (kept_of self.old) (change_list list.entry))
            result (L.lines_of lines.old) (L.lines_of lines.new) }
        ensures spare { L.spare_of lines.new ≤ L.spare_of lines.old }
        ensures empty { length (change_list list.entry) ≡ 0 → IsOk result }
        // After a list that isn't logged, a viewer with another number than the surface's gets a
        // repaint.
        ensures unlogged { OnOk result (is_logged list.entry ≡ false →
            self.new.log ≡ passed self.old.log (length (change_list list.entry))) }
        ensures repaints { OnOk result (is_logged list.entry ≡ false →
            (n : ℕ) → n ≢ next_number self.new.log → knows self.new n ≡ false) }
        // Viewers, numbers and rows hold, even after an error.
        ensures preserves { Preserves (measure W.width_of) self.old self.new }
    {
        self.refuse(&list)?;
        let number = number_for(self.log.next_number(), list.len());
        if self.make(list, lines).is_err() {
            self.restart();
            return Err(SurfaceError::Memory);
        }
        Ok(number)
    }

    /// Applies one change, and returns its number. `ScrollRegion`, `Numbers`: the surface is
    /// unchanged. `Memory`: the change may be applied in part; the surface is valid and has its old
    /// size, its log is empty, and its number is greater by one, or still 0.
    pub fn add_change(&mut self, change: Change) -> Result<SequenceNo, SurfaceError>
        ensures adds { Adds (measure W.width_of self.old.widths)
            self.old (change_value change ∷ []) (next_number self.old.log) result self.new }
        // Viewers, numbers and rows hold, even after an error.
        ensures preserves { Preserves (measure W.width_of) self.old self.new }
    {
        let number = self.log.next_number();
        self.add(ChangeList::One(change), &mut NoScrollback)?;
        Ok(number)
    }

    /// Applies the changes in order and logs them, as `add` does with a list that is owned.
    ///
    /// - `ScrollRegion`, `Numbers`: the surface is unchanged.
    /// - `Memory`: some changes may be applied, the last of them in part; the surface is valid and
    ///   has its old size, its log is empty, and its number is greater by one, or still 0.
    pub fn add_changes(&mut self, changes: Vec<Change>) -> Result<SequenceNo, SurfaceError>
        ensures adds { Adds (measure W.width_of self.old.widths)
            self.old (map change_value changes.items)
            (next_number self.old.log - 1 + vec_len changes) result self.new }
        ensures empty { vec_len changes ≡ 0 → IsOk result }
        // Viewers, numbers and rows hold, even after an error.
        ensures preserves { Preserves (measure W.width_of) self.old self.new }
    {
        self.add(ChangeList::Owned(changes), &mut NoScrollback)
    }

    // Applies the changes, with links of the surface's own in place of theirs, and logs them.
    fn make_linked(&mut self, changes: Vec<Change>) -> Result<(), AllocError>
        requires fits { regions_fit self.old.height (map change_value changes.items) ≡ true }
        requires numbers { next_number self.old.log + vec_len changes < 2 ^ 64 }
        ensures ok { OnOk result (Makes (measure W.width_of self.old.widths)
            self.old (map change_value changes.items) self.new) }
        ensures err { OnErr result (SameFrame self.old self.new) }
        ensures none { vec_len changes ≡ 0 → NumbersRows self.old self.new }
    {
        let mut changes = changes;
        own_links(self.alloc, &mut changes, &mut LinkCopies::new())?;
        self.make(ChangeList::Owned(changes), &mut NoScrollback)
    }

    // Applies the changes as `make_linked` does. Those that set no link need no copies.
    fn make_own(&mut self, changes: CowSlice<'_, Change>) -> Result<(), AllocError>
        requires fits { regions_fit self.old.height (stream_of changes) ≡ true }
        requires numbers { next_number self.old.log + length (stream_of changes) < 2 ^ 64 }
        ensures ok { OnOk result (Makes (measure W.width_of self.old.widths)
            self.old (stream_of changes.entry) self.new) }
        ensures err { OnErr result (SameFrame self.old self.new) }
        ensures some { OnErr result (0 < length (stream_of changes.entry)) }
        ensures none { length (stream_of changes.entry) ≡ 0 → NumbersRows self.old self.new }
    {
        match changes {
            CowSlice::Borrowed(lent) => {
                if !any_sets_link(lent) {
                    return self.make(ChangeList::Lent(lent), &mut NoScrollback);
                }
                let copies = copied(self.alloc, CowSlice::Borrowed(lent))?;
                self.make_linked(copies)
            }
            CowSlice::Owned(list) => {
                if !any_sets_link(&list) {
                    return self.make(ChangeList::Owned(list), &mut NoScrollback);
                }
                self.make_linked(list)
            }
        }
    }

    /// Makes the changes in order, as `add_changes` does, with links of the surface's own in place
    /// of theirs: it shares no memory with what lent or made them.
    pub(crate) fn add_own_changes(
        &mut self,
        changes: CowSlice<'_, Change>,
    ) -> Result<SequenceNo, SurfaceError>
        ensures adds { Adds (measure W.width_of self.old.widths)
            self.old (stream_of changes.entry)
            (next_number self.old.log - 1 + length (stream_of changes.entry)) result self.new }
        // Viewers, numbers and rows hold, even after an error.
        ensures preserves { Preserves (measure W.width_of) self.old self.new }
    {
        self.refuse(&ChangeList::Lent(changes.as_slice()))?;
        let number = number_for(self.log.next_number(), changes.as_slice().len());
        if self.make_own(changes).is_err() {
            self.restart();
            return Err(SurfaceError::Memory);
        }
        Ok(number)
    }
}

// The sequence number returned for `count` changes.
#[inline(always)]
fn number_for(coming: SequenceNo, count: usize) -> SequenceNo
    requires { coming + count < 2 ^ 64 }
    ensures { result ≡ coming - 1 + count }
{
    coming.saturating_sub(1) + count
}
