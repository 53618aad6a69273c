//! Drawing a surface on another one, and copying a region of a surface within it.
ghost use Rattle.std.specs.Prelude.{◌≡◌, Err, IfOk, OnOk, map};
ghost use Rattle.termwiz_surface.specs.{HasCopied, HasDrawn, IsCopied, IsDrawn, Preserves};
ghost use Rattle.termwiz_surface.specs.{ScrollRegion, change_value};
ghost use Rattle.termwiz_surface.specs.{copied_region, measure, region_at, restoring, screen_of};
ghost use Rattle.termwiz_surface.specs.{whole_at};

use super::{Surface, SurfaceError};
use std::alloc::AllocError;
use std::borrow::CowSlice;
use termwiz_cell::cell::CellAttributes;
use termwiz_cell::change::{Change, Position, SequenceNo};
use termwiz_cell::emoji::Widths;

impl<W: Widths> Surface<W> {
    /// Draws what another surface shows on this one, from column `x` and row `y` on, numbered from
    /// 0. What doesn't fit is left out. Cells that this surface shows there already are not printed
    /// again.
    ///
    /// Cursor and pen are as before, a pending wrap too: where anything is printed, the last two
    /// changes restore them.
    ///
    /// Where both surfaces measure texts alike and no wide grapheme of either crosses an edge of
    /// its region, this region then shows what the other surface's does, and nothing else changes.
    /// A wide grapheme that crosses an edge is printed whole.
    ///
    /// The changes are applied and logged as one list, and the result is that of `add_changes`.
    /// `Numbers`: the surface is unchanged. `Memory`: the surface is unchanged, or as after that
    /// error of `add_changes`. It never fails with `ScrollRegion`.
    pub fn draw_from_screen(
        &mut self,
        other: &Surface<W>,
        x: usize,
        y: usize,
    ) -> Result<SequenceNo, SurfaceError>
        ensures drawn { IsDrawn (measure W.width_of) self.old other.now (whole_at other.now x y)
            result self.new }
        // All parts of the screen but the rows are unchanged.
        ensures restores { OnOk result (
            screen_of self.new ≡ record (screen_of self.old) { rows = (screen_of self.new).rows }) }
        // For two surfaces of one width function: the region shows the other's, where no wide
        // grapheme crosses an edge.
        ensures region { OnOk result (HasDrawn (measure W.width_of)
            self.old other.now (whole_at other.now x y) (screen_of self.new)) }
        ensures no_scroll { result ≡ Err ScrollRegion → ⊥ }
        // Viewers, numbers and rows hold, even after an error.
        ensures preserves { Preserves (measure W.width_of) self.old self.new }
    {
        let (width, height) = other.dimensions();
        self.draw_from(other, 0, 0, width, height, x, y)
    }

    /// Draws a part of another surface on this one: what the other one's region of `width` columns
    /// and `height` rows from column `src_x` and row `src_y` on shows, from column `dest_x` and row
    /// `dest_y` of this one on, numbered from 0.
    ///
    /// - The region is cut to what fits in both. Where it begins outside of one, nothing is drawn.
    /// - Cells that this surface shows there already are not printed again.
    /// - Cursor and pen are as before, a pending wrap too: where anything is printed, the last two
    ///   changes restore them.
    ///
    /// Where both surfaces measure texts alike and no wide grapheme of either crosses an edge of
    /// its region, this region then shows what the other surface's does, and nothing else changes.
    /// A wide grapheme that crosses an edge is printed whole.
    ///
    /// The changes are applied and logged as one list, and the result is that of `add_changes`.
    /// `Numbers`: the surface is unchanged. `Memory`: the surface is unchanged, or as after that
    /// error of `add_changes`. It never fails with `ScrollRegion`.
    pub fn draw_from(
        &mut self,
        other: &Surface<W>,
        src_x: usize,
        src_y: usize,
        width: usize,
        height: usize,
        dest_x: usize,
        dest_y: usize,
    ) -> Result<SequenceNo, SurfaceError>
        ensures drawn { IsDrawn (measure W.width_of) self.old other.now
            (region_at dest_x dest_y width height src_x src_y) result self.new }
        // All parts of the screen but the rows are unchanged.
        ensures restores { OnOk result (
            screen_of self.new ≡ record (screen_of self.old) { rows = (screen_of self.new).rows }) }
        // For two surfaces of one width function: the region shows the other's, where no wide
        // grapheme crosses an edge.
        ensures region { OnOk result (HasDrawn (measure W.width_of) self.old other.now
            (region_at dest_x dest_y width height src_x src_y) (screen_of self.new)) }
        ensures no_scroll { result ≡ Err ScrollRegion → ⊥ }
        // Viewers, numbers and rows hold, even after an error.
        ensures preserves { Preserves (measure W.width_of) self.old self.new }
    {
        let printed = self.diff_region(dest_x, dest_y, width, height, other, src_x, src_y)?;
        let changes = restored(printed, (self.x, self.y), &self.pen)?;
        self.add_own_changes(CowSlice::Owned(changes))
    }

    /// Copies what the region of `width` columns and `height` rows from column `src_x` and row
    /// `src_y` on shows, to the region from `dest_x` and `dest_y` on, numbered from 0.
    ///
    /// - The regions may overlap: what is copied is what was shown before.
    /// - Both are cut to what fits in the surface. Where one begins outside, nothing is copied.
    /// - Cells that are shown there already are not printed again.
    ///
    /// Where no wide grapheme crosses an edge of either region, the second one then shows what the
    /// first did, and nothing else changes. A wide grapheme that crosses an edge is printed whole.
    ///
    /// The changes are applied and logged as one list, and the result is that of `add_changes`.
    /// `Numbers`: the surface is unchanged. `Memory`: the surface is unchanged, or as after that
    /// error of `add_changes`. It never fails with `ScrollRegion`.
    pub fn copy_region(
        &mut self,
        src_x: usize,
        src_y: usize,
        width: usize,
        height: usize,
        dest_x: usize,
        dest_y: usize,
    ) -> Result<SequenceNo, SurfaceError>
        ensures copied { IsCopied (measure W.width_of)
            self.old src_x src_y width height dest_x dest_y result self.new }
        // The second region shows what the first one showed before, overlapping or not, where no
        // wide grapheme crosses an edge.
        ensures region { OnOk result (
            let r = copied_region (screen_of self.old) src_x src_y width height dest_x dest_y in
            HasCopied self.old r (screen_of self.new)) }
        ensures no_scroll { result ≡ Err ScrollRegion → ⊥ }
        // Viewers, numbers and rows hold, even after an error.
        ensures preserves { Preserves (measure W.width_of) self.old self.new }
    {
        let copies = self.diff_region(dest_x, dest_y, width, height, self, src_x, src_y)?;
        self.add_changes(copies)
    }

    /// Copies a region within the surface, as `copy_region` does, and draws it there as
    /// `draw_from_screen` does: cursor and pen are as before, a pending wrap too. Where anything is
    /// printed, the last two changes restore them.
    ///
    /// The changes are applied and logged as one list, and the result is that of `add_changes`.
    /// `Numbers`: the surface is unchanged. `Memory`: the surface is unchanged, or as after that
    /// error of `add_changes`. It never fails with `ScrollRegion`.
    pub fn draw_region(
        &mut self,
        src_x: usize,
        src_y: usize,
        width: usize,
        height: usize,
        dest_x: usize,
        dest_y: usize,
    ) -> Result<SequenceNo, SurfaceError>
        ensures drawn { IsDrawn (measure W.width_of) self.old self.old
            (region_at dest_x dest_y width height src_x src_y) result self.new }
        // All parts of the screen but the rows are unchanged.
        ensures restores { OnOk result (
            screen_of self.new ≡ record (screen_of self.old) { rows = (screen_of self.new).rows }) }
        // The second region shows what the first one showed before, overlapping or not, where no
        // wide grapheme crosses an edge.
        ensures region { OnOk result (
            let r = copied_region (screen_of self.old) src_x src_y width height dest_x dest_y in
            HasCopied self.old r (screen_of self.new)) }
        ensures no_scroll { result ≡ Err ScrollRegion → ⊥ }
        // Viewers, numbers and rows hold, even after an error.
        ensures preserves { Preserves (measure W.width_of) self.old self.new }
    {
        let cursor = (self.x, self.y);
        let printed = self.diff_region(dest_x, dest_y, width, height, self, src_x, src_y)?;
        let drawn = restored(printed, cursor, &self.pen)?;
        self.add_changes(drawn)
    }
}

// The changes, followed, where there are any, by a move and a pen that restore the cursor and the
// pen.
fn restored(
    mut changes: Vec<Change>,
    cursor: (usize, usize),
    pen: &CellAttributes,
) -> Result<Vec<Change>, AllocError>
    ensures { IfOk result (λ l. map change_value l.items
        ≡ restoring cursor.0 cursor.1 pen.now (map change_value changes.items)) }
{
    if changes.is_empty() {
        return Ok(changes);
    }
    changes.push(Change::CursorPosition {
        x: Position::Absolute(cursor.0),
        y: Position::Absolute(cursor.1),
    })?;
    changes.push(Change::AllAttributes(pen.clone()?))?;
    Ok(changes)
}
