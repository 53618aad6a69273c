//! Diffs: the changes that print what this surface lacks of another surface, of a region of it, or
//! of lines.
ghost use Rattle.std.specs.Prelude.{◌≡◌, ◌∷◌, [], IfOk, length, map, min};
ghost use Rattle.termwiz_surface.specs.{All, ArePrintable, AreRows, GivesRegion, HaveRow};
ghost use Rattle.termwiz_surface.specs.{HaveTopRows, MeasureAlike, PrintsRegion, PrintsRows};
ghost use Rattle.termwiz_surface.specs.{change_value, cut_to, diff, measure, need, one_row};
ghost use Rattle.termwiz_surface.specs.{printed, region_at, region_diff, region_value, row_of};
ghost use Rattle.termwiz_surface.specs.{rows_of, screen_after, screen_of, top_rows, whole};

use super::Surface;
use std::alloc::AllocError;
use termwiz_cell::change::Change;
use termwiz_cell::emoji::Widths;
use termwiz_line::line::line::Line;
use termwiz_screen::diff::lists::{diff_line, diff_lines, diff_rows};
use termwiz_screen::diff::region::Region;

impl<W: Widths> Surface<W> {
    /// The changes that make this surface show what another one of its size shows: applied by
    /// `add_changes`, they give it the other's rows and print exactly the cells that it doesn't
    /// show yet, where both measure texts alike. There are none where the rows are equal. Where the
    /// sizes differ, what fits in both is compared.
    ///
    /// They are moves, pens and texts alone, at most three for each cell that they print: a move
    /// where the cell doesn't directly follow the one before, and a pen where that one had another
    /// pen.
    pub fn diff_screens(&self, other: &Surface<W>) -> Result<Vec<Change>, AllocError>
        // Which cells are printed is promised where both have one width function, in
        // `PrintsRegion`.
        ensures diff { IfOk result (λ l. let r = whole self.now.width self.now.height in
            PrintsRegion (measure W.width_of) self.now other.now r (map change_value l.items)) }
        // The changes are the defined ones.
        ensures entries { IfOk result (λ l. let r = whole self.now.width self.now.height in
            map change_value l.items ≡ region_diff self.now other.now r) }
        // For two surfaces of one size and one width function: they give the other's rows, and
        // print exactly the cells that are not shown yet.
        ensures rows { self.now.width ≡ other.now.width → self.now.height ≡ other.now.height →
            MeasureAlike (measure W.width_of) self.now other.now → IfOk result (λ l.
            (screen_after (measure W.width_of) self.now (map change_value l.items)).rows
            ≡ (screen_of other.now).rows) }
        ensures prints { self.now.width ≡ other.now.width → self.now.height ≡ other.now.height →
            MeasureAlike (measure W.width_of) self.now other.now → IfOk result (λ l.
            let a = screen_of self.now in
            printed (measure W.width_of self.now.widths) a (map change_value l.items)
            ≡ need a.rows (screen_of other.now).rows (whole a.width a.height)) }
        ensures equal { (screen_of self.now).rows ≡ (screen_of other.now).rows →
            self.now.width ≡ other.now.width → self.now.height ≡ other.now.height →
            IfOk result (λ l. map change_value l.items ≡ []) }
    {
        self.diff_of(other, Region::band(self.width, 0, self.height))
    }

    /// The changes that print what the region of this surface from column `x` and row `y` on lacks
    /// of the region of another surface from `other_x` and `other_y` on, numbered from 0. Both have
    /// `width` columns and `height` rows, and are cut to what fits in both surfaces. Where one
    /// begins outside, there are no changes.
    ///
    /// Where both measure texts alike and no wide grapheme of either surface crosses an edge of its
    /// region, applied by `add_changes` they make this region show what the other does, and nothing
    /// else changes. A wide grapheme that crosses an edge is printed whole.
    pub fn diff_region(
        &self,
        x: usize,
        y: usize,
        width: usize,
        height: usize,
        other: &Surface<W>,
        other_x: usize,
        other_y: usize,
    ) -> Result<Vec<Change>, AllocError>
        ensures diff { IfOk result (λ l. let r = region_at x y width height other_x other_y in
            PrintsRegion (measure W.width_of) self.now other.now r (map change_value l.items)) }
        ensures entries { IfOk result (λ l. let r = region_at x y width height other_x other_y in
            map change_value l.items ≡ region_diff self.now other.now r) }
        ensures region { IfOk result (λ l.
            let r = cut_to self.now other.now (region_at x y width height other_x other_y) in
            let shown = screen_after (measure W.width_of) self.now (map change_value l.items) in
            MeasureAlike (measure W.width_of) self.now other.now →
            GivesRegion shown.rows (screen_of self.now) (screen_of other.now) r) }
    {
        let region = Region {
            x,
            y,
            width,
            height,
            other_x,
            other_y,
        };
        self.diff_of(other, region)
    }

    /// The changes that print what the rows from the top lack of lines: line i, cut or padded with
    /// default blanks to the surface's width, is compared with row i. Lines past the last row are
    /// left out.
    ///
    /// Where each visible cell of the lines is one grapheme with the width that this surface
    /// measures, applied by `add_changes` they make each of these rows show what its line does, and
    /// no other row changes.
    pub fn diff_lines(&self, other_lines: Vec<&Line>) -> Result<Vec<Change>, AllocError>
        ensures diff { let f = measure W.width_of self.now.widths in
            let lines = other_lines.entry.items in
            All (λ line. ArePrintable f line.now.cells) lines → IfOk result (λ l.
            let a = screen_of self.now in let b = rows_of a.width lines (λ line. line.now.cells) in
            PrintsRows f a b (top_rows a (length lines)) (map change_value l.items)) }
        ensures entries { let lines = other_lines.entry.items in IfOk result (λ l.
            let a = screen_of self.now in let b = rows_of a.width lines (λ line. line.now.cells) in
            map change_value l.items ≡ diff a.rows b (top_rows a (length lines))) }
        // Each of these rows shows what its line does, and no other row changes.
        ensures rows { let f = measure W.width_of self.now.widths in
            let lines = other_lines.entry.items in
            All (λ line. ArePrintable f line.now.cells) lines → IfOk result (λ l.
            let a = screen_of self.now in let b = rows_of a.width lines (λ line. line.now.cells) in
            let shown = screen_after (measure W.width_of) self.now (map change_value l.items) in
            HaveTopRows shown.rows a.rows b (min a.height (length lines))) }
    {
        diff_lines(self.alloc, &self.rows, self.width, other_lines)
    }

    /// The changes that print what row `row_num`, numbered from 0, lacks of a line, which is cut or
    /// padded with default blanks to the surface's width. There are none where there is no such
    /// row.
    ///
    /// Where each visible cell of the line is one grapheme with the width that this surface
    /// measures, applied by `add_changes` they make the row show what the line does, and no other
    /// row changes.
    pub fn diff_against_numbered_line(
        &self,
        row_num: usize,
        other_line: &Line,
    ) -> Result<Vec<Change>, AllocError>
        ensures diff { let f = measure W.width_of self.now.widths in
            ArePrintable f other_line.now.cells → IfOk result (λ l.
            let a = screen_of self.now in let row = row_of a.width other_line.now.cells in
            PrintsRows f a (row ∷ []) (one_row a row_num) (map change_value l.items)) }
        ensures entries { IfOk result (λ l.
            let a = screen_of self.now in let row = row_of a.width other_line.now.cells in
            map change_value l.items ≡ diff a.rows (row ∷ []) (one_row a row_num)) }
        // That row shows what the line does, and no other row changes.
        ensures row { let f = measure W.width_of self.now.widths in
            ArePrintable f other_line.now.cells → IfOk result (λ l.
            let a = screen_of self.now in let row = row_of a.width other_line.now.cells in
            let shown = screen_after (measure W.width_of) self.now (map change_value l.items) in
            HaveRow shown.rows a.rows a.height row_num row) }
    {
        diff_line(self.alloc, &self.rows, self.width, row_num, other_line)
    }

    // The changes that print what this surface lacks of a region of another one.
    fn diff_of(&self, other: &Surface<W>, region: Region) -> Result<Vec<Change>, AllocError>
        ensures diff { IfOk result (λ l. let r = region_value region in
            PrintsRegion (measure W.width_of) self.now other.now r (map change_value l.items)) }
        ensures list { IfOk result (λ l.
            map change_value l.items ≡ region_diff self.now other.now (region_value region)) }
        ensures own { AreRows self.now.width self.now.height (screen_of self.now).rows }
        ensures other { AreRows other.now.width other.now.height (screen_of other.now).rows }
    {
        diff_rows(
            self.alloc,
            &self.rows,
            self.width,
            &other.rows,
            other.width,
            region,
        )
    }
}
