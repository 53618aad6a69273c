//! What a table of widths gives texts.
ghost use Rattle.std.specs.Prelude.{◌≡◌, IsTrue, chars, min, slice_get, sum_by};
ghost use Rattle.termwiz_cell.specs.UsualWidths.{HasNarrowAscii};
ghost use Rattle.tikeburo_c.specs.WidthRanges.{char_columns, columns_at, columns_in, given_by};
ghost use Rattle.tikeburo_c.specs.WidthRanges.{has_any, is_table, is_width_range};

use crate::tables::{WidthRange, WidthTable};
use termwiz_surface::{UnicodeWidths, Widths};
use termwiz_text::is_one_plain;
use unicode_width::UnicodeWidthChar;

// Whether the range has characters, of at most two columns, and 1 where one is printable ASCII.
fn is_width_range(range: &WidthRange) -> bool
    ensures { result ≡ is_width_range range.now }
{
    let is_narrow = range.columns == 1 || range.last < 0x20 || 0x7E < range.first;
    (range.first <= range.last && range.last <= 0x10FFFF) && (range.columns <= 2 && is_narrow)
}

/// Whether each range is one that a table may have, and begins after the one before it.
pub(crate) fn is_table(ranges: &[WidthRange]) -> bool
    ensures { result ≡ is_table ranges.now }
{
    let mut from = 0;
    for range in ranges {
        if !(from <= range.first && is_width_range(range)) {
            return false;
        }
        from = range.last + 1;
    }
    true
}

fn range_at(ranges: &[WidthRange], place: usize) -> Option<WidthRange>
    ensures { result ≡ slice_get ranges.now place }
{
    ranges.get(place).copied()
}

// What a range gives a character that doesn't lie above it.
fn given_by(range: Option<WidthRange>, c: u32) -> Option<usize>
    ensures { result ≡ given_by range c }
{
    match range {
        Some(range) if range.first <= c => Some(range.columns as usize),
        _ => None,
    }
}

impl<'t> WidthTable<'t> {
    // The columns of the range that has the character, if one has it.
    fn columns_at(&self, c: char) -> Option<usize>
        ensures { result ≡ columns_at self.now.ranges.now c }
    {
        let c = u32::from(c);
        let place = self.ranges.partition_point(|range| range.last < c);
        given_by(range_at(self.ranges, place), c)
    }

    fn char_columns(&self, c: char) -> usize
        ensures { result ≡ char_columns self.now.ranges.now c }
    {
        self.columns_at(c).unwrap_or_else(|| c.width().unwrap_or(1))
    }

    fn has_any(&self, text: &str) -> bool
        ensures { result ≡ has_any self.now.ranges.now (chars text.now) }
    {
        text.chars().any(|c| self.columns_at(c).is_some())
    }

    // The columns of the characters together, up to two.
    fn added(&self, text: &str) -> usize
        ensures { result ≡ min (sum_by (char_columns self.now.ranges.now) (chars text.now)) 2 }
    {
        let mut columns = 0;
        for c in text.chars() {
            columns = self.char_columns(c).saturating_add(columns).min(2);
        }
        columns
    }

    // A character of printable ASCII is not looked up.
    #[tactic(auto, using(crate::proofs::WidthTables::plain_columns))]
    pub(crate) fn width(&self, text: &str) -> usize
        ensures { result ≡ columns_in self.now.ranges.now text.now }
    {
        if is_one_plain(text) {
            1
        } else if self.has_any(text) {
            self.added(text)
        } else {
            UnicodeWidths.width(text, None)
        }
    }

    // Printable ASCII is in no range that gives it another width.
    #[tactic(auto, using(crate::proofs::WidthTables::narrow_by_table))]
    pub(crate) fn has_narrow_ascii(&self) -> bool
        ensures { IsTrue result → HasNarrowAscii (columns_in self.now.ranges.now) }
    {
        true
    }
}
