//! Lines by themselves: a heading, letters that are set at once, and the word under a pointer.
ghost use Rattle.std.specs.Prelude.{◌≡◌, ◌<◌, ◌≤◌, IfOk, OnErr, false, length, true};
ghost use Rattle.uses.specs.{IsLower, IsUnchanged, IsUpper, SetsFirstLetters, default_attributes};
ghost use Rattle.uses.specs.{is_in_word, measure, no_flags, stored_text, visible, with_sizes};

use std::alloc::{AllocError, Global};
use std::ops::Range;
use termwiz_surface::line::line::DoubleClickRange;
use termwiz_surface::{CellAttributes, Line, SequenceNo, Widths, split_letter_run};

/// A line of a text that is shown twice as wide, with a number.
pub fn heading<W: Widths>(
    alloc: Global,
    text: &str,
    seqno: SequenceNo,
    widths: &W,
) -> Result<Line, AllocError>
    ensures text { IfOk result (λ line. line.cells
        ≡ stored_text (measure W.width_of widths.now) default_attributes text.now) }
    ensures wide { IfOk result (λ line. line.flags ≡ with_sizes true false false no_flags) }
    ensures numbered { IfOk result (λ line. line.seqno ≡ seqno) }
{
    let mut line = Line::from_plain(alloc, text, widths)?;
    line.set_double_width(seqno);
    Ok(line)
}

/// Sets the letters of kana and the common ideographs that a text begins with, in order from a
/// column on, as many as fit in `columns` columns, and returns what follows them in the text. The
/// line takes the number, and keeps its flags. On an error number, flags and cells are as before.
pub fn set_first_letters<'a>(
    line: &mut Line,
    column: usize,
    columns: usize,
    text: &'a str,
    seqno: SequenceNo,
) -> Result<&'a str, AllocError>
    ensures ok { IfOk result (λ rest. SetsFirstLetters column columns text.now rest.now seqno
        line.old line.new) }
    ensures err { OnErr result (IsUnchanged line.old line.new) }
{
    let (letters, rest) = split_letter_run(text, columns / 2);
    line.set_letters(column, letters, &CellAttributes::blank(), seqno)?;
    Ok(rest)
}

/// The columns of the word at a column of a line: the longest run of cells there that are no
/// spaces.
pub fn word_at(line: &Line, column: usize) -> Range<usize>
    requires { column < length line.now.cells }
    ensures start { IsLower is_in_word (visible line.now.cells) column result.start }
    ensures end { IsUpper is_in_word (visible line.now.cells) column result.end }
    ensures before { result.start ≤ column }
    ensures behind { column ≤ result.end }
    ensures within { result.end ≤ length line.now.cells }
{
    match line.compute_double_click_range(column, |text| text != " ") {
        DoubleClickRange::Range(columns) => columns,
        DoubleClickRange::RangeWithWrap(columns) => columns,
    }
}
