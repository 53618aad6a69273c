//! Texts: their graphemes, the cells that these print, and their leading runs of ASCII and of
//! letters.
ghost use Rattle.std.specs.Prelude.{◌≡◌, ◌≤◌, ◌∷◌, [], IfOk, length, take, true};
ghost use Rattle.termwiz_screen.specs.{AreLetters, AreNarrow, AreWide, IsMeasured, IsMeasuredPiece};
ghost use Rattle.termwiz_screen.specs.{IsNarrowRun, IsWideRun, chars, graphemes, is_plain, measure};
ghost use Rattle.termwiz_screen.specs.{list_all, measured, piece_of, printed_cell};

use std::alloc::{AllocError, Global};
use termwiz_cell::cell::{Cell, CellAttributes};
use termwiz_cell::emoji::Widths;
use termwiz_text::{begins_letter, letter_at, letter_count, split_letter_run, split_plain_run};

/// How many bytes a letter has.
const LETTER_BYTES: usize = 3;

/// What a grapheme prints: a line break, or a cell.
#[derive(Drop, Debug)]
pub enum Piece {
    CarriageReturn,
    LineFeed,
    CarriageReturnLineFeed,
    Cell(Cell),
}

/// The piece that a grapheme prints with a pen.
#[inline(always)]
pub fn printed_piece<W: Widths>(
    alloc: Global,
    widths: &W,
    grapheme: &str,
    pen: &CellAttributes,
) -> Result<Piece, AllocError>
    requires { graphemes true grapheme.now ≡ grapheme.now ∷ [] }
    ensures piece { IfOk result (λ piece.
        piece ≡ piece_of (measure W.width_of widths.now) pen.now grapheme.now) }
    ensures measured { IfOk result (IsMeasuredPiece (measure W.width_of widths.now)) }
{
    Ok(match grapheme.as_bytes() {
        [b'\r'] => Piece::CarriageReturn,
        [b'\n'] => Piece::LineFeed,
        [b'\r', b'\n'] => Piece::CarriageReturnLineFeed,
        _ => Piece::Cell(printed_cell(alloc, widths, grapheme, pen)?),
    })
}

// The cell of a grapheme.
#[inline(always)]
#[tactic(auto, using(termwiz_cell::proofs::Graphemes::single_same))]
fn printed_cell<W: Widths>(
    alloc: Global,
    widths: &W,
    grapheme: &str,
    pen: &CellAttributes,
) -> Result<Cell, AllocError>
    requires { graphemes true grapheme.now ≡ grapheme.now ∷ [] }
    ensures cell { IfOk result (λ cell.
        cell ≡ printed_cell (measure W.width_of widths.now) pen.now grapheme.now) }
    ensures measured { IfOk result (IsMeasured (measure W.width_of widths.now)) }
{
    let attrs = pen.clone()?;
    let cell = Cell::new_grapheme(alloc, widths, grapheme, attrs, None)?;
    Ok(cell)
}

/// Whether a text begins with printable ASCII. No clause states it: it decides only whether to look
/// for a run.
pub fn begins_plain(text: &str) -> bool {
    matches!(text.as_bytes(), [b' '..=b'~', ..])
}

/// Whether a text begins with a letter and is longer. No clause states it: it decides only whether
/// to look for a run. A single letter is printed as any grapheme is.
#[inline]
pub fn begins_letters(text: &str) -> bool {
    text.len() > LETTER_BYTES && begins_letter(text)
}

// How many leading characters of a run of ASCII have at most one column each.
fn narrow_len<W: Widths>(widths: &W, run: &str) -> usize
    requires { list_all is_plain run.now ≡ true }
    ensures within { result ≤ length run.now }
    ensures narrow { AreNarrow (measure W.width_of widths.now) (take result run.now) }
{
    if widths.has_narrow_ascii() {
        return run.len();
    }
    for k in 0..run.len() {
        if widths.width(&run[k..k + 1], None) > 1 {
            return k;
        }
    }
    run.len()
}

/// The leading run of printable ASCII, of at most one column each, that fits in this many columns,
/// and the rest of the text.
pub fn split_narrow_run<'a, W: Widths>(
    widths: &W,
    text: &'a str,
    columns: usize,
) -> (&'a str, &'a str)
    ensures { IsNarrowRun (measure W.width_of widths.now) text.now columns result.0.now
        result.1.now }
{
    let (run, rest) = split_plain_run(text, columns);
    let narrow = narrow_len(widths, run);
    if narrow < run.len() {
        return split_plain_run(text, narrow);
    }
    (run, rest)
}

// How many leading letters of a run have two columns each.
fn wide_len<W: Widths>(widths: &W, run: &str) -> usize
    requires { AreLetters run.now }
    ensures within { result ≤ length (chars run.now) }
    ensures wide { AreWide (measure W.width_of widths.now) (take result (chars run.now)) }
{
    let count = letter_count(run);
    if widths.has_wide_letters() {
        return count;
    }
    for k in 0..count {
        if widths.width(letter_at(run, k), None) < 2 {
            return k;
        }
    }
    count
}

/// The leading run of letters, of two columns each, that fits in this many columns, and the rest of
/// the text.
pub fn split_wide_run<'a, W: Widths>(
    widths: &W,
    text: &'a str,
    columns: usize,
) -> (&'a str, &'a str)
    ensures { IsWideRun (measure W.width_of widths.now) text.now columns result.0.now
        result.1.now }
{
    let (run, rest) = split_letter_run(text, columns / 2);
    let wide = wide_len(widths, run);
    if wide < letter_count(run) {
        return split_letter_run(text, wide);
    }
    (run, rest)
}
