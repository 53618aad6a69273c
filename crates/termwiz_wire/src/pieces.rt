//! The pieces that a text is printed in, and their runs.
ghost use Rattle.std.specs.Prelude.{◌≡◌, ◌<◌, ◌≤◌, ◌+◌, ◌^◌, ◌∷◌, [], length, true, false, List};
ghost use Rattle.std.specs.Prelude.{IfOk, IfSome, MatchOption};
ghost use Rattle.std.specs.Option.{ForSome};
ghost use Rattle.std.specs.Str.{chars};
ghost use Rattle.unicode_segmentation.specs.Grapheme.{graphemes};
ghost use Rattle.termwiz_cell.specs.Attributes.{default_attributes};
ghost use Rattle.termwiz_cell.specs.CellValue.{clean, columns};
ghost use Rattle.termwiz_cell.specs.Measure.{measure};
ghost use Rattle.termwiz_screen.specs.Print.{piece_of, printed_cell};
ghost use Rattle.termwiz_wire.specs.Beginning.{IsBeginning, NeedsPieces};
ghost use Rattle.termwiz_wire.specs.Pieces.{alike, before, needs_pieces, piece_columns, runs};
ghost use Rattle.termwiz_wire.specs.Pieces.{stands_out};

use std::alloc::{AllocError, Global};
use termwiz_cell::emoji::Widths;
use termwiz_screen::print::{begins_letters, begins_plain, split_narrow_run, split_wide_run};
use termwiz_text::{letter_count, split_first_grapheme};

/// `count` pieces in a row, of `characters` characters and `columns` columns each.
#[derive(Clone, Copy, PartialEq, Eq, Debug)]
pub(crate) struct Run {
    pub count: usize,
    pub characters: usize,
    pub columns: usize,
}

impl Run {
    /// Whether both are runs of equal pieces.
    pub(crate) fn is_alike(&self, other: &Run) -> bool
        ensures { result ≡ alike self.now other.now }
    {
        self.characters == other.characters && self.columns == other.columns
    }

    /// Whether its pieces have two columns, or several characters that are no CR LF.
    pub(crate) fn stands_out(&self) -> bool
        ensures { result ≡ stands_out self.now }
    {
        self.columns > 1 || (self.characters > 1 && self.columns != 0)
    }
}

// The text that a cell shows for a grapheme: a space for a control character.
fn shown(grapheme: &str) -> &str
    ensures { result.now ≡ clean grapheme.now }
{
    match grapheme.as_bytes() {
        [] | b"\r\n" => " ",
        [byte] if *byte < 0x20 || *byte == 0x7f => " ",
        _ => grapheme,
    }
}

// The columns of the cell that a grapheme is printed in.
#[tactic(auto, using(termwiz_cell::proofs::Graphemes::single_same))]
fn cell_columns<W: Widths>(widths: &W, grapheme: &str) -> usize
    requires { graphemes true grapheme.now ≡ grapheme.now ∷ [] }
    ensures { result
        ≡ columns (printed_cell (measure W.width_of widths.now) default_attributes grapheme.now) }
{
    if widths.width(shown(grapheme), None) > 1 {
        2
    } else {
        1
    }
}

// The columns of a grapheme. A line break has none.
fn columns_of<W: Widths>(widths: &W, grapheme: &str) -> usize
    requires { graphemes true grapheme.now ≡ grapheme.now ∷ [] }
    ensures { result ≡ piece_columns
        (piece_of (measure W.width_of widths.now) default_attributes grapheme.now) }
{
    match grapheme.as_bytes() {
        [b'\r'] | [b'\n'] | [b'\r', b'\n'] => 0,
        _ => cell_columns(widths, grapheme),
    }
}

// The run of printable ASCII that the text begins with.
fn split_ascii<'a, W: Widths>(widths: &W, text: &'a str) -> Option<(Run, &'a str)>
    ensures { IfSome result (λ (run, rest).
        IsBeginning (measure W.width_of widths.now) text.now run rest.now) }
{
    if !begins_plain(text) {
        return None;
    }
    let (run, rest) = split_narrow_run(widths, text, usize::MAX);
    if run.is_empty() {
        return None;
    }
    let run = Run {
        count: run.len(),
        characters: 1,
        columns: 1,
    };
    Some((run, rest))
}

// The run of letters of two columns that the text begins with.
fn split_letters<'a, W: Widths>(widths: &W, text: &'a str) -> Option<(Run, &'a str)>
    ensures { IfSome result (λ (run, rest).
        IsBeginning (measure W.width_of widths.now) text.now run rest.now) }
{
    if !begins_letters(text) {
        return None;
    }
    let (letters, rest) = split_wide_run(widths, text, usize::MAX);
    if letters.is_empty() {
        return None;
    }
    let run = Run {
        count: letter_count(letters),
        characters: 1,
        columns: 2,
    };
    Some((run, rest))
}

// How many characters a text has.
#[tactic(auto, using(std::proofs::lemmas::Str::chars_from_encodes))]
fn char_count(text: &str) -> usize
    ensures { result ≡ length (chars text.now) }
{
    text.chars().count()
}

// The piece that the text begins with.
fn split_piece<'a, W: Widths>(widths: &W, text: &'a str) -> Option<(Run, &'a str)>
    ensures { MatchOption result (runs (measure W.width_of widths.now) text.now ≡ [])
        (λ (run, rest). IsBeginning (measure W.width_of widths.now) text.now run rest.now) }
{
    let (grapheme, rest) = split_first_grapheme(text)?;
    let run = Run {
        count: 1,
        characters: char_count(grapheme),
        columns: columns_of(widths, grapheme),
    };
    Some((run, rest))
}

// A run of pieces that the text begins with, and what follows it, where it may go on.
fn split_run<'a, W: Widths>(widths: &W, text: &'a str) -> Option<(Run, &'a str)>
    ensures { MatchOption result (runs (measure W.width_of widths.now) text.now ≡ [])
        (λ (run, rest). IsBeginning (measure W.width_of widths.now) text.now run rest.now) }
{
    if let Some(split) = split_ascii(widths, text) {
        return Some(split);
    }
    if let Some(split) = split_letters(widths, text) {
        return Some(split);
    }
    split_piece(widths, text)
}

// The whole run that begins so and goes on in the rest, and the beginning of the next one.
fn whole_run<'a, W: Widths>(widths: &W, first: Run, rest: &'a str) -> (Run, Option<(Run, &'a str)>)
    requires { first.count + length rest.now < 2 ^ 64 }
    ensures runs { MatchOption result.1
        (before first (runs (measure W.width_of widths.now) rest.now) ≡ result.0 ∷ [])
        (λ (next, after). before first (runs (measure W.width_of widths.now) rest.now)
        ≡ result.0 ∷ before next (runs (measure W.width_of widths.now) after.now)) }
    ensures within { IfSome result.1 (λ (next, after).
        next.count + length after.now ≤ length rest.now) }
{
    let mut run = first;
    let mut left = rest;
    while let Some((next, after)) = split_run(widths, left) {
        if !run.is_alike(&next) {
            return (run, Some((next, after)));
        }
        run.count += next.count;
        left = after;
    }
    (run, None)
}

/// The runs of equal pieces of a text, each as long as it goes.
#[derive(Debug, Drop)]
pub(crate) struct Runs<'a, W> {
    widths: W,
    // the beginning of the next run, and what follows it
    next: Option<(Run, &'a str)>,
    ghost fits: { ForSome next (λ x. x.0.count + length x.1.now < 2 ^ 64) },
}

impl<'a, W: Widths> Runs<'a, W> {
    ghost use Rattle.termwiz_wire.specs.RunsLeft.{runs_left};

    /// The runs of this text.
    pub(crate) fn new(widths: &W, text: &'a str) -> Runs<'a, W>
        ensures { runs_left W.width_of result ≡ runs (measure W.width_of widths.now) text.now }
    {
        Runs {
            widths: *widths,
            next: split_run(widths, text),
        }
    }
}

impl<'a, W: Widths> Iterator for Runs<'a, W> {
    ghost use Rattle.std.specs.Iterator.{YieldsFirst, item_count};
    ghost use Rattle.termwiz_wire.specs.RunsLeft.{runs_left};

    type Item = Run;

    ghost next_gives = { YieldsFirst (runs_left W.width_of) };

    ghost remaining = { item_count (runs_left W.width_of) };

    fn next(&mut self) -> Option<Run> {
        let (first, rest) = self.next?;
        let (run, next) = whole_run(&self.widths, first, rest);
        self.next = next;
        Some(run)
    }
}

/// The runs of a text.
pub(crate) fn runs_of<W: Widths>(
    alloc: Global,
    widths: &W,
    text: &str,
) -> Result<Vec<Run>, AllocError>
    ensures { IfOk result (λ rs. rs.items ≡ runs (measure W.width_of widths.now) text.now) }
{
    Runs::new(widths, text).collect(alloc)
}

/// Whether a text of these runs is sent with them.
pub(crate) fn needs_runs(runs: &[Run]) -> bool
    ensures { result ≡ needs_pieces runs.now }
{
    runs.iter().any(Run::stands_out)
}

/// Whether a text is sent with its pieces.
pub(crate) fn needs_pieces<W: Widths>(widths: &W, text: &str) -> bool
    ensures { result ≡ needs_pieces (runs (measure W.width_of widths.now) text.now) }
{
    needed_runs(widths, text).is_some()
}

/// How many runs a text is sent with, where it needs its pieces. Most texts are ASCII, and need
/// none.
#[inline]
pub(crate) fn needed_runs<W: Widths>(widths: &W, text: &str) -> Option<usize>
    ensures { MatchOption result
        (needs_pieces (runs (measure W.width_of widths.now) text.now) ≡ false)
        (λ count. NeedsPieces count (runs (measure W.width_of widths.now) text.now)) }
{
    if widths.has_narrow_ascii() && text.is_ascii() {
        return None;
    }
    counted_runs(widths, text)
}

#[inline(never)]
fn counted_runs<W: Widths>(widths: &W, text: &str) -> Option<usize>
    ensures { MatchOption result
        (needs_pieces (runs (measure W.width_of widths.now) text.now) ≡ false)
        (λ count. NeedsPieces count (runs (measure W.width_of widths.now) text.now)) }
{
    let mut count = 0;
    let mut needed = false;
    for run in Runs::new(widths, text) {
        count += 1;
        needed = needed || run.stands_out();
    }
    if needed { Some(count) } else { None }
}
