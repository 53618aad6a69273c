//! The pieces of texts.
ghost use Rattle.std.specs.Prelude.{◌≡◌, ◌*◌, ◌<◌, ◌≤◌, [], Bool, IfOk, Ok, drop, false, length};
ghost use Rattle.std.specs.Str.{chars};
ghost use Rattle.cbor.specs.Decoding.{Gives, allowed};
ghost use Rattle.termwiz_cell.specs.CellValue.{is_control};
ghost use Rattle.termwiz_cell.specs.Measure.{measure};
ghost use Rattle.std.specs.List.{list_any};
ghost use Rattle.termwiz_wire.specs.Cuts.{begins_line_feed, is_line_end, is_return};
ghost use Rattle.termwiz_wire.specs.Cuts.{are_at, are_characters, are_columns, are_pieces, cut_at};
ghost use Rattle.termwiz_wire.specs.Cuts.{have_columns, is_break, is_count, is_piece};
ghost use Rattle.termwiz_wire.specs.Cuts.{is_rest_at, is_run_at, kept_at, no_run, run_at, runs_at};
ghost use Rattle.termwiz_wire.specs.Cuts.{same_at, threes_at};
ghost use Rattle.termwiz_wire.specs.Pieces.{runs};

use crate::pieces::{Run, Runs};
use cbor::{ReadError, Reader};
use std::alloc::{AllocError, Global};
use termwiz_cell::emoji::Widths;

/// Decodes the list of runs ahead as far as it agrees with the `count` runs of a text, and returns
/// whether it is theirs.
#[tactic(auto, unfolding(crate::specs::Cuts::same_at))]
pub(super) fn are_same<W: Widths>(
    reader: &mut Reader<'_>,
    widths: &W,
    text: &str,
    count: usize,
) -> Result<bool, ReadError>
    requires { count ≡ length (runs (measure W.width_of widths.now) text.now) }
    ensures value { Gives (allowed reader.new.room reader.new.bytes.now)
        (λ x. (x, reader.new.bytes.now)) result
        (same_at reader.old.room (runs (measure W.width_of widths.now) text.now)
        reader.old.bytes.now) }
    ensures room { reader.new.room ≡ reader.old.room }
{
    let start = reader.bytes;
    let numbers = reader.array()?;
    if numbers % 3 != 0 || numbers / 3 != count {
        return Ok(false);
    }
    reader.bytes = start;
    let _numbers = reader.list()?;
    are_runs(reader, widths, text)
}

fn are_runs<W: Widths>(reader: &mut Reader<'_>, widths: &W, text: &str) -> Result<bool, ReadError>
    ensures value { Gives (allowed reader.new.room reader.new.bytes.now)
        (λ x. (x, reader.new.bytes.now)) result
        (are_at reader.old.room (runs (measure W.width_of widths.now) text.now)
        reader.old.bytes.now) }
    ensures room { reader.new.room ≡ reader.old.room }
{
    for run in Runs::new(widths, text) {
        if !is_run(reader, run)? {
            return Ok(false);
        }
    }
    Ok(true)
}

#[tactic(auto, unfolding(crate::specs::Cuts::is_run_at))]
pub(super) fn is_run(reader: &mut Reader<'_>, run: Run) -> Result<bool, ReadError>
    ensures value { Gives (allowed reader.new.room reader.new.bytes.now)
        (λ x. (x, reader.new.bytes.now)) result
        (is_run_at reader.old.room run reader.old.bytes.now) }
    ensures room { reader.new.room ≡ reader.old.room }
{
    let count = reader.unsigned()?;
    if count != run.count {
        return Ok(false);
    }
    is_rest(reader, run)
}

#[tactic(auto, unfolding(crate::specs::Cuts::is_rest_at))]
fn is_rest(reader: &mut Reader<'_>, run: Run) -> Result<bool, ReadError>
    ensures value { Gives (allowed reader.new.room reader.new.bytes.now)
        (λ x. (x, reader.new.bytes.now)) result
        (is_rest_at reader.old.room run reader.old.bytes.now) }
    ensures room { reader.new.room ≡ reader.old.room }
{
    let size = reader.unsigned()?;
    if size != run.characters {
        return Ok(false);
    }
    let columns = reader.unsigned()?;
    Ok(columns == run.columns)
}

/// Decodes the pieces of a text by their rules alone.
#[tactic(auto, unfolding(crate::specs::Cuts::cut_at))]
pub(super) fn cut_of(alloc: Global, text: &str, reader: &mut Reader<'_>) -> Result<(), ReadError>
    ensures value { Gives (allowed reader.new.room reader.new.bytes.now)
        (λ _. reader.new.bytes.now) result
        (cut_at reader.old.room text.now reader.old.bytes.now) }
    ensures room { reader.new.room ≡ reader.old.room }
{
    let start = reader.bytes;
    let count = threes_of(reader)?;
    let characters = characters_in(alloc, text)?;
    if all_runs(reader, characters.as_slice(), count / 3)? {
        Ok(())
    } else {
        reader.bytes = start;
        Err(ReadError::Range)
    }
}

// The characters of a text.
#[tactic(auto, using(std::proofs::lemmas::Str::chars_from_encodes))]
pub(super) fn characters_in(alloc: Global, text: &str) -> Result<Vec<char>, AllocError>
    ensures { IfOk result (λ cs. cs.items ≡ chars text.now) }
{
    text.chars().collect(alloc)
}

#[tactic(auto, unfolding(crate::specs::Cuts::threes_at))]
pub(super) fn threes_of(reader: &mut Reader<'_>) -> Result<usize, ReadError>
    ensures value { Gives (allowed reader.new.room reader.new.bytes.now)
        (λ x. (x, reader.new.bytes.now)) result
        (threes_at reader.old.room reader.old.bytes.now) }
    ensures room { reader.new.room ≡ reader.old.room }
{
    let start = reader.bytes;
    let count = reader.array()?;
    reader.bytes = start;
    if count % 3 != 0 {
        return Err(ReadError::Type);
    }
    reader.list()
}

// Decodes `count` runs of these characters, and returns whether they end with them and one of them
// is a reason to send the runs.
fn all_runs(reader: &mut Reader<'_>, characters: &[char], count: usize) -> Result<bool, ReadError>
    ensures value { Gives (allowed reader.new.room reader.new.bytes.now)
        (λ x. (x, reader.new.bytes.now)) result
        (runs_at reader.old.room no_run false characters.now count reader.old.bytes.now) }
    ensures room { reader.new.room ≡ reader.old.room }
{
    let mut last = Run {
        count: 0,
        characters: 0,
        columns: 0,
    };
    let mut needed = false;
    let mut left = characters;
    for _ in 0..count {
        let run = run_of(reader, last, left)?;
        left = behind(run, left);
        needed |= run.stands_out();
        last = run;
    }
    Ok(needed && left.is_empty())
}

// The characters after a run.
fn behind(run: Run, left: &[char]) -> &[char]
    requires { run.count * run.characters ≤ length left.now }
    ensures { result.now ≡ drop (run.count * run.characters) left.now }
{
    &left[run.count * run.characters..]
}

// A run of the characters that are left, after the last one.
#[tactic(auto, unfolding(crate::specs::Cuts::run_at))]
pub(super) fn run_of(reader: &mut Reader<'_>, last: Run, left: &[char]) -> Result<Run, ReadError>
    ensures value { Gives (allowed reader.new.room reader.new.bytes.now)
        (λ x. (x, reader.new.bytes.now)) result
        (run_at reader.old.room last left.now reader.old.bytes.now) }
    ensures within { IfOk result (λ x. x.count * x.characters ≤ length left.now) }
    ensures room { reader.new.room ≡ reader.old.room }
{
    let count = count_of(reader, left)?;
    let characters = characters_of(reader, left, count)?;
    let columns = columns_of(reader, last, left, count, characters)?;
    Ok(Run {
        count,
        characters,
        columns,
    })
}

fn count_of(reader: &mut Reader<'_>, left: &[char]) -> Result<usize, ReadError>
    ensures value { Gives (allowed reader.new.room reader.new.bytes.now)
        (λ x. (x, reader.new.bytes.now)) result
        (kept_at reader.old.room (is_count left.now) reader.old.bytes.now) }
    ensures room { reader.new.room ≡ reader.old.room }
{
    let start = reader.bytes;
    let count = reader.unsigned()?;
    if 0 < count && count <= left.len() {
        Ok(count)
    } else {
        reader.bytes = start;
        Err(ReadError::Range)
    }
}

fn characters_of(reader: &mut Reader<'_>, left: &[char], count: usize) -> Result<usize, ReadError>
    ensures value { Gives (allowed reader.new.room reader.new.bytes.now)
        (λ x. (x, reader.new.bytes.now)) result
        (kept_at reader.old.room (are_characters left.now count) reader.old.bytes.now) }
    ensures within { IfOk result (λ x. count * x ≤ length left.now) }
    ensures room { reader.new.room ≡ reader.old.room }
{
    let start = reader.bytes;
    let size = reader.unsigned()?;
    if are_characters(left, count, size) {
        Ok(size)
    } else {
        reader.bytes = start;
        Err(ReadError::Range)
    }
}

fn are_characters(left: &[char], count: usize, size: usize) -> bool
    ensures { result ≡ are_characters left.now count size }
{
    match count.checked_mul(size) {
        Some(all) if all <= left.len() => 0 < size && are_pieces(count, size, left),
        _ => false,
    }
}

// Whether each of the next `count` pieces, of `size` characters, is one.
fn are_pieces(count: usize, size: usize, characters: &[char]) -> bool
    requires { count * size ≤ length characters.now }
    ensures { result ≡ are_pieces count size characters.now }
{
    let mut left = characters;
    for _ in 0..count {
        let (piece, rest) = left.split_at(size);
        if !is_piece(piece, rest) {
            return false;
        }
        left = rest;
    }
    true
}

// Whether characters before others are a piece: CR LF is not cut, and any other control is alone.
fn is_piece(piece: &[char], rest: &[char]) -> bool
    ensures { result ≡ is_piece piece.now rest.now }
{
    if is_return(piece) && begins_line_feed(rest) {
        return false;
    }
    piece.len() == 1 || is_line_end(piece) || !has_control(piece)
}

fn is_return(piece: &[char]) -> bool
    ensures { result ≡ is_return piece.now }
{
    matches!(piece, ['\r'])
}

fn is_line_end(piece: &[char]) -> bool
    ensures { result ≡ is_line_end piece.now }
{
    matches!(piece, ['\r', '\n'])
}

fn has_control(piece: &[char]) -> bool
    ensures { result ≡ list_any is_control piece.now }
{
    piece.iter().any(|c| is_control(*c))
}

fn begins_line_feed(characters: &[char]) -> bool
    ensures { result ≡ begins_line_feed characters.now }
{
    match characters {
        [first, ..] => *first == '\n',
        [] => false,
    }
}

fn is_control(c: char) -> bool
    ensures { result ≡ is_control c }
{
    c < ' ' || c == '\u{7f}'
}

fn columns_of(
    reader: &mut Reader<'_>,
    last: Run,
    left: &[char],
    count: usize,
    size: usize,
) -> Result<usize, ReadError>
    requires { count * size ≤ length left.now }
    ensures value { Gives (allowed reader.new.room reader.new.bytes.now)
        (λ x. (x, reader.new.bytes.now)) result
        (kept_at reader.old.room (are_columns last left.now count size) reader.old.bytes.now) }
    ensures room { reader.new.room ≡ reader.old.room }
{
    let start = reader.bytes;
    let columns = reader.unsigned()?;
    let run = Run {
        count,
        characters: size,
        columns,
    };
    if columns < 3 && have_columns(columns != 0, count, size, left) && !last.is_alike(&run) {
        Ok(columns)
    } else {
        reader.bytes = start;
        Err(ReadError::Range)
    }
}

// Whether each of the next pieces has columns, or each is a line break.
fn have_columns(wide: bool, count: usize, size: usize, characters: &[char]) -> bool
    requires { count * size ≤ length characters.now }
    ensures { result ≡ have_columns wide count size characters.now }
{
    let mut left = characters;
    for _ in 0..count {
        let (piece, rest) = left.split_at(size);
        if is_break(piece) == wide {
            return false;
        }
        left = rest;
    }
    true
}

fn is_break(piece: &[char]) -> bool
    ensures { result ≡ is_break piece.now }
{
    matches!(piece, ['\r'] | ['\n'] | ['\r', '\n'])
}
