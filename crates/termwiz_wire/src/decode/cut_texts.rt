//! Texts whose pieces are not all there.
ghost use Rattle.std.specs.Prelude.{◌≡◌, ◌-◌, IfErr, IfOk, MatchOption, Option, drop, length};
ghost use Rattle.std.specs.Prelude.{option_map, ℕ};
ghost use Rattle.cbor.specs.Decoding.{Gives, Stops, allowed};
ghost use Rattle.termwiz_cell.specs.Measure.{measure};
ghost use Rattle.termwiz_wire.specs.CutTexts as texts;
ghost use Rattle.termwiz_wire.specs.CutTexts.{all_others, begun_pieces, other_part, own_part};
ghost use Rattle.termwiz_wire.specs.CutTexts.{pieces_part, pieces_rest_at, text_begun_at};
ghost use Rattle.termwiz_wire.specs.CutTexts.{text_part, with_pieces_at};
ghost use Rattle.termwiz_wire.specs.Decoding.{change_at};
ghost use Rattle.termwiz_wire.specs.Pieces.{runs};
ghost use Rattle.termwiz_wire.specs.Resuming.{AreWithin, Compares, EndsIn, HasReadRuns};
ghost use Rattle.termwiz_wire.specs.Resuming.{IsBegunText, MayBeginText, ReachesRun};
ghost use Rattle.termwiz_wire.specs.Resuming.{ReadsOthers, ReadsRuns, StopsTruncated};

use super::changes::{count_of, kind_of};
use super::cuts::{characters_in, is_run, run_of, threes_of};
use super::other_runs::OtherRuns;
use crate::pieces::{Run, needed_runs, runs_of};
use cbor::{ReadError, Reader};
use std::alloc::{AllocError, Global};
use termwiz_cell::emoji::Widths;

/// What was decoded of a change of a text with pieces.
#[derive(Debug, Drop)]
pub(super) struct BegunText {
    pub(super) places: Places,
    pub(super) pieces: BegunPieces,
}

/// Where parts of a change of a text begin, in bytes from the answer's front: a fault that isn't of
/// a run is of one of these.
#[derive(Clone, Copy, Debug)]
pub(super) struct Places {
    pub(super) change: usize,
    text: usize,
    list: usize,
    // The first run.
    runs: usize,
}

/// What was decoded of a text's pieces.
#[derive(Debug, Drop)]
pub(super) enum BegunPieces {
    /// So far they are those of the text here.
    Own(OwnRuns),
    /// The text has others here, or needs none. They are decoded for their fault.
    Other(OtherRuns),
}

#[derive(Debug, Drop)]
pub(super) struct OwnRuns {
    text: String,
    runs: Vec<Run>,
    // How many of them are decoded.
    read: usize,
}

/// What the bytes have of a text.
#[derive(Debug, Drop)]
pub(super) enum ReadPieces {
    Whole(String),
    Cut(BegunPieces),
}

/// Decodes what the change at the front of the bytes has of a text whose list of pieces has begun:
/// the reader is then before the run that is cut. For any other change the reader stays.
pub(super) fn begin_text<'a, W: Widths>(
    alloc: Global,
    widths: &W,
    hand: &'a [u8],
    reader: &mut Reader<'a>,
) -> Result<Option<BegunText>, AllocError>
    requires { EndsIn hand.now reader.old.bytes.now }
    ensures begins { (rows : Option ℕ) →
        StopsTruncated (change_at (measure W.width_of widths.now) reader.old.room rows
        reader.old.bytes.now) →
        IfOk result (λ x. MayBeginText (measure W.width_of widths.now) reader.old.room hand.now
        reader.old.bytes.now (option_map text_part x) reader.new.bytes.now) }
{
    let start = reader.rest();
    match text_begun_of(alloc, widths, hand.len(), reader) {
        Ok(text) => {
            let BegunText { places, pieces } = text;
            let cut = cut_pieces(alloc, places, pieces, hand, reader)?;
            match cut {
                Some(pieces) => Ok(Some(BegunText { places, pieces })),
                None => {
                    reader.bytes = start;
                    Ok(None)
                }
            }
        }
        Err(error) => match error {
            ReadError::Memory => Err(AllocError),
            _ => {
                reader.bytes = start;
                Ok(None)
            }
        },
    }
}

// The pieces of a text that is cut, with those of their runs that are there. The reader is then
// before the one that is cut.
fn cut_pieces<'a>(
    alloc: Global,
    places: Places,
    pieces: BegunPieces,
    hand: &'a [u8],
    reader: &mut Reader<'a>,
) -> Result<Option<BegunPieces>, AllocError>
    requires end { EndsIn hand.now reader.old.bytes.now }
    requires within { AreWithin places (length hand.now - length reader.old.bytes.now) }
    ensures { StopsTruncated (pieces_rest_at reader.old.room places (pieces_part pieces) hand.now
        reader.old.bytes.now) →
        IfOk result (λ x. MatchOption x ⊥ (λ more. HasReadRuns reader.old.room places
        (pieces_part pieces) hand.now reader.old.bytes.now (pieces_part more)
        reader.new.bytes.now
        × ReachesRun reader.old.room (pieces_part more) reader.new.bytes.now)) }
{
    match read_pieces(alloc, places, pieces, hand, reader) {
        Ok(read) => match read {
            ReadPieces::Cut(pieces) => Ok(Some(pieces)),
            ReadPieces::Whole(_) => Ok(None),
        },
        Err(error) => match error {
            ReadError::Memory => Err(AllocError),
            _ => Ok(None),
        },
    }
}

// Decodes a change of a text, up to the first run, of an answer that has `len` bytes so far.
#[tactic(auto, unfolding(crate::specs::CutTexts::text_begun_at))]
fn text_begun_of<W: Widths>(
    alloc: Global,
    widths: &W,
    len: usize,
    reader: &mut Reader<'_>,
) -> Result<BegunText, ReadError>
    ensures begins { IfOk result (λ x. IsBegunText (measure W.width_of widths.now) reader.old.room
        len reader.old.bytes.now (text_part x) reader.new.bytes.now) }
    ensures stops { IfErr result (λ e. Stops (allowed reader.new.room reader.new.bytes.now) e
        (text_begun_at reader.old.room reader.old.bytes.now)) }
    ensures room { reader.new.room ≡ reader.old.room }
{
    let change = len.saturating_sub(reader.bytes.len());
    with_pieces_of(reader)?;
    let start = len.saturating_sub(reader.bytes.len());
    let text = reader.text()?;
    let list = len.saturating_sub(reader.bytes.len());
    let numbers = threes_of(reader)?;
    let runs = len.saturating_sub(reader.bytes.len());
    Ok(BegunText {
        places: Places {
            change,
            text: start,
            list,
            runs,
        },
        pieces: begun_pieces(alloc, widths, text, numbers / 3)?,
    })
}

// Decodes the head of a change of a text with pieces.
#[tactic(auto, unfolding(crate::specs::CutTexts::with_pieces_at))]
fn with_pieces_of(reader: &mut Reader<'_>) -> Result<(), ReadError>
    ensures value { Gives (allowed reader.new.room reader.new.bytes.now)
        (λ _. reader.new.bytes.now) result
        (with_pieces_at reader.old.room reader.old.bytes.now) }
    ensures room { reader.new.room ≡ reader.old.room }
{
    let count = count_of(reader)?;
    let kind = kind_of(reader, count)?;
    if kind == 2 && count == 3 {
        Ok(())
    } else {
        Err(ReadError::Type)
    }
}

// `count` runs of this text, of which none is decoded.
fn begun_pieces<W: Widths>(
    alloc: Global,
    widths: &W,
    text: &str,
    count: usize,
) -> Result<BegunPieces, AllocError>
    ensures { IfOk result (λ x. pieces_part x
        ≡ begun_pieces text.now (runs (measure W.width_of widths.now) text.now) count) }
{
    match needed_runs(widths, text) {
        Some(needed) if needed == count => Ok(BegunPieces::Own(OwnRuns {
            text: String::from_str(alloc, text)?,
            runs: runs_of(alloc, widths, text)?,
            read: 0,
        })),
        _ => Ok(BegunPieces::Other(all_others(alloc, text, count)?)),
    }
}

// `count` runs of this text, by their rules alone.
fn all_others(alloc: Global, text: &str, count: usize) -> Result<OtherRuns, AllocError>
    ensures { IfOk result (λ x. other_part x ≡ all_others text.now count) }
{
    Ok(OtherRuns {
        characters: characters_in(alloc, text)?,
        passed: 0,
        last: Run {
            count: 0,
            characters: 0,
            columns: 0,
        },
        needed: false,
        left: count,
    })
}

/// Decodes the runs that are left. Where the bytes end within one, the reader is before it.
pub(super) fn read_pieces<'a>(
    alloc: Global,
    places: Places,
    pieces: BegunPieces,
    hand: &'a [u8],
    reader: &mut Reader<'a>,
) -> Result<ReadPieces, ReadError>
    requires end { EndsIn hand.now reader.old.bytes.now }
    requires within { AreWithin places (length hand.now - length reader.old.bytes.now) }
    ensures reads { ReadsRuns reader.old.room places (pieces_part pieces) hand.now
        reader.old.bytes.now result (allowed reader.new.room reader.new.bytes.now)
        reader.new.bytes.now }
    ensures room { reader.new.room ≡ reader.old.room }
{
    match pieces {
        BegunPieces::Own(own) => read_own(alloc, places, own, hand, reader),
        BegunPieces::Other(other) => read_other(places, other, hand, reader),
    }
}

// Decodes the text's own runs, or where one differs all of them by their rules.
fn read_own<'a>(
    alloc: Global,
    places: Places,
    own: OwnRuns,
    hand: &'a [u8],
    reader: &mut Reader<'a>,
) -> Result<ReadPieces, ReadError>
    requires end { EndsIn hand.now reader.old.bytes.now }
    requires within { AreWithin places (length hand.now - length reader.old.bytes.now) }
    ensures reads { ReadsRuns reader.old.room places (texts.Own (own_part own)) hand.now
        reader.old.bytes.now result (allowed reader.new.room reader.new.bytes.now)
        reader.new.bytes.now }
    ensures room { reader.new.room ≡ reader.old.room }
{
    let OwnRuns {
        text,
        runs,
        mut read,
    } = own;
    match compare(runs.as_slice(), &mut read, reader) {
        Ok(true) => Ok(ReadPieces::Whole(text)),
        Ok(false) => {
            reader.bytes = &hand[places.runs..];
            let other = all_others(alloc, text.as_str(), runs.len())?;
            read_other(places, other, hand, reader)
        }
        Err(error) => match error {
            ReadError::Truncated => {
                Ok(ReadPieces::Cut(BegunPieces::Own(OwnRuns { text, runs, read })))
            }
            _ => Err(error),
        },
    }
}

// Whether the runs ahead are these, from this one on. Where the bytes end within one, it fails with
// `Truncated`, and the reader is before it.
fn compare(runs: &[Run], read: &mut usize, reader: &mut Reader<'_>) -> Result<bool, ReadError>
    ensures compares { Compares reader.old.room (drop read.old runs.now) reader.old.bytes.now
        result (drop read.new runs.now) (allowed reader.new.room reader.new.bytes.now)
        reader.new.bytes.now }
    ensures room { reader.new.room ≡ reader.old.room }
{
    'runs: while *read < runs.len() {
        let start = reader.rest();
        match is_run(reader, runs[*read]) {
            Ok(true) => *read += 1,
            Ok(false) => return Ok(false),
            Err(error) => match error {
                ReadError::Truncated => {
                    reader.bytes = start;
                    return Err(error);
                }
                _ => return Err(error),
            },
        }
    }
    Ok(true)
}

// Decodes other runs than the text's, which end in a fault.
fn read_other<'a>(
    places: Places,
    other: OtherRuns,
    hand: &'a [u8],
    reader: &mut Reader<'a>,
) -> Result<ReadPieces, ReadError>
    requires end { EndsIn hand.now reader.old.bytes.now }
    requires within { AreWithin places (length hand.now - length reader.old.bytes.now) }
    ensures reads { ReadsRuns reader.old.room places (texts.Other (other_part other)) hand.now
        reader.old.bytes.now result (allowed reader.new.room reader.new.bytes.now)
        reader.new.bytes.now }
    ensures room { reader.new.room ≡ reader.old.room }
{
    let mut other = other;
    match read_others(&mut other, reader) {
        Ok(true) => {
            reader.bytes = &hand[places.text..];
            Err(ReadError::Measure)
        }
        Ok(false) => {
            reader.bytes = &hand[places.list..];
            Err(ReadError::Range)
        }
        Err(error) => match error {
            ReadError::Truncated => Ok(ReadPieces::Cut(BegunPieces::Other(other))),
            _ => Err(error),
        },
    }
}

// Whether the runs that are left keep the rules. Where the bytes end within one, it fails with
// `Truncated`, and the reader is before it.
fn read_others(other: &mut OtherRuns, reader: &mut Reader<'_>) -> Result<bool, ReadError>
    ensures reads { ReadsOthers reader.old.room (other_part other.old) reader.old.bytes.now result
        (other_part other.new) (allowed reader.new.room reader.new.bytes.now)
        reader.new.bytes.now }
    ensures room { reader.new.room ≡ reader.old.room }
{
    'runs: while other.left > 0 {
        let start = reader.rest();
        match run_of(reader, other.last, &other.characters[other.passed..]) {
            Ok(run) => {
                other.passed += run.count * run.characters;
                other.last = run;
                other.needed |= run.stands_out();
                other.left -= 1;
            }
            Err(error) => match error {
                ReadError::Truncated => {
                    reader.bytes = start;
                    return Err(error);
                }
                _ => return Err(error),
            },
        }
    }
    Ok(other.needed && other.passed == other.characters.len())
}
