//! Changes.
ghost use Rattle.std.specs.Prelude.{◌≡◌, ◌≢◌, ◌++◌, ◌+◌, ◌-◌, ◌<◌, ◌≤◌, ◌^◌, [], IfOk, IfSome};
ghost use Rattle.std.specs.Prelude.{List, None, OnErr, OnOk, drop, length, ℕ};
ghost use Rattle.std.specs.Prelude.{false, map, true};
ghost use Rattle.cbor.specs.Decoding.{Gives, allowed, ok};
ghost use Rattle.termwiz_cell.specs.ChangeValue as changed;
ghost use Rattle.termwiz_cell.specs.ChangeValue.{ChangeValue, change_value};
ghost use Rattle.termwiz_cell.specs.Measure.{measure};
ghost use Rattle.termwiz_surface.specs.Unlogged.{lent_value};
ghost use Rattle.termwiz_wire.specs.Answers.{Decodes, Halts, changes_at, changes_in, each_at};
ghost use Rattle.termwiz_wire.specs.Answers.{halted, next_at, one_change_at};
ghost use Rattle.termwiz_wire.specs.Cuts.{others_at, pieces_at, pieces_by};
ghost use Rattle.termwiz_wire.specs.Decoding.{change_at, change_by, change_kind_at, count_at};
ghost use Rattle.termwiz_wire.specs.Decoding.{has_count, is_on, place_at, printed_at};
ghost use Rattle.termwiz_wire.specs.Decoding.{region_size_at, scroll_at};
ghost use Rattle.termwiz_wire.specs.Encoding.{change, changes};
ghost use Rattle.termwiz_wire.specs.Forms.{AreChanges, IsChange};
ghost use Rattle.termwiz_wire.specs.Pieces.{runs};
ghost use Rattle.termwiz_wire.specs.Beginning.{NeedsPieces};
ghost use Rattle.termwiz_wire.specs.Work.{cost, head_rows, most_work};

use super::attributes::{attribute_change_of, attributes_of};
use super::cuts::{are_same, cut_of};
use super::halted::Halted;
use super::heads::Head;
use super::small::{color_of, position_of, visibility_of};
use crate::encode::change_count;
use crate::fault::WireError;
use crate::pieces::needed_runs;
use crate::work::spent_with;
use cbor::{ReadError, Reader};
use std::alloc::{AllocError, Global};
use termwiz_cell::change::{Change, CursorShape, LineAttribute};
use termwiz_cell::color::ColorAttribute;
use termwiz_cell::emoji::Widths;
use termwiz_surface::LentChange;

/// Decodes the change at the front of the bytes, and returns how many bytes it takes. The region of
/// a scroll may lie anywhere.
pub fn decode_change<W: Widths>(
    alloc: Global,
    widths: &W,
    bytes: &[u8],
) -> Result<(Change, usize), WireError>
    // An encoded change is decoded again, whatever follows it.
    ensures again { (c : ChangeValue) (rest : List ℕ) →
        IsChange (measure W.width_of widths.now) c →
        bytes.now ≡ change (measure W.width_of widths.now) c ++ rest →
        Decodes (λ x. (change_value x.0, drop x.1 bytes.now)) result (ok c rest) }
    // The bytes that are taken are the encoding of what is decoded.
    ensures found { IfOk result (λ x.
        (bytes.now ≡ change (measure W.width_of widths.now) (change_value x.0)
        ++ drop x.1 bytes.now)
        × (x.1 ≤ length bytes.now)) }
    // It is this value, or this fault.
    ensures exact { Decodes (λ x. (change_value x.0, drop x.1 bytes.now)) result
        (one_change_at (measure W.width_of widths.now) bytes.now) }
{
    let mut reader = Reader::with_limit(bytes, usize::MAX);
    let len = reader.rest().len();
    match one_change_of(alloc, widths, &mut reader) {
        Ok(value) => Ok((value, len.saturating_sub(reader.bytes.len()))),
        Err(halted) => Err(halted.located(len.saturating_sub(reader.bytes.len()))),
    }
}

/// Decodes the list of changes at the front of the bytes, and returns how many bytes it takes. The
/// regions of scrolls may lie anywhere.
pub fn decode_changes<W: Widths>(
    alloc: Global,
    widths: &W,
    bytes: &[u8],
) -> Result<(Vec<Change>, usize), WireError>
    // Encoded changes are decoded again, whatever follows them.
    ensures again { (cs : List ChangeValue) (rest : List ℕ) →
        AreChanges (measure W.width_of widths.now) cs →
        bytes.now ≡ changes (measure W.width_of widths.now) cs ++ rest →
        Decodes (λ x. (map change_value x.0.items, drop x.1 bytes.now)) result (ok cs rest) }
    // The bytes that are taken are the encoding of what is decoded.
    ensures found { IfOk result (λ x.
        (bytes.now ≡ changes (measure W.width_of widths.now) (map change_value x.0.items)
        ++ drop x.1 bytes.now)
        × (x.1 ≤ length bytes.now)) }
    // There are no more of them than bytes that they take.
    ensures bounded { IfOk result (λ x. length x.0.items ≤ x.1) }
    // It is this value, or this fault.
    ensures exact { Decodes (λ x. (map change_value x.0.items, drop x.1 bytes.now)) result
        (changes_at (measure W.width_of widths.now) bytes.now) }
{
    let mut reader = Reader::with_limit(bytes, usize::MAX);
    let len = reader.rest().len();
    match changes_of(alloc, widths, &mut reader) {
        Ok(value) => Ok((value, len.saturating_sub(reader.bytes.len()))),
        Err(halted) => Err(halted.located(len.saturating_sub(reader.bytes.len()))),
    }
}

fn one_change_of<W: Widths>(
    alloc: Global,
    widths: &W,
    reader: &mut Reader<'_>,
) -> Result<Change, Halted>
    ensures value { Halts (allowed reader.new.room reader.new.bytes.now)
        (λ x. (change_value x, reader.new.bytes.now)) result
        (halted None (change_at (measure W.width_of widths.now)
        reader.old.room None reader.old.bytes.now)) }
    ensures room { reader.new.room ≡ reader.old.room }
{
    match change_of(alloc, widths, None, reader) {
        Ok(change) => Ok(owned(alloc, change)?),
        Err(error) => Err(Halted {
            error,
            change: None,
        }),
    }
}

#[tactic(auto, unfolding(crate::specs::Answers::changes_in))]
fn changes_of<W: Widths>(
    alloc: Global,
    widths: &W,
    reader: &mut Reader<'_>,
) -> Result<Vec<Change>, Halted>
    ensures value { Halts (allowed reader.new.room reader.new.bytes.now)
        (λ x. (map change_value x.items, reader.new.bytes.now)) result
        (changes_in (measure W.width_of widths.now) reader.old.room None reader.old.bytes.now) }
    ensures room { reader.new.room ≡ reader.old.room }
{
    let count = match reader.list() {
        Ok(count) => count,
        Err(error) => {
            return Err(Halted {
                error,
                change: None,
            });
        }
    };
    each_of(alloc, widths, None, count, reader)
}

/// Decodes `count` changes, of an answer with this head or by themselves.
pub(super) fn each_of<W: Widths>(
    alloc: Global,
    widths: &W,
    head: Option<Head>,
    count: usize,
    reader: &mut Reader<'_>,
) -> Result<Vec<Change>, Halted>
    requires { IfSome head (λ h. (h.width < 2 ^ 32) × (h.height < 2 ^ 32)) }
    ensures value { Halts (allowed reader.new.room reader.new.bytes.now)
        (λ x. (map change_value x.items, reader.new.bytes.now)) result
        (each_at (measure W.width_of widths.now)
        reader.old.room head [] count reader.old.bytes.now) }
    ensures room { reader.new.room ≡ reader.old.room }
{
    let mut changes = Vec::new(alloc);
    let mut spent = 0;
    for index in 0..count {
        let change = match next_of(alloc, widths, head, &mut spent, reader) {
            Ok(change) => change,
            Err(error) => {
                return Err(Halted {
                    error,
                    change: Some(index),
                });
            }
        };
        changes.push(owned(alloc, change)?)?;
    }
    Ok(changes)
}

/// Decodes the next change of an answer with this head, or of changes by themselves, which may cost
/// no more than the screen bears beside what was spent on those before it.
#[tactic(auto, unfolding(crate::specs::Answers::next_at))]
pub(super) fn next_of<'a, W: Widths>(
    alloc: Global,
    widths: &W,
    head: Option<Head>,
    spent: &mut u128,
    reader: &mut Reader<'a>,
) -> Result<LentChange<'a>, ReadError>
    requires size { IfSome head (λ h. (h.width < 2 ^ 32) × (h.height < 2 ^ 32)) }
    requires few { IfSome head (λ h. spent.old ≤ most_work h.width h.height) }
    ensures value { Gives (allowed reader.new.room reader.new.bytes.now)
        (λ x. (lent_value x, reader.new.bytes.now)) result
        (next_at (measure W.width_of widths.now)
        reader.old.room head spent.old reader.old.bytes.now) }
    ensures spent { IfOk result (λ x. spent.new ≡ spent.old + cost head (lent_value x)) }
    ensures few { OnOk result (IfSome head (λ h. spent.new ≤ most_work h.width h.height)) }
    ensures kept { OnErr result (spent.new ≡ spent.old) }
    ensures room { reader.new.room ≡ reader.old.room }
{
    let start = reader.bytes;
    let change = change_of(alloc, widths, rows_of(head), reader)?;
    match spent_with(head, *spent, &change) {
        Some(all) => {
            *spent = all;
            Ok(change)
        }
        None => {
            reader.bytes = start;
            Err(ReadError::Limit)
        }
    }
}

// The rows of the screen that an answer is for.
fn rows_of(head: Option<Head>) -> Option<usize>
    ensures { result ≡ head_rows head }
{
    match head {
        Some(head) => Some(head.height),
        None => None,
    }
}

/// Decodes a change, whose text is borrowed from the bytes.
#[tactic(auto, unfolding(crate::specs::Decoding::change_at))]
pub(super) fn change_of<'a, W: Widths>(
    alloc: Global,
    widths: &W,
    rows: Option<usize>,
    reader: &mut Reader<'a>,
) -> Result<LentChange<'a>, ReadError>
    ensures value { Gives (allowed reader.new.room reader.new.bytes.now)
        (λ x. (lent_value x, reader.new.bytes.now)) result
        (change_at (measure W.width_of widths.now) reader.old.room rows reader.old.bytes.now) }
    ensures room { reader.new.room ≡ reader.old.room }
{
    let count = count_of(reader)?;
    let kind = kind_of(reader, count)?;
    if kind == 2 {
        return printed_of(alloc, widths, count, reader);
    }
    values_of(alloc, rows, kind, reader)
}

/// Decodes how many items a change has: two to four.
#[inline(always)]
#[tactic(auto, unfolding(crate::specs::Decoding::count_at))]
pub(super) fn count_of(reader: &mut Reader<'_>) -> Result<usize, ReadError>
    ensures value { Gives (allowed reader.new.room reader.new.bytes.now)
        (λ x. (x, reader.new.bytes.now)) result
        (count_at reader.old.room reader.old.bytes.now) }
    ensures room { reader.new.room ≡ reader.old.room }
{
    let start = reader.bytes;
    let count = reader.array()?;
    if 1 < count && count < 5 {
        Ok(count)
    } else {
        reader.bytes = start;
        Err(ReadError::Type)
    }
}

/// Decodes the kind of a change of `count` items.
#[inline(always)]
#[tactic(auto, unfolding(crate::specs::Decoding::change_kind_at))]
pub(super) fn kind_of(reader: &mut Reader<'_>, count: usize) -> Result<usize, ReadError>
    ensures value { Gives (allowed reader.new.room reader.new.bytes.now)
        (λ x. (x, reader.new.bytes.now)) result
        (change_kind_at reader.old.room count reader.old.bytes.now) }
    ensures room { reader.new.room ≡ reader.old.room }
{
    let start = reader.bytes;
    let kind = reader.unsigned()?;
    if has_count(kind, count) {
        Ok(kind)
    } else {
        reader.bytes = start;
        Err(ReadError::Type)
    }
}

// Whether a change of this kind has `count` items: a text has one more with its pieces.
fn has_count(kind: usize, count: usize) -> bool
    ensures { result ≡ has_count kind count }
{
    kind < 14 && (count == change_count(kind) || kind == 2 && count == 3)
}

// The change of this kind, which is no text.
fn values_of<'a>(
    alloc: Global,
    rows: Option<usize>,
    kind: usize,
    reader: &mut Reader<'a>,
) -> Result<LentChange<'a>, ReadError>
    requires { kind ≢ 2 }
    ensures value { (measure : List ℕ → ℕ) (count : ℕ) →
        Gives (allowed reader.new.room reader.new.bytes.now)
        (λ x. (lent_value x, reader.new.bytes.now)) result
        (change_by measure reader.old.room rows count kind reader.old.bytes.now) }
    ensures room { reader.new.room ≡ reader.old.room }
{
    let change = match kind {
        0 => Change::Attribute(attribute_change_of(alloc, reader)?),
        1 => Change::AllAttributes(attributes_of(alloc, reader)?),
        3 | 4 | 5 | 7 => colored(kind, color_of(reader)?),
        6 => return place_of(reader),
        8 => Change::CursorShape(CursorShape::try_from(reader.below(7)? as u8).unwrap()),
        9 => Change::CursorVisibility(visibility_of(reader.boolean()?)),
        10 | 11 => return scroll_of(reader, rows, kind == 10),
        12 => return Ok(LentChange::Title(reader.text()?)),
        13 => Change::LineAttribute(LineAttribute::try_from(reader.below(4)? as u8).unwrap()),
        _ => return Err(ReadError::Type),
    };
    Ok(LentChange::Owned(change))
}

// The change of this kind that has a colour.
fn colored(kind: usize, color: ColorAttribute) -> Change
    ensures screen { kind ≡ 3 → change_value result ≡ changed.ClearScreen color }
    ensures line { kind ≡ 4 → change_value result ≡ changed.ClearToEndOfLine color }
    ensures rest { kind ≡ 5 → change_value result ≡ changed.ClearToEndOfScreen color }
    ensures cursor { kind ≡ 7 → change_value result ≡ changed.CursorColor color }
{
    match kind {
        3 => Change::ClearScreen(color),
        4 => Change::ClearToEndOfLine(color),
        5 => Change::ClearToEndOfScreen(color),
        _ => Change::CursorColor(color),
    }
}

/// The change, with a text of its own.
#[inline(always)]
pub(super) fn owned(alloc: Global, change: LentChange<'_>) -> Result<Change, AllocError>
    ensures { IfOk result (λ x. change_value x ≡ lent_value change.entry) }
{
    match change {
        LentChange::Text(text) => Ok(Change::Text(String::from_str(alloc, text)?)),
        LentChange::Title(title) => Ok(Change::Title(String::from_str(alloc, title)?)),
        LentChange::Owned(change) => Ok(change),
    }
}

// A text that is cut and measured here as it is sent.
#[tactic(auto, unfolding(crate::specs::Decoding::printed_at))]
fn printed_of<'a, W: Widths>(
    alloc: Global,
    widths: &W,
    count: usize,
    reader: &mut Reader<'a>,
) -> Result<LentChange<'a>, ReadError>
    ensures value { Gives (allowed reader.new.room reader.new.bytes.now)
        (λ x. (lent_value x, reader.new.bytes.now)) result
        (printed_at (measure W.width_of widths.now) reader.old.room count reader.old.bytes.now) }
    ensures room { reader.new.room ≡ reader.old.room }
{
    let start = reader.bytes;
    let text = reader.text()?;
    pieces_of(alloc, widths, count, text, start, reader)?;
    Ok(LentChange::Text(text))
}

// The pieces of a text, if they come as a third item. The text has its own fault where it begins.
#[tactic(auto, unfolding(crate::specs::Cuts::pieces_by))]
fn pieces_of<'a, W: Widths>(
    alloc: Global,
    widths: &W,
    count: usize,
    text: &str,
    start: &'a [u8],
    reader: &mut Reader<'a>,
) -> Result<(), ReadError>
    ensures value { Gives (allowed reader.new.room reader.new.bytes.now)
        (λ _. reader.new.bytes.now) result
        (pieces_by reader.old.room (allowed reader.old.room start.now) count text.now
        (runs (measure W.width_of widths.now) text.now) reader.old.bytes.now) }
    ensures room { reader.new.room ≡ reader.old.room }
{
    match needed_runs(widths, text) {
        None if count == 3 => others_of(alloc, text, start, reader),
        None => Ok(()),
        Some(needed) if count == 3 => listed_of(alloc, widths, text, needed, start, reader),
        Some(_) => {
            reader.bytes = start;
            Err(ReadError::Measure)
        }
    }
}

// The list of a text's pieces, which it needs, of `needed` runs.
#[inline(never)]
#[tactic(auto, unfolding(crate::specs::Cuts::pieces_at))]
fn listed_of<'a, W: Widths>(
    alloc: Global,
    widths: &W,
    text: &str,
    needed: usize,
    start: &'a [u8],
    reader: &mut Reader<'a>,
) -> Result<(), ReadError>
    requires { NeedsPieces needed (runs (measure W.width_of widths.now) text.now) }
    ensures value { Gives (allowed reader.new.room reader.new.bytes.now)
        (λ _. reader.new.bytes.now) result
        (pieces_at reader.old.room (allowed reader.old.room start.now) text.now
        (runs (measure W.width_of widths.now) text.now) reader.old.bytes.now) }
    ensures room { reader.new.room ≡ reader.old.room }
{
    let list = reader.bytes;
    if are_same(reader, widths, text, needed)? {
        return Ok(());
    }
    reader.bytes = list;
    others_of(alloc, text, start, reader)
}

// Pieces that are not those of the text here: a fault of theirs, and else the text's.
#[inline(never)]
#[tactic(auto, unfolding(crate::specs::Cuts::others_at))]
fn others_of<'a>(
    alloc: Global,
    text: &str,
    start: &'a [u8],
    reader: &mut Reader<'a>,
) -> Result<(), ReadError>
    ensures value { Gives (allowed reader.new.room reader.new.bytes.now)
        (λ _. reader.new.bytes.now) result
        (others_at reader.old.room (allowed reader.old.room start.now) text.now
        reader.old.bytes.now) }
    ensures room { reader.new.room ≡ reader.old.room }
{
    cut_of(alloc, text, reader)?;
    reader.bytes = start;
    Err(ReadError::Measure)
}

#[tactic(auto, unfolding(crate::specs::Decoding::place_at))]
fn place_of<'a>(reader: &mut Reader<'a>) -> Result<LentChange<'a>, ReadError>
    ensures value { Gives (allowed reader.new.room reader.new.bytes.now)
        (λ x. (lent_value x, reader.new.bytes.now)) result
        (place_at reader.old.room reader.old.bytes.now) }
    ensures room { reader.new.room ≡ reader.old.room }
{
    let x = position_of(reader)?;
    let y = position_of(reader)?;
    Ok(LentChange::Owned(Change::CursorPosition { x, y }))
}

// How many rows a region has that begins at row `first`.
#[tactic(auto, unfolding(crate::specs::Decoding::region_size_at))]
fn region_size_of(
    reader: &mut Reader<'_>,
    rows: Option<usize>,
    first: usize,
) -> Result<usize, ReadError>
    ensures value { Gives (allowed reader.new.room reader.new.bytes.now)
        (λ x. (x, reader.new.bytes.now)) result
        (region_size_at reader.old.room rows first reader.old.bytes.now) }
    ensures room { reader.new.room ≡ reader.old.room }
{
    let start = reader.bytes;
    let size = reader.unsigned()?;
    if is_on(rows, first, size) {
        Ok(size)
    } else {
        reader.bytes = start;
        Err(ReadError::Region)
    }
}

// Whether a region lies on this many rows, where their number is known.
fn is_on(rows: Option<usize>, first: usize, size: usize) -> bool
    ensures { result ≡ is_on rows first size }
{
    match rows {
        None => true,
        Some(rows) => first <= rows && size <= rows - first,
    }
}

// A scroll, up or down.
#[tactic(auto, unfolding(crate::specs::Decoding::scroll_at))]
fn scroll_of<'a>(
    reader: &mut Reader<'a>,
    rows: Option<usize>,
    up: bool,
) -> Result<LentChange<'a>, ReadError>
    ensures up { up ≡ true → Gives (allowed reader.new.room reader.new.bytes.now)
        (λ x. (lent_value x, reader.new.bytes.now)) result
        (scroll_at reader.old.room rows changed.ScrollRegionUp reader.old.bytes.now) }
    ensures down { up ≡ false → Gives (allowed reader.new.room reader.new.bytes.now)
        (λ x. (lent_value x, reader.new.bytes.now)) result
        (scroll_at reader.old.room rows changed.ScrollRegionDown reader.old.bytes.now) }
    ensures room { reader.new.room ≡ reader.old.room }
{
    let first_row = reader.unsigned()?;
    let region_size = region_size_of(reader, rows, first_row)?;
    let scroll_count = reader.unsigned()?;
    let change = if up {
        Change::ScrollRegionUp {
            first_row,
            region_size,
            scroll_count,
        }
    } else {
        Change::ScrollRegionDown {
            first_row,
            region_size,
            scroll_count,
        }
    };
    Ok(LentChange::Owned(change))
}
