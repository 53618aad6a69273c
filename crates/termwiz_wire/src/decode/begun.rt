//! Answers whose bytes come in chunks.
ghost use Rattle.std.specs.Option.{ForSome};
ghost use Rattle.std.specs.Prelude.{◌≡◌, ◌++◌, ◌<◌, ◌≤◌, ◌^◌, IfOk, IfSome, List, None, OnOk};
ghost use Rattle.std.specs.Prelude.{Option, Some, drop, length, map, option_map, string_bytes};
ghost use Rattle.std.specs.Prelude.{take, ℕ};
ghost use Rattle.cbor.specs.Decoding.{IsBytes, allowed};
ghost use Rattle.termwiz_cell.specs.ChangeValue.{change_value};
ghost use Rattle.termwiz_cell.specs.Measure.{measure};
ghost use Rattle.termwiz_surface.specs.Surface.{IsSurfaceSize};
ghost use Rattle.termwiz_surface.specs.Unlogged.{lent_value};
ghost use Rattle.termwiz_wire.specs.Answers.{sent_of};
ghost use Rattle.termwiz_wire.specs.CutLinks.{IsLinkPart, part_of};
ghost use Rattle.termwiz_wire.specs.Decoding.{change_at};
ghost use Rattle.termwiz_wire.specs.Lent.{lent_answer};
ghost use Rattle.termwiz_wire.specs.Resuming.{AreWithin, BeginsChange, EndsIn, DecodesOn};
ghost use Rattle.termwiz_wire.specs.Resuming.{IsChangePart, IsWith, LeadsOn, Resumes};
ghost use Rattle.termwiz_wire.specs.Resuming.{StopsTruncated, WithNext, WithWhole, begun_with};
ghost use Rattle.termwiz_wire.specs.Resuming.{change_part, cut_after};
ghost use Rattle.termwiz_wire.specs.Sent.{answer};
ghost use Rattle.termwiz_wire.specs.Work.{most_work, spent_on};
ghost use Rattle.termwiz_wire.specs.declared.decode.begun.BegunChange.TheVariants.{Link, Text};
ghost use Rattle.termwiz_wire.specs.declared.decode.begun.NoAnswer.TheVariants.{Failed};
ghost use Rattle.termwiz_wire.specs.declared.fault.WireError.TheVariants.{Memory};

use super::changes::{next_of, owned};
use super::cut_links::{BegunLink, begin_link, link_change, read_params};
use super::cut_texts::{BegunText, Places, ReadPieces, begin_text, read_pieces};
use super::halted::Halted;
use super::heads::{Head, head_of};
use crate::fault::{Limits, WireError};
use crate::sent::LentAnswer;
use crate::work::spent_with;
use cbor::{ReadError, Reader};
use std::alloc::{AllocError, Global};
use termwiz_cell::change::Change;
use termwiz_cell::emoji::Widths;
use termwiz_surface::LentChange;

/// What was decoded of an answer whose bytes are not all there: what it has before its changes, the
/// first of these, and, where a link or a text is cut, the first of its params or of its runs of
/// pieces.
#[derive(Debug, Drop)]
pub struct Begun {
    head: Head,
    changes: Vec<Change>,
    // How much work these cost.
    spent: u128,
    // What was decoded of the next one, if it is one of a link whose params have begun, or of a
    // text whose list of pieces has.
    next: Option<BegunChange>,
    // How many bytes all that takes.
    taken: usize,
}

#[derive(Debug, Drop)]
enum BegunChange {
    Link(BegunLink),
    Text(BegunText),
}

/// Why no answer was decoded.
#[derive(Debug, Drop)]
pub enum NoAnswer {
    /// More bytes may complete the answer. The value is what was decoded of it, or `None` where the
    /// bytes end before its changes.
    Cut(Option<Begun>),
    /// The bytes have another fault, or memory was refused.
    Failed(WireError),
}

/// Decodes the answer at the front of the bytes as `decode_answer` does, going on from what an
/// earlier call decoded of the first of these bytes. Each change is decoded once. One that is cut
/// is decoded anew, but for a link and the pieces of a text: each param and each run is decoded
/// once, and the runs once more where one isn't the text's. The answer borrows the texts that this
/// call decodes.
pub fn decode_more<'a, W: Widths>(
    alloc: Global,
    widths: &W,
    limits: Limits,
    begun: Option<Begun>,
    bytes: &'a [u8],
) -> Result<(LentAnswer<'a>, usize), NoAnswer>
    requires leads { ForSome begun
        (λ b. LeadsOn (measure W.width_of widths.now) limits b bytes.now) }
    // It is what is decoded from the front.
    ensures exact { Resumes (measure W.width_of widths.now) limits bytes.now result }
    // The bytes that are taken are the encoding of what is decoded.
    ensures found { IfOk result (λ x.
        (bytes.now ≡ answer (measure W.width_of widths.now) (lent_answer x.0) ++ drop x.1 bytes.now)
        × (x.1 ≤ length bytes.now)) }
    // It names its source.
    ensures named { IfOk result (λ x. 0 < x.0.source) }
    // It has a size that a surface may have.
    ensures sized { IfOk result (λ x. IsSurfaceSize x.0.width x.0.height) }
{
    match begun {
        None => begin(alloc, widths, limits, bytes),
        Some(begun) => resume(alloc, widths, limits, begun, bytes),
    }
}

// Decodes an answer from the front.
fn begin<'a, W: Widths>(
    alloc: Global,
    widths: &W,
    limits: Limits,
    bytes: &'a [u8],
) -> Result<(LentAnswer<'a>, usize), NoAnswer>
    ensures exact { Resumes (measure W.width_of widths.now) limits bytes.now result }
    ensures found { IfOk result (λ x.
        (bytes.now ≡ answer (measure W.width_of widths.now) (lent_answer x.0) ++ drop x.1 bytes.now)
        × (x.1 ≤ length bytes.now)) }
    ensures named { IfOk result (λ x. 0 < x.0.source) }
    ensures sized { IfOk result (λ x. IsSurfaceSize x.0.width x.0.height) }
{
    let mut reader = Reader::with_limit(bytes, limits.bytes);
    let len = reader.rest().len();
    match head_of(&mut reader, limits) {
        Ok(head) => {
            let begun = Begun {
                head,
                changes: Vec::new(alloc),
                spent: 0,
                next: None,
                taken: len.saturating_sub(reader.bytes.len()),
            };
            resume_changes(alloc, widths, limits, begun, bytes)
        }
        Err(error) => match error {
            ReadError::Truncated => Err(NoAnswer::Cut(None)),
            _ => {
                let halted = Halted {
                    error,
                    change: None,
                };
                let at = len.saturating_sub(reader.bytes.len());
                Err(NoAnswer::Failed(halted.located(at)))
            }
        },
    }
}

// Decodes the rest of what is begun.
fn resume<'a, W: Widths>(
    alloc: Global,
    widths: &W,
    limits: Limits,
    begun: Begun,
    bytes: &'a [u8],
) -> Result<(LentAnswer<'a>, usize), NoAnswer>
    requires { LeadsOn (measure W.width_of widths.now) limits begun bytes.now }
    ensures exact { Resumes (measure W.width_of widths.now) limits bytes.now result }
    ensures found { IfOk result (λ x.
        (bytes.now ≡ answer (measure W.width_of widths.now) (lent_answer x.0) ++ drop x.1 bytes.now)
        × (x.1 ≤ length bytes.now)) }
    ensures named { IfOk result (λ x. 0 < x.0.source) }
    ensures sized { IfOk result (λ x. IsSurfaceSize x.0.width x.0.height) }
{
    let begun = with_next(alloc, limits, begun, bytes)?;
    resume_changes(alloc, widths, limits, begun, bytes)
}

// Decodes the rest of the change that is begun, if one is.
fn with_next(alloc: Global, limits: Limits, begun: Begun, bytes: &[u8]) -> Result<Begun, NoAnswer>
    requires size { (begun.head.width < 2 ^ 32) × (begun.head.height < 2 ^ 32) }
    requires few { begun.spent ≤ most_work begun.head.width begun.head.height }
    requires taken { begun.taken ≤ length (take limits.bytes bytes.now) }
    requires next { IfSome (option_map change_part begun.next) (IsChangePart begun.taken) }
    ensures { (measure : List ℕ → ℕ) → LeadsOn measure limits begun bytes.now →
        WithNext measure limits bytes.now result }
{
    let Begun {
        head,
        changes,
        spent,
        next,
        taken,
    } = begun;
    let begun = Begun {
        head,
        changes,
        spent,
        next: None,
        taken,
    };
    match next {
        None => Ok(begun),
        Some(next) => match next {
            BegunChange::Link(link) => with_link(alloc, limits, begun, link, bytes),
            BegunChange::Text(text) => with_text(alloc, limits, begun, text, bytes),
        },
    }
}

// Decodes the rest of a change of a link.
fn with_link(
    alloc: Global,
    limits: Limits,
    begun: Begun,
    link: BegunLink,
    bytes: &[u8],
) -> Result<Begun, NoAnswer>
    requires taken { begun.taken ≤ length (take limits.bytes bytes.now) }
    requires link { IsLinkPart (part_of link) }
    ensures { (measure : List ℕ → ℕ) → LeadsOn measure limits (begun_with begun (Link link))
        bytes.now → WithNext measure limits bytes.now result }
{
    let mut link = link;
    let mut reader = Reader::with_limit(bytes, limits.bytes);
    let hand = reader.rest();
    reader.bytes = &hand[begun.taken..];
    match read_params(alloc, &mut link, &mut reader) {
        Ok(()) => {
            let taken = hand.len().saturating_sub(reader.bytes.len());
            let change = link_change(alloc, link)?;
            let spent = begun.spent;
            Ok(with_change(begun, change, spent, taken)?)
        }
        Err(error) => match error {
            ReadError::Truncated => {
                let taken = hand.len().saturating_sub(reader.bytes.len());
                Err(NoAnswer::Cut(Some(up_to(begun, BegunChange::Link(link), taken))))
            }
            _ => {
                let halted = Halted {
                    error,
                    change: Some(begun.changes.len()),
                };
                let at = hand.len().saturating_sub(reader.bytes.len());
                Err(NoAnswer::Failed(halted.located(at)))
            }
        },
    }
}

// Decodes the rest of a change of a text.
fn with_text(
    alloc: Global,
    limits: Limits,
    begun: Begun,
    text: BegunText,
    bytes: &[u8],
) -> Result<Begun, NoAnswer>
    requires size { (begun.head.width < 2 ^ 32) × (begun.head.height < 2 ^ 32) }
    requires few { begun.spent ≤ most_work begun.head.width begun.head.height }
    requires taken { begun.taken ≤ length (take limits.bytes bytes.now) }
    requires within { AreWithin text.places begun.taken }
    ensures { (measure : List ℕ → ℕ) → LeadsOn measure limits (begun_with begun (Text text))
        bytes.now → WithNext measure limits bytes.now result }
{
    let BegunText { places, pieces } = text;
    let mut reader = Reader::with_limit(bytes, limits.bytes);
    let hand = reader.rest();
    reader.bytes = &hand[begun.taken..];
    match read_pieces(alloc, places, pieces, hand, &mut reader) {
        Ok(read) => {
            let taken = hand.len().saturating_sub(reader.bytes.len());
            match read {
                ReadPieces::Whole(text) => with_whole(alloc, begun, places, text, taken),
                ReadPieces::Cut(pieces) => {
                    let next = BegunChange::Text(BegunText { places, pieces });
                    Err(NoAnswer::Cut(Some(up_to(begun, next, taken))))
                }
            }
        }
        Err(error) => {
            let halted = Halted {
                error,
                change: Some(begun.changes.len()),
            };
            let at = hand.len().saturating_sub(reader.bytes.len());
            Err(NoAnswer::Failed(halted.located(at)))
        }
    }
}

// What is begun with a text after its changes, up to `taken` bytes, if the screen bears it.
fn with_whole(
    alloc: Global,
    begun: Begun,
    places: Places,
    text: String,
    taken: usize,
) -> Result<Begun, NoAnswer>
    requires size { (begun.head.width < 2 ^ 32) × (begun.head.height < 2 ^ 32) }
    requires few { begun.spent ≤ most_work begun.head.width begun.head.height }
    ensures { WithWhole begun (string_bytes text) places.change taken result }
{
    let change = LentChange::Owned(Change::Text(text));
    match spent_with(Some(begun.head), begun.spent, &change) {
        Some(spent) => Ok(with_change(begun, owned(alloc, change)?, spent, taken)?),
        None => {
            let halted = Halted {
                error: ReadError::Limit,
                change: Some(begun.changes.len()),
            };
            Err(NoAnswer::Failed(halted.located(places.change)))
        }
    }
}

// What is begun with one more change, up to `taken` bytes, where `spent` work is spent.
fn with_change(begun: Begun, change: Change, spent: u128, taken: usize) -> Result<Begun, AllocError>
    ensures { IfOk result (λ x. IsWith begun (change_value change) spent taken x) }
{
    let Begun {
        head,
        mut changes,
        ..
    } = begun;
    changes.push(change)?;
    Ok(Begun {
        head,
        changes,
        spent,
        next: None,
        taken,
    })
}

// What is begun, up to `taken` bytes, with what they have of the next change.
fn up_to(begun: Begun, next: BegunChange, taken: usize) -> Begun
    ensures { result ≡ cut_after begun next taken }
{
    Begun {
        next: Some(next),
        taken,
        ..begun
    }
}

// Decodes the changes that are left of what is begun.
fn resume_changes<'a, W: Widths>(
    alloc: Global,
    widths: &W,
    limits: Limits,
    begun: Begun,
    bytes: &'a [u8],
) -> Result<(LentAnswer<'a>, usize), NoAnswer>
    requires leads { LeadsOn (measure W.width_of widths.now) limits begun bytes.now }
    requires whole { begun.next ≡ None }
    ensures exact { Resumes (measure W.width_of widths.now) limits bytes.now result }
    ensures found { IfOk result (λ x.
        (bytes.now ≡ answer (measure W.width_of widths.now) (lent_answer x.0) ++ drop x.1 bytes.now)
        × (x.1 ≤ length bytes.now)) }
    ensures named { IfOk result (λ x. 0 < x.0.source) }
    ensures sized { IfOk result (λ x. IsSurfaceSize x.0.width x.0.height) }
{
    let Begun {
        head,
        changes,
        mut spent,
        next,
        taken,
    } = begun;
    // There is none.
    drop(next);
    let mut reader = Reader::with_limit(bytes, limits.bytes);
    let hand = reader.rest();
    reader.bytes = &hand[taken..];
    let mut more = Vec::new(alloc);
    match go_on(
        alloc,
        widths,
        head,
        &changes,
        &mut more,
        &mut spent,
        &mut reader,
    ) {
        Ok(true) => {
            let taken = hand.len().saturating_sub(reader.bytes.len());
            let changes = joined(alloc, changes, more)?;
            Ok((lent_from(head, changes), taken))
        }
        Ok(false) => {
            let next = begin_change(alloc, widths, hand, &mut reader)?;
            let taken = hand.len().saturating_sub(reader.bytes.len());
            let changes = owned_behind(alloc, changes, more)?;
            Err(NoAnswer::Cut(Some(Begun {
                head,
                changes,
                spent,
                next,
                taken,
            })))
        }
        Err(halted) => {
            let at = hand.len().saturating_sub(reader.bytes.len());
            Err(NoAnswer::Failed(halted.located(at)))
        }
    }
}

// Decodes what the change at the front of the bytes has of a link whose params have begun, or of a
// text whose list of pieces has. For any other change the reader stays.
fn begin_change<'a, W: Widths>(
    alloc: Global,
    widths: &W,
    hand: &'a [u8],
    reader: &mut Reader<'a>,
) -> Result<Option<BegunChange>, AllocError>
    requires { EndsIn hand.now reader.old.bytes.now }
    ensures begins { (rows : Option ℕ) →
        StopsTruncated (change_at (measure W.width_of widths.now) reader.old.room rows
        reader.old.bytes.now) →
        IfOk result (λ x. BeginsChange (measure W.width_of widths.now) reader.old.room hand.now
        reader.old.bytes.now (option_map change_part x) reader.new.bytes.now) }
{
    let start = reader.bytes;
    let link = begin_link(alloc, reader)?;
    match link {
        Some(link) => Ok(Some(BegunChange::Link(link))),
        None => {
            reader.bytes = start;
            let text = begin_text(alloc, widths, hand, reader)?;
            match text {
                Some(text) => Ok(Some(BegunChange::Text(text))),
                None => Ok(None),
            }
        }
    }
}

// Decodes the changes that an answer has after these, and returns whether all are there. Where one
// is cut, the reader is before it.
fn go_on<'a, W: Widths>(
    alloc: Global,
    widths: &W,
    head: Head,
    begun: &[Change],
    changes: &mut Vec<LentChange<'a>>,
    spent: &mut u128,
    reader: &mut Reader<'a>,
) -> Result<bool, Halted>
    requires bytes { IsBytes reader.old.bytes.now }
    requires size { (head.width < 2 ^ 32) × (head.height < 2 ^ 32) }
    requires spent { spent.old ≡ spent_on (Some head)
        (map change_value begun.now ++ map lent_value changes.old.items) }
    requires few { spent.old ≤ most_work head.width head.height }
    ensures goes { DecodesOn (measure W.width_of widths.now) reader.old.room head
        (map change_value begun.now ++ map lent_value changes.old.items) reader.old.bytes.now result
        (map change_value begun.now ++ map lent_value changes.new.items)
        (allowed reader.new.room reader.new.bytes.now) reader.new.bytes.now }
    ensures spent { OnOk result (spent.new ≡ spent_on (Some head)
        (map change_value begun.now ++ map lent_value changes.new.items)) }
    ensures few { OnOk result (spent.new ≤ most_work head.width head.height) }
    ensures bytes { OnOk result (IsBytes reader.new.bytes.now) }
    ensures room { reader.new.room ≡ reader.old.room }
{
    let first = begun.len();
    let count = head.count.saturating_sub(first);
    'changes: while changes.len() < count {
        let start = reader.bytes;
        match next_of(alloc, widths, Some(head), spent, reader) {
            Ok(change) => changes.push(change)?,
            Err(error) => match error {
                ReadError::Truncated => {
                    reader.bytes = start;
                    return Ok(false);
                }
                _ => {
                    return Err(Halted {
                        error,
                        change: Some(first + changes.len()),
                    });
                }
            },
        }
    }
    Ok(true)
}

// The changes that an earlier call decoded, and those after them.
fn joined<'a>(
    alloc: Global,
    begun: Vec<Change>,
    more: Vec<LentChange<'a>>,
) -> Result<Vec<LentChange<'a>>, AllocError>
    ensures { IfOk result (λ x. map lent_value x.items
        ≡ map change_value begun.items ++ map lent_value more.entry.items) }
{
    if begun.is_empty() {
        return Ok(more);
    }
    let mut more = more;
    let mut changes = lent(alloc, begun)?;
    changes.append(&mut more)?;
    Ok(changes)
}

// Changes with texts of their own, as ones that may borrow them.
fn lent<'a>(alloc: Global, changes: Vec<Change>) -> Result<Vec<LentChange<'a>>, AllocError>
    ensures { IfOk result (λ x. map lent_value x.items ≡ map change_value changes.items) }
{
    let mut lent = Vec::new(alloc);
    for change in changes {
        lent.push(LentChange::Owned(change))?;
    }
    Ok(lent)
}

// The changes that an earlier call decoded, and those after them with texts of their own.
fn owned_behind(
    alloc: Global,
    begun: Vec<Change>,
    more: Vec<LentChange<'_>>,
) -> Result<Vec<Change>, AllocError>
    ensures { IfOk result (λ x. map change_value x.items
        ≡ map change_value begun.items ++ map lent_value more.entry.items) }
{
    let mut changes = begun;
    for change in more {
        changes.push(owned(alloc, change)?)?;
    }
    Ok(changes)
}

// The answer of this head with these changes.
fn lent_from<'a>(head: Head, changes: Vec<LentChange<'a>>) -> LentAnswer<'a>
    ensures answer { lent_answer result ≡ sent_of head (map lent_value changes.entry.items) }
    ensures width { result.width ≡ head.width }
    ensures height { result.height ≡ head.height }
{
    LentAnswer {
        source: head.source,
        width: head.width,
        height: head.height,
        base: head.base,
        number: head.number,
        changes,
    }
}

impl From<AllocError> for NoAnswer {
    ghost from_gives = { λ _ e. e ≡ Failed Memory };

    fn from(_refused: AllocError) -> NoAnswer {
        NoAnswer::Failed(WireError::Memory)
    }
}
