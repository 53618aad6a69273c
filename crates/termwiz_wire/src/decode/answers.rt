//! Answers.
ghost use Rattle.std.specs.Prelude.{◌≡◌, ◌+◌, ◌-◌, ◌*◌, ◌<◌, ◌≤◌, ◌^◌, ◌++◌, IfOk, List, Some, ℕ};
ghost use Rattle.std.specs.Prelude.{drop, length, map, true};
ghost use Rattle.cbor.specs.Decoding.{allowed, ok};
ghost use Rattle.termwiz_cell.specs.ChangeValue.{change_value};
ghost use Rattle.termwiz_cell.specs.Measure.{measure};
ghost use Rattle.termwiz_screen.specs.Step.{regions_fit};
ghost use Rattle.termwiz_wire.specs.Answers.{Decodes, Halts, answer_at, answer_in, sent_of};
ghost use Rattle.termwiz_wire.specs.Screens.{FitsLimits};
ghost use Rattle.termwiz_wire.specs.Sent.{IsSent, answer};
ghost use Rattle.termwiz_wire.specs.Within.{IsBorne, IsWithinLimits};
ghost use Rattle.termwiz_wire.specs.declared.sent.SentAnswer.{SentAnswer};

use super::changes::each_of;
use super::halted::Halted;
use super::heads::{Head, head_of};
use crate::fault::{Limits, WireError};
use crate::sent::SentAnswer;
use cbor::Reader;
use std::alloc::Global;
use termwiz_cell::change::Change;
use termwiz_cell::emoji::Widths;
use termwiz_surface::Answer;

/// Decodes the answer at the front of the bytes, and returns how many bytes it takes. Its texts are
/// cut and measured by `widths` as they were by its sender.
///
/// It fails with the first fault from left to right. `Truncated` says that more bytes may complete
/// the answer; any other fault stays, whatever bytes follow. An answer of more cells, rows or bytes
/// than the limits allow fails with `Limit`, before memory is taken for it. One whose changes cost
/// more than its screen bears fails with `Limit` at the change that passes that bound.
pub fn decode_answer<W: Widths>(
    alloc: Global,
    widths: &W,
    limits: Limits,
    bytes: &[u8],
) -> Result<(SentAnswer, usize), WireError>
    // An encoded answer is decoded again, whatever follows it, if the limits allow it.
    ensures again { (s : SentAnswer) (rest : List ℕ) →
        IsSent (measure W.width_of widths.now) s →
        IsWithinLimits (measure W.width_of widths.now) limits s →
        bytes.now ≡ answer (measure W.width_of widths.now) s ++ rest →
        Decodes (λ x. (x.0, drop x.1 bytes.now)) result (ok s rest) }
    // The bytes that are taken are the encoding of what is decoded.
    ensures found { IfOk result (λ x.
        (bytes.now ≡ answer (measure W.width_of widths.now) x.0 ++ drop x.1 bytes.now)
        × (x.1 ≤ length bytes.now)) }
    // It names its source.
    ensures named { IfOk result (λ x. 0 < x.0.source) }
    // It is within the limits.
    ensures limited { IfOk result (λ x.
        FitsLimits limits x.0.answer.width x.0.answer.height × (x.1 ≤ limits.bytes)) }
    // Its screen bears its changes.
    ensures borne { IfOk result (λ x. IsBorne x.0) }
    // It has no more changes than bytes.
    ensures bounded { IfOk result (λ x. length x.0.answer.changes ≤ x.1) }
    // It is this value, or this fault.
    ensures exact { Decodes (λ x. (x.0, drop x.1 bytes.now)) result
        (answer_at (measure W.width_of widths.now) limits bytes.now) }
{
    let mut reader = Reader::with_limit(bytes, limits.bytes);
    let len = reader.rest().len();
    match answer_of(alloc, widths, limits, &mut reader) {
        Ok(sent) => Ok((sent, len.saturating_sub(reader.bytes.len()))),
        Err(halted) => Err(halted.located(len.saturating_sub(reader.bytes.len()))),
    }
}

#[tactic(auto, unfolding(crate::specs::Answers::answer_in))]
fn answer_of<W: Widths>(
    alloc: Global,
    widths: &W,
    limits: Limits,
    reader: &mut Reader<'_>,
) -> Result<SentAnswer, Halted>
    ensures value { Halts (allowed reader.new.room reader.new.bytes.now)
        (λ x. (x, reader.new.bytes.now)) result
        (answer_in (measure W.width_of widths.now) reader.old.room limits reader.old.bytes.now) }
    ensures room { reader.new.room ≡ reader.old.room }
{
    let head = match head_of(reader, limits) {
        Ok(head) => head,
        Err(error) => {
            return Err(Halted {
                error,
                change: None,
            });
        }
    };
    // Each byte is below 256.
    let _bytes = reader.rest();
    let changes = each_of(alloc, widths, Some(head), head.count, reader)?;
    Ok(sent_from(head, changes))
}

pub(super) fn sent_from(head: Head, changes: Vec<Change>) -> SentAnswer
    requires width { (0 < head.width) × (head.width < 2 ^ 32) }
    requires height { (0 < head.height) × (head.height < 2 ^ 32) }
    requires numbers { head.base ≤ head.number }
    requires regions { regions_fit head.height (map change_value changes.items) ≡ true }
    ensures { result ≡ sent_of head (map change_value changes.items) }
{
    let size = (head.width, head.height);
    let answer = Answer::from_parts(size, head.base, head.number, changes).unwrap();
    SentAnswer {
        source: head.source,
        answer,
    }
}
