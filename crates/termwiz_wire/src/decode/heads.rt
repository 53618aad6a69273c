//! What answers and asks begin with.
ghost use Rattle.std.specs.Prelude.{◌≡◌, ◌<◌, ◌≤◌, ◌^◌, ◌++◌, Err, IfErr, IfOk, IsSome, List};
ghost use Rattle.std.specs.Prelude.{Ok, length, ℕ};
ghost use Rattle.cbor.specs.Decoding.{Gives, allowed, fault_of};
ghost use Rattle.termwiz_surface.specs.Surface.{IsSurfaceSize};
ghost use Rattle.termwiz_wire.specs.Answers.{answer_at, answer_head_at, based_number_at, body_at};
ghost use Rattle.termwiz_wire.specs.Answers.{head_at, head_of, height_at, opened_at, size_at};
ghost use Rattle.termwiz_wire.specs.Answers.{source_at, version_at};
ghost use Rattle.termwiz_wire.specs.Screens.{FitsLimits};
ghost use Rattle.termwiz_wire.specs.Sent.{IsSent, answer};
ghost use Rattle.termwiz_wire.specs.declared.sent.SentAnswer.{SentAnswer};

use crate::fault::{Fault, Limits};
use crate::sent::SourceNo;
use cbor::{ReadError, Reader};
use termwiz_cell::change::SequenceNo;

/// What an answer has before its changes.
#[derive(Clone, Copy, PartialEq, Eq, Debug)]
pub struct Head {
    pub source: SourceNo,
    /// Columns of the screen.
    pub width: usize,
    /// Rows of the screen.
    pub height: usize,
    /// The number that its changes lead on from, or 0 where it is a repaint.
    pub base: SequenceNo,
    /// The number that they lead to.
    pub number: SequenceNo,
    /// How many changes there are.
    pub count: usize,
}

/// Decodes the head of the answer at the front of the bytes, and none of its changes, which need
/// not be there. No memory is taken.
///
/// It fails as `decode_answer` does where the head has a fault: `Truncated` says that more bytes
/// may complete the head.
pub fn decode_head(limits: Limits, bytes: &[u8]) -> Result<Head, Fault>
    // It is this value, or this fault.
    ensures exact { result ≡ answer_head_at limits bytes.now }
    // The head of what is encoded is decoded, whatever follows it, if the limits allow it.
    ensures again { (measure : List ℕ → ℕ) (s : SentAnswer) (rest : List ℕ) →
        IsSent measure s → FitsLimits limits s.answer.width s.answer.height →
        length (answer measure s) ≤ limits.bytes → bytes.now ≡ answer measure s ++ rest →
        result ≡ Ok (head_of s) }
    // Where an answer is decoded from the bytes, it is that answer's head.
    ensures of_answer { (measure : List ℕ → ℕ) (s : SentAnswer) (rest : List ℕ) →
        answer_at measure limits bytes.now ≡ Ok (s, rest) → result ≡ Ok (head_of s) }
    // Where it fails, an answer has the same fault.
    ensures of_fault { (measure : List ℕ → ℕ) →
        IfErr result (λ fault. answer_at measure limits bytes.now ≡ Err fault) }
    // It names its source.
    ensures named { IfOk result (λ head. 0 < head.source) }
    // It has a size that a surface may have, and that is within the limits.
    ensures sized { IfOk result (λ head. IsSurfaceSize head.width head.height) }
    ensures limited { IfOk result (λ head. FitsLimits limits head.width head.height) }
    // Its changes lead on.
    ensures ordered { IfOk result (λ head. head.base ≤ head.number) }
{
    let mut reader = Reader::with_limit(bytes, limits.bytes);
    let len = reader.rest().len();
    match head_of(&mut reader, limits) {
        Ok(head) => Ok(head),
        Err(error) => Err(Fault {
            kind: error.fault().unwrap(),
            at: len.saturating_sub(reader.bytes.len()),
            change: None,
        }),
    }
}

/// Decodes what an answer has before its changes.
#[tactic(auto, unfolding(crate::specs::Answers::head_at))]
pub(super) fn head_of(reader: &mut Reader<'_>, limits: Limits) -> Result<Head, ReadError>
    ensures value { Gives (allowed reader.new.room reader.new.bytes.now)
        (λ x. (x, reader.new.bytes.now)) result
        (head_at reader.old.room limits reader.old.bytes.now) }
    ensures width { IfOk result (λ x. (0 < x.width) × (x.width < 2 ^ 32)) }
    ensures height { IfOk result (λ x. (0 < x.height) × (x.height < 2 ^ 32)) }
    ensures numbers { IfOk result (λ x. x.base ≤ x.number) }
    ensures room { reader.new.room ≡ reader.old.room }
    ensures fault { IfErr result (λ error. IsSome (fault_of error)) }
{
    opened_of(reader, 7)?;
    let source = source_of(reader)?;
    let width = size_of(reader)?;
    let height = height_of(reader, limits, width)?;
    let base = reader.unsigned()?;
    let number = number_of(reader, base)?;
    let count = reader.list()?;
    Ok(Head {
        source,
        width,
        height,
        base,
        number,
        count,
    })
}

/// Decodes the head of an array of `items` items, and the version. Another version may have another
/// count of items, so the fault of the version comes first.
#[tactic(auto, unfolding(crate::specs::Answers::opened_at, crate::specs::Answers::body_at))]
pub(super) fn opened_of(reader: &mut Reader<'_>, items: usize) -> Result<(), ReadError>
    ensures value { Gives (allowed reader.new.room reader.new.bytes.now)
        (λ _. reader.new.bytes.now) result
        (opened_at reader.old.room items reader.old.bytes.now) }
    ensures room { reader.new.room ≡ reader.old.room }
    ensures fault { IfErr result (λ error. IsSome (fault_of error)) }
{
    let start = reader.bytes;
    let count = reader.array()?;
    if count == 0 {
        reader.bytes = start;
        return Err(ReadError::Type);
    }
    version_of(reader)?;
    if count != items {
        reader.bytes = start;
        return Err(ReadError::Type);
    }
    Ok(())
}

#[tactic(auto, unfolding(crate::specs::Answers::version_at))]
fn version_of(reader: &mut Reader<'_>) -> Result<(), ReadError>
    ensures value { Gives (allowed reader.new.room reader.new.bytes.now)
        (λ _. reader.new.bytes.now) result
        (version_at reader.old.room reader.old.bytes.now) }
    ensures room { reader.new.room ≡ reader.old.room }
    ensures fault { IfErr result (λ error. IsSome (fault_of error)) }
{
    let start = reader.bytes;
    let version = reader.unsigned()?;
    if version != 2 {
        reader.bytes = start;
        return Err(ReadError::Version);
    }
    Ok(())
}

#[tactic(auto, unfolding(crate::specs::Answers::source_at))]
fn source_of(reader: &mut Reader<'_>) -> Result<SourceNo, ReadError>
    ensures value { Gives (allowed reader.new.room reader.new.bytes.now)
        (λ x. (x, reader.new.bytes.now)) result
        (source_at reader.old.room reader.old.bytes.now) }
    ensures room { reader.new.room ≡ reader.old.room }
    ensures fault { IfErr result (λ error. IsSome (fault_of error)) }
{
    let start = reader.bytes;
    let source = reader.unsigned()?;
    if source == 0 {
        reader.bytes = start;
        return Err(ReadError::Range);
    }
    Ok(source)
}

// A width or a height.
#[tactic(auto, unfolding(crate::specs::Answers::size_at))]
fn size_of(reader: &mut Reader<'_>) -> Result<usize, ReadError>
    ensures value { Gives (allowed reader.new.room reader.new.bytes.now)
        (λ x. (x, reader.new.bytes.now)) result
        (size_at reader.old.room reader.old.bytes.now) }
    ensures fits { IfOk result (λ x. (0 < x) × (x < 2 ^ 32)) }
    ensures room { reader.new.room ≡ reader.old.room }
    ensures fault { IfErr result (λ error. IsSome (fault_of error)) }
{
    let start = reader.bytes;
    let size = reader.below(4294967296)?;
    if size == 0 {
        reader.bytes = start;
        return Err(ReadError::Range);
    }
    Ok(size)
}

// A height that is within the limits.
#[tactic(auto, unfolding(crate::specs::Answers::height_at))]
fn height_of(reader: &mut Reader<'_>, limits: Limits, width: usize) -> Result<usize, ReadError>
    requires { width < 2 ^ 32 }
    ensures value { Gives (allowed reader.new.room reader.new.bytes.now)
        (λ x. (x, reader.new.bytes.now)) result
        (height_at reader.old.room limits width reader.old.bytes.now) }
    ensures fits { IfOk result (λ x. (0 < x) × (x < 2 ^ 32)) }
    ensures room { reader.new.room ≡ reader.old.room }
    ensures fault { IfErr result (λ error. IsSome (fault_of error)) }
{
    let start = reader.bytes;
    let height = size_of(reader)?;
    if width * height > limits.cells || height > limits.rows {
        reader.bytes = start;
        return Err(ReadError::Limit);
    }
    Ok(height)
}

// A number from the base on.
#[tactic(auto, unfolding(crate::specs::Answers::based_number_at))]
fn number_of(reader: &mut Reader<'_>, base: SequenceNo) -> Result<SequenceNo, ReadError>
    ensures value { Gives (allowed reader.new.room reader.new.bytes.now)
        (λ x. (x, reader.new.bytes.now)) result
        (based_number_at reader.old.room base reader.old.bytes.now) }
    ensures from { IfOk result (λ x. base ≤ x) }
    ensures room { reader.new.room ≡ reader.old.room }
    ensures fault { IfErr result (λ error. IsSome (fault_of error)) }
{
    let start = reader.bytes;
    let number = reader.unsigned()?;
    if number < base {
        reader.bytes = start;
        return Err(ReadError::Range);
    }
    Ok(number)
}
