//! Answers and asks.
ghost use Rattle.std.specs.Prelude.{◌≡◌, ◌<◌, ◌≤◌, ◌^◌, ◌++◌, IfOk, OnOk, true};
ghost use Rattle.cbor.specs.Encoding.{Extends, array, unsigned};
ghost use Rattle.termwiz_cell.specs.Measure.{measure};
ghost use Rattle.termwiz_surface.specs.Surface.{IsSurfaceSize};
ghost use Rattle.termwiz_wire.specs.Sent.{EncodesWithin, IsAsk, IsSent, answer, ask};

use super::changes::{encode_changes, encode_changes_within};
use crate::sent::{Ask, SourceNo};
use cbor::{put_array, put_unsigned};
use std::alloc::AllocError;
use termwiz_cell::emoji::Widths;
use termwiz_surface::Answer;

/// The version of the stream.
const VERSION: usize = 2;

/// Appends an answer of this source to the bytes, its texts cut and measured by this width value.
/// It fails where memory is refused, and then some of the answer may follow what the bytes
/// began with.
#[tactic(auto, unfolding(crate::specs::Sent::answer))]
pub fn encode_answer<W: Widths>(
    out: &mut Vec<u8>,
    widths: &W,
    source: SourceNo,
    value: &Answer<'_>,
) -> Result<(), AllocError>
    requires { 0 < source }
    ensures written { OnOk result (out.new.items ≡ out.old.items ++ answer
        (measure W.width_of widths.now) (record { source = source; answer = value.now })) }
    // After an error too, the bytes begin with what they began with.
    ensures kept { Extends out.old.items out.new.items }
    // What is appended can be decoded again.
    ensures form { OnOk result
        (IsSent (measure W.width_of widths.now) (record { source = source; answer = value.now })) }
{
    put_head(out, source, value)?;
    encode_changes(out, widths, value.changes())
}

/// Appends an answer as `encode_answer` does, and returns `true`, unless it has more than `most`
/// bytes. Then it appends nothing, and returns `false`. No change is encoded after the one that
/// passes `most`.
#[tactic(auto, unfolding(crate::specs::Sent::answer))]
pub fn encode_answer_within<W: Widths>(
    out: &mut Vec<u8>,
    widths: &W,
    source: SourceNo,
    value: &Answer<'_>,
    most: usize,
) -> Result<bool, AllocError>
    requires { 0 < source }
    ensures written { IfOk result (λ within. EncodesWithin (answer
        (measure W.width_of widths.now) (record { source = source; answer = value.now }))
        most out.old.items within out.new.items) }
    // After an error too, the bytes begin with what they began with.
    ensures kept { Extends out.old.items out.new.items }
    // What is appended can be decoded again.
    ensures form { IfOk result (λ within. within ≡ true →
        IsSent (measure W.width_of widths.now) (record { source = source; answer = value.now })) }
{
    let start = out.len();
    put_head(out, source, value)?;
    let end = start.saturating_add(most);
    let within = encode_changes_within(out, widths, value.changes(), end)?;
    if !within {
        out.truncate(start);
    }
    Ok(within)
}

// Appends what an answer of this source has before its changes.
fn put_head(out: &mut Vec<u8>, source: SourceNo, value: &Answer<'_>) -> Result<(), AllocError>
    ensures written { OnOk result (out.new.items ≡ out.old.items ++ array 7 ++ unsigned 2
        ++ unsigned source ++ unsigned value.now.width ++ unsigned value.now.height
        ++ unsigned value.now.base ++ unsigned value.now.number) }
    ensures kept { Extends out.old.items out.new.items }
    ensures sized { IsSurfaceSize value.now.width value.now.height }
    ensures ordered { value.now.base ≤ value.now.number }
    ensures base { value.now.base < 2 ^ 64 }
    ensures number { value.now.number < 2 ^ 64 }
{
    let (width, height) = value.size();
    let base = value.base();
    let number = value.number();
    put_array(out, 7)?;
    put_unsigned(out, VERSION)?;
    put_unsigned(out, source)?;
    put_unsigned(out, width)?;
    put_unsigned(out, height)?;
    put_unsigned(out, base)?;
    put_unsigned(out, number)
}

/// Appends an ask to the bytes. It fails where memory is refused, and then some of it may follow
/// what the bytes began with.
#[tactic(auto, unfolding(crate::specs::Sent::ask))]
pub fn encode_ask(out: &mut Vec<u8>, value: Ask) -> Result<(), AllocError>
    requires { value.source ≡ 0 → value.number ≡ 0 }
    ensures written { OnOk result (out.new.items ≡ out.old.items ++ ask value) }
    // After an error too, the bytes begin with what they began with.
    ensures kept { Extends out.old.items out.new.items }
    // What is appended can be decoded again.
    ensures form { OnOk result (IsAsk value) }
{
    put_array(out, 3)?;
    put_unsigned(out, VERSION)?;
    put_unsigned(out, value.source)?;
    put_unsigned(out, value.number)
}
