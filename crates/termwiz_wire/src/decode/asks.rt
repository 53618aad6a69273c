//! Asks.
ghost use Rattle.std.specs.Prelude.{◌≡◌, ◌++◌, ◌-◌, ◌≤◌, IfOk, List, None, ℕ, drop, length};
ghost use Rattle.cbor.specs.Decoding.{Gives, allowed, ok};
ghost use Rattle.termwiz_wire.specs.Answers.{Decodes, ask_at, ask_in, asked_at};
ghost use Rattle.termwiz_wire.specs.Sent.{IsAsk, ask};
ghost use Rattle.termwiz_wire.specs.declared.sent.Ask.{Ask};

use super::halted::Halted;
use super::heads::opened_of;
use crate::fault::WireError;
use crate::sent::{Ask, SourceNo};
use cbor::{ReadError, Reader};
use termwiz_cell::change::SequenceNo;

/// Decodes the ask at the front of the bytes, and returns how many bytes it takes.
pub fn decode_ask(bytes: &[u8]) -> Result<(Ask, usize), WireError>
    // An encoded ask is decoded again, whatever follows it.
    ensures again { (a : Ask) (rest : List ℕ) → IsAsk a → bytes.now ≡ ask a ++ rest →
        Decodes (λ x. (x.0, drop x.1 bytes.now)) result (ok a rest) }
    // The bytes that are taken are the encoding of what is decoded.
    ensures found { IfOk result (λ x.
        (bytes.now ≡ ask x.0 ++ drop x.1 bytes.now) × (x.1 ≤ length bytes.now)) }
    // It names a source, or its number is 0.
    ensures named { IfOk result (λ x. x.0.source ≡ 0 → x.0.number ≡ 0) }
    // It is this value, or this fault.
    ensures exact { Decodes (λ x. (x.0, drop x.1 bytes.now)) result (ask_at bytes.now) }
{
    let mut reader = Reader::with_limit(bytes, usize::MAX);
    let len = reader.rest().len();
    match ask_of(&mut reader) {
        Ok(ask) => Ok((ask, len.saturating_sub(reader.bytes.len()))),
        Err(error) => {
            let halted = Halted {
                error,
                change: None,
            };
            Err(halted.located(len.saturating_sub(reader.bytes.len())))
        }
    }
}

#[tactic(auto, unfolding(crate::specs::Answers::ask_in))]
fn ask_of(reader: &mut Reader<'_>) -> Result<Ask, ReadError>
    ensures value { Gives (allowed reader.new.room reader.new.bytes.now)
        (λ x. (x, reader.new.bytes.now)) result
        (ask_in reader.old.room reader.old.bytes.now) }
    ensures named { IfOk result (λ ask. ask.source ≡ 0 → ask.number ≡ 0) }
    ensures room { reader.new.room ≡ reader.old.room }
{
    opened_of(reader, 3)?;
    let source = reader.unsigned()?;
    let number = asked_of(reader, source)?;
    Ok(Ask { source, number })
}

// The number of an ask: one that names no source has none.
#[tactic(auto, unfolding(crate::specs::Answers::asked_at))]
fn asked_of(reader: &mut Reader<'_>, source: SourceNo) -> Result<SequenceNo, ReadError>
    ensures value { Gives (allowed reader.new.room reader.new.bytes.now)
        (λ x. (x, reader.new.bytes.now)) result
        (asked_at reader.old.room source reader.old.bytes.now) }
    ensures named { IfOk result (λ number. source ≡ 0 → number ≡ 0) }
    ensures room { reader.new.room ≡ reader.old.room }
{
    let start = reader.bytes;
    let number = reader.unsigned()?;
    if source == 0 && number != 0 {
        reader.bytes = start;
        return Err(ReadError::Range);
    }
    Ok(number)
}
