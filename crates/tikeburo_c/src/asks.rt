//! Asks: as two numbers, and as bytes.
ghost use Rattle.std.specs.Prelude.{◌≡◌};
ghost use Rattle.tikeburo_c.specs.Outcomes.{Reports};
ghost use Rattle.tikeburo_c.specs.Results.{OrNoMemory};
ghost use Rattle.tikeburo_c.specs.Streams.{GivesOne, IsOnlyAsk, MakesAsk, ReadsAsk};

use crate::buffers::give;
use crate::failure::{Failure, status};
use std::alloc::Global;
use termwiz_wire::{Ask, decode_ask, encode_ask};

// The one ask that the bytes encode, with nothing after it.
pub(crate) fn only_ask(bytes: &[u8]) -> Result<Ask, Failure>
    ensures { IsOnlyAsk bytes.now result }
{
    let (ask, taken) = decode_ask(bytes)?;
    if taken < bytes.len() {
        return Err(Failure::Unreadable);
    }
    Ok(ask)
}

/// Writes an ask that names a source, or asks for everything.
pub(crate) fn give_ask(
    alloc: Global,
    ask: Ask,
    room: &mut [u8],
    len: &mut usize,
) -> Result<(), Failure>
    requires named { ask.source ≡ 0 → ask.number ≡ 0 }
    ensures { OrNoMemory (GivesOne ask) (room.old, len.old) result (room.new, len.new) }
{
    let mut bytes = Vec::new(alloc);
    encode_ask(&mut bytes, ask)?;
    give(&bytes, room, len)
}

fn make_ask(alloc: Global, ask: Ask, room: &mut [u8], len: &mut usize) -> Result<(), Failure>
    ensures { MakesAsk ask (room.old, len.old) result (room.new, len.new) }
{
    if ask.source == 0 && ask.number > 0 {
        return Err(Failure::Range);
    }
    give_ask(alloc, ask, room, len)
}

fn read_ask(bytes: &[u8], source: &mut usize, number: &mut usize) -> Result<(), Failure>
    ensures { ReadsAsk bytes.now (source.old, number.old) result (source.new, number.new) }
{
    let ask = only_ask(bytes)?;
    *source = ask.source;
    *number = ask.number;
    Ok(())
}

/// Writes the ask of a client that shows what `number` names of the surface with the number
/// `source`.
#[unsafe(no_mangle)]
pub extern "C" fn tk_make_ask(
    alloc: Global,
    source: usize,
    number: usize,
    room: &mut [u8],
    len: &mut usize,
) -> i32
    ensures { Reports result (λ outcome. MakesAsk (record { source = source; number = number })
        (room.old, len.old) outcome (room.new, len.new)) }
{
    let outcome = make_ask(alloc, Ask { source, number }, room, len);
    status(outcome)
}

/// Reads the two numbers of the one ask that these bytes encode.
#[unsafe(no_mangle)]
pub extern "C" fn tk_read_ask(bytes: &[u8], source: &mut usize, number: &mut usize) -> i32
    ensures { Reports result (λ outcome.
        ReadsAsk bytes.now (source.old, number.old) outcome (source.new, number.new)) }
{
    let outcome = read_ask(bytes, source, number);
    status(outcome)
}
