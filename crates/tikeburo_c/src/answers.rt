//! The answers of surfaces, as bytes.
ghost use Rattle.std.specs.Prelude.{◌≡◌};
ghost use Rattle.tikeburo_c.specs.Handles.{handle_value};
ghost use Rattle.tikeburo_c.specs.Outcomes.{Reports};
ghost use Rattle.tikeburo_c.specs.Results.{OrNoMemory};
ghost use Rattle.tikeburo_c.specs.Streams.{AnswersAsk, AnswersBytes, AnswersIn};

use crate::asks::only_ask;
use crate::failure::{Failure, status};
use crate::handle::Handle;
use crate::kept::Kept;
use crate::widths::ChosenWidths;
use std::alloc::Global;
use termwiz_share::Source;
use termwiz_wire::Ask;

// Where the answer is longer than the buffer, it stays kept for the next call.
fn answer(
    surface: &mut Source<ChosenWidths>,
    ask: Ask,
    room: &mut [u8],
    len: &mut usize,
) -> Result<(), Failure>
    ensures { OrNoMemory (AnswersAsk ask) (surface.old, (room.old, len.old))
        result (surface.new, (room.new, len.new)) }
{
    let count = room.len();
    let size = surface.respond_to(ask, room)?;
    *len = size;
    if size > count {
        return Err(Failure::Short);
    }
    Ok(())
}

fn answer_bytes(
    surface: &mut Source<ChosenWidths>,
    ask: &[u8],
    room: &mut [u8],
    len: &mut usize,
) -> Result<(), Failure>
    ensures { AnswersBytes ask.now (surface.old, (room.old, len.old))
        result (surface.new, (room.new, len.new)) }
{
    let ask = only_ask(ask)?;
    answer(surface, ask, room, len)
}

/// Writes the answer to the one ask that these bytes encode.
#[unsafe(no_mangle)]
pub extern "C" fn tk_respond(
    alloc: Global,
    handle: &mut Handle,
    ask: &[u8],
    room: &mut [u8],
    len: &mut usize,
) -> i32
    ensures { Reports result (λ outcome. AnswersIn ask.now
        (handle_value handle.old, (room.old, len.old))
        outcome (handle_value handle.new, (room.new, len.new))) }
{
    let outcome = match handle.take(alloc) {
        Some(mut kept) => {
            let outcome = match &mut *kept {
                Kept::Surface(surface) => answer_bytes(surface, ask, room, len),
                Kept::Viewer(_) | Kept::Client(_) | Kept::Lines(_) => Err(Failure::WrongKind),
            };
            handle.put(alloc, kept);
            outcome
        }
        None => Err(Failure::NoHandle),
    };
    status(outcome)
}
