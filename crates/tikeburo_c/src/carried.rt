//! The calls for streams, one after another: a proved caller.
ghost use Rattle.std.specs.Prelude.{pos, ◌≡◌, length};
ghost use Rattle.tikeburo_c.specs.Handles.{handle_value};
ghost use Rattle.tikeburo_c.specs.Outcomes.{Reports};
ghost use Rattle.tikeburo_c.specs.Streams.{MayCarry, ServesIn, ShowsAsBefore, ShowsIn};

use crate::answers::tk_respond;
use crate::clients::{FaultFields, tk_client_ask, tk_client_feed, tk_client_reset};
use crate::handle::Handle;
use std::alloc::Global;

/// Brings a surface's answer to a client by this buffer, as a C program does it over a connection
/// that is new. A client that the surface serves shows then all that the surface keeps, and is
/// served still, also after an error. The surface shows what it showed.
///
/// For such a client it fails with 1 where memory is refused, with 2 where the client doesn't take
/// the answer, as one past its limits, with 5 where its own numbers are used up, and with 9 where
/// the answer is longer than the buffer.
pub(crate) fn carry(
    alloc: Global,
    surface: &mut Handle,
    client: &mut Handle,
    room: &mut [u8],
    fault: &mut FaultFields,
) -> i32
    ensures shows { ServesIn (handle_value surface.old) (handle_value client.old) →
        result ≡ pos 0 → ShowsIn (handle_value surface.new) (handle_value client.new) }
    ensures serves { ServesIn (handle_value surface.old) (handle_value client.old) →
        ServesIn (handle_value surface.new) (handle_value client.new) }
    ensures fails { ServesIn (handle_value surface.old) (handle_value client.old) →
        Reports result (MayCarry (handle_value surface.new) (handle_value client.new)
        (length room.old)) }
    ensures same { ShowsAsBefore (handle_value surface.old) (handle_value surface.new) }
{
    let reset = tk_client_reset(alloc, client);
    if reset != 0 {
        return reset;
    }
    let (mut ask, mut ask_len) = ([0u8; 20], 0);
    let asked = tk_client_ask(alloc, client, &mut ask, &mut ask_len);
    if asked != 0 {
        return asked;
    }
    let mut len = 0;
    let answered = tk_respond(alloc, surface, &ask[..ask_len], room, &mut len);
    if answered != 0 {
        return answered;
    }
    let mut taken = 0;
    tk_client_feed(alloc, client, &room[..len], &mut taken, fault)
}
