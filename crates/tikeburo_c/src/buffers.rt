//! Buffers of the caller's.
ghost use Rattle.tikeburo_c.specs.Results.{GivesInto};

use crate::failure::Failure;

/// Writes the bytes to the buffer's front, and their length: the length alone where the buffer is
/// too short.
pub(crate) fn give(bytes: &[u8], room: &mut [u8], len: &mut usize) -> Result<(), Failure>
    ensures { GivesInto bytes.now (room.old, len.old) result (room.new, len.new) }
{
    *len = bytes.len();
    if bytes.len() > room.len() {
        return Err(Failure::Short);
    }
    room[..bytes.len()].copy_from_slice(bytes);
    Ok(())
}
