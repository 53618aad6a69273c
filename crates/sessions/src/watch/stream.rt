//! The answers of a stream that is read piece by piece.
ghost use Rattle.std.specs.Prelude.{◌≡◌, ◌<◌, IfErr, IfSome, None, Ok, OnOk, false};
ghost use Rattle.std.specs.Io.KnownBytes.{IsAtEnd, Keeps};
ghost use Rattle.sessions.specs.Taking.{IsSession, TakesComing, coming};
ghost use Rattle.termwiz_share.specs.Client.{shown_by};

use crate::ending::SessionError;
use std::io::{ErrorKind, Read};
use termwiz_share::{Client, ClientError, Taken};
use termwiz_surface::UnicodeWidths;

// How many bytes are read at once.
const PIECE: usize = 65536;

/// Why no next answer is taken.
#[derive(Clone, Copy, PartialEq, Eq, Debug)]
pub enum StreamError {
    /// It has a fault, or another size than what it leads on from.
    Answer(ClientError),
    /// The stream can't be read, or memory was refused, or 2^64 changes are made.
    Session(SessionError),
}

impl From<ClientError> for StreamError {
    ghost use Rattle.sessions.specs.Taking.{of_client};

    ghost from_gives = { λ error made. made ≡ of_client error };

    fn from(error: ClientError) -> StreamError {
        match error {
            ClientError::Fault(_) | ClientError::Size { at: _ } => StreamError::Answer(error),
            ClientError::Numbers | ClientError::Memory => {
                StreamError::Session(SessionError::Memory)
            }
        }
    }
}

/// Lets a client take the next answer of a stream, as soon as that has come, or returns `None`
/// where the stream ends after an answer.
pub fn next_answer<R: Read>(
    client: &mut Client<UnicodeWidths>,
    input: &mut R,
) -> Result<Option<Taken>, StreamError>
    requires some { 0 < client.old.limits.bytes }
    requires reading { client.old.stopped ≡ None }
    ensures limits { client.new.limits ≡ client.old.limits }
    ensures reading { OnOk result (client.new.stopped ≡ None) }
    ensures takes { IfSome (coming client.old (R.remaining input.old)) (λ bytes.
        TakesComing client.old.limits (shown_by client.old) bytes result (shown_by client.new)
        (coming client.new (R.remaining input.new))) }
{
    for _ in 0..u64::MAX {
        if let Some(taken) = client.take_answer()? {
            return Ok(Some(taken));
        }
        if !read_piece(client, input)? {
            client.end()?;
            return Ok(None);
        }
    }
    Err(StreamError::Session(SessionError::Unreadable))
}

// Lets a client keep the next bytes of a stream, and returns whether there may be more.
fn read_piece<R: Read>(
    client: &mut Client<UnicodeWidths>,
    input: &mut R,
) -> Result<bool, StreamError>
    requires reading { client.old.stopped ≡ None }
    ensures same { (client.new.limits ≡ client.old.limits)
        × (shown_by client.new ≡ shown_by client.old) }
    ensures reading { OnOk result (client.new.stopped ≡ None) }
    ensures keeps { OnOk result (Keeps (coming client.old (R.remaining input.old))
        (coming client.new (R.remaining input.new))) }
    ensures end { result ≡ Ok false →
        IsAtEnd (R.remaining input.new) × (client.new ≡ client.old) }
    ensures session { IfErr result IsSession }
{
    let mut piece = [0u8; PIECE];
    match input.read(&mut piece) {
        Ok(0) => Ok(false),
        Ok(count) => {
            client.keep(&piece[..count])?;
            Ok(true)
        }
        Err(error) => match error.kind() {
            ErrorKind::Interrupted => Ok(true),
            ErrorKind::OutOfMemory => Err(StreamError::Session(SessionError::Memory)),
            _ => Err(StreamError::Session(SessionError::Unreadable)),
        },
    }
}
