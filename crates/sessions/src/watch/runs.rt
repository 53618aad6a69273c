//! What is shown of a stream of answers.
ghost use Rattle.std.specs.Prelude.{◌<◌, IfOk, IfSome, OnOk};
ghost use Rattle.sessions.specs.Watching.{IsWatched, KeepsOne, KeepsOutcome};
ghost use Rattle.termwiz_share.specs.Client.{shown_by};

use crate::ending::SessionError;
use crate::watch::stream::{StreamError, next_answer};
use std::alloc::{AllocError, Global};
use std::io::Read;
use termwiz_share::{Client, ClientError, Taken};
use termwiz_surface::{FullScreen, SequenceNo, UnicodeWidths};
use termwiz_wire::{Limits, SourceNo};

/// What is shown once an answer was taken.
#[derive(Drop, Debug)]
pub struct View {
    /// The answer's source.
    pub source: SourceNo,
    /// The answer's number.
    pub number: SequenceNo,
    /// What is shown. Its rows have the number 0 and no flags.
    pub screen: FullScreen,
}

/// What is shown of a stream.
#[derive(Drop, Debug)]
pub struct Watched {
    /// What is shown after each answer that isn't stale, or after the last of them.
    pub views: Vec<View>,
    /// The number of each stale answer, from 1, and the byte of it at which what doesn't fit
    /// begins.
    pub stale: Vec<(usize, usize)>,
    /// The number of the answer, from 1, that isn't taken, and why.
    pub fault: Option<(usize, ClientError)>,
}

/// What is shown of a stream: after each of its answers that isn't stale, or after the last one
/// alone. No answer may have more cells or bytes than the limits.
///
/// At a fault it shows what came before. It fails where the stream can't be read, and where memory
/// is refused.
pub fn watch<R: Read>(
    alloc: Global,
    limits: Limits,
    input: &mut R,
    each: bool,
) -> Result<Watched, SessionError>
    requires some { 0 < limits.bytes }
    ensures { IfOk result (λ watched. IfSome (R.remaining input.old) (λ bytes.
        IsWatched limits bytes each watched)) }
{
    let mut client = Client::new(alloc, UnicodeWidths, limits)?;
    let mut watched = Watched {
        views: Vec::new(alloc),
        stale: Vec::new(alloc),
        fault: None,
    };
    for count in 0..usize::MAX {
        match next_answer(&mut client, input) {
            Ok(Some(taken)) => watched.keep(&client, count + 1, taken, each)?,
            Ok(None) => return Ok(watched),
            Err(StreamError::Answer(error)) => {
                watched.fault = Some((count + 1, error));
                return Ok(watched);
            }
            Err(StreamError::Session(error)) => return Err(error),
        }
    }
    Err(SessionError::Unreadable)
}

impl Watched {
    // Keeps what comes of the answer of this number, which a client took.
    fn keep(
        &mut self,
        client: &Client<UnicodeWidths>,
        number: usize,
        taken: Taken,
        each: bool,
    ) -> Result<(), AllocError>
        ensures { OnOk result (
            KeepsOutcome each (shown_by client.now) number taken self.old self.new) }
    {
        match taken {
            Taken::Shown => keep_view(&mut self.views, client, each),
            Taken::Stale { at } => {
                self.stale.push((number, at))?;
                Ok(())
            }
        }
    }
}

// Keeps what a client shows after the other views, or in their place.
fn keep_view(
    views: &mut Vec<View>,
    client: &Client<UnicodeWidths>,
    each: bool,
) -> Result<(), AllocError>
    ensures { OnOk result (
        KeepsOne each views.old.items (shown_by client.now) views.new.items) }
{
    let view = View {
        source: client.source(),
        number: client.number(),
        screen: client.surface().full_screen()?,
    };
    if !each {
        views.clear();
    }
    views.push(view)?;
    Ok(())
}
