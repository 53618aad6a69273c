//! Both ends of a stream.
ghost use Rattle.std.specs.Prelude.{◌≡◌, ◌<◌, IfOk};
ghost use Rattle.std.specs.List.{All};
ghost use Rattle.sessions.specs.Pipe.{IsPiped};
ghost use Rattle.sessions.specs.Sending.{IsSendInRange, bytes_sent, stream_sent};
ghost use Rattle.termwiz_surface.specs.{IsSurfaceSize};

use crate::ending::SessionError;
use crate::send::runs::{SendEvent, SendOutcome, sent};
use crate::watch::runs::{Watched, watch};
use std::alloc::{AllocError, Global};
use termwiz_wire::{Limits, SourceNo};

/// What is shown of the stream that a source of this number sends: after each of its answers, or
/// after the last one alone. It fails where memory is refused.
pub fn piped(
    alloc: Global,
    limits: Limits,
    source: SourceNo,
    size: (usize, usize),
    events: Vec<SendEvent>,
    each: bool,
) -> Result<Watched, SessionError>
    requires source { 0 < source }
    requires some { 0 < limits.bytes }
    requires size { IsSurfaceSize size.0 size.1 }
    requires sizes { All IsSendInRange events.items }
    ensures { IfOk result (λ shown.
        IsPiped limits source size.0 size.1 events.items each shown) }
{
    let (width, height) = size;
    let outcomes = sent(alloc, source, width, height, events)?;
    let bytes = stream(alloc, outcomes.as_slice())?;
    let mut input = bytes.as_slice();
    let shown = watch(alloc, limits, &mut input, each)?;
    Ok(shown)
}

/// The bytes that were sent, one answer after another.
pub fn stream(alloc: Global, outcomes: &[SendOutcome]) -> Result<Vec<u8>, AllocError>
    ensures { IfOk result (λ stream. stream.items ≡ stream_sent outcomes.now) }
{
    let mut stream = Vec::new(alloc);
    for outcome in outcomes {
        stream.extend_from_slice(bytes_of(outcome))?;
    }
    Ok(stream)
}

// The bytes that were sent, where any were.
fn bytes_of(outcome: &SendOutcome) -> &[u8]
    ensures { result.now ≡ bytes_sent outcome.now }
{
    match outcome {
        SendOutcome::Of(_) => &[],
        SendOutcome::Sent(bytes) => bytes.as_slice(),
    }
}
