//! What is sent of a source: its answers as bytes, each for a viewer that took all before it.
ghost use Rattle.std.specs.Prelude.{◌<◌, IfOk, List, ℕ};
ghost use Rattle.std.specs.List.{All};
ghost use Rattle.sessions.specs.Answering.{AnswersRequest, Does};
ghost use Rattle.sessions.specs.Frames.{IsChain};
ghost use Rattle.sessions.specs.Requests.{IsRequestInRange};
ghost use Rattle.sessions.specs.SendSteps.{HasNamed, SendsOn};
ghost use Rattle.sessions.specs.Sending.{AreSent, Happens, IsAnswered, IsSendInRange};
ghost use Rattle.sessions.specs.Sending.{unicode_measure};
ghost use Rattle.termwiz_share.specs.Client.{Shown};
ghost use Rattle.termwiz_share.specs.Histories.{Given};
ghost use Rattle.termwiz_share.specs.Serving.{KeepsClients};
ghost use Rattle.termwiz_surface.specs.{IsSurfaceSize};

use std::alloc::{AllocError, Global};
use termwiz_share::Source;
use termwiz_surface::view::Outcome;
use termwiz_surface::{Change, SEQ_ZERO, SequenceNo, UnicodeWidths};
use termwiz_wire::{Ask, SourceNo};

/// What happens to a surface whose answers are sent.
#[derive(Drop, Debug)]
pub enum SendEvent {
    /// The changes are added, as one list.
    Changes(Vec<Change>),
    /// The changes before this number are forgotten.
    Flush(SequenceNo),
    /// The surface takes this width and height.
    Resize(usize, usize),
    /// An answer is sent, for the number of the last one that was sent, or for 0.
    Send,
}

/// What is asked of a surface that answers.
#[derive(Drop, Debug)]
pub enum Request {
    /// The event is done.
    Event(SendEvent),
    /// A viewer that shows what this names asks for an answer.
    Ask(Ask),
}

/// What came of such an event.
#[derive(Drop, Debug)]
pub enum SendOutcome {
    /// What came of an event on the surface.
    Of(Outcome),
    /// The answer that was sent, as bytes.
    Sent(Vec<u8>),
}

/// Does the events on one blank surface, a full one of this width in columns and this height in
/// rows, which is the source of this number, and returns one outcome for each.
///
/// - A refused event is an outcome, and the run goes on.
/// - It fails where there is no memory for the surface, an answer, its bytes, or the list of
///   outcomes.
pub fn sent(
    alloc: Global,
    number: SourceNo,
    width: usize,
    height: usize,
    events: Vec<SendEvent>,
) -> Result<Vec<SendOutcome>, AllocError>
    requires source { 0 < number }
    requires size { IsSurfaceSize width height }
    requires sizes { All IsSendInRange events.items }
    ensures { IfOk result (λ outcomes. (frames : List Given) ×
        AreSent number width height events.items outcomes.items frames × IsChain frames) }
{
    let mut source = Source::new(alloc, number, width, height, UnicodeWidths)?;
    let mut last = SEQ_ZERO;
    let mut outcomes = Vec::new(alloc);
    for event in events {
        let outcome = serve(alloc, &mut source, &mut last, event)?;
        outcomes.push(outcome)?;
    }
    Ok(outcomes)
}

/// Does what is asked of a source. The number of the last answer that was sent is `last`.
pub(crate) fn answered(
    alloc: Global,
    source: &mut Source<UnicodeWidths>,
    last: &mut SequenceNo,
    request: Request,
) -> Result<SendOutcome, AllocError>
    requires in_range { IsRequestInRange request }
    ensures { IfOk result (λ outcome.
        AnswersRequest source.old last.old request outcome source.new last.new) }
{
    match request {
        Request::Event(event) => serve(alloc, source, last, event),
        Request::Ask(ask) => {
            let bytes = respond(alloc, source, ask)?;
            Ok(SendOutcome::Sent(bytes))
        }
    }
}

// Does one event. The number of the last answer that was sent is `last`.
fn serve(
    alloc: Global,
    source: &mut Source<UnicodeWidths>,
    last: &mut SequenceNo,
    event: SendEvent,
) -> Result<SendOutcome, AllocError>
    requires in_range { IsSendInRange event }
    ensures steps { IfOk result (λ outcome. (v : Shown) → HasNamed source.old last.old v →
        SendsOn source.old last.old v event outcome source.new last.new) }
    ensures does { IfOk result (λ outcome.
        Does source.old last.old event outcome source.new last.new) }
{
    match event {
        SendEvent::Changes(changes) => Ok(SendOutcome::Of(added(source, changes))),
        SendEvent::Flush(seq) => {
            source.flush_changes_older_than(seq);
            Ok(SendOutcome::Of(Outcome::Done))
        }
        SendEvent::Resize(width, height) => Ok(SendOutcome::Of(resized(source, width, height))),
        SendEvent::Send => {
            let ask = Ask {
                source: source.number(),
                number: *last,
            };
            let bytes = respond(alloc, source, ask)?;
            *last = source.surface().current_seqno();
            Ok(SendOutcome::Sent(bytes))
        }
    }
}

// Adds a list of changes.
fn added(source: &mut Source<UnicodeWidths>, changes: Vec<Change>) -> Outcome
    ensures happens { Happens source.old (SendEvent.Changes changes) result source.new }
    ensures serves { KeepsClients unicode_measure source.old source.new }
{
    match source.add_changes(changes) {
        Ok(number) => Outcome::Answered(number),
        Err(error) => Outcome::Refused(error),
    }
}

// Takes another size.
fn resized(source: &mut Source<UnicodeWidths>, width: usize, height: usize) -> Outcome
    requires size { IsSurfaceSize width height }
    ensures happens { Happens source.old (SendEvent.Resize width height) result source.new }
    ensures serves { KeepsClients unicode_measure source.old source.new }
{
    match source.resize(width, height) {
        Ok(()) => Outcome::Done,
        Err(error) => Outcome::Refused(error),
    }
}

// The bytes of the answer for an ask.
fn respond(
    alloc: Global,
    source: &mut Source<UnicodeWidths>,
    ask: Ask,
) -> Result<Vec<u8>, AllocError>
    ensures answered { IfOk result (λ bytes. IsAnswered source.old ask bytes source.new) }
    ensures serves { KeepsClients unicode_measure source.old source.new }
{
    let mut bytes = Vec::new(alloc);
    source.respond(ask, &mut bytes)?;
    Ok(bytes)
}
