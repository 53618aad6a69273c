//! Damaged bytes that a client is fed.
use crate::streams::given::decoded;
use playing::error::PlayError;
use playing::turn::Turn;
use termwiz_cell::emoji::UnicodeWidths;
use termwiz_share::{Client, ClientError, Source};
use termwiz_surface::FullScreen;
use termwiz_surface::surface::Answer;
use termwiz_wire::{Ask, FaultKind, Limits, WireError, decode_answer};

/// A source, and a client that shows what the source showed before its last changes.
///
/// Of damaged bytes the client either takes an answer, or it shows what it showed. Then it is made
/// ready for a new connection, asks, and shows what the source shows by the one response. Where it
/// took an answer it may show anything, so it asks for a repaint.
#[derive(Drop)]
pub struct Followed {
    source: Source<UnicodeWidths>,
    client: Client<UnicodeWidths>,
    // By which the client shows what the source showed.
    repaint: Vec<u8>,
    // What the source showed, and what it shows.
    before: Option<FullScreen>,
    after: Option<FullScreen>,
}

impl Followed {
    /// A source that made the changes of the repaint, and then those of the delta. It has to give
    /// that delta to a client that has the repaint.
    pub fn new(turn: &mut Turn<'_>, repaint: Vec<u8>, delta: &[u8]) -> Option<Followed> {
        let (widths, limits) = (UnicodeWidths, Limits::default());
        let client = turn.kept(Client::new(turn.alloc, widths, limits))?;
        let first = decode_answer(turn.alloc, &widths, limits, repaint.as_slice());
        let first = decoded(turn, first)?;
        let ask = Ask {
            source: first.source,
            number: first.answer.number(),
        };
        if ask.source == 0 {
            turn.fail(PlayError::Bad);
            return None;
        }
        let (width, height) = first.answer.size();
        let source = Source::new(turn.alloc, ask.source, width, height, widths);
        let mut source = turn.kept(source)?;
        let before = shown_after(turn, &mut source, first.answer);
        let more = decoded(turn, decode_answer(turn.alloc, &widths, limits, delta))?;
        let after = shown_after(turn, &mut source, more.answer);
        let mut response = Vec::new(turn.alloc);
        turn.note(source.respond(ask, &mut response));
        if response.as_slice() != delta {
            turn.fail(PlayError::Differs);
        }
        Some(Followed {
            source,
            client,
            repaint,
            before,
            after,
        })
    }

    /// Feeds the client bytes, and returns whether it meets them so.
    pub fn meets(&mut self, turn: &mut Turn<'_>, bytes: &[u8]) -> bool {
        let begins = self.client.feed(self.repaint.as_slice()).is_ok();
        let begins = begins && turn.kept(self.client.surface().full_screen()) == self.before;
        let (first, rest) = bytes.split_at(bytes.len() / 2);
        // What fails at the first piece fails alike at the other.
        let _ = self.client.feed(first);
        let fed = self.client.feed(rest);
        let stays = turn.kept(self.client.surface().full_screen()) == self.before;
        self.client.reset();
        let mut ask = self.client.ask();
        let stands = match decode_answer(turn.alloc, &UnicodeWidths, Limits::default(), bytes) {
            Ok(_) => {
                ask.source = 0;
                ask.number = 0;
                true
            }
            Err(WireError::Memory) => {
                turn.fail(PlayError::Memory);
                false
            }
            Err(WireError::Fault(fault)) => match fault.kind {
                FaultKind::Truncated => stays && fed == Ok(0),
                _ => stays && fed == Err(ClientError::Fault(fault)),
            },
        };
        let mut response = Vec::new(turn.alloc);
        turn.note(self.source.respond(ask, &mut response));
        let goes_on = self.client.feed(response.as_slice()).is_ok();
        let ends = turn.kept(self.client.surface().full_screen()) == self.after;
        begins && stands && goes_on && ends
    }
}

// What a source shows once it made the changes of an answer, which it has to make.
fn shown_after(
    turn: &mut Turn<'_>,
    source: &mut Source<UnicodeWidths>,
    answer: Answer<'_>,
) -> Option<FullScreen> {
    let changes = turn.kept(answer.into_changes(turn.alloc))?;
    if source.add_changes(changes).is_err() {
        turn.fail(PlayError::Differs);
    }
    turn.kept(source.surface().full_screen())
}
