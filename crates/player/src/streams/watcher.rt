//! A client, and the response to its ask.
use crate::streams::given::push_screen;
use playing::error::PlayError;
use playing::turn::Turn;
use std::fmt::Debug;
use termwiz_cell::emoji::UnicodeWidths;
use termwiz_share::{Client, ClientError, Source};
use termwiz_surface::FullScreen;
use termwiz_wire::{Ask, Limits, decode_ask};
use uses::watching::{show_each, take_some};

// What buffers have before a call appends to them.
const BEFORE: [u8; 8] = [246; 8];

/// A client, what it asked last, the response, and how many bytes of that it was given.
#[derive(Drop)]
pub struct Watcher {
    pub client: Client<UnicodeWidths>,
    ask: Ask,
    pub response: Vec<u8>,
    given: usize,
}

impl Watcher {
    /// A client that has no response.
    pub fn new(turn: &mut Turn<'_>) -> Option<Watcher> {
        let client = turn.kept(Client::new(turn.alloc, UnicodeWidths, Limits::default()))?;
        Some(Watcher {
            ask: client.ask(),
            client,
            response: Vec::new(turn.alloc),
            given: 0,
        })
    }

    /// Asks, takes the response or a part of it, or says what the client has.
    pub fn play(&mut self, turn: &mut Turn<'_>, what: &str) {
        match what {
            "asks" => self.ask(turn),
            "client-shown" => push_screen(turn, self.client.surface()),
            "number" => {
                let (source, number) = (self.client.source(), self.client.number());
                let bytes = self.response.len();
                write!(turn, "source {source}, number {number}, {bytes} bytes");
            }
            "show-each" => {
                let mut screens = Vec::new(turn.alloc);
                let response = self.response.as_slice();
                push_returned(turn, show_each(&mut self.client, response, &mut screens));
                write!(turn, " stale, {} shown", screens.len());
            }
            "feed" | "keep" | "take" => {
                let part = if turn.is_read() { "all" } else { turn.word() };
                let returned = self.give(turn, what, part);
                push_returned(turn, returned);
            }
            _ => turn.fail(PlayError::Bad),
        }
    }

    // Asks, by bytes that say what it asks.
    fn ask(&mut self, turn: &mut Turn<'_>) {
        let mut bytes = Vec::new(turn.alloc);
        let begun = bytes.extend_from_slice(&BEFORE);
        turn.note(begun);
        let encoded = self.client.encode_ask(&mut bytes);
        let appended = appended(turn, bytes.as_slice());
        turn.note(encoded);
        if turn.has_failed() {
            return;
        }
        self.ask = self.client.ask();
        match decode_ask(appended) {
            Ok((ask, _)) if ask == self.ask => {}
            _ => turn.fail(PlayError::Differs),
        }
    }

    /// Has the response of a source to what the client asked. Where memory is refused, the source
    /// shows what it showed, and has the number that it had, and as many changes.
    pub fn receive(&mut self, turn: &mut Turn<'_>, source: &mut Source<UnicodeWidths>) {
        let before = state_of(turn, source);
        let mut bytes = Vec::new(turn.alloc);
        let begun = bytes.extend_from_slice(&BEFORE);
        turn.note(begun);
        if turn.has_failed() {
            return;
        }
        let responded = source.respond(self.ask, &mut bytes);
        let appended = appended(turn, bytes.as_slice());
        if responded.is_err() && state_of(turn, source) != before {
            turn.fail(PlayError::Differs);
        }
        turn.note(responded);
        let mut response = Vec::new(turn.alloc);
        let copied = response.extend_from_slice(appended);
        turn.note(copied);
        if !turn.has_failed() {
            self.response = response;
            self.given = 0;
        }
    }

    // Feeds the client the rest of the response, or with `half` what comes before its middle, or
    // lets it keep that, or lets it take answers of what it keeps, up to a number of them.
    fn give(&mut self, turn: &mut Turn<'_>, how: &str, part: &str) -> Result<usize, ClientError> {
        let end = match part {
            "half" => self.response.len() / 2,
            _ => self.response.len(),
        };
        let before = turn.kept(self.client.surface().full_screen());
        let piece = turn
            .found(self.response.get(self.given..end))
            .unwrap_or(&[]);
        if turn.has_failed() {
            return Err(ClientError::Memory);
        }
        let taken = match how {
            "feed" => self.client.feed(piece),
            // No answers are taken of bytes that are kept.
            "keep" => self.client.keep(piece).map(|()| 0),
            _ => take_some(&mut self.client, turn.number_of(part)),
        };
        if how != "take" {
            self.given = end;
        }
        if taken == Err(ClientError::Memory) {
            let stands = turn.kept(self.client.surface().full_screen()) == before;
            self.prepare(turn, stands);
        }
        taken
    }

    // Makes the client ready for the call to which memory was refused, where it stands as it has
    // to: it shows what it showed, unless bytes are kept and it lost its number.
    fn prepare(&mut self, turn: &mut Turn<'_>, is_same: bool) {
        let stands = if self.client.stopped().is_some() {
            // The bytes are lost.
            let is_stopped = self.client.feed(&[]) == Err(ClientError::Memory);
            self.client.reset();
            self.given = 0;
            is_same && is_stopped
        } else {
            // The bytes of the answer are kept.
            is_same || self.client.number() == 0
        };
        if !stands {
            turn.fail(PlayError::Differs);
        }
        turn.fail(PlayError::Memory);
    }

    /// Answers whether the client shows what a source shows, or lost its number. Where it is
    /// served, it asks first, and is fed the response.
    pub fn follow(
        &mut self,
        turn: &mut Turn<'_>,
        source: &mut Source<UnicodeWidths>,
        is_served: bool,
    ) {
        if is_served {
            self.ask(turn);
            self.receive(turn, source);
            let _taken = self.give(turn, "feed", "all");
        }
        // A client may lose its number where memory is refused.
        let is_lost = self.client.number() == 0;
        let shown = turn.kept(self.client.surface().full_screen());
        let follows = is_lost || shown == turn.kept(source.surface().full_screen());
        write!(turn, "{follows}");
    }
}

/// Answers what a call returned, unless memory was refused to it.
pub fn push_returned<T: Debug + Drop>(turn: &mut Turn<'_>, returned: Result<T, ClientError>) {
    match returned {
        Ok(value) => write!(turn, "{value:?}"),
        Err(ClientError::Memory) => turn.fail(PlayError::Memory),
        Err(error) => write!(turn, "refused: {error}"),
    }
}

// What a call appended to a buffer, which has to begin as it did.
fn appended<'b>(turn: &mut Turn<'_>, bytes: &'b [u8]) -> &'b [u8] {
    match bytes.strip_prefix(&BEFORE) {
        Some(appended) => appended,
        None => {
            turn.fail(PlayError::Differs);
            &[]
        }
    }
}

// What a source shows, its number, and how many changes are due from the first one on.
fn state_of(
    turn: &mut Turn<'_>,
    source: &Source<UnicodeWidths>,
) -> Option<(FullScreen, usize, usize)> {
    let shown = turn.kept(source.surface().full_screen())?;
    let (number, changes) = turn.kept(source.surface().get_changes(1))?;
    Some((shown, number, changes.len()))
}
