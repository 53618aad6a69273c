//! What the words of a line give, and what a surface shows.
ghost use Rattle.std.specs.Prelude.{◌<◌, ◌^◌};

use playing::error::PlayError;
use playing::surfaces::answers;
use playing::surfaces::sizes::checked_size;
use playing::turn::Turn;
use termwiz_cell::change::Change;
use termwiz_cell::emoji::{UnicodeWidths, Widths};
use termwiz_surface::surface::{Answer, Surface, SurfaceError};
use termwiz_wire::{Limits, WireError, decode_answer, decode_change, encode_answer};

pub type Shown = Surface<UnicodeWidths>;

/// A width and a height that a surface may have, with `x` between them.
pub fn size_of(turn: &mut Turn<'_>, word: &str) -> (usize, usize)
    ensures { (0 < result.0) × (result.0 < 2 ^ 32) × (0 < result.1) × (result.1 < 2 ^ 32) }
{
    let (width, height) = turn.found(word.split_once('x')).unwrap_or(("", ""));
    let (width, height) = (turn.number_of(width), turn.number_of(height));
    match checked_size(turn, width, height) {
        Some(size) => size,
        None => (1, 1),
    }
}

/// The changes of some words: `=` and a text, or the bytes that encode a change.
pub fn changes_of(turn: &mut Turn<'_>, words: &str) -> Vec<Change> {
    let mut changes = Vec::new(turn.alloc);
    if words.is_empty() {
        return changes;
    }
    for word in words.split(' ') {
        let change = match word.strip_prefix('=') {
            Some(text) => Some(Change::Text(turn.unescaped(text, ' '))),
            None => {
                let bytes = turn.bytes_of(word);
                let change = decode_change(turn.alloc, &UnicodeWidths, bytes.as_slice());
                decoded(turn, change)
            }
        };
        turn.keep(&mut changes, change);
    }
    changes
}

/// Keeps the fault of a call on a surface, if it has one.
pub fn note_change<T: Drop>(turn: &mut Turn<'_>, made: Result<T, SurfaceError>) {
    match made {
        Ok(_) => {}
        Err(SurfaceError::Memory) => turn.fail(PlayError::Memory),
        Err(_) => turn.fail(PlayError::Bad),
    }
}

/// The value that a call decoded, unless it failed.
pub fn decoded<T: Drop>(turn: &mut Turn<'_>, decoded: Result<(T, usize), WireError>) -> Option<T> {
    match decoded {
        Ok((value, _)) => return Some(value),
        Err(WireError::Memory) => turn.fail(PlayError::Memory),
        Err(WireError::Fault(_)) => turn.fail(PlayError::Bad),
    }
    None
}

/// An answer that was encoded and decoded.
pub fn sent<W: Widths>(
    turn: &mut Turn<'_>,
    widths: &W,
    answer: &Answer<'_>,
) -> Option<Answer<'static>> {
    let mut bytes = Vec::new(turn.alloc);
    let encoded = encode_answer(&mut bytes, widths, 1, answer);
    turn.note(encoded);
    let limits = Limits::default();
    let sent = decode_answer(turn.alloc, widths, limits, bytes.as_slice());
    Some(decoded(turn, sent)?.answer)
}

/// Makes the changes of some words on a surface as one list.
pub fn paint<W: Widths>(turn: &mut Turn<'_>, surface: &mut Surface<W>, words: &str) {
    let changes = changes_of(turn, words);
    if !turn.has_failed() {
        note_change(turn, surface.add_changes(changes));
    }
}

/// A surface of this size, or a full one, after the changes of some words.
pub fn painted(turn: &mut Turn<'_>, size: &str, is_full: bool, words: &str) -> Option<Shown> {
    let (width, height) = size_of(turn, size);
    let blank = if is_full {
        Surface::new_full(turn.alloc, width, height, UnicodeWidths)
    } else {
        Surface::new(turn.alloc, width, height, UnicodeWidths)
    };
    let mut surface = turn.kept(blank)?;
    paint(turn, &mut surface, words);
    Some(surface)
}

/// Answers the rows of a surface, and its cursor.
pub fn push_rows(turn: &mut Turn<'_>, surface: &Shown) {
    if let Some(rows) = turn.kept(surface.screen_chars_to_string()) {
        answers::push_rows(turn, rows.as_str(), surface.cursor_position());
    }
}

/// Answers the rows of a surface, its cursor, and the changes that make its whole screen.
pub fn push_screen(turn: &mut Turn<'_>, surface: &Shown) {
    push_rows(turn, surface);
    if let Some(repaint) = turn.kept(surface.answer(0)) {
        writeln!(turn, "{:?}", repaint.changes());
    }
}
