//! Values as bytes, and what becomes of damaged bytes.
use crate::streams::followed::Followed;
use playing::error::PlayError;
use playing::turn::Turn;
use termwiz_cell::emoji::{OneColumn, UnicodeWidths, Widths};
use termwiz_wire::{
    Limits, WireError, decode_answer, decode_ask, decode_change, decode_head, encode_answer,
    encode_ask, encode_change,
};

/// What bytes encode.
#[derive(Clone, Copy, PartialEq, Eq)]
pub enum Kind {
    Change,
    /// A change where each text has one column.
    Narrow,
    Answer,
    Head,
    Ask,
}

// The bytes of a value that is encoded again, and how many bytes it was decoded from.
type Again = Result<(Vec<u8>, usize), WireError>;

/// Decodes the value that bytes begin with, and encodes it again. Returns whether its encoding is
/// what it was decoded from, or the place of its fault is among the bytes. With `shows` it answers
/// which value or fault it is.
pub fn decode(turn: &mut Turn<'_>, kind: Kind, bytes: &[u8], shows: bool) -> bool {
    let again = match kind {
        Kind::Change => change_again(turn, &UnicodeWidths, bytes, shows),
        Kind::Narrow => change_again(turn, &OneColumn, bytes, shows),
        Kind::Answer => answer_again(turn, bytes, shows),
        Kind::Ask => ask_again(turn, bytes, shows),
        // Of a head nothing is encoded.
        Kind::Head => match decode_head(Limits::default(), bytes) {
            Ok(head) => {
                writeln!(turn, "{head:?}");
                Ok((Vec::new(turn.alloc), 0))
            }
            Err(fault) => Err(WireError::Fault(fault)),
        },
    };
    match again {
        Ok((again, taken)) => again.len() == taken && bytes.starts_with(again.as_slice()),
        Err(WireError::Memory) => {
            turn.fail(PlayError::Memory);
            false
        }
        Err(WireError::Fault(fault)) => {
            if shows {
                writeln!(turn, "{fault}");
            }
            fault.at <= bytes.len()
        }
    }
}

fn change_again<W: Widths>(turn: &mut Turn<'_>, widths: &W, bytes: &[u8], shows: bool) -> Again {
    match decode_change(turn.alloc, widths, bytes) {
        Ok((change, taken)) => {
            if shows {
                writeln!(turn, "{change:?}");
            }
            let mut again = Vec::new(turn.alloc);
            let encoded = encode_change(&mut again, widths, &change);
            turn.note(encoded);
            Ok((again, taken))
        }
        Err(error) => Err(error),
    }
}

fn answer_again(turn: &mut Turn<'_>, bytes: &[u8], shows: bool) -> Again {
    match decode_answer(turn.alloc, &UnicodeWidths, Limits::default(), bytes) {
        Ok((sent, taken)) => {
            if shows {
                writeln!(turn, "{sent:?}");
            }
            let mut again = Vec::new(turn.alloc);
            let encoded = encode_answer(&mut again, &UnicodeWidths, sent.source, &sent.answer);
            turn.note(encoded);
            Ok((again, taken))
        }
        Err(error) => Err(error),
    }
}

fn ask_again(turn: &mut Turn<'_>, bytes: &[u8], shows: bool) -> Again {
    match decode_ask(bytes) {
        Ok((ask, taken)) => {
            if shows {
                writeln!(turn, "{ask:?}");
            }
            let mut again = Vec::new(turn.alloc);
            let encoded = encode_ask(&mut again, ask);
            turn.note(encoded);
            Ok((again, taken))
        }
        Err(error) => Err(error),
    }
}

/// What is given damaged bytes.
#[derive(Drop)]
pub enum Trial {
    /// They are decoded as this.
    Decoded(Kind),
    /// A client is fed them.
    Fed(Followed),
}

impl Trial {
    /// Takes all that differs from these bytes in one byte, and all that they begin with, and
    /// returns how many inputs these are.
    pub fn count(&mut self, turn: &mut Turn<'_>, bytes: &[u8]) -> usize {
        let mut count = 0usize;
        let mut damaged = Vec::new(turn.alloc);
        let copied = damaged.extend_from_slice(bytes);
        turn.note(copied);
        for i in 0..bytes.len() {
            for byte in 0..=255u8 {
                if let Some(place) = damaged.get_mut(i) {
                    *place = byte;
                }
                self.meet(turn, damaged.as_slice());
                count = count.wrapping_add(1);
            }
            if let Some(place) = damaged.get_mut(i) {
                *place = bytes[i];
            }
            self.meet(turn, bytes.get(..i).unwrap_or(&[]));
            count = count.wrapping_add(1);
        }
        count
    }

    // Takes the bytes, and fails where they aren't met as they have to be.
    fn meet(&mut self, turn: &mut Turn<'_>, bytes: &[u8]) {
        let is_met = match self {
            Trial::Fed(followed) => followed.meets(turn, bytes),
            Trial::Decoded(kind) => decode(turn, *kind, bytes, false),
        };
        if !is_met {
            turn.fail(PlayError::Differs);
        }
    }
}
