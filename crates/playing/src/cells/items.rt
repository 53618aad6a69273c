//! Items of CBOR: what encoding writes, and what decoding reads.
use crate::error::PlayError;
use crate::turn::Turn;
use cbor::{Reader, put_array, put_bool, put_null, put_signed, put_text, put_unsigned};
use std::fmt::Debug;

pub fn answer(turn: &mut Turn<'_>) {
    match turn.word() {
        "put" => put(turn),
        "read" => read(turn),
        _ => turn.fail(PlayError::Bad),
    }
}

// The bytes of the items, one after another.
fn put(turn: &mut Turn<'_>) {
    let mut bytes = Vec::new(turn.alloc);
    for word in turn.rest().split(' ') {
        let (kind, value) = word.split_once('=').unwrap_or((word, ""));
        let put = match kind {
            "unsigned" => put_unsigned(&mut bytes, turn.number_of(value)),
            "signed" => put_signed(&mut bytes, turn.distance_of(value)),
            "text" => put_text(&mut bytes, turn.unescaped(value, ' ').as_str()),
            "false" => put_bool(&mut bytes, false),
            "true" => put_bool(&mut bytes, true),
            "null" => put_null(&mut bytes),
            "array" => put_array(&mut bytes, turn.number_of(value)),
            _ => return turn.fail(PlayError::Bad),
        };
        turn.note(put);
    }
    for byte in bytes {
        write!(turn, "{byte:02x}");
    }
}

// What the calls return in turn, and how many bytes are left after them.
fn read(turn: &mut Turn<'_>) {
    let (limit, word) = (turn.word(), turn.word());
    let bytes = turn.bytes_of(word);
    let mut reader = match limit {
        "all" => Reader::new(bytes.as_slice()),
        _ => Reader::with_limit(bytes.as_slice(), turn.number_of(limit)),
    };
    for call in turn.rest().split(' ') {
        let (name, number) = call.split_once('=').unwrap_or((call, "0"));
        let number = turn.number_of(number);
        match name {
            "kind" => turn.push_shown("", reader.kind()),
            "unsigned" => turn.push_shown("", reader.unsigned()),
            "below" => turn.push_shown("", reader.below(number)),
            "signed" => turn.push_shown("", reader.signed()),
            "text" => turn.push_shown("", reader.text()),
            "boolean" => turn.push_shown("", reader.boolean()),
            "null" => turn.push_shown("", reader.null()),
            "array" => turn.push_shown("", reader.array()),
            "array-of" => turn.push_shown("", reader.array_of(number)),
            "list" => turn.push_shown("", reader.list()),
            _ => turn.fail(PlayError::Bad),
        }
        turn.push_str(", ");
    }
    write!(turn, "left {}", reader.rest().len());
}

impl Turn<'_> {
    /// Answers a mark, and what `{:?}` shows of a value after it.
    pub(crate) fn push_shown<T: Debug + Drop>(&mut self, mark: &str, value: T) {
        write!(self, "{mark}{value:?}");
    }
}
