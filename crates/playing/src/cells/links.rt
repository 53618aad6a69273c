//! Questions about links.
use crate::error::PlayError;
use crate::turn::Turn;
use std::collections::BTreeMap;
use termwiz_cell::hyperlink::{Hyperlink, LinkError};

const FAULTS: [LinkError; 4] = [
    LinkError::WrongParamCount,
    LinkError::NotUtf8,
    LinkError::BadParams,
    LinkError::Memory,
];

pub fn answer(turn: &mut Turn<'_>) {
    match turn.word() {
        "read" => read(turn),
        "show" => {
            let link = link(turn);
            show(turn, &link);
        }
        "same" => {
            let (one, other) = turn.sides();
            turn.rest = one;
            let one = link(turn);
            turn.rest = other;
            let other = link(turn);
            let (same, params) = (one == other, one.params() == other.params());
            write!(turn, "{same}, params {params}");
        }
        _ => turn.fail(PlayError::Bad),
    }
}

/// What each fault is in words.
pub fn faults(turn: &mut Turn<'_>) {
    for fault in FAULTS {
        writeln!(turn, "{fault:?}: {fault}");
    }
}

// The link of a sequence's parts, or why it is none. One byte that is no text has a word.
fn read(turn: &mut Turn<'_>) {
    let mut parts: Vec<&[u8]> = Vec::new(turn.alloc);
    for word in turn.rest().split(';') {
        let pushed = parts.push(match word {
            "\\xff" => &[0xff],
            _ => word.as_bytes(),
        });
        turn.note(pushed);
    }
    match Hyperlink::parse(turn.alloc, parts.as_slice()) {
        Ok(Some(link)) => show(turn, &link),
        Ok(None) => turn.push_str("none"),
        Err(LinkError::Memory) => turn.fail(PlayError::Memory),
        Err(fault) => writeln!(turn, "{fault:?}: {fault}"),
    }
}

fn show(turn: &mut Turn<'_>, link: &Hyperlink) {
    let (uri, count, implicit) = (link.uri(), link.params().len(), link.is_implicit());
    write!(
        turn,
        "{link}, uri {uri}, params {count}, implicit {implicit}"
    );
}

// The link of some words, or its copy.
fn link(turn: &mut Turn<'_>) -> Hyperlink {
    let (alloc, copies) = (turn.alloc, turn.takes("copy "));
    let kind = turn.word();
    let own = match kind {
        "id" | "params" => turn.word(),
        _ => "",
    };
    let word = turn.word();
    let uri = turn.owned(word);
    let made = match kind {
        "plain" => Some(Hyperlink::new(alloc, uri)),
        "implicit" => Some(Hyperlink::new_implicit(alloc, uri)),
        "id" => {
            let id = turn.owned(own);
            turn.kept(Hyperlink::new_with_id(alloc, uri, id))
        }
        "params" => {
            let mut params = BTreeMap::new(alloc);
            for pair in own.split(':') {
                let (key, value) = turn.found(pair.split_once('=')).unwrap_or(("", ""));
                let (key, value) = (turn.owned(key), turn.owned(value));
                let inserted = params.insert(key, value);
                turn.note(inserted);
            }
            Some(Hyperlink::new_with_params(uri, params))
        }
        _ => None,
    };
    let none = Hyperlink::new(alloc, String::new(alloc));
    let link = turn.found(made).unwrap_or(none);
    turn.copied(link, copies)
}
