//! Links and colours with recorded answers, each of which is a case. `> parse PARTS` asks for the
//! link of a sequence's parts, in hex digits and `-` for an empty part: `none`, why it is none, or
//! its uri and its params, and its text where it has at most one. `> color R G B` asks for both
//! texts of a colour.
use crate::error::PlayError;
use crate::play::Play;
use crate::turn::Turn;
use termwiz_cell::color::RgbColor;
use termwiz_cell::hyperlink::{Hyperlink, LinkError};

/// Answers the lines.
#[derive(Drop)]
pub struct Player;

impl Play for Player {
    fn line(&mut self, turn: &mut Turn<'_>) {
        if turn.takes("> parse") {
            parse(turn);
        } else if turn.takes("> color ") {
            let mut parts = [0_u8; 3];
            for part in &mut parts {
                let word = turn.word();
                *part = turn.found(word.parse().ok()).unwrap_or(0);
            }
            let [red, green, blue] = parts;
            turn.push_texts(RgbColor::new_8bpc(red, green, blue), " ");
        } else {
            turn.fail(PlayError::Bad);
        }
    }
}

// After each space stands a part.
fn parse(turn: &mut Turn<'_>) {
    let mut parts: Vec<Vec<u8>> = Vec::new(turn.alloc);
    for word in turn.rest().split(' ').skip(1) {
        let pushed = parts.push(turn.bytes_of(word));
        turn.note(pushed);
    }
    let lent = parts.iter().map(|part| part.as_slice()).collect(turn.alloc);
    let lent: Option<Vec<&[u8]>> = turn.kept(lent);
    let Some(lent) = lent else {
        return;
    };
    let word = match Hyperlink::parse(turn.alloc, lent.as_slice()) {
        Ok(Some(link)) => return push_link(turn, &link),
        Ok(None) => "none",
        Err(LinkError::WrongParamCount) => "fault count",
        Err(LinkError::NotUtf8) => "fault utf8",
        Err(LinkError::BadParams) => "fault params",
        Err(LinkError::Memory) => return turn.fail(PlayError::Memory),
    };
    turn.push_str(word);
}

fn push_link(turn: &mut Turn<'_>, link: &Hyperlink) {
    turn.push_word("link ", link.uri());
    for (key, value) in link.params() {
        turn.push_word(" ", key.as_str());
        turn.push_word("=", value.as_str());
    }
    if link.params().len() <= 1 {
        if let Some(text) = turn.kept(link.to_string(turn.alloc)) {
            turn.push_word("\nshown ", text.as_str());
        }
    }
}
