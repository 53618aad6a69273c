//! Texts by their words, and questions about texts that are cut into graphemes.
use crate::error::PlayError;
use crate::turn::Turn;
use std::alloc::AllocError;
use termwiz_text::{Graphemes, JoinedText, is_letter, split_letter_run, split_plain_run};
use unicode_segmentation::UnicodeSegmentation;

impl<'a> Turn<'a> {
    /// The text between quotes, which is all that is left to read. The pictures of control
    /// characters stand for these, in the texts here.
    pub(crate) fn quoted(&mut self) -> &'a str {
        let words = self.rest();
        let words = words.strip_prefix('"').unwrap_or(words);
        match words.strip_suffix('"').unwrap_or(words) {
            "␊" => "\n",
            "␍" => "\r",
            "␉" => "\t",
            "␍␊" => "\r\n",
            "aか␍␊" => "aか\r\n",
            text => text,
        }
    }

    /// A text in memory of its own.
    pub(crate) fn owned(&mut self, text: &str) -> String {
        self.kept(text.to_owned(self.alloc))
            .unwrap_or(String::new(self.alloc))
    }

    /// The copy of a value, if it is to be copied, or else the value.
    pub(crate) fn copied<T: Clone>(&mut self, value: T, copies: bool) -> T {
        if copies {
            self.kept(value.clone()).unwrap_or(value)
        } else {
            value
        }
    }

    /// Answers a mark, and the word of a text after it.
    pub(crate) fn push_word(&mut self, mark: &str, text: &str) {
        self.push_str(mark);
        self.push_escaped(text);
    }
}

pub fn answer(turn: &mut Turn<'_>, topic: &str) {
    let how = match topic {
        "run" | "runs" => turn.word(),
        _ => "",
    };
    // The text of a word, or N times that text where `N*` stands before it.
    let word = turn.word();
    let (count, word) = word.split_once('*').unwrap_or(("1", word));
    let count = turn.number_of(count);
    let text = turn.unescaped(word, ' ');
    let repeated = text.as_str().repeat(turn.alloc, count);
    let text = turn.kept(repeated).unwrap_or(text);
    let text = text.as_str();
    match topic {
        "cut" => push_pieces(turn, Graphemes::new(text).collect(turn.alloc)),
        "whole" => push_pieces(turn, text.graphemes(true).collect(turn.alloc)),
        "run" | "runs" => runs(turn, how, text),
        "letters" => {
            for c in text.chars() {
                turn.push(if is_letter(c) { '1' } else { '0' });
            }
        }
        "joins" => joins(turn, text),
        "grows" => grows(turn, text),
        _ => turn.fail(PlayError::Bad),
    }
}

// Graphemes with a bar after each.
fn push_pieces(turn: &mut Turn<'_>, pieces: Result<Vec<&str>, AllocError>) {
    if let Some(pieces) = turn.kept(pieces) {
        for piece in &pieces {
            turn.push_escaped(piece);
            turn.push('|');
        }
    }
}

fn split<'a>(turn: &mut Turn<'_>, how: &str, limit: usize, text: &'a str) -> (&'a str, &'a str) {
    match how {
        "plain" => split_plain_run(text, limit),
        "letters" => split_letter_run(text, limit),
        _ => {
            turn.fail(PlayError::Bad);
            ("", text)
        }
    }
}

// The run that the text begins with, of at most as many characters as the number says, and the
// rest; or, with no number, how many characters the runs have for each number from 0 to 29.
fn runs(turn: &mut Turn<'_>, how: &str, text: &str) {
    if let Some((how, limit)) = how.split_once('=') {
        let limit = turn.number_of(limit);
        let (run, rest) = split(turn, how, limit, text);
        turn.push_escaped(run);
        return turn.push_word(" ", rest);
    }
    for limit in 0..30 {
        let (run, _) = split(turn, how, limit, text);
        write!(turn, "{}|", run.chars().count());
    }
}

// A digit for each character, 1 where it is joined to `a` and the characters before as one
// grapheme more, and the text that they are then.
fn joins(turn: &mut Turn<'_>, text: &str) {
    let Some(mut joined) = turn.kept(JoinedText::new(turn.alloc, "a")) else {
        return;
    };
    for c in text.chars() {
        let mut bytes = [0; 4];
        let joins = turn.kept(joined.join(c.encode_utf8(&mut bytes)));
        turn.push(if joins == Some(true) { '1' } else { '0' });
    }
    turn.push_word(" ", joined.into_string().as_str());
}

// How many graphemes of the text are joined to those before, and whether they make the text.
fn grows(turn: &mut Turn<'_>, text: &str) {
    let Some(mut joined) = turn.kept(JoinedText::new(turn.alloc, "")) else {
        return;
    };
    let mut count: usize = 0;
    for piece in Graphemes::new(text) {
        let joins = turn.kept(joined.join(piece)) == Some(true);
        count = count.saturating_add(usize::from(joins));
    }
    let same = joined.as_str() == text;
    write!(turn, "{count}, same {same}");
}
