//! Texts by their words, in which escapes stand for characters: `\n`, `\r`, `\t`, `\s` for a
//! space, `\\`, and `\u{H}`. The word `\e` is the empty text.
ghost use Rattle.std.specs.Prelude.{◌≤◌, length, IfSome};

use crate::error::PlayError;
use crate::turn::Turn;

const LETTERS: [(char, char); 5] = [
    ('n', '\n'),
    ('r', '\r'),
    ('t', '\t'),
    ('s', ' '),
    ('\\', '\\'),
];

// The word of the empty text.
const EMPTY: &str = "\\e";

impl Turn<'_> {
    /// The text with its escapes replaced, and with a space for each character that stands for one.
    pub fn unescaped(&mut self, text: &str, space: char) -> String {
        let mut plain = String::new(self.alloc);
        let mut rest = if text == EMPTY { "" } else { text };
        while let Some((before, escape)) = rest.split_once('\\') {
            self.push_spaced(&mut plain, before, space);
            let Some((c, after)) = escaped_char(escape) else {
                self.fail(PlayError::Bad);
                return plain;
            };
            let pushed = plain.push(c);
            self.note(pushed);
            rest = after;
        }
        self.push_spaced(&mut plain, rest, space);
        plain
    }

    fn push_spaced(&mut self, plain: &mut String, text: &str, space: char) {
        for c in text.chars() {
            let pushed = plain.push(if c == space { ' ' } else { c });
            self.note(pushed);
        }
    }

    /// Answers the word of a text: letters, digits, `=`, `;` and `,` stand for themselves.
    pub(crate) fn push_escaped(&mut self, text: &str) {
        if text.is_empty() {
            self.push_str(EMPTY);
        }
        for c in text.chars() {
            match c {
                ' ' => self.push_str("\\s"),
                '\\' => self.push_str("\\\\"),
                '=' | ';' | ',' => self.push(c),
                _ if c.is_alphanumeric() => self.push(c),
                _ => write!(self, "\\u{{{:x}}}", c as u32),
            }
        }
    }
}

// The character of the escape that a text begins with after its backslash, by its letter or by its
// number, and what follows it.
fn escaped_char(text: &str) -> Option<(char, &str)>
    ensures { IfSome result (λ found. length found.1.now ≤ length text.now) }
{
    for (letter, c) in LETTERS {
        if let Some(rest) = text.strip_prefix(letter) {
            return Some((c, rest));
        }
    }
    let (digits, rest) = text.strip_prefix("u{")?.split_once('}')?;
    let value = u32::from_str_radix(digits, 16).ok()?;
    Some((char::from_u32(value)?, rest))
}
