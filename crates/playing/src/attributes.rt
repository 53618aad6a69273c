//! Changes of one attribute by their words.
use crate::error::PlayError;
use crate::turn::Turn;
use std::rc::Rc;
use termwiz_cell::cell::{AttributeChange, Blink, Intensity, Underline};
use termwiz_cell::hyperlink::Hyperlink;

impl Turn<'_> {
    /// The change that a word names.
    pub(crate) fn attribute_of(&mut self, word: &str) -> AttributeChange {
        if let Some(color) = word.strip_prefix("fg=") {
            return AttributeChange::Foreground(self.color_of(color));
        }
        if let Some(color) = word.strip_prefix("bg=") {
            return AttributeChange::Background(self.color_of(color));
        }
        match word {
            "bold" => AttributeChange::Intensity(Intensity::Bold),
            "single" => AttributeChange::Underline(Underline::Single),
            "double" => AttributeChange::Underline(Underline::Double),
            "slow" => AttributeChange::Blink(Blink::Slow),
            "italic" => AttributeChange::Italic(true),
            "reverse" => AttributeChange::Reverse(true),
            "strike" => AttributeChange::StrikeThrough(true),
            "invisible" => AttributeChange::Invisible(true),
            "link" => AttributeChange::Hyperlink(self.link()),
            _ => {
                self.fail(PlayError::Bad);
                AttributeChange::Italic(true)
            }
        }
    }

    /// A link to `u`.
    pub(crate) fn link(&mut self) -> Option<Rc<Hyperlink>> {
        let uri = self.kept("u".to_owned(self.alloc))?;
        let link = Rc::new(self.alloc, Hyperlink::new(self.alloc, uri));
        self.kept(link)
    }
}
