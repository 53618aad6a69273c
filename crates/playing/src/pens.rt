//! Attributes by their words.
use crate::error::PlayError;
use crate::turn::Turn;
use crate::words::named;
use termwiz_cell::cell::{
    Blink, CellAttributes, Intensity, SemanticType, Underline, VerticalAlign,
};

/// The names of semantic types.
pub const SEMANTIC_TYPES: [(&str, SemanticType); 3] = [
    ("output", SemanticType::Output),
    ("input", SemanticType::Input),
    ("prompt", SemanticType::Prompt),
];

/// The names of intensities but the normal one.
pub const INTENSITIES: [(&str, Intensity); 2] = [
    ("bold", Intensity::Bold),
    ("half", Intensity::Half),
];

/// The names of lines below the text.
pub const UNDERLINES: [(&str, Underline); 5] = [
    ("underline", Underline::Single),
    ("double", Underline::Double),
    ("curly", Underline::Curly),
    ("dotted", Underline::Dotted),
    ("dashed", Underline::Dashed),
];

/// The names of ways to blink.
pub const BLINKS: [(&str, Blink); 2] = [("slow", Blink::Slow), ("rapid", Blink::Rapid)];

/// The names of places above and below the base line.
pub const VERTICAL_ALIGNS: [(&str, VerticalAlign); 2] = [
    ("super", VerticalAlign::SuperScript),
    ("sub", VerticalAlign::SubScript),
];

impl Turn<'_> {
    /// What the words make of blank attributes, with `between` between them.
    ///
    /// - the name of an intensity, of a line below the text, of a way to blink, of a place or of a
    ///   semantic type, `italic`, `reverse`, `strike`, `invisible`, `wrapped`, `overline`, `link`,
    ///   `fg=C`, `bg=C` and `ul=C` or `line=C` set one.
    /// - `copy`, `sgr`, `clear` and `default` put in its place its copy, its copy without the link,
    ///   the cleared one and the default one.
    /// - `+` and an attribute applies a copy of that change.
    pub fn pen_of(&mut self, words: &str, between: char) -> CellAttributes {
        let mut pen = CellAttributes::blank();
        for word in words.split(between) {
            self.put(&mut pen, word);
        }
        pen
    }

    /// Makes of a pen what a word says, unless there was a fault.
    pub(crate) fn put(&mut self, pen: &mut CellAttributes, word: &str) {
        if let Some(change) = word.strip_prefix('+') {
            let change = self.attribute_of(change);
            if let Some(copy) = self.kept(change.clone())
                && !self.has_failed()
            {
                self.note(pen.apply_change(self.alloc, &copy));
            }
            return;
        }
        match word.split_once('=') {
            Some((name, value)) => self.set_color(pen, name, value),
            None => self.replace(pen, word),
        }
    }

    // Sets the colour of this name.
    fn set_color(&mut self, pen: &mut CellAttributes, name: &str, value: &str) {
        let color = self.color_of(value);
        match name {
            "fg" => self.note(pen.set_foreground(self.alloc, color)),
            "bg" => self.note(pen.set_background(self.alloc, color)),
            "ul" | "line" => self.note(pen.set_underline_color(self.alloc, color)),
            _ => self.fail(PlayError::Bad),
        }
    }

    fn replace(&mut self, pen: &mut CellAttributes, word: &str) {
        match word {
            "copy" => {
                if let Some(copy) = self.kept(pen.clone()) {
                    *pen = copy;
                }
            }
            "sgr" => {
                if let Some(copy) = self.kept(pen.clone_sgr_only(self.alloc)) {
                    *pen = copy;
                }
            }
            "default" => *pen = CellAttributes::default(),
            "clear" => pen.clear(),
            "link" => {
                if let Some(link) = self.link() {
                    self.note(pen.set_hyperlink(self.alloc, Some(link)));
                }
            }
            _ => self.set_style(pen, word),
        }
    }

    // Sets the flag of this name, or what it names in the tables.
    fn set_style(&mut self, pen: &mut CellAttributes, word: &str) {
        if let Some(intensity) = named(&INTENSITIES, word) {
            pen.set_intensity(intensity);
        } else if let Some(underline) = named(&UNDERLINES, word) {
            pen.set_underline(underline);
        } else if let Some(blink) = named(&BLINKS, word) {
            pen.set_blink(blink);
        } else if let Some(align) = named(&VERTICAL_ALIGNS, word) {
            pen.set_vertical_align(align);
        } else if let Some(semantic_type) = named(&SEMANTIC_TYPES, word) {
            pen.set_semantic_type(semantic_type);
        } else {
            match word {
                "italic" => pen.set_italic(true),
                "reverse" => pen.set_reverse(true),
                "strike" => pen.set_strikethrough(true),
                "invisible" => pen.set_invisible(true),
                "wrapped" => pen.set_wrapped(true),
                "overline" => pen.set_overline(true),
                _ => return self.fail(PlayError::Bad),
            };
        }
    }
}
