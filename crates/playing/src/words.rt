//! Values by their words.
use crate::turn::Turn;
use termwiz_cell::change::{CursorShape, LineAttribute, Position};
use termwiz_cell::color::{AnsiColor, ColorAttribute, RgbColor};

/// The names of shapes.
pub(crate) const SHAPES: [(&str, CursorShape); 7] = [
    ("default", CursorShape::Default),
    ("blinking-block", CursorShape::BlinkingBlock),
    ("blinking-underline", CursorShape::BlinkingUnderline),
    ("blinking-bar", CursorShape::BlinkingBar),
    ("steady-block", CursorShape::SteadyBlock),
    ("steady-underline", CursorShape::SteadyUnderline),
    ("steady-bar", CursorShape::SteadyBar),
];

/// The names of sizes of a line.
pub(crate) const LINE_ATTRIBUTES: [(&str, LineAttribute); 4] = [
    ("top", LineAttribute::DoubleHeightTopHalfLine),
    ("bottom", LineAttribute::DoubleHeightBottomHalfLine),
    ("double", LineAttribute::DoubleWidthLine),
    ("single", LineAttribute::SingleWidthLine),
];

/// The value of a word in a table of names.
pub fn named<T: Copy>(names: &[(&str, T)], word: &str) -> Option<T> {
    for (name, value) in names {
        if *name == word {
            return Some(*value);
        }
    }
    None
}

/// The first name of a value in a table of names, or no word.
pub(crate) fn name_of<T: PartialEq>(names: &[(&'static str, T)], value: &T) -> &'static str {
    for (name, named) in names {
        if named == value {
            return name;
        }
    }
    ""
}

impl Turn<'_> {
    /// The colour of a word: `default`, an index of the palette, `maroon`, `true`, which is black
    /// or else the palette's 7, or `#RRGGBB`, with `+` and an index after it where it falls back to
    /// the palette.
    pub(crate) fn color_of(&mut self, word: &str) -> ColorAttribute {
        match word {
            "default" => ColorAttribute::Default,
            "maroon" => AnsiColor::Maroon.into(),
            "true" => ColorAttribute::TrueColorWithPaletteFallback(RgbColor::default(), 7),
            _ if word.starts_with('#') => {
                let (rgb, index) = word.split_once('+').unwrap_or((word, "0"));
                let color = self.found(RgbColor::from_rgb_str(rgb));
                let color = color.unwrap_or(RgbColor::default());
                let index = self.found(index.parse().ok()).unwrap_or(0);
                if rgb == word {
                    ColorAttribute::TrueColorWithDefaultFallback(color)
                } else {
                    ColorAttribute::TrueColorWithPaletteFallback(color, index)
                }
            }
            _ => {
                let index = self.found(word.parse().ok()).unwrap_or(0);
                ColorAttribute::PaletteIndex(index)
            }
        }
    }

    /// The colour of the next word.
    pub fn color(&mut self) -> ColorAttribute {
        let word = self.word();
        self.color_of(word)
    }

    /// Answers the word of a colour.
    pub(crate) fn push_color(&mut self, color: ColorAttribute) {
        match color {
            ColorAttribute::Default => self.push_str("default"),
            ColorAttribute::PaletteIndex(index) => write!(self, "{index}"),
            ColorAttribute::TrueColorWithDefaultFallback(color) => {
                self.push_made(color.to_rgb_string(self.alloc));
            }
            ColorAttribute::TrueColorWithPaletteFallback(color, index) => {
                self.push_made(color.to_rgb_string(self.alloc));
                write!(self, "+{index}");
            }
        }
    }

    /// The distance that a word writes, or `max` and `min` for the greatest and the least.
    pub fn distance_of(&mut self, word: &str) -> isize {
        let distance = match word {
            "max" => Some(isize::MAX),
            "min" => Some(isize::MIN),
            _ => word.parse().ok(),
        };
        self.found(distance).unwrap_or(0)
    }

    /// The place of the next word: `=` and a number from the start, `$` and one from the end, or
    /// `~` and a distance.
    pub(crate) fn position(&mut self) -> Position {
        let word = self.word();
        if let Some(number) = word.strip_prefix('=') {
            return Position::Absolute(self.number_of(number));
        }
        if let Some(number) = word.strip_prefix('$') {
            return Position::EndRelative(self.number_of(number));
        }
        let distance = self.found(word.strip_prefix('~')).unwrap_or("");
        Position::Relative(self.distance_of(distance))
    }

    /// The bytes that a word writes, where `-` writes none.
    pub fn bytes_of(&mut self, word: &str) -> Vec<u8> {
        let mut bytes = Vec::new(self.alloc);
        if word == "-" {
            return bytes;
        }
        for digits in word.as_bytes().chunks(2) {
            let digits = str::from_utf8(digits).unwrap_or("");
            let byte = u8::from_str_radix(digits, 16).ok();
            let pushed = bytes.push(self.found(byte).unwrap_or(0));
            self.note(pushed);
        }
        bytes
    }
}
