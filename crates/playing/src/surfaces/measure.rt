//! Width values by a word.
ghost use Rattle.std.specs.Prelude.{◌≡◌};

use termwiz_cell::emoji::{Presentation, UnicodeVersion, UnicodeWidths, Widths};

/// How columns are measured.
#[derive(Clone, Copy)]
pub enum Measure {
    /// By the Unicode tables.
    Unicode,
    /// Each text has one column.
    One,
    /// A single space has one column, and every other text two.
    Wide,
}

/// The names of measures.
pub const MEASURES: [(&str, Measure); 3] = [
    ("unicode", Measure::Unicode),
    ("one", Measure::One),
    ("wide", Measure::Wide),
];

impl Widths for Measure {
    ghost use Rattle.std.specs.Prelude.{None};
    ghost use Rattle.playing.specs.Measured.{columns_of_measure};
    ghost use Rattle.playing.specs.MeasuredLaws.{measured-le, measured-space};
    ghost use Rattle.termwiz_cell.specs.declared.emoji.Presentation.TheVariants.{Text};

    ghost width_of = { λ measure text _. columns_of_measure measure text };

    ghost presentation_of = { λ _ _. (Text, None) };

    ghost char_presentation_of = { λ _ _. Text };

    ghost at_most_two = { λ measure text _. measured-le measure text };

    ghost space_has_one = { λ measure _. measured-space measure };

    #[tactic(auto, unfolding(crate::specs::Measured::columns_of_measure))]
    fn width(&self, text: &str, _version: Option<UnicodeVersion>) -> usize {
        match self {
            Measure::Unicode => UnicodeWidths.width(text, None),
            Measure::One => 1,
            Measure::Wide => { if text == " " { 1 } else { 2 } }
        }
    }

    fn presentation(&self, _text: &str) -> (Presentation, Option<Presentation>) {
        (Presentation::Text, None)
    }

    fn char_presentation(&self, _c: char) -> Presentation {
        Presentation::Text
    }
}
