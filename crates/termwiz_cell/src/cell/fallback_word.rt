//! The palette's fallbacks of two colours, packed in one word.
ghost use Rattle.std.specs.Prelude.{◌≡◌, ◌↔◌, ◌<◌, IsTrue};
ghost use Rattle.termwiz_cell.specs.{fallback_at, fallback_number, fallback_of, no_fallbacks};
ghost use Rattle.termwiz_cell.specs.{with_fallback};

use crate::color::{ColorAttribute, PaletteIndex};
use std::marker::Model;

/// The palette's indices that stand in for the colours of text and background, in a word: one digit
/// each, so that both are compared and copied at once. Fallbacks have exactly one word.
#[derive(Drop)]
pub(super) struct FallbackWord {
    word: u32,
}

impl Model for FallbackWord {
    ghost use Rattle.termwiz_cell.specs.FallbackWord.{Fallbacks};

    ghost Value = { Fallbacks };

    ghost use Rattle.termwiz_cell.specs.FallbackWord.{IsFallbackWord, fallbacks_at};

    ghost view = { λ f. fallbacks_at f.word };

    ghost invariant = { λ f. IsFallbackWord f.word };
}

// The place of the background's digit, below which the foreground's is: no fallback, and 256 of the
// palette.
const BACKGROUND: u32 = 512;

/// The digit of a fallback: 0 for none, and else the index plus 1.
fn digit(fallback: Option<PaletteIndex>) -> u32
    ensures value { result ≡ fallback_number fallback }
    ensures bound { result < 257 }
{
    match fallback {
        None => 0,
        Some(index) => index as u32 + 1,
    }
}

fn fallback_from(digit: u32) -> Option<PaletteIndex>
    requires { digit < 257 }
    ensures { result ≡ fallback_at digit }
{
    if digit == 0 {
        None
    } else {
        Some((digit - 1) as u8)
    }
}

impl FallbackWord {
    /// The fallbacks of colours that have none.
    pub(super) fn none() -> FallbackWord
        ensures { result ≡ no_fallbacks }
    {
        FallbackWord { word: 0 }
    }

    /// A copy, which never fails.
    pub(super) fn copied(&self) -> FallbackWord
        ensures { result ≡ self.now }
    {
        FallbackWord { word: self.word }
    }

    /// Whether both have the same fallbacks.
    #[inline]
    pub(super) fn is_same(&self, other: &FallbackWord) -> bool
        ensures { IsTrue result ↔ (self.now ≡ other.now) }
    {
        self.word == other.word
    }

    /// Whether neither colour has a fallback.
    pub(super) fn are_none(&self) -> bool
        ensures { IsTrue result ↔ (self.now ≡ no_fallbacks) }
    {
        self.word == 0
    }

    pub(super) fn foreground(&self) -> Option<PaletteIndex>
        ensures { result ≡ self.now.foreground }
    {
        fallback_from(self.word % BACKGROUND)
    }

    #[tactic(auto, using(crate::proofs::PackedFallbacks::foreground))]
    pub(super) fn set_foreground(&mut self, value: Option<PaletteIndex>)
        ensures { self.new ≡ record self.old { foreground = value } }
    {
        let word = self.word - self.word % BACKGROUND + digit(value);
        *self = FallbackWord { word };
    }

    pub(super) fn background(&self) -> Option<PaletteIndex>
        ensures { result ≡ self.now.background }
    {
        fallback_from(self.word / BACKGROUND)
    }

    #[tactic(auto, using(crate::proofs::PackedFallbacks::background))]
    pub(super) fn set_background(&mut self, value: Option<PaletteIndex>)
        ensures { self.new ≡ record self.old { background = value } }
    {
        let word = self.word % BACKGROUND + digit(value) * BACKGROUND;
        *self = FallbackWord { word };
    }
}

/// The palette's index that stands in for the colour.
pub(super) fn fallback_of(color: &ColorAttribute) -> Option<PaletteIndex>
    ensures { result ≡ fallback_of color.now }
{
    match color {
        ColorAttribute::TrueColorWithPaletteFallback(_, index) => Some(*index),
        _ => None,
    }
}

/// The word's colour, with its fallback where it has one.
pub(super) fn with_fallback(word: ColorAttribute, fallback: Option<PaletteIndex>) -> ColorAttribute
    ensures { result ≡ with_fallback fallback word }
{
    match fallback {
        None => word,
        Some(index) => match word {
            ColorAttribute::TrueColorWithDefaultFallback(color) => {
                ColorAttribute::TrueColorWithPaletteFallback(color, index)
            }
            _ => word,
        },
    }
}
