//! Attributes packed in one word.
ghost use Rattle.std.specs.Prelude.{◌≡◌, ◌+◌, ◌-◌, ◌*◌, ◌/◌, ◌%◌, ◌^◌, ◌<◌, ◌↔◌, IsTrue};
ghost use Rattle.termwiz_cell.specs.{FitsWord, IsRgb, bits_at, color_at, color_number, flag_number};
ghost use Rattle.termwiz_cell.specs.{rgb_at, rgb_number, style_at, style_sgr_only, word_part};

use super::style::{Blink, Intensity, SemanticType, Underline, VerticalAlign};
use crate::color::{ColorAttribute, RgbColor};
use std::marker::Model;

/// Attributes in a word: one digit each, each with a radix of its own. A style has exactly one
/// word.
///
/// The word holds all attributes but the underline colour, the link and the palette's fallbacks of
/// true colours: 55296 styles and 16777473 colours for text and background each are fewer than 2^64
/// words.
#[derive(Drop)]
pub(super) struct StyleWord {
    word: u64,
}

impl Model for StyleWord {
    ghost use Rattle.termwiz_cell.specs.Style.{Style};

    ghost Value = { Style };

    ghost use Rattle.termwiz_cell.specs.StyleWord.{IsStyleWord, style_at};

    ghost view = { λ s. style_at s.word };

    ghost invariant = { λ s. IsStyleWord s.word };
}

// The place of each digit, the lowest first: a digit ends where the next begins. Those with a power
// of two as radix come first, since they are read without a division.
const INTENSITY: u64 = 1;

const UNDERLINE: u64 = 1 << 2;

const ITALIC: u64 = 1 << 5;

const REVERSE: u64 = 1 << 6;

const STRIKETHROUGH: u64 = 1 << 7;

const INVISIBLE: u64 = 1 << 8;

const WRAPPED: u64 = 1 << 9;

const OVERLINE: u64 = 1 << 10;

const BLINK: u64 = 1 << 11;

const SEMANTIC_TYPE: u64 = BLINK * 3;

const VERTICAL_ALIGN: u64 = SEMANTIC_TYPE * 3;

const FOREGROUND: u64 = VERTICAL_ALIGN * 3;

const BACKGROUND: u64 = FOREGROUND * COLORS;

// The default colour, 256 of the palette, and 2^24 true colours.
const COLORS: u64 = 16777473;

/// The word with this digit of radix `radix` at the place.
#[inline]
fn with_digit(word: u64, place: u64, radix: u64, digit: u64) -> u64
    requires place { 0 < place }
    requires radix { 0 < radix }
    requires digit { digit * place < 2 ^ 64 }
    requires fits { word - word / place % radix * place + digit * place < 2 ^ 64 }
    ensures { result ≡ word - word / place % radix * place + digit * place }
{
    word - word / place % radix * place + digit * place
}

/// A digit below 2.
fn flag_digit(flag: bool) -> u64
    ensures value { result ≡ flag_number flag }
    ensures bound { result < 2 }
{
    if flag { 1 } else { 0 }
}

/// The digit of a colour: 0 for the default, the index plus 1 for one of the palette, and from 257
/// on the true colours, with a palette's fallback or without one.
fn color_digit(color: ColorAttribute) -> u64
    ensures value { result ≡ color_number (word_part color) }
    ensures fits { FitsWord (word_part color) }
    ensures bound { result < 16777473 }
{
    match color {
        ColorAttribute::TrueColorWithDefaultFallback(rgb)
        | ColorAttribute::TrueColorWithPaletteFallback(rgb, _) => 257 + rgb_number(rgb),
        ColorAttribute::PaletteIndex(index) => index as u64 + 1,
        ColorAttribute::Default => 0,
    }
}

fn color_from(digit: u64) -> ColorAttribute
    requires { digit < 16777473 }
    ensures { result ≡ color_at digit }
{
    if digit == 0 {
        ColorAttribute::Default
    } else if digit < 257 {
        ColorAttribute::PaletteIndex((digit - 1) as u8)
    } else {
        ColorAttribute::TrueColorWithDefaultFallback(rgb_from(digit - 257))
    }
}

/// A true colour as a number below 2^24.
fn rgb_number(color: RgbColor) -> u64
    ensures value { result ≡ rgb_number color }
    ensures bytes { IsRgb color }
{
    let (red, green, blue) = color.to_tuple_rgb8();
    red as u64 * 65536 + green as u64 * 256 + blue as u64
}

fn rgb_from(number: u64) -> RgbColor
    requires { number < 2 ^ 24 }
    ensures { result ≡ rgb_at number }
{
    RgbColor::new_8bpc(
        (number / 65536) as u8,
        (number / 256 % 256) as u8,
        (number % 256) as u8,
    )
}

impl StyleWord {
    /// The style of default attributes.
    pub(super) fn blank() -> StyleWord
        ensures { result ≡ style_at 0 }
    {
        StyleWord { word: 0 }
    }

    /// A copy, which never fails.
    pub(super) fn copied(&self) -> StyleWord
        ensures { result ≡ self.now }
    {
        StyleWord { word: self.word }
    }

    /// Whether both have one style.
    #[inline]
    pub(super) fn is_same(&self, other: &StyleWord) -> bool
        ensures { IsTrue result ↔ (self.now ≡ other.now) }
    {
        self.word == other.word
    }

    /// Whether this is the style of default attributes.
    pub(super) fn is_blank(&self) -> bool
        ensures { IsTrue result ↔ (self.now ≡ style_at 0) }
    {
        self.word == 0
    }

    /// The style with the semantic type `Output`, and without underline, overline and strike
    /// through.
    pub(super) fn sgr_only(&self) -> StyleWord
        ensures { result ≡ style_sgr_only self.now }
    {
        let mut copy = self.copied();
        copy.set_semantic_type(SemanticType::Output);
        copy.set_underline(Underline::None);
        copy.set_overline(false);
        copy.set_strikethrough(false);
        copy
    }

    /// Whether both styles are equal but for the colours.
    pub(super) fn has_same_bits(&self, other: &StyleWord) -> bool
        ensures { IsTrue result ↔ (bits_at self.now ≡ bits_at other.now) }
    {
        self.word % FOREGROUND == other.word % FOREGROUND
    }

    pub(super) fn intensity(&self) -> Intensity
        ensures { result ≡ self.now.intensity }
    {
        Intensity::try_from((self.word % 4) as u8).unwrap()
    }

    #[tactic(auto, using(crate::proofs::StyleSetters::intensity))]
    pub(super) fn set_intensity(&mut self, value: Intensity)
        ensures { self.new ≡ record self.old { intensity = value } }
    {
        let word = with_digit(self.word, INTENSITY, 4, value.number() as u64);
        *self = StyleWord { word };
    }

    pub(super) fn underline(&self) -> Underline
        ensures { result ≡ self.now.underline }
    {
        Underline::try_from((self.word / UNDERLINE % 8) as u8).unwrap()
    }

    #[tactic(auto, using(crate::proofs::StyleSetters::underline))]
    pub(super) fn set_underline(&mut self, value: Underline)
        ensures { self.new ≡ record self.old { underline = value } }
    {
        let word = with_digit(self.word, UNDERLINE, 8, value.number() as u64);
        *self = StyleWord { word };
    }

    pub(super) fn blink(&self) -> Blink
        ensures { result ≡ self.now.blink }
    {
        Blink::try_from((self.word / BLINK % 3) as u8).unwrap()
    }

    #[tactic(auto, using(crate::proofs::StyleSetters::blink))]
    pub(super) fn set_blink(&mut self, value: Blink)
        ensures { self.new ≡ record self.old { blink = value } }
    {
        let word = with_digit(self.word, BLINK, 3, value.number() as u64);
        *self = StyleWord { word };
    }

    pub(super) fn italic(&self) -> bool
        ensures { result ≡ self.now.italic }
    {
        self.word / ITALIC % 2 == 1
    }

    #[tactic(auto, using(crate::proofs::StyleSetters::italic))]
    pub(super) fn set_italic(&mut self, value: bool)
        ensures { self.new ≡ record self.old { italic = value } }
    {
        let word = with_digit(self.word, ITALIC, 2, flag_digit(value));
        *self = StyleWord { word };
    }

    pub(super) fn reverse(&self) -> bool
        ensures { result ≡ self.now.reverse }
    {
        self.word / REVERSE % 2 == 1
    }

    #[tactic(auto, using(crate::proofs::StyleSetters::reverse))]
    pub(super) fn set_reverse(&mut self, value: bool)
        ensures { self.new ≡ record self.old { reverse = value } }
    {
        let word = with_digit(self.word, REVERSE, 2, flag_digit(value));
        *self = StyleWord { word };
    }

    pub(super) fn strikethrough(&self) -> bool
        ensures { result ≡ self.now.strikethrough }
    {
        self.word / STRIKETHROUGH % 2 == 1
    }

    #[tactic(auto, using(crate::proofs::StyleSetters::strikethrough))]
    pub(super) fn set_strikethrough(&mut self, value: bool)
        ensures { self.new ≡ record self.old { strikethrough = value } }
    {
        let word = with_digit(self.word, STRIKETHROUGH, 2, flag_digit(value));
        *self = StyleWord { word };
    }

    pub(super) fn invisible(&self) -> bool
        ensures { result ≡ self.now.invisible }
    {
        self.word / INVISIBLE % 2 == 1
    }

    #[tactic(auto, using(crate::proofs::StyleSetters::invisible))]
    pub(super) fn set_invisible(&mut self, value: bool)
        ensures { self.new ≡ record self.old { invisible = value } }
    {
        let word = with_digit(self.word, INVISIBLE, 2, flag_digit(value));
        *self = StyleWord { word };
    }

    pub(super) fn wrapped(&self) -> bool
        ensures { result ≡ self.now.wrapped }
    {
        self.word / WRAPPED % 2 == 1
    }

    #[tactic(auto, using(crate::proofs::StyleSetters::wrapped))]
    pub(super) fn set_wrapped(&mut self, value: bool)
        ensures { self.new ≡ record self.old { wrapped = value } }
    {
        let word = with_digit(self.word, WRAPPED, 2, flag_digit(value));
        *self = StyleWord { word };
    }

    pub(super) fn overline(&self) -> bool
        ensures { result ≡ self.now.overline }
    {
        self.word / OVERLINE % 2 == 1
    }

    #[tactic(auto, using(crate::proofs::StyleSetters::overline))]
    pub(super) fn set_overline(&mut self, value: bool)
        ensures { self.new ≡ record self.old { overline = value } }
    {
        let word = with_digit(self.word, OVERLINE, 2, flag_digit(value));
        *self = StyleWord { word };
    }

    pub(super) fn semantic_type(&self) -> SemanticType
        ensures { result ≡ self.now.semantic_type }
    {
        SemanticType::try_from((self.word / SEMANTIC_TYPE % 3) as u8).unwrap()
    }

    #[tactic(auto, using(crate::proofs::StyleSetters::semantic_type))]
    pub(super) fn set_semantic_type(&mut self, value: SemanticType)
        ensures { self.new ≡ record self.old { semantic_type = value } }
    {
        let word = with_digit(self.word, SEMANTIC_TYPE, 3, value.number() as u64);
        *self = StyleWord { word };
    }

    pub(super) fn vertical_align(&self) -> VerticalAlign
        ensures { result ≡ self.now.vertical_align }
    {
        VerticalAlign::try_from((self.word / VERTICAL_ALIGN % 3) as u8).unwrap()
    }

    #[tactic(auto, using(crate::proofs::StyleSetters::vertical_align))]
    pub(super) fn set_vertical_align(&mut self, value: VerticalAlign)
        ensures { self.new ≡ record self.old { vertical_align = value } }
    {
        let word = with_digit(self.word, VERTICAL_ALIGN, 3, value.number() as u64);
        *self = StyleWord { word };
    }

    pub(super) fn foreground(&self) -> ColorAttribute
        ensures { result ≡ self.now.foreground }
    {
        color_from(self.word / FOREGROUND % COLORS)
    }

    /// Sets the colour without its palette's fallback.
    #[tactic(auto, using(crate::proofs::StyleSetters::foreground))]
    pub(super) fn set_foreground(&mut self, value: ColorAttribute)
        ensures { self.new ≡ record self.old { foreground = word_part value } }
    {
        let word = with_digit(self.word, FOREGROUND, COLORS, color_digit(value));
        *self = StyleWord { word };
    }

    pub(super) fn background(&self) -> ColorAttribute
        ensures { result ≡ self.now.background }
    {
        color_from(self.word / BACKGROUND)
    }

    /// Sets the colour without its palette's fallback.
    #[tactic(auto, using(crate::proofs::StyleSetters::background))]
    pub(super) fn set_background(&mut self, value: ColorAttribute)
        ensures { self.new ≡ record self.old { background = word_part value } }
    {
        let word = self.word % BACKGROUND + color_digit(value) * BACKGROUND;
        *self = StyleWord { word };
    }
}
