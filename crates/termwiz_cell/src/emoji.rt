//! The widths of texts, and the form in which they are shown.
ghost use Rattle.std.specs.Prelude.{◌≡◌, None, false, refl};
ghost use Rattle.termwiz_cell.specs.{asked_by, at_version, chars, columns_of, is_whitespace};
ghost use Rattle.termwiz_cell.specs.{list_all, unicode_columns, variation, version_index};
ghost use Rattle.termwiz_cell.specs.declared.emoji.Presentation.TheVariants.{Text};

use termwiz_text::{Graphemes, is_letter, is_narrow, is_one_plain, only_char};
use unicode_width::UnicodeWidthStr;

/// How a character is shown, where it has two forms.
#[derive(Clone, Copy, PartialEq, Eq, Debug)]
pub enum Presentation {
    /// As a letter, in the colour of the text.
    Text,
    /// As a picture.
    Emoji,
}

impl Presentation {
    /// The form in which a grapheme is shown by default, and the form that a variation selector in
    /// it asks for, if any.
    pub fn for_grapheme<W: Widths>(
        widths: &W,
        grapheme: &str,
    ) -> (Presentation, Option<Presentation>)
        ensures { result ≡ W.presentation_of widths.now grapheme.now }
    {
        widths.presentation(grapheme)
    }

    /// The form in which a character is shown by default.
    pub fn for_char<W: Widths>(widths: &W, c: char) -> Presentation
        ensures { result ≡ W.char_presentation_of widths.now c }
    {
        widths.char_presentation(c)
    }
}

/// A version of Unicode to measure by, and how wide characters of ambiguous width are.
/// `UnicodeWidths` ignores it: it has one set of tables.
#[derive(Clone, Copy, PartialEq, Eq, Debug)]
pub struct UnicodeVersion {
    /// The major version.
    pub version: u8,
    /// Whether characters of ambiguous width take two columns.
    pub ambiguous_are_wide: bool,
}

/// Version 14, in which characters of ambiguous width take one column. `UnicodeWidths` ignores it.
pub const LATEST_UNICODE_VERSION: UnicodeVersion = UnicodeVersion {
    version: 14,
    ambiguous_are_wide: false,
};

impl UnicodeVersion {
    /// The version of this number, in which characters of ambiguous width take one column.
    pub fn new(version: u8) -> UnicodeVersion
        ensures { result ≡ record { version = version; ambiguous_are_wide = false } }
    {
        UnicodeVersion {
            version,
            ambiguous_are_wide: false,
        }
    }

    /// The index of a width table, from 0 to 3: 0 up to version 9 and 2 above it, and 1 more where
    /// characters of ambiguous width take two columns. `UnicodeWidths` has one table for all.
    pub fn idx(&self) -> usize
        ensures { result ≡ version_index self.now }
    {
        let newer = if self.version > 9 { 2 } else { 0 };
        let wide = if self.ambiguous_are_wide { 1 } else { 0 };
        newer + wide
    }
}

/// The widths of texts, and the form in which they are shown.
///
/// A width is 0 to 2 columns, a single space has 1, and the result of each call depends on the
/// value and the arguments alone.
pub trait Widths: Copy {
    ghost use Rattle.std.specs.Prelude.{◌≡◌, ◌≤◌, [], ◌∷◌, IsTrue, List, Option, ℕ};
    ghost use Rattle.termwiz_cell.specs.declared.emoji.Presentation.{Presentation};
    ghost use Rattle.termwiz_cell.specs.declared.emoji.UnicodeVersion.{UnicodeVersion};
    ghost use Rattle.termwiz_cell.specs.Measure.{measure};
    ghost use Rattle.termwiz_cell.specs.UsualWidths.{HasNarrowAscii, HasWideLetters};

    ghost width_of: { Self → List ℕ → Option UnicodeVersion → ℕ };

    ghost presentation_of: { Self → List ℕ → Presentation × Option Presentation };

    ghost char_presentation_of: { Self → ℕ → Presentation };

    /// The columns of the text, taken as one grapheme, in that version of Unicode, where one is
    /// given.
    fn width(&self, text: &str, version: Option<UnicodeVersion>) -> usize
        ensures { result ≡ width_of self.now text.now version };

    /// The form in which the text is shown by default, and the form that a variation selector in it
    /// asks for, if any.
    fn presentation(&self, text: &str) -> (Presentation, Option<Presentation>)
        ensures { result ≡ presentation_of self.now text.now };

    /// The form in which the character is shown by default.
    fn char_presentation(&self, c: char) -> Presentation
        ensures { result ≡ char_presentation_of self.now c };

    /// Whether each character of printable ASCII, by itself and with no version, has one column at
    /// most. A run of printable ASCII is then printed without being measured. The default, `false`,
    /// promises nothing and is always right.
    fn has_narrow_ascii(&self) -> bool
        ensures { IsTrue result → HasNarrowAscii (measure width_of self.now) }
    {
        false
    }

    /// Whether each letter of hiragana or katakana and each common ideograph, by itself and with no
    /// version, has two columns. A run of such letters is then printed without being measured. The
    /// default, `false`, promises nothing and is always right.
    fn has_wide_letters(&self) -> bool
        ensures { IsTrue result → HasWideLetters (measure width_of self.now) }
    {
        false
    }

    ghost at_most_two: { (w : Self) (text : List ℕ) (version : Option UnicodeVersion) →
        width_of w text version ≤ 2 };

    ghost space_has_one: { (w : Self) (version : Option UnicodeVersion) →
        width_of w (32 ∷ []) version ≡ 1 };
}

/// Gives each text one column, the empty one too. Each is shown as text.
#[derive(Clone, Copy, PartialEq, Eq, Debug)]
pub struct OneColumn;

impl Widths for OneColumn {
    ghost use Rattle.std.proofs.Common.{rules};

    ghost width_of = { λ _ _ _. 1 };

    ghost presentation_of = { λ _ _. (Text, None) };

    ghost char_presentation_of = { λ _ _. Text };

    ghost at_most_two = { Prim.search rules };

    ghost space_has_one = { λ _ _. refl };

    fn width(&self, _text: &str, _version: Option<UnicodeVersion>) -> usize {
        1
    }

    fn presentation(&self, _text: &str) -> (Presentation, Option<Presentation>) {
        (Presentation::Text, None)
    }

    fn char_presentation(&self, _c: char) -> Presentation {
        Presentation::Text
    }

    fn has_narrow_ascii(&self) -> bool {
        true
    }
}

/// The widths of the Unicode tables, cut at 2 columns, whatever the version. Characters of
/// ambiguous width take one column. A text is shown as text, unless the first variation selector in
/// it asks for the emoji form.
#[derive(Clone, Copy, PartialEq, Eq, Debug)]
pub struct UnicodeWidths;

impl Widths for UnicodeWidths {
    ghost use Rattle.termwiz_cell.specs.WidthLaws.{unicode_columns-le, unicode_columns-space};

    ghost width_of = { λ _ text _. unicode_columns text };

    ghost presentation_of = { λ _ text. (Text, variation text) };

    ghost char_presentation_of = { λ _ _. Text };

    ghost at_most_two = { λ _ text _. unicode_columns-le text };

    ghost space_has_one = { λ _ _. unicode_columns-space };

    // No table is read for one character of printable ASCII, for one letter of kana or common
    // ideograph, or for one of the common narrow characters.
    #[tactic(auto, using(crate::proofs::PlainWidths::one_plain_width, crate::proofs::PlainWidths::one_letter_width, crate::proofs::PlainWidths::one_narrow_width))]
    fn width(&self, text: &str, _version: Option<UnicodeVersion>) -> usize {
        if is_one_plain(text) {
            return 1;
        }
        match only_char(text) {
            Some(letter) if is_letter(letter) => 2,
            Some(narrow) if is_narrow(narrow) => 1,
            _ => table_width(text),
        }
    }

    fn presentation(&self, text: &str) -> (Presentation, Option<Presentation>) {
        (Presentation::Text, variation(text))
    }

    fn char_presentation(&self, _c: char) -> Presentation {
        Presentation::Text
    }

    #[tactic(auto, using(crate::proofs::PlainWidths::unicode_narrow_ascii))]
    fn has_narrow_ascii(&self) -> bool {
        true
    }

    #[tactic(auto, using(crate::proofs::PlainWidths::unicode_wide_letters))]
    fn has_wide_letters(&self) -> bool {
        true
    }
}

#[tactic(auto, unfolding(crate::specs::Width::unicode_columns))]
#[inline(never)]
fn table_width(text: &str) -> usize
    ensures { result ≡ unicode_columns text.now }
{
    text.width().min(2)
}

/// The columns of a grapheme, 0 to 2, that the width value gives it in that version of Unicode. A
/// text of several graphemes is measured as one.
pub fn grapheme_column_width<W: Widths>(
    widths: &W,
    grapheme: &str,
    version: Option<UnicodeVersion>,
) -> usize
    ensures { result ≡ W.width_of widths.now grapheme.now version }
{
    widths.width(grapheme, version)
}

/// The columns of a text: the sum over its graphemes.
pub fn unicode_column_width<W: Widths>(
    widths: &W,
    text: &str,
    version: Option<UnicodeVersion>,
) -> usize
    ensures { result ≡ columns_of (at_version (W.width_of widths.now) version) text.now }
{
    let mut columns = 0;
    for grapheme in Graphemes::new(text) {
        columns += widths.width(grapheme, version);
    }
    columns
}

/// Whether the character is white space by Unicode.
pub fn is_white_space_char(c: char) -> bool
    ensures { result ≡ is_whitespace c }
{
    c.is_whitespace()
}

/// Whether all characters of the text are white space. The empty text has only such.
pub fn is_white_space_grapheme(text: &str) -> bool
    ensures { result ≡ list_all is_whitespace (chars text.now) }
{
    text.chars().all(is_white_space_char)
}

fn variation(text: &str) -> Option<Presentation>
    ensures { result ≡ variation text.now }
{
    text.chars().find_map(asked_by)
}

fn asked_by(c: char) -> Option<Presentation>
    ensures { result ≡ asked_by c }
{
    match c {
        '\u{FE0E}' => Some(Presentation::Text),
        '\u{FE0F}' => Some(Presentation::Emoji),
        _ => None,
    }
}
