//! Cells.
ghost use Rattle.std.specs.Prelude.{IfOk, MatchOption, encode_utf8, unwrap_or, ◌&&◌, ◌↔◌, ◌≡◌, ◌≤◌};
ghost use Rattle.termwiz_cell.specs.{IsOk, cell_eq-Decides, is_one_plain, partial_equiv_from_equiv};
ghost use Rattle.termwiz_cell.specs.{LendsAttrs, at_version, needs_box, owns_memory, plain_cell};
ghost use Rattle.termwiz_cell.specs.{blank_of, cell_eq, cell_of, columns, is_plain, measured, true};
ghost use Rattle.termwiz_cell.specs.{IfSome, IsSome, IsTrue, decided, is_wide, length, measure};
ghost use Rattle.termwiz_cell.specs.{blank, clean, false, not, sem};

mod attribute_change;
mod attributes;
mod debug;
mod fallback_word;
mod form;
mod short_text;
mod style;
mod style_word;
mod text;

use crate::emoji::{Presentation, UnicodeVersion, Widths};
pub use attribute_change::AttributeChange;
pub use attributes::CellAttributes;
use std::alloc::{AllocError, Global};
use std::marker::Model;
pub use style::{Blink, Intensity, SemanticType, Underline, UnknownNumber, VerticalAlign};
use text::{CellText, cleaned};

/// One cell of a screen: a text of one or two columns, and its attributes.
///
/// The text should be one grapheme, but a longer text is accepted and kept whole. A text of at most
/// seven bytes takes no memory.
///
/// - The empty text, CR LF and a text of one control character of ASCII (U+0000 to U+001F, or
///   U+007F) become a space. U+0080 to U+009F, and control characters in longer texts, are kept.
/// - A width of 0 becomes 1.
///
/// Two cells are equal where text, width and attributes are. A clone can only fail where the text
/// is longer than seven bytes, or the attributes take memory.
#[derive(Drop)]
pub struct Cell {
    text: CellText,
    attrs: CellAttributes,
}

impl Model for Cell {
    ghost use Rattle.termwiz_cell.specs.CellValue.{CellValue};
    ghost use Rattle.termwiz_cell.specs.CellLayout.{HasTextForm, cell_value};

    ghost Value = { CellValue };

    ghost view = { cell_value };

    ghost invariant = { λ c. HasTextForm c.text };
}

impl Cell {
    /// The cell of a character, of the width that the width value gives the cell's text. It never
    /// fails.
    #[tactic(auto, using(crate::proofs::Cleaned::length_clean))]
    pub fn new<W: Widths>(
        alloc: Global,
        widths: &W,
        c: char,
        attrs: CellAttributes,
    ) -> Result<Cell, AllocError>
        ensures ok { IfOk result (λ cell.
            cell ≡ measured (measure W.width_of widths.now) (encode_utf8 c) attrs) }
        ensures succeeds { IsOk result }
    {
        let mut buffer = [0; 4];
        let text = c.encode_utf8(&mut buffer);
        Cell::new_grapheme(alloc, widths, text, attrs, None)
    }

    /// A space of one column with default attributes. It takes no memory.
    pub fn blank() -> Cell
        ensures { result ≡ blank }
    {
        Cell::blank_with_attrs(CellAttributes::blank())
    }

    /// A space of one column with these attributes. It takes no memory.
    pub fn blank_with_attrs(attrs: CellAttributes) -> Cell
        ensures { result ≡ blank_of attrs }
    {
        Cell {
            text: CellText::blank(),
            attrs,
        }
    }

    /// The cell of one column of a character of printable ASCII, U+0020 to U+007E. It takes no
    /// memory.
    #[doc(hidden)]
    #[inline]
    pub fn plain(byte: u8, attrs: CellAttributes) -> Cell
        requires { is_plain byte ≡ true }
        ensures { result ≡ plain_cell byte attrs }
    {
        Cell {
            text: CellText::plain(byte),
            attrs,
        }
    }

    /// The cell of a text. Its width is the one that the width value gives the cell's text in that
    /// version of Unicode. It can only fail where that text is longer than seven bytes.
    #[tactic(auto, using(crate::proofs::Cleaned::clean_clean))]
    pub fn new_grapheme<W: Widths>(
        alloc: Global,
        widths: &W,
        text: &str,
        attrs: CellAttributes,
        version: Option<UnicodeVersion>,
    ) -> Result<Cell, AllocError>
        ensures ok { IfOk result (λ cell.
            cell ≡ measured (at_version (W.width_of widths.now) version) text.now attrs) }
        ensures succeeds { length (clean text.now) ≤ 7 → IsOk result }
    {
        let text = cleaned(text);
        let width = widths.width(text, version);
        Cell::with_clean_text(alloc, text, width > 1, attrs)
    }

    /// The cell of a text with this width, which is at most 2 columns. A width of 0 becomes 1. It
    /// can only fail where the cell's text is longer than seven bytes.
    #[tactic(auto, using(crate::proofs::Cleaned::clean_clean))]
    pub fn new_grapheme_with_width(
        alloc: Global,
        text: &str,
        width: usize,
        attrs: CellAttributes,
    ) -> Result<Cell, AllocError>
        requires { width ≤ 2 }
        ensures ok { IfOk result (λ cell. cell ≡ cell_of text.now width attrs) }
        ensures succeeds { length (clean text.now) ≤ 7 → IsOk result }
    {
        Cell::with_clean_text(alloc, cleaned(text), width > 1, attrs)
    }

    #[inline(always)]
    fn with_clean_text(
        alloc: Global,
        text: &str,
        wide: bool,
        attrs: CellAttributes,
    ) -> Result<Cell, AllocError>
        requires { clean text.now ≡ text.now }
        ensures ok { IfOk result (λ cell.
            cell ≡ record { text = text.now; wide = wide; attrs = attrs }) }
        ensures succeeds { length text.now ≤ 7 → IsOk result }
    {
        let text = CellText::new(alloc, text, wide)?;
        Ok(Cell { text, attrs })
    }

    /// The text, which is never empty, CR LF or one control character of ASCII.
    pub fn str(&self) -> &str
        ensures text { result.now ≡ self.now.text }
        ensures clean { clean result.now ≡ result.now }
    {
        self.text.str()
    }

    /// The character of a cell of one column whose text is one character of printable ASCII, U+0020
    /// to U+007E. Returns `None` for any other cell.
    #[doc(hidden)]
    #[inline(always)]
    pub fn as_plain(&self) -> Option<u8>
        ensures { MatchOption result
            ((not (is_wide self.now) && is_one_plain self.now.text) ≡ false)
            (λ byte. (is_plain byte ≡ true) × (self.now ≡ plain_cell byte self.now.attrs)) }
    {
        self.text.as_plain()
    }

    /// The cell's width in columns: 1 or 2.
    pub fn width(&self) -> usize
        ensures value { result ≡ columns self.now }
        ensures low { 1 ≤ result }
        ensures high { result ≤ 2 }
    {
        if self.text.is_wide() { 2 } else { 1 }
    }

    /// The attributes.
    pub fn attrs(&self) -> &CellAttributes
        ensures { result.now ≡ self.now.attrs }
    {
        &self.attrs
    }

    /// The attributes, for writing: what is written through the reference is the cell's.
    pub fn attrs_mut(&mut self) -> &mut CellAttributes
        ensures* writes_back { sem 𝓛 (LendsAttrs self.entry result) }
        ensures value { result.now ≡ self.old.attrs }
    {
        &mut self.attrs
    }

    /// Whether this is a space of one column with default attributes.
    pub fn is_blank(&self) -> bool
        ensures { IsTrue result ↔ (self.now ≡ blank) }
    {
        self.text.is_blank() && self.attrs.is_blank()
    }

    /// The form in which the text is shown, as the width value gives it: the one that a variation
    /// selector in the text asks for, or else the default one.
    pub fn presentation<W: Widths>(&self, widths: &W) -> Presentation
        ensures { let shown = W.presentation_of widths.now self.now.text in
            result ≡ unwrap_or shown.1 shown.0 }
    {
        let (presentation, variation) = widths.presentation(self.str());
        variation.unwrap_or(presentation)
    }
}

impl Clone for Cell {
    ghost is_clone = { λ a b. b ≡ a };

    ghost is_infallible = { λ cell. (length cell.text ≤ 7) × (needs_box cell.attrs ≡ false) };

    // A cell that takes no memory is copied without a call.
    #[inline(always)]
    fn clone(&self) -> Result<Cell, AllocError> {
        match self.short_copy() {
            Some(copy) => Ok(copy),
            None => self.copied(),
        }
    }
}

impl Cell {
    /// A copy, or `None` where it would take memory.
    #[doc(hidden)]
    #[inline(always)]
    pub fn short_copy(&self) -> Option<Cell>
        ensures same { IfSome result (λ copy. copy ≡ self.now) }
        ensures short { IsSome result ↔ (owns_memory self.now ≡ false) }
    {
        let text = self.text.short_copy()?;
        let attrs = self.attrs.unboxed_copy()?;
        Some(Cell { text, attrs })
    }

    /// Whether the text or the attributes take memory.
    #[doc(hidden)]
    #[inline(always)]
    pub fn owns_memory(&self) -> bool
        ensures { result ≡ owns_memory self.now }
    {
        self.short_copy().is_none()
    }

    // A copy, whether that takes memory or not.
    #[inline(never)]
    fn copied(&self) -> Result<Cell, AllocError>
        ensures copy { IfOk result (λ copy. copy ≡ self.now) }
        ensures short { length self.now.text ≤ 7 → needs_box self.now.attrs ≡ false → IsOk result }
    {
        let text = self.text.copied()?;
        let attrs = self.attrs.clone()?;
        Ok(Cell { text, attrs })
    }
}

impl PartialEq for Cell {
    ghost eq = { cell_eq };

    ghost laws = { partial_equiv_from_equiv (decided cell_eq cell_eq-Decides) };

    #[inline(always)]
    fn eq(&self, other: &Cell) -> bool
        ensures value { result ≡ cell_eq self.now other.now }
        ensures same { IsTrue result ↔ (self.now ≡ other.now) }
    {
        self.is_same(other)
    }
}

impl Eq for Cell {
    ghost laws = { decided cell_eq cell_eq-Decides };
}

impl Cell {
    #[inline(always)]
    fn is_same(&self, other: &Cell) -> bool
        ensures { result ≡ cell_eq self.now other.now }
    {
        self.text.is_same(&other.text) && self.attrs == other.attrs
    }
}

impl Default for Cell {
    ghost is_default = { λ cell. cell ≡ blank };

    fn default() -> Cell {
        Cell::blank()
    }
}
