//! The text of a cell, and whether it takes two columns.
ghost use Rattle.std.specs.Prelude.{MatchOption, [], false, string_bytes, ◌&&◌, ◌↔◌, ◌∷◌, ◌≡◌, ◌≤◌};
ghost use Rattle.termwiz_cell.specs.{HasTextForm, bytes_eq, clean, is_one_plain, is_plain, text_in};
ghost use Rattle.termwiz_cell.specs.{IfOk, IfSome, IsOk, IsSome, IsTrue, length, space, wide_in};
ghost use Rattle.termwiz_cell.specs.{beq, not, true};

use super::short_text::{is_same_short, only_byte, plain_text, short_text, space_text};
use arrayvec::ArrayString;
use std::alloc::{AllocError, Global};

/// The text of a cell, and whether it takes two columns. A text of at most seven bytes is stored in
/// the value itself, and a longer one on the heap.
#[derive(Drop)]
pub(super) enum CellText {
    Narrow(ArrayString<7>),
    Wide(ArrayString<7>),
    Long(Box<LongText>),
}

/// A text of more than seven bytes.
#[derive(Drop)]
pub(super) struct LongText {
    pub(super) text: String,
    pub(super) wide: bool,
}

/// The text as a cell has it: a space for the empty text, CR LF and one control character of ASCII,
/// and each other text as it is.
pub(super) fn cleaned(text: &str) -> &str
    ensures { result.now ≡ clean text.now }
{
    match text.as_bytes() {
        [] | b"\r\n" => " ",
        [byte] if *byte < 0x20 || *byte == 0x7f => " ",
        _ => text,
    }
}

impl LongText {
    /// Whether both are the same text of the same width. It is kept out of line, so that the path
    /// of short texts is short.
    #[inline(never)]
    fn is_same(&self, other: &LongText) -> bool
        ensures { result
            ≡ (bytes_eq (string_bytes self.now.text) (string_bytes other.now.text)
            && beq self.now.wide other.now.wide) }
    {
        self.text == other.text && self.wide == other.wide
    }
}

impl CellText {
    /// A space of one column.
    pub(super) fn blank() -> CellText
        ensures text { text_in result ≡ space }
        ensures narrow { wide_in result ≡ false }
        ensures stored { HasTextForm result }
    {
        CellText::Narrow(space_text())
    }

    /// One printable character of ASCII, of one column.
    #[inline]
    pub(super) fn plain(byte: u8) -> CellText
        requires { is_plain byte ≡ true }
        ensures text { text_in result ≡ byte ∷ [] }
        ensures narrow { wide_in result ≡ false }
        ensures stored { HasTextForm result }
    {
        CellText::Narrow(plain_text(byte))
    }

    /// This text. It can only fail where the text is longer than seven bytes.
    pub(super) fn new(alloc: Global, text: &str, wide: bool) -> Result<CellText, AllocError>
        requires { clean text.now ≡ text.now }
        ensures text { IfOk result (λ stored. text_in stored ≡ text.now) }
        ensures wide { IfOk result (λ stored. wide_in stored ≡ wide) }
        ensures stored { IfOk result (λ stored. HasTextForm stored) }
        ensures succeeds { length text.now ≤ 7 → IsOk result }
    {
        if text.len() <= 7 {
            let short = short_text(text);
            return Ok(if wide {
                CellText::Wide(short)
            } else {
                CellText::Narrow(short)
            });
        }
        long_text(alloc, text, wide)
    }

    pub(super) fn str(&self) -> &str
        requires { HasTextForm self.now }
        ensures text { result.now ≡ text_in self.now }
        ensures clean { clean result.now ≡ result.now }
    {
        match self {
            CellText::Narrow(short) => short.as_str(),
            CellText::Wide(short) => short.as_str(),
            CellText::Long(long) => long.text.as_str(),
        }
    }

    pub(super) fn is_wide(&self) -> bool
        ensures { result ≡ wide_in self.now }
    {
        match self {
            CellText::Narrow(_) => false,
            CellText::Wide(_) => true,
            CellText::Long(long) => long.wide,
        }
    }

    /// Whether this is a space of one column.
    pub(super) fn is_blank(&self) -> bool
        requires { HasTextForm self.now }
        ensures { IsTrue result ↔ ((text_in self.now ≡ space) × (wide_in self.now ≡ false)) }
    {
        matches!(self.as_plain(), Some(b' '))
    }

    /// The byte of the text, where it is one printable character of ASCII, of one column.
    #[inline(always)]
    #[tactic(auto, using(crate::proofs::TextForms::plain_one, crate::proofs::TextForms::not_plain))]
    pub(super) fn as_plain(&self) -> Option<u8>
        requires { HasTextForm self.now }
        ensures { MatchOption result
            ((not (wide_in self.now) && is_one_plain (text_in self.now)) ≡ false)
            (λ byte. (is_plain byte ≡ true)
            × ((text_in self.now ≡ byte ∷ []) × (wide_in self.now ≡ false))) }
    {
        match self {
            CellText::Narrow(short) => only_byte(short),
            CellText::Wide(_) => None,
            CellText::Long(_) => None,
        }
    }

    /// Whether both are the same text of the same width. A text's length and width determine its
    /// form, so texts of two forms differ.
    #[inline(always)]
    #[tactic(auto, using(crate::proofs::TextForms::short_differs_from_long, crate::proofs::TextForms::long_differs_from_short, crate::proofs::TextForms::clean_filled))]
    pub(super) fn is_same(&self, other: &CellText) -> bool
        requires self_stored { HasTextForm self.now }
        requires other_stored { HasTextForm other.now }
        ensures { result
            ≡ (bytes_eq (text_in self.now) (text_in other.now)
            && beq (wide_in self.now) (wide_in other.now)) }
    {
        match (self, other) {
            (CellText::Wide(a), CellText::Wide(b)) => is_same_short(a, b),
            (CellText::Narrow(a), CellText::Narrow(b)) => is_same_short(a, b),
            (CellText::Long(a), CellText::Long(b)) => a.is_same(b),
            (CellText::Narrow(_), CellText::Wide(_)) => false,
            (CellText::Wide(_), CellText::Narrow(_)) => false,
            (CellText::Long(_), _) => false,
            (_, CellText::Long(_)) => false,
        }
    }

    /// A copy, or `None` where the text is longer than seven bytes.
    #[inline(always)]
    pub(super) fn short_copy(&self) -> Option<CellText>
        requires { HasTextForm self.now }
        ensures text { IfSome result (λ copy. text_in copy ≡ text_in self.now) }
        ensures wide { IfSome result (λ copy. wide_in copy ≡ wide_in self.now) }
        ensures stored { IfSome result (λ copy. HasTextForm copy) }
        ensures short { IsSome result ↔ (length (text_in self.now) ≤ 7) }
    {
        match self {
            CellText::Narrow(short) => Some(CellText::Narrow(*short)),
            CellText::Wide(short) => Some(CellText::Wide(*short)),
            CellText::Long(_) => None,
        }
    }

    /// A copy. It can only fail where the text is longer than seven bytes.
    pub(super) fn copied(&self) -> Result<CellText, AllocError>
        requires { HasTextForm self.now }
        ensures text { IfOk result (λ copy. text_in copy ≡ text_in self.now) }
        ensures wide { IfOk result (λ copy. wide_in copy ≡ wide_in self.now) }
        ensures stored { IfOk result (λ copy. HasTextForm copy) }
        ensures succeeds { length (text_in self.now) ≤ 7 → IsOk result }
    {
        match self {
            CellText::Narrow(short) => Ok(CellText::Narrow(*short)),
            CellText::Wide(short) => Ok(CellText::Wide(*short)),
            CellText::Long(long) => long_text(*Box::allocator(long), &long.text, long.wide),
        }
    }
}

/// This text, which has more than seven bytes. It is kept out of line, so that the path of short
/// texts is short.
#[inline(never)]
fn long_text(alloc: Global, text: &str, wide: bool) -> Result<CellText, AllocError>
    requires clean { clean text.now ≡ text.now }
    requires long { 8 ≤ length text.now }
    ensures text { IfOk result (λ stored. text_in stored ≡ text.now) }
    ensures wide { IfOk result (λ stored. wide_in stored ≡ wide) }
    ensures stored { IfOk result (λ stored. HasTextForm stored) }
{
    let text = String::from_str(alloc, text)?;
    Ok(CellText::Long(Box::new(alloc, LongText { text, wide })?))
}
