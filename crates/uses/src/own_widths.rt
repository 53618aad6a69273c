//! A width value of your own: the widths of the Unicode tables, but for one character.
ghost use Rattle.std.specs.Prelude.{◌≡◌, IfOk, false};
ghost use Rattle.uses.specs.{IsSurfaceSize, blank_surface};

use std::alloc::{AllocError, Global};
use termwiz_surface::emoji::{Presentation, UnicodeVersion};
use termwiz_surface::{Surface, UnicodeWidths, Widths};

/// Widths by Unicode, for a terminal that draws an ellipsis over two columns.
#[derive(Clone, Copy, PartialEq, Eq, Debug)]
pub struct WideEllipsis;

impl Widths for WideEllipsis {
    ghost use Rattle.std.specs.Prelude.{[], ◌∷◌, if◌then◌else◌, bytes_eq};
    ghost use Rattle.std.proofs.Common.{arith};
    ghost use Rattle.termwiz_surface.specs.{Text, unicode_columns, unicode_columns-le, variation};
    ghost use Rattle.termwiz_surface.specs.{unicode_columns-space};

    // The bytes of U+2026, and else what the tables have.
    ghost width_of = { λ _ text _.
        if bytes_eq text (0xE2 ∷ 0x80 ∷ 0xA6 ∷ []) then 2 else unicode_columns text };

    ghost presentation_of = { λ _ text. (Text, variation text) };

    ghost char_presentation_of = { λ _ _. Text };

    ghost at_most_two = { λ _ text _. Prim.grind (arith, unicode_columns-le text) };

    ghost space_has_one = { λ _ _. unicode_columns-space };

    fn width(&self, text: &str, version: Option<UnicodeVersion>) -> usize {
        if text == "…" {
            2
        } else {
            UnicodeWidths.width(text, version)
        }
    }

    fn presentation(&self, text: &str) -> (Presentation, Option<Presentation>) {
        UnicodeWidths.presentation(text)
    }

    fn char_presentation(&self, c: char) -> Presentation {
        UnicodeWidths.char_presentation(c)
    }
}

/// A blank surface of this width in columns and height in rows, on which an ellipsis takes two
/// columns.
pub fn surface_with_wide_ellipses(
    alloc: Global,
    width: usize,
    height: usize,
) -> Result<Surface<WideEllipsis>, AllocError>
    requires size { IsSurfaceSize width height }
    ensures { IfOk result (λ surface.
        surface ≡ blank_surface surface.widths width height false) }
{
    Surface::new(alloc, width, height, WideEllipsis)
}
