//! Texts, as surfaces cut and measure them.
ghost use Rattle.std.specs.Prelude.{◌≡◌};
ghost use Rattle.tikeburo_c.specs.Outcomes.{Reports};
ghost use Rattle.tikeburo_c.specs.Texts.{MeasuresText, MeasuresTextBy, ReadsText, first_length};
ghost use Rattle.tikeburo_c.specs.Widths.{widths_at};

use crate::failure::{Failure, status};
use crate::lists::text_in;
use crate::tables::WidthRange;
use crate::widths::ChosenWidths;
use termwiz_surface::emoji::unicode_column_width;
use termwiz_text::split_first_grapheme;

fn measure(text: &[u8], widths: Option<ChosenWidths>, columns: &mut usize) -> Result<(), Failure>
    ensures { MeasuresText widths.entry text.now columns.old result columns.new }
{
    let Some(widths) = widths else {
        return Err(Failure::Range);
    };
    let text = text_in(text)?;
    *columns = unicode_column_width(&widths, text, None);
    Ok(())
}

/// The columns of a text, the sum over its graphemes, of which each has 0 to 2.
#[unsafe(no_mangle)]
pub extern "C" fn tk_text_width(text: &[u8], widths: u8, columns: &mut usize) -> i32
    ensures { Reports result (λ outcome.
        MeasuresText (widths_at widths) text.now columns.old outcome columns.new) }
{
    let widths = ChosenWidths::at(widths);
    let outcome = measure(text, widths, columns);
    status(outcome)
}

/// The columns of a text by a table of widths.
#[unsafe(no_mangle)]
pub extern "C" fn tk_text_width_by(text: &[u8], ranges: &[WidthRange], columns: &mut usize) -> i32
    ensures { Reports result (λ outcome.
        MeasuresTextBy ranges.entry text.now columns.old outcome columns.new) }
{
    let widths = ChosenWidths::by(ranges);
    let outcome = measure(text, widths, columns);
    status(outcome)
}

fn first_length(text: &str) -> usize
    ensures { result ≡ first_length text.now }
{
    match split_first_grapheme(text) {
        Some((first, _)) => first.len(),
        None => 0,
    }
}

fn cut(text: &[u8], bytes: &mut usize) -> Result<(), Failure>
    ensures { ReadsText first_length text.now bytes.old result bytes.new }
{
    let text = text_in(text)?;
    *bytes = first_length(text);
    Ok(())
}

/// The length of a text's first grapheme, or 0 of the empty text.
#[unsafe(no_mangle)]
pub extern "C" fn tk_first_grapheme(text: &[u8], bytes: &mut usize) -> i32
    ensures { Reports result (λ outcome.
        ReadsText first_length text.now bytes.old outcome bytes.new) }
{
    let outcome = cut(text, bytes);
    status(outcome)
}
