//! Small attributes, colours and positions.
ghost use Rattle.std.specs.Prelude.{◌≡◌, IfOk, true};
ghost use Rattle.cbor.specs.Decoding.{Gives, allowed};
ghost use Rattle.termwiz_wire.specs.Decoding.{are_small, color_item_at, palette_at, position_at};
ghost use Rattle.termwiz_wire.specs.Decoding.{rgb_item_at, rgb_palette_at, split, style_item_at};
ghost use Rattle.termwiz_wire.specs.Decoding.{styled, visibility_of, which_at};
ghost use Rattle.termwiz_wire.specs.Encoding.{fields};

use cbor::{Kind, ReadError, Reader};
use termwiz_cell::cell::{
    Blink, CellAttributes, Intensity, SemanticType, Underline, VerticalAlign,
};
use termwiz_cell::change::{CursorVisibility, Position};
use termwiz_cell::color::{ColorAttribute, RgbColor};

pub(super) fn visibility_of(on: bool) -> CursorVisibility
    ensures { result ≡ visibility_of on }
{
    if on {
        CursorVisibility::Visible
    } else {
        CursorVisibility::Hidden
    }
}

// Whether each bit field of the number has the number of an attribute.
fn has_small_fields(number: usize) -> bool
    ensures { result ≡ are_small (split fields number) }
{
    let intensity = number % 4;
    let number = number / 4;
    let underline = number % 8;
    let number = number / 8;
    let blink = number % 4;
    let number = number / 4 / 2 / 2 / 2 / 2 / 2 / 2;
    let semantic = number % 4;
    let vertical = number / 4 % 4;
    intensity < 3 && underline < 6 && blink < 3 && semantic < 3 && vertical < 3
}

/// The small attributes as one number.
#[tactic(auto, unfolding(crate::specs::Decoding::style_item_at))]
pub(super) fn style_of(reader: &mut Reader<'_>) -> Result<usize, ReadError>
    ensures value { Gives (allowed reader.new.room reader.new.bytes.now)
        (λ x. (x, reader.new.bytes.now)) result
        (style_item_at reader.old.room reader.old.bytes.now) }
    ensures small { IfOk result (λ number. are_small (split fields number) ≡ true) }
    ensures room { reader.new.room ≡ reader.old.room }
{
    let start = reader.bytes;
    let number = reader.below(131072)?;
    if has_small_fields(number) {
        Ok(number)
    } else {
        reader.bytes = start;
        Err(ReadError::Range)
    }
}

/// Default attributes with the small ones of this number.
pub(super) fn styled(number: usize) -> CellAttributes
    requires { are_small (split fields number) ≡ true }
    ensures { result ≡ styled number }
{
    let mut attrs = CellAttributes::blank();
    if number == 0 {
        return attrs;
    }
    attrs.set_intensity(Intensity::try_from((number % 4) as u8).unwrap());
    let number = number / 4;
    attrs.set_underline(Underline::try_from((number % 8) as u8).unwrap());
    let number = number / 8;
    attrs.set_blink(Blink::try_from((number % 4) as u8).unwrap());
    let number = number / 4;
    attrs.set_italic(number % 2 == 1);
    let number = number / 2;
    attrs.set_reverse(number % 2 == 1);
    let number = number / 2;
    attrs.set_strikethrough(number % 2 == 1);
    let number = number / 2;
    attrs.set_invisible(number % 2 == 1);
    let number = number / 2;
    attrs.set_wrapped(number % 2 == 1);
    let number = number / 2;
    attrs.set_overline(number % 2 == 1);
    let number = number / 2;
    attrs.set_semantic_type(SemanticType::try_from((number % 4) as u8).unwrap());
    let number = number / 4;
    attrs.set_vertical_align(VerticalAlign::try_from((number % 4) as u8).unwrap());
    attrs
}

#[tactic(auto, unfolding(crate::specs::Decoding::palette_at))]
fn palette_of(reader: &mut Reader<'_>) -> Result<ColorAttribute, ReadError>
    ensures value { Gives (allowed reader.new.room reader.new.bytes.now)
        (λ x. (x, reader.new.bytes.now)) result
        (palette_at reader.old.room reader.old.bytes.now) }
    ensures room { reader.new.room ≡ reader.old.room }
{
    let index = reader.below(256)?;
    Ok(ColorAttribute::PaletteIndex(index as u8))
}

#[tactic(auto, unfolding(crate::specs::Decoding::rgb_item_at))]
fn rgb_of(reader: &mut Reader<'_>) -> Result<ColorAttribute, ReadError>
    ensures value { Gives (allowed reader.new.room reader.new.bytes.now)
        (λ x. (x, reader.new.bytes.now)) result
        (rgb_item_at reader.old.room reader.old.bytes.now) }
    ensures room { reader.new.room ≡ reader.old.room }
{
    let red = reader.below(256)?;
    let green = reader.below(256)?;
    let blue = reader.below(256)?;
    let color = RgbColor::new_8bpc(red as u8, green as u8, blue as u8);
    Ok(ColorAttribute::TrueColorWithDefaultFallback(color))
}

#[tactic(auto, unfolding(crate::specs::Decoding::rgb_palette_at))]
fn rgb_palette_of(reader: &mut Reader<'_>) -> Result<ColorAttribute, ReadError>
    ensures value { Gives (allowed reader.new.room reader.new.bytes.now)
        (λ x. (x, reader.new.bytes.now)) result
        (rgb_palette_at reader.old.room reader.old.bytes.now) }
    ensures room { reader.new.room ≡ reader.old.room }
{
    let red = reader.below(256)?;
    let green = reader.below(256)?;
    let blue = reader.below(256)?;
    let index = reader.below(256)?;
    let color = RgbColor::new_8bpc(red as u8, green as u8, blue as u8);
    Ok(ColorAttribute::TrueColorWithPaletteFallback(color, index as u8))
}

/// Decodes a colour.
#[tactic(auto, unfolding(crate::specs::Decoding::color_item_at))]
pub(super) fn color_of(reader: &mut Reader<'_>) -> Result<ColorAttribute, ReadError>
    ensures value { Gives (allowed reader.new.room reader.new.bytes.now)
        (λ x. (x, reader.new.bytes.now)) result
        (color_item_at reader.old.room reader.old.bytes.now) }
    ensures room { reader.new.room ≡ reader.old.room }
{
    match reader.kind()? {
        Kind::Null => {
            reader.null()?;
            Ok(ColorAttribute::Default)
        }
        Kind::Unsigned => palette_of(reader),
        Kind::Array => {
            let start = reader.bytes;
            match reader.array()? {
                3 => rgb_of(reader),
                4 => rgb_palette_of(reader),
                _ => {
                    reader.bytes = start;
                    Err(ReadError::Type)
                }
            }
        }
        _ => Err(ReadError::Type),
    }
}

/// Decodes one of `limit` kinds.
#[inline(always)]
#[tactic(auto, unfolding(crate::specs::Decoding::which_at))]
pub(super) fn which_of(reader: &mut Reader<'_>, limit: usize) -> Result<usize, ReadError>
    ensures value { Gives (allowed reader.new.room reader.new.bytes.now)
        (λ x. (x, reader.new.bytes.now)) result
        (which_at reader.old.room limit reader.old.bytes.now) }
    ensures room { reader.new.room ≡ reader.old.room }
{
    let start = reader.bytes;
    let number = reader.unsigned()?;
    if number < limit {
        Ok(number)
    } else {
        reader.bytes = start;
        Err(ReadError::Type)
    }
}

/// Decodes a column or a row.
#[tactic(auto, unfolding(crate::specs::Decoding::position_at))]
pub(super) fn position_of(reader: &mut Reader<'_>) -> Result<Position, ReadError>
    ensures value { Gives (allowed reader.new.room reader.new.bytes.now)
        (λ x. (x, reader.new.bytes.now)) result
        (position_at reader.old.room reader.old.bytes.now) }
    ensures room { reader.new.room ≡ reader.old.room }
{
    reader.array_of(2)?;
    match which_of(reader, 3)? {
        0 => Ok(Position::Relative(reader.signed()?)),
        1 => Ok(Position::Absolute(reader.unsigned()?)),
        2 => Ok(Position::EndRelative(reader.unsigned()?)),
        _ => Err(ReadError::Type),
    }
}
