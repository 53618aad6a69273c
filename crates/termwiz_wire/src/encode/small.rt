//! Small attributes, colours and positions.
ghost use Rattle.std.specs.Prelude.{◌≡◌, ◌<◌, ◌++◌, OnOk};
ghost use Rattle.cbor.specs.Encoding.{Extends, array, unsigned};
ghost use Rattle.termwiz_cell.specs.Style.{flag_number};
ghost use Rattle.termwiz_cell.specs.StyleWord.{IsRgb};
ghost use Rattle.termwiz_wire.specs.Encoding.{color, is_visible, position, style_number};
ghost use Rattle.termwiz_wire.specs.Forms.{IsColor, IsPosition};

use cbor::{put_array, put_null, put_signed, put_unsigned};
use std::alloc::AllocError;
use termwiz_cell::cell::CellAttributes;
use termwiz_cell::change::{CursorVisibility, Position};
use termwiz_cell::color::{ColorAttribute, RgbColor};

pub(super) fn is_visible(value: CursorVisibility) -> bool
    ensures { result ≡ is_visible value }
{
    match value {
        CursorVisibility::Hidden => false,
        CursorVisibility::Visible => true,
    }
}

fn flag_number(on: bool) -> usize
    ensures value { result ≡ flag_number on }
    ensures small { result < 2 }
{
    on as usize
}

/// The small attributes in their bit fields, the lowest first. Most cells have the default ones.
#[tactic(auto, using(crate::proofs::Style::plain_style))]
pub(super) fn style_number(attrs: &CellAttributes) -> usize
    ensures { result ≡ style_number attrs.now }
{
    if attrs.attribute_bits_equal(&CellAttributes::blank()) {
        0
    } else {
        joined_fields(attrs)
    }
}

fn joined_fields(attrs: &CellAttributes) -> usize
    ensures { result ≡ style_number attrs.now }
{
    let vertical = attrs.vertical_align().number() as usize;
    let semantic = attrs.semantic_type().number() as usize + 4 * vertical;
    let overline = flag_number(attrs.overline()) + 2 * semantic;
    let wrapped = flag_number(attrs.wrapped()) + 2 * overline;
    let invisible = flag_number(attrs.invisible()) + 2 * wrapped;
    let struck = flag_number(attrs.strikethrough()) + 2 * invisible;
    let reverse = flag_number(attrs.reverse()) + 2 * struck;
    let italic = flag_number(attrs.italic()) + 2 * reverse;
    let blink = attrs.blink().number() as usize + 4 * italic;
    let underline = attrs.underline().number() as usize + 8 * blink;
    attrs.intensity().number() as usize + 4 * underline
}

/// Appends a kind and the head of the array that it shares with one value, which is to follow.
#[inline]
pub(super) fn put_kind(out: &mut Vec<u8>, kind: usize) -> Result<(), AllocError>
    ensures written { OnOk result (out.new.items ≡ out.old.items ++ array 2 ++ unsigned kind) }
    ensures kept { Extends out.old.items out.new.items }
{
    put_array(out, 2)?;
    put_unsigned(out, kind)
}

/// Appends a colour.
#[inline(always)]
#[tactic(auto, unfolding(crate::specs::Encoding::color))]
pub(super) fn put_color(out: &mut Vec<u8>, value: ColorAttribute) -> Result<(), AllocError>
    ensures written { OnOk result (out.new.items ≡ out.old.items ++ color value) }
    ensures kept { Extends out.old.items out.new.items }
    ensures form { OnOk result (IsColor value) }
{
    match value {
        ColorAttribute::Default => put_null(out),
        ColorAttribute::PaletteIndex(index) => put_unsigned(out, index as usize),
        ColorAttribute::TrueColorWithDefaultFallback(color) => {
            put_array(out, 3)?;
            put_rgb(out, color)
        }
        ColorAttribute::TrueColorWithPaletteFallback(color, index) => {
            put_array(out, 4)?;
            put_rgb(out, color)?;
            put_unsigned(out, index as usize)
        }
    }
}

#[inline(never)]
fn put_rgb(out: &mut Vec<u8>, color: RgbColor) -> Result<(), AllocError>
    ensures written { OnOk result (out.new.items
        ≡ out.old.items ++ unsigned color.red ++ unsigned color.green ++ unsigned color.blue) }
    ensures kept { Extends out.old.items out.new.items }
    ensures form { OnOk result (IsRgb color) }
{
    let (red, green, blue) = color.to_tuple_rgb8();
    put_unsigned(out, red as usize)?;
    put_unsigned(out, green as usize)?;
    put_unsigned(out, blue as usize)
}

/// Appends a column or a row.
#[tactic(auto, unfolding(crate::specs::Encoding::position))]
pub(super) fn put_position(out: &mut Vec<u8>, at: Position) -> Result<(), AllocError>
    ensures written { OnOk result (out.new.items ≡ out.old.items ++ position at) }
    ensures kept { Extends out.old.items out.new.items }
    ensures form { IsPosition at }
{
    match at {
        Position::Relative(distance) => {
            put_kind(out, 0)?;
            put_signed(out, distance)
        }
        Position::Absolute(number) => {
            put_kind(out, 1)?;
            put_unsigned(out, number)
        }
        Position::EndRelative(number) => {
            put_kind(out, 2)?;
            put_unsigned(out, number)
        }
    }
}
