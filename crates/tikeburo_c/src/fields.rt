//! Colours, attributes and cells, as the structs that C has of them.
ghost use Rattle.std.specs.Prelude.{◌≡◌, ◌⊎◌, IfErr, IfOk, IsTrue, None, OnOk, Some, option_map};
ghost use Rattle.termwiz_cell.specs.Attributes.{Attributes, default_attributes, without_colors};
ghost use Rattle.termwiz_cell.specs.declared.color.ColorAttribute.TheVariants.{Default};
ghost use Rattle.tikeburo_c.specs.Numbers.{intensity_in};
ghost use Rattle.tikeburo_c.specs.declared.failure.Failure.TheVariants.{Memory, Range};
ghost use Rattle.tikeburo_c.specs.Fields as specs_of;

use crate::failure::Failure;
use std::alloc::Global;
use termwiz_surface::cell::{Blink, Intensity, SemanticType, Underline, VerticalAlign};
use termwiz_surface::{Cell, CellAttributes, ColorAttribute, RgbColor};

/// A colour. What its kind doesn't name is 0 where a call writes it, and isn't read.
#[repr(C)]
#[derive(Clone, Copy)]
pub struct ColorFields {
    pub kind: u8,
    pub red: u8,
    pub green: u8,
    pub blue: u8,
    pub index: u8,
}

/// Attributes, but the link.
#[repr(C)]
#[derive(Clone, Copy)]
pub struct AttributeFields {
    pub intensity: u8,
    pub underline: u8,
    pub blink: u8,
    pub semantic_type: u8,
    pub vertical_align: u8,
    pub italic: bool,
    pub reverse: bool,
    pub strikethrough: bool,
    pub invisible: bool,
    pub wrapped: bool,
    pub overline: bool,
    pub foreground: ColorFields,
    pub background: ColorFields,
    pub underline_color: ColorFields,
}

/// A cell, but its text and its link.
#[repr(C)]
#[derive(Clone, Copy)]
pub struct CellFields {
    pub columns: u8,
    pub has_link: bool,
    pub attributes: AttributeFields,
}

fn true_color_fields(kind: u8, color: RgbColor, index: u8) -> ColorFields
    ensures { result ≡ record {
      kind = kind;
      red = color.red;
      green = color.green;
      blue = color.blue;
      index = index;
    } }
{
    let (red, green, blue) = color.to_tuple_rgb8();
    ColorFields {
        kind,
        red,
        green,
        blue,
        index,
    }
}

/// The fields of a colour.
pub(crate) fn color_fields(color: ColorAttribute) -> ColorFields
    ensures { result ≡ specs_of.color_fields color }
{
    match color {
        ColorAttribute::Default => true_color_fields(0, RgbColor::new_8bpc(0, 0, 0), 0),
        ColorAttribute::PaletteIndex(index) => {
            true_color_fields(1, RgbColor::new_8bpc(0, 0, 0), index)
        }
        ColorAttribute::TrueColorWithDefaultFallback(color) => true_color_fields(2, color, 0),
        ColorAttribute::TrueColorWithPaletteFallback(color, index) => {
            true_color_fields(3, color, index)
        }
    }
}

/// The colour of this struct, if its kind is one.
pub(crate) fn color_in(fields: &ColorFields) -> Option<ColorAttribute>
    ensures { result ≡ specs_of.color_in fields.now }
{
    let color = RgbColor::new_8bpc(fields.red, fields.green, fields.blue);
    match fields.kind {
        0 => Some(ColorAttribute::Default),
        1 => Some(ColorAttribute::PaletteIndex(fields.index)),
        2 => Some(ColorAttribute::TrueColorWithDefaultFallback(color)),
        3 => Some(ColorAttribute::TrueColorWithPaletteFallback(color, fields.index)),
        _ => None,
    }
}

/// The fields of default attributes.
pub(crate) fn blank_fields() -> AttributeFields
    ensures { result ≡ specs_of.attribute_fields default_attributes }
{
    let color = color_fields(ColorAttribute::Default);
    AttributeFields {
        intensity: 0,
        underline: 0,
        blink: 0,
        semantic_type: 0,
        vertical_align: 0,
        italic: false,
        reverse: false,
        strikethrough: false,
        invisible: false,
        wrapped: false,
        overline: false,
        foreground: color,
        background: color,
        underline_color: color,
    }
}

/// The fields of attributes. Mostly all but the colours are default, which is seen at once.
pub(crate) fn attribute_fields(attrs: &CellAttributes) -> AttributeFields
    ensures { result ≡ specs_of.attribute_fields attrs.now }
{
    let foreground = color_fields(attrs.foreground());
    let background = color_fields(attrs.background());
    let underline_color = color_fields(attrs.underline_color());
    if attrs.attribute_bits_equal(&CellAttributes::blank()) {
        return AttributeFields {
            foreground,
            background,
            underline_color,
            ..blank_fields()
        };
    }
    AttributeFields {
        intensity: attrs.intensity().number(),
        underline: attrs.underline().number(),
        blink: attrs.blink().number(),
        semantic_type: attrs.semantic_type().number(),
        vertical_align: attrs.vertical_align().number(),
        italic: attrs.italic(),
        reverse: attrs.reverse(),
        strikethrough: attrs.strikethrough(),
        invisible: attrs.invisible(),
        wrapped: attrs.wrapped(),
        overline: attrs.overline(),
        foreground,
        background,
        underline_color,
    }
}

/// The fields of a cell.
pub(crate) fn cell_fields(cell: &Cell) -> CellFields
    ensures { result ≡ specs_of.cell_fields cell.now }
{
    CellFields {
        columns: cell.width() as u8,
        has_link: cell.attrs().hyperlink().is_some(),
        attributes: attribute_fields(cell.attrs()),
    }
}

/// The value, if it is in its range.
pub(crate) fn in_range<T: Drop>(value: Option<T>) -> Result<T, Failure>
    ensures found { IfOk result (λ x. value ≡ Some x) }
    ensures missing { IfErr result (λ failure. (failure ≡ Range) × (value ≡ None)) }
{
    match value {
        Some(value) => Ok(value),
        None => Err(Failure::Range),
    }
}

// Whether all attributes of this struct but the colours and the intensity are default.
#[inline(always)]
fn is_plain(fields: &AttributeFields) -> bool
    ensures { IsTrue result → specs_of.styles_in fields.now
        ≡ option_map (λ i. record default_attributes { intensity = i })
        (intensity_in fields.now.intensity) }
{
    if fields.underline != 0
        || fields.blink != 0
        || fields.semantic_type != 0
        || fields.vertical_align != 0
    {
        return false;
    }
    if fields.italic || fields.reverse || fields.strikethrough {
        return false;
    }
    if fields.invisible || fields.wrapped || fields.overline {
        return false;
    }
    true
}

// The attributes of this struct that are no colours. Mostly they are plain, which is seen at once.
#[inline(always)]
fn styled(fields: &AttributeFields) -> Result<CellAttributes, Failure>
    ensures found { IfOk result (λ attrs. specs_of.styles_in fields.now ≡ Some attrs) }
    ensures missing { IfErr result (λ failure.
        (failure ≡ Range) × (specs_of.styles_in fields.now ≡ None)) }
    ensures colors { IfOk result (λ attrs. attrs ≡ without_colors attrs) }
{
    if is_plain(fields) {
        let mut attrs = CellAttributes::blank();
        attrs.set_intensity(Intensity::try_from(fields.intensity)?);
        return Ok(attrs);
    }
    styled_by_each(fields)
}

#[inline(never)]
fn styled_by_each(fields: &AttributeFields) -> Result<CellAttributes, Failure>
    ensures found { IfOk result (λ attrs. specs_of.styles_in fields.now ≡ Some attrs) }
    ensures missing { IfErr result (λ failure.
        (failure ≡ Range) × (specs_of.styles_in fields.now ≡ None)) }
    ensures colors { IfOk result (λ attrs. attrs ≡ without_colors attrs) }
{
    let intensity = Intensity::try_from(fields.intensity)?;
    let underline = Underline::try_from(fields.underline)?;
    let blink = Blink::try_from(fields.blink)?;
    let semantic_type = SemanticType::try_from(fields.semantic_type)?;
    let vertical_align = VerticalAlign::try_from(fields.vertical_align)?;
    let mut attrs = CellAttributes::blank();
    attrs.set_intensity(intensity);
    attrs.set_underline(underline);
    attrs.set_blink(blink);
    attrs.set_semantic_type(semantic_type);
    attrs.set_vertical_align(vertical_align);
    attrs.set_italic(fields.italic);
    attrs.set_reverse(fields.reverse);
    attrs.set_strikethrough(fields.strikethrough);
    attrs.set_invisible(fields.invisible);
    attrs.set_wrapped(fields.wrapped);
    attrs.set_overline(fields.overline);
    Ok(attrs)
}

// Sets the colour of the text, which is default, to the colour of this struct.
#[inline(always)]
fn put_foreground(
    alloc: Global,
    attrs: &mut CellAttributes,
    fields: &ColorFields,
) -> Result<(), Failure>
    requires { attrs.old.foreground ≡ Default }
    ensures found { OnOk result (specs_of.color_in fields.now ≡ Some attrs.new.foreground) }
    ensures others { OnOk result (
        attrs.new ≡ record attrs.old { foreground = attrs.new.foreground }) }
    ensures missing { IfErr result (λ failure. (failure ≡ Memory)
        ⊎ ((failure ≡ Range) × (specs_of.color_in fields.now ≡ None))) }
{
    if fields.kind == 0 {
        return Ok(());
    }
    attrs.change_foreground(alloc, in_range(color_in(fields))?)?;
    Ok(())
}

// Sets the background, which is default, to the colour of this struct.
#[inline(always)]
fn put_background(
    alloc: Global,
    attrs: &mut CellAttributes,
    fields: &ColorFields,
) -> Result<(), Failure>
    requires { attrs.old.background ≡ Default }
    ensures found { OnOk result (specs_of.color_in fields.now ≡ Some attrs.new.background) }
    ensures others { OnOk result (
        attrs.new ≡ record attrs.old { background = attrs.new.background }) }
    ensures missing { IfErr result (λ failure. (failure ≡ Memory)
        ⊎ ((failure ≡ Range) × (specs_of.color_in fields.now ≡ None))) }
{
    if fields.kind == 0 {
        return Ok(());
    }
    attrs.change_background(alloc, in_range(color_in(fields))?)?;
    Ok(())
}

// Sets the colour of the underline, which is default, to the colour of this struct.
#[inline(always)]
fn put_underline_color(
    alloc: Global,
    attrs: &mut CellAttributes,
    fields: &ColorFields,
) -> Result<(), Failure>
    requires { attrs.old.underline_color ≡ Default }
    ensures found { OnOk result (specs_of.color_in fields.now ≡ Some attrs.new.underline_color) }
    ensures others { OnOk result (
        attrs.new ≡ record attrs.old { underline_color = attrs.new.underline_color }) }
    ensures missing { IfErr result (λ failure. (failure ≡ Memory)
        ⊎ ((failure ≡ Range) × (specs_of.color_in fields.now ≡ None))) }
{
    if fields.kind == 0 {
        return Ok(());
    }
    attrs.change_underline_color(alloc, in_range(color_in(fields))?)?;
    Ok(())
}

/// The attributes of this struct, if each of them is in its range.
pub(crate) fn attributes_in(
    alloc: Global,
    fields: &AttributeFields,
) -> Result<CellAttributes, Failure>
    ensures found { IfOk result (λ attrs. specs_of.attributes_in fields.now ≡ Some attrs) }
    ensures missing { IfErr result (λ failure. (failure ≡ Memory)
        ⊎ ((failure ≡ Range) × (specs_of.attributes_in fields.now ≡ None))) }
{
    let mut attrs = styled(fields)?;
    put_foreground(alloc, &mut attrs, &fields.foreground)?;
    put_background(alloc, &mut attrs, &fields.background)?;
    put_underline_color(alloc, &mut attrs, &fields.underline_color)?;
    Ok(attrs)
}
