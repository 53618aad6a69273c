//! Attributes, and changes of one attribute.
ghost use Rattle.std.specs.Prelude.{◌≡◌, ◌<◌, ◌++◌, OnOk};
ghost use Rattle.cbor.specs.Encoding.{Extends};
ghost use Rattle.termwiz_cell.specs.AttributeChangeValue.{attribute_change_value};
ghost use Rattle.termwiz_wire.specs.Forms.{AreAttributes, IsAttributeChange, IsOptionalLink};
ghost use Rattle.termwiz_wire.specs.Encoding.{attribute_change, attribute_kind, attribute_value};
ghost use Rattle.termwiz_wire.specs.Encoding.{attributes, optional_link};

use super::links::{put_link, put_optional_link};
use super::small::{put_color, put_kind, style_number};
use cbor::{put_array, put_bool, put_null, put_unsigned};
use std::alloc::AllocError;
use termwiz_cell::cell::{AttributeChange, CellAttributes};

/// Appends all attributes.
#[tactic(auto, unfolding(crate::specs::Encoding::attributes))]
pub(super) fn put_attributes(out: &mut Vec<u8>, attrs: &CellAttributes) -> Result<(), AllocError>
    ensures written { OnOk result (out.new.items ≡ out.old.items ++ attributes attrs.now) }
    ensures kept { Extends out.old.items out.new.items }
    ensures form { OnOk result (AreAttributes attrs.now) }
{
    put_array(out, 5)?;
    put_unsigned(out, style_number(attrs))?;
    put_color(out, attrs.foreground())?;
    put_color(out, attrs.background())?;
    put_color(out, attrs.underline_color())?;
    put_own_link(out, attrs)
}

#[inline(always)]
fn put_own_link(out: &mut Vec<u8>, attrs: &CellAttributes) -> Result<(), AllocError>
    ensures written { OnOk result
        (out.new.items ≡ out.old.items ++ optional_link attrs.now.hyperlink) }
    ensures kept { Extends out.old.items out.new.items }
    ensures form { OnOk result (IsOptionalLink attrs.now.hyperlink) }
{
    match attrs.hyperlink() {
        None => put_null(out),
        Some(target) => put_link(out, target),
    }
}

fn attribute_kind(value: &AttributeChange) -> usize
    ensures kind { result ≡ attribute_kind (attribute_change_value value.now) }
    ensures small { result < 10 }
{
    match value {
        AttributeChange::Intensity(_) => 0,
        AttributeChange::Underline(_) => 1,
        AttributeChange::Italic(_) => 2,
        AttributeChange::Blink(_) => 3,
        AttributeChange::Reverse(_) => 4,
        AttributeChange::StrikeThrough(_) => 5,
        AttributeChange::Invisible(_) => 6,
        AttributeChange::Foreground(_) => 7,
        AttributeChange::Background(_) => 8,
        AttributeChange::Hyperlink(_) => 9,
    }
}

/// Appends a change of one attribute.
pub(super) fn put_attribute_change(
    out: &mut Vec<u8>,
    value: &AttributeChange,
) -> Result<(), AllocError>
    ensures written { OnOk result (out.new.items
        ≡ out.old.items ++ attribute_change (attribute_change_value value.now)) }
    ensures kept { Extends out.old.items out.new.items }
    ensures form { OnOk result (IsAttributeChange (attribute_change_value value.now)) }
{
    put_kind(out, attribute_kind(value))?;
    put_attribute_value(out, value)
}

#[tactic(auto, unfolding(crate::specs::Encoding::attribute_value))]
fn put_attribute_value(out: &mut Vec<u8>, value: &AttributeChange) -> Result<(), AllocError>
    ensures written { OnOk result (out.new.items
        ≡ out.old.items ++ attribute_value (attribute_change_value value.now)) }
    ensures kept { Extends out.old.items out.new.items }
    ensures form { OnOk result (IsAttributeChange (attribute_change_value value.now)) }
{
    match value {
        AttributeChange::Intensity(value) => put_unsigned(out, value.number() as usize),
        AttributeChange::Underline(value) => put_unsigned(out, value.number() as usize),
        AttributeChange::Italic(on) => put_bool(out, *on),
        AttributeChange::Blink(value) => put_unsigned(out, value.number() as usize),
        AttributeChange::Reverse(on) => put_bool(out, *on),
        AttributeChange::StrikeThrough(on) => put_bool(out, *on),
        AttributeChange::Invisible(on) => put_bool(out, *on),
        AttributeChange::Foreground(color) => put_color(out, *color),
        AttributeChange::Background(color) => put_color(out, *color),
        AttributeChange::Hyperlink(target) => put_optional_link(out, target),
    }
}
