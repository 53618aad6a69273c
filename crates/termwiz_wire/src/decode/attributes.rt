//! Attributes, and changes of one attribute.
ghost use Rattle.std.specs.Prelude.{◌≡◌, IfOk, true};
ghost use Rattle.cbor.specs.Decoding.{Gives, allowed};
ghost use Rattle.termwiz_cell.specs.AttributeChangeValue.{attribute_change_value};
ghost use Rattle.termwiz_cell.specs.Link.{linked};
ghost use Rattle.termwiz_wire.specs.CutLinks.{before_link_at, link_alone_at};
ghost use Rattle.termwiz_wire.specs.Decoding.{are_small, attribute_change_at, attributes_at};
ghost use Rattle.termwiz_wire.specs.Decoding.{split, styled};
ghost use Rattle.termwiz_wire.specs.Encoding.{fields};

use super::links::optional_link_of;
use super::small::{color_of, style_of, styled, which_of};
use cbor::{ReadError, Reader};
use std::alloc::{AllocError, Global};
use std::rc::Rc;
use termwiz_cell::cell::{AttributeChange, Blink, CellAttributes, Intensity, Underline};
use termwiz_cell::color::ColorAttribute;
use termwiz_cell::hyperlink::Hyperlink;

/// Decodes all attributes.
#[tactic(auto, unfolding(crate::specs::Decoding::attributes_at))]
pub(super) fn attributes_of(
    alloc: Global,
    reader: &mut Reader<'_>,
) -> Result<CellAttributes, ReadError>
    ensures value { Gives (allowed reader.new.room reader.new.bytes.now)
        (λ x. (x, reader.new.bytes.now)) result
        (attributes_at reader.old.room reader.old.bytes.now) }
    ensures room { reader.new.room ≡ reader.old.room }
{
    reader.array_of(5)?;
    let number = style_of(reader)?;
    let foreground = color_of(reader)?;
    let background = color_of(reader)?;
    let underline = color_of(reader)?;
    let link = optional_link_of(alloc, reader)?;
    let attrs = colored(alloc, number, foreground, background, underline, link)?;
    Ok(attrs)
}

/// Decodes the attributes before a link.
#[tactic(auto, unfolding(crate::specs::CutLinks::before_link_at))]
pub(super) fn before_link_of(
    alloc: Global,
    reader: &mut Reader<'_>,
) -> Result<CellAttributes, ReadError>
    ensures value { Gives (allowed reader.new.room reader.new.bytes.now)
        (λ x. (Some x, reader.new.bytes.now)) result
        (before_link_at reader.old.room reader.old.bytes.now) }
    ensures room { reader.new.room ≡ reader.old.room }
{
    reader.array_of(5)?;
    let number = style_of(reader)?;
    let foreground = color_of(reader)?;
    let background = color_of(reader)?;
    let underline = color_of(reader)?;
    let attrs = colored(alloc, number, foreground, background, underline, None)?;
    Ok(attrs)
}

// The attributes with the small ones of this number, these colours and this link. Most pens have
// one colour or none: what is default isn't set.
fn colored(
    alloc: Global,
    number: usize,
    foreground: ColorAttribute,
    background: ColorAttribute,
    underline: ColorAttribute,
    link: Option<Rc<Hyperlink>>,
) -> Result<CellAttributes, AllocError>
    requires { are_small (split fields number) ≡ true }
    ensures { IfOk result (λ made. made ≡ record (styled number) {
      foreground = foreground;
      background = background;
      underline_color = underline;
      hyperlink = linked link;
    }) }
{
    let mut attrs = styled(number);
    if !matches!(foreground, ColorAttribute::Default) {
        attrs.change_foreground(alloc, foreground)?;
    }
    if !matches!(background, ColorAttribute::Default) {
        attrs.change_background(alloc, background)?;
    }
    if !matches!(underline, ColorAttribute::Default) {
        attrs.change_underline_color(alloc, underline)?;
    }
    if link.is_some() {
        attrs.change_hyperlink(alloc, link)?;
    }
    Ok(attrs)
}

/// Decodes a change of one attribute.
#[tactic(auto, unfolding(crate::specs::Decoding::attribute_change_at))]
pub(super) fn attribute_change_of(
    alloc: Global,
    reader: &mut Reader<'_>,
) -> Result<AttributeChange, ReadError>
    ensures value { Gives (allowed reader.new.room reader.new.bytes.now)
        (λ x. (attribute_change_value x, reader.new.bytes.now)) result
        (attribute_change_at reader.old.room reader.old.bytes.now) }
    ensures room { reader.new.room ≡ reader.old.room }
{
    reader.array_of(2)?;
    let change = match which_of(reader, 10)? {
        0 => AttributeChange::Intensity(Intensity::try_from(reader.below(3)? as u8).unwrap()),
        1 => AttributeChange::Underline(Underline::try_from(reader.below(6)? as u8).unwrap()),
        2 => AttributeChange::Italic(reader.boolean()?),
        3 => AttributeChange::Blink(Blink::try_from(reader.below(3)? as u8).unwrap()),
        4 => AttributeChange::Reverse(reader.boolean()?),
        5 => AttributeChange::StrikeThrough(reader.boolean()?),
        6 => AttributeChange::Invisible(reader.boolean()?),
        7 => AttributeChange::Foreground(color_of(reader)?),
        8 => AttributeChange::Background(color_of(reader)?),
        9 => AttributeChange::Hyperlink(optional_link_of(alloc, reader)?),
        _ => return Err(ReadError::Type),
    };
    Ok(change)
}

/// Decodes the head of a change of one attribute that is a link.
#[tactic(auto, unfolding(crate::specs::CutLinks::link_alone_at))]
pub(super) fn link_alone_of(reader: &mut Reader<'_>) -> Result<(), ReadError>
    ensures value { Gives (allowed reader.new.room reader.new.bytes.now)
        (λ _. (None, reader.new.bytes.now)) result
        (link_alone_at reader.old.room reader.old.bytes.now) }
    ensures room { reader.new.room ≡ reader.old.room }
{
    reader.array_of(2)?;
    match which_of(reader, 10)? {
        9 => Ok(()),
        _ => Err(ReadError::Type),
    }
}
