//! Lists of changes, as structs.
ghost use Rattle.std.specs.Prelude.{◌≡◌, ◌≤◌, ◌⊎◌, ◌++◌, ◌∷◌, [], Err, IfErr, IfOk, None, Ok, OnOk};
ghost use Rattle.std.specs.Prelude.{Some, map};
ghost use Rattle.termwiz_cell.specs.declared.change.Change.{Change};
ghost use Rattle.termwiz_cell.specs.AttributeChangeValue.{attribute_change_value};
ghost use Rattle.termwiz_cell.specs.ChangeValue.{change_value};
ghost use Rattle.tikeburo_c.specs.Fields as colors;
ghost use Rattle.tikeburo_c.specs.Lists as listed;
ghost use Rattle.tikeburo_c.specs.declared.failure.Failure.TheVariants.{Memory, Range};

use crate::failure::Failure;
use crate::fields::{AttributeFields, ColorFields, attributes_in, color_in, in_range};
use crate::reading::visibility_of;
use simdutf8::basic::from_utf8;
use std::alloc::Global;
use std::rc::Rc;
use termwiz_surface::cell::{Blink, Intensity, Underline};
use termwiz_surface::change::LineAttribute;
use termwiz_surface::{
    AttributeChange, CellAttributes, Change, ColorAttribute, CursorShape, Hyperlink, Position,
};

/// A change. What its kind doesn't name is not read.
#[repr(C)]
#[derive(Clone, Copy)]
pub struct ChangeFields {
    pub kind: u8,
    pub attributes: AttributeFields,
    pub first: usize,
    pub second: usize,
    pub third: usize,
}

/// What a change is, and what of its fields it names.
#[derive(Clone, Copy)]
pub(crate) enum Kind {
    Text,
    Title,
    Link,
    NoLink,
    Pen,
    Intensity,
    Underline,
    Blink,
    Italic,
    Reverse,
    Strikethrough,
    Invisible,
    Foreground,
    Background,
    Move,
    ClearScreen,
    ClearToEndOfLine,
    ClearToEndOfScreen,
    ScrollUp,
    ScrollDown,
    CursorVisibility,
    CursorShape,
    CursorColor,
    LineAttribute,
}

pub(crate) fn kind_in(number: u8) -> Result<Kind, Failure>
    ensures found { IfOk result (λ kind. listed.change_kind_in number ≡ Some kind) }
    ensures missing { IfErr result (λ failure.
        (failure ≡ Range) × (listed.change_kind_in number ≡ None)) }
{
    match number {
        0 => Ok(Kind::Text),
        1 => Ok(Kind::Title),
        2 => Ok(Kind::Link),
        3 => Ok(Kind::NoLink),
        4 => Ok(Kind::Pen),
        5 => Ok(Kind::Intensity),
        6 => Ok(Kind::Underline),
        7 => Ok(Kind::Blink),
        8 => Ok(Kind::Italic),
        9 => Ok(Kind::Reverse),
        10 => Ok(Kind::Strikethrough),
        11 => Ok(Kind::Invisible),
        12 => Ok(Kind::Foreground),
        13 => Ok(Kind::Background),
        14 => Ok(Kind::Move),
        15 => Ok(Kind::ClearScreen),
        16 => Ok(Kind::ClearToEndOfLine),
        17 => Ok(Kind::ClearToEndOfScreen),
        18 => Ok(Kind::ScrollUp),
        19 => Ok(Kind::ScrollDown),
        20 => Ok(Kind::CursorVisibility),
        21 => Ok(Kind::CursorShape),
        22 => Ok(Kind::CursorColor),
        23 => Ok(Kind::LineAttribute),
        _ => Err(Failure::Range),
    }
}

// How many bytes of the list's texts are the change's own.
pub(crate) fn text_len(kind: Kind, fields: &ChangeFields) -> usize
    ensures { result ≡ listed.text_len kind fields.now }
{
    match kind {
        Kind::Text | Kind::Title | Kind::Link | Kind::Pen => fields.first,
        _ => 0,
    }
}

/// The text that these bytes are.
#[tactic(auto, using(crate::proofs::Listed::text_read, crate::proofs::Listed::no_text))]
pub(crate) fn text_in(bytes: &[u8]) -> Result<&str, Failure>
    ensures found { IfOk result (λ text. listed.readable_text bytes.now ≡ Ok text.now) }
    ensures missing { IfErr result (λ failure. listed.readable_text bytes.now ≡ Err failure) }
{
    match from_utf8(bytes) {
        Ok(text) => Ok(text),
        Err(_) => Err(Failure::Unreadable),
    }
}

fn link_to(alloc: Global, uri: &str) -> Result<Rc<Hyperlink>, Failure>
    ensures found { IfOk result (λ link. link.value ≡ listed.link_to uri.now) }
    ensures missing { IfErr result (λ failure. failure ≡ Memory) }
{
    let uri = String::from_str(alloc, uri)?;
    Ok(Rc::new(alloc, Hyperlink::new(alloc, uri))?)
}

fn link_with_id(alloc: Global, uri: &str, id: &str) -> Result<Rc<Hyperlink>, Failure>
    ensures found { IfOk result (λ link. link.value ≡ listed.link_with_id uri.now id.now) }
    ensures missing { IfErr result (λ failure. failure ≡ Memory) }
{
    let uri = String::from_str(alloc, uri)?;
    let id = String::from_str(alloc, id)?;
    Ok(Rc::new(alloc, Hyperlink::new_with_id(alloc, uri, id)?)?)
}

// The link that a text is, whose last `id_len` bytes are the id.
fn link_in(alloc: Global, id_len: usize, text: &[u8]) -> Result<Rc<Hyperlink>, Failure>
    ensures found { IfOk result (λ link. listed.link_in id_len text.now ≡ Ok link.value) }
    ensures missing { IfErr result (λ failure. (failure ≡ Memory)
        ⊎ (listed.link_in id_len text.now ≡ Err failure)) }
{
    if id_len == 0 {
        return link_to(alloc, text_in(text)?);
    }
    if text.len() < id_len {
        return Err(Failure::Range);
    }
    let (uri, id) = text.split_at(text.len() - id_len);
    link_with_id(alloc, text_in(uri)?, text_in(id)?)
}

// A pen with the link that its text is.
#[inline(never)]
fn linked_pen_in(
    alloc: Global,
    fields: &ChangeFields,
    text: &[u8],
) -> Result<CellAttributes, Failure>
    ensures found { IfOk result (λ pen. listed.linked_pen_in fields.now text.now ≡ Ok pen) }
    ensures missing { IfErr result (λ failure. (failure ≡ Memory)
        ⊎ (listed.linked_pen_in fields.now text.now ≡ Err failure)) }
{
    let mut pen = attributes_in(alloc, &fields.attributes)?;
    let link = link_in(alloc, fields.second, text)?;
    pen.change_hyperlink(alloc, Some(link))?;
    Ok(pen)
}

/// A pen, with the link that its text is where it has one. Most have none, which is seen at once.
#[inline(always)]
pub(crate) fn pen_in(
    alloc: Global,
    fields: &ChangeFields,
    text: &[u8],
) -> Result<CellAttributes, Failure>
    ensures found { IfOk result (λ pen. listed.pen_in fields.now text.now ≡ Ok pen) }
    ensures missing { IfErr result (λ failure. (failure ≡ Memory)
        ⊎ (listed.pen_in fields.now text.now ≡ Err failure)) }
{
    if text.is_empty() && fields.second == 0 {
        return attributes_in(alloc, &fields.attributes);
    }
    linked_pen_in(alloc, fields, text)
}

pub(crate) fn color_of(fields: &ColorFields) -> Result<ColorAttribute, Failure>
    ensures found { IfOk result (λ color. colors.color_in fields.now ≡ Some color) }
    ensures missing { IfErr result (λ failure.
        (failure ≡ Range) × (colors.color_in fields.now ≡ None)) }
{
    in_range(color_in(fields))
}

fn background_of(fields: &ChangeFields) -> Result<ColorAttribute, Failure>
    ensures found { IfOk result (λ color.
        colors.color_in fields.now.attributes.background ≡ Some color) }
    ensures missing { IfErr result (λ failure. (failure ≡ Range)
        × (colors.color_in fields.now.attributes.background ≡ None)) }
{
    color_of(&fields.attributes.background)
}

fn small(number: usize) -> Result<u8, Failure>
    ensures found { IfOk result (λ small. small ≡ number) }
    ensures missing { IfErr result (λ failure. (failure ≡ Range) × (256 ≤ number)) }
{
    if number < 256 {
        Ok(number as u8)
    } else {
        Err(Failure::Range)
    }
}

// A column or a row: counted from the first one, from the cursor, or from the end.
fn position_in(from: usize, number: usize) -> Result<Position, Failure>
    ensures found { IfOk result (λ position. listed.position_in from number ≡ Some position) }
    ensures missing { IfErr result (λ failure.
        (failure ≡ Range) × (listed.position_in from number ≡ None)) }
{
    match from {
        0 => Ok(Position::Absolute(number)),
        1 => Ok(Position::Relative(number.cast_signed())),
        2 => Ok(Position::EndRelative(number)),
        _ => Err(Failure::Range),
    }
}

// A change of one attribute.
fn attribute_in(kind: Kind, fields: &AttributeFields) -> Result<AttributeChange, Failure>
    ensures found { IfOk result (λ change.
        listed.attribute_in kind fields.now ≡ Some (attribute_change_value change)) }
    ensures missing { IfErr result (λ failure.
        (failure ≡ Range) × (listed.attribute_in kind fields.now ≡ None)) }
{
    let change = match kind {
        Kind::NoLink => AttributeChange::Hyperlink(None),
        Kind::Intensity => AttributeChange::Intensity(Intensity::try_from(fields.intensity)?),
        Kind::Underline => AttributeChange::Underline(Underline::try_from(fields.underline)?),
        Kind::Blink => AttributeChange::Blink(Blink::try_from(fields.blink)?),
        Kind::Italic => AttributeChange::Italic(fields.italic),
        Kind::Reverse => AttributeChange::Reverse(fields.reverse),
        Kind::Strikethrough => AttributeChange::StrikeThrough(fields.strikethrough),
        Kind::Invisible => AttributeChange::Invisible(fields.invisible),
        Kind::Foreground => AttributeChange::Foreground(color_of(&fields.foreground)?),
        Kind::Background => AttributeChange::Background(color_of(&fields.background)?),
        _ => return Err(Failure::Range),
    };
    Ok(change)
}

pub(crate) fn change_in(
    alloc: Global,
    kind: Kind,
    f: &ChangeFields,
    text: &[u8],
) -> Result<Change, Failure>
    ensures found { IfOk result (λ change.
        listed.change_in kind f.now text.now ≡ Ok (change_value change)) }
    ensures missing { IfErr result (λ failure. (failure ≡ Memory)
        ⊎ (listed.change_in kind f.now text.now ≡ Err failure)) }
{
    match kind {
        Kind::Text => Ok(Change::text_from(alloc, text_in(text)?)?),
        Kind::Title => Ok(Change::Title(String::from_str(alloc, text_in(text)?)?)),
        Kind::Link => {
            let link = link_in(alloc, f.second, text)?;
            Ok(Change::Attribute(AttributeChange::Hyperlink(Some(link))))
        }
        Kind::Pen => Ok(Change::AllAttributes(pen_in(alloc, f, text)?)),
        Kind::Move => Ok(Change::CursorPosition {
            x: position_in(f.third % 4, f.first)?,
            y: position_in(f.third / 4, f.second)?,
        }),
        Kind::ClearScreen => Ok(Change::ClearScreen(background_of(f)?)),
        Kind::ClearToEndOfLine => Ok(Change::ClearToEndOfLine(background_of(f)?)),
        Kind::ClearToEndOfScreen => Ok(Change::ClearToEndOfScreen(background_of(f)?)),
        Kind::ScrollUp => Ok(Change::ScrollRegionUp {
            first_row: f.first,
            region_size: f.second,
            scroll_count: f.third,
        }),
        Kind::ScrollDown => Ok(Change::ScrollRegionDown {
            first_row: f.first,
            region_size: f.second,
            scroll_count: f.third,
        }),
        Kind::CursorVisibility => Ok(Change::CursorVisibility(visibility_of(f.first != 0))),
        Kind::CursorShape => Ok(Change::CursorShape(CursorShape::try_from(small(f.first)?)?)),
        Kind::CursorColor => Ok(Change::CursorColor(color_of(&f.attributes.foreground)?)),
        Kind::LineAttribute => {
            let attribute = LineAttribute::try_from(small(f.first)?)?;
            Ok(Change::LineAttribute(attribute))
        }
        _ => Ok(Change::Attribute(attribute_in(kind, &f.attributes)?)),
    }
}

// Appends the change that `change_in` returns: a text, a pen or a colour of texts without that
// call, since most are one.
#[inline(always)]
fn push_change(
    alloc: Global,
    kind: Kind,
    fields: &ChangeFields,
    text: &[u8],
    changes: &mut Vec<Change>,
) -> Result<(), Failure>
    ensures found { OnOk result ((made : Change)
        × (listed.change_in kind fields.now text.now ≡ Ok (change_value made))
        × (changes.new.items ≡ changes.old.items ++ made ∷ [])) }
    ensures missing { IfErr result (λ failure. (failure ≡ Memory)
        ⊎ (listed.change_in kind fields.now text.now ≡ Err failure)) }
{
    match kind {
        Kind::Text => {
            let text = Change::text_from(alloc, text_in(text)?)?;
            changes.push(text)?;
        }
        Kind::Pen => {
            let pen = pen_in(alloc, fields, text)?;
            changes.push(Change::AllAttributes(pen))?;
        }
        Kind::Foreground => {
            let color = color_of(&fields.attributes.foreground)?;
            changes.push(Change::Attribute(AttributeChange::Foreground(color)))?;
        }
        _ => {
            let change = change_in(alloc, kind, fields, text)?;
            changes.push(change)?;
        }
    }
    Ok(())
}

// Appends the first change of a list, and returns the texts of the others.
#[inline(always)]
fn push_first<'a>(
    alloc: Global,
    fields: &ChangeFields,
    texts: &'a [u8],
    changes: &mut Vec<Change>,
) -> Result<&'a [u8], Failure>
    ensures found { IfOk result (λ others. (made : Change)
        × (listed.first_change_in fields.now texts.now ≡ Ok (change_value made, others.now))
        × (changes.new.items ≡ changes.old.items ++ made ∷ [])) }
    ensures missing { IfErr result (λ failure. (failure ≡ Memory)
        ⊎ (listed.first_change_in fields.now texts.now ≡ Err failure)) }
{
    let kind = kind_in(fields.kind)?;
    let len = text_len(kind, fields);
    if texts.len() < len {
        return Err(Failure::Range);
    }
    let (text, others) = texts.split_at(len);
    push_change(alloc, kind, fields, text, changes)?;
    Ok(others)
}

/// The changes of a list, whose texts follow one another.
#[inline(always)]
#[tactic(auto, using(crate::proofs::Listed::from_first))]
pub(crate) fn listed_in(
    alloc: Global,
    list: &[ChangeFields],
    texts: &[u8],
) -> Result<Vec<Change>, Failure>
    ensures found { IfOk result (λ changes.
        listed.listed_in list.now texts.now ≡ Ok (map change_value changes.items)) }
    ensures missing { IfErr result (λ failure. (failure ≡ Memory)
        ⊎ (listed.listed_in list.now texts.now ≡ Err failure)) }
{
    let mut changes = Vec::with_capacity(alloc, list.len())?;
    let mut rest = texts;
    for fields in list {
        let others = push_first(alloc, fields, rest, &mut changes)?;
        rest = others;
    }
    if !rest.is_empty() {
        return Err(Failure::Range);
    }
    Ok(changes)
}
