//! Changes of a surface, as lists of structs: the inverse of how lists are read.
ghost use Rattle.std.specs.Prelude.{◌≡◌, IfOk, map};
ghost use Rattle.termwiz_cell.specs.{attribute_change_value, change_value};
ghost use Rattle.tikeburo_c.specs.Cells.{uri_of};
ghost use Rattle.tikeburo_c.specs.Listing as listing;
ghost use Rattle.tikeburo_c.specs.Listing.{IsListOf, IsListable, IsPlace};

use crate::fields::{AttributeFields, attribute_fields, blank_fields, color_fields};
use crate::lists::ChangeFields;
use std::alloc::{AllocError, Global};
use termwiz_surface::{
    AttributeChange, CellAttributes, Change, ColorAttribute, CursorVisibility, Position,
};

fn plain() -> AttributeFields
    ensures { result ≡ listing.plain }
{
    blank_fields()
}

fn of_numbers(kind: u8, first: usize, second: usize, third: usize) -> ChangeFields
    ensures { result ≡ listing.of_numbers kind first second third }
{
    ChangeFields {
        kind,
        attributes: plain(),
        first,
        second,
        third,
    }
}

fn of_attributes(kind: u8, attributes: AttributeFields) -> ChangeFields
    ensures { result ≡ listing.of_attributes kind attributes }
{
    ChangeFields {
        kind,
        attributes,
        first: 0,
        second: 0,
        third: 0,
    }
}

fn of_background(kind: u8, color: ColorAttribute) -> ChangeFields
    ensures { result ≡ listing.of_background kind color }
{
    let mut attributes = plain();
    attributes.background = color_fields(color);
    of_attributes(kind, attributes)
}

fn of_foreground(kind: u8, color: ColorAttribute) -> ChangeFields
    ensures { result ≡ listing.of_foreground kind color }
{
    let mut attributes = plain();
    attributes.foreground = color_fields(color);
    of_attributes(kind, attributes)
}

// How a place is counted, and its number.
fn place(position: Position) -> (usize, usize)
    ensures from { result.0 ≡ listing.counted_from position }
    ensures number { result.1 ≡ listing.place position }
    ensures fits { IsPlace position }
{
    match position {
        Position::Absolute(number) => (0, number),
        Position::Relative(distance) => (1, distance.cast_unsigned()),
        Position::EndRelative(number) => (2, number),
    }
}

fn of_move(x: Position, y: Position) -> ChangeFields
    ensures fields { result ≡ listing.of_move x y }
    ensures column { IsPlace x }
    ensures row { IsPlace y }
{
    let (from, column) = place(x);
    let (row_from, row) = place(y);
    of_numbers(14, column, row, from + 4 * row_from)
}

fn shown_number(visibility: CursorVisibility) -> usize
    ensures { result ≡ listing.shown_number visibility }
{
    match visibility {
        CursorVisibility::Hidden => 0,
        CursorVisibility::Visible => 1,
    }
}

// The struct of a change of one attribute.
fn attribute_struct(change: &AttributeChange) -> ChangeFields
    ensures { result ≡ listing.attribute_struct (attribute_change_value change.now) }
{
    let mut attributes = plain();
    match change {
        AttributeChange::Intensity(value) => {
            attributes.intensity = value.number();
            of_attributes(5, attributes)
        }
        AttributeChange::Underline(value) => {
            attributes.underline = value.number();
            of_attributes(6, attributes)
        }
        AttributeChange::Blink(value) => {
            attributes.blink = value.number();
            of_attributes(7, attributes)
        }
        AttributeChange::Italic(is_on) => {
            attributes.italic = *is_on;
            of_attributes(8, attributes)
        }
        AttributeChange::Reverse(is_on) => {
            attributes.reverse = *is_on;
            of_attributes(9, attributes)
        }
        AttributeChange::StrikeThrough(is_on) => {
            attributes.strikethrough = *is_on;
            of_attributes(10, attributes)
        }
        AttributeChange::Invisible(is_on) => {
            attributes.invisible = *is_on;
            of_attributes(11, attributes)
        }
        AttributeChange::Foreground(color) => of_foreground(12, *color),
        AttributeChange::Background(color) => of_background(13, *color),
        AttributeChange::Hyperlink(Some(link)) => of_numbers(2, link.uri().len(), 0, 0),
        AttributeChange::Hyperlink(None) => of_numbers(3, 0, 0, 0),
    }
}

fn pen_struct(attrs: &CellAttributes) -> ChangeFields
    ensures { result ≡ listing.pen_struct attrs.now }
{
    ChangeFields {
        kind: 4,
        attributes: attribute_fields(attrs),
        first: uri_in(attrs).len(),
        second: 0,
        third: 0,
    }
}

fn uri_in(attrs: &CellAttributes) -> &str
    ensures { result.now ≡ uri_of attrs.now.hyperlink }
{
    match attrs.hyperlink() {
        Some(link) => link.uri(),
        None => "",
    }
}

// The struct of a change.
fn struct_of(change: &Change) -> ChangeFields
    ensures { result ≡ listing.struct_of (change_value change.now) }
{
    match change {
        Change::Text(text) => of_numbers(0, text.len(), 0, 0),
        Change::Title(title) => of_numbers(1, title.len(), 0, 0),
        Change::Attribute(change) => attribute_struct(change),
        Change::AllAttributes(attrs) => pen_struct(attrs),
        Change::CursorPosition { x, y } => of_move(*x, *y),
        Change::ClearScreen(color) => of_background(15, *color),
        Change::ClearToEndOfLine(color) => of_background(16, *color),
        Change::ClearToEndOfScreen(color) => of_background(17, *color),
        Change::ScrollRegionUp {
            first_row,
            region_size,
            scroll_count,
        } => of_numbers(18, *first_row, *region_size, *scroll_count),
        Change::ScrollRegionDown {
            first_row,
            region_size,
            scroll_count,
        } => of_numbers(19, *first_row, *region_size, *scroll_count),
        Change::CursorVisibility(visibility) => of_numbers(20, shown_number(*visibility), 0, 0),
        Change::CursorShape(shape) => of_numbers(21, usize::from(shape.number()), 0, 0),
        Change::CursorColor(color) => of_foreground(22, *color),
        Change::LineAttribute(attribute) => {
            of_numbers(23, usize::from(attribute.number()), 0, 0)
        }
    }
}

// The bytes of a list's texts that are the change's.
fn text_of(change: &Change) -> &str
    ensures text { result.now ≡ listing.text_of (change_value change.now) }
    ensures listable { IsListable (change_value change.now) }
{
    match change {
        Change::Text(text) => text.as_str(),
        Change::Title(title) => title.as_str(),
        Change::Attribute(AttributeChange::Hyperlink(Some(link))) => link.uri(),
        Change::AllAttributes(attrs) => uri_in(attrs),
        Change::CursorPosition { x, y } => no_text(*x, *y),
        _ => "",
    }
}

// The text of a move.
fn no_text(x: Position, y: Position) -> &'static str
    ensures text { result.now ≡ listing.no_text }
    ensures column { IsPlace x }
    ensures row { IsPlace y }
{
    let _column = place(x);
    let _row = place(y);
    ""
}

/// Changes as structs, and their texts, one after another.
#[derive(Drop)]
pub(crate) struct ChangeList {
    pub list: Vec<ChangeFields>,
    pub texts: Vec<u8>,
}

/// The list of these changes.
pub(crate) fn list_of(alloc: Global, changes: &[Change]) -> Result<ChangeList, AllocError>
    ensures { IfOk result (λ made.
        IsListOf (map change_value changes.now) made.list.items made.texts.items) }
{
    let mut list = Vec::with_capacity(alloc, changes.len())?;
    let mut texts = Vec::new(alloc);
    for change in changes {
        list.push(struct_of(change))?;
        texts.extend_from_slice(text_of(change).as_bytes())?;
    }
    Ok(ChangeList { list, texts })
}
