//! Changes.
ghost use Rattle.std.specs.Prelude.{◌≡◌, ◌-◌, ◌<◌, ◌≤◌, ◌^◌, ◌++◌, false, length, map, true};
ghost use Rattle.std.specs.Prelude.{IfOk, OnOk};
ghost use Rattle.cbor.specs.Encoding.{Extends, IsText, array, boolean, text, unsigned};
ghost use Rattle.termwiz_cell.specs.AttributeChangeValue.{attribute_change_value};
ghost use Rattle.termwiz_cell.specs.ChangeValue.{change_value};
ghost use Rattle.termwiz_cell.specs.Measure.{measure};
ghost use Rattle.termwiz_wire.specs.Forms.{AreAttributes, AreChanges, IsAttributeChange, IsChange};
ghost use Rattle.termwiz_wire.specs.Forms.{IsColor, IsPosition, IsScroll};
ghost use Rattle.termwiz_wire.specs.Encoding.{attribute_change, attributes, change, change_count};
ghost use Rattle.termwiz_wire.specs.Encoding.{changes, color, position, scroll};

use super::attributes::{put_attribute_change, put_attributes};
use super::small::{is_visible, put_color, put_kind, put_position};
use super::texts::put_printed;
use cbor::{put_array, put_bool, put_text, put_unsigned};
use std::alloc::AllocError;
use termwiz_cell::cell::{AttributeChange, CellAttributes};
use termwiz_cell::change::{Change, Position};
use termwiz_cell::color::ColorAttribute;
use termwiz_cell::emoji::Widths;

/// Appends a change to the bytes, its text cut and measured by this width value. It fails where
/// memory is refused, and then some of the change may follow what the bytes began with.
#[tactic(auto, unfolding(crate::specs::Encoding::change_values))]
pub fn encode_change<W: Widths>(
    out: &mut Vec<u8>,
    widths: &W,
    value: &Change,
) -> Result<(), AllocError>
    ensures written { OnOk result (out.new.items
        ≡ out.old.items ++ change (measure W.width_of widths.now) (change_value value.now)) }
    // After an error too, the bytes begin with what they began with.
    ensures kept { Extends out.old.items out.new.items }
    // What is appended can be decoded again.
    ensures form { OnOk result (IsChange (measure W.width_of widths.now) (change_value value.now)) }
{
    match value {
        Change::Attribute(change) => put_change_of(out, change),
        Change::AllAttributes(attrs) => put_all(out, attrs),
        Change::Text(text) => put_printed(out, widths, text.as_str()),
        Change::ClearScreen(color) => put_colored(out, 3, color),
        Change::ClearToEndOfLine(color) => put_colored(out, 4, color),
        Change::ClearToEndOfScreen(color) => put_colored(out, 5, color),
        Change::CursorPosition { x, y } => put_place(out, *x, *y),
        Change::CursorColor(color) => put_colored(out, 7, color),
        Change::CursorShape(shape) => put_number(out, 8, shape.number() as usize),
        Change::CursorVisibility(visibility) => put_visible(out, is_visible(*visibility)),
        Change::ScrollRegionUp {
            first_row,
            region_size,
            scroll_count,
        } => put_scroll(out, 10, *first_row, *region_size, *scroll_count),
        Change::ScrollRegionDown {
            first_row,
            region_size,
            scroll_count,
        } => put_scroll(out, 11, *first_row, *region_size, *scroll_count),
        Change::Title(title) => put_title(out, title.as_str()),
        Change::LineAttribute(line) => put_number(out, 13, line.number() as usize),
    }
}

// Appends a change of one attribute.
fn put_change_of(out: &mut Vec<u8>, value: &AttributeChange) -> Result<(), AllocError>
    ensures written { OnOk result (out.new.items ≡ out.old.items ++ array 2 ++ unsigned 0
        ++ attribute_change (attribute_change_value value.now)) }
    ensures kept { Extends out.old.items out.new.items }
    ensures form { OnOk result (IsAttributeChange (attribute_change_value value.now)) }
{
    put_kind(out, 0)?;
    put_attribute_change(out, value)
}

// Appends a change of all attributes.
fn put_all(out: &mut Vec<u8>, attrs: &CellAttributes) -> Result<(), AllocError>
    ensures written { OnOk result
        (out.new.items ≡ out.old.items ++ array 2 ++ unsigned 1 ++ attributes attrs.now) }
    ensures kept { Extends out.old.items out.new.items }
    ensures form { OnOk result (AreAttributes attrs.now) }
{
    put_kind(out, 1)?;
    put_attributes(out, attrs)
}

// Appends a change of this kind that has a colour. It is out of line, so that no place for a colour
// is zeroed on the path of texts and pens.
#[inline(never)]
fn put_colored(out: &mut Vec<u8>, kind: usize, value: &ColorAttribute) -> Result<(), AllocError>
    ensures written { OnOk result
        (out.new.items ≡ out.old.items ++ array 2 ++ unsigned kind ++ color value.now) }
    ensures kept { Extends out.old.items out.new.items }
    ensures form { OnOk result (IsColor value.now) }
{
    put_kind(out, kind)?;
    put_color(out, *value)
}

// Appends a move of the cursor.
fn put_place(out: &mut Vec<u8>, x: Position, y: Position) -> Result<(), AllocError>
    ensures written { OnOk result (out.new.items
        ≡ out.old.items ++ array 3 ++ unsigned 6 ++ (position x ++ position y)) }
    ensures kept { Extends out.old.items out.new.items }
    ensures form_x { IsPosition x }
    ensures form_y { IsPosition y }
{
    put_array(out, 3)?;
    put_unsigned(out, 6)?;
    put_position(out, x)?;
    put_position(out, y)
}

// Appends a change of this kind that has a number.
fn put_number(out: &mut Vec<u8>, kind: usize, number: usize) -> Result<(), AllocError>
    ensures written { OnOk result
        (out.new.items ≡ out.old.items ++ array 2 ++ unsigned kind ++ unsigned number) }
    ensures kept { Extends out.old.items out.new.items }
{
    put_kind(out, kind)?;
    put_unsigned(out, number)
}

// Appends a change that shows or hides the cursor.
fn put_visible(out: &mut Vec<u8>, visible: bool) -> Result<(), AllocError>
    ensures written { OnOk result
        (out.new.items ≡ out.old.items ++ array 2 ++ unsigned 9 ++ boolean visible) }
    ensures kept { Extends out.old.items out.new.items }
{
    put_kind(out, 9)?;
    put_bool(out, visible)
}

// Appends a scroll of this kind.
#[tactic(auto, unfolding(crate::specs::Encoding::scroll))]
fn put_scroll(
    out: &mut Vec<u8>,
    kind: usize,
    first: usize,
    size: usize,
    count: usize,
) -> Result<(), AllocError>
    ensures written { OnOk result (out.new.items
        ≡ out.old.items ++ array 4 ++ unsigned kind ++ scroll first size count) }
    ensures kept { Extends out.old.items out.new.items }
    ensures form { IsScroll first size count }
{
    put_array(out, 4)?;
    put_unsigned(out, kind)?;
    put_unsigned(out, first)?;
    put_unsigned(out, size)?;
    put_unsigned(out, count)
}

// Appends a change of the title.
fn put_title(out: &mut Vec<u8>, title: &str) -> Result<(), AllocError>
    ensures written { OnOk result
        (out.new.items ≡ out.old.items ++ array 2 ++ unsigned 12 ++ text title.now) }
    ensures kept { Extends out.old.items out.new.items }
    ensures form { OnOk result (IsText title.now) }
{
    put_kind(out, 12)?;
    put_text(out, title)
}

/// How many items a change of this kind has, with the kind and without pieces.
pub(crate) fn change_count(kind: usize) -> usize
    ensures { result ≡ change_count kind }
{
    match kind {
        6 => 3,
        10 => 4,
        11 => 4,
        _ => 2,
    }
}

/// Appends a list of changes to the bytes, their texts cut and measured by this width value. It
/// fails where memory is refused, and then some of the list may follow what the bytes began
/// with.
#[tactic(auto, unfolding(crate::specs::Encoding::changes))]
pub fn encode_changes<W: Widths>(
    out: &mut Vec<u8>,
    widths: &W,
    values: &[Change],
) -> Result<(), AllocError>
    ensures written { OnOk result (out.new.items
        ≡ out.old.items ++ changes (measure W.width_of widths.now) (map change_value values.now)) }
    // After an error too, the bytes begin with what they began with.
    ensures kept { Extends out.old.items out.new.items }
    // What is appended can be decoded again.
    ensures form { OnOk result
        (AreChanges (measure W.width_of widths.now) (map change_value values.now)) }
{
    let count = values.len();
    put_array(out, count)?;
    for value in values {
        encode_change(out, widths, value)?;
    }
    Ok(())
}

/// Appends a list of changes as `encode_changes` does, up to the one with which the bytes are more
/// than `end`, and returns whether there is none.
#[tactic(auto, unfolding(crate::specs::Encoding::changes))]
pub(super) fn encode_changes_within<W: Widths>(
    out: &mut Vec<u8>,
    widths: &W,
    values: &[Change],
    end: usize,
) -> Result<bool, AllocError>
    ensures whole { IfOk result (λ within. within ≡ true → (out.new.items ≡ out.old.items
        ++ changes (measure W.width_of widths.now) (map change_value values.now))
        × (length out.new.items ≤ end)) }
    ensures past { IfOk result (λ within. within ≡ false → (end < 2 ^ 64 - 1)
        × (end < length (out.old.items
        ++ changes (measure W.width_of widths.now) (map change_value values.now)))) }
    ensures kept { Extends out.old.items out.new.items }
    ensures form { IfOk result (λ within. within ≡ true →
        AreChanges (measure W.width_of widths.now) (map change_value values.now)) }
{
    let count = values.len();
    put_array(out, count)?;
    for value in values {
        if out.len() > end {
            return Ok(false);
        }
        encode_change(out, widths, value)?;
    }
    Ok(out.len() <= end)
}
