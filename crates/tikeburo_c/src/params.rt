//! The params of links, one by one.
ghost use Rattle.std.specs.Prelude.{◌≡◌, Some, option_map, slice_get};
ghost use Rattle.tikeburo_c.specs.Cells.{cell_in};
ghost use Rattle.tikeburo_c.specs.Handles.{handle_value};
ghost use Rattle.tikeburo_c.specs.Outcomes.{Reports};
ghost use Rattle.tikeburo_c.specs.Params as params;
ghost use Rattle.tikeburo_c.specs.Params.{GivesBoth, GivesCellParam, GivesParam, ParamPlace};
ghost use Rattle.tikeburo_c.specs.Params.{lent_param};
ghost use Rattle.tikeburo_c.specs.Results.{ReadsInto};

use crate::cells::cell_at;
use crate::failure::{Failure, status};
use crate::handle::Handle;
use crate::kept::Kept;
use crate::rows::put_front;
use std::alloc::Global;
use termwiz_surface::{Cell, CellAttributes, Hyperlink};

fn param_in(link: &Hyperlink, index: usize) -> Option<(&str, &str)>
    ensures { option_map lent_param result ≡ slice_get link.now.params index }
{
    let (key, value) = link.params().iter().nth(index)?;
    Some((key.as_str(), value.as_str()))
}

// The param at this index of the attributes' link, if there is one.
fn param_at(attrs: &CellAttributes, index: usize) -> Option<(&str, &str)>
    ensures { option_map lent_param result ≡ params.link_param_at index attrs.now.hyperlink }
{
    match attrs.hyperlink() {
        Some(link) => param_in(link, index),
        None => None,
    }
}

fn give_both(
    key: &str,
    value: &str,
    key_room: &mut [u8],
    key_len: &mut usize,
    value_room: &mut [u8],
    value_len: &mut usize,
) -> Result<(), Failure>
    ensures { GivesBoth (key.now, value.now)
        ((key_room.old, key_len.old), (value_room.old, value_len.old)) result
        ((key_room.new, key_len.new), (value_room.new, value_len.new)) }
{
    *key_len = key.len();
    *value_len = value.len();
    if key.len() > key_room.len() || value.len() > value_room.len() {
        return Err(Failure::Short);
    }
    put_front(key.as_bytes(), key_room);
    put_front(value.as_bytes(), value_room);
    Ok(())
}

fn give_param(
    attrs: &CellAttributes,
    index: usize,
    key: &mut [u8],
    key_len: &mut usize,
    value: &mut [u8],
    value_len: &mut usize,
) -> Result<(), Failure>
    ensures { GivesParam (params.link_param_at index attrs.now.hyperlink)
        ((key.old, key_len.old), (value.old, value_len.old)) result
        ((key.new, key_len.new), (value.new, value_len.new)) }
{
    match param_at(attrs, index) {
        Some((own_key, own_value)) => {
            give_both(own_key, own_value, key, key_len, value, value_len)
        }
        None => Err(Failure::Range),
    }
}

fn give_pen_param(
    kept: &Kept,
    index: usize,
    key: &mut [u8],
    key_len: &mut usize,
    value: &mut [u8],
    value_len: &mut usize,
) -> Result<(), Failure>
    ensures { ReadsInto {B = ParamPlace}
        (λ s. GivesParam (params.link_param_at index s.pen.hyperlink))
        (Some kept.now) ((key.old, key_len.old), (value.old, value_len.old)) result
        ((key.new, key_len.new), (value.new, value_len.new)) }
{
    let surface = kept.shown()?;
    give_param(surface.pen(), index, key, key_len, value, value_len)
}

/// A param of the pen's link: its key and its value.
#[unsafe(no_mangle)]
pub extern "C" fn tk_pen_link_param(
    alloc: Global,
    handle: &mut Handle,
    index: usize,
    key: &mut [u8],
    key_len: &mut usize,
    value: &mut [u8],
    value_len: &mut usize,
) -> i32
    ensures read { Reports result (λ outcome.
        ReadsInto {B = ParamPlace} (λ s. GivesParam (params.link_param_at index s.pen.hyperlink))
        (handle_value handle.old) ((key.old, key_len.old), (value.old, value_len.old))
        outcome ((key.new, key_len.new), (value.new, value_len.new))) }
    ensures same { handle_value handle.new ≡ handle_value handle.old }
{
    let outcome = match handle.take(alloc) {
        Some(kept) => {
            let outcome = give_pen_param(&kept, index, key, key_len, value, value_len);
            handle.put(alloc, kept);
            outcome
        }
        None => Err(Failure::NoHandle),
    };
    status(outcome)
}

fn give_cell_param(
    kept: &Kept,
    column: usize,
    row: usize,
    index: usize,
    key: &mut [u8],
    key_len: &mut usize,
    value: &mut [u8],
    value_len: &mut usize,
) -> Result<(), Failure>
    ensures { ReadsInto {B = ParamPlace} (λ s. GivesCellParam index (cell_in column row s))
        (Some kept.now) ((key.old, key_len.old), (value.old, value_len.old)) result
        ((key.new, key_len.new), (value.new, value_len.new)) }
{
    let blank = Cell::blank();
    let surface = kept.shown()?;
    let cell = cell_at(surface, column, row, &blank)?;
    give_param(cell.attrs(), index, key, key_len, value, value_len)
}

/// A param of the link that the cell at a column of a row has: its key and its value.
#[unsafe(no_mangle)]
pub extern "C" fn tk_link_param_at(
    alloc: Global,
    handle: &mut Handle,
    column: usize,
    row: usize,
    index: usize,
    key: &mut [u8],
    key_len: &mut usize,
    value: &mut [u8],
    value_len: &mut usize,
) -> i32
    ensures read { Reports result (λ outcome.
        ReadsInto {B = ParamPlace} (λ s. GivesCellParam index (cell_in column row s))
        (handle_value handle.old) ((key.old, key_len.old), (value.old, value_len.old))
        outcome ((key.new, key_len.new), (value.new, value_len.new))) }
    ensures same { handle_value handle.new ≡ handle_value handle.old }
{
    let outcome = match handle.take(alloc) {
        Some(kept) => {
            let outcome = give_cell_param(
                &kept, column, row, index, key, key_len, value, value_len,
            );
            handle.put(alloc, kept);
            outcome
        }
        None => Err(Failure::NoHandle),
    };
    status(outcome)
}
