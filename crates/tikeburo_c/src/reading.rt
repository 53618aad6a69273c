//! What a surface, a viewer or a client shows.
ghost use Rattle.std.specs.Prelude.{◌≡◌, ℕ};
ghost use Rattle.termwiz_screen.specs.Log.{next_number};
ghost use Rattle.termwiz_wire.specs.Decoding.{visibility_of};
ghost use Rattle.termwiz_wire.specs.Encoding.{is_visible};
ghost use Rattle.tikeburo_c.specs.Handles.{handle_value};
ghost use Rattle.tikeburo_c.specs.Outcomes.{Reports};
ghost use Rattle.tikeburo_c.specs.Reading.{ReadsValue, screen_text};
ghost use Rattle.tikeburo_c.specs.Results.{GivesInto, OrNoMemory, ReadsInto};

use crate::access::{fill, read};
use crate::buffers::give;
use crate::failure::{Failure, status};
use crate::handle::Handle;
use crate::widths::ChosenWidths;
use std::alloc::Global;
use termwiz_surface::{CursorVisibility, Surface};

/// The width in columns and the height in rows.
#[unsafe(no_mangle)]
pub extern "C" fn tk_size(
    alloc: Global,
    handle: &mut Handle,
    width: &mut usize,
    height: &mut usize,
) -> i32
    ensures read { ReadsValue {B = ℕ × ℕ} (λ s. (s.width, s.height))
        handle.old (width.old, height.old) result (width.new, height.new) }
    ensures same { handle_value handle.new ≡ handle_value handle.old }
{
    let mut size = (*width, *height);
    let outcome = read(alloc, handle, &mut size, |surface| surface.dimensions());
    (*width, *height) = size;
    status(outcome)
}

/// The cursor's column and row. The column is the width where a wrap is pending.
#[unsafe(no_mangle)]
pub extern "C" fn tk_cursor(
    alloc: Global,
    handle: &mut Handle,
    column: &mut usize,
    row: &mut usize,
) -> i32
    ensures read { ReadsValue {B = ℕ × ℕ} (λ s. (s.x, s.y))
        handle.old (column.old, row.old) result (column.new, row.new) }
    ensures same { handle_value handle.new ≡ handle_value handle.old }
{
    let mut at = (*column, *row);
    let outcome = read(alloc, handle, &mut at, |surface| surface.cursor_position());
    (*column, *row) = at;
    status(outcome)
}

/// Whether the cursor is shown.
#[unsafe(no_mangle)]
pub extern "C" fn tk_cursor_is_visible(
    alloc: Global,
    handle: &mut Handle,
    visible: &mut bool,
) -> i32
    ensures read { ReadsValue (λ s. is_visible s.visibility)
        handle.old visible.old result visible.new }
    ensures same { handle_value handle.new ≡ handle_value handle.old }
{
    let outcome = read(alloc, handle, visible, |surface| {
        is_visible(surface.cursor_visibility())
    });
    status(outcome)
}

fn is_visible(visibility: CursorVisibility) -> bool
    ensures { result ≡ is_visible visibility }
{
    match visibility {
        CursorVisibility::Hidden => false,
        CursorVisibility::Visible => true,
    }
}

/// A shown cursor's visibility, or a hidden one's.
pub(crate) fn visibility_of(is_visible: bool) -> CursorVisibility
    ensures { result ≡ visibility_of is_visible }
{
    if is_visible {
        CursorVisibility::Visible
    } else {
        CursorVisibility::Hidden
    }
}

/// The number of the coming change.
#[unsafe(no_mangle)]
pub extern "C" fn tk_number(alloc: Global, handle: &mut Handle, number: &mut usize) -> i32
    ensures read { ReadsValue (λ s. next_number s.log) handle.old number.old result number.new }
    ensures same { handle_value handle.new ≡ handle_value handle.old }
{
    let outcome = read(alloc, handle, number, |surface| surface.current_seqno());
    status(outcome)
}

/// The title, which is empty at first.
#[unsafe(no_mangle)]
pub extern "C" fn tk_title(
    alloc: Global,
    handle: &mut Handle,
    room: &mut [u8],
    len: &mut usize,
) -> i32
    ensures read { Reports result (λ outcome. ReadsInto (λ s. GivesInto s.title)
        (handle_value handle.old) (room.old, len.old) outcome (room.new, len.new)) }
    ensures same { handle_value handle.new ≡ handle_value handle.old }
{
    let outcome = fill(alloc, handle, room, len, |surface, room, len| {
        give(surface.title().as_bytes(), room, len)
    });
    status(outcome)
}

fn give_text(
    surface: &Surface<ChosenWidths>,
    room: &mut [u8],
    len: &mut usize,
) -> Result<(), Failure>
    ensures { OrNoMemory (GivesInto (screen_text surface.now))
        (room.old, len.old) result (room.new, len.new) }
{
    let text = surface.screen_chars_to_string()?;
    give(text.as_bytes(), room, len)
}

/// The texts of all rows' visible cells within their stored lengths, with a line feed after each
/// row.
#[unsafe(no_mangle)]
pub extern "C" fn tk_screen_text(
    alloc: Global,
    handle: &mut Handle,
    room: &mut [u8],
    len: &mut usize,
) -> i32
    ensures read { Reports result (λ outcome.
        ReadsInto (λ s. OrNoMemory (GivesInto (screen_text s)))
        (handle_value handle.old) (room.old, len.old) outcome (room.new, len.new)) }
    ensures same { handle_value handle.new ≡ handle_value handle.old }
{
    let outcome = fill(alloc, handle, room, len, |surface, room, len| {
        give_text(surface, room, len)
    });
    status(outcome)
}
