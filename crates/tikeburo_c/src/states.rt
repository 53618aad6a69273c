//! What is set beside the rows.
ghost use Rattle.std.specs.Prelude.{◌≡◌, Some};
ghost use Rattle.tikeburo_c.specs.Cells.{uri_of};
ghost use Rattle.tikeburo_c.specs.Handles.{handle_value};
ghost use Rattle.tikeburo_c.specs.Outcomes.{Reports};
ghost use Rattle.tikeburo_c.specs.Results.{GivesInto, ReadsInto};
ghost use Rattle.tikeburo_c.specs.States as specs_of;
ghost use Rattle.tikeburo_c.specs.States.{ReadsKept};

use crate::access::fill;
use crate::buffers::give;
use crate::cells::uri_of;
use crate::failure::{Failure, status};
use crate::fields::{AttributeFields, ColorFields, attribute_fields, color_fields};
use crate::handle::Handle;
use crate::kept::Kept;
use crate::widths::ChosenWidths;
use std::alloc::Global;
use termwiz_screen::full::shape_or_default;
use termwiz_surface::Surface;

/// What is set beside the rows, and what is shown: the state of this number of this surface.
#[repr(C)]
#[derive(Clone, Copy)]
pub struct StateFields {
    pub source: usize,
    pub number: usize,
    pub is_full: bool,
    pub has_link: bool,
    pub cursor_shape: u8,
    pub cursor_color: ColorFields,
    pub pen: AttributeFields,
}

fn state_fields(kept: &Kept, surface: &Surface<ChosenWidths>) -> StateFields
    ensures { result ≡ specs_of.state_fields kept.now surface.now }
{
    let pen = surface.pen();
    StateFields {
        source: kept.source(),
        number: kept.reached(),
        is_full: surface.is_full(),
        has_link: pen.hyperlink().is_some(),
        cursor_shape: shape_or_default(surface.cursor_shape()).number(),
        cursor_color: color_fields(surface.cursor_color()),
        pen: attribute_fields(pen),
    }
}

fn read_state(kept: &Kept, state: &mut StateFields) -> Result<(), Failure>
    ensures { ReadsKept specs_of.state_fields (Some kept.now) state.old result state.new }
{
    let surface = kept.shown()?;
    *state = state_fields(kept, surface);
    Ok(())
}

/// What is set beside the rows: the pen, and the cursor's shape and colour.
#[unsafe(no_mangle)]
pub extern "C" fn tk_state(alloc: Global, handle: &mut Handle, state: &mut StateFields) -> i32
    ensures read { Reports result (λ outcome. ReadsKept specs_of.state_fields
        (handle_value handle.old) state.old outcome state.new) }
    ensures same { handle_value handle.new ≡ handle_value handle.old }
{
    let outcome = match handle.take(alloc) {
        Some(kept) => {
            let outcome = read_state(&kept, state);
            handle.put(alloc, kept);
            outcome
        }
        None => Err(Failure::NoHandle),
    };
    status(outcome)
}

/// The uri of the pen's link, or nothing.
#[unsafe(no_mangle)]
pub extern "C" fn tk_pen_link(
    alloc: Global,
    handle: &mut Handle,
    room: &mut [u8],
    len: &mut usize,
) -> i32
    ensures read { Reports result (λ outcome. ReadsInto (λ s. GivesInto (uri_of s.pen.hyperlink))
        (handle_value handle.old) (room.old, len.old) outcome (room.new, len.new)) }
    ensures same { handle_value handle.new ≡ handle_value handle.old }
{
    let outcome = fill(alloc, handle, room, len, |surface, room, len| {
        give(uri_of(surface.pen()).as_bytes(), room, len)
    });
    status(outcome)
}
