//! A workload that draws frames from parts, and compares each with the last one.
use crate::drawn::{Done, Pens, Screen, Start, Sum, add_pen, begun, print_at};
use std::alloc::Global;
use std::mem;
use termwiz_cell::change::Change;
use termwiz_cell::color::ColorAttribute;

const TITLE: &str =
    "Three panels of eighteen lines each, below a title, and a line of state below...";

const LINE: &str = "a line of twenty-six cells";

const OTHER_LINE: &str = "ANOTHER OF THEM, ALL OTHER";

const STATE: &str = "ready, and each panel shows what it has ";

const OTHER_STATE: &str = "DRAWN ANEW: A PANEL HAS TWO OTHER LINES.";

/// Draws `count` frames, and returns how many entries their diffs have.
pub fn framed(alloc: Global, pens: Pens, count: u32) -> Sum {
    let mut shown = begun(alloc, Start::Blank, None)?;
    let mut next = begun(alloc, Start::Blank, None)?;
    let mut entries = 0usize;
    for frame in 0..count {
        draw(alloc, pens, &mut next, frame)?;
        entries = entries.wrapping_add(shown.diff_screens(&next)?.len());
        next.flush_changes_older_than(next.current_seqno());
        mem::swap(&mut shown, &mut next);
    }
    Ok(entries)
}

// A title, three panels and a line of state, which is another one each time.
fn draw(alloc: Global, pens: Pens, surface: &mut Screen, frame: u32) -> Done {
    surface.add_change(Change::ClearScreen(ColorAttribute::Default))?;
    add_pen(alloc, surface, pens, 3)?;
    print_at(alloc, surface, 0, 0, TITLE)?;
    for panel in 0..3 {
        draw_panel(alloc, pens, surface, panel, frame)?;
    }
    let state = if frame % 2 == 0 { STATE } else { OTHER_STATE };
    print_at(alloc, surface, 0, 23, state)
}

// A panel of a colour of its own. In each frame one of them has two other lines.
fn draw_panel(alloc: Global, pens: Pens, surface: &mut Screen, panel: u8, frame: u32) -> Done {
    add_pen(alloc, surface, pens, panel)?;
    for line in 0..18 {
        let is_other = frame % 3 == u32::from(panel) && frame % 9 == line % 9;
        let text = if is_other { OTHER_LINE } else { LINE };
        print_at(
            alloc,
            surface,
            27 * usize::from(panel),
            2 + line as usize,
            text,
        )?;
    }
    Ok(())
}
