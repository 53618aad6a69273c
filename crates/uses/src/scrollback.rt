//! A scrollback: lines that have left the screen, each stored as one text where that can be.
ghost use Rattle.std.specs.Prelude.{◌≡◌, ◌↔◌, ◌+◌, ◌-◌, ◌≤◌, IfOk, List, OnErr, OnOk, drop, false};
ghost use Rattle.std.specs.Prelude.{length, map, true};
ghost use Rattle.uses.specs.{AddsScrolledOff, AddsUnlogged, measure, next_number, printed_text};
ghost use Rattle.uses.specs.{kept_of, rows_scrolled_off, screen_of};
ghost use Rattle.uses.specs.{IsWhole, IsWrapped, LineValue, line_contents, line_eq, visible};

use std::alloc::AllocError;
use termwiz_surface::laws::{cut_laws, edit_laws, storage_laws};
use termwiz_surface::{
    ChangeList, LentChange, LentChanges, Line, SEQ_ZERO, Scrollback, SequenceNo, Surface,
    SurfaceError, Widths,
};

/// Prints what a program wrote, and moves the rows that it scrolls off the top of the screen to the
/// end of the kept lines.
///
/// `Numbers`: nothing has changed. `Memory`: the text may be printed in part, and the first of the
/// rows that it scrolls off may be kept.
pub fn print_and_keep<W: Widths>(
    surface: &mut Surface<W>,
    output: &str,
    kept: &mut Scrollback,
) -> Result<SequenceNo, SurfaceError>
    ensures adds { AddsUnlogged (measure W.width_of surface.old.widths)
        surface.old (printed_text output.now) (next_number surface.old.log - 1 + 1)
        result surface.new }
    // After the old lines there are those that show the rows as they were shown, and no others.
    ensures keeps { AddsScrolledOff surface.old.width
        (rows_scrolled_off (measure W.width_of surface.old.widths) (screen_of surface.old)
        (kept_of surface.old) (printed_text output.now))
        result kept.old.lines.items kept.new.lines.items }
    ensures count { OnOk result (length kept.new.lines.items
        ≡ length kept.old.lines.items + length
        (rows_scrolled_off (measure W.width_of surface.old.widths) (screen_of surface.old)
        (kept_of surface.old) (printed_text output.now))) }
{
    surface.add(
        ChangeList::Unlogged(LentChanges(&[LentChange::Text(output)])),
        kept,
    )
}

/// Removes the oldest lines, so that no more than `limit` are kept.
pub fn keep_newest(kept: &mut Scrollback, limit: usize)
    ensures newest { kept.new.lines.items
        ≡ drop (length kept.old.lines.items - limit) kept.old.lines.items }
    ensures limited { length kept.new.lines.items ≤ limit }
{
    let count = kept.len();
    kept.remove_first(count.saturating_sub(limit));
}

/// Stores a line that leaves the screen, as one text where that can be. It is equal to what it was,
/// also after an error, which leaves it as it was stored.
pub fn store(line: &mut Line) -> Result<(), AllocError>
    ensures same { line_eq line.new line.old ≡ true }
    ensures text { OnOk result (line.new.is_vector ≡ false ↔ IsWhole line.old.cells) }
    ensures kept { OnErr result (line.new ≡ line.old) }
{
    // Equality is that of cells, number and flags, whichever form stores them.
    storage_laws();
    line.compress_for_scrollback()
}

/// A copy of what a line shows, with its number and its flags, which is stored as one text,
/// whatever stands after its wide cells.
pub fn stored_copy(line: &Line) -> Result<Line, AllocError>
    ensures shows { IfOk result (λ copy. visible copy.cells ≡ visible line.now.cells) }
    ensures number { IfOk result (λ copy. copy.seqno ≡ line.now.seqno) }
    ensures flags { IfOk result (λ copy. copy.flags ≡ line.now.flags) }
    ensures text { IfOk result (λ copy. copy.is_vector ≡ false) }
{
    // Visible cells that are stored again with their halves show the same, and may stand in a text.
    edit_laws();
    storage_laws();
    let mut copy = line.clone()?;
    let cells = copy.split_off(0, SEQ_ZERO)?;
    copy.append_line(cells, SEQ_ZERO)?;
    copy.compress_for_scrollback()?;
    Ok(copy)
}

/// The rows of a window of this width that show a stored copy of a line: they are those that the
/// line itself is wrapped into.
pub fn rewrapped(line: &Line, width: usize, seqno: SequenceNo) -> Result<Vec<Line>, AllocError>
    ensures { IfOk result (λ rows. (of_line : List LineValue) →
        IsWrapped width seqno line.now of_line →
        map line_contents rows.items ≡ map line_contents of_line) }
{
    // Lines of the same cells, number and flags are wrapped alike.
    cut_laws();
    let mut stored = line.clone()?;
    stored.compress_for_scrollback()?;
    let rows = stored.wrap(width, seqno)?;
    Ok(rows)
}
