//! What calls to which memory is refused leave of a surface.
use crate::surfaces::answers::is_same;
use crate::surfaces::measure::Measure;
use crate::turn::Turn;
use termwiz_surface::surface::Surface;
use termwiz_surface::view::Viewer;

/// Whether a surface is as a list of changes leaves it to which memory is refused.
///
/// It has its size, the cursor inside it, and an empty log under the next number, or 0. A viewer
/// that followed it before catches up. The list of a draw or a copy may also leave it unchanged.
pub fn is_left(
    turn: &mut Turn<'_>,
    before: &Surface<Measure>,
    after: &Surface<Measure>,
    copied: bool,
) -> bool {
    if copied && is_unchanged(turn, before, after) {
        return true;
    }
    let ((width, height), (x, y)) = (after.dimensions(), after.cursor_position());
    let framed = before.dimensions() == (width, height) && x <= width && y < height;
    let number = before.current_seqno();
    let next = if number == 0 {
        0
    } else {
        number.saturating_add(1)
    };
    let (left, viewer) = (after.answer(number), Viewer::new(turn.alloc, before));
    let (Some(left), Some(mut viewer)) = (turn.kept(left), turn.kept(viewer)) else {
        return false;
    };
    let fits = framed && left.number() == next && left.is_repaint();
    if !fits || viewer.follow(before).is_err() || viewer.follow(after).is_err() {
        return false;
    }
    is_same(turn, viewer.surface(), after, after.is_full())
}

// Whether both have the same full screen, number and log.
fn is_unchanged(turn: &mut Turn<'_>, before: &Surface<Measure>, after: &Surface<Measure>) -> bool {
    let (due, left) = (turn.kept(before.answer(1)), turn.kept(after.answer(1)));
    let (Some(due), Some(left)) = (due, left) else {
        return false;
    };
    let same = due.base() == left.base() && due.number() == left.number();
    same && due.changes() == left.changes() && is_same(turn, before, after, true)
}
