//! Whether two surfaces show the same, and the damage between them: what has to be painted anew on
//! a canvas that is painted cell by cell.
ghost use Rattle.std.specs.Prelude.{◌≡◌, ◌↔◌, [], IfOk, IsTrue, map};
ghost use Rattle.uses.specs.{MeasureAlike, PrintsRegion, change_value, measure, print_all};
ghost use Rattle.uses.specs.{printed, screen_of, whole};

use std::alloc::AllocError;
use termwiz_surface::laws::need_laws;
use termwiz_surface::{Change, Surface, Widths};

/// Whether two surfaces show the same: size, rows, cursor, visibility and pen. They may measure
/// texts differently.
pub fn show_the_same<A: Widths, B: Widths>(
    one: &Surface<A>,
    other: &Surface<B>,
) -> Result<bool, AllocError>
    ensures { IfOk result (λ same. IsTrue same ↔ (screen_of one.now ≡ screen_of other.now)) }
{
    let one = one.screen()?;
    let other = other.screen()?;
    Ok(one == other)
}

/// The changes that print the damage between two surfaces of one size. A canvas that shows the rows
/// of the last one shows those of the next one once just the cells that they print are painted, one
/// after another. They print no cell where the rows are equal.
pub fn damage_between<W: Widths>(
    last: &Surface<W>,
    next: &Surface<W>,
) -> Result<Vec<Change>, AllocError>
    requires same_width { last.now.width ≡ next.now.width }
    requires same_height { last.now.height ≡ next.now.height }
    requires alike { MeasureAlike (measure W.width_of) last.now next.now }
    ensures painted { IfOk result (λ changes.
        let shown = screen_of last.now in
        print_all shown.rows (printed (measure W.width_of last.now.widths) shown
        (map change_value changes.items)) ≡ (screen_of next.now).rows) }
    // They print exactly the cells that differ, by at most three changes for each.
    ensures diff { IfOk result (λ changes. PrintsRegion (measure W.width_of)
        last.now next.now (whole last.now.width last.now.height)
        (map change_value changes.items)) }
    ensures nothing { (screen_of last.now).rows ≡ (screen_of next.now).rows →
        IfOk result (λ changes. printed (measure W.width_of last.now.widths)
        (screen_of last.now) (map change_value changes.items) ≡ []) }
{
    // What a diff has to print, painted, gives the other's rows.
    need_laws();
    let _last_form = last.dimensions();
    let _next_form = next.dimensions();
    let changes = last.diff_screens(next)?;
    Ok(changes)
}
