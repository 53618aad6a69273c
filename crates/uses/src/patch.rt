//! A patch: a diff that is made where both surfaces are, and applied where only one of them is.
ghost use Rattle.std.specs.Prelude.{◌≡◌, ◌≤◌, ◌*◌, ◌↔◌, IfOk, IsTrue, List, OnOk, length, map};
ghost use Rattle.uses.specs.{AreRows, CellValue, IsDiff, MeasureAlike, Print, PrintsWithin, need};
ghost use Rattle.uses.specs.{change_value, measure, print_all, printed, screen_after, screen_of};
ghost use Rattle.uses.specs.{MakesOrRefuses, PrintsRegion, whole};

use std::alloc::AllocError;
use termwiz_surface::laws::{diff_laws, equality_laws, fewest_prints};
use termwiz_surface::{Change, Surface, SurfaceError, Widths};

/// The patch that makes a surface show the rows of another one of its size that measures texts as
/// it does. Any other way to paint these rows, cell by cell, paints at least a third as many cells.
pub fn patch_to<W: Widths>(
    surface: &Surface<W>,
    target: &Surface<W>,
) -> Result<Vec<Change>, AllocError>
    requires same_width { surface.now.width ≡ target.now.width }
    requires same_height { surface.now.height ≡ target.now.height }
    requires alike { MeasureAlike (measure W.width_of) surface.now target.now }
    ensures leads { IfOk result (λ patch.
        (screen_after (measure W.width_of) surface.now (map change_value patch.items)).rows
        ≡ (screen_of target.now).rows) }
    // It prints exactly the cells that differ, by at most three changes for each.
    ensures diff { IfOk result (λ patch. PrintsRegion (measure W.width_of)
        surface.now target.now (whole surface.now.width surface.now.height)
        (map change_value patch.items)) }
    ensures few { IfOk result (λ patch. (ps : List Print) →
        let own = (screen_of surface.now).rows in
        PrintsWithin surface.now.width surface.now.height ps →
        print_all own ps ≡ (screen_of target.now).rows →
        length (printed (measure W.width_of surface.now.widths) (screen_of surface.now)
        (map change_value patch.items)) ≤ 3 * length ps) }
{
    // No paints that lead there are fewer than a third of what a diff prints.
    fewest_prints();
    let _form = surface.dimensions();
    let patch = surface.diff_screens(target)?;
    Ok(patch)
}

/// Applies a patch: the surface then has the screen to which it leads. A diff of the surface and
/// some rows of its size leads to these rows. A patch that is refused leaves what `add_changes`
/// says.
pub fn apply_patch<W: Widths>(
    surface: &mut Surface<W>,
    patch: Vec<Change>,
) -> Result<(), SurfaceError>
    ensures adds { MakesOrRefuses (measure W.width_of surface.old.widths)
        surface.old (map change_value patch.items) result surface.new }
    ensures made { OnOk result (screen_of surface.new
        ≡ screen_after (measure W.width_of) surface.old (map change_value patch.items)) }
    ensures shows { let f = measure W.width_of surface.old.widths in
        let own = screen_of surface.old in
        (rows : List (List CellValue)) → AreRows own.width own.height rows →
        IsDiff f own (f ≡ f) (need own.rows rows (whole own.width own.height))
        (map change_value patch.items) →
        OnOk result ((screen_of surface.new).rows ≡ rows) }
{
    // Any diff of the whole gives its rows.
    diff_laws();
    let _form = surface.dimensions();
    surface.add_changes(patch)?;
    Ok(())
}

/// Whether a patch is the one that was sent last. Texts, links and attributes are compared by what
/// they say: so where it is, both patches do the same to any surface.
#[tactic(auto, using(crate::proofs::SameLists::lists_decide))]
pub fn is_sent(last: &[Change], patch: &[Change]) -> bool
    ensures { IsTrue result ↔ (map change_value last.now ≡ map change_value patch.now) }
{
    // Changes are equal exactly where their values are.
    equality_laws();
    last == patch
}
