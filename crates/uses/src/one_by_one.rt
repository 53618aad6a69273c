//! Changes that are made one at a time, as they come.
ghost use Rattle.std.specs.Prelude.{◌≡◌, OnOk, map};
ghost use Rattle.uses.specs.{AddsEach, change_value, measure, screen_after, screen_of};

use termwiz_surface::laws::full_repaint_laws;
use termwiz_surface::{Change, Surface, SurfaceError, Widths};

/// Makes the changes, each by itself. The screen is the same as if they were one list.
/// At an error those before a change are made, and that one is refused for this reason. The surface
/// keeps its size.
pub fn make_one_by_one<W: Widths>(
    surface: &mut Surface<W>,
    changes: Vec<Change>,
) -> Result<(), SurfaceError>
    ensures ok { OnOk result (screen_of surface.new
        ≡ screen_after (measure W.width_of) surface.old (map change_value changes.items)) }
    ensures width { surface.new.width ≡ surface.old.width }
    ensures height { surface.new.height ≡ surface.old.height }
    // All are made and logged, or those before one that is refused.
    ensures each { AddsEach (measure W.width_of)
        surface.old (map change_value changes.items) result surface.new }
{
    // Changes make a full screen of a full screen.
    full_repaint_laws();
    for change in changes {
        surface.add_change(change)?;
    }
    Ok(())
}
