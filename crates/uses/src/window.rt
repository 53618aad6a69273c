//! A window of widgets, and a viewer that shows it.
ghost use Rattle.std.specs.Prelude.{◌≡◌, Err, OnOk};
ghost use Rattle.uses.specs.{DrawsOn, Follows, FollowsOnce, HasDrawn, InTurn, IsDrawn};
ghost use Rattle.uses.specs.{ScrollRegion};
ghost use Rattle.uses.specs.{measure, region_at, screen_of, whole_at};

use termwiz_surface::{SequenceNo, Surface, SurfaceError, Viewer, Widths};

/// Draws a widget into the window, from this column and row on, and shows the window on its viewer.
/// After an error, which is `Numbers` or `Memory`, the window stands as `draw_from_screen` says and
/// the viewer is as it was, or the window has the widget and the viewer may show anything. The next
/// call shows the window as it is.
pub fn show_widget<W: Widths>(
    window: &mut Surface<W>,
    widget: &Surface<W>,
    x: usize,
    y: usize,
    viewer: &mut Viewer<W>,
) -> Result<(), SurfaceError>
    requires { Follows (measure W.width_of) viewer.old window.old }
    // The viewer shows the window, whose cursor and pen are as they were.
    ensures shown { OnOk result (screen_of viewer.new.surface
        ≡ record (screen_of window.old) { rows = (screen_of window.new).rows }) }
    // It shows the widget there, where both measure texts alike and no wide grapheme crosses an
    // edge, and elsewhere what it showed.
    ensures widget { OnOk result (HasDrawn (measure W.width_of)
        window.old widget.now (whole_at widget.now x y) (screen_of viewer.new.surface)) }
    // Where the widget isn't drawn, the viewer is as it was.
    ensures either { InTurn
        (λ r. DrawsOn (measure W.width_of) window.old widget.now (whole_at widget.now x y) r
        window.new)
        (viewer.new ≡ viewer.old)
        (λ r. FollowsOnce (measure W.width_of) window.new viewer.old r viewer.new) result }
    ensures no_scroll { result ≡ Err ScrollRegion → ⊥ }
    // The next call can rely on it again, after an error too.
    ensures follows { Follows (measure W.width_of) viewer.new window.new }
{
    window.draw_from_screen(widget, x, y)?;
    viewer.follow(window)?;
    Ok(())
}

/// Draws a widget that has more rows than its place into the window: `height` of its rows, from its
/// row `top` on. Cursor and pen of the window are as before.
///
/// `Numbers`: the window is unchanged. `Memory`: the window is unchanged, or the rows may be drawn
/// in part; it has its old size, and its log is empty.
pub fn draw_rows<W: Widths>(
    window: &mut Surface<W>,
    widget: &Surface<W>,
    top: usize,
    height: usize,
    x: usize,
    y: usize,
) -> Result<SequenceNo, SurfaceError>
    // They are drawn, or the window is what the error leaves.
    ensures drawn { IsDrawn (measure W.width_of) window.old widget.now
        (region_at x y widget.now.width height 0 top) result window.new }
    // It shows them there, where both measure texts alike and no wide grapheme crosses an edge, and
    // elsewhere what it showed.
    ensures rows { OnOk result (HasDrawn (measure W.width_of) window.old widget.now
        (region_at x y widget.now.width height 0 top) (screen_of window.new)) }
    // All parts of the screen but the rows are unchanged.
    ensures restores { OnOk result (screen_of window.new
        ≡ record (screen_of window.old) { rows = (screen_of window.new).rows }) }
    ensures no_scroll { result ≡ Err ScrollRegion → ⊥ }
{
    let (width, _) = widget.dimensions();
    window.draw_from(widget, 0, top, width, height, x, y)
}
