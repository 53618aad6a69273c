//! A renderer: what it does in each turn of its loop.
ghost use Rattle.std.specs.Prelude.{◌≡◌, ◌↔◌, [], Err, IfErr, IfOk, IsTrue, OnErr, OnOk};
ghost use Rattle.uses.specs.{All, FollowInTurn, Follows, FollowsTo, ScrollRegion, flushed};
ghost use Rattle.uses.specs.{full_of, full_value, measure, next_number, screen_of};

use std::alloc::AllocError;
use termwiz_surface::laws::full_equality_laws;
use termwiz_surface::{FullScreen, Surface, SurfaceError, Viewer, Widths};

/// Shows on its one viewer what the surface shows, and lets both forget the changes that they have
/// in common.
/// After an error, which is `Numbers` or `Memory`, the surface is as before, and the viewer is what
/// that error of `Viewer::follow` leaves. The next turn that succeeds shows the screen.
pub fn refresh<W: Widths>(
    surface: &mut Surface<W>,
    viewer: &mut Viewer<W>,
) -> Result<(), SurfaceError>
    requires { Follows (measure W.width_of) viewer.old surface.old }
    ensures shown { OnOk result (screen_of viewer.new.surface ≡ screen_of surface.new) }
    ensures numbered { OnOk result (viewer.new.last ≡ next_number surface.old.log) }
    ensures forgets { OnOk result (surface.new.log ≡ flushed surface.old.log viewer.new.last) }
    ensures viewer_forgets { OnOk result (viewer.new.surface.log.changes ≡ []) }
    ensures unchanged { screen_of surface.new ≡ screen_of surface.old }
    ensures kept { OnErr result (surface.new ≡ surface.old) }
    // Which error comes when.
    ensures fails { IfErr result (λ error.
        FollowsTo (measure W.width_of) surface.old viewer.old (Err error) viewer.new) }
    // The next turn can rely on it again, after an error too.
    ensures follows { Follows (measure W.width_of) viewer.new surface.new }
{
    viewer.follow(surface)?;
    surface.flush_changes_older_than(viewer.last());
    viewer.flush_changes_older_than(viewer.surface().current_seqno());
    Ok(())
}

/// Shows on all its viewers what the surface shows, and lets the surface forget its changes then,
/// since each viewer has them. It stops at a viewer that fails, by `Numbers` or `Memory`: the
/// surface and the viewers after that one are as before, those before it show the screen, and it is
/// what that error of `Viewer::follow` leaves. A turn that succeeds shows the screen on all of
/// them.
pub fn refresh_all<W: Widths>(
    surface: &mut Surface<W>,
    viewers: &mut [Viewer<W>],
) -> Result<(), SurfaceError>
    requires { All (λ v. Follows (measure W.width_of) v surface.old) viewers.old }
    ensures shown { OnOk result (
        All (λ v. screen_of v.surface ≡ screen_of surface.new) viewers.new) }
    // Each has the number up to which the log is flushed.
    ensures numbered { OnOk result (All (λ v. v.last ≡ next_number surface.old.log) viewers.new) }
    ensures forgets { OnOk result (
        surface.new.log ≡ flushed surface.old.log (next_number surface.old.log)) }
    ensures unchanged { screen_of surface.new ≡ screen_of surface.old }
    ensures kept { OnErr result (surface.new ≡ surface.old) }
    // Which error comes when, and what it leaves of each.
    ensures steps { FollowInTurn (measure W.width_of)
        surface.old viewers.old result viewers.new }
    ensures no_scroll { result ≡ Err ScrollRegion → ⊥ }
    // The next turn can rely on it again, after an error too.
    ensures follows { All (λ v. Follows (measure W.width_of) v surface.new) viewers.new }
{
    for each in viewers.iter_mut() {
        each.follow(surface)?;
    }
    surface.flush_changes_older_than(surface.current_seqno());
    Ok(())
}

/// Takes what the surface shows as the frame to paint, and returns whether that is the last frame
/// again, of which nothing has to be painted anew: title, the cursor's colour and shape, and the
/// size of each row are compared too. After an error the last frame stays.
pub fn take_frame<W: Widths>(
    surface: &Surface<W>,
    frame: &mut FullScreen,
) -> Result<bool, AllocError>
    ensures shows { OnOk result (full_value frame.new ≡ full_of surface.now) }
    ensures again { IfOk result (λ again.
        IsTrue again ↔ (full_of surface.now ≡ full_value frame.old)) }
    ensures kept { OnErr result (frame.new ≡ frame.old) }
{
    // Full screens are equal exactly where nothing that they show differs.
    full_equality_laws();
    let next = surface.full_screen()?;
    let again = next == *frame;
    *frame = next;
    Ok(again)
}
