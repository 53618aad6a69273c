//! A relay: a viewer whose own surface another viewer follows.
ghost use Rattle.std.specs.Prelude.{◌≡◌, Err, OnOk, true};
ghost use Rattle.uses.specs.{Follows, Relays, RelaysTwice, ScrollRegion, full_of, measure};
ghost use Rattle.uses.specs.{screen_of};

use termwiz_surface::{Surface, SurfaceError, Viewer, Widths};

/// Shows a surface on a far viewer by way of a near one: the near viewer follows the surface, and
/// the far one follows the near one's own surface. After an error, which is `Numbers` or `Memory`,
/// the viewer that failed may show anything. Where that is the near one, the far one is as it was.
/// The next call that succeeds shows the surface on both.
pub fn relay<W: Widths>(
    surface: &Surface<W>,
    near: &mut Viewer<W>,
    far: &mut Viewer<W>,
) -> Result<(), SurfaceError>
    requires near { Follows (measure W.width_of) near.old surface.now }
    requires far { Follows (measure W.width_of) far.old near.old.surface }
    ensures shown { OnOk result (screen_of far.new.surface ≡ screen_of surface.now) }
    ensures shown_near { OnOk result (screen_of near.new.surface ≡ screen_of surface.now) }
    // From a full surface by way of a full one both have its full screen.
    ensures shown_fully { surface.now.full ≡ true → near.old.surface.full ≡ true →
        OnOk result (full_of far.new.surface ≡ full_of surface.now) }
    // What each of them is given, and which error comes when.
    ensures relays { Relays (measure W.width_of)
        surface.now near.old far.old result near.new far.new }
    // The next call can rely on it again, after an error too.
    ensures near { Follows (measure W.width_of) near.new surface.now }
    ensures far { Follows (measure W.width_of) far.new near.new.surface }
    ensures no_scroll { result ≡ Err ScrollRegion → ⊥ }
    ensures kind { near.new.surface.full ≡ near.old.surface.full }
{
    near.follow(surface)?;
    far.follow(near.surface())?;
    Ok(())
}

/// Shows a surface on a far viewer by way of a near one, at the second attempt where the first one
/// fails. Whatever the near viewer had when it failed, the far one doesn't keep it.
pub fn relay_twice<W: Widths>(
    surface: &Surface<W>,
    near: &mut Viewer<W>,
    far: &mut Viewer<W>,
) -> Result<(), SurfaceError>
    requires near { Follows (measure W.width_of) near.old surface.now }
    requires far { Follows (measure W.width_of) far.old near.old.surface }
    ensures shown { OnOk result (screen_of far.new.surface ≡ screen_of surface.now) }
    ensures shown_fully { surface.now.full ≡ true → near.old.surface.full ≡ true →
        OnOk result (full_of far.new.surface ≡ full_of surface.now) }
    ensures relays { RelaysTwice (measure W.width_of)
        surface.now near.old far.old result near.new far.new }
    ensures near { Follows (measure W.width_of) near.new surface.now }
    ensures far { Follows (measure W.width_of) far.new near.new.surface }
{
    if relay(surface, near, far).is_ok() {
        return Ok(());
    }
    relay(surface, near, far)
}
