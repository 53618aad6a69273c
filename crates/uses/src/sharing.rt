//! Viewers that are served by answers: they join, reconnect, and let a surface forget what they
//! have. `serving.rt` has both ends of a stream of answers.
ghost use Rattle.std.specs.Prelude.{◌≡◌, ◌<◌, ◌≤◌, [], IfOk, OnOk, false, true, ℕ};
ghost use Rattle.uses.specs.{All, Any, Follows, FollowsTo, FullScreen, IsPastOf, Screen};
ghost use Rattle.uses.specs.{IsServed, Preserves, ShowsNamed, ViewerValue, blank_viewer, flushed};
ghost use Rattle.uses.specs.{full_of, full_screens, is_known, measure, screen_of, screens};

use std::alloc::{AllocError, Global};
use termwiz_surface::laws::{full_history_laws, history_laws};
use termwiz_surface::{SequenceNo, Surface, SurfaceError, Viewer, Widths};

/// A new viewer, blank and of the surface's size, which is served by answers.
pub fn join<W: Widths>(alloc: Global, surface: &Surface<W>) -> Result<Viewer<W>, AllocError>
    ensures blank { IfOk result (λ viewer. viewer ≡ blank_viewer surface.now) }
    // Of a surface that nothing has changed yet,
    ensures first { surface.now.log ≡ record { first = 0; changes = [] } → IfOk result (λ viewer.
        IsServed screens (measure W.width_of) viewer surface.now) }
    ensures first_fully { surface.now.log ≡ record { first = 0; changes = [] } →
        IfOk result (λ viewer.
        IsServed full_screens (measure W.width_of) viewer surface.now) }
    // or of one that serves another viewer.
    ensures next { (other : ViewerValue W) →
        IsServed screens (measure W.width_of) other surface.now → IfOk result (λ viewer.
        IsServed screens (measure W.width_of) viewer surface.now) }
    ensures next_fully { (other : ViewerValue W) →
        IsServed full_screens (measure W.width_of) other surface.now → IfOk result (λ viewer.
        IsServed full_screens (measure W.width_of) viewer surface.now) }
{
    // A surface that never changed has any past.
    history_laws();
    full_history_laws();
    let viewer = Viewer::new(alloc, surface)?;
    Ok(viewer)
}

/// Forgets the changes that every viewer has, by the numbers that the viewers were last given: each
/// of these is known as before, and the answers that are on their way lead where they led. Where
/// there are no viewers nothing is forgotten.
pub fn forget_delivered<W: Widths>(surface: &mut Surface<W>, given: &[SequenceNo])
    ensures answers { All (λ n. (most : ℕ) →
        is_known most surface.new.log n ≡ is_known most surface.old.log n) given.now }
    // The log is flushed to the least of them.
    ensures forgets { (n : ℕ) → Any (λ k. k ≡ n) given.now → All (λ k. n ≤ k) given.now →
        surface.new.log ≡ flushed surface.old.log n }
    ensures nothing { given.now ≡ [] → surface.new ≡ surface.old }
    ensures unchanged { screen_of surface.new ≡ screen_of surface.old }
    ensures preserves { Preserves (measure W.width_of) surface.old surface.new }
{
    if let Some(least) = given.iter().copied().min() {
        surface.flush_changes_older_than(least);
    }
}

/// Lets a viewer that was served by answers follow the surface itself, which isn't a full one, once
/// it can reach it: it has the surface's screen then. It follows the surface from now on, and may
/// accept later answers too, also after an error.
pub fn reconnect<W: Widths>(
    surface: &Surface<W>,
    viewer: &mut Viewer<W>,
) -> Result<SequenceNo, SurfaceError>
    requires is_plain { surface.now.full ≡ false }
    requires served { IsServed screens (measure W.width_of) viewer.old surface.now }
    ensures shows { OnOk result (screen_of viewer.new.surface ≡ screen_of surface.now) }
    // What it is given, the number that is returned, and which error comes when.
    ensures steps { FollowsTo (measure W.width_of) surface.now viewer.old result viewer.new }
    ensures follows { Follows (measure W.width_of) viewer.new surface.now }
    ensures names { (past : ℕ → Screen) →
        IsPastOf screens (measure W.width_of) past surface.now →
        OnOk result (ShowsNamed screens past viewer.new) }
    ensures served { IsServed screens (measure W.width_of) viewer.new surface.now }
{
    // What its number names leads it on, as a viewer that follows is led.
    history_laws();
    viewer.follow(surface)
}

/// Lets a viewer that was served by answers follow a surface that is a full one, once it can reach
/// it: it has its full screen then, and follows it from now on.
pub fn reconnect_fully<W: Widths>(
    surface: &Surface<W>,
    viewer: &mut Viewer<W>,
) -> Result<SequenceNo, SurfaceError>
    requires is_full { surface.now.full ≡ true }
    requires served { IsServed screens (measure W.width_of) viewer.old surface.now }
    requires served_fully { IsServed full_screens (measure W.width_of) viewer.old surface.now }
    ensures shows { OnOk result (full_of viewer.new.surface ≡ full_of surface.now) }
    ensures steps { FollowsTo (measure W.width_of) surface.now viewer.old result viewer.new }
    ensures follows { Follows (measure W.width_of) viewer.new surface.now }
    ensures names { (past : ℕ → FullScreen) →
        IsPastOf full_screens (measure W.width_of) past surface.now →
        OnOk result (ShowsNamed full_screens past viewer.new) }
    ensures served { IsServed screens (measure W.width_of) viewer.new surface.now }
    ensures served_fully { IsServed full_screens (measure W.width_of) viewer.new surface.now }
{
    history_laws();
    full_history_laws();
    viewer.follow(surface)
}
