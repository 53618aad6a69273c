//! A follower of your own, which is sent what changed since it asked last.
ghost use Rattle.std.specs.Prelude.{◌≡◌, ◌∷◌, [], Err, IfOk, OnErr, OnOk, false};
ghost use Rattle.uses.specs.{FollowerCatchesUp, Follows, InTurn, MakesOrRefuses, ScrollRegion};
ghost use Rattle.uses.specs.{ViewerValue};
ghost use Rattle.uses.specs.{blank_surface, change_value, measure, next_number, screen_after};
ghost use Rattle.uses.specs.{screen_of};

use std::alloc::{AllocError, Global};
use std::marker::Model;
use termwiz_surface::laws::{following_laws, full_following_laws, full_repaint_laws};
use termwiz_surface::view::copied;
use termwiz_surface::{Change, SEQ_ZERO, SequenceNo, Surface, SurfaceError, Widths};

/// What a surface showed when the follower last caught up with it, and the number that it was given
/// then.
#[derive(Drop)]
pub struct Follower<W: Widths> {
    alloc: Global,
    shown: Surface<W>,
    last: SequenceNo,
}

impl<W: Widths> Model for Follower<W> {
    ghost Value = { ViewerValue W };

    ghost view = { λ f. record { surface = f.shown; last = f.last } };
}

impl<W: Widths> Follower<W> {
    /// A blank follower of a surface's size, which was given no number and measures texts by
    /// `widths`: give it what the surface measures by.
    pub fn new(alloc: Global, surface: &Surface<W>, widths: W) -> Result<Follower<W>, AllocError>
        requires { widths ≡ surface.now.widths }
        ensures blank { IfOk result (λ follower. follower ≡ record {
          surface = blank_surface widths surface.now.width surface.now.height false;
          last = 0;
        }) }
        ensures width { IfOk result (λ follower. follower.surface.width ≡ surface.now.width) }
        ensures height { IfOk result (λ follower. follower.surface.height ≡ surface.now.height) }
        ensures follows { IfOk result (λ follower.
            Follows (measure W.width_of) follower surface.now) }
    {
        let (width, height) = surface.dimensions();
        let shown = Surface::new(alloc, width, height, widths)?;
        Ok(Follower {
            alloc,
            shown,
            last: SEQ_ZERO,
        })
    }

    /// What the follower shows.
    pub fn shown(&self) -> &Surface<W>
        ensures { result.now ≡ self.now.surface }
    {
        &self.shown
    }

    /// Catches up with a surface of the follower's size: asks for the changes since the number that
    /// it was last given, makes them, and takes the new number.
    /// After an error it shows what it showed, or what that error of `add_changes` leaves, and has
    /// no number: so the next answer brings the whole screen. It never fails with `ScrollRegion`.
    pub fn catch_up(&mut self, surface: &Surface<W>) -> Result<(), SurfaceError>
        requires same_width { self.old.surface.width ≡ surface.now.width }
        requires same_height { self.old.surface.height ≡ surface.now.height }
        requires follows { Follows (measure W.width_of) self.old surface.now }
        ensures shown { OnOk result (screen_of self.new.surface ≡ screen_of surface.now) }
        ensures numbered { OnOk result (self.new.last ≡ next_number surface.now.log) }
        // It makes what it lacks, or a repaint where the surface doesn't know its number.
        ensures adds { FollowerCatchesUp (measure W.width_of) surface.now self.old result self.new }
        ensures no_scroll { result ≡ Err ScrollRegion → ⊥ }
        // It can catch up again, after an error too.
        ensures follows { Follows (measure W.width_of) self.new surface.now }
        ensures failed { OnErr result (self.new.last ≡ 0) }
        ensures width { self.new.surface.width ≡ self.old.surface.width }
        ensures height { self.new.surface.height ≡ self.old.surface.height }
    {
        // An answer leads a screen of the surface's size to the surface's, from where the follower
        // is,
        following_laws();
        // and a full screen to that of a full surface.
        full_following_laws();
        full_repaint_laws();
        let _size = self.shown.dimensions();
        let asked = self.last;
        self.last = SEQ_ZERO;
        let (number, changes) = surface.get_changes(asked)?;
        self.shown.add_changes(copied(self.alloc, changes)?)?;
        self.last = number;
        Ok(())
    }
}

/// Makes a change on a surface, and shows it on the follower.
/// A change that is refused leaves what `add_change` says, and the follower as it was. After
/// another error the change is made, and the follower may lack it, and can catch up later.
pub fn make_and_show<W: Widths>(
    surface: &mut Surface<W>,
    follower: &mut Follower<W>,
    change: Change,
) -> Result<(), SurfaceError>
    requires same_width { follower.old.surface.width ≡ surface.old.width }
    requires same_height { follower.old.surface.height ≡ surface.old.height }
    requires follows { Follows (measure W.width_of) follower.old surface.old }
    ensures made { OnOk result (screen_of surface.new
        ≡ screen_after (measure W.width_of) surface.old (change_value change ∷ [])) }
    ensures either { InTurn
        (λ r. MakesOrRefuses (measure W.width_of surface.old.widths)
        surface.old (change_value change ∷ []) r surface.new) (follower.new ≡ follower.old)
        (λ r. FollowerCatchesUp (measure W.width_of) surface.new follower.old r follower.new)
        result }
    ensures shown { OnOk result (screen_of follower.new.surface ≡ screen_of surface.new) }
    ensures follows { Follows (measure W.width_of) follower.new surface.new }
    ensures width { follower.new.surface.width ≡ surface.new.width }
    ensures height { follower.new.surface.height ≡ surface.new.height }
{
    surface.add_change(change)?;
    follower.catch_up(surface)?;
    Ok(())
}
