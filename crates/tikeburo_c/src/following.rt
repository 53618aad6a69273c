//! Viewers: how they are made, and follow.
ghost use Rattle.std.specs.Prelude.{◌≡◌, IfErr, IfOk, OnOk, Some};
ghost use Rattle.termwiz_surface.specs.Following.{Follows, blank_viewer};
ghost use Rattle.tikeburo_c.specs.Following.{FollowsSame, FollowsSource, MakesViewer};
ghost use Rattle.tikeburo_c.specs.Following.{blank_follower};
ghost use Rattle.tikeburo_c.specs.Handles.{handle_value};
ghost use Rattle.tikeburo_c.specs.Outcomes.{Reports};
ghost use Rattle.tikeburo_c.specs.Results.{OnViewer};
ghost use Rattle.tikeburo_c.specs.Widths.{columns_by};
ghost use Rattle.tikeburo_c.specs.declared.failure.Failure.TheVariants.{Memory};
ghost use Rattle.tikeburo_c.specs.declared.kept.Kept.TheVariants as kinds;

use crate::failure::{Failure, status};
use crate::followers::Follower;
use crate::handle::Handle;
use crate::kept::Kept;
use crate::same_widths::require_same;
use crate::widths::ChosenWidths;
use std::alloc::Global;
use termwiz_surface::Surface;

fn blank_viewer(
    alloc: Global,
    surface: &Surface<ChosenWidths<'static>>,
    source: usize,
) -> Result<Box<Kept>, Failure>
    ensures made { IfOk result (λ kept.
        kept.value ≡ kinds.Viewer (blank_follower source surface.now)) }
    ensures follows { OnOk result (Follows columns_by (blank_viewer surface.now) surface.now) }
    ensures memory { IfErr result (λ failure. failure ≡ Memory) }
{
    let follower = Follower::new(alloc, surface, source)?;
    let kept = Box::new(alloc, Kept::Viewer(follower))?;
    Ok(kept)
}

fn make_viewer_of(alloc: Global, viewer: &mut Handle, source: &Kept) -> Result<(), Failure>
    ensures { MakesViewer (Some source.now)
        (handle_value viewer.old) result (handle_value viewer.new) }
{
    let surface = source.shown()?;
    let made = blank_viewer(alloc, surface, source.number())?;
    viewer.put(alloc, made);
    Ok(())
}

fn make_viewer(alloc: Global, viewer: &mut Handle, source: &mut Handle) -> Result<(), Failure>
    ensures made { MakesViewer (handle_value source.old)
        (handle_value viewer.old) result (handle_value viewer.new) }
    ensures source { handle_value source.new ≡ handle_value source.old }
{
    let Some(kept) = source.take(alloc) else {
        return Err(Failure::NoHandle);
    };
    let outcome = make_viewer_of(alloc, viewer, &kept);
    source.put(alloc, kept);
    outcome
}

/// Makes a viewer for what the source shows, which shows nothing yet.
#[unsafe(no_mangle)]
pub extern "C" fn tk_viewer_new_distinct(
    alloc: Global,
    viewer: &mut Handle,
    source: &mut Handle,
) -> i32
    ensures made { Reports result (λ outcome. MakesViewer (handle_value source.old)
        (handle_value viewer.old) outcome (handle_value viewer.new)) }
    ensures source { handle_value source.new ≡ handle_value source.old }
{
    let outcome = make_viewer(alloc, viewer, source);
    status(outcome)
}

fn follow_same(
    alloc: Global,
    follower: &mut Follower,
    shown: &Surface<ChosenWidths<'static>>,
    number: usize,
) -> Result<(), Failure>
    ensures { FollowsSame number shown.now follower.old result follower.new }
{
    require_same(&shown.widths(), &follower.surface().widths())?;
    follower.follow(alloc, shown, number)
}

fn follow_shown(
    alloc: Global,
    handle: &mut Handle,
    shown: &Surface<ChosenWidths<'static>>,
    number: usize,
) -> Result<(), Failure>
    ensures { OnViewer (FollowsSame number shown.now)
        (handle_value handle.old) result (handle_value handle.new) }
{
    let Some(mut kept) = handle.take(alloc) else {
        return Err(Failure::NoHandle);
    };
    let outcome = match &mut *kept {
        Kept::Viewer(follower) => follow_same(alloc, follower, shown, number),
        Kept::Surface(_) | Kept::Client(_) | Kept::Lines(_) => Err(Failure::WrongKind),
    };
    handle.put(alloc, kept);
    outcome
}

fn follow_kept(alloc: Global, handle: &mut Handle, source: &Kept) -> Result<(), Failure>
    ensures { FollowsSource (Some source.now)
        (handle_value handle.old) result (handle_value handle.new) }
{
    let shown = source.shown()?;
    follow_shown(alloc, handle, shown, source.number())
}

/// The viewer shows what the source shows.
#[unsafe(no_mangle)]
pub extern "C" fn tk_follow_distinct(alloc: Global, handle: &mut Handle, source: &mut Handle) -> i32
    ensures follows { Reports result (λ outcome. FollowsSource (handle_value source.old)
        (handle_value handle.old) outcome (handle_value handle.new)) }
    ensures source { handle_value source.new ≡ handle_value source.old }
{
    let outcome = match source.take(alloc) {
        Some(kept) => {
            let outcome = follow_kept(alloc, handle, &kept);
            source.put(alloc, kept);
            outcome
        }
        None => Err(Failure::NoHandle),
    };
    status(outcome)
}
