//! What an event does to a surface and its viewer, and its outcome.
ghost use Rattle.std.specs.Prelude.{◌≡◌, IfOk, OnOk, map};
ghost use Rattle.termwiz_surface.specs.{Acts, Allows, Follows, IfSome, IsInRange, IsNone};
ghost use Rattle.termwiz_surface.specs.{Preserves, ReportsOutcome, Views, change_value};
ghost use Rattle.termwiz_surface.specs.{SurfaceValue, cow_slice_items, measure, with_empty_log};

use super::{Event, Outcome, Viewer};
use crate::surface::{Surface, SurfaceError};
use std::alloc::{AllocError, Global};
use std::borrow::CowSlice;
use termwiz_cell::change::{Change, SequenceNo};
use termwiz_cell::emoji::Widths;

/// Runs one event.
pub(super) fn serve<W: Widths>(
    alloc: Global,
    surface: &mut Surface<W>,
    viewer: &mut Viewer<W>,
    event: Event<W>,
) -> Result<Outcome, AllocError>
    requires range { IsInRange event }
    requires follows { Follows (measure W.width_of) viewer.old surface.old }
    ensures step { IfOk result (λ outcome. Allows (measure W.width_of)
        surface.old viewer.old event outcome surface.new viewer.new) }
    ensures follows { OnOk result (Follows (measure W.width_of) viewer.new surface.new) }
{
    match act(alloc, surface, event) {
        Some(outcome) => Ok(outcome),
        None => {
            let outcome = follow(alloc, surface, viewer)?;
            forget_made(viewer);
            Ok(outcome)
        }
    }
}

// Forgets the changes that the viewer applied, since nobody follows it.
fn forget_made<W: Widths>(viewer: &mut Viewer<W>)
    ensures forgets { viewer.new ≡ with_empty_log viewer.old }
    ensures follows { (s : SurfaceValue W) →
        Follows (measure W.width_of) viewer.old s → Follows (measure W.width_of) viewer.new s }
{
    viewer.flush_changes_older_than(viewer.surface().current_seqno());
}

/// Runs one event on the surface: any but `Follow`.
pub(super) fn act<W: Widths>(
    alloc: Global,
    surface: &mut Surface<W>,
    event: Event<W>,
) -> Option<Outcome>
    requires { IsInRange event }
    ensures step { IfSome result (λ outcome.
        Acts (measure W.width_of) surface.old event outcome surface.new) }
    ensures widths { surface.new.widths ≡ surface.old.widths }
    ensures preserves { Preserves (measure W.width_of) surface.old surface.new }
    ensures none { IsNone result → (event ≡ Event.Follow) × (surface.new ≡ surface.old) }
{
    match event {
        Event::Changes(changes) => Some(answered(surface.add_changes(changes))),
        Event::Draw(other, x, y) => Some(answered(surface.draw_from_screen(&other, x, y))),
        Event::Copy(src_x, src_y, width, height, dest_x, dest_y) => {
            let answer = surface.copy_region(src_x, src_y, width, height, dest_x, dest_y);
            Some(answered(answer))
        }
        Event::Flush(seq) => {
            surface.flush_changes_older_than(seq);
            Some(Outcome::Done)
        }
        Event::Resize(width, height) => match surface.resize(width, height) {
            Ok(()) => Some(Outcome::Done),
            Err(error) => Some(Outcome::Refused(error)),
        },
        Event::Follow => None,
        Event::Show => match surface.screen_chars_to_string() {
            Ok(text) => Some(Outcome::Shown(text, surface.cursor_position())),
            Err(_) => Some(Outcome::Refused(SurfaceError::Memory)),
        },
        Event::Ask(seq) => Some(ask(alloc, surface, seq)),
    }
}

// The result of adding a list of changes, as an outcome.
fn answered(answer: Result<SequenceNo, SurfaceError>) -> Outcome
    ensures { ReportsOutcome (λ reported. reported ≡ answer) result }
{
    match answer {
        Ok(number) => Outcome::Answered(number),
        Err(error) => Outcome::Refused(error),
    }
}

// The viewer follows. The outcome has the changes that it applied, and what it shows then.
fn follow<W: Widths>(
    alloc: Global,
    surface: &Surface<W>,
    viewer: &mut Viewer<W>,
) -> Result<Outcome, AllocError>
    requires { Follows (measure W.width_of) viewer.old surface.now }
    ensures views { IfOk result (λ outcome.
        Views (measure W.width_of) surface.now viewer.old outcome viewer.new) }
    ensures follows { OnOk result (Follows (measure W.width_of) viewer.new surface.now) }
{
    match viewer.fetch(surface) {
        Ok((number, changes)) => {
            let copies = copied(alloc, CowSlice::Borrowed(changes.as_slice()))?;
            match viewer.make(number, changes) {
                Ok(number) => {
                    if surface.is_full() {
                        let shown = viewer.surface().full_screen()?;
                        return Ok(Outcome::FollowedFull(number, copies, shown));
                    }
                    let screen = viewer.surface().screen()?;
                    Ok(Outcome::Followed(number, copies, screen))
                }
                Err(error) => Ok(Outcome::Refused(error)),
            }
        }
        Err(error) => Ok(Outcome::Refused(error)),
    }
}

// The changes from a number on, as an owned list.
fn ask<W: Widths>(alloc: Global, surface: &Surface<W>, seq: SequenceNo) -> Outcome
    ensures { Acts (measure W.width_of) surface.now (Event.Ask seq) result surface.now }
{
    match surface.get_changes(seq) {
        Ok((number, changes)) => match copied(alloc, changes) {
            Ok(changes) => Outcome::Asked(number, changes),
            Err(_) => Outcome::Refused(SurfaceError::Memory),
        },
        Err(_) => Outcome::Refused(SurfaceError::Memory),
    }
}

/// Changes as an owned list. Borrowed ones are cloned, and owned ones moved.
pub fn copied(alloc: Global, changes: CowSlice<'_, Change>) -> Result<Vec<Change>, AllocError>
    ensures { IfOk result (λ copies.
        map change_value copies.items ≡ map change_value (cow_slice_items changes.entry)) }
{
    changes.into_owned(alloc)
}
