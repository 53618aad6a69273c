//! Workloads of viewers of a surface.
use crate::asking::{answer_of, bytes_of};
use crate::drawn::{Done, SHORT, Screen, Start, Sum, add_text, begun, move_to};
use std::alloc::{AllocError, Global};
use termwiz_cell::change::{Change, CursorVisibility};
use termwiz_cell::emoji::UnicodeWidths;
use termwiz_surface::surface::SurfaceError;
use termwiz_surface::view::Viewer;

type Reader = Viewer<UnicodeWidths>;

/// How a viewer comes to show what its surface shows, as `workload` says.
#[derive(Clone, Copy)]
pub enum View {
    Follow,
    Accept,
    Deliver,
    Refresh,
    Type,
    Repaint,
}

/// Changes the surface `count` times, and a viewer shows it each time.
pub fn viewed(alloc: Global, start: Start, view: View, count: u32) -> Sum {
    let mut surface = begun(alloc, start, None)?;
    let mut viewer = Viewer::new(alloc, &surface)?;
    for round in 0..count {
        match view {
            View::Refresh | View::Type => renew(alloc, &mut surface, &mut viewer, view, round)?,
            View::Repaint => follow_repaint(&mut surface, &mut viewer)?,
            _ => show(alloc, &mut surface, &mut viewer, view, round)?,
        }
    }
    Ok(viewer.last())
}

// The log is flushed every 64 lines.
#[inline(always)]
fn show(alloc: Global, surface: &mut Screen, viewer: &mut Reader, view: View, round: u32) -> Done {
    add_text(alloc, surface, SHORT)?;
    match view {
        View::Accept => accept(surface, viewer)?,
        View::Deliver => deliver(alloc, surface, viewer)?,
        _ => {
            viewer.follow(surface)?;
        }
    }
    if round % 64 == 63 {
        surface.flush_changes_older_than(viewer.last());
    }
    Ok(())
}

// The viewer is answered, and accepts.
#[inline(always)]
fn accept(surface: &Screen, viewer: &mut Reader) -> Done {
    let answer = surface.answer(viewer.last())?;
    viewer.accept(&answer).map_err(|_| SurfaceError::Memory)?;
    Ok(())
}

// The viewer is answered by bytes, and accepts what they say.
fn deliver(alloc: Global, surface: &Screen, viewer: &mut Reader) -> Done {
    let answer = surface.answer(viewer.last())?;
    let bytes = bytes_of(alloc, &answer, 64)?;
    let received = answer_of(alloc, bytes.as_slice())?;
    viewer
        .accept(&received.answer)
        .map_err(|_| SurfaceError::Memory)?;
    Ok(())
}

// Both logs are flushed. What is typed takes 70 columns of one row over and over.
#[inline(always)]
fn renew(alloc: Global, surface: &mut Screen, viewer: &mut Reader, view: View, round: u32) -> Done {
    let types = matches!(view, View::Type);
    if types && round % 70 == 0 {
        move_to(surface, 0, 12)?;
    }
    let text = if types { "k" } else { SHORT };
    add_text(alloc, surface, text)?;
    viewer.follow(surface)?;
    surface.flush_changes_older_than(viewer.last());
    viewer.flush_changes_older_than(viewer.surface().current_seqno());
    Ok(())
}

// What changed is flushed before the viewer follows, so that its number isn't known.
fn follow_repaint(surface: &mut Screen, viewer: &mut Reader) -> Done {
    surface.add_change(Change::CursorVisibility(CursorVisibility::Visible))?;
    surface.flush_changes_older_than(surface.current_seqno());
    viewer.follow(surface)?;
    Ok(())
}

/// Prints lines that a hundred viewers accept.
pub fn viewed_by_hundred(alloc: Global, count: u32) -> Sum {
    let mut surface = begun(alloc, Start::Blank, None)?;
    let mut viewers = viewers(alloc, &surface, 100)?;
    for _ in 0..count {
        add_text(alloc, &mut surface, SHORT)?;
        for viewer in viewers.as_mut_slice().iter_mut() {
            accept(&surface, viewer)?;
        }
        // All viewers have the coming number.
        surface.flush_changes_older_than(surface.current_seqno());
    }
    Ok(surface.current_seqno())
}

fn viewers(alloc: Global, surface: &Screen, count: usize) -> Result<Vec<Reader>, AllocError> {
    let mut viewers = Vec::new(alloc);
    for _ in 0..count {
        viewers.push(Viewer::new(alloc, surface)?)?;
    }
    Ok(viewers)
}
