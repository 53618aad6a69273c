//! Runs of scripts of `surfview`.
ghost use Rattle.std.specs.Prelude.{IfOk};
ghost use Rattle.sessions.specs.Events.{AreInRange};
ghost use Rattle.sessions.specs.ViewRun.{ComeFrom};
ghost use Rattle.termwiz_surface.specs.{IsSurfaceSize};

use crate::view::script::Events;
use std::alloc::{AllocError, Global};
use termwiz_cell::emoji::UnicodeWidths;
use termwiz_surface::view::{self, ManyOutcome, Outcome};

/// How many viewers a surface has where a script names one of them.
const VIEWERS: usize = 10;

/// What came of a script.
#[derive(Drop)]
pub enum Outcomes {
    /// The outcomes on a surface with one viewer.
    OfOne(Vec<Outcome>),
    /// Those on a surface with several viewers.
    OfMany(Vec<ManyOutcome>),
}

/// What comes of the events, on a blank surface of this width and this height.
pub fn run(
    alloc: Global,
    width: usize,
    height: usize,
    events: Events,
) -> Result<Outcomes, AllocError>
    requires size { IsSurfaceSize width height }
    requires sizes { AreInRange events }
    ensures { IfOk result (λ outcomes. ComeFrom width height events outcomes) }
{
    match events {
        Events::OfOne(events) => {
            let outcomes = view::run(alloc, UnicodeWidths, width, height, events)?;
            Ok(Outcomes::OfOne(outcomes))
        }
        Events::OfMany(events) => {
            let outcomes = view::run_many(alloc, UnicodeWidths, width, height, VIEWERS, events)?;
            Ok(Outcomes::OfMany(outcomes))
        }
    }
}
