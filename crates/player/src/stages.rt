//! The stages, of which one is set at a time.
use crate::{scripts, streams};
use playing::error::PlayError;
use playing::play::Play;
use playing::turn::Turn;
use playing::{cells, lines, surfaces};
use std::alloc::Global;

#[derive(Drop)]
enum Stage {
    None,
    Cells(cells::stage::Stage),
    Lines(lines::stage::Stage),
    Scripts(scripts::stage::Stage),
    Streams(streams::stage::Stage),
    Surfaces(surfaces::stage::Stage),
}

/// The stage that is set, if any.
#[derive(Drop)]
pub struct Stages {
    alloc: Global,
    compresses: bool,
    stage: Stage,
}

impl Stages {
    /// No stage is set yet. Lines are left as calls leave them, or compressed after each call.
    pub fn new(alloc: Global, compresses: bool) -> Stages {
        Stages {
            alloc,
            compresses,
            stage: Stage::None,
        }
    }

    fn set(&mut self, turn: &mut Turn<'_>) {
        let alloc = self.alloc;
        self.stage = match turn.word() {
            "cells" => Stage::Cells(cells::stage::Stage::new()),
            "lines" => Stage::Lines(lines::stage::Stage::new(alloc, self.compresses)),
            "scripts" => Stage::Scripts(scripts::stage::Stage::new(alloc)),
            "streams" => Stage::Streams(streams::stage::Stage::new(alloc)),
            "surfaces" => Stage::Surfaces(surfaces::stage::Stage::new(alloc)),
            _ => return turn.fail(PlayError::Bad),
        };
    }
}

impl Play for Stages {
    fn line(&mut self, turn: &mut Turn<'_>) {
        if turn.takes("stage ") {
            return self.set(turn);
        }
        match &mut self.stage {
            Stage::None => turn.fail(PlayError::Bad),
            Stage::Cells(stage) => stage.line(turn),
            Stage::Lines(stage) => stage.line(turn),
            Stage::Scripts(stage) => stage.line(turn),
            Stage::Streams(stage) => stage.line(turn),
            Stage::Surfaces(stage) => stage.line(turn),
        }
    }
}
