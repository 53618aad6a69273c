//! Plays transcripts of calls: each line of standard input is printed again with its answer below
//! it, two spaces in. A transcript that holds is printed as it is. Blank lines and those that begin
//! with `#` aren't played.
//!
//! `stage NAME` sets the stage on which the lines below it are played: `cells`, `lines`,
//! `scripts`, `surfaces` or `streams`. `cases/LANGUAGE.md` lists the lines of each. A line
//! `case TITLE` begins a case on any stage.
//!
//!     player             plays standard input, and then the recorded answers of `data/`
//!     player play        plays standard input alone
//!     player compressed  plays it with each line compressed after each call on it
//!
//! Where memory is refused to a line, it is played once more: see `playing::play`.
#![tactic(auto)]

mod scripts;
mod stages;
mod streams;

use playing::error::PlayError;
use playing::play::play_input;
use playing::recorded::play_recorded;
use playing::{cells, lines};
use stages::Stages;
use std::env;

fn main(rt: HostRuntime) -> Result<(), PlayError> {
    let mut words = env::args(&rt).map_err(|_| PlayError::Memory)?;
    match words.nth(1) {
        Some(word) => play_input(
            &rt,
            &mut Stages::new(rt.alloc(), word.as_str() == "compressed"),
        ),
        None => play_all(&rt),
    }
}

fn play_all(rt: &HostRuntime) -> Result<(), PlayError> {
    let alloc = rt.alloc();
    play_input(rt, &mut Stages::new(alloc, false))?;
    play_recorded(rt, "links.txt", "> ", &mut cells::recorded::Player)?;
    play_recorded(
        rt,
        "lines.txt",
        "case",
        &mut lines::stage::Stage::new(alloc, false),
    )?;
    play_recorded(
        rt,
        "lines.txt",
        "case",
        &mut lines::stage::Stage::new(alloc, true),
    )?;
    let mut diffs = scripts::recorded_diffs::Player::new(alloc)?;
    play_recorded(rt, "diffs.txt", "case ", &mut diffs)
}
