//! Runs that aren't those of their text, so far.
ghost use Rattle.std.specs.Prelude.{◌≤◌, length};

use crate::pieces::Run;

/// Runs of a text that are decoded by their rules alone.
#[derive(Debug, Drop)]
pub(super) struct OtherRuns {
    // Those of the text.
    pub(super) characters: Vec<char>,
    // How many of them are in the runs that are decoded.
    pub(super) passed: usize,
    pub(super) last: Run,
    // Whether one of the runs is a reason to send them.
    pub(super) needed: bool,
    // How many runs follow these.
    pub(super) left: usize,
    ghost within: { passed ≤ length characters.items },
}
