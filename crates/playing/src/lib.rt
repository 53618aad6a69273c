//! Plays transcripts of calls, and cases with recorded answers: what all stages share, and the
//! stages that need no more than cells, lines and surfaces.
//!
//! - `play`: transcripts, and what a stage is.
//! - `recorded`: cases with recorded answers.
//! - `turn`: a line that is played, its words, and what is answered to it.
//! - `words`, `escapes`, `attributes`, `pens`, `changes`: values by the words of a turn.
//! - `cells`, `lines`, `surfaces`: the three stages.
//! - `error`: why a play ends early.
#![tactic(auto)]

mod attributes;
pub mod cells;
mod changes;
pub mod error;
mod escapes;
pub mod lines;
mod pens;
pub mod play;
pub mod recorded;
pub mod surfaces;
pub mod turn;
pub mod words;
