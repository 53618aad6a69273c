//! Cases of `surfview`'s scripts and of what it prints.
//!
//! `cases/LANGUAGE.md` lists the lines of a transcript and their answers.
mod endings;
pub mod recorded_diffs;
pub mod stage;
