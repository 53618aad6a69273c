//! Cases of surfaces that are drawn in steps, and questions about them. Words are parted by one
//! space.
//!
//! `cases/LANGUAGE.md` lists the lines of a transcript and their answers.
pub mod answers;
mod lists;
pub mod measure;
mod refusals;
mod runs;
mod sequences;
pub mod sizes;
pub mod stage;
mod tables;
