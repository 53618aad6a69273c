//! Cases of lines that are made and edited, and questions about them.
//!
//! `cases/LANGUAGE.md` lists the lines of a transcript and their answers.
mod asks;
mod cells;
mod clusters;
mod edits;
mod makes;
mod pens;
mod readings;
mod recorded;
pub mod stage;
mod words;
