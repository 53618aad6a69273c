//! Cases of values as bytes, and of what answers, sources and clients make of them. A line
//! `case ..` leaves nothing of the case before.
//!
//! `cases/LANGUAGE.md` lists the lines of a transcript and their answers.
mod bytes;
mod callers;
mod carried;
mod edits;
mod followed;
mod given;
mod scene;
pub mod stage;
mod watcher;
