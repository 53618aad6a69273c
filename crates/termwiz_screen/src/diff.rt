//! Diffs: the changes that print what own rows lack of other rows, of a region of them, or of
//! lines.
pub mod lists;
pub mod region;
mod rows;
mod runs;
mod writer;
