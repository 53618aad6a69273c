//! A line, and the changes that print it.
pub mod bidi;
pub mod line;
mod linebits;

pub use termwiz_storage::line::cellref::{CellRef, VisibleCellIter};
pub use termwiz_storage::line::vecstorage::VecStorage;
