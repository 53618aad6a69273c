//! Lines of cells.
//!
//! - **A line** is its stored cells, its number, its flags and the form that stores the cells: one
//!   by one, or in one text (`specs/LineValue.antt`, `specs/LineFlags.antt`). An edit is a function
//!   on lists of `termwiz_storage`, and raises the line's number. A line stays one text while cells
//!   are set, appended or marked at its end. Any other edit stores its cells one by one, and
//!   `compress_for_scrollback` makes it a text again. The clauses of each edit state this.
//! - **Zones, wraps and shaper clusters** split the visible cells into longest pieces
//!   (`specs/Pieces.antt`), and a double click selects the longest run at a column
//!   (`specs/Clicks.antt`). A line caches its zones until the next edit.
//! - **A row** of width w is the settled list of w cells: the first w stored cells, padded with
//!   blanks, where the cell after a wide one is its half (`specs/Row.antt`). Laws state what
//!   painting and clearing show (`specs/Shows.antt`, `specs/RowLaws.antt`).
//! - **Row entries** are the changes that print visible cells, starting with a pen
//!   (`specs/Entries.antt`). `entries/writer.rt` writes them cell by cell and holds back the spaces
//!   that may end a row, and `entries/list.rt` joins their texts.
//!
//! The module `entries` is hidden: it is for the crates above, and callers use `Line::changes`.
#![tactic(auto)]

pub mod cellcluster;
#[doc(hidden)]
pub mod entries;
pub mod laws;
pub mod line;
