//! Cases of colours, links, attributes, cells, changes and widths, of texts that are cut, and of
//! items of CBOR.
//!
//! `cases/LANGUAGE.md` lists the lines of a transcript and their answers.
mod cells;
mod changes;
mod items;
mod links;
mod pens;
pub mod recorded;
pub mod stage;
mod texts;
mod values;
