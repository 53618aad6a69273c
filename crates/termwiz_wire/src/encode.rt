//! Values encoded at the end of bytes.
mod answers;
mod attributes;
mod changes;
mod links;
mod small;
mod texts;

pub use answers::{encode_answer, encode_answer_within, encode_ask};
pub(crate) use changes::change_count;
pub use changes::{encode_change, encode_changes};
