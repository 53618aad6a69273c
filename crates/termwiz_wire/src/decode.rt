//! Values decoded from the front of bytes.
mod answers;
mod asks;
mod attributes;
mod begun;
mod changes;
mod cut_links;
mod cut_texts;
mod cuts;
mod halted;
mod heads;
mod links;
mod other_runs;
mod small;

pub use answers::decode_answer;
pub use asks::decode_ask;
pub use begun::{Begun, NoAnswer, decode_more};
pub use changes::{decode_change, decode_changes};
pub use heads::{Head, decode_head};
