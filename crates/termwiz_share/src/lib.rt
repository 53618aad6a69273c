//! A screen that is shared: the two ends of a stream of answers, as values that read and write no
//! file or socket.
//!
//! - A `Source` is a full surface with a number of its own. It answers the asks of clients, and
//!   keeps no changes that no answer needs.
//! - A `Client` shows what a source showed. It takes the bytes of answers in whatever chunks they
//!   come, of many sources, late, repeated or in any order, and asks by what it shows.
//!
//! `specs/Histories.antt` says what a client shows of a stream, wherever that is cut, and
//! `specs/Serving.antt` what a source and its clients keep to between calls. `specs/Feeding.antt`
//! says what a client makes of any bytes.
#![tactic(auto)]

mod client;
mod error;
mod responses;
mod source;
mod store;
mod taken;

pub use client::Client;
pub use error::ClientError;
pub use source::Source;
pub use taken::Taken;
