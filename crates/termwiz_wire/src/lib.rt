//! Answers and asks as bytes, and back: CBOR in core deterministic encoding, in the form that
//! `docs/stream.cddl` describes. A stream is one answer after another.
//!
//! What is encoded is decoded again, whatever follows it, and the bytes of what is decoded are its
//! encoding. An error is the first fault from left to right, with its place, or want of memory.
//! After `Truncated` more bytes may complete the value; any other fault stays.
#![tactic(auto)]

mod decode;
mod encode;
mod fault;
mod more_bytes;
mod pieces;
mod sent;
mod work;

pub use cbor::FaultKind;
pub use decode::{
    Begun, Head, NoAnswer, decode_answer, decode_ask, decode_change, decode_changes, decode_head,
    decode_more,
};
pub use encode::{encode_answer, encode_answer_within, encode_ask, encode_change, encode_changes};
pub use fault::{Fault, Limits, WireError};
pub use more_bytes::{answers, decided, stays};
pub use sent::{Ask, LentAnswer, SentAnswer, SourceNo};
pub use work::is_borne;
