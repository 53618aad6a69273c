//! CBOR (RFC 8949) in its core deterministic encoding: encodes and decodes integers, booleans,
//! null, texts and the heads of arrays.
//!
//! An encoder appends to a `Vec<u8>`; a `Reader` decodes from the front of a slice. Each value has
//! one encoding, with the shortest head and a definite length. Decoding returns each value that was
//! encoded, and accepts no other encoding. Byte strings, maps, tags and floats are not supported.
#![tactic(auto)]

mod encoding;
mod error;
mod kind;
mod len;
mod more_bytes;
mod reader;

pub use encoding::{put_array, put_bool, put_null, put_signed, put_text, put_unsigned};
pub use error::{FaultKind, ReadError};
pub use kind::Kind;
pub use len::unsigned_len;
pub use more_bytes::{beginnings, decided};
pub use reader::{Reader, kinds};
