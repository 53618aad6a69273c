//! Texts of at most seven bytes, stored in the value itself.
ghost use Rattle.std.specs.Prelude.{◌≡◌, ◌≢◌, ◌<◌, ◌≤◌, ◌∷◌, [], MatchOption, bytes_eq, length};
ghost use Rattle.termwiz_cell.specs.{is_plain, space, true};

use arrayvec::ArrayString;

/// One printable character of ASCII.
#[inline(always)]
pub(super) fn plain_text(byte: u8) -> ArrayString<7>
    requires { is_plain byte ≡ true }
    ensures { result.bytes ≡ byte ∷ [] }
{
    let mut short = ArrayString::new();
    // The remainder shows the compiler that the text is one byte.
    short.push((byte % 128) as char);
    short
}

/// A space. The unused bytes are spaces too, so that all seven bytes are written as one constant.
#[inline(always)]
pub(super) fn space_text() -> ArrayString<7>
    ensures { result.bytes ≡ space }
{
    let mut short = ArrayString::new();
    short.push_str("       ");
    short.truncate(1);
    short
}

/// This text. One of at most four bytes, as each text of one character is, needs no call.
#[inline(always)]
pub(super) fn short_text(text: &str) -> ArrayString<7>
    requires { length text.now ≤ 7 }
    ensures { result.bytes ≡ text.now }
{
    match text.len() {
        1 => copied(text),
        2 => copied(text),
        3 => copied(text),
        4 => copied(text),
        _ => other_short_text(text),
    }
}

#[inline(never)]
fn other_short_text(text: &str) -> ArrayString<7>
    requires { length text.now ≤ 7 }
    ensures { result.bytes ≡ text.now }
{
    copied(text)
}

#[inline(always)]
fn copied(text: &str) -> ArrayString<7>
    requires { length text.now ≤ 7 }
    ensures { result.bytes ≡ text.now }
{
    let mut short = ArrayString::new();
    short.push_str(text);
    short
}

/// The byte of a text of one byte, which is a character of ASCII.
#[inline(always)]
pub(super) fn only_byte(short: &ArrayString<7>) -> Option<u8>
    ensures { MatchOption result (length short.now.bytes ≢ 1)
        (λ byte. (byte < 128) × (short.now.bytes ≡ byte ∷ [])) }
{
    match short.as_str().as_bytes() {
        [byte] => Some(*byte),
        _ => None,
    }
}

/// Whether both are the same text, neither of which is empty. Those of different lengths, and
/// those of at most four bytes, are compared without a call.
#[inline(always)]
#[tactic(auto, using(crate::proofs::TextForms::lengths_differ))]
pub(super) fn is_same_short(a: &ArrayString<7>, b: &ArrayString<7>) -> bool
    requires { 1 ≤ length a.now.bytes }
    ensures { result ≡ bytes_eq a.now.bytes b.now.bytes }
{
    if a.len() != b.len() {
        return false;
    }
    is_same_str(a.as_str(), b.as_str())
}

#[inline(always)]
#[tactic(auto, using(crate::proofs::TextForms::one_byte_tells))]
fn is_same_str(a: &str, b: &str) -> bool
    requires filled { 1 ≤ length a.now }
    requires lengths { length a.now ≡ length b.now }
    ensures { result ≡ bytes_eq a.now b.now }
{
    if a.len() < 2 {
        return a.as_bytes()[0] == b.as_bytes()[0];
    }
    match (a.as_bytes(), b.as_bytes()) {
        ([a, b], [c, d]) => *a == *c && *b == *d,
        ([a, b, c], [d, e, f]) => *a == *d && *b == *e && *c == *f,
        ([a, b, c, d], [e, f, g, h]) => *a == *e && *b == *f && *c == *g && *d == *h,
        _ => is_same_other(a, b),
    }
}

#[inline(never)]
fn is_same_other(a: &str, b: &str) -> bool
    ensures { result ≡ bytes_eq a.now b.now }
{
    a == b
}
