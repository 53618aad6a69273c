//! A text that grows by one grapheme at a time.
ghost use Rattle.std.specs.Prelude.{◌≡◌, ◌↔◌, ◌++◌, ◌∷◌, if◌then◌else◌, [], IfSome, string_bytes};
ghost use Rattle.termwiz_text.specs.{IfOk, IsCutAt, IsTrue, List, OnErr, OnOk, graphemes, is_plain};
ghost use Rattle.termwiz_text.specs.{is_plain_last, true, ℕ};

use super::{is_last_grapheme, is_one_plain, is_plain};
use std::alloc::{AllocError, Global};
use std::marker::Model;

/// A text that grows by one grapheme at a time: a text is only appended where it becomes the last
/// grapheme of the whole and leaves the graphemes before it unchanged.
#[derive(Drop)]
pub struct JoinedText {
    text: String,
    // the byte at which the text that was appended last begins
    last: usize,
    // whether the last byte is known to be printable ASCII
    ends_plain: bool,
}

impl Model for JoinedText {
    ghost use Rattle.std.specs.Prelude.{◌≡◌, List, string_bytes, true, ℕ};
    ghost use Rattle.termwiz_text.specs.CutAt.{IsCutAt};
    ghost use Rattle.termwiz_text.specs.Plain.{is_plain_last};

    ghost Value = { List ℕ };

    ghost view = { λ joined. string_bytes joined.text };

    ghost invariant = { λ joined. IsCutAt (string_bytes joined.text) joined.last
        × (joined.ends_plain ≡ true → is_plain_last (string_bytes joined.text) ≡ true) };
}

// The byte of a text that is one character of printable ASCII, or `None` for another text.
#[inline(always)]
fn only_plain(text: &str) -> Option<u8>
    ensures plain { IfSome result (λ byte. is_plain byte ≡ true) }
    ensures only { IfSome result (λ byte. text.now ≡ byte ∷ []) }
{
    match text.as_bytes() {
        [only] if is_plain(*only) => Some(*only),
        _ => None,
    }
}

// Appends a text. One character of printable ASCII is copied without a call.
#[inline(always)]
fn append(text: &mut String, more: &str) -> Result<(), AllocError>
    ensures ok { OnOk result (string_bytes text.new ≡ string_bytes text.old ++ more.now) }
    ensures err { OnErr result (string_bytes text.new ≡ string_bytes text.old) }
{
    match only_plain(more) {
        Some(byte) => text.push(byte as char)?,
        None => text.push_str(more)?,
    }
    Ok(())
}

// Appends a text if it becomes the last grapheme and leaves the others unchanged, and returns
// whether it did. Only the bytes from `last` on are cut again.
fn join_by_cut(text: &mut String, last: usize, more: &str) -> Result<bool, AllocError>
    requires { IsCutAt (string_bytes text.old) last }
    ensures joins { IfOk result (λ joined. IsTrue joined
        ↔ (graphemes true (string_bytes text.old ++ more.now)
        ≡ graphemes true (string_bytes text.old) ++ more.now ∷ [])) }
    ensures text { IfOk result (λ joined.
        string_bytes text.new
        ≡ (if joined then string_bytes text.old ++ more.now else string_bytes text.old)) }
    ensures err { OnErr result (string_bytes text.new ≡ string_bytes text.old) }
{
    let before = text.as_str();
    let seam = before.len();
    text.push_str(more)?;
    let (_, tail) = text.as_str().split_at(last);
    if is_last_grapheme(tail, more) {
        return Ok(true);
    }
    text.truncate(seam);
    Ok(false)
}

impl JoinedText {
    /// The empty text. It takes no memory.
    pub fn empty(alloc: Global) -> JoinedText
        ensures { result ≡ [] }
    {
        JoinedText {
            text: String::new(alloc),
            last: 0,
            ends_plain: false,
        }
    }

    /// Replaces the text by a copy of this one, and reuses its memory. After an error it may hold
    /// any text.
    pub fn restart(&mut self, first: &str) -> Result<(), AllocError>
        ensures { OnOk result (self.new ≡ first.now) }
    {
        self.last = 0;
        self.ends_plain = false;
        self.text.clear();
        append(&mut self.text, first)?;
        self.ends_plain = is_one_plain(first);
        Ok(())
    }

    /// A copy of this text, to which others may be appended.
    pub fn new(alloc: Global, first: &str) -> Result<JoinedText, AllocError>
        ensures { IfOk result (λ joined. joined ≡ first.now) }
    {
        let text = String::from_str(alloc, first)?;
        Ok(JoinedText {
            text,
            last: 0,
            ends_plain: is_one_plain(first),
        })
    }

    /// Appends a text if it becomes the last grapheme and leaves the others unchanged, and returns
    /// whether it did. The empty text and a text of several graphemes are never appended. If
    /// nothing is appended, and after an error, the text is unchanged.
    ///
    /// Only the text that was appended last, or the first one, is cut again with it.
    #[inline(always)]
    pub fn join(&mut self, more: &str) -> Result<bool, AllocError>
        ensures joins { IfOk result (λ joined. IsTrue joined
            ↔ (graphemes true (self.old ++ more.now) ≡ graphemes true self.old ++ more.now ∷ [])) }
        ensures text { IfOk result (λ joined.
            self.new ≡ (if joined then self.old ++ more.now else self.old)) }
        ensures err { OnErr result (self.new ≡ self.old) }
    {
        if self.ends_plain {
            if let Some(byte) = only_plain(more) {
                self.push_plain(byte)?;
                return Ok(true);
            }
        }
        self.join_other(more)
    }

    /// Whether the text ends in printable ASCII.
    pub fn ends_plain(&self) -> bool
        ensures { result ≡ is_plain_last self.now }
    {
        match self.text.as_str().as_bytes().last() {
            Some(last) => is_plain(*last),
            None => false,
        }
    }

    /// Appends a character of printable ASCII after another one, where it is always a grapheme by
    /// itself. An error leaves the text unchanged.
    #[inline(always)]
    pub fn push_plain(&mut self, byte: u8) -> Result<(), AllocError>
        requires plain { is_plain byte ≡ true }
        requires behind { is_plain_last self.old ≡ true }
        ensures joins { graphemes true (self.old ++ byte ∷ [])
            ≡ graphemes true self.old ++ (byte ∷ []) ∷ [] }
        ensures ok { OnOk result (self.new ≡ self.old ++ byte ∷ []) }
        ensures ends { OnOk result (is_plain_last self.new ≡ true) }
        ensures err { OnErr result (self.new ≡ self.old) }
    {
        let seam = self.text.as_str().len();
        // The remainder shows the compiler that the character is one byte.
        self.text.push((byte % 128) as char)?;
        self.last = seam;
        Ok(())
    }

    // Appends any text. It is kept out of line, so that the path of printable ASCII is short.
    #[inline(never)]
    fn join_other(&mut self, more: &str) -> Result<bool, AllocError>
        ensures joins { IfOk result (λ joined. IsTrue joined
            ↔ (graphemes true (self.old ++ more.now) ≡ graphemes true self.old ++ more.now ∷ [])) }
        ensures text { IfOk result (λ joined.
            self.new ≡ (if joined then self.old ++ more.now else self.old)) }
        ensures err { OnErr result (self.new ≡ self.old) }
    {
        let seam = self.text.as_str().len();
        let joined = join_by_cut(&mut self.text, self.last, more)?;
        if joined {
            self.last = seam;
            self.ends_plain = is_one_plain(more);
        }
        Ok(joined)
    }

    /// The text so far.
    pub fn as_str(&self) -> &str
        ensures { result.now ≡ self.now }
    {
        self.text.as_str()
    }

    /// The text so far, without a copy.
    pub fn into_string(self) -> String
        ensures { string_bytes result ≡ self }
    {
        self.text
    }
}
