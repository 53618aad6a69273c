//! Texts cut into graphemes, the extended grapheme clusters of UAX 29.
//!
//! Graphemes are those of `unicode_segmentation`. What precedes a boundary between two graphemes
//! doesn't change how the rest is cut, so each piece of a text is one grapheme by itself, and what
//! follows it is cut as a text of its own (`specs/First.antt`). Whether a text can be appended as
//! one more grapheme is decided from the last piece alone (`joined`, `specs/CutAt.antt`). Printable
//! ASCII (`specs/Plain.antt`) and letters of kana and common ideographs (`specs/Letter.antt`) need
//! no tables: a run of either is split off at once. Nor do common narrow characters, one by one.
#![tactic(auto)]

ghost use Rattle.std.specs.Prelude.{◌++◌, [], IsUtf8, List, MatchOption, drop, min, slice_index_or};
ghost use Rattle.std.specs.Prelude.{◌<◌, ◌↔◌, ◌∷◌, ◌≡◌, ◌≤◌, ℕ};
ghost use Rattle.termwiz_text.specs.{IfSome, IsFirst, IsTrue, false, length, list_all, take, true};
ghost use Rattle.termwiz_text.specs.{chars, encode_utf8, graphemes, graphemes_to_come, slice_index};
ghost use Rattle.termwiz_text.specs.Plain as plain;
ghost use Rattle.termwiz_text.specs.Letter as letter;

mod joined;

pub use joined::JoinedText;
use unicode_segmentation::UnicodeSegmentation;

fn is_plain(byte: u8) -> bool
    ensures { result ≡ plain.is_plain byte }
{
    b' ' <= byte && byte <= b'~'
}

/// Whether the text is one character of printable ASCII, U+0020 to U+007E.
pub fn is_one_plain(text: &str) -> bool
    ensures { result ≡ plain.is_one_plain text.now }
{
    match text.as_bytes() {
        [only] => is_plain(*only),
        _ => false,
    }
}

/// The text after a leading CR LF, which is one grapheme, or `None` where it begins otherwise.
#[inline]
pub fn after_line_end(text: &str) -> Option<&str>
    ensures { MatchOption result (letter.begins_line_end text.now ≡ false) (λ rest.
        IsFirst text.now (13 ∷ (10 ∷ [])) rest.now) }
{
    if begins_line_end(text) {
        let (_, rest) = text.split_at(2);
        return Some(rest);
    }
    None
}

// Whether the text begins with a CR and an LF.
fn begins_line_end(text: &str) -> bool
    ensures { result ≡ letter.begins_line_end text.now }
{
    match text.as_bytes() {
        [first, second, ..] => *first == b'\r' && *second == b'\n',
        _ => false,
    }
}

/// Whether the character is a letter of hiragana (U+3041 to U+3096) or katakana (U+30A1 to U+30FA),
/// or an ideograph from U+4E00 to U+9FFF. Other letters don't count.
pub fn is_letter(c: char) -> bool
    ensures { result ≡ letter.is_letter c }
{
    is_letter_number(u32::from(c))
}

// Whether `is_letter` holds for the character of this number.
fn is_letter_number(number: u32) -> bool
    ensures { result ≡ letter.is_letter number }
{
    matches!(number, 0x3041..=0x3096 | 0x30A1..=0x30FA | 0x4E00..=0x9FFF)
}

/// Whether the character is a letter of Latin beyond ASCII (U+00C0 to U+02FF), of Greek (U+0391 to
/// U+03C9) or of Cyrillic (U+0400 to U+0482), a mathematical operator (U+2200 to U+22FF), a part
/// of a box or a block (U+2500 to U+259F), or a braille pattern (U+2800 to U+28FF). Other
/// characters of one column don't count.
pub fn is_narrow(c: char) -> bool
    ensures { result ≡ letter.is_narrow c }
{
    matches!(
        u32::from(c),
        0x00C0..=0x02FF
            | 0x0391..=0x03C9
            | 0x0400..=0x0482
            | 0x2200..=0x22FF
            | 0x2500..=0x259F
            | 0x2800..=0x28FF
    )
}

/// The character of a text that has only one, or `None` for any other text.
#[inline]
pub fn only_char(text: &str) -> Option<char>
    ensures { result ≡ letter.only_char (chars text.now) }
{
    let mut chars = text.chars();
    let only = chars.next()?;
    if !chars.as_str().is_empty() {
        return None;
    }
    Some(only)
}

fn is_simple(c: char) -> bool
    ensures { result ≡ letter.is_simple c }
{
    c.is_ascii() || is_letter(c) || is_narrow(c)
}

// Whether the text is empty or begins with a simple character, which is no mark on the one before.
fn begins_simple(text: &str) -> bool
    ensures { result ≡ letter.begins_simple (chars text.now) }
{
    begins_ascii(text) || begins_simple_char(text)
}

// Decides it by the character. It is kept apart, so that the path of ASCII is short.
#[inline(never)]
fn begins_simple_char(text: &str) -> bool
    ensures { result ≡ letter.begins_simple (chars text.now) }
{
    match text.chars().next() {
        Some(first) => is_simple(first),
        None => true,
    }
}

// Whether the text is empty or begins with a character of ASCII.
fn begins_ascii(text: &str) -> bool
    ensures { result ≡ plain.begins_ascii text.now }
{
    match text.as_bytes() {
        [first, ..] => first.is_ascii(),
        [] => true,
    }
}

// The first grapheme and the rest, if both begin with simple characters, which need no table.
fn split_first_simple(text: &str) -> Option<(&str, &str)>
    ensures { IfSome result (λ (first, rest). IsFirst text.now first.now rest.now) }
{
    if begins_line_end(text) {
        return Some(text.split_at(2));
    }
    let first = text.chars().next()?;
    if !is_simple(first) {
        return None;
    }
    let (front, rest) = text.split_at(first.len_utf8());
    if !begins_simple(rest) {
        return None;
    }
    Some((front, rest))
}

/// The first grapheme of a text, and the rest, which is cut as a text of its own, or `None` for the
/// empty text.
pub fn split_first_grapheme(text: &str) -> Option<(&str, &str)>
    ensures { MatchOption result (graphemes true text.now ≡ []) (λ (first, rest).
        IsFirst text.now first.now rest.now) }
{
    if let Some(split) = split_first_simple(text) {
        return Some(split);
    }
    let mut pieces = text.graphemes(true);
    let first = pieces.next()?;
    Some((first, pieces.as_str()))
}

/// How many bytes are compared at once.
const BLOCK: usize = 16;

// Whether all bytes are printable ASCII. The loop doesn't stop early, so that the bytes of a block
// are compared at once.
#[inline(always)]
fn are_plain(bytes: &[u8]) -> bool
    ensures { result ≡ list_all plain.is_plain bytes.now }
{
    let mut all = true;
    for k in 0..bytes.len() {
        all &= is_plain(bytes[k]);
    }
    all
}

// How many of the first `end` bytes are in leading blocks of printable ASCII alone.
fn count_plain_blocks(bytes: &[u8], end: usize) -> usize
    requires { end ≤ length bytes.now }
    ensures within { result ≤ end }
    ensures plain { list_all plain.is_plain (take result bytes.now) ≡ true }
{
    for k in 0..end / BLOCK {
        if !are_plain(&bytes[BLOCK * k..BLOCK * k + BLOCK]) {
            return BLOCK * k;
        }
    }
    end / BLOCK * BLOCK
}

// How many leading bytes, at most `limit`, are printable ASCII.
fn count_plain(bytes: &[u8], limit: usize) -> usize
    ensures within { result ≤ min limit (length bytes.now) }
    ensures plain { list_all plain.is_plain (take result bytes.now) ≡ true }
    ensures stops { result < min limit (length bytes.now) →
        plain.is_plain (slice_index bytes.now result) ≡ false }
{
    let end = limit.min(bytes.len());
    for i in count_plain_blocks(bytes, end)..end {
        if !is_plain(bytes[i]) {
            return i;
        }
    }
    end
}

/// Splits off a run of printable ASCII, U+0020 to U+007E, of at most `limit` bytes, with which the
/// text begins. Each byte of the run is a grapheme by itself, and the rest is cut as a text of its
/// own.
///
/// The run may be empty. It is shorter than `limit` only where the rest is empty, begins with
/// another character, or begins with printable ASCII directly before a character that may be a mark
/// on it: one that isn't ASCII, and for which neither `is_letter` nor `is_narrow` holds.
#[inline(always)]
pub fn split_plain_run(text: &str, limit: usize) -> (&str, &str)
    ensures { plain.IsPlainRun text.now limit result.0.now result.1.now }
{
    let count = count_plain(text.as_bytes(), limit);
    let (run, rest) = text.split_at(count);
    if count == 0 || begins_simple(rest) {
        return (run, rest);
    }
    text.split_at(count - 1)
}

// Whether a text of these bytes begins with a letter. Each has three bytes, of which the first has
// four bits of its number, and each of the others has six.
#[inline(always)]
fn bytes_begin_letter(bytes: &[u8]) -> bool
    requires { IsUtf8 bytes.now }
    ensures { result ≡ letter.begins_letter (chars bytes.now) }
{
    match bytes {
        [first @ 0xE0..=0xEF, second, third, ..] => is_letter_number(
            u32::from(*first % 16) * 4096 + u32::from(*second % 64) * 64 + u32::from(*third % 64),
        ),
        _ => false,
    }
}

/// Whether the text begins with a letter for which `is_letter` holds.
#[inline]
pub fn begins_letter(text: &str) -> bool
    ensures { result ≡ letter.begins_letter (chars text.now) }
{
    bytes_begin_letter(text.as_bytes())
}

// How many letters the text begins with, at most `limit`.
fn count_letters(text: &str, limit: usize) -> usize
    ensures within { result ≤ min limit (length (chars text.now)) }
    ensures letters { list_all letter.is_letter (take result (chars text.now)) ≡ true }
    ensures stops { result < limit →
        letter.begins_letter (drop result (chars text.now)) ≡ false }
{
    let bytes = text.as_bytes();
    for k in 0..limit {
        if !bytes_begin_letter(&bytes[3 * k..]) {
            return k;
        }
    }
    limit
}

/// Splits off a run of at most `limit` letters for which `is_letter` holds, with which the text
/// begins. Each letter of the run is a grapheme by itself, and the rest is cut as a text of its
/// own.
///
/// The run may be empty. It has fewer letters only where the rest is empty, begins with another
/// character, or begins with a letter directly before a character that may be a mark on it: one
/// that isn't ASCII, and for which neither `is_letter` nor `is_narrow` holds.
pub fn split_letter_run(text: &str, limit: usize) -> (&str, &str)
    ensures { letter.IsLetterRun text.now limit result.0.now result.1.now }
{
    let count = count_letters(text, limit);
    let (run, rest) = text.split_at(3 * count);
    if count == 0 || begins_simple(rest) {
        return (run, rest);
    }
    text.split_at(3 * (count - 1))
}

/// The number of letters in a run of letters. Each has three bytes.
#[inline]
pub fn letter_count(run: &str) -> usize
    requires { letter.AreLetters run.now }
    ensures { result ≡ length (chars run.now) }
{
    run.len() / 3
}

/// The letter at an index of a run of letters.
#[inline]
pub fn letter_at(run: &str, k: usize) -> &str
    requires letters { letter.AreLetters run.now }
    requires inside { k < length (chars run.now) }
    ensures { result.now ≡ encode_utf8 (slice_index_or (chars run.now) k 0) }
{
    &run[3 * k..3 * k + 3]
}

// Whether the text at the end of the whole is its last grapheme.
fn is_last_grapheme(whole: &str, text: &str) -> bool
    ensures { (front : List ℕ) → whole.now ≡ front ++ text.now →
        (IsTrue result ↔ (graphemes true whole.now ≡ graphemes true front ++ text.now ∷ [])) }
{
    match whole.graphemes(true).next_back() {
        Some(last) => last == text,
        None => false,
    }
}

/// The graphemes of a text, in order.
#[derive(Debug, Drop)]
pub struct Graphemes<'a> {
    rest: &'a str,
}

impl<'a> Graphemes<'a> {
    /// The graphemes of this text.
    pub fn new(text: &'a str) -> Graphemes<'a>
        ensures left { graphemes_to_come result ≡ graphemes true text.now }
        ensures len { length (graphemes_to_come result) ≤ length text.now }
    {
        Graphemes { rest: text }
    }
}

impl<'a> Iterator for Graphemes<'a> {
    ghost use Rattle.std.specs.Iterator.{item_count};
    ghost use Rattle.unicode_segmentation.specs.Segments.{GivesFirst};

    type Item = &'a str;

    ghost next_gives = { GivesFirst (λ piece. piece.now) graphemes_to_come };

    ghost remaining = { item_count graphemes_to_come };

    fn next(&mut self) -> Option<&'a str> {
        let (first, rest) = split_first_grapheme(self.rest)?;
        self.rest = rest;
        Some(first)
    }
}
