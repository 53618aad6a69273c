//! The words of the programs: numbers, sizes, and what `surfsend` and `surfwatch` may be asked for.
ghost use Rattle.std.specs.Prelude.{◌≡◌, ◌<◌, ◌↔◌, drop, length, IfSome, IsSome, MatchOption};
ghost use Rattle.std.specs.Option.{SomeIff};
ghost use Rattle.sessions.specs.Number.{IsNumber, value_of};
ghost use Rattle.sessions.specs.Size.{AreSizes, GiveSizes, IsSize};
ghost use Rattle.sessions.specs.Words.{AreSendWords, AskFor, GiveSending, IsInteractive};
ghost use Rattle.sessions.specs.Words.{IsPositive, IsWholeNumber, first_options};
ghost use Rattle.sessions.specs.declared.words.WatchOptions.{WatchOptions};

use crate::ending::SessionError;
use std::env;
use std::io::ErrorKind;
use termwiz_wire::{Limits, SourceNo};

/// The greatest width and height, in columns and rows.
const MAX_SIZE: u32 = 1000;

/// The words after the program's name. Words that aren't UTF-8 are no usage of any program here.
pub fn words(rt: &HostRuntime) -> Result<Vec<String>, SessionError> {
    let all = env::args(rt).map_err(|error| match error.kind() {
        ErrorKind::OutOfMemory => SessionError::Memory,
        _ => SessionError::Usage,
    })?;
    let words = all.skip(1).collect(rt.alloc())?;
    Ok(words)
}

/// What the words of `surfsend` ask for.
#[derive(Clone, Copy, PartialEq, Eq, Debug)]
pub struct SendOptions {
    /// The number of the source.
    pub source: SourceNo,
    /// The surface's columns.
    pub width: usize,
    /// The surface's rows.
    pub height: usize,
}

/// What the words of `surfwatch` ask for.
#[derive(Clone, Copy, PartialEq, Eq, Debug)]
pub struct WatchOptions {
    /// Whether what is shown after each answer is printed, or after the last one alone.
    pub each: bool,
    /// How many cells and bytes an answer may have.
    pub limits: Limits,
}

/// The size that a word gives: a number from 1 to 1000.
pub fn size(word: &str) -> Option<usize>
    ensures { SomeIff result (IsSize word.now) (value_of word.now) }
{
    let size = number(word)?;
    if 1 <= size && size <= MAX_SIZE {
        Some(size as usize)
    } else {
        None
    }
}

/// The number that a word of 1 to 10 decimal digits writes, which is at most 4294967295.
pub fn number(word: &str) -> Option<u32>
    ensures { SomeIff result (IsNumber word.now) (value_of word.now) }
{
    if word.len() > 10 || word.starts_with('+') {
        return None;
    }
    word.parse().ok()
}

/// The number that a word of decimal digits writes, which is at most 2^64 - 1.
pub(crate) fn whole(word: &str) -> Option<usize>
    ensures { SomeIff result (IsWholeNumber word.now) (value_of word.now) }
{
    if word.starts_with('+') {
        return None;
    }
    word.parse().ok()
}

/// The number from 1 on that a word of decimal digits writes, which is at most 2^64 - 1.
fn positive(word: &str) -> Option<usize>
    ensures { SomeIff result (IsPositive word.now) (value_of word.now) }
{
    let number = whole(word)?;
    if number == 0 { None } else { Some(number) }
}

/// The width and the height that the words give.
pub fn dimensions(args: &[String]) -> Option<(usize, usize)>
    ensures sizes { IsSome result ↔ AreSizes args.now }
    ensures found { IfSome result (λ found. GiveSizes args.now found.0 found.1) }
{
    match args {
        [width, height] => Some((size(width.as_str())?, size(height.as_str())?)),
        _ => None,
    }
}

/// The words after `-i`, where that is the first one.
pub fn interactive_words(args: &[String]) -> Option<&[String]>
    ensures { MatchOption result (IsInteractive args.now → ⊥)
        (λ words. IsInteractive args.now × (words.now ≡ drop 1 args.now)) }
{
    match args.split_first() {
        Some((option, words)) if option.as_str() == "-i" => Some(words),
        _ => None,
    }
}

/// What the words of `surfsend` ask for: a width and a height, and before them `-s` and a source's
/// number, which is 1 otherwise.
pub fn send_options(args: &[String]) -> Option<SendOptions>
    ensures words { IsSome result ↔ AreSendWords args.now }
    ensures found { IfSome result (λ options.
        GiveSending args.now options.source options.width options.height) }
    ensures source { IfSome result (λ options. 0 < options.source) }
{
    match args {
        [option, number, width, height] if option.as_str() == "-s" => Some(SendOptions {
            source: positive(number.as_str())?,
            width: size(width.as_str())?,
            height: size(height.as_str())?,
        }),
        _ => {
            let (width, height) = dimensions(args)?;
            Some(SendOptions {
                source: 1,
                width,
                height,
            })
        }
    }
}

/// What the words of `surfwatch` ask for, in any order: `-a`, and the limits after `--cells` and
/// `--bytes`, of which the second is at least 1.
pub fn watch_options(args: &[String]) -> Option<WatchOptions>
    ensures asked { IfSome result (λ options. AskFor first_options args.now options) }
    ensures some { IfSome result (λ options. 0 < options.limits.bytes) }
{
    let mut options = WatchOptions {
        each: false,
        limits: Limits::default(),
    };
    let mut rest = args;
    while !rest.is_empty() {
        rest = options.take(rest)?;
    }
    Some(options)
}

impl WatchOptions {
    // Takes the option at the front of the words, and returns the words after it.
    fn take<'a>(&mut self, words: &'a [String]) -> Option<&'a [String]>
        ensures asked { IfSome result (λ rest. (p : WatchOptions) →
            AskFor self.new rest.now p → AskFor self.old words.now p) }
        ensures shorter { IfSome result (λ rest. length rest.now < length words.now) }
        ensures some { 0 < self.old.limits.bytes → IfSome result (λ _. 0 < self.new.limits.bytes) }
    {
        match words {
            [word, rest @ ..] if word.as_str() == "-a" => {
                self.each = true;
                Some(rest)
            }
            [word, number, rest @ ..] if word.as_str() == "--cells" => {
                self.limits.cells = whole(number.as_str())?;
                Some(rest)
            }
            [word, number, rest @ ..] if word.as_str() == "--bytes" => {
                self.limits.bytes = positive(number.as_str())?;
                Some(rest)
            }
            _ => None,
        }
    }
}
