//! A line that is played: its words, and what is answered to it.
use crate::error::PlayError;
use crate::words::named;
use std::alloc::{AllocError, Global};
use std::fmt::Display;

// How many bytes of an answer are never refused.
const SHORT: usize = 64;

/// The words of a line that are still to be read, and what is answered to it so far.
///
/// A word that is missing or says nothing, and memory that is refused, are faults. The first is
/// kept, and what is read and made from then on is some value: so a line is read and answered
/// without a check at each word. Where a call changes what the line leaves, ask `has_failed` first.
///
/// Memory for the first 64 bytes of an answer is there from the beginning.
#[derive(Drop)]
pub struct Turn<'a> {
    pub alloc: Global,
    /// The words that are still to be read.
    pub(crate) rest: &'a str,
    answer: String,
    fault: Option<PlayError>,
}

impl<'a> Turn<'a> {
    pub(crate) fn new(alloc: Global, line: &'a str) -> Result<Turn<'a>, AllocError> {
        Ok(Turn {
            alloc,
            rest: line,
            answer: String::with_capacity(alloc, SHORT)?,
            fault: None,
        })
    }

    /// The answer, or the first fault.
    pub(crate) fn into_answer(self) -> Result<String, PlayError> {
        match self.fault {
            Some(fault) => Err(fault),
            None => Ok(self.answer),
        }
    }

    /// Keeps a fault, unless there is one.
    pub fn fail(&mut self, fault: PlayError) {
        if self.fault.is_none() {
            self.fault = Some(fault);
        }
    }

    /// Whether there was a fault.
    pub fn has_failed(&self) -> bool {
        self.fault.is_some()
    }

    /// Keeps the fault of a call that makes nothing, if it has one.
    pub fn note<T: Drop, E: Drop>(&mut self, made: Result<T, E>)
    where
        PlayError: From<E>,
    {
        if let Err(error) = made {
            self.fail(PlayError::from(error));
        }
    }

    /// What a call made, unless it failed.
    pub fn kept<T: Drop, E: Drop>(&mut self, made: Result<T, E>) -> Option<T>
    where
        PlayError: From<E>,
    {
        match made {
            Ok(made) => Some(made),
            Err(error) => {
                self.fail(PlayError::from(error));
                None
            }
        }
    }

    /// Adds what a call made to a list, unless it failed.
    pub fn keep<T: Drop>(&mut self, list: &mut Vec<T>, made: Option<T>) {
        if let Some(made) = made {
            let pushed = list.push(made);
            self.note(pushed);
        }
    }

    /// Nothing, since memory was refused to a call.
    pub fn refused<T: Drop>(&mut self) -> Option<T> {
        self.fail(PlayError::Memory);
        None
    }

    /// What the line names, unless it names nothing.
    pub fn found<T: Drop>(&mut self, named: Option<T>) -> Option<T> {
        if named.is_none() {
            self.fail(PlayError::Bad);
        }
        named
    }

    /// Whether all words are read.
    pub fn is_read(&self) -> bool {
        self.rest.is_empty()
    }

    /// Whether the words begin with these characters, which are read then.
    pub fn takes(&mut self, front: &str) -> bool {
        match self.rest.strip_prefix(front) {
            Some(rest) => {
                self.rest = rest;
                true
            }
            None => false,
        }
    }

    /// All words that aren't read, as they stand.
    pub fn rest(&mut self) -> &'a str {
        let rest = self.rest;
        self.rest = "";
        rest
    }

    /// The two sides of a question that compares.
    pub(crate) fn sides(&mut self) -> (&'a str, &'a str) {
        let sides = self.rest.split_once(" | ");
        self.found(sides).unwrap_or(("", ""))
    }

    /// The next word.
    pub fn word(&mut self) -> &'a str {
        if self.rest.is_empty() {
            self.fail(PlayError::Bad);
        }
        let (word, rest) = self.rest.split_once(' ').unwrap_or((self.rest, ""));
        self.rest = rest;
        word
    }

    /// The number that a word writes, or `max` for the greatest.
    pub fn number_of(&mut self, word: &str) -> usize {
        if word == "max" {
            return usize::MAX;
        }
        let number = word.parse().ok();
        self.found(number).unwrap_or(0)
    }

    /// The number that the next word writes.
    pub fn number(&mut self) -> usize {
        let word = self.word();
        self.number_of(word)
    }

    /// The numbers that the next two words write.
    pub fn pair(&mut self) -> (usize, usize) {
        let first = self.number();
        (first, self.number())
    }

    /// The one of a list that the next word numbers.
    pub fn numbered<'b, T>(&mut self, list: &'b mut Vec<T>) -> Option<&'b mut T> {
        let number = self.number();
        self.found(list.get_mut(number))
    }

    /// The value of the next word in a table of names, and some value for any other word.
    pub fn named<T: Copy + Drop>(&mut self, names: &[(&str, T)], value: T) -> T {
        let word = self.word();
        self.found(named(names, word)).unwrap_or(value)
    }

    /// Whether nothing was answered so far.
    pub(crate) fn is_unanswered(&self) -> bool {
        self.answer.is_empty()
    }

    /// Answers a text.
    pub fn push_str(&mut self, text: &str) {
        let added = self.answer.push_str(text);
        self.note(added);
    }

    /// Answers a character.
    pub fn push(&mut self, c: char) {
        let added = self.answer.push(c);
        self.note(added);
    }

    /// Answers a text with a bar after it.
    pub fn push_barred(&mut self, text: &str) {
        self.push_str(text);
        self.push('|');
    }

    /// Answers a text that a call made, unless it failed.
    pub(crate) fn push_made(&mut self, made: Result<String, AllocError>) {
        match made {
            Ok(text) => self.push_str(text.as_str()),
            Err(_) => self.fail(PlayError::Memory),
        }
    }

    /// Answers what `write!` and `writeln!` format.
    pub fn write_fmt<D: Display + Drop>(&mut self, text: D) {
        let added = self.answer.write_fmt(text);
        self.note(added);
    }
}
