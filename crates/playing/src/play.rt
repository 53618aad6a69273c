//! Transcripts: lines that are played one by one, and printed again with their answers.
use crate::error::PlayError;
use crate::turn::Turn;
use std::alloc::Global;
use std::io::{self, Write};

/// What answers the lines of cases.
pub trait Play {
    /// Plays a line, and adds the lines of its answer.
    fn line(&mut self, turn: &mut Turn<'_>);
}

/// Plays the transcript on standard input, and prints each of its lines again with its answer
/// below it, two spaces in. The answers of the transcript, blank lines, and comments, which begin
/// with `#`, aren't played. A transcript that holds is printed as it is.
///
/// A line to which memory is refused is played once more, and is answered by `refused` where it is
/// refused memory again. Where the line above it is a question that begins with `? `, that is
/// asked again first; unless its answer is as it was, the play fails with `Differs`.
///
/// Fails at the first line that can't be played, which is printed last with the error below it.
pub fn play_input<P: Play>(rt: &HostRuntime, play: &mut P) -> Result<(), PlayError> {
    let script = io::read_to_string(rt.alloc(), rt.stdin()).map_err(|_| PlayError::Io)?;
    let mut printed = String::new(rt.alloc());
    let mut above = Above {
        alloc: rt.alloc(),
        question: None,
        answer: String::new(rt.alloc()),
    };
    let played = play_lines(script.as_str(), &mut above, play, &mut printed);
    rt.stdout()
        .write_all(printed.as_bytes())
        .map_err(|_| PlayError::Io)?;
    played
}

fn play_lines<'a, P: Play>(
    script: &'a str,
    above: &mut Above<'a>,
    play: &mut P,
    printed: &mut String,
) -> Result<(), PlayError> {
    for line in script.lines() {
        if line.starts_with("  ") {
            continue;
        }
        writeln!(printed, "{line}")?;
        if line.is_empty() || line.starts_with('#') {
            continue;
        }
        match above.answered(line, play) {
            Ok(answer) => {
                push_lines(printed, "  ", answer.as_str())?;
                above.question = line.strip_prefix("? ");
                above.answer = answer;
            }
            Err(error) => {
                writeln!(printed, "  {error:?}")?;
                return Err(error);
            }
        }
    }
    Ok(())
}

/// The line above, if it is a question that is asked again, and its answer.
#[derive(Drop)]
struct Above<'a> {
    alloc: Global,
    question: Option<&'a str>,
    answer: String,
}

impl Above<'_> {
    fn answered<P: Play>(&self, line: &str, play: &mut P) -> Result<String, PlayError> {
        let line = line.strip_prefix("? ").unwrap_or(line);
        match answer(self.alloc, line, play) {
            Err(PlayError::Memory) => self.ask(play)?,
            answered => return answered,
        }
        match answer(self.alloc, line, play) {
            Err(PlayError::Memory) => Ok("refused".to_owned(self.alloc)?),
            answered => answered,
        }
    }

    // Fails unless the question above is answered as it was.
    fn ask<P: Play>(&self, play: &mut P) -> Result<(), PlayError> {
        let Some(question) = self.question else {
            return Ok(());
        };
        let answer = answer(self.alloc, question, play)?;
        if answer.as_str() == self.answer.as_str() {
            Ok(())
        } else {
            Err(PlayError::Differs)
        }
    }
}

/// Plays a line, and returns the lines of its answer.
pub(crate) fn answer<P: Play>(
    alloc: Global,
    line: &str,
    play: &mut P,
) -> Result<String, PlayError> {
    let mut turn = Turn::new(alloc, line)?;
    play.line(&mut turn);
    turn.into_answer()
}

/// Adds each line after a mark.
pub(crate) fn push_lines(printed: &mut String, mark: &str, lines: &str) -> Result<(), PlayError> {
    for line in lines.lines() {
        writeln!(printed, "{mark}{line}")?;
    }
    Ok(())
}
