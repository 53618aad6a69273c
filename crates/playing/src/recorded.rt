//! Cases with recorded answers. A line that begins with `<` is one of an answer, and each other
//! line of a case asks. A case agrees where its lines, played again, give the recorded answers.
use crate::error::PlayError;
use crate::play::{Play, answer, push_lines};
use std::alloc::Global;
use std::io::Write;
use std::{fs, mem};

/// Plays the cases of a file, each of which begins with a line that begins with `first`, and prints
/// which of them differ, and how many agree. Fails with `Differs` unless all agree.
pub fn play_recorded<P: Play>(
    rt: &HostRuntime,
    name: &str,
    first: &str,
    play: &mut P,
) -> Result<(), PlayError> {
    let recording = fs::read_to_string(rt, name).map_err(|_| PlayError::Io)?;
    let mut replay = Replay {
        alloc: rt.alloc(),
        case: String::new(rt.alloc()),
        first: 1,
        lines: 0,
        cases: 0,
        agreeing: 0,
        answers: 0,
        differences: String::new(rt.alloc()),
    };
    replay.play(recording.as_str(), first, play)?;
    let (differences, answers) = (replay.differences.as_str(), replay.answers);
    let (agreeing, cases) = (replay.agreeing, replay.cases);
    let report = format!(in rt.alloc();
        "{differences}{name}: {agreeing} of {cases} cases agree, {answers} lines of answers\n"
    )?;
    rt.stdout()
        .write_all(report.as_bytes())
        .map_err(|_| PlayError::Io)?;
    if agreeing == cases {
        Ok(())
    } else {
        Err(PlayError::Differs)
    }
}

/// How the cases of a recording were played so far.
#[derive(Drop)]
struct Replay {
    alloc: Global,
    // The lines of the case that is read, and the number of its first one.
    case: String,
    first: usize,
    // How many lines were read, how many cases were played and how many of these agree, and how
    // many lines of answers those have.
    lines: usize,
    cases: usize,
    agreeing: usize,
    answers: usize,
    // A line for each case that differs.
    differences: String,
}

impl Replay {
    fn play<P: Play>(
        &mut self,
        recording: &str,
        first: &str,
        play: &mut P,
    ) -> Result<(), PlayError> {
        for line in recording.split_inclusive('\n') {
            if line.starts_with(first) {
                self.end_case(play)?;
            }
            self.case.push_str(line)?;
            self.lines = self.lines.saturating_add(1);
        }
        self.end_case(play)
    }

    // Plays the case that was read, if any.
    fn end_case<P: Play>(&mut self, play: &mut P) -> Result<(), PlayError> {
        let case = mem::replace(&mut self.case, String::new(self.alloc));
        if !case.is_empty() {
            let replayed = replayed(self.alloc, case.as_str(), play);
            let replayed = replayed.unwrap_or(String::new(self.alloc));
            self.compare(case.as_str(), replayed.as_str())?;
        }
        self.first = self.lines.saturating_add(1);
        Ok(())
    }

    // Counts a case that agrees and its answers, or names the case and the first line that differs.
    fn compare(&mut self, case: &str, replayed: &str) -> Result<(), PlayError> {
        self.cases = self.cases.saturating_add(1);
        if replayed == case {
            self.agreeing = self.agreeing.saturating_add(1);
            for line in case.lines() {
                if line.starts_with('<') {
                    self.answers = self.answers.saturating_add(1);
                }
            }
            return Ok(());
        }
        let title = case.lines().next().unwrap_or("");
        let (recorded, own) = first_difference(case, replayed);
        let first = self.first;
        writeln!(
            self.differences,
            "line {first}, {title}: recorded `{recorded}`, here `{own}`"
        )?;
        Ok(())
    }
}

// The lines of a case that ask, each with what is answered to it now.
fn replayed<P: Play>(alloc: Global, case: &str, play: &mut P) -> Result<String, PlayError> {
    let mut lines = String::new(alloc);
    for line in case.lines() {
        if !line.starts_with('<') {
            push_lines(&mut lines, "", line)?;
            let answer = answer(alloc, line, play)?;
            push_lines(&mut lines, "< ", answer.as_str())?;
        }
    }
    Ok(lines)
}

// The first line in which two texts differ, of each.
fn first_difference<'a>(text: &'a str, other: &'a str) -> (&'a str, &'a str) {
    let mut others = other.lines();
    for line in text.lines() {
        let other = others.next().unwrap_or("");
        if line != other {
            return (line, other);
        }
    }
    ("", others.next().unwrap_or(""))
}
