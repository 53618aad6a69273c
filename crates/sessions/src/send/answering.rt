//! A source that answers what comes on an input, line by line.
ghost use Rattle.std.specs.Prelude.{◌≡◌, ◌⊎◌, ◌<◌, IfErr, IfOk, IfSome, OnOk};
ghost use Rattle.std.specs.Io.KnownBytes.{Appends};
ghost use Rattle.termwiz_surface.specs.{IsSurfaceSize};
ghost use Rattle.sessions.specs.Answering.{AnswersFirst, SendsLine, WritesAnswers};
ghost use Rattle.sessions.specs.Requests.{IsRequestInRange, MaySay};
ghost use Rattle.sessions.specs.Status.{exit_status};
ghost use Rattle.sessions.specs.Writing.{AppendsSome};

use crate::ending::SessionError;
use crate::script::{Command, LineError};
use crate::send::runs::{Request, answered};
use crate::send::send_one;
use crate::words::SendOptions;
use std::alloc::Global;
use std::io::{BufRead, Error, ErrorKind, Write};
use termwiz_share::Source;
use termwiz_surface::{SEQ_ZERO, SequenceNo, UnicodeWidths};

/// Does on a blank surface what each line of `input` asks for, as soon as the line has come, and
/// sends the answers. What is refused goes to `err`.
pub(crate) fn answer_lines<B: BufRead + Drop, O: Write, E: Write>(
    alloc: Global,
    options: SendOptions,
    input: B,
    out: &mut O,
    err: &mut E,
) -> Result<(), SessionError>
    requires source { 0 < options.source }
    requires size { IsSurfaceSize options.width options.height }
    ensures answered { OnOk result (WritesAnswers options.source options.width options.height
        (B.remaining input) (O.contents out.old) (O.contents out.new)) }
    ensures begun { AnswersFirst options.source options.width options.height
        (B.remaining input) (AppendsSome (O.contents out.old) (O.contents out.new)) }
    ensures stopped { IfErr result (λ error. exit_status error ≡ 2 →
        AnswersFirst options.source options.width options.height
        (B.remaining input) (Appends (O.contents out.old) (O.contents out.new))) }
{
    let (width, height) = (options.width, options.height);
    let mut source = Source::new(alloc, options.source, width, height, UnicodeWidths)?;
    let mut last = SEQ_ZERO;
    let mut number: usize = 0;
    for piece in input.split(alloc, b'\n') {
        let line = piece.map_err(|error| unread(&error))?;
        number = number.saturating_add(1);
        answer_line(
            alloc,
            &mut source,
            &mut last,
            line.as_slice(),
            number,
            out,
            err,
        )?;
    }
    Ok(())
}

/// Does what the line of this number asks for, if it says something, and sends the answer. The
/// number of the last answer that was sent is `last`.
fn answer_line<O: Write, E: Write>(
    alloc: Global,
    source: &mut Source<UnicodeWidths>,
    last: &mut SequenceNo,
    line: &[u8],
    number: usize,
    out: &mut O,
    err: &mut E,
) -> Result<(), SessionError>
    ensures answered { OnOk result (
        SendsLine line.now source.old last.old source.new last.new
        (Appends (O.contents out.old) (O.contents out.new))) }
    ensures begun { (out.new ≡ out.old)
        ⊎ SendsLine line.now source.old last.old source.new last.new
        (AppendsSome (O.contents out.old) (O.contents out.new)) }
    ensures stopped { IfErr result (λ error. exit_status error ≡ 2 → out.new ≡ out.old) }
{
    match request(alloc, line, number)? {
        Some(request) => {
            let outcome = answered(alloc, source, last, request)?;
            send_one(alloc, &outcome, out, err)
        }
        None => Ok(()),
    }
}

/// How a session ends whose input can't be read.
fn unread(error: &Error) -> SessionError {
    match error.kind() {
        ErrorKind::OutOfMemory => SessionError::Memory,
        _ => SessionError::Unreadable,
    }
}

/// The request of the line of this number, if it says one.
fn request(alloc: Global, line: &[u8], number: usize) -> Result<Option<Request>, SessionError>
    ensures in_range { IfOk result (λ request. IfSome request IsRequestInRange) }
    ensures said { IfOk result (λ request. MaySay line.now request) }
{
    let line = str::from_utf8(line).map_err(|_| SessionError::Unreadable)?;
    if let [] | [b'#', ..] = line.as_bytes() {
        return Ok(None);
    }
    match Request::of_line(alloc, line) {
        Ok(request) => Ok(Some(request)),
        Err(LineError::BadCommand) => Err(SessionError::BadCommand(number)),
        Err(LineError::Memory) => Err(SessionError::Memory),
    }
}
