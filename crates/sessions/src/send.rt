//! One run of `surfsend`: from its words and its input to what it sends and its exit status.
ghost use Rattle.std.specs.Prelude.{◌≡◌, ◌⊎◌, IfErr, IfOk, IfSome, IsErr, OnOk, drop};
ghost use Rattle.std.specs.Io.KnownBytes.{Appends};
ghost use Rattle.std.specs.List.{All};
ghost use Rattle.sessions.specs.Answering.{AnswersAsAsked, AnswersFirstAsAsked};
ghost use Rattle.sessions.specs.Sending.{IsSendInRange, bytes_sent, stream_sent};
ghost use Rattle.sessions.specs.Saying.{SaysSend};
ghost use Rattle.sessions.specs.SendRun.{BeginsRun, IsSendRun, WritesRun};
ghost use Rattle.sessions.specs.Words.{AreRunWords, AreSendWords, IsInteractive};
ghost use Rattle.sessions.specs.Lines.{Say};
ghost use Rattle.sessions.specs.Status.{exit_status};
ghost use Rattle.sessions.specs.Writing.{AppendsSome};

mod answering;
pub mod runs;
pub mod script;

use crate::ending::{SessionError, bytes, write, write_bytes};
use crate::printed::Printed;
use crate::send::answering::answer_lines;
use crate::send::runs::{SendEvent, SendOutcome, sent};
use crate::send::script::read;
use crate::words::{interactive_words, send_options};
use std::alloc::Global;
use std::io::{BufReader, Read, Write};

/// The program's name and the words that it takes.
pub const USAGE: &str = "surfsend [-i] [-s NUMBER] WIDTH HEIGHT";

/// Runs the script that `input` holds on a surface of the size that `args` give, in columns and
/// rows, and sends its answers to `out`, as those of the source that the number after `-s` names,
/// or of source 1. What is refused goes to `err`. With `-i` each line is done as soon as it has
/// come, and may be an ask, whose answer is sent.
///
/// The result is the exit status: 0 where all is done, 2 for words that are no size, an input that
/// can't be read or a bad command, and 3 for refused memory or a failed write. A line on `err` says
/// why, but for a failed write. With status 2 nothing is written to `out`, or with `-i` what the
/// lines before the bad one ask for, and with status 3 at most a beginning of the output.
pub fn send_session<R: Read, O: Write, E: Write>(
    alloc: Global,
    args: &[String],
    input: &mut R,
    out: &mut O,
    err: &mut E,
) -> u8
    ensures statuses { (result ≡ 0) ⊎ (result ≡ 2) ⊎ (result ≡ 3) }
    ensures done { result ≡ 0 → AreRunWords args.now }
    ensures refused { result ≡ 2 → IsInteractive args.now ⊎ (out.new ≡ out.old) }
    ensures usage { AreRunWords args.now ⊎ ((input.new ≡ input.old) × (out.new ≡ out.old)) }
    // Where the input and the output are known: what the script's lines send is written.
    ensures sent { result ≡ 0 → IsInteractive args.now ⊎ WritesRun args.now
        (R.remaining input.old) (O.contents out.old) (O.contents out.new) }
    // With `-i`, the answers that the lines ask for are written.
    ensures answered { result ≡ 0 → IsInteractive args.now → AnswersAsAsked (drop 1 args.now)
        (R.remaining input.old) (O.contents out.old) (O.contents out.new) }
    // At each status a beginning of that is written, and nothing else.
    ensures begun { IsInteractive args.now ⊎ (out.new ≡ out.old) ⊎ BeginsRun args.now
        (R.remaining input.old) (O.contents out.old) (O.contents out.new) }
    ensures answering { IsInteractive args.now →
        (out.new ≡ out.old) ⊎ AnswersFirstAsAsked (drop 1 args.now) (R.remaining input.old)
        (AppendsSome (O.contents out.old) (O.contents out.new)) }
    // Where a line stops the run, the answers that the lines before it ask for are written whole.
    ensures stopped { result ≡ 2 → IsInteractive args.now →
        (out.new ≡ out.old) ⊎ AnswersFirstAsAsked (drop 1 args.now) (R.remaining input.old)
        (Appends (O.contents out.old) (O.contents out.new)) }
{
    match interactive_words(args) {
        Some(words) => answer_session(alloc, words, input, out, err),
        None => script_session(alloc, args, input, out, err),
    }
}

/// Sends the answers of the script that `input` holds, once it is read.
fn script_session<R: Read, O: Write, E: Write>(
    alloc: Global,
    args: &[String],
    input: &mut R,
    out: &mut O,
    err: &mut E,
) -> u8
    ensures statuses { (result ≡ 0) ⊎ (result ≡ 2) ⊎ (result ≡ 3) }
    ensures done { result ≡ 0 → AreSendWords args.now }
    ensures refused { result ≡ 2 → out.new ≡ out.old }
    ensures usage { AreSendWords args.now ⊎ ((input.new ≡ input.old) × (out.new ≡ out.old)) }
    ensures sent { result ≡ 0 → WritesRun args.now (R.remaining input.old)
        (O.contents out.old) (O.contents out.new) }
    ensures begun { (out.new ≡ out.old) ⊎ BeginsRun args.now (R.remaining input.old)
        (O.contents out.old) (O.contents out.new) }
{
    match outcomes(alloc, args, input) {
        Ok(outcomes) => match send_each(alloc, outcomes.as_slice(), out, err) {
            Ok(()) => 0,
            Err(error) => error.report(USAGE, err),
        },
        Err(error) => error.report(USAGE, err),
    }
}

/// Sends the answers that the lines of `input` ask for, as they come.
fn answer_session<R: Read, O: Write, E: Write>(
    alloc: Global,
    words: &[String],
    input: &mut R,
    out: &mut O,
    err: &mut E,
) -> u8
    ensures statuses { (result ≡ 0) ⊎ (result ≡ 2) ⊎ (result ≡ 3) }
    ensures done { result ≡ 0 → AreSendWords words.now }
    ensures usage { AreSendWords words.now ⊎ ((input.new ≡ input.old) × (out.new ≡ out.old)) }
    ensures answered { result ≡ 0 → AnswersAsAsked words.now
        (R.remaining input.old) (O.contents out.old) (O.contents out.new) }
    ensures begun { (out.new ≡ out.old) ⊎ AnswersFirstAsAsked words.now (R.remaining input.old)
        (AppendsSome (O.contents out.old) (O.contents out.new)) }
    ensures stopped { result ≡ 2 → (out.new ≡ out.old) ⊎ AnswersFirstAsAsked words.now
        (R.remaining input.old) (Appends (O.contents out.old) (O.contents out.new)) }
{
    match answer(alloc, words, input, out, err) {
        Ok(()) => 0,
        Err(error) => error.report(USAGE, err),
    }
}

/// Sends the answers that the lines of `input` ask for, on a surface of the width and the height
/// that the words give.
fn answer<R: Read, O: Write, E: Write>(
    alloc: Global,
    words: &[String],
    input: &mut R,
    out: &mut O,
    err: &mut E,
) -> Result<(), SessionError>
    ensures usage { AreSendWords words.now
        ⊎ (IsErr result × (input.new ≡ input.old) × (out.new ≡ out.old)) }
    ensures answered { OnOk result (AnswersAsAsked words.now
        (R.remaining input.old) (O.contents out.old) (O.contents out.new)) }
    ensures begun { (out.new ≡ out.old) ⊎ AnswersFirstAsAsked words.now (R.remaining input.old)
        (AppendsSome (O.contents out.old) (O.contents out.new)) }
    ensures stopped { IfErr result (λ error. exit_status error ≡ 2 →
        (out.new ≡ out.old) ⊎ AnswersFirstAsAsked words.now (R.remaining input.old)
        (Appends (O.contents out.old) (O.contents out.new))) }
{
    let options = send_options(words).ok_or(SessionError::Usage)?;
    let lines = BufReader::new(alloc, input).map_err(|_| SessionError::Memory)?;
    answer_lines(alloc, options, lines, out, err)
}

/// What comes of the script that `input` holds, on a surface of the width and the height that the
/// words give.
fn outcomes<R: Read>(
    alloc: Global,
    args: &[String],
    input: &mut R,
) -> Result<Vec<SendOutcome>, SessionError>
    ensures usage { AreSendWords args.now ⊎ (IsErr result × (input.new ≡ input.old)) }
    ensures run { IfOk result (λ outcomes.
        IsSendRun args.now (R.remaining input.old) outcomes.items) }
{
    let options = send_options(args).ok_or(SessionError::Usage)?;
    let events = events(alloc, input)?;
    let outcomes = sent(alloc, options.source, options.width, options.height, events)?;
    Ok(outcomes)
}

/// The events of the script that `input` holds.
fn events<R: Read>(alloc: Global, input: &mut R) -> Result<Vec<SendEvent>, SessionError>
    ensures sizes { IfOk result (λ events. All IsSendInRange events.items) }
    ensures said { IfOk result (λ events. IfSome (R.remaining input.old) (λ script.
        Say SaysSend script events.items)) }
{
    let bytes = bytes(alloc, input)?;
    let script = str::from_utf8(bytes.as_slice()).map_err(|_| SessionError::Unreadable)?;
    let events = read(alloc, script)?;
    Ok(events)
}

/// Sends each answer, and reports what was refused.
fn send_each<O: Write, E: Write>(
    alloc: Global,
    outcomes: &[SendOutcome],
    out: &mut O,
    err: &mut E,
) -> Result<(), SessionError>
    ensures failed { IfErr result (λ error. exit_status error ≡ 3) }
    ensures sent { OnOk result (
        Appends (O.contents out.old) (O.contents out.new) (stream_sent outcomes.now)) }
    ensures begun { AppendsSome (O.contents out.old) (O.contents out.new)
        (stream_sent outcomes.now) }
{
    for outcome in outcomes {
        send_one(alloc, outcome, out, err)?;
    }
    Ok(())
}

/// Sends an answer, or reports what was refused.
pub(crate) fn send_one<O: Write, E: Write>(
    alloc: Global,
    outcome: &SendOutcome,
    out: &mut O,
    err: &mut E,
) -> Result<(), SessionError>
    ensures failed { IfErr result (λ error. exit_status error ≡ 3) }
    ensures sent { OnOk result (
        Appends (O.contents out.old) (O.contents out.new) (bytes_sent outcome.now)) }
    ensures begun { AppendsSome (O.contents out.old) (O.contents out.new) (bytes_sent outcome.now) }
{
    match outcome {
        SendOutcome::Of(outcome) => write(alloc, Printed(outcome), err),
        SendOutcome::Sent(bytes) => send(bytes.as_slice(), out),
    }
}

/// Writes an answer's bytes, and lets them go.
fn send<O: Write>(bytes: &[u8], out: &mut O) -> Result<(), SessionError>
    ensures failed { IfErr result (λ error. exit_status error ≡ 3) }
    ensures sent { OnOk result (Appends (O.contents out.old) (O.contents out.new) bytes.now) }
    ensures begun { AppendsSome (O.contents out.old) (O.contents out.new) bytes.now }
{
    write_bytes(bytes, out)?;
    out.flush().map_err(|_| SessionError::Write)
}
