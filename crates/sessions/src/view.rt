//! One run of `surfview`: from its words and its input to what it prints and its exit status.
ghost use Rattle.std.specs.Prelude.{◌≡◌, ◌⊎◌, IfErr, IfOk, IsErr};
ghost use Rattle.sessions.specs.Events.{AreInRange};
ghost use Rattle.sessions.specs.Size.{AreSizes};
ghost use Rattle.sessions.specs.Status.{exit_status};
ghost use Rattle.sessions.specs.ViewRun.{IsViewRun};

pub mod runs;
pub mod script;

use crate::ending::{SessionError, bytes, write};
use crate::printed::{Printed, PrintedMany};
use crate::view::runs::{Outcomes, run};
use crate::view::script::{Events, read};
use crate::words::dimensions;
use std::alloc::Global;
use std::io::{Read, Write};
use termwiz_surface::view::{ManyOutcome, Outcome};

/// The program's name and the words that it takes.
pub const USAGE: &str = "surfview WIDTH HEIGHT";

/// Runs the script that `input` holds on a surface of the size that `args` give, in columns and
/// rows, and prints its outcomes to `out`.
///
/// The result is the exit status: 0 where all is done, 2 for words that are no size, an input that
/// can't be read or a bad command, and 3 for refused memory or a failed write. A line on `err` says
/// why, but for a failed write. With status 2 nothing is written to `out`.
pub fn view_session<R: Read, O: Write, E: Write>(
    alloc: Global,
    args: &[String],
    input: &mut R,
    out: &mut O,
    err: &mut E,
) -> u8
    ensures statuses { (result ≡ 0) ⊎ (result ≡ 2) ⊎ (result ≡ 3) }
    ensures done { result ≡ 0 → AreSizes args.now × (err.new ≡ err.old) }
    ensures refused { result ≡ 2 → out.new ≡ out.old }
    ensures usage { AreSizes args.now ⊎ ((input.new ≡ input.old) × (out.new ≡ out.old)) }
{
    match outcomes(alloc, args, input) {
        Ok(outcomes) => match print(alloc, &outcomes, out) {
            Ok(()) => 0,
            Err(error) => error.report(USAGE, err),
        },
        Err(error) => error.report(USAGE, err),
    }
}

/// What comes of the script that `input` holds, on a surface of the width and the height that the
/// words give.
fn outcomes<R: Read>(
    alloc: Global,
    args: &[String],
    input: &mut R,
) -> Result<Outcomes, SessionError>
    ensures usage { AreSizes args.now ⊎ (IsErr result × (input.new ≡ input.old)) }
    ensures run { IfOk result (λ outcomes. IsViewRun args.now outcomes) }
{
    let (width, height) = dimensions(args).ok_or(SessionError::Usage)?;
    let events = events(alloc, input)?;
    let outcomes = run(alloc, width, height, events)?;
    Ok(outcomes)
}

/// The events of the script that `input` holds.
fn events<R: Read>(alloc: Global, input: &mut R) -> Result<Events, SessionError>
    ensures { IfOk result AreInRange }
{
    let bytes = bytes(alloc, input)?;
    let script = str::from_utf8(bytes.as_slice()).map_err(|_| SessionError::Unreadable)?;
    let events = read(alloc, script)?;
    Ok(events)
}

/// Prints each outcome in turn.
fn print<O: Write>(alloc: Global, outcomes: &Outcomes, out: &mut O) -> Result<(), SessionError>
    ensures { IfErr result (λ error. exit_status error ≡ 3) }
{
    match outcomes {
        Outcomes::OfOne(outcomes) => print_each(alloc, outcomes.as_slice(), out)?,
        Outcomes::OfMany(outcomes) => print_each_of_many(alloc, outcomes.as_slice(), out)?,
    }
    out.flush().map_err(|_| SessionError::Write)
}

fn print_each<O: Write>(
    alloc: Global,
    outcomes: &[Outcome],
    out: &mut O,
) -> Result<(), SessionError>
    ensures { IfErr result (λ error. exit_status error ≡ 3) }
{
    for outcome in outcomes {
        write(alloc, Printed(outcome), out)?;
    }
    Ok(())
}

fn print_each_of_many<O: Write>(
    alloc: Global,
    outcomes: &[ManyOutcome],
    out: &mut O,
) -> Result<(), SessionError>
    ensures { IfErr result (λ error. exit_status error ≡ 3) }
{
    for outcome in outcomes {
        write(alloc, PrintedMany(outcome), out)?;
    }
    Ok(())
}
