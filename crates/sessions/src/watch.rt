//! One run of `surfwatch`: from its words and its input to what it prints and its exit status.
ghost use Rattle.std.specs.Prelude.{◌≡◌, ◌⊎◌, ◌<◌, IfSome, IsErr, OnOk};
ghost use Rattle.sessions.specs.Printing.{Prints, PrintsAll, PrintsAsAsked, end_by};
ghost use Rattle.sessions.specs.Words.{AreWatchWords};

pub mod printing;
pub mod runs;
pub mod stream;

use crate::ending::SessionError;
use crate::watch::printing::Printing;
use crate::watch::stream::{StreamError, next_answer};
use crate::words::{WatchOptions, watch_options};
use std::alloc::{AllocError, Global};
use std::io::{Read, Write};
use termwiz_share::{Client, ClientError};
use termwiz_surface::UnicodeWidths;

/// The program's name and the words that it takes.
pub const USAGE: &str = "surfwatch [-a] [--cells N] [--bytes N]";

/// Why a session ends otherwise than with all answers shown.
#[derive(Clone, Copy, PartialEq, Eq, Debug)]
pub enum WatchEnd {
    /// Some answers were stale, and are reported.
    Stale,
    /// The answer of this number, from 1, isn't taken.
    Fault(usize, ClientError),
    /// Nothing is wrong with the stream.
    Session(SessionError),
}

impl From<SessionError> for WatchEnd {
    ghost use Rattle.sessions.specs.declared.watch.WatchEnd.TheVariants.{Session};

    ghost from_gives = { λ error end. end ≡ Session error };

    fn from(error: SessionError) -> WatchEnd {
        WatchEnd::Session(error)
    }
}

impl From<AllocError> for WatchEnd {
    ghost use Rattle.sessions.specs.declared.watch.WatchEnd.TheVariants.{Session};
    ghost use Rattle.sessions.specs.declared.ending.SessionError.TheVariants.{Memory};

    ghost from_gives = { λ _ end. end ≡ Session Memory };

    fn from(_: AllocError) -> WatchEnd {
        WatchEnd::Session(SessionError::Memory)
    }
}

impl WatchEnd {
    // Why the answer of this number isn't taken.
    fn of(number: usize, error: StreamError) -> WatchEnd
        ensures { result ≡ end_by number error }
    {
        match error {
            StreamError::Answer(error) => WatchEnd::Fault(number, error),
            StreamError::Session(error) => WatchEnd::Session(error),
        }
    }

    // Writes the line that says why, where none was written yet, and returns the exit status: that
    // of a failed write where the line can't be written.
    fn report<E: Write>(self, err: &mut E) -> u8
        ensures { (result ≡ 2) ⊎ (result ≡ 3) }
    {
        match self {
            WatchEnd::Stale => 2,
            WatchEnd::Session(error) => error.report(USAGE, err),
            WatchEnd::Fault(number, error) => match writeln!(err, "answer {number}: {error}") {
                Ok(()) => 2,
                Err(_) => 3,
            },
        }
    }
}

/// Prints to `out` what a viewer shows of the stream that `input` holds: after each answer, when it
/// has come, where a word is `-a`, and else after the last one. No answer may have more cells than
/// the number after `--cells`, nor more bytes than the one after `--bytes`. An answer that is stale
/// is reported to `err`, and the run goes on.
///
/// The result is the exit status: 0 where all is done and nothing was stale, 2 for a stale answer,
/// for other words, an input that can't be read or a fault in the stream, and 3 for refused memory
/// or a failed write. A line on `err` says why, but for a failed write. What came before is
/// printed.
pub fn watch_session<R: Read, O: Write, E: Write>(
    alloc: Global,
    args: &[String],
    input: &mut R,
    out: &mut O,
    err: &mut E,
) -> u8
    ensures statuses { (result ≡ 0) ⊎ (result ≡ 2) ⊎ (result ≡ 3) }
    ensures done { result ≡ 0 → AreWatchWords args.now × (err.new ≡ err.old) }
    ensures usage { AreWatchWords args.now ⊎ ((input.new ≡ input.old) × (out.new ≡ out.old)) }
    // Where the input and the output are known: each answer of the stream is taken, none is stale,
    // and what is shown is printed.
    ensures printed { result ≡ 0 → IfSome (R.remaining input.old) (λ bytes.
        PrintsAll args.now bytes
        (record { out = O.contents out.old; err = E.contents err.old })
        (record { out = O.contents out.new; err = E.contents err.new })) }
{
    match run(alloc, args, input, out, err) {
        Ok(()) => 0,
        Err(end) => end.report(err),
    }
}

/// Prints what is shown of the stream.
fn run<R: Read, O: Write, E: Write>(
    alloc: Global,
    args: &[String],
    input: &mut R,
    out: &mut O,
    err: &mut E,
) -> Result<(), WatchEnd>
    ensures usage { AreWatchWords args.now
        ⊎ (IsErr result × (input.new ≡ input.old) × (out.new ≡ out.old)) }
    ensures silent { OnOk result (AreWatchWords args.now × (err.new ≡ err.old)) }
    ensures prints { AreWatchWords args.now → IfSome (R.remaining input.old) (λ bytes.
        PrintsAsAsked args.now bytes result
        (record { out = O.contents out.old; err = E.contents err.old })
        (record { out = O.contents out.new; err = E.contents err.new })) }
{
    let options = watch_options(args).ok_or(SessionError::Usage)?;
    print_all(alloc, options, input, out, err)
}

/// Prints what is shown after each answer, when it has come, or after the last one alone.
fn print_all<R: Read, O: Write, E: Write>(
    alloc: Global,
    options: WatchOptions,
    input: &mut R,
    out: &mut O,
    err: &mut E,
) -> Result<(), WatchEnd>
    requires some { 0 < options.limits.bytes }
    ensures silent { OnOk result (err.new ≡ err.old) }
    ensures prints { IfSome (R.remaining input.old) (λ bytes. Prints options bytes result
        (record { out = O.contents out.old; err = E.contents err.old })
        (record { out = O.contents out.new; err = E.contents err.new })) }
{
    let mut client = Client::new(alloc, UnicodeWidths, options.limits)?;
    let mut printing = Printing {
        each: options.each,
        pending: false,
        stale: false,
    };
    for count in 0..usize::MAX {
        match next_answer(&mut client, input) {
            Ok(Some(taken)) => printing.answer(alloc, &client, count + 1, taken, out, err)?,
            Ok(None) => return printing.finish(alloc, &client, printing.whole(), out),
            Err(error) => {
                let end = Err(WatchEnd::of(count + 1, error));
                return printing.finish(alloc, &client, end, out);
            }
        }
    }
    Err(WatchEnd::Session(SessionError::Unreadable))
}
