//! What a session prints of the answers that a client takes.
ghost use Rattle.std.specs.Prelude.{◌≡◌, OnOk, Result, false};
ghost use Rattle.std.specs.Io.KnownBytes.{Appends};
ghost use Rattle.sessions.specs.Printing.{Finishes, PrintsOne, end_of_watch, shown_lines};
ghost use Rattle.termwiz_share.specs.Client.{shown_by};

use crate::ending::{SessionError, write};
use crate::printed::{PrintedStale, PrintedView};
use crate::watch::WatchEnd;
use std::alloc::Global;
use std::io::Write;
use termwiz_share::{Client, Taken};
use termwiz_surface::UnicodeWidths;

/// What a session printed, and what it has still to print.
#[derive(Clone, Copy, PartialEq, Eq, Debug)]
pub struct Printing {
    /// Whether what is shown is printed after each answer.
    pub each: bool,
    /// Whether something is shown that isn't printed yet.
    pub pending: bool,
    /// Whether a stale answer was reported.
    pub stale: bool,
}

impl Printing {
    /// Prints what a client shows that took the answer of this number, or lets it be pending. Where
    /// the answer was stale that is reported.
    pub fn answer<O: Write, E: Write>(
        &mut self,
        alloc: Global,
        client: &Client<UnicodeWidths>,
        number: usize,
        taken: Taken,
        out: &mut O,
        err: &mut E,
    ) -> Result<(), SessionError>
        ensures prints { OnOk result (PrintsOne (shown_by client.now) number taken
            self.old (record { out = O.contents out.old; err = E.contents err.old })
            self.new (record { out = O.contents out.new; err = E.contents err.new })) }
        ensures silent { self.new.stale ≡ false →
            (self.old.stale ≡ false) × (err.new ≡ err.old) }
    {
        match taken {
            Taken::Stale { at } => {
                self.stale = true;
                write(alloc, PrintedStale(number, at), err)
            }
            Taken::Shown if self.each => print(alloc, client, out),
            Taken::Shown => {
                self.pending = true;
                Ok(())
            }
        }
    }

    /// How a session ends whose stream has ended.
    pub fn whole(self) -> Result<(), WatchEnd>
        ensures { result ≡ end_of_watch self }
    {
        if self.stale {
            return Err(WatchEnd::Stale);
        }
        Ok(())
    }

    /// Prints what is pending, and returns how the session ends. Where memory was refused a client
    /// may show anything, and nothing is printed.
    pub fn finish<O: Write>(
        self,
        alloc: Global,
        client: &Client<UnicodeWidths>,
        end: Result<(), WatchEnd>,
        out: &mut O,
    ) -> Result<(), WatchEnd>
        ensures { Finishes self (shown_by client.now) end
            (O.contents out.old) result (O.contents out.new) }
    {
        if let Err(WatchEnd::Session(SessionError::Memory)) = end {
            return end;
        }
        if self.pending {
            print(alloc, client, out)?;
        }
        end
    }
}

// Prints what a client shows.
fn print<O: Write>(
    alloc: Global,
    client: &Client<UnicodeWidths>,
    out: &mut O,
) -> Result<(), SessionError>
    ensures { OnOk result (
        Appends (O.contents out.old) (O.contents out.new) (shown_lines (shown_by client.now))) }
{
    let screen = client.surface().screen()?;
    write(alloc, PrintedView(client.number(), &screen), out)?;
    out.flush().map_err(|_| SessionError::Write)
}
