//! How a session ends before all is done, and what each session reads and writes by.
ghost use Rattle.std.specs.Prelude.{◌≡◌, ◌⊎◌, IfOk, IfSome, IfErr, OnOk};
ghost use Rattle.std.specs.Io.KnownBytes.{Appends};
ghost use Rattle.sessions.specs.Status.{exit_status};
ghost use Rattle.sessions.specs.Writing.{AppendsSome};

use crate::script::ScriptError;
use std::alloc::{AllocError, Global};
use std::fmt::Display;
use std::io::{ErrorKind, Read, Write};

/// Why a session ends before all is done.
#[derive(Clone, Copy, PartialEq, Eq, Debug)]
pub enum SessionError {
    /// The words aren't a width and a height.
    Usage,
    /// A read of the input failed, or the input isn't UTF-8.
    Unreadable,
    /// The line of this number, from 1, is no command.
    BadCommand(usize),
    /// Memory was refused.
    Memory,
    /// A write failed.
    Write,
}

impl From<AllocError> for SessionError {
    ghost use Rattle.sessions.specs.declared.ending.SessionError.TheVariants.{Memory};

    ghost from_gives = { λ _ error. error ≡ Memory };

    fn from(_: AllocError) -> SessionError {
        SessionError::Memory
    }
}

impl From<ScriptError> for SessionError {
    ghost use Rattle.sessions.specs.Status.{of_script};

    ghost from_gives = { λ error made. made ≡ of_script error };

    fn from(error: ScriptError) -> SessionError {
        match error {
            ScriptError::BadCommand(line) => SessionError::BadCommand(line),
            ScriptError::Memory => SessionError::Memory,
        }
    }
}

impl SessionError {
    /// Writes the error's line, where it has one, and returns the exit status, which is that of a
    /// failed write where the line can't be written. The usage is the program's name and the words
    /// that it takes.
    pub fn report<E: Write>(self, usage: &str, err: &mut E) -> u8
        ensures statuses { (result ≡ 2) ⊎ (result ≡ 3) }
        ensures status { (result ≡ exit_status self) ⊎ (result ≡ exit_status SessionError.Write) }
    {
        let written = match self {
            SessionError::Usage => writeln!(err, "usage: {usage}"),
            SessionError::Unreadable => writeln!(err, "input: unreadable"),
            SessionError::BadCommand(line) => writeln!(err, "line {line}: bad command"),
            SessionError::Memory => writeln!(err, "out of memory"),
            SessionError::Write => Ok(()),
        };
        match written {
            Ok(()) => self.status(),
            Err(_) => SessionError::Write.status(),
        }
    }

    fn status(self) -> u8
        ensures { result ≡ exit_status self }
    {
        match self {
            SessionError::Usage | SessionError::Unreadable | SessionError::BadCommand(_) => 2,
            SessionError::Memory | SessionError::Write => 3,
        }
    }
}

/// All bytes of the input.
pub fn bytes<R: Read>(alloc: Global, input: &mut R) -> Result<Vec<u8>, SessionError>
    ensures all { IfOk result (λ bytes.
        IfSome (R.remaining input.old) (λ all. bytes.items ≡ all)) }
    ensures failed { IfErr result (λ error. (error ≡ SessionError.Memory)
        ⊎ (error ≡ SessionError.Unreadable)) }
{
    let mut bytes = Vec::new(alloc);
    match input.read_to_end(&mut bytes) {
        Ok(_) => Ok(bytes),
        Err(error) => match error.kind() {
            ErrorKind::OutOfMemory => Err(SessionError::Memory),
            _ => Err(SessionError::Unreadable),
        },
    }
}

/// Writes the lines of an outcome at once. Where that fails, a beginning of them may be written.
pub fn write<L: Display + Drop, O: Write>(
    alloc: Global,
    lines: L,
    out: &mut O,
) -> Result<(), SessionError>
    ensures failed { IfErr result (λ error. exit_status error ≡ 3) }
    ensures written { OnOk result (IfSome (L.output lines)
        (Appends (O.contents out.old) (O.contents out.new))) }
    ensures begun { IfSome (L.output lines)
        (AppendsSome (O.contents out.old) (O.contents out.new)) }
{
    let text = format!(in alloc; "{lines}")?;
    write_bytes(text.as_bytes(), out)
}

/// Writes all the bytes. Where that fails, a beginning of them may be written.
pub(crate) fn write_bytes<O: Write>(bytes: &[u8], out: &mut O) -> Result<(), SessionError>
    ensures failed { IfErr result (λ error. exit_status error ≡ 3) }
    ensures written { OnOk result (Appends (O.contents out.old) (O.contents out.new) bytes.now) }
    ensures begun { AppendsSome (O.contents out.old) (O.contents out.new) bytes.now }
{
    let mut rest = bytes;
    'writes: for _ in 0..u64::MAX {
        if rest.is_empty() {
            return Ok(());
        }
        match out.write(rest) {
            Ok(0) => return Err(SessionError::Write),
            Ok(count) => rest = &rest[count..],
            Err(error) if error.kind() == ErrorKind::Interrupted => {}
            Err(_) => return Err(SessionError::Write),
        }
    }
    Err(SessionError::Write)
}
