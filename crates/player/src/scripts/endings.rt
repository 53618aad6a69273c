//! How sessions end whose memory is refused, or whose output can't be flushed.
use playing::turn::Turn;
use sessions::ending::SessionError;
use sessions::view::{USAGE, view_session};
use std::io::{self, ErrorKind, Write};

/// Keeps what is written, and can't be flushed.
#[derive(Drop)]
struct Sink(Vec<u8>);

impl Write for Sink {
    fn write(&mut self, buf: &[u8]) -> io::Result<usize> {
        self.0.write(buf)
    }

    fn flush(&mut self) -> io::Result<()> {
        Err(io::Error::from(ErrorKind::Other))
    }
}

/// Answers what a session writes, and the status with which it ends: `report` of one whose memory
/// is refused, or `flush` of one whose output can't be flushed, which shows a screen of 4 columns
/// and 3 rows.
pub fn push_ending(turn: &mut Turn<'_>, session: &str) {
    let (mut args, mut written) = (Vec::new(turn.alloc), Sink(Vec::new(turn.alloc)));
    for size in ["4", "3"] {
        if let Some(size) = turn.kept(size.to_owned(turn.alloc)) {
            turn.note(args.push(size));
        }
    }
    let status = if session == "report" {
        SessionError::Memory.report(USAGE, &mut written)
    } else {
        let (mut script, mut err): (&[u8], Vec<u8>) = (b"show\n", Vec::new(turn.alloc));
        view_session(
            turn.alloc,
            args.as_slice(),
            &mut script,
            &mut written,
            &mut err,
        )
    };
    let text = str::from_utf8(written.0.as_slice()).ok();
    let text = turn.found(text).unwrap_or("");
    writeln!(turn, "{text}status {status}");
}
