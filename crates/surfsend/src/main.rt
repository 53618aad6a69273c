//! `surfsend [-i] [-s NUMBER] WIDTH HEIGHT` reads a script of changes and sends the answers of a
//! surface as bytes. With `-i` it answers asks that come on its input.
#![tactic(auto)]

use sessions::send::{USAGE, send_session};
use sessions::words::words;
use std::process::ExitCode;

fn main(rt: HostRuntime) -> ExitCode {
    let status = match words(&rt) {
        Ok(words) => send_session(
            rt.alloc(),
            words.as_slice(),
            &mut rt.stdin(),
            &mut rt.stdout(),
            &mut rt.stderr(),
        ),
        Err(error) => error.report(USAGE, &mut rt.stderr()),
    };
    ExitCode::from(status)
}
