//! `surfwatch [-a] [--cells N] [--bytes N]` reads a stream of answers, and prints what a viewer
//! shows of it.
#![tactic(auto)]

use sessions::watch::{USAGE, watch_session};
use sessions::words::words;
use std::process::ExitCode;

fn main(rt: HostRuntime) -> ExitCode {
    let status = match words(&rt) {
        Ok(words) => watch_session(
            rt.alloc(),
            words.as_slice(),
            &mut rt.stdin(),
            &mut rt.stdout(),
            &mut rt.stderr(),
        ),
        Err(error) => error.report(USAGE, &mut rt.stderr()),
    };
    ExitCode::from(status)
}
