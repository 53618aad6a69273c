//! `surfview WIDTH HEIGHT` reads a script of changes and prints what a surface shows and answers.
#![tactic(auto)]

use sessions::view::{USAGE, view_session};
use sessions::words::words;
use std::process::ExitCode;

fn main(rt: HostRuntime) -> ExitCode {
    let status = match words(&rt) {
        Ok(words) => view_session(
            rt.alloc(),
            words.as_slice(),
            &mut rt.stdin(),
            &mut rt.stdout(),
            &mut rt.stderr(),
        ),
        Err(error) => error.report(USAGE, &mut rt.stderr()),
    };
    ExitCode::from(status)
}
