//! Workloads for measuring, each run COUNT times: `bench WORKLOAD COUNT`, or
//! `bench WORKLOAD COUNT SIZE` to see how one grows with what it works on.
//! The program keeps no time: measure it from outside, at two counts, and take the difference.
#![tactic(auto)]

mod asking;
mod drawn;
mod frames;
mod lines;
mod printing;
mod shared;
mod viewers;
mod workload;

use std::env;
use std::process::ExitCode;
use workload::{Work, run};

fn main(rt: HostRuntime) -> ExitCode {
    let Some((work, count, size)) = asked(&rt) else {
        let _ = rt.eprintln("usage: bench WORKLOAD COUNT [SIZE]");
        return ExitCode::from(2);
    };
    match run(rt.alloc(), work, size, count) {
        Ok(sum) => match println!(rt; "{sum}") {
            Ok(()) => ExitCode::SUCCESS,
            Err(_) => ExitCode::FAILURE,
        },
        Err(_) => {
            let _ = rt.eprintln("out of memory");
            ExitCode::FAILURE
        }
    }
}

// The workload, how often it is run, and the size of what it works on, as the words say.
fn asked(rt: &HostRuntime) -> Option<(Work, u32, Option<u16>)> {
    let mut words = env::args(rt).ok()?.skip(1);
    let work = Work::from_name(words.next()?.as_str())?;
    let count = words.next()?.as_str().parse::<u32>().ok()?;
    let size = match words.next() {
        Some(word) => Some(word.as_str().parse::<u16>().ok()?),
        None => None,
    };
    Some((work, count, size))
}
