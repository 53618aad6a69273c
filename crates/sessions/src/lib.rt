//! Sessions of the three programs: `surfview` shows a surface, `surfsend` sends its answers, and
//! `surfwatch` shows those that come. Each is a function from words and an input to what is written
//! and an exit status.
//!
//! - `words`: the words of the programs.
//! - `script`: what the lines of scripts say.
//! - `view`, `send`, `watch`: a session of each program, and the runs in it.
//! - `pipe`: both ends of a stream.
//! - `printed`: how outcomes are printed.
//! - `ending`: how a session ends.
#![tactic(auto)]

pub mod ending;
pub mod pipe;
pub mod printed;
pub mod script;
pub mod send;
pub mod view;
pub mod watch;
pub mod words;
