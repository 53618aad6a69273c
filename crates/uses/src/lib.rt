//! Proved callers of surfaces and lines: each file is one that a reader may begin with.
#![tactic(auto)]

pub mod damage;
pub mod follower;
pub mod last_row;
pub mod lines;
pub mod mirror;
pub mod one_by_one;
pub mod own_widths;
pub mod passing;
pub mod patch;
pub mod prompt;
pub mod quiet;
pub mod relay;
pub mod remote;
pub mod renderer;
pub mod row_copies;
pub mod scrollback;
pub mod serving;
pub mod shaper;
pub mod sharing;
pub mod two_sources;
pub mod watching;
pub mod window;
