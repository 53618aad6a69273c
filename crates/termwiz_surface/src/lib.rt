//! Surfaces: screens that lists of changes modify, the answers that viewers get, the viewers that
//! follow a surface or accept its answers, and runs of events.
//!
//! This is the crate that callers name. Its root has the types that they use, and it re-exports the
//! modules of the crates below under termwiz's names: cells, colours, links, changes, width values,
//! lines and shaper clusters. `specs/Lib.antt` re-exports the definitions that callers cite, each
//! by its name alone.
//!
//! - `specs/Surface.antt` defines a surface in contracts, and its invariant.
//! - `specs/Adding.antt` and `specs/ChangeLists.antt` define what a list of changes does to a
//!   surface (`surface/adding.rt`), and `specs/ScrolledOff.antt` which lines it scrolls off.
//!   `specs/Resizing.antt` and `specs/Copies.antt` define resizes, and draws and copies.
//! - `specs/Asking.antt` defines what answers viewers get, and `specs/Diffs.antt` what a diff of
//!   two surfaces prints.
//! - `specs/Following.antt` defines when a viewer follows a surface: each call that changes a
//!   surface promises that its viewers still follow it. `specs/FollowingLaws.antt` says why.
//! - `specs/History.antt` defines what a surface's numbers name: above 0 each number names one
//!   picture, whatever happens to the surface. `specs/Answer.antt` and `specs/Carried.antt` define
//!   an answer as a value, and where it leads, and `specs/HistoryLaws.antt` says why.
//! - A viewer takes the surface's size, gets the changes that it lacks, and applies them
//!   (`view/viewer.rt`), or accepts an answer that was stored or sent (`specs/Accepting.antt`).
//!   `specs/Showing.antt` defines what viewers show.
//! - `specs/Schedule.antt` defines which outcomes a list of events may have, on one surface with
//!   one viewer (`view.rt`), and `specs/ManySchedule.antt` with many viewers, whose answers are
//!   stored and delivered in any order (`view/many.rt`).
#![tactic(auto)]

pub mod laws;
pub mod scrollback;
pub mod surface;
pub mod view;

pub use scrollback::{LineSink, NoScrollback, Scrollback};
pub use surface::{
    Answer, ChangeList, FullScreen, LentChange, LentChanges, NewSurfaceError, Screen, Surface,
    SurfaceError,
};
pub use termwiz_cell::cell::{AttributeChange, Cell, CellAttributes};
pub use termwiz_cell::change::{
    Change, CursorShape, CursorVisibility, Position, SEQ_ZERO, SequenceNo,
};
pub use termwiz_cell::color::{ColorAttribute, RgbColor};
pub use termwiz_cell::emoji::{OneColumn, UnicodeWidths, Widths};
pub use termwiz_cell::hyperlink::Hyperlink;
pub use termwiz_cell::{cell, change, color, emoji, hyperlink};
pub use termwiz_line::line::line::Line;
pub use termwiz_line::{cellcluster, line};
pub use termwiz_storage::line::cellref::{CellRef, VisibleCellIter};
pub use termwiz_storage::line::vecstorage::VecStorage;
pub use termwiz_text::{is_letter, is_narrow, split_letter_run, split_plain_run};
pub use view::{AcceptError, Event, Outcome, Viewer};
