//! Screens: what changes make of them, the streams of changes that lead from one to another, and
//! the log of changes.
//!
//! - **A screen** is size, rows, cursor, the cursor's visibility and pen (`specs/Screen.antt`). A
//!   surface also keeps the lengths of its stored rows, their flags, the title, and the cursor's
//!   shape and colour (`specs/Kept.antt`). `specs/Step.antt` defines what each change makes of
//!   both. The new screen depends on the old screen and the change alone.
//! - **A full screen** is a screen with the part of this that a viewer can see
//!   (`specs/FullScreen.antt`, `specs/FullLaws.antt`). Screens and full screens are **pictures**
//!   (`specs/Picture.antt`): a size and a step. Theorems on streams and on following are stated for
//!   pictures, and proved once.
//! - **Rows** are lines in a queue, all with the number 0 (`rows.rt`). A stored row has 1 to w
//!   cells, each one measured grapheme, with halves after wide cells (`specs/Measured.antt`).
//! - **The log** is a first number and the changes from it on (`log.rt`, `specs/Log.antt`).
//!   `specs/Stream.antt` defines what a viewer gets: what is due, or a repaint (`repaint.rt`,
//!   `specs/Repaint.antt`, `specs/RepaintLaws.antt`).
//! - **A diff** prints what one picture lacks to show another (`diff/`, `specs/Diff.antt`,
//!   `specs/DiffRegions.antt`, `specs/Fewest.antt`).
//!
//! Callers name screens, full screens and laws. The other modules are hidden: they are the parts of
//! surfaces.
#![tactic(auto)]

#[doc(hidden)]
pub mod diff;
pub mod full;
pub mod laws;
#[doc(hidden)]
pub mod log;
#[doc(hidden)]
pub mod pen;
#[doc(hidden)]
pub mod place;
#[doc(hidden)]
pub mod print;
#[doc(hidden)]
pub mod repaint;
#[doc(hidden)]
pub mod rows;
pub mod screen;
#[doc(hidden)]
pub mod scroll_region;
#[doc(hidden)]
pub mod shown;
