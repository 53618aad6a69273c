//! Runs: a value, and how many adjacent cells have it.
ghost use Rattle.std.specs.Prelude.{◌<◌};

use termwiz_cell::cell::CellAttributes;

/// What a cell takes of a line's text, one character or `bytes` bytes, and whether it takes two
/// columns.
#[derive(Clone, Copy)]
pub(super) struct Shape {
    pub(super) bytes: usize,
    pub(super) one_char: bool,
    pub(super) wide: bool,
}

/// Adjacent cells of one shape.
#[derive(Clone, Copy, Debug)]
pub(super) struct ShapeRun {
    pub(super) bytes: usize,
    pub(super) one_char: bool,
    pub(super) wide: bool,
    pub(super) cells: u16,
}

/// Adjacent cells with equal attributes.
#[derive(Drop, Debug)]
pub(super) struct AttrsRun {
    pub(super) attrs: CellAttributes,
    pub(super) cells: u16,
    ghost some: { 0 < cells },
}
