//! The changes of a surface, the positions in them, and their numbers.
ghost use Rattle.std.specs.Prelude.{◌≡◌, ◌<◌, IfOk, IsOk, IsTrue, false, map, string_bytes};
ghost use Rattle.std.specs.List.{list_any};
ghost use Rattle.termwiz_cell.specs.{Attribute, LineAttribute, Text, attribute_change_value};
ghost use Rattle.termwiz_cell.specs.{IsNumbered, change_value, copy_takes_memory};
ghost use Rattle.termwiz_cell.specs.{is_blinking_shape, is_text, line_at, line_number};
ghost use Rattle.termwiz_cell.specs.{sets_link, shape_at, shape_number};

mod sequence;

use crate::cell::{AttributeChange, CellAttributes, UnknownNumber};
use crate::color::ColorAttribute;
use crate::hyperlink::LinkCopies;
pub use sequence::{ChangeSequence, SequenceError};
use std::alloc::{AllocError, Global};

/// A column or a row, numbered from 0, to which a cursor is moved.
///
/// A surface keeps its cursor in one of its rows, and in a column from 0 to its width. In the
/// column that equals the width, after the last one, the next grapheme wraps first.
#[derive(Clone, Copy, PartialEq, Eq, Debug)]
pub enum Position {
    /// Relative to the current column or row: a negative value moves left, or up. On a surface the
    /// move stops at the first and at the last column or row.
    Relative(isize),
    /// The column or row itself. On a surface a column greater than the width becomes the last
    /// column, and a row past the last one the last row.
    Absolute(usize),
    /// The width, or the height, minus this value. On a surface the result is at least 0, and a row
    /// at most the last one.
    EndRelative(usize),
}

/// Whether the cursor is shown.
#[derive(Clone, Copy, PartialEq, Eq, Hash, Debug, Default)]
pub enum CursorVisibility {
    Hidden,
    #[default]
    Visible,
}

/// How the cursor is drawn while it is visible.
#[derive(Clone, Copy, PartialEq, Eq, Hash, Debug, Default)]
pub enum CursorShape {
    /// The default shape of the terminal that shows the surface.
    #[default]
    Default,
    BlinkingBlock,
    SteadyBlock,
    BlinkingUnderline,
    SteadyUnderline,
    BlinkingBar,
    SteadyBar,
}

impl CursorShape {
    /// Whether this is one of the three blinking shapes, of which the default is none.
    pub fn is_blinking(&self) -> bool
        ensures { result ≡ is_blinking_shape self.now }
    {
        matches!(
            self,
            CursorShape::BlinkingBlock | CursorShape::BlinkingUnderline | CursorShape::BlinkingBar
        )
    }

    /// The variant's number: variants are numbered from 0, in their order.
    pub fn number(self) -> u8
        ensures value { result ≡ shape_number self }
        ensures bound { result < 7 }
    {
        self as u8
    }
}

/// The variant of a number, and `UnknownNumber` where no variant has it.
impl TryFrom<u8> for CursorShape {
    type Error = UnknownNumber;

    ghost try_from_gives = { IsNumbered 7 shape_at };

    fn try_from(number: u8) -> Result<CursorShape, UnknownNumber> {
        match number {
            0 => Ok(CursorShape::Default),
            1 => Ok(CursorShape::BlinkingBlock),
            2 => Ok(CursorShape::SteadyBlock),
            3 => Ok(CursorShape::BlinkingUnderline),
            4 => Ok(CursorShape::SteadyUnderline),
            5 => Ok(CursorShape::BlinkingBar),
            6 => Ok(CursorShape::SteadyBar),
            _ => Err(UnknownNumber(number)),
        }
    }
}

/// How large the cells of a line are shown. It doesn't change the cells.
#[derive(Clone, Copy, PartialEq, Eq, Debug)]
pub enum LineAttribute {
    /// Double width and double height; this line shows the upper half.
    DoubleHeightTopHalfLine,
    /// Double width and double height; this line shows the lower half.
    DoubleHeightBottomHalfLine,
    /// Double width.
    DoubleWidthLine,
    /// The usual size.
    SingleWidthLine,
}

impl LineAttribute {
    /// The variant's number: variants are numbered from 0, in their order.
    pub fn number(self) -> u8
        ensures value { result ≡ line_number self }
        ensures bound { result < 4 }
    {
        self as u8
    }
}

/// The variant of a number, and `UnknownNumber` where no variant has it.
impl TryFrom<u8> for LineAttribute {
    type Error = UnknownNumber;

    ghost try_from_gives = { IsNumbered 4 line_at };

    fn try_from(number: u8) -> Result<LineAttribute, UnknownNumber> {
        match number {
            0 => Ok(LineAttribute::DoubleHeightTopHalfLine),
            1 => Ok(LineAttribute::DoubleHeightBottomHalfLine),
            2 => Ok(LineAttribute::DoubleWidthLine),
            3 => Ok(LineAttribute::SingleWidthLine),
            _ => Err(UnknownNumber(number)),
        }
    }
}

/// The number of a change of a surface: the surface's number before it. That grows by one with each
/// change, and, unless it is 0, with a resize and with a list of changes for which memory was
/// refused. Lines have numbers too.
pub type SequenceNo = usize;

/// The number of a surface before any change, and of its first change.
pub const SEQ_ZERO: SequenceNo = 0;

/// One change of a surface: a text to print, a pen to set, a part to clear or scroll, a place for
/// the cursor.
///
/// A program adds changes to a surface, which applies each to its screen. A viewer, a terminal for
/// example, asks the surface for the changes that are due and applies them in order: its own screen
/// then shows the same.
///
/// So the changes that a viewer gets can be added to a second surface.
///
/// A change acts at the cursor and with the pen that the change before it left. The pen is the
/// attributes of the next text. Setting the cursor's colour or shape, the title, or how large a
/// line is shown changes no cell.
///
/// Two changes are equal where all their parts are: texts are compared by their bytes, and links as
/// values. A clone can only fail at a text, a title, a link, or attributes that take memory.
#[derive(Drop, PartialEq, Eq, Debug)]
pub enum Change {
    /// Sets one attribute of the pen, and leaves the others unchanged.
    Attribute(AttributeChange),
    /// Sets the whole pen.
    AllAttributes(CellAttributes),
    /// Prints a text at the cursor with the pen, and continues in the next row where a row is full.
    /// CR moves to the first column, LF to the next row in the same column, and CR LF does both. A
    /// move below the last row scrolls all rows up by one. Other control characters of ASCII are
    /// printed as spaces.
    Text(String),
    /// Sets the pen to the default attributes with this background, fills all rows with blanks of
    /// the pen, and moves the cursor to column 0 of row 0.
    ClearScreen(ColorAttribute),
    /// Sets the pen to the default attributes with this background, and fills the cursor's row from
    /// the cursor to the end with blanks of the pen. The cursor doesn't move.
    ClearToEndOfLine(ColorAttribute),
    /// Sets the pen to the default attributes with this background, and fills the cursor's row from
    /// the cursor to the end, and all rows below, with blanks of the pen. The cursor doesn't move.
    ClearToEndOfScreen(ColorAttribute),
    /// Moves the cursor to column `x` and row `y`.
    CursorPosition {
        x: Position,
        y: Position,
    },
    /// Sets the cursor's colour.
    CursorColor(ColorAttribute),
    /// Sets the cursor's shape.
    CursorShape(CursorShape),
    /// Shows or hides the cursor.
    CursorVisibility(CursorVisibility),
    /// Removes `scroll_count` rows, at most all, from the top of the region of `region_size` rows
    /// that begins at `first_row`, moves the others up, and adds as many default rows at the
    /// region's bottom. A list of changes with a region that goes past the last row is refused as a
    /// whole. The cursor doesn't move.
    ScrollRegionUp {
        first_row: usize,
        region_size: usize,
        scroll_count: usize,
    },
    /// Removes `scroll_count` rows, at most all, from the bottom of the region of `region_size`
    /// rows that begins at `first_row`, moves the others down, and adds as many default rows at the
    /// region's top. A list of changes with a region that goes past the last row is refused as a
    /// whole. The cursor doesn't move.
    ScrollRegionDown {
        first_row: usize,
        region_size: usize,
        scroll_count: usize,
    },
    /// Sets the title of the surface.
    Title(String),
    /// Sets how large the cursor's line is shown.
    LineAttribute(LineAttribute),
}

impl Clone for Change {
    ghost is_clone = { λ a b. change_value b ≡ change_value a };

    ghost is_infallible = { λ change. copy_takes_memory (change_value change) ≡ false };

    fn clone(&self) -> Result<Change, AllocError> {
        match self {
            Change::Attribute(change) => {
                let copy = change.clone()?;
                Ok(Change::Attribute(copy))
            }
            Change::AllAttributes(attrs) => {
                let copy = attrs.clone()?;
                Ok(Change::AllAttributes(copy))
            }
            Change::Text(text) => {
                let copy = text.clone()?;
                Ok(Change::Text(copy))
            }
            Change::ClearScreen(color) => Ok(Change::ClearScreen(*color)),
            Change::ClearToEndOfLine(color) => Ok(Change::ClearToEndOfLine(*color)),
            Change::ClearToEndOfScreen(color) => Ok(Change::ClearToEndOfScreen(*color)),
            Change::CursorPosition { x, y } => Ok(Change::CursorPosition { x: *x, y: *y }),
            Change::CursorColor(color) => Ok(Change::CursorColor(*color)),
            Change::CursorShape(shape) => Ok(Change::CursorShape(*shape)),
            Change::CursorVisibility(visibility) => Ok(Change::CursorVisibility(*visibility)),
            Change::ScrollRegionUp {
                first_row,
                region_size,
                scroll_count,
            } => Ok(Change::ScrollRegionUp {
                first_row: *first_row,
                region_size: *region_size,
                scroll_count: *scroll_count,
            }),
            Change::ScrollRegionDown {
                first_row,
                region_size,
                scroll_count,
            } => Ok(Change::ScrollRegionDown {
                first_row: *first_row,
                region_size: *region_size,
                scroll_count: *scroll_count,
            }),
            Change::Title(title) => {
                let copy = title.clone()?;
                Ok(Change::Title(copy))
            }
            Change::LineAttribute(line) => Ok(Change::LineAttribute(*line)),
        }
    }
}

impl Change {
    /// Whether it sets a link.
    pub fn sets_link(&self) -> bool
        ensures { result ≡ sets_link (change_value self.now) }
    {
        match self {
            Change::AllAttributes(attrs) => attrs.hyperlink().is_some(),
            Change::Attribute(AttributeChange::Hyperlink(link)) => link.is_some(),
            _ => false,
        }
    }

    /// Gives it a link of its own, if it sets one. It stays as it is, even after an error.
    pub fn own_link(&mut self, alloc: Global, copies: &mut LinkCopies) -> Result<(), AllocError>
        ensures same { change_value self.new ≡ change_value self.old }
        ensures succeeds { sets_link (change_value self.old) ≡ false → IsOk result }
    {
        match self {
            Change::AllAttributes(attrs) => attrs.own_link(alloc, copies),
            Change::Attribute(change) => change.own_link(alloc, copies),
            _ => Ok(()),
        }
    }

    /// A change that prints a copy of this text.
    pub fn text_from(alloc: Global, text: &str) -> Result<Change, AllocError>
        ensures { IfOk result (λ change. change_value change ≡ Text text.now) }
    {
        let text = String::from_str(alloc, text)?;
        Ok(Change::Text(text))
    }

    /// Whether this prints a text.
    pub fn is_text(&self) -> bool
        ensures { result ≡ is_text (change_value self.now) }
    {
        matches!(self, Change::Text(_))
    }

    /// The text that this prints. The change must be a `Text`.
    pub fn text(&self) -> &str
        requires { IsTrue (is_text (change_value self.now)) }
        ensures { change_value self.now ≡ Text result.now }
    {
        match self {
            Change::Text(text) => text.as_str(),
            _ => unreachable!(),
        }
    }
}

impl From<String> for Change {
    ghost from_gives = { λ text change. change_value change ≡ Text (string_bytes text) };

    fn from(text: String) -> Change {
        Change::Text(text)
    }
}

impl From<AttributeChange> for Change {
    ghost from_gives = { λ attribute change.
        change_value change ≡ Attribute (attribute_change_value attribute) };

    fn from(change: AttributeChange) -> Change {
        Change::Attribute(change)
    }
}

impl From<LineAttribute> for Change {
    ghost from_gives = { λ attribute change. change_value change ≡ LineAttribute attribute };

    fn from(attribute: LineAttribute) -> Change {
        Change::LineAttribute(attribute)
    }
}

/// Whether one of the changes sets a link.
pub fn any_sets_link(changes: &[Change]) -> bool
    ensures { result ≡ list_any (λ c. sets_link (change_value c)) changes.now }
{
    changes.iter().any(|change| change.sets_link())
}

/// Gives the changes links of their own. Each stays as it is, even after an error.
pub fn own_links(
    alloc: Global,
    changes: &mut [Change],
    copies: &mut LinkCopies,
) -> Result<(), AllocError>
    ensures { map change_value changes.new ≡ map change_value changes.old }
{
    for change in changes.iter_mut() {
        change.own_link(alloc, copies)?;
    }
    Ok(())
}
