//! The surfaces that workloads begin with, and what draws on them.
//!
//! What a workload does over and over counts, and a call of its own isn't to: so what its loop
//! calls here is inlined.
ghost use Rattle.std.specs.Prelude.{◌<◌, ◌^◌};

use std::alloc::{AllocError, Global};
use std::rc::Rc;
use termwiz_cell::cell::{AttributeChange, CellAttributes};
use termwiz_cell::change::{Change, Position};
use termwiz_cell::color::{ColorAttribute, RgbColor};
use termwiz_cell::emoji::UnicodeWidths;
use termwiz_cell::hyperlink::Hyperlink;
use termwiz_surface::surface::{Surface, SurfaceError};

/// A surface, whose characters are as wide as Unicode says.
pub type Screen = Surface<UnicodeWidths>;

/// What a step gives.
pub type Done = Result<(), SurfaceError>;

/// What a workload gives.
pub type Sum = Result<usize, SurfaceError>;

/// A short line.
pub const SHORT: &str = "x\r\n";

/// A text of eight characters.
pub const EIGHT: &str = "colours ";

/// Another, which differs in each.
pub const OTHER_EIGHT: &str = "COLOURED";

/// A kana, which takes two columns.
pub const WIDE: &str = "わ";

/// The pens of a surface full of text.
#[derive(Clone, Copy)]
pub enum Pens {
    /// One for all its cells.
    One,
    /// A colour of the palette for every 8 columns, ten by turns.
    Ten,
    /// The same with true colours.
    TenTrue,
}

impl Pens {
    /// The colour of the text of a pen, by its number below 10.
    #[inline(always)]
    pub fn color(self, index: u8) -> ColorAttribute {
        match self {
            Pens::One | Pens::Ten => ColorAttribute::PaletteIndex(index),
            Pens::TenTrue => {
                let red = index.wrapping_mul(25);
                ColorAttribute::TrueColorWithDefaultFallback(RgbColor::new_8bpc(red, 255 - red, 7))
            }
        }
    }
}

/// What a workload's surface shows before it begins.
#[derive(Clone, Copy)]
pub enum Start {
    /// A blank 80x24.
    Blank,
    /// A blank 200x50.
    Page,
    /// A blank surface of 80 columns and 24 rows, or SIZE.
    Rows,
    /// A blank surface of 80 columns and 24 rows, or SIZE, which short lines have filled.
    FilledRows,
    /// A surface of 80 columns, or SIZE, and 24 rows, whose first row is full of kana.
    WideRow,
    /// An 80x24 with this many short lines in its log, or SIZE.
    Log(u16),
    /// An 80x24 full of text.
    Text(Pens),
    /// An 80x24 full of another text.
    OtherText(Pens),
    /// `Text` with another character in each twentieth cell, in the cell's own pen.
    Speckled(Pens),
    /// A 200x60 full of text.
    LargeText(Pens),
    /// A full surface of 80x24 that is full of text.
    FullText,
    /// An 80x24 full of text, with a link for every 8 columns, ten by turns.
    Links,
}

/// The size that is given, or the usual one. A line or a surface has two columns or rows at least.
pub fn sized(size: Option<u16>, usual: u16) -> usize
    ensures some { 1 < result }
    ensures fits { result < 2 ^ 32 }
{
    usize::from(size.unwrap_or(usual)).max(2)
}

/// A surface to begin with.
pub fn begun(alloc: Global, start: Start, size: Option<u16>) -> Result<Screen, SurfaceError> {
    let rows = sized(size, 24);
    let columns = sized(size, 80);
    match start {
        Start::Blank => printed_on(alloc, false, 80, 24, Pens::One, SHORT, 0),
        Start::Page => printed_on(alloc, false, 200, 50, Pens::One, SHORT, 0),
        Start::Rows => printed_on(alloc, false, 80, rows, Pens::One, SHORT, 0),
        Start::FilledRows => printed_on(alloc, false, 80, rows, Pens::One, SHORT, rows),
        Start::WideRow => printed_on(alloc, false, columns, 24, Pens::One, WIDE, columns / 2),
        Start::Log(usual) => {
            let count = sized(size, usual);
            printed_on(alloc, false, 80, 24, Pens::One, SHORT, count)
        }
        Start::Text(pens) => printed_on(alloc, false, 80, 24, pens, EIGHT, 80 * 24 / 8),
        Start::OtherText(pens) => printed_on(alloc, false, 80, 24, pens, OTHER_EIGHT, 80 * 24 / 8),
        Start::Speckled(pens) => speckled(alloc, pens),
        Start::LargeText(pens) => printed_on(alloc, false, 200, 60, pens, EIGHT, 200 * 60 / 8),
        Start::FullText => printed_on(alloc, true, 80, 24, Pens::Ten, EIGHT, 80 * 24 / 8),
        Start::Links => linked(alloc),
    }
}

// A surface, or a full one, on which a text is printed `count` times.
fn printed_on(
    alloc: Global,
    is_full: bool,
    width: usize,
    height: usize,
    pens: Pens,
    text: &str,
    count: usize,
) -> Result<Screen, SurfaceError>
    requires some_column { 0 < width }
    requires some_row { 0 < height }
    requires fits { width < 2 ^ 32 }
    requires fits_height { height < 2 ^ 32 }
{
    let mut surface = if is_full {
        Surface::new_full(alloc, width, height, UnicodeWidths)?
    } else {
        Surface::new(alloc, width, height, UnicodeWidths)?
    };
    add_runs(alloc, &mut surface, pens, text, count)?;
    Ok(surface)
}

fn speckled(alloc: Global, pens: Pens) -> Result<Screen, SurfaceError> {
    let mut surface = printed_on(alloc, false, 80, 24, pens, EIGHT, 80 * 24 / 8)?;
    for y in 0..24 {
        for x in 0..4 {
            add_pen(alloc, &mut surface, pens, 20 * x / 8)?;
            print_at(alloc, &mut surface, 20 * usize::from(x), y, "#")?;
        }
    }
    Ok(surface)
}

fn linked(alloc: Global) -> Result<Screen, SurfaceError> {
    let mut surface = Surface::new(alloc, 80, 24, UnicodeWidths)?;
    for index in 0..10 {
        let link = new_link(alloc, index)?;
        for y in 0..24 {
            let own = link.clone()?;
            surface.add_change(Change::Attribute(AttributeChange::Hyperlink(Some(own))))?;
            print_at(alloc, &mut surface, 8 * index, y, EIGHT)?;
        }
    }
    Ok(surface)
}

fn new_link(alloc: Global, index: usize) -> Result<Rc<Hyperlink>, AllocError> {
    let uri = format!(in alloc; "https://example.org/a/page/{index}")?;
    let link = Rc::new(alloc, Hyperlink::new(alloc, uri))?;
    Ok(link)
}

/// Prints a text.
#[inline(always)]
pub fn add_text(alloc: Global, surface: &mut Screen, text: &str) -> Done {
    let change = Change::text_from(alloc, text)?;
    surface.add_change(change)?;
    Ok(())
}

/// Prints a text `count` times, each time in the next of the pens.
#[inline(always)]
pub fn add_runs(alloc: Global, surface: &mut Screen, pens: Pens, text: &str, count: usize) -> Done {
    for index in 0..count {
        add_pen(alloc, surface, pens, (index % 10) as u8)?;
        add_text(alloc, surface, text)?;
    }
    Ok(())
}

/// Sets the pen to one of the colours, if there is more than one pen.
#[inline(never)]
pub fn add_pen(alloc: Global, surface: &mut Screen, pens: Pens, index: u8) -> Done {
    if !matches!(pens, Pens::One) {
        let mut attrs = CellAttributes::blank();
        attrs.set_foreground(alloc, pens.color(index))?;
        surface.add_change(Change::AllAttributes(attrs))?;
    }
    Ok(())
}

/// Puts the cursor there.
#[inline(always)]
pub fn move_to(surface: &mut Screen, x: usize, y: usize) -> Done {
    surface.add_change(Change::CursorPosition {
        x: Position::Absolute(x),
        y: Position::Absolute(y),
    })?;
    Ok(())
}

/// Prints a text there.
#[inline(always)]
pub fn print_at(alloc: Global, surface: &mut Screen, x: usize, y: usize, text: &str) -> Done {
    move_to(surface, x, y)?;
    add_text(alloc, surface, text)
}
