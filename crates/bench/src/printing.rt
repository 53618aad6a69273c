//! Workloads that print or draw on a surface, or resize it.
ghost use Rattle.std.specs.Prelude.{◌<◌};

use crate::drawn::{
    Done, EIGHT, OTHER_EIGHT, Pens, SHORT, Screen, Start, Sum, WIDE, add_runs, add_text, begun,
    move_to, print_at, sized,
};
use std::alloc::Global;
use termwiz_cell::change::Change;
use termwiz_cell::color::ColorAttribute;

/// A line of 80 characters.
pub const PLAIN: &str =
    "The quick brown fox jumps over the lazy dog; 0123456789 and then some more text.\r\n";

/// A line of 40 kana.
pub const KANA: &str = "かきくけこさしすせそたちつてとなにぬねのはひふへほまみむめもやゆよらりるれろわを\r\n";

// A line of 60 characters, and one of 120.
const LINES: &str = "12:00:01 started, and reads what its settings say to be read\r\n\
12:00:02 listening at port 8080 of each address; says nothing more of those that were \
refused than what is said here now\r\n";

/// What is drawn over and over, as `workload` says.
#[derive(Clone, Copy)]
pub enum Draw {
    Colours(Pens),
    Fill(Pens),
    Pipe(Pens),
    ScrollTwo,
    EraseWide,
    Clear,
    Resize,
    ResizeOneRow,
    Storm,
}

/// What is printed over and over, and how often the log is flushed.
#[derive(Clone, Copy)]
pub enum Print {
    /// A line, and never.
    Line(&'static str),
    /// A short line, and every 64.
    Logged,
    /// A short line, and each time, where as many changes stay as there were at first.
    Behind,
    /// Lines of text, 4 KB of them, and each time.
    Piece,
}

/// Prints `count` times, and returns the surface's number.
pub fn printed(alloc: Global, start: Start, print: Print, size: Option<u16>, count: u32) -> Sum {
    let mut surface = begun(alloc, start, size)?;
    // The text is repeated this many times.
    let (text, times) = match print {
        Print::Line(line) => (line, 1),
        Print::Logged | Print::Behind => (SHORT, 1),
        Print::Piece => (LINES, 22),
    };
    let text = text.repeat(alloc, times)?;
    let kept = surface.current_seqno();
    for round in 0..count {
        add_text(alloc, &mut surface, text.as_str())?;
        let flushes = match print {
            Print::Line(_) => false,
            Print::Logged => round % 64 == 63,
            Print::Behind | Print::Piece => true,
        };
        if flushes {
            surface.flush_changes_older_than(surface.current_seqno().saturating_sub(kept));
        }
    }
    Ok(surface.current_seqno())
}

/// Draws `count` times, and returns the surface's number.
pub fn drawn(alloc: Global, start: Start, draw: Draw, size: Option<u16>, count: u32) -> Sum {
    let mut surface = begun(alloc, start, size)?;
    let columns = sized(size, 80);
    for round in 0..count {
        match draw {
            Draw::Colours(pens) => add_row(alloc, &mut surface, pens, 10)?,
            Draw::Fill(pens) => fill(alloc, &mut surface, pens, round)?,
            Draw::Pipe(pens) => pipe(alloc, &mut surface, pens)?,
            Draw::ScrollTwo => scroll_two(alloc, &mut surface)?,
            Draw::EraseWide => erase_wide(alloc, &mut surface, columns)?,
            Draw::Clear => clear(&mut surface, round)?,
            Draw::Resize => {
                surface.resize(80, 24)?;
                surface.resize(200, 60)?;
            }
            Draw::ResizeOneRow => {
                surface.resize(200, 59)?;
                surface.resize(200, 60)?;
            }
            Draw::Storm => storm(&mut surface, round)?,
        }
    }
    Ok(surface.current_seqno())
}

// Prints a row of `colours` texts of eight characters, each in the next of the pens.
#[inline(always)]
fn add_row(alloc: Global, surface: &mut Screen, pens: Pens, colours: usize) -> Done {
    add_runs(alloc, surface, pens, EIGHT, colours)?;
    add_text(alloc, surface, "\r\n")
}

// Prints all rows, another text each time.
fn fill(alloc: Global, surface: &mut Screen, pens: Pens, round: u32) -> Done {
    let eight = if round % 2 == 0 { EIGHT } else { OTHER_EIGHT };
    for y in 0..24 {
        move_to(surface, 0, y)?;
        add_runs(alloc, surface, pens, eight, 10)?;
    }
    surface.flush_changes_older_than(surface.current_seqno());
    Ok(())
}

// Lines of 56 and of 120 characters by turns.
fn pipe(alloc: Global, surface: &mut Screen, pens: Pens) -> Done {
    for _pair in 0..22 {
        add_row(alloc, surface, pens, 7)?;
        add_row(alloc, surface, pens, 15)?;
    }
    surface.flush_changes_older_than(surface.current_seqno());
    Ok(())
}

fn scroll_two(alloc: Global, surface: &mut Screen) -> Done {
    add_text(alloc, surface, SHORT)?;
    surface.add_change(Change::ScrollRegionUp {
        first_row: 0,
        region_size: 2,
        scroll_count: 1,
    })?;
    Ok(())
}

fn erase_wide(alloc: Global, surface: &mut Screen, columns: usize) -> Done
    requires { 1 < columns }
{
    move_to(surface, columns - 1, 0)?;
    surface.add_change(Change::ClearToEndOfLine(ColorAttribute::Default))?;
    print_at(alloc, surface, columns - 2, 0, WIDE)
}

// Clears to one of ten colours by turns.
fn clear(surface: &mut Screen, round: u32) -> Done {
    let color = Pens::TenTrue.color((round % 10) as u8);
    surface.add_change(Change::ClearScreen(color))?;
    surface.flush_changes_older_than(surface.current_seqno());
    Ok(())
}

// Takes a column, down to 60 of 80, or gives one back, and each fourth time a row.
fn storm(surface: &mut Screen, step: u32) -> Done {
    let taken = 20 - (step % 40).abs_diff(20) as usize;
    surface.resize(80 - taken, 24 - taken / 4)
}
