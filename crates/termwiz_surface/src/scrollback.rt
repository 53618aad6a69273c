//! Lines outside of a screen.
ghost use Rattle.std.specs.Prelude.{◌≡◌, ◌+◌, ◌-◌, ◌≤◌, IfOk, [], drop, length, max};
ghost use Rattle.termwiz_screen.specs.{blank_line};
ghost use Rattle.termwiz_surface.specs.{spare_lines};

use std::alloc::{AllocError, Global};
use std::collections::VecDeque;
use std::mem;
use termwiz_cell::change::SEQ_ZERO;
use termwiz_cell::hyperlink::LinkCopies;
use termwiz_line::line::line::Line;

/// Where the lines go that scroll off the top of a surface: to the end of a `Scrollback`, or, with
/// `NoScrollback`, nowhere.
pub trait LineSink {
    ghost use Rattle.std.specs.Prelude.{◌≡◌, ◌++◌, ◌∷◌, ◌≤◌, [], Bool, IsTrue, List, OnErr, OnOk};
    ghost use Rattle.std.specs.Prelude.{ℕ};
    ghost use Rattle.termwiz_line.specs.LineValue.{LineValue};
    ghost use Rattle.termwiz_screen.specs.ScreenValue.{blank_line};

    ghost KEEPS: { Bool };

    ghost lines_of: { Self → List LineValue };

    ghost spare_of: { Self → ℕ };

    /// Whether lines are kept.
    const KEEPS: bool;

    /// Where lines are kept, moves a row of `width` columns to their end, and leaves a row of
    /// default blanks in its place. The line shares no memory with the surface that it comes from.
    /// After an error the row and the lines are as before.
    fn take(&mut self, alloc: Global, width: usize, row: &mut Line) -> Result<(), AllocError>
        ensures row { OnOk result (IsTrue KEEPS → row.new ≡ blank_line width) }
        ensures taken { OnOk result (IsTrue KEEPS →
            lines_of self.new ≡ lines_of self.old ++ row.old ∷ []) }
        ensures err { OnErr result (row.new ≡ row.old) }
        ensures kept { OnErr result (lines_of self.new ≡ lines_of self.old) }
        ensures spare { spare_of self.new ≤ spare_of self.old };
}

/// Keeps no line that scrolls off.
#[derive(Clone, Copy, Debug)]
pub struct NoScrollback;

impl LineSink for NoScrollback {
    ghost use Rattle.std.specs.Prelude.{[], false};

    ghost KEEPS = { false };

    ghost lines_of = { λ _. [] };

    ghost spare_of = { λ _. 0 };

    const KEEPS: bool = false;

    fn take(&mut self, _alloc: Global, _width: usize, _row: &mut Line) -> Result<(), AllocError> {
        Ok(())
    }
}

/// Lines outside of a screen, as a program's scrollback: a surface moves the lines that scroll off
/// it to the end.
///
/// A row that takes the place of such a line is given the memory of a line that was removed, if
/// there is one. So a scrollback that loses a line for each new one asks for no memory.
#[derive(Drop, Debug)]
pub struct Scrollback {
    /// The lines, the oldest one first.
    pub lines: VecDeque<Line>,
    // Lines that were removed, whose memory new rows take.
    spare: Vec<Line>,
    // Copies of the links of its last lines.
    links: LinkCopies,
}

impl LineSink for Scrollback {
    ghost use Rattle.std.specs.Prelude.{true};
    ghost use Rattle.termwiz_surface.specs.Scrollback.{spare_lines};

    ghost KEEPS = { true };

    ghost lines_of = { λ s. s.lines.items };

    ghost spare_of = { spare_lines };

    const KEEPS: bool = true;

    fn take(&mut self, alloc: Global, width: usize, row: &mut Line) -> Result<(), AllocError> {
        self.own_links(row)?;
        // Once there is room for the row, nothing fails.
        self.lines.reserve(1)?;
        let blank = self.blank_row(alloc, width)?;
        let line = mem::replace(row, blank);
        self.lines.push_back_reserved(line);
        Ok(())
    }
}

impl Scrollback {
    /// A scrollback of no lines.
    pub fn new(alloc: Global) -> Scrollback
        ensures lines { result.lines.items ≡ [] }
        ensures spare { spare_lines result ≡ 0 }
    {
        Scrollback {
            lines: VecDeque::new(alloc),
            spare: Vec::new(alloc),
            links: LinkCopies::new(),
        }
    }

    /// How many lines there are.
    pub fn len(&self) -> usize
        ensures { result ≡ length self.now.lines.items }
    {
        self.lines.len()
    }

    /// How many removed lines have their memory kept for new rows.
    pub fn spare_lines(&self) -> usize
        ensures { result ≡ spare_lines self.now }
    {
        self.spare.len()
    }

    /// Removes the first `count` lines, which are the oldest, or all where there are fewer. Their
    /// memory is kept for new rows, but never that of more lines than are left.
    pub fn remove_first(&mut self, count: usize)
        ensures lines { self.new.lines.items ≡ drop count self.old.lines.items }
        // No more are spared than were removed, nor than are left.
        ensures spared { spare_lines self.new ≤ spare_lines self.old
            + (length self.old.lines.items - length self.new.lines.items) }
        ensures few { spare_lines self.new ≤ length self.new.lines.items }
    {
        let removed = count.min(self.lines.len());
        let left = self.lines.len() - removed;
        self.spare.truncate(left);
        for _line in 0..removed {
            self.remove_oldest(left);
        }
    }

    // Removes the oldest line, and keeps its memory, where that of fewer than `most` lines is kept.
    fn remove_oldest(&mut self, most: usize)
        ensures lines { self.new.lines.items ≡ drop 1 self.old.lines.items }
        ensures spared { spare_lines self.new ≤ spare_lines self.old + 1 }
        ensures few { spare_lines self.new ≤ max (spare_lines self.old) most }
    {
        let Some(line) = self.lines.pop_front() else {
            return;
        };
        // A text has no memory for the cells of a row.
        if self.spare.len() < most && line.stored_cells().is_some() {
            // Where memory is refused, the line goes.
            let _ = self.spare.push(line);
        }
    }

    /// Gives a line that is to be added links of its own: it shares no memory then with what it
    /// comes from. It stays as it is, even after an error.
    pub fn own_links(&mut self, line: &mut Line) -> Result<(), AllocError>
        ensures line { line.new ≡ line.old }
        ensures lines { self.new.lines ≡ self.old.lines }
        ensures spare { spare_lines self.new ≡ spare_lines self.old }
    {
        line.own_links(&mut self.links)
    }

    // A row of default blanks, in the memory of a spare line where there is one.
    fn blank_row(&mut self, alloc: Global, width: usize) -> Result<Line, AllocError>
        ensures made { IfOk result (λ line. line ≡ blank_line width) }
        ensures kept { self.new.lines ≡ self.old.lines }
        ensures spare { spare_lines self.new ≤ spare_lines self.old }
    {
        let Some(mut line) = self.spare.pop() else {
            return Line::with_width(alloc, width, SEQ_ZERO);
        };
        line.blank_out(width, SEQ_ZERO)?;
        Ok(line)
    }
}
