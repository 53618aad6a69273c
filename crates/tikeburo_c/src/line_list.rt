//! Lists of lines, which know of no surface: a program's scrollback.
ghost use Rattle.std.specs.Prelude.{◌≡◌, ◌+◌, ◌≤◌, [], ◌∷◌, ◌++◌, IfErr, IfOk, None};
ghost use Rattle.std.specs.Prelude.{OnErr, OnOk, Some, length, map, slice_get};
ghost use Rattle.std.specs.VecDeque.{deque_len};
ghost use Rattle.termwiz_line.specs.{line_contents};
ghost use Rattle.tikeburo_c.specs.LineLists.{AreCompressed, AreWrapped, Compresses, Removes};
ghost use Rattle.tikeburo_c.specs.LineLists.{Wraps, has_lines};
ghost use Rattle.tikeburo_c.specs.declared.failure.Failure.TheVariants.{Range};

use crate::failure::Failure;
use std::alloc::{AllocError, Global};
use std::collections::VecDeque;
use std::marker::Model;
use termwiz_surface::change::SEQ_ZERO;
use termwiz_surface::{Line, Scrollback};

/// A list of lines, the oldest one first.
#[derive(Drop)]
pub struct LineList {
    pub(crate) scrollback: Scrollback,
}

impl Model for LineList {
    ghost use Rattle.std.specs.Prelude.{List};
    ghost use Rattle.termwiz_line.specs.LineValue.{LineValue};

    ghost Value = { List LineValue };

    ghost view = { λ l. l.scrollback.lines.items };
}

impl LineList {
    /// A list of no lines.
    pub(crate) fn new(alloc: Global) -> LineList
        ensures { result ≡ [] }
    {
        LineList {
            scrollback: Scrollback::new(alloc),
        }
    }

    /// How many lines there are.
    pub(crate) fn count(&self) -> usize
        ensures { result ≡ length self.now }
    {
        self.scrollback.len()
    }

    /// The line at this index, if there is one.
    pub(crate) fn line_at(&self, index: usize) -> Result<&Line, Failure>
        ensures found { IfOk result (λ line. slice_get self.now index ≡ Some line.now) }
        ensures missing { IfErr result (λ failure.
            (failure ≡ Range) × (slice_get self.now index ≡ None)) }
    {
        match self.scrollback.lines.get(index) {
            Some(line) => Ok(line),
            None => Err(Failure::Range),
        }
    }

    /// Appends a line.
    pub(crate) fn push(&mut self, line: Line) -> Result<(), AllocError>
        ensures ok { OnOk result (self.new ≡ self.old ++ line ∷ []) }
        ensures err { OnErr result (self.new ≡ self.old) }
    {
        self.scrollback.lines.push_back(line)?;
        Ok(())
    }

    /// Removes `count` lines from the line at `first` on. The memory of lines that are removed from
    /// the front serves new rows.
    pub(crate) fn remove(&mut self, first: usize, count: usize) -> Result<(), Failure>
        ensures { Removes first count self.old result self.new }
    {
        if !self.has(first, count) {
            return Err(Failure::Range);
        }
        if first == 0 {
            self.scrollback.remove_first(count);
        } else {
            drop(self.scrollback.lines.drain(first..first + count));
        }
        Ok(())
    }

    // Whether there are `count` lines from the line at `first` on.
    fn has(&self, first: usize, count: usize) -> bool
        ensures { result ≡ has_lines first count self.now }
    {
        let len = self.scrollback.len();
        first <= len && count <= len - first
    }

    /// Stores `count` lines from the line at `first` on as texts, where they may be.
    pub(crate) fn compress(&mut self, first: usize, count: usize) -> Result<(), Failure>
        ensures { Compresses first count self.old result self.new }
    {
        if !self.has(first, count) {
            return Err(Failure::Range);
        }
        compress_all(&mut self.scrollback.lines, first, first + count)?;
        Ok(())
    }

    /// Wraps each line to this width.
    pub(crate) fn wrap(&mut self, alloc: Global, width: usize) -> Result<(), Failure>
        ensures { Wraps width self.old result self.new }
    {
        let lines = wrap_all(alloc, &self.scrollback.lines, width)?;
        self.scrollback.lines = lines;
        Ok(())
    }
}

// The lines that each line is wrapped into, one line's after another's.
fn wrap_all(
    alloc: Global,
    lines: &VecDeque<Line>,
    width: usize,
) -> Result<VecDeque<Line>, AllocError>
    ensures { IfOk result (λ wrapped. AreWrapped width lines.now.items wrapped.items) }
{
    let mut wrapped = Vec::new(alloc);
    for i in 0..lines.len() {
        let copy = lines[i].clone()?;
        let mut pieces = copy.wrap(width, SEQ_ZERO)?;
        wrapped.append(&mut pieces)?;
    }
    Ok(VecDeque::from_vec(wrapped))
}

// Stores the lines from one on up to another one as texts, where they may be.
fn compress_all(lines: &mut VecDeque<Line>, first: usize, end: usize) -> Result<(), AllocError>
    requires ordered { first ≤ end }
    requires inside { end ≤ deque_len lines.old }
    ensures ok { OnOk result (AreCompressed first end lines.old.items lines.new.items) }
    ensures same { map line_contents lines.new.items ≡ map line_contents lines.old.items }
{
    for i in first..end {
        lines[i].compress_for_scrollback()?;
    }
    Ok(())
}
