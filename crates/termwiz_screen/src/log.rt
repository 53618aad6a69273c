//! The log of a surface: its changes, by their numbers.
ghost use Rattle.std.specs.Prelude.{◌≡◌, ◌+◌, ◌-◌, ◌^◌, ◌<◌, ◌≤◌, ◌∷◌, [], length, nat_lt, vec_len};
ghost use Rattle.termwiz_screen.specs.{IfSome, IsNone, IsOk, OnErr, OnOk, appended, change_value};
ghost use Rattle.termwiz_screen.specs.{delta_limit, drop, due, false, flushed, is_known, map, min};
ghost use Rattle.termwiz_screen.specs.{next_number, passed, reaches, restarted, true};

use std::alloc::{AllocError, Global};
use std::marker::Model;
use termwiz_cell::change::{Change, SEQ_ZERO, SequenceNo};

/// The changes from a first number on, and the number of the next change.
///
/// All flushes together cost a few instructions for each change that they forget, however many are
/// kept.
#[derive(Drop, Debug)]
pub struct Log {
    // The number of the first stored change.
    base: SequenceNo,
    stored: Vec<Change>,
    // How many of the first changes are forgotten but still stored: after a flush none, or fewer
    // than are kept.
    gone: usize,
}

impl Model for Log {
    ghost use Rattle.std.specs.Prelude.{◌+◌, ◌^◌, ◌<◌, ◌≤◌, drop, length, map};
    ghost use Rattle.termwiz_cell.specs.ChangeValue.{change_value};
    ghost use Rattle.termwiz_screen.specs.Log.{LogValue};

    ghost Value = { LogValue };

    ghost view = { λ l. record {
      first = l.base + l.gone;
      changes = drop l.gone (map change_value l.stored.items);
    } };

    ghost invariant = { λ l. (l.gone ≤ length l.stored.items) × (l.base + l.gone < 2 ^ 64) };
}

/// A copy doesn't store forgotten changes.
impl Clone for Log {
    ghost is_clone = { λ a b. b ≡ a };

    fn clone(&self) -> Result<Log, AllocError> {
        let alloc = *self.stored.allocator();
        let stored = self.stored[self.gone..].to_vec(alloc)?;
        Ok(Log {
            base: self.base + self.gone,
            stored,
            gone: 0,
        })
    }
}

impl Log {
    /// An empty log with the number 0.
    pub fn new(alloc: Global) -> Log
        ensures { result ≡ record { first = 0; changes = [] } }
    {
        Log {
            base: SEQ_ZERO,
            stored: Vec::new(alloc),
            gone: 0,
        }
    }

    /// The number of the next change.
    #[inline(always)]
    pub fn next_number(&self) -> SequenceNo
        requires { next_number self.now < 2 ^ 64 }
        ensures { result ≡ next_number self.now }
    {
        self.base + self.stored.len()
    }

    /// Whether there are numbers for `count` more changes.
    #[inline(always)]
    pub fn has_numbers(&self, count: usize) -> bool
        requires { next_number self.now < 2 ^ 64 }
        ensures { result ≡ nat_lt (next_number self.now + count) (2 ^ 64) }
    {
        count <= usize::MAX - self.next_number()
    }

    /// Appends a change. An error leaves the log unchanged.
    #[inline(always)]
    pub fn push(&mut self, change: Change) -> Result<(), AllocError>
        ensures ok { OnOk result (self.new ≡ appended self.old (change_value change ∷ [])) }
        ensures err { OnErr result (self.new ≡ self.old) }
    {
        self.stored.push(change)?;
        Ok(())
    }

    /// Appends changes, which are moved. An error leaves the log unchanged. An empty list never
    /// fails.
    pub fn append(&mut self, mut changes: Vec<Change>) -> Result<(), AllocError>
        ensures ok { OnOk result (self.new ≡ appended self.old (map change_value changes.items)) }
        ensures err { OnErr result (self.new ≡ self.old) }
        ensures succeeds { vec_len changes ≡ 0 → IsOk result }
    {
        self.stored.append(&mut changes)?;
        Ok(())
    }

    /// Appends clones of changes. An error leaves the log unchanged. An empty list never fails.
    pub fn append_clones(&mut self, changes: &[Change]) -> Result<(), AllocError>
        ensures ok { OnOk result (self.new ≡ appended self.old (map change_value changes.now)) }
        ensures err { OnErr result (self.new ≡ self.old) }
        ensures succeeds { length changes.now ≡ 0 → IsOk result }
    {
        if changes.is_empty() {
            return Ok(());
        }
        self.stored.extend_from_slice(changes)?;
        Ok(())
    }

    // Whether the log has this number, or it is that of the next change.
    #[inline(always)]
    fn reaches(&self, seq: SequenceNo) -> bool
        requires { next_number self.now < 2 ^ 64 }
        ensures { result ≡ reaches self.now seq }
    {
        self.base + self.gone <= seq && seq <= self.next_number()
    }

    // Removes the forgotten changes.
    fn take_out(&mut self)
        requires { next_number self.old < 2 ^ 64 }
        ensures { self.new ≡ self.old }
    {
        drop_first(&mut self.stored, self.gone);
        self.base += self.gone;
        self.gone = 0;
    }

    /// The changes from a number on, if the log has them and they are at most `most`.
    pub fn due(&self, seq: SequenceNo, most: usize) -> Option<&[Change]>
        requires { next_number self.now < 2 ^ 64 }
        ensures some { IfSome result (λ changes. (is_known most self.now seq ≡ true)
            × (map change_value changes.now ≡ due self.now seq)) }
        ensures none { IsNone result → is_known most self.now seq ≡ false }
    {
        if seq == SEQ_ZERO || !self.reaches(seq) {
            return None;
        }
        let due = &self.stored[seq - self.base..];
        if due.len() > most {
            return None;
        }
        Some(due)
    }

    /// Forgets the changes before a number, if the log has it or it is that of the next change.
    pub fn flush(&mut self, seq: SequenceNo)
        requires { next_number self.old < 2 ^ 64 }
        ensures { self.new ≡ flushed self.old seq }
    {
        if self.reaches(seq) {
            self.gone = seq - self.base;
            if self.gone >= self.stored.len() - self.gone {
                self.take_out();
            }
        }
    }

    /// Adds `count` to the number of the next change, and forgets all changes, as if that many were
    /// appended and all then flushed.
    #[inline(always)]
    pub fn pass(&mut self, count: usize)
        requires { next_number self.old + count < 2 ^ 64 }
        ensures { self.new ≡ passed self.old count }
    {
        let number = self.next_number() + count;
        self.stored.clear();
        self.gone = 0;
        self.base = number;
    }

    /// Forgets all changes, and adds 1 to the number of the next change, unless that is 0.
    pub fn restart(&mut self)
        requires { next_number self.old + 1 < 2 ^ 64 }
        ensures { self.new ≡ restarted self.old }
    {
        let number = self.next_number();
        self.stored.clear();
        self.gone = 0;
        self.base = if number == SEQ_ZERO {
            SEQ_ZERO
        } else {
            number + 1
        };
    }
}

fn drop_first(changes: &mut Vec<Change>, count: usize)
    requires { count ≤ vec_len changes.old }
    ensures { changes.new.items ≡ drop count changes.old.items }
{
    if count == changes.len() {
        changes.clear();
    } else {
        swap_out_first(changes, count);
    }
}

// Swaps each kept change with a removed one, where `drain` would also turn the removed ones round.
// It is kept out of line, so that a flush of all changes is short.
#[inline(never)]
fn swap_out_first(changes: &mut Vec<Change>, count: usize)
    requires { count ≤ vec_len changes.old }
    ensures { changes.new.items ≡ drop count changes.old.items }
{
    let kept = changes.len() - count;
    for i in 0..kept {
        changes.swap(i, count + i);
    }
    changes.truncate(kept);
}

/// The number of due changes up to which they are sent, rather than a repaint of a screen of this
/// size. It is at most the greatest `usize`.
pub fn delta_limit(width: usize, height: usize) -> usize
    requires width { width < 2 ^ 32 }
    requires height { height < 2 ^ 32 }
    ensures { result ≡ min (delta_limit width height) (2 ^ 64 - 1) }
{
    let cells = width * height;
    cells.saturating_add(cells / 5).saturating_add(3)
}
