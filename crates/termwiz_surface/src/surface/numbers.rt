//! The numbers of a surface's rows, which say when each row last changed.
ghost use Rattle.std.specs.Prelude.{◌≡◌, ◌+◌, ◌<◌, ◌≤◌, ◌^◌, ◌==◌, ◌&&◌, ◌||◌, IfOk, OnOk};
ghost use Rattle.std.specs.Prelude.{max, nat_lt, replicate, slice_index_or, vec_capacity, vec_len};
ghost use Rattle.termwiz_surface.specs.{AreMarked, AreRenewed, IsSound, SameFrame, measure, ℕ};
ghost use Rattle.termwiz_surface.specs.{next_number, number_at, numbers_over, restarted, with_log};

use super::Surface;
use std::alloc::{AllocError, Global};
use termwiz_cell::change::{SEQ_ZERO, SequenceNo};
use termwiz_cell::emoji::Widths;

/// The numbers of rows. A row's number is the greater of its own and one that all rows have, so
/// that all rows are marked at once.
#[derive(Drop, Debug)]
pub struct RowNumbers {
    all: SequenceNo,
    own: Vec<SequenceNo>,
}

impl RowNumbers {
    /// This number for each of `height` rows.
    pub(super) fn new(
        alloc: Global,
        height: usize,
        number: SequenceNo,
    ) -> Result<RowNumbers, AllocError>
        ensures numbers { IfOk result (λ n.
            numbers_over n.all n.own.items ≡ replicate height number) }
        ensures len { IfOk result (λ n. vec_len n.own ≡ height) }
    {
        let own = vec![in alloc; SEQ_ZERO; height]?;
        Ok(RowNumbers { all: number, own })
    }

    // The number of a row, or 0 past the last row.
    fn get(&self, row: usize) -> SequenceNo
        ensures { result ≡ slice_index_or (numbers_over self.now.all self.now.own.items) row 0 }
    {
        match self.own.get(row) {
            Some(own) => self.all.max(*own),
            None => SEQ_ZERO,
        }
    }

    /// Gives a row this number, unless it has a greater one.
    #[inline(always)]
    pub(super) fn mark_row(&mut self, row: usize, number: SequenceNo)
        requires { row < vec_len self.old.own }
        ensures marked { AreMarked row 1 number
            (numbers_over self.old.all self.old.own.items)
            (numbers_over self.new.all self.new.own.items) }
        ensures len { vec_len self.new.own ≡ vec_len self.old.own }
    {
        self.own[row] = self.own[row].max(number);
    }

    /// Gives `count` rows, from `first` on, this number, unless they have greater ones.
    pub(super) fn mark_rows(&mut self, first: usize, count: usize, number: SequenceNo)
        requires { first + count ≤ vec_len self.old.own }
        ensures marked { AreMarked first count number
            (numbers_over self.old.all self.old.own.items)
            (numbers_over self.new.all self.new.own.items) }
        ensures len { vec_len self.new.own ≡ vec_len self.old.own }
    {
        if count == self.own.len() {
            return self.mark_all(number);
        }
        for row in first..first + count {
            self.mark_row(row, number);
        }
    }

    /// Gives all rows this number, unless they have greater ones.
    pub(super) fn mark_all(&mut self, number: SequenceNo)
        ensures marked { AreMarked 0 (vec_len self.old.own) number
            (numbers_over self.old.all self.old.own.items)
            (numbers_over self.new.all self.new.own.items) }
        ensures len { vec_len self.new.own ≡ vec_len self.old.own }
    {
        self.all = self.all.max(number);
    }

    /// Makes room for `height` rows, so that `renew` needs no memory.
    pub(super) fn reserve(&mut self, height: usize) -> Result<(), AllocError>
        ensures room { OnOk result (height ≤ vec_capacity self.new.own) }
        ensures all { self.new.all ≡ self.old.all }
        ensures own { self.new.own.items ≡ self.old.own.items }
        ensures len { vec_len self.new.own ≡ vec_len self.old.own }
    {
        self.own.reserve(height.saturating_sub(self.own.len()))
    }

    // Gives each row the number that it has as its own.
    fn own_all(&mut self)
        ensures own { (j : ℕ) → slice_index_or self.new.own.items j 0
            ≡ slice_index_or (numbers_over self.old.all self.old.own.items) j 0 }
        ensures len { vec_len self.new.own ≡ vec_len self.old.own }
        ensures capacity { vec_capacity self.new.own ≡ vec_capacity self.old.own }
    {
        for row in 0..self.own.len() {
            self.own[row] = self.get(row);
        }
    }

    // Makes the number that all rows have at most this one. Each row has the number that it had.
    fn bound_all(&mut self, number: SequenceNo)
        ensures bounded { self.new.all ≤ number }
        ensures same { (j : ℕ) →
            slice_index_or (numbers_over self.new.all self.new.own.items) j 0
            ≡ slice_index_or (numbers_over self.old.all self.old.own.items) j 0 }
        ensures len { vec_len self.new.own ≡ vec_len self.old.own }
        ensures capacity { vec_capacity self.new.own ≡ vec_capacity self.old.own }
    {
        if self.all > number {
            self.own_all();
            self.all = SEQ_ZERO;
        }
    }

    // Takes `height` rows: the last ones go, or new ones come with 0 as their own number.
    fn fit(&mut self, height: usize)
        requires room { height ≤ vec_capacity self.old.own }
        ensures own { (j : ℕ) → j < height →
            slice_index_or self.new.own.items j 0 ≡ slice_index_or self.old.own.items j 0 }
        ensures all { self.new.all ≡ self.old.all }
        ensures len { vec_len self.new.own ≡ height }
    {
        self.own.truncate(height);
        for _row in self.own.len()..height {
            self.own.push_reserved(SEQ_ZERO);
        }
    }

    /// Takes `height` rows, and gives those from `first` on this number, unless they have greater
    /// ones.
    pub(super) fn renew(&mut self, height: usize, first: usize, number: SequenceNo)
        requires room { height ≤ vec_capacity self.old.own }
        requires inside { first ≤ height }
        requires kept { first ≤ vec_len self.old.own }
        ensures marked { AreRenewed height first number
            (numbers_over self.old.all self.old.own.items)
            (numbers_over self.new.all self.new.own.items) }
        ensures len { vec_len self.new.own ≡ height }
    {
        self.bound_all(number);
        self.fit(height);
        self.mark_rows(first, height - first, number);
    }
}

impl Clone for RowNumbers {
    ghost is_clone = { λ a b. (b.all ≡ a.all) × (b.own.items ≡ a.own.items) };

    fn clone(&self) -> Result<RowNumbers, AllocError> {
        let own = self.own.clone()?;
        Ok(RowNumbers { all: self.all, own })
    }
}

impl<W: Widths> Surface<W> {
    /// The number of a row: the one that the surface had after the last list of changes that wrote
    /// or moved the row, or after a later error, resize to another width, or resize that added the
    /// row. In a new surface it is the surface's number, and 0 if it was made from none; it is 0
    /// past the last row.
    pub fn row_seqno(&self, row: usize) -> SequenceNo
        ensures { result ≡ number_at self.now row }
    {
        self.numbers.get(row)
    }

    /// Whether the row at this index from the top may show something else than when the surface
    /// had the number `since`, in its cells or in how large it is shown. Each row may where that is
    /// 0. It is `false` past the last row.
    pub fn row_changed_since(&self, row: usize, since: SequenceNo) -> bool
        ensures { result
            ≡ nat_lt row self.now.height && (since == 0 || nat_lt since (number_at self.now row)) }
    {
        row < self.height && (since == SEQ_ZERO || self.numbers.get(row) > since)
    }

    // Empties the log under a new number, or 0 where that was the number, and gives it to all rows.
    pub(super) fn restart(&mut self)
        requires { next_number self.old.log + 1 < 2 ^ 64 }
        ensures log { self.new.log ≡ restarted self.old.log }
        ensures frame { SameFrame (with_log self.old (restarted self.old.log)) self.new }
        ensures numbered { (j : ℕ) → j < self.new.height →
            next_number self.new.log ≤ number_at self.new j }
        ensures sound { IsSound (measure W.width_of self.new.widths) self.new }
    {
        self.log.restart();
        self.mark = self.log.next_number();
        self.numbers.mark_all(self.mark);
    }
}
