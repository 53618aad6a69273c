//! Answers as values, which viewers can accept later.
ghost use Rattle.std.specs.Prelude.{◌≡◌, ◌≤◌, ◌&&◌, if◌then◌else◌, IfOk, IfSome, None, false};
ghost use Rattle.std.specs.Prelude.{length};
ghost use Rattle.std.specs.Prelude.{nat_le};
ghost use Rattle.termwiz_surface.specs.{IsBorrowedSlice, IsPastOf, IsSurfaceSize, most_own_entries};
ghost use Rattle.termwiz_surface.specs.{IsOwnedSlice, change_value, full_screens, map, own_repaint};
ghost use Rattle.termwiz_surface.specs.{CarriesTo, FullScreen, IsGivenBy, is_repaint, regions_fit};
ghost use Rattle.termwiz_surface.specs.{Screen, Some, delta_of, knows, measure, screens};
ghost use Rattle.termwiz_surface.specs.{stream_of, true, ℕ};

use super::Surface;
use std::alloc::{AllocError, Global};
use std::borrow::CowSlice;
use std::marker::Model;
use termwiz_cell::change::{Change, SEQ_ZERO, SequenceNo};
use termwiz_cell::emoji::Widths;
use termwiz_screen::log::delta_limit;
use termwiz_screen::scroll_region::regions_fit;

/// What leads a viewer to the screen that a surface had when it returned the answer: what
/// `get_changes` returns, as a value with the size and the numbers. It can be sent, and delivered
/// late, repeatedly, in any order, or never.
///
/// Its changes are borrowed from the surface's log, or its own, as those of a repaint are;
/// `into_owned` makes an answer that can be stored.
#[derive(Drop, Debug)]
pub struct Answer<'a> {
    width: usize,
    height: usize,
    base: SequenceNo,
    number: SequenceNo,
    changes: CowSlice<'a, Change>,
}

impl<'a> Model for Answer<'a> {
    ghost use Rattle.termwiz_screen.specs.Stream.{stream_of};
    ghost use Rattle.termwiz_surface.specs.Answer.{AnswerValue, IsWellFormed};

    ghost Value = { AnswerValue };

    ghost view = { λ a. record {
      width = a.width;
      height = a.height;
      base = a.base;
      number = a.number;
      changes = stream_of a.changes;
    } };

    ghost invariant = { λ a. IsWellFormed (view a) };
}

impl<'a> Answer<'a> {
    /// An answer from its parts, as they were stored or sent: a repaint where the base is 0.
    /// Returns `None` where the number is less than the base, or a scroll among the changes has a
    /// region that goes past the last row.
    pub fn from_parts(
        size: (usize, usize),
        base: SequenceNo,
        number: SequenceNo,
        changes: Vec<Change>,
    ) -> Option<Answer<'a>>
        requires size { IsSurfaceSize size.0 size.1 }
        ensures { result
            ≡ (if nat_le base number && regions_fit size.1 (map change_value changes.items)
            then Some (record {
              width = size.0;
              height = size.1;
              base = base;
              number = number;
              changes = map change_value changes.items;
            }) else None) }
    {
        let (width, height) = size;
        if number < base {
            return None;
        }
        if !regions_fit(&changes, height) {
            return None;
        }
        Some(Answer {
            width,
            height,
            base,
            number,
            changes: CowSlice::Owned(changes),
        })
    }

    /// The width in columns and the height in rows of the surface that returned it, and of the
    /// viewers that can accept it.
    pub fn size(&self) -> (usize, usize)
        ensures width { result.0 ≡ self.now.width }
        ensures height { result.1 ≡ self.now.height }
        // It is a size that a surface can have.
        ensures valid { IsSurfaceSize self.now.width self.now.height }
    {
        (self.width, self.height)
    }

    /// The number that a viewer must have to accept it, or 0 for a repaint, which any viewer of its
    /// size can accept.
    pub fn base(&self) -> SequenceNo
        ensures { result ≡ self.now.base }
    {
        self.base
    }

    /// The surface's number when it returned the answer. A viewer that accepts the answer gets this
    /// number.
    pub fn number(&self) -> SequenceNo
        ensures value { result ≡ self.now.number }
        ensures ordered { self.now.base ≤ result }
    {
        self.number
    }

    /// Whether it leads from any screen of its size to the surface's: whether its base is 0.
    pub fn is_repaint(&self) -> bool
        ensures { result ≡ is_repaint self.now }
    {
        self.base == SEQ_ZERO
    }

    /// The changes that a viewer applies.
    pub fn changes(&self) -> &[Change]
        ensures value { map change_value result.now ≡ self.now.changes }
        // No scroll among them has a region that goes past the last row.
        ensures regions { regions_fit self.now.height (map change_value result.now) ≡ true }
    {
        self.changes.as_slice()
    }

    /// The changes. Those that it owns are not copied.
    pub fn into_changes(self, alloc: Global) -> Result<Vec<Change>, AllocError>
        ensures value { IfOk result (λ changes.
            map change_value changes.items ≡ self.entry.changes) }
        // No scroll among them has a region that goes past the last row.
        ensures regions { IfOk result (λ changes.
            regions_fit self.entry.height (map change_value changes.items) ≡ true) }
    {
        let changes = self.changes.into_owned(alloc)?;
        Ok(changes)
    }

    /// The changes as they are: borrowed, or its own.
    pub(crate) fn into_stream(self) -> CowSlice<'a, Change>
        ensures { stream_of result ≡ self.entry.changes }
    {
        self.changes
    }

    /// The same answer with changes of its own, which outlives the surface. Those that it owns are
    /// not copied.
    pub fn into_owned(self, alloc: Global) -> Result<Answer<'static>, AllocError>
        ensures { IfOk result (λ answer. answer ≡ self.entry) }
    {
        let (width, height) = self.size();
        let (base, number) = (self.base, self.number);
        let changes = CowSlice::Owned(self.into_changes(alloc)?);
        Ok(Answer {
            width,
            height,
            base,
            number,
            changes,
        })
    }
}

impl<W: Widths> Surface<W> {
    /// The changes that are due from a number on, as `answer` returns them, or `None` where the log
    /// doesn't have them or they are too many, so that a repaint is due.
    pub fn delta(&self, seq: SequenceNo) -> Option<Answer<'_>>
        ensures some { IfSome result (λ delta. (knows self.now seq ≡ true)
            × (delta ≡ delta_of self.now seq)) }
        ensures none { result ≡ None → knows self.now seq ≡ false }
    {
        let due = self.log.due(seq, delta_limit(self.width, self.height))?;
        Some(Answer {
            width: self.width,
            height: self.height,
            base: seq,
            number: self.log.next_number(),
            changes: CowSlice::Borrowed(due),
        })
    }

    /// The answer for a viewer that was last given the number `seq`: what `get_changes` returns for
    /// it, with the base `seq` for the changes from that number on, and 0 for a repaint.
    ///
    /// It leads to the screen that this surface has now. That of a full surface leads to its full
    /// screen, for a plain viewer too.
    pub fn answer(&self, seq: SequenceNo) -> Result<Answer<'_>, AllocError>
        ensures given { IfOk result (λ answer.
            IsGivenBy screens (measure W.width_of) self.now seq answer) }
        ensures given_fully { self.now.full ≡ true → IfOk result (λ answer.
            IsGivenBy full_screens (measure W.width_of) self.now seq answer) }
        // Whatever the surface's numbers named so far, the answer leads to the screen that it has
        // now, and that of a full surface to its full screen.
        ensures carries { (past : ℕ → Screen) →
            IsPastOf screens (measure W.width_of) past self.now →
            IfOk result (λ answer. CarriesTo screens (measure W.width_of) past answer self.now) }
        ensures carries_fully { self.now.full ≡ true →
            (past : ℕ → FullScreen) → IsPastOf full_screens (measure W.width_of) past self.now →
            IfOk result (λ answer.
            CarriesTo full_screens (measure W.width_of) past answer self.now) }
        // The changes of a repaint are the defined ones.
        ensures entries { knows self.now seq ≡ false →
            IfOk result (λ answer. answer.changes ≡ own_repaint self.now) }
        ensures short { knows self.now seq ≡ false →
            IfOk result (λ answer. length answer.changes ≤ most_own_entries self.now) }
    {
        let (number, changes) = self.get_changes(seq)?;
        let is_repaint = is_owned(&changes);
        Ok(Answer {
            width: self.width,
            height: self.height,
            base: if is_repaint { SEQ_ZERO } else { seq },
            number,
            changes,
        })
    }
}

// Whether the changes are owned.
fn is_owned(changes: &CowSlice<'_, Change>) -> bool
    ensures lent { result ≡ false → IsBorrowedSlice changes.now }
    ensures made { result ≡ true → IsOwnedSlice changes.now }
{
    match changes {
        CowSlice::Borrowed(_) => false,
        CowSlice::Owned(_) => true,
    }
}
