//! Viewers: surfaces that follow another one, or accept its answers.
ghost use Rattle.std.specs.Prelude.{Err, IfErr, IfOk, Ok, OnErr, OnOk, [], ◌+◌, ◌-◌, ◌<◌, ◌^◌, ◌≡◌};
ghost use Rattle.termwiz_surface.specs.{IsSurfaceSize, KeepsShowing, Preserves, ShowsCarried};
ghost use Rattle.termwiz_surface.specs.{Adds, HasCaughtUp, HasFullSize, blank_viewer};
ghost use Rattle.termwiz_surface.specs.{blank_viewer_from, full_screens};
ghost use Rattle.termwiz_surface.specs.{FollowsTo, HasDropped, StaysNamed, next_number};
ghost use Rattle.termwiz_surface.specs.{Accepts, Declines, Fetches, forgetful, stream_of, with_log};
ghost use Rattle.termwiz_surface.specs.{Fits, Follows, MayTake, Resizes, flushed, full_of, measure};
ghost use Rattle.termwiz_surface.specs.{Makes, SurfaceValue, Takes, length, nat_lt};
ghost use Rattle.termwiz_surface.specs.{screens, true};

use crate::scrollback::NoScrollback;
use crate::surface::{Answer, ChangeList, Surface, SurfaceError};
use std::alloc::{AllocError, Global};
use std::borrow::CowSlice;
use std::marker::Model;
use termwiz_cell::change::{Change, SEQ_ZERO, SequenceNo};
use termwiz_cell::emoji::Widths;
use thiserror::Error;

/// Why a viewer doesn't accept an answer. The first applicable error is returned, in this order.
#[derive(Debug, Drop, Clone, Copy, PartialEq, Eq, Error)]
pub enum AcceptError {
    /// Error 1: the answer is for another size. The viewer is unchanged.
    #[error("the answer is for another size")]
    Size,
    /// Error 2: the answer isn't a repaint, and the viewer's number isn't its base. The viewer is
    /// unchanged.
    #[error("the answer is for another number")]
    Stale,
    /// Error 3: the numbers of the viewer's own surface would pass the greatest `usize`. The viewer
    /// shows the same, and has no number.
    #[error("the numbers of changes are used up")]
    Numbers,
    /// Error 4: memory was refused. The viewer may show anything, and has no number.
    #[error("out of memory")]
    Memory,
}

impl From<AllocError> for AcceptError {
    ghost use Rattle.termwiz_surface.specs.declared.view.viewer.AcceptError.TheVariants.{Memory};

    ghost from_gives = { λ _ error. error ≡ Memory };

    fn from(_error: AllocError) -> AcceptError {
        AcceptError::Memory
    }
}

/// A surface that follows another one, its source: it shows what the source showed at the last
/// `follow` that succeeded.
///
/// `follow` gets the changes since the viewer's number from the source, and applies them.
///
/// - A viewer gets the changes that it lacks, or a repaint where the source no longer has them or
///   they are too many.
/// - Where the source has another size, the viewer is first resized to it.
/// - From a full source it also gets the title, the cursor's shape and colour, and how large each
///   row is shown.
///
/// A viewer's own surface logs the changes that it applied, so that viewers can follow a viewer.
/// That log grows with each change, until `flush_changes_older_than` forgets some. A resize, or a
/// list of changes for which memory was refused, empties it.
///
/// For a remote source, send it the viewer's number, and pass what `Surface::answer` returns for
/// that to `accept`, however late. `accept` refuses an answer that doesn't start from what the
/// viewer shows.
///
/// A viewer is for one source: it keeps the source's number and width value. For another source
/// create a new viewer.
#[derive(Drop, Debug)]
pub struct Viewer<W: Widths> {
    surface: Surface<W>,
    last: SequenceNo,
}

impl<W: Widths> Model for Viewer<W> {
    ghost use Rattle.termwiz_surface.specs.Following.{ViewerValue};

    ghost Value = { ViewerValue W };

    ghost view = { λ v. record { surface = v.surface; last = v.last } };
}

impl<W: Widths> Viewer<W> {
    /// A viewer that shows a blank surface of the source's size and width value, and has no number.
    /// Its surface is a full one where the source is.
    pub fn new(alloc: Global, source: &Surface<W>) -> Result<Viewer<W>, AllocError>
        ensures blank { IfOk result (λ viewer. viewer ≡ blank_viewer source.now) }
        ensures follows { IfOk result (λ viewer. Follows (measure W.width_of) viewer source.now) }
    {
        Viewer::new_from(alloc, source, SEQ_ZERO)
    }

    /// A viewer as `new` returns it, but its own surface has the number `seq`, as the rows of that
    /// surface have. It can take the place of another viewer: with a number above that of the other
    /// one's surface, each row has changed since.
    pub fn new_from(
        alloc: Global,
        source: &Surface<W>,
        seq: SequenceNo,
    ) -> Result<Viewer<W>, AllocError>
        ensures blank { IfOk result (λ viewer. viewer ≡ blank_viewer_from source.now seq) }
        ensures follows { IfOk result (λ viewer. Follows (measure W.width_of) viewer source.now) }
    {
        let (width, height) = source.dimensions();
        let surface = Surface::blank(alloc, width, height, source.widths(), source.is_full(), seq)?;
        Ok(Viewer {
            surface,
            last: SEQ_ZERO,
        })
    }

    /// What the viewer shows.
    pub fn surface(&self) -> &Surface<W>
        ensures { result.now ≡ self.now.surface }
    {
        &self.surface
    }

    /// The number that the viewer was last given: the source's at the last `follow`, or that of the
    /// answer that it accepted last. It is 0, which means none, at first, after a resize, and after
    /// `follow`, or `accept` with `Numbers` or `Memory`, failed.
    pub fn last(&self) -> SequenceNo
        ensures { result ≡ self.now.last }
    {
        self.last
    }

    /// Where the viewer has another size than the source, resizes it, and sets its number to 0.
    fn fit(&mut self, source: &Surface<W>) -> Result<(), SurfaceError>
        ensures fits { Fits self.old source.now result self.new }
        ensures sized { OnOk result (
            HasFullSize source.now.width source.now.height (full_of self.new.surface)) }
        ensures number { OnOk result (next_number self.new.surface.log < 2 ^ 64) }
        ensures preserves { Preserves (measure W.width_of) self.old.surface self.new.surface }
    {
        let (width, height) = source.dimensions();
        let (own_width, own_height) = self.surface.dimensions();
        if own_width != width || own_height != height {
            self.last = SEQ_ZERO;
            self.surface.resize(width, height)?;
        }
        Ok(())
    }

    // Resizes the viewer to the source's size, and gets the source's number and the changes that
    // the viewer lacks. After an error the viewer may be resized, and otherwise shows the same.
    fn ask<'s>(
        &mut self,
        source: &'s Surface<W>,
    ) -> Result<(SequenceNo, CowSlice<'s, Change>), SurfaceError>
        ensures fetches { Fetches (measure W.width_of source.now.widths)
            source.now self.old result self.new }
        ensures sized { OnOk result (
            HasFullSize source.now.width source.now.height (full_of self.new.surface)) }
        ensures preserves { Preserves (measure W.width_of) self.old.surface self.new.surface }
    {
        self.fit(source)?;
        let (number, changes) = source.get_changes(self.last)?;
        Ok((number, changes))
    }

    /// The first half of `follow`: resizes the viewer to the source's size, and returns the
    /// source's number and the changes to apply. After an error the viewer has no number.
    pub(crate) fn fetch<'s>(
        &mut self,
        source: &'s Surface<W>,
    ) -> Result<(SequenceNo, CowSlice<'s, Change>), SurfaceError>
        ensures fetched { IfOk result (λ answer. Fetches (measure W.width_of source.now.widths)
            source.now self.old (Ok answer) self.new) }
        ensures missed { IfErr result (λ error.
            FollowsTo (measure W.width_of) source.now self.old (Err error) self.new) }
        ensures sized { OnOk result (
            HasFullSize source.now.width source.now.height (full_of self.new.surface)) }
        ensures preserves { Preserves (measure W.width_of) self.old.surface self.new.surface }
    {
        match self.ask(source) {
            Ok(answer) => Ok(answer),
            Err(error) => {
                self.forget();
                Err(error)
            }
        }
    }

    /// The second half of `follow`: applies the changes, and sets the viewer's number to the
    /// source's, which it returns. After an error the viewer has no number.
    pub(crate) fn make(
        &mut self,
        number: SequenceNo,
        changes: CowSlice<'_, Change>,
    ) -> Result<SequenceNo, SurfaceError>
        ensures accepts { Accepts (measure W.width_of self.old.surface.widths)
            self.old number (stream_of changes.entry) result self.new }
        ensures preserves { Preserves (measure W.width_of) self.old.surface self.new.surface }
    {
        self.last = SEQ_ZERO;
        self.surface.add_own_changes(changes)?;
        self.last = number;
        Ok(number)
    }

    /// Forgets the number, so that the next answer is a repaint.
    pub(crate) fn forget(&mut self)
        ensures { self.new ≡ forgetful self.old }
    {
        self.last = SEQ_ZERO;
    }

    // Refuses an answer that doesn't fit, before anything changes.
    fn decline(&self, answer: &Answer<'_>) -> Result<(), AcceptError>
        ensures declines { Declines self.now answer.now result }
        ensures sized { OnOk result (
            HasFullSize answer.now.width answer.now.height (full_of self.now.surface)) }
    {
        if self.surface.dimensions() != answer.size() {
            return Err(AcceptError::Size);
        }
        if !answer.is_repaint() && self.last != answer.base() {
            return Err(AcceptError::Stale);
        }
        Ok(())
    }

    // Whether the viewer's own surface has numbers for `count` more changes.
    fn has_numbers(&self, count: usize) -> bool
        ensures { result ≡ nat_lt (next_number self.now.surface.log + count) (2 ^ 64) }
    {
        count <= usize::MAX - self.surface.current_seqno()
    }

    // Applies the changes of an answer that fits, and sets the viewer's number to its number.
    fn take(&mut self, answer: &Answer<'_>) -> Result<(), AllocError>
        requires may { MayTake self.old answer.now }
        requires numbers { next_number self.old.surface.log + length answer.now.changes < 2 ^ 64 }
        ensures ok { OnOk result ((self.new.last ≡ answer.now.number)
            × Makes (measure W.width_of self.old.surface.widths)
            self.old.surface answer.now.changes self.new.surface) }
        ensures err { OnErr result (
            HasDropped (measure W.width_of self.old.surface.widths) self.old self.new) }
        ensures preserves { Preserves (measure W.width_of) self.old.surface self.new.surface }
    {
        self.last = SEQ_ZERO;
        let list = ChangeList::Lent(answer.changes());
        if self.surface.add(list, &mut NoScrollback).is_err() {
            return Err(AllocError);
        }
        self.last = answer.number();
        Ok(())
    }

    // Applies the changes of an answer that fits, of which those that it owns are moved, and sets
    // the viewer's number to its number.
    fn take_owned(&mut self, answer: Answer<'_>) -> Result<(), AllocError>
        requires may { MayTake self.old answer }
        requires numbers { next_number self.old.surface.log + length answer.changes < 2 ^ 64 }
        ensures ok { OnOk result ((self.new.last ≡ answer.entry.number)
            × Makes (measure W.width_of self.old.surface.widths)
            self.old.surface answer.entry.changes self.new.surface) }
        ensures err { OnErr result (
            HasDropped (measure W.width_of self.old.surface.widths) self.old self.new) }
        ensures preserves { Preserves (measure W.width_of) self.old.surface self.new.surface }
    {
        let number = answer.number();
        self.last = SEQ_ZERO;
        if self.surface.add_own_changes(answer.into_stream()).is_err() {
            return Err(AllocError);
        }
        self.last = number;
        Ok(())
    }

    /// Applies the changes of an answer, and returns its number, which becomes the viewer's. A
    /// viewer that showed what its number names then shows what the surface showed when it returned
    /// the answer, whatever happened to both since.
    ///
    /// - `Size`: the answer is for another size. `Stale`: it isn't a repaint, and its base isn't
    ///   the viewer's number. Both leave the viewer unchanged.
    /// - `Numbers`: the numbers of the viewer's own surface are used up; it shows the same.
    ///   `Memory`: memory was refused; it may show anything. After both the viewer has no number,
    ///   so that it needs a repaint.
    pub fn accept(&mut self, answer: &Answer<'_>) -> Result<SequenceNo, AcceptError>
        ensures takes { Takes (measure W.width_of self.old.surface.widths)
            self.old answer.now result self.new }
        // A viewer that shows what its number names has the screen that the answer was given for,
        // and of a full surface the full screen,
        ensures shows { ShowsCarried screens (measure W.width_of)
            self.old answer.now result self.new }
        ensures shows_fully { ShowsCarried full_screens (measure W.width_of)
            self.old answer.now result self.new }
        // and shows what its number names then, even after an error.
        ensures names { StaysNamed screens (measure W.width_of) self.old answer.now self.new }
        ensures names_fully { StaysNamed full_screens (measure W.width_of)
            self.old answer.now self.new }
        // Viewers, numbers and rows hold, even after an error.
        ensures preserves { Preserves (measure W.width_of) self.old.surface self.new.surface }
    {
        self.decline(answer)?;
        if !self.has_numbers(answer.changes().len()) {
            self.forget();
            return Err(AcceptError::Numbers);
        }
        self.take(answer)?;
        Ok(answer.number())
    }

    /// Behaves like `accept`, and moves the changes that the answer owns into the log of the
    /// viewer's own surface.
    pub fn accept_owned(&mut self, answer: Answer<'_>) -> Result<SequenceNo, AcceptError>
        ensures takes { Takes (measure W.width_of self.old.surface.widths)
            self.old answer.entry result self.new }
        // A viewer that shows what its number names has the screen that the answer was given for,
        // and of a full surface the full screen,
        ensures shows { ShowsCarried screens (measure W.width_of)
            self.old answer.entry result self.new }
        ensures shows_fully { ShowsCarried full_screens (measure W.width_of)
            self.old answer.entry result self.new }
        // and shows what its number names then, even after an error.
        ensures names { StaysNamed screens (measure W.width_of) self.old answer.entry self.new }
        ensures names_fully { StaysNamed full_screens (measure W.width_of)
            self.old answer.entry self.new }
        // Viewers, numbers and rows hold, even after an error.
        ensures preserves { Preserves (measure W.width_of) self.old.surface self.new.surface }
    {
        self.decline(&answer)?;
        if !self.has_numbers(answer.changes().len()) {
            self.forget();
            return Err(AcceptError::Numbers);
        }
        let number = answer.number();
        self.take_owned(answer)?;
        Ok(number)
    }

    /// Resizes the viewer as `Surface::resize` does, and sets its number to 0, so that it needs a
    /// repaint of that size. An error leaves the viewer unchanged.
    pub fn resize(&mut self, width: usize, height: usize) -> Result<(), SurfaceError>
        requires size { IsSurfaceSize width height }
        ensures resizes { Resizes self.old.surface width height result self.new.surface }
        ensures ok { OnOk result (self.new.last ≡ 0) }
        ensures err { OnErr result (self.new ≡ self.old) }
        // A viewer that shows what its number names still does.
        ensures names { KeepsShowing screens self.old self.new }
        ensures names_fully { KeepsShowing full_screens self.old self.new }
        // Viewers, numbers and rows hold, even after an error.
        ensures preserves { Preserves (measure W.width_of) self.old.surface self.new.surface }
    {
        self.surface.resize(width, height)?;
        // What it shows now has no number.
        self.last = SEQ_ZERO;
        Ok(())
    }

    /// Forgets the changes of the viewer's own surface before this number, as
    /// `Surface::flush_changes_older_than` does. What the viewer shows, its last number and which
    /// surfaces it follows don't change.
    ///
    /// A viewer whose own surface nobody follows can forget all changes:
    /// `viewer.flush_changes_older_than(viewer.surface().current_seqno())`. With `viewer.last()`,
    /// which is a number of the source and names nothing in the viewer's own log, it would forget
    /// too little or too much.
    pub fn flush_changes_older_than(&mut self, seq: SequenceNo)
        ensures flushes { self.new.surface
            ≡ with_log self.old.surface (flushed self.old.surface.log seq) }
        ensures last { self.new.last ≡ self.old.last }
        // At the number of the next change all changes are forgotten.
        ensures emptied { seq ≡ next_number self.old.surface.log →
            self.new.surface.log.changes ≡ [] }
        // It still follows each surface that it followed.
        ensures follows { (s : SurfaceValue W) →
            Follows (measure W.width_of) self.old s → Follows (measure W.width_of) self.new s }
        // Viewers, numbers and rows hold.
        ensures preserves { Preserves (measure W.width_of) self.old.surface self.new.surface }
    {
        self.surface.flush_changes_older_than(seq);
    }

    /// Makes a viewer that follows the source show what the source shows now, and returns the
    /// source's number.
    ///
    /// - `Numbers`: the numbers of the viewer's own surface are used up. `Memory`: memory was
    ///   refused. After both the viewer may show anything, and has no number. Its width value is
    ///   the same, and the number of its own surface has grown by at most two.
    /// - A viewer that followed the source still follows it: the next time that it succeeds it gets
    ///   a repaint, and shows the source's screen.
    /// - It never fails with `ScrollRegion`.
    pub fn follow(&mut self, source: &Surface<W>) -> Result<SequenceNo, SurfaceError>
        ensures steps { FollowsTo (measure W.width_of) source.now self.old result self.new }
        // A viewer that follows the source shows its screen after each success,
        ensures caught_up { Follows (measure W.width_of) self.old source.now →
            OnOk result (HasCaughtUp self.new source.now) }
        // and that of a full source its full screen,
        ensures fully_caught_up { Follows (measure W.width_of) self.old source.now →
            source.now.full ≡ true → OnOk result (full_of self.new.surface ≡ full_of source.now) }
        // and still follows it after a failure.
        ensures follows { Follows (measure W.width_of) self.old source.now →
            Follows (measure W.width_of) self.new source.now }
        ensures failed { OnErr result (self.new.last ≡ 0) }
        // Viewers, numbers and rows hold, even after an error.
        ensures preserves { Preserves (measure W.width_of) self.old.surface self.new.surface }
    {
        let (number, changes) = self.fetch(source)?;
        self.make(number, changes)
    }
}
