//! What a client shows, and how it takes an answer.
ghost use Rattle.std.specs.Prelude.{◌≡◌, ◌<◌, [], IfOk, false};
ghost use Rattle.termwiz_share.specs.{DisplayValue, IsSurfaceSize, NumbersRows, DisplayTakes};
ghost use Rattle.termwiz_share.specs.{blank_surface};
ghost use Rattle.termwiz_share.specs.{fits, is_repaint, lent_answer, measure, nameless, shown_on};
ghost use Rattle.termwiz_share.specs.{size_place, stale_place, suits, true};

use crate::error::ClientError;
use crate::taken::Taken;
use cbor::unsigned_len;
use std::alloc::{AllocError, Global};
use std::marker::Model;
use termwiz_cell::change::SequenceNo;
use termwiz_cell::emoji::Widths;
use termwiz_surface::{ChangeList, LentChanges, NoScrollback, Surface};
use termwiz_wire::{LentAnswer, SourceNo};

/// A full surface that keeps no changes, and the source and the number of the answer that was taken
/// last. Both are 0 where it shows nothing of a source.
#[derive(Drop, Debug)]
pub(super) struct Display<W: Widths> {
    alloc: Global,
    surface: Surface<W>,
    source: SourceNo,
    number: SequenceNo,
}

impl<W: Widths> Model for Display<W> {
    ghost use Rattle.std.specs.Prelude.{◌≡◌, [], true};
    ghost use Rattle.termwiz_share.specs.Client.{DisplayValue};

    ghost Value = { DisplayValue W };

    ghost view = { λ d. record {
      surface = d.surface;
      source = d.source;
      number = d.number;
    } };

    ghost invariant = { λ d. (d.surface.full ≡ true) × (d.surface.log.changes ≡ [])
        × (d.source ≡ 0 → d.number ≡ 0) };
}

impl<W: Widths> Display<W> {
    /// Shows a blank of one cell, and no source.
    pub(super) fn new(alloc: Global, widths: W) -> Result<Display<W>, AllocError>
        ensures { IfOk result (λ display. display ≡ record {
          surface = blank_surface widths 1 1 true;
          source = 0;
          number = 0;
        }) }
    {
        let surface = Surface::new_full(alloc, 1, 1, widths)?;
        Ok(Display {
            alloc,
            surface,
            source: 0,
            number: 0,
        })
    }

    pub(super) fn surface(&self) -> &Surface<W>
        ensures value { result.now ≡ self.now.surface }
        ensures full { result.now.full ≡ true }
        ensures log { result.now.log.changes ≡ [] }
    {
        &self.surface
    }

    pub(super) fn source(&self) -> SourceNo
        ensures { result ≡ self.now.source }
    {
        self.source
    }

    pub(super) fn number(&self) -> SequenceNo
        ensures value { result ≡ self.now.number }
        ensures named { self.now.source ≡ 0 → result ≡ 0 }
    {
        self.number
    }

    /// Takes an answer, if it fits.
    pub(super) fn take(&mut self, answer: LentAnswer<'_>) -> Result<Taken, ClientError>
        requires named { 0 < answer.source }
        requires sized { IsSurfaceSize answer.width answer.height }
        ensures takes { DisplayTakes (measure W.width_of)
            self.old (lent_answer answer.entry) result self.new }
        ensures numbered { NumbersRows self.old.surface self.new.surface }
    {
        if answer.base == 0 {
            return self.take_repaint(answer);
        }
        if answer.source != self.source || answer.base != self.number {
            let at = self.stale_place(&answer);
            return Ok(Taken::Stale { at });
        }
        if (answer.width, answer.height) != self.surface.dimensions() {
            let at = self.size_place(&answer);
            return Err(ClientError::Size { at });
        }
        self.take_delta(answer)
    }

    // A repaint begins with a blank surface of its size, with a number above that of the surface
    // that it takes the place of.
    fn take_repaint(&mut self, answer: LentAnswer<'_>) -> Result<Taken, ClientError>
        requires some { 0 < answer.source }
        requires sized { IsSurfaceSize answer.width answer.height }
        requires repaint { is_repaint (lent_answer answer).answer ≡ true }
        ensures takes { DisplayTakes (measure W.width_of)
            self.old (lent_answer answer.entry) result self.new }
        ensures numbered { NumbersRows self.old.surface self.new.surface }
    {
        let number = self.surface.current_seqno();
        if answer.changes.len() >= usize::MAX - number {
            self.forget();
            return Err(ClientError::Numbers);
        }
        let (width, height, widths) = (answer.width, answer.height, self.surface.widths());
        let mut surface = Surface::new_full_from(self.alloc, width, height, widths, number + 1)?;
        if surface
            .add(
                ChangeList::Unlogged(LentChanges(&answer.changes)),
                &mut NoScrollback,
            )
            .is_err()
        {
            return Err(ClientError::Memory);
        }
        self.surface = surface;
        self.source = answer.source;
        self.number = answer.number;
        Ok(Taken::Shown)
    }

    // A delta begins with what is shown.
    fn take_delta(&mut self, answer: LentAnswer<'_>) -> Result<Taken, ClientError>
        requires some { 0 < answer.source }
        requires delta { is_repaint (lent_answer answer).answer ≡ false }
        requires fits { fits (shown_on self.old) (lent_answer answer) ≡ true }
        requires size { suits self.old.surface.width self.old.surface.height
            (lent_answer answer).answer ≡ true }
        ensures takes { DisplayTakes (measure W.width_of)
            self.old (lent_answer answer.entry) result self.new }
        ensures numbered { NumbersRows self.old.surface self.new.surface }
    {
        if answer.changes.len() > usize::MAX - self.surface.current_seqno() {
            self.forget();
            return Err(ClientError::Numbers);
        }
        if self
            .surface
            .add(
                ChangeList::Unlogged(LentChanges(&answer.changes)),
                &mut NoScrollback,
            )
            .is_err()
        {
            self.forget();
            return Err(ClientError::Memory);
        }
        self.source = answer.source;
        self.number = answer.number;
        Ok(Taken::Shown)
    }

    // What is shown has no source and no number.
    fn forget(&mut self)
        ensures { self.new ≡ nameless self.old }
    {
        self.source = 0;
        self.number = 0;
    }

    // Where in an answer's bytes begins what it leads on from, that differs from what is shown.
    fn stale_place(&self, answer: &LentAnswer<'_>) -> usize
        ensures { result ≡ stale_place (shown_on self.now) (lent_answer answer.now) }
    {
        if answer.source != self.source {
            return 2;
        }
        let size = unsigned_len(answer.width) + unsigned_len(answer.height);
        2 + unsigned_len(answer.source) + size
    }

    // Where in an answer's bytes its size differs from the one that is shown.
    fn size_place(&self, answer: &LentAnswer<'_>) -> usize
        ensures { result ≡ size_place (shown_on self.now) (lent_answer answer.now) }
    {
        let at = 2 + unsigned_len(answer.source);
        if self.surface.dimensions().0 == answer.width {
            at + unsigned_len(answer.width)
        } else {
            at
        }
    }
}
