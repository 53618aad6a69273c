//! The bytes of a source's answers, which are kept while the source stays as it is.
ghost use Rattle.std.specs.Prelude.{◌≡◌, ◌^◌, ◌-◌, ◌<◌, [], IfOk, OnOk, min};
ghost use Rattle.termwiz_share.specs.{HasResponses, IsSent, PutsAnswer, PutsDelta, bytes_of};
ghost use Rattle.termwiz_share.specs.{chosen, delta_part, measure, most_bytes, repaint_answer};
ghost use Rattle.termwiz_share.specs.{sent_by, source_of, true};

use std::alloc::{AllocError, Global};
use termwiz_cell::change::{SEQ_ZERO, SequenceNo};
use termwiz_cell::emoji::Widths;
use termwiz_surface::Surface;
use termwiz_wire::{SourceNo, encode_answer, encode_answer_within, is_borne};

/// The bytes of the delta and of the repaint that were given last: none where none is kept.
#[derive(Drop, Debug)]
pub(crate) struct Responses {
    delta: Vec<u8>,
    // The number that the delta leads on from.
    from: SequenceNo,
    repaint: Vec<u8>,
}

impl Responses {
    pub(crate) fn new(alloc: Global) -> Responses
        ensures delta { result.delta.items ≡ [] }
        ensures repaint { result.repaint.items ≡ [] }
    {
        Responses {
            delta: Vec::new(alloc),
            from: SEQ_ZERO,
            repaint: Vec::new(alloc),
        }
    }

    /// Keeps nothing from now on.
    pub(crate) fn clear(&mut self)
        ensures delta { self.new.delta.items ≡ [] }
        ensures repaint { self.new.repaint.items ≡ [] }
    {
        self.delta.clear();
        self.repaint.clear();
    }

    /// The bytes of the delta, or of the repaint.
    pub(crate) fn bytes(&self, is_delta: bool) -> &[u8]
        ensures { result.now ≡ chosen self.now is_delta }
    {
        if is_delta { &self.delta } else { &self.repaint }
    }

    /// Keeps the answer for a number: the delta that is due, or the repaint, where there is none
    /// that is worth sending. Returns whether it is the delta.
    pub(crate) fn prepare<W: Widths>(
        &mut self,
        surface: &Surface<W>,
        number: SourceNo,
        from: SequenceNo,
    ) -> Result<bool, AllocError>
        requires some { 0 < number }
        requires full { surface.now.full ≡ true }
        requires has { HasResponses (measure W.width_of) (source_of number surface.now) self.old }
        ensures has { HasResponses (measure W.width_of) (source_of number surface.now) self.new }
        ensures answers { IfOk result (λ is_delta. PutsAnswer (measure W.width_of)
            (source_of number surface.now) from [] (chosen self.new is_delta)) }
    {
        let (width, height) = surface.dimensions();
        if self.prepare_delta(surface, number, from, most_bytes(width, height))? {
            return Ok(true);
        }
        self.prepare_repaint(surface, number)?;
        Ok(false)
    }

    // Keeps the delta that is due from a number on, if there is one that has no more bytes than
    // `most` and that the screen bears, and returns whether there is.
    fn prepare_delta<W: Widths>(
        &mut self,
        surface: &Surface<W>,
        number: SourceNo,
        from: SequenceNo,
        most: usize,
    ) -> Result<bool, AllocError>
        requires some { 0 < number }
        requires most { most
            ≡ min (most_bytes surface.now.width surface.now.height) (2 ^ 64 - 1) }
        requires has { HasResponses (measure W.width_of) (source_of number surface.now) self.old }
        ensures has { HasResponses (measure W.width_of) (source_of number surface.now) self.new }
        ensures puts { IfOk result (λ put. PutsDelta (measure W.width_of)
            (source_of number surface.now) from most [] put (delta_part self.new put)) }
    {
        if self.from == from && !self.delta.is_empty() {
            return Ok(true);
        }
        self.delta.clear();
        self.from = from;
        let put = put_delta(&mut self.delta, surface, number, from, most);
        if put.is_err() {
            self.delta.clear();
        }
        put
    }

    // Keeps the repaint.
    fn prepare_repaint<W: Widths>(
        &mut self,
        surface: &Surface<W>,
        number: SourceNo,
    ) -> Result<(), AllocError>
        requires some { 0 < number }
        requires full { surface.now.full ≡ true }
        requires has { HasResponses (measure W.width_of) (source_of number surface.now) self.old }
        ensures has { HasResponses (measure W.width_of) (source_of number surface.now) self.new }
        ensures put { OnOk result (self.new.repaint.items ≡ bytes_of (measure W.width_of)
            (source_of number surface.now) (repaint_answer surface.now)) }
        ensures form { OnOk result (IsSent (measure W.width_of surface.now.widths)
            (sent_by number (repaint_answer surface.now))) }
    {
        if !self.repaint.is_empty() {
            return Ok(());
        }
        let put = put_repaint(&mut self.repaint, surface, number);
        if put.is_err() {
            self.repaint.clear();
        }
        put
    }
}

// Writes the delta that is due from a number on to an empty buffer, if there is one that has no
// more bytes than `most` and that the screen bears, and returns whether there is.
fn put_delta<W: Widths>(
    out: &mut Vec<u8>,
    surface: &Surface<W>,
    number: SourceNo,
    from: SequenceNo,
    most: usize,
) -> Result<bool, AllocError>
    requires some { 0 < number }
    requires empty { out.old.items ≡ [] }
    ensures { IfOk result (λ put. PutsDelta (measure W.width_of)
        (source_of number surface.now) from most [] put out.new.items) }
{
    let Some(delta) = surface.delta(from) else {
        return Ok(false);
    };
    if !is_borne(&delta) {
        return Ok(false);
    }
    encode_answer_within(out, &surface.widths(), number, &delta, most)
}

// Writes the repaint of a full surface to an empty buffer.
fn put_repaint<W: Widths>(
    out: &mut Vec<u8>,
    surface: &Surface<W>,
    number: SourceNo,
) -> Result<(), AllocError>
    requires some { 0 < number }
    requires full { surface.now.full ≡ true }
    requires empty { out.old.items ≡ [] }
    ensures put { OnOk result (out.new.items ≡ bytes_of (measure W.width_of)
        (source_of number surface.now) (repaint_answer surface.now)) }
    ensures form { OnOk result (IsSent (measure W.width_of surface.now.widths)
        (sent_by number (repaint_answer surface.now))) }
{
    let repaint = surface.answer(SEQ_ZERO)?;
    encode_answer(out, &surface.widths(), number, &repaint)
}

// How many bytes an answer that is no repaint may have.
fn most_bytes(width: usize, height: usize) -> usize
    requires width { width < 2 ^ 32 }
    requires height { height < 2 ^ 32 }
    ensures { result ≡ min (most_bytes width height) (2 ^ 64 - 1) }
{
    let cells = width * height;
    cells.saturating_mul(4).saturating_add(64)
}
