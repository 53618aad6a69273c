//! Sources: full surfaces whose answers name them.
ghost use Rattle.std.specs.Prelude.{◌≡◌, ◌≢◌, ◌+◌, ◌-◌, ◌<◌, ◌≤◌, ◌^◌, ◌∷◌, ◌++◌, [], Err, IfOk};
ghost use Rattle.std.specs.Prelude.{IsTrue, List, OnErr, OnOk, ℕ, min, vec_len};
ghost use Rattle.termwiz_share.specs.{Adds, AddsList, AddsScrolledOff, ClientValue};
ghost use Rattle.termwiz_share.specs.{HasCopied, HasDrawn, IsCopied, IsDrawn, region_at};
ghost use Rattle.termwiz_share.specs.{IsResponse, WritesFront, number_asked};
ghost use Rattle.termwiz_share.specs.{IsSurfaceSize, PreservesServing};
ghost use Rattle.termwiz_share.specs.{Resizes, Responds, ScrollRegion, Serves, SourceValue};
ghost use Rattle.termwiz_share.specs.{blank_surface, change_list, flushed};
ghost use Rattle.termwiz_share.specs.{change_value, copied_region, length, map, measure};
ghost use Rattle.termwiz_share.specs.{next_number, response_bytes};
ghost use Rattle.termwiz_share.specs.{kept_of, rows_scrolled_off, screen_of, trimmed_surface};
ghost use Rattle.termwiz_share.specs.{true, whole_at, with_log};

use crate::responses::Responses;
use std::alloc::{AllocError, Global};
use std::marker::Model;
use termwiz_cell::change::{Change, SEQ_ZERO, SequenceNo};
use termwiz_cell::emoji::Widths;
use termwiz_surface::{ChangeList, LineSink, NoScrollback, Surface, SurfaceError};
use termwiz_wire::{Ask, SourceNo};

/// A full surface that clients show, with a number that names it among all sources that a client
/// may hear of: 64 random bits will do.
///
/// It keeps its log short: each call that changes the surface, and each response, forgets the
/// changes that no answer needs.
#[derive(Drop, Debug)]
pub struct Source<W: Widths> {
    surface: Surface<W>,
    number: SourceNo,
    // The answers that were asked for since it changed.
    responses: Responses,
}

impl<W: Widths> Model for Source<W> {
    ghost use Rattle.std.specs.Prelude.{◌≡◌, ◌<◌, true};
    ghost use Rattle.termwiz_cell.specs.Measure.{measure};
    ghost use Rattle.termwiz_share.specs.Responses.{HasResponses};
    ghost use Rattle.termwiz_share.specs.Source.{SourceValue};

    ghost Value = { SourceValue W };

    ghost view = { λ s. record { surface = s.surface; number = s.number } };

    ghost invariant = { λ s. (s.surface.full ≡ true) × (0 < s.number)
        × HasResponses (measure W.width_of) (view s) s.responses };
}

impl<W: Widths> Source<W> {
    /// A source with a blank surface of this width in columns and this height in rows.
    pub fn new(
        alloc: Global,
        number: SourceNo,
        width: usize,
        height: usize,
        widths: W,
    ) -> Result<Source<W>, AllocError>
        requires some { 0 < number }
        requires size { IsSurfaceSize width height }
        ensures blank { IfOk result (λ source. source ≡ record {
          surface = blank_surface widths width height true;
          number = number;
        }) }
        // It serves each client that shows another source, or none.
        ensures serves { IfOk result (λ source. (client : ClientValue W) →
            client.source ≢ number →
            measure W.width_of client.surface.widths ≡ measure W.width_of widths →
            Serves (measure W.width_of) source client) }
    {
        let surface = Surface::new_full(alloc, width, height, widths)?;
        Ok(Source {
            surface,
            number,
            responses: Responses::new(alloc),
        })
    }

    /// What the source shows.
    pub fn surface(&self) -> &Surface<W>
        ensures value { result.now ≡ self.now.surface }
        ensures full { result.now.full ≡ true }
    {
        &self.surface
    }

    /// The number that names it.
    pub fn number(&self) -> SourceNo
        ensures value { result ≡ self.now.number }
        ensures some { 0 < result }
    {
        self.number
    }

    /// Applies one change, as `Surface::add_change` does.
    pub fn add_change(&mut self, change: Change) -> Result<SequenceNo, SurfaceError>
        ensures adds { Adds (measure W.width_of self.old.surface.widths)
            (trimmed_surface self.old.surface) (change_value change ∷ [])
            (next_number (trimmed_surface self.old.surface).log) result self.new.surface }
        // Clients, viewers, numbers and rows hold, even after an error.
        ensures preserves { PreservesServing (measure W.width_of) self.old self.new }
    {
        self.responses.clear();
        self.surface.forget_unneeded();
        self.surface.add_change(change)
    }

    /// Applies the changes in order, as `Surface::add_changes` does.
    pub fn add_changes(&mut self, changes: Vec<Change>) -> Result<SequenceNo, SurfaceError>
        ensures adds { Adds (measure W.width_of self.old.surface.widths)
            (trimmed_surface self.old.surface) (map change_value changes.items)
            (next_number (trimmed_surface self.old.surface).log - 1 + vec_len changes)
            result self.new.surface }
        // Clients, viewers, numbers and rows hold, even after an error.
        ensures preserves { PreservesServing (measure W.width_of) self.old self.new }
    {
        self.add(ChangeList::Owned(changes), &mut NoScrollback)
    }

    /// Applies the changes of a list in order, and logs them, or not, as the list says. The lines
    /// that they scroll off the top of the screen go to `lines`, as `Surface::add` says.
    pub fn add<L: LineSink>(
        &mut self,
        list: ChangeList<'_>,
        lines: &mut L,
    ) -> Result<SequenceNo, SurfaceError>
        ensures adds { AddsList (measure W.width_of self.old.surface.widths)
            (trimmed_surface self.old.surface) list.entry
            (next_number (trimmed_surface self.old.surface).log - 1
            + length (change_list list.entry))
            result self.new.surface }
        // The lines that scroll off are added, as they were shown. The old ones stay, even after an
        // error.
        ensures scrolled { IsTrue L.KEEPS → AddsScrolledOff self.old.surface.width
            (rows_scrolled_off (measure W.width_of self.old.surface.widths)
            (screen_of self.old.surface) (kept_of self.old.surface) (change_list list.entry))
            result (L.lines_of lines.old) (L.lines_of lines.new) }
        ensures spare { L.spare_of lines.new ≤ L.spare_of lines.old }
        // Clients, viewers, numbers and rows hold, even after an error.
        ensures preserves { PreservesServing (measure W.width_of) self.old self.new }
    {
        self.responses.clear();
        self.surface.forget_unneeded();
        self.surface.add(list, lines)
    }

    /// Draws another surface from this column and this row on, as `Surface::draw_from_screen` does.
    pub fn draw_from_screen(
        &mut self,
        other: &Surface<W>,
        x: usize,
        y: usize,
    ) -> Result<SequenceNo, SurfaceError>
        ensures draws { IsDrawn (measure W.width_of) (trimmed_surface self.old.surface) other.now
            (whole_at other.now x y) result self.new.surface }
        // All but the rows is as before.
        ensures restores { OnOk result (screen_of self.new.surface
            ≡ record (screen_of self.old.surface) { rows = (screen_of self.new.surface).rows }) }
        // For two surfaces of one width function: the other's rows, where no wide grapheme crosses
        // an edge.
        ensures region { OnOk result (HasDrawn (measure W.width_of) self.old.surface other.now
            (whole_at other.now x y) (screen_of self.new.surface)) }
        ensures no_scroll { result ≡ Err ScrollRegion → ⊥ }
        // Clients, viewers, numbers and rows hold, even after an error.
        ensures preserves { PreservesServing (measure W.width_of) self.old self.new }
    {
        let (width, height) = other.dimensions();
        self.draw_from(other, 0, 0, width, height, x, y)
    }

    /// Draws a part of another surface, as `Surface::draw_from` does.
    pub fn draw_from(
        &mut self,
        other: &Surface<W>,
        src_x: usize,
        src_y: usize,
        width: usize,
        height: usize,
        dest_x: usize,
        dest_y: usize,
    ) -> Result<SequenceNo, SurfaceError>
        ensures draws { IsDrawn (measure W.width_of) (trimmed_surface self.old.surface) other.now
            (region_at dest_x dest_y width height src_x src_y) result self.new.surface }
        // All but the rows is as before.
        ensures restores { OnOk result (screen_of self.new.surface
            ≡ record (screen_of self.old.surface) { rows = (screen_of self.new.surface).rows }) }
        // For two surfaces of one width function: the other's region, where no wide grapheme
        // crosses an edge.
        ensures region { OnOk result (HasDrawn (measure W.width_of) self.old.surface other.now
            (region_at dest_x dest_y width height src_x src_y) (screen_of self.new.surface)) }
        ensures no_scroll { result ≡ Err ScrollRegion → ⊥ }
        // Clients, viewers, numbers and rows hold, even after an error.
        ensures preserves { PreservesServing (measure W.width_of) self.old self.new }
    {
        self.responses.clear();
        self.surface.forget_unneeded();
        self.surface
            .draw_from(other, src_x, src_y, width, height, dest_x, dest_y)
    }

    /// Copies a region within the surface, as `Surface::copy_region` does.
    pub fn copy_region(
        &mut self,
        src_x: usize,
        src_y: usize,
        width: usize,
        height: usize,
        dest_x: usize,
        dest_y: usize,
    ) -> Result<SequenceNo, SurfaceError>
        ensures copies { IsCopied (measure W.width_of) (trimmed_surface self.old.surface)
            src_x src_y width height dest_x dest_y result self.new.surface }
        // What the region showed before, overlapping or not, where no wide grapheme crosses an
        // edge.
        ensures region { OnOk result (
            let old = screen_of self.old.surface in
            let r = copied_region old src_x src_y width height dest_x dest_y in
            HasCopied self.old.surface r (screen_of self.new.surface)) }
        ensures no_scroll { result ≡ Err ScrollRegion → ⊥ }
        // Clients, viewers, numbers and rows hold, even after an error.
        ensures preserves { PreservesServing (measure W.width_of) self.old self.new }
    {
        self.responses.clear();
        self.surface.forget_unneeded();
        self.surface
            .copy_region(src_x, src_y, width, height, dest_x, dest_y)
    }

    /// Draws a region within the surface, as `Surface::draw_region` does.
    pub fn draw_region(
        &mut self,
        src_x: usize,
        src_y: usize,
        width: usize,
        height: usize,
        dest_x: usize,
        dest_y: usize,
    ) -> Result<SequenceNo, SurfaceError>
        ensures draws { IsDrawn (measure W.width_of) (trimmed_surface self.old.surface)
            (trimmed_surface self.old.surface) (region_at dest_x dest_y width height src_x src_y)
            result self.new.surface }
        // All but the rows is as before.
        ensures restores { OnOk result (screen_of self.new.surface
            ≡ record (screen_of self.old.surface) { rows = (screen_of self.new.surface).rows }) }
        // What the region showed before, overlapping or not, where no wide grapheme crosses an
        // edge.
        ensures region { OnOk result (
            let old = screen_of self.old.surface in
            let r = copied_region old src_x src_y width height dest_x dest_y in
            HasCopied self.old.surface r (screen_of self.new.surface)) }
        ensures no_scroll { result ≡ Err ScrollRegion → ⊥ }
        // Clients, viewers, numbers and rows hold, even after an error.
        ensures preserves { PreservesServing (measure W.width_of) self.old self.new }
    {
        self.responses.clear();
        self.surface.forget_unneeded();
        self.surface
            .draw_region(src_x, src_y, width, height, dest_x, dest_y)
    }

    /// Resizes the surface, as `Surface::resize` does.
    pub fn resize(&mut self, width: usize, height: usize) -> Result<(), SurfaceError>
        requires size { IsSurfaceSize width height }
        ensures resizes { Resizes self.old.surface width height result self.new.surface }
        // Clients, viewers, numbers and rows hold, even after an error.
        ensures preserves { PreservesServing (measure W.width_of) self.old self.new }
    {
        self.responses.clear();
        self.surface.resize(width, height)
    }

    /// Forgets the changes before number `seq`, as `Surface::flush_changes_older_than` does: a
    /// client that asks for them gets a repaint.
    pub fn flush_changes_older_than(&mut self, seq: SequenceNo)
        ensures flushes { self.new ≡ record self.old {
          surface = with_log self.old.surface (flushed self.old.surface.log seq);
        } }
        // Clients, viewers, numbers and rows hold.
        ensures preserves { PreservesServing (measure W.width_of) self.old self.new }
    {
        self.responses.clear();
        self.surface.flush_changes_older_than(seq);
    }

    /// Appends the answer to an ask to a buffer. It is a delta, which has the changes from the
    /// ask's number on, where the ask names this source, the log has these changes, the whole delta
    /// has at most 64 bytes and 4 for each cell, and the screen bears its changes (see
    /// `termwiz_wire::is_borne`). Otherwise it is a repaint, whose changes the screen bears too.
    ///
    /// The bytes of the delta and of the repaint that were given last stay in memory until the
    /// surface changes, and are copied where they are asked for again.
    ///
    /// After an error the source is as it was, and the buffer begins with what it had.
    pub fn respond(&mut self, ask: Ask, out: &mut Vec<u8>) -> Result<(), AllocError>
        ensures ok { OnOk result (
            Responds (measure W.width_of) self.new ask out.old.items out.new.items) }
        // It is the delta that is due exactly where the ask names a number of this source that is
        // known, and the delta has no more bytes than that and costs no more than the screen bears.
        ensures given { OnOk result (out.new.items
            ≡ out.old.items ++ response_bytes (measure W.width_of) self.new ask) }
        // Into an empty buffer it is the response alone.
        ensures alone { out.old.items ≡ [] → OnOk result (
            IsResponse (measure W.width_of) self.new ask out.new.items) }
        ensures trims { OnOk result (
            self.new ≡ record self.old { surface = trimmed_surface self.old.surface }) }
        ensures err { OnErr result (self.new ≡ self.old) }
        ensures begins { OnErr result ((more : List ℕ) × (out.new.items ≡ out.old.items ++ more)) }
        // Clients, viewers, numbers and rows hold, even after an error.
        ensures preserves { PreservesServing (measure W.width_of) self.old self.new }
    {
        let from = self.number_asked(ask);
        let is_delta = self.responses.prepare(&self.surface, self.number, from)?;
        out.extend_from_slice(self.responses.bytes(is_delta))?;
        self.surface.forget_unneeded();
        Ok(())
    }

    /// Writes the answer that `respond` appends to the front of a buffer, and returns its length in
    /// bytes. Where the buffer is too short it stays as it is, and the answer isn't made anew for
    /// the same ask while the surface doesn't change.
    ///
    /// After an error the source and the buffer are as they were.
    pub fn respond_to(&mut self, ask: Ask, room: &mut [u8]) -> Result<usize, AllocError>
        ensures response { OnOk result (IsResponse (measure W.width_of) self.new ask
            (response_bytes (measure W.width_of) self.new ask)) }
        ensures written { IfOk result (λ len. WritesFront
            (response_bytes (measure W.width_of) self.new ask) room.old len room.new) }
        ensures trims { OnOk result (
            self.new ≡ record self.old { surface = trimmed_surface self.old.surface }) }
        ensures err { OnErr result (self.new ≡ self.old) }
        ensures unwritten { OnErr result (room.new ≡ room.old) }
        // Clients, viewers, numbers and rows hold, even after an error.
        ensures preserves { PreservesServing (measure W.width_of) self.old self.new }
    {
        let from = self.number_asked(ask);
        let is_delta = self.responses.prepare(&self.surface, self.number, from)?;
        let len = write_front(self.responses.bytes(is_delta), room);
        self.surface.forget_unneeded();
        Ok(len)
    }

    // The number of this source that an ask names, or 0 where it names none.
    fn number_asked(&self, ask: Ask) -> SequenceNo
        ensures { result ≡ number_asked self.now.number ask }
    {
        if ask.source == self.number {
            ask.number
        } else {
            SEQ_ZERO
        }
    }
}

// Writes bytes to the front of a buffer, unless it is shorter, and returns how many there are.
fn write_front(bytes: &[u8], room: &mut [u8]) -> usize
    ensures { WritesFront bytes.now room.old result room.new }
{
    let len = bytes.len();
    if len <= room.len() {
        room[..len].copy_from_slice(bytes);
    }
    len
}
