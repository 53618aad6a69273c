//! Clients, which take the answers of sources and show what these had.
ghost use Rattle.std.specs.Prelude.{◌≡◌, ◌<◌, ◌≤◌, ◌^◌, ◌++◌, [], IfOk, IfSome, IsSome, List, None};
ghost use Rattle.std.specs.Prelude.{Ok, OnErr, OnOk, Some, drop, length, ℕ};
ghost use Rattle.termwiz_wire.specs.Resuming.{LeadsOn};
ghost use Rattle.termwiz_share.specs.{ClientValue, EndsHere, Feeds, ClientFollows, FollowsNext};
ghost use Rattle.termwiz_share.specs.{ClientFollowsTo, FullScreen, Given, HasGiven, IsAsk, IsReady};
ghost use Rattle.termwiz_share.specs.{DecodesNext, HasBegunNext, IsResponse, IsSurfaceSize};
ghost use Rattle.termwiz_share.specs.{KeepsPiece, KeepsSources, NumbersRows, Serves};
ghost use Rattle.termwiz_share.specs.{ShowsSource, TakesWholeOnes};
ghost use Rattle.termwiz_share.specs.{SourceValue, TakesNextOrNone, TakesNext};
ghost use Rattle.termwiz_share.specs.{ask, ask_of, blank_surface, measure, refusal, true};

mod display;

use crate::error::ClientError;
use crate::store::append;
use crate::taken::Taken;
use display::Display;
use std::alloc::{AllocError, Global};
use std::marker::Model;
use termwiz_cell::change::SequenceNo;
use termwiz_cell::emoji::Widths;
use termwiz_surface::Surface;
use termwiz_wire::{
    Ask, Begun, LentAnswer, Limits, NoAnswer, SourceNo, WireError, answers, decode_answer,
    decode_more, encode_ask,
};

/// Shows what a source showed when it gave the last answer that was taken.
///
/// It takes the bytes of a stream in whatever chunks they come. An answer is read whole before
/// anything changes; one that is late, comes again, or is of another source than the one shown
/// changes nothing, unless it is a repaint. Its own surface keeps no changes.
#[derive(Drop, Debug)]
pub struct Client<W: Widths> {
    alloc: Global,
    limits: Limits,
    display: Display<W>,
    bytes: Vec<u8>,
    // How many of them are used.
    start: usize,
    // What was decoded of the answer that the others begin.
    begun: Option<Begun>,
    stopped: Option<ClientError>,
}

impl<W: Widths> Model for Client<W> {
    ghost use Rattle.std.specs.Prelude.{◌≡◌, ◌<◌, ◌≤◌, [], IfSome, drop, length, true};
    ghost use Rattle.termwiz_cell.specs.Measure.{measure};
    ghost use Rattle.termwiz_wire.specs.Resuming.{LeadsOn};
    ghost use Rattle.termwiz_share.specs.Client.{ClientValue};

    ghost Value = { ClientValue W };

    ghost view = { λ c. record {
      surface = c.display.surface;
      source = c.display.source;
      number = c.display.number;
      kept = drop c.start c.bytes.items;
      limits = c.limits;
      stopped = c.stopped;
    } };

    ghost invariant = { λ c. (c.start ≤ length c.bytes.items) × (0 < c.limits.bytes)
        × IfSome c.begun (λ b. LeadsOn (measure W.width_of c.display.surface.widths) c.limits b
        (drop c.start c.bytes.items)) };
}

impl<W: Widths> Client<W> {
    /// A client that shows a blank surface of one cell, and no source. It measures texts by this
    /// width value, and takes answers within these limits.
    pub fn new(alloc: Global, widths: W, limits: Limits) -> Result<Client<W>, AllocError>
        requires some { 0 < limits.bytes }
        ensures blank { IfOk result (λ client. client ≡ record {
          surface = blank_surface widths 1 1 true;
          source = 0;
          number = 0;
          kept = [];
          limits = limits;
          stopped = None;
        }) }
        // A source that serves a client serves this one too.
        ensures serves { IfOk result (λ client. (source : SourceValue W) (other : ClientValue W) →
            Serves (measure W.width_of) source other →
            measure W.width_of widths ≡ measure W.width_of source.surface.widths →
            Serves (measure W.width_of) source client) }
    {
        let display = Display::new(alloc, widths)?;
        Ok(Client {
            alloc,
            limits,
            display,
            bytes: Vec::new(alloc),
            start: 0,
            begun: None,
            stopped: None,
        })
    }

    /// What the client shows.
    pub fn surface(&self) -> &Surface<W>
        ensures value { result.now ≡ self.now.surface }
        ensures full { result.now.full ≡ true }
        ensures log { result.now.log.changes ≡ [] }
    {
        self.display.surface()
    }

    /// The source of the answer that was taken last, or 0 where there is none.
    pub fn source(&self) -> SourceNo
        ensures { result ≡ self.now.source }
    {
        self.display.source()
    }

    /// The number of the answer that was taken last, or 0 where there is none.
    pub fn number(&self) -> SequenceNo
        ensures { result ≡ self.now.number }
    {
        self.display.number()
    }

    /// Why the client takes no more bytes, or `None` where it takes them.
    pub fn stopped(&self) -> Option<ClientError>
        ensures { result ≡ self.now.stopped }
    {
        self.stopped
    }

    /// The ask to send to a source, which says what the client shows.
    pub fn ask(&self) -> Ask
        ensures value { result ≡ ask_of self.now }
        ensures named { result.source ≡ 0 → result.number ≡ 0 }
    {
        Ask {
            source: self.display.source(),
            number: self.display.number(),
        }
    }

    /// Appends the bytes of the ask, as a source reads them, to a buffer. After an error the buffer
    /// begins with what it had.
    pub fn encode_ask(&self, out: &mut Vec<u8>) -> Result<(), AllocError>
        ensures ok { OnOk result (out.new.items ≡ out.old.items ++ ask (ask_of self.now)) }
        // What is appended can be decoded again.
        ensures form { OnOk result (IsAsk (ask_of self.now)) }
        ensures begins { OnErr result ((more : List ℕ) × (out.new.items ≡ out.old.items ++ more)) }
    {
        encode_ask(out, self.ask())
    }

    /// Makes the client ready for the bytes of a new connection. What it shows stays.
    pub fn reset(&mut self)
        ensures resets { self.new ≡ record self.old { kept = []; stopped = None } }
        ensures ready { IsReady self.new }
        ensures serves { KeepsSources (measure W.width_of) self.old self.new }
    {
        self.bytes.clear();
        self.start = 0;
        self.begun = None;
        self.stopped = None;
    }

    /// Takes the next bytes of the stream, in whatever chunks they come, and the answers that are
    /// whole then. Returns how many those are; a stale one, which changes nothing, counts too.
    ///
    /// It does what `keep` does, and then calls `take_answer` until there is none. `ClientError`
    /// says what each error leaves.
    pub fn feed(&mut self, piece: &[u8]) -> Result<usize, ClientError>
        // Whatever the bytes are.
        ensures feeds { Feeds (measure W.width_of) self.old piece.now result self.new }
        // Of a stream of answers, of any sources and in any order, it shows what the last one that
        // fits was given for, and fails for want of memory or of numbers alone.
        ensures follows { (histories : ℕ → ℕ → FullScreen) (sent : List Given) (future : List ℕ) →
            ClientFollows (measure W.width_of) histories sent self.old (piece.now ++ future) →
            ClientFollowsTo (measure W.width_of) histories sent future self.old result self.new }
        // Of such a stream, whole or cut or late, it is served by the sources that gave the
        // answers, after an error too.
        ensures served { (histories : ℕ → ℕ → FullScreen) (sent : List Given) (future : List ℕ)
            (source : SourceValue W) →
            ClientFollows (measure W.width_of) histories sent self.old (piece.now ++ future) →
            HasGiven (measure W.width_of) histories sent source →
            Serves (measure W.width_of) source self.old →
            Serves (measure W.width_of) source self.new }
        // A client that is fed the response to its ask shows what the source shows,
        ensures shows { (source : SourceValue W) → Serves (measure W.width_of) source self.old →
            IsReady self.old →
            IsResponse (measure W.width_of) source (ask_of self.old) piece.now →
            OnOk result (ShowsSource source self.new × IsReady self.new) }
        // and is served by it still, also after an error.
        ensures serves { (source : SourceValue W) → Serves (measure W.width_of) source self.old →
            IsReady self.old →
            IsResponse (measure W.width_of) source (ask_of self.old) piece.now →
            Serves (measure W.width_of) source self.new }
        // A row whose number isn't above one that the client's surface had shows what it did then.
        ensures numbered { NumbersRows self.old.surface self.new.surface }
    {
        answers();
        self.keep(piece)?;
        self.take_all()
    }

    /// Keeps the next bytes of the stream after those that it has, and takes no answer. Where
    /// memory is refused it takes no more bytes, until `reset`.
    pub fn keep(&mut self, piece: &[u8]) -> Result<(), ClientError>
        ensures keeps { KeepsPiece self.old piece.now result self.new }
        // The stream that it follows goes on after them.
        ensures follows { (histories : ℕ → ℕ → FullScreen) (sent : List Given) (future : List ℕ) →
            ClientFollows (measure W.width_of) histories sent self.old (piece.now ++ future) →
            OnOk result (ClientFollows (measure W.width_of) histories sent self.new future) }
        // Memory has them, and the limits allow some.
        ensures few { OnOk result (length self.new.kept < 2 ^ 64) }
        ensures some { 0 < self.old.limits.bytes }
        ensures serves { KeepsSources (measure W.width_of) self.old self.new }
    {
        if let Some(error) = self.stopped {
            return Err(error);
        }
        if append(&mut self.bytes, &mut self.start, piece).is_err() {
            self.stopped = Some(ClientError::Memory);
            return Err(ClientError::Memory);
        }
        Ok(())
    }

    /// Takes the next answer of the bytes that it keeps, or returns `None` where they make no whole
    /// one.
    ///
    /// `ClientError` says what each error leaves.
    pub fn take_answer(&mut self) -> Result<Option<Taken>, ClientError>
        // Whatever the bytes are.
        ensures takes { TakesNext (measure W.width_of) self.old result self.new }
        // Of a stream of answers it takes the next one, and fails for want of memory or of numbers
        // alone.
        ensures follows { (histories : ℕ → ℕ → FullScreen) (sent : List Given) (future : List ℕ) →
            ClientFollows (measure W.width_of) histories sent self.old future →
            FollowsNext (measure W.width_of) histories sent future self.old result self.new }
        // A client that has the response to its ask shows what the source shows,
        ensures shows { (source : SourceValue W) → Serves (measure W.width_of) source self.old →
            self.old.stopped ≡ None →
            IsResponse (measure W.width_of) source (ask_of self.old) self.old.kept →
            OnOk result ((result ≡ Ok (Some Taken.Shown)) × ShowsSource source self.new
            × IsReady self.new) }
        // and is served by it still, also after an error.
        ensures serves { (source : SourceValue W) → Serves (measure W.width_of) source self.old →
            self.old.stopped ≡ None →
            IsResponse (measure W.width_of) source (ask_of self.old) self.old.kept →
            Serves (measure W.width_of) source self.new }
        // Each answer has some bytes, and the limits allow some.
        ensures some { 0 < self.old.limits.bytes }
        ensures shorter { IfOk result (λ taken. IsSome taken →
            length self.new.kept < length self.old.kept) }
        // A row whose number isn't above one that the client's surface had shows what it did then.
        ensures numbered { NumbersRows self.old.surface self.new.surface }
    {
        answers();
        if let Some(error) = self.stopped {
            return Err(error);
        }
        self.take_next()
    }

    /// Fails with `Fault` where a stream that ends here ends within an answer. Where a whole answer
    /// is kept it succeeds, so take all answers first.
    pub fn end(&self) -> Result<(), ClientError>
        ensures { EndsHere (measure W.width_of) self.now result }
    {
        let bytes = &self.bytes[self.start..];
        if bytes.is_empty() {
            return Ok(());
        }
        let widths = self.display.surface().widths();
        match decode_answer(self.alloc, &widths, self.limits, bytes) {
            Ok(_) => Ok(()),
            Err(WireError::Fault(fault)) => Err(ClientError::Fault(fault)),
            Err(WireError::Memory) => Err(ClientError::Memory),
        }
    }

    // Takes the next answer, if there is a whole one.
    fn take_next(&mut self) -> Result<Option<Taken>, ClientError>
        ensures steps { TakesNextOrNone (measure W.width_of) self.old result self.new }
        ensures shorter { IfOk result (λ taken. IsSome taken →
            length self.new.kept < length self.old.kept) }
        ensures numbered { NumbersRows self.old.surface self.new.surface }
    {
        answers();
        if self.start == self.bytes.len() {
            return Ok(None);
        }
        let widths = self.display.surface().widths();
        let bytes = &self.bytes[self.start..];
        match decode_next(self.alloc, &widths, self.limits, &mut self.begun, bytes) {
            Ok(Some((answer, count))) => match self.display.take(answer) {
                Ok(taken) => {
                    self.start += count;
                    Ok(Some(taken))
                }
                Err(error) => {
                    self.stopped = refusal(self.stopped, error);
                    Err(error)
                }
            },
            Ok(None) => Ok(None),
            Err(WireError::Memory) => Err(ClientError::Memory),
            Err(WireError::Fault(fault)) => {
                let error = ClientError::Fault(fault);
                self.stopped = Some(error);
                Err(error)
            }
        }
    }

    // Takes the answers that are whole, and returns how many they are.
    fn take_all(&mut self) -> Result<usize, ClientError>
        requires reading { self.old.stopped ≡ None }
        requires few { length self.old.kept < 2 ^ 64 }
        ensures reads { TakesWholeOnes (measure W.width_of) self.old result self.new }
        ensures numbered { NumbersRows self.old.surface self.new.surface }
    {
        let mut count = 0;
        'answers: while self.take_answer()?.is_some() {
            count += 1;
        }
        Ok(count)
    }
}

// Decodes the answer that the bytes begin, from what is begun of it, or returns `None` where they
// make no whole one. Then all of it that they have whole is begun, and else nothing is.
fn decode_next<'a, W: Widths>(
    alloc: Global,
    widths: &W,
    limits: Limits,
    begun: &mut Option<Begun>,
    bytes: &'a [u8],
) -> Result<Option<(LentAnswer<'a>, usize)>, WireError>
    requires leads { IfSome begun.old
        (λ b. LeadsOn (measure W.width_of widths.now) limits b bytes.now) }
    ensures exact { DecodesNext (measure W.width_of widths.now) limits bytes.now result }
    ensures begun { HasBegunNext (measure W.width_of widths.now) limits bytes.now
        result begun.new }
    ensures within { IfOk result (λ next. IfSome next (λ x. x.1 ≤ length bytes.now)) }
    ensures shorter { IfOk result (λ next. IfSome next (λ x.
        length (drop x.1 bytes.now) < length bytes.now)) }
    ensures named { IfOk result (λ next. IfSome next (λ x. 0 < x.0.source)) }
    ensures sized { IfOk result (λ next. IfSome next (λ x.
        IsSurfaceSize x.0.width x.0.height)) }
{
    match decode_more(alloc, widths, limits, begun.take(), bytes) {
        Ok(next) => Ok(Some(next)),
        Err(NoAnswer::Cut(more)) => {
            *begun = more;
            Ok(None)
        }
        Err(NoAnswer::Failed(error)) => Err(error),
    }
}

// Why a client takes no more bytes once an answer is refused by this error: one of another size
// stops it.
fn refusal(stopped: Option<ClientError>, error: ClientError) -> Option<ClientError>
    ensures { result ≡ refusal stopped error }
{
    match error {
        ClientError::Size { at: _ } => Some(error),
        _ => stopped,
    }
}
