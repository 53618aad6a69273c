//! A screen that is shared with three clients: each asks, is answered, and shows what it is sent.
ghost use Rattle.std.specs.Prelude.{◌≡◌, ◌⊎◌, ◌+◌, ◌<◌, ◌≤◌, ◌∷◌, [], IfErr, IfOk, OnErr, OnOk};
ghost use Rattle.std.specs.Prelude.{map, take, true, vec_len};
ghost use Rattle.uses.specs.{Adds, IsReady, IsResponse, IsSurfaceSize, KeepsClients};
ghost use Rattle.uses.specs.{AllShowSource, MayRefuse, Serves, ServesAll, ServesOnce, Shares};
ghost use Rattle.uses.specs.{Stands};
ghost use Rattle.uses.specs.{blank_surface, change_value, full_after, full_of, measure};
ghost use Rattle.uses.specs.{PreservesServing, SourceValue, TakesResponse, ask_of};
ghost use Rattle.uses.specs.{next_number, trimmed_surface};

use std::alloc::{AllocError, Global};
use std::marker::Model;
use termwiz_share::{Client, ClientError, Source};
use termwiz_surface::laws::full_repaint_laws;
use termwiz_surface::{Change, SequenceNo, SurfaceError, Widths};
use termwiz_wire::{Ask, Limits, SourceNo};

/// Why changes weren't all made, or not all clients show them.
#[derive(Debug, Drop, Clone, Copy, PartialEq, Eq)]
pub enum ShareError {
    /// A change was refused. Those before it are made, and no others. The screen is the one that
    /// they make, or where memory was refused, any one of that size. The clients are as they were.
    Refused(SurfaceError),
    /// A client can't be served. All changes of `Room::share` are made then.
    Unserved(ClientError),
}

impl From<SurfaceError> for ShareError {
    ghost use Rattle.uses.specs.declared.serving.ShareError.TheVariants.{Refused};

    ghost from_gives = { λ error made. made ≡ Refused error };

    fn from(error: SurfaceError) -> ShareError {
        ShareError::Refused(error)
    }
}

impl From<AllocError> for ShareError {
    ghost use Rattle.termwiz_share.specs.declared.error.ClientError.TheVariants.{Memory};
    ghost use Rattle.uses.specs.declared.serving.ShareError.TheVariants.{Unserved};

    ghost from_gives = { λ _ made. made ≡ Unserved Memory };

    fn from(_: AllocError) -> ShareError {
        ShareError::Unserved(ClientError::Memory)
    }
}

impl From<ClientError> for ShareError {
    ghost use Rattle.uses.specs.declared.serving.ShareError.TheVariants.{Unserved};

    ghost from_gives = { λ error made. made ≡ Unserved error };

    fn from(error: ClientError) -> ShareError {
        ShareError::Unserved(error)
    }
}

/// A screen, and three clients of it. Whatever happens, each client can be served.
#[derive(Drop)]
pub struct Room<W: Widths> {
    alloc: Global,
    source: Source<W>,
    first: Client<W>,
    second: Client<W>,
    third: Client<W>,
}

impl<W: Widths> Model for Room<W> {
    ghost use Rattle.uses.specs.Serving.{RoomIsServed, RoomValue};
    ghost use Rattle.termwiz_cell.specs.Measure.{measure};

    ghost Value = { RoomValue W };

    ghost view = { λ r. record {
      source = r.source;
      first = r.first;
      second = r.second;
      third = r.third;
    } };

    ghost invariant = { λ r. RoomIsServed (measure W.width_of) (view r) };
}

impl<W: Widths> Room<W> {
    /// A blank screen of this number and size, and its clients.
    pub fn new(
        alloc: Global,
        number: SourceNo,
        size: (usize, usize),
        widths: W,
    ) -> Result<Room<W>, AllocError>
        requires some { 0 < number }
        requires size { IsSurfaceSize size.0 size.1 }
        ensures { IfOk result (λ room. room.source ≡ record {
          surface = blank_surface widths size.0 size.1 true;
          number = number;
        }) }
    {
        let limits = Limits::default();
        let first = Client::new(alloc, widths, limits)?;
        let second = Client::new(alloc, widths, limits)?;
        let third = Client::new(alloc, widths, limits)?;
        let source = Source::new(alloc, number, size.0, size.1, widths)?;
        Ok(Room {
            alloc,
            source,
            first,
            second,
            third,
        })
    }

    /// The clients.
    pub fn first(&self) -> &Client<W>
        ensures { result.now ≡ self.now.first }
    {
        &self.first
    }

    pub fn second(&self) -> &Client<W>
        ensures { result.now ≡ self.now.second }
    {
        &self.second
    }

    pub fn third(&self) -> &Client<W>
        ensures { result.now ≡ self.now.third }
    {
        &self.third
    }

    /// Makes one change on the screen, as `Source::add_change` does. The clients stay as they are.
    pub fn make(&mut self, change: Change) -> Result<SequenceNo, SurfaceError>
        ensures adds { Adds (measure W.width_of self.old.source.surface.widths)
            (trimmed_surface self.old.source.surface) (change_value change ∷ [])
            (next_number (trimmed_surface self.old.source.surface).log)
            result self.new.source.surface }
        // The change is made, or the screen stands as the error says.
        ensures shows { OnOk result (full_of self.new.source.surface
            ≡ full_after (measure W.width_of) self.old.source.surface (change_value change ∷ [])) }
        ensures stands { IfErr result (λ error. Stands error
            (full_of self.old.source.surface) (full_of self.new.source.surface)) }
        ensures widths { self.new.source.surface.widths ≡ self.old.source.surface.widths }
        ensures counted { OnOk result (next_number self.new.source.surface.log
            ≡ next_number self.old.source.surface.log + 1) }
        ensures clients { self.new ≡ record self.old { source = self.new.source } }
    {
        make(&mut self.source, change)
    }

    /// Serves each client: all of them show the screen then. One that can't be served is passed
    /// over, and the first such error is returned. The screen stays, and the next call serves all
    /// clients anew.
    pub fn serve_all(&mut self) -> Result<(), ClientError>
        ensures shows { OnOk result (AllShowSource self.new) }
        // Each is served, or fails to be for a reason of its own.
        ensures serves { ServesAll (measure W.width_of) self.old result self.new }
        ensures same { full_of self.new.source.surface ≡ full_of self.old.source.surface }
        ensures widths { self.new.source.surface.widths ≡ self.old.source.surface.widths }
    {
        let first = serve(self.alloc, &mut self.source, &mut self.first);
        let second = serve(self.alloc, &mut self.source, &mut self.second);
        let third = serve(self.alloc, &mut self.source, &mut self.third);
        first.and(second).and(third)
    }

    /// Makes the changes in order, and then serves each client: so all of them show the screen that
    /// the changes make.
    ///
    /// It stops at a change that is refused, and serves none then. `ShareError` says what stands
    /// after each error. Each client can be served anew.
    pub fn share(&mut self, changes: Vec<Change>) -> Result<(), ShareError>
        ensures shows { OnOk result (AllShowSource self.new) }
        ensures shares { Shares (measure W.width_of) self.old
            (map change_value changes.items) result self.new }
    {
        for change in changes {
            self.make(change)?;
        }
        self.serve_all()?;
        Ok(())
    }
}

// Makes one change on what a source shows.
pub(crate) fn make<W: Widths>(
    source: &mut Source<W>,
    change: Change,
) -> Result<SequenceNo, SurfaceError>
    ensures adds { Adds (measure W.width_of source.old.surface.widths)
        (trimmed_surface source.old.surface) (change_value change ∷ [])
        (next_number (trimmed_surface source.old.surface).log) result source.new.surface }
    ensures shows { OnOk result (full_of source.new.surface
        ≡ full_after (measure W.width_of) source.old.surface (change_value change ∷ [])) }
    ensures stands { IfErr result (λ error.
        Stands error (full_of source.old.surface) (full_of source.new.surface)) }
    // Which error comes when.
    ensures refuses { IfErr result (λ error.
        MayRefuse source.old.surface (change_value change ∷ []) error) }
    ensures widths { source.new.surface.widths ≡ source.old.surface.widths }
    ensures counted { OnOk result (next_number source.new.surface.log
        ≡ next_number source.old.surface.log + 1) }
    ensures preserves { PreservesServing (measure W.width_of) source.old source.new }
{
    // Changes make a full screen of a full screen.
    full_repaint_laws();
    source.add_change(change)
}

/// Lets a client ask a source, and show what it has. It fails where there is no memory for the
/// response, and the client is as it was then, or as `Client::feed` does on the response. After an
/// error the client can be served anew.
pub fn serve<W: Widths>(
    alloc: Global,
    source: &mut Source<W>,
    client: &mut Client<W>,
) -> Result<(), ClientError>
    requires serves { Serves (measure W.width_of) source.old client.old }
    requires ready { IsReady client.old }
    ensures shows { OnOk result (full_of client.new.surface ≡ full_of source.new.surface) }
    // Which error comes when.
    ensures once { ServesOnce (measure W.width_of) source.new client.old result client.new }
    ensures serves { Serves (measure W.width_of) source.new client.new }
    ensures ready { IsReady client.new }
    // The source shows what it did, and serves its other clients.
    ensures same { full_of source.new.surface ≡ full_of source.old.surface }
    ensures widths { source.new.surface.widths ≡ source.old.surface.widths }
    ensures others { KeepsClients (measure W.width_of) source.old source.new }
{
    let bytes = response(alloc, source, client.ask())?;
    show(client, &bytes)
}

/// Serves a client as `serve` does, by way of a buffer that the caller keeps. Where a response is
/// longer, the buffer grows, and the response isn't made anew.
pub fn serve_by<W: Widths>(
    source: &mut Source<W>,
    client: &mut Client<W>,
    buffer: &mut Vec<u8>,
) -> Result<(), ClientError>
    requires serves { Serves (measure W.width_of) source.old client.old }
    requires ready { IsReady client.old }
    ensures shows { OnOk result (full_of client.new.surface ≡ full_of source.new.surface) }
    // Which error comes when.
    ensures once { ServesOnce (measure W.width_of) source.new client.old result client.new }
    ensures serves { Serves (measure W.width_of) source.new client.new }
    ensures ready { IsReady client.new }
    // The source shows what it did, and serves its other clients.
    ensures same { full_of source.new.surface ≡ full_of source.old.surface }
    ensures others { KeepsClients (measure W.width_of) source.old source.new }
{
    let len = write_response(source, client.ask(), buffer)?;
    show(client, &buffer[..len])
}

// Lets a client show a source's response to its ask, and makes it ready again where that fails.
fn show<W: Widths>(client: &mut Client<W>, response: &[u8]) -> Result<(), ClientError>
    ensures { (s : SourceValue W) → Serves (measure W.width_of) s client.old →
        IsReady client.old →
        IsResponse (measure W.width_of) s (ask_of client.old) response.now →
        TakesResponse (measure W.width_of) s client.old result client.new }
{
    if let Err(error) = client.feed(response) {
        client.reset();
        return Err(error);
    }
    Ok(())
}

// Writes a source's answer to an ask to the front of a buffer, which grows where the answer is
// longer, and returns its length in bytes. The source forgets what no answer needs.
fn write_response<W: Widths>(
    source: &mut Source<W>,
    ask: Ask,
    buffer: &mut Vec<u8>,
) -> Result<usize, AllocError>
    ensures response { IfOk result (λ len.
        IsResponse (measure W.width_of) source.new ask (take len buffer.new.items)) }
    ensures fits { IfOk result (λ len. len ≤ vec_len buffer.new) }
    ensures trims { (source.new ≡ source.old)
        ⊎ (source.new ≡ record source.old { surface = trimmed_surface source.old.surface }) }
    ensures preserves { PreservesServing (measure W.width_of) source.old source.new }
{
    let len = source.respond_to(ask, buffer)?;
    if len > buffer.len() {
        buffer.resize(len, 0)?;
        source.respond_to(ask, buffer)?;
    }
    Ok(len)
}

/// The bytes of a source's answer to an ask. After an error the source is unchanged.
pub(crate) fn response<W: Widths>(
    alloc: Global,
    source: &mut Source<W>,
    ask: Ask,
) -> Result<Vec<u8>, AllocError>
    ensures response { IfOk result (λ bytes.
        IsResponse (measure W.width_of) source.new ask bytes.items) }
    ensures trims { OnOk result (
        source.new ≡ record source.old { surface = trimmed_surface source.old.surface }) }
    ensures kept { OnErr result (source.new ≡ source.old) }
    ensures same { full_of source.new.surface ≡ full_of source.old.surface }
    ensures widths { source.new.surface.widths ≡ source.old.surface.widths }
    ensures preserves { PreservesServing (measure W.width_of) source.old source.new }
{
    let mut bytes = Vec::new(alloc);
    source.respond(ask, &mut bytes)?;
    Ok(bytes)
}
