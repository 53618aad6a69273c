//! Clients: how they are made, ask, and are fed.
ghost use Rattle.std.specs.Prelude.{◌≡◌, ◌<◌, Err, IfErr, IfOk};
ghost use Rattle.tikeburo_c.specs.Handles.{handle_value};
ghost use Rattle.tikeburo_c.specs.Making.{MakesClient, MakesClientBy, client_within, limited};
ghost use Rattle.tikeburo_c.specs.Making.{usual_rows, widths_within};
ghost use Rattle.tikeburo_c.specs.Outcomes.{Reports};
ghost use Rattle.tikeburo_c.specs.Results.{OnClient, OnClientAnd};
ghost use Rattle.tikeburo_c.specs.Streams.{FailsInto, FeedsBytes, FeedsIn, GivesAsk};
ghost use Rattle.tikeburo_c.specs.Streams.{KeepsBytes, Resets, TakesNextInto};
ghost use Rattle.tikeburo_c.specs.Streams.{fault_number, fields_at, named_ask, taken_fields};
ghost use Rattle.tikeburo_c.specs.declared.failure.Failure.TheVariants.{Memory};
ghost use Rattle.tikeburo_c.specs.declared.kept.Kept.TheVariants as kinds;

use crate::asks::give_ask;
use crate::failure::{Failure, status};
use crate::handle::Handle;
use crate::kept::Kept;
use crate::tables::WidthRange;
use crate::widths::ChosenWidths;
use cbor::FaultKind;
use std::alloc::Global;
use termwiz_share::{Client, ClientError, Taken};
use termwiz_wire::{Ask, Limits};

/// What is wrong with the bytes of an answer. Where it is in no change, that is 0.
#[repr(C)]
#[derive(Clone, Copy)]
pub struct FaultFields {
    pub kind: u8,
    pub has_change: bool,
    pub at: usize,
    pub change: usize,
}

/// What came of the next answer: there was none, it is shown, or it is stale from this byte on.
#[repr(C)]
#[derive(Clone, Copy)]
pub struct TakenFields {
    pub kind: u8,
    pub at: usize,
}

fn blank_client(
    alloc: Global,
    widths: ChosenWidths<'static>,
    limits: Limits,
) -> Result<Box<Kept>, Failure>
    requires some { 0 < limits.bytes }
    ensures made { IfOk result (λ kept.
        kept.value ≡ kinds.Client (client_within widths.entry limits)) }
    ensures memory { IfErr result (λ failure. failure ≡ Memory) }
{
    let client = Client::new(alloc, widths, limits)?;
    let kept = Box::new(alloc, Kept::Client(client))?;
    Ok(kept)
}

fn make_client(
    alloc: Global,
    handle: &mut Handle,
    widths: Option<ChosenWidths<'static>>,
    limits: Limits,
) -> Result<(), Failure>
    ensures { MakesClient (limited limits.bytes widths.entry) limits
        (handle_value handle.old) result (handle_value handle.new) }
{
    if limits.bytes == 0 {
        return Err(Failure::Range);
    }
    let Some(widths) = widths else {
        return Err(Failure::Range);
    };
    let kept = blank_client(alloc, widths, limits)?;
    handle.put(alloc, kept);
    Ok(())
}

// The limits of this many cells and bytes, and of as many rows as are usual.
fn limits(cells: usize, bytes: usize) -> Limits
    ensures { result ≡ usual_rows cells bytes }
{
    Limits {
        cells,
        bytes,
        ..Limits::default()
    }
}

/// Makes a client that shows nothing yet, measures by the chosen widths, and takes no answer of
/// more cells or bytes, nor of more rows than are usual: a limit of no bytes is out of its range.
#[unsafe(no_mangle)]
pub extern "C" fn tk_client_new(
    alloc: Global,
    handle: &mut Handle,
    widths: u8,
    cells: usize,
    bytes: usize,
) -> i32
    ensures { Reports result (λ outcome. MakesClient (widths_within bytes widths)
        (usual_rows cells bytes)
        (handle_value handle.old) outcome (handle_value handle.new)) }
{
    let limits = limits(cells, bytes);
    let widths = ChosenWidths::at(widths);
    let outcome = make_client(alloc, handle, widths, limits);
    status(outcome)
}

/// Makes a client as `tk_client_new` does, but one that measures by a table. The ranges must stay
/// as they are while the program runs.
#[unsafe(no_mangle)]
pub extern "C" fn tk_client_new_by(
    alloc: Global,
    handle: &mut Handle,
    ranges: &'static [WidthRange],
    cells: usize,
    bytes: usize,
) -> i32
    ensures { Reports result (λ outcome. MakesClientBy ranges.entry
        (usual_rows cells bytes)
        (handle_value handle.old) outcome (handle_value handle.new)) }
{
    let limits = limits(cells, bytes);
    let widths = ChosenWidths::by(ranges);
    let outcome = make_client(alloc, handle, widths, limits);
    status(outcome)
}

fn fault_number(kind: FaultKind) -> u8
    ensures { result ≡ fault_number kind }
{
    match kind {
        FaultKind::Version => 0,
        FaultKind::Type => 1,
        FaultKind::Utf8 => 2,
        FaultKind::Range => 3,
        FaultKind::Region => 4,
        FaultKind::Measure => 6,
        FaultKind::Limit => 7,
        FaultKind::Truncated => 8,
    }
}

fn fields_at(kind: u8, at: usize, change: Option<usize>) -> FaultFields
    ensures { result ≡ fields_at kind at change }
{
    FaultFields {
        kind,
        has_change: change.is_some(),
        at,
        change: change.unwrap_or(0),
    }
}

// Why a call of a client failed, with the fault in the struct where there is one.
fn failed(error: ClientError, fault: &mut FaultFields) -> Failure
    ensures { FailsInto error fault.old (Err result) fault.new }
{
    match error {
        ClientError::Fault(found) => {
            *fault = fields_at(fault_number(found.kind), found.at, found.change);
            Failure::Unreadable
        }
        ClientError::Size { at } => {
            *fault = fields_at(5, at, None);
            Failure::Unreadable
        }
        ClientError::Numbers => Failure::Numbers,
        ClientError::Memory => Failure::Memory,
    }
}

fn feed(
    client: &mut Client<ChosenWidths>,
    bytes: &[u8],
    taken: &mut usize,
    fault: &mut FaultFields,
) -> Result<(), Failure>
    ensures { FeedsBytes bytes.now (client.old, (taken.old, fault.old)) result
        (client.new, (taken.new, fault.new)) }
{
    match client.feed(bytes) {
        Ok(count) => {
            *taken = count;
            Ok(())
        }
        Err(error) => Err(failed(error, fault)),
    }
}

/// Takes the next bytes of a stream of answers, and the answers that are whole then.
#[unsafe(no_mangle)]
pub extern "C" fn tk_client_feed(
    alloc: Global,
    handle: &mut Handle,
    bytes: &[u8],
    taken: &mut usize,
    fault: &mut FaultFields,
) -> i32
    ensures { Reports result (λ outcome. FeedsIn bytes.now
        (handle_value handle.old, (taken.old, fault.old)) outcome
        (handle_value handle.new, (taken.new, fault.new))) }
{
    let outcome = match handle.take(alloc) {
        Some(mut kept) => {
            let outcome = match &mut *kept {
                Kept::Client(client) => feed(client, bytes, taken, fault),
                Kept::Surface(_) | Kept::Viewer(_) | Kept::Lines(_) => Err(Failure::WrongKind),
            };
            handle.put(alloc, kept);
            outcome
        }
        None => Err(Failure::NoHandle),
    };
    status(outcome)
}

fn keep(
    client: &mut Client<ChosenWidths>,
    bytes: &[u8],
    fault: &mut FaultFields,
) -> Result<(), Failure>
    ensures { KeepsBytes bytes.now (client.old, fault.old) result (client.new, fault.new) }
{
    match client.keep(bytes) {
        Ok(()) => Ok(()),
        Err(error) => Err(failed(error, fault)),
    }
}

/// Keeps the next bytes of a stream of answers, and takes none.
#[unsafe(no_mangle)]
pub extern "C" fn tk_client_keep(
    alloc: Global,
    handle: &mut Handle,
    bytes: &[u8],
    fault: &mut FaultFields,
) -> i32
    ensures { Reports result (λ outcome. OnClientAnd (KeepsBytes bytes.now)
        (handle_value handle.old, fault.old) outcome (handle_value handle.new, fault.new)) }
{
    let outcome = match handle.take(alloc) {
        Some(mut kept) => {
            let outcome = match &mut *kept {
                Kept::Client(client) => keep(client, bytes, fault),
                Kept::Surface(_) | Kept::Viewer(_) | Kept::Lines(_) => Err(Failure::WrongKind),
            };
            handle.put(alloc, kept);
            outcome
        }
        None => Err(Failure::NoHandle),
    };
    status(outcome)
}

fn taken_fields(taken: Option<Taken>) -> TakenFields
    ensures { result ≡ taken_fields taken }
{
    match taken {
        None => TakenFields { kind: 0, at: 0 },
        Some(Taken::Shown) => TakenFields { kind: 1, at: 0 },
        Some(Taken::Stale { at }) => TakenFields { kind: 2, at },
    }
}

fn take_answer(
    client: &mut Client<ChosenWidths>,
    taken: &mut TakenFields,
    fault: &mut FaultFields,
) -> Result<(), Failure>
    ensures { TakesNextInto (client.old, (taken.old, fault.old)) result
        (client.new, (taken.new, fault.new)) }
{
    match client.take_answer() {
        Ok(answer) => {
            *taken = taken_fields(answer);
            Ok(())
        }
        Err(error) => Err(failed(error, fault)),
    }
}

/// Takes the next answer of the bytes that a client keeps, if they have a whole one.
#[unsafe(no_mangle)]
pub extern "C" fn tk_client_take_answer(
    alloc: Global,
    handle: &mut Handle,
    taken: &mut TakenFields,
    fault: &mut FaultFields,
) -> i32
    ensures { Reports result (λ outcome. OnClientAnd TakesNextInto
        (handle_value handle.old, (taken.old, fault.old)) outcome
        (handle_value handle.new, (taken.new, fault.new))) }
{
    let outcome = match handle.take(alloc) {
        Some(mut kept) => {
            let outcome = match &mut *kept {
                Kept::Client(client) => take_answer(client, taken, fault),
                Kept::Surface(_) | Kept::Viewer(_) | Kept::Lines(_) => Err(Failure::WrongKind),
            };
            handle.put(alloc, kept);
            outcome
        }
        None => Err(Failure::NoHandle),
    };
    status(outcome)
}

fn named_ask(ask: Ask) -> Ask
    ensures value { result ≡ named_ask ask }
    ensures named { result.source ≡ 0 → result.number ≡ 0 }
{
    if ask.source == 0 {
        Ask {
            source: 0,
            number: 0,
        }
    } else {
        ask
    }
}

fn give_kept_ask(
    alloc: Global,
    kept: &Kept,
    room: &mut [u8],
    len: &mut usize,
) -> Result<(), Failure>
    ensures { GivesAsk (Some kept.now) (room.old, len.old) result (room.new, len.new) }
{
    match kept {
        Kept::Client(client) => give_ask(alloc, named_ask(client.ask()), room, len),
        Kept::Surface(_) | Kept::Viewer(_) | Kept::Lines(_) => Err(Failure::WrongKind),
    }
}

/// Writes the ask to send to a surface, which says what the client shows.
#[unsafe(no_mangle)]
pub extern "C" fn tk_client_ask(
    alloc: Global,
    handle: &mut Handle,
    room: &mut [u8],
    len: &mut usize,
) -> i32
    ensures read { Reports result (λ outcome. GivesAsk (handle_value handle.old)
        (room.old, len.old) outcome (room.new, len.new)) }
    ensures same { handle_value handle.new ≡ handle_value handle.old }
{
    let outcome = match handle.take(alloc) {
        Some(kept) => {
            let outcome = give_kept_ask(alloc, &kept, room, len);
            handle.put(alloc, kept);
            outcome
        }
        None => Err(Failure::NoHandle),
    };
    status(outcome)
}

fn reset(client: &mut Client<ChosenWidths>) -> Result<(), Failure>
    ensures { Resets client.old result client.new }
{
    client.reset();
    Ok(())
}

/// Makes a client ready for the bytes of a new stream.
#[unsafe(no_mangle)]
pub extern "C" fn tk_client_reset(alloc: Global, handle: &mut Handle) -> i32
    ensures { Reports result (λ outcome.
        OnClient Resets (handle_value handle.old) outcome (handle_value handle.new)) }
{
    let outcome = match handle.take(alloc) {
        Some(mut kept) => {
            let outcome = match &mut *kept {
                Kept::Client(client) => reset(client),
                Kept::Surface(_) | Kept::Viewer(_) | Kept::Lines(_) => Err(Failure::WrongKind),
            };
            handle.put(alloc, kept);
            outcome
        }
        None => Err(Failure::NoHandle),
    };
    status(outcome)
}
