//! Workloads of a screen that is shared: a source, and a client that takes its answers.
use crate::drawn::{Done, Pens, Start, Sum, begun};
use std::alloc::Global;
use std::slice;
use termwiz_cell::change::{Change, Position};
use termwiz_cell::emoji::UnicodeWidths;
use termwiz_share::{Client, Source};
use termwiz_surface::surface::SurfaceError;
use termwiz_wire::Limits;

type Shared = Source<UnicodeWidths>;

type Taker = Client<UnicodeWidths>;

/// What the client is fed over and over, as `workload` says.
#[derive(Clone, Copy)]
pub enum Feed {
    Repaint,
    Bytes,
    Typed,
}

/// Feeds a client `count` times from a source that shows a coloured 80x24.
pub fn fed(alloc: Global, way: Feed, count: u32) -> Sum {
    let mut source = coloured_source(alloc)?;
    let mut client = Client::new(alloc, UnicodeWidths, Limits::default())?;
    let mut bytes = Vec::new(alloc);
    source.respond(client.ask(), &mut bytes)?;
    for round in 0..count {
        match way {
            Feed::Repaint => give(&mut client, bytes.as_slice())?,
            Feed::Bytes => {
                for byte in bytes.as_slice() {
                    give(&mut client, slice::from_ref(byte))?;
                }
            }
            Feed::Typed => type_and_feed(alloc, &mut source, &mut client, &mut bytes, round)?,
        }
    }
    Ok(client.number())
}

fn coloured_source(alloc: Global) -> Result<Shared, SurfaceError> {
    let surface = begun(alloc, Start::Text(Pens::Ten), None)?;
    let mut source = Source::new(alloc, 1, 80, 24, UnicodeWidths)?;
    source.draw_from_screen(&surface, 0, 0)?;
    Ok(source)
}

// What is typed takes 70 columns of one row over and over.
fn type_and_feed(
    alloc: Global,
    source: &mut Shared,
    client: &mut Taker,
    bytes: &mut Vec<u8>,
    round: u32,
) -> Done {
    if round % 70 == 0 {
        source.add_change(Change::CursorPosition {
            x: Position::Absolute(0),
            y: Position::Absolute(12),
        })?;
    }
    source.add_change(Change::text_from(alloc, "k")?)?;
    bytes.clear();
    source.respond(client.ask(), bytes)?;
    give(client, bytes.as_slice())
}

fn give(client: &mut Taker, bytes: &[u8]) -> Done {
    client.feed(bytes).map_err(|_| SurfaceError::Memory)?;
    Ok(())
}
