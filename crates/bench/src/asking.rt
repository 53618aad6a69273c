//! Workloads that only read a surface: they ask what changed, compare, copy or send it.
use crate::drawn::{Pens, Screen, Start, Sum, begun};
use std::alloc::{AllocError, Global};
use termwiz_cell::change::SequenceNo;
use termwiz_cell::emoji::UnicodeWidths;
use termwiz_surface::surface::{Answer, Surface, SurfaceError};
use termwiz_wire::{Limits, SentAnswer, decode_answer, encode_answer};

// The source that answers name.
const SOURCE: usize = 1;

/// What is made over and over, as `workload` says.
#[derive(Clone, Copy)]
pub enum Make {
    Answer(SequenceNo),
    Diff,
    Clone,
    New,
}

/// Asks `count` times for the last `due` changes, and returns how many entries the replies have.
pub fn asked(alloc: Global, start: Start, due: usize, size: Option<u16>, count: u32) -> Sum {
    let surface = begun(alloc, start, size)?;
    let seq = surface.current_seqno().saturating_sub(due);
    let mut entries = 0usize;
    for _ in 0..count {
        entries = entries.wrapping_add(reply_len(&surface, seq)?);
    }
    Ok(entries)
}

// How many entries a reply has. It is kept out of line, since each reply is the same.
#[inline(never)]
fn reply_len(surface: &Screen, seq: SequenceNo) -> Sum {
    let (_, changes) = surface.get_changes(seq)?;
    Ok(changes.as_slice().len())
}

/// Makes one of these `count` times, and returns how many changes or columns they have.
pub fn made(alloc: Global, make: Make, from: Start, to: Start, count: u32) -> Sum {
    let mut surface = begun(alloc, from, None)?;
    let other = begun(alloc, to, None)?;
    if matches!(make, Make::Clone) {
        surface.flush_changes_older_than(surface.current_seqno());
    }
    let mut sum = 0usize;
    for _ in 0..count {
        sum = sum.wrapping_add(len_of(alloc, make, &surface, &other)?);
    }
    Ok(sum)
}

#[inline(always)]
fn len_of(alloc: Global, make: Make, surface: &Screen, other: &Screen) -> Sum {
    match make {
        Make::Answer(seq) => Ok(surface.answer(seq)?.changes().len()),
        Make::Diff => Ok(surface.diff_screens(other)?.len()),
        Make::Clone => {
            let (width, _) = surface.clone()?.dimensions();
            Ok(width)
        }
        Make::New => {
            let (width, _) = Surface::new(alloc, 80, 24, UnicodeWidths)?.dimensions();
            Ok(width)
        }
    }
}

/// Encodes or decodes an answer that is a repaint `count` times, and returns how many bytes or
/// changes there are.
pub fn coded(alloc: Global, decodes: bool, count: u32) -> Sum {
    let surface = begun(alloc, Start::Text(Pens::Ten), None)?;
    let answer = surface.answer(0)?;
    let bytes = bytes_of(alloc, &answer, 0)?;
    let mut sum = 0usize;
    for _ in 0..count {
        let len = if decodes {
            answer_of(alloc, bytes.as_slice())?.answer.changes().len()
        } else {
            bytes_of(alloc, &answer, bytes.len())?.len()
        };
        sum = sum.wrapping_add(len);
    }
    Ok(sum)
}

/// The bytes of an answer, for which this room is taken at first.
pub fn bytes_of(alloc: Global, answer: &Answer<'_>, room: usize) -> Result<Vec<u8>, AllocError> {
    let mut bytes = Vec::with_capacity(alloc, room)?;
    encode_answer(&mut bytes, &UnicodeWidths, SOURCE, answer)?;
    Ok(bytes)
}

/// The answer of such bytes.
pub fn answer_of(alloc: Global, bytes: &[u8]) -> Result<SentAnswer, SurfaceError> {
    match decode_answer(alloc, &UnicodeWidths, Limits::default(), bytes) {
        Ok((sent, _)) => Ok(sent),
        Err(_) => Err(SurfaceError::Memory),
    }
}
