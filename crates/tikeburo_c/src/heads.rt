//! What answers say at their heads.
ghost use Rattle.std.specs.Prelude.{◌≡◌};
ghost use Rattle.termwiz_wire.specs.Answers.{answer_head_at};
ghost use Rattle.tikeburo_c.specs.Heads as specs_of;
ghost use Rattle.tikeburo_c.specs.Heads.{ReadsHead, no_limits};
ghost use Rattle.tikeburo_c.specs.Outcomes.{Reports};

use crate::failure::{Failure, status, unread};
use termwiz_wire::{Head, Limits, decode_head};

/// What an answer says at its head: all but its changes.
#[repr(C)]
#[derive(Clone, Copy)]
pub struct HeadFields {
    pub source: usize,
    pub width: usize,
    pub height: usize,
    pub base: usize,
    pub number: usize,
    pub changes: usize,
}

fn head_fields(head: Head) -> HeadFields
    ensures { result ≡ specs_of.head_fields head }
{
    HeadFields {
        source: head.source,
        width: head.width,
        height: head.height,
        base: head.base,
        number: head.number,
        changes: head.count,
    }
}

fn read_head(bytes: &[u8], head: &mut HeadFields) -> Result<(), Failure>
    ensures { ReadsHead (answer_head_at no_limits bytes.now) head.old result head.new }
{
    let limits = Limits {
        cells: usize::MAX,
        rows: usize::MAX,
        bytes: usize::MAX,
    };
    match decode_head(limits, bytes) {
        Ok(decoded) => {
            *head = head_fields(decoded);
            Ok(())
        }
        Err(fault) => Err(unread(fault.kind)),
    }
}

/// What the answer that the bytes begin with says at its head. Its changes need not be there.
#[unsafe(no_mangle)]
pub extern "C" fn tk_answer_head(bytes: &[u8], head: &mut HeadFields) -> i32
    ensures { Reports result (λ outcome.
        ReadsHead (answer_head_at no_limits bytes.now) head.old outcome head.new) }
{
    let outcome = read_head(bytes, head);
    status(outcome)
}
