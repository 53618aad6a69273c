//! The prompt of a line editor: a line to edit and a hint below it.
ghost use Rattle.std.specs.Prelude.{◌≡◌, ◌<◌, IfErr, IfOk, OnOk, map, pos};
ghost use Rattle.uses.specs.{FailsToPrompt, change_value, measure, prompt_texts, prompted};

use std::alloc::{AllocError, Global};
use termwiz_surface::change::{ChangeSequence, SequenceError};
use termwiz_surface::laws::sequence_laws;
use termwiz_surface::{Change, Widths};

/// Prints a line and a hint below it, and takes the cursor back to a column of the row where the
/// sequence began.
/// At an error the texts before one that is refused are added, or all of them where the move is.
pub fn show_prompt<W: Widths>(
    alloc: Global,
    sequence: &mut ChangeSequence<W>,
    line: &str,
    hint: &str,
    column: usize,
) -> Result<(), SequenceError>
    requires { column < sequence.old.columns }
    ensures added { OnOk result (sequence.new ≡ prompted
        (measure W.width_of sequence.old.widths) sequence.old line.now hint.now column) }
    // Which error comes when, and what is added then.
    ensures fails { IfErr result (λ error. FailsToPrompt
        (measure W.width_of sequence.old.widths) sequence.old line.now hint.now column
        error sequence.new) }
    // However long both are, and wherever the cursor was.
    ensures shown { OnOk result (sequence.new.cursor ≡ (column, pos 0)) }
    // So the next prompt can be shown, after an error too.
    ensures columns { sequence.new.columns ≡ sequence.old.columns }
{
    // A move leads where it is to lead, if that is on the screen.
    sequence_laws();
    sequence.add_changes(texts(alloc, line, hint)?)?;
    let _form = sequence.current_cursor_position();
    sequence.move_to((column, 0))?;
    Ok(())
}

fn texts(alloc: Global, line: &str, hint: &str) -> Result<Vec<Change>, AllocError>
    ensures { IfOk result (λ changes.
        map change_value changes.items ≡ prompt_texts line.now hint.now) }
{
    let line = Change::text_from(alloc, line)?;
    let end = Change::text_from(alloc, "\r\n")?;
    let hint = Change::text_from(alloc, hint)?;
    let changes = vec![in alloc; line, end, hint]?;
    Ok(changes)
}
