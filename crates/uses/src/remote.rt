//! A remote terminal, to which a session's title and its headings of double width go as its rows
//! do.
ghost use Rattle.std.specs.Prelude.{◌≡◌, Err, IfOk, OnOk, map, slice_index_or, true};
ghost use Rattle.uses.specs.{MakesOrFails, DoubleWidthLine, Follows, FollowsOnce, InTurn};
ghost use Rattle.uses.specs.{ScrollRegion, SingleWidthLine, change_value, full_of};
ghost use Rattle.uses.specs.{heading_changes, measure};

use std::alloc::{AllocError, Global};
use termwiz_surface::change::LineAttribute;
use termwiz_surface::{Change, Surface, SurfaceError, Viewer, Widths};

/// Prints a heading on a full surface, in a row that is shown twice as wide, makes it the title
/// too, and shows all of it on the remote terminal.
/// After an error, which is `Numbers` or `Memory`, either the heading is refused, and the remote
/// terminal is as it was; or the session has it, and the remote terminal may lack it. The next call
/// shows the session as it is.
pub fn show_heading<W: Widths>(
    alloc: Global,
    session: &mut Surface<W>,
    heading: &str,
    remote: &mut Viewer<W>,
) -> Result<(), SurfaceError>
    requires full { session.old.full ≡ true }
    requires follows { Follows (measure W.width_of) remote.old session.old }
    // The remote terminal has the session's screen, title, cursor's shape and colour, and sizes of
    // rows.
    ensures shown { OnOk result (full_of remote.new.surface ≡ full_of session.new) }
    // The heading is its title, and the row in which the cursor stands after the heading is shown
    // twice as wide.
    ensures title { OnOk result (remote.new.surface.title ≡ heading.now) }
    ensures wide { OnOk result (let shown = full_of remote.new.surface in
        slice_index_or shown.lines shown.screen.y SingleWidthLine ≡ DoubleWidthLine) }
    // Which of the two fails, and when.
    ensures either { InTurn
        (λ r. MakesOrFails (measure W.width_of session.old.widths)
        session.old (heading_changes heading.now) r session.new) (remote.new ≡ remote.old)
        (λ r. FollowsOnce (measure W.width_of) session.new remote.old r remote.new) result }
    ensures no_scroll { result ≡ Err ScrollRegion → ⊥ }
    // The next call can rely on it again, after an error too.
    ensures follows { Follows (measure W.width_of) remote.new session.new }
    ensures full { session.new.full ≡ true }
{
    let changes = changes_of(alloc, heading)?;
    session.add_changes(changes)?;
    let _size = session.dimensions();
    remote.follow(session)?;
    Ok(())
}

fn changes_of(alloc: Global, heading: &str) -> Result<Vec<Change>, AllocError>
    ensures { IfOk result (λ changes.
        map change_value changes.items ≡ heading_changes heading.now) }
{
    let text = Change::text_from(alloc, heading)?;
    let title = String::from_str(alloc, heading)?;
    let changes = vec![in alloc;
        text,
        Change::LineAttribute(LineAttribute::DoubleWidthLine),
        Change::Title(title),
    ]?;
    Ok(changes)
}
