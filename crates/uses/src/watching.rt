//! A viewer of a stream that takes an answer at a time: it shows each screen, or stops after some
//! answers.
ghost use Rattle.std.specs.Prelude.{◌≡◌, ◌∷◌, ◌++◌, ◌≤◌, [], IfErr, IfOk, List, OnErr, OnOk};
ghost use Rattle.std.specs.Prelude.{map, ℕ};
ghost use Rattle.termwiz_share.specs.{ClientFollows, Given};
ghost use Rattle.uses.specs.{FailsAfterSome, FailsToTakeEach, FullScreen as Picture, ShowsEach};
ghost use Rattle.uses.specs.{StopsShowing, TakesSome, full_of, full_value, measure};

use std::alloc::AllocError;
use termwiz_share::{Client, ClientError, Taken};
use termwiz_surface::{FullScreen, Widths};

/// Feeds a client the next bytes of a stream, and adds each screen that it shows then to a list. It
/// returns how many answers were stale. After an error the list has the screens so far, perhaps
/// without the last one.
pub fn show_each<W: Widths>(
    client: &mut Client<W>,
    piece: &[u8],
    screens: &mut Vec<FullScreen>,
) -> Result<usize, ClientError>
    // Of a stream that the client follows: what each answer that fits was given for.
    ensures shows { (histories : ℕ → ℕ → Picture) (sent : List Given) (future : List ℕ) →
        ClientFollows (measure W.width_of) histories sent client.old (piece.now ++ future) →
        IfOk result (λ stale. ShowsEach (measure W.width_of) histories sent future
        client.old (map full_value screens.old.items)
        stale client.new (map full_value screens.new.items)) }
    // It fails for want of memory or of numbers alone, and some of them are shown then.
    ensures fails { (histories : ℕ → ℕ → Picture) (sent : List Given) (future : List ℕ) →
        ClientFollows (measure W.width_of) histories sent client.old (piece.now ++ future) →
        IfErr result (λ error. StopsShowing (measure W.width_of) histories sent future
        client.old (map full_value screens.old.items)
        error client.new (map full_value screens.new.items)) }
    // It fails as a call that keeps bytes or takes an answer does, or there is no memory for a
    // screen.
    ensures stops { IfErr result (λ error. FailsToTakeEach (measure W.width_of)
        client.old piece.now error client.new) }
{
    client.keep(piece)?;
    let mut stale = 0;
    while let Some(taken) = client.take_answer()? {
        match taken {
            Taken::Shown => add_screen(client, screens)?,
            Taken::Stale { at: _ } => stale += 1,
        }
    }
    Ok(stale)
}

// Adds what a client shows to a list of screens.
fn add_screen<W: Widths>(
    client: &Client<W>,
    screens: &mut Vec<FullScreen>,
) -> Result<(), AllocError>
    ensures added { OnOk result (map full_value screens.new.items
        ≡ map full_value screens.old.items ++ full_of client.now.surface ∷ []) }
    ensures kept { OnErr result (screens.new.items ≡ screens.old.items) }
{
    let screen = client.surface().full_screen()?;
    screens.push(screen)?;
    Ok(())
}

/// Takes at most this many answers of the bytes that a client keeps, and returns how many it took.
/// They are fewer only where no other one is whole. After an error the client is as
/// `Client::take_answer` leaves it, and shows the answers before that.
pub fn take_some<W: Widths>(client: &mut Client<W>, most: usize) -> Result<usize, ClientError>
    ensures most { IfOk result (λ count. count ≤ most) }
    // Of a stream that the client follows it shows what the last of them that fits was given for,
    // and follows the others.
    ensures follows { (histories : ℕ → ℕ → Picture) (sent : List Given) (future : List ℕ) →
        ClientFollows (measure W.width_of) histories sent client.old future → IfOk result (λ count.
        TakesSome (measure W.width_of) histories sent future most client.old count client.new) }
    // It fails as the call that takes one answer does, after some that it took.
    ensures fails { IfErr result (λ error.
        FailsAfterSome (measure W.width_of) most client.old error client.new) }
{
    for count in 0..most {
        if client.take_answer()?.is_none() {
            return Ok(count);
        }
    }
    Ok(most)
}
