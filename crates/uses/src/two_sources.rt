//! One client of two sources: whatever order their answers come in, and however often, it shows
//! what the last one that fits was given for.
ghost use Rattle.std.specs.Prelude.{◌≡◌, ◌≢◌, ◌∷◌, ◌++◌, [], IfErr, IfOk, List, OnOk, ℕ};
ghost use Rattle.termwiz_share.specs.{ClientFollows, Given, ShowsSource};
ghost use Rattle.uses.specs.{KeepsClients};
ghost use Rattle.uses.specs.{AnswersTwice, FailsToAnswer, FailsToAnswerBoth, FailsToShow};
ghost use Rattle.uses.specs.{FeedsBoth, FeedsInTwo, FullScreen, HasNoFault, IsPastOf};
ghost use Rattle.uses.specs.{IsStreamOfBoth, ShowsLast, change_value, full_after, full_of};
ghost use Rattle.uses.specs.{full_screens, measure};

use crate::serving::{ShareError, make, response};
use std::alloc::{AllocError, Global};
use termwiz_share::{Client, ClientError, Source};
use termwiz_surface::{Change, Widths};
use termwiz_wire::{Ask, Limits};

// What a client allows that trusts its sources.
const UNLIMITED: Limits = Limits {
    cells: usize::MAX,
    rows: usize::MAX,
    bytes: usize::MAX,
};

/// Feeds a client a whole stream, cut in two at a byte.
pub fn feed_in_two<W: Widths>(
    client: &mut Client<W>,
    stream: &[u8],
    cut: usize,
) -> Result<(), ClientError>
    // Whatever sources the answers come from, and wherever they are cut.
    ensures shows { (histories : ℕ → ℕ → FullScreen) (sent : List Given) →
        ClientFollows (measure W.width_of) histories sent client.old stream.now →
        ShowsLast (measure W.width_of) histories sent client.old result client.new }
    // It fails as `Client::feed` does on one of the pieces.
    ensures feeds { FeedsInTwo (measure W.width_of) client.old stream.now cut result client.new }
{
    let (front, back) = stream.split_at(cut.min(stream.len()));
    client.feed(front)?;
    client.feed(back)?;
    Ok(())
}

/// Shows two shared screens on a new client without limits, by a stream that is cut at a byte. The
/// answers of the first source come late, twice and in the wrong order, and the second one's comes
/// last: the client shows that source then.
///
/// `Refused`: the first source refuses the change. `Unserved`: memory was refused, or the client
/// fails to take the stream. Both sources serve whom they served, and the second one shows what it
/// did.
pub fn show_both<W: Widths>(
    alloc: Global,
    first: &mut Source<W>,
    second: &mut Source<W>,
    change: Change,
    cut: usize,
) -> Result<Client<W>, ShareError>
    requires apart { first.old.number ≢ second.old.number }
    requires one_measure { measure W.width_of first.old.surface.widths
        ≡ measure W.width_of second.old.surface.widths }
    // Whatever the numbers of both name.
    ensures shows { (past second_past : ℕ → FullScreen) →
        IsPastOf full_screens (measure W.width_of) past first.old.surface →
        IsPastOf full_screens (measure W.width_of) second_past second.old.surface →
        IfOk result (λ client. ShowsSource second.new client) }
    ensures no_fault { (past second_past : ℕ → FullScreen) →
        IsPastOf full_screens (measure W.width_of) past first.old.surface →
        IsPastOf full_screens (measure W.width_of) second_past second.old.surface →
        IfErr result (λ error. HasNoFault error) }
    ensures made { OnOk result (full_of first.new.surface
        ≡ full_after (measure W.width_of) first.old.surface (change_value change ∷ [])) }
    // Which error comes when, and what the first source shows then.
    ensures fails { IfErr result (λ error. FailsToShow (measure W.width_of)
        first.old second.old (change_value change) cut error first.new second.new) }
    ensures same { full_of second.new.surface ≡ full_of second.old.surface }
    ensures serves { KeepsClients (measure W.width_of) first.old first.new }
    ensures serves_second { KeepsClients (measure W.width_of) second.old second.new }
{
    let mut client = Client::new(alloc, first.surface().widths(), UNLIMITED)?;
    feed_both(alloc, first, second, &mut client, change, cut)?;
    Ok(client)
}

// Feeds a client what both sources answer its ask.
fn feed_both<W: Widths>(
    alloc: Global,
    first: &mut Source<W>,
    second: &mut Source<W>,
    client: &mut Client<W>,
    change: Change,
    cut: usize,
) -> Result<(), ShareError>
    ensures feeds { FeedsBoth (measure W.width_of) first.old second.old (change_value change)
        cut client.old result first.new second.new client.new }
    ensures same { full_of second.new.surface ≡ full_of second.old.surface }
    ensures serves { KeepsClients (measure W.width_of) first.old first.new }
    ensures serves_second { KeepsClients (measure W.width_of) second.old second.new }
{
    let stream = stream_of_both(alloc, first, second, client.ask(), change)?;
    feed_in_two(client, &stream, cut)?;
    Ok(())
}

// What both sources answer an ask, in one stream.
fn stream_of_both<W: Widths>(
    alloc: Global,
    first: &mut Source<W>,
    second: &mut Source<W>,
    ask: Ask,
    change: Change,
) -> Result<Vec<u8>, ShareError>
    ensures stream { IfOk result (λ stream. IsStreamOfBoth (measure W.width_of)
        first.old second.old (change_value change) ask stream.items first.new second.new) }
    ensures fails { IfErr result (λ error. FailsToAnswerBoth (measure W.width_of)
        first.old second.old (change_value change) error first.new second.new) }
    ensures same { full_of second.new.surface ≡ full_of second.old.surface }
    ensures serves { KeepsClients (measure W.width_of) first.old first.new }
    ensures serves_second { KeepsClients (measure W.width_of) second.old second.new }
{
    let (early, late) = answer_twice(alloc, first, ask, change)?;
    let other = response(alloc, second, ask)?;
    let stream = in_turn(alloc, &late, &early, &other)?;
    Ok(stream)
}

// The answer of a source to an ask, and the one after a change to a client that has the first.
fn answer_twice<W: Widths>(
    alloc: Global,
    source: &mut Source<W>,
    ask: Ask,
    change: Change,
) -> Result<(Vec<u8>, Vec<u8>), ShareError>
    ensures answers { IfOk result (λ answers. AnswersTwice (measure W.width_of) source.old ask
        (change_value change) answers.0.items answers.1.items source.new) }
    ensures fails { IfErr result (λ error.
        FailsToAnswer (measure W.width_of) source.old (change_value change) error source.new) }
    ensures serves { KeepsClients (measure W.width_of) source.old source.new }
{
    let early = response(alloc, source, ask)?;
    let shown = Ask {
        source: source.number(),
        number: source.surface().current_seqno(),
    };
    make(source, change)?;
    let late = response(alloc, source, shown)?;
    Ok((early, late))
}

// The answers of the first source in the wrong order, the later one twice more, and the second
// one's answer.
fn in_turn(alloc: Global, late: &[u8], early: &[u8], other: &[u8]) -> Result<Vec<u8>, AllocError>
    ensures { IfOk result (λ stream. stream.items
        ≡ late.now ++ (early.now ++ (late.now ++ (late.now ++ (other.now ++ []))))) }
{
    let mut stream = Vec::new(alloc);
    stream.extend_from_slice(late)?;
    stream.extend_from_slice(early)?;
    stream.extend_from_slice(late)?;
    stream.extend_from_slice(late)?;
    stream.extend_from_slice(other)?;
    Ok(stream)
}
