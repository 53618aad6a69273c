//! Events that wait to be run.
ghost use Rattle.std.specs.Prelude.{◌≡◌, ◌∷◌, [], MatchOption};

use std::marker::Model;

/// Memory is freed once more than this part of it is empty: an eighth.
const PART: usize = 8;

/// Events that wait to be run, in order. The memory of those that were taken is freed while the
/// others wait, so that a long list and its outcomes don't both take all of their memory.
#[derive(Drop)]
pub(super) struct Waiting<E> {
    // The next event is the last one.
    reversed: Vec<E>,
}

impl<E> Model for Waiting<E> {
    ghost use Rattle.std.specs.Prelude.{List, reverse};

    ghost Value = { List E };

    ghost view = { λ w. reverse w.reversed.items };
}

impl<E> Waiting<E> {
    /// A list of these events.
    pub(super) fn new(events: Vec<E>) -> Waiting<E>
        ensures { result ≡ events.items }
    {
        let mut reversed = events;
        reversed.reverse();
        Waiting { reversed }
    }

    /// Takes the next event.
    pub(super) fn next(&mut self) -> Option<E>
        ensures { MatchOption result (self.old ≡ []) (λ event. self.old ≡ event ∷ self.new) }
    {
        let event = self.reversed.pop();
        give_back(&mut self.reversed);
        event
    }
}

// Frees memory, where enough is empty to be worth the move.
fn give_back<E>(list: &mut Vec<E>)
    ensures { list.new.items ≡ list.old.items }
{
    let room = list.capacity();
    if room - list.len() > room / PART {
        list.shrink_to_fit();
    }
}
