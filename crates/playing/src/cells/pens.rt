//! Questions about attributes, and the pen that is set.
use crate::error::PlayError;
use crate::turn::Turn;

/// What isn't default in a pen, and whether it is blank; or whether two pens are equal, and whether
/// all but their colours and links are.
pub fn answer(turn: &mut Turn<'_>) {
    match turn.word() {
        "show" => {
            let words = turn.rest();
            let pen = turn.pen_of(words, ' ');
            write!(turn, "{pen:?}, blank {}", pen.is_blank());
        }
        "same" => {
            let (one, other) = turn.sides();
            let (one, other) = (turn.pen_of(one, ' '), turn.pen_of(other, ' '));
            let (same, bits) = (one == other, one.attribute_bits_equal(&other));
            write!(turn, "{same}, bits {bits}");
        }
        _ => turn.fail(PlayError::Bad),
    }
}
