//! A surface, and a viewer that accepts its answers.
use crate::streams::edits::edit;
use crate::streams::given::{Shown, paint, painted, push_screen, sent};
use playing::error::PlayError;
use playing::turn::Turn;
use termwiz_cell::emoji::UnicodeWidths;
use termwiz_surface::view::{AcceptError, Viewer};

/// A surface and its viewer.
#[derive(Drop)]
pub struct Scene {
    surface: Shown,
    viewer: Viewer<UnicodeWidths>,
}

impl Scene {
    /// A blank surface of the size that the next word writes, or a full one, and its viewer.
    pub fn new(turn: &mut Turn<'_>, is_full: bool) -> Option<Scene> {
        let size = turn.word();
        let surface = painted(turn, size, is_full, "")?;
        let viewer = turn.kept(Viewer::new(turn.alloc, &surface))?;
        Some(Scene { surface, viewer })
    }

    /// Makes changes as one list, or none where memory is refused, or lets a caller make some; or
    /// says what the surface shows, or which answer is due to a number, or delivers the one to the
    /// viewer's number.
    pub fn play(&mut self, turn: &mut Turn<'_>, what: &str) {
        match what {
            "shown" => push_screen(turn, &self.surface),
            "put" => {
                let words = turn.rest();
                if let Some(mut changed) = turn.kept(self.surface.clone()) {
                    paint(turn, &mut changed, words);
                    if !turn.has_failed() {
                        self.surface = changed;
                    }
                }
            }
            "on" => edit(turn, &mut self.surface),
            "due" => {
                let number = turn.number();
                if let Some(answer) = turn.kept(self.surface.answer(number)) {
                    let (base, number) = (answer.base(), answer.number());
                    let count = answer.changes().len();
                    write!(turn, "from {base} to {number}, changes: {count}");
                }
            }
            _ => self.deliver(turn, what == "send"),
        }
    }

    // The number of the answer that the viewer accepts, as it is or as bytes, and whether it shows
    // the same then: of a full surface all that is kept beside the screen too.
    fn deliver(&mut self, turn: &mut Turn<'_>, is_sent: bool) {
        let Some(answer) = turn.kept(self.surface.answer(self.viewer.last())) else {
            return;
        };
        let number = answer.number();
        let accepted = if is_sent {
            let Some(decoded) = sent(turn, &UnicodeWidths, &answer) else {
                return;
            };
            self.viewer.accept(&decoded)
        } else {
            self.viewer.accept(&answer)
        };
        match accepted {
            Ok(accepted) if accepted == number && self.viewer.last() == number => {}
            // A viewer that finds no memory has no number.
            Err(AcceptError::Memory) if self.viewer.last() == 0 => turn.fail(PlayError::Memory),
            _ => turn.fail(PlayError::Differs),
        }
        let (surface, viewed) = (&self.surface, self.viewer.surface());
        let is_same = if surface.is_full() {
            turn.kept(surface.full_screen()) == turn.kept(viewed.full_screen())
        } else {
            turn.kept(surface.screen()) == turn.kept(viewed.screen())
        };
        write!(turn, "number {number}, shows the same: {is_same}");
    }
}
