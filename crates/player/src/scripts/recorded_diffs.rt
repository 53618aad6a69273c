//! Diffs and draws with recorded answers. `case WIDTH HEIGHT WIDTH HEIGHT` makes two surfaces, `a`
//! and `b`; `a LINE` and `b LINE` make the changes of a script's line. After `> ` stand
//! `diff_screens` and two names, `diff_region X Y WIDTH HEIGHT OTHER_X OTHER_Y`, whose answers are
//! changes as the program prints them, and `draw X Y`, of which the program shows the first one.
use playing::error::PlayError;
use playing::play::Play;
use playing::surfaces::sizes::checked_size;
use playing::turn::Turn;
use sessions::printed::Printed;
use sessions::view::script::{Events, read};
use std::alloc::Global;
use termwiz_cell::change::Change;
use termwiz_cell::emoji::UnicodeWidths;
use termwiz_surface::surface::Surface;
use termwiz_surface::view::{Event, Outcome};

type Shown = Surface<UnicodeWidths>;

/// The two surfaces of a case.
#[derive(Drop)]
pub struct Player {
    a: Shown,
    b: Shown,
}

impl Play for Player {
    fn line(&mut self, turn: &mut Turn<'_>) {
        match turn.word() {
            "a" => make(turn, &mut self.a),
            "b" => make(turn, &mut self.b),
            "case" => {
                set(turn, &mut self.a);
                set(turn, &mut self.b);
            }
            ">" => self.answer(turn),
            _ => turn.fail(PlayError::Bad),
        }
    }
}

impl Player {
    pub fn new(alloc: Global) -> Result<Player, PlayError> {
        Ok(Player {
            a: Surface::new(alloc, 1, 1, UnicodeWidths)?,
            b: Surface::new(alloc, 1, 1, UnicodeWidths)?,
        })
    }

    fn answer(&mut self, turn: &mut Turn<'_>) {
        let changes = match turn.word() {
            "draw" => return self.draw(turn),
            "diff_screens" => {
                if turn.word() == "a" {
                    self.a.diff_screens(&self.b)
                } else {
                    self.b.diff_screens(&self.a)
                }
            }
            "diff_region" => {
                let ((x, y), (width, height)) = (turn.pair(), turn.pair());
                let (to_x, to_y) = turn.pair();
                self.a.diff_region(x, y, width, height, &self.b, to_x, to_y)
            }
            _ => return turn.fail(PlayError::Bad),
        };
        if let Some(changes) = turn.kept(changes) {
            push_changes(turn, changes);
        }
    }

    // Draws `b` on `a`, and shows that.
    fn draw(&mut self, turn: &mut Turn<'_>) {
        let (x, y) = turn.pair();
        if self.a.draw_from_screen(&self.b, x, y).is_err() {
            return turn.fail(PlayError::Bad);
        }
        if let Some(rows) = turn.kept(self.a.screen_chars_to_string()) {
            let outcome = Outcome::Shown(rows, self.a.cursor_position());
            write!(turn, "{}", Printed(&outcome));
        }
    }
}

// Puts a new surface in place of one.
fn set(turn: &mut Turn<'_>, surface: &mut Shown) {
    let (width, height) = turn.pair();
    let Some((width, height)) = checked_size(turn, width, height) else {
        return;
    };
    if let Some(made) = turn.kept(Surface::new(turn.alloc, width, height, UnicodeWidths)) {
        *surface = made;
    }
}

// Makes the changes of a script's line, which has no answer.
fn make(turn: &mut Turn<'_>, surface: &mut Shown) {
    let Ok(Events::OfOne(events)) = read(turn.alloc, turn.rest()) else {
        return turn.fail(PlayError::Bad);
    };
    for event in events {
        let made = match event {
            Event::Changes(changes) => surface.add_changes(changes).is_ok(),
            _ => false,
        };
        if !made {
            turn.fail(PlayError::Bad);
        }
    }
}

// Answers the changes as the program prints them.
fn push_changes(turn: &mut Turn<'_>, changes: Vec<Change>) {
    let outcome = Outcome::Asked(0, changes);
    let printed = format!(in turn.alloc; "{}", Printed(&outcome));
    if let Some(printed) = turn.kept(printed) {
        let lines = turn.found(printed.as_str().strip_prefix("number 0\n"));
        turn.push_str(lines.unwrap_or(""));
    }
}
