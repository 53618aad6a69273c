//! Screens: copies of what surfaces show.
ghost use Rattle.std.specs.Prelude.{◌≡◌, ◌↔◌, IsTrue};
ghost use Rattle.termwiz_screen.specs.{cells_of, decided, on_equiv, on_per, rows_eq, screen_eq};
ghost use Rattle.termwiz_screen.specs.{partial_equiv_from_equiv, screen_eq-Decides, screen_value};
ghost use Rattle.termwiz_screen.specs.{visibility_eq};

use termwiz_cell::cell::CellAttributes;
use termwiz_cell::change::CursorVisibility;
use termwiz_line::line::line::Line;

/// What a surface shows. Two screens are equal where all their parts are; of the rows only the
/// cells are compared, not numbers and flags.
#[derive(Drop, Debug)]
pub struct Screen {
    /// The number of columns.
    pub width: usize,
    /// The number of rows.
    pub height: usize,
    /// The rows from the top. A copy of a surface has rows of `width` cells.
    pub rows: Vec<Line>,
    /// The cursor's column and row, from 0. Where a wrap is pending, the column equals the width.
    pub cursor: (usize, usize),
    /// Whether the cursor is shown.
    pub visibility: CursorVisibility,
    /// The pen: the attributes of the next text.
    pub pen: CellAttributes,
}

impl PartialEq for Screen {
    ghost eq = { λ a b. screen_eq (screen_value a) (screen_value b) };

    ghost laws = { on_per screen_value (partial_equiv_from_equiv
        (decided screen_eq screen_eq-Decides)) };

    fn eq(&self, other: &Screen) -> bool
        ensures value { result ≡ screen_eq (screen_value self.now) (screen_value other.now) }
        ensures same { IsTrue result ↔ (screen_value self.now ≡ screen_value other.now) }
    {
        self.is_same(other)
    }
}

impl Eq for Screen {
    ghost laws = { on_equiv screen_value (decided screen_eq screen_eq-Decides) };
}

impl Screen {
    fn is_same(&self, other: &Screen) -> bool
        ensures { result ≡ screen_eq (screen_value self.now) (screen_value other.now) }
    {
        self.width == other.width
            && (self.height == other.height
                && (self.cursor.0 == other.cursor.0
                    && (self.cursor.1 == other.cursor.1
                        && (is_same_visibility(self.visibility, other.visibility)
                            && (self.pen == other.pen
                                && has_same_rows(self.rows.as_slice(), other.rows.as_slice()))))))
    }
}

fn is_same_visibility(a: CursorVisibility, b: CursorVisibility) -> bool
    ensures { result ≡ visibility_eq a b }
{
    a == b
}

fn has_same_rows(a: &[Line], b: &[Line]) -> bool
    ensures { result ≡ rows_eq (cells_of a.now) (cells_of b.now) }
{
    if a.len() != b.len() {
        return false;
    }
    for i in 0..a.len() {
        if !a[i].has_same_cells(&b[i]) {
            return false;
        }
    }
    true
}
