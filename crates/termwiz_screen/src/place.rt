//! Where positions move a cursor.
ghost use Rattle.std.specs.Prelude.{◌≡◌, ◌<◌};
ghost use Rattle.termwiz_screen.specs.{moved, place_column, place_row};

use termwiz_cell::change::Position;

fn move_by(distance: isize, current: usize, count: usize) -> usize
    requires { 0 < count }
    ensures { result ≡ moved distance current count }
{
    if distance < 0 {
        current.saturating_sub(distance.unsigned_abs())
    } else {
        current.saturating_add(distance as usize).min(count - 1)
    }
}

/// The column that a position names, given the current one: from 0 to the width, where a wrap is
/// pending.
pub fn column_at(position: Position, current: usize, width: usize) -> usize
    requires { 0 < width }
    ensures { result ≡ place_column position current width }
{
    match position {
        Position::Relative(distance) => move_by(distance, current, width),
        Position::Absolute(column) if column <= width => column,
        Position::Absolute(_) => width - 1,
        Position::EndRelative(distance) => width.saturating_sub(distance),
    }
}

/// The row that a position names, given the current one.
pub fn row_at(position: Position, current: usize, height: usize) -> usize
    requires { 0 < height }
    ensures { result ≡ place_row position current height }
{
    match position {
        Position::Relative(distance) => move_by(distance, current, height),
        Position::Absolute(row) => row.min(height - 1),
        Position::EndRelative(distance) => height.saturating_sub(distance).min(height - 1),
    }
}
