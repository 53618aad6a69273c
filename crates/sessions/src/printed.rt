//! The printed form of outcomes: whole lines, each of which ends with LF.
ghost use Rattle.std.specs.Prelude.{Some, codes};
ghost use Rattle.std.specs.Fmt.{WritesOnOk};
ghost use Rattle.termwiz_screen.specs.ScreenValue.{cells_of, screen_value};
ghost use Rattle.sessions.specs.Printed.{cursor_line, row_lines, row_text, stale_line};
ghost use Rattle.sessions.specs.Printed.{viewed_lines};

use std::fmt;
use std::fmt::{Display, Formatter};
use termwiz_cell::cell::{CellAttributes, Intensity, Underline};
use termwiz_cell::change::{Change, CursorVisibility, Position, SequenceNo};
use termwiz_cell::color::ColorAttribute;
use termwiz_line::line::line::Line;
use termwiz_surface::surface::{Screen, SurfaceError};
use termwiz_surface::view::{AcceptError, ManyOutcome, Outcome};

/// An outcome as the lines that are printed for it: one, several or none.
#[derive(Drop)]
pub struct Printed<'a>(pub &'a Outcome);

impl Display for Printed<'_> {
    fn fmt<W: fmt::Write>(&self, f: &mut Formatter<W>) -> fmt::Result {
        match self.0 {
            Outcome::Answered(_) | Outcome::Done => Ok(()),
            Outcome::Refused(error) => write_refusal(f, *error),
            Outcome::Shown(rows, cursor) => write_shown(f, rows.as_str(), *cursor),
            Outcome::Followed(seq, _, screen) => write!(f, "{}", PrintedView(*seq, screen)),
            Outcome::FollowedFull(seq, _, shown) => {
                write!(f, "{}", PrintedView(*seq, &shown.screen))
            }
            Outcome::Asked(seq, changes) => write_asked(f, *seq, changes.as_slice()),
        }
    }
}

/// A viewer's number and what it shows, as the lines that are printed for them.
#[derive(Drop)]
pub struct PrintedView<'a>(pub SequenceNo, pub &'a Screen);

impl Display for PrintedView<'_> {
    ghost output = { λ view.
        Some (viewed_lines (codes "viewer") view.0 (screen_value view.1.now)) };

    fn fmt<W: fmt::Write>(&self, f: &mut Formatter<W>) -> fmt::Result {
        write_viewed(f, "viewer", self.0, self.1)
    }
}

/// The number of a stale answer, and the byte of it at which what doesn't fit begins.
#[derive(Drop)]
pub struct PrintedStale(pub usize, pub usize);

impl Display for PrintedStale {
    ghost output = { λ stale. Some (stale_line stale.0 stale.1) };

    fn fmt<W: fmt::Write>(&self, f: &mut Formatter<W>) -> fmt::Result {
        writeln!(f, "answer {}: stale at {}", self.0, self.1)
    }
}

/// An outcome among several viewers as the lines that are printed for it.
#[derive(Drop)]
pub struct PrintedMany<'a>(pub &'a ManyOutcome);

impl Display for PrintedMany<'_> {
    fn fmt<W: fmt::Write>(&self, f: &mut Formatter<W>) -> fmt::Result {
        match self.0 {
            ManyOutcome::Of(outcome) => write!(f, "{}", Printed(outcome)),
            ManyOutcome::Kept(number) => writeln!(f, "answer {number}"),
            ManyOutcome::Accepted(seq, screen) => write_viewed(f, "accepted", *seq, screen),
            ManyOutcome::NotAccepted(error) => write_accept_error(f, *error),
            ManyOutcome::Done => Ok(()),
            ManyOutcome::Refused(error) => write_refusal(f, *error),
            ManyOutcome::NoSuch => f.write_str("no such\n"),
        }
    }
}

fn write_refusal<W: fmt::Write>(f: &mut Formatter<W>, error: SurfaceError) -> fmt::Result {
    match error {
        SurfaceError::ScrollRegion => f.write_str("refused: scroll region\n"),
        SurfaceError::Numbers => f.write_str("refused: numbers\n"),
        SurfaceError::Memory => f.write_str("refused: memory\n"),
    }
}

fn write_accept_error<W: fmt::Write>(f: &mut Formatter<W>, error: AcceptError) -> fmt::Result {
    match error {
        AcceptError::Size => f.write_str("refused: size\n"),
        AcceptError::Stale => f.write_str("refused: stale\n"),
        AcceptError::Numbers => f.write_str("refused: numbers\n"),
        AcceptError::Memory => f.write_str("refused: memory\n"),
    }
}

fn write_cursor<W: fmt::Write>(f: &mut Formatter<W>, cursor: (usize, usize)) -> fmt::Result
    ensures { WritesOnOk W.write_str_gives f.old result (cursor_line cursor.0 cursor.1) f.new }
{
    let (x, y) = cursor;
    writeln!(f, "cursor {x} {y}")
}

fn write_shown<W: fmt::Write>(
    f: &mut Formatter<W>,
    rows: &str,
    cursor: (usize, usize),
) -> fmt::Result {
    for row in rows.lines() {
        writeln!(f, "|{row}|")?;
    }
    write_cursor(f, cursor)
}

/// Writes a word and a viewer's number, and then what the viewer shows.
fn write_viewed<W: fmt::Write>(
    f: &mut Formatter<W>,
    word: &str,
    seq: SequenceNo,
    screen: &Screen,
) -> fmt::Result
    ensures { WritesOnOk W.write_str_gives f.old result
        (viewed_lines word.now seq (screen_value screen.now)) f.new }
{
    writeln!(f, "{word} {seq}")?;
    write_rows(f, screen.rows.as_slice())?;
    write_cursor(f, screen.cursor)
}

/// Writes a line for each row.
fn write_rows<W: fmt::Write>(f: &mut Formatter<W>, rows: &[Line]) -> fmt::Result
    ensures { WritesOnOk W.write_str_gives f.old result (row_lines (cells_of rows.now)) f.new }
{
    for row in rows {
        writeln!(f, "|{}|", PrintedRow(row))?;
    }
    Ok(())
}

fn write_asked<W: fmt::Write>(
    f: &mut Formatter<W>,
    seq: SequenceNo,
    changes: &[Change],
) -> fmt::Result {
    writeln!(f, "number {seq}")?;
    for change in changes {
        writeln!(f, "{}", PrintedChange(change))?;
    }
    Ok(())
}

/// The texts of a row's visible cells.
#[derive(Drop)]
struct PrintedRow<'a>(&'a Line);

impl Display for PrintedRow<'_> {
    ghost output = { λ row. Some (row_text row.0.now.cells) };

    fn fmt<W: fmt::Write>(&self, f: &mut Formatter<W>) -> fmt::Result {
        for cell in self.0.visible_cells() {
            write!(f, "{}", cell.str())?;
        }
        Ok(())
    }
}

/// A change as it is printed, without the line's end.
#[derive(Drop)]
struct PrintedChange<'a>(&'a Change);

impl Display for PrintedChange<'_> {
    fn fmt<W: fmt::Write>(&self, f: &mut Formatter<W>) -> fmt::Result {
        match self.0 {
            Change::AllAttributes(pen) => write!(f, "pen{}", PrintedPen(pen)),
            Change::Text(text) => write!(f, "text {}", Escaped(text.as_str())),
            Change::ClearScreen(color) => write!(f, "clear {}", PrintedColor(*color)),
            Change::ClearToEndOfLine(color) => write!(f, "eol {}", PrintedColor(*color)),
            Change::ClearToEndOfScreen(color) => write!(f, "eos {}", PrintedColor(*color)),
            Change::CursorPosition { x, y } => {
                write!(f, "move {} {}", PrintedPosition(*x), PrintedPosition(*y))
            }
            Change::CursorVisibility(CursorVisibility::Hidden) => write!(f, "hidden"),
            Change::CursorVisibility(CursorVisibility::Visible) => write!(f, "visible"),
            Change::ScrollRegionUp {
                first_row,
                region_size,
                scroll_count,
            } => write!(f, "up {first_row} {region_size} {scroll_count}"),
            Change::ScrollRegionDown {
                first_row,
                region_size,
                scroll_count,
            } => write!(f, "down {first_row} {region_size} {scroll_count}"),
            Change::Attribute(_)
            | Change::CursorColor(_)
            | Change::CursorShape(_)
            | Change::Title(_)
            | Change::LineAttribute(_) => write!(f, "other"),
        }
    }
}

/// The words of a pen, each after a space.
#[derive(Drop)]
struct PrintedPen<'a>(&'a CellAttributes);

impl Display for PrintedPen<'_> {
    fn fmt<W: fmt::Write>(&self, f: &mut Formatter<W>) -> fmt::Result {
        let pen = self.0;
        if pen.is_blank() {
            return f.write_str(" default");
        }
        for (word, applies) in [
            (" bold", pen.intensity() == Intensity::Bold),
            (" half", pen.intensity() == Intensity::Half),
            (" underline", pen.underline() == Underline::Single),
            (" italic", pen.italic()),
            (" reverse", pen.reverse()),
            (" strike", pen.strikethrough()),
        ] {
            if applies {
                f.write_str(word)?;
            }
        }
        write_color(f, " fg=", pen.foreground())?;
        write_color(f, " bg=", pen.background())
    }
}

/// Writes a colour's word, where the colour isn't the default one.
fn write_color<W: fmt::Write>(
    f: &mut Formatter<W>,
    name: &str,
    color: ColorAttribute,
) -> fmt::Result {
    match color {
        ColorAttribute::Default => Ok(()),
        color => write!(f, "{name}{}", PrintedColor(color)),
    }
}

/// A colour: `default`, a palette index, or `#` and six hex digits in lower case.
#[derive(Drop)]
struct PrintedColor(ColorAttribute);

impl Display for PrintedColor {
    fn fmt<W: fmt::Write>(&self, f: &mut Formatter<W>) -> fmt::Result {
        match self.0 {
            ColorAttribute::Default => write!(f, "default"),
            ColorAttribute::PaletteIndex(index) => write!(f, "{index}"),
            ColorAttribute::TrueColorWithPaletteFallback(color, _)
            | ColorAttribute::TrueColorWithDefaultFallback(color) => {
                let (red, green, blue) = color.to_tuple_rgb8();
                write!(f, "#{red:02x}{green:02x}{blue:02x}")
            }
        }
    }
}

/// A column or a row: `=a` absolute, `+d` or `-d` relative, `$d` from the end.
#[derive(Drop)]
struct PrintedPosition(Position);

impl Display for PrintedPosition {
    fn fmt<W: fmt::Write>(&self, f: &mut Formatter<W>) -> fmt::Result {
        match self.0 {
            Position::Absolute(place) => write!(f, "={place}"),
            Position::Relative(distance) => write!(f, "{distance:+}"),
            Position::EndRelative(distance) => write!(f, "${distance}"),
        }
    }
}

/// A text with its backslashes and line breaks escaped.
#[derive(Drop)]
struct Escaped<'a>(&'a str);

impl Display for Escaped<'_> {
    fn fmt<W: fmt::Write>(&self, f: &mut Formatter<W>) -> fmt::Result {
        for c in self.0.chars() {
            match c {
                '\\' => f.write_str("\\\\")?,
                '\n' => f.write_str("\\n")?,
                '\r' => f.write_str("\\r")?,
                c => f.write_char(c)?,
            }
        }
        Ok(())
    }
}
