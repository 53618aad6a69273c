//! Scripts: one command a line, most of which are events of a surface.
ghost use Rattle.std.specs.Prelude.{◌≡◌, ◌≤◌, ◌++◌, ℕ, List, length, IfOk, IfSome, OnOk};
ghost use Rattle.std.specs.List.{All};
ghost use Rattle.termwiz_surface.specs.Schedule.{IsInRange};
ghost use Rattle.sessions.specs.Lines.{LineSays, Say};

use crate::words::{number, size};
use std::alloc::{AllocError, Global};
use termwiz_cell::cell::{CellAttributes, Intensity, Underline};
use termwiz_cell::change::{Change, Position};
use termwiz_cell::color::{ColorAttribute, RgbColor};
use termwiz_cell::emoji::UnicodeWidths;
use termwiz_surface::view::Event;

/// Why a script has no events.
#[derive(Clone, Copy, PartialEq, Eq, Debug)]
pub enum ScriptError {
    /// The line of this number, from 1, is no command.
    BadCommand(usize),
    /// Memory was refused.
    Memory,
}

/// Why a line has no command.
#[derive(Clone, Copy, PartialEq, Eq, Debug)]
pub enum LineError {
    /// The line is no command.
    BadCommand,
    /// Memory was refused.
    Memory,
}

impl From<AllocError> for LineError {
    ghost use Rattle.std.specs.Prelude.{◌≡◌};
    ghost use Rattle.sessions.specs.declared.script.LineError.TheVariants.{Memory};

    ghost from_gives = { λ _ error. error ≡ Memory };

    fn from(_: AllocError) -> LineError {
        LineError::Memory
    }
}

impl LineError {
    fn at(self, line: usize) -> ScriptError {
        match self {
            LineError::BadCommand => ScriptError::BadCommand(line),
            LineError::Memory => ScriptError::Memory,
        }
    }
}

/// What a line of a script can say.
pub trait Command: Drop {
    /// Whether the sizes in it are such as a surface may have.
    ghost is_in_range: { Self → Type 0 };

    /// What is known of a line that says it.
    ghost says: { List ℕ → Self → Type 0 } = { λ _ _. Unit {0} };

    /// The command of a line. Its words are parted by exactly one space.
    fn of_line(alloc: Global, line: &str) -> Result<Self, LineError>
        ensures sizes { IfOk result is_in_range }
        ensures said { IfOk result (says line.now) };
}

impl Command for Event<UnicodeWidths> {
    ghost is_in_range = { IsInRange };

    fn of_line(alloc: Global, line: &str) -> Result<Event<UnicodeWidths>, LineError> {
        event(alloc, line)
    }
}

/// The commands of a script's lines.
///
/// Lines end with LF. Empty lines and lines that begin with `#` are skipped. The error names the
/// first line that is no command.
pub fn commands<C: Command>(alloc: Global, script: &str) -> Result<Vec<C>, ScriptError>
    ensures sizes { IfOk result (λ commands. All C.is_in_range commands.items) }
    ensures said { IfOk result (λ commands. Say C.says script.now commands.items) }
{
    let mut commands = Vec::new(alloc);
    let mut rest = script;
    let mut number: usize = 1;
    while let Some((line, after)) = rest.split_once('\n') {
        add_command(alloc, &mut commands, line, number)?;
        rest = after;
        number = number.saturating_add(1);
    }
    add_command(alloc, &mut commands, rest, number)?;
    Ok(commands)
}

/// Adds the command of the line of this number, if it says one.
fn add_command<C: Command>(
    alloc: Global,
    commands: &mut Vec<C>,
    line: &str,
    number: usize,
) -> Result<(), ScriptError>
    ensures sizes { All C.is_in_range commands.old.items →
        OnOk result (All C.is_in_range commands.new.items) }
    ensures said { OnOk result ((added : List C) × LineSays C.says line.now added
        × (commands.new.items ≡ commands.old.items ++ added)) }
{
    if let [] | [b'#', ..] = line.as_bytes() {
        return Ok(());
    }
    let command = C::of_line(alloc, line).map_err(|error| error.at(number))?;
    commands.push(command).map_err(|_| ScriptError::Memory)?;
    Ok(())
}

/// The event of a line. Its words are parted by exactly one space.
pub fn event(alloc: Global, line: &str) -> Result<Event<UnicodeWidths>, LineError>
    ensures { IfOk result (λ event. IsInRange event) }
{
    if let Some(text) = line.strip_prefix("text ") {
        return text_event(alloc, text);
    }
    let words: Vec<&str> = line.split(' ').collect(alloc)?;
    event_of(alloc, words.as_slice())
}

/// The event of a text, whose escapes stand in it yet.
fn text_event(alloc: Global, text: &str) -> Result<Event<UnicodeWidths>, LineError>
    ensures { IfOk result (λ event. IsInRange event) }
{
    let text = unescaped(alloc, text)?;
    changes(alloc, Change::Text(text))
}

/// The event of a line's words.
fn event_of(alloc: Global, words: &[&str]) -> Result<Event<UnicodeWidths>, LineError>
    ensures { IfOk result (λ event. IsInRange event) }
{
    match words {
        ["view"] => Ok(Event::Follow),
        ["show"] => Ok(Event::Show),
        ["resize", width, height] => resize(width, height),
        ["flush", seq] => flush(seq),
        ["ask", seq] => ask(seq),
        _ => change_event(alloc, words),
    }
}

/// The event of the words of a change.
fn change_event(alloc: Global, words: &[&str]) -> Result<Event<UnicodeWidths>, LineError>
    ensures { IfOk result (λ event. IsInRange event) }
{
    let change = change(alloc, words)?;
    changes(alloc, change)
}

/// The change of a line's words, which is no text but the empty one.
fn change(alloc: Global, words: &[&str]) -> Result<Change, LineError> {
    match words {
        ["text"] => Ok(Change::Text(String::new(alloc))),
        ["at", x, y] => cursor_position(x, y),
        ["pen", words @ ..] => pen_change(alloc, words),
        ["up", first, size, count] => scroll_up(first, size, count),
        ["down", first, size, count] => scroll_down(first, size, count),
        _ => clear(words),
    }
}

/// The pen that the words make.
fn pen_change(alloc: Global, words: &[&str]) -> Result<Change, LineError> {
    let pen = pen(alloc, words)?;
    Ok(Change::AllAttributes(pen))
}

/// The clear that the first word names, with the background of the others.
fn clear(words: &[&str]) -> Result<Change, LineError> {
    match words {
        ["clear", color @ ..] => background(color).map(Change::ClearScreen),
        ["eol", color @ ..] => background(color).map(Change::ClearToEndOfLine),
        ["eos", color @ ..] => background(color).map(Change::ClearToEndOfScreen),
        _ => Err(LineError::BadCommand),
    }
}

/// The event of one change, whose list has room for it alone.
fn changes(alloc: Global, change: Change) -> Result<Event<UnicodeWidths>, LineError>
    ensures { IfOk result (λ event. IsInRange event) }
{
    let mut changes = Vec::with_capacity(alloc, 1)?;
    changes.push_reserved(change);
    Ok(Event::Changes(changes))
}

/// The move to a column and a row.
fn cursor_position(x: &str, y: &str) -> Result<Change, LineError> {
    Ok(Change::CursorPosition {
        x: Position::Absolute(given(x)?),
        y: Position::Absolute(given(y)?),
    })
}

/// The scroll up of a region, of which the words give the first row, the size and by how many rows.
fn scroll_up(first: &str, size: &str, count: &str) -> Result<Change, LineError> {
    Ok(Change::ScrollRegionUp {
        first_row: given(first)?,
        region_size: given(size)?,
        scroll_count: given(count)?,
    })
}

/// The scroll down of a region, of which the words give the first row, the size and by how many
/// rows.
fn scroll_down(first: &str, size: &str, count: &str) -> Result<Change, LineError> {
    Ok(Change::ScrollRegionDown {
        first_row: given(first)?,
        region_size: given(size)?,
        scroll_count: given(count)?,
    })
}

/// The event of another size.
fn resize(width: &str, height: &str) -> Result<Event<UnicodeWidths>, LineError>
    ensures { IfOk result (λ event. IsInRange event) }
{
    let width = given_size(width)?;
    let height = given_size(height)?;
    Ok(Event::Resize(width, height))
}

/// The event of a flush before a number.
fn flush(seq: &str) -> Result<Event<UnicodeWidths>, LineError>
    ensures { IfOk result (λ event. IsInRange event) }
{
    Ok(Event::Flush(given(seq)?))
}

/// The event that asks for what is due from a number on.
fn ask(seq: &str) -> Result<Event<UnicodeWidths>, LineError>
    ensures { IfOk result (λ event. IsInRange event) }
{
    Ok(Event::Ask(given(seq)?))
}

/// The number that a word of a command gives.
pub(crate) fn given(word: &str) -> Result<usize, LineError> {
    let number = number(word).ok_or(LineError::BadCommand)?;
    Ok(number as usize)
}

/// The width or the height that a word of a command gives.
pub(crate) fn given_size(word: &str) -> Result<usize, LineError>
    ensures { IfOk result (λ size. (1 ≤ size) × (size ≤ 1000)) }
{
    size(word).ok_or(LineError::BadCommand)
}

/// The pen that one word or more make of the default one, in order.
fn pen(alloc: Global, words: &[&str]) -> Result<CellAttributes, LineError> {
    if words.is_empty() {
        return Err(LineError::BadCommand);
    }
    let mut pen = CellAttributes::blank();
    for word in words {
        change_pen(alloc, &mut pen, word)?;
    }
    Ok(pen)
}

/// Changes the pen by one word.
fn change_pen(alloc: Global, pen: &mut CellAttributes, word: &str) -> Result<(), LineError> {
    match word {
        "default" => {}
        "bold" => {
            pen.set_intensity(Intensity::Bold);
        }
        "half" => {
            pen.set_intensity(Intensity::Half);
        }
        "underline" => {
            pen.set_underline(Underline::Single);
        }
        "italic" => {
            pen.set_italic(true);
        }
        "reverse" => {
            pen.set_reverse(true);
        }
        "strike" => {
            pen.set_strikethrough(true);
        }
        _ => change_pen_color(alloc, pen, word)?,
    }
    Ok(())
}

/// Changes one colour of the pen, by `fg=C` or `bg=C`.
fn change_pen_color(alloc: Global, pen: &mut CellAttributes, word: &str) -> Result<(), LineError> {
    let (name, value) = word.split_once('=').ok_or(LineError::BadCommand)?;
    let color = color(value).ok_or(LineError::BadCommand)?;
    match name {
        "fg" => pen.set_foreground(alloc, color)?,
        "bg" => pen.set_background(alloc, color)?,
        _ => return Err(LineError::BadCommand),
    };
    Ok(())
}

/// The background that at most one word gives: without one the default colour.
fn background(words: &[&str]) -> Result<ColorAttribute, LineError> {
    match words {
        [] => Ok(ColorAttribute::Default),
        [word] => color(word).ok_or(LineError::BadCommand),
        _ => Err(LineError::BadCommand),
    }
}

/// The colour that a word gives: a palette index up to 255, or `#` and six hex digits.
fn color(word: &str) -> Option<ColorAttribute> {
    if word.starts_with('#') {
        let color = six_digit_color(word)?;
        return Some(ColorAttribute::TrueColorWithDefaultFallback(color));
    }
    let index = u8::try_from(number(word)?).ok()?;
    Some(ColorAttribute::PaletteIndex(index))
}

/// The colour that `#` and six hex digits write.
fn six_digit_color(word: &str) -> Option<RgbColor> {
    if word.len() == 7 {
        RgbColor::from_rgb_str(word)
    } else {
        None
    }
}

/// The text with its escapes replaced by what they stand for.
fn unescaped(alloc: Global, text: &str) -> Result<String, LineError> {
    let mut plain = String::new(alloc);
    let mut rest = text;
    while let Some((before, escape)) = rest.split_once('\\') {
        let (c, after) = escaped_char(escape).ok_or(LineError::BadCommand)?;
        plain.push_str(before)?;
        plain.push(c)?;
        rest = after;
    }
    plain.push_str(rest)?;
    Ok(plain)
}

/// The character of the escape that a text begins with after its backslash, and what follows it.
fn escaped_char(text: &str) -> Option<(char, &str)>
    ensures { IfSome result (λ found. length found.1.now ≤ length text.now) }
{
    if let Some(rest) = text.strip_prefix('n') {
        Some(('\n', rest))
    } else if let Some(rest) = text.strip_prefix('r') {
        Some(('\r', rest))
    } else if let Some(rest) = text.strip_prefix('\\') {
        Some(('\\', rest))
    } else {
        let (digits, rest) = text.strip_prefix("u{")?.split_once('}')?;
        Some((scalar_value(digits)?, rest))
    }
}

/// The character whose number 1 to 6 hex digits write.
fn scalar_value(digits: &str) -> Option<char> {
    if digits.len() > 6 || digits.starts_with('+') {
        return None;
    }
    let value = u32::from_str_radix(digits, 16).ok()?;
    char::from_u32(value)
}
