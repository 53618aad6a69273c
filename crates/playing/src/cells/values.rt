//! Questions about colours, widths and forms, and about what values are by default.
use crate::error::PlayError;
use crate::pens::SEMANTIC_TYPES;
use crate::turn::Turn;
use termwiz_cell::cell::{Blink, Intensity, SemanticType, Underline};
use termwiz_cell::change::{CursorShape, CursorVisibility, SEQ_ZERO};
use termwiz_cell::color::{AnsiColor, ColorAttribute, ColorSpec, RgbColor};
use termwiz_cell::emoji::{
    LATEST_UNICODE_VERSION, OneColumn, Presentation, UnicodeVersion, UnicodeWidths,
    grapheme_column_width, is_white_space_char, is_white_space_grapheme, unicode_column_width,
};

// Some of the classic colours.
const CLASSIC: [(&str, AnsiColor); 6] = [
    ("black", AnsiColor::Black),
    ("maroon", AnsiColor::Maroon),
    ("silver", AnsiColor::Silver),
    ("grey", AnsiColor::Grey),
    ("red", AnsiColor::Red),
    ("white", AnsiColor::White),
];

impl Turn<'_> {
    /// Answers both texts of a colour, with `between` between them.
    pub(crate) fn push_texts(&mut self, color: RgbColor, between: &str) {
        self.push_made(color.to_rgb_string(self.alloc));
        self.push_str(between);
        self.push_made(color.to_x11_16bit_rgb_string(self.alloc));
    }
}

/// The parts of the colour that a text writes, and its texts, or none; or the index of a classic
/// colour, and what it, or a true one, is as the colour of a sequence and of a cell.
pub fn colors(turn: &mut Turn<'_>, topic: &str) {
    match topic {
        "colour" => match RgbColor::from_rgb_str(turn.quoted()) {
            Some(color) => {
                write!(turn, "{:?}, ", color.to_tuple_rgb8());
                turn.push_texts(color, ", ");
            }
            None => turn.push_str("none"),
        },
        "ansi" => {
            let color = turn.named(&CLASSIC, AnsiColor::Black);
            let (index, spec) = (u8::from(color), ColorSpec::from(color));
            let own = ColorAttribute::from(color);
            write!(turn, "{index}, {spec:?}, {own:?}");
        }
        _ => {
            let color = RgbColor::from_rgb_str(turn.word());
            let spec = ColorSpec::from(turn.found(color).unwrap_or(RgbColor::default()));
            let own = ColorAttribute::from(spec);
            write!(turn, "{spec:?}, {own:?}");
        }
    }
}

/// The columns of a text by some measure, its forms, or whether it is white space.
pub fn widths(turn: &mut Turn<'_>, topic: &str) {
    let how = match topic {
        "columns" => turn.word(),
        _ => topic,
    };
    let (text, latest) = (turn.quoted(), Some(LATEST_UNICODE_VERSION));
    let first = text.chars().next();
    let columns = match how {
        "form" => {
            let c = turn.found(first).unwrap_or(' ');
            let (shown, asked) = Presentation::for_grapheme(&UnicodeWidths, text);
            let alone = Presentation::for_char(&UnicodeWidths, c);
            return write!(turn, "{shown:?}, asked {asked:?}, first alone {alone:?}");
        }
        "white" => {
            let first = first.map(is_white_space_char);
            return write!(turn, "{}, first {first:?}", is_white_space_grapheme(text));
        }
        "grapheme" => grapheme_column_width(&UnicodeWidths, text, None),
        "latest" => unicode_column_width(&UnicodeWidths, text, latest),
        "one" => unicode_column_width(&OneColumn, text, None),
        _ => return turn.fail(PlayError::Bad),
    };
    write!(turn, "{columns}");
}

/// The index of a version.
pub fn version(turn: &mut Turn<'_>) {
    let version = match turn.word() {
        "9" => UnicodeVersion::new(9),
        "latest" => LATEST_UNICODE_VERSION,
        _ => UnicodeVersion {
            version: 14,
            ambiguous_are_wide: true,
        },
    };
    write!(turn, "{}", version.idx());
}

/// What the types of styles, cursors and colours are by default, the first number, and the latest
/// version of Unicode.
pub fn defaults(turn: &mut Turn<'_>) {
    turn.push_shown("Intensity::", Intensity::default());
    turn.push_shown(", Underline::", Underline::default());
    turn.push_shown(", SemanticType::", SemanticType::default());
    turn.push_shown("\nCursorVisibility::", CursorVisibility::default());
    turn.push_shown(", CursorShape::", CursorShape::default());
    turn.push_shown("\n", RgbColor::default());
    turn.push_shown(", ColorAttribute::", ColorAttribute::default());
    let made = ColorAttribute::from(ColorSpec::default());
    turn.push_shown(", of the default ColorSpec ", made);
    turn.push_shown("\nnumber ", SEQ_ZERO);
    turn.push_shown(", ", LATEST_UNICODE_VERSION);
}

/// Whether a line below the text and no way to blink are on; or whether one semantic type is below
/// another, and whether the other is at most that one.
pub fn styles(turn: &mut Turn<'_>, topic: &str) {
    if topic == "styles" {
        let (dashed, none) = (bool::from(Underline::Dashed), bool::from(Blink::None));
        return write!(turn, "Underline::Dashed {dashed}, Blink::None {none}");
    }
    let lower = turn.named(&SEMANTIC_TYPES, SemanticType::Output);
    turn.takes("| ");
    let higher = turn.named(&SEMANTIC_TYPES, SemanticType::Output);
    let (below, back) = (lower < higher, higher <= lower);
    write!(turn, "below {below}, back {back}");
}
