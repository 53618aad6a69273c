//! The attributes that are enums, and the numbers of their variants.
ghost use Rattle.std.specs.Prelude.{◌≡◌, ◌<◌};
ghost use Rattle.termwiz_cell.specs.{blink_at, blink_number, intensity_at, intensity_number};
ghost use Rattle.termwiz_cell.specs.{is_blinking, is_underlined, IsNumbered, semantic_at};
ghost use Rattle.termwiz_cell.specs.{semantic_number, underline_at, underline_number};
ghost use Rattle.termwiz_cell.specs.{vertical_at, vertical_number};

use thiserror::Error;

/// A number that no variant has.
#[derive(Error, Drop, Clone, Copy, PartialEq, Eq, Debug)]
#[error("{0} is the number of no variant")]
pub struct UnknownNumber(pub u8);

/// How strong a text is drawn: as others are, bold, or dim.
#[derive(Clone, Copy, PartialEq, Eq, Debug, Default)]
pub enum Intensity {
    #[default]
    Normal,
    Bold,
    /// Dim.
    Half,
}

/// How a text is underlined.
#[derive(Clone, Copy, PartialEq, Eq, Hash, Debug, Default)]
pub enum Underline {
    #[default]
    None,
    Single,
    Double,
    Curly,
    Dotted,
    Dashed,
}

/// Whether the text is underlined.
impl From<Underline> for bool {
    ghost from_gives = { λ underline on. on ≡ is_underlined underline };

    fn from(underline: Underline) -> bool {
        !matches!(underline, Underline::None)
    }
}

/// Whether and how fast a text blinks.
#[derive(Clone, Copy, PartialEq, Eq, Debug)]
pub enum Blink {
    None,
    Slow,
    Rapid,
}

/// Whether the text blinks.
impl From<Blink> for bool {
    ghost from_gives = { λ blink on. on ≡ is_blinking blink };

    fn from(blink: Blink) -> bool {
        !matches!(blink, Blink::None)
    }
}

/// What a text is: a program's output, what the user typed, or a prompt for it.
#[derive(Clone, Copy, PartialEq, Eq, PartialOrd, Ord, Debug, Default)]
pub enum SemanticType {
    #[default]
    Output,
    Input,
    Prompt,
}

/// The vertical position of a text on its line: on the base line, raised, or lowered.
#[derive(Clone, Copy, PartialEq, Eq, Debug)]
pub enum VerticalAlign {
    BaseLine,
    SuperScript,
    SubScript,
}

impl Intensity {
    /// The variant's number: variants are numbered from 0, in their order.
    pub fn number(self) -> u8
        ensures value { result ≡ intensity_number self }
        ensures bound { result < 3 }
    {
        self as u8
    }
}

/// The variant of a number, and `UnknownNumber` where no variant has it.
impl TryFrom<u8> for Intensity {
    type Error = UnknownNumber;

    ghost try_from_gives = { IsNumbered 3 intensity_at };

    fn try_from(number: u8) -> Result<Intensity, UnknownNumber> {
        match number {
            0 => Ok(Intensity::Normal),
            1 => Ok(Intensity::Bold),
            2 => Ok(Intensity::Half),
            _ => Err(UnknownNumber(number)),
        }
    }
}

impl Underline {
    /// The variant's number: variants are numbered from 0, in their order.
    pub fn number(self) -> u8
        ensures value { result ≡ underline_number self }
        ensures bound { result < 6 }
    {
        self as u8
    }
}

/// The variant of a number, and `UnknownNumber` where no variant has it.
impl TryFrom<u8> for Underline {
    type Error = UnknownNumber;

    ghost try_from_gives = { IsNumbered 6 underline_at };

    fn try_from(number: u8) -> Result<Underline, UnknownNumber> {
        match number {
            0 => Ok(Underline::None),
            1 => Ok(Underline::Single),
            2 => Ok(Underline::Double),
            3 => Ok(Underline::Curly),
            4 => Ok(Underline::Dotted),
            5 => Ok(Underline::Dashed),
            _ => Err(UnknownNumber(number)),
        }
    }
}

impl Blink {
    /// The variant's number: variants are numbered from 0, in their order.
    pub fn number(self) -> u8
        ensures value { result ≡ blink_number self }
        ensures bound { result < 3 }
    {
        self as u8
    }
}

/// The variant of a number, and `UnknownNumber` where no variant has it.
impl TryFrom<u8> for Blink {
    type Error = UnknownNumber;

    ghost try_from_gives = { IsNumbered 3 blink_at };

    fn try_from(number: u8) -> Result<Blink, UnknownNumber> {
        match number {
            0 => Ok(Blink::None),
            1 => Ok(Blink::Slow),
            2 => Ok(Blink::Rapid),
            _ => Err(UnknownNumber(number)),
        }
    }
}

impl SemanticType {
    /// The variant's number: variants are numbered from 0, in their order.
    pub fn number(self) -> u8
        ensures value { result ≡ semantic_number self }
        ensures bound { result < 3 }
    {
        self as u8
    }
}

/// The variant of a number, and `UnknownNumber` where no variant has it.
impl TryFrom<u8> for SemanticType {
    type Error = UnknownNumber;

    ghost try_from_gives = { IsNumbered 3 semantic_at };

    fn try_from(number: u8) -> Result<SemanticType, UnknownNumber> {
        match number {
            0 => Ok(SemanticType::Output),
            1 => Ok(SemanticType::Input),
            2 => Ok(SemanticType::Prompt),
            _ => Err(UnknownNumber(number)),
        }
    }
}

impl VerticalAlign {
    /// The variant's number: variants are numbered from 0, in their order.
    pub fn number(self) -> u8
        ensures value { result ≡ vertical_number self }
        ensures bound { result < 3 }
    {
        self as u8
    }
}

/// The variant of a number, and `UnknownNumber` where no variant has it.
impl TryFrom<u8> for VerticalAlign {
    type Error = UnknownNumber;

    ghost try_from_gives = { IsNumbered 3 vertical_at };

    fn try_from(number: u8) -> Result<VerticalAlign, UnknownNumber> {
        match number {
            0 => Ok(VerticalAlign::BaseLine),
            1 => Ok(VerticalAlign::SuperScript),
            2 => Ok(VerticalAlign::SubScript),
            _ => Err(UnknownNumber(number)),
        }
    }
}
