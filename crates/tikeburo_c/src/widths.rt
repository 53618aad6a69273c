//! How a surface measures texts.
ghost use Rattle.std.specs.Prelude.{◌≡◌, IfSome, IsSome, IsTrue, nat_lt, ◌↔◌};
ghost use Rattle.tikeburo_c.specs.Widths.{AreBy, choice_at, choice_number, columns_by};
ghost use Rattle.tikeburo_c.specs.Widths.{presentation_by, ranges_of, widths_at};

use crate::measuring::is_table;
use crate::tables::{WidthRange, WidthTable};
use termwiz_surface::emoji::{Presentation, UnicodeVersion};
use termwiz_surface::{OneColumn, UnicodeWidths, Widths};

/// A choice of widths. The table is a parameter, since an enum can't hold a reference beside what
/// is known of it.
#[derive(Clone, Copy)]
pub enum Choice<T> {
    /// By the Unicode tables.
    Unicode,
    /// Each grapheme has one column.
    OneColumn,
    /// By a table of the caller's, and by Unicode where it says nothing.
    Table(T),
}

/// How a surface measures texts, as its maker chose.
#[derive(Clone, Copy)]
pub struct ChosenWidths<'t> {
    pub choice: Choice<WidthTable<'t>>,
}

fn choice_at<'t>(number: u8) -> Option<Choice<WidthTable<'t>>>
    ensures { result ≡ choice_at number }
{
    match number {
        0 => Some(Choice::Unicode),
        1 => Some(Choice::OneColumn),
        _ => None,
    }
}

impl<'t> ChosenWidths<'t> {
    /// The choice of this number: 0 is Unicode, and 1 one column.
    pub(crate) fn at(number: u8) -> Option<ChosenWidths<'t>>
        ensures { result ≡ widths_at number }
    {
        match choice_at(number) {
            Some(choice) => Some(ChosenWidths { choice }),
            None => None,
        }
    }

    /// Widths by these ranges, if they are a table.
    pub(crate) fn by(ranges: &'t [WidthRange]) -> Option<ChosenWidths<'t>>
        ensures { AreBy ranges.entry result }
    {
        if is_table(ranges) {
            let choice = Choice::Table(WidthTable { ranges });
            Some(ChosenWidths { choice })
        } else {
            None
        }
    }

    /// The number of the choice, which is 2 of a table.
    pub(crate) fn number(&self) -> u8
        ensures { result ≡ choice_number self.now.choice }
    {
        match &self.choice {
            Choice::Unicode => 0,
            Choice::OneColumn => 1,
            Choice::Table(_) => 2,
        }
    }

    /// The ranges of a table, or none.
    pub(crate) fn ranges(&self) -> &'t [WidthRange]
        ensures { result.now ≡ ranges_of self.now.choice }
    {
        match &self.choice {
            Choice::Unicode | Choice::OneColumn => &[],
            Choice::Table(table) => table.ranges,
        }
    }
}

impl<'t> Widths for ChosenWidths<'t> {
    ghost use Rattle.std.specs.Prelude.{None};
    ghost use Rattle.tikeburo_c.specs.WidthLaws.{columns-le, columns-space};
    ghost use Rattle.termwiz_surface.specs.{Text};

    ghost width_of = { λ widths text _. columns_by widths text };

    ghost presentation_of = { λ widths text. presentation_by widths text };

    ghost char_presentation_of = { λ _ _. Text };

    ghost at_most_two = { λ widths text _. columns-le widths text };

    ghost space_has_one = { λ widths _. columns-space widths };

    fn width(&self, text: &str, version: Option<UnicodeVersion>) -> usize {
        match &self.choice {
            Choice::Unicode => UnicodeWidths.width(text, version),
            Choice::OneColumn => OneColumn.width(text, version),
            Choice::Table(table) => table.width(text),
        }
    }

    fn presentation(&self, text: &str) -> (Presentation, Option<Presentation>) {
        match &self.choice {
            Choice::OneColumn => OneColumn.presentation(text),
            Choice::Unicode | Choice::Table(_) => UnicodeWidths.presentation(text),
        }
    }

    fn char_presentation(&self, _c: char) -> Presentation {
        Presentation::Text
    }

    fn has_narrow_ascii(&self) -> bool {
        match &self.choice {
            Choice::Unicode => UnicodeWidths.has_narrow_ascii(),
            Choice::OneColumn => OneColumn.has_narrow_ascii(),
            Choice::Table(table) => table.has_narrow_ascii(),
        }
    }

    fn has_wide_letters(&self) -> bool {
        match &self.choice {
            Choice::Unicode => UnicodeWidths.has_wide_letters(),
            Choice::OneColumn | Choice::Table(_) => false,
        }
    }
}
