//! Changes by the words of a line.
use crate::turn::Turn;
use crate::words::{LINE_ATTRIBUTES, SHAPES};
use termwiz_cell::cell::CellAttributes;
use termwiz_cell::change::{Change, CursorShape, CursorVisibility, LineAttribute};

impl Turn<'_> {
    /// The change of this name, by the words that follow it, unless the name is no change's.
    pub fn change(&mut self, name: &str) -> Option<Change> {
        let change = match name {
            "hidden" => Change::CursorVisibility(CursorVisibility::Hidden),
            "visible" => Change::CursorVisibility(CursorVisibility::Visible),
            "text" | "title" | "pen" | "set" => self.rest_change(name),
            "move" => {
                let (x, y) = (self.position(), self.position());
                Change::CursorPosition { x, y }
            }
            "up" | "down" => {
                let first_row = self.number();
                let (region_size, scroll_count) = self.pair();
                if name == "up" {
                    Change::ScrollRegionUp {
                        first_row,
                        region_size,
                        scroll_count,
                    }
                } else {
                    Change::ScrollRegionDown {
                        first_row,
                        region_size,
                        scroll_count,
                    }
                }
            }
            "shape" => Change::CursorShape(self.named(&SHAPES, CursorShape::Default)),
            "color" => Change::CursorColor(self.color()),
            "clear" => Change::ClearScreen(self.color()),
            "eol" => Change::ClearToEndOfLine(self.color()),
            "eos" => Change::ClearToEndOfScreen(self.color()),
            "row" => {
                let single = LineAttribute::SingleWidthLine;
                Change::LineAttribute(self.named(&LINE_ATTRIBUTES, single))
            }
            _ => return None,
        };
        Some(change)
    }

    // The change of a name that all words are about.
    fn rest_change(&mut self, name: &str) -> Change {
        let words = self.rest();
        match name {
            "text" => Change::Text(self.unescaped(words, ' ')),
            "title" => Change::Title(self.unescaped(words, ' ')),
            "set" => Change::Attribute(self.attribute_of(words)),
            _ if words.is_empty() => Change::AllAttributes(CellAttributes::blank()),
            _ => Change::AllAttributes(self.pen_of(words, ' ')),
        }
    }
}
