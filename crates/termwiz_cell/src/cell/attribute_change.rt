//! Changes of one attribute.
ghost use Rattle.std.specs.Prelude.{◌≡◌, IsOk, false};
ghost use Rattle.termwiz_cell.specs.{attribute_change_value, is_link};

use super::form::{clone_link, own_link};
use super::style::{Blink, Intensity, Underline};
use crate::color::ColorAttribute;
use crate::hyperlink::{Hyperlink, LinkCopies};
use std::alloc::{AllocError, Global};
use std::rc::Rc;

/// One attribute and its new value. The other attributes are unchanged. Two changes are equal where
/// attribute and value are; links are compared as values. A clone can only fail at a link.
#[derive(Drop, PartialEq, Eq, Debug)]
pub enum AttributeChange {
    Intensity(Intensity),
    Underline(Underline),
    Italic(bool),
    Blink(Blink),
    Reverse(bool),
    StrikeThrough(bool),
    Invisible(bool),
    Foreground(ColorAttribute),
    Background(ColorAttribute),
    Hyperlink(Option<Rc<Hyperlink>>),
}

impl Clone for AttributeChange {
    ghost is_clone = { λ a b. attribute_change_value b ≡ attribute_change_value a };

    ghost is_infallible = { λ change. is_link (attribute_change_value change) ≡ false };

    fn clone(&self) -> Result<AttributeChange, AllocError> {
        match self {
            AttributeChange::Intensity(value) => Ok(AttributeChange::Intensity(*value)),
            AttributeChange::Underline(value) => Ok(AttributeChange::Underline(*value)),
            AttributeChange::Italic(value) => Ok(AttributeChange::Italic(*value)),
            AttributeChange::Blink(value) => Ok(AttributeChange::Blink(*value)),
            AttributeChange::Reverse(value) => Ok(AttributeChange::Reverse(*value)),
            AttributeChange::StrikeThrough(value) => Ok(AttributeChange::StrikeThrough(*value)),
            AttributeChange::Invisible(value) => Ok(AttributeChange::Invisible(*value)),
            AttributeChange::Foreground(value) => Ok(AttributeChange::Foreground(*value)),
            AttributeChange::Background(value) => Ok(AttributeChange::Background(*value)),
            AttributeChange::Hyperlink(value) => {
                let copy = clone_link(value)?;
                Ok(AttributeChange::Hyperlink(copy))
            }
        }
    }
}

impl AttributeChange {
    /// Gives it a link of its own, if it sets one. It stays as it is, even after an error.
    pub fn own_link(&mut self, alloc: Global, copies: &mut LinkCopies) -> Result<(), AllocError>
        ensures same { attribute_change_value self.new ≡ attribute_change_value self.old }
        ensures succeeds { is_link (attribute_change_value self.old) ≡ false → IsOk result }
    {
        match self {
            AttributeChange::Hyperlink(link) => own_link(alloc, link, copies),
            _ => Ok(()),
        }
    }
}
