//! The attributes of a cell.
ghost use Rattle.std.specs.Prelude.{◌≡◌, ◌↔◌, IfSome, IsSome, IsTrue, OnErr, bytes_eq, option_map};
ghost use Rattle.termwiz_cell.specs.{IfOk, IsOk, OnOk, attribute_change_value, attributes_eq, true};
ghost use Rattle.termwiz_cell.specs.{attributes_eq-Decides, bits_of, decided, default_attributes};
ghost use Rattle.termwiz_cell.specs.{false, has_only_background, linked, needs_box, sgr_only};
ghost use Rattle.termwiz_cell.specs.{partial_equiv_from_equiv, takes_memory, with_attribute};
ghost use Rattle.termwiz_cell.specs.{without_colors};

use super::attribute_change::AttributeChange;
use super::fallback_word::{FallbackWord, fallback_of, with_fallback};
use super::form::{Form, clone_link, is_default_color};
use super::style::{Blink, Intensity, SemanticType, Underline, VerticalAlign};
use super::style_word::StyleWord;
use crate::color::ColorAttribute;
use crate::hyperlink::{Hyperlink, LinkCopies};
use std::alloc::{AllocError, Global};
use std::marker::Model;
use std::rc::Rc;

/// The attributes of a cell: how its text is drawn, whether that is output, input or a prompt,
/// whether its row was wrapped after it, and its link.
///
/// All are stored in sixteen bytes but the underline colour and the link. Those take memory, which
/// is freed once both have their defaults again. A clone can only fail where it takes memory. Calls
/// that begin with `set_` return the attributes, and can be chained.
#[derive(Drop)]
pub struct CellAttributes {
    form: Form,
}

impl Model for CellAttributes {
    ghost use Rattle.termwiz_cell.specs.Attributes.{Attributes};
    ghost use Rattle.termwiz_cell.specs.AttributesLayout.{IsCanonical, attributes_of};

    ghost Value = { Attributes };

    ghost view = { attributes_of };

    ghost invariant = { IsCanonical };
}

impl CellAttributes {
    /// The default attributes. They take no memory.
    pub fn blank() -> CellAttributes
        ensures { result ≡ default_attributes }
    {
        CellAttributes {
            form: Form::Plain(FallbackWord::none(), StyleWord::blank()),
        }
    }

    /// A copy, or `None` where it would take memory.
    #[doc(hidden)]
    #[inline]
    pub fn unboxed_copy(&self) -> Option<CellAttributes>
        ensures same { IfSome result (λ copy. copy ≡ self.now) }
        ensures unboxed { IsSome result ↔ (needs_box self.now ≡ false) }
    {
        let form = self.form.unboxed_copy()?;
        Some(CellAttributes { form })
    }

    /// Sets all attributes to their defaults.
    pub fn clear(&mut self)
        ensures { self.new ≡ default_attributes }
    {
        *self = CellAttributes::blank();
    }

    /// Whether all attributes have their defaults.
    pub fn is_blank(&self) -> bool
        ensures value { result ≡ attributes_eq self.now default_attributes }
        ensures blank { IsTrue result ↔ (self.now ≡ default_attributes) }
    {
        self.form.is_blank()
    }

    /// How strong the text is.
    pub fn intensity(&self) -> Intensity
        ensures { result ≡ self.now.intensity }
    {
        self.form.style().intensity()
    }

    /// Sets how strong the text is.
    pub fn set_intensity(&mut self, value: Intensity) -> &mut Self
        ensures same_reference { result.ghost_name ≡ self.entry.ghost_name }
        ensures value { result.now ≡ record self.old { intensity = value } }
    {
        self.form.style_mut().set_intensity(value);
        self
    }

    /// How the text is underlined.
    pub fn underline(&self) -> Underline
        ensures { result ≡ self.now.underline }
    {
        self.form.style().underline()
    }

    /// Sets how the text is underlined.
    pub fn set_underline(&mut self, value: Underline) -> &mut Self
        ensures same_reference { result.ghost_name ≡ self.entry.ghost_name }
        ensures value { result.now ≡ record self.old { underline = value } }
    {
        self.form.style_mut().set_underline(value);
        self
    }

    /// How fast the text blinks.
    pub fn blink(&self) -> Blink
        ensures { result ≡ self.now.blink }
    {
        self.form.style().blink()
    }

    /// Sets how fast the text blinks.
    pub fn set_blink(&mut self, value: Blink) -> &mut Self
        ensures same_reference { result.ghost_name ≡ self.entry.ghost_name }
        ensures value { result.now ≡ record self.old { blink = value } }
    {
        self.form.style_mut().set_blink(value);
        self
    }

    /// Whether the text is slanted.
    pub fn italic(&self) -> bool
        ensures { result ≡ self.now.italic }
    {
        self.form.style().italic()
    }

    /// Sets whether the text is slanted.
    pub fn set_italic(&mut self, value: bool) -> &mut Self
        ensures same_reference { result.ghost_name ≡ self.entry.ghost_name }
        ensures value { result.now ≡ record self.old { italic = value } }
    {
        self.form.style_mut().set_italic(value);
        self
    }

    /// Whether the colours of text and background are exchanged.
    pub fn reverse(&self) -> bool
        ensures { result ≡ self.now.reverse }
    {
        self.form.style().reverse()
    }

    /// Sets whether the colours of text and background are exchanged.
    pub fn set_reverse(&mut self, value: bool) -> &mut Self
        ensures same_reference { result.ghost_name ≡ self.entry.ghost_name }
        ensures value { result.now ≡ record self.old { reverse = value } }
    {
        self.form.style_mut().set_reverse(value);
        self
    }

    /// Whether the text is struck through.
    pub fn strikethrough(&self) -> bool
        ensures { result ≡ self.now.strikethrough }
    {
        self.form.style().strikethrough()
    }

    /// Sets whether the text is struck through.
    pub fn set_strikethrough(&mut self, value: bool) -> &mut Self
        ensures same_reference { result.ghost_name ≡ self.entry.ghost_name }
        ensures value { result.now ≡ record self.old { strikethrough = value } }
    {
        self.form.style_mut().set_strikethrough(value);
        self
    }

    /// Whether the text is hidden.
    pub fn invisible(&self) -> bool
        ensures { result ≡ self.now.invisible }
    {
        self.form.style().invisible()
    }

    /// Sets whether the text is hidden.
    pub fn set_invisible(&mut self, value: bool) -> &mut Self
        ensures same_reference { result.ghost_name ≡ self.entry.ghost_name }
        ensures value { result.now ≡ record self.old { invisible = value } }
    {
        self.form.style_mut().set_invisible(value);
        self
    }

    /// Whether the row was wrapped after this cell, so that the next row continues its text.
    pub fn wrapped(&self) -> bool
        ensures { result ≡ self.now.wrapped }
    {
        self.form.style().wrapped()
    }

    /// Sets whether the row was wrapped after this cell.
    pub fn set_wrapped(&mut self, value: bool) -> &mut Self
        ensures same_reference { result.ghost_name ≡ self.entry.ghost_name }
        ensures value { result.now ≡ record self.old { wrapped = value } }
    {
        self.form.style_mut().set_wrapped(value);
        self
    }

    /// Whether a line is drawn above the text.
    pub fn overline(&self) -> bool
        ensures { result ≡ self.now.overline }
    {
        self.form.style().overline()
    }

    /// Sets whether a line is drawn above the text.
    pub fn set_overline(&mut self, value: bool) -> &mut Self
        ensures same_reference { result.ghost_name ≡ self.entry.ghost_name }
        ensures value { result.now ≡ record self.old { overline = value } }
    {
        self.form.style_mut().set_overline(value);
        self
    }

    /// Whether the text is output, input or a prompt.
    pub fn semantic_type(&self) -> SemanticType
        ensures { result ≡ self.now.semantic_type }
    {
        self.form.style().semantic_type()
    }

    /// Sets whether the text is output, input or a prompt.
    pub fn set_semantic_type(&mut self, value: SemanticType) -> &mut Self
        ensures same_reference { result.ghost_name ≡ self.entry.ghost_name }
        ensures value { result.now ≡ record self.old { semantic_type = value } }
    {
        self.form.style_mut().set_semantic_type(value);
        self
    }

    /// The vertical position of the text on its line.
    pub fn vertical_align(&self) -> VerticalAlign
        ensures { result ≡ self.now.vertical_align }
    {
        self.form.style().vertical_align()
    }

    /// Sets the vertical position of the text on its line.
    pub fn set_vertical_align(&mut self, value: VerticalAlign) -> &mut Self
        ensures same_reference { result.ghost_name ≡ self.entry.ghost_name }
        ensures value { result.now ≡ record self.old { vertical_align = value } }
    {
        self.form.style_mut().set_vertical_align(value);
        self
    }

    /// The colour of the text.
    pub fn foreground(&self) -> ColorAttribute
        ensures { result ≡ self.now.foreground }
    {
        let word = self.form.style().foreground();
        with_fallback(word, self.form.fallbacks().foreground())
    }

    /// Sets the colour of the text. It takes no memory, and never fails.
    pub fn set_foreground(
        &mut self,
        alloc: Global,
        value: ColorAttribute,
    ) -> Result<&mut Self, AllocError>
        ensures same_reference { IfOk result (λ r. r.ghost_name ≡ self.entry.ghost_name) }
        ensures ok { IfOk result (λ r. r.now ≡ record self.old { foreground = value }) }
        ensures succeeds { IsOk result }
    {
        self.change_foreground(alloc, value)?;
        Ok(self)
    }

    /// Sets the colour of the text. It takes no memory, and never fails.
    pub fn change_foreground(
        &mut self,
        alloc: Global,
        value: ColorAttribute,
    ) -> Result<(), AllocError>
        ensures ok { OnOk result (self.new ≡ record self.old { foreground = value }) }
        ensures succeeds { IsOk result }
    {
        self.form.set_foreground_fallback(fallback_of(&value));
        self.form.style_mut().set_foreground(value);
        Ok(())
    }

    /// The background colour.
    pub fn background(&self) -> ColorAttribute
        ensures { result ≡ self.now.background }
    {
        let word = self.form.style().background();
        with_fallback(word, self.form.fallbacks().background())
    }

    /// Sets the background colour. It takes no memory, and never fails.
    pub fn set_background(
        &mut self,
        alloc: Global,
        value: ColorAttribute,
    ) -> Result<&mut Self, AllocError>
        ensures same_reference { IfOk result (λ r. r.ghost_name ≡ self.entry.ghost_name) }
        ensures ok { IfOk result (λ r. r.now ≡ record self.old { background = value }) }
        ensures succeeds { IsOk result }
    {
        self.change_background(alloc, value)?;
        Ok(self)
    }

    /// Sets the background colour. It takes no memory, and never fails.
    pub fn change_background(
        &mut self,
        alloc: Global,
        value: ColorAttribute,
    ) -> Result<(), AllocError>
        ensures ok { OnOk result (self.new ≡ record self.old { background = value }) }
        ensures succeeds { IsOk result }
    {
        self.form.set_background_fallback(fallback_of(&value));
        self.form.style_mut().set_background(value);
        Ok(())
    }

    /// The colour of the underline.
    pub fn underline_color(&self) -> ColorAttribute
        ensures { result ≡ self.now.underline_color }
    {
        self.form.underline_color()
    }

    /// Sets the colour of the underline. It can only fail where the new attributes take memory and
    /// the old ones took none. Only `change_underline_color` promises that an error leaves the
    /// attributes unchanged.
    pub fn set_underline_color(
        &mut self,
        alloc: Global,
        value: ColorAttribute,
    ) -> Result<&mut Self, AllocError>
        ensures same_reference { IfOk result (λ r. r.ghost_name ≡ self.entry.ghost_name) }
        ensures ok { IfOk result (λ r. r.now ≡ record self.old { underline_color = value }) }
        ensures boxed { needs_box self.old ≡ true → IsOk result }
        ensures succeeds { needs_box (record self.old { underline_color = value }) ≡ false →
            IsOk result }
    {
        self.change_underline_color(alloc, value)?;
        Ok(self)
    }

    /// Sets the colour of the underline. It can only fail where the new attributes take memory and
    /// the old ones took none. An error leaves the attributes unchanged.
    pub fn change_underline_color(
        &mut self,
        alloc: Global,
        value: ColorAttribute,
    ) -> Result<(), AllocError>
        ensures ok { OnOk result (self.new ≡ record self.old { underline_color = value }) }
        ensures err { OnErr result (self.new ≡ self.old) }
        ensures boxed { needs_box self.old ≡ true → IsOk result }
        ensures succeeds { needs_box (record self.old { underline_color = value }) ≡ false →
            IsOk result }
    {
        self.form.set_underline_color(alloc, value)
    }

    /// The link of the text, if it has one.
    pub fn hyperlink(&self) -> Option<&Rc<Hyperlink>>
        ensures { option_map (λ rc. rc.now.value) result ≡ self.now.hyperlink }
    {
        self.form.hyperlink()
    }

    /// Sets the link of the text. It can only fail where the new attributes take memory and the old
    /// ones took none. Only `change_hyperlink` promises that an error leaves the attributes
    /// unchanged.
    pub fn set_hyperlink(
        &mut self,
        alloc: Global,
        value: Option<Rc<Hyperlink>>,
    ) -> Result<&mut Self, AllocError>
        ensures same_reference { IfOk result (λ r. r.ghost_name ≡ self.entry.ghost_name) }
        ensures ok { IfOk result (λ r. r.now ≡ record self.old { hyperlink = linked value }) }
        ensures boxed { needs_box self.old ≡ true → IsOk result }
        ensures succeeds { needs_box (record self.old { hyperlink = linked value }) ≡ false →
            IsOk result }
    {
        self.change_hyperlink(alloc, value)?;
        Ok(self)
    }

    /// Sets the link of the text. It can only fail where the new attributes take memory and the old
    /// ones took none. An error leaves the attributes unchanged.
    pub fn change_hyperlink(
        &mut self,
        alloc: Global,
        value: Option<Rc<Hyperlink>>,
    ) -> Result<(), AllocError>
        ensures ok { OnOk result (self.new ≡ record self.old { hyperlink = linked value }) }
        ensures err { OnErr result (self.new ≡ self.old) }
        ensures boxed { needs_box self.old ≡ true → IsOk result }
        ensures succeeds { needs_box (record self.old { hyperlink = linked value }) ≡ false →
            IsOk result }
    {
        self.form.set_hyperlink(alloc, value)
    }

    /// Gives them a link of their own, if they have one, which shares no memory with another. They
    /// stay as they are, even after an error.
    #[inline]
    pub fn own_link(&mut self, alloc: Global, copies: &mut LinkCopies) -> Result<(), AllocError>
        ensures same { self.new ≡ self.old }
        ensures succeeds { self.old.hyperlink ≡ None → IsOk result }
    {
        self.form.own_link(alloc, copies)
    }

    /// A copy with the semantic type `Output`, and without underline, overline, strike through and
    /// link. The other attributes are kept, the underline colour and the wrapped mark too. It can
    /// only fail where the copy takes memory, for an underline colour.
    pub fn clone_sgr_only(&self, alloc: Global) -> Result<CellAttributes, AllocError>
        ensures ok { IfOk result (λ copy. copy ≡ sgr_only self.now) }
        ensures succeeds { needs_box (sgr_only self.now) ≡ false → IsOk result }
    {
        let form = self.form.sgr_only(alloc)?;
        Ok(CellAttributes { form })
    }

    /// Applies a change of one attribute. It can only fail where the new attributes take memory and
    /// the old ones took none, or where it copies a link. An error leaves the attributes unchanged.
    pub fn apply_change(
        &mut self,
        alloc: Global,
        change: &AttributeChange,
    ) -> Result<(), AllocError>
        ensures ok { OnOk result (
            self.new ≡ with_attribute self.old (attribute_change_value change.now)) }
        ensures err { OnErr result (self.new ≡ self.old) }
        ensures succeeds { takes_memory self.old (attribute_change_value change.now) ≡ false →
            IsOk result }
    {
        match change {
            AttributeChange::Intensity(value) => {
                self.set_intensity(*value);
            }
            AttributeChange::Underline(value) => {
                self.set_underline(*value);
            }
            AttributeChange::Italic(value) => {
                self.set_italic(*value);
            }
            AttributeChange::Blink(value) => {
                self.set_blink(*value);
            }
            AttributeChange::Reverse(value) => {
                self.set_reverse(*value);
            }
            AttributeChange::StrikeThrough(value) => {
                self.set_strikethrough(*value);
            }
            AttributeChange::Invisible(value) => {
                self.set_invisible(*value);
            }
            AttributeChange::Foreground(value) => self.change_foreground(alloc, *value)?,
            AttributeChange::Background(value) => self.change_background(alloc, *value)?,
            AttributeChange::Hyperlink(value) => {
                let link = clone_link(value)?;
                self.change_hyperlink(alloc, link)?;
            }
        }
        Ok(())
    }

    /// Whether all attributes but the colours and the link are equal.
    pub fn attribute_bits_equal(&self, other: &CellAttributes) -> bool
        ensures { IsTrue result ↔ (without_colors self.now ≡ without_colors other.now) }
    {
        self.form.style().has_same_bits(other.form.style())
    }

    /// Whether all attributes but the background have their defaults.
    #[doc(hidden)]
    #[tactic(auto, using(crate::proofs::PlainAttributes::plain))]
    pub fn has_only_background(&self) -> bool
        ensures { result ≡ has_only_background self.now }
    {
        self.has_default_bits()
            && (is_default_color(self.foreground())
                && (is_default_color(self.underline_color()) && self.hyperlink().is_none()))
    }

    // Whether all attributes but the colours and the link have their defaults.
    fn has_default_bits(&self) -> bool
        ensures { result ≡ bytes_eq (bits_of self.now) (bits_of default_attributes) }
    {
        self.attribute_bits_equal(&CellAttributes::blank())
    }

    #[inline]
    fn is_same(&self, other: &CellAttributes) -> bool
        ensures { result ≡ attributes_eq self.now other.now }
    {
        self.form.is_same(&other.form)
    }
}

impl Clone for CellAttributes {
    ghost is_clone = { λ a b. b ≡ a };

    ghost is_infallible = { λ a. needs_box a ≡ false };

    fn clone(&self) -> Result<CellAttributes, AllocError> {
        let form = self.form.copied()?;
        Ok(CellAttributes { form })
    }
}

impl PartialEq for CellAttributes {
    ghost eq = { attributes_eq };

    ghost laws = { partial_equiv_from_equiv (decided attributes_eq attributes_eq-Decides) };

    #[inline]
    fn eq(&self, other: &CellAttributes) -> bool
        ensures value { result ≡ attributes_eq self.now other.now }
        ensures same { IsTrue result ↔ (self.now ≡ other.now) }
    {
        self.is_same(other)
    }
}

impl Eq for CellAttributes {
    ghost laws = { decided attributes_eq attributes_eq-Decides };
}

impl Default for CellAttributes {
    ghost is_default = { λ a. a ≡ default_attributes };

    fn default() -> CellAttributes {
        CellAttributes::blank()
    }
}
