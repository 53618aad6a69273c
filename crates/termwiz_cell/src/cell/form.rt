//! The two forms of attributes: the word and the fallbacks alone, and a box with the rare
//! attributes too.
ghost use Rattle.std.specs.Prelude.{◌≡◌, ◌↔◌, IfOk, IsNone, IsTrue, MatchOption, OnErr, option_map};
ghost use Rattle.termwiz_cell.specs.{IsOk, LendsStyle, None, OnOk, false, is_default, linked, sem};
ghost use Rattle.termwiz_cell.specs.{no_fallbacks, option_link_eq, style_at, style_sgr_only, true};
ghost use Rattle.termwiz_cell.specs.AttributesLayout as spec;

use super::fallback_word::FallbackWord;
use super::style_word::StyleWord;
use crate::color::{ColorAttribute, PaletteIndex, is_same_color};
use crate::hyperlink::{Hyperlink, LinkCopies};
use std::alloc::{AllocError, Global};
use std::rc::Rc;

/// Attributes in one of two forms. They are `Boxed` only while a rare attribute isn't default.
#[derive(Drop)]
pub(super) enum Form {
    Plain(FallbackWord, StyleWord),
    Boxed(Box<Full>),
}

// The fallbacks come first, and fit between the variant's tag and the word.
const _: () = prove!(size_of::<Form>() == 16);

/// The fallbacks, the word, and the rare attributes: the underline colour and the link.
#[derive(Drop)]
pub(super) struct Full {
    pub(super) fallbacks: FallbackWord,
    pub(super) style: StyleWord,
    pub(super) underline_color: ColorAttribute,
    pub(super) hyperlink: Option<Rc<Hyperlink>>,
}

impl Full {
    /// Whether all rare attributes have their defaults.
    fn is_default(&self) -> bool
        ensures { result ≡ spec.is_rare_default (spec.full_rare self.now) }
    {
        is_default_color(self.underline_color) && self.hyperlink.is_none()
    }

    /// A copy in a box of its own. It is kept out of line, so that the path of plain attributes is
    /// short.
    #[inline(never)]
    fn copied(&self, alloc: Global) -> Result<Form, AllocError>
        requires { spec.is_rare_default (spec.full_rare self.now) ≡ false }
        ensures fallbacks { IfOk result (λ copy. spec.fallbacks_in copy ≡ self.now.fallbacks) }
        ensures style { IfOk result (λ copy. spec.style_in copy ≡ self.now.style) }
        ensures rare { IfOk result (λ copy. spec.rare_in copy ≡ spec.full_rare self.now) }
        ensures needed { IfOk result (λ copy. spec.IsNeeded copy) }
    {
        let hyperlink = clone_link(&self.hyperlink)?;
        let copy = Full {
            fallbacks: self.fallbacks.copied(),
            style: self.style.copied(),
            underline_color: self.underline_color,
            hyperlink,
        };
        Ok(Form::Boxed(Box::new(alloc, copy)?))
    }

    /// Whether both are the same. It is kept out of line, so that the path of plain attributes is
    /// short.
    #[inline(never)]
    fn is_same(&self, other: &Full) -> bool
        ensures { IsTrue result
            ↔ ((self.now.style ≡ other.now.style)
            × (self.now.fallbacks ≡ other.now.fallbacks)
            × (spec.full_rare self.now ≡ spec.full_rare other.now)) }
    {
        self.style.is_same(&other.style)
            && self.fallbacks.is_same(&other.fallbacks)
            && self.is_same_rare(other)
    }

    fn is_same_rare(&self, other: &Full) -> bool
        ensures { IsTrue result ↔ (spec.full_rare self.now ≡ spec.full_rare other.now) }
    {
        self.has_same_parts(other)
    }

    fn has_same_parts(&self, other: &Full) -> bool
        ensures { result ≡ spec.rare_eq (spec.full_rare self.now) (spec.full_rare other.now) }
    {
        is_same_color(self.underline_color, other.underline_color)
            && is_same_link(self.hyperlink.as_ref(), other.hyperlink.as_ref())
    }
}

impl Form {
    /// The word's attributes.
    pub(super) fn style(&self) -> &StyleWord
        ensures { result.now ≡ spec.style_in self.now }
    {
        match self {
            Form::Plain(_, style) => style,
            Form::Boxed(full) => &full.style,
        }
    }

    /// The word's attributes, for writing.
    pub(super) fn style_mut(&mut self) -> &mut StyleWord
        ensures* writes_back { sem 𝓛 (LendsStyle self.entry result) }
        ensures value { result.now ≡ spec.style_in self.old }
    {
        match self {
            Form::Plain(_, style) => style,
            Form::Boxed(full) => &mut full.style,
        }
    }

    /// The fallbacks of the word's colours.
    pub(super) fn fallbacks(&self) -> &FallbackWord
        ensures { result.now ≡ spec.fallbacks_in self.now }
    {
        match self {
            Form::Plain(fallbacks, _) => fallbacks,
            Form::Boxed(full) => &full.fallbacks,
        }
    }

    /// Sets the fallback of the text's colour.
    pub(super) fn set_foreground_fallback(&mut self, value: Option<PaletteIndex>)
        requires { spec.IsNeeded self.old }
        ensures fallbacks { spec.fallbacks_in self.new
            ≡ record (spec.fallbacks_in self.old) { foreground = value } }
        ensures style { spec.style_in self.new ≡ spec.style_in self.old }
        ensures rare { spec.rare_in self.new ≡ spec.rare_in self.old }
        ensures needed { spec.IsNeeded self.new }
    {
        match self {
            Form::Plain(fallbacks, _) => fallbacks.set_foreground(value),
            Form::Boxed(full) => full.fallbacks.set_foreground(value),
        }
    }

    /// Sets the fallback of the background's colour.
    pub(super) fn set_background_fallback(&mut self, value: Option<PaletteIndex>)
        requires { spec.IsNeeded self.old }
        ensures fallbacks { spec.fallbacks_in self.new
            ≡ record (spec.fallbacks_in self.old) { background = value } }
        ensures style { spec.style_in self.new ≡ spec.style_in self.old }
        ensures rare { spec.rare_in self.new ≡ spec.rare_in self.old }
        ensures needed { spec.IsNeeded self.new }
    {
        match self {
            Form::Plain(fallbacks, _) => fallbacks.set_background(value),
            Form::Boxed(full) => full.fallbacks.set_background(value),
        }
    }

    /// Whether all attributes have their defaults.
    pub(super) fn is_blank(&self) -> bool
        requires { spec.IsNeeded self.now }
        ensures { IsTrue result
            ↔ ((spec.style_in self.now ≡ style_at 0)
            × (spec.fallbacks_in self.now ≡ no_fallbacks)
            × (spec.rare_in self.now ≡ spec.rare_default)) }
    {
        match self {
            Form::Plain(fallbacks, style) => style.is_blank() && fallbacks.are_none(),
            Form::Boxed(_) => false,
        }
    }

    /// The underline colour, or the default where there is no box.
    pub(super) fn underline_color(&self) -> ColorAttribute
        ensures { result ≡ (spec.rare_in self.now).underline_color }
    {
        match self {
            Form::Plain(_, _) => ColorAttribute::Default,
            Form::Boxed(full) => full.underline_color,
        }
    }

    /// The link, or `None` where there is no box.
    pub(super) fn hyperlink(&self) -> Option<&Rc<Hyperlink>>
        ensures { option_map (λ rc. rc.now.value) result ≡ (spec.rare_in self.now).hyperlink }
    {
        match self {
            Form::Plain(_, _) => None,
            Form::Boxed(full) => full.hyperlink.as_ref(),
        }
    }

    /// Sets the underline colour. It can only fail where the new attributes need a box and the old
    /// ones had none.
    #[tactic(auto, using(crate::proofs::Boxes::rare_default_only))]
    pub(super) fn set_underline_color(
        &mut self,
        alloc: Global,
        value: ColorAttribute,
    ) -> Result<(), AllocError>
        requires { spec.IsNeeded self.old }
        ensures ok { OnOk result (
            spec.rare_in self.new ≡ record (spec.rare_in self.old) { underline_color = value }) }
        ensures err { OnErr result (spec.rare_in self.new ≡ spec.rare_in self.old) }
        ensures fallbacks { spec.fallbacks_in self.new ≡ spec.fallbacks_in self.old }
        ensures style { spec.style_in self.new ≡ spec.style_in self.old }
        ensures needed { spec.IsNeeded self.new }
        ensures boxed { IsTrue (spec.is_boxed self.old) → IsOk result }
        ensures succeeds { spec.is_rare_default (record
            (spec.rare_in self.old) { underline_color = value }) ≡ true → IsOk result }
    {
        match self {
            Form::Plain(fallbacks, style) => {
                if !is_default_color(value) {
                    let made = Full {
                        fallbacks: fallbacks.copied(),
                        style: style.copied(),
                        underline_color: value,
                        hyperlink: None,
                    };
                    *self = Form::Boxed(Box::new(alloc, made)?);
                }
            }
            Form::Boxed(full) => {
                full.underline_color = value;
                if full.is_default() {
                    *self = Form::Plain(full.fallbacks.copied(), full.style.copied());
                }
            }
        }
        Ok(())
    }

    /// Sets the link. It can only fail where the new attributes need a box and the old ones had
    /// none.
    #[tactic(auto, using(crate::proofs::Boxes::rare_default_only))]
    pub(super) fn set_hyperlink(
        &mut self,
        alloc: Global,
        value: Option<Rc<Hyperlink>>,
    ) -> Result<(), AllocError>
        requires { spec.IsNeeded self.old }
        ensures ok { OnOk result (
            spec.rare_in self.new ≡ record (spec.rare_in self.old) { hyperlink = linked value }) }
        ensures err { OnErr result (spec.rare_in self.new ≡ spec.rare_in self.old) }
        ensures fallbacks { spec.fallbacks_in self.new ≡ spec.fallbacks_in self.old }
        ensures style { spec.style_in self.new ≡ spec.style_in self.old }
        ensures needed { spec.IsNeeded self.new }
        ensures boxed { IsTrue (spec.is_boxed self.old) → IsOk result }
        ensures succeeds { IsNone value → IsOk result }
    {
        match self {
            Form::Plain(fallbacks, style) => {
                if value.is_some() {
                    let made = Full {
                        fallbacks: fallbacks.copied(),
                        style: style.copied(),
                        underline_color: ColorAttribute::Default,
                        hyperlink: value,
                    };
                    *self = Form::Boxed(Box::new(alloc, made)?);
                }
            }
            Form::Boxed(full) => {
                full.hyperlink = value;
                if full.is_default() {
                    *self = Form::Plain(full.fallbacks.copied(), full.style.copied());
                }
            }
        }
        Ok(())
    }

    /// Gives them a link of their own, if they have one.
    #[inline]
    pub(super) fn own_link(
        &mut self,
        alloc: Global,
        copies: &mut LinkCopies,
    ) -> Result<(), AllocError>
        requires { spec.IsNeeded self.old }
        ensures fallbacks { spec.fallbacks_in self.new ≡ spec.fallbacks_in self.old }
        ensures style { spec.style_in self.new ≡ spec.style_in self.old }
        ensures rare { spec.rare_in self.new ≡ spec.rare_in self.old }
        ensures needed { spec.IsNeeded self.new }
        ensures succeeds { (spec.rare_in self.old).hyperlink ≡ None → IsOk result }
    {
        match self {
            Form::Plain(..) => Ok(()),
            Form::Boxed(full) => own_link(alloc, &mut full.hyperlink, copies),
        }
    }

    /// Whether both are the same attributes.
    #[inline]
    pub(super) fn is_same(&self, other: &Form) -> bool
        requires self_needed { spec.IsNeeded self.now }
        requires other_needed { spec.IsNeeded other.now }
        ensures { IsTrue result
            ↔ ((spec.style_in self.now ≡ spec.style_in other.now)
            × (spec.fallbacks_in self.now ≡ spec.fallbacks_in other.now)
            × (spec.rare_in self.now ≡ spec.rare_in other.now)) }
    {
        match (self, other) {
            (Form::Plain(a_fallbacks, a), Form::Plain(b_fallbacks, b)) => {
                a.is_same(b) && a_fallbacks.is_same(b_fallbacks)
            }
            (Form::Boxed(a), Form::Boxed(b)) => a.is_same(b),
            _ => false,
        }
    }

    /// A copy. It can only fail where it needs a box.
    pub(super) fn copied(&self) -> Result<Form, AllocError>
        requires { spec.IsNeeded self.now }
        ensures fallbacks { IfOk result (λ copy.
            spec.fallbacks_in copy ≡ spec.fallbacks_in self.now) }
        ensures style { IfOk result (λ copy. spec.style_in copy ≡ spec.style_in self.now) }
        ensures rare { IfOk result (λ copy. spec.rare_in copy ≡ spec.rare_in self.now) }
        ensures needed { IfOk result (λ copy. spec.IsNeeded copy) }
        ensures succeeds { spec.is_boxed self.now ≡ false → IsOk result }
    {
        match self {
            Form::Plain(fallbacks, style) => Ok(Form::Plain(fallbacks.copied(), style.copied())),
            Form::Boxed(full) => full.copied(*Box::allocator(full)),
        }
    }

    /// A copy, or `None` where there is a box.
    #[inline]
    pub(super) fn unboxed_copy(&self) -> Option<Form>
        ensures { MatchOption result (spec.is_boxed self.now ≡ true) (λ copy. (copy ≡ self.now)
            × (spec.is_boxed self.now ≡ false)) }
    {
        match self {
            Form::Plain(fallbacks, style) => Some(Form::Plain(fallbacks.copied(), style.copied())),
            Form::Boxed(_) => None,
        }
    }

    /// A copy with the semantic type `Output`, and without underline, overline, strike through and
    /// link. It can only fail where the copy needs a box.
    pub(super) fn sgr_only(&self, alloc: Global) -> Result<Form, AllocError>
        ensures fallbacks { IfOk result (λ copy.
            spec.fallbacks_in copy ≡ spec.fallbacks_in self.now) }
        ensures style { IfOk result (λ copy.
            spec.style_in copy ≡ style_sgr_only (spec.style_in self.now)) }
        ensures rare { IfOk result (λ copy.
            spec.rare_in copy ≡ record (spec.rare_in self.now) { hyperlink = None }) }
        ensures needed { IfOk result (λ copy. spec.IsNeeded copy) }
        ensures succeeds { spec.is_rare_default (record
            (spec.rare_in self.now) { hyperlink = None }) ≡ true → IsOk result }
    {
        let style = self.style().sgr_only();
        match self {
            Form::Plain(fallbacks, _) => Ok(Form::Plain(fallbacks.copied(), style)),
            Form::Boxed(full) => {
                if is_default_color(full.underline_color) {
                    return Ok(Form::Plain(full.fallbacks.copied(), style));
                }
                let copy = Full {
                    fallbacks: full.fallbacks.copied(),
                    style,
                    underline_color: full.underline_color,
                    hyperlink: None,
                };
                Ok(Form::Boxed(Box::new(alloc, copy)?))
            }
        }
    }
}

pub(super) fn clone_link(link: &Option<Rc<Hyperlink>>) -> Result<Option<Rc<Hyperlink>>, AllocError>
    ensures ok { IfOk result (λ copy. linked copy ≡ linked link.now) }
    ensures succeeds { IsNone link.now → IsOk result }
{
    match link {
        None => Ok(None),
        Some(link) => {
            let copy = link.clone()?;
            Ok(Some(copy))
        }
    }
}

/// Puts a copy in the link's place, if there is one. It stays as it is, even after an error.
pub(super) fn own_link(
    alloc: Global,
    link: &mut Option<Rc<Hyperlink>>,
    copies: &mut LinkCopies,
) -> Result<(), AllocError>
    ensures same { linked link.new ≡ linked link.old }
    ensures succeeds { linked link.old ≡ None → IsOk result }
{
    let copy = match link {
        None => return Ok(()),
        Some(found) => copies.copy(alloc, &**found)?,
    };
    *link = Some(copy);
    Ok(())
}

pub(super) fn is_default_color(color: ColorAttribute) -> bool
    ensures { result ≡ is_default color }
{
    matches!(color, ColorAttribute::Default)
}

pub(super) fn is_same_link(a: Option<&Rc<Hyperlink>>, b: Option<&Rc<Hyperlink>>) -> bool
    ensures { result
        ≡ option_link_eq (option_map (λ rc. rc.now.value) a.entry)
        (option_map (λ rc. rc.now.value) b.entry) }
{
    match (a, b) {
        (None, None) => true,
        (Some(a), Some(b)) => **a == **b,
        _ => false,
    }
}
