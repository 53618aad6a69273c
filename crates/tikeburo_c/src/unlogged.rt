//! Lists of changes that aren't logged: they borrow the texts that they print.
ghost use Rattle.std.specs.Prelude.{◌≡◌, ◌⊎◌, Err, IfErr, IfOk, Ok, map};
ghost use Rattle.termwiz_surface.specs.Unlogged.{lent_value};
ghost use Rattle.tikeburo_c.specs.Lists as listed;
ghost use Rattle.tikeburo_c.specs.declared.failure.Failure.TheVariants.{Memory};

use crate::failure::Failure;
use crate::lists::{ChangeFields, Kind, change_in, color_of, kind_in, pen_in, text_in, text_len};
use std::alloc::Global;
use termwiz_surface::{AttributeChange, Change, LentChange};

// A change that borrows the text that it prints or the title that it sets. Texts, pens and colours
// of texts are the most frequent, and take no call of `change_in`.
fn lent_in<'a>(
    alloc: Global,
    kind: Kind,
    fields: &ChangeFields,
    text: &'a [u8],
) -> Result<LentChange<'a>, Failure>
    ensures found { IfOk result (λ change.
        listed.change_in kind fields.now text.now ≡ Ok (lent_value change)) }
    ensures missing { IfErr result (λ failure. (failure ≡ Memory)
        ⊎ (listed.change_in kind fields.now text.now ≡ Err failure)) }
{
    match kind {
        Kind::Text => Ok(LentChange::Text(text_in(text)?)),
        Kind::Title => Ok(LentChange::Title(text_in(text)?)),
        Kind::Pen => {
            let pen = pen_in(alloc, fields, text)?;
            Ok(LentChange::Owned(Change::AllAttributes(pen)))
        }
        Kind::Foreground => {
            let color = color_of(&fields.attributes.foreground)?;
            Ok(LentChange::Owned(Change::Attribute(AttributeChange::Foreground(color))))
        }
        _ => Ok(LentChange::Owned(change_in(alloc, kind, fields, text)?)),
    }
}

// The first change of a list, which borrows its text, and the texts of the others.
fn first_lent_in<'a>(
    alloc: Global,
    fields: &ChangeFields,
    texts: &'a [u8],
) -> Result<(LentChange<'a>, &'a [u8]), Failure>
    ensures found { IfOk result (λ x.
        listed.first_change_in fields.now texts.now ≡ Ok (lent_value x.0, x.1.now)) }
    ensures missing { IfErr result (λ failure. (failure ≡ Memory)
        ⊎ (listed.first_change_in fields.now texts.now ≡ Err failure)) }
{
    let kind = kind_in(fields.kind)?;
    let len = text_len(kind, fields);
    if texts.len() < len {
        return Err(Failure::Range);
    }
    let (text, others) = texts.split_at(len);
    let change = lent_in(alloc, kind, fields, text)?;
    Ok((change, others))
}

/// The changes of a list, which borrow their texts.
#[tactic(auto, using(crate::proofs::Listed::from_first))]
pub(crate) fn listed_lent_in<'a>(
    alloc: Global,
    list: &[ChangeFields],
    texts: &'a [u8],
) -> Result<Vec<LentChange<'a>>, Failure>
    ensures found { IfOk result (λ changes.
        listed.listed_in list.now texts.now ≡ Ok (map lent_value changes.items)) }
    ensures missing { IfErr result (λ failure. (failure ≡ Memory)
        ⊎ (listed.listed_in list.now texts.now ≡ Err failure)) }
{
    let mut changes = Vec::with_capacity(alloc, list.len())?;
    let mut rest = texts;
    for fields in list {
        let (change, others) = first_lent_in(alloc, fields, rest)?;
        changes.push(change)?;
        rest = others;
    }
    if !rest.is_empty() {
        return Err(Failure::Range);
    }
    Ok(changes)
}
